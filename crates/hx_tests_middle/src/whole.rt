//! Whether entries name only resources of their life.

ghost use Rattle.std.specs.Prelude.{◌≡◌, ◌<◌, true, length};
ghost use Rattle.hx_core.specs.Cores.{IsEventOf as IsEventBelow};
ghost use Rattle.hx_events.specs.Texts.{IsEventOf, IsOutcomeOf};
ghost use Rattle.hx_report.specs.Traces.{AreEntriesOf, AreWhole, IsWhole};

use hx_events::{Entry, Event, Life, Names, Outcome, ResNo};

/// The resource that the event is of.
pub(crate) fn resource(event: &Event) -> Option<ResNo> {
    match event {
        Event::Act(command) => Some(command.resource()),
        Event::Vault(res) | Event::Flush(res) => Some(*res),
        Event::Quit => None,
    }
}

/// Whether the event is of one of the first resources, of which there are so many.
pub(crate) fn is_below(count: usize, event: &Event) -> bool
    ensures { result ≡ true → IsEventBelow count event.now }
{
    match event {
        Event::Act(command) => (command.resource().number() as usize) < count,
        Event::Vault(res) => (res.number() as usize) < count,
        Event::Flush(res) => (res.number() as usize) < count,
        Event::Quit => true,
    }
}

fn is_event_of(names: &Names, event: &Event) -> bool
    ensures { result ≡ true → IsEventOf names.now event.now }
{
    let count = names.len();
    match event {
        Event::Act(command) => (command.resource().number() as usize) < count,
        Event::Vault(res) => (res.number() as usize) < count,
        Event::Flush(res) => (res.number() as usize) < count,
        Event::Quit => true,
    }
}

fn is_outcome_of(names: &Names, outcome: &Outcome) -> bool
    ensures { result ≡ true → IsOutcomeOf names.now outcome.now }
{
    match outcome {
        Outcome::Vetoed(res) => (res.number() as usize) < names.len(),
        _ => true,
    }
}

fn are_entries_of(names: &Names, entries: &[Entry]) -> bool
    ensures { result ≡ true → AreEntriesOf names.now entries.now }
{
    match entries {
        [] => true,
        [first, rest @ ..] => {
            is_event_of(names, &first.event)
                && is_outcome_of(names, &first.outcome)
                && are_entries_of(names, rest)
        }
    }
}

pub(crate) fn is_whole(life: &Life) -> bool
    ensures { result ≡ true → IsWhole life.now }
{
    are_entries_of(&life.names, life.history.as_slice())
}

pub(crate) fn are_whole(lives: &[Life]) -> bool
    ensures { result ≡ true → AreWhole lives.now }
{
    match lives {
        [] => true,
        [first, rest @ ..] => is_whole(first) && are_whole(rest),
    }
}
