//! What an outcome makes of the saves.

ghost use Rattle.std.specs.Prelude.{◌≡◌, ◌<◌, ℕ, None, true, is_some};
ghost use Rattle.hx_events.specs.declared.event.Event.TheVariants.{Act};
ghost use Rattle.hx_seq.specs.Keeps.{may_come, stand_in};
ghost use Rattle.hx_resource.specs.Kept.{asks_seq, is_save, seq_after, starts_run};
ghost use Rattle.hx_resource.specs.Rooms.{CanSave, TicketRoom};

use hx_events::{Command, Event, Outcome};
use hx_rules::{Asked, SaveAnswer};
use hx_seq::Sequencer;

fn note(seq: &mut Sequencer, event: &Event, place: u64, last: u64, asked: Asked)
    requires room { TicketRoom event.now seq.old.room }
    requires new { stand_in place seq.old.seq.tickets ≡ None }
    requires may_come { may_come asked seq.old.seq.run ≡ true }
    ensures { seq.new.seq ≡ asks_seq event.now place last asked seq.old.seq }
{
    match event {
        Event::Act(command) => note_command(seq, command, place, last, asked),
        _ => {}
    }
}

fn note_command(seq: &mut Sequencer, command: &Command, place: u64, last: u64, asked: Asked)
    requires room { TicketRoom (Act command.now) seq.old.room }
    requires new { stand_in place seq.old.seq.tickets ≡ None }
    requires may_come { may_come asked seq.old.seq.run ≡ true }
    ensures { seq.new.seq ≡ asks_seq (Act command.now) place last asked seq.old.seq }
{
    match command {
        Command::Save { force, over, .. } => seq.note(asked, place, last, *force, *over),
        _ => {}
    }
}

// Changes the saves by the outcome of an event with this place, where the copy is `dirty` after it.
pub(crate) fn change_saves(
    seq: &mut Sequencer,
    outcome: Outcome,
    event: &Event,
    place: u64,
    last: u64,
    dirty: bool,
)
    requires can { CanSave outcome seq.old.seq.run }
    requires room { TicketRoom event.now seq.old.room }
    requires new { stand_in place seq.old.seq.tickets ≡ None }
    ensures { seq.new.seq ≡ seq_after outcome event.now place last dirty seq.old.seq }
{
    match outcome {
        Outcome::Joined => note(seq, event, place, last, Asked::Joined),
        Outcome::Clean => note(seq, event, place, last, Asked::Clean),
        Outcome::Queued => note(seq, event, place, last, Asked::Queued),
        Outcome::Started(_) => note(seq, event, place, last, Asked::Started),
        Outcome::Checked(_) => seq.checked(),
        Outcome::CheckFault | Outcome::WriteFault(_) => {
            let _ = seq.finish(last, dirty, SaveAnswer::DiskFault);
        }
        Outcome::Modified(_) => {
            let _ = seq.finish(last, dirty, SaveAnswer::ModifiedSince);
        }
        Outcome::Unguarded(_) => {
            let _ = seq.finish(last, dirty, SaveAnswer::Unguarded);
        }
        Outcome::Saved(version, _) => {
            let _ = seq.finish(last, dirty, SaveAnswer::Saved(version));
        }
        _ => {}
    }
}

pub(crate) fn is_save_event(event: &Event) -> bool
    ensures { result ≡ is_save event.now }
{
    match event {
        Event::Act(command) => is_save_command(command),
        _ => false,
    }
}

fn is_save_command(command: &Command) -> bool
    ensures { result ≡ is_save (Act command.now) }
{
    matches!(command, Command::Save { .. })
}

// Whether a save starts with the outcome; `next` says whether a finish would start what waits.
pub(crate) fn starts_save(outcome: Outcome, event: &Event, next: bool) -> bool
    ensures { result ≡ starts_run outcome event.now next }
{
    match outcome {
        Outcome::Started(_) => is_save_event(event),
        Outcome::CheckFault
        | Outcome::Modified(_)
        | Outcome::WriteFault(_)
        | Outcome::Unguarded(_)
        | Outcome::Saved(_, _) => next,
        _ => false,
    }
}
