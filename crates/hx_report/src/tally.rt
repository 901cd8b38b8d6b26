ghost use Rattle.std.specs.Prelude.{◌≡◌, ◌+◌, ◌<◌, ◌^◌, ◌++◌, ℕ, [], ◌∷◌, length, List, Some, is_some, slice_get, IfOk, OnOk};
ghost use Rattle.hx_events.specs.declared.life.Entry.{Entry};
ghost use Rattle.hx_events.specs.Texts.{name_of};
ghost use Rattle.hx_rules.specs.Entries.{past};
ghost use Rattle.hx_rules.specs.Legal.{Opening, count_below, found_backup};
ghost use Rattle.hx_report.specs.Traces.{AreEntriesOf, IsWhole};
ghost use Rattle.hx_report.specs.Tails.{opening, ticket_of};
ghost use Rattle.hx_report.specs.Outlines.{AreUpTo, IsTallied, dirty_in, first_outline, named, share_by, ticket, ticket_if};

use crate::outline::Outline;
use crate::share::{Share, share_by};
use hx_events::{Command, Entry, Event, Life, Names, Outcome, PairFound, ResNo};
use std::alloc::{AllocError, Global};

/// A request to save that found its copy open.
#[derive(Drop)]
pub(crate) struct Ticket {
    /// The place of its entry in the life, from 1.
    pub(crate) place: u64,
    pub(crate) res: ResNo,
    pub(crate) share: Share,
}

/// What the entries that were read leave: an outline of each resource, and the tickets in the order in which they were asked.
#[derive(Drop)]
pub(crate) struct Tally {
    pub(crate) outlines: Vec<Outline>,
    pub(crate) tickets: Vec<Ticket>,
}

impl Tally {
    // Reads the history of a life once.
    pub(crate) fn of_life(alloc: Global, life: &Life) -> Result<Tally, AllocError>
        requires { IsWhole life.now }
        ensures tallied { IfOk result (λ tally. IsTallied (opening life.now) (past life.now.history) tally) }
        ensures count { IfOk result (λ tally. length tally.outlines.items ≡ length life.now.names) }
    {
        let mut tally = Tally {
            outlines: first_outlines(alloc, &life.names, life.base.as_slice())?,
            tickets: Vec::new(alloc),
        };
        tally.note_all(&life.names, life.history.as_slice())?;
        Ok(tally)
    }

    // How many copies are dirty.
    pub(crate) fn dirty(&self) -> usize
        ensures { result ≡ count_below (dirty_in self.now.outlines.items) (length self.now.outlines.items) }
    {
        let mut count = 0;
        for outline in &self.outlines {
            count += outline.is_dirty() as usize;
        }
        count
    }

    fn note_all(&mut self, names: &Names, history: &[Entry]) -> Result<(), AllocError>
        requires known { AreEntriesOf names.now history.now }
        requires count { length self.old.outlines.items ≡ length names.now }
        requires early { AreUpTo 1 self.old.outlines.items }
        ensures tallied { OnOk result ((o : Opening) → IsTallied o [] self.old → IsTallied o (past history.now) self.new) }
        ensures count { OnOk result (length self.new.outlines.items ≡ length self.old.outlines.items) }
    {
        for (index, entry) in history.iter().enumerate() {
            match named(&entry.event) {
                None => {}
                Some(res) => self.note(index as u64 + 1, res, &entry.event, &entry.outcome)?,
            }
        }
        Ok(())
    }

    // Takes one entry, which is of the resource.
    fn note(
        &mut self,
        place: u64,
        res: ResNo,
        event: &Event,
        outcome: &Outcome,
    ) -> Result<(), AllocError>
        requires named { named event.now ≡ Some res }
        requires known { res < length self.old.outlines.items }
        requires early { AreUpTo place self.old.outlines.items }
        requires few { place < 2 ^ 63 }
        ensures later { OnOk result (AreUpTo (place + 1) self.new.outlines.items) }
        ensures count { OnOk result (length self.new.outlines.items ≡ length self.old.outlines.items) }
        ensures tallied { OnOk result ((o : Opening) (e : Entry) (es : List Entry) → e.event ≡ event.now → e.outcome ≡ outcome.now → place ≡ length es + 1 → IsTallied o es self.old → IsTallied o (e ∷ es) self.new) }
    {
        let outline = &mut self.outlines[res.number() as usize];
        let ended = outline.saves.ended();
        note_ticket(&mut self.tickets, place, res, event, outcome, ended)?;
        outline.note(event, outcome)
    }
}

// Keeps the ticket of the entry, if it has one, where so many saves of its resource have ended.
fn note_ticket(
    tickets: &mut Vec<Ticket>,
    place: u64,
    res: ResNo,
    event: &Event,
    outcome: &Outcome,
    ended: usize,
) -> Result<(), AllocError>
    requires { ended < 2 ^ 63 }
    ensures { OnOk result (tickets.new.items ≡ tickets.old.items ++ ticket_if (is_some (ticket_of event.now outcome.now)) (ticket place res (share_by outcome.now ended))) }
{
    if has_ticket(event, outcome) {
        let share = share_by(outcome, ended);
        tickets.push(Ticket { place, res, share })?;
    }
    Ok(())
}

// An outline for each name.
fn first_outlines(
    alloc: Global,
    names: &Names,
    base: &[PairFound],
) -> Result<Vec<Outline>, AllocError>
    ensures count { IfOk result (λ all. length all.items ≡ length names.now) }
    ensures each { IfOk result (λ all. (k : ℕ) (x : Outline) → slice_get all.items k ≡ Some x → x ≡ first_outline (is_some (found_backup (name_of names.now k) base.now))) }
{
    let mut outlines = Vec::with_capacity(alloc, names.len())?;
    for place in 0..names.len() {
        let name = names.text(ResNo::new(place as u32));
        outlines.push(Outline::first(alloc, is_restored(name, base))?)?;
    }
    Ok(outlines)
}

// Whether a backup of the resource was found.
fn is_restored(resource: &[u8], base: &[PairFound]) -> bool
    ensures { result ≡ is_some (found_backup resource.now base.now) }
{
    for pair in base {
        if let PairFound::Found(backup, _) = pair {
            if backup.resource.as_slice() == resource {
                return true;
            }
        }
    }
    false
}

/// The resource that the event is of, if it is of one.
pub fn named(event: &Event) -> Option<ResNo>
    ensures { result ≡ named event.now }
{
    match event {
        Event::Act(command) => Some(command.resource()),
        Event::Vault(res) => Some(*res),
        Event::Flush(res) => Some(*res),
        Event::Quit => None,
    }
}

// Whether the entry is a request to save that found its copy open.
fn has_ticket(event: &Event, outcome: &Outcome) -> bool
    ensures { result ≡ is_some (ticket_of event.now outcome.now) }
{
    !matches!(outcome, Outcome::NotOpen) && matches!(event, Event::Act(Command::Save { .. }))
}
