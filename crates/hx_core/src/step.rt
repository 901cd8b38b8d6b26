//! One step of a life.

ghost use Rattle.std.specs.Prelude.{◌≡◌, ℕ, OnOk, ◌+◌, ◌<◌, ◌≤◌, ◌^◌, ◌∷◌, ◌++◌, ◌||◌, ◌&&◌, [], true, length, Some, None};
ghost use Rattle.hx_events.specs.declared.event.Event.TheVariants.{Act};
ghost use Rattle.hx_events.specs.declared.life.Entry.{Entry};
ghost use Rattle.hx_rules.specs.Entries.{past};
ghost use Rattle.hx_rules.specs.Legal.{is_row, is_spent, is_unsafe, lacks_pair, lowest, quit_row};
ghost use Rattle.hx_resource.specs.Asks.{FitsAsked};
ghost use Rattle.hx_resource.specs.Rooms.{got_content};
ghost use Rattle.hx_core.specs.Listed.{listed_after, res_of};
ghost use Rattle.hx_core.specs.Cores.{BackupsRoom, IsEventOf, ResourceRoom, StepRoom, asks_at, named, outcome_at, quit_outcome, takes_pair, ListRoom};

use crate::machine::Core;
use hx_backups::Backups;
use hx_events::{Actor, Bytes, Command, Entry, Event, Outcome, ResNo, Stage};
use hx_resource::{Asked, Got};
use std::alloc::{AllocError, Global};

impl Core {
    /// Takes one event with the device's answer, and adds one entry. The outcome is the one that the rules settle, or the one
    /// that the answer gives; it is one that the event may have after the history so far.
    pub fn step(
        &mut self,
        actor: Actor,
        event: Event,
        got: Got,
        moment: u64,
        faults: u64,
    ) -> Outcome
        requires known { IsEventOf (length self.old.resources) event }
        requires fits { FitsAsked (asks_at self.old.opening (past self.old.history) event) got }
        requires room { StepRoom event (length (got_content got)) self.old }
        ensures entry { self.new.history ≡ self.old.history ++ record { moment = moment; faults = faults; actor = actor; event = event; outcome = result; content = got_content got } ∷ [] }
        ensures outcome { result ≡ outcome_at self.old.opening (past self.old.history) event got }
        ensures row { is_row self.old.opening (past self.old.history) event result ≡ true }
        ensures opening { self.new.opening ≡ self.old.opening }
        ensures names { self.new.names ≡ self.old.names }
        ensures first { self.new.first ≡ self.old.first }
        ensures count { length self.new.resources ≡ length self.old.resources }
    {
        match named(&event) {
            Some(res) => self.step_of(res, actor, event, got, moment, faults),
            None => self.answer_quit(actor, event, got, moment, faults),
        }
    }

    /// Who answers the event: the rules alone, with the outcome, or the device, by the work that it has to do.
    pub fn ask(&self, event: &Event) -> Asked
        requires known { IsEventOf (length self.now.resources) event.now }
        ensures { result ≡ asks_at self.now.opening (past self.now.history) event.now }
    {
        match named(event) {
            Some(res) => self.ask_of(res, event),
            None => self.ask_quit(event),
        }
    }

    fn ask_of(&self, res: ResNo, event: &Event) -> Asked
        requires named { named event.now ≡ Some res }
        requires known { res < length self.now.resources }
        ensures { result ≡ asks_at self.now.opening (past self.now.history) event.now }
    {
        // A history in memory is short enough for the counts to go on.
        let _ = self.next_place();
        let lacks = self.lacks_for(res, event);
        let resource = self.resource(res);
        resource.ask(self.guarded, lacks, event)
    }

    fn ask_quit(&self, event: &Event) -> Asked
        requires quit { named event.now ≡ None }
        ensures { result ≡ asks_at self.now.opening (past self.now.history) event.now }
    {
        let _ = event;
        Asked::Settled(self.quit_outcome())
    }

    /// Makes room for one step by this event that reads at most so many bytes of a file, by what the event needs and no more.
    /// Nothing else changes.
    pub fn reserve(&mut self, event: &Event, read: u64) -> Result<(), AllocError>
        requires known { IsEventOf (length self.old.resources) event.now }
        ensures room { OnOk result ((n : ℕ) → n ≤ read → StepRoom event.now n self.new) }
        ensures opening { self.new.opening ≡ self.old.opening }
        ensures names { self.new.names ≡ self.old.names }
        ensures first { self.new.first ≡ self.old.first }
        ensures history { self.new.history ≡ self.old.history }
        ensures count { length self.new.resources ≡ length self.old.resources }
    {
        self.reserve_entry(event)?;
        self.reserve_resource(event, read)
    }

    // Makes room for the entry, and for the backup that it may complete.
    fn reserve_entry(&mut self, event: &Event) -> Result<(), AllocError>
        ensures entry { OnOk result (0 < self.new.room) }
        ensures backups { OnOk result (BackupsRoom event.now self.new.backups.room) }
        ensures opening { self.new.opening ≡ self.old.opening }
        ensures names { self.new.names ≡ self.old.names }
        ensures first { self.new.first ≡ self.old.first }
        ensures history { self.new.history ≡ self.old.history }
        ensures resources { self.new.resources ≡ self.old.resources }
    {
        self.history.reserve(1)?;
        reserve_backup(&mut self.backups, event)
    }

    // Makes room at the event's resource, if it is of one.
    fn reserve_resource(&mut self, event: &Event, read: u64) -> Result<(), AllocError>
        requires known { IsEventOf (length self.old.resources) event.now }
        ensures resource { OnOk result ((n : ℕ) → n ≤ read → ResourceRoom event.now n self.new) }
        ensures room { self.new.room ≡ self.old.room }
        ensures backups { self.new.backups ≡ self.old.backups }
        ensures opening { self.new.opening ≡ self.old.opening }
        ensures names { self.new.names ≡ self.old.names }
        ensures first { self.new.first ≡ self.old.first }
        ensures history { self.new.history ≡ self.old.history }
        ensures count { length self.new.resources ≡ length self.old.resources }
    {
        match named(event) {
            Some(res) => self.reserve_of(res, event, read),
            None => Ok(()),
        }
    }

    // Makes room at the event's resource.
    fn reserve_of(&mut self, res: ResNo, event: &Event, read: u64) -> Result<(), AllocError>
        requires named { named event.now ≡ Some res }
        requires known { res < length self.old.resources }
        ensures resource { OnOk result ((n : ℕ) → n ≤ read → ResourceRoom event.now n self.new) }
        ensures room { self.new.room ≡ self.old.room }
        ensures backups { self.new.backups ≡ self.old.backups }
        ensures opening { self.new.opening ≡ self.old.opening }
        ensures names { self.new.names ≡ self.old.names }
        ensures first { self.new.first ≡ self.old.first }
        ensures history { self.new.history ≡ self.old.history }
        ensures count { length self.new.resources ≡ length self.old.resources }
    {
        self.resources[res.number() as usize].reserve(self.guarded, event, read)
    }

    // Takes an event of the resource.
    fn step_of(
        &mut self,
        res: ResNo,
        actor: Actor,
        event: Event,
        got: Got,
        moment: u64,
        faults: u64,
    ) -> Outcome
        requires named { named event ≡ Some res }
        requires known { res < length self.old.resources }
        requires fits { FitsAsked (asks_at self.old.opening (past self.old.history) event) got }
        requires room { StepRoom event (length (got_content got)) self.old }
        ensures entry { self.new.history ≡ self.old.history ++ record { moment = moment; faults = faults; actor = actor; event = event; outcome = result; content = got_content got } ∷ [] }
        ensures outcome { result ≡ outcome_at self.old.opening (past self.old.history) event got }
        ensures row { is_row self.old.opening (past self.old.history) event result ≡ true }
        ensures opening { self.new.opening ≡ self.old.opening }
        ensures names { self.new.names ≡ self.old.names }
        ensures first { self.new.first ≡ self.old.first }
        ensures count { length self.new.resources ≡ length self.old.resources }
    {
        let lacks = self.lacks_for(res, &event);
        let place = self.next_place();
        let resource = &mut self.resources[res.number() as usize];
        let stepped = resource.step(self.guarded, lacks, self.spent, place, &event, &got);
        let spent = spent_after(stepped.outcome, self.spent);
        self.spent = spent;
        list_backup(&mut self.backups, res, stepped.outcome);
        self.vault.put(res, stepped.vault);
        self.save.put(res, stepped.save);
        self.history.push_reserved(Entry {
            moment,
            faults,
            actor,
            event,
            outcome: stepped.outcome,
            content: content_of(self.alloc, got),
        });
        stepped.outcome
    }

    // The place of the next entry, from 1.
    pub(crate) fn next_place(&self) -> u64
        ensures place { result ≡ length self.now.history + 1 }
        ensures few { length self.now.history < 2 ^ 63 }
    {
        self.history.as_slice().len() as u64 + 1
    }

    // Whether the event takes a pair, and the resource has none and gets none.
    pub(crate) fn lacks_for(&self, res: ResNo, event: &Event) -> bool
        requires { res < length self.now.resources }
        ensures { result ≡ (takes_pair event.now && lacks_pair self.now.opening (past self.now.history) res) }
    {
        takes_pair(event) && self.lacks_pair(res)
    }

    // Answers whether the program may end.
    fn answer_quit(
        &mut self,
        actor: Actor,
        event: Event,
        got: Got,
        moment: u64,
        faults: u64,
    ) -> Outcome
        requires quit { named event ≡ None }
        requires fits { FitsAsked (asks_at self.old.opening (past self.old.history) event) got }
        requires room { StepRoom event (length (got_content got)) self.old }
        ensures entry { self.new.history ≡ self.old.history ++ record { moment = moment; faults = faults; actor = actor; event = event; outcome = result; content = got_content got } ∷ [] }
        ensures outcome { result ≡ outcome_at self.old.opening (past self.old.history) event got }
        ensures row { is_row self.old.opening (past self.old.history) event result ≡ true }
        ensures opening { self.new.opening ≡ self.old.opening }
        ensures names { self.new.names ≡ self.old.names }
        ensures first { self.new.first ≡ self.old.first }
        ensures count { length self.new.resources ≡ length self.old.resources }
    {
        let outcome = self.quit_outcome();
        let again = outcome;
        self.history.push_reserved(Entry {
            moment,
            faults,
            actor,
            event,
            outcome: again,
            content: content_of(self.alloc, got),
        });
        outcome
    }

    // The lowest copy that is dirty and not backed up vetoes the end of the program.
    pub(crate) fn quit_outcome(&self) -> Outcome
        ensures outcome { result ≡ quit_outcome (lowest self.now.opening (is_unsafe self.now.opening (past self.now.history))) }
        ensures row { quit_row (lowest self.now.opening (is_unsafe self.now.opening (past self.now.history))) result ≡ true }
    {
        match self.lowest_unsafe() {
            None => Outcome::Quit,
            Some(res) => Outcome::Vetoed(res),
        }
    }
}

// The resource that the event is of.
pub(crate) fn named(event: &Event) -> Option<ResNo>
    ensures { result ≡ named event.now }
{
    match event {
        Event::Act(command) => Some(command.resource()),
        Event::Vault(res) => Some(*res),
        Event::Flush(res) => Some(*res),
        Event::Quit => None,
    }
}

// Whether the event takes a pair of slot files.
pub(crate) fn takes_pair(event: &Event) -> bool
    ensures { result ≡ takes_pair event.now }
{
    match event {
        Event::Act(command) => opens(command),
        _ => false,
    }
}

fn opens(command: &Command) -> bool
    ensures { result ≡ takes_pair (Act command.now) }
{
    match command {
        Command::Open(_) => true,
        Command::Create(_) => true,
        _ => false,
    }
}

fn reserve_backup(backups: &mut Backups, event: &Event) -> Result<(), AllocError>
    ensures room { OnOk result (BackupsRoom event.now backups.new.room) }
    ensures pairs { backups.new.pairs ≡ backups.old.pairs }
{
    match event {
        Event::Vault(_) => backups.reserve(),
        _ => Ok(()),
    }
}

// Changes the list of completed backups by the outcome of a stage.
fn list_backup(backups: &mut Backups, res: ResNo, outcome: Outcome)
    requires room { ListRoom outcome backups.old.room }
    ensures pairs { backups.new.pairs ≡ listed_after outcome res backups.old.pairs }
{
    match outcome {
        Outcome::StageOk(stage, version) => match stage {
            Stage::Open => {
                let Ok(()) = backups.add(res, version) else {
                    unreachable!()
                };
            }
            Stage::Drop => backups.remove(res),
            _ => {}
        },
        _ => {}
    }
}

// What was read.
fn content_of(alloc: Global, got: Got) -> Bytes
    ensures { result ≡ got_content got }
{
    match got {
        Got::Read(_, bytes) => bytes,
        _ => Bytes::new(Vec::new(alloc)),
    }
}

fn spent_after(outcome: Outcome, was: bool) -> bool
    ensures { result ≡ (was || is_spent outcome) }
{
    match outcome {
        Outcome::Spent => true,
        _ => was,
    }
}
