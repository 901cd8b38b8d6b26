//! One event of a resource, and the change that its outcome makes.

ghost use Rattle.std.specs.Prelude.{◌≡◌, ◌+◌, ◌-◌, ◌<◌, ◌≤◌, ◌^◌, ℕ, List, true, false, length, None, is_some, IfSome, if◌then◌else◌};
ghost use Rattle.hx_rules.specs.Saves.{starts};
ghost use Rattle.hx_rules.specs.Backups.{one_block_more};
ghost use Rattle.hx_rules.specs.Versions.{adds_version};
ghost use Rattle.hx_seq.specs.Keeps.{stand_in};
ghost use Rattle.hx_resource.specs.Kept.{begins, begun_given, content_at, content_in, copy_after, dirty_now, kept_after, rest_after, seq_after, snapshot_for, starts_run, with_copy, with_saves};
ghost use Rattle.hx_resource.specs.Rows.{row_kept, vault_due_kept, save_due_kept};
ghost use Rattle.hx_resource.specs.Asks.{FitsAsked, asks_kept, outcome_kept};
ghost use Rattle.hx_resource.specs.Rooms.{CanApply, CanChange, CanCount, CanSave, HasRoom, IsKnown, IsRead, ReadRoom, SnapshotRoom, TicketRoom, copies_first, got_content};

use crate::asks::Got;
use crate::copies::{changed_copy, fill};
use crate::marks;
use crate::resource::{BegunBackup, Resource};
use crate::saves::{change_saves, starts_save};
use hx_events::{Bytes, Event, Outcome, Stage};

/// What an event came to, and for which kinds of stages the resource is due after it.
#[derive(Clone, Copy, Debug, PartialEq, Eq)]
pub struct Stepped {
    pub outcome: Outcome,

    /// Whether a vault stage is due.
    pub vault: bool,

    /// Whether a save stage is due.
    pub save: bool,
}

impl Resource {
    /// Takes one event of this resource with the device's answer. The place is the event's number in the life, which is the
    /// ticket of a request to save. The resource gets no pair where it `lacks` one, and a Prepare is Spent where one was
    /// `spent` before.
    pub fn step(
        &mut self,
        guarded: bool,
        lacks: bool,
        spent: bool,
        place: u64,
        event: &Event,
        got: &Got,
    ) -> Stepped
        requires known { IsKnown event.now }
        requires fits { FitsAsked (asks_kept guarded lacks self.old.kept event.now) got.now }
        requires room { HasRoom guarded event.now (length (got_content got.now)) self.old }
        requires counts { CanCount self.old.kept }
        requires new { stand_in place self.old.kept.seq.tickets ≡ None }
        ensures outcome { result.outcome ≡ outcome_kept guarded lacks spent self.old.kept event.now got.now }
        ensures row { row_kept guarded lacks spent self.old.kept event.now result.outcome ≡ true }
        ensures read { IsRead result.outcome (got_content got.now) }
        ensures kept { self.new.kept ≡ kept_after guarded place event.now result.outcome (got_content got.now) self.old.kept }
        ensures vault { result.vault ≡ is_some (vault_due_kept guarded self.new.kept) }
        ensures save { result.save ≡ is_some (save_due_kept guarded self.new.kept) }
    {
        let _ = &self.copy;
        let outcome = self.decide(guarded, lacks, spent, event, got);
        let again = outcome;
        self.apply(guarded, place, event, again, content_of(got));
        let vault = self.due_vault(guarded).is_some();
        let save = self.has_save(guarded);
        Stepped {
            outcome,
            vault,
            save,
        }
    }

    // Makes the change of an outcome.
    fn apply(&mut self, guarded: bool, place: u64, event: &Event, outcome: Outcome, content: &[u8])
        requires can { CanApply event.now outcome content.now self.old }
        requires new { stand_in place self.old.kept.seq.tickets ≡ None }
        ensures { self.new.kept ≡ kept_after guarded place event.now outcome content.now self.old.kept }
    {
        let (first, second, third) = (outcome, outcome, outcome);
        let given = self.taken(first);
        self.change_copy(event, second, content);
        self.change_saves(event, third, place);
        self.change_rest(guarded, outcome, given);
    }

    // The backup that a Prepare begins.
    fn taken(&mut self, outcome: Outcome) -> Option<BegunBackup>
        requires room { SnapshotRoom outcome self.old.kept self.old.spare }
        ensures result { result ≡ snapshot_for outcome self.old.kept }
        ensures kept { self.new.kept ≡ self.old.kept }
        ensures copy { self.new.copy ≡ self.old.copy }
        ensures tickets { self.new.tickets ≡ self.old.tickets }
        ensures spare { copies_first outcome ≡ false → self.new.spare ≡ self.old.spare }
        ensures read { (content : List ℕ) → ReadRoom outcome content self.old.spare → ReadRoom outcome content self.new.spare }
    {
        match outcome {
            Outcome::StageOk(stage, version) => match stage {
                Stage::Prepare => Some(self.begin(version)),
                _ => None,
            },
            _ => None,
        }
    }

    fn begin(&mut self, version: u64) -> BegunBackup
        requires room { length (content_at version self.old.kept) ≤ self.old.spare }
        ensures result { result ≡ begins version self.old.kept }
        ensures kept { self.new.kept ≡ self.old.kept }
        ensures copy { self.new.copy ≡ self.old.copy }
        ensures tickets { self.new.tickets ≡ self.old.tickets }
    {
        let base = self.base();
        let content = self.content_of(version);
        BegunBackup {
            version,
            base,
            content,
            blocks: 0,
        }
    }

    // The content of the last version, or of the running one.
    fn content_of(&mut self, version: u64) -> Bytes
        requires room { length (content_at version self.old.kept) ≤ self.old.spare }
        ensures result { result ≡ content_at version self.old.kept }
        ensures kept { self.new.kept ≡ self.old.kept }
        ensures copy { self.new.copy ≡ self.old.copy }
        ensures tickets { self.new.tickets ≡ self.old.tickets }
    {
        if version == self.last {
            match &self.copy {
                None => Bytes::new(Vec::new(self.alloc)),
                Some(copy) => fill(self.alloc, &mut self.spare, copy.content()),
            }
        } else {
            fill(self.alloc, &mut self.spare, self.saving.as_slice())
        }
    }

    fn change_copy(&mut self, event: &Event, outcome: Outcome, content: &[u8])
        requires last { self.old.kept.last < 2 ^ 64 - 1 }
        requires can { IfSome self.old.copy (CanChange event.now outcome) }
        requires read { ReadRoom outcome content.now self.old.spare }
        requires version { IfSome self.old.copy (λ c. c.copy.version < 2 ^ 64 - 1) }
        ensures kept { self.new.kept ≡ with_copy (copy_after outcome event.now content.now (self.old.kept.last + 1) self.old.kept.copy) self.old.kept }
        ensures tickets { self.new.tickets ≡ self.old.tickets }
        ensures spare { copies_first outcome ≡ false → self.new.spare ≡ self.old.spare }
    {
        let was = self.copy.take();
        let first = self.last + 1;
        self.copy = changed_copy(
            self.alloc,
            &mut self.spare,
            first,
            event,
            outcome,
            content,
            was,
        );
    }

    fn change_saves(&mut self, event: &Event, outcome: Outcome, place: u64)
        requires can { CanSave outcome self.old.kept.seq.run }
        requires tickets { TicketRoom event.now self.old.tickets }
        requires new { stand_in place self.old.kept.seq.tickets ≡ None }
        requires saving { starts_run outcome event.now (starts self.old.kept.seq.queue (dirty_now self.old.kept.copy)) ≡ true → length (content_in self.old.kept.copy) ≤ self.old.spare }
        ensures kept { self.new.kept ≡ with_saves (seq_after outcome event.now place self.old.kept.last (dirty_now self.old.kept.copy) self.old.kept.seq) (if starts_run outcome event.now (starts self.old.kept.seq.queue (dirty_now self.old.kept.copy)) then content_in self.old.kept.copy else self.old.kept.saving) self.old.kept }
    {
        let dirty = self.is_dirty();
        let next = self.seq.starts(dirty);
        let again = outcome;
        if starts_save(again, event, next) {
            self.keep_content();
        }
        let last = self.last;
        change_saves(&mut self.seq, outcome, event, place, last, dirty);
    }

    // Keeps the copy's content for the save that starts.
    fn keep_content(&mut self)
        requires room { length (content_in self.old.kept.copy) ≤ self.old.spare }
        ensures kept { self.new.kept ≡ with_saves self.old.kept.seq (content_in self.old.kept.copy) self.old.kept }
        ensures tickets { self.new.tickets ≡ self.old.tickets }
    {
        self.saving = match &self.copy {
            None => Bytes::new(Vec::new(self.alloc)),
            Some(copy) => fill(self.alloc, &mut self.spare, copy.content()),
        };
    }

    fn change_rest(&mut self, guarded: bool, outcome: Outcome, given: Option<BegunBackup>)
        requires last { self.old.kept.last < 2 ^ 64 - 1 }
        requires blocks { IfSome self.old.kept.begun (λ b. b.blocks < 2 ^ 64 - 1) }
        ensures { self.new.kept ≡ rest_after guarded outcome given self.old.kept }
    {
        let wanted = self.is_wanted(guarded);
        let was = self.begun.take();
        let again = outcome;
        self.begun = changed_begun(again, wanted, given, was);
        let again = outcome;
        self.last = last_after(again, self.last);
        let again = outcome;
        self.done = marks::done_after(again, self.done);
        let again = outcome;
        self.safe = marks::safe_after(again, self.safe);
        let again = outcome;
        self.halted = marks::halted_after(again, self.halted);
        let again = outcome;
        self.opened = marks::opened_after(again, self.opened);
        let again = outcome;
        self.faded = marks::faded_after(again, self.faded);
        self.write_failed = marks::write_failed_after(outcome, self.write_failed);
    }
}

// What was read.
fn content_of(got: &Got) -> &[u8]
    ensures { result.now ≡ got_content got.now }
{
    match got {
        Got::Read(_, bytes) => bytes.as_slice(),
        _ => &[],
    }
}

fn one_more(was: Option<BegunBackup>) -> Option<BegunBackup>
    requires { IfSome was (λ b. b.blocks < 2 ^ 64 - 1) }
    ensures { result ≡ one_block_more was }
{
    match was {
        None => None,
        Some(begun) => Some(BegunBackup {
            version: begun.version,
            base: begun.base,
            blocks: begun.blocks + 1,
            content: begun.content,
        }),
    }
}

// The begun backup after the outcome, with the one that a Prepare has given.
fn changed_begun(
    outcome: Outcome,
    wanted: bool,
    given: Option<BegunBackup>,
    was: Option<BegunBackup>,
) -> Option<BegunBackup>
    requires { IfSome was (λ b. b.blocks < 2 ^ 64 - 1) }
    ensures { result ≡ begun_given outcome wanted given was }
{
    match outcome {
        Outcome::StageOk(stage, _) => match stage {
            Stage::Prepare => given,
            Stage::Open => None,
            Stage::Body => { if wanted { one_more(was) } else { None } }
            _ => { if wanted { was } else { None } }
        },
        Outcome::StageFault(_, _) => None,
        _ => { if wanted { was } else { None } }
    }
}

fn last_after(outcome: Outcome, last: u64) -> u64
    requires { last < 2 ^ 64 - 1 }
    ensures { result ≡ (if adds_version outcome then last + 1 else last) }
{
    if marks::is_new_version(outcome) {
        last + 1
    } else {
        last
    }
}
