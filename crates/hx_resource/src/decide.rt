//! What an event of a resource comes to.

ghost use Rattle.std.specs.Prelude.{◌≡◌, Bool, ◌-◌, ◌<◌, ◌^◌, length, is_some, Some};
ghost use Rattle.hx_events.specs.declared.event.Event.TheVariants.{Act};
ghost use Rattle.hx_rules.specs.Saves.{asked_by};
ghost use Rattle.hx_rules.specs.Due.{version_due};
ghost use Rattle.hx_rules.specs.Legal.{deletes_past, grows_past, is_over};
ghost use Rattle.hx_resource.specs.Kept.{dirty_now, base_in, content_in};
ghost use Rattle.hx_resource.specs.Rows.{undo_in, redo_in, vault_due_kept, save_due_kept, save_work_of};
ghost use Rattle.hx_resource.specs.declared.asks.Got.TheVariants.{Found};
ghost use Rattle.hx_resource.specs.Rooms.{IsKnown};
ghost use Rattle.hx_resource.specs.Asks.{open_asks, create_asks, edit_asks, undo_asks, redo_asks, save_asks, revert_asks, close_asks, vault_asks, flush_asks, asks_kept, said, read_outcome, outside_outcome, check_outcome, write_outcome, stage_outcome, work_outcome, outcome_kept};

use crate::asks::{Asked, Got, Work};
use crate::due::DueSave;
use crate::resource::Resource;
use hx_etag::{Stat, conflicts};
use hx_events::{CONTENT_MAX, Command, Event, Outcome, ResNo, Stage};
use hx_rules::Asked as Request;

impl Resource {
    /// Who answers the event. The resource gets no pair of slot files where it `lacks` one.
    pub fn ask(&self, guarded: bool, lacks: bool, event: &Event) -> Asked
        requires known { IsKnown event.now }
        requires last { self.now.kept.last < 2 ^ 64 - 1 }
        ensures { result ≡ asks_kept guarded lacks self.now.kept event.now }
    {
        match event {
            Event::Act(command) => self.ask_command(lacks, command),
            Event::Vault(res) => self.ask_vault(guarded, *res),
            Event::Flush(res) => self.ask_flush(guarded, *res),
            Event::Quit => unreachable!(),
        }
    }

    fn ask_command(&self, lacks: bool, command: &Command) -> Asked
        requires last { self.now.kept.last < 2 ^ 64 - 1 }
        ensures { (guarded : Bool) → result ≡ asks_kept guarded lacks self.now.kept (Act command.now) }
    {
        match command {
            Command::Open(res) => self.ask_open(lacks, *res),
            Command::Create(_) => self.ask_create(lacks),
            Command::Edit { off, del, text, .. } => {
                self.ask_edit(*off, *del, text.as_slice().len() as u64)
            }
            Command::Undo(_) => self.ask_undo(),
            Command::Redo(_) => self.ask_redo(),
            Command::Save { force, .. } => self.ask_save(*force),
            Command::Revert(res) => self.ask_revert(*res),
            Command::Close(_) => self.ask_close(),
            Command::Outside { .. } => Asked::Device(Work::OutsideWrite),
        }
    }

    fn ask_open(&self, lacks: bool, res: ResNo) -> Asked
        ensures { result ≡ open_asks res (is_some self.now.kept.copy) lacks }
    {
        if self.is_open() {
            return Asked::Settled(Outcome::AlreadyOpen);
        }
        if lacks {
            return Asked::Settled(Outcome::NoPair);
        }
        Asked::Device(Work::ReadFile(res))
    }

    fn ask_create(&self, lacks: bool) -> Asked
        requires last { self.now.kept.last < 2 ^ 64 - 1 }
        ensures { result ≡ create_asks (is_some self.now.kept.copy) lacks self.now.kept.last }
    {
        if self.is_open() {
            return Asked::Settled(Outcome::AlreadyOpen);
        }
        if lacks {
            return Asked::Settled(Outcome::NoPair);
        }
        Asked::Settled(Outcome::Created(self.last + 1))
    }

    fn ask_edit(&self, off: u64, del: u64, add: u64) -> Asked
        requires last { self.now.kept.last < 2 ^ 64 - 1 }
        ensures { result ≡ edit_asks (is_some self.now.kept.copy) (deletes_past (length (content_in self.now.kept.copy)) off del) (grows_past (length (content_in self.now.kept.copy)) del add) self.now.kept.last }
    {
        if !self.is_open() {
            return Asked::Settled(Outcome::NotOpen);
        }
        let size = self.size();
        if off > size || del > size - off {
            return Asked::Settled(Outcome::OutOfContent);
        }
        if size - del > CONTENT_MAX || add > CONTENT_MAX - (size - del) {
            return Asked::Settled(Outcome::TooLarge);
        }
        Asked::Settled(Outcome::Edited(self.last + 1))
    }

    fn ask_undo(&self) -> Asked
        requires last { self.now.kept.last < 2 ^ 64 - 1 }
        ensures { result ≡ undo_asks (is_some self.now.kept.copy) (undo_in self.now.kept.copy) self.now.kept.last }
    {
        if !self.is_open() {
            return Asked::Settled(Outcome::NotOpen);
        }
        if !self.can_undo() {
            return Asked::Settled(Outcome::NoUndo);
        }
        Asked::Settled(Outcome::Undone(self.last + 1))
    }

    fn ask_redo(&self) -> Asked
        requires last { self.now.kept.last < 2 ^ 64 - 1 }
        ensures { result ≡ redo_asks (is_some self.now.kept.copy) (redo_in self.now.kept.copy) self.now.kept.last }
    {
        if !self.is_open() {
            return Asked::Settled(Outcome::NotOpen);
        }
        if !self.can_redo() {
            return Asked::Settled(Outcome::NoRedo);
        }
        Asked::Settled(Outcome::Redone(self.last + 1))
    }

    fn ask_save(&self, force: bool) -> Asked
        ensures { result ≡ save_asks (is_some self.now.kept.copy) (asked_by self.now.kept.seq.run self.now.kept.last (dirty_now self.now.kept.copy) force) self.now.kept.last }
    {
        if !self.is_open() {
            return Asked::Settled(Outcome::NotOpen);
        }
        let request = self.seq.asked(self.last, self.is_dirty(), force);
        Asked::Settled(said(request, self.last))
    }

    fn ask_revert(&self, res: ResNo) -> Asked
        ensures { result ≡ revert_asks res (is_some self.now.kept.copy) (is_some self.now.kept.seq.run) }
    {
        if !self.is_open() {
            return Asked::Settled(Outcome::NotOpen);
        }
        if self.running().is_some() {
            return Asked::Settled(Outcome::Saving);
        }
        Asked::Device(Work::ReadFile(res))
    }

    fn ask_close(&self) -> Asked
        ensures { result ≡ close_asks (is_some self.now.kept.copy) (is_some self.now.kept.seq.run) }
    {
        if !self.is_open() {
            return Asked::Settled(Outcome::NotOpen);
        }
        if self.running().is_some() {
            return Asked::Settled(Outcome::Saving);
        }
        Asked::Settled(Outcome::Closed)
    }

    fn ask_vault(&self, guarded: bool, res: ResNo) -> Asked
        ensures { result ≡ vault_asks res (vault_due_kept guarded self.now.kept) }
    {
        match self.due_vault(guarded) {
            None => Asked::Settled(Outcome::Idle),
            Some(due) => Asked::Device(Work::Vault(res, due.stage)),
        }
    }

    fn ask_flush(&self, guarded: bool, res: ResNo) -> Asked
        ensures { result ≡ flush_asks res (save_due_kept guarded self.now.kept) }
    {
        match self.due_save(guarded) {
            None => Asked::Settled(Outcome::Idle),
            Some(due) => ask_due_save(due, res),
        }
    }

    /// What the event comes to, with this answer of the device. A Prepare is Spent where one was `spent` before.
    pub fn decide(
        &self,
        guarded: bool,
        lacks: bool,
        spent: bool,
        event: &Event,
        got: &Got,
    ) -> Outcome
        requires known { IsKnown event.now }
        requires last { self.now.kept.last < 2 ^ 64 - 1 }
        ensures { result ≡ outcome_kept guarded lacks spent self.now.kept event.now got.now }
    {
        match self.ask(guarded, lacks, event) {
            Asked::Settled(outcome) => outcome,
            Asked::Device(work) => self.outcome_of(guarded, spent, work, got),
        }
    }

    // What the answer makes of the work.
    fn outcome_of(&self, guarded: bool, spent: bool, work: Work, got: &Got) -> Outcome
        ensures { result ≡ work_outcome guarded spent self.now.kept work got.now }
    {
        match work {
            Work::ReadFile(_) => read_outcome(self.is_open(), got),
            Work::OutsideWrite => outside_outcome(got),
            Work::Check(_) => check_outcome(self.is_over(), self.base(), got),
            Work::Write(_) => write_outcome(self.running_version(), got),
            Work::Vault(_, stage) => stage_outcome(spent, stage, self.due_version(guarded), got),
        }
    }

    fn due_version(&self, guarded: bool) -> u64
        ensures { result ≡ version_due (vault_due_kept guarded self.now.kept) }
    {
        match self.due_vault(guarded) {
            None => 0,
            Some(due) => due.version,
        }
    }

    fn is_over(&self) -> bool
        ensures { result ≡ is_over self.now.kept.seq.run }
    {
        match self.running() {
            None => false,
            Some(run) => run.over,
        }
    }
}

// What a request to save is answered.
fn said(request: Request, last: u64) -> Outcome
    ensures { result ≡ said request last }
{
    match request {
        Request::Joined => Outcome::Joined,
        Request::Clean => Outcome::Clean,
        Request::Queued => Outcome::Queued,
        Request::Started => Outcome::Started(last),
    }
}

fn read_outcome(is_open: bool, got: &Got) -> Outcome
    ensures { result ≡ read_outcome is_open got.now }
{
    match got {
        Got::Read(stat, _) => {
            if is_open {
                Outcome::Reverted(*stat)
            } else {
                Outcome::Opened(*stat)
            }
        }
        Got::Found(_) => Outcome::Missing,
        Got::Big(_) => Outcome::TooLarge,
        _ => Outcome::Fault,
    }
}

fn outside_outcome(got: &Got) -> Outcome
    ensures { result ≡ outside_outcome got.now }
{
    match got {
        Got::Done => Outcome::Written,
        _ => Outcome::Fault,
    }
}

fn check_outcome(over: bool, base: Option<Stat>, got: &Got) -> Outcome
    ensures { result ≡ check_outcome over base got.now }
{
    match got {
        Got::Found(found) => checked_outcome(over, base, *found),
        _ => Outcome::CheckFault,
    }
}

fn checked_outcome(over: bool, base: Option<Stat>, found: Option<Stat>) -> Outcome
    ensures { result ≡ check_outcome over base (Found found) }
{
    match found {
        None => Outcome::Checked(None),
        Some(stat) => {
            if conflicts(base, Some(stat), over) {
                Outcome::Modified(stat)
            } else {
                Outcome::Checked(Some(stat))
            }
        }
    }
}

fn write_outcome(version: u64, got: &Got) -> Outcome
    ensures { result ≡ write_outcome version got.now }
{
    match got {
        Got::Found(found) => Outcome::Saved(version, *found),
        _ => Outcome::WriteFault(version),
    }
}

fn stage_outcome(spent: bool, stage: Stage, version: u64, got: &Got) -> Outcome
    ensures { result ≡ stage_outcome spent stage version got.now }
{
    if matches!(stage, Stage::Prepare) && (spent || matches!(got, Got::Spent)) {
        return Outcome::Spent;
    }
    if matches!(got, Got::Done) {
        Outcome::StageOk(stage, version)
    } else {
        Outcome::StageFault(stage, version)
    }
}

fn ask_due_save(due: DueSave, res: ResNo) -> Asked
    ensures { result ≡ flush_asks res (Some (save_work_of due)) }
{
    match due {
        DueSave::Check => Asked::Device(Work::Check(res)),
        DueSave::Write(_) => Asked::Device(Work::Write(res)),
        DueSave::Refuse(version) => Asked::Settled(Outcome::Unguarded(version)),
    }
}
