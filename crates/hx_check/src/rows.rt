//! Whether an event may have an outcome, by the sketch of its resource.

ghost use Rattle.std.specs.Prelude.{◌≡◌, ◌<◌, ◌-◌, ◌^◌, Bool, Option, Some};
ghost use Rattle.hx_events.specs.declared.event.Event.TheVariants.{Act};
ghost use Rattle.hx_rules.specs.Saves.{asked_by};
ghost use Rattle.hx_rules.specs.Versions.{can_undo, can_redo};
ghost use Rattle.hx_rules.specs.Legal.{close_row, create_row, deletes_past, edit_row, flush_row, grows_past, is_over, is_prepare, is_work, may_run, open_row, quit_row, redo_row, revert_row, same_stage, save_row, undo_row, vault_row};
ghost use Rattle.hx_etag.specs.declared.stat.Stat.{Stat};
ghost use Rattle.hx_rules.specs.Due.{Check, Write};
ghost use Rattle.hx_check.specs.Sketches.{anew_in, backing_work, due_in, is_backed, is_dirty_in, row_in, save_due_in};
ghost use Rattle.hx_check.specs.Judging.{work_of};
ghost use Rattle.hx_check.specs.Sizes.{size_at};

use crate::sketch::{Backing, Sketch};
use hx_etag::{Stat, conflicts};
use hx_events::{CONTENT_MAX, Command, Event, Outcome, Stage};
use hx_rules::{Asked, Running};

/// A vault stage that is due, with its version.
#[derive(Clone, Copy)]
struct Due {
    stage: Stage,
    version: u64,
}

impl Sketch {
    // Whether the event may have the outcome. The resource gets no pair of slot files where it `lacks` one, and `spent` says
    // that a Prepare has found the stamps used up.
    pub(crate) fn may_have(
        &self,
        lacks: bool,
        spent: bool,
        event: &Event,
        outcome: &Outcome,
    ) -> bool
        requires { self.now.outline.last < 2 ^ 64 - 1 }
        ensures { result ≡ row_in lacks spent self.now event.now outcome.now }
    {
        match event {
            Event::Act(command) => self.command_may(lacks, command, outcome),
            Event::Vault(_) => self.vault_may(spent, outcome),
            Event::Flush(_) => self.flush_may(outcome),
            Event::Quit => false,
        }
    }

    fn command_may(&self, lacks: bool, command: &Command, outcome: &Outcome) -> bool
        requires { self.now.outline.last < 2 ^ 64 - 1 }
        ensures { (spent : Bool) → result ≡ row_in lacks spent self.now (Act command.now) outcome.now }
    {
        let registered = self.outline.registered;
        let last = self.outline.last;
        match command {
            Command::Open(_) => open_may(registered, lacks, outcome),
            Command::Create(_) => create_may(registered, lacks, last, outcome),
            Command::Edit { off, del, text, .. } => {
                let add = text.as_slice().len() as u64;
                edit_may(
                    registered,
                    self.sizes.at(last),
                    *off,
                    *del,
                    add,
                    last,
                    outcome,
                )
            }
            Command::Undo(_) => undo_may(registered, self.outline.trail.can_undo(), last, outcome),
            Command::Redo(_) => redo_may(registered, self.outline.trail.can_redo(), last, outcome),
            Command::Save { force, .. } => {
                let asked = asked_by(self.run, last, self.outline.is_dirty(), *force);
                save_may(registered, asked, last, outcome)
            }
            Command::Revert(_) => revert_may(registered, self.run.is_some(), outcome),
            Command::Close(_) => close_may(registered, self.run.is_some(), outcome),
            Command::Outside { .. } => matches!(outcome, Outcome::Written | Outcome::Fault),
        }
    }

    fn due(&self) -> Option<Due>
        ensures { work_of result ≡ due_in self.now }
    {
        if self.halted {
            return None;
        }
        match self.backing {
            Some(backing) => Some(next_of(backing)),
            None => self.due_anew(),
        }
    }

    // The stage that is due where no backup is begun.
    fn due_anew(&self) -> Option<Due>
        ensures { work_of result ≡ anew_in self.now }
    {
        let dirty = self.outline.is_dirty();
        if dirty && !self.outline.is_backed() {
            Some(Due {
                stage: Stage::Prepare,
                version: self.outline.last,
            })
        } else if !dirty && self.opened {
            Some(Due {
                stage: if self.faded { Stage::Drop } else { Stage::Fade },
                version: 0,
            })
        } else {
            None
        }
    }

    fn vault_may(&self, spent: bool, outcome: &Outcome) -> bool
        ensures { result ≡ vault_row spent (due_in self.now) outcome.now }
    {
        let due = self.due();
        match outcome {
            Outcome::Idle => due.is_none(),
            Outcome::StageOk(stage, version) => is_work(due, *stage, *version)
                && may_run(spent, *stage),
            Outcome::StageFault(stage, version) => is_work(due, *stage, *version)
                && may_run(spent, *stage),
            Outcome::Spent => is_prepare(due),
            _ => false,
        }
    }

    fn flush_may(&self, outcome: &Outcome) -> bool
        ensures { result ≡ flush_row (save_due_in self.now.run) (is_over self.now.run) self.now.kept outcome.now }
    {
        match self.run {
            None => matches!(outcome, Outcome::Idle),
            Some(run) => run_may(run, self.kept, outcome),
        }
    }
}

// Whether the due stage of this running save may have the outcome.
fn run_may(run: Running, kept: Option<Stat>, outcome: &Outcome) -> bool
    ensures { result ≡ flush_row (save_due_in (Some run)) run.over kept outcome.now }
{
    if run.checked {
        write_may(run.version, outcome)
    } else {
        check_may(run.over, kept, outcome)
    }
}

fn open_may(registered: bool, lacks: bool, outcome: &Outcome) -> bool
    ensures { result ≡ open_row registered lacks outcome.now }
{
    match outcome {
        Outcome::AlreadyOpen => registered,
        Outcome::NoPair => !registered && lacks,
        Outcome::Fault => !registered && !lacks,
        Outcome::Missing => !registered && !lacks,
        Outcome::TooLarge => !registered && !lacks,
        Outcome::Opened(stat) => !registered && !lacks && stat.size <= CONTENT_MAX,
        _ => false,
    }
}

fn create_may(registered: bool, lacks: bool, last: u64, outcome: &Outcome) -> bool
    requires { last < 2 ^ 64 - 1 }
    ensures { result ≡ create_row registered lacks last outcome.now }
{
    match outcome {
        Outcome::AlreadyOpen => registered,
        Outcome::NoPair => !registered && lacks,
        Outcome::Created(version) => !registered && !lacks && *version == last + 1,
        _ => false,
    }
}

fn deletes_past(size: u64, off: u64, del: u64) -> bool
    ensures { result ≡ deletes_past size off del }
{
    off > size || del > size - off
}

fn grows_past(size: u64, del: u64, add: u64) -> bool
    ensures { result ≡ grows_past size del add }
{
    let left = size.saturating_sub(del);
    left > CONTENT_MAX || add > CONTENT_MAX - left
}

fn edit_may(
    registered: bool,
    size: u64,
    off: u64,
    del: u64,
    add: u64,
    last: u64,
    outcome: &Outcome,
) -> bool
    requires { last < 2 ^ 64 - 1 }
    ensures { result ≡ edit_row registered size off del add last outcome.now }
{
    let past = deletes_past(size, off, del);
    let large = grows_past(size, del, add);
    match outcome {
        Outcome::NotOpen => !registered,
        Outcome::OutOfContent => registered && past,
        Outcome::TooLarge => registered && !past && large,
        Outcome::Edited(version) => registered && !past && !large && *version == last + 1,
        _ => false,
    }
}

fn undo_may(registered: bool, can: bool, last: u64, outcome: &Outcome) -> bool
    requires { last < 2 ^ 64 - 1 }
    ensures { result ≡ undo_row registered can last outcome.now }
{
    match outcome {
        Outcome::NotOpen => !registered,
        Outcome::NoUndo => registered && !can,
        Outcome::Undone(version) => registered && can && *version == last + 1,
        _ => false,
    }
}

fn redo_may(registered: bool, can: bool, last: u64, outcome: &Outcome) -> bool
    requires { last < 2 ^ 64 - 1 }
    ensures { result ≡ redo_row registered can last outcome.now }
{
    match outcome {
        Outcome::NotOpen => !registered,
        Outcome::NoRedo => registered && !can,
        Outcome::Redone(version) => registered && can && *version == last + 1,
        _ => false,
    }
}

// What a request to save comes to.
fn asked_by(run: Option<Running>, last: u64, dirty: bool, force: bool) -> Asked
    ensures { result ≡ asked_by run last dirty force }
{
    match run {
        Some(run) if run.version == last => Asked::Joined,
        _ if !dirty && !force => Asked::Clean,
        Some(_) => Asked::Queued,
        None => Asked::Started,
    }
}

fn save_may(registered: bool, asked: Asked, last: u64, outcome: &Outcome) -> bool
    ensures { result ≡ save_row registered asked last outcome.now }
{
    match outcome {
        Outcome::NotOpen => !registered,
        Outcome::Joined => registered && matches!(asked, Asked::Joined),
        Outcome::Clean => registered && matches!(asked, Asked::Clean),
        Outcome::Queued => registered && matches!(asked, Asked::Queued),
        Outcome::Started(version) => registered
            && matches!(asked, Asked::Started)
            && *version == last,
        _ => false,
    }
}

fn revert_may(registered: bool, saving: bool, outcome: &Outcome) -> bool
    ensures { result ≡ revert_row registered saving outcome.now }
{
    match outcome {
        Outcome::NotOpen => !registered,
        Outcome::Saving => registered && saving,
        Outcome::Fault => registered && !saving,
        Outcome::Missing => registered && !saving,
        Outcome::TooLarge => registered && !saving,
        Outcome::Reverted(stat) => registered && !saving && stat.size <= CONTENT_MAX,
        _ => false,
    }
}

fn close_may(registered: bool, saving: bool, outcome: &Outcome) -> bool
    ensures { result ≡ close_row registered saving outcome.now }
{
    match outcome {
        Outcome::NotOpen => !registered,
        Outcome::Saving => registered && saving,
        Outcome::Closed => registered && !saving,
        _ => false,
    }
}

fn next_of(backing: Backing) -> Due
    ensures { work_of (Some result) ≡ backing_work (Some backing) }
{
    Due {
        stage: if backing.left > 0 {
            Stage::Body
        } else {
            Stage::Open
        },
        version: backing.version,
    }
}

fn same_stage(one: Stage, other: Stage) -> bool
    ensures { result ≡ same_stage one other }
{
    match one {
        Stage::Prepare => matches!(other, Stage::Prepare),
        Stage::Body => matches!(other, Stage::Body),
        Stage::Open => matches!(other, Stage::Open),
        Stage::Fade => matches!(other, Stage::Fade),
        Stage::Drop => matches!(other, Stage::Drop),
    }
}

fn is_work(due: Option<Due>, stage: Stage, version: u64) -> bool
    ensures { result ≡ is_work (work_of due) stage version }
{
    match due {
        None => false,
        Some(due) => same_stage(due.stage, stage) && due.version == version,
    }
}

fn is_prepare(due: Option<Due>) -> bool
    ensures { result ≡ is_prepare (work_of due) }
{
    match due {
        None => false,
        Some(due) => matches!(due.stage, Stage::Prepare),
    }
}

// After one Spent in the life each Prepare that is due answers Spent.
fn may_run(spent: bool, stage: Stage) -> bool
    ensures { result ≡ may_run spent stage }
{
    match stage {
        Stage::Prepare => !spent,
        _ => true,
    }
}

fn check_may(over: bool, kept: Option<Stat>, outcome: &Outcome) -> bool
    ensures { result ≡ flush_row (Some Check) over kept outcome.now }
{
    match outcome {
        Outcome::CheckFault => true,
        Outcome::Modified(stat) => conflicts(kept, Some(*stat), over),
        Outcome::Checked(found) => !conflicts(kept, *found, over),
        _ => false,
    }
}

fn write_may(version: u64, outcome: &Outcome) -> bool
    ensures { (over : Bool) (base : Option Stat) → result ≡ flush_row (Some (Write version)) over base outcome.now }
{
    match outcome {
        Outcome::WriteFault(written) => version == *written,
        Outcome::Saved(written, _) => version == *written,
        _ => false,
    }
}

// Whether the program may end, where this copy is the lowest one that forbids it.
pub(crate) fn quit_may(unsafe_one: Option<usize>, outcome: &Outcome) -> bool
    ensures { result ≡ quit_row unsafe_one outcome.now }
{
    match outcome {
        Outcome::Quit => unsafe_one.is_none(),
        Outcome::Vetoed(res) => match unsafe_one {
            None => false,
            Some(lowest) => lowest == res.number() as usize,
        },
        _ => false,
    }
}
