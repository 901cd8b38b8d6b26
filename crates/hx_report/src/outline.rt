ghost use Rattle.std.specs.Prelude.{◌≡◌, ◌<◌, ◌+◌, ◌-◌, ◌^◌, IfOk, OnOk};
ghost use Rattle.hx_rules.specs.Versions.{adds_version, trail_after};
ghost use Rattle.hx_rules.specs.Copies.{registered_after, mark_after, is_number};
ghost use Rattle.hx_report.specs.Outlines.{done_version_after, first_outline, is_dirty_by, outline_after};

use crate::saves::Saves;
use crate::trail::VersionTrail;
use hx_events::{Event, Outcome, Stage};
use std::alloc::{AllocError, Global};

/// What is known of a resource after the entries that were read: its ids and marks, and no content.
#[derive(Drop)]
pub struct Outline {
    /// Whether the copy is open.
    pub registered: bool,

    /// The last version id.
    pub last: u64,
    /// The versions that undo and redo walk on.
    pub trail: VersionTrail,

    /// The id of the clean state.
    pub mark: Option<u64>,

    /// The version of the completed backup.
    pub done: Option<u64>,
    /// The saves that were asked for.
    pub saves: Saves,
}

impl Outline {
    /// The outline at the opening of a life.
    pub fn first(alloc: Global, restored: bool) -> Result<Outline, AllocError>
        ensures { IfOk result (λ x. x ≡ first_outline restored) }
    {
        let mut trail = VersionTrail::new(alloc);
        if restored {
            trail.begin(1)?;
        }
        Ok(Outline {
            registered: restored,
            last: restored as u64,
            trail,
            mark: None,
            done: if restored { Some(1) } else { None },
            saves: Saves::new(alloc),
        })
    }

    /// Takes one deed of the resource. After want of memory the outline may be in between, and serves for nothing.
    pub fn note(&mut self, event: &Event, outcome: &Outcome) -> Result<(), AllocError>
        requires { self.old.last < 2 ^ 64 - 1 }
        ensures { OnOk result (self.new ≡ outline_after event.now outcome.now self.old) }
    {
        let next = self.last + 1;
        note_version(&mut self.trail, outcome, next)?;
        let mark = mark_after(outcome, self.last, self.trail.current(), self.mark);
        self.mark = mark;
        if is_new_version(outcome) {
            self.last = next;
        }
        self.registered = registered_after(outcome, self.registered);
        self.done = done_after(outcome, self.done);
        let dirty = self.is_dirty();
        self.saves.note(event, outcome, dirty)
    }

    /// Whether the copy is dirty.
    pub fn is_dirty(&self) -> bool
        ensures { result ≡ is_dirty_by self.now.registered self.now.trail self.now.mark }
    {
        self.registered && !is_number(self.trail.current(), self.mark)
    }

    /// Whether the completed backup is of the last version.
    pub fn is_backed(&self) -> bool
        ensures { result ≡ is_number self.now.last self.now.done }
    {
        is_number(self.last, self.done)
    }
}

fn is_number(number: u64, mark: Option<u64>) -> bool
    ensures { result ≡ is_number number mark }
{
    match mark {
        None => false,
        Some(other) => other == number,
    }
}

/// Whether an outcome makes a new version.
pub fn is_new_version(outcome: &Outcome) -> bool
    ensures { result ≡ adds_version outcome.now }
{
    matches!(
        outcome,
        Outcome::Opened(_)
            | Outcome::Created(_)
            | Outcome::Edited(_)
            | Outcome::Undone(_)
            | Outcome::Redone(_)
            | Outcome::Reverted(_)
    )
}

fn note_version(trail: &mut VersionTrail, outcome: &Outcome, id: u64) -> Result<(), AllocError>
    ensures { OnOk result (trail.new ≡ trail_after outcome.now id trail.old) }
{
    match outcome {
        Outcome::Opened(_) | Outcome::Created(_) | Outcome::Reverted(_) => trail.begin(id)?,
        Outcome::Edited(_) => trail.add(id)?,
        Outcome::Undone(_) => trail.undo(),
        Outcome::Redone(_) => trail.redo(),
        _ => {}
    }
    Ok(())
}

fn registered_after(outcome: &Outcome, was: bool) -> bool
    ensures { result ≡ registered_after outcome.now was }
{
    match outcome {
        Outcome::Opened(_) => true,
        Outcome::Created(_) => true,
        Outcome::Closed => false,
        _ => was,
    }
}

fn mark_after(outcome: &Outcome, last: u64, now: u64, was: Option<u64>) -> Option<u64>
    ensures { result ≡ mark_after outcome.now last now was }
{
    match outcome {
        Outcome::Opened(_) => Some(now),
        Outcome::Created(_) => Some(now),
        Outcome::Reverted(_) => Some(now),
        Outcome::Saved(version, _) if *version == last => Some(now),
        _ => was,
    }
}

fn done_after(outcome: &Outcome, was: Option<u64>) -> Option<u64>
    ensures { result ≡ done_version_after outcome.now was }
{
    match outcome {
        Outcome::StageOk(stage, version) => match stage {
            Stage::Open => Some(*version),
            Stage::Drop => None,
            _ => was,
        },
        _ => was,
    }
}
