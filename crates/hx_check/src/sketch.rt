ghost use Rattle.std.specs.Prelude.{◌≡◌, ◌-◌, ◌<◌, ◌^◌, ℕ, IfOk, OnOk, option_map};
ghost use Rattle.hx_etag.specs.Conflicts.{newer_of};
ghost use Rattle.hx_rules.specs.Stats.{newer_found};
ghost use Rattle.hx_rules.specs.Versions.{at_place};
ghost use Rattle.hx_rules.specs.Copies.{kept_after};
ghost use Rattle.hx_rules.specs.Saves.{run_asked, run_checked, run_finished};
ghost use Rattle.hx_rules.specs.Backups.{blocks_of, faded_after, halted_after, is_change, opened_after};
ghost use Rattle.hx_rules.specs.Versions.{adds_version};
ghost use Rattle.hx_report.specs.Saves.{ends_save};
ghost use Rattle.hx_check.specs.Sketches.{FitsSize, backing_after, edited_size, first_sketch, new_size, one_block_less, run_after, run_by, run_started, sizes_after, sketch_after};
ghost use Rattle.hx_check.specs.Sizes.{size_at, with_size};

use crate::sizes::Sizes;
use hx_etag::{Stat, newer};
use hx_events::{Backup, Command, Event, Outcome, Stage};
use hx_report::{Outline, ends_save, is_new_version};
use hx_rules::{QueuedSave, Running};
use std::alloc::{AllocError, Global};

/// A backup that is begun: its version, and how many blocks are left to write.
#[derive(Clone, Copy)]
pub(crate) struct Backing {
    pub(crate) version: u64,
    pub(crate) left: u64,
}

/// What decides which outcomes the next event of a resource may have, in a life that isn't guarded.
#[derive(Drop)]
pub(crate) struct Sketch {
    pub(crate) outline: Outline,

    /// The stat that the copy keeps of its file.
    pub(crate) kept: Option<Stat>,
    pub(crate) sizes: Sizes,
    pub(crate) run: Option<Running>,
    pub(crate) backing: Option<Backing>,
    pub(crate) opened: bool,
    pub(crate) halted: bool,
    pub(crate) faded: bool,
}

impl Sketch {
    // The sketch at the opening of a life, of a resource that was restored with this backup or with none.
    pub(crate) fn first(alloc: Global, restored: Option<&Backup>) -> Result<Sketch, AllocError>
        ensures { IfOk result (λ x. x ≡ first_sketch (option_map (λ b. b.now) restored.entry)) }
    {
        let mut sizes = Sizes::new(alloc);
        let (kept, size) = match restored {
            None => (None, None),
            Some(backup) => (backup.base, Some(backup.content.as_slice().len() as u64)),
        };
        sizes.add(size)?;
        Ok(Sketch {
            outline: Outline::first(alloc, restored.is_some())?,
            kept,
            sizes,
            run: None,
            backing: None,
            opened: restored.is_some(),
            halted: false,
            faded: false,
        })
    }

    // Takes one deed of the resource.
    pub(crate) fn note(&mut self, event: &Event, outcome: &Outcome) -> Result<(), AllocError>
        requires last { self.old.outline.last < 2 ^ 64 - 1 }
        requires size { FitsSize event.now outcome.now self.old }
        ensures { OnOk result (self.new ≡ sketch_after event.now outcome.now self.old) }
    {
        let last = self.outline.last;
        let queue = self.outline.saves.queue();
        self.outline.note(event, outcome)?;
        let dirty = self.outline.is_dirty();
        let back = self.sizes.at(self.outline.trail.current());
        let size = new_size(outcome, event, back, self.sizes.at(last));
        self.backing = backing_after(outcome, dirty, &self.sizes, self.backing);
        self.sizes.add(size)?;
        self.kept = kept_after(outcome, self.kept);
        self.run = run_after(outcome, event, last, dirty, queue, self.run);
        self.opened = opened_after(outcome, self.opened);
        self.halted = halted_after(outcome, self.halted);
        self.faded = faded_after(outcome, self.faded);
        Ok(())
    }
}

fn edited_size(event: &Event, old: u64) -> u64
    requires { edited_size event.now old < 2 ^ 64 }
    ensures { result ≡ edited_size event.now old }
{
    match event {
        Event::Act(command) => match command {
            Command::Edit { del, text, .. } => {
                old.saturating_sub(*del) + text.as_slice().len() as u64
            }
            _ => old,
        },
        _ => old,
    }
}

fn new_size(outcome: &Outcome, event: &Event, back: u64, old: u64) -> Option<u64>
    requires { (n : ℕ) → outcome.now ≡ Outcome.Edited n → edited_size event.now old < 2 ^ 64 }
    ensures { result ≡ new_size outcome.now event.now back old }
{
    match outcome {
        Outcome::Opened(stat) => Some(stat.size),
        Outcome::Reverted(stat) => Some(stat.size),
        Outcome::Created(_) => Some(0),
        Outcome::Edited(_) => Some(edited_size(event, old)),
        Outcome::Undone(_) => Some(back),
        Outcome::Redone(_) => Some(back),
        _ => None,
    }
}

fn kept_after(outcome: &Outcome, was: Option<Stat>) -> Option<Stat>
    ensures { result ≡ kept_after outcome.now was }
{
    match outcome {
        Outcome::Opened(stat) => Some(*stat),
        Outcome::Created(_) => None,
        Outcome::Reverted(stat) => Some(newer(was, *stat)),
        Outcome::Saved(_, found) => match found {
            None => was,
            Some(stat) => Some(newer(was, *stat)),
        },
        _ => was,
    }
}

fn run_started(event: &Event, last: u64, was: Option<Running>) -> Option<Running>
    ensures { result ≡ run_started event.now last was }
{
    match event {
        Event::Act(command) => match command {
            Command::Save { over, .. } => Some(Running {
                version: last,
                over: *over,
                checked: false,
            }),
            _ => was,
        },
        _ => was,
    }
}

fn run_checked(was: Option<Running>) -> Option<Running>
    ensures { result ≡ run_checked was }
{
    match was {
        None => None,
        Some(run) => Some(Running {
            version: run.version,
            over: run.over,
            checked: true,
        }),
    }
}

fn run_by(outcome: &Outcome, event: &Event, last: u64, was: Option<Running>) -> Option<Running>
    ensures { result ≡ run_by outcome.now event.now last was }
{
    match outcome {
        Outcome::Started(_) => run_started(event, last, was),
        Outcome::Checked(_) => run_checked(was),
        _ => was,
    }
}

fn run_finished(queue: Option<QueuedSave>, dirty: bool, last: u64) -> Option<Running>
    ensures { result ≡ run_finished queue dirty last }
{
    match queue {
        None => None,
        Some(queued) => {
            if dirty || queued.force {
                Some(Running {
                    version: last,
                    over: queued.over,
                    checked: false,
                })
            } else {
                None
            }
        }
    }
}

fn run_after(
    outcome: &Outcome,
    event: &Event,
    last: u64,
    dirty: bool,
    queue: Option<QueuedSave>,
    was: Option<Running>,
) -> Option<Running>
    ensures { result ≡ run_after outcome.now event.now last dirty queue was }
{
    if ends_save(outcome).is_some() {
        run_finished(queue, dirty, last)
    } else {
        run_by(outcome, event, last, was)
    }
}

fn blocks_of(size: u64) -> u64
    ensures { result ≡ blocks_of size }
{
    size.div_ceil(4096).max(1)
}

fn one_block_less(was: Option<Backing>) -> Option<Backing>
    ensures { result ≡ one_block_less was }
{
    match was {
        None => None,
        Some(backing) => Some(Backing {
            version: backing.version,
            left: backing.left.saturating_sub(1),
        }),
    }
}

fn backing_after(
    outcome: &Outcome,
    dirty: bool,
    sizes: &Sizes,
    was: Option<Backing>,
) -> Option<Backing>
    ensures { result ≡ backing_after outcome.now dirty sizes.now was }
{
    match outcome {
        Outcome::StageOk(Stage::Prepare, version) => Some(Backing {
            version: *version,
            left: blocks_of(sizes.at(*version)),
        }),
        Outcome::StageOk(Stage::Open, _) => None,
        Outcome::StageFault(_, _) => None,
        Outcome::StageOk(Stage::Body, _) if dirty => one_block_less(was),
        _ if dirty => was,
        _ => None,
    }
}

fn changes(outcome: &Outcome) -> bool
    ensures { result ≡ is_change outcome.now }
{
    match outcome {
        Outcome::Closed => true,
        Outcome::Saved(_, _) => true,
        _ => is_new_version(outcome),
    }
}

fn halted_after(outcome: &Outcome, was: bool) -> bool
    ensures { result ≡ halted_after outcome.now was }
{
    match outcome {
        Outcome::StageFault(_, _) => true,
        Outcome::Spent => true,
        _ => !changes(outcome) && was,
    }
}

fn opened_after(outcome: &Outcome, was: bool) -> bool
    ensures { result ≡ opened_after outcome.now was }
{
    match outcome {
        Outcome::StageOk(Stage::Open, _) => true,
        Outcome::StageOk(Stage::Drop, _) => false,
        Outcome::StageFault(Stage::Open, _) => true,
        _ => was,
    }
}

fn faded_after(outcome: &Outcome, was: bool) -> bool
    ensures { result ≡ faded_after outcome.now was }
{
    match outcome {
        Outcome::StageOk(stage, _) => matches!(stage, Stage::Fade),
        Outcome::StageFault(_, _) => false,
        Outcome::Spent => false,
        _ => was,
    }
}
