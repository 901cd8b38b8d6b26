ghost use Rattle.std.specs.Prelude.{◌≡◌, ◌<◌, ◌^◌, OnOk, None, [], length, slice_get};
ghost use Rattle.hx_rules.specs.Saves.{starts};
ghost use Rattle.hx_report.specs.Saves.{answers_ended, ends_save, queue_by, queue_after, saves, saves_after};

use hx_events::{Command, Event, Outcome};
use hx_rules::{QueuedSave, SaveAnswer};
use std::alloc::{AllocError, Global};
use std::marker::Model;

/// The saves of one resource: the request that waits, and the answers of those that have ended.
#[derive(Drop)]
pub struct Saves {
    queue: Option<QueuedSave>,
    answers: Vec<SaveAnswer>,
}

impl Model for Saves {
    ghost use Rattle.hx_report.specs.Saves.{SavesKept};

    ghost Value = { SavesKept };

    ghost view = { λ s. record { queue = s.queue; answers = s.answers.items } };
}

impl Saves {
    /// No save was asked for.
    pub fn new(alloc: Global) -> Saves
        ensures { result ≡ saves None [] }
    {
        Saves {
            queue: None,
            answers: Vec::new(alloc),
        }
    }

    /// Takes what an outcome says of saves; `dirty` says whether the copy is dirty with it.
    pub fn note(&mut self, event: &Event, outcome: &Outcome, dirty: bool) -> Result<(), AllocError>
        ensures { OnOk result (self.new ≡ saves_after event.now outcome.now dirty self.old) }
    {
        match ends_save(outcome) {
            Some(answer) => self.end(dirty, answer),
            None => {
                self.queue = queue_after(event, outcome, self.queue);
                Ok(())
            }
        }
    }

    // Ends a save. A request that waits starts then, or is answered as one that has nothing to save.
    fn end(&mut self, dirty: bool, answer: SaveAnswer) -> Result<(), AllocError>
        ensures { OnOk result (self.new ≡ saves None (answers_ended self.old.queue dirty answer self.old.answers)) }
    {
        self.answers.push(answer)?;
        if self.queue.is_some() && !starts(self.queue, dirty) {
            self.answers.push(SaveAnswer::Clean)?;
        }
        self.queue = None;
        Ok(())
    }

    /// The request that waits.
    pub fn queue(&self) -> Option<QueuedSave>
        ensures { result ≡ self.now.queue }
    {
        self.queue
    }

    /// How many saves have ended.
    pub fn ended(&self) -> usize
        ensures value { result ≡ length self.now.answers }
        ensures few { result < 2 ^ 63 }
    {
        self.answers.len()
    }

    /// The answer of the save with this number, counted from 0, once it is there.
    pub fn answer(&self, number: usize) -> Option<SaveAnswer>
        ensures { result ≡ slice_get self.now.answers number }
    {
        self.answers.as_slice().get(number).copied()
    }
}

fn starts(queue: Option<QueuedSave>, dirty: bool) -> bool
    ensures { result ≡ starts queue dirty }
{
    match queue {
        None => false,
        Some(queued) => dirty || queued.force,
    }
}

/// The answer of a save that ends with this outcome, if one does.
pub fn ends_save(outcome: &Outcome) -> Option<SaveAnswer>
    ensures { result ≡ ends_save outcome.now }
{
    match outcome {
        Outcome::CheckFault => Some(SaveAnswer::DiskFault),
        Outcome::Modified(_) => Some(SaveAnswer::ModifiedSince),
        Outcome::WriteFault(_) => Some(SaveAnswer::DiskFault),
        Outcome::Unguarded(_) => Some(SaveAnswer::Unguarded),
        Outcome::Saved(version, _) => Some(SaveAnswer::Saved(*version)),
        _ => None,
    }
}

fn queue_by(event: &Event, was: Option<QueuedSave>) -> Option<QueuedSave>
    ensures { result ≡ queue_by event.now was }
{
    match event {
        Event::Act(command) => match command {
            Command::Save { force, over, .. } => Some(QueuedSave {
                force: *force,
                over: *over,
            }),
            _ => was,
        },
        _ => was,
    }
}

fn queue_after(event: &Event, outcome: &Outcome, was: Option<QueuedSave>) -> Option<QueuedSave>
    ensures { result ≡ queue_after event.now outcome.now was }
{
    match outcome {
        Outcome::Queued => queue_by(event, was),
        _ => was,
    }
}
