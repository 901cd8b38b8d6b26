ghost use Rattle.std.specs.Prelude.{◌≡◌, ◌+◌, ◌==◌, ◌<◌, ◌≤◌, ◌^◌, not, ℕ, List, ◌∷◌, ◌&&◌, ◌||◌, length, Some, slice_get, IfOk, OnOk};
ghost use Rattle.hx_events.specs.declared.life.Entry.{Entry};
ghost use Rattle.hx_rules.specs.Legal.{Opening, count_below, is_row, is_spent, lowest_from};
ghost use Rattle.hx_report.specs.Outlines.{named};
ghost use Rattle.hx_check.specs.declared.sketch.Sketch.{Sketch};
ghost use Rattle.hx_check.specs.Sketches.{FitsSize, holds_in};
ghost use Rattle.hx_check.specs.Judging.{AreUpTo, IsJudged, holds_of, takes_pair, unsafe_in, unsafe_of};

use crate::rows::quit_may;
use crate::sketch::Sketch;
use hx_events::{Command, Event, Outcome, ResNo};
use hx_report::named;
use std::alloc::AllocError;

/// What decides which outcome the next event of a life may have.
#[derive(Drop)]
pub(crate) struct Judge {
    pub(crate) sketches: Vec<Sketch>,

    /// How many pairs are barred.
    pub(crate) barred: u64,

    /// Whether a Prepare has found the stamps used up.
    pub(crate) spent: bool,
}

impl Judge {
    // Whether the event may have this outcome after the entries so far.
    pub(crate) fn may_have(&self, event: &Event, outcome: &Outcome) -> bool
        requires known { (c : ℕ) → named event.now ≡ Some c → c < length self.now.sketches.items }
        requires early { AreUpTo (2 ^ 63) self.now.sketches.items }
        ensures { (o : Opening) (es : List Entry) → IsJudged o es self.now → result ≡ is_row o es event.now outcome.now }
    {
        match named(event) {
            None => quit_may(self.lowest_unsafe(), outcome),
            Some(res) => self.resource_may(res, event, outcome),
        }
    }

    fn resource_may(&self, res: ResNo, event: &Event, outcome: &Outcome) -> bool
        requires named { named event.now ≡ Some res }
        requires known { res < length self.now.sketches.items }
        requires early { AreUpTo (2 ^ 63) self.now.sketches.items }
        ensures { (o : Opening) (es : List Entry) → IsJudged o es self.now → result ≡ is_row o es event.now outcome.now }
    {
        let sketch = &self.sketches[res.number() as usize];
        let lacks = self.lacks_pair(event, sketch);
        sketch.may_have(lacks, self.spent, event, outcome)
    }

    // Whether the event takes a pair of slot files, and its resource has none and gets none.
    fn lacks_pair(&self, event: &Event, sketch: &Sketch) -> bool
        ensures { result ≡ (takes_pair event.now && not (holds_in sketch.now) && (count_below (holds_of self.now.sketches.items) (length self.now.sketches.items) + self.now.barred == 64)) }
    {
        takes_pair(event) && !holds(sketch) && self.no_pair_free()
    }

    // Each pair of slot files is held by a resource or barred.
    fn no_pair_free(&self) -> bool
        ensures { result ≡ (count_below (holds_of self.now.sketches.items) (length self.now.sketches.items) + self.now.barred == 64) }
    {
        let mut held = 0u64;
        for sketch in &self.sketches {
            held += holds(sketch) as u64;
        }
        held <= 64 && self.barred == 64 - held
    }

    // The lowest resource whose copy is dirty and not backed up.
    fn lowest_unsafe(&self) -> Option<usize>
        ensures { result ≡ lowest_from (unsafe_of self.now.sketches.items) 0 (length self.now.sketches.items) }
    {
        for (number, sketch) in self.sketches.iter().enumerate() {
            if is_unsafe(sketch) {
                return Some(number);
            }
        }
        None
    }

    // Takes one entry that the rules allow, at this place of the life.
    pub(crate) fn note(
        &mut self,
        place: u64,
        event: &Event,
        outcome: &Outcome,
    ) -> Result<(), AllocError>
        requires known { (c : ℕ) → named event.now ≡ Some c → c < length self.old.sketches.items }
        requires fits { (c : ℕ) (x : Sketch) → named event.now ≡ Some c → slice_get self.old.sketches.items c ≡ Some x → FitsSize event.now outcome.now x }
        requires early { AreUpTo place self.old.sketches.items }
        requires few { place ≤ 2 ^ 63 }
        ensures later { OnOk result (AreUpTo (place + 1) self.new.sketches.items) }
        ensures count { OnOk result (length self.new.sketches.items ≡ length self.old.sketches.items) }
        ensures judged { OnOk result ((o : Opening) (e : Entry) (es : List Entry) → e.event ≡ event.now → e.outcome ≡ outcome.now → IsJudged o es self.old → IsJudged o (e ∷ es) self.new) }
    {
        let spent = spent_after(outcome, self.spent);
        match named(event) {
            None => {}
            Some(res) => self.sketches[res.number() as usize].note(event, outcome)?,
        }
        self.spent = spent;
        Ok(())
    }
}

fn takes_pair(event: &Event) -> bool
    ensures { result ≡ takes_pair event.now }
{
    match event {
        Event::Act(command) => matches!(command, Command::Open(_) | Command::Create(_)),
        _ => false,
    }
}

fn spent_after(outcome: &Outcome, was: bool) -> bool
    ensures { result ≡ (was || is_spent outcome.now) }
{
    match outcome {
        Outcome::Spent => true,
        _ => was,
    }
}

fn holds(sketch: &Sketch) -> bool
    ensures { result ≡ holds_in sketch.now }
{
    sketch.outline.registered || sketch.opened
}

fn is_unsafe(sketch: &Sketch) -> bool
    ensures { result ≡ unsafe_in sketch.now }
{
    sketch.outline.is_dirty() && !sketch.outline.is_backed()
}
