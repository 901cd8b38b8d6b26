//! One side of a trail: the steps from the place to those before it, or to those behind it.

ghost use Rattle.std.specs.Prelude.{◌≡◌, ◌+◌, ◌-◌, ◌<◌, ◌≤◌, ◌∷◌, ◌^◌, [], not, true, drop, length, vec_len, vec_capacity, IsOk, OnOk};
ghost use Rattle.hx_rules.specs.Versions.{replaced};
ghost use Rattle.hx_copy.specs.Steps.{HasAt, step, first_step, has_steps, turned};

use crate::places::replace;
use std::alloc::{AllocError, Global};
use std::marker::Model;

// A step, and how many of the kept bytes are its own: first those that stand in the content, then those of the other place.
#[derive(Clone, Copy)]
struct Mark {
    id: u64,
    off: usize,
    here: usize,
    there: usize,
}

/// The steps of one side. Contracts see them, the nearest first, and for how many more steps and bytes there is room.
#[derive(Drop)]
pub struct Steps {
    marks: Vec<Mark>,
    bytes: Vec<u8>,
}

impl Model for Steps {
    ghost use Rattle.std.specs.Prelude.{◌≡◌, ◌-◌, true, length, reverse, vec_len, vec_capacity};
    ghost use Rattle.hx_copy.specs.Steps.{StepsState};

    ghost Value = { StepsState };

    ghost use Rattle.hx_copy.specs.Marks.{steps_of, are_stacked};

    ghost view = { λ s. record { steps = steps_of (reverse s.marks.items) s.bytes.items; places = vec_capacity s.marks - vec_len s.marks; bytes = vec_capacity s.bytes - vec_len s.bytes } };

    ghost invariant = { λ s. are_stacked (reverse s.marks.items) (length s.bytes.items) ≡ true };
}

impl Steps {
    pub fn new(alloc: Global) -> Steps
        ensures { result.steps ≡ [] }
    {
        Steps {
            marks: Vec::new(alloc),
            bytes: Vec::new(alloc),
        }
    }

    pub fn is_empty(&self) -> bool
        ensures { result ≡ not (has_steps self.now.steps) }
    {
        self.marks.as_slice().last().is_none()
    }

    /// Makes room for one step with so many bytes.
    pub fn reserve(&mut self, bytes: usize) -> Result<(), AllocError>
        ensures places { OnOk result (0 < self.new.places) }
        ensures bytes { OnOk result (bytes ≤ self.new.bytes) }
        ensures steps { self.new.steps ≡ self.old.steps }
        ensures kept_places { self.old.places ≤ self.new.places }
        ensures kept_bytes { self.old.bytes ≤ self.new.bytes }
        ensures succeeds { 0 < self.old.places → bytes ≤ self.old.bytes → IsOk result }
    {
        self.marks.reserve(1)?;
        self.bytes.reserve(bytes)
    }

    /// Puts a step before the others.
    pub fn push(&mut self, id: u64, off: usize, here: &[u8], there: &[u8])
        requires places { 0 < self.old.places }
        requires bytes { length here.now + length there.now ≤ self.old.bytes }
        ensures steps { self.new.steps ≡ step id off here.now there.now ∷ self.old.steps }
    {
        let Ok(()) = self.bytes.extend_from_slice(here) else {
            unreachable!()
        };
        let Ok(()) = self.bytes.extend_from_slice(there) else {
            unreachable!()
        };
        self.marks.push_reserved(Mark {
            id,
            off,
            here: here.len(),
            there: there.len(),
        });
    }

    pub fn clear(&mut self)
        ensures { self.new.steps ≡ [] }
    {
        self.marks.clear();
        self.bytes.clear();
    }

    /// How many bytes the nearest step has that stand in the content, and how many of the other place; none without a step.
    pub fn nearest(&self) -> (usize, usize)
        ensures here { result.0 ≡ length (first_step self.now.steps).here }
        ensures there { result.1 ≡ length (first_step self.now.steps).there }
        ensures few { result.0 + result.1 < 2 ^ 63 }
    {
        match self.marks.as_slice().last() {
            None => (0, 0),
            Some(mark) => (mark.here, mark.there),
        }
    }

    /// Takes the nearest step: the content becomes that of its place, and the step goes over to the other side, where it leads
    /// back to the place with this id. The answer is the id of the place that was walked to.
    pub fn walk(&mut self, other: &mut Steps, id: u64, content: &mut Vec<u8>) -> u64
        requires some { has_steps self.old.steps ≡ true }
        requires has { HasAt (first_step self.old.steps).off (first_step self.old.steps).here content.old.items }
        requires places { 0 < other.old.places }
        requires bytes { length (first_step self.old.steps).here + length (first_step self.old.steps).there ≤ other.old.bytes }
        requires room { vec_len content.old - length (first_step self.old.steps).here + length (first_step self.old.steps).there ≤ vec_capacity content.old }
        ensures id { result ≡ (first_step self.old.steps).id }
        ensures content { content.new.items ≡ replaced (first_step self.old.steps).off (length (first_step self.old.steps).here) (first_step self.old.steps).there content.old.items }
        ensures steps { self.new.steps ≡ drop 1 self.old.steps }
        ensures other { other.new.steps ≡ turned id (first_step self.old.steps) ∷ other.old.steps }
    {
        let Some(mark) = self.marks.pop() else {
            unreachable!()
        };
        let start = self.bytes.len() - (mark.here + mark.there);
        let (here, there) = self.bytes.as_slice()[start..].split_at(mark.here);
        other.push(id, mark.off, there, here);
        replace(content, mark.off, mark.here, there);
        self.bytes.truncate(start);
        mark.id
    }
}
