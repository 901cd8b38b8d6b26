ghost use Rattle.std.specs.Prelude.{◌≡◌, OnOk, [], ◌∷◌};
ghost use Rattle.hx_rules.specs.Versions.{trail_of, at_place, can_undo, can_redo, moved_back, moved_on};

use std::alloc::{AllocError, Global};
use std::marker::Model;

/// The version ids that undo and redo walk on, the oldest first, and how many of them stand up to the place. An undo and a
/// redo move the place alone.
#[derive(Drop)]
pub struct VersionTrail {
    ids: Vec<u64>,
    place: usize,
}

impl Model for VersionTrail {
    ghost use Rattle.std.specs.Prelude.{ℕ, ◌≤◌, length, take, drop, reverse};
    ghost use Rattle.hx_rules.specs.Versions.{Trail, trail_of};

    ghost Value = { Trail };

    ghost view = { λ t. trail_of (reverse (take t.place t.ids.items)) (drop t.place t.ids.items) };

    ghost invariant = { λ t. t.place ≤ length t.ids.items };
}

impl VersionTrail {
    /// No version.
    pub fn new(alloc: Global) -> VersionTrail
        ensures { result ≡ trail_of [] [] }
    {
        VersionTrail {
            ids: Vec::new(alloc),
            place: 0,
        }
    }

    /// Begins anew with this version.
    pub fn begin(&mut self, id: u64) -> Result<(), AllocError>
        ensures { OnOk result (self.new ≡ trail_of (id ∷ []) []) }
    {
        self.place = 0;
        self.ids.clear();
        self.ids.push(id)?;
        self.place = 1;
        Ok(())
    }

    /// Adds a version behind the place, and forgets those that stood there.
    pub fn add(&mut self, id: u64) -> Result<(), AllocError>
        ensures { OnOk result (self.new ≡ trail_of (id ∷ self.old.back) []) }
    {
        self.ids.truncate(self.place);
        self.ids.push(id)?;
        self.place += 1;
        Ok(())
    }

    /// Moves the place one back, where a version stands before it.
    pub fn undo(&mut self)
        ensures { self.new ≡ moved_back self.old }
    {
        if self.place > 1 {
            self.place -= 1;
        }
    }

    /// Moves the place one on, where a version stands behind it.
    pub fn redo(&mut self)
        ensures { self.new ≡ moved_on self.old }
    {
        if self.place < self.ids.len() {
            self.place += 1;
        }
    }

    /// The version at the place, or 0 where there is none.
    pub fn current(&self) -> u64
        ensures { result ≡ at_place self.now }
    {
        match self.place {
            0 => 0,
            place => self.ids.as_slice()[place - 1],
        }
    }

    /// Whether a version stands before the place.
    pub fn can_undo(&self) -> bool
        ensures { result ≡ can_undo self.now }
    {
        self.place > 1
    }

    /// Whether a version stands behind the place.
    pub fn can_redo(&self) -> bool
        ensures { result ≡ can_redo self.now }
    {
        self.place < self.ids.len()
    }
}
