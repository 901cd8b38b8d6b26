//! The lives of a script.

ghost use Rattle.std.specs.Prelude.{◌≡◌, ◌<◌, [], ◌∷◌, OnOk, reverse};

use hx_events::Life;
use std::alloc::{AllocError, Global};
use std::marker::Model;

/// The lives that have ended, and room for more. Contracts see the lives, the newest first.
#[derive(Drop)]
pub struct Lives {
    items: Vec<Life>,
}

impl Model for Lives {
    ghost use Rattle.std.specs.Prelude.{reverse, vec_len, vec_capacity, ◌-◌};
    ghost use Rattle.hx_play.specs.Over.{LivesState};

    ghost Value = { LivesState };

    ghost view = { λ l. record { lives = reverse l.items.items; room = vec_capacity l.items - vec_len l.items } };
}

impl Lives {
    pub fn new(alloc: Global) -> Lives
        ensures { result.lives ≡ [] }
    {
        Lives {
            items: Vec::new(alloc),
        }
    }

    /// Makes room for one more.
    pub fn reserve(&mut self) -> Result<(), AllocError>
        ensures same { self.new.lives ≡ self.old.lives }
        ensures room { OnOk result (0 < self.new.room) }
    {
        self.items.reserve(1)
    }

    /// Adds the newest.
    pub fn push(&mut self, life: Life)
        requires { 0 < self.old.room }
        ensures { self.new.lives ≡ life ∷ self.old.lives }
    {
        self.items.push_reserved(life);
    }

    /// Hands the lives out, the oldest first.
    pub fn into_vec(self) -> Vec<Life>
        ensures { reverse result.items ≡ self.lives }
    {
        self.items
    }
}
