ghost use Rattle.std.specs.Prelude.{◌≡◌, [], OnOk, get_or};
ghost use Rattle.hx_check.specs.Sizes.{size_at, with_size};

use std::alloc::{AllocError, Global};
use std::marker::Model;

/// The sizes of a copy's versions, by their ids from 1.
#[derive(Drop)]
pub(crate) struct Sizes {
    items: Vec<u64>,
}

impl Model for Sizes {
    ghost use Rattle.std.specs.Prelude.{ℕ, List};

    ghost Value = { List ℕ };

    ghost view = { λ s. s.items.items };
}

impl Sizes {
    pub(crate) fn new(alloc: Global) -> Sizes
        ensures { result ≡ [] }
    {
        Sizes {
            items: Vec::new(alloc),
        }
    }

    // The size of the version with this id, or 0 where there is none.
    pub(crate) fn at(&self, version: u64) -> u64
        ensures { result ≡ size_at version self.now }
    {
        match version {
            0 => 0,
            id => size_or_0(self.items.as_slice(), id - 1),
        }
    }

    // Adds the size of a new version, if there is one.
    pub(crate) fn add(&mut self, size: Option<u64>) -> Result<(), AllocError>
        ensures { OnOk result (self.new ≡ with_size size self.old) }
    {
        match size {
            None => {}
            Some(size) => self.items.push(size)?,
        }
        Ok(())
    }
}

fn size_or_0(sizes: &[u64], place: u64) -> u64
    ensures { result ≡ get_or sizes.now place 0 }
{
    if place < sizes.len() as u64 {
        sizes[place as usize]
    } else {
        0
    }
}
