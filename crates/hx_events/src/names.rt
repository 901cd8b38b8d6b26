//! The resources of a life, by number.

ghost use Rattle.std.specs.Prelude.{◌≡◌, ◌<◌, ◌≤◌, ◌++◌, [], ◌∷◌, length, map, IfOk, IfErr, OnErr, Option, Some, None, IsNone, slice_get};
ghost use Rattle.hx_events.specs.Places.{IsDistinct, place_of, texts_of};

use crate::ResNo;
use indexmap::IndexSet;
use std::alloc::Global;
use std::marker::Model;

/// A list of distinct resources, at most 256. Contracts see the list; a resource's number is its place in it.
#[derive(Drop)]
pub struct Names {
    set: IndexSet<Vec<u8>>,
}

impl Model for Names {
    ghost use Rattle.std.specs.Prelude.{ℕ, List, ◌≤◌, length};
    ghost use Rattle.hx_events.specs.Places.{IsDistinct, texts_of};

    ghost Value = { List (List ℕ) };

    ghost view = { λ n. texts_of n.set.keys };

    ghost invariant = { λ n. (length (texts_of n.set.keys) ≤ 256) × IsDistinct (texts_of n.set.keys) };
}

impl Names {
    pub fn new(alloc: Global) -> Names
        ensures { result ≡ [] }
    {
        Names {
            set: IndexSet::new(alloc),
        }
    }

    /// How many resources there are: at most 256, no two of them the same.
    pub fn len(&self) -> usize
        ensures count { result ≡ length self.now }
        ensures at_most { length self.now ≤ 256 }
        ensures distinct { IsDistinct self.now }
    {
        self.set.len()
    }

    /// Adds a resource at the end. For want of memory the resource is handed back, and the list is as before.
    pub fn add(&mut self, resource: Vec<u8>) -> Result<ResNo, Vec<u8>>
        requires new { place_of resource.items self.old ≡ None }
        requires room { length self.old < 256 }
        ensures number { IfOk result (λ res. res ≡ length self.old) }
        ensures added { IfOk result (λ res. self.new ≡ self.old ++ resource.items ∷ []) }
        ensures returned { IfErr result (λ back. back.items ≡ resource.items) }
        ensures unchanged { OnErr result (self.new ≡ self.old) }
    {
        let number = self.set.len();
        match self.set.insert(resource) {
            Ok(_) => Ok(ResNo::new(number as u32)),
            Err(failed) => Err(failed.value),
        }
    }

    /// The number of a resource, None exactly where it isn't in the list. It costs a look-up in a table, not a walk
    /// through the list.
    pub fn find(&self, resource: &[u8]) -> Option<ResNo>
        ensures { result ≡ place_of resource.now self.now }
    {
        let number = self.set.get_index_of(resource)?;
        Some(ResNo::new(number as u32))
    }

    fn text_at(&self, res: ResNo) -> &[u8]
        requires { res < length self.now }
        ensures { slice_get self.now res ≡ Some result.now }
    {
        self.set.as_slice()[res.number() as usize].as_slice()
    }

    /// The resource with this number, which `find` gives back.
    pub fn text(&self, res: ResNo) -> &[u8]
        requires { res < length self.now }
        ensures text { slice_get self.now res ≡ Some result.now }
        ensures found { place_of result.now self.now ≡ Some res }
    {
        let _ = &self.set;
        self.text_at(res)
    }
}
