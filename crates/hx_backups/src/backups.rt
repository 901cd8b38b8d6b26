ghost use Rattle.std.specs.Prelude.{◌≡◌, ◌<◌, ◌≤◌, ◌+◌, ◌==◌, ℕ, [], Some, None, map, nat_eq, IfOk, IsOk, OnOk, OnErr, if◌then◌else◌};
ghost use Rattle.indexmap.specs.IndexMap.{insert_entry, shift_remove_entry};
ghost use Rattle.hx_backups.specs.Backups.{version_of, is_backed_up};

use hx_events::ResNo;
use indexmap::IndexMap;
use std::alloc::{AllocError, Global};
use std::marker::Model;

/// The resources that are backed up, each with the version id of its backup, in the order in which they were added. Contracts
/// see the list of these pairs, and for how many more of them there is room.
#[derive(Drop)]
pub struct Backups {
    versions: IndexMap<u32, u64>,
    alloc: Global,
}

impl Model for Backups {
    ghost use Rattle.std.specs.Prelude.{◌≡◌, true};
    ghost use Rattle.indexmap.specs.IndexMap.{keys, spare};
    ghost use Rattle.hx_backups.specs.Backups.{BackupsState, are_numbers};

    ghost Value = { BackupsState };

    ghost view = { λ b. record { pairs = b.versions.entries; room = spare b.versions } };

    ghost invariant = { λ b. are_numbers (keys b.versions) ≡ true };
}

impl Backups {
    /// No resource is backed up. No memory is asked for.
    pub fn new(alloc: Global) -> Backups
        ensures { result.pairs ≡ [] }
    {
        Backups {
            versions: IndexMap::new(alloc),
            alloc,
        }
    }

    /// Makes room for one `add`, and changes nothing else. Room that is there stays.
    pub fn reserve(&mut self) -> Result<(), AllocError>
        ensures room { OnOk result (0 < self.new.room) }
        ensures kept { self.old.room ≤ self.new.room }
        ensures pairs { self.new.pairs ≡ self.old.pairs }
    {
        self.versions.reserve(1)
    }

    /// Notes that this version of the resource is backed up. A resource that is there keeps its place and gets the version; a
    /// new one comes last. Without memory nothing has changed; with room the call succeeds.
    pub fn add(&mut self, res: ResNo, version: u64) -> Result<(), AllocError>
        ensures pairs { OnOk result (self.new.pairs ≡ insert_entry nat_eq self.old.pairs res version) }
        ensures versions { OnOk result ((k : ℕ) → version_of k self.new.pairs ≡ (if res == k then Some version else version_of k self.old.pairs)) }
        ensures err { OnErr result (self.new.pairs ≡ self.old.pairs) }
        ensures succeeds { 0 < self.old.room → IsOk result }
        ensures room { self.old.room ≤ self.new.room + 1 }
    {
        self.versions.insert(res.number(), version)?;
        Ok(())
    }

    /// Whether the resource is backed up, and with this version where one is given.
    pub fn has(&self, res: ResNo, version: Option<u64>) -> bool
        ensures { result ≡ is_backed_up version (version_of res self.now.pairs) }
    {
        match (self.versions.get(&res.number()), version) {
            (None, _) => false,
            (Some(_), None) => true,
            (Some(kept), Some(version)) => *kept == version,
        }
    }

    /// Takes the resource out, and the rest closes up. One that isn't there changes nothing. Room that is there stays.
    pub fn remove(&mut self, res: ResNo)
        ensures pairs { self.new.pairs ≡ shift_remove_entry (nat_eq res) self.old.pairs }
        ensures versions { (k : ℕ) → version_of k self.new.pairs ≡ (if res == k then None else version_of k self.old.pairs) }
        ensures room { self.old.room ≤ self.new.room }
    {
        self.versions.shift_remove(&res.number());
    }

    /// The resources, in the order of their pairs.
    pub fn get(&self) -> Result<Vec<ResNo>, AllocError>
        ensures { IfOk result (λ resources. resources.items ≡ map (λ p. p.0) self.now.pairs) }
    {
        let mut resources = Vec::new(self.alloc);
        for number in self.versions.keys() {
            resources.push(ResNo::new(*number))?;
        }
        Ok(resources)
    }

    /// Takes all resources out. Room that is there stays.
    pub fn clear(&mut self)
        ensures pairs { self.new.pairs ≡ [] }
        ensures room { self.old.room ≤ self.new.room }
    {
        self.versions.clear();
    }
}
