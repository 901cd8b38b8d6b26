//! What a core says of its life. No call takes memory but `copies`.

ghost use Rattle.std.specs.Prelude.{◌≡◌, ◌-◌, ◌<◌, ◌≤◌, ◌&&◌, ℕ, true, length, option_map, is_some, IfOk, IfSome};
ghost use Rattle.hx_rules.specs.Entries.{own, past};
ghost use Rattle.hx_rules.specs.Versions.{version_at, versions};
ghost use Rattle.hx_rules.specs.Copies.{registered};
ghost use Rattle.hx_rules.specs.Saves.{running, save_steps};
ghost use Rattle.hx_rules.specs.Due.{run_version};
ghost use Rattle.hx_rules.specs.Backups.{begun, done};
ghost use Rattle.hx_rules.specs.Legal.{restored_at, holds_at, lacks_pair, count_below, is_unsafe, lowest, lowest_vault_due, lowest_save_due, vault_due, save_due};
ghost use Rattle.hx_tracker.specs.Index.{has_number};
ghost use Rattle.hx_resource.specs.Kept.{dirty_now};
ghost use Rattle.hx_core.specs.States.{state_of, state_by};
ghost use Rattle.hx_seq.specs.Keeps.{Keeps};
ghost use Rattle.hx_resource_laws.specs.Fits.{Fits, FitsCopy};
ghost use Rattle.hx_core.specs.Listed.{ListsDone, listed};
ghost use Rattle.hx_core.specs.Registered.{copies_of, fact_at, registered_at};

use crate::machine::Core;
use hx_backups::Backups;
use hx_copy::WorkingCopy;
use hx_events::{CopyFact, CopyState, Entry, Names, ResNo};
use hx_resource::{BegunBackup, Resource};
use hx_seq::Sequencer;
use hx_tracker::DueIndex;
use std::alloc::{AllocError, Global};

impl Core {
    /// The entries so far, the oldest first.
    pub fn history(&self) -> &[Entry]
        ensures { result.now ≡ self.now.history }
    {
        self.history.as_slice()
    }

    /// The resources, with the restored ones that weren't declared behind the others.
    pub fn names(&self) -> &Names
        ensures { result.now ≡ self.now.names }
    {
        &self.names
    }

    /// How many resources the life has; their numbers are below it.
    pub fn count(&self) -> usize
        ensures { result ≡ length self.now.resources }
    {
        self.resources.len()
    }

    pub(crate) fn resource(&self, res: ResNo) -> &Resource
        requires { res < length self.now.resources }
        ensures { Fits (restored_at self.now.opening res) self.now.opening.guarded (own res (past self.now.history)) result.now.kept }
    {
        &self.resources[res.number() as usize]
    }

    /// Whether the resource holds a pair of slot files: its copy is registered, or something of it may show there.
    pub fn holds(&self, res: ResNo) -> bool
        requires { res < length self.now.resources }
        ensures { result ≡ holds_at self.now.opening (past self.now.history) res }
    {
        self.resource(res).holds()
    }

    /// The copy, or none exactly where it isn't registered.
    pub fn copy(&self, res: ResNo) -> Option<&WorkingCopy>
        requires { res < length self.now.resources }
        ensures there { is_some result ≡ registered (restored_at self.now.opening res) (own res (past self.now.history)) }
        ensures copy { IfSome result (λ copy. FitsCopy (restored_at self.now.opening res) (own res (past self.now.history)) copy.now.copy) }
    {
        self.resource(res).copy()
    }

    /// The snapshot of the backup that is begun, or none exactly where none is.
    pub fn begun(&self, res: ResNo) -> Option<&BegunBackup>
        requires { res < length self.now.resources }
        ensures { option_map (λ b. b.now) result ≡ begun (restored_at self.now.opening res) self.now.opening.guarded (own res (past self.now.history)) }
    {
        self.resource(res).begun()
    }

    /// The content of the version that is being saved, or none exactly where no save runs.
    pub fn saving(&self, res: ResNo) -> Option<&[u8]>
        requires { res < length self.now.resources }
        ensures runs { is_some result ≡ is_some (running (save_steps (restored_at self.now.opening res) (own res (past self.now.history)))) }
        ensures content { IfSome result (λ content. content.now ≡ (version_at (run_version (running (save_steps (restored_at self.now.opening res) (own res (past self.now.history))))) (versions (restored_at self.now.opening res) (own res (past self.now.history)))).content) }
    {
        saving_in(self.resource(res))
    }

    /// What the copy is in: the first of these that holds.
    pub fn state(&self, res: ResNo) -> CopyState
        requires { res < length self.now.resources }
        ensures { result ≡ state_of (restored_at self.now.opening res) (own res (past self.now.history)) }
    {
        state_in(self.resource(res))
    }

    /// The resources for which a vault stage is due.
    pub fn vault_index(&self) -> &DueIndex
        ensures { (k : ℕ) → k < length self.now.resources → has_number result.now k ≡ is_some (vault_due self.now.opening (past self.now.history) k) }
    {
        &self.vault
    }

    /// The resources for which a save stage is due.
    pub fn save_index(&self) -> &DueIndex
        ensures { (k : ℕ) → k < length self.now.resources → has_number result.now k ≡ is_some (save_due self.now.opening (past self.now.history) k) }
    {
        &self.save
    }

    /// Ends the life, and hands out its names and its entries.
    pub fn finish(self) -> (Names, Vec<Entry>)
        ensures names { result.0 ≡ self.names }
        ensures history { result.1.items ≡ self.history }
    {
        (self.names, self.history)
    }

    /// The version of the resource's completed backup, or none exactly where it has none.
    pub fn done(&self, res: ResNo) -> Option<u64>
        requires { res < length self.now.resources }
        ensures { result ≡ option_map (λ b. b.version) (done (restored_at self.now.opening res) (own res (past self.now.history))) }
    {
        self.resource(res).done()
    }

    /// The resource's saves: what runs, and the answers of its tickets.
    pub fn sequencer(&self, res: ResNo) -> &Sequencer
        requires { res < length self.now.resources }
        ensures { Keeps (save_steps (restored_at self.now.opening res) (own res (past self.now.history))) result.now.seq }
    {
        self.resource(res).sequencer()
    }

    /// The list of the resources that have a completed backup, each with its version. The restored resources stand first, in
    /// the order of their pairs; a resource whose backup was discarded is taken out, and comes last when it has one again.
    pub fn backups(&self) -> &Backups
        ensures listed { result.now.pairs ≡ listed self.now.first (past self.now.history) }
        ensures done { ListsDone self.now.opening (past self.now.history) result.now.pairs }
    {
        &self.backups
    }

    /// The registered copies in the order of their resources, each with what an exit asks of it.
    pub fn copies(&self, alloc: Global) -> Result<Vec<CopyFact>, AllocError>
        ensures { IfOk result (λ copies. copies.items ≡ copies_of self.now.opening (past self.now.history)) }
    {
        let mut copies = Vec::new(alloc);
        for i in 0..self.resources.len() {
            let res = ResNo::new(i as u32);
            if self.is_registered(res) {
                copies.push(self.fact(res))?;
            }
        }
        Ok(copies)
    }

    fn is_registered(&self, res: ResNo) -> bool
        requires { res < length self.now.resources }
        ensures { result ≡ registered_at self.now.opening (past self.now.history) res }
    {
        self.resource(res).is_open()
    }

    // What an exit asks of the copy.
    fn fact(&self, res: ResNo) -> CopyFact
        requires { res < length self.now.resources }
        ensures { result ≡ fact_at self.now.opening (past self.now.history) res }
    {
        let resource = self.resource(res);
        CopyFact {
            res,
            dirty: resource.is_dirty(),
            backed: resource.is_backed(),
        }
    }

    // How many resources hold a pair.
    fn holders(&self) -> u64
        ensures count { result ≡ count_below (holds_at self.now.opening (past self.now.history)) (length self.now.resources) }
        ensures few { result ≤ 256 }
    {
        let mut count = 0;
        for i in 0..self.resources.len() {
            if self.holds(ResNo::new(i as u32)) {
                count += 1;
            }
        }
        count
    }

    /// Whether the resource has no pair and gets none.
    pub fn lacks_pair(&self, res: ResNo) -> bool
        requires { res < length self.now.resources }
        ensures { result ≡ lacks_pair self.now.opening (past self.now.history) res }
    {
        !self.holds(res) && self.holders() + self.barred == 64
    }

    fn is_unsafe(&self, res: ResNo) -> bool
        requires { res < length self.now.resources }
        ensures { result ≡ is_unsafe self.now.opening (past self.now.history) res }
    {
        self.resource(res).is_unsafe()
    }

    // The lowest resource whose copy is dirty and not backed up.
    pub(crate) fn lowest_unsafe(&self) -> Option<ResNo>
        ensures { result ≡ lowest self.now.opening (is_unsafe self.now.opening (past self.now.history)) }
    {
        for i in 0..self.resources.len() {
            let res = ResNo::new(i as u32);
            if self.is_unsafe(res) {
                return Some(res);
            }
        }
        None
    }

    /// The lowest resource for which a vault stage is due, or none exactly where there is none.
    pub fn due_vault(&self) -> Option<ResNo>
        ensures { result ≡ lowest_vault_due self.now.opening (past self.now.history) }
    {
        self.vault.lowest()
    }

    /// The lowest resource for which a save stage is due, or none exactly where there is none.
    pub fn due_save(&self) -> Option<ResNo>
        ensures { result ≡ lowest_save_due self.now.opening (past self.now.history) }
    {
        self.save.lowest()
    }
}

fn saving_in(resource: &Resource) -> Option<&[u8]>
    ensures runs { is_some result ≡ is_some resource.now.kept.seq.run }
    ensures content { IfSome result (λ content. content.now ≡ resource.now.kept.saving) }
{
    match resource.running() {
        None => None,
        Some(_) => Some(resource.saving()),
    }
}

fn state_in(resource: &Resource) -> CopyState
    ensures { result ≡ state_by (is_some resource.now.kept.copy) (is_some resource.now.kept.seq.run) (dirty_now resource.now.kept.copy) }
{
    if !resource.is_open() {
        CopyState::NotOpen
    } else if resource.running().is_some() {
        CopyState::Saving
    } else if resource.is_dirty() {
        CopyState::Dirty
    } else {
        CopyState::Clean
    }
}
