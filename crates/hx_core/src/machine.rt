ghost use Rattle.std.specs.Prelude.{◌≡◌, true};
ghost use Rattle.hx_rules.specs.Entries.{past};
ghost use Rattle.hx_rules.specs.Legal.{is_legal};

use hx_backups::Backups;
use hx_events::{Backup, Entry, Names, ResNo};
use hx_ghost::GhostList;
use hx_resource::Resource;
use hx_tracker::DueIndex;
use std::alloc::Global;
use std::marker::Model;

/// The state machine of a life, with its history. Contracts see it as plain data.
#[derive(Drop)]
pub struct Core {
    pub(crate) alloc: Global,
    pub(crate) names: Names,
    // What the resources were restored with, and those that were in the order of their pairs; only clauses read these.
    pub(crate) restored: GhostList<Option<Backup>>,
    pub(crate) first: GhostList<(ResNo, u64)>,
    pub(crate) barred: u64,
    pub(crate) guarded: bool,
    pub(crate) resources: Vec<Resource>,
    pub(crate) backups: Backups,
    pub(crate) history: Vec<Entry>,
    pub(crate) spent: bool,
    pub(crate) vault: DueIndex,
    pub(crate) save: DueIndex,
}

impl Model for Core {
    ghost use Rattle.std.specs.Prelude.{◌-◌, vec_len, vec_capacity};
    ghost use Rattle.hx_core.specs.Cores.{CoreState, IsCore};

    ghost Value = { CoreState };

    ghost view = { λ c. record { names = c.names; opening = record { restored = c.restored.items; barred = c.barred; guarded = c.guarded }; first = c.first.items; history = c.history.items; resources = c.resources.items; backups = c.backups; spent = c.spent; vault = c.vault; save = c.save; room = vec_capacity c.history - vec_len c.history } };

    ghost invariant = { λ c. IsCore (record { restored = c.restored.items; barred = c.barred; guarded = c.guarded }) c.first.items c.resources.items c.backups.pairs c.history.items c.spent c.vault c.save };
}

impl Core {
    /// The history is legal.
    pub fn legal(&self)
        ensures { is_legal self.now.opening (past self.now.history) ≡ true }
    {
        let _ = &self.history;
    }
}
