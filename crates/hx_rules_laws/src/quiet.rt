ghost use Rattle.hx_rules_laws.specs.Quiet.{NoSaveRuns, DirtyIsBackedUp, UnwantedIsDiscarded};

/// Where no stage is due for a resource, no save of it runs; and unless it is halted, its last version is backed up where
/// it is dirty, and nothing of it may show where no backup is wanted.
#[tactic(auto, using(crate::specs::Quiet::no_save_runs, crate::specs::Quiet::dirty_is_backed_up, crate::specs::Quiet::unwanted_is_discarded))]
pub fn what_holds_where_nothing_is_due()
    ensures saves { NoSaveRuns }
    ensures dirty { DirtyIsBackedUp }
    ensures unwanted { UnwantedIsDiscarded }
{}
