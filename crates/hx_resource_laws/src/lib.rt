//! What is kept of a resource fits its deeds.
#![tactic(auto)]

ghost use Rattle.hx_resource_laws.specs.Laws.{FitsStay, RowsAgree, FitsAtFirst};

/// What is kept goes on to fit the deeds after each outcome that its row allows.
pub fn what_is_kept_fits()
    ensures fits { FitsStay }
    ensures rows { RowsAgree }
    ensures first { FitsAtFirst }
{}
