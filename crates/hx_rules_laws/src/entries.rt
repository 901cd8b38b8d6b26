ghost use Rattle.hx_rules_laws.specs.Frames.{NewestFirst, AddsDeed, LeavesOthers, OneResource};

/// A history that grows by one entry grows by one deed of one resource at most, and the deeds of every other resource stay
/// as they were.
#[tactic(auto, using(crate::specs::Frames::newest_first, crate::specs::Frames::adds_deed, crate::specs::Frames::leaves_others, crate::specs::Frames::one_resource))]
pub fn a_history_grows_by_one_entry()
    ensures newest { NewestFirst }
    ensures own { AddsDeed }
    ensures others { LeavesOthers }
    ensures one { OneResource }
{}
