//! How what passes know reads in the rules of a history.

ghost use Rattle.hx_passes.specs.Newest.{BeginningsAgree, PlacesAgree};

/// A history has the same entry at each place, and the same beginnings, whether it is read oldest first, as passes do, or
/// newest first, as the rules do. So what passes know when they end can be said in the rules' words. There is nothing to run.
pub fn a_history_reads_from_either_end()
    ensures places { PlacesAgree }
    ensures beginnings { BeginningsAgree }
{}
