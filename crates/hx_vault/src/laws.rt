ghost use Rattle.hx_vault.specs.Scans.{NoGreaterStamp};
ghost use Rattle.hx_vault.specs.Sides.{ShowsWhatItCan};

/// Of a slot file of which it is known what stands in it, each image shows what it then can: nothing behind a gate that is
/// known closed, and what stands behind any other gate, or nothing.
#[tactic(auto, using(crate::specs::Sides::shows_what_it_can))]
pub fn what_a_file_can_show()
    ensures { ShowsWhatItCan }
{}

/// The counter of a vault that was just read is at least each stamp that is shown.
#[tactic(auto, using(crate::specs::Scans::no_greater_stamp))]
pub fn no_slot_shows_more_than_the_greatest_stamp()
    ensures { NoGreaterStamp }
{}
