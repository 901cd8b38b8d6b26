ghost use Rattle.hx_rules_laws.specs.Taken.{BegunIsTaken};
ghost use Rattle.hx_rules_laws.specs.Sized.{BegunIsSized};
ghost use Rattle.hx_rules_laws.specs.DueStages.{DueOpenHasBegun, DueBodyHasBegun, DueDiscardHasNoneBegun, DueDiscardIsOpened};
ghost use Rattle.hx_rules_laws.specs.Holding.{FadedIsOpened, RunIsRegistered, DueHolds, HoldingNoneIsBare};

/// A begun backup of a legal history is what an Open would open: what its Prepare took. Its size is the length of its
/// content, where the history kept what was read.
#[tactic(auto, using(crate::specs::Taken::begun_is_taken, crate::specs::Sized::begun_is_sized))]
pub fn an_open_opens_what_its_prepare_took()
    ensures taken { BegunIsTaken }
    ensures sized { BegunIsSized }
{}

/// A due Body and a due Open have a begun backup of their version, which lacks blocks or has all of them; where a Fade or a
/// Drop is due nothing is begun and a gate was opened, and a Drop comes after a completed Fade.
#[tactic(auto, using(crate::specs::DueStages::open_begun, crate::specs::DueStages::body_begun, crate::specs::DueStages::discard_due, crate::specs::DueStages::discard_opened))]
pub fn what_the_due_stage_says_of_the_backup()
    ensures open { DueOpenHasBegun }
    ensures body { DueBodyHasBegun }
    ensures discard { DueDiscardHasNoneBegun }
    ensures opened { DueDiscardIsOpened }
{}

/// After a legal history: a save runs of a registered copy alone, a resource with a due stage holds a pair, and one that
/// holds none has nothing that may come back and nothing under way; after a completed Fade a gate is open.
#[tactic(auto, using(crate::specs::Holding::faded_is_opened, crate::specs::Holding::run_is_registered, crate::specs::Holding::due_holds, crate::specs::Holding::holding_none_is_bare))]
pub fn who_holds_a_pair()
    ensures faded { FadedIsOpened }
    ensures run { RunIsRegistered }
    ensures due { DueHolds }
    ensures none { HoldingNoneIsBare }
{}
