ghost use Rattle.hx_rules_laws.specs.Marks.{MarksChange};
ghost use Rattle.hx_rules_laws.specs.Backups.{BegunEndsTried, FadedEndsTried, DoneIsOpened};
ghost use Rattle.hx_rules_laws.specs.Dues.{FlagsGiveTheStage};
ghost use Rattle.hx_rules_laws.specs.Legals.{TriedIsOpened, UndoneIsOpened, BegunIsWanted, BegunIsNotHalted, StillAllowedInHand};

/// What each outcome does to the completed backup, to the one whose Open failed, to what is begun, and to the marks of a
/// resource.
#[tactic(auto, using(crate::specs::Marks::marks_change))]
pub fn what_each_outcome_does_to_the_marks()
    ensures { MarksChange }
{}

/// A begun backup, and a completed Fade, have ended the backup whose Open failed; and where a backup is completed, a gate
/// was opened since the last completed Drop.
#[tactic(auto, using(crate::specs::Backups::begun_ends_tried, crate::specs::Backups::faded_ends_tried, crate::specs::Backups::done_is_opened))]
pub fn how_the_marks_go_together()
    ensures begun { BegunEndsTried }
    ensures faded { FadedEndsTried }
    ensures done { DoneIsOpened }
{}

/// The vault stage that is due is the one that the flags of the copy give.
#[tactic(auto, using(crate::specs::Dues::flags_give_the_stage))]
pub fn flags_give_the_due_stage()
    ensures { FlagsGiveTheStage }
{}

/// After a legal history: what a crash may bring back is still in the resource's pair, and a begun backup is wanted and
/// isn't halted.
#[tactic(auto, using(crate::specs::Legals::tried_is_opened, crate::specs::Legals::undone_is_opened, crate::specs::Legals::begun_is_wanted, crate::specs::Legals::begun_is_not_halted))]
pub fn how_the_marks_go_together_after_a_legal_history()
    ensures tried { TriedIsOpened }
    ensures undone { UndoneIsOpened }
    ensures wanted { BegunIsWanted }
    ensures not_halted { BegunIsNotHalted }
{}

/// What a crash may bring back before a legal entry is allowed also where the stage in hand fails.
pub fn what_was_allowed_stays_so_while_a_stage_is_in_hand()
    ensures { StillAllowedInHand }
{}
