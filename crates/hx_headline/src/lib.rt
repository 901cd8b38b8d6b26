//! The headline over lives: what a life finds of the one before it, and what was answered where a life came to its quiet end.
//! Here are laws alone.
#![tactic(auto)]

ghost use Rattle.hx_headline.specs.Alone.{DoneIsAlone};
ghost use Rattle.hx_headline.specs.Answered.{AllTicketsAreAnswered};
ghost use Rattle.hx_headline.specs.Next.{NextFindsAllowed};

/// What a life begins with is, of each copy of the life before it that had no twin, a backup that was allowed at that life's end,
/// or nothing where that was, whether a crash ended that life or not.
#[tactic(auto, using(crate::specs::Next::next_finds_allowed))]
pub fn what_the_next_life_finds()
    ensures { NextFindsAllowed }
{}

/// Where no stage of a resource has failed, a crash and a restart bring back its completed backup and nothing else, or nothing
/// where there is none.
#[tactic(auto, using(crate::specs::Alone::done_is_alone))]
pub fn without_a_failed_stage_only_the_completed_backup_comes_back()
    ensures { DoneIsAlone }
{}

/// Behind a life that came to its quiet end, by a script's end or a restart, each request to save has its answer.
#[tactic(auto, using(crate::specs::Answered::all_tickets_are_answered))]
pub fn behind_a_quiet_end_each_ticket_has_its_answer()
    ensures { AllTicketsAreAnswered }
{}
