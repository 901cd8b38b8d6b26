ghost use Rattle.hx_rules_laws.specs.NotOlder.{SavedIsNotOlder};
ghost use Rattle.hx_rules_laws.specs.Saves.{QueueIsTheLastQueued, RunIsTheLastStart, RunningIsAnsweredByTheNextFinish, QueuedIsAnsweredByTheSecondFinish, QueuedIsCleanWithoutAStart, AnswersStay, QueueRunsBelowTheLast};
ghost use Rattle.hx_rules_laws.specs.Copies.{SavesChange};

/// What waits is the last queued request since the last finish, and what runs is the last start that no finish follows.
#[tactic(auto, using(crate::specs::SaveLaws::queue_is_the_last_queued, crate::specs::SaveLaws::run_is_the_last_start))]
pub fn what_runs_and_what_waits()
    ensures queue { QueueIsTheLastQueued }
    ensures run { RunIsTheLastStart }
{}

/// Which finish answers a request: the first one after it, or the second one where the request waited and a save was
/// started for it.
#[tactic(auto, using(crate::specs::SaveLaws::running_is_answered_by_the_next_finish, crate::specs::SaveLaws::queued_is_answered_by_the_second_finish, crate::specs::SaveLaws::queued_is_clean_without_a_start))]
pub fn which_finish_answers_a_request()
    ensures running { RunningIsAnsweredByTheNextFinish }
    ensures queued { QueuedIsAnsweredByTheSecondFinish }
    ensures clean { QueuedIsCleanWithoutAStart }
{}

/// Nothing takes an answer back.
pub fn an_answer_stays()
    ensures { AnswersStay }
{}

/// In a legal history a request waits only while a save of an earlier version than the last one runs.
#[tactic(auto, using(crate::specs::SaveLaws::queue_runs_below_the_last))]
pub fn a_queue_waits_for_an_earlier_version()
    ensures { QueueRunsBelowTheLast }
{}

/// What each outcome does to the save that runs and to the one that waits.
#[tactic(auto, using(crate::specs::CopyLaws::saves_change))]
pub fn what_each_outcome_does_to_the_saves()
    ensures { SavesChange }
{}

/// In a legal history the version that an answer says was saved is at least the last version when the request was made.
pub fn a_saved_version_is_not_older_than_asked()
    ensures { SavedIsNotOlder }
{}
