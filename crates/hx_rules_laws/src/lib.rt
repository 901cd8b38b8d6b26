//! Laws of the rules of a history. Each is the contract of a function that has nothing to run.
#![tactic(auto)]

mod backups;
mod copies;
mod entries;
mod marks;
mod quiet;
mod saves;

pub use backups::{
    an_open_opens_what_its_prepare_took, what_the_due_stage_says_of_the_backup, who_holds_a_pair,
};
pub use copies::{
    a_copy_keeps_the_last_stat_of_the_greatest_time, how_versions_and_trail_grow,
    no_content_is_past_the_limit, sizes_are_the_lengths_of_contents,
    what_each_outcome_does_to_a_copy,
};
pub use entries::a_history_grows_by_one_entry;
pub use marks::{
    flags_give_the_due_stage, how_the_marks_go_together,
    how_the_marks_go_together_after_a_legal_history, what_each_outcome_does_to_the_marks,
    what_was_allowed_stays_so_while_a_stage_is_in_hand,
};
pub use quiet::what_holds_where_nothing_is_due;
pub use saves::{
    a_queue_waits_for_an_earlier_version, a_saved_version_is_not_older_than_asked, an_answer_stays,
    what_each_outcome_does_to_the_saves, what_runs_and_what_waits, which_finish_answers_a_request,
};
