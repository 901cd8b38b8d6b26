//! Worked histories: the rules of `hx_rules` computed on them. Each function's contract says what its history shows; there
//! is nothing to run.
#![tactic(auto)]

mod conflicts;
mod discards;
mod guards;
mod refusals;
mod runs;
mod saving;
mod undos;

pub use conflicts::{a_changed_file_is_a_conflict, a_changed_file_of_the_same_size_is_none};
pub use discards::{
    a_discard_closes_the_newest_backup_last, a_failed_drop_leaves_both_possible,
    a_failed_open_is_taken_back_by_the_next_prepare,
    a_fault_leaves_the_last_completed_backup_or_the_begun_one, used_up_stamps_veto_the_end,
};
pub use guards::{
    a_guarded_write_is_refused_without_a_backup, a_guarded_write_waits_for_its_backup,
};
pub use refusals::{
    a_backup_has_as_many_blocks_as_its_content, a_copy_needs_a_pair,
    a_failed_write_is_found_by_the_next_check, a_life_begins_with_what_was_found,
    a_revert_keeps_the_newer_stat, an_edit_stays_within_its_limits,
    refusals_come_by_the_state_of_the_copy, the_lowest_unsafe_copy_vetoes,
};
pub use runs::{a_window_a_writer_and_a_saver_interleave, the_closer_finishes_the_work};
pub use saving::{
    a_request_joins_or_finds_nothing_to_save, an_edit_before_the_write_leaves_the_copy_dirty,
    waiting_requests_share_the_last_version,
};
pub use undos::{
    a_redo_while_a_save_runs, an_undo_to_the_created_state_discards,
    an_undo_to_the_saved_state_is_clean, an_undo_while_a_save_runs, undo_and_redo_walk_on_a_trail,
};
