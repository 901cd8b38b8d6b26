//! The setting `files.hotExit`: whether an exit keeps what is backed up, and about which copy the user is asked first. It is
//! VS Code's.
#![tactic(auto)]

mod exit;
mod laws;

pub use exit::{Decision, Ending, Setting, Situation, decide, triggers};
pub use laws::{an_exit_over_one_copy, what_an_exit_keeps};
