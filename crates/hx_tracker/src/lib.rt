//! Which vault stage of a working copy is due, and a set of resources that remembers for which one is.
//!
//! VS Code's backup tracker schedules a backup when a modified copy changes, and a discard when a copy becomes unmodified
//! or is unregistered. The stages, and that they are due by rules and not by timers, are this project's own.
#![tactic(auto)]

mod index;
mod stages;

pub use hx_rules::Flags;
pub use index::DueIndex;
pub use stages::due;
