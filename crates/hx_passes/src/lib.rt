//! What passes over one shared history know: two words of a table, and a rule over the views of all who step on them.
//!
//! A history that lies under a lock is shared by several callers, each with a pass. The first word is the history's length and
//! the second counts the passes that have left. The rule says which views may stand beside these two words, and each kind of
//! step is proved to keep it. Whoever holds the lock has the clerk, which alone may add to the history.
#![tactic(auto)]

mod laws;
mod passes;
mod rule;
mod words;

pub use laws::a_history_reads_from_either_end;
pub use passes::{Clerk, Opened, Pass, Passes};
pub use rule::{Call, Finding, Kind, Known, Note};
pub use words::Naming;
