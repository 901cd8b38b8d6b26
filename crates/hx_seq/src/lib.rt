//! The save sequencer of a working copy: one running save, one that waits, and the answers of all who asked. It is after VS
//! Code's `TaskSequentializer`: a further request replaces the waiting one and shares its answer, and the waiting save runs
//! when the running one ends, however it ends.
#![tactic(auto)]

mod sequencer;

pub use hx_rules::{Asked, QueuedSave, Running, SaveAnswer};
pub use sequencer::{Next, Sequencer};
