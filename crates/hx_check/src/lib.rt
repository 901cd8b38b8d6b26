//! The judge of traces. It reads a trace as the rules read a history: each life stands for itself, what a device answered is taken
//! as given, and everything else has to be what the rules say. It never makes contents: of a version it keeps the size alone.
#![tactic(auto)]

mod judge;
mod laws;
mod lives;
mod rows;
mod sizes;
mod sketch;
mod verdict;

pub use laws::a_trace_that_was_read_may_be_judged;
pub use lives::check;
pub use verdict::Verdict;
