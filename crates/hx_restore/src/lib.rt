//! What a restart finds in the pairs of slot files.
//!
//! Of the two sides of a pair the one with the larger stamp counts, among those that hold a backup; and of the pairs that
//! hold a backup of one resource the first one counts. VS Code has one file for a backup; the pairs, their sides and the
//! stamps are this project's own.
#![tactic(auto)]

mod laws;
mod restoring;
mod value;

pub use laws::what_a_restart_finds_of_a_resource;
pub use restoring::{pair_with, restored};
pub use value::PairValue;
