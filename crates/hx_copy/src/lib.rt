//! A working copy: its content with the trail that undo and redo walk on, its version id, the id of its clean state and the
//! stat of its file. It is after VS Code's file working copies; the trail keeps the bytes that each edit replaced and put in.
#![tactic(auto)]

mod errors;
mod places;
mod trail;
mod working;

pub use errors::EditError;
pub use working::WorkingCopy;
