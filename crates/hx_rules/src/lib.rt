//! The rules of a history: what a legal one is, what a working copy is after it, which backups a crash may bring back,
//! and which work is due. They are definitions, in specs/, and this crate has the plain data that code and rules share.
#![tactic(auto)]

mod flags;
mod saves;

pub use flags::Flags;
pub use saves::{Asked, QueuedSave, Running, SaveAnswer};
