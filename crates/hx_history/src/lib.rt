//! The local history of one file, in a vault of slot files on a disk of its own.
//!
//! Each save is kept as an entry, saves that follow each other closely as one, and of the entries the last 50. Whatever a crash
//! inside a call leaves has the entries before the call or those behind it.
//!
//! It is after VS Code's local history. The rules and the storage are this project's own.
#![tactic(auto)]

mod backing;
mod frames;
mod halts;
mod history;
mod opening;
mod parts;
mod stages;

pub use history::{Added, History, Refusal};
pub use hx_history_laws::HistoryEntry;
pub use opening::HistoryError;
