//! The JSON object in a backup's first line: what an editor knew of the file when it made the backup. VS Code keeps
//! the same keys for a text file, among others.
#![tactic(auto)]

mod object;

pub use object::{Meta, MetaError, read, write};
