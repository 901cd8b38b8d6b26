//! A disk over the files of a folder. It tells nothing of what they hold: no contract can say what a real file gives.
#![tactic(auto)]

mod filedisk;
mod folder;
mod stats;

pub use filedisk::{FileDisk, Stores};
pub use folder::Folders;
