//! One resource of a life: its working copy, its saves and how its backups stand. An event of the resource is decided by
//! what is kept of it, with the device's answer, and then makes its change. All of it is told as plain data; that this
//! agrees with the history is the next crate's matter.
#![tactic(auto)]

mod asks;
mod change;
mod copies;
mod decide;
mod due;
mod marks;
mod resource;
mod room;
mod saves;

pub use asks::{Asked, Got, Work};
pub use change::Stepped;
pub use due::{DueSave, DueStage};
pub use resource::{BegunBackup, Resource};
