//! The core: the pure state machine that decides every answer of a life, with the life's history. It keeps beside the history
//! what the rules ask of it, so that no event has to look back: what is kept of each resource, the list of completed
//! backups, and for which resources a stage is due. Its type keeps that the history is legal and that all of this agrees
//! with it.
#![tactic(auto)]

mod machine;
mod opening;
mod readers;
mod step;

pub use crate::machine::Core;
pub use hx_resource::{Asked, BegunBackup, Got, Work};
