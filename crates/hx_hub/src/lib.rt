//! One registry that several threads share: a lock round it, a clerk beside it, and passes that know what they have seen.
//!
//! Each event of a pass is one event of the registry under the lock, so the answers of all passes are those of one history.
//! When the hub ends, that history has each pass's calls at their places, each once, and nothing else behind what was there
//! before.
#![tactic(auto)]

mod hub;
mod naming;
mod office;

pub use hub::{Acted, Founded, Hub, Staged};
pub use hx_passes::Kind;
pub use naming::{Named, Naming, Pass};
