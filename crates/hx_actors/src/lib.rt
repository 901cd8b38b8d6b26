//! Windows, writers and savers at work over one registry, each on a thread of its own where one can be made.
#![tactic(auto)]

mod crew;
mod gate;
mod pieces;
mod running;
mod tasks;

pub use gate::{Gate, OpenGate};
pub use running::{PARTS, run_all};
pub use tasks::windows_at_work;
