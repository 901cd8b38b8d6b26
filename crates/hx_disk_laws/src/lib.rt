//! Laws of the disk model, each the contract of a small function, and clients of a few calls that show its use.
#![tactic(auto)]

mod client;
mod laws;

pub use client::{ShutError, crash, shut, shut_both};
pub use laws::{image_laws, left_laws, run_laws};
