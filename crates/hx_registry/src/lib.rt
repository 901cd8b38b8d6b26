//! The registry: each event of a life over a disk. It asks the core who answers an event, lets the disk and the vault do what
//! is asked, and tells the core the answer. Its type keeps that the life's history is legal, that its entries tell what
//! the disk holds and where its faults came from, and that whatever a crash leaves at any moment is allowed.
#![tactic(auto)]

mod begin;
mod blocks;
mod closing;
mod events;
mod files;
mod life;
mod parts;
mod registry;
mod stages;

pub use begin::BeginError;
pub use registry::Registry;
