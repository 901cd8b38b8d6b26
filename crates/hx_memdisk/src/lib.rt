//! A disk in memory, which fails as it is told to, and crashes as the model says. Its calls are recorded where only clauses
//! see them.
#![tactic(auto)]

mod call;
mod carried;
mod course;
mod files;
mod kept;
mod memdisk;
mod overlay;

pub use course::Plan;
pub use memdisk::MemDisk;
