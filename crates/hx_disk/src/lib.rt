//! A disk of numbered files that can crash at any moment: what a read returns, and what a crash may leave.
#![tactic(auto)]

mod disk;
mod file_no;

pub use disk::{Disk, DiskFailed};
pub use file_no::FileNo;
