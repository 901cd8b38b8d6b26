//! Which version of each working copy is backed up, after VS Code's backups model. The meta that VS Code keeps beside a
//! version is left out.
#![tactic(auto)]

mod backups;

pub use backups::Backups;
