//! Counts of faults: every object that stands for the outside (a source, a sink, a disk) counts the calls that
//! failed, so that a contract can say that a failure is answered only where one has come.
#![tactic(auto)]

mod count;

pub use count::raised;
