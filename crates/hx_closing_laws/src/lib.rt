//! The end of a life: how many stages the Closer may still have to do, and why they come to an end in the order that the rules
//! ask. Here are definitions and laws alone.
#![tactic(auto)]

mod laws;

pub use laws::each_stage_brings_the_end_nearer;
