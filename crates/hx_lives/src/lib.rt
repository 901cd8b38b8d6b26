//! What holds of a life over the past of a disk: that its history is legal, where its faults come from, what its entries tell
//! of the files, and that whatever a crash leaves at any moment of it is allowed; and how one life goes over into the next.
#![tactic(auto)]

mod laws;

pub use laws::{
    an_entry_makes_a_life_longer, what_a_crash_leaves_of_a_life, what_ends_a_life,
    what_holds_of_ended_lives,
};
