//! What comes of an exit at the end of a life: where it closes, about which copy it asks, and that whatever it leaves dirty is
//! restored at the next start. Here are laws alone.
#![tactic(auto)]

mod laws;

pub use laws::{what_comes_back_after_a_close, what_comes_of_a_lifes_exit};
