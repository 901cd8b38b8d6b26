//! A script played over a disk: its slot files are planted, and its steps make one life after another, each from the opening
//! of a vault to its end. What each life promises holds of all of them, whatever stopped the script.
#![tactic(auto)]

mod endings;
mod lives;
mod openings;
mod planting;
mod playing;
mod runs;
mod scripts;
mod steps;
mod windows;

pub use lives::Lives;
pub use planting::{PlantError, plant};
pub use playing::{Halt, Played, play};
pub use runs::run_script;
pub use scripts::play_script;
