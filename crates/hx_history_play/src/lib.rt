//! A script of local history, played line by line on a disk: saves, crashes, and the openings behind them.
//!
//! It is this project's own.
#![tactic(auto)]

mod account;
mod lines;
mod openings;
mod playing;

pub use account::Halt;
pub use playing::{Played, play_history};
