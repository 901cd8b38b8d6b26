//! The script of a local history as bytes, read exactly, and the text of what came of it.
//!
//! The format is this project's own.
#![tactic(auto)]

mod answer;
mod reader;
mod script;
mod text;

pub use answer::Answer;
pub use reader::read_history_script;
pub use script::HistoryLine;
pub use text::history_text;
