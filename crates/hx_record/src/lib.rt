//! The bytes of a backup: a preamble of one line, which names the resource and holds its meta object, and the content
//! as it is. VS Code's backup files have the same layout.
#![tactic(auto)]

mod error;
mod reading;
mod writing;

pub use error::RecordError;
pub use reading::decode;
pub use writing::{encode, preamble};
