//! How an editor tells that a file changed on the disk: by its time and its size, which VS Code joins into an etag.
#![tactic(auto)]

mod conflict;
mod digits;
mod stat;

pub use conflict::{conflicts, newer};
pub use digits::etag;
pub use stat::Stat;
