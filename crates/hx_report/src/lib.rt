//! What is told of lives: the trace, with each life's pairs, entries and tail, the summary of counts, and how the copies of a
//! life stand at its end.
#![tactic(auto)]

mod copy_facts;
mod counts;
mod events;
mod outline;
mod pair_lines;
mod put;
mod saves;
mod share;
mod tail_lines;
mod tally;
mod trace;
mod trail;

pub use copy_facts::facts;
pub use counts::summary;
pub use outline::{Outline, is_new_version};
pub use pair_lines::pairs;
pub use put::{put_decimal, put_number, put_text};
pub use saves::{Saves, ends_save};
pub use tail_lines::tail;
pub use tally::named;
pub use trace::out;
pub use trail::VersionTrail;
