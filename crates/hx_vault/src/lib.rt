//! Pairs of slot files: one side of a pair keeps the last completed backup while the other is written.
//!
//! A new backup is written on the side that isn't home: its gate is closed, the frame is put behind it in blocks, and the
//! gate is opened, which makes that side the home. A discard closes the older side first, and then the home side. So at each
//! moment a crash leaves the last completed backup or the one in hand. VS Code keeps one file for a backup and writes
//! it over; pairs, gates and stamps are this project's own.
#![tactic(auto)]

mod laws;
mod pair;
mod scanning;
mod sides;
mod syncs;
mod vault;

pub use laws::{no_slot_shows_more_than_the_greatest_stamp, what_a_file_can_show};
pub use pair::{Pair, PairUse};
pub use scanning::{ScanError, scan};
pub use syncs::barrier;
pub use vault::Vault;
