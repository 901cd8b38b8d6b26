//! Slot files: a gate byte before a frame, and the calls that close the gate, put a frame behind it and open it.
//!
//! Each resource's backup has a pair of such files, so that one of them stands while the other is written. VS Code
//! writes one file per backup; the gates, the stamps and the syncs are this project's own.
#![tactic(auto)]

mod calls;
mod frames;
mod laws;
mod pair;
mod slot;

pub use calls::{close_gate, open_gate, put_block};
pub use frames::{frame, put_frame_head, shown};
pub use laws::{
    an_empty_file_frames_nothing, what_a_slot_file_shows_stands_within_its_first_bytes,
};
pub use pair::{RawPair, slot_file};
pub use slot::Shown;
