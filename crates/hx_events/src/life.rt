//! A life of the program: from the opening of a vault to its end.

use crate::{Actor, Bytes, Event, Items, Names, Outcome, PairFound};

/// One event of a life and what it came to.
#[derive(Drop)]
pub struct Entry {
    /// The disk's moment after the event.
    pub moment: u64,

    /// The disk's count of faults after the event.
    pub faults: u64,

    pub actor: Actor,

    pub event: Event,

    pub outcome: Outcome,

    /// What an open or a revert read, else nothing.
    pub content: Bytes,
}

/// How a life ended.
#[derive(Clone, Copy, Debug, PartialEq, Eq)]
pub enum Ended {
    /// At the end of its script.
    Script,
    Restart,

    /// By a crash, with the pick that chose what it left on the disk.
    Crash(u64),

    /// For want of memory.
    Cut,
}

/// A life of the program.
#[derive(Drop)]
pub struct Life {
    /// The declared resources, and behind them the restored ones that weren't declared.
    pub names: Names,

    /// What each pair of slot files was found to hold at the opening.
    pub base: Items<PairFound>,

    /// The disk's moment after the opening.
    pub moment: u64,

    /// The disk's count of faults after the opening.
    pub faults: u64,

    /// The entries, the oldest first.
    pub history: Items<Entry>,

    pub ended: Ended,

    /// Whether a save's write waits for a backup of its version.
    pub guarded: bool,
}
