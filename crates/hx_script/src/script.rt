//! Scripts: what a run declares, plants and does.

use hx_disk::FileNo;
use hx_events::{Actor, Bytes, Event, Items, Names};

/// For which command a script is read. Each allows other lines.
#[derive(Clone, Copy, Debug, PartialEq, Eq)]
pub enum Form {
    /// All lines.
    Replay,

    /// Declarations, plants and the commands of windows.
    Run,

    /// Declarations and plants.
    Restore,
}

/// Bytes that are written to a slot file before the first opening.
#[derive(Drop)]
pub struct Plant {
    /// A file from 0 to 127.
    pub file: FileNo,

    pub bytes: Bytes,
}

/// One step of a run.
#[derive(Drop)]
pub enum Step {
    /// This actor's event.
    Do(Actor, Event),

    /// The life ends by a crash with this pick, and the next one begins.
    Crash(u64),

    /// The life ends as a program ends, and the next one begins.
    Restart,
}

/// A script.
#[derive(Drop)]
pub struct Script {
    /// The declared resources. The k-th of them, counted from 0, is the user file 128 + k.
    pub names: Names,

    /// What is planted, in the order of the lines. A later one of the same file writes again.
    pub slots: Items<Plant>,

    pub steps: Items<Step>,
}
