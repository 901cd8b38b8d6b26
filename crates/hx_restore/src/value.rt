use hx_events::{Backup, Side};

/// What the two files of a pair are worth to a restart.
#[derive(Drop)]
pub enum PairValue {
    /// Neither side shows anything.
    Nothing,

    /// Something shows, and none of it reads as a backup.
    Broken,

    /// The backup that counts, and the side that holds it.
    Held(Backup, Side),
}
