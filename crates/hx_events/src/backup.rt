//! Backups, and what a pair of slot files was found to hold.

use crate::{Bytes, PairNo};
use hx_etag::Stat;

/// The most bytes that a content may have.
pub const CONTENT_MAX: u64 = 524_288;

/// One of the two slot files of a pair.
#[derive(Clone, Copy, Debug, PartialEq, Eq)]
pub enum Side {
    A,
    B,
}

/// The two layouts of a slot file. Both are read, and the second is written.
#[derive(Clone, Copy, Debug, PartialEq, Eq)]
pub enum SlotForm {
    One,
    Two,
}

/// What is kept of a working copy that isn't saved.
#[derive(Drop)]
pub struct Backup {
    pub resource: Bytes,

    /// The stat of the file that the content was made from, where there was a file.
    pub base: Option<Stat>,

    pub content: Bytes,
}

/// What a pair of slot files holds when a vault is opened.
#[derive(Drop)]
pub enum PairFound {
    /// Neither side shows anything.
    Empty,

    /// The backup, and the side that holds it.
    Found(Backup, Side),

    /// Something shows, and none of it reads as a backup.
    Damaged,

    /// A backup of the resource that this earlier pair has a backup of.
    Twin(PairNo),
}
