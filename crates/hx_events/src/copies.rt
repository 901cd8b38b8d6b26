//! How working copies stand, as others ask it.

use crate::ResNo;

/// What a working copy is in: the first of these that holds.
#[derive(Clone, Copy, Debug, PartialEq, Eq)]
pub enum CopyState {
    /// It isn't registered.
    NotOpen,

    /// A save of it runs.
    Saving,

    /// It isn't in its clean state.
    Dirty,
    Clean,
}

/// What an exit asks of a registered copy.
#[derive(Clone, Copy, Debug, PartialEq, Eq)]
pub struct CopyFact {
    pub res: ResNo,
    pub dirty: bool,

    /// Whether its last version is backed up.
    pub backed: bool,
}
