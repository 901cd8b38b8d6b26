//! What an event came to.

use crate::{ResNo, Stage};
use hx_etag::Stat;

/// What an event came to. A `u64` is a version id of the copy; with `Fade` and `Drop` it is 0.
#[derive(Clone, Copy, Debug, PartialEq, Eq)]
pub enum Outcome {
    Opened(Stat),
    Created(u64),
    Edited(u64),
    Undone(u64),
    Redone(u64),

    /// A save of this version runs already, and the request shares its answer.
    Joined,

    /// There is nothing to save.
    Clean,

    /// Another version is being saved, and the request waits for its end.
    Queued,
    Started(u64),
    Reverted(Stat),
    Closed,
    Written,

    /// There is no file.
    Missing,

    /// Each pair of slot files is held or barred.
    NoPair,
    AlreadyOpen,
    NotOpen,

    /// The edit deletes past the content's end.
    OutOfContent,

    /// The content would be longer than [`CONTENT_MAX`](crate::CONTENT_MAX).
    TooLarge,
    NoUndo,
    NoRedo,

    /// A save of the copy runs.
    Saving,

    /// A device call of an open, a revert or an outside write failed.
    Fault,

    /// No stage of this kind is due.
    Idle,

    /// The vault's stamps are used up.
    Spent,
    StageOk(Stage, u64),
    StageFault(Stage, u64),

    /// The check before a write found this stat, and no conflict.
    Checked(Option<Stat>),

    /// The check before a write found a conflict with this stat, and nothing is written.
    Modified(Stat),
    CheckFault,

    /// The version was written, and the file then had this stat.
    Saved(u64, Option<Stat>),
    WriteFault(u64),

    /// The write of a guarded life is given up, because the version can't be backed up.
    Unguarded(u64),

    /// The program may end.
    Quit,

    /// The program may not end yet: this copy is dirty, and its last version isn't backed up.
    Vetoed(ResNo),
}
