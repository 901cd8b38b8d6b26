/// How the save that answers a ticket ended.
#[derive(Clone, Copy, Debug, PartialEq, Eq)]
pub enum SaveAnswer {
    /// This version was written.
    Saved(u64),

    /// There was nothing to save.
    Clean,

    /// The file was changed by another program, and nothing was written.
    ModifiedSince,

    /// The check or the write failed.
    DiskFault,

    /// The version couldn't be backed up, so it wasn't written.
    Unguarded,
}

/// What a request to save comes to.
#[derive(Clone, Copy, Debug, PartialEq, Eq)]
pub enum Asked {
    /// A save of the last version runs, and the request shares its answer.
    Joined,

    /// There is nothing to save.
    Clean,

    /// A save of an earlier version runs, and the request waits for its end.
    Queued,

    /// A save of the last version begins.
    Started,
}

/// A save that runs.
#[derive(Clone, Copy, Debug, PartialEq, Eq)]
pub struct Running {
    pub version: u64,

    /// Whether a conflict isn't looked for.
    pub over: bool,

    /// Whether its check has found no conflict, so that its write is next.
    pub checked: bool,
}

/// A save that waits for the end of the running one.
#[derive(Clone, Copy, Debug, PartialEq, Eq)]
pub struct QueuedSave {
    /// Whether it is made also where the copy is clean by then.
    pub force: bool,

    /// Whether a conflict isn't looked for.
    pub over: bool,
}
