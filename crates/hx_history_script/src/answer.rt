/// What came of a line of the script.
#[derive(Clone, Copy, Debug, PartialEq, Eq)]
pub enum Answer {
    /// The save is kept, as the entry with this number.
    Kept(u64),

    /// The save took the place of the last one of its group, in the entry with this number.
    Merged(u64),

    /// The content is longer than an entry may be.
    TooLarge,

    /// No stamp was left.
    Spent,

    /// The disk failed, and the history that was opened again has the save.
    FaultIn,

    /// The disk failed, and the history that was opened again doesn't have the save.
    FaultOut,

    /// The disk crashed, and the history was opened again.
    Crashed,
}
