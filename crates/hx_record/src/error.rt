use thiserror::Error;

/// Why bytes don't read as a backup.
#[derive(Clone, Copy, Debug, PartialEq, Eq, Error)]
pub enum RecordError {
    /// None of the first 10,000 bytes is a line feed.
    #[error("no line feed ends the preamble")]
    NoLineFeed,

    /// The first line has no blank, or what stands before its first one isn't 1 to 1,000 bytes 0x21 to 0x7E.
    #[error("the preamble names no resource")]
    BadResource,

    /// What follows in the first line doesn't read as a JSON object.
    #[error("the preamble has no meta object")]
    NotMeta,

    /// The slot form is the second, and the type id isn't empty.
    #[error("the backup is of another type")]
    OtherType,

    /// The content is longer than the slot form allows.
    #[error("the content is too long")]
    TooLong,

    #[error("out of memory")]
    NoMemory,
}
