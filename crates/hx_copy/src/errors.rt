use thiserror::Error;

/// Why an edit isn't made.
#[derive(Clone, Copy, Debug, Drop, PartialEq, Eq, Error)]
pub enum EditError {
    #[error("the edit deletes past the end of the content")]
    OutOfContent,

    #[error("the edit makes the content too large")]
    TooLarge,

    #[error("out of memory")]
    NoMemory,
}
