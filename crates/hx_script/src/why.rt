//! Why bytes are no script, and no trace.

ghost use Rattle.std.specs.Prelude.{◌≡◌};
ghost use Rattle.hx_script.specs.declared.why.ScriptError.TheVariants.{NoMemory};
ghost use Rattle.hx_script.specs.declared.why.LineError.TheVariants.{Bad as BadLine, NoMemory as NoRoom};

use std::alloc::{AllocError, AllocFailed};
use thiserror::Error;

/// Why a line is bad. Where several reasons apply to a line, the first of them in this order is given.
#[derive(Clone, Copy, Debug, PartialEq, Eq)]
pub enum Why {
    /// The source has more bytes than it may have.
    TooLong,

    /// The last line has no line feed.
    NoEnd,

    /// The first line isn't the header.
    Header,

    /// The line has the fields of no line of the format.
    Form,

    /// The line isn't allowed, or not at this place.
    Place,

    /// It is a line too many, or of its kind one too many.
    TooMany,

    /// A field isn't a number, or one that is out of its range.
    Number,

    /// A field isn't `=` and an escaped text.
    Escape,

    /// A field isn't a resource, or not one that was named before.
    Resource,

    /// The resource was named before.
    Declared,
}

/// Why bytes can't be read.
#[derive(Clone, Copy, Debug, PartialEq, Eq, Error)]
pub enum ScriptError {
    /// The first bad line, counted from 1, with its first reason. It is 0 where the source as a whole is too long.
    #[error("line {0} is bad: {1:?}")]
    Bad(u64, Why),

    #[error("out of memory")]
    NoMemory,
}

impl From<AllocError> for ScriptError {
    ghost from_gives = { λ _ e. e ≡ NoMemory };

    fn from(_: AllocError) -> Self {
        ScriptError::NoMemory
    }
}

impl<T: Drop> From<AllocFailed<T>> for ScriptError {
    ghost from_gives = { λ _ e. e ≡ NoMemory };

    fn from(_: AllocFailed<T>) -> Self {
        ScriptError::NoMemory
    }
}

/// Why a line can't be read.
#[derive(Clone, Copy, Debug, PartialEq, Eq)]
pub enum LineError {
    /// The first of its reasons.
    Bad(Why),

    NoMemory,
}

impl From<Why> for LineError {
    ghost from_gives = { λ why e. e ≡ BadLine why };

    fn from(why: Why) -> Self {
        LineError::Bad(why)
    }
}

impl From<AllocError> for LineError {
    ghost from_gives = { λ _ e. e ≡ NoRoom };

    fn from(_: AllocError) -> Self {
        LineError::NoMemory
    }
}

impl<T: Drop> From<AllocFailed<T>> for LineError {
    ghost from_gives = { λ _ e. e ≡ NoRoom };

    fn from(_: AllocFailed<T>) -> Self {
        LineError::NoMemory
    }
}

impl LineError {
    ghost use Rattle.hx_script.specs.Readings.{error_at};

    /// The same of the source as a whole, at the line with this number.
    pub fn at(self, line: u64) -> ScriptError
        ensures { result ≡ error_at line self }
    {
        match self {
            LineError::Bad(why) => ScriptError::Bad(line, why),
            LineError::NoMemory => ScriptError::NoMemory,
        }
    }
}
