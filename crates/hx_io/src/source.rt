ghost use Rattle.std.specs.Prelude.{◌≡◌, ◌≤◌, ◌<◌, ◌+◌, ℕ, Bool, IsTrue, IsErrOf, [], List, ◌++◌, length, take, IfOk, OnErr};
ghost use Rattle.hx_faults.specs.Faults.{HasCause, Rose};
ghost use Rattle.hx_io.specs.Streams.{Grows, added};
ghost use Rattle.hx_io.specs.Ends.{HasNoFault};
ghost use Rattle.hx_io.specs.declared.source.ReadAllError.TheVariants.{ReadFault, NoMemory};

use std::alloc::{AllocError, Global};
use thiserror::Error;

/// A read that failed. The source has counted it.
#[derive(Clone, Copy, Debug, PartialEq, Eq)]
pub struct SourceFailed;

/// Where bytes come from.
pub trait Source {
    /// The bytes that its reads have given so far.
    ghost given: { Self → List ℕ };

    /// Whether it tells what is left. Where it doesn't, no clause speaks of that.
    ghost tells: { Bool };

    /// The bytes that reads will give from here on.
    ghost left: { Self → List ℕ };

    /// How many calls have failed.
    ghost failures: { Self → ℕ };

    /// Reads into the front of `into`, and gives how many bytes. 0 for a buffer with room is the end.
    ///
    /// A read that fails has given nothing; what the buffer then holds isn't said.
    fn read(&mut self, into: &mut [u8]) -> Result<usize, SourceFailed>
        ensures count { IfOk result (λ n. n ≤ length into.new) }
        ensures given { IfOk result (λ n. given self.new ≡ given self.old ++ take n into.new) }
        ensures none { OnErr result (given self.new ≡ given self.old) }
        ensures whole { IsTrue tells → given self.new ++ left self.new ≡ given self.old ++ left self.old }
        ensures end { IsTrue tells → IfOk result (λ n. n ≡ 0 → 0 < length into.new → left self.new ≡ []) }
        ensures cause { HasCause (failures self.old) (failures self.new) result };
}

/// Why a source wasn't read to its end.
#[derive(Debug, Drop, PartialEq, Eq, Error)]
pub enum ReadAllError {
    /// A read failed, and was counted by the source.
    #[error("a read failed")]
    ReadFault,

    /// More bytes came than were allowed.
    #[error("too many bytes")]
    TooLong,

    /// There was no memory for what came.
    #[error("out of memory")]
    NoMemory,
}

impl From<AllocError> for ReadAllError {
    ghost from_gives = { λ _ e. e ≡ NoMemory };

    fn from(_: AllocError) -> Self {
        ReadAllError::NoMemory
    }
}

impl From<SourceFailed> for ReadAllError {
    ghost from_gives = { λ _ e. e ≡ ReadFault };

    fn from(_: SourceFailed) -> Self {
        ReadAllError::ReadFault
    }
}

const PIECE: usize = 8192;

/// Reads a source to its end. The bytes that it answers are exactly those that were given.
///
/// Gives `TooLong` as soon as one byte more than `limit` has come, and then no more is taken; no memory is asked for that byte.
/// Where a read fails or memory runs out, what had come is lost. It ends with the first read that fails.
pub fn read_all<S: Source>(
    alloc: Global,
    source: &mut S,
    limit: usize,
) -> Result<Vec<u8>, ReadAllError>
    ensures given { IfOk result (λ bytes. S.given source.new ≡ S.given source.old ++ bytes.items) }
    ensures limit { IfOk result (λ bytes. length bytes.items ≤ limit) }
    ensures short { IsErrOf result ReadAllError.NoMemory → length (added (S.given source.old) (S.given source.new)) ≤ limit }
    ensures too_long { IsErrOf result ReadAllError.TooLong → length (added (S.given source.old) (S.given source.new)) ≡ limit + 1 }

    // At every end.
    ensures grows { Grows (S.given source.old) (S.given source.new) }
    ensures at_most { length (added (S.given source.old) (S.given source.new)) ≤ limit + 1 }

    // Where the source tells what is left.
    ensures whole { IsTrue S.tells → S.given source.new ++ S.left source.new ≡ S.given source.old ++ S.left source.old }
    ensures all { IsTrue S.tells → IfOk result (λ bytes. (bytes.items ≡ S.left source.old) × (S.left source.new ≡ [])) }
    ensures more_left { IsTrue S.tells → IsErrOf result ReadAllError.TooLong → limit < length (S.left source.old) }

    // The count of faults rises where a read failed, and stands still at every other end.
    ensures fault { IsErrOf result ReadAllError.ReadFault → Rose (S.failures source.old) (S.failures source.new) }
    ensures kept { HasNoFault result → S.failures source.new ≡ S.failures source.old }
    ensures later { S.failures source.old ≤ S.failures source.new }
{
    let mut bytes = Vec::new(alloc);
    let mut piece = [0; PIECE];
    'turns: loop {
        let room = limit - bytes.len();
        let want = room.min(PIECE - 1) + 1;
        let count = source.read(&mut piece[..want])?;
        if count == 0 {
            return Ok(bytes);
        }
        if count > room {
            return Err(ReadAllError::TooLong);
        }
        bytes.extend_from_slice(&piece[..count])?;
    }
}
