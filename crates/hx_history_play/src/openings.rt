//! The opening of a history, and what it tells of a save that failed.

ghost use Rattle.std.specs.Prelude.{◌≡◌, ◌==◌, ◌≤◌, ◌&&◌, ◌++◌, [], ◌∷◌, bytes_eq, IfOk, IfErr, OnErr};
ghost use Rattle.hx_history_laws.specs.Kept.{last_number};
ghost use Rattle.hx_history_play.specs.Answered.{ends_with, fault_answer, save_at};
ghost use Rattle.hx_history_play.specs.Playing.{HasNotOpened, HasOpened};

use crate::account::{Account, Halt, Stopped};
use hx_disk::Disk;
use hx_history::{History, HistoryEntry, HistoryError};
use hx_history_script::Answer;
use std::alloc::Global;

/// The number of the last entry, 0 where there is none.
pub fn last_number(entries: &[HistoryEntry]) -> u64
    ensures { result ≡ last_number entries.now }
{
    match entries.last() {
        Some(entry) => entry.number,
        None => 0,
    }
}

/// Whether the entry is this save.
fn is_of(entry: &HistoryEntry, moment: u64, content: &[u8]) -> bool
    ensures { result ≡ ((entry.now.moment == moment) && bytes_eq entry.now.content content.now) }
{
    entry.moment == moment && entry.content.as_slice() == content
}

/// Whether the last entry is this save.
fn ends_with(entries: &[HistoryEntry], moment: u64, content: &[u8]) -> bool
    ensures { result ≡ ends_with entries.now (save_at moment content.now) }
{
    match entries.last() {
        Some(entry) => is_of(entry, moment, content),
        None => false,
    }
}

/// How a save is answered at which the disk failed, by the entries that are found then.
pub fn fault_answer(found: &[HistoryEntry], moment: u64, content: &[u8]) -> Answer
    ensures { result ≡ fault_answer found.now (save_at moment content.now) }
{
    if ends_with(found, moment, content) {
        Answer::FaultIn
    } else {
        Answer::FaultOut
    }
}

/// Opens the history, and marks the disk's count behind the opening.
pub fn open_next<D: Disk>(
    alloc: Global,
    account: &mut Account,
    disk: D,
) -> Result<History<D>, Stopped<D>>
    requires { 1 ≤ account.old.mark_room }
    ensures answers { account.new.answers ≡ account.old.answers }
    ensures answer_room { account.new.answer_room ≡ account.old.answer_room }
    ensures marks { IfOk result (λ h. account.new.marks ≡ account.old.marks ++ D.failures h.disk ∷ []) }
    ensures marks_err { OnErr result (account.new.marks ≡ account.old.marks) }
    ensures opens { IfOk result (λ h. HasOpened D.tells D.time D.past D.now D.failures disk h) }
    ensures shut { IfErr result (λ s. HasNotOpened D.tells D.time D.past D.now D.failures disk s.halt s.disk) }
{
    let (halt, disk) = match History::open(alloc, disk) {
        Ok(history) => {
            account.mark(history.faults());
            return Ok(history);
        }
        Err(HistoryError::OpenFault(disk)) => (Halt::OpenFault, disk),
        Err(HistoryError::NotHistory(disk)) => (Halt::NotHistory, disk),
        Err(HistoryError::NoMemory(disk)) => (Halt::NoMemory, disk),
    };
    Err(Stopped { halt, disk })
}
