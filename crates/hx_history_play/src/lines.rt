//! The lines of a script, one by one.

ghost use Rattle.std.specs.Prelude.{◌≡◌, ◌≤◌, ◌<◌, ◌++◌, ◌^◌, [], ◌∷◌, IfOk, IfErr, List};
ghost use Rattle.hx_history_laws.specs.States.{HistoryState};
ghost use Rattle.hx_history_play.specs.Answered.{save_at};
ghost use Rattle.hx_history_play.specs.Playing.{HasFaulted, IsOpen, StopsAt};
ghost use Rattle.hx_history_script.specs.declared.script.HistoryLine.{HistoryLine};
ghost use Rattle.hx_history_script.specs.declared.script.HistoryLine.TheVariants.{Saved, Crash};

use crate::account::{Account, Halt, Stopped};
use crate::openings::{fault_answer, last_number, open_next};
use hx_disk::Disk;
use hx_history::{Added, History, Refusal};
use hx_history_script::{Answer, HistoryLine};
use std::alloc::Global;

/// Notes the answer of a save behind which the history is still open.
fn note<D: Disk>(account: &mut Account, history: History<D>, answer: Answer) -> History<D>
    requires answer_room { 1 ≤ account.old.answer_room }
    requires mark_room { 1 ≤ account.old.mark_room }
    ensures history { result ≡ history }
    ensures answers { account.new.answers ≡ account.old.answers ++ answer ∷ [] }
    ensures marks { account.new.marks ≡ account.old.marks ++ D.failures history.disk ∷ [] }
    ensures bounded { D.failures history.disk < 2 ^ 64 }
{
    account.mark(history.faults());
    account.answer(answer);
    history
}

/// Opens the history again behind a save at which the disk failed.
fn reopen<D: Disk>(
    alloc: Global,
    account: &mut Account,
    disk: D,
    moment: u64,
    content: &[u8],
) -> Result<History<D>, Stopped<D>>
    requires answer_room { 1 ≤ account.old.answer_room }
    requires mark_room { 2 ≤ account.old.mark_room }
    ensures open { (first : D) (lines : List HistoryLine) (h : HistoryState D) → HasFaulted D.tells D.time D.past D.now D.failures first lines account.old.answers account.old.marks h (save_at moment content.now) disk → IfOk result (λ i. IsOpen D.tells D.time D.past D.now D.failures first (Saved moment content.now ∷ lines) account.new.answers account.new.marks i) }
    ensures stops { (first : D) (lines : List HistoryLine) (h : HistoryState D) → HasFaulted D.tells D.time D.past D.now D.failures first lines account.old.answers account.old.marks h (save_at moment content.now) disk → IfErr result (λ s. StopsAt D.tells D.time D.past D.now D.failures first lines (Saved moment content.now) account.new.marks s.halt s.disk) }
{
    account.mark(disk.faults());
    match open_next(alloc, account, disk) {
        Ok(history) => {
            account.answer(fault_answer(history.entries(), moment, content));
            Ok(history)
        }
        Err(stop) => Err(stop),
    }
}

fn take_save<D: Disk>(
    alloc: Global,
    account: &mut Account,
    history: History<D>,
    moment: u64,
    content: &[u8],
) -> Result<History<D>, Stopped<D>>
    requires answer_room { 1 ≤ account.old.answer_room }
    requires mark_room { 2 ≤ account.old.mark_room }
    ensures open { (first : D) (lines : List HistoryLine) → IsOpen D.tells D.time D.past D.now D.failures first lines account.old.answers account.old.marks history → IfOk result (λ h. IsOpen D.tells D.time D.past D.now D.failures first (Saved moment content.now ∷ lines) account.new.answers account.new.marks h) }
    ensures stops { (first : D) (lines : List HistoryLine) → IsOpen D.tells D.time D.past D.now D.failures first lines account.old.answers account.old.marks history → IfErr result (λ s. StopsAt D.tells D.time D.past D.now D.failures first lines (Saved moment content.now) account.new.marks s.halt s.disk) }
{
    match history.add(moment, content) {
        Added::Kept(history) => {
            let number = last_number(history.entries());
            Ok(note(account, history, Answer::Kept(number)))
        }
        Added::Merged(history) => {
            let number = last_number(history.entries());
            Ok(note(account, history, Answer::Merged(number)))
        }
        Added::Refused(history, Refusal::TooLarge) => Ok(note(account, history, Answer::TooLarge)),
        Added::Refused(history, Refusal::Spent) => Ok(note(account, history, Answer::Spent)),
        Added::Refused(history, Refusal::NoMemory) => Err(Stopped {
            halt: Halt::NoMemory,
            disk: history.finish(),
        }),
        Added::Faulted(disk) => reopen(alloc, account, disk, moment, content),
    }
}

fn take_crash<D: Disk>(
    alloc: Global,
    account: &mut Account,
    history: History<D>,
    pick: u64,
) -> Result<History<D>, Stopped<D>>
    requires answer_room { 1 ≤ account.old.answer_room }
    requires mark_room { 1 ≤ account.old.mark_room }
    ensures open { (first : D) (lines : List HistoryLine) → IsOpen D.tells D.time D.past D.now D.failures first lines account.old.answers account.old.marks history → IfOk result (λ h. IsOpen D.tells D.time D.past D.now D.failures first (Crash pick ∷ lines) account.new.answers account.new.marks h) }
    ensures stops { (first : D) (lines : List HistoryLine) → IsOpen D.tells D.time D.past D.now D.failures first lines account.old.answers account.old.marks history → IfErr result (λ s. StopsAt D.tells D.time D.past D.now D.failures first lines (Crash pick) account.new.marks s.halt s.disk) }
{
    let mut disk = history.finish();
    let Ok(()) = disk.crash(pick) else {
        return Err(Stopped {
            halt: Halt::NoMemory,
            disk,
        });
    };
    match open_next(alloc, account, disk) {
        Ok(history) => {
            account.answer(Answer::Crashed);
            Ok(history)
        }
        Err(stop) => Err(stop),
    }
}

/// One line more. Room for what is noted of it is made first, so that nothing is lost of a save that was made.
pub fn take_line<D: Disk>(
    alloc: Global,
    account: &mut Account,
    history: History<D>,
    line: HistoryLine,
) -> Result<History<D>, Stopped<D>>
    ensures open { (first : D) (lines : List HistoryLine) → IsOpen D.tells D.time D.past D.now D.failures first lines account.old.answers account.old.marks history → IfOk result (λ h. IsOpen D.tells D.time D.past D.now D.failures first (line ∷ lines) account.new.answers account.new.marks h) }
    ensures stops { (first : D) (lines : List HistoryLine) → IsOpen D.tells D.time D.past D.now D.failures first lines account.old.answers account.old.marks history → IfErr result (λ s. StopsAt D.tells D.time D.past D.now D.failures first lines line account.new.marks s.halt s.disk) }
{
    let Ok(()) = account.reserve() else {
        return Err(Stopped {
            halt: Halt::NoMemory,
            disk: history.finish(),
        });
    };
    match line {
        HistoryLine::Saved { moment, content } => {
            take_save(alloc, account, history, moment, content.as_slice())
        }
        HistoryLine::Crash(pick) => take_crash(alloc, account, history, pick),
    }
}
