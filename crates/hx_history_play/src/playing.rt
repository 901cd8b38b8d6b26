//! All lines of a script.

ghost use Rattle.std.specs.Prelude.{◌≡◌, ◌≢◌, []};
ghost use Rattle.hx_history_play.specs.Playing.{Halts, IsPlayedOut, StopsEarly};

use crate::account::{Account, Halt, Stopped};
use crate::lines::take_line;
use crate::openings::open_next;
use hx_disk::Disk;
use hx_history_script::{HistoryLine, history_text};
use std::alloc::Global;

/// What playing a script of local history has made: its text where it was played to its end, and the disk.
pub struct Played<D> {
    pub halt: Halt,
    pub disk: D,

    /// What came of the lines, and then the entries; empty unless the script was played to its end.
    pub text: Vec<u8>,

    /// The disk's count of faults behind each opening and each save, in order. A save that was refused for want of memory has none.
    pub marks: Vec<u64>,
}

fn stopped<D>(alloc: Global, stop: Stopped<D>, account: Account) -> Played<D>
    ensures halt { result.halt ≡ stop.halt }
    ensures disk { result.disk ≡ stop.disk }
    ensures text { result.text.items ≡ [] }
    ensures marks { result.marks.items ≡ account.marks }
{
    let Stopped { halt, disk } = stop;
    Played {
        halt,
        disk,
        text: Vec::new(alloc),
        marks: account.into_marks(),
    }
}

/// Plays the lines on the disk. Its history is opened first, and again behind each crash and each save at which the disk failed.
pub fn play_history<D: Disk>(alloc: Global, lines: Vec<HistoryLine>, disk: D) -> Played<D>
    ensures done { result.halt ≡ Halt.Done → IsPlayedOut D.tells (D.failures disk) (D.now disk) (D.now result.disk) lines.items result.text.items result.marks.items }
    ensures early { result.halt ≢ Halt.Done → StopsEarly D.tells (D.failures disk) (D.now disk) (D.now result.disk) lines.items result.marks.items result.halt }
    ensures halts { Halts D.tells D.time D.past D.now D.failures disk result.marks.items result.halt result.disk }
{
    let mut account = Account::new(alloc);
    let Ok(()) = account.reserve() else {
        let stop = Stopped {
            halt: Halt::NoMemory,
            disk,
        };
        return stopped(alloc, stop, account);
    };
    let mut history = match open_next(alloc, &mut account, disk) {
        Ok(history) => history,
        Err(stop) => return stopped(alloc, stop, account),
    };
    for line in lines {
        history = match take_line(alloc, &mut account, history, line) {
            Ok(next) => next,
            Err(stop) => return stopped(alloc, stop, account),
        };
    }
    match history_text(alloc, account.answers(), history.entries()) {
        Ok(text) => Played {
            halt: Halt::Done,
            disk: history.finish(),
            text,
            marks: account.into_marks(),
        },
        Err(_) => {
            let stop = Stopped {
                halt: Halt::NoMemory,
                disk: history.finish(),
            };
            stopped(alloc, stop, account)
        }
    }
}
