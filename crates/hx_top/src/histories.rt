//! The run of a local history.

ghost use Rattle.std.specs.Prelude.{◌≡◌, ◌≤◌, [], IsTrue};
ghost use Rattle.hx_faults.specs.Faults.{Rose};
ghost use Rattle.hx_io.specs.Streams.{AddsFront, Grows, added};
ghost use Rattle.hx_lives.specs.Calls.{HandsBack, HasGoneOn};
ghost use Rattle.hx_top.specs.Histories.{HasPlayedLines, halt_of};
ghost use Rattle.hx_top.specs.Whole.{IsOfHistory, IsSilent};

use crate::printing::write_text;
use crate::whole::{End, Finished};
use hx_disk::Disk;
use hx_events::Items;
use hx_history_play::{Halt, Played, play_history};
use hx_history_script::HistoryLine;
use hx_io::Sink;
use std::alloc::Global;

/// Writes the text of a script that was played to its end. The end tells how far it was played.
fn write_played<K: Sink>(sink: &mut K, halt: Halt, text: &[u8]) -> End
    ensures ends { IsOfHistory result }
    ensures halt { halt_of result ≡ halt }
    ensures done { result ≡ End.Done → added (K.taken sink.old) (K.taken sink.new) ≡ text.now }
    ensures front { result ≡ End.WriteFault → AddsFront text.now (K.taken sink.old) (K.taken sink.new) }
    ensures silent { IsSilent result → sink.new ≡ sink.old }
    ensures grows { Grows (K.taken sink.old) (K.taken sink.new) }
    ensures fault { result ≡ End.WriteFault → Rose (K.failures sink.old) (K.failures sink.new) }
    ensures no_fault { result ≡ End.Done → K.failures sink.new ≡ K.failures sink.old }
    ensures later { K.failures sink.old ≤ K.failures sink.new }
{
    match halt {
        Halt::Done => write_text(sink, text),
        Halt::OpenFault => End::OpenFault,
        Halt::NotHistory => End::NotHistory,
        Halt::NoMemory => End::NoMemory,
    }
}

/// Plays the lines of a local history, and writes what came of them.
pub fn keep<K: Sink, D: Disk>(
    alloc: Global,
    lines: Items<HistoryLine>,
    sink: &mut K,
    disk: D,
) -> Finished<D>
    ensures ends { IsOfHistory result.end }
    ensures played { HasPlayedLines D.tells (D.failures disk) (D.failures result.disk) (D.now disk) (D.now result.disk) lines (K.taken sink.old) (K.taken sink.new) result.end result.marks.items }
    ensures lives { result.lives.items ≡ [] }
    ensures foreign { result.end ≡ End.NotHistory → result.marks.items ≡ [] → HandsBack D.tells D.time D.past D.failures disk result.disk }
    ensures runs { IsTrue D.tells → HasGoneOn D.time D.past D.failures disk result.disk }
    ensures silent { IsSilent result.end → sink.new ≡ sink.old }
    ensures grows { Grows (K.taken sink.old) (K.taken sink.new) }
    ensures write_fault { result.end ≡ End.WriteFault → Rose (K.failures sink.old) (K.failures sink.new) }
    ensures open_fault { result.end ≡ End.OpenFault → Rose (D.failures disk) (D.failures result.disk) }
    ensures no_fault { result.end ≡ End.Done → K.failures sink.new ≡ K.failures sink.old }
    ensures later { K.failures sink.old ≤ K.failures sink.new }
{
    let Played {
        halt,
        disk,
        text,
        marks,
    } = play_history(alloc, lines.into_vec(), disk);
    let end = write_played(sink, halt, &text);
    Finished {
        end,
        disk,
        lives: Vec::new(alloc),
        marks,
    }
}
