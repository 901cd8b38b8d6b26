//! The whole run of windows at once.

ghost use Rattle.std.specs.Prelude.{◌≡◌, ◌≢◌, ◌≤◌, ◌⊎◌, ◌↔◌, [], IsTrue, Some, None, ℕ, length, reverse};
ghost use Rattle.hx_faults.specs.Faults.{Rose};
ghost use Rattle.hx_guarded_laws.specs.Lives.{HaveKept};
ghost use Rattle.hx_io.specs.Streams.{AddsFront, Grows, added};
ghost use Rattle.hx_lives.specs.Calls.{HasGoneOn};
ghost use Rattle.hx_lives.specs.Chained.{faults_of};
ghost use Rattle.hx_play.specs.Played.{ArePlayed};
ghost use Rattle.hx_report.specs.Traces.{trace_text};
ghost use Rattle.hx_script.specs.Scripts.{IsWellMade};
ghost use Rattle.hx_script.specs.declared.why.Why.{Why};
ghost use Rattle.hx_top.specs.Runs.{HasBeenRun, RunTo, run_refusal};
ghost use Rattle.hx_top.specs.Whole.{IsBeforeDisk, IsDoneOrNoMemory, IsOfInput, IsOfPlay, IsSilent, IsUntouched};
ghost use Rattle.hx_top.specs.Words.{IsWorkers, run_in, texts_of};
ghost use Rattle.hx_top.specs.declared.words.RunOrder.{RunOrder};

use crate::reading::read_as;
use crate::whole::{End, Finished, print_played, stopped};
use crate::words::{RunOrder, Task, run_in};
use hx_actors::Gate;
use hx_disk::Disk;
use hx_io::{Sink, Source};
use hx_play::run_script;
use hx_script::{Form, Script};
use std::alloc::Global;
use std::sync::Wait;
use std::thread::Threads;

/// Runs the script's windows and prints their life.
fn run<R: Threads + Wait + Sync, K: Sink, D: Disk + Send, G: Gate + Sync>(
    rt: &R,
    alloc: Global,
    script: Script,
    order: RunOrder,
    sink: &mut K,
    disk: D,
    gate: &G,
) -> Finished<D>
    requires well_made { IsWellMade script }
    requires workers { IsWorkers order.workers }
    ensures ends { IsOfPlay result.end }
    ensures ran { RunTo result.end order.guarded script.names script.steps (reverse result.lives.items) }
    ensures played { ArePlayed D.picked D.tells (D.past result.disk) (reverse script.slots) (D.time disk) (D.failures disk) (D.time result.disk) (D.failures result.disk) (reverse result.lives.items) }
    ensures kept { IsTrue D.tells → HaveKept (D.past result.disk) (D.time result.disk) (reverse result.lives.items) }
    ensures runs { HasGoneOn D.time D.past D.failures disk result.disk }
    ensures marks { result.marks.items ≡ [] }
    ensures done { result.end ≡ End.Done → added (K.taken sink.old) (K.taken sink.new) ≡ trace_text result.lives.items }
    ensures front { result.end ≡ End.WriteFault → AddsFront (trace_text result.lives.items) (K.taken sink.old) (K.taken sink.new) }
    ensures silent { IsSilent result.end → sink.new ≡ sink.old }
    ensures grows { Grows (K.taken sink.old) (K.taken sink.new) }
    ensures write_fault { result.end ≡ End.WriteFault → Rose (K.failures sink.old) (K.failures sink.new) }
    ensures open_fault { result.end ≡ End.OpenFault → Rose (faults_of (D.failures disk) (reverse result.lives.items)) (D.failures result.disk) }
    ensures no_fault { result.end ≡ End.Done → K.failures sink.new ≡ K.failures sink.old }
    ensures later { K.failures sink.old ≤ K.failures sink.new }
{
    let played = run_script(rt, alloc, script, order.workers, order.guarded, disk, gate);
    print_played(
        alloc,
        Task::Replay {
            guarded: order.guarded,
        },
        sink,
        played,
    )
}

/// Runs windows, writers and savers at once, where the words ask for that, and prints their life. `top` serves all other words.
///
/// The whole source is read and judged before the first device call, and the text is written after the last one. It may wait for
/// its threads, so what is said of it holds if it returns. Which of the interleavings comes is left open.
pub fn top_run<R: Threads + Wait + Sync, S: Source, K: Sink, D: Disk + Send, G: Gate + Sync>(
    rt: &R,
    alloc: Global,
    words: &[String],
    source: &mut S,
    sink: &mut K,
    disk: D,
    gate: &G,
) -> Finished<D>
    // What was read, and when it is refused.
    ensures usage { (result.end ≡ End.Usage) ↔ (run_in (texts_of words.now) ≡ None) }
    ensures unasked { run_in (texts_of words.now) ≡ None → source.new ≡ source.old }
    ensures given { Grows (S.given source.old) (S.given source.new) }
    ensures bad_script { (line : ℕ) (why : Why) → result.end ≡ End.BadScript line why → run_refusal (added (S.given source.old) (S.given source.new)) ≡ Some (line, why) }
    ensures of_input { IsOfInput result.end → run_refusal (added (S.given source.old) (S.given source.new)) ≡ None }
    ensures short { result.end ≡ End.NoMemory → length (added (S.given source.old) (S.given source.new)) ≤ 4194304 }

    // What was written: all of the text, or a front of it, or nothing.
    ensures taken { Grows (K.taken sink.old) (K.taken sink.new) }
    ensures done { result.end ≡ End.Done → added (K.taken sink.old) (K.taken sink.new) ≡ trace_text result.lives.items }
    ensures front { result.end ≡ End.WriteFault → AddsFront (trace_text result.lives.items) (K.taken sink.old) (K.taken sink.new) }
    ensures silent { IsSilent result.end → sink.new ≡ sink.old }

    // Which life there is, what holds of it and of the disk before and behind it, and whatever a crash leaves: the disk that comes
    // back is the one that was given, gone on. A guarded life has kept, at each moment, the newest version of each copy that was saved or backed up.
    ensures played { (order : RunOrder) → run_in (texts_of words.now) ≡ Some order → IsOfInput result.end → HasBeenRun D.picked D.tells (D.past result.disk) order.guarded (added (S.given source.old) (S.given source.new)) result.end (D.time disk) (D.failures disk) (D.time result.disk) (D.failures result.disk) (reverse result.lives.items) }
    ensures memory { (order : RunOrder) → run_in (texts_of words.now) ≡ Some order → result.end ≡ End.NoMemory → IsUntouched disk result.disk result.lives.items ⊎ HasBeenRun D.picked D.tells (D.past result.disk) order.guarded (added (S.given source.old) (S.given source.new)) End.NoMemory (D.time disk) (D.failures disk) (D.time result.disk) (D.failures result.disk) (reverse result.lives.items) }
    ensures kept { IsTrue D.tells → HaveKept (D.past result.disk) (D.time result.disk) (reverse result.lives.items) }
    ensures runs { HasGoneOn D.time D.past D.failures disk result.disk }
    ensures unmarked { result.marks.items ≡ [] }
    ensures untouched { IsBeforeDisk result.end → IsUntouched disk result.disk result.lives.items }

    // Where the source tells what is left, it was read to its end, or what is left is refused as a whole.
    ensures read_to_end { IsTrue S.tells → IsOfInput result.end → (added (S.given source.old) (S.given source.new) ≡ S.left source.old) × (S.left source.new ≡ []) }
    ensures refused_whole { IsTrue S.tells → (line : ℕ) (why : Why) → result.end ≡ End.BadScript line why → run_refusal (S.left source.old) ≡ Some (line, why) }

    // Faults have their causes, and nothing else keeps a valid input from its end but memory.
    ensures read_fault { result.end ≡ End.ReadFault → Rose (S.failures source.old) (S.failures source.new) }
    ensures write_fault { result.end ≡ End.WriteFault → Rose (K.failures sink.old) (K.failures sink.new) }
    ensures open_fault { result.end ≡ End.OpenFault → Rose (faults_of (D.failures disk) (reverse result.lives.items)) (D.failures result.disk) }
    ensures no_fault { result.end ≡ End.Done → (S.failures source.new ≡ S.failures source.old) × (K.failures sink.new ≡ K.failures sink.old) }
    ensures complete { run_in (texts_of words.now) ≢ None → run_refusal (added (S.given source.old) (S.given source.new)) ≡ None → (Rose (S.failures source.old) (S.failures source.new) → ⊥) → (Rose (K.failures sink.old) (K.failures sink.new) → ⊥) → (Rose (faults_of (D.failures disk) (reverse result.lives.items)) (D.failures result.disk) → ⊥) → IsDoneOrNoMemory result.end }
    ensures complete_told { IsTrue S.tells → run_in (texts_of words.now) ≢ None → run_refusal (S.left source.old) ≡ None → (Rose (S.failures source.old) (S.failures source.new) → ⊥) → (Rose (K.failures sink.old) (K.failures sink.new) → ⊥) → (Rose (faults_of (D.failures disk) (reverse result.lives.items)) (D.failures result.disk) → ⊥) → IsDoneOrNoMemory result.end }
{
    match run_in(words) {
        None => stopped(alloc, End::Usage, disk),
        Some(order) => match read_as(alloc, source, Form::Run) {
            Ok(script) => run(rt, alloc, script, order, sink, disk, gate),
            Err(end) => stopped(alloc, end, disk),
        },
    }
}
