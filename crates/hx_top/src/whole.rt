//! The whole run.

ghost use Rattle.std.specs.Prelude.{◌≡◌, ◌≢◌, ◌≤◌, ◌⊎◌, ◌↔◌, [], true, false, IsTrue, Some, None, ℕ, length, reverse};
ghost use Rattle.hx_faults.specs.Faults.{Rose};
ghost use Rattle.hx_guarded_laws.specs.Lives.{HaveKept};
ghost use Rattle.hx_io.specs.Streams.{AddsFront, Grows, added};
ghost use Rattle.hx_lives.specs.Calls.{HandsBack, HasGoneOn};
ghost use Rattle.hx_lives.specs.Chained.{faults_of};
ghost use Rattle.hx_play.specs.Played.{ArePlayed};
ghost use Rattle.hx_report.specs.Traces.{AreWhole};
ghost use Rattle.hx_script.specs.Scripts.{IsWellMade};
ghost use Rattle.hx_script.specs.Traces.{trace_in};
ghost use Rattle.hx_script.specs.declared.why.Why.{Why};
ghost use Rattle.hx_top.specs.Asking.{ClosesSafely};
ghost use Rattle.hx_top.specs.Whole.{EndsAs, FollowTo, HavePlayed, IsBeforeDisk, IsCompleted, IsOfCheck, IsOfInput, IsOfPlay, IsSilent, IsUntouched, is_guarded, judged_text, limit, printed, reads_source, refusal, text_of};
ghost use Rattle.hx_top.specs.Words.{order_in, texts_of};
ghost use Rattle.hx_top.specs.Histories.{HasPlayedHistory};
ghost use Rattle.hx_top.specs.declared.words.Order.TheVariants.{Check, History, Play};
ghost use Rattle.hx_top.specs.declared.exits.ExitOrder.{ExitOrder};
ghost use Rattle.hx_top.specs.declared.words.Task.{Task};
ghost use Rattle.hx_top.specs.declared.words.Task.TheVariants.{Exit};

use crate::histories::keep;
use crate::printing::{print, print_verdict};
use crate::reading::{history_from, script_for, trace_from};
use crate::words::{Order, Task, order_in};
use hx_check::check;
use hx_disk::Disk;
use hx_events::Life;
use hx_io::{Sink, Source};
use hx_play::{Halt, Played, play_script};
use hx_script::{Script, Why};
use std::alloc::{AllocError, Global};

/// How a run ended.
#[derive(Clone, Copy, Debug, PartialEq, Eq)]
pub enum End {
    /// All was read, played and written.
    Done,

    /// The words aren't a command line of the program.
    Usage,

    /// The script was refused at this line, counted from 1, or as a whole where it is 0.
    BadScript { line: u64, why: Why },

    /// The source failed.
    ReadFault,

    /// The sink failed.
    WriteFault,

    /// Memory ran out.
    NoMemory,

    /// The disk failed, while slot files were planted or the vault was opened.
    OpenFault,

    /// The vault holds something else than a local history.
    NotHistory,
}

/// How a run ended, its disk, and the lives that it led, the oldest first.
pub struct Finished<D> {
    pub end: End,
    pub disk: D,
    pub lives: Vec<Life>,

    /// Of a local history, which has no lives: the disk's count of faults behind each opening and each save, in order.
    pub marks: Vec<u64>,
}

/// An end before the first device call.
pub fn stopped<D>(alloc: Global, end: End, disk: D) -> Finished<D>
    ensures end { result.end ≡ end }
    ensures disk { result.disk ≡ disk }
    ensures lives { result.lives.items ≡ [] }
    ensures marks { result.marks.items ≡ [] }
{
    Finished {
        end,
        disk,
        lives: Vec::new(alloc),
        marks: Vec::new(alloc),
    }
}

/// Judges the source's trace, and prints the verdict.
fn judge<S: Source, K: Sink>(alloc: Global, source: &mut S, sink: &mut K) -> End
    ensures ends { IsOfCheck result }
    ensures refused { (line : ℕ) (why : Why) → result ≡ End.BadScript line why → refusal (Some Check) (added (S.given source.old) (S.given source.new)) ≡ Some (line, why) }
    ensures of_input { IsOfInput result → refusal (Some Check) (added (S.given source.old) (S.given source.new)) ≡ None }
    ensures short { result ≡ End.NoMemory → length (added (S.given source.old) (S.given source.new)) ≤ limit (Some Check) }
    ensures given { Grows (S.given source.old) (S.given source.new) }
    ensures told { IsTrue S.tells → IsOfInput result → (added (S.given source.old) (S.given source.new) ≡ S.left source.old) × (S.left source.new ≡ []) }
    ensures told_refused { IsTrue S.tells → (line : ℕ) (why : Why) → result ≡ End.BadScript line why → refusal (Some Check) (S.left source.old) ≡ Some (line, why) }
    ensures done { result ≡ End.Done → added (K.taken sink.old) (K.taken sink.new) ≡ judged_text (trace_in (added (S.given source.old) (S.given source.new))) }
    ensures front { result ≡ End.WriteFault → AddsFront (judged_text (trace_in (added (S.given source.old) (S.given source.new)))) (K.taken sink.old) (K.taken sink.new) }
    ensures silent { IsSilent result → sink.new ≡ sink.old }
    ensures taken { Grows (K.taken sink.old) (K.taken sink.new) }
    ensures read_fault { result ≡ End.ReadFault → Rose (S.failures source.old) (S.failures source.new) }
    ensures write_fault { result ≡ End.WriteFault → Rose (K.failures sink.old) (K.failures sink.new) }
    ensures no_fault { result ≡ End.Done → (S.failures source.new ≡ S.failures source.old) × (K.failures sink.new ≡ K.failures sink.old) }
{
    let trace = match trace_from(alloc, source) {
        Ok(trace) => trace,
        Err(end) => return end,
    };
    match check(alloc, &trace) {
        Ok(verdict) => print_verdict(alloc, sink, verdict),
        Err(AllocError) => End::NoMemory,
    }
}

/// Whether the task's lives are guarded.
fn is_guarded(task: Task) -> bool
    ensures { result ≡ is_guarded task }
{
    matches!(task, Task::Replay { guarded: true })
}

/// Plays the script and prints its lives.
fn play<K: Sink, D: Disk>(
    alloc: Global,
    task: Task,
    script: Script,
    sink: &mut K,
    disk: D,
) -> Finished<D>
    requires { IsWellMade script }
    ensures ends { IsOfPlay result.end }
    ensures follow { FollowTo result.end (is_guarded task) script.names script.steps (reverse result.lives.items) }
    ensures played { ArePlayed D.picked D.tells (D.past result.disk) (reverse script.slots) (D.time disk) (D.failures disk) (D.time result.disk) (D.failures result.disk) (reverse result.lives.items) }
    ensures kept { IsTrue D.tells → HaveKept (D.past result.disk) (D.time result.disk) (reverse result.lives.items) }
    ensures closes { (order : ExitOrder) → task ≡ Task.Exit order → IsTrue D.tells → result.end ≡ End.Done → ClosesSafely order (D.past result.disk) (D.time result.disk) (reverse result.lives.items) }
    ensures runs { HasGoneOn D.time D.past D.failures disk result.disk }
    ensures marks { result.marks.items ≡ [] }
    ensures done { result.end ≡ End.Done → added (K.taken sink.old) (K.taken sink.new) ≡ text_of task result.lives.items }
    ensures front { result.end ≡ End.WriteFault → AddsFront (text_of task result.lives.items) (K.taken sink.old) (K.taken sink.new) }
    ensures silent { IsSilent result.end → sink.new ≡ sink.old }
    ensures grows { Grows (K.taken sink.old) (K.taken sink.new) }
    ensures write_fault { result.end ≡ End.WriteFault → Rose (K.failures sink.old) (K.failures sink.new) }
    ensures open_fault { result.end ≡ End.OpenFault → Rose (faults_of (D.failures disk) (reverse result.lives.items)) (D.failures result.disk) }
    ensures no_fault { result.end ≡ End.Done → K.failures sink.new ≡ K.failures sink.old }
    ensures later { K.failures sink.old ≤ K.failures sink.new }
{
    let played = play_script(alloc, script, is_guarded(task), disk);
    print_played(alloc, task, sink, played)
}

/// Prints the lives of a script that was played to its end.
pub fn print_played<K: Sink, D: Disk>(
    alloc: Global,
    task: Task,
    sink: &mut K,
    played: Played<D>,
) -> Finished<D>
    requires { played.halt ≡ Halt.Done → AreWhole (reverse played.lives.lives) }
    ensures ends { EndsAs played.halt result.end }
    ensures lives { reverse result.lives.items ≡ played.lives.lives }
    ensures disk { result.disk ≡ played.disk }
    ensures marks { result.marks.items ≡ [] }
    ensures done { result.end ≡ End.Done → added (K.taken sink.old) (K.taken sink.new) ≡ text_of task result.lives.items }
    ensures front { result.end ≡ End.WriteFault → AddsFront (text_of task result.lives.items) (K.taken sink.old) (K.taken sink.new) }
    ensures silent { IsSilent result.end → sink.new ≡ sink.old }
    ensures grows { Grows (K.taken sink.old) (K.taken sink.new) }
    ensures write_fault { result.end ≡ End.WriteFault → Rose (K.failures sink.old) (K.failures sink.new) }
    ensures no_fault { result.end ≡ End.Done → K.failures sink.new ≡ K.failures sink.old }
    ensures later { K.failures sink.old ≤ K.failures sink.new }
{
    let Played { halt, disk, lives } = played;
    let lives = lives.into_vec();
    let marks = Vec::new(alloc);
    match halt {
        Halt::Done => {
            let end = print(alloc, task, sink, &lives);
            Finished {
                end,
                disk,
                lives,
                marks,
            }
        }
        Halt::OpenFault => Finished {
            end: End::OpenFault,
            disk,
            lives,
            marks,
        },
        Halt::NoMemory => Finished {
            end: End::NoMemory,
            disk,
            lives,
            marks,
        },
    }
}

/// Does what the words ask for, on this disk.
///
/// The whole source is read and judged before the first device call, and the text is written after the last one. What is said of
/// the bytes that were read and written holds of every source and every sink, the standard streams too.
pub fn top<S: Source, K: Sink, D: Disk>(
    alloc: Global,
    words: &[String],
    source: &mut S,
    sink: &mut K,
    disk: D,
) -> Finished<D>
    // What was read, and when it is refused.
    ensures usage { (result.end ≡ End.Usage) ↔ (order_in (texts_of words.now) ≡ None) }
    ensures unasked { reads_source (order_in (texts_of words.now)) ≡ false → source.new ≡ source.old }
    ensures given { Grows (S.given source.old) (S.given source.new) }
    ensures bad_script { (line : ℕ) (why : Why) → result.end ≡ End.BadScript line why → refusal (order_in (texts_of words.now)) (added (S.given source.old) (S.given source.new)) ≡ Some (line, why) }
    ensures of_input { IsOfInput result.end → refusal (order_in (texts_of words.now)) (added (S.given source.old) (S.given source.new)) ≡ None }
    ensures short { result.end ≡ End.NoMemory → length (added (S.given source.old) (S.given source.new)) ≤ limit (order_in (texts_of words.now)) }

    // What was written: all of the text, or a front of it, or nothing.
    ensures taken { Grows (K.taken sink.old) (K.taken sink.new) }
    ensures done { order_in (texts_of words.now) ≢ Some History → result.end ≡ End.Done → added (K.taken sink.old) (K.taken sink.new) ≡ printed (order_in (texts_of words.now)) (added (S.given source.old) (S.given source.new)) result.lives.items }
    ensures front { order_in (texts_of words.now) ≢ Some History → result.end ≡ End.WriteFault → AddsFront (printed (order_in (texts_of words.now)) (added (S.given source.old) (S.given source.new)) result.lives.items) (K.taken sink.old) (K.taken sink.new) }
    ensures silent { IsSilent result.end → sink.new ≡ sink.old }

    // Which lives there are, what holds of them and of the disk before and behind them, and whatever a crash leaves: the disk that
    // comes back is the one that was given, gone on, so that two calls in a row compose. Guarded lives have kept, at each moment, the newest version of each copy that was saved or backed up. Where
    // an exit closes, all that is dirty at the end comes back.
    ensures played { (task : Task) → order_in (texts_of words.now) ≡ Some (Play task) → IsOfInput result.end → HavePlayed D.picked D.tells (D.past result.disk) task (added (S.given source.old) (S.given source.new)) result.end (D.time disk) (D.failures disk) (D.time result.disk) (D.failures result.disk) (reverse result.lives.items) }
    ensures memory { (task : Task) → order_in (texts_of words.now) ≡ Some (Play task) → result.end ≡ End.NoMemory → IsUntouched disk result.disk result.lives.items ⊎ HavePlayed D.picked D.tells (D.past result.disk) task (added (S.given source.old) (S.given source.new)) End.NoMemory (D.time disk) (D.failures disk) (D.time result.disk) (D.failures result.disk) (reverse result.lives.items) }
    ensures kept { IsTrue D.tells → HaveKept (D.past result.disk) (D.time result.disk) (reverse result.lives.items) }
    ensures closes { (order : ExitOrder) → order_in (texts_of words.now) ≡ Some (Play (Exit order)) → IsTrue D.tells → result.end ≡ End.Done → ClosesSafely order (D.past result.disk) (D.time result.disk) (reverse result.lives.items) }
    ensures runs { order_in (texts_of words.now) ≢ Some History → HasGoneOn D.time D.past D.failures disk result.disk }
    ensures runs_told { IsTrue D.tells → HasGoneOn D.time D.past D.failures disk result.disk }
    ensures judged { order_in (texts_of words.now) ≡ Some Check → IsUntouched disk result.disk result.lives.items }
    ensures untouched { IsBeforeDisk result.end → IsUntouched disk result.disk result.lives.items }

    // What a local history has kept of the source's saves, whatever a crash leaves, what was written of it, and what its marks say of the
    // disk's faults. A vault that was empty at first is a history at each opening.
    ensures history { order_in (texts_of words.now) ≡ Some History → IsOfInput result.end → HasPlayedHistory D.tells (D.failures disk) (D.failures result.disk) (D.now disk) (D.now result.disk) (added (S.given source.old) (S.given source.new)) (K.taken sink.old) (K.taken sink.new) result.end result.marks.items }
    ensures history_memory { order_in (texts_of words.now) ≡ Some History → result.end ≡ End.NoMemory → (IsUntouched disk result.disk result.lives.items × (result.marks.items ≡ [])) ⊎ HasPlayedHistory D.tells (D.failures disk) (D.failures result.disk) (D.now disk) (D.now result.disk) (added (S.given source.old) (S.given source.new)) (K.taken sink.old) (K.taken sink.new) End.NoMemory result.marks.items }
    ensures not_history { result.end ≡ End.NotHistory → order_in (texts_of words.now) ≡ Some History }
    ensures foreign { result.end ≡ End.NotHistory → result.marks.items ≡ [] → HandsBack D.tells D.time D.past D.failures disk result.disk }
    ensures no_lives { order_in (texts_of words.now) ≡ Some History → result.lives.items ≡ [] }
    ensures unmarked { order_in (texts_of words.now) ≢ Some History → result.marks.items ≡ [] }

    // Where the source tells what is left, it was read to its end, or what is left is refused as a whole.
    ensures read_to_end { IsTrue S.tells → IsOfInput result.end → reads_source (order_in (texts_of words.now)) ≡ true → (added (S.given source.old) (S.given source.new) ≡ S.left source.old) × (S.left source.new ≡ []) }
    ensures refused_whole { IsTrue S.tells → (line : ℕ) (why : Why) → result.end ≡ End.BadScript line why → refusal (order_in (texts_of words.now)) (S.left source.old) ≡ Some (line, why) }

    // Faults have their causes, and nothing else keeps a valid input from its end but memory.
    ensures read_fault { result.end ≡ End.ReadFault → Rose (S.failures source.old) (S.failures source.new) }
    ensures write_fault { result.end ≡ End.WriteFault → Rose (K.failures sink.old) (K.failures sink.new) }
    ensures open_fault { result.end ≡ End.OpenFault → Rose (faults_of (D.failures disk) (reverse result.lives.items)) (D.failures result.disk) }
    ensures no_fault { result.end ≡ End.Done → (S.failures source.new ≡ S.failures source.old) × (K.failures sink.new ≡ K.failures sink.old) }
    ensures never_by_check { order_in (texts_of words.now) ≡ Some Check → result.end ≢ End.OpenFault }
    ensures complete { order_in (texts_of words.now) ≢ None → refusal (order_in (texts_of words.now)) (added (S.given source.old) (S.given source.new)) ≡ None → (Rose (S.failures source.old) (S.failures source.new) → ⊥) → (Rose (K.failures sink.old) (K.failures sink.new) → ⊥) → (Rose (faults_of (D.failures disk) (reverse result.lives.items)) (D.failures result.disk) → ⊥) → IsCompleted result.end (order_in (texts_of words.now)) }
    ensures complete_told { IsTrue S.tells → order_in (texts_of words.now) ≢ None → refusal (order_in (texts_of words.now)) (S.left source.old) ≡ None → (Rose (S.failures source.old) (S.failures source.new) → ⊥) → (Rose (K.failures sink.old) (K.failures sink.new) → ⊥) → (Rose (faults_of (D.failures disk) (reverse result.lives.items)) (D.failures result.disk) → ⊥) → IsCompleted result.end (order_in (texts_of words.now)) }
{
    match order_in(words) {
        None => stopped(alloc, End::Usage, disk),
        Some(Order::Check) => {
            let end = judge(alloc, source, sink);
            stopped(alloc, end, disk)
        }
        Some(Order::History) => match history_from(alloc, source) {
            Ok(lines) => keep(alloc, lines, sink, disk),
            Err(end) => stopped(alloc, end, disk),
        },
        Some(Order::Play(task)) => match script_for(alloc, task, source) {
            Ok(script) => play(alloc, task, script, sink, disk),
            Err(end) => stopped(alloc, end, disk),
        },
    }
}
