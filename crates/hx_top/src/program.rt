//! One run of the program: from its words and streams to its exit status.

ghost use Rattle.std.specs.Prelude.{◌++◌, ◌≡◌, ◌≢◌, ◌≤◌, ◌⊎◌, IfErr, IfOk, None, Some, length, ℕ};
ghost use Rattle.std.specs.Process.{exit_status};
ghost use Rattle.hx_faults.specs.Faults.{Rose};
ghost use Rattle.hx_io.specs.Streams.{Grows, added};
ghost use Rattle.hx_script.specs.declared.why.Why.{Why};
ghost use Rattle.hx_top.specs.Ends.{error_text, status_of};
ghost use Rattle.hx_top.specs.Program.{HasServedOn, ServedBy, end_without, refusal_by};
ghost use Rattle.hx_top.specs.Whole.{IsOfInput, IsSilent};
ghost use Rattle.hx_top.specs.Words.{order_in, run_in, stored_in, texts_of};

use crate::ends::status;
use crate::runs::top_run;
use crate::telling::report;
use crate::whole::{End, Finished, top};
use crate::words::{DiskChoice, disk_words, is_run};
use hx_actors::OpenGate;
use hx_disk::Disk;
use hx_filedisk::Stores;
use hx_io::{Sink, Source};
use hx_memdisk::MemDisk;
use std::alloc::{AllocError, Global};
use std::process::ExitCode;
use std::sync::Wait;
use std::thread::Threads;

/// Why a program has no words.
#[derive(Clone, Copy, Debug, PartialEq, Eq)]
pub enum NoWords {
    /// A word is no text.
    NotText,

    /// There was no memory for them.
    OutOfMemory,
}

/// How the program ended, and what its process ends with.
#[derive(Clone, Copy)]
pub struct Exit {
    pub end: End,
    pub code: ExitCode,
}

/// The end alone: the disk and its lives are gone with the process.
fn ended<D: Drop>(finished: Finished<D>) -> End
    ensures { result ≡ finished.end }
{
    let Finished {
        end,
        disk: _,
        lives: _,
        marks: _,
    } = finished;
    end
}

/// Serves the words on this disk: `top_run` where they ask for a run, and `top` for all others.
fn serve_on<R: Threads + Wait + Sync, S: Source, K: Sink, D: Disk + Drop + Send>(
    rt: &R,
    alloc: Global,
    words: &[String],
    source: &mut S,
    sink: &mut K,
    disk: D,
) -> End
    ensures usage { result ≡ End.Usage → (order_in (texts_of words.now) ≡ None) × (run_in (texts_of words.now) ≡ None) }
    ensures no_command { order_in (texts_of words.now) ≡ None → run_in (texts_of words.now) ≡ None → (result ≡ End.Usage) ⊎ (result ≡ End.NoMemory) }
    ensures given { Grows (S.given source.old) (S.given source.new) }
    ensures bad_script { (line : ℕ) (why : Why) → result ≡ End.BadScript line why → refusal_by (run_in (texts_of words.now)) (texts_of words.now) (added (S.given source.old) (S.given source.new)) ≡ Some (line, why) }
    ensures of_input { IsOfInput result → refusal_by (run_in (texts_of words.now)) (texts_of words.now) (added (S.given source.old) (S.given source.new)) ≡ None }
    ensures taken { Grows (K.taken sink.old) (K.taken sink.new) }
    ensures silent { IsSilent result → sink.new ≡ sink.old }
    ensures served { HasServedOn D.picked D.tells D.time D.past D.now D.failures disk (texts_of words.now) (added (S.given source.old) (S.given source.new)) (K.taken sink.old) (K.taken sink.new) result }
    ensures read_fault { result ≡ End.ReadFault → Rose (S.failures source.old) (S.failures source.new) }
    ensures write_fault { result ≡ End.WriteFault → Rose (K.failures sink.old) (K.failures sink.new) }
    ensures no_fault { result ≡ End.Done → (S.failures source.new ≡ S.failures source.old) × (K.failures sink.new ≡ K.failures sink.old) }
{
    if is_run(words) {
        ended(top_run(rt, alloc, words, source, sink, disk, &OpenGate))
    } else {
        ended(top(alloc, words, source, sink, disk))
    }
}

/// Serves the words on the disk that they name: on the files of a folder, or in memory.
pub fn serve<R: Threads + Wait + Sync + Stores, S: Source, K: Sink>(
    rt: &R,
    alloc: Global,
    words: &[String],
    source: &mut S,
    sink: &mut K,
) -> End
    // What was read, and when it is refused.
    ensures usage { result ≡ End.Usage → (order_in (texts_of words.now) ≡ None) × (run_in (texts_of words.now) ≡ None) }
    ensures no_command { order_in (texts_of words.now) ≡ None → run_in (texts_of words.now) ≡ None → (result ≡ End.Usage) ⊎ (result ≡ End.NoMemory) }
    ensures given { Grows (S.given source.old) (S.given source.new) }
    ensures bad_script { (line : ℕ) (why : Why) → result ≡ End.BadScript line why → refusal_by (run_in (texts_of words.now)) (texts_of words.now) (added (S.given source.old) (S.given source.new)) ≡ Some (line, why) }
    ensures of_input { IsOfInput result → refusal_by (run_in (texts_of words.now)) (texts_of words.now) (added (S.given source.old) (S.given source.new)) ≡ None }

    // What was written, over which lives, on the disk that the words name.
    ensures taken { Grows (K.taken sink.old) (K.taken sink.new) }
    ensures silent { IsSilent result → sink.new ≡ sink.old }
    ensures served { result ≢ End.NoMemory → ServedBy (stored_in (texts_of words.now)) (texts_of words.now) (added (S.given source.old) (S.given source.new)) (K.taken sink.old) (K.taken sink.new) result }

    // Faults of the streams have their causes.
    ensures read_fault { result ≡ End.ReadFault → Rose (S.failures source.old) (S.failures source.new) }
    ensures write_fault { result ≡ End.WriteFault → Rose (K.failures sink.old) (K.failures sink.new) }
    ensures no_fault { result ≡ End.Done → (S.failures source.new ≡ S.failures source.old) × (K.failures sink.new ≡ K.failures sink.old) }
{
    match disk_words(alloc, words) {
        Ok(DiskChoice::Memory(plan)) => match MemDisk::new(alloc, plan) {
            Ok(disk) => serve_on(rt, alloc, words, source, sink, disk),
            Err(AllocError) => End::NoMemory,
        },
        Ok(DiskChoice::Store(folder)) => match rt.store(alloc, folder) {
            Ok(disk) => serve_on(rt, alloc, words, source, sink, disk),
            Err(AllocError) => End::NoMemory,
        },
        Err(AllocError) => End::NoMemory,
    }
}

/// The end of the words, or of there being none.
fn end_of<R: Threads + Wait + Sync + Stores, S: Source, K: Sink>(
    rt: &R,
    alloc: Global,
    words: Result<Vec<String>, NoWords>,
    source: &mut S,
    sink: &mut K,
) -> End
    ensures no_words { IfErr words (λ why. (result ≡ end_without why) × (source.new ≡ source.old) × (sink.new ≡ sink.old)) }
    ensures usage { IfOk words (λ ws. result ≡ End.Usage → (order_in (texts_of ws.items) ≡ None) × (run_in (texts_of ws.items) ≡ None)) }
    ensures no_command { IfOk words (λ ws. order_in (texts_of ws.items) ≡ None → run_in (texts_of ws.items) ≡ None → (result ≡ End.Usage) ⊎ (result ≡ End.NoMemory)) }
    ensures given { Grows (S.given source.old) (S.given source.new) }
    ensures bad_script { IfOk words (λ ws. (line : ℕ) (why : Why) → result ≡ End.BadScript line why → refusal_by (run_in (texts_of ws.items)) (texts_of ws.items) (added (S.given source.old) (S.given source.new)) ≡ Some (line, why)) }
    ensures of_input { IfOk words (λ ws. IsOfInput result → refusal_by (run_in (texts_of ws.items)) (texts_of ws.items) (added (S.given source.old) (S.given source.new)) ≡ None) }
    ensures taken { Grows (K.taken sink.old) (K.taken sink.new) }
    ensures silent { IsSilent result → sink.new ≡ sink.old }
    ensures served { IfOk words (λ ws. result ≢ End.NoMemory → ServedBy (stored_in (texts_of ws.items)) (texts_of ws.items) (added (S.given source.old) (S.given source.new)) (K.taken sink.old) (K.taken sink.new) result) }
    ensures read_fault { result ≡ End.ReadFault → Rose (S.failures source.old) (S.failures source.new) }
    ensures write_fault { result ≡ End.WriteFault → Rose (K.failures sink.old) (K.failures sink.new) }
    ensures no_fault { result ≡ End.Done → (S.failures source.new ≡ S.failures source.old) × (K.failures sink.new ≡ K.failures sink.old) }
{
    match words {
        Ok(words) => serve(rt, alloc, &words, source, sink),
        Err(NoWords::NotText) => End::Usage,
        Err(NoWords::OutOfMemory) => End::NoMemory,
    }
}

/// The whole program: serves the words, tells the end on standard error, and gives the exit status.
///
/// A line that standard error doesn't take is lost, and changes nothing else.
pub fn run_to_exit<R: Threads + Wait + Sync + Stores, S: Source, K: Sink, E: Sink>(
    rt: &R,
    alloc: Global,
    words: Result<Vec<String>, NoWords>,
    source: &mut S,
    sink: &mut K,
    errors: &mut E,
) -> Exit
    // The exit status and the line on standard error are those of the end.
    ensures status { exit_status result.code ≡ status_of result.end }
    ensures told { (E.taken errors.new ≡ E.taken errors.old ++ error_text result.end) ⊎ Rose (E.failures errors.old) (E.failures errors.new) }

    // The end is that of the words.
    ensures no_words { IfErr words (λ why. (result.end ≡ end_without why) × (source.new ≡ source.old) × (sink.new ≡ sink.old)) }
    ensures usage { IfOk words (λ ws. result.end ≡ End.Usage → (order_in (texts_of ws.items) ≡ None) × (run_in (texts_of ws.items) ≡ None)) }
    ensures no_command { IfOk words (λ ws. order_in (texts_of ws.items) ≡ None → run_in (texts_of ws.items) ≡ None → (result.end ≡ End.Usage) ⊎ (result.end ≡ End.NoMemory)) }
    ensures given { Grows (S.given source.old) (S.given source.new) }
    ensures bad_script { IfOk words (λ ws. (line : ℕ) (why : Why) → result.end ≡ End.BadScript line why → refusal_by (run_in (texts_of ws.items)) (texts_of ws.items) (added (S.given source.old) (S.given source.new)) ≡ Some (line, why)) }
    ensures of_input { IfOk words (λ ws. IsOfInput result.end → refusal_by (run_in (texts_of ws.items)) (texts_of ws.items) (added (S.given source.old) (S.given source.new)) ≡ None) }
    ensures taken { Grows (K.taken sink.old) (K.taken sink.new) }
    ensures silent { IsSilent result.end → sink.new ≡ sink.old }
    ensures served { IfOk words (λ ws. result.end ≢ End.NoMemory → ServedBy (stored_in (texts_of ws.items)) (texts_of ws.items) (added (S.given source.old) (S.given source.new)) (K.taken sink.old) (K.taken sink.new) result.end) }
    ensures read_fault { result.end ≡ End.ReadFault → Rose (S.failures source.old) (S.failures source.new) }
    ensures write_fault { result.end ≡ End.WriteFault → Rose (K.failures sink.old) (K.failures sink.new) }
    ensures no_fault { result.end ≡ End.Done → (S.failures source.new ≡ S.failures source.old) × (K.failures sink.new ≡ K.failures sink.old) }
{
    let end = end_of(rt, alloc, words, source, sink);
    // There is nowhere left to tell that the line was not taken.
    let _ = report(errors, end);
    Exit {
        end,
        code: ExitCode::from(status(end)),
    }
}
