//! What is printed, and where it goes.

ghost use Rattle.std.specs.Prelude.{◌≡◌, ◌≤◌, IfOk};
ghost use Rattle.hx_faults.specs.Faults.{Rose};
ghost use Rattle.hx_io.specs.Streams.{AddsFront, Grows, added};
ghost use Rattle.hx_history_play.specs.declared.account.Halt.TheVariants.{Done as ToTheEnd};
ghost use Rattle.hx_report.specs.Traces.{AreWhole};
ghost use Rattle.hx_top.specs.Histories.{halt_of};
ghost use Rattle.hx_top.specs.Whole.{IsOfPrint, IsSilent, text_of, verdict_text};

use crate::asking::exit_text;
use crate::whole::End;
use crate::words::Task;
use hx_base::decimal;
use hx_check::Verdict;
use hx_events::Life;
use hx_io::{Sink, write_all};
use hx_report::{out, pairs, summary};
use std::alloc::{AllocError, Global};

/// What is printed of the lives, the oldest first.
fn text_of(alloc: Global, task: Task, lives: &[Life]) -> Result<Vec<u8>, AllocError>
    requires { AreWhole lives.now }
    ensures { IfOk result (λ text. text.items ≡ text_of task lives.now) }
{
    match task {
        Task::Replay { guarded: _ } => out(alloc, lives),
        Task::Restore => match lives {
            [life, ..] => pairs(alloc, life.base.as_slice()),
            [] => Ok(Vec::new(alloc)),
        },
        Task::Made(n) => summary(alloc, n, lives),
        Task::Exit(order) => exit_text(alloc, order, lives),
    }
}

/// Writes the text.
pub fn write_text<K: Sink>(sink: &mut K, text: &[u8]) -> End
    ensures ends { IsOfPrint result }
    ensures played { halt_of result ≡ ToTheEnd }
    ensures done { result ≡ End.Done → added (K.taken sink.old) (K.taken sink.new) ≡ text.now }
    ensures front { result ≡ End.WriteFault → AddsFront text.now (K.taken sink.old) (K.taken sink.new) }
    ensures silent { IsSilent result → sink.new ≡ sink.old }
    ensures grows { Grows (K.taken sink.old) (K.taken sink.new) }
    ensures fault { result ≡ End.WriteFault → Rose (K.failures sink.old) (K.failures sink.new) }
    ensures no_fault { result ≡ End.Done → K.failures sink.new ≡ K.failures sink.old }
    ensures later { K.failures sink.old ≤ K.failures sink.new }
{
    match write_all(sink, text) {
        Ok(()) => End::Done,
        Err(_) => End::WriteFault,
    }
}

/// Prints the lives.
pub fn print<K: Sink>(alloc: Global, task: Task, sink: &mut K, lives: &[Life]) -> End
    requires { AreWhole lives.now }
    ensures ends { IsOfPrint result }
    ensures done { result ≡ End.Done → added (K.taken sink.old) (K.taken sink.new) ≡ text_of task lives.now }
    ensures front { result ≡ End.WriteFault → AddsFront (text_of task lives.now) (K.taken sink.old) (K.taken sink.new) }
    ensures silent { IsSilent result → sink.new ≡ sink.old }
    ensures grows { Grows (K.taken sink.old) (K.taken sink.new) }
    ensures fault { result ≡ End.WriteFault → Rose (K.failures sink.old) (K.failures sink.new) }
    ensures no_fault { result ≡ End.Done → K.failures sink.new ≡ K.failures sink.old }
    ensures later { K.failures sink.old ≤ K.failures sink.new }
{
    match text_of(alloc, task, lives) {
        Ok(text) => write_text(sink, &text),
        Err(AllocError) => End::NoMemory,
    }
}

fn verdict_text(alloc: Global, verdict: Verdict) -> Result<Vec<u8>, AllocError>
    ensures { IfOk result (λ text. text.items ≡ verdict_text verdict) }
{
    match verdict {
        Verdict::Legal => Vec::from_slice(alloc, b"legal\n"),
        Verdict::NotAt(line) => {
            let mut text = Vec::from_slice(alloc, b"not at ")?;
            text.extend_from_slice(&decimal(alloc, line)?)?;
            text.push(b'\n')?;
            Ok(text)
        }
    }
}

/// Prints the verdict.
pub fn print_verdict<K: Sink>(alloc: Global, sink: &mut K, verdict: Verdict) -> End
    ensures ends { IsOfPrint result }
    ensures done { result ≡ End.Done → added (K.taken sink.old) (K.taken sink.new) ≡ verdict_text verdict }
    ensures front { result ≡ End.WriteFault → AddsFront (verdict_text verdict) (K.taken sink.old) (K.taken sink.new) }
    ensures silent { IsSilent result → sink.new ≡ sink.old }
    ensures grows { Grows (K.taken sink.old) (K.taken sink.new) }
    ensures fault { result ≡ End.WriteFault → Rose (K.failures sink.old) (K.failures sink.new) }
    ensures no_fault { result ≡ End.Done → K.failures sink.new ≡ K.failures sink.old }
    ensures later { K.failures sink.old ≤ K.failures sink.new }
{
    match verdict_text(alloc, verdict) {
        Ok(text) => write_text(sink, &text),
        Err(AllocError) => End::NoMemory,
    }
}
