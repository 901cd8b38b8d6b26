//! The adapters over std are generic for their proof's sake. No contract knows the bytes of a real stream, so an adapter
//! over standard output alone could note bytes that it never wrote, and be proved. These are proved for every reader and
//! writer at once, also for those whose bytes contracts know, and there the clause `passed` refuses such a body. The
//! streams are private, so that nothing is read or written past the lists of what was given and taken.

ghost use Rattle.std.specs.Prelude.{◌≡◌, ◌≤◌, ◌<◌, ◌++◌, false, [], length, take, IfOk, OnErr};
ghost use Rattle.std.specs.Io.KnownBytes.{ReadConsumes, WriteAppends};
ghost use Rattle.hx_faults.specs.Faults.{HasCause};

use crate::sink::{Sink, SinkFailed};
use crate::source::{Source, SourceFailed};
use hx_faults::raised;
use hx_ghost::GhostList;
use std::io::{Read, Write};

/// A reader of std as a source. What it has given is kept in a list that takes no memory; of what is left it tells
/// nothing. An interrupted read counts as one that failed.
#[derive(Drop)]
pub struct StdSource<I: Read + Drop> {
    input: I,
    given: GhostList<u8>,
    faults: u64,
}

impl<I: Read + Drop> StdSource<I> {
    /// A source that has given nothing yet. Standard input is `StdSource::new(rt.stdin())`.
    pub fn new(input: I) -> StdSource<I>
        ensures input { result.input ≡ input }
        ensures given { ⟦<StdSource<I> as Source>⟧.given result ≡ [] }
        ensures faults { ⟦<StdSource<I> as Source>⟧.failures result ≡ 0 }
    {
        StdSource {
            input,
            given: GhostList::new(),
            faults: 0,
        }
    }
}

impl<I: Read + Drop> Source for StdSource<I> {
    ghost given = { λ s. s.given.items };

    ghost tells = { false };

    ghost left = { λ _. [] };

    ghost failures = { λ s. s.faults };

    fn read(&mut self, into: &mut [u8]) -> Result<usize, SourceFailed>
        ensures count { IfOk result (λ n. n ≤ length into.new) }
        ensures given { IfOk result (λ n. ⟦<StdSource<I> as Source>⟧.given self.new ≡ ⟦<StdSource<I> as Source>⟧.given self.old ++ take n into.new) }
        ensures none { OnErr result (⟦<StdSource<I> as Source>⟧.given self.new ≡ ⟦<StdSource<I> as Source>⟧.given self.old) }
        ensures cause { HasCause (⟦<StdSource<I> as Source>⟧.failures self.old) (⟦<StdSource<I> as Source>⟧.failures self.new) result }

        // Where the reader's bytes are known, these are they, and after a failure none is lost.
        ensures passed { ReadConsumes (I.remaining self.old.input) (I.remaining self.new.input) result into.new }
    {
        match self.input.read(into) {
            Ok(count) => {
                self.given.extend(&&into[..count]);
                Ok(count)
            }
            Err(_) => {
                self.faults = raised(self.faults);
                Err(SourceFailed)
            }
        }
    }
}

/// A writer of std as a sink. What it has taken is kept in a list that takes no memory. A write that takes nothing of some
/// bytes counts as one that failed.
#[derive(Drop)]
pub struct StdSink<O: Write + Drop> {
    output: O,
    taken: GhostList<u8>,
    faults: u64,
}

impl<O: Write + Drop> StdSink<O> {
    /// A sink that has taken nothing yet. Standard output is `StdSink::new(rt.stdout())`.
    pub fn new(output: O) -> StdSink<O>
        ensures output { result.output ≡ output }
        ensures taken { ⟦<StdSink<O> as Sink>⟧.taken result ≡ [] }
        ensures faults { ⟦<StdSink<O> as Sink>⟧.failures result ≡ 0 }
    {
        StdSink {
            output,
            taken: GhostList::new(),
            faults: 0,
        }
    }

    /// The writer again. The sink is used up, so that nothing is written past it.
    pub fn into_inner(self) -> O
        ensures { result ≡ self.output }
    {
        let StdSink { output, .. } = self;
        output
    }
}

impl<O: Write + Drop> Sink for StdSink<O> {
    ghost taken = { λ s. s.taken.items };

    ghost failures = { λ s. s.faults };

    fn write(&mut self, bytes: &[u8]) -> Result<usize, SinkFailed>
        ensures count { IfOk result (λ n. n ≤ length bytes.now) }
        ensures some { 0 < length bytes.now → IfOk result (λ n. 0 < n) }
        ensures taken { IfOk result (λ n. ⟦<StdSink<O> as Sink>⟧.taken self.new ≡ ⟦<StdSink<O> as Sink>⟧.taken self.old ++ take n bytes.now) }
        ensures none { OnErr result (⟦<StdSink<O> as Sink>⟧.taken self.new ≡ ⟦<StdSink<O> as Sink>⟧.taken self.old) }
        ensures cause { HasCause (⟦<StdSink<O> as Sink>⟧.failures self.old) (⟦<StdSink<O> as Sink>⟧.failures self.new) result }

        // Where the writer's bytes are known, these were added, and after a failure none.
        ensures passed { WriteAppends (O.contents self.old.output) (O.contents self.new.output) result bytes.now }
    {
        match self.output.write(bytes) {
            Ok(count) if 0 < count || bytes.is_empty() => {
                self.taken.extend(&&bytes[..count]);
                Ok(count)
            }
            _ => {
                self.faults = raised(self.faults);
                Err(SinkFailed)
            }
        }
    }
}
