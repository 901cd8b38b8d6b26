use crate::source::{Source, SourceFailed};
use hx_faults::raised;
use std::marker::Model;

/// A source in memory, whose calls with the given numbers fail, counted from 1.
#[derive(Drop)]
pub struct MemSource {
    bytes: Vec<u8>,
    at: usize,
    fails: Vec<u64>,
    calls: u64,
    faults: u64,
}

impl Model for MemSource {
    ghost use Rattle.std.specs.Prelude.{◌≤◌, length, take, drop};
    ghost use Rattle.hx_io.specs.Memory.{SourceState};

    ghost Value = { SourceState };

    ghost view = { λ s. record { given = take s.at s.bytes.items; left = drop s.at s.bytes.items; fails = s.fails.items; calls = s.calls; faults = s.faults } };

    ghost invariant = { λ s. s.at ≤ length s.bytes.items };
}

impl MemSource {
    ghost use Rattle.std.specs.Prelude.{◌≡◌, []};

    /// A source of these bytes.
    pub fn new(bytes: Vec<u8>, fails: Vec<u64>) -> MemSource
        ensures { result ≡ record { given = []; left = bytes.items; fails = fails.items; calls = 0; faults = 0 } }
    {
        MemSource {
            bytes,
            at: 0,
            fails,
            calls: 0,
            faults: 0,
        }
    }
}

impl Source for MemSource {
    ghost use Rattle.std.specs.Prelude.{◌≡◌, ◌≤◌, ◌<◌, ◌++◌, ◌↔◌, true, [], min, length, take, drop, IsTrue, IsErr, IfOk, OnErr, Contains};
    ghost use Rattle.hx_faults.specs.Faults.{HasCause};
    ghost use Rattle.hx_io.specs.Memory.{one_more};

    ghost given = { λ s. s.given };

    ghost tells = { true };

    ghost left = { λ s. s.left };

    ghost failures = { λ s. s.faults };

    fn read(&mut self, into: &mut [u8]) -> Result<usize, SourceFailed>
        ensures count { IfOk result (λ n. n ≤ length into.new) }
        ensures given { IfOk result (λ n. self.new.given ≡ self.old.given ++ take n into.new) }
        ensures none { OnErr result (self.new.given ≡ self.old.given) }
        ensures whole { IsTrue ⟦<MemSource as Source>⟧.tells → self.new.given ++ self.new.left ≡ self.old.given ++ self.old.left }
        ensures end { IsTrue ⟦<MemSource as Source>⟧.tells → IfOk result (λ n. n ≡ 0 → 0 < length into.new → self.new.left ≡ []) }
        ensures cause { HasCause self.old.faults self.new.faults result }

        // It fails exactly where it is to, with the buffer as it was, and gives all that fits.
        ensures planned { IsErr result ↔ Contains self.old.fails (one_more self.old.calls) }
        ensures buffer { OnErr result (into.new ≡ into.old) }
        ensures full { IfOk result (λ n. n ≡ min (length into.old) (length self.old.left)) }
        ensures behind { IfOk result (λ n. drop n into.new ≡ drop n into.old) }
        ensures faults { OnErr result (self.new.faults ≡ one_more self.old.faults) }
        ensures calls { self.new.calls ≡ one_more self.old.calls }
        ensures fails { self.new.fails ≡ self.old.fails }
    {
        self.calls = self.calls.saturating_add(1);
        if self.fails.contains(&self.calls) {
            self.faults = raised(self.faults);
            return Err(SourceFailed);
        }
        let count = into.len().min(self.bytes.len() - self.at);
        into[..count].copy_from_slice(&self.bytes[self.at..self.at + count]);
        self.at += count;
        Ok(count)
    }
}
