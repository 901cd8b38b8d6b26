use crate::sink::{Sink, SinkFailed};
use hx_faults::raised;
use std::alloc::{AllocError, Global};
use std::marker::Model;

/// A sink in memory with room for so many bytes, whose calls with the given numbers fail, counted from 1.
#[derive(Drop)]
pub struct MemSink {
    bytes: Vec<u8>,
    room: usize,
    fails: Vec<u64>,
    calls: u64,
    faults: u64,
}

impl Model for MemSink {
    ghost use Rattle.std.specs.Prelude.{◌≤◌, vec_len, vec_capacity};
    ghost use Rattle.hx_io.specs.Memory.{SinkState};

    ghost Value = { SinkState };

    ghost view = { λ s. record { held = s.bytes.items; room = s.room; fails = s.fails.items; calls = s.calls; faults = s.faults } };

    ghost invariant = { λ s. (s.room ≤ vec_capacity s.bytes) × (vec_len s.bytes ≤ s.room) };
}

impl MemSink {
    ghost use Rattle.std.specs.Prelude.{◌≡◌, [], IfOk};

    /// An empty sink. All its memory is taken here.
    pub fn new(alloc: Global, room: usize, fails: Vec<u64>) -> Result<MemSink, AllocError>
        ensures { IfOk result (λ sink. sink ≡ record { held = []; room = room; fails = fails.items; calls = 0; faults = 0 }) }
    {
        Ok(MemSink {
            bytes: Vec::with_capacity(alloc, room)?,
            room,
            fails,
            calls: 0,
            faults: 0,
        })
    }

    /// What was written to it.
    pub fn bytes(&self) -> &[u8]
        ensures { result.now ≡ self.now.held }
    {
        &self.bytes
    }
}

impl Sink for MemSink {
    ghost use Rattle.std.specs.Prelude.{◌≡◌, ◌≤◌, ◌<◌, ◌-◌, ◌++◌, ◌↔◌, min, length, take, IsErr, IfOk, OnErr};
    ghost use Rattle.hx_faults.specs.Faults.{HasCause};
    ghost use Rattle.hx_io.specs.Memory.{one_more, Refuses};

    ghost taken = { λ s. s.held };

    ghost failures = { λ s. s.faults };

    fn write(&mut self, bytes: &[u8]) -> Result<usize, SinkFailed>
        ensures count { IfOk result (λ n. n ≤ length bytes.now) }
        ensures some { 0 < length bytes.now → IfOk result (λ n. 0 < n) }
        ensures taken { IfOk result (λ n. self.new.held ≡ self.old.held ++ take n bytes.now) }
        ensures none { OnErr result (self.new.held ≡ self.old.held) }
        ensures cause { HasCause self.old.faults self.new.faults result }

        // It fails exactly where it is to or is full, and takes all that fits.
        ensures refused { IsErr result ↔ Refuses self.old bytes.now }
        ensures full { IfOk result (λ n. n ≡ min (length bytes.now) (self.old.room - length self.old.held)) }
        ensures faults { OnErr result (self.new.faults ≡ one_more self.old.faults) }
        ensures calls { self.new.calls ≡ one_more self.old.calls }
        ensures fails { self.new.fails ≡ self.old.fails }
        ensures room { self.new.room ≡ self.old.room }
    {
        self.calls = self.calls.saturating_add(1);
        let free = self.room - self.bytes.len();
        if self.fails.contains(&self.calls) || (free == 0 && !bytes.is_empty()) {
            self.faults = raised(self.faults);
            return Err(SinkFailed);
        }
        let count = bytes.len().min(free);
        match self.bytes.extend_from_slice(&bytes[..count]) {
            Ok(()) => Ok(count),
            Err(_) => unreachable!(),
        }
    }
}
