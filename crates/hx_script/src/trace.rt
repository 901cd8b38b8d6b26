//! Traces: printed lives, read back.

use hx_events::{Bytes, Items, Life};

/// A life of a trace.
#[derive(Drop)]
pub struct TraceLife {
    /// The life as far as its lines tell: the entries have no content, each moment and count of faults is 0, each restored
    /// pair has side A, and the life isn't guarded.
    pub life: Life,

    /// The number of the first entry's line, or of the `end` line where there is no entry.
    pub first: u64,

    /// The lines behind the `end` line, without their line feeds.
    pub tail: Items<Bytes>,

    /// The number of the first line behind the `end` line.
    pub tail_line: u64,
}

/// A trace: its lives, the oldest first.
#[derive(Drop)]
pub struct Trace {
    pub lives: Items<TraceLife>,
}

/// What of a life's lines stood last.
#[derive(Clone, Copy, Debug, PartialEq, Eq)]
pub enum Part {
    /// No life has begun.
    Before,

    /// The `life` line or a name.
    Names,

    /// A pair of this number.
    Pairs(u64),

    /// An entry.
    Entries,

    /// The `end` line or a copy.
    Copies,

    /// A ticket.
    Tickets,
}

/// The kind of a trace's line.
#[derive(Clone, Copy, Debug, PartialEq, Eq)]
pub enum TraceKind {
    Life,
    Name,
    Pair,
    Entry,
    End,
    Copy,
    Ticket,
}
