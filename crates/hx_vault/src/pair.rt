use hx_events::Side;

/// What a pair serves.
#[derive(Clone, Copy, Debug, PartialEq, Eq)]
pub enum PairUse {
    /// No resource has it, and nothing shows in it.
    Free,

    /// A resource has it.
    Taken,

    /// Something of another hand stands in it, which is left as it is.
    Barred,
}

/// What is known of a pair.
#[derive(Clone, Copy, Debug, PartialEq, Eq)]
pub struct Pair {
    pub used: PairUse,

    /// The side that was opened last. A new backup is written on the other one.
    pub home: Side,

    /// Whether the gate of a side is known closed: whatever a crash leaves, a byte other than 1 stands there.
    pub shut_a: bool,
    pub shut_b: bool,

    /// How many bytes were put behind the gate of the side that isn't home since it was prepared, if it was.
    pub put: Option<u64>,
}
