/// Whether a trace is legal.
#[derive(Clone, Copy, Debug, PartialEq, Eq)]
pub enum Verdict {
    Legal,

    /// The first line that isn't right, counted from 1.
    NotAt(u64),
}
