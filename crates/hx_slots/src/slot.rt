use hx_events::SlotForm;

/// What an open slot file shows: its form, its stamp, and where its body stands.
#[derive(Clone, Copy, Debug, PartialEq, Eq)]
pub struct Shown {
    pub form: SlotForm,

    /// Of two slots that show a backup the one with the larger stamp is the newer.
    pub stamp: u64,

    /// The body's first place in the file.
    pub start: usize,

    /// The place behind the body.
    pub end: usize,
}
