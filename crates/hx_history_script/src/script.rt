use hx_events::Bytes;

/// One line of the script of a local history.
#[derive(Drop)]
pub enum HistoryLine {
    /// The file is saved at this moment with this content.
    Saved { moment: u64, content: Bytes },

    /// The disk crashes with this pick, and the history is opened again.
    Crash(u64),
}
