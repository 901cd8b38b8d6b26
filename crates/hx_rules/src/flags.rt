use hx_events::Stage;

/// What decides which vault stage of a copy is due.
#[derive(Clone, Copy, Debug, PartialEq, Eq)]
pub struct Flags {
    /// The copy is registered and isn't in its clean state.
    pub dirty: bool,

    /// The completed backup is of the last version.
    pub backed: bool,

    /// The next stage of a begun backup, Body or Open.
    pub begun: Option<Stage>,

    /// A vault stage was answered by a fault or Spent since the copy's last change.
    pub halted: bool,

    /// A gate was opened, or that was tried, since the last completed discard.
    pub opened: bool,

    /// The last vault entry other than Idle is a completed Fade.
    pub faded: bool,

    /// The life is guarded and a save of the copy runs.
    pub held: bool,

    /// The copy is held, and its running version, or a later one, is backed up with no discard completed or tried since.
    pub safe: bool,

    /// The life is guarded, and a write has failed since the last completed save.
    pub keep: bool,
}
