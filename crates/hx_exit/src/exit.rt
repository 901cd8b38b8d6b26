ghost use Rattle.std.specs.Prelude.{◌≡◌};
ghost use Rattle.hx_exit.specs.Exits.{decision_by, ends_program, is_lost, triggers};

use hx_events::{CopyFact, ResNo};

/// The setting `files.hotExit`.
#[derive(Clone, Copy, Debug, PartialEq, Eq)]
pub enum Setting {
    /// No exit is a hot one.
    Off,

    /// The exit of the whole program is one.
    OnExit,

    /// So is the end of a window that has a folder.
    OnExitAndWindowClose,
}

/// What ends.
#[derive(Clone, Copy, Debug, PartialEq, Eq)]
pub enum Ending {
    Quit,
    CloseWindow,
}

/// Which window it is, and where.
#[derive(Clone, Copy, Debug, PartialEq, Eq)]
pub struct Situation {
    /// It is the last window.
    pub last: bool,

    /// It has a folder.
    pub folder: bool,

    /// It is on a Mac, where the program goes on without windows.
    pub mac: bool,
}

/// What comes of an exit.
#[derive(Clone, Copy, Debug, PartialEq, Eq)]
pub enum Decision {
    Close,

    /// The user is asked about this copy.
    Confirm(ResNo),
}

fn ends_program(ending: Ending, situation: Situation) -> bool
    ensures { result ≡ ends_program ending situation }
{
    match ending {
        Ending::Quit => true,
        Ending::CloseWindow => situation.last && !situation.mac,
    }
}

/// Whether the exit is a hot one: it may leave a dirty copy behind that is backed up, since the next start restores it. After
/// VS Code's `files.hotExit`.
pub fn triggers(setting: Setting, ending: Ending, situation: Situation) -> bool
    ensures { result ≡ triggers setting ending situation }
{
    match setting {
        Setting::Off => false,
        Setting::OnExit => ends_program(ending, situation),
        Setting::OnExitAndWindowClose => ends_program(ending, situation) || situation.folder,
    }
}

fn is_lost(hot: bool, copy: CopyFact) -> bool
    ensures { result ≡ is_lost hot copy }
{
    copy.dirty && !(hot && copy.backed)
}

/// What comes of the exit: it closes where no copy's changes would be lost, and else asks about the first copy whose changes
/// would be. `copies` are the registered ones, in the order in which they are asked about.
pub fn decide(
    setting: Setting,
    ending: Ending,
    situation: Situation,
    copies: &[CopyFact],
) -> Decision
    ensures { result ≡ decision_by (triggers setting ending situation) copies.now }
{
    let hot = triggers(setting, ending, situation);
    for copy in copies {
        if is_lost(hot, *copy) {
            return Decision::Confirm(copy.res);
        }
    }
    Decision::Close
}
