//! What may happen in a life, and by whom.

ghost use Rattle.std.specs.Prelude.{◌≡◌};
ghost use Rattle.hx_events.specs.Texts.{resource_of};

use crate::{Bytes, ResNo};

/// Who brought an event about.
#[derive(Clone, Copy, Debug, PartialEq, Eq)]
pub enum Actor {
    /// A window, from 0 to 7.
    Window(u8),

    /// A worker that does vault stages, from 0 to 3.
    Writer(u8),

    /// A worker that does save stages, from 0 to 3.
    Saver(u8),

    /// What ends a life: it finishes the work that is due.
    Closer,

    /// What reloads clean copies after outside writes.
    Watcher,
}

/// A command of a window.
#[derive(Drop)]
pub enum Command {
    Open(ResNo),
    Create(ResNo),

    /// Replaces `del` bytes from `off` on by the text.
    Edit {
        res: ResNo,
        off: u64,
        del: u64,
        text: Bytes,
    },
    Undo(ResNo),
    Redo(ResNo),

    /// With `force` a clean copy is saved too, and with `over` a conflict isn't looked for.
    Save {
        res: ResNo,
        force: bool,
        over: bool,
    },
    Revert(ResNo),
    Close(ResNo),

    /// Another program's write of the whole file, which gets this modification time.
    Outside {
        res: ResNo,
        mtime: u64,
        text: Bytes,
    },
}

impl Command {
    /// The resource that the command names.
    pub fn resource(&self) -> ResNo
        ensures { result ≡ resource_of self.now }
    {
        match self {
            Command::Open(res)
            | Command::Create(res)
            | Command::Undo(res)
            | Command::Redo(res)
            | Command::Revert(res)
            | Command::Close(res) => *res,
            Command::Edit { res, .. } => *res,
            Command::Save { res, .. } => *res,
            Command::Outside { res, .. } => *res,
        }
    }
}

/// One step of a life.
#[derive(Drop)]
pub enum Event {
    Act(Command),

    /// The vault stage that is due for this resource.
    Vault(ResNo),

    /// The save stage that is due for this resource.
    Flush(ResNo),

    /// The question whether the program may end.
    Quit,
}

/// A step of writing a backup or of discarding one.
#[derive(Clone, Copy, Debug, PartialEq, Eq)]
pub enum Stage {
    /// Closes the side that isn't home, and takes the snapshot.
    Prepare,

    /// Writes one block of the snapshot.
    Body,

    /// Opens the written side, which completes the backup.
    Open,

    /// Closes the side that isn't home, before a discard.
    Fade,

    /// Closes the home side, which completes the discard.
    Drop,
}
