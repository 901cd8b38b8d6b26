ghost use Rattle.hx_lives.specs.Laws.{LivesAreKept, LivesLastOn, OpeningFindsAllowed, CrashLeavesAllowed, EntryIsLived, FinishedIsLived, CrashedIsLived};

use hx_disk::Disk;

/// What holds of lives that have ended holds for good, and they last on while the disk does nothing but sync.
pub fn what_holds_of_ended_lives()
    ensures kept { LivesAreKept }
    ensures on { LivesLastOn }
{}

/// What the next opening reads was allowed at the end of the life before, also behind a crash.
pub fn what_a_crash_leaves_of_a_life()
    ensures found { OpeningFindsAllowed }
    ensures crash { CrashLeavesAllowed }
{}

/// An event whose entry has its row and its cause, which tells what it found, and inside which and after which whatever a
/// crash leaves is allowed, makes a life longer by this entry.
pub fn an_entry_makes_a_life_longer<D: Disk>(_disk: &D)
    ensures { EntryIsLived D.tells D.time D.past D.failures }
{}

/// A life that ends, by a crash or without one, is a life of which all holds that is said of lives.
pub fn what_ends_a_life<D: Disk>(_disk: &D)
    ensures finished { FinishedIsLived D.picked D.tells D.time D.past D.failures }
    ensures crashed { CrashedIsLived D.picked D.tells D.time D.past D.now D.failures }
{}
