//! The end of a life.

ghost use Rattle.std.specs.Prelude.{◌≡◌, ◌<◌};
ghost use Rattle.hx_lives.specs.Calls.{HasGoneOn, IsNoCrash, crash_end};
ghost use Rattle.hx_play.specs.Over.{EndsLife};

use crate::lives::Lives;
use crate::playing::Halt;
use hx_disk::Disk;
use hx_events::Ended;
use hx_registry::Registry;
use std::alloc::AllocError;

/// A script that was stopped, with its disk.
pub struct Stopped<D> {
    pub halt: Halt,
    pub disk: D,
}

/// Ends the life otherwise than by a crash, and adds it to those that have ended.
pub fn end_life<D: Disk>(lives: &mut Lives, registry: Registry<D>, ended: Ended) -> D
    requires room { 0 < lives.old.room }
    requires no_crash { IsNoCrash ended }
    ensures disk { result ≡ registry.disk }
    ensures ends { EndsLife D.picked D.tells D.time D.past D.failures registry.course ended lives.old.lives lives.new.lives result }
{
    let (disk, life) = registry.finish(ended);
    lives.push(life);
    disk
}

/// Crashes the disk, and adds the life that ended so to the others. For want of memory the disk didn't crash, and the life was
/// cut off.
pub fn crash_life<D: Disk>(
    lives: &mut Lives,
    registry: Registry<D>,
    pick: u64,
) -> (D, Result<(), AllocError>)
    requires { 0 < lives.old.room }
    ensures runs { HasGoneOn D.time D.past D.failures registry.disk result.0 }
    ensures ends { EndsLife D.picked D.tells D.time D.past D.failures registry.course (crash_end pick result.1) lives.old.lives lives.new.lives result.0 }
{
    let (disk, crashed_life, crashed) = registry.crash(pick);
    lives.push(crashed_life);
    (disk, crashed)
}
