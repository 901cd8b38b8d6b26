//! All steps of a script.

ghost use Rattle.std.specs.Prelude.{◌≡◌, ◌≤◌, true, All, length, reverse};
ghost use Rattle.hx_faults.specs.Faults.{Rose};
ghost use Rattle.hx_events.specs.Resources.{is_resource};
ghost use Rattle.hx_script.specs.Follows.{Follows, StopsAtOpening, StopsForMemory};
ghost use Rattle.hx_script.specs.Scripts.{IsStepOf};
ghost use Rattle.hx_lives.specs.Calls.{HasGoneOn};
ghost use Rattle.hx_lives.specs.Chained.{faults_of};
ghost use Rattle.hx_play.specs.Over.{AreOver};

use crate::endings::{Stopped, end_life};
use crate::lives::Lives;
use crate::openings::next_life;
use crate::steps::{cut_off, take_step};
use hx_disk::Disk;
use hx_events::{Ended, Names};
use hx_script::Step;
use std::alloc::Global;

/// How far a script was played.
#[derive(Clone, Copy, Debug, PartialEq, Eq)]
pub enum Halt {
    /// To its end.
    Done,

    /// Up to an opening of the vault at which the disk failed.
    OpenFault,

    /// Up to where memory ran out, at an opening or in a life.
    NoMemory,
}

/// What playing a script has made: the lives, and the disk as they left it.
pub struct Played<D> {
    pub halt: Halt,
    pub disk: D,
    pub lives: Lives,
}

/// Plays the steps on the disk, in guarded lives or in plain ones. The first life begins before the first step, and the last one
/// ends behind the last step as a program ends.
///
/// At each end of it all that is promised of lives holds of those that there are, on every disk the one that the contracts
/// say of all disks, and on a disk that tells its content all the rest: whatever a crash leaves is allowed at each moment, and
/// each life begins with what a restart finds of the one before.
pub fn play<D: Disk>(
    alloc: Global,
    names: &Names,
    steps: Vec<Step>,
    guarded: bool,
    disk: D,
) -> Played<D>
    requires few { length names.now ≤ 192 }
    requires resources { All (λ name. is_resource name ≡ true) names.now }
    requires known { All (IsStepOf names.now) steps.items }

    // Which lives there are, by how far the steps were taken.
    ensures done { result.halt ≡ Halt.Done → Follows guarded names.now (reverse steps.items) result.lives.lives }
    ensures at_opening { result.halt ≡ Halt.OpenFault → StopsAtOpening guarded names.now steps.items result.lives.lives }
    ensures for_memory { result.halt ≡ Halt.NoMemory → StopsForMemory guarded names.now steps.items result.lives.lives }

    // What holds of them at every end, and of the disk.
    ensures over { AreOver D.picked D.tells (D.past result.disk) (D.time disk) (D.failures disk) (D.time result.disk) (D.failures result.disk) result.lives.lives }
    ensures runs { HasGoneOn D.time D.past D.failures disk result.disk }

    // An opening fails only where the count rose since the last count that a life kept.
    ensures cause { result.halt ≡ Halt.OpenFault → Rose (faults_of (D.failures disk) result.lives.lives) (D.failures result.disk) }
{
    let mut lives = Lives::new(alloc);
    let mut registry = match next_life(alloc, names, guarded, &mut lives, disk) {
        Ok(registry) => registry,
        Err(Stopped { halt, disk }) => return Played { halt, disk, lives },
    };
    for step in steps {
        registry = match take_step(alloc, names, guarded, &mut lives, registry, step) {
            Ok(next) => next,
            Err(Stopped { halt, disk }) => return Played { halt, disk, lives },
        };
    }
    match registry.quit() {
        Ok(_) => Played {
            halt: Halt::Done,
            disk: end_life(&mut lives, registry, Ended::Script),
            lives,
        },
        Err(_) => {
            let Stopped { halt, disk } = cut_off(&mut lives, registry);
            Played { halt, disk, lives }
        }
    }
}
