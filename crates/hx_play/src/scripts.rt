//! A whole script.

ghost use Rattle.std.specs.Prelude.{◌≡◌, reverse};
ghost use Rattle.hx_faults.specs.Faults.{Rose};
ghost use Rattle.hx_report.specs.Traces.{AreWhole};
ghost use Rattle.hx_script.specs.Follows.{Follows, StopsAtOpening, StopsForMemory};
ghost use Rattle.hx_script.specs.Scripts.{IsWellMade};
ghost use Rattle.hx_lives.specs.Calls.{HasGoneOn};
ghost use Rattle.hx_lives.specs.Chained.{faults_of};
ghost use Rattle.hx_play.specs.Played.{ArePlayed};

use crate::lives::Lives;
use crate::planting::{PlantError, plant};
use crate::playing::{Halt, Played, play};
use hx_disk::Disk;
use hx_script::Script;
use std::alloc::Global;

/// Plants the script's slot files, and plays its steps. A script that was read, or made, is well made.
pub fn play_script<D: Disk>(alloc: Global, script: Script, guarded: bool, mut disk: D) -> Played<D>
    requires { IsWellMade script }

    // Which lives there are, by how far the steps were taken.
    ensures done { result.halt ≡ Halt.Done → Follows guarded script.names (reverse script.steps) result.lives.lives }
    ensures at_opening { result.halt ≡ Halt.OpenFault → StopsAtOpening guarded script.names script.steps result.lives.lives }
    ensures for_memory { result.halt ≡ Halt.NoMemory → StopsForMemory guarded script.names script.steps result.lives.lives }

    // What holds of them, and of what was planted before them, at every end. Those of a whole script can be printed.
    ensures played { ArePlayed D.picked D.tells (D.past result.disk) (reverse script.slots) (D.time disk) (D.failures disk) (D.time result.disk) (D.failures result.disk) result.lives.lives }
    ensures whole { result.halt ≡ Halt.Done → AreWhole (reverse result.lives.lives) }
    ensures runs { HasGoneOn D.time D.past D.failures disk result.disk }

    // Planting and opening fail only where the count rose since the last count that a life kept.
    ensures cause { result.halt ≡ Halt.OpenFault → Rose (faults_of (D.failures disk) result.lives.lives) (D.failures result.disk) }
{
    let Script {
        names,
        slots,
        steps,
    } = script;
    match plant(&mut disk, slots.as_slice()) {
        Ok(()) => play(alloc, &names, steps.into_vec(), guarded, disk),
        Err(PlantError::DiskFault) => Played {
            halt: Halt::OpenFault,
            disk,
            lives: Lives::new(alloc),
        },
        Err(PlantError::NoMemory) => Played {
            halt: Halt::NoMemory,
            disk,
            lives: Lives::new(alloc),
        },
    }
}
