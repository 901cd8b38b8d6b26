//! The opening of a vault for the next life.

ghost use Rattle.std.specs.Prelude.{◌≡◌, ◌≢◌, ◌≤◌, ◌<◌, ℕ, IsTrue, true, IfOk, IfErr, OnOk, Err, List, All, length};
ghost use Rattle.hx_faults.specs.Faults.{Rose};
ghost use Rattle.hx_events.specs.Resources.{is_resource};
ghost use Rattle.hx_script.specs.declared.script.Step.{Step};
ghost use Rattle.hx_lives.specs.Calls.{Begins, HandsBack, HasGoneOn};
ghost use Rattle.hx_lives.specs.Chained.{OnlySyncs};
ghost use Rattle.hx_play.specs.Running.{IsBetween, IsRunning};

use crate::endings::Stopped;
use crate::lives::Lives;
use crate::playing::Halt;
use hx_disk::Disk;
use hx_events::Names;
use hx_registry::{BeginError, Registry};
use std::alloc::Global;

/// Begins a guarded life or a plain one.
fn begin<D: Disk>(
    alloc: Global,
    names: &Names,
    guarded: bool,
    disk: D,
) -> Result<Registry<D>, BeginError<D>>
    requires few { length names.now ≤ 192 }
    requires resources { All (λ name. is_resource name ≡ true) names.now }
    ensures begins { IfOk result (λ r. Begins D.time D.failures guarded names.now disk r) }
    ensures runs { IfOk result (λ r. HasGoneOn D.time D.past D.failures disk r.disk) }
    ensures syncs { IsTrue D.tells → IfOk result (λ r. OnlySyncs (D.past r.disk) (D.time disk) (D.time r.disk)) }
    ensures open_fault { (back : D) → result ≡ Err (BeginError.OpenFault back) → HandsBack D.tells D.time D.past D.failures disk back }
    ensures no_memory { (back : D) → result ≡ Err (BeginError.NoMemory back) → HandsBack D.tells D.time D.past D.failures disk back }
    ensures cause { (back : D) → result ≡ Err (BeginError.OpenFault back) → Rose (D.failures disk) (D.failures back) }
{
    if guarded {
        Registry::begin_guarded(alloc, disk, names)
    } else {
        Registry::begin(alloc, disk, names)
    }
}

/// Opens the vault for the next life. The room for it is made first, so that its end needs no memory.
pub fn next_life<D: Disk>(
    alloc: Global,
    names: &Names,
    guarded: bool,
    lives: &mut Lives,
    disk: D,
) -> Result<Registry<D>, Stopped<D>>
    requires few { length names.now ≤ 192 }
    requires resources { All (λ name. is_resource name ≡ true) names.now }
    ensures lives { lives.new.lives ≡ lives.old.lives }
    ensures room { OnOk result (0 < lives.new.room) }
    ensures named { IfOk result (λ r. length names.now ≤ length r.course.names) }
    ensures begins { (moment faults : ℕ) (taken : List Step) → IsBetween D.picked D.tells D.time D.past D.failures guarded names.now moment faults taken lives.old.lives disk → IfOk result (λ r. IsRunning D.picked D.tells D.time D.past guarded names.now moment faults taken lives.old.lives r) }
    ensures stops { (moment faults : ℕ) (taken : List Step) → IsBetween D.picked D.tells D.time D.past D.failures guarded names.now moment faults taken lives.old.lives disk → IfErr result (λ s. IsBetween D.picked D.tells D.time D.past D.failures guarded names.now moment faults taken lives.old.lives s.disk) }
    ensures cause { IfErr result (λ s. s.halt ≡ Halt.OpenFault → Rose (D.failures disk) (D.failures s.disk)) }
    ensures halts { IfErr result (λ s. s.halt ≢ Halt.Done) }
    ensures runs { IfOk result (λ r. HasGoneOn D.time D.past D.failures disk r.disk) }
    ensures runs_err { IfErr result (λ s. HasGoneOn D.time D.past D.failures disk s.disk) }
{
    let Ok(()) = lives.reserve() else {
        return Err(Stopped {
            halt: Halt::NoMemory,
            disk,
        });
    };
    match begin(alloc, names, guarded, disk) {
        Ok(registry) => Ok(registry),
        Err(BeginError::OpenFault(disk)) => Err(Stopped {
            halt: Halt::OpenFault,
            disk,
        }),
        Err(BeginError::NoMemory(disk)) => Err(Stopped {
            halt: Halt::NoMemory,
            disk,
        }),
    }
}
