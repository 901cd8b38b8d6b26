//! A whole run: windows, writers and savers at once.

ghost use Rattle.std.specs.Prelude.{◌≡◌, ◌≤◌, [], All, List, OnOk, false, length, map, reverse, true, vec_len};
ghost use Rattle.hx_faults.specs.Faults.{Rose};
ghost use Rattle.hx_events.specs.declared.event.Command.{Command};
ghost use Rattle.hx_events.specs.Resources.{is_resource};
ghost use Rattle.hx_report.specs.Traces.{AreWhole};
ghost use Rattle.hx_rules.specs.Interleavings.{IsWorkOf};
ghost use Rattle.hx_script.specs.Scripts.{IsStepOf, IsWellMade};
ghost use Rattle.hx_script.specs.declared.script.Step.{Step};
ghost use Rattle.hx_lives.specs.Calls.{HasGoneOn};
ghost use Rattle.hx_lives.specs.Chained.{faults_of};
ghost use Rattle.hx_lives.specs.Course.{opening, start_of};
ghost use Rattle.hx_hub.specs.Shared.{HasGoneOnSince, so_far};
ghost use Rattle.hx_actors.specs.Pieces.{IsNamed};
ghost use Rattle.hx_actors.specs.Work.{IsPartOf, fulls};
ghost use Rattle.hx_play.specs.Over.{AreOver};
ghost use Rattle.hx_play.specs.Played.{ArePlayed};
ghost use Rattle.hx_play.specs.Runs.{HaveRun, HaveRunInPart, scripts_of};

use crate::endings::{Stopped, end_life};
use crate::lives::Lives;
use crate::openings::next_life;
use crate::planting::{PlantError, plant};
use crate::playing::{Halt, Played};
use crate::steps::cut_off;
use crate::windows::scripts_of;
use hx_actors::{Gate, PARTS, run_all, windows_at_work};
use hx_disk::Disk;
use hx_events::{Command, Ended, Names};
use hx_hub::{Founded, Naming};
use hx_registry::Registry;
use hx_script::Script;
use std::alloc::{AllocError, Global};
use std::marker::Brand;
use std::sync::Wait;
use std::thread::Threads;

/// Plants the script's slot files, and lets its windows make their commands in one life, guarded or not, each on a thread of its own
/// where one can be made, with so many writers and as many savers beside them. Behind all of them the life ends as a program ends. A
/// script that was read is well made.
///
/// It may wait for threads, so what is said of it holds if it returns.
pub fn run_script<R: Threads + Wait + Sync, D: Disk + Send, G: Gate + Sync>(
    rt: &R,
    alloc: Global,
    script: Script,
    workers: u32,
    guarded: bool,
    mut disk: D,
    gate: &G,
) -> Played<D>
    requires well_made { IsWellMade script }
    requires workers { (1 ≤ workers) × (workers ≤ 4) }

    // Which lives there are, by how far the run came.
    ensures done { result.halt ≡ Halt.Done → HaveRun guarded script.names script.steps result.lives.lives }
    ensures at_opening { result.halt ≡ Halt.OpenFault → result.lives.lives ≡ [] }
    ensures for_memory { result.halt ≡ Halt.NoMemory → HaveRunInPart guarded script.names script.steps result.lives.lives }

    // What holds of them, and of what was planted before them, at every end. Those of a whole run can be printed.
    ensures played { ArePlayed D.picked D.tells (D.past result.disk) (reverse script.slots) (D.time disk) (D.failures disk) (D.time result.disk) (D.failures result.disk) result.lives.lives }
    ensures whole { result.halt ≡ Halt.Done → AreWhole (reverse result.lives.lives) }
    ensures runs { HasGoneOn D.time D.past D.failures disk result.disk }

    // Planting and opening fail only where the count rose since the last count that a life kept.
    ensures cause { result.halt ≡ Halt.OpenFault → Rose (faults_of (D.failures disk) result.lives.lives) (D.failures result.disk) }
{
    let Script {
        names,
        slots,
        steps,
    } = script;
    let Ok(scripts) = scripts_of(alloc, steps.into_vec()) else {
        return Played {
            halt: Halt::NoMemory,
            disk,
            lives: Lives::new(alloc),
        };
    };
    match plant(&mut disk, slots.as_slice()) {
        Ok(()) => run(rt, alloc, &names, scripts, workers, guarded, disk, gate),
        Err(PlantError::DiskFault) => Played {
            halt: Halt::OpenFault,
            disk,
            lives: Lives::new(alloc),
        },
        Err(PlantError::NoMemory) => Played {
            halt: Halt::NoMemory,
            disk,
            lives: Lives::new(alloc),
        },
    }
}

/// Leads one life, in which each window makes its commands.
fn run<R: Threads + Wait + Sync, D: Disk + Send, G: Gate + Sync>(
    rt: &R,
    alloc: Global,
    names: &Names,
    scripts: Vec<Vec<Command>>,
    workers: u32,
    guarded: bool,
    disk: D,
    gate: &G,
) -> Played<D>
    requires few { length names.now ≤ 192 }
    requires resources { All (λ name. is_resource name ≡ true) names.now }
    requires lists { vec_len scripts ≡ 8 }
    requires workers { (1 ≤ workers) × (workers ≤ 4) }
    requires named { All (IsNamed (length names.now)) (map (λ s. s.items) scripts.items) }
    ensures done { result.halt ≡ Halt.Done → (steps : List Step) → map (λ s. s.items) scripts.items ≡ scripts_of steps → HaveRun guarded names.now steps result.lives.lives }
    ensures at_opening { result.halt ≡ Halt.OpenFault → result.lives.lives ≡ [] }
    ensures for_memory { result.halt ≡ Halt.NoMemory → (steps : List Step) → map (λ s. s.items) scripts.items ≡ scripts_of steps → HaveRunInPart guarded names.now steps result.lives.lives }
    ensures over { AreOver D.picked D.tells (D.past result.disk) (D.time disk) (D.failures disk) (D.time result.disk) (D.failures result.disk) result.lives.lives }
    ensures runs { HasGoneOn D.time D.past D.failures disk result.disk }
    ensures cause { result.halt ≡ Halt.OpenFault → Rose (faults_of (D.failures disk) result.lives.lives) (D.failures result.disk) }
{
    let mut lives = Lives::new(alloc);
    let registry = match next_life(alloc, names, guarded, &mut lives, disk) {
        Ok(registry) => registry,
        Err(Stopped { halt, disk }) => return Played { halt, disk, lives },
    };
    let (mut registry, worked) = work(rt, alloc, registry, scripts, workers, gate);
    if worked.is_err() {
        let Stopped { halt, disk } = cut_off(&mut lives, registry);
        return Played { halt, disk, lives };
    }
    match registry.quit() {
        Ok(_) => Played {
            halt: Halt::Done,
            disk: end_life(&mut lives, registry, Ended::Script),
            lives,
        },
        Err(_) => {
            let Stopped { halt, disk } = cut_off(&mut lives, registry);
            Played { halt, disk, lives }
        }
    }
}

/// All work of a life that has just begun but its end.
fn work<R: Threads + Wait + Sync, D: Disk + Send, G: Gate + Sync>(
    rt: &R,
    alloc: Global,
    registry: Registry<D>,
    scripts: Vec<Vec<Command>>,
    workers: u32,
    gate: &G,
) -> (Registry<D>, Result<(), AllocError>)
    requires lists { vec_len scripts ≡ 8 }
    requires workers { (1 ≤ workers) × (workers ≤ 4) }
    requires named { All (IsNamed (length registry.course.names)) (map (λ s. s.items) scripts.items) }
    requires empty { registry.course.entries ≡ [] }
    ensures part { IsPartOf false (map (λ s. s.items) scripts.items) result.0.course.entries }
    ensures work { OnOk result.1 (IsWorkOf (opening registry.course) false (map (λ s. s.items) scripts.items) result.0.course.entries) }
    ensures start { start_of result.0.course ≡ start_of registry.course }
    ensures runs { HasGoneOn D.time D.past D.failures registry.disk result.0.disk }
{
    let windows = windows_at_work(&scripts);
    match Founded::new(alloc, registry, windows, PARTS) {
        Ok(founded) => work_under_name::<R, D, G, Brand>(
            rt, alloc, founded, scripts, workers, gate,
        ),
        Err(registry) => (registry, Err(AllocError)),
    }
}

/// The work under the hub's name.
fn work_under_name<
    R: Threads + Wait + Sync,
    D: Disk + Send,
    G: Gate + Sync,
    J: Naming + Send + Sync,
>(
    rt: &R,
    alloc: Global,
    founded: Founded<D>,
    scripts: Vec<Vec<Command>>,
    workers: u32,
    gate: &G,
) -> (Registry<D>, Result<(), AllocError>)
    requires table { founded.table ≡ J.table }
    requires life { founded.registry.course ≡ J.life }
    requires disk { so_far D.time D.past D.failures founded.registry.disk ≡ J.disk }
    requires windows { (founded.windows ≡ J.windows) × (J.windows ≡ fulls (map (λ s. s.items) scripts.items)) }
    requires parts { (founded.parts ≡ J.parts) × (J.parts ≡ 17) }
    requires lists { vec_len scripts ≡ 8 }
    requires workers { (1 ≤ workers) × (workers ≤ 4) }
    requires named { All (IsNamed (length J.life.names)) (map (λ s. s.items) scripts.items) }
    requires empty { J.life.entries ≡ [] }
    ensures part { IsPartOf false (map (λ s. s.items) scripts.items) result.0.course.entries }
    ensures work { OnOk result.1 (IsWorkOf (opening J.life) false (map (λ s. s.items) scripts.items) result.0.course.entries) }
    ensures start { start_of result.0.course ≡ start_of J.life }
    ensures runs { HasGoneOnSince J.disk (so_far D.time D.past D.failures result.0.disk) }
{
    let (hub, closer) = founded.named::<J>();
    run_all(rt, alloc, hub, closer, scripts, workers, gate)
}
