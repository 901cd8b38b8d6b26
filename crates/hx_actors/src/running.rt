//! All windows, writers and savers of a hub, from their beginning to the hub's end.

ghost use Rattle.std.specs.Prelude.{◌≡◌, ◌≤◌, ◌<◌, ◌+◌, ◌*◌, [], All, OnOk, false, true, length, vec_len, map, reverse};
ghost use Rattle.hx_events.specs.declared.event.Actor.TheVariants.{Closer};
ghost use Rattle.hx_lives.specs.Course.{opening, start_of};
ghost use Rattle.hx_passes.specs.Views.{fresh};
ghost use Rattle.hx_rules.specs.Interleavings.{IsWorkOf};
ghost use Rattle.hx_rules.specs.Legal.{is_legal};
ghost use Rattle.hx_hub.specs.Shared.{HasGoneOnSince, so_far};
ghost use Rattle.hx_actors.specs.Work.{IsPartOf, fulls};
ghost use Rattle.hx_actors.specs.Pieces.{IsCrew, IsNamed, Lends, all_duties, duty_of, parts_of};

use crate::crew::Crew;
use crate::gate::Gate;
use crate::tasks::tasks;
use hx_disk::Disk;
use hx_events::Command;
use hx_hub::{Hub, Naming, Pass};
use hx_registry::Registry;
use std::alloc::{AllocError, Global};
use std::sync::Wait;
use std::thread::Threads;

/// As many parts as the pieces of work and the Closer can want.
pub const PARTS: u64 = 17;

/// Lets windows make their commands, and so many writers and as many savers do the stages that come due, until none is left.
/// Then it ends the hub and hands the registry out. `scripts[k]` is window k's; a window without commands isn't started.
///
/// Each piece of work has a thread of its own where one can be made, and all are joined. A window asks the gate before each
/// command, and leaves behind its last one. A writer or a saver works until nothing is due and all windows have left. The hub
/// is made over a registry without entries, and `pass` is its first.
///
/// # Errors
///
/// Want of memory, for which a window leaves at once and a worker ends, while all others go on. The registry comes back then
/// too, with the first commands of each window.
pub fn run_all<D: Disk + Send, J: Naming + Send + Sync, R: Threads + Wait + Sync, G: Gate + Sync>(
    rt: &R,
    alloc: Global,
    hub: Hub<D, J>,
    mut pass: Pass<J>,
    scripts: Vec<Vec<Command>>,
    workers: u32,
    gate: &G,
) -> (Registry<D>, Result<(), AllocError>)
    requires lists { vec_len scripts ≤ 8 }
    requires workers { (1 ≤ workers) × (workers ≤ 4) }
    requires named { All (IsNamed (length J.life.names)) (map (λ s. s.items) scripts.items) }
    requires windows { J.windows ≡ fulls (map (λ s. s.items) scripts.items) }
    requires parts { vec_len scripts + 2 * workers < J.parts }
    requires empty { J.life.entries ≡ [] }
    requires first { pass ≡ fresh Closer [] J.parts }
    ensures part { IsPartOf false (map (λ s. s.items) scripts.items) result.0.course.entries }
    ensures work { OnOk result.1 (IsWorkOf (opening J.life) false (map (λ s. s.items) scripts.items) result.0.course.entries) }
    ensures legal { is_legal (opening result.0.course) result.0.course.entries ≡ true }
    ensures start { start_of result.0.course ≡ start_of J.life }
    ensures runs { HasGoneOnSince J.disk (so_far D.time D.past D.failures result.0.disk) }
{
    let (mut crew, manned) = crew_of(alloc, &hub, &mut pass, scripts, workers);
    if manned.is_err() {
        let (passes, _) = crew.finish();
        return (hub.close(pass, passes), Err(AllocError));
    }
    crew.work(rt, alloc, &hub, gate);
    let (passes, ended) = crew.finish();
    let registry = hub.close(pass, passes);
    if ended {
        (registry, Ok(()))
    } else {
        (registry, Err(AllocError))
    }
}

/// The pieces of work with their passes, as far as there is memory.
fn crew_of<D: Disk, J: Naming>(
    alloc: Global,
    hub: &Hub<D, J>,
    pass: &mut Pass<J>,
    scripts: Vec<Vec<Command>>,
    workers: u32,
) -> (Crew<J>, Result<(), AllocError>)
    requires lists { vec_len scripts ≤ 8 }
    requires workers { workers ≤ 4 }
    requires named { All (IsNamed (length J.life.names)) (map (λ s. s.items) scripts.items) }
    requires parts { vec_len scripts + 2 * workers < pass.old.parts }
    ensures crew { IsCrew (length J.life.names) (reverse (all_duties (map (λ s. s.items) scripts.items) workers)) result.0 }
    ensures all { OnOk result.1 (reverse (all_duties (map (λ s. s.items) scripts.items) workers) ≡ map duty_of result.0) }
    ensures parts { pass.new.parts + parts_of result.0 ≡ pass.old.parts }
    ensures lends { Lends pass.old pass.new }
{
    let mut crew = Crew::new(alloc);
    let Ok(tasks) = tasks(alloc, scripts, workers) else {
        return (crew, Err(AllocError));
    };
    let manned = crew.man(hub, pass, tasks);
    (crew, manned)
}
