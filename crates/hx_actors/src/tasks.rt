//! Who is to work, and in which order.

ghost use Rattle.std.specs.Prelude.{◌≡◌, ◌≤◌, ◌+◌, ◌*◌, ◌++◌, IfOk, length, vec_len, map, reverse};
ghost use Rattle.hx_actors.specs.Work.{fulls};
ghost use Rattle.hx_actors.specs.Pieces.{all_duties, duty, worker_of, workers_below};

use hx_events::{Actor, Command};
use hx_passes::Kind;
use std::alloc::{AllocError, Global};
use std::marker::Model;

/// Who is to work, and with which commands. Contracts see the duty.
#[derive(Drop)]
pub(crate) struct Task {
    actor: Actor,
    script: Vec<Command>,
}

impl Model for Task {
    ghost use Rattle.hx_actors.specs.Pieces.{Duty, duty};

    ghost Value = { Duty };

    ghost view = { λ t. duty t.actor t.script.items };
}

impl Task {
    fn new(actor: Actor, script: Vec<Command>) -> Task
        ensures { result ≡ duty actor script.items }
    {
        Task { actor, script }
    }

    /// Who works, and with which commands.
    pub(crate) fn into_parts(self) -> (Actor, Vec<Command>)
        ensures { self ≡ duty result.0 result.1.items }
    {
        let Task { actor, script } = self;
        (actor, script)
    }
}

/// How many of these windows have commands. The hub that `run_all` is given is to be told so many.
pub fn windows_at_work(scripts: &[Vec<Command>]) -> u32
    requires { length scripts.now ≤ 8 }
    ensures { result ≡ fulls (map (λ s. s.items) scripts.now) }
{
    let mut count = 0;
    for script in scripts {
        if !script.is_empty() {
            count += 1;
        }
    }
    count
}

/// The windows that have commands, the writers and the savers, the last of them first. Threads are made for one half of a
/// list after the other, and where none can be made the first half waits for the second. So the windows stand last: else a
/// worker could wait for the end of windows that are to begin after it.
pub(crate) fn tasks(
    alloc: Global,
    scripts: Vec<Vec<Command>>,
    workers: u32,
) -> Result<Vec<Task>, AllocError>
    requires few { (vec_len scripts ≤ 8) × (workers ≤ 4) }
    ensures duties { IfOk result (λ v. v.items ≡ reverse (all_duties (map (λ s. s.items) scripts.items) workers)) }
    ensures few { IfOk result (λ v. vec_len v ≤ vec_len scripts + 2 * workers) }
{
    let mut tasks = Vec::new(alloc);
    let mut number = 0u8;
    for script in scripts {
        if !script.is_empty() {
            tasks.push(Task::new(Actor::Window(number), script))?;
        }
        number += 1;
    }
    add_workers(alloc, &mut tasks, Kind::Vault, workers)?;
    add_workers(alloc, &mut tasks, Kind::Save, workers)?;
    tasks.reverse();
    Ok(tasks)
}

fn add_workers(
    alloc: Global,
    tasks: &mut Vec<Task>,
    kind: Kind,
    workers: u32,
) -> Result<(), AllocError>
    requires { workers ≤ 4 }
    ensures duties { IfOk result (λ _. tasks.new.items ≡ tasks.old.items ++ workers_below kind workers) }
    ensures few { IfOk result (λ _. vec_len tasks.new ≡ vec_len tasks.old + workers) }
{
    for number in 0..workers as u8 {
        tasks.push(Task::new(worker(kind, number), Vec::new(alloc)))?;
    }
    Ok(())
}

/// The worker with this number that does the stages of this kind.
fn worker(kind: Kind, number: u8) -> Actor
    ensures { result ≡ worker_of kind number }
{
    match kind {
        Kind::Vault => Actor::Writer(number),
        Kind::Save => Actor::Saver(number),
    }
}
