//! The pieces of work: a window's commands, and a worker's stages.

ghost use Rattle.std.specs.Prelude.{◌≡◌, true, false, length, IfOk};
ghost use Rattle.hx_rules.specs.Interleavings.{is_some_window};
ghost use Rattle.hx_actors.specs.Work.{EndsOver, IsInOrder, events};
ghost use Rattle.hx_actors.specs.Pieces.{Ends, IsDone, IsNamed, IsReady, IsSoundBy, IsThroughBy, IsUnused, Keeps, events_in, works};

use crate::gate::Gate;
use hx_disk::Disk;
use hx_events::{Actor, Command};
use hx_hub::{Hub, Kind, Naming, Pass, Staged};
use std::alloc::{AllocError, Global};
use std::marker::Model;
use std::sync::Wait;
use std::{mem, thread};

/// A piece of work: a pass, and a window's commands. Contracts see the job.
#[derive(Drop)]
pub(crate) struct Piece<J: Naming> {
    pass: Pass<J>,
    script: Vec<Command>,
    ended: bool,
}

impl<J: Naming> Model for Piece<J> {
    ghost use Rattle.hx_actors.specs.Pieces.{Job};

    ghost Value = { Job };

    ghost view = { λ p. record { pass = p.pass; script = p.script.items; ended = p.ended } };
}

impl<J: Naming> Piece<J> {
    pub(crate) fn new(pass: Pass<J>, script: Vec<Command>) -> Piece<J>
        ensures { result ≡ record { pass = pass; script = script.items; ended = false } }
    {
        Piece {
            pass,
            script,
            ended: false,
        }
    }

    /// Does the work. It waits for the hub's lock, and a worker for the windows.
    pub(crate) fn run<D: Disk, R: Wait, G: Gate>(
        &mut self,
        rt: &R,
        alloc: Global,
        hub: &Hub<D, J>,
        gate: &G,
    )
        requires { IsReady (length J.life.names) self.old }
        ensures { Ends J.windows self.old self.new }
    {
        let script = mem::replace(&mut self.script, Vec::new(alloc));
        self.ended = work(rt, hub, gate, &mut self.pass, script).is_ok();
    }

    /// The pass, and whether the work has ended with nothing left to do.
    pub(crate) fn into_parts(self) -> (Pass<J>, bool)
        ensures { (result.0 ≡ self.pass) × (result.1 ≡ self.ended) }
    {
        let Piece {
            pass,
            script: _,
            ended,
        } = self;
        (pass, ended)
    }
}

/// The work of a pass, by its actor.
fn work<D: Disk, J: Naming, R: Wait, G: Gate>(
    rt: &R,
    hub: &Hub<D, J>,
    gate: &G,
    pass: &mut Pass<J>,
    script: Vec<Command>,
) -> Result<(), AllocError>
    requires unused { IsUnused pass.old }
    requires named { IsNamed (length J.life.names) script.items }
    ensures actor { pass.new.actor ≡ pass.old.actor }
    ensures parts { pass.new.parts ≡ pass.old.parts }
    ensures sound { IsSoundBy script.items pass.new }
    ensures done { IsDone pass.new }
    ensures through { IfOk result (λ _. IsThroughBy J.windows script.items pass.new) }
{
    match pass.actor() {
        Actor::Window(number) => window(rt, hub, gate, number, pass, script),
        Actor::Writer(_) => worker(rt, hub, gate, pass, Kind::Vault),
        Actor::Saver(_) => worker(rt, hub, gate, pass, Kind::Save),
        Actor::Closer | Actor::Watcher => Ok(()),
    }
}

/// A window's work: its commands, and its leaving. Where memory runs out it leaves at once.
fn window<D: Disk, J: Naming, R: Wait, G: Gate>(
    rt: &R,
    hub: &Hub<D, J>,
    gate: &G,
    number: u8,
    pass: &mut Pass<J>,
    script: Vec<Command>,
) -> Result<(), AllocError>
    requires unused { IsUnused pass.old }
    requires window { is_some_window pass.old.actor ≡ true }
    requires named { IsNamed (length J.life.names) script.items }
    ensures actor { pass.new.actor ≡ pass.old.actor }
    ensures parts { pass.new.parts ≡ pass.old.parts }
    ensures sound { IsSoundBy script.items pass.new }
    ensures done { IsDone pass.new }
    ensures through { IfOk result (λ _. IsThroughBy J.windows script.items pass.new) }
{
    let made = commands(rt, hub, gate, number, pass, script);
    let Ok(()) = hub.leave(rt, pass) else {
        unreachable!()
    };
    made
}

/// Makes a window's commands, each behind the gate.
fn commands<D: Disk, J: Naming, R: Wait, G: Gate>(
    rt: &R,
    hub: &Hub<D, J>,
    gate: &G,
    window: u8,
    pass: &mut Pass<J>,
    script: Vec<Command>,
) -> Result<(), AllocError>
    requires unused { IsUnused pass.old }
    requires window { is_some_window pass.old.actor ≡ true }
    requires named { IsNamed (length J.life.names) script.items }
    ensures keeps { Keeps pass.old pass.new }
    ensures sound { IsSoundBy script.items pass.new }
    ensures made { IfOk result (λ _. events pass.new.calls ≡ events_in script.items) }
{
    let mut number = 0u64;
    for command in script {
        gate.before(u32::from(window), number);
        hub.act(rt, pass, command)?;
        number += 1;
    }
    Ok(())
}

/// A worker's work.
fn worker<D: Disk, J: Naming, R: Wait, G: Gate>(
    rt: &R,
    hub: &Hub<D, J>,
    gate: &G,
    pass: &mut Pass<J>,
    kind: Kind,
) -> Result<(), AllocError>
    requires unused { IsUnused pass.old }
    requires works { works kind pass.old.actor ≡ true }
    ensures actor { pass.new.actor ≡ pass.old.actor }
    ensures parts { pass.new.parts ≡ pass.old.parts }
    ensures sound { (script : _) → IsSoundBy script pass.new }
    ensures done { IsDone pass.new }
    ensures through { IfOk result (λ _. (script : _) → IsThroughBy J.windows script pass.new) }
{
    stages(rt, hub, gate, pass, kind)
}

/// Does stages of a kind until none can come. While it finds none and windows are still at work, it lets others go on.
fn stages<D: Disk, J: Naming, R: Wait, G: Gate>(
    rt: &R,
    hub: &Hub<D, J>,
    gate: &G,
    pass: &mut Pass<J>,
    kind: Kind,
) -> Result<(), AllocError>
    requires unused { IsUnused pass.old }
    requires works { works kind pass.old.actor ≡ true }
    ensures keeps { Keeps pass.old pass.new }
    ensures order { IsInOrder pass.new }
    ensures over { IfOk result (λ _. EndsOver J.windows kind pass.new.notes) }
{
    for _ in rt.forever() {
        match hub.stage(rt, pass, kind)? {
            Staged::Did(_) => gate.staged(pass.actor()),
            Staged::Rest => thread::yield_now(),
            Staged::Over => return Ok(()),
        }
    }
    unreachable!()
}
