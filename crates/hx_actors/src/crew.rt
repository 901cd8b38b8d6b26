//! The pieces of work together.

ghost use Rattle.std.specs.Prelude.{◌≡◌, ◌≤◌, ◌<◌, ◌+◌, ◌++◌, ◌∷◌, [], ℕ, length, IfOk, OnErr, OnOk, vec_len, map, slice_index_or};
ghost use Rattle.hx_passes.specs.Rules.{Each};
ghost use Rattle.hx_actors.specs.Pieces.{Each2, Ends, IsCrew, IsNamed, IsReady, Lends, all_ended, duty, duty_of, job_of, parts_of};

use crate::gate::Gate;
use crate::pieces::Piece;
use crate::tasks::Task;
use hx_disk::Disk;
use hx_events::{Actor, Command};
use hx_hub::{Hub, Naming, Pass};
use std::alloc::{AllocError, Global};
use std::marker::Model;
use std::sync::Wait;
use std::thread;
use std::thread::Threads;

/// The pieces of work, and room for their passes. Contracts see the jobs.
#[derive(Drop)]
pub(crate) struct Crew<J: Naming> {
    pieces: Vec<Piece<J>>,
    passes: Vec<Pass<J>>,
}

impl<J: Naming> Model for Crew<J> {
    ghost use Rattle.std.specs.Prelude.{◌≡◌, ◌≤◌, [], List, vec_len, vec_capacity};
    ghost use Rattle.hx_actors.specs.Pieces.{Job};

    ghost Value = { List Job };

    ghost view = { λ c. c.pieces.items };

    ghost invariant = { λ c. (c.passes.items ≡ []) × (vec_len c.passes ≡ 0) × (vec_len c.pieces ≤ vec_capacity c.passes) };
}

impl<J: Naming> Crew<J> {
    pub(crate) fn new(alloc: Global) -> Crew<J>
        ensures { result ≡ [] }
    {
        Crew {
            pieces: Vec::new(alloc),
            passes: Vec::new(alloc),
        }
    }

    /// Gives each task a pass cut off the first one, as long as there is memory.
    pub(crate) fn man<D: Disk>(
        &mut self,
        hub: &Hub<D, J>,
        first: &mut Pass<J>,
        tasks: Vec<Task>,
    ) -> Result<(), AllocError>
        requires empty { self.old ≡ [] }
        requires parts { vec_len tasks < first.old.parts }
        requires named { Each (λ d. IsNamed (length J.life.names) d.script) tasks.items }
        ensures crew { IsCrew (length J.life.names) tasks.items self.new }
        ensures all { OnOk result (tasks.items ≡ map duty_of self.new) }
        ensures parts { first.new.parts + parts_of self.new ≡ first.old.parts }
        ensures lends { Lends first.old first.new }
    {
        for task in tasks {
            let (actor, script) = task.into_parts();
            self.add(hub, first, actor, script)?;
        }
        Ok(())
    }

    // All memory is had before the part is handed over.
    fn add<D: Disk>(
        &mut self,
        hub: &Hub<D, J>,
        first: &mut Pass<J>,
        actor: Actor,
        script: Vec<Command>,
    ) -> Result<(), AllocError>
        requires part { 1 < first.old.parts }
        ensures ok { OnOk result (self.new ≡ self.old ++ job_of (duty actor script.items) first.old.seen ∷ []) }
        ensures err { OnErr result (self.new ≡ self.old) }
        ensures part { OnOk result (first.new.parts + 1 ≡ first.old.parts) }
        ensures parts { OnErr result (first.new.parts ≡ first.old.parts) }
        ensures lends { Lends first.old first.new }
    {
        self.passes.reserve(self.pieces.len() + 1)?;
        self.pieces.reserve(1)?;
        let pass = hub.split(first, actor, 1)?;
        self.pieces.push_reserved(Piece::new(pass, script));
        Ok(())
    }

    /// Does all the work, each piece on a thread of its own where one can be made, else here. It returns when all have ended.
    pub(crate) fn work<D: Disk + Send, R: Threads + Wait + Sync, G: Gate + Sync>(
        &mut self,
        rt: &R,
        alloc: Global,
        hub: &Hub<D, J>,
        gate: &G,
    )
    where
        J: Send + Sync,
        requires { Each (IsReady (length J.life.names)) self.old }
        ensures { Each2 (Ends J.windows) self.old self.new }
    {
        work_all(rt, alloc, hub, gate, self.pieces.as_mut_slice());
    }

    /// The passes, and whether each piece has ended with nothing left to do. It takes no memory.
    pub(crate) fn finish(self) -> (Vec<Pass<J>>, bool)
        ensures passes { result.0.items ≡ map (λ j. j.pass) self }
        ensures ended { result.1 ≡ all_ended self }
    {
        let Crew { pieces, mut passes } = self;
        let mut ended = true;
        for piece in pieces {
            let (pass, done) = piece.into_parts();
            passes.push_reserved(pass);
            ended = ended && done;
        }
        (passes, ended)
    }
}

fn work_all<D: Disk + Send, J: Naming + Send + Sync, R: Threads + Wait + Sync, G: Gate + Sync>(
    rt: &R,
    alloc: Global,
    hub: &Hub<D, J>,
    gate: &G,
    pieces: &mut [Piece<J>],
)
    requires { (i : ℕ) (d : _) → i < length pieces.old → IsReady (length J.life.names) (slice_index_or pieces.old i d) }
    ensures len { length pieces.new ≡ length pieces.old }
    ensures each { (i : ℕ) (d : _) → i < length pieces.old → Ends J.windows (slice_index_or pieces.old i d) (slice_index_or pieces.new i d) }
{
    if pieces.is_empty() {
        return;
    }
    let count = pieces.len();
    thread::for_each_mut(
        rt,
        pieces,
        count,
        &|_, piece| piece.run(rt, alloc, hub, gate),
    );
}
