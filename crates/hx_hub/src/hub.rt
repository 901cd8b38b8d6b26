//! The shared object.

ghost use Rattle.std.specs.Prelude.{◌≡◌, ◌+◌, ◌<◌, ◌≤◌, ◌∷◌, [], true, length, IfErr, IfOk, IsOk, OnErr, OnOk};
ghost use mathlib.Core.List.{IsPrefix};
ghost use Rattle.hx_events.specs.Texts.{resource_of};
ghost use Rattle.hx_events.specs.declared.event.Actor.TheVariants.{Closer};
ghost use Rattle.hx_events.specs.declared.event.Event.TheVariants.{Act};
ghost use Rattle.hx_lives.specs.Course.{opening, start_of};
ghost use Rattle.hx_passes.specs.Closing.{IsClosed};
ghost use Rattle.hx_passes.specs.Rules.{total};
ghost use Rattle.hx_passes.specs.Views.{fresh, gives, sees};
ghost use Rattle.hx_rules.specs.Entries.{past};
ghost use Rattle.hx_rules.specs.Legal.{is_legal};
ghost use Rattle.hx_hub.specs.Calls.{Leaves, Makes, StagedAs};
ghost use Rattle.hx_hub.specs.Shared.{HasGoneOnSince, says_of, so_far};

use crate::naming::{Named, Naming, Pass};
use crate::office::Office;
use hx_disk::Disk;
use hx_events::{Actor, Command, Outcome};
use hx_passes::{Kind, Opened, Passes};
use hx_registry::Registry;
use std::alloc::{AllocError, Global};
use std::marker::Model;
use std::sync::{Mutex, Wait};

/// An entry that a call made: its place in the history, from 1, and what it came to.
#[derive(Clone, Copy, Debug, PartialEq, Eq)]
pub struct Acted {
    pub place: u64,
    pub outcome: Outcome,
}

/// What asking for a stage came to.
#[derive(Clone, Copy, Debug, PartialEq, Eq)]
pub enum Staged {
    /// The stage that was due was done.
    Did(Acted),

    /// None was due, and some window hadn't left.
    Rest,

    /// None was due, and all windows had left.
    Over,
}

/// A hub that has no name yet: the words for its passes, and the registry.
pub struct Founded<D: Disk> {
    opened: Opened,
    registry: Registry<D>,
}

impl<D: Disk> Model for Founded<D> {
    ghost use Rattle.std.specs.Prelude.{◌≡◌};
    ghost use Rattle.hx_rules.specs.Entries.{past};
    ghost use Rattle.hx_hub.specs.Shared.{Foundation};

    ghost Value = { Foundation D };

    ghost view = { λ f. record { table = f.opened.table; registry = f.registry; windows = f.opened.windows; parts = f.opened.parts } };

    ghost invariant = { λ f. f.opened.before ≡ past f.registry.course.entries };
}

impl<D: Disk> Founded<D> {
    /// Makes a hub over a registry. So many windows are to leave it, and its passes have so many parts together.
    ///
    /// # Errors
    ///
    /// Want of memory, which hands the registry back.
    pub fn new(
        alloc: Global,
        registry: Registry<D>,
        windows: u32,
        parts: u64,
    ) -> Result<Founded<D>, Registry<D>>
        requires { 1 ≤ parts }
        ensures registry { IfOk result (λ f. f.registry ≡ registry) }
        ensures counts { IfOk result (λ f. (f.windows ≡ windows) × (f.parts ≡ parts)) }
        ensures err { IfErr result (λ back. back ≡ registry) }
    {
        match Opened::new(alloc, registry.history(), u64::from(windows), parts) {
            Ok(opened) => Ok(Founded { opened, registry }),
            Err(_) => Err(registry),
        }
    }

    /// The hub under a name, and its first pass, which is the Closer's, has seen what is there and has all parts.
    pub fn named<J: Naming>(self) -> (Hub<D, J>, Pass<J>)
        requires table { self.table ≡ J.table }
        requires life { self.registry.course ≡ J.life }
        requires disk { so_far D.time D.past D.failures self.registry.disk ≡ J.disk }
        requires windows { self.windows ≡ J.windows }
        requires parts { self.parts ≡ J.parts }
        ensures { result.1 ≡ fresh Closer (past J.life.entries) J.parts }
    {
        let Founded { opened, registry } = self;
        let (passes, clerk, first) = opened.named::<Named<J>>(Actor::Closer);
        let office = Mutex::new(Office::new(registry, clerk));
        (Hub { passes, office }, first)
    }
}

/// A registry under a lock, and what its passes share. Whoever may wait for the lock takes `rt`.
pub struct Hub<D: Disk, J: Naming> {
    passes: Passes<Named<J>>,
    office: Mutex<Office<D, J>>,
}

impl<D: Disk, J: Naming> Hub<D, J> {
    /// Cuts a pass with so many parts off a pass. It has seen what that one has, has made no call and no note, and hasn't
    /// left. It waits for nobody, and takes no memory.
    pub fn split(&self, pass: &mut Pass<J>, actor: Actor, parts: u64) -> Result<Pass<J>, AllocError>
        requires some { 1 ≤ parts }
        requires fewer { parts < pass.old.parts }
        ensures ok { IsOk result }
        ensures new { IfOk result (λ p. p ≡ fresh actor pass.old.seen parts) }
        ensures gives { pass.new ≡ gives parts pass.old }
    {
        Ok(self.passes.split(pass, actor, parts))
    }

    /// Makes one event of the command, by the pass's actor, and answers its place and outcome. It may wait for the lock.
    ///
    /// # Errors
    ///
    /// Want of memory, for which there is no event, and the pass stays as it was.
    pub fn act<R: Wait>(
        &self,
        rt: &R,
        pass: &mut Pass<J>,
        command: Command,
    ) -> Result<Acted, AllocError>
        requires { resource_of command < length J.life.names }
        ensures makes { IfOk result (λ acted. Makes (opening J.life) (Act command) acted.place acted.outcome pass.old pass.new) }
        ensures err { OnErr result (pass.new ≡ pass.old) }
    {
        self.office.lock(rt).act(&self.passes, pass, command)
    }

    /// Does the stage of this kind that is due, of the lowest resource that has one, as one event by the pass's actor. Where
    /// none is due there is no event: the pass notes that, and whether all windows had left. It may wait for the lock.
    ///
    /// # Errors
    ///
    /// Want of memory, for which there is no event, and the pass stays as it was.
    pub fn stage<R: Wait>(
        &self,
        rt: &R,
        pass: &mut Pass<J>,
        kind: Kind,
    ) -> Result<Staged, AllocError>
        ensures staged { IfOk result (λ staged. StagedAs (opening J.life) J.windows kind staged pass.old pass.new) }
        ensures err { OnErr result (pass.new ≡ pass.old) }
    {
        self.office.lock(rt).stage(&self.passes, pass, kind)
    }

    /// Says that the pass's window has ended. Each window does so once. It may wait for the lock, and takes no memory.
    pub fn leave<R: Wait>(&self, rt: &R, pass: &mut Pass<J>) -> Result<(), AllocError>
        requires { pass.old.leaves ≡ [] }
        ensures ok { IsOk result }
        ensures left { Leaves pass.old pass.new }
    {
        self.office.lock(rt).leave(&self.passes, pass);
        Ok(())
    }

    /// Answers how many entries the history has, as many as the pass had seen or more. It is one load, waits for nobody, and
    /// takes no memory.
    pub fn front(&self, pass: &mut Pass<J>) -> u64
        ensures length { result ≡ length pass.new.seen }
        ensures seen { IsPrefix pass.old.seen pass.new.seen }
        ensures pass { pass.new ≡ sees pass.new.seen pass.old }
    {
        self.passes.front(pass)
    }

    /// Ends the hub, and hands the registry out. The passes have all the parts together, so they are all that there are.
    pub fn close(self, first: Pass<J>, others: Vec<Pass<J>>) -> Registry<D>
        requires { first.parts + total (λ p. p.parts) others.items ≡ J.parts }
        ensures closed { IsClosed (past J.life.entries) J.windows (says_of (start_of J.life)) (past result.course.entries) (first ∷ others.items) }
        ensures legal { is_legal (opening result.course) result.course.entries ≡ true }
        ensures start { start_of result.course ≡ start_of J.life }
        ensures runs { HasGoneOnSince J.disk (so_far D.time D.past D.failures result.disk) }
    {
        let Hub { passes, office } = self;
        office.into_inner().close(passes, first, others)
    }
}
