//! What lies under the lock.

ghost use Rattle.std.specs.Prelude.{◌≡◌, ◌<◌, ◌+◌, ◌∷◌, ◌^◌, [], true, List, Some, None, IfOk, OnErr, length};
ghost use Rattle.hx_events.specs.Texts.{resource_of};
ghost use Rattle.hx_events.specs.declared.event.Event.TheVariants.{Act};
ghost use Rattle.hx_events.specs.declared.life.Entry.{Entry};
ghost use Rattle.hx_lives.specs.Calls.{AddsEntry, HasGoneOn};
ghost use Rattle.hx_lives.specs.Course.{opening, start_of};
ghost use Rattle.hx_passes.specs.Closing.{IsClosed};
ghost use Rattle.hx_passes.specs.Rules.{total};
ghost use Rattle.hx_rules.specs.Entries.{past};
ghost use Rattle.hx_rules.specs.Legal.{is_legal};
ghost use Rattle.hx_hub.specs.Calls.{DoesStage, Leaves, Makes, StagedAs};
ghost use Rattle.hx_hub.specs.Shared.{HasGoneOnSince, lowest_due, says_of, so_far, stage_on};

use crate::hub::{Acted, Staged};
use crate::naming::{Named, Naming, Pass};
use hx_disk::Disk;
use hx_events::{Actor, Command, Entry, Outcome, ResNo};
use hx_passes::{Clerk, Finding, Kind, Passes};
use hx_registry::Registry;
use std::alloc::AllocError;
use std::marker::Model;

/// The registry, and the clerk who knows its history. Contracts see the registry.
pub struct Office<D: Disk, J: Naming> {
    registry: Registry<D>,
    clerk: Clerk<Named<J>>,
}

impl<D: Disk, J: Naming> Model for Office<D, J> {
    ghost use Rattle.std.specs.Prelude.{◌≡◌};
    ghost use Rattle.hx_lives.specs.Course.{start_of};
    ghost use Rattle.hx_lives.specs.State.{RegistryState};
    ghost use Rattle.hx_rules.specs.Entries.{past};
    ghost use Rattle.hx_hub.specs.Shared.{HasGoneOnSince, so_far};

    ghost Value = { RegistryState D };

    ghost view = { λ o. o.registry };

    ghost invariant = { λ o. (o.registry.course.entries ≡ past o.clerk) × (start_of o.registry.course ≡ start_of J.life) × HasGoneOnSince J.disk (so_far D.time D.past D.failures o.registry.disk) };
}

impl<D: Disk, J: Naming> Office<D, J> {
    pub fn new(registry: Registry<D>, clerk: Clerk<Named<J>>) -> Office<D, J>
        requires entries { registry.course.entries ≡ past clerk }
        requires start { start_of registry.course ≡ start_of J.life }
        requires disk { HasGoneOnSince J.disk (so_far D.time D.past D.failures registry.disk) }
        ensures { result ≡ registry }
    {
        Office { registry, clerk }
    }

    /// Makes the event of a command for the pass. For want of memory there is none.
    pub fn act(
        &mut self,
        passes: &Passes<Named<J>>,
        pass: &mut Pass<J>,
        command: Command,
    ) -> Result<Acted, AllocError>
        requires { resource_of command < length J.life.names }
        ensures makes { IfOk result (λ acted. Makes (opening J.life) (Act command) acted.place acted.outcome pass.old pass.new) }
        ensures err { OnErr result (pass.new ≡ pass.old) }
    {
        let outcome = self.registry.command(pass.actor(), command)?;
        let place = passes.enter(&mut self.clerk, pass, newest(&self.registry));
        Ok(Acted { place, outcome })
    }

    /// Does the stage of this kind that is due for the lowest resource, for the pass. Where none is due, the pass notes that.
    /// For want of memory nothing is done.
    pub fn stage(
        &mut self,
        passes: &Passes<Named<J>>,
        pass: &mut Pass<J>,
        kind: Kind,
    ) -> Result<Staged, AllocError>
        ensures staged { IfOk result (λ staged. StagedAs (opening J.life) J.windows kind staged pass.old pass.new) }
        ensures err { OnErr result (pass.new ≡ pass.old) }
    {
        match self.due(kind) {
            Some(res) => Ok(Staged::Did(self.stage_of(passes, pass, kind, res)?)),
            None => Ok(self.rest(passes, pass, kind)),
        }
    }

    // The lowest resource for which a stage of the kind is due.
    fn due(&self, kind: Kind) -> Option<ResNo>
        ensures { result ≡ lowest_due kind (opening self.now.course) self.now.course.entries }
    {
        match kind {
            Kind::Vault => self.registry.due_vault(),
            Kind::Save => self.registry.due_save(),
        }
    }

    // Does the stage of the kind for the lowest resource that has one, which this is.
    fn stage_of(
        &mut self,
        passes: &Passes<Named<J>>,
        pass: &mut Pass<J>,
        kind: Kind,
        res: ResNo,
    ) -> Result<Acted, AllocError>
        requires { lowest_due kind (opening self.old.course) self.old.course.entries ≡ Some res }
        ensures does { IfOk result (λ acted. DoesStage (opening J.life) kind acted.place acted.outcome pass.old pass.new) }
        ensures err { OnErr result (pass.new ≡ pass.old) }
    {
        let outcome = stage(&mut self.registry, pass.actor(), kind, res)?;
        let place = passes.enter(&mut self.clerk, pass, newest(&self.registry));
        Ok(Acted { place, outcome })
    }

    // Notes for the pass that no stage of the kind is due.
    fn rest(&mut self, passes: &Passes<Named<J>>, pass: &mut Pass<J>, kind: Kind) -> Staged
        requires { lowest_due kind (opening self.old.course) self.old.course.entries ≡ None }
        ensures { StagedAs (opening J.life) J.windows kind result pass.old pass.new }
    {
        if passes.note(&mut self.clerk, pass, Finding::NothingDue(kind)) {
            Staged::Over
        } else {
            Staged::Rest
        }
    }

    /// Counts that the pass has left.
    pub fn leave(&mut self, passes: &Passes<Named<J>>, pass: &mut Pass<J>)
        requires { pass.old.leaves ≡ [] }
        ensures { Leaves pass.old pass.new }
    {
        passes.leave(&mut self.clerk, pass);
    }

    /// Ends the passes, which have all parts together, and hands the registry out.
    pub fn close(
        self,
        passes: Passes<Named<J>>,
        first: Pass<J>,
        others: Vec<Pass<J>>,
    ) -> Registry<D>
        requires { first.parts + total (λ p. p.parts) others.items ≡ J.parts }
        ensures registry { result ≡ self }
        ensures closed { IsClosed (past J.life.entries) J.windows (says_of (start_of J.life)) (past result.course.entries) (first ∷ others.items) }
        ensures legal { is_legal (opening result.course) result.course.entries ≡ true }
        ensures start { start_of result.course ≡ start_of J.life }
        ensures runs { HasGoneOnSince J.disk (so_far D.time D.past D.failures result.disk) }
    {
        let Office { registry, clerk } = self;
        passes.close(clerk, first, others);
        registry.legal();
        registry
    }
}

/// Does the stage of the kind that is due for the resource, as one event.
fn stage<D: Disk>(
    registry: &mut Registry<D>,
    actor: Actor,
    kind: Kind,
    res: ResNo,
) -> Result<Outcome, AllocError>
    requires { res < length registry.old.course.names }
    ensures entry { IfOk result (λ outcome. AddsEntry actor (stage_on kind res) outcome registry.old.course registry.new.course) }
    ensures err { OnErr result (registry.new.course ≡ registry.old.course) }
    ensures runs { HasGoneOn D.time D.past D.failures registry.old.disk registry.new.disk }
{
    match kind {
        Kind::Vault => registry.vault_stage(actor, res),
        Kind::Save => registry.save_stage(actor, res),
    }
}

/// The newest entry of the registry's history.
fn newest<D: Disk>(registry: &Registry<D>) -> &Entry
    requires { 0 < length registry.now.course.entries }
    ensures newest { (e : Entry) (es : List Entry) → registry.now.course.entries ≡ e ∷ es → result.now ≡ e }
    ensures few { length registry.now.course.entries < 2 ^ 62 }
{
    let history = registry.history();
    &history[history.len() - 1]
}
