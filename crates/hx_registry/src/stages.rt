//! The vault's stages.

ghost use Rattle.std.specs.Prelude.{◌≡◌, ◌+◌, ◌≤◌, ◌<◌, Some, length, IfOk, OnErr};
ghost use Rattle.hx_events.specs.declared.event.Event.TheVariants.{Vault as VaultEvent};
ghost use Rattle.hx_events.specs.declared.event.Stage.TheVariants.{Prepare, Body, Open, Fade, Drop};
ghost use Rattle.hx_core.specs.Cores.{StepRoom};
ghost use Rattle.hx_rules.specs.Due.{stage_due};
ghost use Rattle.hx_rules.specs.Legal.{vault_due};
ghost use Rattle.hx_lives.specs.Calls.{AddsEntry, HasGoneOn};
ghost use Rattle.hx_lives.specs.Course.{opening};
ghost use Rattle.hx_pairs.specs.AllPairs.{held_at};
ghost use Rattle.hx_pairs.specs.Registries.{RegistryInvariant};

use crate::blocks::next_block;
use crate::parts::Parts;
use hx_core::{Asked, Got, Work};
use hx_disk::Disk;
use hx_events::{Actor, Event, Outcome, PairNo, ResNo, Stage};
use std::alloc::AllocError;

impl<D: Disk> Parts<D> {
    /// The vault stage that is due for the resource, or an entry that none is.
    pub fn vault_stage(&mut self, actor: Actor, res: ResNo) -> Result<Outcome, AllocError>
        requires known { res < length self.old.life.course.names }
        requires kept { RegistryInvariant D.tells D.time D.past D.now D.failures self.old.life.course self.old.vault self.old.held.items self.old.disk }
        ensures entry { IfOk result (λ outcome. AddsEntry actor (VaultEvent res) outcome self.old.life.course self.new.life.course) }
        ensures err { OnErr result (self.new.life.course ≡ self.old.life.course) }
        ensures kept { RegistryInvariant D.tells D.time D.past D.now D.failures self.new.life.course self.new.vault self.new.held.items self.new.disk }
        ensures runs { HasGoneOn D.time D.past D.failures self.old.disk self.new.disk }
    {
        let event = Event::Vault(res);
        self.life.reserve(&event, 0)?;
        match self.life.ask(&event) {
            Asked::Settled(_) => Ok(self.rest(actor, event, Got::Nothing)),
            Asked::Device(work) => {
                let Work::Vault(_, stage) = work else {
                    unreachable!()
                };
                self.stage(actor, res, stage)
            }
        }
    }

    // The stage, which is due.
    fn stage(&mut self, actor: Actor, res: ResNo, stage: Stage) -> Result<Outcome, AllocError>
        requires known { res < length self.old.life.course.names }
        requires due { stage_due (vault_due (opening self.old.life.course) self.old.life.course.entries res) ≡ Some stage }
        requires room { StepRoom (VaultEvent res) 0 self.old.life.core }
        requires kept { RegistryInvariant D.tells D.time D.past D.now D.failures self.old.life.course self.old.vault self.old.held.items self.old.disk }
        ensures entry { IfOk result (λ outcome. AddsEntry actor (VaultEvent res) outcome self.old.life.course self.new.life.course) }
        ensures err { OnErr result (self.new.life.course ≡ self.old.life.course) }
        ensures kept { RegistryInvariant D.tells D.time D.past D.now D.failures self.new.life.course self.new.vault self.new.held.items self.new.disk }
        ensures runs { HasGoneOn D.time D.past D.failures self.old.disk self.new.disk }
    {
        let Some(pair) = self.pair_of(res) else {
            unreachable!()
        };
        match stage {
            Stage::Prepare => self.prepare(actor, res, pair),
            Stage::Body => self.body(actor, res, pair),
            Stage::Open => self.open(actor, res, pair),
            Stage::Fade => self.fade(actor, res, pair),
            Stage::Drop => self.discard(actor, res, pair),
        }
    }

    fn prepare(&mut self, actor: Actor, res: ResNo, pair: PairNo) -> Result<Outcome, AllocError>
        requires known { res < length self.old.life.course.names }
        requires due { stage_due (vault_due (opening self.old.life.course) self.old.life.course.entries res) ≡ Some Prepare }
        requires holds { held_at self.old.held.items res ≡ Some pair }
        requires room { StepRoom (VaultEvent res) 0 self.old.life.core }
        requires kept { RegistryInvariant D.tells D.time D.past D.now D.failures self.old.life.course self.old.vault self.old.held.items self.old.disk }
        ensures entry { IfOk result (λ outcome. AddsEntry actor (VaultEvent res) outcome self.old.life.course self.new.life.course) }
        ensures err { OnErr result (self.new.life.course ≡ self.old.life.course) }
        ensures kept { RegistryInvariant D.tells D.time D.past D.now D.failures self.new.life.course self.new.vault self.new.held.items self.new.disk }
        ensures runs { HasGoneOn D.time D.past D.failures self.old.disk self.new.disk }
    {
        let event = Event::Vault(res);
        if self.vault.is_spent() {
            return Ok(self.life.step(&self.disk, actor, event, Got::Spent));
        }
        self.vault.reserve(&mut self.disk, pair, false, 1)?;
        match self.vault.prepare(&mut self.disk, pair) {
            Ok(()) => Ok(self.life.step(&self.disk, actor, event, Got::Done)),
            Err(_) => Ok(self.life.step(&self.disk, actor, event, Got::Failed)),
        }
    }

    fn body(&mut self, actor: Actor, res: ResNo, pair: PairNo) -> Result<Outcome, AllocError>
        requires known { res < length self.old.life.course.names }
        requires due { stage_due (vault_due (opening self.old.life.course) self.old.life.course.entries res) ≡ Some Body }
        requires holds { held_at self.old.held.items res ≡ Some pair }
        requires room { StepRoom (VaultEvent res) 0 self.old.life.core }
        requires kept { RegistryInvariant D.tells D.time D.past D.now D.failures self.old.life.course self.old.vault self.old.held.items self.old.disk }
        ensures entry { IfOk result (λ outcome. AddsEntry actor (VaultEvent res) outcome self.old.life.course self.new.life.course) }
        ensures err { OnErr result (self.new.life.course ≡ self.old.life.course) }
        ensures kept { RegistryInvariant D.tells D.time D.past D.now D.failures self.new.life.course self.new.vault self.new.held.items self.new.disk }
        ensures runs { HasGoneOn D.time D.past D.failures self.old.disk self.new.disk }
    {
        let Some(backup) = self.life.begun(res) else {
            unreachable!()
        };
        let block = next_block(self.alloc, self.vault.stamp(), self.life.name(res), backup)?;
        let end = end_of(self.vault.place(pair), block.len());
        self.vault.reserve(&mut self.disk, pair, false, end)?;
        match self.vault.body(&mut self.disk, pair, &block) {
            Ok(()) => Ok(
                self.life
                    .step(&self.disk, actor, Event::Vault(res), Got::Done),
            ),
            Err(_) => Ok(
                self.life
                    .step(&self.disk, actor, Event::Vault(res), Got::Failed),
            ),
        }
    }

    fn open(&mut self, actor: Actor, res: ResNo, pair: PairNo) -> Result<Outcome, AllocError>
        requires known { res < length self.old.life.course.names }
        requires due { stage_due (vault_due (opening self.old.life.course) self.old.life.course.entries res) ≡ Some Open }
        requires holds { held_at self.old.held.items res ≡ Some pair }
        requires room { StepRoom (VaultEvent res) 0 self.old.life.core }
        requires kept { RegistryInvariant D.tells D.time D.past D.now D.failures self.old.life.course self.old.vault self.old.held.items self.old.disk }
        ensures entry { IfOk result (λ outcome. AddsEntry actor (VaultEvent res) outcome self.old.life.course self.new.life.course) }
        ensures err { OnErr result (self.new.life.course ≡ self.old.life.course) }
        ensures kept { RegistryInvariant D.tells D.time D.past D.now D.failures self.new.life.course self.new.vault self.new.held.items self.new.disk }
        ensures runs { HasGoneOn D.time D.past D.failures self.old.disk self.new.disk }
    {
        self.life.reads_whole();
        self.vault.reserve(&mut self.disk, pair, false, 1)?;
        match self.vault.open_gate(&mut self.disk, pair) {
            Ok(()) => Ok(
                self.life
                    .step(&self.disk, actor, Event::Vault(res), Got::Done),
            ),
            Err(_) => Ok(
                self.life
                    .step(&self.disk, actor, Event::Vault(res), Got::Failed),
            ),
        }
    }

    fn fade(&mut self, actor: Actor, res: ResNo, pair: PairNo) -> Result<Outcome, AllocError>
        requires known { res < length self.old.life.course.names }
        requires due { stage_due (vault_due (opening self.old.life.course) self.old.life.course.entries res) ≡ Some Fade }
        requires holds { held_at self.old.held.items res ≡ Some pair }
        requires room { StepRoom (VaultEvent res) 0 self.old.life.core }
        requires kept { RegistryInvariant D.tells D.time D.past D.now D.failures self.old.life.course self.old.vault self.old.held.items self.old.disk }
        ensures entry { IfOk result (λ outcome. AddsEntry actor (VaultEvent res) outcome self.old.life.course self.new.life.course) }
        ensures err { OnErr result (self.new.life.course ≡ self.old.life.course) }
        ensures kept { RegistryInvariant D.tells D.time D.past D.now D.failures self.new.life.course self.new.vault self.new.held.items self.new.disk }
        ensures runs { HasGoneOn D.time D.past D.failures self.old.disk self.new.disk }
    {
        self.vault.reserve(&mut self.disk, pair, false, 1)?;
        match self.vault.fade(&mut self.disk, pair) {
            Ok(()) => Ok(
                self.life
                    .step(&self.disk, actor, Event::Vault(res), Got::Done),
            ),
            Err(_) => Ok(
                self.life
                    .step(&self.disk, actor, Event::Vault(res), Got::Failed),
            ),
        }
    }

    // A discard that is done gives the pair back, unless its copy is open.
    fn discard(&mut self, actor: Actor, res: ResNo, pair: PairNo) -> Result<Outcome, AllocError>
        requires known { res < length self.old.life.course.names }
        requires due { stage_due (vault_due (opening self.old.life.course) self.old.life.course.entries res) ≡ Some Drop }
        requires holds { held_at self.old.held.items res ≡ Some pair }
        requires room { StepRoom (VaultEvent res) 0 self.old.life.core }
        requires kept { RegistryInvariant D.tells D.time D.past D.now D.failures self.old.life.course self.old.vault self.old.held.items self.old.disk }
        ensures entry { IfOk result (λ outcome. AddsEntry actor (VaultEvent res) outcome self.old.life.course self.new.life.course) }
        ensures err { OnErr result (self.new.life.course ≡ self.old.life.course) }
        ensures kept { RegistryInvariant D.tells D.time D.past D.now D.failures self.new.life.course self.new.vault self.new.held.items self.new.disk }
        ensures runs { HasGoneOn D.time D.past D.failures self.old.disk self.new.disk }
    {
        self.vault.reserve(&mut self.disk, pair, true, 1)?;
        match self.vault.drop_newest(&mut self.disk, pair) {
            Ok(()) => {
                let outcome = self
                    .life
                    .step(&self.disk, actor, Event::Vault(res), Got::Done);
                if self.life.holds(res) {
                    return Ok(outcome);
                }
                self.vault.release(&self.disk, pair);
                self.held[res.number() as usize] = None;
                Ok(outcome)
            }
            Err(_) => Ok(
                self.life
                    .step(&self.disk, actor, Event::Vault(res), Got::Failed),
            ),
        }
    }
}

// Where a block ends that is put behind so many bytes, behind the gate.
fn end_of(place: u64, more: usize) -> u64
    requires low { place ≤ 1056768 }
    requires short { more ≤ 8192 }
    ensures { result ≡ 1 + place + more }
{
    1 + place + more as u64
}
