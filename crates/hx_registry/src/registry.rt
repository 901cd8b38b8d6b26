//! The registry.

ghost use Rattle.std.specs.Prelude.{◌≡◌, ◌≤◌, ◌<◌, true, length, is_some, IfOk, OnErr};
ghost use Rattle.hx_core.specs.Registered.{copies_of};
ghost use Rattle.hx_core.specs.States.{state_of};
ghost use Rattle.hx_events.specs.Texts.{resource_of};
ghost use Rattle.hx_events.specs.declared.event.Actor.TheVariants.{Closer};
ghost use Rattle.hx_events.specs.declared.event.Event.TheVariants.{Act, Flush, Quit, Vault as VaultEvent};
ghost use Rattle.hx_rules.specs.Entries.{own, past};
ghost use Rattle.hx_rules.specs.Legal.{is_legal, lowest_save_due, lowest_vault_due, restored_at, save_due, vault_due};
ghost use Rattle.hx_closing_laws.specs.Within.{IsWithinLimits};
ghost use Rattle.hx_lives.specs.Calls.{AddsEntry, HasGoneOn, IsNoCrash, crash_end};
ghost use Rattle.hx_lives.specs.Chained.{IsLived};
ghost use Rattle.hx_lives.specs.Course.{course_of, last_faults, opening};
ghost use Rattle.hx_pairs.specs.Registries.{RegistryInvariant};

use crate::parts::Parts;
use hx_disk::Disk;
use hx_events::{Actor, Command, CopyFact, CopyState, Ended, Entry, Life, Names, Outcome, ResNo};
use std::alloc::AllocError;
use std::marker::Model;

/// A life on a disk. Contracts see the life so far and the disk.
///
/// Its type keeps, on every disk, that the history is legal, that moments and counts of faults never fall, and that a fault
/// came only where the disk's count rose; and on a disk that tells its content besides that each entry tells what the
/// files were, and that whatever a crash might have left at any moment of the life, inside a write too, was allowed.
pub struct Registry<D: Disk> {
    parts: Parts<D>,
}

impl<D: Disk> Model for Registry<D> {
    ghost use Rattle.hx_lives.specs.State.{RegistryState};
    ghost use Rattle.hx_pairs.specs.Registries.{RegistryInvariant};

    ghost Value = { RegistryState D };

    ghost view = { λ r. record { course = r.parts.life.course; disk = r.parts.disk } };

    ghost invariant = { λ r. RegistryInvariant D.tells D.time D.past D.now D.failures r.parts.life.course r.parts.vault r.parts.held.items r.parts.disk };
}

impl<D: Disk> Registry<D> {
    pub(crate) fn of(parts: Parts<D>) -> Registry<D>
        requires { RegistryInvariant D.tells D.time D.past D.now D.failures parts.life.course parts.vault parts.held.items parts.disk }
        ensures { result ≡ record { course = parts.life.course; disk = parts.disk } }
    {
        Registry { parts }
    }

    /// Makes one event of this command, and answers its outcome. For want of memory there is no event.
    pub fn command(&mut self, actor: Actor, command: Command) -> Result<Outcome, AllocError>
        requires { resource_of command < length self.old.course.names }
        ensures entry { IfOk result (λ outcome. AddsEntry actor (Act command) outcome self.old.course self.new.course) }
        ensures err { OnErr result (self.new.course ≡ self.old.course) }
        ensures runs { HasGoneOn D.time D.past D.failures self.old.disk self.new.disk }
    {
        self.parts.command(actor, command)
    }

    /// Does the vault stage that is due for the resource, as one event; where none is due the event is idle. For want of memory
    /// there is no event.
    pub fn vault_stage(&mut self, actor: Actor, res: ResNo) -> Result<Outcome, AllocError>
        requires { res < length self.old.course.names }
        ensures entry { IfOk result (λ outcome. AddsEntry actor (VaultEvent res) outcome self.old.course self.new.course) }
        ensures err { OnErr result (self.new.course ≡ self.old.course) }
        ensures runs { HasGoneOn D.time D.past D.failures self.old.disk self.new.disk }
    {
        self.parts.vault_stage(actor, res)
    }

    /// Does the save stage that is due for the resource, as one event; where none is due the event is idle. For want of memory
    /// there is no event.
    pub fn save_stage(&mut self, actor: Actor, res: ResNo) -> Result<Outcome, AllocError>
        requires { res < length self.old.course.names }
        ensures entry { IfOk result (λ outcome. AddsEntry actor (Flush res) outcome self.old.course self.new.course) }
        ensures err { OnErr result (self.new.course ≡ self.old.course) }
        ensures runs { HasGoneOn D.time D.past D.failures self.old.disk self.new.disk }
    {
        self.parts.save_stage(actor, res)
    }

    /// The Closer asks whether the program may end, as one event. For want of memory there is none.
    pub fn ask_quit(&mut self) -> Result<Outcome, AllocError>
        ensures entry { IfOk result (λ outcome. AddsEntry Closer Quit outcome self.old.course self.new.course) }
        ensures err { OnErr result (self.new.course ≡ self.old.course) }
        ensures disk { self.new.disk ≡ self.old.disk }
    {
        self.parts.ask_quit()
    }

    /// The lowest resource for which a vault stage is due, or none exactly where there is none.
    pub fn due_vault(&self) -> Option<ResNo>
        ensures { result ≡ lowest_vault_due (opening self.now.course) self.now.course.entries }
    {
        self.parts.life.due_vault()
    }

    /// The lowest resource for which a save stage is due, or none exactly where there is none.
    pub fn due_save(&self) -> Option<ResNo>
        ensures { result ≡ lowest_save_due (opening self.now.course) self.now.course.entries }
    {
        self.parts.life.due_save()
    }

    /// Whether a vault stage is due for the resource. The history is legal, and no content of it is longer than a content may be.
    pub(crate) fn is_vault_due(&self, res: ResNo) -> bool
        requires { res < length self.now.course.names }
        ensures due { result ≡ is_some (vault_due (opening self.now.course) self.now.course.entries res) }
        ensures within { IsWithinLimits self.now.course }
    {
        self.parts.life.keeps_limits();
        self.parts.life.is_vault_due(res)
    }

    /// Whether a save stage is due for the resource.
    pub(crate) fn is_save_due(&self, res: ResNo) -> bool
        requires { res < length self.now.course.names }
        ensures { result ≡ is_some (save_due (opening self.now.course) self.now.course.entries res) }
    {
        self.parts.life.is_save_due(res)
    }

    /// The history is legal, and no content of it is longer than a content may be.
    pub(crate) fn keeps_limits(&self)
        ensures { IsWithinLimits self.now.course }
    {
        self.parts.life.keeps_limits();
    }

    /// The history is legal. There is nothing to run.
    pub fn legal(&self)
        ensures { is_legal (opening self.now.course) self.now.course.entries ≡ true }
    {
        self.parts.life.keeps_limits();
    }

    /// The entries so far, the oldest first.
    pub fn history(&self) -> &[Entry]
        ensures { past result.now ≡ self.now.course.entries }
    {
        self.parts.life.history()
    }

    /// The resources of the life: those that were declared, and behind them the restored ones that weren't.
    pub fn names(&self) -> &Names
        ensures { result.now ≡ self.now.course.names }
    {
        self.parts.life.names()
    }

    /// What the copy is in: the first of these states that holds.
    pub fn state(&self, res: ResNo) -> CopyState
        requires { res < length self.now.course.names }
        ensures { result ≡ state_of (restored_at (opening self.now.course) res) (own res self.now.course.entries) }
    {
        self.parts.life.state(res)
    }

    /// The registered copies in the order of their resources, each with whether it is dirty and whether its last version is
    /// backed up.
    pub fn copies(&self) -> Result<Vec<CopyFact>, AllocError>
        ensures { IfOk result (λ copies. copies.items ≡ copies_of (opening self.now.course) self.now.course.entries) }
    {
        self.parts.life.copies(self.parts.alloc)
    }

    /// Ends the life otherwise than by a crash, and hands the disk out as it is.
    pub fn finish(self, ended: Ended) -> (D, Life)
        requires { IsNoCrash ended }
        ensures disk { result.0 ≡ self.disk }
        ensures course { course_of result.1 ≡ self.course }
        ensures ended { result.1.ended ≡ ended }
        ensures counted { last_faults self.course ≤ D.failures result.0 }
        ensures lived { IsLived D.picked D.tells (D.past result.0) (D.time result.0) result.1 }
    {
        let Registry { parts } = self;
        let Parts {
            alloc: _,
            disk,
            vault: _,
            life,
            held: _,
        } = parts;
        (disk, life.end(ended))
    }

    /// Ends the life by a crash of the disk, which leaves the image that the pick names. For want of memory the disk didn't
    /// crash, and the life was cut off.
    pub fn crash(self, pick: u64) -> (D, Life, Result<(), AllocError>)
        ensures runs { HasGoneOn D.time D.past D.failures self.disk result.0 }
        ensures course { course_of result.1 ≡ self.course }
        ensures ended { result.1.ended ≡ crash_end pick result.2 }
        ensures counted { last_faults self.course ≤ D.failures result.0 }
        ensures lived { IsLived D.picked D.tells (D.past result.0) (D.time result.0) result.1 }
    {
        let Registry { parts } = self;
        let Parts {
            alloc: _,
            mut disk,
            vault: _,
            life,
            held: _,
        } = parts;
        let crashed = disk.crash(pick);
        let ended = match crashed {
            Ok(()) => Ended::Crash(pick),
            Err(_) => Ended::Cut,
        };
        (disk, life.end(ended), crashed)
    }
}
