//! A life that goes on.

ghost use Rattle.std.specs.Prelude.{◌≡◌, ◌<◌, ◌≤◌, ℕ, [], true, length, is_some, option_map, slice_index_or, IfOk, IfSome, OnOk};
ghost use Rattle.hx_events.specs.Resources.{is_resource};
ghost use Rattle.hx_events.specs.declared.backup.TheConstants.{CONTENT_MAX};
ghost use Rattle.hx_core.specs.Cores.{IsEventOf, StepRoom, asks_at, outcome_at};
ghost use Rattle.hx_core.specs.Registered.{copies_of};
ghost use Rattle.hx_core.specs.States.{state_of};
ghost use Rattle.hx_resource.specs.Asks.{FitsAsked};
ghost use Rattle.hx_resource.specs.Rooms.{got_content};
ghost use Rattle.hx_rules.specs.Backups.{begun};
ghost use Rattle.hx_rules.specs.Due.{run_version};
ghost use Rattle.hx_rules.specs.Entries.{own, past};
ghost use Rattle.hx_rules.specs.Legal.{holds_at, is_legal, lowest_save_due, lowest_vault_due, opening_of, restored_at, save_due, vault_due};
ghost use Rattle.hx_rules.specs.Saves.{running, save_steps};
ghost use Rattle.hx_rules.specs.Versions.{version_at, versions};
ghost use Rattle.hx_rules_laws.specs.Sizes.{AreWhole};
ghost use Rattle.hx_closing_laws.specs.Within.{IsWithinLimits};
ghost use Rattle.hx_lives.specs.Calls.{AddsEntry};
ghost use Rattle.hx_lives.specs.Course.{course_of, opening, with_entry};
ghost use Rattle.hx_rules_laws.specs.Limits.{IsShortBackup};
ghost use Rattle.hx_registry.specs.OpenLives.{entry_by};

use hx_core::{Asked, BegunBackup, Core, Got};
use hx_disk::Disk;
use hx_events::{
    Actor, CopyFact, CopyState, Ended, Entry, Event, Items, Life, Names, Outcome, PairFound, ResNo,
};
use std::alloc::{AllocError, Global};
use std::marker::Model;

/// A life that goes on: its core, and what it was opened with. Contracts see its course, and the core for what there is room
/// for.
#[derive(Drop)]
pub struct OpenLife {
    core: Core,
    base: Items<PairFound>,
    moment: u64,
    faults: u64,
    guarded: bool,
}

impl Model for OpenLife {
    ghost use Rattle.hx_rules.specs.Entries.{past};
    ghost use Rattle.hx_registry.specs.OpenLives.{OpenLifeState, IsOpenLife};

    ghost Value = { OpenLifeState };

    ghost view = { λ l. record { course = record { names = l.core.names; base = l.base; guarded = l.guarded; moment = l.moment; faults = l.faults; entries = past l.core.history }; core = l.core } };

    ghost invariant = { λ l. IsOpenLife (record { names = l.core.names; base = l.base; guarded = l.guarded; moment = l.moment; faults = l.faults; entries = past l.core.history }) l.core };
}

impl OpenLife {
    /// A life that begins with this core, which was made of these findings at this moment and count of faults of the disk.
    pub fn new(
        core: Core,
        base: Items<PairFound>,
        moment: u64,
        faults: u64,
        guarded: bool,
    ) -> OpenLife
        requires opening { core.opening ≡ opening_of core.names base guarded }
        requires count { length core.resources ≡ length core.names }
        requires first { core.history ≡ [] }
        requires named { (c : ℕ) → c < length core.names → is_resource (slice_index_or core.names c []) ≡ true }
        requires short { (c : ℕ) → IsShortBackup (restored_at (opening_of core.names base guarded) c) }
        ensures { result.course ≡ record { names = core.names; base = base; guarded = guarded; moment = moment; faults = faults; entries = [] } }
    {
        OpenLife {
            core,
            base,
            moment,
            faults,
            guarded,
        }
    }

    /// Who answers the event: the rules alone, with the outcome, or the device, by the work that it has to do.
    pub fn ask(&self, event: &Event) -> Asked
        requires known { IsEventOf (length self.now.course.names) event.now }
        ensures { result ≡ asks_at (opening self.now.course) self.now.course.entries event.now }
    {
        self.core.ask(event)
    }

    /// Makes room for one step by this event that reads at most so many bytes of a file.
    pub fn reserve(&mut self, event: &Event, read: u64) -> Result<(), AllocError>
        requires known { IsEventOf (length self.old.course.names) event.now }
        ensures room { OnOk result ((n : ℕ) → n ≤ read → StepRoom event.now n self.new.core) }
        ensures course { self.new.course ≡ self.old.course }
    {
        self.core.reserve(event, read)
    }

    /// Takes one event with the device's answer: the life has one entry more, which keeps the disk's moment and its count of
    /// faults.
    pub fn step<D: Disk>(&mut self, disk: &D, actor: Actor, event: Event, got: Got) -> Outcome
        requires known { IsEventOf (length self.old.course.names) event }
        requires fits { FitsAsked (asks_at (opening self.old.course) self.old.course.entries event) got }
        requires room { StepRoom event (length (got_content got)) self.old.core }
        ensures outcome { result ≡ outcome_at (opening self.old.course) self.old.course.entries event got }
        ensures added { self.new.course ≡ with_entry self.old.course (entry_by (D.time disk.now) (D.failures disk.now) actor event result (got_content got)) }
        ensures entry { AddsEntry actor event result self.old.course self.new.course }
    {
        self.core
            .step(actor, event, got, disk.moment(), disk.faults())
    }

    /// Whether the resource holds a pair of slot files.
    pub fn holds(&self, res: ResNo) -> bool
        requires { res < length self.now.course.names }
        ensures { result ≡ holds_at (opening self.now.course) self.now.course.entries res }
    {
        self.core.holds(res)
    }

    /// Each content that was read is as long as its stat said.
    pub fn reads_whole(&self)
        ensures { AreWhole self.now.course.entries }
    {
        let _ = &self.core;
    }

    /// The history is legal, and no content of it is longer than a content may be.
    pub fn keeps_limits(&self)
        ensures { IsWithinLimits self.now.course }
    {
        self.core.legal();
    }

    /// The snapshot of the backup that is begun, or none exactly where none is.
    pub fn begun(&self, res: ResNo) -> Option<&BegunBackup>
        requires known { res < length self.now.course.names }
        requires legal { is_legal (opening self.now.course) self.now.course.entries ≡ true }
        ensures short { IfSome result (λ b. length b.now.snapshot.content ≤ CONTENT_MAX) }
        ensures sized { IfSome result (λ b. b.now.size ≤ CONTENT_MAX) }
        ensures begun { option_map (λ b. b.now) result ≡ begun (restored_at (opening self.now.course) res) self.now.course.guarded (own res self.now.course.entries) }
    {
        self.core.begun(res)
    }

    /// The text that names the resource.
    pub fn name(&self, res: ResNo) -> &[u8]
        requires { res < length self.now.course.names }
        ensures text { result.now ≡ slice_index_or self.now.course.names res [] }
        ensures resource { is_resource result.now ≡ true }
    {
        self.core.names().text(res)
    }

    /// The content of the version that is being saved, or none exactly where no save runs.
    pub fn saving(&self, res: ResNo) -> Option<&[u8]>
        requires { res < length self.now.course.names }
        ensures runs { is_some result ≡ is_some (running (save_steps (restored_at (opening self.now.course) res) (own res self.now.course.entries))) }
        ensures content { IfSome result (λ content. content.now ≡ (version_at (run_version (running (save_steps (restored_at (opening self.now.course) res) (own res self.now.course.entries)))) (versions (restored_at (opening self.now.course) res) (own res self.now.course.entries))).content) }
    {
        self.core.saving(res)
    }

    /// What the copy is in.
    pub fn state(&self, res: ResNo) -> CopyState
        requires { res < length self.now.course.names }
        ensures { result ≡ state_of (restored_at (opening self.now.course) res) (own res self.now.course.entries) }
    {
        self.core.state(res)
    }

    /// The registered copies in the order of their resources, each with what an exit asks of it.
    pub fn copies(&self, alloc: Global) -> Result<Vec<CopyFact>, AllocError>
        ensures { IfOk result (λ copies. copies.items ≡ copies_of (opening self.now.course) self.now.course.entries) }
    {
        self.core.copies(alloc)
    }

    /// The lowest resource for which a vault stage is due, or none exactly where there is none.
    pub fn due_vault(&self) -> Option<ResNo>
        ensures { result ≡ lowest_vault_due (opening self.now.course) self.now.course.entries }
    {
        self.core.due_vault()
    }

    /// The lowest resource for which a save stage is due, or none exactly where there is none.
    pub fn due_save(&self) -> Option<ResNo>
        ensures { result ≡ lowest_save_due (opening self.now.course) self.now.course.entries }
    {
        self.core.due_save()
    }

    /// Whether a vault stage is due for the resource.
    pub fn is_vault_due(&self, res: ResNo) -> bool
        requires { res < length self.now.course.names }
        ensures { result ≡ is_some (vault_due (opening self.now.course) self.now.course.entries res) }
    {
        self.core.vault_index().has(res)
    }

    /// Whether a save stage is due for the resource.
    pub fn is_save_due(&self, res: ResNo) -> bool
        requires { res < length self.now.course.names }
        ensures { result ≡ is_some (save_due (opening self.now.course) self.now.course.entries res) }
    {
        self.core.save_index().has(res)
    }

    /// The resources of the life.
    pub fn names(&self) -> &Names
        ensures { result.now ≡ self.now.course.names }
    {
        self.core.names()
    }

    /// The entries so far, the oldest first.
    pub fn history(&self) -> &[Entry]
        ensures { past result.now ≡ self.now.course.entries }
    {
        self.core.history()
    }

    /// The life, ended so.
    pub fn end(self, ended: Ended) -> Life
        ensures course { course_of result ≡ self.course }
        ensures ended { result.ended ≡ ended }
    {
        let (names, history) = self.core.finish();
        Life {
            names,
            base: self.base,
            moment: self.moment,
            faults: self.faults,
            history: Items::new(history),
            ended,
            guarded: self.guarded,
        }
    }
}
