//! Commands, save stages, and the question whether the program may end.

ghost use Rattle.std.specs.Prelude.{◌≡◌, ◌+◌, ◌≤◌, ◌<◌, ℕ, true, IsTrue, length, IfOk, OnErr};
ghost use Rattle.hx_faults.specs.Faults.{Rose};
ghost use Rattle.hx_disk.specs.Disk.{ChangesNothing};
ghost use Rattle.hx_events.specs.Texts.{resource_of};
ghost use Rattle.hx_events.specs.declared.event.Actor.TheVariants.{Closer};
ghost use Rattle.hx_events.specs.declared.event.Event.TheVariants.{Act, Flush, Quit};
ghost use Rattle.hx_core.specs.Cores.{IsEventOf, StepRoom, asks_at};
ghost use Rattle.hx_resource.specs.Asks.{FitsWork};
ghost use Rattle.hx_resource.specs.Rooms.{got_content};
ghost use Rattle.hx_resource.specs.declared.asks.Asked.TheVariants.{Device};
ghost use Rattle.hx_resource.specs.declared.asks.Work.TheVariants.{ReadFile, OutsideWrite, Check, Write};
ghost use Rattle.hx_lives.specs.Calls.{AddsEntry, HasGoneOn};
ghost use Rattle.hx_lives.specs.Course.{opening};
ghost use Rattle.hx_pairs.specs.Registries.{RegistryInvariant};
ghost use Rattle.hx_registry.specs.Given.{IsReadAs, Reads, is_failed};

use crate::files::{overwrite, read_content, user_file, write_out};
use crate::parts::Parts;
use hx_core::{Asked, Got, Work};
use hx_disk::Disk;
use hx_events::{Actor, CONTENT_MAX, Command, Event, Outcome, ResNo};
use std::alloc::AllocError;

impl<D: Disk> Parts<D> {
    /// A command, which adds one entry.
    pub fn command(&mut self, actor: Actor, command: Command) -> Result<Outcome, AllocError>
        requires known { resource_of command < length self.old.life.course.names }
        requires kept { RegistryInvariant D.tells D.time D.past D.now D.failures self.old.life.course self.old.vault self.old.held.items self.old.disk }
        ensures entry { IfOk result (λ outcome. AddsEntry actor (Act command) outcome self.old.life.course self.new.life.course) }
        ensures err { OnErr result (self.new.life.course ≡ self.old.life.course) }
        ensures kept { RegistryInvariant D.tells D.time D.past D.now D.failures self.new.life.course self.new.vault self.new.held.items self.new.disk }
        ensures runs { HasGoneOn D.time D.past D.failures self.old.disk self.new.disk }
    {
        let res = command.resource();
        let event = Event::Act(command);
        self.life.reserve(&event, 0)?;
        match self.life.ask(&event) {
            Asked::Settled(_) => Ok(self.answer(actor, event, res, Got::Nothing)),
            Asked::Device(work) => match work {
                Work::ReadFile(_) => self.read(actor, event, res),
                Work::OutsideWrite => self.write_outside(actor, event),
                _ => unreachable!(),
            },
        }
    }

    // An open or a revert that reads the file.
    fn read(&mut self, actor: Actor, event: Event, res: ResNo) -> Result<Outcome, AllocError>
        requires command { (command : Command) × (event ≡ Act command) × (resource_of command ≡ res) × Reads event × ((d : ℕ) × (asks_at (opening self.old.life.course) self.old.life.course.entries event ≡ Device (ReadFile d))) }
        requires within { res < length self.old.life.course.names }
        requires room { StepRoom event 0 self.old.life.core }
        requires kept { RegistryInvariant D.tells D.time D.past D.now D.failures self.old.life.course self.old.vault self.old.held.items self.old.disk }
        ensures entry { IfOk result (λ outcome. AddsEntry actor event outcome self.old.life.course self.new.life.course) }
        ensures err { OnErr result (self.new.life.course ≡ self.old.life.course) }
        ensures kept { RegistryInvariant D.tells D.time D.past D.now D.failures self.new.life.course self.new.vault self.new.held.items self.new.disk }
        ensures runs { HasGoneOn D.time D.past D.failures self.old.disk self.new.disk }
    {
        let got = self.find(&event, res)?;
        Ok(self.answer(actor, event, res, got))
    }

    // What is found of the resource's file, with room for an entry that has it.
    fn find(&mut self, event: &Event, res: ResNo) -> Result<Got, AllocError>
        requires known { IsEventOf (length self.old.life.course.names) event.now }
        requires room { StepRoom event.now 0 self.old.life.core }
        ensures course { self.new.life.course ≡ self.old.life.course }
        ensures vault { self.new.vault ≡ self.old.vault }
        ensures held { self.new.held.items ≡ self.old.held.items }
        ensures room { IfOk result (λ got. StepRoom event.now (length (got_content got)) self.new.life.core) }
        ensures fits { IfOk result (λ got. FitsWork (ReadFile res) got) }
        ensures unchanged { ChangesNothing D.time D.past D.now self.old.disk self.new.disk }
        ensures found { IsTrue D.tells → IfOk result (λ got. IsReadAs got (D.now self.old.disk (128 + res))) }
        ensures later { D.failures self.old.disk ≤ D.failures self.new.disk }
        ensures cause { IfOk result (λ got. is_failed got ≡ true → Rose (D.failures self.old.disk) (D.failures self.new.disk)) }
        ensures err { OnErr result (D.failures self.new.disk ≡ D.failures self.old.disk) }
    {
        let file = user_file(res);
        match self.disk.stat(file) {
            Ok(None) => Ok(Got::Found(None)),
            Ok(Some(stat)) => {
                if stat.size > CONTENT_MAX {
                    return Ok(Got::Big(stat));
                }
                self.life.reserve(event, stat.size)?;
                read_content(self.alloc, &mut self.disk, file, stat)
            }
            Err(_) => Ok(Got::Failed),
        }
    }

    // Another program's write of a whole file.
    fn write_outside(&mut self, actor: Actor, event: Event) -> Result<Outcome, AllocError>
        requires command { (command : Command) × (event ≡ Act command) × (resource_of command < length self.old.life.course.names) × (asks_at (opening self.old.life.course) self.old.life.course.entries event ≡ Device OutsideWrite) }
        requires room { StepRoom event 0 self.old.life.core }
        requires kept { RegistryInvariant D.tells D.time D.past D.now D.failures self.old.life.course self.old.vault self.old.held.items self.old.disk }
        ensures entry { IfOk result (λ outcome. AddsEntry actor event outcome self.old.life.course self.new.life.course) }
        ensures err { OnErr result (self.new.life.course ≡ self.old.life.course) }
        ensures kept { RegistryInvariant D.tells D.time D.past D.now D.failures self.new.life.course self.new.vault self.new.held.items self.new.disk }
        ensures runs { HasGoneOn D.time D.past D.failures self.old.disk self.new.disk }
    {
        let Event::Act(command) = &event else {
            unreachable!()
        };
        let Command::Outside { res, mtime, text } = command else {
            unreachable!()
        };
        let file = user_file(*res);
        self.disk.reserve(file, text.as_slice().len() as u64, 4)?;
        match overwrite(&mut self.disk, file, *mtime, text.as_slice()) {
            Ok(()) => Ok(self.life.step(&self.disk, actor, event, Got::Done)),
            Err(_) => Ok(self.life.step(&self.disk, actor, event, Got::Failed)),
        }
    }

    /// The save stage that is due for the resource, or an entry that none is.
    pub fn save_stage(&mut self, actor: Actor, res: ResNo) -> Result<Outcome, AllocError>
        requires known { res < length self.old.life.course.names }
        requires kept { RegistryInvariant D.tells D.time D.past D.now D.failures self.old.life.course self.old.vault self.old.held.items self.old.disk }
        ensures entry { IfOk result (λ outcome. AddsEntry actor (Flush res) outcome self.old.life.course self.new.life.course) }
        ensures err { OnErr result (self.new.life.course ≡ self.old.life.course) }
        ensures kept { RegistryInvariant D.tells D.time D.past D.now D.failures self.new.life.course self.new.vault self.new.held.items self.new.disk }
        ensures runs { HasGoneOn D.time D.past D.failures self.old.disk self.new.disk }
    {
        let event = Event::Flush(res);
        self.life.reserve(&event, 0)?;
        match self.life.ask(&event) {
            Asked::Settled(_) => Ok(self.rest(actor, event, Got::Nothing)),
            Asked::Device(work) => match work {
                Work::Check(_) => Ok(self.check(actor, res)),
                Work::Write(_) => self.write(actor, res),
                _ => unreachable!(),
            },
        }
    }

    // The check of a save: one stat.
    fn check(&mut self, actor: Actor, res: ResNo) -> Outcome
        requires known { res < length self.old.life.course.names }
        requires asked { (d : ℕ) × (asks_at (opening self.old.life.course) self.old.life.course.entries (Flush res) ≡ Device (Check d)) }
        requires room { StepRoom (Flush res) 0 self.old.life.core }
        requires kept { RegistryInvariant D.tells D.time D.past D.now D.failures self.old.life.course self.old.vault self.old.held.items self.old.disk }
        ensures entry { AddsEntry actor (Flush res) result self.old.life.course self.new.life.course }
        ensures kept { RegistryInvariant D.tells D.time D.past D.now D.failures self.new.life.course self.new.vault self.new.held.items self.new.disk }
        ensures runs { HasGoneOn D.time D.past D.failures self.old.disk self.new.disk }
    {
        match self.disk.stat(user_file(res)) {
            Ok(found) => self.rest(actor, Event::Flush(res), Got::Found(found)),
            Err(_) => self.rest(actor, Event::Flush(res), Got::Failed),
        }
    }

    // The write of a save: the whole file, and its stat.
    fn write(&mut self, actor: Actor, res: ResNo) -> Result<Outcome, AllocError>
        requires known { res < length self.old.life.course.names }
        requires asked { (d : ℕ) × (asks_at (opening self.old.life.course) self.old.life.course.entries (Flush res) ≡ Device (Write d)) }
        requires room { StepRoom (Flush res) 0 self.old.life.core }
        requires kept { RegistryInvariant D.tells D.time D.past D.now D.failures self.old.life.course self.old.vault self.old.held.items self.old.disk }
        ensures entry { IfOk result (λ outcome. AddsEntry actor (Flush res) outcome self.old.life.course self.new.life.course) }
        ensures err { OnErr result (self.new.life.course ≡ self.old.life.course) }
        ensures kept { RegistryInvariant D.tells D.time D.past D.now D.failures self.new.life.course self.new.vault self.new.held.items self.new.disk }
        ensures runs { HasGoneOn D.time D.past D.failures self.old.disk self.new.disk }
    {
        let Some(content) = self.life.saving(res) else {
            unreachable!()
        };
        let file = user_file(res);
        self.disk.reserve(file, content.len() as u64, 3)?;
        match write_out(&mut self.disk, file, content) {
            Ok(found) => Ok(
                self.life
                    .step(&self.disk, actor, Event::Flush(res), Got::Found(found)),
            ),
            Err(_) => Ok(
                self.life
                    .step(&self.disk, actor, Event::Flush(res), Got::Failed),
            ),
        }
    }

    /// The Closer's question whether the program may end.
    pub fn ask_quit(&mut self) -> Result<Outcome, AllocError>
        requires kept { RegistryInvariant D.tells D.time D.past D.now D.failures self.old.life.course self.old.vault self.old.held.items self.old.disk }
        ensures entry { IfOk result (λ outcome. AddsEntry Closer Quit outcome self.old.life.course self.new.life.course) }
        ensures err { OnErr result (self.new.life.course ≡ self.old.life.course) }
        ensures kept { RegistryInvariant D.tells D.time D.past D.now D.failures self.new.life.course self.new.vault self.new.held.items self.new.disk }
        ensures disk { self.new.disk ≡ self.old.disk }
    {
        self.life.reserve(&Event::Quit, 0)?;
        Ok(self.rest(Actor::Closer, Event::Quit, Got::Nothing))
    }
}
