//! Room for one event.

ghost use Rattle.std.specs.Prelude.{◌≡◌, ◌≤◌, Bool, length, IfSome, OnOk, vec_capacity};
ghost use Rattle.hx_events.specs.declared.event.Event.TheVariants.{Act};
ghost use Rattle.hx_resource.specs.Kept.{content_at};
ghost use Rattle.hx_resource.specs.Rows.{vault_due_kept};
ghost use Rattle.hx_resource.specs.Rooms.{CopyRoom, HasRoom, TicketRoom, copied_by, snapshot_size};

use crate::resource::Resource;
use crate::saves::is_save_event;
use hx_copy::WorkingCopy;
use hx_events::{Command, Event, Stage};
use std::alloc::AllocError;

impl Resource {
    /// Makes room for one event of the resource that reads at most so many bytes, and for nothing that the event doesn't need.
    /// Nothing else changes.
    pub fn reserve(&mut self, guarded: bool, event: &Event, read: u64) -> Result<(), AllocError>
        ensures room { OnOk result (HasRoom guarded event.now read self.new) }
        ensures kept { self.new.kept ≡ self.old.kept }
    {
        self.reserve_copy(event)?;
        self.reserve_ticket(event)?;
        let size = self.copied_size(guarded, event, read);
        self.reserve_bytes(size)
    }

    fn reserve_copy(&mut self, event: &Event) -> Result<(), AllocError>
        ensures room { OnOk result (IfSome self.new.copy (CopyRoom event.now)) }
        ensures kept { self.new.kept ≡ self.old.kept }
    {
        match &mut self.copy {
            None => Ok(()),
            Some(copy) => reserve_in(copy, event),
        }
    }

    fn reserve_ticket(&mut self, event: &Event) -> Result<(), AllocError>
        ensures room { OnOk result (TicketRoom event.now self.new.tickets) }
        ensures kept { self.new.kept ≡ self.old.kept }
        ensures copy { self.new.copy ≡ self.old.copy }
    {
        if is_save_event(event) {
            self.seq.reserve()?;
        }
        Ok(())
    }

    fn reserve_bytes(&mut self, size: u64) -> Result<(), AllocError>
        ensures room { OnOk result (size ≤ self.new.spare) }
        ensures kept { self.new.kept ≡ self.old.kept }
        ensures copy { self.new.copy ≡ self.old.copy }
        ensures tickets { self.new.tickets ≡ self.old.tickets }
    {
        self.spare.reserve(size as usize)
    }

    // How many bytes of a content the event may copy.
    fn copied_size(&self, guarded: bool, event: &Event, read: u64) -> u64
        ensures { result ≡ copied_by guarded event.now read self.now.kept }
    {
        match event {
            Event::Act(command) => self.copied_by_command(command, read),
            Event::Vault(_) => self.snapshot_size(guarded),
            Event::Flush(_) => {
                if self.seq.starts(true) {
                    self.size()
                } else {
                    0
                }
            }
            Event::Quit => 0,
        }
    }

    fn copied_by_command(&self, command: &Command, read: u64) -> u64
        ensures { (guarded : Bool) → result ≡ copied_by guarded (Act command.now) read self.now.kept }
    {
        match command {
            Command::Open(_) | Command::Revert(_) => read,
            Command::Save { .. } => {
                if self.running().is_some() {
                    0
                } else {
                    self.size()
                }
            }
            _ => 0,
        }
    }

    // How long the snapshot of a due Prepare is.
    fn snapshot_size(&self, guarded: bool) -> u64
        ensures { result ≡ snapshot_size (vault_due_kept guarded self.now.kept) self.now.kept }
    {
        match self.due_vault(guarded) {
            None => 0,
            Some(due) => {
                if matches!(due.stage, Stage::Prepare) {
                    self.size_at(due.version)
                } else {
                    0
                }
            }
        }
    }

    fn size_at(&self, version: u64) -> u64
        ensures { result ≡ length (content_at version self.now.kept) }
    {
        if version == self.last {
            self.size()
        } else {
            self.saving.as_slice().len() as u64
        }
    }
}

fn reserve_in(copy: &mut WorkingCopy, event: &Event) -> Result<(), AllocError>
    ensures room { OnOk result (CopyRoom event.now copy.new) }
    ensures copy { copy.new.copy ≡ copy.old.copy }
{
    match event {
        Event::Act(command) => reserve_for(copy, command),
        _ => Ok(()),
    }
}

fn reserve_for(copy: &mut WorkingCopy, command: &Command) -> Result<(), AllocError>
    ensures room { OnOk result (CopyRoom (Act command.now) copy.new) }
    ensures copy { copy.new.copy ≡ copy.old.copy }
{
    match command {
        Command::Edit { text, .. } => copy.reserve(text.as_slice().len()),
        Command::Undo(_) => copy.reserve_undo(),
        Command::Redo(_) => copy.reserve_redo(),
        _ => Ok(()),
    }
}
