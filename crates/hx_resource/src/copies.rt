//! What an outcome makes of the copy.

ghost use Rattle.std.specs.Prelude.{◌≡◌, ◌-◌, ◌<◌, ◌≤◌, ◌^◌, true, false, Ok, length, option_map, IfSome, vec_capacity};
ghost use Rattle.hx_copy.specs.Copies.{edit_answer, edited_copy, undone_copy, redone_copy, reverted_copy, saved_copy, has_places};
ghost use Rattle.hx_events.specs.declared.event.Event.TheVariants.{Act};
ghost use Rattle.hx_resource.specs.Kept.{copy_after, edited_by};
ghost use Rattle.hx_resource.specs.Rooms.{CanChange, CanEdit, ReadRoom, copies_first};

use hx_copy::WorkingCopy;
use hx_etag::Stat;
use hx_events::{Bytes, Command, Event, Outcome};
use std::alloc::Global;

fn edited(event: &Event, was: WorkingCopy) -> WorkingCopy
    requires can { CanEdit event.now was }
    requires version { was.copy.version < 2 ^ 64 - 1 }
    ensures { result.copy ≡ edited_by event.now was.copy }
{
    match event {
        Event::Act(command) => edited_by_command(command, was),
        _ => unreachable!(),
    }
}

fn edited_by_command(command: &Command, was: WorkingCopy) -> WorkingCopy
    requires can { CanEdit (Act command.now) was }
    requires version { was.copy.version < 2 ^ 64 - 1 }
    ensures { result.copy ≡ edited_by (Act command.now) was.copy }
{
    match command {
        Command::Edit { off, del, text, .. } => edited_by_text(*off, *del, text.as_slice(), was),
        _ => unreachable!(),
    }
}

fn edited_by_text(off: u64, del: u64, text: &[u8], was: WorkingCopy) -> WorkingCopy
    requires fits { edit_answer (length was.copy.here.content) off del (length text.now) ≡ Ok tt }
    requires room { length text.now < was.adds }
    requires version { was.copy.version < 2 ^ 64 - 1 }
    ensures { result.copy ≡ edited_copy off del text.now was.copy }
{
    let mut copy = was;
    let Ok(_) = copy.edit(off, del, text) else {
        unreachable!()
    };
    copy
}

fn undone(was: WorkingCopy) -> WorkingCopy
    requires can { has_places was.copy.back ≡ true }
    requires room { was.undoes ≡ true }
    requires version { was.copy.version < 2 ^ 64 - 1 }
    ensures { result.copy ≡ undone_copy was.copy }
{
    let mut copy = was;
    copy.undo();
    copy
}

fn redone(was: WorkingCopy) -> WorkingCopy
    requires can { has_places was.copy.ahead ≡ true }
    requires room { was.redoes ≡ true }
    requires version { was.copy.version < 2 ^ 64 - 1 }
    ensures { result.copy ≡ redone_copy was.copy }
{
    let mut copy = was;
    copy.redo();
    copy
}

fn reverted(content: Bytes, stat: Stat, was: WorkingCopy) -> WorkingCopy
    requires version { was.copy.version < 2 ^ 64 - 1 }
    ensures { result.copy ≡ reverted_copy content stat was.copy }
{
    let mut copy = was;
    copy.reverted(content, stat);
    copy
}

fn saved(version: u64, found: Option<Stat>, was: WorkingCopy) -> WorkingCopy
    ensures { result.copy ≡ saved_copy version found was.copy }
{
    let mut copy = was;
    copy.saved(version, found);
    copy
}

// The copy after the outcome, where the next version id is `first` and `content` is what was read.
pub(crate) fn changed_copy(
    alloc: Global,
    spare: &mut Vec<u8>,
    first: u64,
    event: &Event,
    outcome: Outcome,
    content: &[u8],
    was: Option<WorkingCopy>,
) -> Option<WorkingCopy>
    requires can { IfSome was (CanChange event.now outcome) }
    requires read { ReadRoom outcome content.now (vec_capacity spare.old) }
    requires version { IfSome was (λ c. c.copy.version < 2 ^ 64 - 1) }
    ensures copy { option_map (λ c. c.copy) result ≡ copy_after outcome event.now content.now first (option_map (λ c. c.copy) was) }
    ensures spare { copies_first outcome ≡ false → vec_capacity spare.new ≡ vec_capacity spare.old }
{
    match outcome {
        Outcome::Opened(stat) => {
            let read = fill(alloc, spare, content);
            Some(WorkingCopy::new(alloc, read, Some(stat), true, first))
        }
        Outcome::Created(_) => {
            let empty = Bytes::new(Vec::new(alloc));
            Some(WorkingCopy::new(alloc, empty, None, true, first))
        }
        Outcome::Edited(_) => match was {
            None => None,
            Some(copy) => Some(edited(event, copy)),
        },
        Outcome::Undone(_) => match was {
            None => None,
            Some(copy) => Some(undone(copy)),
        },
        Outcome::Redone(_) => match was {
            None => None,
            Some(copy) => Some(redone(copy)),
        },
        Outcome::Reverted(stat) => match was {
            None => None,
            Some(copy) => Some(reverted(fill(alloc, spare, content), stat, copy)),
        },
        Outcome::Closed => None,
        Outcome::Saved(version, found) => match was {
            None => None,
            Some(copy) => Some(saved(version, found, copy)),
        },
        _ => was,
    }
}

// A copy of the bytes, in the memory that is there.
pub(crate) fn fill(alloc: Global, spare: &mut Vec<u8>, bytes: &[u8]) -> Bytes
    requires { length bytes.now ≤ vec_capacity spare.old }
    ensures { result ≡ bytes.now }
{
    spare.clear();
    let Ok(()) = spare.extend_from_slice(bytes) else {
        unreachable!()
    };
    Bytes::new(std::mem::replace(spare, Vec::new(alloc)))
}
