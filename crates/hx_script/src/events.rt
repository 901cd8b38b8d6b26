//! The events of lines.

ghost use Rattle.std.specs.Prelude.{◌≡◌, ◌<◌, length, IfOk};
ghost use Rattle.hx_events.specs.Texts.{resource_of, IsEventOf};
ghost use Rattle.hx_events.specs.declared.event.Actor.TheVariants.{Closer, Watcher};
ghost use Rattle.hx_events.specs.declared.event.Event.TheVariants.{Quit};
ghost use Rattle.hx_script.specs.Events.{IsAskedBy};
ghost use Rattle.hx_script.specs.Readings.{Answers};
ghost use Rattle.hx_script.specs.Lines.{texts};
ghost use Rattle.hx_script.specs.Events.{actor_in, one_resource, edit_of, edit_in, save_of, save_in, outside_of, outside_in, command_in, vault_in, flush_in, quit_in, closing_in, watch_in, deed_in, event_in, move_in};

use crate::fields::is;
use crate::values::{number_in, resource_in, text_in};
use crate::why::{LineError, Why};
use hx_events::{Actor, Command, Event, Names, ResNo};
use std::alloc::Global;

/// Who a field names.
pub fn actor_in(field: &[u8]) -> Option<Actor>
    ensures { result ≡ actor_in field.now }
{
    match field {
        [b'q'] => Some(Actor::Closer),
        [b'w', digit @ b'0'..=b'7'] => Some(Actor::Window(*digit - b'0')),
        [b'b', digit @ b'0'..=b'3'] => Some(Actor::Writer(*digit - b'0')),
        [b's', digit @ b'0'..=b'3'] => Some(Actor::Saver(*digit - b'0')),
        [b'v', b'0'] => Some(Actor::Watcher),
        _ => None,
    }
}

/// The one resource that stands behind a word.
pub fn one_resource(names: &Names, fields: &[&[u8]]) -> Result<ResNo, Why>
    ensures answers { result ≡ one_resource names.now (texts fields.now) }
    ensures known { IfOk result (λ res. res < length names.now) }
{
    match fields {
        [name] => resource_in(names, name),
        _ => Err(Why::Form),
    }
}

fn edit_of(
    alloc: Global,
    names: &Names,
    name: &[u8],
    off: &[u8],
    del: &[u8],
    text: &[u8],
) -> Result<Command, LineError>
    ensures answers { Answers result (edit_of names.now name.now off.now del.now text.now) }
    ensures known { IfOk result (λ command. resource_of command < length names.now) }
{
    let res = resource_in(names, name)?;
    let off = number_in(off)?;
    let del = number_in(del)?;
    let text = text_in(alloc, text)?;
    Ok(Command::Edit {
        res,
        off,
        del,
        text,
    })
}

fn edit_in(alloc: Global, names: &Names, fields: &[&[u8]]) -> Result<Command, LineError>
    ensures answers { Answers result (edit_in names.now (texts fields.now)) }
    ensures known { IfOk result (λ command. resource_of command < length names.now) }
{
    match fields {
        [name, off, del, text] => edit_of(alloc, names, name, off, del, text),
        _ => Err(LineError::Bad(Why::Form)),
    }
}

fn save_of(names: &Names, name: &[u8], force: bool, over: bool) -> Result<Command, Why>
    ensures answers { result ≡ save_of names.now name.now force over }
    ensures known { IfOk result (λ command. resource_of command < length names.now) }
{
    let res = resource_in(names, name)?;
    Ok(Command::Save { res, force, over })
}

fn save_in(names: &Names, fields: &[&[u8]]) -> Result<Command, Why>
    ensures answers { result ≡ save_in names.now (texts fields.now) }
    ensures known { IfOk result (λ command. resource_of command < length names.now) }
{
    match fields {
        [name] => save_of(names, name, false, false),
        [name, word] if is(word, b"force") => save_of(names, name, true, false),
        [name, word] if is(word, b"over") => save_of(names, name, false, true),
        [name, first, second] if is(first, b"force") && is(second, b"over") => {
            save_of(names, name, true, true)
        }
        _ => Err(Why::Form),
    }
}

fn outside_of(
    alloc: Global,
    names: &Names,
    name: &[u8],
    mtime: &[u8],
    text: &[u8],
) -> Result<Command, LineError>
    ensures answers { Answers result (outside_of names.now name.now mtime.now text.now) }
    ensures known { IfOk result (λ command. resource_of command < length names.now) }
{
    let res = resource_in(names, name)?;
    let mtime = number_in(mtime)?;
    let text = text_in(alloc, text)?;
    Ok(Command::Outside { res, mtime, text })
}

fn outside_in(alloc: Global, names: &Names, fields: &[&[u8]]) -> Result<Command, LineError>
    ensures answers { Answers result (outside_in names.now (texts fields.now)) }
    ensures known { IfOk result (λ command. resource_of command < length names.now) }
{
    match fields {
        [name, mtime, text] => outside_of(alloc, names, name, mtime, text),
        _ => Err(LineError::Bad(Why::Form)),
    }
}

fn command_in(
    alloc: Global,
    names: &Names,
    word: &[u8],
    fields: &[&[u8]],
) -> Result<Command, LineError>
    ensures answers { Answers result (command_in names.now word.now (texts fields.now)) }
    ensures known { IfOk result (λ command. resource_of command < length names.now) }
{
    if is(word, b"open") {
        return Ok(Command::Open(one_resource(names, fields)?));
    }
    if is(word, b"create") {
        return Ok(Command::Create(one_resource(names, fields)?));
    }
    if is(word, b"edit") {
        return edit_in(alloc, names, fields);
    }
    if is(word, b"undo") {
        return Ok(Command::Undo(one_resource(names, fields)?));
    }
    if is(word, b"redo") {
        return Ok(Command::Redo(one_resource(names, fields)?));
    }
    if is(word, b"save") {
        return Ok(save_in(names, fields)?);
    }
    if is(word, b"revert") {
        return Ok(Command::Revert(one_resource(names, fields)?));
    }
    if is(word, b"close") {
        return Ok(Command::Close(one_resource(names, fields)?));
    }
    if is(word, b"outside") {
        return outside_in(alloc, names, fields);
    }
    Err(LineError::Bad(Why::Form))
}

fn vault_in(names: &Names, word: &[u8], fields: &[&[u8]]) -> Result<Event, Why>
    ensures answers { result ≡ vault_in names.now word.now (texts fields.now) }
    ensures known { IfOk result (λ event. IsEventOf names.now event) }
{
    if is(word, b"vault") {
        return Ok(Event::Vault(one_resource(names, fields)?));
    }
    Err(Why::Form)
}

fn flush_in(names: &Names, word: &[u8], fields: &[&[u8]]) -> Result<Event, Why>
    ensures answers { result ≡ flush_in names.now word.now (texts fields.now) }
    ensures known { IfOk result (λ event. IsEventOf names.now event) }
{
    if is(word, b"flush") {
        return Ok(Event::Flush(one_resource(names, fields)?));
    }
    Err(Why::Form)
}

fn quit_in(word: &[u8], fields: &[&[u8]]) -> Result<Event, Why>
    ensures answers { result ≡ quit_in word.now (texts fields.now) }
    ensures known { IfOk result (λ event. event ≡ Quit) }
{
    if fields.is_empty() && is(word, b"quit") {
        Ok(Event::Quit)
    } else {
        Err(Why::Form)
    }
}

fn closing_in(names: &Names, word: &[u8], fields: &[&[u8]]) -> Result<Event, Why>
    ensures answers { result ≡ closing_in names.now word.now (texts fields.now) }
    ensures known { IfOk result (λ event. IsEventOf names.now event) }
{
    if is(word, b"vault") {
        return vault_in(names, word, fields);
    }
    if is(word, b"flush") {
        return flush_in(names, word, fields);
    }
    quit_in(word, fields)
}

fn watch_in(names: &Names, word: &[u8], fields: &[&[u8]]) -> Result<Event, Why>
    ensures answers { result ≡ watch_in names.now word.now (texts fields.now) }
    ensures known { IfOk result (λ event. IsEventOf names.now event × IsAskedBy Watcher event) }
{
    if is(word, b"revert") {
        return Ok(Event::Act(Command::Revert(one_resource(names, fields)?)));
    }
    Err(Why::Form)
}

fn deed_in(
    alloc: Global,
    names: &Names,
    actor: Actor,
    word: &[u8],
    fields: &[&[u8]],
) -> Result<Event, LineError>
    ensures answers { Answers result (deed_in names.now actor word.now (texts fields.now)) }
    ensures known { IfOk result (λ event. IsEventOf names.now event × IsAskedBy actor event) }
{
    Ok(match actor {
        Actor::Window(_) => Event::Act(command_in(alloc, names, word, fields)?),
        Actor::Writer(_) => vault_in(names, word, fields)?,
        Actor::Saver(_) => flush_in(names, word, fields)?,
        Actor::Closer => closing_in(names, word, fields)?,
        Actor::Watcher => watch_in(names, word, fields)?,
    })
}

/// The event of an actor, by the fields behind it.
pub fn event_in(
    alloc: Global,
    names: &Names,
    actor: Actor,
    fields: &[&[u8]],
) -> Result<Event, LineError>
    ensures answers { Answers result (event_in names.now actor (texts fields.now)) }
    ensures known { IfOk result (λ event. IsEventOf names.now event × IsAskedBy actor event) }
{
    match fields {
        [word, rest @ ..] => deed_in(alloc, names, actor, word, rest),
        [] => Err(LineError::Bad(Why::Form)),
    }
}

/// Who did what, by all fields of an event's line.
pub fn move_in(alloc: Global, names: &Names, fields: &[&[u8]]) -> Result<(Actor, Event), LineError>
    ensures answers { Answers result (move_in names.now (texts fields.now)) }
    ensures known { IfOk result (λ done. IsEventOf names.now done.1) }
{
    let [first, rest @ ..] = fields else {
        return Err(LineError::Bad(Why::Form));
    };
    let Some(actor) = actor_in(first) else {
        return Err(LineError::Bad(Why::Form));
    };
    let event = event_in(alloc, names, actor, rest)?;
    Ok((actor, event))
}
