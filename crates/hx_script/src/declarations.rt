//! The kinds of lines, and those that are no events.

ghost use Rattle.std.specs.Prelude.{◌≡◌, ◌<◌, ℕ, false, Result, Ok, OnOk, IfOk, None, true};
ghost use Rattle.hx_events.specs.Places.{place_of};
ghost use Rattle.hx_events.specs.Resources.{is_resource};
ghost use Rattle.hx_script.specs.declared.why.Why.{Why};
ghost use Rattle.hx_script.specs.Readings.{Answers, ranked};
ghost use Rattle.hx_script.specs.Lines.{texts};
ghost use Rattle.hx_script.specs.Scripts.{kind_in, new_name, name_in, plant_of, plant_in, crash_in, restart_in};

use crate::events::actor_in;
use crate::fields::is;
use crate::script::{Plant, Step};
use crate::values::{number_in, number_up_to, text_in};
use crate::why::{LineError, Why};
use hx_disk::FileNo;
use hx_events::{Actor, Bytes, Names, is_resource};
use std::alloc::Global;

/// The kind of a script's line.
#[derive(Clone, Copy, Debug, PartialEq, Eq)]
pub enum Kind {
    Declares,
    Plants,
    Crashes,
    Restarts,

    /// An event of this actor.
    Does(Actor),
}

/// The kind of a line, by its first field.
pub fn kind_in(field: &[u8]) -> Option<Kind>
    ensures { result ≡ kind_in field.now }
{
    if is(field, b"file") {
        return Some(Kind::Declares);
    }
    if is(field, b"slot") {
        return Some(Kind::Plants);
    }
    if is(field, b"crash") {
        return Some(Kind::Crashes);
    }
    if is(field, b"restart") {
        return Some(Kind::Restarts);
    }
    match actor_in(field) {
        Some(actor) => Some(Kind::Does(actor)),
        None => None,
    }
}

/// What a line gives, or the first of its reasons in their order: it has no form, isn't allowed at its place, is one too
/// many, has a bad field. Want of memory stays want of memory.
pub fn ranked<T: Drop>(
    line: Result<T, LineError>,
    is_misplaced: bool,
    is_too_many: bool,
) -> Result<T, LineError>
    ensures answers { (read : Result T Why) → Answers line read → Answers result (ranked read is_misplaced is_too_many) }
    ensures placed { OnOk result (is_misplaced ≡ false) }
    ensures counted { OnOk result (is_too_many ≡ false) }
    ensures same { IfOk result (λ value. line ≡ Ok value) }
{
    match line {
        Err(LineError::Bad(Why::Form)) => Err(LineError::Bad(Why::Form)),
        Err(LineError::NoMemory) => Err(LineError::NoMemory),
        _ if is_misplaced => Err(LineError::Bad(Why::Place)),
        _ if is_too_many => Err(LineError::Bad(Why::TooMany)),
        line => line,
    }
}

/// A line's value or reason, where no memory was asked for.
pub fn settled<T>(line: Result<T, Why>) -> Result<T, LineError>
    ensures answers { Answers result line }
    ensures same { IfOk result (λ value. line ≡ Ok value) }
{
    match line {
        Ok(value) => Ok(value),
        Err(why) => Err(LineError::Bad(why)),
    }
}

/// A resource that isn't among the names yet.
pub fn new_name(alloc: Global, names: &Names, field: &[u8]) -> Result<Bytes, LineError>
    ensures answers { Answers result (new_name names.now field.now) }
    ensures resource { IfOk result (λ name. is_resource name ≡ true) }
    ensures new { IfOk result (λ name. place_of name names.now ≡ None) }
{
    if !is_resource(field) {
        return Err(LineError::Bad(Why::Resource));
    }
    if names.find(field).is_some() {
        return Err(LineError::Bad(Why::Declared));
    }
    Ok(Bytes::new(Vec::from_slice(alloc, field)?))
}

/// The name that a line declares, by the fields behind its first.
pub fn name_in(alloc: Global, names: &Names, fields: &[&[u8]]) -> Result<Bytes, LineError>
    ensures answers { Answers result (name_in names.now (texts fields.now)) }
    ensures resource { IfOk result (λ name. is_resource name ≡ true) }
    ensures new { IfOk result (λ name. place_of name names.now ≡ None) }
{
    match fields {
        [name] => new_name(alloc, names, name),
        _ => Err(LineError::Bad(Why::Form)),
    }
}

const LAST_SLOT: u64 = 127;

fn plant_of(alloc: Global, number: &[u8], text: &[u8]) -> Result<Plant, LineError>
    ensures answers { Answers result (plant_of number.now text.now) }
    ensures slot { IfOk result (λ plant. plant.file < 128) }
{
    let number = number_up_to(LAST_SLOT, number)?;
    let bytes = text_in(alloc, text)?;
    Ok(Plant {
        file: FileNo::new(number as u32),
        bytes,
    })
}

/// What a line plants.
pub fn plant_in(alloc: Global, fields: &[&[u8]]) -> Result<Plant, LineError>
    ensures answers { Answers result (plant_in (texts fields.now)) }
    ensures slot { IfOk result (λ plant. plant.file < 128) }
{
    match fields {
        [number, text] => plant_of(alloc, number, text),
        _ => Err(LineError::Bad(Why::Form)),
    }
}

/// The crash of a line.
pub fn crash_in(fields: &[&[u8]]) -> Result<Step, Why>
    ensures { result ≡ crash_in (texts fields.now) }
{
    match fields {
        [pick] => Ok(Step::Crash(number_in(pick)?)),
        _ => Err(Why::Form),
    }
}

/// The restart of a line.
pub fn restart_in(fields: &[&[u8]]) -> Result<Step, Why>
    ensures { result ≡ restart_in (texts fields.now) }
{
    if fields.is_empty() {
        Ok(Step::Restart)
    } else {
        Err(Why::Form)
    }
}
