//! The lines of a trace that are no events.

ghost use Rattle.std.specs.Prelude.{◌≡◌, ◌<◌, ◌≤◌, ℕ, List, Ok, IfOk, Result};
ghost use Rattle.hx_script.specs.declared.why.Why.{Why};
ghost use Rattle.hx_script.specs.Readings.{Answers, both};
ghost use Rattle.hx_script.specs.Lines.{texts};
ghost use Rattle.hx_script.specs.Traces.{trace_kind, number_is, life_in, backup_of, some_stat, restored_in, damaged_in, twin_in, found_in, pair_of, pair_in, ended_in, number_or_none, copy_of, is_state, copy_words, copy_in, is_answer, ticket_in, IsFoundOf};

use crate::declarations::settled;
use crate::fields::is;
use crate::outcomes::stat_of;
use crate::trace::TraceKind;
use crate::values::{number_in, number_up_to, resource_in, text_in};
use crate::why::{LineError, Why};
use hx_etag::Stat;
use hx_events::{Backup, Bytes, Ended, Names, PairFound, PairNo, Side};
use std::alloc::Global;

const LAST_PAIR: u64 = 63;

/// The kind of a line, by its first field.
pub fn trace_kind(field: &[u8]) -> TraceKind
    ensures { result ≡ trace_kind field.now }
{
    if is(field, b"life") {
        return TraceKind::Life;
    }
    if is(field, b"name") {
        return TraceKind::Name;
    }
    if is(field, b"pair") {
        return TraceKind::Pair;
    }
    if is(field, b"end") {
        return TraceKind::End;
    }
    if is(field, b"copy") {
        return TraceKind::Copy;
    }
    if is(field, b"ticket") {
        return TraceKind::Ticket;
    }
    TraceKind::Entry
}

/// Both parts of a line: that one has no form comes first, then the first bad field.
pub fn both<A: Drop, B: Drop>(
    left: Result<A, LineError>,
    right: Result<B, LineError>,
) -> Result<(A, B), LineError>
    ensures answers { (first : Result A Why) (second : Result B Why) → Answers left first → Answers right second → Answers result (both first second) }
    ensures left { IfOk result (λ parts. left ≡ Ok parts.0) }
    ensures right { IfOk result (λ parts. right ≡ Ok parts.1) }
{
    match (left, right) {
        (Err(LineError::Bad(Why::Form)), _) => Err(LineError::Bad(Why::Form)),
        (_, Err(LineError::Bad(Why::Form))) => Err(LineError::Bad(Why::Form)),
        (Err(LineError::NoMemory), _) => Err(LineError::NoMemory),
        (_, Err(LineError::NoMemory)) => Err(LineError::NoMemory),
        (Err(error), _) => Err(error),
        (_, Err(error)) => Err(error),
        (Ok(left), Ok(right)) => Ok((left, right)),
    }
}

/// The number of a life, which is the next of those that have begun.
pub fn life_in(begun: u64, fields: &[&[u8]]) -> Result<u64, Why>
    requires { begun ≤ 33 }
    ensures { result ≡ life_in begun (texts fields.now) }
{
    let [field] = fields else {
        return Err(Why::Form);
    };
    let number = number_in(field)?;
    if number == begun + 1 {
        Ok(number)
    } else {
        Err(Why::Number)
    }
}

fn backup_of(
    alloc: Global,
    names: &Names,
    name: &[u8],
    base: Result<Option<Stat>, Why>,
    text: &[u8],
) -> Result<PairFound, LineError>
    ensures answers { Answers result (backup_of names.now name.now base text.now) }
    ensures known { IfOk result (IsFoundOf names.now) }
{
    resource_in(names, name)?;
    let base = base?;
    let content = text_in(alloc, text)?;
    let resource = Bytes::new(Vec::from_slice(alloc, name)?);
    Ok(PairFound::Found(
        Backup {
            resource,
            base,
            content,
        },
        Side::A,
    ))
}

fn some_stat(mtime: &[u8], size: &[u8]) -> Result<Option<Stat>, Why>
    ensures { result ≡ some_stat mtime.now size.now }
{
    Ok(Some(stat_of(mtime, size)?))
}

fn restored_in(alloc: Global, names: &Names, fields: &[&[u8]]) -> Result<PairFound, LineError>
    ensures answers { Answers result (restored_in names.now (texts fields.now)) }
    ensures known { IfOk result (IsFoundOf names.now) }
{
    match fields {
        [name, base, text] if is(base, b"none") => backup_of(alloc, names, name, Ok(None), text),
        [name, mtime, size, text] => { backup_of(alloc, names, name, some_stat(mtime, size), text) }
        _ => Err(LineError::Bad(Why::Form)),
    }
}

fn damaged_in(fields: &[&[u8]]) -> Result<PairFound, Why>
    ensures answers { result ≡ damaged_in (texts fields.now) }
    ensures known { (names : List (List ℕ)) → IfOk result (IsFoundOf names) }
{
    if fields.is_empty() {
        Ok(PairFound::Damaged)
    } else {
        Err(Why::Form)
    }
}

fn twin_in(fields: &[&[u8]]) -> Result<PairFound, Why>
    ensures answers { result ≡ twin_in (texts fields.now) }
    ensures known { (names : List (List ℕ)) → IfOk result (IsFoundOf names) }
{
    match fields {
        [pair] => {
            let pair = number_up_to(LAST_PAIR, pair)?;
            Ok(PairFound::Twin(PairNo::new(pair as u32)))
        }
        _ => Err(Why::Form),
    }
}

fn found_in(
    alloc: Global,
    names: &Names,
    word: &[u8],
    fields: &[&[u8]],
) -> Result<PairFound, LineError>
    ensures answers { Answers result (found_in names.now word.now (texts fields.now)) }
    ensures known { IfOk result (IsFoundOf names.now) }
{
    if is(word, b"restored") {
        return restored_in(alloc, names, fields);
    }
    if is(word, b"damaged") {
        return Ok(damaged_in(fields)?);
    }
    if is(word, b"twin") {
        return Ok(twin_in(fields)?);
    }
    Err(LineError::Bad(Why::Form))
}

fn pair_of(
    alloc: Global,
    names: &Names,
    number: &[u8],
    fields: &[&[u8]],
) -> Result<(u64, PairFound), LineError>
    ensures answers { Answers result (pair_of names.now number.now (texts fields.now)) }
    ensures pair { IfOk result (λ pair. pair.0 < 64) }
    ensures known { IfOk result (λ pair. IsFoundOf names.now pair.1) }
{
    match fields {
        [word, rest @ ..] => both(
            settled(number_up_to(LAST_PAIR, number)),
            found_in(alloc, names, word, rest),
        ),
        [] => Err(LineError::Bad(Why::Form)),
    }
}

/// A pair's number and what it was found to hold.
#[tactic(auto, unfolding(crate::specs::Traces::pair_in))]
pub fn pair_in(
    alloc: Global,
    names: &Names,
    fields: &[&[u8]],
) -> Result<(u64, PairFound), LineError>
    ensures answers { Answers result (pair_in names.now (texts fields.now)) }
    ensures pair { IfOk result (λ pair. pair.0 < 64) }
    ensures known { IfOk result (λ pair. IsFoundOf names.now pair.1) }
{
    match fields {
        [number, rest @ ..] => pair_of(alloc, names, number, rest),
        [] => Err(LineError::Bad(Why::Form)),
    }
}

/// How a life ended.
pub fn ended_in(fields: &[&[u8]]) -> Result<Ended, Why>
    ensures { result ≡ ended_in (texts fields.now) }
{
    match fields {
        [word] if is(word, b"script") => Ok(Ended::Script),
        [word] if is(word, b"restart") => Ok(Ended::Restart),
        [word, pick] if is(word, b"crash") => Ok(Ended::Crash(number_in(pick)?)),
        _ => Err(Why::Form),
    }
}

fn number_or_none(field: &[u8]) -> Result<(), Why>
    ensures { result ≡ number_or_none field.now }
{
    if is(field, b"none") {
        return Ok(());
    }
    number_in(field)?;
    Ok(())
}

fn copy_of(names: &Names, name: &[u8], version: &[u8], backup: &[u8]) -> Result<(), Why>
    ensures { result ≡ copy_of names.now name.now version.now backup.now }
{
    resource_in(names, name)?;
    number_in(version)?;
    number_or_none(backup)
}

fn is_state(word: &[u8]) -> bool
    ensures { result ≡ is_state word.now }
{
    is(word, b"dirty") || is(word, b"clean")
}

fn copy_words(
    names: &Names,
    name: &[u8],
    first: &[u8],
    version: &[u8],
    state: &[u8],
    second: &[u8],
    backup: &[u8],
) -> Result<(), Why>
    ensures { result ≡ copy_words names.now name.now first.now version.now state.now second.now backup.now }
{
    if is(first, b"version") && is_state(state) && is(second, b"backup") {
        copy_of(names, name, version, backup)
    } else {
        Err(Why::Form)
    }
}

/// Whether the line of a copy can be read.
pub fn copy_in(names: &Names, fields: &[&[u8]]) -> Result<(), Why>
    ensures { result ≡ copy_in names.now (texts fields.now) }
{
    match fields {
        [name, first, version, state, second, backup] => {
            copy_words(names, name, first, version, state, second, backup)
        }
        _ => Err(Why::Form),
    }
}

fn is_answer(word: &[u8]) -> bool
    ensures { result ≡ is_answer word.now }
{
    is(word, b"clean") || is(word, b"modified") || is(word, b"fault") || is(word, b"none")
}

/// Whether the line of a ticket can be read.
pub fn ticket_in(fields: &[&[u8]]) -> Result<(), Why>
    ensures { result ≡ ticket_in (texts fields.now) }
{
    match fields {
        [place, word] if is_answer(word) => {
            number_in(place)?;
            Ok(())
        }
        [place, word, version] if is(word, b"saved") => {
            number_in(place)?;
            number_in(version)?;
            Ok(())
        }
        _ => Err(Why::Form),
    }
}
