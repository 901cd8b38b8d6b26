ghost use Rattle.hx_resource.specs.Asks.{FitsAsked, FitsWork};
ghost use Rattle.hx_resource.specs.Rooms.{got_content};
ghost use Rattle.hx_events.specs.declared.backup.TheConstants.{CONTENT_MAX};
ghost use Rattle.std.specs.Prelude.{◌≡◌, ◌≤◌, ◌<◌, length, IfOk};

use crate::check::crowded;
use crate::traces::TRACES;
use crate::whole::{is_below, resource};
use crate::words::{is_fault, read, row_parts, trace_text};
use hx_core::{Asked, Core, Got, Work};
use hx_etag::Stat;
use hx_events::{
    Backup, Bytes, CONTENT_MAX, CopyFact, Entry, Life, Names, Outcome, PairFound, Side, Stage,
};
use hx_script::TraceLife;
use hx_seq::SaveAnswer;
use std::alloc::{AllocError, Global};
use std::process::Abort;
use std::test::Fail;

// The stat of which an outcome tells.
fn stat(told: &Outcome) -> Option<Stat> {
    match told {
        Outcome::Opened(stat) | Outcome::Reverted(stat) | Outcome::Modified(stat) => Some(*stat),
        Outcome::Checked(stat) => *stat,
        Outcome::Saved(_, stat) => *stat,
        _ => None,
    }
}

// The device's answer to this work, of which the outcome tells.
fn answer(alloc: Global, work: Work, told: &Outcome) -> Result<Got, AllocError>
    ensures fits { IfOk result (λ got. FitsWork work got) }
    ensures few { IfOk result (λ got. length (got_content got) ≤ CONTENT_MAX) }
{
    if is_fault(told) {
        return Ok(Got::Failed);
    }
    let stat = stat(told);
    Ok(match work {
        Work::ReadFile(_) => match content(alloc, stat)? {
            None => Got::Found(None),
            Some((mtime, content)) if content.len() as u64 <= CONTENT_MAX => {
                let size = content.len() as u64;
                Got::Read(Stat { mtime, size }, Bytes::new(content))
            }
            Some(_) => Got::Failed,
        },
        Work::OutsideWrite => Got::Done,
        Work::Check(_) | Work::Write(_) => Got::Found(stat),
        Work::Vault(_, Stage::Prepare) if *told == Outcome::Spent => Got::Spent,
        Work::Vault(_, _) => Got::Done,
    })
}

// The time and a content of a file with this stat.
fn content(alloc: Global, stat: Option<Stat>) -> Result<Option<(u64, Vec<u8>)>, AllocError> {
    match stat {
        None => Ok(None),
        Some(stat) => {
            let size = stat.size as usize;
            Ok(Some((stat.mtime, vec![in alloc; b'x'; size]?)))
        }
    }
}

fn answer_to(alloc: Global, asked: Asked, told: &Outcome) -> Result<Got, AllocError>
    ensures fits { IfOk result (λ got. FitsAsked asked got) }
    ensures few { IfOk result (λ got. length (got_content got) ≤ CONTENT_MAX) }
{
    match asked {
        Asked::Settled(_) => Ok(Got::Nothing),
        Asked::Device(work) => answer(alloc, work, told),
    }
}

// Takes the event of an entry.
fn take(rt: &impl Abort, alloc: Global, core: &mut Core, entry: Entry) -> Result<Outcome, Fail> {
    let Entry {
        actor,
        event,
        outcome,
        ..
    } = entry;
    assert!(rt; is_below(core.count(), &event));
    core.reserve(&event, CONTENT_MAX)?;
    let got = answer_to(alloc, core.ask(&event), &outcome)?;
    Ok(core.step(actor, event, got, 0, 0))
}

fn found(base: Vec<PairFound>) -> Option<Backup> {
    for pair in base {
        if let PairFound::Found(backup, _) = pair {
            return Some(backup);
        }
    }
    None
}

// A core of a life with these names, or with the one resource that is restored.
fn begun(
    alloc: Global,
    names: Names,
    restored: Option<Backup>,
    guarded: bool,
) -> Result<Core, AllocError> {
    match restored {
        None => Core::new(alloc, names, &[], guarded),
        Some(backup) => {
            let pairs = [PairFound::Found(backup, Side::A)];
            Core::new(alloc, Names::new(alloc), &pairs, guarded)
        }
    }
}

fn put_number(alloc: Global, out: &mut Vec<u8>, number: Option<u64>) -> Result<(), AllocError> {
    match number {
        None => out.extend_from_slice(b"none"),
        Some(number) => out.extend_from_slice(format!(in alloc; "{number}")?.as_bytes()),
    }
}

// A copy's line of a tail.
fn put_copy(alloc: Global, out: &mut Vec<u8>, core: &Core, fact: CopyFact) -> Result<(), Fail> {
    let res = fact.res;
    if res.number() as usize >= core.count() || res.number() as usize >= core.names().len() {
        return Err(Fail::new("a copy of no resource"));
    }
    let version = core.copy(res).map(|copy| copy.version());
    let done = core.done(res);
    if fact.backed != (done == version) {
        return Err(Fail::new("a copy isn't backed up as it says"));
    }
    out.extend_from_slice(b"copy ")?;
    out.extend_from_slice(core.names().text(res))?;
    out.extend_from_slice(b" version ")?;
    put_number(alloc, out, version)?;
    out.extend_from_slice(if fact.dirty { b" dirty" } else { b" clean" })?;
    out.extend_from_slice(b" backup ")?;
    put_number(alloc, out, done)?;
    out.push(b'\n')?;
    Ok(())
}

fn answer_text(alloc: Global, answer: Option<SaveAnswer>) -> Result<String, AllocError> {
    match answer {
        None => String::from_str(alloc, "none"),
        Some(SaveAnswer::Saved(version)) => format!(in alloc; "saved {version}"),
        Some(SaveAnswer::Clean) => String::from_str(alloc, "clean"),
        Some(SaveAnswer::ModifiedSince) => String::from_str(alloc, "modified"),
        Some(SaveAnswer::DiskFault) => String::from_str(alloc, "fault"),
        Some(SaveAnswer::Unguarded) => String::from_str(alloc, "unguarded"),
    }
}

// A ticket's line of a tail, if the entry at this place, from 1, asked for a save of an open copy.
fn put_ticket(
    alloc: Global,
    out: &mut Vec<u8>,
    core: &Core,
    place: u64,
    entry: &Entry,
) -> Result<(), AllocError> {
    let has_asked = matches!(
        entry.outcome,
        Outcome::Joined | Outcome::Clean | Outcome::Queued | Outcome::Started(_)
    );
    if let Some(res) = resource(&entry.event) {
        if has_asked && (res.number() as usize) < core.count() {
            let answer = answer_text(alloc, core.sequencer(res).answer_of(place))?;
            let line = format!(in alloc; "ticket {place} {answer}\n")?;
            out.extend_from_slice(line.as_bytes())?;
        }
    }
    Ok(())
}

// How the core stands, as the tail of its life has it.
fn tail(alloc: Global, core: &Core) -> Result<Vec<u8>, Fail> {
    let mut out = Vec::new(alloc);
    for fact in core.copies(alloc)? {
        put_copy(alloc, &mut out, core, fact)?;
    }
    let mut place = 0u64;
    for entry in core.history() {
        place = place.saturating_add(1);
        put_ticket(alloc, &mut out, core, place, entry)?;
    }
    Ok(out)
}

// The lines of a tail, each with its line feed.
fn told_tail(alloc: Global, lines: &[Bytes]) -> Result<Vec<u8>, AllocError> {
    let mut out = Vec::new(alloc);
    for line in lines {
        out.extend_from_slice(line.as_slice())?;
        out.push(b'\n')?;
    }
    Ok(out)
}

// Plays a life of a trace in a core, and compares each outcome, and how the core stands at the end.
fn plays(
    rt: &impl Abort,
    alloc: Global,
    told: TraceLife,
    guarded: bool,
    text: &str,
) -> Result<(), Fail> {
    let TraceLife {
        life,
        first,
        tail,
        ..
    } = told;
    let Life {
        names,
        base,
        history,
        ..
    } = life;
    let mut core = begun(alloc, names, found(base.into_vec()), guarded)?;
    let mut line = first;
    for entry in history.into_vec() {
        let wanted = entry.outcome;
        let outcome = take(rt, alloc, &mut core, entry)?;
        assert_eq!(rt; outcome, wanted, "line {line} of {text}");
        line = line.saturating_add(1);
    }
    stands(rt, alloc, &core, tail.as_slice(), text)
}

fn stands(
    rt: &impl Abort,
    alloc: Global,
    core: &Core,
    lines: &[Bytes],
    text: &str,
) -> Result<(), Fail> {
    let (stands, told) = (tail(alloc, core)?, told_tail(alloc, lines)?);
    assert!(rt;
        stands.as_slice() == told.as_slice(),
        "at the end of {text}"
    );
    Ok(())
}

fn plays_all(rt: &impl Abort, alloc: Global, text: &str, guarded: bool) -> Result<(), Fail> {
    let trace = read(alloc, text)?;
    for told in trace.lives.into_vec() {
        plays(rt, alloc, told, guarded, text)?;
    }
    Ok(())
}

fn plays_row(rt: &impl Abort, alloc: Global, row: &str) -> Result<(), Fail> {
    let (head, lines, _) = row_parts(row);
    let text = trace_text(alloc, lines)?;
    plays_all(rt, alloc, &text, head.starts_with("guarded"))
}

#[test]
fn a_core_comes_to_the_outcomes_of_each_trace(rt: HostRuntime) -> Result<(), Fail> {
    for row in TRACES.split("\n\n") {
        plays_row(&rt, rt.alloc(), row)?;
    }
    plays_all(&rt, rt.alloc(), &crowded(rt.alloc(), "nopair")?, false)
}
