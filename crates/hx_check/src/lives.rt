//! The judgement of a trace, life by life.

ghost use Rattle.std.specs.Prelude.{◌≡◌, ◌≤◌, ◌==◌, ◌&&◌, ℕ, [], false, bytes_eq, length, Some, is_some, option_map, slice_get, count_by, IfOk};
ghost use Rattle.hx_events.specs.Texts.{name_of};
ghost use Rattle.hx_rules.specs.Legal.{found_backup, is_barred};
ghost use Rattle.hx_report.specs.Traces.{IsWhole};
ghost use Rattle.hx_report.specs.Tails.{tail_text};
ghost use Rattle.hx_check.specs.declared.sketch.Sketch.{Sketch};
ghost use Rattle.hx_check.specs.Verdicts.{AreLegal, AreRead, IsReadLife, bad_entry, bad_in_life, bad_line, goes_on, plain_opening, verdict_on};
ghost use Rattle.hx_check.specs.Sketches.{first_sketch};
ghost use Rattle.hx_check.specs.Judging.{IsJudged};

use crate::judge::Judge;
use crate::sketch::Sketch;
use crate::verdict::Verdict;
use hx_events::{Backup, Bytes, Life, Names, PairFound, ResNo};
use hx_report::tail;
use hx_script::{Trace, TraceLife};
use std::alloc::{AllocError, Global};

/// Judges a trace by the rules of a life that isn't guarded. `NotAt` gives exactly the first line that isn't right: an entry whose
/// outcome isn't one that the rules give after the lines before it, with what a device answered taken as given; or a copy or ticket
/// line that differs from the tail that such a life prints. Where lines are missing there, it is the line behind the last.
pub fn check(alloc: Global, trace: &Trace) -> Result<Verdict, AllocError>
    requires { AreRead trace.now.lives }
    ensures verdict { IfOk result (λ verdict. verdict ≡ verdict_on trace.now) }

    // At Legal each life's history is legal, and its tail is the one that it prints.
    ensures legal { IfOk result (λ verdict. verdict ≡ Verdict.Legal → AreLegal trace.now.lives) }
{
    judged(alloc, trace)
}

fn judged(alloc: Global, trace: &Trace) -> Result<Verdict, AllocError>
    requires { AreRead trace.now.lives }
    ensures { IfOk result (λ verdict. verdict ≡ verdict_on trace.now) }
{
    for life in trace.lives.as_slice() {
        if let Some(line) = bad_in_life(alloc, life)? {
            return Ok(Verdict::NotAt(line));
        }
    }
    Ok(Verdict::Legal)
}

// The first line of the life that isn't right.
fn bad_in_life(alloc: Global, life: &TraceLife) -> Result<Option<u64>, AllocError>
    requires { IsReadLife life.now }
    ensures { IfOk result (λ line. line ≡ bad_in_life life.now) }
{
    match bad_entry(alloc, &life.life, life.first)? {
        None => bad_tail(alloc, life),
        line => Ok(line),
    }
}

fn bad_tail(alloc: Global, life: &TraceLife) -> Result<Option<u64>, AllocError>
    requires { IsReadLife life.now }
    ensures { IfOk result (λ line. line ≡ bad_line life.now.tail_line life.now.tail (tail_text life.now.life)) }
{
    let text = tail(alloc, &life.life)?;
    Ok(bad_line(life.tail_line, life.tail.as_slice(), text.as_slice()))
}

// The line of the first entry that the rules don't allow.
fn bad_entry(alloc: Global, life: &Life, first: u64) -> Result<Option<u64>, AllocError>
    requires whole { IsWhole life.now }
    requires first { first ≤ 200001 }
    ensures { IfOk result (λ line. line ≡ bad_entry (plain_opening life.now) [] first life.now.history) }
{
    let mut judge = first_judge(alloc, &life.names, life.base.as_slice())?;
    for (index, entry) in life.history.as_slice().iter().enumerate() {
        if !judge.may_have(&entry.event, &entry.outcome) {
            return Ok(Some(first + index as u64));
        }
        judge.note(index as u64 + 1, &entry.event, &entry.outcome)?;
    }
    Ok(None)
}

// A judge of a life that begins with these pairs.
fn first_judge(alloc: Global, names: &Names, base: &[PairFound]) -> Result<Judge, AllocError>
    ensures count { IfOk result (λ judge. length judge.sketches.items ≡ length names.now) }
    ensures each { IfOk result (λ judge. (k : ℕ) (x : Sketch) → slice_get judge.sketches.items k ≡ Some x → x ≡ first_sketch (found_backup (name_of names.now k) base.now)) }
    ensures barred { IfOk result (λ judge. judge.barred ≡ count_by is_barred base.now) }
    ensures spent { IfOk result (λ judge. judge.spent ≡ false) }
{
    Ok(Judge {
        sketches: first_sketches(alloc, names, base)?,
        barred: barred(base),
        spent: false,
    })
}

fn first_sketches(
    alloc: Global,
    names: &Names,
    base: &[PairFound],
) -> Result<Vec<Sketch>, AllocError>
    ensures count { IfOk result (λ all. length all.items ≡ length names.now) }
    ensures each { IfOk result (λ all. (k : ℕ) (x : Sketch) → slice_get all.items k ≡ Some x → x ≡ first_sketch (found_backup (name_of names.now k) base.now)) }
{
    let mut sketches = Vec::with_capacity(alloc, names.len())?;
    for place in 0..names.len() {
        let name = names.text(ResNo::new(place as u32));
        sketches.push(Sketch::first(alloc, found_backup(name, base))?)?;
    }
    Ok(sketches)
}

// The lowest pair's backup of the resource.
fn found_backup<'a>(resource: &[u8], base: &'a [PairFound]) -> Option<&'a Backup>
    ensures { option_map (λ b. b.now) result ≡ found_backup resource.now base.now }
{
    for pair in base {
        if let PairFound::Found(backup, _) = pair {
            if backup.resource.as_slice() == resource {
                return Some(backup);
            }
        }
    }
    None
}

// How many pairs are barred.
fn barred(base: &[PairFound]) -> u64
    ensures { result ≡ count_by is_barred base.now }
{
    base.iter()
        .filter(|pair| matches!(pair, PairFound::Damaged | PairFound::Twin(_)))
        .count() as u64
}

// The number of the first of these lines that differs from the text.
fn bad_line(number: u64, lines: &[Bytes], text: &[u8]) -> Option<u64>
    requires { number ≤ 200001 }
    ensures { result ≡ bad_line number lines.now text.now }
{
    let mut at = 0;
    for (index, line) in lines.iter().enumerate() {
        if !goes_on(line.as_slice(), &text[at..]) {
            return Some(number + index as u64);
        }
        at += line.as_slice().len() + 1;
    }
    if at < text.len() {
        return Some(number + lines.len() as u64);
    }
    None
}

// Whether the text goes on with this line and its line feed.
fn goes_on(line: &[u8], text: &[u8]) -> bool
    ensures { result ≡ goes_on line.now text.now }
{
    match text.get(line.len()) {
        None => false,
        Some(end) => is_line(&text[..line.len()], line, *end),
    }
}

fn is_line(front: &[u8], line: &[u8], end: u8) -> bool
    ensures { result ≡ (bytes_eq front.now line.now && end == 10) }
{
    front == line && end == b'\n'
}
