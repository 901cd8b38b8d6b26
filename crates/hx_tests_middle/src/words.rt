//! Texts of tests, and what is read from them.

ghost use Rattle.std.specs.Prelude.{All, IfOk};
ghost use Rattle.hx_script.specs.Traces.{IsWellRead};

use hx_events::Outcome;
use hx_script::{Trace, read_trace};
use std::alloc::{AllocError, Global};
use std::process::Abort;
use std::test::Fail;

/// The text up to the first of these marks, and what lies behind it.
pub(crate) fn parted<'a>(text: &'a str, mark: &'static str) -> (&'a str, &'a str) {
    match text.split_once(mark) {
        None => (text, ""),
        Some(parts) => parts,
    }
}

pub(crate) fn number(text: &str) -> u64 {
    match text.parse::<u64>() {
        Ok(number) => number,
        Err(_) => 0,
    }
}

// Puts the text at the end, with 5,000 times `x` for its `~`, if it has one.
fn put_wide(out: &mut String, text: &str) -> Result<(), AllocError> {
    let (front, behind) = parted(text, "~");
    out.push_str(front)?;
    if front.len() < text.len() {
        for _ in 0..5000 {
            out.push('x')?;
        }
    }
    out.push_str(behind)
}

/// Puts a line of a table at the end as one of a trace: with a tab for ` => `, and with its line feed.
pub(crate) fn put_line(out: &mut String, line: &str) -> Result<(), AllocError> {
    let (event, outcome) = parted(line, " => ");
    put_wide(out, event)?;
    if !outcome.is_empty() {
        out.push('\t')?;
        out.push_str(outcome)?;
    }
    out.push('\n')
}

/// What stands in a row of the table of traces before the trace, the trace's lines, and the notes behind it.
pub(crate) fn row_parts(row: &str) -> (&str, &str, &str) {
    let (head, rest) = parted(row, "hotexit trace 1\n");
    let (lines, notes) = parted(rest, "\n> ");
    (head, lines, notes)
}

/// The text of a trace from its lines in a table.
pub(crate) fn trace_text(alloc: Global, lines: &str) -> Result<String, AllocError> {
    let mut out = String::from_str(alloc, "hotexit trace 1\n")?;
    for line in lines.lines() {
        put_line(&mut out, line)?;
    }
    Ok(out)
}

pub(crate) fn read(alloc: Global, text: &str) -> Result<Trace, Fail>
    ensures { IfOk result (λ trace. All IsWellRead trace.lives) }
{
    match read_trace(alloc, text.as_bytes()) {
        Ok(trace) => Ok(trace),
        Err(error) => Err(Fail::new(format_args!("{error} in {text}"))),
    }
}

/// Whether a call of the device failed.
pub(crate) fn is_fault(outcome: &Outcome) -> bool {
    matches!(
        outcome,
        Outcome::Fault | Outcome::StageFault(_, _) | Outcome::CheckFault | Outcome::WriteFault(_)
    )
}

// The line, from 1, in which the bytes first differ from the text, or the last one that both have.
fn first_difference(bytes: &[u8], text: &str) -> u64 {
    let mut line = 1u64;
    for (byte, other) in bytes.iter().zip(text.bytes()) {
        if *byte != other {
            return line;
        }
        if other == b'\n' {
            line = line.saturating_add(1);
        }
    }
    line
}

/// Compares what was printed with a text.
pub(crate) fn compare(printed: &[u8], wanted: &str) -> Result<(), Fail> {
    if printed == wanted.as_bytes() {
        return Ok(());
    }
    let line = first_difference(printed, wanted);
    Err(Fail::new(format_args!("line {line} is printed otherwise: {wanted}")))
}

/// Compares two texts.
pub(crate) fn says(rt: &impl Abort, text: &str, wanted: &str) {
    assert!(rt; text == wanted, "{text} is not {wanted}");
}
