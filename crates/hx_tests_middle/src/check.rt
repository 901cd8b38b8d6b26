use crate::traces::TRACES;
use crate::words::{number, parted, put_line, read, row_parts, trace_text};
use hx_check::{Verdict, a_trace_that_was_read_may_be_judged, check};
use std::alloc::{AllocError, Global};
use std::process::Abort;
use std::test::Fail;

// The trace with this line in the place of the one of this number, or behind the last one. An empty line is none.
fn changed(alloc: Global, trace: &str, place: u64, other: &str) -> Result<String, AllocError> {
    let mut out = String::new(alloc);
    let mut count = 0u64;
    for line in trace.lines() {
        count = count.saturating_add(1);
        let line = if count == place { other } else { line };
        if !line.is_empty() {
            put_line(&mut out, line)?;
        }
    }
    if place > count {
        put_line(&mut out, other)?;
    }
    Ok(out)
}

fn verdict(alloc: Global, text: &str) -> Result<Verdict, Fail> {
    a_trace_that_was_read_may_be_judged();
    let trace = read(alloc, text)?;
    Ok(check(alloc, &trace)?)
}

// Judges the trace with this note's change, if it has one.
fn judges(rt: &impl Abort, alloc: Global, trace: &str, note: &str) -> Result<(), Fail> {
    let (word, change) = parted(note, " ");
    if word == "not" {
        let (place, line) = parted(change, " ");
        let place = number(place);
        let text = changed(alloc, trace, place, line)?;
        assert_eq!(rt; verdict(alloc, &text)?, Verdict::NotAt(place), "{text}");
    }
    Ok(())
}

fn is_legal(rt: &impl Abort, alloc: Global, text: &str) -> Result<(), Fail> {
    assert_eq!(rt; verdict(alloc, text)?, Verdict::Legal, "{text}");
    Ok(())
}

fn judges_row(rt: &impl Abort, alloc: Global, row: &str) -> Result<(), Fail> {
    let (head, lines, notes) = row_parts(row);
    let text = trace_text(alloc, lines)?;
    if !head.starts_with("guarded") {
        is_legal(rt, alloc, &text)?;
    }
    for note in notes.split("\n> ") {
        judges(rt, alloc, &text, note)?;
    }
    Ok(())
}

#[test]
fn traces_are_judged_to_the_first_line_that_is_not_legal(rt: HostRuntime) -> Result<(), Fail> {
    for row in TRACES.split("\n\n") {
        judges_row(&rt, rt.alloc(), row)?;
    }
    Ok(())
}

// A line for each of these numbers.
fn put_lines(
    alloc: Global,
    out: &mut String,
    front: &str,
    numbers: (u64, u64),
    behind: &str,
) -> Result<(), AllocError> {
    for number in numbers.0..numbers.1 {
        out.push_str(front)?;
        out.push_str(format!(in alloc; "{number}")?.as_str())?;
        put_line(out, behind)?;
    }
    Ok(())
}

/// A life in which the 65th of 65 resources is created while all pairs are held, with this outcome, and once more after the
/// first one was closed.
pub(crate) fn crowded(alloc: Global, outcome: &str) -> Result<String, AllocError> {
    let mut out = String::from_str(alloc, "hotexit trace 1\nlife 1\n")?;
    put_lines(alloc, &mut out, "name file:///", (0, 65), "")?;
    put_lines(
        alloc,
        &mut out,
        "w0 create file:///",
        (0, 64),
        " => created 1",
    )?;
    out.push_str("w0 create file:///64\t")?;
    put_line(&mut out, outcome)?;
    out.push_str("w0 close file:///0\tclosed\nw0 create file:///64\tcreated 1\nend script\n")?;
    put_lines(
        alloc,
        &mut out,
        "copy file:///",
        (1, 65),
        " version 1 clean backup none",
    )?;
    Ok(out)
}

#[test]
fn a_pair_is_missing_once_64_are_held(rt: HostRuntime) -> Result<(), Fail> {
    let alloc = rt.alloc();
    let right = crowded(alloc, "nopair")?;
    is_legal(&rt, alloc, &right)?;
    let wrong = crowded(alloc, "created 1")?;
    assert_eq!(rt; verdict(alloc, &wrong)?, Verdict::NotAt(132));
    Ok(())
}
