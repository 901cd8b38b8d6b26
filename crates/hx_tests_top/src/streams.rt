//! Streams that fail in the middle, openings that fail at each call, and the texts of errors.

use crate::playing::{Ran, run, run_over};
use hx_base::EscapeError;
use hx_filedisk::Stores;
use hx_io::{MemSink, MemSource, ReadAllError};
use hx_script::{ScriptError, Why};
use hx_top::{End, NoWords, report, run_to_exit};
use std::alloc::{AllocError, Global};
use std::process::{Abort, ExitCode};
use std::sync::Wait;
use std::test::Fail;
use std::thread::Threads;

fn source(alloc: Global, text: &[u8], fails: Option<u64>) -> Result<MemSource, AllocError> {
    let mut planned = Vec::new(alloc);
    if let Some(call) = fails {
        planned.push(call)?;
    }
    Ok(MemSource::new(text.to_vec(alloc)?, planned))
}

fn ends_so(rt: &impl Abort, ran: &Ran, status: u8, output: &str, told: &str) {
    assert!(rt; ran.code == ExitCode::from(status), "{told}");
    assert_eq!(rt; ran.output.as_slice(), output.as_bytes(), "{told}");
    assert_eq!(rt; ran.told.as_slice(), told.as_bytes());
}

#[test]
fn a_source_may_fail(rt: HostRuntime) -> Result<(), Fail> {
    let alloc = rt.alloc();
    for call in 1..=2u64 {
        let script = source(alloc, b"hotexit 1\n", Some(call))?;
        let ran = run_over(&rt, alloc, "replay", script, 100)?;
        ends_so(&rt, &ran, 4, "", "input failed\n");
    }
    Ok(())
}

#[test]
fn a_sink_may_take_a_part(rt: HostRuntime) -> Result<(), Fail> {
    let alloc = rt.alloc();
    let ran = run_over(
        &rt,
        alloc,
        "replay",
        source(alloc, b"hotexit 1\n", None)?,
        10,
    )?;
    ends_so(&rt, &ran, 5, "hotexit tr", "output failed\n");
    let ran = run_over(&rt, alloc, "made 1", source(alloc, b"", None)?, 0)?;
    ends_so(&rt, &ran, 5, "", "output failed\n");
    Ok(())
}

#[test]
fn a_last_line_wants_its_end(rt: HostRuntime) -> Result<(), Fail> {
    let ran = run(&rt, rt.alloc(), "replay", b"hotexit 1\nfile file:///a")?;
    ends_so(&rt, &ran, 3, "", "line 2: noend\n");
    Ok(())
}

fn without_words<R: Threads + Wait + Sync + Stores>(
    rt: &R,
    alloc: Global,
    why: NoWords,
) -> Result<Ran, AllocError> {
    let mut input = source(alloc, b"hotexit 1\n", None)?;
    let mut sink = MemSink::new(alloc, 100, Vec::new(alloc))?;
    let mut errors = MemSink::new(alloc, 200, Vec::new(alloc))?;
    let exit = run_to_exit(rt, alloc, Err(why), &mut input, &mut sink, &mut errors);
    Ok(Ran {
        end: exit.end,
        code: exit.code,
        output: sink.bytes().to_vec(alloc)?,
        told: errors.bytes().to_vec(alloc)?,
    })
}

#[test]
fn a_program_may_have_no_words(rt: HostRuntime) -> Result<(), Fail> {
    let alloc = rt.alloc();
    let ran = without_words(&rt, alloc, NoWords::OutOfMemory)?;
    ends_so(&rt, &ran, 6, "", "out of memory\n");
    let ran = without_words(&rt, alloc, NoWords::NotText)?;
    assert!(rt; ran.code == ExitCode::from(2));
    assert!(rt; ran.told.starts_with(b"usage: hotexit "));
    Ok(())
}

#[test]
fn a_line_that_is_not_taken_is_lost(rt: HostRuntime) -> Result<(), Fail> {
    let alloc = rt.alloc();
    let mut errors = MemSink::new(alloc, 5, Vec::new(alloc))?;
    assert!(rt; report(&mut errors, End::ReadFault).is_err());
    assert_eq!(rt; errors.bytes(), b"input".as_slice());
    Ok(())
}

#[test]
fn an_opening_fails_with_each_of_its_calls(rt: HostRuntime) -> Result<(), Fail> {
    let alloc = rt.alloc();
    for call in 1..=256u64 {
        let words = format!(in alloc; "--fail {call} replay")?;
        let ran = run(&rt, alloc, &words, b"hotexit 1\n")?;
        assert!(rt; ran.end == End::OpenFault, "{words}");
        assert!(rt; ran.output.is_empty(), "{words}");
    }
    Ok(())
}

#[test]
fn errors_say_what_was_wrong(rt: HostRuntime) -> Result<(), Fail> {
    let alloc = rt.alloc();
    for (said, text) in [
        (
            format!(in alloc; "{}", EscapeError::BadEscape(7))?,
            "no escaped text goes on at place 7",
        ),
        (
            format!(in alloc; "{}", ReadAllError::TooLong)?,
            "too many bytes",
        ),
        (
            format!(in alloc; "{}", ReadAllError::ReadFault)?,
            "a read failed",
        ),
        (
            format!(in alloc; "{}", ScriptError::Bad(3, Why::NoEnd))?,
            "line 3 is bad: NoEnd",
        ),
        (
            format!(in alloc; "{}", ScriptError::NoMemory)?,
            "out of memory",
        ),
    ] {
        assert_eq!(rt; said.as_str(), text);
    }
    Ok(())
}
