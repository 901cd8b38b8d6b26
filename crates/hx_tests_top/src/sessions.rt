//! Plays sessions that stand in texts. Behind `$` stand the words, behind `>` the source's lines, behind `<` what is to be printed, and
//! behind `!` the exit status and what standard error is told, where the session isn't to end well.
//!
//! A content that is `x*5000` is 5,000 times `x`. A line that begins with `[3..6]` stands there for each number from 3 to 5, which
//! replaces each `#` in it.

use crate::playing::{Ran, number, parted, run, text_of};
use crate::sessions_of_backups::BACKUPS;
use crate::sessions_of_blocks::BLOCKS;
use crate::sessions_of_ends::ENDS;
use crate::sessions_of_exits::EXITS;
use crate::sessions_of_guards::GUARDS;
use crate::sessions_of_histories::HISTORIES;
use crate::sessions_of_saves::SAVES;
use hx_filedisk::Stores;
use std::alloc::{AllocError, Global};
use std::process::{Abort, ExitCode};
use std::sync::Wait;
use std::test::Fail;
use std::thread::Threads;

#[derive(Drop)]
pub struct Session {
    pub words: String,
    pub input: Vec<u8>,
    pub output: Vec<u8>,
    status: u8,
    told: Vec<u8>,
}

fn session_of(alloc: Global, words: &str) -> Result<Session, AllocError> {
    Ok(Session {
        words: String::from_str(alloc, words)?,
        input: Vec::new(alloc),
        output: Vec::new(alloc),
        status: 0,
        told: Vec::new(alloc),
    })
}

fn add_line(text: &mut Vec<u8>, line: &str) -> Result<(), AllocError> {
    let (front, behind) = parted(line, "x*");
    let (count, outcome) = parted(behind, "\t");
    text.extend_from_slice(front.as_bytes())?;
    for _ in 0..number(count) {
        text.push(b'x')?;
    }
    if !outcome.is_empty() {
        text.push(b'\t')?;
        text.extend_from_slice(outcome.as_bytes())?;
    }
    text.push(b'\n')?;
    Ok(())
}

fn add_each(
    alloc: Global,
    text: &mut Vec<u8>,
    numbers: &str,
    line: &str,
) -> Result<(), AllocError> {
    let (first, end) = parted(numbers, "..");
    for at in number(first)..number(end) {
        let at = format!(in alloc; "{at}")?;
        add_line(text, &line.replace(alloc, "#", &at)?)?;
    }
    Ok(())
}

fn add(alloc: Global, text: &mut Vec<u8>, said: &str) -> Result<(), AllocError> {
    match said.strip_prefix("[") {
        Some(repeated) => {
            let (numbers, line) = parted(repeated, "] ");
            add_each(alloc, text, numbers, line)
        }
        None => add_line(text, said),
    }
}

fn small(text: &str) -> u8 {
    match text.parse::<u8>() {
        Ok(number) => number,
        Err(_) => 0,
    }
}

// Takes one line of a session, by its mark.
fn take(alloc: Global, session: &mut Session, line: &str) -> Result<(), AllocError> {
    let (mark, said) = parted(line, " ");
    if mark == ">" {
        add(alloc, &mut session.input, said)?;
    } else if mark == "<" {
        add(alloc, &mut session.output, said)?;
    } else if mark == "!" {
        let (status, told) = parted(said, " ");
        session.status = small(status);
        add_line(&mut session.told, told)?;
    }
    Ok(())
}

/// The session of what stands behind one `$`.
pub fn session_in(alloc: Global, part: &str) -> Result<Session, AllocError> {
    let (words, lines) = parted(part, "\n");
    let mut session = session_of(alloc, words)?;
    for line in lines.split('\n') {
        take(alloc, &mut session, line)?;
    }
    Ok(session)
}

fn is_judged(session: &Session, ran: &Ran) -> bool {
    !session.words.contains("--guarded") && ran.output.starts_with(b"hotexit trace 1\n")
}

// What is printed of plain lives is a legal trace. A trace of guarded ones isn't judged.
fn plays_as_said<R: Threads + Wait + Sync + Abort + Stores>(
    rt: &R,
    alloc: Global,
    session: &Session,
) -> Result<(), Fail> {
    let words = session.words.as_str();
    let ran = run(rt, alloc, words, &session.input)?;
    assert!(rt;
        ran.code == ExitCode::from(session.status),
        "{words}: {:?}",
        ran.end
    );
    assert_eq!(rt; text_of(&ran.told)?, text_of(&session.told)?, "{words}");
    assert!(rt;
        ran.output.as_slice() == session.output.as_slice(),
        "{words}"
    );
    if is_judged(session, &ran) {
        let judged = run(rt, alloc, "check", &ran.output)?;
        assert_eq!(rt; judged.output.as_slice(), b"legal\n".as_slice());
    }
    Ok(())
}

fn play_all<R: Threads + Wait + Sync + Abort + Stores>(
    rt: &R,
    alloc: Global,
    text: &str,
) -> Result<(), Fail> {
    for part in text.split("$ ") {
        let session = session_in(alloc, part)?;
        if !session.words.is_empty() {
            plays_as_said(rt, alloc, &session)?;
        }
    }
    Ok(())
}

#[test]
fn each_session_prints_what_was_worked_out(rt: HostRuntime) -> Result<(), Fail> {
    let alloc = rt.alloc();
    play_all(&rt, alloc, SAVES)?;
    play_all(&rt, alloc, BACKUPS)?;
    play_all(&rt, alloc, BLOCKS)?;
    play_all(&rt, alloc, GUARDS)?;
    play_all(&rt, alloc, EXITS)?;
    play_all(&rt, alloc, HISTORIES)?;
    play_all(&rt, alloc, ENDS)
}

#[test]
fn the_largest_generated_script_is_played_the_same_twice(rt: HostRuntime) -> Result<(), Fail> {
    let alloc = rt.alloc();
    let ran = run(&rt, alloc, "made 1000", b"")?;
    let again = run(&rt, alloc, "made 1000", b"")?;
    assert_eq!(rt; ran.output.as_slice(), again.output.as_slice());
    let summary = text_of(&ran.output)?;
    assert!(rt; summary.starts_with("made 1000\n"), "{summary}");
    assert!(rt; summary.contains("\nfaults 0\n"), "{summary}");
    Ok(())
}
