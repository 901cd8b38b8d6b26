//! Runs the program with its streams in memory.

use hx_filedisk::Stores;
use hx_io::{MemSink, MemSource};
use hx_top::{End, run_to_exit};
use std::alloc::{AllocError, Global};
use std::process::ExitCode;
use std::sync::Wait;
use std::test::Fail;
use std::thread::Threads;

const ROOM: usize = 2_000_000;

/// What a run came to, and what its streams hold then.
#[derive(Drop)]
pub struct Ran {
    pub end: End,
    pub code: ExitCode,
    pub output: Vec<u8>,
    pub told: Vec<u8>,
}

pub fn words_in(alloc: Global, line: &str) -> Result<Vec<String>, AllocError> {
    let mut words = Vec::new(alloc);
    for word in line.split(' ') {
        words.push(String::from_str(alloc, word)?)?;
    }
    Ok(words)
}

/// Runs these words over this source, with so much room behind standard output.
pub fn run_over<R: Threads + Wait + Sync + Stores>(
    rt: &R,
    alloc: Global,
    words: &str,
    mut source: MemSource,
    room: usize,
) -> Result<Ran, AllocError> {
    let words = words_in(alloc, words)?;
    let mut sink = MemSink::new(alloc, room, Vec::new(alloc))?;
    let mut errors = MemSink::new(alloc, 1000, Vec::new(alloc))?;
    let exit = run_to_exit(rt, alloc, Ok(words), &mut source, &mut sink, &mut errors);
    Ok(Ran {
        end: exit.end,
        code: exit.code,
        output: sink.bytes().to_vec(alloc)?,
        told: errors.bytes().to_vec(alloc)?,
    })
}

pub fn run<R: Threads + Wait + Sync + Stores>(
    rt: &R,
    alloc: Global,
    words: &str,
    input: &[u8],
) -> Result<Ran, AllocError> {
    let source = MemSource::new(input.to_vec(alloc)?, Vec::new(alloc));
    run_over(rt, alloc, words, source, ROOM)
}

/// The text up to the first of these marks, and what lies behind it.
pub fn parted<'a>(text: &'a str, mark: &'static str) -> (&'a str, &'a str) {
    match text.split_once(mark) {
        None => (text, ""),
        Some(parts) => parts,
    }
}

pub fn number(text: &str) -> u64 {
    match text.parse::<u64>() {
        Ok(number) => number,
        Err(_) => 0,
    }
}

pub fn text_of(bytes: &[u8]) -> Result<&str, Fail> {
    match str::from_utf8(bytes) {
        Ok(text) => Ok(text),
        Err(_) => Err(Fail::from("what was printed is no text")),
    }
}
