//! Windows, writers and savers at once, under gates that hold them until others have worked.

use crate::playing::{parted, run, text_of, words_in};
use hx_actors::{Gate, OpenGate};
use hx_events::Actor;
use hx_filedisk::Stores;
use hx_io::{MemSink, MemSource};
use hx_memdisk::MemDisk;
use hx_top::{DiskChoice, End, Finished, disk_words, top_run};
use std::alloc::{AllocError, Global};
use std::process::Abort;
use std::sync::Wait;
use std::sync::atomic::{AtomicU64, Ordering};
use std::test::Fail;
use std::thread;
use std::thread::Threads;

fn run_at_once<R: Threads + Wait + Sync, G: Gate + Sync>(
    rt: &R,
    alloc: Global,
    words: &str,
    script: &str,
    gate: &G,
) -> Result<(End, Vec<u8>), AllocError> {
    let words = words_in(alloc, words)?;
    let DiskChoice::Memory(plan) = disk_words(alloc, &words)? else {
        return Err(AllocError);
    };
    let disk = MemDisk::new(alloc, plan)?;
    let mut source = MemSource::new(script.as_bytes().to_vec(alloc)?, Vec::new(alloc));
    let mut sink = MemSink::new(alloc, 100_000, Vec::new(alloc))?;
    let Finished {
        end,
        disk: _,
        lives: _,
        marks: _,
    } = top_run(rt, alloc, &words, &mut source, &mut sink, disk, gate);
    Ok((end, sink.bytes().to_vec(alloc)?))
}

/// What a gate has seen, and whether it once waited in vain.
#[derive(Drop)]
struct Seen {
    window: AtomicU64,
    writer: AtomicU64,
    second_writer: AtomicU64,
    third_writer: AtomicU64,
    saver: AtomicU64,
    late: AtomicU64,
}

fn nothing_seen() -> Seen {
    Seen {
        window: AtomicU64::new(0),
        writer: AtomicU64::new(0),
        second_writer: AtomicU64::new(0),
        third_writer: AtomicU64::new(0),
        saver: AtomicU64::new(0),
        late: AtomicU64::new(0),
    }
}

const TURNS: u32 = 100_000_000;

impl Seen {
    // Waits until the mark is set, for so many turns at most.
    fn wait_for(&self, mark: &AtomicU64) {
        for _ in 0..TURNS {
            if mark.load(Ordering::SeqCst) > 0 {
                return;
            }
            thread::yield_now();
        }
        self.late.store(1, Ordering::SeqCst);
    }

    fn was_late(&self) -> bool {
        self.late.load(Ordering::SeqCst) > 0
    }
}

/// Holds window 0 until window 1 has come to its third command.
#[derive(Drop)]
struct SecondFirst(Seen);

impl Gate for SecondFirst {
    fn before(&self, window: u32, command: u64) {
        if window == 1 && command == 2 {
            self.0.window.store(1, Ordering::SeqCst);
        }
        if window == 0 && command == 0 {
            self.0.wait_for(&self.0.window);
        }
    }

    fn staged(&self, _actor: Actor) {}
}

const TWO_WINDOWS: &str = "hotexit 1
file file:///a
file file:///b
w0 create file:///a
w0 close file:///a
w0 create file:///a
w0 close file:///a
w0 create file:///a
w0 close file:///a
w1 create file:///b
w1 close file:///b
w1 create file:///b
w1 close file:///b
w1 create file:///b
w1 close file:///b
";

#[test]
fn a_window_works_beside_another(rt: HostRuntime) -> Result<(), Fail> {
    let gate = SecondFirst(nothing_seen());
    let (end, _) = run_at_once(&rt, rt.alloc(), "run", TWO_WINDOWS, &gate)?;
    assert!(rt; end == End::Done);
    assert!(rt; !gate.0.was_late());
    Ok(())
}

/// Holds window 0 before its third command until a writer has done a stage, and before its fourth until a saver has.
#[derive(Drop)]
struct WorkersFirst(Seen);

impl Gate for WorkersFirst {
    fn before(&self, _window: u32, command: u64) {
        match command {
            2 => self.0.wait_for(&self.0.writer),
            3 => self.0.wait_for(&self.0.saver),
            _ => {}
        }
    }

    fn staged(&self, actor: Actor) {
        match actor {
            Actor::Writer(_) => self.0.writer.store(1, Ordering::SeqCst),
            Actor::Saver(_) => self.0.saver.store(1, Ordering::SeqCst),
            _ => {}
        }
    }
}

const SAVED_BETWEEN: &str = "hotexit 1
file file:///a
w0 create file:///a
w0 edit file:///a 0 0 =a
w0 save file:///a
w0 edit file:///a 0 0 =b
";

#[test]
fn writers_and_savers_work_beside_a_window(rt: HostRuntime) -> Result<(), Fail> {
    let gate = WorkersFirst(nothing_seen());
    let (end, _) = run_at_once(&rt, rt.alloc(), "run", SAVED_BETWEEN, &gate)?;
    assert!(rt; end == End::Done);
    assert!(rt; !gate.0.was_late());
    Ok(())
}

/// Holds a window before its third command until three writers have done a stage, and each of these until the others have.
#[derive(Drop)]
struct ThreeWriters(Seen);

impl ThreeWriters {
    fn wait_for_all(&self) {
        self.0.wait_for(&self.0.writer);
        self.0.wait_for(&self.0.second_writer);
        self.0.wait_for(&self.0.third_writer);
    }
}

impl Gate for ThreeWriters {
    fn before(&self, _window: u32, command: u64) {
        if command == 2 {
            self.wait_for_all();
        }
    }

    fn staged(&self, actor: Actor) {
        let mark = match actor {
            Actor::Writer(0) => &self.0.writer,
            Actor::Writer(1) => &self.0.second_writer,
            Actor::Writer(_) => &self.0.third_writer,
            _ => return,
        };
        mark.store(1, Ordering::SeqCst);
        self.wait_for_all();
    }
}

#[test]
fn three_writers_work_beside_each_other(rt: HostRuntime) -> Result<(), Fail> {
    let gate = ThreeWriters(nothing_seen());
    let (end, _) = run_at_once(&rt, rt.alloc(), "run --workers 3", SAVED_BETWEEN, &gate)?;
    assert!(rt; end == End::Done);
    assert!(rt; !gate.0.was_late());
    Ok(())
}

const DECLARED: &str = "hotexit 1
file file:///a
file file:///b
";

// Of these commands each script has some.
const COMMANDS: &str = "\
w0 create file:///a
w1 create file:///b
w2 open file:///a
w0 edit file:///a 0 0 =hello
w1 edit file:///b 0 0 =world
w1 save file:///b
w0 save file:///a
w2 outside file:///a 90000 =other
w0 edit file:///a 0 1 =H
w1 undo file:///b
w3 save file:///a force over
w3 edit file:///b 0 0 =x
w0 edit file:///a 0 0 =y
w1 save file:///b
w2 revert file:///b
w0 close file:///a
w2 create file:///a
w3 edit file:///a 0 0 =z
w1 edit file:///b 0 0 =more
w3 save file:///b over
w1 close file:///b
w2 edit file:///a 0 0 =end
";

fn next(x: u64) -> u64 {
    x.wrapping_mul(75).wrapping_add(74) % 65_537
}

// A script with about two thirds of the commands, as the seed chooses.
fn some_commands(alloc: Global, seed: u64) -> Result<String, AllocError> {
    let mut script = String::from_str(alloc, DECLARED)?;
    let mut x = next(seed);
    for line in COMMANDS.split_inclusive('\n') {
        x = next(x);
        if x % 3 > 0 {
            script.push_str(line)?;
        }
    }
    Ok(script)
}

// The script of a printed life: the event of each of its entries is a step.
fn printed_events(alloc: Global, output: &str) -> Result<String, AllocError> {
    let mut script = String::from_str(alloc, DECLARED)?;
    for line in output.split('\n') {
        let (event, outcome) = parted(line, "\t");
        if !outcome.is_empty() {
            script.push_str(event)?;
            script.push_str("\n")?;
        }
    }
    Ok(script)
}

// Runs windows at once, with one device call that fails, and replays what was printed over a disk of the same plan.
fn replays_the_same<R: Threads + Wait + Abort + Sync + Stores>(
    rt: &R,
    alloc: Global,
    seed: u64,
    guarded: &str,
) -> Result<(), Fail> {
    let fail = 257 + next(seed) % 80;
    let workers = 1 + seed % 4;
    let words = format!(in alloc; "--fail {fail} run{guarded} --workers {workers}")?;
    let script = some_commands(alloc, seed)?;
    let ran = run(rt, alloc, &words, script.as_bytes())?;
    assert!(rt; ran.end == End::Done, "{words}");
    let printed = printed_events(alloc, text_of(&ran.output)?)?;
    let words = format!(in alloc; "--fail {fail} replay{guarded}")?;
    let again = run(rt, alloc, &words, printed.as_bytes())?;
    assert!(rt; again.end == End::Done, "{words}");
    assert!(rt; again.output.as_slice() == ran.output.as_slice(), "{words}");
    Ok(())
}

#[test]
fn what_ran_at_once_is_replayed(rt: HostRuntime) -> Result<(), Fail> {
    let alloc = rt.alloc();
    for seed in 1..=200 {
        replays_the_same(&rt, alloc, seed, "")?;
        replays_the_same(&rt, alloc, seed, " --guarded")?;
    }
    Ok(())
}
