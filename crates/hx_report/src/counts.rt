//! The summary of lives: what their entries came to, counted.

ghost use Rattle.std.specs.Prelude.{◌≡◌, ◌++◌, ◌∷◌, ◌+◌, ◌<◌, ◌≤◌, ◌^◌, ℕ, length, count_by, codes, decimal, IfOk, OnOk};
ghost use Rattle.hx_report.specs.Traces.{AreWhole, IsWhole};
ghost use Rattle.hx_report.specs.Summaries.{count_line, dirty_at_last, dirty_copies, found_in, is_found, restored_in, summary_text};
ghost use Rattle.hx_report.specs.Counting.{IsWithin, count_lines, counted, counted_all, counts_after, no_counts};

use crate::tally::Tally;
use hx_events::{Entry, Life, Outcome, PairFound, Stage};
use itoa::Buffer;
use std::alloc::{AllocError, Global};

/// The summary of lives that the script `made n` led to: a line for each count, over all lives but for two: `restored` counts
/// the backups that the lives behind the first began with, and `dirty` the copies that are dirty at the end of the last. Each
/// history is read once, and the last one twice.
pub fn summary(alloc: Global, n: u32, lives: &[Life]) -> Result<Vec<u8>, AllocError>
    requires { AreWhole lives.now }
    ensures { IfOk result (λ text. text.items ≡ summary_text n lives.now) }
{
    let mut text = Vec::new(alloc);
    put_count(&mut text, b"made", u128::from(n))?;
    put_counts(&mut text, count_all(lives))?;
    put_count(&mut text, b"restored", restored(lives))?;
    put_count(&mut text, b"dirty", dirty_at_last(alloc, lives)?)?;
    Ok(text)
}

/// How many entries there are, and how many of them came to what. No number of entries in memory reaches 128 bits.
#[derive(Clone, Copy)]
struct Counts {
    entries: u128,
    edits: u128,
    backups: u128,
    drops: u128,
    saved: u128,
    modified: u128,
    idle: u128,
    faults: u128,
}

impl Counts {
    fn new() -> Counts
        ensures { result ≡ no_counts }
    {
        Counts {
            entries: 0,
            edits: 0,
            backups: 0,
            drops: 0,
            saved: 0,
            modified: 0,
            idle: 0,
            faults: 0,
        }
    }

    // Counts one more outcome.
    fn note(&mut self, outcome: &Outcome)
        requires within { IsWithin self.old }
        requires few { self.old.entries < 2 ^ 127 }
        ensures counts { self.new ≡ counts_after outcome.now self.old }
        ensures within { IsWithin self.new }
    {
        self.entries += 1;
        match outcome {
            Outcome::Edited(_) => self.edits += 1,
            Outcome::StageOk(Stage::Open, _) => self.backups += 1,
            Outcome::StageOk(Stage::Drop, _) => self.drops += 1,
            Outcome::Saved(_, _) => self.saved += 1,
            Outcome::Modified(_) => self.modified += 1,
            Outcome::Idle => self.idle += 1,
            Outcome::Fault
            | Outcome::StageFault(_, _)
            | Outcome::CheckFault
            | Outcome::WriteFault(_) => self.faults += 1,
            _ => {}
        }
    }

    // Counts the outcomes of a history.
    fn note_all(&mut self, history: &[Entry])
        requires within { IsWithin self.old }
        requires few { self.old.entries < 2 ^ 126 }
        ensures counts { self.new ≡ counted history.now self.old }
        ensures within { IsWithin self.new }
        ensures more { self.new.entries < self.old.entries + 2 ^ 63 }
    {
        for entry in history {
            self.note(&entry.outcome);
        }
    }
}

fn count_all(lives: &[Life]) -> Counts
    ensures { result ≡ counted_all lives.now no_counts }
{
    let mut counts = Counts::new();
    for life in lives {
        counts.note_all(life.history.as_slice());
    }
    counts
}

// How many backups the lives behind the first began with.
fn restored(lives: &[Life]) -> u128
    ensures { result ≡ restored_in lives.now }
{
    match lives {
        [] => 0,
        [_, rest @ ..] => found(rest),
    }
}

fn found(lives: &[Life]) -> u128
    ensures { result ≡ found_in lives.now }
{
    let mut count = 0;
    for life in lives {
        count += found_pairs(life.base.as_slice()) as u128;
    }
    count
}

fn found_pairs(base: &[PairFound]) -> usize
    ensures count { result ≡ count_by is_found base.now }
    ensures few { result < 2 ^ 63 }
{
    base.iter()
        .filter(|pair| matches!(pair, PairFound::Found(_, _)))
        .count()
}

// How many copies are dirty at the end of the last life.
fn dirty_at_last(alloc: Global, lives: &[Life]) -> Result<u128, AllocError>
    requires { AreWhole lives.now }
    ensures { IfOk result (λ count. count ≡ dirty_at_last lives.now) }
{
    match lives.last() {
        None => Ok(0),
        Some(life) => dirty_copies(alloc, life),
    }
}

fn dirty_copies(alloc: Global, life: &Life) -> Result<u128, AllocError>
    requires { IsWhole life.now }
    ensures { IfOk result (λ count. count ≡ dirty_copies life.now) }
{
    let tally = Tally::of_life(alloc, life)?;
    Ok(tally.dirty() as u128)
}

fn put_counts(out: &mut Vec<u8>, counts: Counts) -> Result<(), AllocError>
    ensures { OnOk result (out.new.items ≡ out.old.items ++ count_lines counts) }
{
    put_count(out, b"entries", counts.entries)?;
    put_count(out, b"edits", counts.edits)?;
    put_count(out, b"backups", counts.backups)?;
    put_count(out, b"drops", counts.drops)?;
    put_count(out, b"saved", counts.saved)?;
    put_count(out, b"modified", counts.modified)?;
    put_count(out, b"idle", counts.idle)?;
    put_count(out, b"faults", counts.faults)
}

fn put_count(out: &mut Vec<u8>, word: &[u8], count: u128) -> Result<(), AllocError>
    ensures { OnOk result (out.new.items ≡ out.old.items ++ count_line word.now count) }
{
    out.extend_from_slice(word)?;
    out.push(b' ')?;
    let mut buffer = Buffer::new();
    out.extend_from_slice(buffer.format(count).as_bytes())?;
    out.push(b'\n')?;
    Ok(())
}
