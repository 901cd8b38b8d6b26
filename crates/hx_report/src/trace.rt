//! The whole text of lives.

ghost use Rattle.std.specs.Prelude.{◌≡◌, ◌++◌, [], ◌∷◌, ℕ, codes, decimal, IfOk, OnOk};
ghost use Rattle.hx_events.specs.Texts.{IsEntryOf};
ghost use Rattle.hx_report.specs.Traces.{AreEntriesOf, AreWhole, IsWhole, end_line, entry_line, entry_lines, life_text, name_lines, trace_text, whole_life};

use crate::events::{put_line, put_outcome};
use crate::pair_lines::put_pairs;
use crate::put::put_decimal;
use crate::tail_lines::put_tail;
use hx_events::{Ended, Entry, Life, Names, ResNo};
use std::alloc::{AllocError, Global};

/// The trace of these lives, which are numbered from 1: of each its names, pairs, entries and tail. A life that was cut for
/// want of memory is left out. The text is built in one buffer, and each history is read twice: for its lines and for its tail.
pub fn out(alloc: Global, lives: &[Life]) -> Result<Vec<u8>, AllocError>
    requires { AreWhole lives.now }
    ensures { IfOk result (λ text. text.items ≡ trace_text lives.now) }
{
    let mut text = Vec::from_slice(alloc, b"hotexit trace 1\n")?;
    for (index, life) in lives.iter().enumerate() {
        put_life(alloc, &mut text, index as u64 + 1, life)?;
    }
    Ok(text)
}

fn put_life(alloc: Global, out: &mut Vec<u8>, number: u64, life: &Life) -> Result<(), AllocError>
    requires { IsWhole life.now }
    ensures { OnOk result (out.new.items ≡ out.old.items ++ life_text number life.now) }
{
    match life.ended {
        Ended::Cut => Ok(()),
        _ => put_whole_life(alloc, out, number, life),
    }
}

fn put_whole_life(
    alloc: Global,
    out: &mut Vec<u8>,
    number: u64,
    life: &Life,
) -> Result<(), AllocError>
    requires { IsWhole life.now }
    ensures { OnOk result (out.new.items ≡ out.old.items ++ whole_life number life.now) }
{
    out.extend_from_slice(b"life ")?;
    put_decimal(out, number)?;
    out.push(b'\n')?;
    put_names(out, &life.names)?;
    put_pairs(alloc, out, life.base.as_slice())?;
    put_entries(alloc, out, &life.names, life.history.as_slice())?;
    put_end(out, life.ended)?;
    put_tail(alloc, out, life)
}

fn put_names(out: &mut Vec<u8>, names: &Names) -> Result<(), AllocError>
    ensures { OnOk result (out.new.items ≡ out.old.items ++ name_lines names.now) }
{
    for place in 0..names.len() {
        out.extend_from_slice(b"name ")?;
        out.extend_from_slice(names.text(ResNo::new(place as u32)))?;
        out.push(b'\n')?;
    }
    Ok(())
}

fn put_entries(
    alloc: Global,
    out: &mut Vec<u8>,
    names: &Names,
    history: &[Entry],
) -> Result<(), AllocError>
    requires { AreEntriesOf names.now history.now }
    ensures { OnOk result (out.new.items ≡ out.old.items ++ entry_lines names.now history.now) }
{
    for entry in history {
        put_entry(alloc, out, names, entry)?;
    }
    Ok(())
}

fn put_entry(
    alloc: Global,
    out: &mut Vec<u8>,
    names: &Names,
    entry: &Entry,
) -> Result<(), AllocError>
    requires { IsEntryOf names.now entry.now }
    ensures { OnOk result (out.new.items ≡ out.old.items ++ entry_line names.now entry.now) }
{
    put_line(alloc, out, names, entry.actor, &entry.event)?;
    out.push(b'\t')?;
    put_outcome(out, names, &entry.outcome)?;
    out.push(b'\n')?;
    Ok(())
}

fn put_end(out: &mut Vec<u8>, ended: Ended) -> Result<(), AllocError>
    ensures { OnOk result (out.new.items ≡ out.old.items ++ end_line ended) }
{
    match ended {
        Ended::Script => out.extend_from_slice(b"end script\n"),
        Ended::Restart => out.extend_from_slice(b"end restart\n"),
        Ended::Crash(pick) => put_crash(out, pick),
        Ended::Cut => Ok(()),
    }
}

fn put_crash(out: &mut Vec<u8>, pick: u64) -> Result<(), AllocError>
    ensures { OnOk result (out.new.items ≡ out.old.items ++ codes "end crash " ++ decimal pick ++ codes "\n") }
{
    out.extend_from_slice(b"end crash ")?;
    put_decimal(out, pick)?;
    out.push(b'\n')?;
    Ok(())
}
