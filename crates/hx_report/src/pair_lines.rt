//! The lines of the pairs that a life begins with.

ghost use Rattle.std.specs.Prelude.{◌≡◌, ◌++◌, [], ◌∷◌, ℕ, codes, decimal, IfOk, OnOk};
ghost use Rattle.hx_events.specs.Texts.{spaced, found_fields, text_field};
ghost use Rattle.hx_report.specs.Traces.{pair_line, pair_lines};

use crate::put::{put_field, put_number, put_text};
use hx_etag::Stat;
use hx_events::{Backup, PairFound};
use std::alloc::{AllocError, Global};

/// A line for each pair of slot files that was found to hold something, in the order of their numbers.
pub fn pairs(alloc: Global, base: &[PairFound]) -> Result<Vec<u8>, AllocError>
    ensures { IfOk result (λ text. text.items ≡ pair_lines 0 base.now) }
{
    let mut text = Vec::new(alloc);
    put_pairs(alloc, &mut text, base)?;
    Ok(text)
}

pub(crate) fn put_pairs(
    alloc: Global,
    out: &mut Vec<u8>,
    base: &[PairFound],
) -> Result<(), AllocError>
    ensures { OnOk result (out.new.items ≡ out.old.items ++ pair_lines 0 base.now) }
{
    for (number, pair) in base.iter().enumerate() {
        put_pair(alloc, out, number as u64, pair)?;
    }
    Ok(())
}

fn put_pair(
    alloc: Global,
    out: &mut Vec<u8>,
    number: u64,
    pair: &PairFound,
) -> Result<(), AllocError>
    ensures { OnOk result (out.new.items ≡ out.old.items ++ pair_line number pair.now) }
{
    match pair {
        PairFound::Empty => Ok(()),
        PairFound::Found(backup, _) => put_found(alloc, out, number, backup),
        PairFound::Damaged => put_damaged(out, number),
        PairFound::Twin(earlier) => put_twin(out, number, u64::from(earlier.number())),
    }
}

fn put_found(
    alloc: Global,
    out: &mut Vec<u8>,
    number: u64,
    backup: &Backup,
) -> Result<(), AllocError>
    ensures { OnOk result (out.new.items ≡ out.old.items ++ codes "pair" ++ spaced (decimal number ∷ codes "restored" ∷ backup.now.resource ∷ found_fields backup.now.base ++ text_field backup.now.content ∷ []) ++ codes "\n") }
{
    out.extend_from_slice(b"pair")?;
    put_number(out, number)?;
    out.extend_from_slice(b" restored")?;
    put_field(out, backup.resource.as_slice())?;
    put_base(out, backup.base)?;
    put_text(alloc, out, backup.content.as_slice())?;
    out.push(b'\n')?;
    Ok(())
}

fn put_base(out: &mut Vec<u8>, base: Option<Stat>) -> Result<(), AllocError>
    ensures { OnOk result (out.new.items ≡ out.old.items ++ spaced (found_fields base)) }
{
    match base {
        None => put_field(out, b"none"),
        Some(stat) => {
            put_number(out, stat.mtime)?;
            put_number(out, stat.size)
        }
    }
}

fn put_damaged(out: &mut Vec<u8>, number: u64) -> Result<(), AllocError>
    ensures { OnOk result (out.new.items ≡ out.old.items ++ codes "pair" ++ spaced (decimal number ∷ codes "damaged" ∷ []) ++ codes "\n") }
{
    out.extend_from_slice(b"pair")?;
    put_number(out, number)?;
    out.extend_from_slice(b" damaged\n")
}

fn put_twin(out: &mut Vec<u8>, number: u64, earlier: u64) -> Result<(), AllocError>
    ensures { OnOk result (out.new.items ≡ out.old.items ++ codes "pair" ++ spaced (decimal number ∷ codes "twin" ∷ decimal earlier ∷ []) ++ codes "\n") }
{
    out.extend_from_slice(b"pair")?;
    put_number(out, number)?;
    out.extend_from_slice(b" twin")?;
    put_number(out, earlier)?;
    out.push(b'\n')?;
    Ok(())
}
