ghost use Rattle.std.specs.Prelude.{◌≡◌, ◌≤◌, ◌<◌, ◌++◌, All, vec_len, IfOk, OnOk};
ghost use Rattle.std.specs.Char.{digit_char};
ghost use Rattle.hx_etag.specs.Etags.{IsPrintable, etag_of, numeral};

use crate::Stat;
use std::alloc::{AllocError, Global};

fn digit(value: u64) -> u8
    requires { value < 36 }
    ensures { result ≡ digit_char value }
{
    if value < 10 {
        b'0' + value as u8
    } else {
        b'a' + (value - 10) as u8
    }
}

// Appends the number's digits. Without memory some of them may stand there.
#[tactic(auto, using(crate::proofs::Numerals::smaller))]
fn push_numeral(out: &mut Vec<u8>, base: u64, number: u64) -> Result<(), AllocError>
    requires low { 2 ≤ base }
    requires high { base ≤ 36 }
    ensures { OnOk result (out.new.items ≡ out.old.items ++ numeral base number) }
{
    if number >= base {
        push_numeral(out, base, number / base)?;
    }
    out.push(digit(number % base))?;
    Ok(())
}

/// The etag of a file with this stat: its time in base 29, and right behind it its size in base 31, with the digits
/// `0-9a-z`. VS Code writes the same text. It doesn't determine the stat, since nothing parts the two numbers.
#[tactic(auto, using(crate::proofs::Glyphs::printable_etag, crate::proofs::Glyphs::length_etag))]
pub fn etag(alloc: Global, stat: Stat) -> Result<Vec<u8>, AllocError>
    ensures text { IfOk result (λ text. text.items ≡ etag_of stat) }
    ensures printable { IfOk result (λ text. All IsPrintable text.items) }
    ensures short { IfOk result (λ text. vec_len text ≤ 27) }
{
    let mut text = Vec::new(alloc);
    push_numeral(&mut text, 29, stat.mtime)?;
    push_numeral(&mut text, 31, stat.size)?;
    Ok(text)
}
