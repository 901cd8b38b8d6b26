//! Bytes as lines, and a line as its fields.

ghost use Rattle.std.specs.Prelude.{◌≡◌, ◌<◌, ℕ, bytes_eq, length, take, OnOk, IfOk, IfSome, IfNone, Some, None, Err};
ghost use Rattle.hx_events.specs.Fields.{fields_of};
ghost use Rattle.hx_script.specs.declared.why.Why.{Why};
ghost use Rattle.hx_script.specs.Readings.{Reads, Refused};
ghost use Rattle.hx_script.specs.Lines.{cut_at, texts, behind_header, first_field, other_fields};

use crate::why::{ScriptError, Why};
use memchr::memchr;
use std::alloc::AllocError;

/// More fields than a line of a script or a trace has.
pub const MOST_FIELDS: usize = 8;

/// Whether a field is this word.
pub fn is(field: &[u8], word: &[u8]) -> bool
    ensures { result ≡ bytes_eq field.now word.now }
{
    field == word
}

/// The bytes before and behind the first of this value, None exactly where there is none.
pub fn cut_at(wanted: u8, bytes: &[u8]) -> Option<(&[u8], &[u8])>
    ensures found { IfSome result (λ parts. cut_at wanted bytes.now ≡ Some (parts.0.now, parts.1.now)) }
    ensures shorter { IfSome result (λ parts. length parts.1.now < length bytes.now) }
    ensures none { IfNone result (cut_at wanted bytes.now ≡ None) }
{
    match memchr(wanted, bytes) {
        Some(end) => Some((&bytes[..end], &bytes[end + 1..])),
        None => None,
    }
}

/// The bytes behind a first line that is the header, without its line feed. `Bad` has line 1: `NoEnd` where there are bytes but
/// no line feed, `Header` where there are none or the line is another one.
pub fn behind_header<'a>(header: &[u8], bytes: &'a [u8]) -> Result<&'a [u8], ScriptError>
    ensures ok { IfOk result (λ rest. behind_header header.now bytes.now ≡ Reads rest.now) }
    ensures bad { (line : ℕ) (why : Why) → result ≡ Err (ScriptError.Bad line why) → behind_header header.now bytes.now ≡ Refused line why }
    ensures shorter { IfOk result (λ rest. length rest.now < length bytes.now) }
{
    match cut_at(b'\n', bytes) {
        Some((line, rest)) if line == header => Ok(rest),
        None if !bytes.is_empty() => Err(ScriptError::Bad(1, Why::NoEnd)),
        _ => Err(ScriptError::Bad(1, Why::Header)),
    }
}

/// Puts the first fields of a line, at most so many, in place of those that stood there. More would be no use where no line has
/// them. After want of memory the fields may be too few.
pub fn split_fields<'a>(
    line: &'a [u8],
    most: usize,
    fields: &mut Vec<&'a [u8]>,
) -> Result<(), AllocError>
    ensures { OnOk result (texts fields.new.items ≡ take most (fields_of line.now)) }
{
    fields.clear();
    let mut rest = line;
    'fields: while fields.len() < most {
        let Some((field, behind)) = cut_at(b' ', rest) else {
            fields.push(rest)?;
            return Ok(());
        };
        fields.push(field)?;
        rest = behind;
    }
    Ok(())
}

/// The first field of a line, or all of it where it has no blank.
#[tactic(auto, using(crate::proofs::Cuts::first_is, crate::proofs::Cuts::whole_is))]
pub fn first_field(line: &[u8]) -> &[u8]
    ensures { result.now ≡ first_field (fields_of line.now) }
{
    match cut_at(b' ', line) {
        Some((field, _)) => field,
        None => line,
    }
}

/// The fields behind the first.
pub fn other_fields<'a, 'b>(fields: &'b [&'a [u8]]) -> &'b [&'a [u8]]
    ensures { texts result.now ≡ other_fields (texts fields.now) }
{
    match fields {
        [_, rest @ ..] => rest,
        [] => fields,
    }
}
