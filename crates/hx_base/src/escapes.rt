ghost use Rattle.std.specs.Prelude.{not, ◌≡◌, ◌<◌, ◌≤◌, ℕ, true, IsTrue, IfOk, OnOk, length};
ghost use Rattle.std.specs.Char.{is_ascii_hexdigit, digit_value};
ghost use Rattle.std.specs.Fmt.{digit_glyph};
ghost use Rattle.std.specs.List.{position_or_len};
ghost use Rattle.hx_base.specs.Escapes.{escaped, is_plain, unescaped, bad_place, escape_in};
ghost use Rattle.hx_base.specs.declared.escapes.EscapeError.TheVariants.{NoMemory};

use std::alloc::{AllocError, AllocFailed, Global};
use thiserror::Error;

/// Why a text could not be read.
#[derive(Clone, Copy, Debug, PartialEq, Eq, Error)]
pub enum EscapeError {
    /// The first place that holds a `%` without two hexadecimal digits behind it, or a byte outside 0x21 to 0x7E.
    #[error("no escaped text goes on at place {0}")]
    BadEscape(usize),

    #[error("out of memory")]
    NoMemory,
}

impl From<AllocError> for EscapeError {
    ghost from_gives = { λ _ e. e ≡ NoMemory };

    fn from(_: AllocError) -> Self {
        EscapeError::NoMemory
    }
}

impl<T: Drop> From<AllocFailed<T>> for EscapeError {
    ghost from_gives = { λ _ e. e ≡ NoMemory };

    fn from(_: AllocFailed<T>) -> Self {
        EscapeError::NoMemory
    }
}

fn is_plain_byte(byte: u8) -> bool
    ensures { result ≡ is_plain byte }
{
    byte.is_ascii_graphic() && byte != b'%'
}

fn hex_digit(value: u8) -> u8
    requires { value < 16 }
    ensures { result ≡ digit_glyph true value }
{
    if value < 10 {
        b'0' + value
    } else {
        b'A' + (value - 10)
    }
}

/// How many of the first bytes stand for themselves.
fn plain_run(bytes: &[u8]) -> usize
    ensures value { result ≡ position_or_len (λ byte. not (is_plain byte)) bytes.now }
    ensures within { result ≤ length bytes.now }
{
    bytes
        .iter()
        .position(|byte| !is_plain_byte(*byte))
        .unwrap_or(bytes.len())
}

/// The bytes as one word of printable text: each byte from 0x21 to 0x7E other than `%` stays, and each other byte
/// becomes `%` and two upper case hexadecimal digits.
pub fn escape(alloc: Global, bytes: &[u8]) -> Result<Vec<u8>, AllocError>
    ensures text { IfOk result (λ text. text.items ≡ escaped bytes.now) }

    // `unescape` reads it back.
    ensures good { IfOk result (λ text. bad_place text.items ≡ None) }
    ensures read_back { IfOk result (λ text. unescaped text.items ≡ bytes.now) }
{
    let mut text = Vec::with_capacity(alloc, bytes.len())?;
    let mut at = 0;
    while at < bytes.len() {
        let byte = bytes[at];
        if is_plain_byte(byte) {
            let end = at + 1 + plain_run(&bytes[at + 1..]);
            text.extend_from_slice(&bytes[at..end])?;
            at = end;
        } else {
            text.push(b'%')?;
            text.push(hex_digit(byte / 16))?;
            text.push(hex_digit(byte % 16))?;
            at += 1;
        }
    }
    Ok(text)
}

fn is_hex_digit(byte: u8) -> bool
    ensures { result ≡ is_ascii_hexdigit byte }
{
    byte.is_ascii_hexdigit()
}

fn hex_value(digit: u8) -> u8
    requires { IsTrue (is_ascii_hexdigit digit) }
    ensures value { result ≡ digit_value digit }
    ensures small { result < 16 }
{
    match digit {
        b'0'..=b'9' => digit - b'0',
        b'A'..=b'F' => digit - b'A' + 10,
        _ => digit - b'a' + 10,
    }
}

/// The byte that an escape at the front of the text stands for, None exactly where none is there.
fn escape_at_front(text: &[u8]) -> Option<u8>
    ensures { result ≡ escape_in text.now }
{
    match text {
        [b'%', high, low, ..] if is_hex_digit(*high) && is_hex_digit(*low) => {
            Some(16 * hex_value(*high) + hex_value(*low))
        }
        _ => None,
    }
}

/// The bytes that the text stands for. It takes what `escape` writes, and also digits of lower case and any byte as an
/// escape. `BadEscape` comes exactly where the text has a bad place, and names the first. `NoMemory` may come in place
/// of either answer.
pub fn unescape(alloc: Global, text: &[u8]) -> Result<Vec<u8>, EscapeError>
    ensures value { IfOk result (λ bytes. bytes.items ≡ unescaped text.now) }
    ensures good { OnOk result (bad_place text.now ≡ None) }
    ensures bad { (place : ℕ) → result ≡ Err (EscapeError.BadEscape place) → bad_place text.now ≡ Some place }
{
    let mut bytes = Vec::with_capacity(alloc, text.len())?;
    let mut at = 0;
    while at < text.len() {
        if is_plain_byte(text[at]) {
            let end = at + 1 + plain_run(&text[at + 1..]);
            bytes.extend_from_slice(&text[at..end])?;
            at = end;
        } else {
            let Some(byte) = escape_at_front(&text[at..]) else {
                return Err(EscapeError::BadEscape(at));
            };
            bytes.push(byte)?;
            at += 3;
        }
    }
    Ok(bytes)
}
