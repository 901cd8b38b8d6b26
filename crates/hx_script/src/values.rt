//! Single fields.

ghost use Rattle.std.specs.Prelude.{◌≡◌, ◌<◌, length, IfOk};
ghost use Rattle.hx_script.specs.Readings.{Answers};
ghost use Rattle.hx_script.specs.Values.{number_in, at_most, resource_in, text_in};

use crate::why::{LineError, Why};
use hx_base::{EscapeError, read_decimal, unescape};
use hx_events::{Bytes, Names, ResNo};
use std::alloc::Global;

/// A decimal number of 64 bits, or `Number`.
pub fn number_in(field: &[u8]) -> Result<u64, Why>
    ensures { result ≡ number_in field.now }
{
    read_decimal(field).ok_or(Why::Number)
}

/// A decimal number that is at most this.
pub fn number_up_to(limit: u64, field: &[u8]) -> Result<u64, Why>
    ensures { result ≡ at_most limit (number_in field.now) }
{
    match number_in(field) {
        Ok(number) if number <= limit => Ok(number),
        Ok(_) => Err(Why::Number),
        Err(why) => Err(why),
    }
}

/// The number of a resource that was named before.
#[tactic(auto, using(crate::proofs::Names::place_is_below))]
pub fn resource_in(names: &Names, field: &[u8]) -> Result<ResNo, Why>
    ensures value { result ≡ resource_in names.now field.now }
    ensures known { IfOk result (λ res. res < length names.now) }
{
    names.find(field).ok_or(Why::Resource)
}

/// The bytes of an escaped text behind its `=`, or `Escape`.
pub fn text_in(alloc: Global, field: &[u8]) -> Result<Bytes, LineError>
    ensures { Answers result (text_in field.now) }
{
    let [b'=', text @ ..] = field else {
        return Err(LineError::Bad(Why::Escape));
    };
    match unescape(alloc, text) {
        Ok(bytes) => Ok(Bytes::new(bytes)),
        Err(EscapeError::BadEscape(_)) => Err(LineError::Bad(Why::Escape)),
        Err(EscapeError::NoMemory) => Err(LineError::NoMemory),
    }
}
