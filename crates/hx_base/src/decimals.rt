ghost use Rattle.std.specs.Prelude.{ℕ, ◌≡◌, ◌<◌, ◌^◌, IfOk, IfSome, decimal};
ghost use Rattle.hx_base.specs.Decimals.{decimal_value};

use itoa::Buffer;
use std::alloc::{AllocError, Global};
use std::str;

/// The number's decimal text, without leading zeros.
#[tactic(auto, using(crate::proofs::DecimalSteps::value_of_decimal))]
pub fn decimal(alloc: Global, value: u64) -> Result<Vec<u8>, AllocError>
    ensures text { IfOk result (λ text. text.items ≡ decimal value) }
    ensures read_back { IfOk result (λ text. decimal_value text.items ≡ Some value) }
{
    let mut buffer = Buffer::new();
    Vec::from_slice(alloc, buffer.format(value).as_bytes())
}

// `parse` takes a sign and leading zeros too, so more texts than the decimal ones.
fn parsed(text: &[u8]) -> Option<u64>
    ensures { (n : ℕ) → n < 2 ^ 64 → text.now ≡ decimal n → result ≡ Some n }
{
    match str::from_utf8(text) {
        Ok(text) => text.parse().ok(),
        Err(_) => None,
    }
}

/// The number below 2^64 of which the text is the decimal text. `None` exactly where there is none, so also for a
/// leading zero or sign.
#[tactic(auto, using(crate::proofs::DecimalSteps::value_of_decimal, crate::proofs::DecimalSteps::no_value))]
pub fn read_decimal(text: &[u8]) -> Option<u64>
    ensures value { result ≡ decimal_value text.now }
    ensures is_decimal { IfSome result (λ n. decimal n ≡ text.now) }
    ensures each { (n : ℕ) → n < 2 ^ 64 → text.now ≡ decimal n → result ≡ Some n }
{
    let number = parsed(text)?;
    let mut buffer = Buffer::new();
    if buffer.format(number).as_bytes() == text {
        Some(number)
    } else {
        None
    }
}
