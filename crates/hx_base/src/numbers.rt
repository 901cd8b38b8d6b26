ghost use Rattle.std.specs.Prelude.{◌≡◌, ◌++◌, vec_len, OnOk, OnErr};
ghost use Rattle.std.specs.Int.{w32, w64, to_be_bytes};
ghost use Rattle.hx_base.specs.Numbers.{u32_at, u64_at};

use std::alloc::AllocError;

/// The number that eight bytes from the place `at` on write, the high byte first. `None` exactly where fewer than
/// eight bytes stand there, also where `at` lies behind the end.
#[tactic(auto, unfolding(crate::specs::Numbers::u64_at))]
pub fn read_u64(bytes: &[u8], at: usize) -> Option<u64>
    ensures { result ≡ u64_at bytes.now at }
{
    if at > bytes.len() {
        return None;
    }
    match &bytes[at..] {
        [a, b, c, d, e, f, g, h, ..] => {
            Some(u64::from_be_bytes([*a, *b, *c, *d, *e, *f, *g, *h]))
        }
        _ => None,
    }
}

/// The number that four bytes from the place `at` on write, the high byte first. `None` exactly where fewer than
/// four bytes stand there, also where `at` lies behind the end.
#[tactic(auto, unfolding(crate::specs::Numbers::u32_at))]
pub fn read_u32(bytes: &[u8], at: usize) -> Option<u32>
    ensures { result ≡ u32_at bytes.now at }
{
    if at > bytes.len() {
        return None;
    }
    match &bytes[at..] {
        [a, b, c, d, ..] => Some(u32::from_be_bytes([*a, *b, *c, *d])),
        _ => None,
    }
}

/// Appends the number's eight bytes, the high byte first. Without memory `out` keeps its bytes.
#[tactic(auto, unfolding(crate::specs::Numbers::u64_at))]
pub fn put_u64(out: &mut Vec<u8>, value: u64) -> Result<(), AllocError>
    ensures ok { OnOk result (out.new.items ≡ out.old.items ++ to_be_bytes w64 value) }
    ensures read_back { OnOk result (u64_at out.new.items (vec_len out.old) ≡ Some value) }
    ensures err { OnErr result (out.new.items ≡ out.old.items) }
{
    out.extend_from_slice(&value.to_be_bytes())
}

/// Appends the number's four bytes, the high byte first. Without memory `out` keeps its bytes.
#[tactic(auto, unfolding(crate::specs::Numbers::u32_at))]
pub fn put_u32(out: &mut Vec<u8>, value: u32) -> Result<(), AllocError>
    ensures ok { OnOk result (out.new.items ≡ out.old.items ++ to_be_bytes w32 value) }
    ensures read_back { OnOk result (u32_at out.new.items (vec_len out.old) ≡ Some value) }
    ensures err { OnErr result (out.new.items ≡ out.old.items) }
{
    out.extend_from_slice(&value.to_be_bytes())
}
