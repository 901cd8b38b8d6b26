ghost use Rattle.std.specs.Prelude.{◌≡◌, ◌&&◌, ◌==◌, not};
ghost use Rattle.hx_etag.specs.Conflicts.{conflict, modified_since, newer_of};

use crate::Stat;

// Whether the two sizes have the same digits in base 31, the lowest first.
fn same_digits(mut left: u64, mut right: u64) -> bool
    ensures { result ≡ (left == right) }
{
    while left >= 31 && right >= 31 {
        if left % 31 != right % 31 {
            return false;
        }
        left /= 31;
        right /= 31;
    }
    left == right
}

/// Whether a save must not write, because another program changed the file since the editor last read it. True exactly
/// where `overwrite` is false, both stats are there, the file's time is later than the known one, and the known etag
/// isn't that of the known time with the found size. Both etags begin with the digits of the known time, so they differ
/// exactly where the digits of the sizes do.
///
/// The rule is that of VS Code's file service. A later time with the same size is no conflict there either.
pub fn conflicts(base: Option<Stat>, found: Option<Stat>, overwrite: bool) -> bool
    ensures exact { result ≡ (not overwrite && conflict base found) }
    ensures by_etags { result ≡ (not overwrite && modified_since base found) }
{
    match (base, found) {
        (Some(base), Some(found)) => {
            !overwrite && base.mtime < found.mtime && !same_digits(base.size, found.size)
        }
        _ => false,
    }
}

/// The stat to keep after `found` was read: `found` where there is no base or `found` has an equal or later time, else
/// the base.
pub fn newer(base: Option<Stat>, found: Stat) -> Stat
    ensures { result ≡ newer_of base found }
{
    match base {
        Some(base) if found.mtime < base.mtime => base,
        _ => found,
    }
}
