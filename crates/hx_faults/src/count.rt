ghost use Rattle.std.specs.Prelude.{◌≡◌, ◌≤◌, ◌+◌, ◌-◌, ◌^◌, min};
ghost use Rattle.hx_faults.specs.Faults.{Rose};

/// The count of faults after one more. At its greatest value a count stands still.
pub fn raised(count: u64) -> u64
    ensures value { result ≡ min (count + 1) (2 ^ 64 - 1) }
    ensures rose { Rose count result }
{
    count.saturating_add(1)
}
