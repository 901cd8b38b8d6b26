ghost use Rattle.std.specs.Prelude.{◌≡◌, ◌≤◌, ◌<◌, ℕ, List, IsTrue, OnOk};
ghost use Rattle.hx_faults.specs.Faults.{HasCause};
ghost use Rattle.hx_disk.specs.File.{IsImage, IsAtRest};
ghost use Rattle.hx_disk.specs.Disk.{ThroughAll, UsesCalls};
ghost use Rattle.hx_vault.specs.Barriers.{IsSomeState, OnlySynced};

use hx_disk::{Disk, DiskFailed, FileNo};

/// Syncs each slot file, in order, up to the first sync that fails.
///
/// After `Ok` a crash leaves of each slot file what is read of it and nothing else. Done or failed, at no moment of it a reading
/// or a stat changes, another file is touched, or a crash leaves anything that it couldn't have left before.
pub fn barrier<D: Disk>(disk: &mut D) -> Result<(), DiskFailed>
    requires { 128 ≤ (D.room disk.old).calls }
    ensures rest { IsTrue D.tells → OnOk result ((f : ℕ) → f < 128 → IsAtRest (D.now disk.new f)) }
    ensures readings { IsTrue D.tells → (f : ℕ) → (D.now disk.new f).reading ≡ (D.now disk.old f).reading }
    ensures stats { IsTrue D.tells → (f : ℕ) → (D.now disk.new f).stat ≡ (D.now disk.old f).stat }
    ensures each { IsTrue D.tells → ThroughAll D.time D.past (OnlySynced 128 (D.now disk.old)) disk.old disk.new }
    ensures others { (f : ℕ) → 128 ≤ f → D.now disk.new f ≡ D.now disk.old f }
    ensures runs { ThroughAll D.time D.past IsSomeState disk.old disk.new }
    ensures room { UsesCalls 128 (D.room disk.old) (D.room disk.new) }
    ensures cause { HasCause (D.failures disk.old) (D.failures disk.new) result }
{
    for number in 0..128 {
        disk.sync(FileNo::new(number))?;
    }
    Ok(())
}
