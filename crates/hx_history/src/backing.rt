//! Entries on the disk: one is written to a pair of slot files, and the pair of one is emptied.

ghost use Rattle.std.specs.Prelude.{◌≡◌, ◌≢◌, ◌≤◌, ◌<◌, ◌+◌, ◌-◌, ◌^◌, IsTrue, IsErrOf, List, [], ◌∷◌, ℕ, length, Option, Some, None, false, true, Bool, OnOk, OnErr};
ghost use Rattle.hx_faults.specs.Faults.{Rose};
ghost use Rattle.hx_events.specs.declared.backup.TheConstants.{CONTENT_MAX};
ghost use Rattle.hx_rules.specs.Allowed.{allowed_of};
ghost use Rattle.hx_rules.specs.Backups.{Snapshot};
ghost use Rattle.hx_vault.specs.Vaults.{pair_at};
ghost use Rattle.hx_vault.specs.declared.pair.PairUse.TheVariants.{Free, Taken};
ghost use Rattle.hx_pairs.specs.AllPairs.{IsQuietPair};
ghost use Rattle.hx_history.specs.declared.halts.Halt.TheVariants.{Fault, NoMemory};
ghost use Rattle.hx_history_laws.specs.Entries.{resource_at, taken_of};
ghost use Rattle.hx_history_laws.specs.Keeping.{MovesPair, Owns};
ghost use Rattle.hx_history_laws.specs.PairRuns.{PairRun};
ghost use Rattle.hx_history_laws.specs.PairStages.{IsPairFine};
ghost use Rattle.hx_history_laws.specs.Stamps.{AreStamped};

use crate::frames::{behind_first, first_block};
use crate::halts::Halt;
use crate::stages::{close_away, drop_home, fade, open_away, put_block, put_blocks};
use hx_disk::Disk;
use hx_events::PairNo;
use hx_vault::Vault;
use std::alloc::Global;

/// Writes the entry to the pair, beside what stands there of the same number, if anything does. The content goes to the disk in
/// blocks of 4,096 bytes, the first of them with all that stands before it.
pub fn back_up<D: Disk>(
    alloc: Global,
    disk: &mut D,
    vault: &mut Vault,
    pair: PairNo,
    number: u64,
    moment: u64,
    content: &[u8],
) -> Result<(), Halt>
    requires count { length vault.old.pairs ≡ 64 }
    requires taken { (pair_at vault.old pair).used ≡ Taken }
    requires unspent { vault.old.stamp < 2 ^ 64 - 1 }
    requires small { length content.now ≤ CONTENT_MAX }
    requires within { number ≤ vault.old.stamp + 1 }
    requires held { IsTrue D.tells → (was : Option Snapshot) × Owns (resource_at number) was None false vault.old pair (D.now disk.old) }
    ensures moves { MovesPair pair vault.old vault.new }
    ensures stamp { vault.new.stamp ≤ vault.old.stamp + 1 }
    ensures stamped { OnOk result (vault.new.stamp ≡ vault.old.stamp + 1) }
    ensures run { IsTrue D.tells → (was : Option Snapshot) → Owns (resource_at number) was None false vault.old pair (D.now disk.old) → PairRun D.time D.past pair (IsPairFine (resource_at number) (was ∷ Some (taken_of (record { number = number; moment = moment; content = content.now })) ∷ []) pair) disk.old disk.new }
    ensures done { IsTrue D.tells → (was : Option Snapshot) → Owns (resource_at number) was None false vault.old pair (D.now disk.old) → OnOk result (Owns (resource_at number) (Some (taken_of (record { number = number; moment = moment; content = content.now }))) None false vault.new pair (D.now disk.new)) }
    ensures kept { IsTrue D.tells → (was : Option Snapshot) → Owns (resource_at number) was None false vault.old pair (D.now disk.old) → IsErrOf result Halt.NoMemory → Owns (resource_at number) was None false vault.new pair (D.now disk.new) }
    ensures stamps { IsTrue D.tells → (own : Bool) → AreStamped own vault.old (D.now disk.old) → AreStamped own vault.new (D.now disk.new) }
    ensures fault { IsErrOf result Halt.Fault → Rose (D.failures disk.old) (D.failures disk.new) }
    ensures no_fault { OnOk result (D.failures disk.new ≡ D.failures disk.old) }
    ensures later { D.failures disk.old ≤ D.failures disk.new }
{
    let first = first_block(alloc, vault.stamp() + 1, number, moment, content)?;
    close_away(disk, vault, pair)?;
    put_block(disk, vault, pair, &first)?;
    put_blocks(disk, vault, pair, behind_first(content))?;
    open_away(disk, vault, pair)
}

/// Empties the pair and gives it back.
pub fn empty<D: Disk>(disk: &mut D, vault: &mut Vault, pair: PairNo) -> Result<(), Halt>
    requires count { length vault.old.pairs ≡ 64 }
    requires taken { (pair_at vault.old pair).used ≡ Taken }
    requires held { IsTrue D.tells → (resource : List ℕ) × (was : Snapshot) × (undone : Bool) × Owns resource (Some was) None undone vault.old pair (D.now disk.old) }
    ensures count { length vault.new.pairs ≡ 64 }
    ensures others { (q : ℕ) → q ≢ pair → pair_at vault.new q ≡ pair_at vault.old q }
    ensures stamp { vault.new.stamp ≡ vault.old.stamp }
    ensures freed { OnOk result ((pair_at vault.new pair).used ≡ Free) }
    ensures moves { OnErr result (MovesPair pair vault.old vault.new) }
    ensures run { IsTrue D.tells → (resource : List ℕ) (was : Snapshot) (undone : Bool) → Owns resource (Some was) None undone vault.old pair (D.now disk.old) → PairRun D.time D.past pair (IsPairFine resource (Some was ∷ None ∷ []) pair) disk.old disk.new }
    ensures quiet { IsTrue D.tells → OnOk result (IsQuietPair (pair_at vault.new pair) pair (D.now disk.new)) }
    ensures kept { IsTrue D.tells → (resource : List ℕ) (was : Snapshot) (undone : Bool) → Owns resource (Some was) None undone vault.old pair (D.now disk.old) → OnErr result ((u : Bool) × Owns resource (Some was) None u vault.new pair (D.now disk.new)) }
    ensures stamps { IsTrue D.tells → (own : Bool) → AreStamped own vault.old (D.now disk.old) → AreStamped own vault.new (D.now disk.new) }
    ensures fault { IsErrOf result Halt.Fault → Rose (D.failures disk.old) (D.failures disk.new) }
    ensures no_fault { OnOk result (D.failures disk.new ≡ D.failures disk.old) }
    ensures later { D.failures disk.old ≤ D.failures disk.new }
{
    fade(disk, vault, pair)?;
    drop_home(disk, vault, pair)?;
    vault.release(disk, pair);
    Ok(())
}
