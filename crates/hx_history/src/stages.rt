//! The vault's stages, each with the room for it, and what they leave of one pair.

ghost use Rattle.std.specs.Prelude.{◌≡◌, ◌≤◌, ◌<◌, ◌+◌, ◌-◌, ◌^◌, ◌++◌, IsTrue, IsErrOf, IsSome, List, [], ℕ, length, Option, Some, None, false, true, Bool, OnOk, OnErr};
ghost use Rattle.hx_faults.specs.Faults.{Rose};
ghost use Rattle.hx_disk.specs.Disk.{Through};
ghost use Rattle.hx_rules.specs.Allowed.{allowed_of};
ghost use Rattle.hx_rules.specs.Backups.{Snapshot, backup_of};
ghost use Rattle.hx_slots.specs.Frames.{Frame};
ghost use Rattle.hx_vault.specs.Sides.{IsFrame};
ghost use Rattle.hx_vault.specs.Vaults.{pair_at, place_of};
ghost use Rattle.hx_vault.specs.declared.pair.PairUse.TheVariants.{Taken};
ghost use Rattle.hx_pairs.specs.AllPairs.{IsQuietPair};
ghost use Rattle.hx_pairs.specs.OnePair.{Reads};
ghost use Rattle.hx_history.specs.declared.halts.Halt.TheVariants.{Fault, NoMemory};
ghost use Rattle.hx_history_laws.specs.Keeping.{MovesPair, Owns};
ghost use Rattle.hx_history_laws.specs.PairRuns.{PairRun};
ghost use Rattle.hx_history_laws.specs.PairStages.{IsPairFine};
ghost use Rattle.hx_history_laws.specs.Stages.{HasFaded, HasPut};
ghost use Rattle.hx_history_laws.specs.Stamps.{AreStamped, IsNumbered};

use crate::frames::BLOCK;
use crate::halts::Halt;
use hx_disk::Disk;
use hx_events::PairNo;
use hx_vault::Vault;

/// Closes the side that isn't home, to write an entry there, and gives out a stamp.
pub fn close_away<D: Disk>(disk: &mut D, vault: &mut Vault, pair: PairNo) -> Result<(), Halt>
    requires count { length vault.old.pairs ≡ 64 }
    requires taken { (pair_at vault.old pair).used ≡ Taken }
    requires unspent { vault.old.stamp < 2 ^ 64 - 1 }
    ensures moves { MovesPair pair vault.old vault.new }
    ensures stamp { vault.new.stamp ≤ vault.old.stamp + 1 }
    ensures stamped { OnOk result (vault.new.stamp ≡ vault.old.stamp + 1) }
    ensures begun { OnOk result ((pair_at vault.new pair).put ≡ Some 0) }
    ensures run { IsTrue D.tells → (resource : List ℕ) (was : Option Snapshot) → Owns resource was None false vault.old pair (D.now disk.old) → PairRun D.time D.past pair (IsPairFine resource (allowed_of was None false) pair) disk.old disk.new }
    ensures kept { IsTrue D.tells → (resource : List ℕ) (was : Option Snapshot) → Owns resource was None false vault.old pair (D.now disk.old) → Owns resource was None false vault.new pair (D.now disk.new) }
    ensures ready { IsTrue D.tells → (resource : List ℕ) (was : Option Snapshot) → Owns resource was None false vault.old pair (D.now disk.old) → OnOk result (HasPut resource was [] vault.new pair (D.now disk.new)) }
    ensures stamps { IsTrue D.tells → (own : Bool) → AreStamped own vault.old (D.now disk.old) → AreStamped own vault.new (D.now disk.new) }
    ensures fault { IsErrOf result Halt.Fault → Rose (D.failures disk.old) (D.failures disk.new) }
    ensures no_fault { OnOk result (D.failures disk.new ≡ D.failures disk.old) }
    ensures later { D.failures disk.old ≤ D.failures disk.new }
{
    vault.reserve(disk, pair, false, 1)?;
    vault.prepare(disk, pair)?;
    Ok(())
}

/// Puts a block of a frame behind those that were put since the side was closed.
pub fn put_block<D: Disk>(
    disk: &mut D,
    vault: &mut Vault,
    pair: PairNo,
    block: &[u8],
) -> Result<(), Halt>
    requires count { length vault.old.pairs ≡ 64 }
    requires taken { (pair_at vault.old pair).used ≡ Taken }
    requires begun { IsSome (pair_at vault.old pair).put }
    requires small { place_of (pair_at vault.old pair) + length block.now < 2 ^ 32 }
    requires side { IsTrue D.tells → (resource : List ℕ) × (was : Option Snapshot) × (put : List ℕ) × HasPut resource was put vault.old pair (D.now disk.old) }
    ensures moves { MovesPair pair vault.old vault.new }
    ensures stamp { vault.new.stamp ≡ vault.old.stamp }
    ensures placed { OnOk result ((pair_at vault.new pair).put ≡ Some (place_of (pair_at vault.old pair) + length block.now)) }
    ensures run { IsTrue D.tells → (resource : List ℕ) (was : Option Snapshot) (put : List ℕ) → HasPut resource was put vault.old pair (D.now disk.old) → PairRun D.time D.past pair (IsPairFine resource (allowed_of was None false) pair) disk.old disk.new }
    ensures kept { IsTrue D.tells → (resource : List ℕ) (was : Option Snapshot) (put : List ℕ) → HasPut resource was put vault.old pair (D.now disk.old) → Owns resource was None false vault.new pair (D.now disk.new) }
    ensures ready { IsTrue D.tells → (resource : List ℕ) (was : Option Snapshot) (put : List ℕ) → HasPut resource was put vault.old pair (D.now disk.old) → OnOk result (HasPut resource was (put ++ block.now) vault.new pair (D.now disk.new)) }
    ensures stamps { IsTrue D.tells → (own : Bool) → AreStamped own vault.old (D.now disk.old) → AreStamped own vault.new (D.now disk.new) }
    ensures fault { IsErrOf result Halt.Fault → Rose (D.failures disk.old) (D.failures disk.new) }
    ensures no_fault { OnOk result (D.failures disk.new ≡ D.failures disk.old) }
    ensures later { D.failures disk.old ≤ D.failures disk.new }
{
    let end = 1 + vault.place(pair) + block.len() as u64;
    vault.reserve(disk, pair, false, end)?;
    vault.body(disk, pair, block)?;
    Ok(())
}

/// Puts these bytes behind those that were put since the side was closed, in blocks of 4,096 bytes.
pub fn put_blocks<D: Disk>(
    disk: &mut D,
    vault: &mut Vault,
    pair: PairNo,
    bytes: &[u8],
) -> Result<(), Halt>
    requires count { length vault.old.pairs ≡ 64 }
    requires taken { (pair_at vault.old pair).used ≡ Taken }
    requires begun { IsSome (pair_at vault.old pair).put }
    requires small { place_of (pair_at vault.old pair) + length bytes.now < 2 ^ 32 }
    requires side { IsTrue D.tells → (resource : List ℕ) × (was : Option Snapshot) × (put : List ℕ) × HasPut resource was put vault.old pair (D.now disk.old) }
    ensures moves { MovesPair pair vault.old vault.new }
    ensures stamp { vault.new.stamp ≡ vault.old.stamp }
    ensures run { IsTrue D.tells → (resource : List ℕ) (was : Option Snapshot) (put : List ℕ) → HasPut resource was put vault.old pair (D.now disk.old) → PairRun D.time D.past pair (IsPairFine resource (allowed_of was None false) pair) disk.old disk.new }
    ensures kept { IsTrue D.tells → (resource : List ℕ) (was : Option Snapshot) (put : List ℕ) → HasPut resource was put vault.old pair (D.now disk.old) → Owns resource was None false vault.new pair (D.now disk.new) }
    ensures ready { IsTrue D.tells → (resource : List ℕ) (was : Option Snapshot) (put : List ℕ) → HasPut resource was put vault.old pair (D.now disk.old) → OnOk result (HasPut resource was (put ++ bytes.now) vault.new pair (D.now disk.new)) }
    ensures stamps { IsTrue D.tells → (own : Bool) → AreStamped own vault.old (D.now disk.old) → AreStamped own vault.new (D.now disk.new) }
    ensures fault { IsErrOf result Halt.Fault → Rose (D.failures disk.old) (D.failures disk.new) }
    ensures no_fault { OnOk result (D.failures disk.new ≡ D.failures disk.old) }
    ensures later { D.failures disk.old ≤ D.failures disk.new }
{
    for block in bytes.chunks(BLOCK) {
        put_block(disk, vault, pair, block)?;
    }
    Ok(())
}

/// Opens the gate behind which a whole frame stands.
pub fn open_away<D: Disk>(disk: &mut D, vault: &mut Vault, pair: PairNo) -> Result<(), Halt>
    requires count { length vault.old.pairs ≡ 64 }
    requires taken { (pair_at vault.old pair).used ≡ Taken }
    ensures moves { MovesPair pair vault.old vault.new }
    ensures stamp { vault.new.stamp ≡ vault.old.stamp }
    ensures run { IsTrue D.tells → (resource : List ℕ) (was : Option Snapshot) (put : List ℕ) (frame : Frame) (fresh : Snapshot) → HasPut resource was put vault.old pair (D.now disk.old) → IsFrame put frame → Reads frame (backup_of resource fresh) → PairRun D.time D.past pair (IsPairFine resource (allowed_of was (Some fresh) false) pair) disk.old disk.new }
    ensures done { IsTrue D.tells → (resource : List ℕ) (was : Option Snapshot) (put : List ℕ) (frame : Frame) (fresh : Snapshot) → HasPut resource was put vault.old pair (D.now disk.old) → IsFrame put frame → Reads frame (backup_of resource fresh) → frame.stamp ≡ vault.old.stamp → OnOk result (Owns resource (Some fresh) None false vault.new pair (D.now disk.new)) }
    ensures kept { IsTrue D.tells → (resource : List ℕ) (was : Option Snapshot) (put : List ℕ) → HasPut resource was put vault.old pair (D.now disk.old) → IsErrOf result Halt.NoMemory → Owns resource was None false vault.new pair (D.now disk.new) }
    ensures stamps { IsTrue D.tells → (own : Bool) (resource : List ℕ) (was : Option Snapshot) (put : List ℕ) (frame : Frame) → HasPut resource was put vault.old pair (D.now disk.old) → IsFrame put frame → frame.stamp ≤ vault.old.stamp → (own ≡ true → IsNumbered frame) → AreStamped own vault.old (D.now disk.old) → AreStamped own vault.new (D.now disk.new) }
    ensures fault { IsErrOf result Halt.Fault → Rose (D.failures disk.old) (D.failures disk.new) }
    ensures no_fault { OnOk result (D.failures disk.new ≡ D.failures disk.old) }
    ensures later { D.failures disk.old ≤ D.failures disk.new }
{
    vault.reserve(disk, pair, false, 1)?;
    vault.open_gate(disk, pair)?;
    Ok(())
}

/// Closes the side that isn't home, to empty the pair.
pub fn fade<D: Disk>(disk: &mut D, vault: &mut Vault, pair: PairNo) -> Result<(), Halt>
    requires count { length vault.old.pairs ≡ 64 }
    requires taken { (pair_at vault.old pair).used ≡ Taken }
    ensures moves { MovesPair pair vault.old vault.new }
    ensures stamp { vault.new.stamp ≡ vault.old.stamp }
    ensures run { IsTrue D.tells → (resource : List ℕ) (was : Option Snapshot) (undone : Bool) → Owns resource was None undone vault.old pair (D.now disk.old) → PairRun D.time D.past pair (IsPairFine resource (allowed_of was None undone) pair) disk.old disk.new }
    ensures kept { IsTrue D.tells → (resource : List ℕ) (was : Option Snapshot) (undone : Bool) → Owns resource was None undone vault.old pair (D.now disk.old) → Owns resource was None undone vault.new pair (D.now disk.new) }
    ensures ready { IsTrue D.tells → (resource : List ℕ) (was : Option Snapshot) (undone : Bool) → Owns resource was None undone vault.old pair (D.now disk.old) → OnOk result (HasFaded resource was undone vault.new pair (D.now disk.new)) }
    ensures stamps { IsTrue D.tells → (own : Bool) → AreStamped own vault.old (D.now disk.old) → AreStamped own vault.new (D.now disk.new) }
    ensures fault { IsErrOf result Halt.Fault → Rose (D.failures disk.old) (D.failures disk.new) }
    ensures no_fault { OnOk result (D.failures disk.new ≡ D.failures disk.old) }
    ensures later { D.failures disk.old ≤ D.failures disk.new }
{
    vault.reserve(disk, pair, false, 1)?;
    vault.fade(disk, pair)?;
    Ok(())
}

/// Closes the home side, beside another that is closed.
pub fn drop_home<D: Disk>(disk: &mut D, vault: &mut Vault, pair: PairNo) -> Result<(), Halt>
    requires count { length vault.old.pairs ≡ 64 }
    requires taken { (pair_at vault.old pair).used ≡ Taken }
    ensures moves { MovesPair pair vault.old vault.new }
    ensures stamp { vault.new.stamp ≡ vault.old.stamp }
    ensures run { IsTrue D.tells → (resource : List ℕ) (was : Option Snapshot) (undone : Bool) → HasFaded resource was undone vault.old pair (D.now disk.old) → PairRun D.time D.past pair (IsPairFine resource (allowed_of was None true) pair) disk.old disk.new }
    ensures kept { IsTrue D.tells → (resource : List ℕ) (was : Option Snapshot) (undone : Bool) → HasFaded resource was undone vault.old pair (D.now disk.old) → OnErr result ((u : Bool) × Owns resource was None u vault.new pair (D.now disk.new)) }
    ensures quiet { IsTrue D.tells → (resource : List ℕ) (was : Option Snapshot) (undone : Bool) → HasFaded resource was undone vault.old pair (D.now disk.old) → OnOk result (IsQuietPair (pair_at vault.new pair) pair (D.now disk.new)) }
    ensures stamps { IsTrue D.tells → (own : Bool) → AreStamped own vault.old (D.now disk.old) → AreStamped own vault.new (D.now disk.new) }
    ensures fault { IsErrOf result Halt.Fault → Rose (D.failures disk.old) (D.failures disk.new) }
    ensures no_fault { OnOk result (D.failures disk.new ≡ D.failures disk.old) }
    ensures later { D.failures disk.old ≤ D.failures disk.new }
{
    vault.reserve(disk, pair, true, 1)?;
    vault.drop_newest(disk, pair)?;
    Ok(())
}
