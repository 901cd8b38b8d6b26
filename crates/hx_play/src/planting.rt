//! The slot files that a script plants before its first life.

ghost use Rattle.std.specs.Prelude.{◌≡◌, ◌<◌, ◌≤◌, IsTrue, IsErrOf, All, OnOk, length, reverse};
ghost use Rattle.hx_faults.specs.Faults.{Rose};
ghost use Rattle.hx_disk.specs.Disk.{Through};
ghost use Rattle.hx_lives.specs.Calls.{HasGoneOn};
ghost use Rattle.hx_slots.specs.Gate.{IsAnyState};
ghost use Rattle.hx_play.specs.Planting.{HasPlanted, IsPlantedWith, OnlyPlants};
ghost use Rattle.hx_play.specs.declared.planting.PlantError.TheVariants.{DiskFault, NoMemory};

use hx_disk::{Disk, DiskFailed};
use hx_script::Plant;
use std::alloc::AllocError;

/// Why not all slot files were planted.
#[derive(Clone, Copy, Debug, PartialEq, Eq)]
pub enum PlantError {
    DiskFault,
    NoMemory,
}

impl From<DiskFailed> for PlantError {
    ghost from_gives = { λ _ e. e ≡ DiskFault };

    fn from(_: DiskFailed) -> PlantError {
        PlantError::DiskFault
    }
}

impl From<AllocError> for PlantError {
    ghost from_gives = { λ _ e. e ≡ NoMemory };

    fn from(_: AllocError) -> PlantError {
        PlantError::NoMemory
    }
}

/// Writes the whole slot file and brings it to the disk.
fn plant_file<D: Disk>(disk: &mut D, slot: &Plant) -> Result<(), PlantError>
    ensures through { Through D.time D.past slot.now.file IsAnyState disk.old disk.new }
    ensures planted { IsTrue D.tells → OnOk result (IsPlantedWith slot.now.bytes (D.now disk.new slot.now.file)) }
    ensures cause { IsErrOf result PlantError.DiskFault → Rose (D.failures disk.old) (D.failures disk.new) }
    ensures no_fault { OnOk result (D.failures disk.new ≡ D.failures disk.old) }
    ensures later { D.failures disk.old ≤ D.failures disk.new }
{
    let bytes = slot.bytes.as_slice();
    let len = bytes.len() as u64;
    disk.reserve(slot.file, len, 3)?;
    disk.write_at(slot.file, 0, bytes)?;
    disk.cut(slot.file, len)?;
    disk.sync(slot.file)?;
    Ok(())
}

/// Plants the slot files, in this order, so that a later one of the same file writes again. It stops at the first call of the
/// disk that fails.
pub fn plant<D: Disk>(disk: &mut D, slots: &[Plant]) -> Result<(), PlantError>
    ensures runs { HasGoneOn D.time D.past D.failures disk.old disk.new }
    ensures others { OnlyPlants (D.past disk.new) (reverse slots.now) (D.time disk.old) (D.time disk.new) }
    ensures planted { IsTrue D.tells → OnOk result (HasPlanted (reverse slots.now) (D.past disk.new (D.time disk.new))) }
    ensures cause { IsErrOf result PlantError.DiskFault → Rose (D.failures disk.old) (D.failures disk.new) }
    ensures no_fault { OnOk result (D.failures disk.new ≡ D.failures disk.old) }
{
    for slot in slots {
        plant_file(disk, slot)?;
    }
    Ok(())
}
