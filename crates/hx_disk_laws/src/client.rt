ghost use Rattle.std.specs.Prelude.{◌≡◌, ◌≢◌, ◌≤◌, ◌<◌, ℕ, ◌+◌, IsTrue, IsErrOf, List, length, OnOk};
ghost use Rattle.hx_faults.specs.Faults.{HasCause, Rose};
ghost use Rattle.hx_disk.specs.Disk.{Through, Left, UsesCalls};
ghost use Rattle.hx_disk.specs.File.{IsImage};
ghost use Rattle.hx_disk_laws.specs.Client.{IsShut, OnTheWay};
ghost use Rattle.hx_disk_laws.specs.declared.client.ShutError.TheVariants.{Failed, NoMemory};

use hx_disk::{Disk, DiskFailed, FileNo};
use std::alloc::AllocError;

/// Why two files could not be shut.
#[derive(Clone, Copy, Debug, PartialEq, Eq)]
pub enum ShutError {
    /// A call on the disk failed.
    Failed,

    /// There was no memory for the room.
    NoMemory,
}

impl From<DiskFailed> for ShutError {
    ghost from_gives = { λ _ e. e ≡ Failed };

    fn from(_: DiskFailed) -> ShutError {
        ShutError::Failed
    }
}

impl From<AllocError> for ShutError {
    ghost from_gives = { λ _ e. e ≡ NoMemory };

    fn from(_: AllocError) -> ShutError {
        ShutError::NoMemory
    }
}

/// Writes the byte 0 at the front of a file and brings it to the disk. After that every image begins with it, and until
/// then each image is one from before, or has its first byte torn.
pub fn shut<D: Disk>(disk: &mut D, file: FileNo) -> Result<(), DiskFailed>
    requires room_file { (D.room disk.old).file ≡ file }
    requires room_end { 1 ≤ (D.room disk.old).end }
    requires room_calls { 2 ≤ (D.room disk.old).calls }
    ensures ok { IsTrue D.tells → OnOk result (IsShut (D.now disk.new file)) }
    ensures each { IsTrue D.tells → Through D.time D.past file (OnTheWay (D.now disk.old file)) disk.old disk.new }
    ensures room { UsesCalls 2 (D.room disk.old) (D.room disk.new) }
    ensures cause { HasCause (D.failures disk.old) (D.failures disk.new) result }
{
    disk.write_at(file, 0, &[0])?;
    disk.sync(file)
}

/// Shuts one file, and then another. A crash at any moment leaves of every further file what it could have left before.
/// It answers `Failed` only where the count of faults rose.
pub fn shut_both<D: Disk>(disk: &mut D, first: FileNo, second: FileNo) -> Result<(), ShutError>
    ensures ok { IsTrue D.tells → OnOk result (IsShut (D.now disk.new first) × IsShut (D.now disk.new second)) }
    ensures failed { IsErrOf result ShutError.Failed → Rose (D.failures disk.old) (D.failures disk.new) }
    ensures others { IsTrue D.tells → (image : ℕ → List ℕ) → Left (D.past disk.new) (D.time disk.old) (D.time disk.new) image → (f : ℕ) → f ≢ first → f ≢ second → IsImage (D.now disk.old f) (image f) }
{
    disk.reserve(first, 1, 2)?;
    shut(disk, first)?;
    disk.reserve(second, 1, 2)?;
    shut(disk, second)?;
    Ok(())
}

/// Crashes a disk. What is read then is what the pick names, and an image of the whole disk at the moment of the crash.
pub fn crash<D: Disk>(disk: &mut D, pick: u64) -> Result<(), AllocError>
    ensures named { IsTrue D.tells → OnOk result ((f : ℕ) → (D.now disk.new f).reading ≡ D.picked pick (D.now disk.old f)) }
    ensures left { IsTrue D.tells → OnOk result (Left (D.past disk.old) (D.time disk.old) (D.time disk.old) (λ f. (D.now disk.new f).reading)) }
    ensures before { IsTrue D.tells → OnOk result (Left (D.past disk.new) (D.time disk.old) (D.time disk.old) (λ f. (D.now disk.new f).reading)) }
{
    disk.crash(pick)
}
