ghost use Rattle.std.specs.Prelude.{◌≡◌, ◌≤◌, ◌+◌, IsTrue, [], ◌∷◌, length, Option, None, OnOk};
ghost use Rattle.hx_faults.specs.Faults.{HasCause};
ghost use Rattle.hx_disk.specs.Disk.{Through, UsesCalls};
ghost use Rattle.hx_slots.specs.Frames.{Frame};
ghost use Rattle.hx_slots.specs.Gate.{IsAnyState, IsShut, IsWritten, OnTheWay, Frames, Shows};

use hx_disk::{Disk, DiskFailed, FileNo};

// One write and one sync.
fn put<D: Disk>(disk: &mut D, file: FileNo, at: u64, bytes: &[u8]) -> Result<(), DiskFailed>
    requires within { IsTrue D.tells → at ≤ length (D.now disk.old file).reading }
    requires room_file { (D.room disk.old).file ≡ file }
    requires room_end { at + length bytes.now ≤ (D.room disk.old).end }
    requires room_calls { 2 ≤ (D.room disk.old).calls }
    ensures ok { IsTrue D.tells → OnOk result (IsWritten at bytes.now (D.now disk.old file) (D.now disk.new file)) }
    ensures each { IsTrue D.tells → Through D.time D.past file (OnTheWay at bytes.now (D.now disk.old file)) disk.old disk.new }
    ensures runs { Through D.time D.past file IsAnyState disk.old disk.new }
    ensures room { UsesCalls 2 (D.room disk.old) (D.room disk.new) }
    ensures cause { HasCause (D.failures disk.old) (D.failures disk.new) result }
{
    disk.write_at(file, at, bytes)?;
    disk.sync(file)
}

/// Closes the gate: writes byte 0 at place 0, and syncs.
///
/// No other byte of the file changes in any image at any moment of the call, and no other file does. After `Ok` the gate is known closed, and a crash leaves
/// nothing that shows. After a failure the gate may be any byte, and what stands behind it is as before.
#[tactic(auto, using(crate::specs::Gate::shut_shows_nothing))]
pub fn close_gate<D: Disk>(disk: &mut D, file: FileNo) -> Result<(), DiskFailed>
    requires room_file { (D.room disk.old).file ≡ file }
    requires room_end { 1 ≤ (D.room disk.old).end }
    requires room_calls { 2 ≤ (D.room disk.old).calls }
    ensures ok { IsTrue D.tells → OnOk result (IsWritten 0 (0 ∷ []) (D.now disk.old file) (D.now disk.new file)) }
    ensures shut { IsTrue D.tells → OnOk result (IsShut (D.now disk.new file)) }
    ensures nothing { IsTrue D.tells → OnOk result (Shows None (D.now disk.new file)) }

    // Whatever a crash inside the call leaves, or a failure, what stands behind the gate is as it was.
    ensures each { IsTrue D.tells → Through D.time D.past file (OnTheWay 0 (0 ∷ []) (D.now disk.old file)) disk.old disk.new }
    ensures kept { IsTrue D.tells → (frame : Option Frame) → Frames frame (D.now disk.old file) → Through D.time D.past file (Frames frame) disk.old disk.new }
    ensures runs { Through D.time D.past file IsAnyState disk.old disk.new }
    ensures room { UsesCalls 2 (D.room disk.old) (D.room disk.new) }
    ensures cause { HasCause (D.failures disk.old) (D.failures disk.new) result }
{
    put(disk, file, 0, &[0])
}

/// Opens the gate: writes byte 1 at place 0, and syncs.
///
/// No other byte of the file changes in any image at any moment of the call, and no other file does. After `Ok` a crash
/// leaves what stands behind the gate,
/// and the file shows it. After a failure the gate may be any byte, and what stands behind it is as before.
pub fn open_gate<D: Disk>(disk: &mut D, file: FileNo) -> Result<(), DiskFailed>
    requires room_file { (D.room disk.old).file ≡ file }
    requires room_end { 1 ≤ (D.room disk.old).end }
    requires room_calls { 2 ≤ (D.room disk.old).calls }
    ensures ok { IsTrue D.tells → OnOk result (IsWritten 0 (1 ∷ []) (D.now disk.old file) (D.now disk.new file)) }
    ensures opened { IsTrue D.tells → (frame : Option Frame) → Frames frame (D.now disk.old file) → OnOk result (Shows frame (D.now disk.new file)) }

    // Whatever a crash inside the call leaves, or a failure, what stands behind the gate is as it was.
    ensures each { IsTrue D.tells → Through D.time D.past file (OnTheWay 0 (1 ∷ []) (D.now disk.old file)) disk.old disk.new }
    ensures kept { IsTrue D.tells → (frame : Option Frame) → Frames frame (D.now disk.old file) → Through D.time D.past file (Frames frame) disk.old disk.new }
    ensures runs { Through D.time D.past file IsAnyState disk.old disk.new }
    ensures room { UsesCalls 2 (D.room disk.old) (D.room disk.new) }
    ensures cause { HasCause (D.failures disk.old) (D.failures disk.new) result }
{
    put(disk, file, 0, &[1])
}

/// Puts a block of a frame at a place behind the gate, which is known closed, and syncs.
///
/// No byte outside the block changes in any image at any moment of the call, and no other file does. The gate stays known
/// closed, also after a failure.
#[tactic(auto, using(crate::specs::Gate::shut_on_the_way))]
pub fn put_block<D: Disk>(
    disk: &mut D,
    file: FileNo,
    at: u64,
    block: &[u8],
) -> Result<(), DiskFailed>
    requires behind { 1 ≤ at }
    requires within { IsTrue D.tells → at ≤ length (D.now disk.old file).reading }
    requires shut { IsTrue D.tells → IsShut (D.now disk.old file) }
    requires room_file { (D.room disk.old).file ≡ file }
    requires room_end { at + length block.now ≤ (D.room disk.old).end }
    requires room_calls { 2 ≤ (D.room disk.old).calls }
    ensures ok { IsTrue D.tells → OnOk result (IsWritten at block.now (D.now disk.old file) (D.now disk.new file)) }
    ensures each { IsTrue D.tells → Through D.time D.past file (OnTheWay at block.now (D.now disk.old file)) disk.old disk.new }
    ensures shut { IsTrue D.tells → Through D.time D.past file IsShut disk.old disk.new }
    ensures nothing { IsTrue D.tells → Through D.time D.past file (Shows None) disk.old disk.new }
    ensures runs { Through D.time D.past file IsAnyState disk.old disk.new }
    ensures room { UsesCalls 2 (D.room disk.old) (D.room disk.new) }
    ensures cause { HasCause (D.failures disk.old) (D.failures disk.new) result }
{
    put(disk, file, at, block)
}
