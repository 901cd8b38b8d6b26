ghost use Rattle.std.specs.Prelude.{◌≡◌, ◌⊎◌, ◌≤◌, ◌<◌, ℕ, ◌+◌, Bool, IsTrue, List, length, take, drop, OnOk, OnErr, IfOk};
ghost use Rattle.hx_faults.specs.Faults.{HasCause};
ghost use Rattle.hx_disk.specs.Disk.{Room, UsesCalls, Elapses, ChangesOnly, ChangesNothing};

use crate::file_no::FileNo;
use hx_etag::Stat;
use std::alloc::AllocError;

/// The one fault of a disk: a call on its files didn't succeed.
#[derive(Clone, Copy, Debug, PartialEq, Eq)]
pub struct DiskFailed;

/// A disk of numbered files, which may fail at any call and crash at any moment.
///
/// It is a model with clauses for every disk: each disk counts its faults and fails only where the count rose, uses no
/// memory beyond the room that was reserved, and changes nothing but the file that a call names. A disk that tells its
/// content says besides what is read, and what a crash at each moment may leave. The rules are this project's own.
pub trait Disk {
    ghost use Rattle.hx_disk.specs.File.{FileState, IsImage, IsSound, Tried, Wrote, TriedCut, WasCut, Synced, SameContent, asked_stat, Crashed};

    /// Whether it tells its content. Where it doesn't, no clause speaks of what its files hold.
    ghost tells: { Bool };

    /// Each file at this moment.
    ghost now: { Self → ℕ → FileState };

    /// Each file at each moment up to this one.
    ghost past: { Self → ℕ → ℕ → FileState };

    /// This moment. It never falls.
    ghost time: { Self → ℕ };

    /// How often a call has failed, up to the last value of a `u64`. It never falls.
    ghost failures: { Self → ℕ };

    /// What the last `reserve` made room for, less the calls made since.
    ghost room: { Self → Room };

    /// What a crash with this pick leaves of a file.
    ghost picked: { ℕ → FileState → List ℕ };

    /// Makes the room for the next calls, so many, in place of the room before: a `write_at`, a `cut` and a
    /// `set_mtime` among them are on `file`, and a write reaches no further than `end`. A `sync` is on any file. For want
    /// of memory the room stays as it was.
    fn reserve(&mut self, file: FileNo, end: u64, calls: u32) -> Result<(), AllocError>
        ensures room { OnOk result (room self.new ≡ record { file = file; end = end; calls = calls }) }
        ensures room_err { OnErr result (room self.new ≡ room self.old) }
        ensures unchanged { ChangesNothing time past now self.old self.new }
        ensures faults { failures self.new ≡ failures self.old };

    /// The file's stat, or `None` where it doesn't exist. Its size is that of what a read finds.
    fn stat(&mut self, file: FileNo) -> Result<Option<Stat>, DiskFailed>
        ensures stat { IsTrue tells → IfOk result (λ s. s ≡ (now self.old file).stat) }
        ensures unchanged { ChangesNothing time past now self.old self.new }
        ensures room { room self.new ≡ room self.old }
        ensures cause { HasCause (failures self.old) (failures self.new) result };

    /// Fills `into` with the bytes from the place `at` on.
    fn read(&mut self, file: FileNo, at: u64, into: &mut [u8]) -> Result<(), DiskFailed>
        requires { IsTrue tells → at + length into.old ≤ length (now self.old file).reading }
        ensures bytes { IsTrue tells → OnOk result (into.new ≡ take (length into.old) (drop at (now self.old file).reading)) }
        ensures unchanged { ChangesNothing time past now self.old self.new }
        ensures room { room self.new ≡ room self.old }
        ensures cause { HasCause (failures self.old) (failures self.new) result };

    /// Writes the bytes from the place `at` on, which is at most the file's length. After a failure any part of the
    /// range may have been written.
    fn write_at(&mut self, file: FileNo, at: u64, bytes: &[u8]) -> Result<(), DiskFailed>
        requires within { IsTrue tells → at ≤ length (now self.old file).reading }
        requires room_file { (room self.old).file ≡ file }
        requires room_end { at + length bytes.now ≤ (room self.old).end }
        requires room_calls { 0 < (room self.old).calls }
        ensures ok { IsTrue tells → OnOk result (Wrote at bytes.now (now self.old file) (now self.new file)) }
        ensures err { IsTrue tells → OnErr result (Tried at (length bytes.now) (now self.old file) (now self.new file)) }
        ensures only { ChangesOnly time past now file self.old self.new }
        ensures room { UsesCalls 1 (room self.old) (room self.new) }
        ensures cause { HasCause (failures self.old) (failures self.new) result };

    /// Makes the file `len` bytes long, which is at most its length. After a failure it may have any length between.
    fn cut(&mut self, file: FileNo, len: u64) -> Result<(), DiskFailed>
        requires within { IsTrue tells → len ≤ length (now self.old file).reading }
        requires room_file { (room self.old).file ≡ file }
        requires room_calls { 0 < (room self.old).calls }
        ensures ok { IsTrue tells → OnOk result (WasCut len (now self.old file) (now self.new file)) }
        ensures err { IsTrue tells → OnErr result (TriedCut len (now self.old file) (now self.new file)) }
        ensures only { ChangesOnly time past now file self.old self.new }
        ensures room { UsesCalls 1 (room self.old) (room self.new) }
        ensures cause { HasCause (failures self.old) (failures self.new) result };

    /// Brings what is read to the disk: after success a crash leaves nothing else. A failed sync changes nothing, and
    /// so does one of a file that doesn't exist.
    fn sync(&mut self, file: FileNo) -> Result<(), DiskFailed>
        requires room_calls { 0 < (room self.old).calls }
        ensures ok { IsTrue tells → OnOk result (Synced (now self.old file) (now self.new file)) }
        ensures err { IsTrue tells → OnErr result (now self.new file ≡ now self.old file) }
        ensures only { ChangesOnly time past now file self.old self.new }
        ensures room { UsesCalls 1 (room self.old) (room self.new) }
        ensures cause { HasCause (failures self.old) (failures self.new) result };

    /// Gives the file this modification time, and leaves its content as it is. After a failure it may have the time or
    /// not.
    fn set_mtime(&mut self, file: FileNo, mtime: u64) -> Result<(), DiskFailed>
        requires room_file { (room self.old).file ≡ file }
        requires room_calls { 0 < (room self.old).calls }
        ensures content { IsTrue tells → SameContent (now self.old file) (now self.new file) }
        ensures ok { IsTrue tells → OnOk result ((now self.new file).stat ≡ asked_stat mtime (now self.old file)) }
        ensures err { IsTrue tells → OnErr result (((now self.new file).stat ≡ (now self.old file).stat) ⊎ ((now self.new file).stat ≡ asked_stat mtime (now self.old file))) }
        ensures only { ChangesOnly time past now file self.old self.new }
        ensures room { UsesCalls 1 (room self.old) (room self.new) }
        ensures cause { HasCause (failures self.old) (failures self.new) result };

    /// Leaves of each file the image that the pick names, stable. It ends the room. It isn't a call on a file, and
    /// can't fail but for want of memory, after which nothing has changed.
    fn crash(&mut self, pick: u64) -> Result<(), AllocError>
        ensures ok { IsTrue tells → OnOk result ((f : ℕ) → Crashed (picked pick (now self.old f)) (now self.new f)) }
        ensures err { OnErr result (ChangesNothing time past now self.old self.new) }
        ensures time { Elapses time past self.old self.new }
        ensures room { OnOk result ((room self.new).calls ≡ 0) }
        ensures room_err { OnErr result (room self.new ≡ room self.old) }
        ensures faults { failures self.new ≡ failures self.old };

    /// A count that rises whenever something of a file changes, and never falls.
    fn moment(&self) -> u64
        ensures { result ≡ time self.now };

    /// How many calls have failed, up to the last value of a `u64`.
    fn faults(&self) -> u64
        ensures { result ≡ failures self.now };

    /// This moment is the last of those that are told of.
    ghost present: { (disk : Self) (f : ℕ) → past disk (time disk) f ≡ now disk f };

    /// At each moment what is read of a file is one of its images.
    ghost sound: { (disk : Self) (t f : ℕ) → IsTrue tells → IsSound (past disk t f) };

    /// Each pick names an image.
    ghost pick_is_image: { (pick : ℕ) (file : FileState) → IsTrue tells → IsSound file → IsImage file (picked pick file) };
}
