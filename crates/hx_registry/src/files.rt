//! The users' files, read and written whole.

ghost use Rattle.std.specs.Prelude.{◌≡◌, ◌+◌, ◌≤◌, IsTrue, OnOk, OnErr, IfOk, Some, true, length};
ghost use Rattle.hx_faults.specs.Faults.{HasCause, Rose};
ghost use Rattle.hx_disk.specs.Disk.{Through, ChangesNothing};
ghost use Rattle.hx_slots.specs.Gate.{IsAnyState};
ghost use Rattle.hx_events.specs.declared.backup.TheConstants.{CONTENT_MAX};
ghost use Rattle.hx_resource.specs.Asks.{FitsWork};
ghost use Rattle.hx_resource.specs.declared.asks.Work.TheVariants.{ReadFile};
ghost use Rattle.hx_resource.specs.Rooms.{got_content};
ghost use Rattle.hx_registry.specs.Files.{IsWhole, IsSavedAs};
ghost use Rattle.hx_registry.specs.Given.{IsReadAs, is_failed};

use hx_core::Got;
use hx_disk::{Disk, DiskFailed, FileNo};
use hx_etag::Stat;
use hx_events::{Bytes, ResNo};
use std::alloc::{AllocError, Global};

/// The user's file of the resource.
pub fn user_file(res: ResNo) -> FileNo
    ensures { result ≡ 128 + res }
{
    FileNo::new(128 + res.number())
}

/// Writes the whole file and gives it this modification time, as another program does.
pub fn overwrite<D: Disk>(
    disk: &mut D,
    file: FileNo,
    mtime: u64,
    text: &[u8],
) -> Result<(), DiskFailed>
    requires room_file { (D.room disk.old).file ≡ file }
    requires room_end { length text.now ≤ (D.room disk.old).end }
    requires room_calls { 4 ≤ (D.room disk.old).calls }
    ensures through { Through D.time D.past file IsAnyState disk.old disk.new }
    ensures written { IsTrue D.tells → OnOk result (IsWhole text.now mtime (D.now disk.new file)) }
    ensures cause { HasCause (D.failures disk.old) (D.failures disk.new) result }
{
    disk.write_at(file, 0, text)?;
    disk.cut(file, text.len() as u64)?;
    disk.set_mtime(file, mtime)?;
    disk.sync(file)
}

/// Writes the whole file of a save, and asks its stat then.
pub fn write_out<D: Disk>(
    disk: &mut D,
    file: FileNo,
    text: &[u8],
) -> Result<Option<Stat>, DiskFailed>
    requires room_file { (D.room disk.old).file ≡ file }
    requires room_end { length text.now ≤ (D.room disk.old).end }
    requires room_calls { 3 ≤ (D.room disk.old).calls }
    ensures through { Through D.time D.past file IsAnyState disk.old disk.new }
    ensures saved { IsTrue D.tells → IfOk result (λ found. IsSavedAs text.now found (D.now disk.new file)) }
    ensures cause { HasCause (D.failures disk.old) (D.failures disk.new) result }
{
    disk.write_at(file, 0, text)?;
    disk.cut(file, text.len() as u64)?;
    disk.sync(file)?;
    disk.stat(file)
}

/// Reads the content of a file that has this stat. An empty file isn't read.
pub fn read_content<D: Disk>(
    alloc: Global,
    disk: &mut D,
    file: FileNo,
    stat: Stat,
) -> Result<Got, AllocError>
    requires stat { IsTrue D.tells → (D.now disk.old file).stat ≡ Some stat }
    requires short { stat.size ≤ CONTENT_MAX }
    ensures unchanged { ChangesNothing D.time D.past D.now disk.old disk.new }
    ensures found { IsTrue D.tells → IfOk result (λ got. IsReadAs got (D.now disk.old file)) }
    ensures fits { IfOk result (λ got. FitsWork (ReadFile file) got) }
    ensures size { IfOk result (λ got. length (got_content got) ≤ stat.size) }
    ensures later { D.failures disk.old ≤ D.failures disk.new }
    ensures cause { IfOk result (λ got. is_failed got ≡ true → Rose (D.failures disk.old) (D.failures disk.new)) }
    ensures err { OnErr result (D.failures disk.new ≡ D.failures disk.old) }
{
    let mut content = vec![in alloc; 0u8; stat.size as usize]?;
    if stat.size == 0 {
        return Ok(Got::Read(stat, Bytes::new(content)));
    }
    match disk.read(file, 0, &mut content) {
        Ok(()) => Ok(Got::Read(stat, Bytes::new(content))),
        Err(DiskFailed) => Ok(Got::Failed),
    }
}
