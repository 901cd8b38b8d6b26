//! The folder as a disk: its failures are counted, and its room is kept.

ghost use Rattle.std.specs.Prelude.{◌≤◌};
ghost use Rattle.hx_faults.specs.Faults.{HasCause, Rose};

use crate::folder::{Folder, Folders};
use hx_disk::{Disk, DiskFailed, FileNo};
use hx_etag::Stat;
use hx_faults::raised;
use std::alloc::{AllocError, Global};
use std::io;

/// The files of a folder as a disk, each under the three digits of its number.
///
/// All that it needs is made at the start, so that no call wants memory. A folder that isn't there has no files, and a write into it
/// fails. The first call holds the folder for this process alone, and fails where another one holds it. What a crash leaves is what
/// the file system kept: `crash` itself changes nothing.
#[derive(Drop)]
pub struct FileDisk<F: Folders + Drop> {
    folder: Folder<F>,
    room_file: u32,
    room_end: u64,
    room_calls: u32,
    faults: u64,
}

/// A runtime with a file system, on which a program keeps a store.
pub trait Stores {
    /// The disk over a folder.
    type Store: Disk + Drop + Send;

    /// A disk over the files of this folder. No file is asked yet.
    fn store(&self, alloc: Global, folder: String) -> Result<Self::Store, AllocError>;
}

impl Stores for HostRuntime {
    type Store = FileDisk<HostRuntime>;

    fn store(&self, alloc: Global, folder: String) -> Result<FileDisk<HostRuntime>, AllocError> {
        FileDisk::new(*self, alloc, folder)
    }
}

impl<F: Folders + Drop> FileDisk<F> {
    /// A disk over the files of this folder. No file is asked yet.
    pub fn new(files: F, alloc: Global, folder: String) -> Result<FileDisk<F>, AllocError> {
        Ok(FileDisk {
            folder: Folder::new(files, alloc, folder)?,
            room_file: 0,
            room_end: 0,
            room_calls: 0,
            faults: 0,
        })
    }
}

/// A failure, which is counted.
fn failed(faults: &mut u64) -> DiskFailed
    ensures later { faults.old ≤ faults.new }
    ensures rose { Rose faults.old faults.new }
{
    *faults = raised(*faults);
    DiskFailed
}

/// What a call on the files came to, as the disk answers it.
fn counted<T>(faults: &mut u64, outcome: io::Result<T>) -> Result<T, DiskFailed>
    ensures { HasCause faults.old faults.new result }
{
    match outcome {
        Ok(value) => Ok(value),
        Err(_) => Err(failed(faults)),
    }
}

impl<F: Folders + Drop> Disk for FileDisk<F> {
    ghost use Rattle.std.specs.Prelude.{refl, false, ◌≤◌, ◌<◌, ◌+◌, length, OnOk, OnErr, IfOk};
    ghost use Rattle.hx_disk.specs.Disk.{ChangesOnly, UsesCalls};
    ghost use Rattle.hx_filedisk.specs.FileDisk.{untold, untold_sound};

    ghost tells = { false };

    ghost now = { λ _ _. untold };

    ghost past = { λ _ _ _. untold };

    ghost time = { λ _. 0 };

    ghost failures = { λ disk. disk.faults };

    ghost room = { λ disk. record { file = disk.room_file; end = disk.room_end; calls = disk.room_calls } };

    ghost picked = { λ _ file. file.reading };

    ghost present = { λ _ _. refl };

    ghost sound = { λ disk t f told. untold_sound };

    ghost pick_is_image = { λ pick file told sound. sound.reading };

    fn reserve(&mut self, file: FileNo, end: u64, calls: u32) -> Result<(), AllocError> {
        self.room_file = file.number();
        self.room_end = end;
        self.room_calls = calls;
        Ok(())
    }

    fn stat(&mut self, file: FileNo) -> Result<Option<Stat>, DiskFailed> {
        let found = self.folder.stat(file.number() as usize);
        counted(&mut self.faults, found)
    }

    fn read(&mut self, file: FileNo, at: u64, into: &mut [u8]) -> Result<(), DiskFailed> {
        let filled = self.folder.read(file.number() as usize, at, into);
        counted(&mut self.faults, filled)
    }

    fn write_at(&mut self, file: FileNo, at: u64, bytes: &[u8]) -> Result<(), DiskFailed> {
        self.room_calls -= 1;
        let written = self.folder.write(file.number() as usize, at, bytes);
        counted(&mut self.faults, written)
    }

    fn cut(&mut self, file: FileNo, len: u64) -> Result<(), DiskFailed> {
        self.room_calls -= 1;
        let cut = self.folder.cut(file.number() as usize, len);
        counted(&mut self.faults, cut)
    }

    fn sync(&mut self, file: FileNo) -> Result<(), DiskFailed> {
        self.room_calls -= 1;
        let synced = self.folder.sync(file.number() as usize);
        counted(&mut self.faults, synced)
    }

    /// Always a failure: the times of these files are those of their last writes.
    fn set_mtime(&mut self, _file: FileNo, _mtime: u64) -> Result<(), DiskFailed>
        requires room_calls { 0 < self.old.room_calls }
        ensures never { OnOk result ⊥ }
        ensures only { ChangesOnly (λ _. 0) (λ _ _ _. untold) (λ _ _. untold) _file self.old self.new }
        ensures room { UsesCalls 1 (record { file = self.old.room_file; end = self.old.room_end; calls = self.old.room_calls }) (record { file = self.new.room_file; end = self.new.room_end; calls = self.new.room_calls }) }
        ensures cause { HasCause self.old.faults self.new.faults result }
    {
        self.room_calls -= 1;
        Err(failed(&mut self.faults))
    }

    fn crash(&mut self, _pick: u64) -> Result<(), AllocError> {
        self.room_calls = 0;
        Ok(())
    }

    fn moment(&self) -> u64 {
        0
    }

    fn faults(&self) -> u64 {
        self.faults
    }
}
