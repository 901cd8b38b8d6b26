//! The files of a folder, with what a disk must ask of a file system so that a sync keeps its word.

ghost use Rattle.std.specs.Prelude.{◌≡◌, ◌<◌, vec_len, IfOk};

use crate::stats::find;
use hx_etag::Stat;
use std::alloc::{AllocError, Global};
use std::fs::{File, Files, OpenFile, OpenOptions};
use std::io::{self, ErrorKind, Read, Seek, SeekFrom, Write};
use std::path::{Path, PathBuf};

const FILES: u32 = 384;

/// A file system in which one process at a time can hold a folder.
pub trait Folders: Files {
    /// Opens the folder and holds it as long as the handle is open. It fails with `WouldBlock` while another one holds it.
    fn hold(&self, folder: Path<'_>) -> io::Result<Self::File>;
}

impl Folders for HostRuntime {
    fn hold(&self, folder: Path<'_>) -> io::Result<File> {
        let held = File::open(self, folder)?;
        held.try_lock()?;
        Ok(held)
    }
}

/// Whether the names of the files were brought to the disk.
#[derive(Clone, Copy, Debug, PartialEq, Eq)]
enum Names {
    Settled,

    /// A file may have been made since the folder was last synced.
    New,

    /// A sync of the folder has failed, so nobody knows which names are on the disk.
    Lost,
}

/// A file that was written, open up to its sync: a failure to write it back is told to this handle, and maybe to no later one.
#[derive(Drop)]
struct Unsynced<H: Drop> {
    number: usize,
    handle: H,
}

/// The files of a folder, each under the three digits of its number.
#[derive(Drop)]
pub struct Folder<F: Folders + Drop> {
    files: F,
    name: String,
    paths: Vec<PathBuf>,

    /// The folder, once it is held.
    held: Option<F::File>,
    unsynced: Option<Unsynced<F::File>>,
    names: Names,

    /// The files of which a sync has failed: the system may have dropped what was written, and would say Ok the next time.
    lost: Vec<bool>,
    ghost each_path: { vec_len paths ≡ 384 },
    ghost each_lost: { vec_len lost ≡ 384 },
}

fn paths_in(alloc: Global, folder: &str) -> Result<Vec<PathBuf>, AllocError>
    ensures { IfOk result (λ paths. vec_len paths ≡ 384) }
{
    let mut paths = Vec::new(alloc);
    for number in 0..FILES {
        let name = format!(in alloc; "{number:03}")?;
        paths.push(Path::new(folder).join(alloc, name.as_str())?)?;
    }
    Ok(paths)
}

/// Writes all bytes from this place on. A write that takes none of them is a failure.
fn put<H: Write + Seek>(handle: &mut H, at: u64, bytes: &[u8]) -> io::Result<()> {
    handle.seek(SeekFrom::Start(at))?;
    handle.write_all(bytes)
}

/// Makes a longer file this long, and leaves a shorter one.
fn shorten<H: OpenFile>(handle: &H, len: u64) -> io::Result<()> {
    if handle.metadata()?.len() > len {
        handle.set_len(len)
    } else {
        Ok(())
    }
}

/// Brings a file to the disk, where it exists.
fn settle_unopened<F: Files>(files: &F, path: Path<'_>) -> io::Result<()> {
    match File::open(files, path) {
        Ok(file) => file.sync_all(),
        Err(error) if error.kind() == ErrorKind::NotFound => Ok(()),
        Err(error) => Err(error),
    }
}

impl<F: Folders + Drop> Folder<F> {
    /// The folder of this name. No file is asked yet.
    pub fn new(files: F, alloc: Global, name: String) -> Result<Folder<F>, AllocError> {
        let paths = paths_in(alloc, name.as_str())?;
        let lost = vec![in alloc; false; FILES as usize]?;
        Ok(Folder {
            files,
            name,
            paths,
            held: None,
            unsynced: None,
            names: Names::New,
            lost,
        })
    }

    fn path(&self, number: usize) -> Path<'_>
        requires { number < 384 }
    {
        self.paths[number].as_path()
    }

    /// Holds the folder from the first call on, and says whether it is there: a folder that isn't has no files.
    fn enter(&mut self) -> io::Result<bool> {
        if self.held.is_some() {
            return Ok(true);
        }
        match self.files.hold(Path::new(self.name.as_str())) {
            Ok(held) => {
                self.held = Some(held);
                Ok(true)
            }
            Err(error) if error.kind() == ErrorKind::NotFound => Ok(false),
            Err(error) => Err(error),
        }
    }

    /// The stat of a file, or none where there is no such file.
    pub fn stat(&mut self, number: usize) -> io::Result<Option<Stat>>
        requires { number < 384 }
    {
        if self.enter()? {
            find(&self.files, self.path(number))
        } else {
            Ok(None)
        }
    }

    /// Fills `into` with the file's bytes from this place on. A file that has fewer is a failure.
    pub fn read(&mut self, number: usize, at: u64, into: &mut [u8]) -> io::Result<()>
        requires { number < 384 }
    {
        self.enter()?;
        let mut file = File::open(&self.files, self.path(number))?;
        file.seek(SeekFrom::Start(at))?;
        file.read_exact(into)
    }

    /// The open file where it was written and not synced yet.
    fn kept(&mut self, number: usize) -> Option<F::File> {
        match self.unsynced.take() {
            Some(unsynced) if unsynced.number == number => Some(unsynced.handle),
            _ => None,
        }
    }

    /// The file, open to be written. Where there is none it is made, and then its name is new. None is ever made anew.
    fn opened(&mut self, number: usize) -> io::Result<F::File>
        requires { number < 384 }
    {
        self.enter()?;
        if let Some(handle) = self.kept(number) {
            return Ok(handle);
        }
        match OpenOptions::new()
            .write(true)
            .open(&self.files, self.path(number))
        {
            Err(error) if error.kind() == ErrorKind::NotFound => self.made(number),
            opened => opened,
        }
    }

    fn made(&mut self, number: usize) -> io::Result<F::File>
        requires { number < 384 }
    {
        if self.names == Names::Settled {
            self.names = Names::New;
        }
        OpenOptions::new()
            .write(true)
            .create(true)
            .open(&self.files, self.path(number))
    }

    /// Writes the bytes from this place on.
    pub fn write(&mut self, number: usize, at: u64, bytes: &[u8]) -> io::Result<()>
        requires { number < 384 }
    {
        let mut handle = self.opened(number)?;
        let written = put(&mut handle, at, bytes);
        self.unsynced = Some(Unsynced { number, handle });
        written
    }

    /// Cuts the file to this length, where it is longer.
    pub fn cut(&mut self, number: usize, len: u64) -> io::Result<()>
        requires { number < 384 }
    {
        let handle = self.opened(number)?;
        let cut = shorten(&handle, len);
        self.unsynced = Some(Unsynced { number, handle });
        cut
    }

    /// Brings the file to the disk, and the names in the folder where one may be new. Behind a sync of the file that failed none
    /// succeeds, and behind one of the folder none of any file.
    pub fn sync(&mut self, number: usize) -> io::Result<()>
        requires { number < 384 }
    {
        if !self.enter()? {
            return Ok(());
        }
        if self.lost[number] {
            return Err(ErrorKind::Other.into());
        }
        let settled = self.settle_file(number);
        self.lost[number] = settled.is_err();
        settled?;
        self.settle_names()
    }

    fn settle_file(&mut self, number: usize) -> io::Result<()>
        requires { number < 384 }
    {
        match self.kept(number) {
            Some(handle) => handle.sync_all(),
            None => settle_unopened(&self.files, self.path(number)),
        }
    }

    fn settle_names(&mut self) -> io::Result<()> {
        match self.names {
            Names::Settled => Ok(()),
            Names::Lost => Err(ErrorKind::Other.into()),
            Names::New => {
                let settled = self.settle_folder();
                self.names = if settled.is_ok() {
                    Names::Settled
                } else {
                    Names::Lost
                };
                settled
            }
        }
    }

    fn settle_folder(&self) -> io::Result<()> {
        match &self.held {
            Some(held) => held.sync_all(),
            None => Ok(()),
        }
    }
}
