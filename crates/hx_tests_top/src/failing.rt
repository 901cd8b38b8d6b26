//! A file system in which one call fails.

use hx_filedisk::Folders;
use std::alloc::{Allocator, Global};
use std::fs::{Files, Metadata, OpenFile, OpenOptions};
use std::io::{self, ErrorKind, Read, Seek, SeekFrom, Write};
use std::path::Path;
use std::sync::Arc;
use std::sync::atomic::{AtomicU64, Ordering};

/// The calls that are left up to the one that fails, of all open files together.
#[derive(Drop)]
struct Plan {
    left: AtomicU64,

    /// Whether a read and a write that are to fail move no byte, in place of an error.
    moves_nothing: bool,
}

impl Plan {
    // Whether this call is the one that fails.
    fn is_due(&self) -> bool {
        let left = self.left.load(Ordering::SeqCst);
        self.left.store(left.saturating_sub(1), Ordering::SeqCst);
        left == 1
    }

    fn pass(&self) -> io::Result<()> {
        if self.is_due() {
            Err(ErrorKind::Other.into())
        } else {
            Ok(())
        }
    }

    // Whether bytes are moved.
    fn moves(&self) -> io::Result<bool> {
        if self.moves_nothing {
            Ok(!self.is_due())
        } else {
            self.pass()?;
            Ok(true)
        }
    }
}

/// The files of `R`, of which one call fails.
#[derive(Drop)]
pub struct Failing<R: Folders + Drop> {
    files: R,
    plan: Arc<Plan>,
}

/// An open file of theirs.
#[derive(Drop)]
pub struct FailingFile<H: Drop> {
    file: H,
    plan: Arc<Plan>,
}

impl<R: Folders + Drop> Failing<R> {
    /// Fails at the call with this number, counted from 1. There a read or a write may move nothing in place of an error.
    pub fn new(files: R, alloc: Global, call: u64, moves_nothing: bool) -> io::Result<Failing<R>> {
        let left = AtomicU64::new(call);
        Ok(Failing {
            files,
            plan: Arc::new(
                alloc,
                Plan {
                    left,
                    moves_nothing,
                },
            )?,
        })
    }

    fn opened(&self, file: R::File) -> io::Result<FailingFile<R::File>> {
        Ok(FailingFile {
            file,
            plan: self.plan.clone()?,
        })
    }
}

impl<R: Folders + Drop> Folders for Failing<R> {
    fn hold(&self, folder: Path<'_>) -> io::Result<FailingFile<R::File>> {
        self.plan.pass()?;
        self.opened(self.files.hold(folder)?)
    }
}

impl<R: Folders + Drop> Files for Failing<R> {
    type File = FailingFile<R::File>;

    type Dir = R::Dir;

    fn open_file(&self, how: &OpenOptions, path: &str) -> io::Result<FailingFile<R::File>> {
        self.plan.pass()?;
        self.opened(self.files.open_file(how, path)?)
    }

    fn open_dir(&self, path: &str) -> io::Result<R::Dir> {
        self.files.open_dir(path)
    }

    fn metadata(&self, path: &str) -> io::Result<Metadata> {
        self.plan.pass()?;
        self.files.metadata(path)
    }

    fn symlink_metadata(&self, path: &str) -> io::Result<Metadata> {
        self.files.symlink_metadata(path)
    }

    fn copy(&self, from: &str, to: &str) -> io::Result<u64> {
        self.files.copy(from, to)
    }

    fn rename(&self, from: &str, to: &str) -> io::Result<()> {
        self.files.rename(from, to)
    }

    fn remove_file(&self, path: &str) -> io::Result<()> {
        self.files.remove_file(path)
    }

    fn create_dir(&self, path: &str) -> io::Result<()> {
        self.files.create_dir(path)
    }

    fn remove_dir(&self, path: &str) -> io::Result<()> {
        self.files.remove_dir(path)
    }

    fn remove_dir_all<B: Allocator>(&self, alloc: B, path: &str) -> io::Result<()> {
        self.files.remove_dir_all(alloc, path)
    }
}

impl<H: Read + Drop> Read for FailingFile<H> {
    fn read(&mut self, buf: &mut [u8]) -> io::Result<usize> {
        if self.plan.moves()? {
            self.file.read(buf)
        } else {
            Ok(0)
        }
    }
}

impl<H: Write + Drop> Write for FailingFile<H> {
    fn write(&mut self, buf: &[u8]) -> io::Result<usize> {
        if self.plan.moves()? {
            self.file.write(buf)
        } else {
            Ok(0)
        }
    }

    fn flush(&mut self) -> io::Result<()> {
        self.file.flush()
    }
}

impl<H: Seek + Drop> Seek for FailingFile<H> {
    fn seek(&mut self, to: SeekFrom) -> io::Result<u64> {
        self.plan.pass()?;
        self.file.seek(to)
    }
}

impl<H: OpenFile + Drop> OpenFile for FailingFile<H> {
    fn metadata(&self) -> io::Result<Metadata> {
        self.plan.pass()?;
        self.file.metadata()
    }

    fn set_len(&self, size: u64) -> io::Result<()> {
        self.plan.pass()?;
        self.file.set_len(size)
    }

    fn sync_all(&self) -> io::Result<()> {
        self.plan.pass()?;
        self.file.sync_all()
    }

    fn sync_data(&self) -> io::Result<()> {
        self.plan.pass()?;
        self.file.sync_data()
    }
}
