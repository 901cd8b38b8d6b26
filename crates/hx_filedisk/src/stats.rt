//! What the file system says of a file.

use hx_etag::Stat;
use std::fs::{self, Files, Metadata};
use std::io::{self, ErrorKind};
use std::path::Path;
use std::time::UNIX_EPOCH;

/// The stat of the file, or none where there is no file.
pub fn find<F: Files>(files: &F, path: Path<'_>) -> io::Result<Option<Stat>> {
    match fs::metadata(files, path) {
        Ok(found) => Ok(Some(stat_of(&found)?)),
        Err(error) if error.kind() == ErrorKind::NotFound => Ok(None),
        Err(error) => Err(error),
    }
}

/// The modification time in whole milliseconds since 1970, and the size in bytes. A time that can't be read or that is no such number
/// is a failure: a save's check could not trust it.
fn stat_of(found: &Metadata) -> io::Result<Stat> {
    let since = found
        .modified()?
        .duration_since(UNIX_EPOCH)
        .map_err(|_| no_time())?;
    let mtime = u64::try_from(since.as_millis()).map_err(|_| no_time())?;
    Ok(Stat {
        mtime,
        size: found.len(),
    })
}

fn no_time() -> io::Error {
    ErrorKind::InvalidData.into()
}
