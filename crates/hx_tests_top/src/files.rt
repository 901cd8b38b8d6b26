//! The disk over a folder: each call of the file system that fails is counted, and behind a sync that failed none succeeds.

ghost use Rattle.std.specs.Prelude.{◌≤◌};

use crate::failing::Failing;
use crate::playing::number;
use crate::stores::empty_folder;
use hx_disk::{Disk, DiskFailed, FileNo};
use hx_filedisk::{FileDisk, Folders};
use std::fs;
use std::test::Fail;

fn failed<T>(answer: &Result<T, DiskFailed>) -> u64
    ensures { result ≤ 1 }
{
    answer.is_err() as u64
}

/// How many calls of the disk have failed while a file is written, synced twice, read, cut, synced and looked at.
fn failures<F: Folders + Drop>(disk: &mut FileDisk<F>, file: FileNo) -> Result<u64, Fail> {
    let mut into = [0u8; 5];
    disk.reserve(file, 5, 5)?;
    let mut count = failed(&disk.write_at(file, 0, b"hello"));
    count += failed(&disk.sync(file));
    count += failed(&disk.sync(file));
    count += failed(&disk.read(file, 0, &mut into));
    count += failed(&disk.cut(file, 2));
    count += failed(&disk.sync(file));
    count += failed(&disk.stat(file));
    Ok(count)
}

/// For each call of the file system, in their order: how many of those seven fail where it fails. The calls are: the folder is held;
/// the file is opened, made, sought and written; it and the folder are synced; it is opened and synced; it is opened, sought and read;
/// it is opened, measured and cut; it is synced; it is looked at. Behind the last one none fails. A file that wasn't written is read
/// in vain, and one whose sync has failed, or whose folder's, isn't synced again.
const FAILURES: &str = "2 2 2 2 2 3 3 2 2 1 1 1 1 1 1 1 1 0";

#[test]
fn each_failure_is_counted(rt: HostRuntime) -> Result<(), Fail> {
    let alloc = rt.alloc();
    for moves_nothing in [false, true] {
        for (index, expected) in FAILURES.split(' ').enumerate() {
            empty_folder(&rt, "failing")?;
            let files = Failing::new(rt, alloc, index as u64 + 1, moves_nothing)?;
            let mut disk = FileDisk::new(files, alloc, String::from_str(alloc, "failing")?)?;
            let count = failures(&mut disk, FileNo::new(200))?;
            assert_eq!(rt; count, number(expected), "{index}");
            assert_eq!(rt; disk.faults(), count, "{index}");
        }
    }
    Ok(fs::remove_dir_all(&rt, "failing")?)
}
