use crate::tables::Row;
use hx_disk::{Disk, FileNo};
use hx_memdisk::{MemDisk, Plan};
use std::alloc::{AllocError, Global};
use std::test::Fail;

// A line `disk` begins a new disk, with the calls that fail and the call behind which every other does. A line of a call has its
// file, and at the end whether the call succeeds. The others say what is found then.
const CALLS: &str = "\
disk 2,none none
write 0 0 =abcd ok
sync 0 failed
crash 0
holds 0 =
disk 2,none none
write 0 0 =abcd ok
sync 0 failed
crash 1
holds 0 =abcd
disk 2,none none
write 0 0 =abcd ok
sync 0 failed
crash 2
holds 0 =a%01c%01
disk 1,none none
write 0 0 =abcd failed
holds 0 =ab
disk 1,2 none
write 1 0 =x failed
write 2 0 =xy failed
stat 1 none
stat 2 0 1
write 1 0 = ok
cut 3 0 ok
mtime 4 9 ok
stat 1 1000 0
stat 3 2000 0
stat 4 9 0
disk 1,2 4
sync 1 failed
sync 1 failed
write 1 0 =abc ok
write 1 3 =d ok
sync 1 failed
crash 0
moment 6
stat 1 2000 0
stat 2 none
write 2 0 =x ok
sync 2 ok
sync 2 ok
stat 2 3000 1
crash 0
holds 2 =x
faults 3
disk none none
unreserved 0
write 0 0 =abc ok
disk none none
write 200 0 =abcd ok
sync 200 ok
write 200 2 =XYZ ok
crash 0
holds 200 =abcd
disk none none
write 200 0 =abcdef ok
sync 200 ok
cut 200 2 ok
write 200 1 =Q ok
crash 0
holds 200 =abcdef
disk none none
write 200 0 =abcd ok
sync 200 ok
write 200 2 =XYZ ok
crash 1
holds 200 =abXYZ
disk none none
write 200 0 =abcdef ok
sync 200 ok
cut 200 2 ok
write 200 1 =Q ok
crash 1
holds 200 =aQ
disk none none
write 200 0 =abcd ok
sync 200 ok
write 200 2 =XYZ ok
crash 2
holds 200 =abXdZ
disk none none
write 200 0 =abcdef ok
sync 200 ok
cut 200 2 ok
write 200 1 =Q ok
crash 2
holds 200 =ab
disk none none
write 200 0 =abcd ok
sync 200 ok
write 200 2 =XYZ ok
crash 3
holds 200 =abcY%01
disk none none
write 200 0 =abcdef ok
sync 200 ok
cut 200 2 ok
write 200 1 =Q ok
crash 3
holds 200 =aQ
disk none none
write 200 0 =abcd ok
sync 200 ok
write 200 2 =XYZ ok
crash 18446744073709551615
holds 200 =abcY%01
disk none none
write 200 0 =abcdef ok
sync 200 ok
cut 200 2 ok
write 200 1 =Q ok
crash 18446744073709551615
holds 200 =aQ";

fn disk(alloc: Global, fails: &[u64], fuse: Option<u64>) -> Result<MemDisk, AllocError> {
    let fails = fails.to_vec(alloc)?;
    MemDisk::new(alloc, Plan { fails, fuse })
}

// The disk of a line `disk`.
fn planned(alloc: Global, mut row: Row) -> Result<MemDisk, Fail> {
    let fails = row.field();
    let fuse = row.number();
    let (first, second) = fails.split_once(",").unwrap_or((fails, ""));
    let mut calls = Vec::new(alloc);
    if let Some(call) = Row::new(first).number() {
        calls.push(call)?;
    }
    if let Some(call) = Row::new(second).number() {
        calls.push(call)?;
    }
    Ok(disk(alloc, &calls, fuse)?)
}

fn file(row: &mut Row) -> FileNo {
    FileNo::new((row.number().unwrap_or(0) % 384) as u32)
}

// Each of these makes its own room. They answer whether the call succeeded.
fn write(disk: &mut MemDisk, file: FileNo, at: u64, bytes: &[u8]) -> Result<bool, AllocError> {
    if disk.bytes(file).len() < at as usize || at > 1000 || bytes.len() > 1000 {
        return Ok(false);
    }
    disk.reserve(file, at + bytes.len() as u64, 1)?;
    Ok(disk.write_at(file, at, bytes).is_ok())
}

fn cut(disk: &mut MemDisk, file: FileNo, len: u64) -> Result<bool, AllocError> {
    if disk.bytes(file).len() < len as usize {
        return Ok(false);
    }
    disk.reserve(file, 0, 1)?;
    Ok(disk.cut(file, len).is_ok())
}

fn sync(disk: &mut MemDisk, file: FileNo) -> Result<bool, AllocError> {
    disk.reserve(file, 0, 1)?;
    Ok(disk.sync(file).is_ok())
}

fn set_mtime(disk: &mut MemDisk, file: FileNo, mtime: u64) -> Result<bool, AllocError> {
    disk.reserve(file, 0, 1)?;
    Ok(disk.set_mtime(file, mtime).is_ok())
}

fn read(disk: &mut MemDisk, file: FileNo, into: &mut [u8]) -> bool {
    disk.bytes(file).len() >= into.len() && disk.read(file, 0, into).is_ok()
}

// Whether a line's call succeeds.
fn succeeds(alloc: Global, disk: &mut MemDisk, word: &str, row: &mut Row) -> Result<bool, Fail> {
    let file = file(row);
    match word {
        "write" => {
            let at = row.number().unwrap_or(0);
            let bytes = row.bytes(alloc)?;
            Ok(write(disk, file, at, &bytes)?)
        }
        "cut" => Ok(cut(disk, file, row.number().unwrap_or(0))?),
        "mtime" => Ok(set_mtime(disk, file, row.number().unwrap_or(0))?),
        _ => Ok(sync(disk, file)?),
    }
}

fn has_stat(disk: &mut MemDisk, mut row: Row) -> bool {
    let file = file(&mut row);
    disk.stat(file) == Ok(row.stat())
}

fn holds(alloc: Global, disk: &MemDisk, mut row: Row) -> Result<bool, Fail> {
    let file = file(&mut row);
    row.has(alloc, disk.bytes(file))
}

// Whether a line comes out as it says.
fn comes_out(alloc: Global, disk: &mut MemDisk, line: &str) -> Result<bool, Fail> {
    let mut row = Row::new(line);
    let word = row.field();
    match word {
        "stat" => Ok(has_stat(disk, row)),
        "holds" => holds(alloc, disk, row),
        "moment" => Ok(row.number() == Some(disk.moment())),
        "faults" => Ok(row.number() == Some(disk.faults())),
        "unreserved" => Ok(disk.reserve(file(&mut row), u64::MAX, 2).is_err()),
        "crash" => {
            disk.crash(row.number().unwrap_or(0))?;
            Ok(true)
        }
        _ => {
            let ok = succeeds(alloc, disk, word, &mut row)?;
            Ok(ok == (row.field() == "ok"))
        }
    }
}

#[test]
fn calls_fail_as_planned_and_a_crash_mixes_what_was_read_and_what_is_stable(
    rt: HostRuntime,
) -> Result<(), Fail> {
    let alloc = rt.alloc();
    let mut disk = disk(alloc, &[], None)?;
    for line in CALLS.lines() {
        if let Some(plan) = line.strip_prefix("disk ") {
            disk = planned(alloc, Row::new(plan))?;
        } else {
            assert!(rt; comes_out(alloc, &mut disk, line)?, "{line}");
        }
    }
    Ok(())
}

// A call, what its file holds after it has failed, and the moment then.
const FAILURES: &str = "\
stat =abcdef 2
read =abcdef 2
write =aXcdef 3
cut =abcdef 3
sync =abcdef 3
mtime =abcdef 3";

fn call(disk: &mut MemDisk, file: FileNo, word: &str) -> Result<bool, AllocError> {
    match word {
        "stat" => Ok(disk.stat(file).is_ok()),
        "read" => Ok(read(disk, file, &mut [0; 6])),
        "write" => write(disk, file, 1, b"XYZ"),
        "cut" => cut(disk, file, 2),
        "sync" => sync(disk, file),
        _ => set_mtime(disk, file, 7),
    }
}

// Whether the third call of this disk fails as the line says, where the first two write and sync, and whether the next succeeds.
fn fails_third(alloc: Global, mut disk: MemDisk, mut row: Row, next: bool) -> Result<bool, Fail> {
    let file = FileNo::new(383);
    if !write(&mut disk, file, 0, b"abcdef")? || !sync(&mut disk, file)? {
        return Ok(false);
    }
    if call(&mut disk, file, row.field())? || disk.faults() != 1 {
        return Ok(false);
    }
    if !row.has(alloc, disk.bytes(file))? || row.number() != Some(disk.moment()) {
        return Ok(false);
    }
    let stat = Row::new("1000 6").stat();
    Ok(if next {
        disk.stat(file) == Ok(stat)
    } else {
        disk.stat(file).is_err()
    })
}

// The third call fails alone, or every call behind the second.
#[test]
fn each_call_may_fail(rt: HostRuntime) -> Result<(), Fail> {
    let alloc = rt.alloc();
    for line in FAILURES.lines() {
        let alone = disk(alloc, &[3], None)?;
        assert!(rt; fails_third(alloc, alone, Row::new(line), true)?, "{line}");
        let first = disk(alloc, &[], Some(2))?;
        assert!(rt; fails_third(alloc, first, Row::new(line), false)?, "{line}");
    }
    Ok(())
}
