use crate::tables::{Held, entries_of, many, memory, number, opened, parted};
use hx_disk::Disk;
use std::alloc::Global;
use std::process::Abort;
use std::test::Fail;

// The opening of an empty vault is the calls 1 to 256. A save of a short content is six: its side is closed, its block is put, its gate is
// opened, and each is synced. The first save is a new group, in calls 257 to 262; the second is merged, in calls 263 to 268.
//
// The first and the last fuse, and for each pick the entries that come back. A gate that was opened and not synced is open by the picks 1
// and 2, which take the reading at place 0, and closed by 0 and 3.
const TWO_SAVES: &str = "\
256 260 - - - -
261 261 - 1:0:a 1:0:a -
262 266 1:0:a 1:0:a 1:0:a 1:0:a
267 267 1:0:a 1:9999:b 1:9999:b 1:0:a
268 268 1:9999:b 1:9999:b 1:9999:b 1:9999:b";

// The same of 51 groups. The last is written in calls 557 to 562, and only then the first one's two sides are closed, in calls 563 to 566.
const FIFTY_ONE: &str = "\
555 555 1..49 1..50 1..50 1..49
556 560 1..50 1..50 1..50 1..50
561 561 1..50 2..51 2..51 1..50
562 566 2..51 2..51 2..51 2..51";

/// Which saves a table is about.
#[derive(Clone, Copy)]
enum Saves {
    Two,
    FiftyOne,
}

// What a crash leaves of the saves under this fuse.
fn left(alloc: Global, saves: Saves, fuse: u64, pick: u64) -> Result<String, Fail> {
    let held = Held::Open(opened(alloc, memory(alloc, "", Some(fuse))?)?);
    let held = match saves {
        Saves::Two => {
            let (held, _) = held.save(0, b"a");
            let (held, _) = held.save(9999, b"b");
            held
        }
        Saves::FiftyOne => many(held, 51),
    };
    let mut disk = held.disk();
    disk.crash(pick)?;
    entries_of(alloc, disk)
}

fn are_as_said<R: Abort>(rt: &R, alloc: Global, saves: Saves, table: &str) -> Result<(), Fail> {
    for line in table.lines() {
        let (first, rest) = parted(line);
        let (last, wanted) = parted(rest);
        for fuse in number(first)..=number(last) {
            for (pick, entries) in wanted.split(' ').enumerate() {
                let found = left(alloc, saves, fuse, pick as u64)?;
                assert_eq!(rt; found.trim_end(), entries, "fuse {fuse}, pick {pick}");
            }
        }
    }
    Ok(())
}

#[test]
fn each_fuse_and_each_pick_of_a_new_group_and_a_merge(rt: HostRuntime) -> Result<(), Fail> {
    are_as_said(&rt, rt.alloc(), Saves::Two, TWO_SAVES)
}

#[test]
fn each_fuse_and_each_pick_of_the_51st_group(rt: HostRuntime) -> Result<(), Fail> {
    are_as_said(&rt, rt.alloc(), Saves::FiftyOne, FIFTY_ONE)
}

// How long a content is, and the last call of its save: two calls for each block of 4,096 bytes, one block at least.
const BLOCKS: &str = "\
0 262
4096 262
4097 264
8192 264
8193 266
524288 516";

// So many bytes.
fn bytes(alloc: Global, length: u64) -> Result<Vec<u8>, Fail> {
    let mut bytes = Vec::new(alloc);
    for _ in 0..length {
        bytes.push(b'x')?;
    }
    Ok(bytes)
}

// What comes of a save of so many bytes under this fuse.
fn came(alloc: Global, length: u64, fuse: u64) -> Result<&'static str, Fail> {
    let content = bytes(alloc, length)?;
    let held = Held::Open(opened(alloc, memory(alloc, "", Some(fuse))?)?);
    let (held, answer) = held.save(0, &content);
    let _ = held.disk();
    Ok(answer)
}

#[test]
fn a_content_is_written_in_blocks(rt: HostRuntime) -> Result<(), Fail> {
    for line in BLOCKS.lines() {
        let (length, last) = parted(line);
        let (length, last) = (number(length), number(last));
        let alloc = rt.alloc();
        assert_eq!(rt; came(alloc, length, last)?, "kept", "{line}");
        assert_eq!(rt;
            came(alloc, length, last.saturating_sub(1))?,
            "faulted",
            "{line}"
        );
    }
    Ok(())
}

// Which calls fail, the answers of the 51st and the 52nd save, and the entries that come back. Where the first of 51 wasn't emptied, the
// next save begins with that.
const OWED: &str = "\
563 kept kept 3..52
566 kept kept 3..52
563,564 kept faulted 2..51
563,565 kept faulted 2..51
564,568 kept faulted 2..51";

fn owed<R: Abort>(rt: &R, alloc: Global, line: &str) -> Result<(), Fail> {
    let (fails, rest) = parted(line);
    let (first, rest) = parted(rest);
    let (second, wanted) = parted(rest);
    let fails = fails.replace(alloc, ",", " ")?;
    let held = many(Held::Open(opened(alloc, memory(alloc, &fails, None)?)?), 50);
    let (held, came_first) = held.save(500_000, b"x");
    let (held, came_second) = held.save(510_000, b"x");
    let mut disk = held.disk();
    disk.crash(1)?;
    let entries = entries_of(alloc, disk)?;
    assert_eq!(rt; came_first, first, "{line}");
    assert_eq!(rt; came_second, second, "{line}");
    assert_eq!(rt; entries.as_str(), wanted, "{line}");
    Ok(())
}

#[test]
fn what_an_emptying_owes_is_done_by_the_next_save(rt: HostRuntime) -> Result<(), Fail> {
    for line in OWED.lines() {
        owed(&rt, rt.alloc(), line)?;
    }
    Ok(())
}

#[test]
fn a_save_that_is_too_large_leaves_undone_what_is_owed(rt: HostRuntime) -> Result<(), Fail> {
    let alloc = rt.alloc();
    let content = bytes(alloc, 524_289)?;
    let held = many(
        Held::Open(opened(alloc, memory(alloc, "563 564", None)?)?),
        51,
    );
    let (held, large) = held.save(510_000, &content);
    let (held, next) = held.save(510_000, b"x");
    let _ = held.disk();
    assert_eq!(rt; large, "refused");
    assert_eq!(rt; next, "faulted");
    Ok(())
}
