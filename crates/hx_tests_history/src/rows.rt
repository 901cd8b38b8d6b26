use crate::tables::{Held, entries_of, many, memory, number, opened, parted};
use hx_disk::Disk;
use std::alloc::Global;
use std::process::Abort;
use std::test::Fail;

// A moment, a content and the answer of each save, and the entries behind all of them. The second is 9,999 behind the first, the third
// 10,000 behind the second, though 19,999 behind the first. Where the clock was set back a save is a group of its own.
const ROWS: &str = "\
0 a kept, 9999 b merged, 19999 c kept, 29998 d merged = 1:9999:b 2:29998:d
5 a kept, 5 b merged, 4 c kept, 4 d merged = 1:5:b 2:4:d
0 a kept, 10000 b kept, 20000 c kept = 1:0:a 2:10000:b 3:20000:c
18446744073709551615 a kept, 18446744073709551615 b merged, 0 c kept = 1:18446744073709551615:b 2:0:c";

fn played<R: Abort>(rt: &R, alloc: Global, saves: &str) -> Result<Held, Fail> {
    let mut held = Held::Open(opened(alloc, memory(alloc, "", None)?)?);
    for save in saves.split(", ") {
        let (moment, rest) = parted(save);
        let (content, answer) = parted(rest);
        let (next, came) = held.save(number(moment), content.as_bytes());
        held = next;
        assert_eq!(rt; came, answer, "{save}");
    }
    Ok(held)
}

#[test]
fn a_save_is_merged_within_less_than_ten_thousand_moments(rt: HostRuntime) -> Result<(), Fail> {
    let alloc = rt.alloc();
    for row in ROWS.lines() {
        let (saves, wanted) = row.split_once(" = ").unwrap_or((row, ""));
        let disk = played(&rt, alloc, saves)?.disk();
        let entries = entries_of(alloc, disk)?;
        assert_eq!(rt; entries.trim_end(), wanted);
    }
    Ok(())
}

#[test]
fn of_51_groups_the_last_50_come_back(rt: HostRuntime) -> Result<(), Fail> {
    let alloc = rt.alloc();
    let held = many(Held::Open(opened(alloc, memory(alloc, "", None)?)?), 51);
    let mut disk = held.disk();
    disk.crash(1)?;
    let entries = entries_of(alloc, disk)?;
    assert_eq!(rt; entries.as_str(), "2..51");
    Ok(())
}

#[test]
fn a_crash_empties_the_plan(rt: HostRuntime) -> Result<(), Fail> {
    let alloc = rt.alloc();
    let held = Held::Open(opened(alloc, memory(alloc, "263", None)?)?);
    let (held, first) = held.save(0, b"a");
    let mut disk = held.disk();
    disk.crash(1)?;
    let history = opened(alloc, disk)?;
    let faults = history.faults();
    let (held, second) = Held::Open(history).save(20000, b"b");
    let entries = entries_of(alloc, held.disk())?;
    assert_eq!(rt; first, "kept");
    assert_eq!(rt; second, "kept");
    assert_eq!(rt; faults, 0);
    assert_eq!(rt; entries.as_str(), "1:0:a 2:20000:b ");
    Ok(())
}
