use crate::tables::Row;
use hx_disk::{Disk, FileNo};
use hx_events::{PairNo, Side, SlotForm};
use hx_memdisk::{MemDisk, Plan};
use hx_slots::{Shown, close_gate, frame, open_gate, put_block, shown, slot_file};
use std::alloc::Global;
use std::test::Fail;

// What the calls leave in a slot file that has the stamp 1 and a record of 29 bytes.
const FILE: &str =
    r#"=%01%00%00%00%00%00%00%00%01%FF%FF%FF%FF%00%00%00%1Dfile:///a%20{"typeId":""}%0Ahello"#;

// Whether the file shows a body behind the last of the calls, and none before.
fn are_made(disk: &mut MemDisk, file: FileNo, frame: &[u8]) -> Result<bool, Fail> {
    if frame.len() != 45 {
        return Ok(false);
    }
    disk.reserve(file, 1, 2)?;
    close_gate(disk, file)?;
    let first = shown(disk.bytes(file)).is_none();
    disk.reserve(file, 46, 2)?;
    put_block(disk, file, 1, frame)?;
    let second = shown(disk.bytes(file)).is_none();
    disk.reserve(file, 1, 2)?;
    open_gate(disk, file)?;
    Ok(first && second && shown(disk.bytes(file)).is_some())
}

#[test]
fn the_calls_write_a_slot_file(rt: HostRuntime) -> Result<(), Fail> {
    let alloc = rt.alloc();
    let plan = Plan {
        fails: Vec::new(alloc),
        fuse: None,
    };
    let mut disk = MemDisk::new(alloc, plan)?;
    let file = slot_file(PairNo::new(0), Side::B);
    let frame = frame(alloc, 1, b"file:///a {\"typeId\":\"\"}\nhello")?;
    assert!(rt; are_made(&mut disk, file, &frame)?);
    assert!(rt; Row::new(FILE).has(alloc, disk.bytes(file))?);
    Ok(())
}

// A pair, and the files of its sides.
const FILES: &str = "\
0 0 1
1 2 3
63 126 127";

// The bytes of a file, and the form, the stamp, the first place and the end of the body that it shows.
const SHOWN: &str = r#"= none
=%01 none
=%01%00%00%00%00%00%00%00%01%00%00%00 none
=%01%00%00%00%00%00%00%00%01%00%00%00%00 one 1 13 13
=%01%00%00%00%00%00%00%00%01%00%00%00%03abc one 1 13 16
=%01%00%00%00%00%00%00%00%01%00%00%00%03abcde one 1 13 16
=%01%00%00%00%00%00%00%00%01%00%00%00%04abc none
=%00%00%00%00%00%00%00%00%01%00%00%00%03abc none
=%02%00%00%00%00%00%00%00%01%00%00%00%03abc none
=%FF%00%00%00%00%00%00%00%01%00%00%00%03abc none
=%01%FF%FF%FF%FF%FF%FF%FF%FF%00%00%00%1Dfile:///a%20{"typeId":""}%0Ahello one 18446744073709551615 13 42
=%02%00%00%00%00%00%00%00%01%00%00%00%1Dfile:///a%20{"typeId":""}%0Ahello none
=%01%00%00%00%00%00%00%00%01%FF%FF%FF%FF%00%00%00%1Dfile:///a%20{"typeId":""}%0Ahello two 1 17 46
=%01%00%00%00%00%00%00%00%01%FF%FF%FF%FF%00%00%00%11r%20{"typeId":"n"}%0A two 1 17 34
=%02%00%00%00%00%00%00%00%01%FF%FF%FF%FF%00%00%00%11r%20{"typeId":"n"}%0A none
=%01%00%00%00%00%00%00%00%01%FF%FF%FF%FF%00%00%00 none
=%01%00%00%00%00%00%00%00%01%FF%FF%FF%FF%00%00%00%01 none
=%01%00%00%00%00%00%00%00%01%FF%FF%FF%FF%FF%FF%FF%FFabc none
=%01%00%00%00%00%00%00%00%01%FF%FF%FF%FE%00%00%00%01a none"#;

// The same for files of 534,400 bytes that begin so.
const LONG: &str = "\
=%01%00%00%00%00%00%00%00%07%00%04%27%10 one 7 13 272157
=%01%00%00%00%00%00%00%00%07%00%04%27%11 none
=%01%00%00%00%00%00%00%00%07%FF%FF%FF%FF%00%08%27%10 two 7 17 534305
=%01%00%00%00%00%00%00%00%07%FF%FF%FF%FF%00%08%27%11 none";

fn place(mut row: Row) -> Option<Shown> {
    let form = match row.field() {
        "one" => SlotForm::One,
        "two" => SlotForm::Two,
        _ => return None,
    };
    let stamp = row.number()?;
    let start = row.number()? as usize;
    let end = row.number()? as usize;
    Some(Shown {
        form,
        stamp,
        start,
        end,
    })
}

fn is_shown(alloc: Global, mut row: Row) -> Result<bool, Fail> {
    let bytes = row.bytes(alloc)?;
    Ok(shown(&bytes) == place(row))
}

fn is_shown_of_long(alloc: Global, mut row: Row) -> Result<bool, Fail> {
    let mut bytes = row.bytes(alloc)?;
    bytes.resize(534_400, b'x')?;
    Ok(shown(&bytes) == place(row))
}

fn has_files(mut row: Row) -> bool {
    let pair = PairNo::new((row.number().unwrap_or(0) % 64) as u32);
    let a = u64::from(slot_file(pair, Side::A).number());
    let b = u64::from(slot_file(pair, Side::B).number());
    row.number() == Some(a) && row.number() == Some(b)
}

#[test]
fn a_file_shows_its_body(rt: HostRuntime) -> Result<(), Fail> {
    for line in SHOWN.lines() {
        assert!(rt; is_shown(rt.alloc(), Row::new(line))?, "{line}");
    }
    for line in LONG.lines() {
        assert!(rt; is_shown_of_long(rt.alloc(), Row::new(line))?, "{line}");
    }
    for line in FILES.lines() {
        assert!(rt; has_files(Row::new(line)), "{line}");
    }
    Ok(())
}
