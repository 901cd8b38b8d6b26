use crate::tables::{number, parted, shown};
use hx_base::unescape;
use hx_disk::{Disk, FileNo};
use hx_events::Bytes;
use hx_history::{History, HistoryError};
use hx_memdisk::{MemDisk, Plan};
use std::alloc::Global;
use std::process::Abort;
use std::test::Fail;

// Vaults: what an opening answers, and of each slot file its number, its stamp and its escaped body. Of each pair the files are 2 * P and
// one more.
const VAULTS: &str = r#"1:7:x 2:8:y
7 2 history:2%20{"etag":"81","mtime":8,"size":1,"typeId":""}%0Ay
2 1 history:1%20{"etag":"71","mtime":7,"size":1,"typeId":""}%0Ax

5:7:x 6:7:x
0 5 history:5%20{"etag":"71","mtime":7,"size":1,"typeId":""}%0Ax
2 6 history:6%20{"etag":"71","mtime":7,"size":1,"typeId":""}%0Ax

damaged
0 1 history:1%20{"etag":"71","mtime":7,"size":1,"typeId":""}%0Ax
4 3 no%20record

twin
0 1 history:1%20{"etag":"71","mtime":7,"size":1,"typeId":""}%0Ax
2 2 history:1%20{"etag":"71","mtime":7,"size":1,"typeId":""}%0Ax

another resource
0 1 file:///a%20{"etag":"71","mtime":7,"size":1,"typeId":""}%0Ax

a gap
0 1 history:1%20{"etag":"71","mtime":7,"size":1,"typeId":""}%0Ax
2 3 history:3%20{"etag":"71","mtime":7,"size":1,"typeId":""}%0Ax

number zero
0 1 history:0%20{"etag":"71","mtime":7,"size":1,"typeId":""}%0Ax

above the greatest stamp
0 1 history:2%20{"etag":"71","mtime":7,"size":1,"typeId":""}%0Ax

a leading zero
0 1 history:01%20{"etag":"71","mtime":7,"size":1,"typeId":""}%0Ax

no number
0 1 history:%20{"etag":"71","mtime":7,"size":1,"typeId":""}%0Ax

no base
0 1 history:1%20{"typeId":""}%0Ax

another size
0 1 history:1%20{"etag":"72","mtime":7,"size":2,"typeId":""}%0Ax"#;

/// A slot file.
#[derive(Drop)]
struct Slot {
    file: FileNo,
    bytes: Bytes,
}

// An open slot file of the first form.
fn slot_file(alloc: Global, file: u64, stamp: u64, body: &[u8]) -> Result<Slot, Fail> {
    let mut bytes = Vec::new(alloc);
    bytes.push(1)?;
    bytes.extend_from_slice(&stamp.to_be_bytes())?;
    bytes.extend_from_slice(&(body.len().min(1000) as u32).to_be_bytes())?;
    bytes.extend_from_slice(body)?;
    Ok(Slot {
        file: FileNo::new(file.min(127) as u32),
        bytes: Bytes::new(bytes),
    })
}

fn slots(alloc: Global, lines: &str) -> Result<Vec<Slot>, Fail> {
    let mut slots = Vec::new(alloc);
    for line in lines.lines() {
        let (file, rest) = parted(line);
        let (stamp, text) = parted(rest);
        let body = unescape(alloc, text.as_bytes())?;
        slots.push(slot_file(alloc, number(file), number(stamp), &body)?)?;
    }
    Ok(slots)
}

// So many entries, one in each of the first pairs.
fn entries(alloc: Global, count: u64) -> Result<Vec<Slot>, Fail> {
    let mut slots = Vec::new(alloc);
    for place in 0..count.min(64) {
        let number = place + 1;
        let body = format!(in alloc;
            "history:{number} {{\"etag\":\"71\",\"mtime\":7,\"size\":1,\"typeId\":\"\"}}\nx"
        )?;
        slots.push(slot_file(alloc, 2 * place, number, body.as_bytes())?)?;
    }
    Ok(slots)
}

fn put(disk: &mut MemDisk, slot: &Slot) -> Result<(), Fail> {
    let bytes = slot.bytes.as_slice();
    if bytes.len() < 1000 {
        disk.reserve(slot.file, bytes.len() as u64, 2)?;
        disk.write_at(slot.file, 0, bytes)?;
        disk.sync(slot.file)?;
    }
    Ok(())
}

fn planted(alloc: Global, slots: &[Slot]) -> Result<MemDisk, Fail> {
    let plan = Plan {
        fails: Vec::new(alloc),
        fuse: None,
    };
    let mut disk = MemDisk::new(alloc, plan)?;
    for slot in slots {
        put(&mut disk, slot)?;
    }
    Ok(disk)
}

// What the opening of a vault with these files answers: its entries, or that it is no history, where no file has changed.
fn answered(alloc: Global, slots: &[Slot]) -> Result<String, Fail> {
    match History::open(alloc, planted(alloc, slots)?) {
        Ok(history) => {
            let text = shown(alloc, &history);
            let _ = history.finish();
            text
        }
        Err(HistoryError::NotHistory(disk)) => {
            for slot in slots {
                if disk.bytes(slot.file) != slot.bytes.as_slice() {
                    return Err(Fail::new("a file has changed"));
                }
            }
            Ok(String::from_str(alloc, "not a history")?)
        }
        Err(HistoryError::OpenFault(_)) => Err(Fail::new("the vault can't be read")),
        Err(HistoryError::NoMemory(_)) => Err(Fail::new("no memory")),
    }
}

#[test]
fn a_vault_is_a_history_or_is_refused_unchanged(rt: HostRuntime) -> Result<(), Fail> {
    let alloc = rt.alloc();
    for vault in VAULTS.split("\n\n") {
        let (name, lines) = vault.split_once("\n").unwrap_or((vault, ""));
        let wanted = if name.starts_with(|c: char| c.is_ascii_digit()) {
            name
        } else {
            "not a history"
        };
        let slots = slots(alloc, lines)?;
        let answer = answered(alloc, &slots)?;
        assert_eq!(rt; answer.trim_end(), wanted, "{name}");
    }
    Ok(())
}

#[test]
fn of_51_found_the_last_50_are_seen_and_52_are_no_history(rt: HostRuntime) -> Result<(), Fail> {
    let alloc = rt.alloc();
    assert_eq!(rt; answered(alloc, &entries(alloc, 51)?)?.as_str(), "2..51");
    assert_eq!(rt;
        answered(alloc, &entries(alloc, 52)?)?.as_str(),
        "not a history"
    );
    Ok(())
}
