use hx_base::read_decimal;
use hx_disk::Disk;
use hx_history::{Added, History, HistoryError};
use hx_memdisk::{MemDisk, Plan};
use std::alloc::Global;
use std::test::Fail;

/// What stands before the first blank and what stands behind it.
pub fn parted(text: &str) -> (&str, &str) {
    text.split_once(" ").unwrap_or((text, ""))
}

/// The number that a text is, 0 where it is none.
pub fn number(text: &str) -> u64 {
    read_decimal(text.as_bytes()).unwrap_or(0)
}

/// A disk in memory of which the calls fail that the plan names.
pub fn memory(alloc: Global, fails: &str, fuse: Option<u64>) -> Result<MemDisk, Fail> {
    let mut plan = Plan {
        fails: Vec::new(alloc),
        fuse,
    };
    for call in fails.split_whitespace() {
        plan.fails.push(number(call))?;
    }
    Ok(MemDisk::new(alloc, plan)?)
}

/// The history on the disk.
pub fn opened(alloc: Global, disk: MemDisk) -> Result<History<MemDisk>, Fail> {
    match History::open(alloc, disk) {
        Ok(history) => Ok(history),
        Err(HistoryError::OpenFault(_)) => Err(Fail::new("the vault can't be read")),
        Err(HistoryError::NotHistory(_)) => Err(Fail::new("not a history")),
        Err(HistoryError::NoMemory(_)) => Err(Fail::new("no memory")),
    }
}

/// A history, or its disk where the disk failed.
pub enum Held {
    Open(History<MemDisk>),
    Lost(MemDisk),
}

impl Held {
    /// What came of a save, and of all that is behind it.
    pub fn save(self, moment: u64, content: &[u8]) -> (Held, &'static str) {
        match self {
            Held::Open(history) => match history.add(moment, content) {
                Added::Kept(history) => (Held::Open(history), "kept"),
                Added::Merged(history) => (Held::Open(history), "merged"),
                Added::Refused(history, _) => (Held::Open(history), "refused"),
                Added::Faulted(disk) => (Held::Lost(disk), "faulted"),
            },
            Held::Lost(disk) => (Held::Lost(disk), "lost"),
        }
    }

    /// The disk, handed out.
    pub fn disk(self) -> MemDisk {
        match self {
            Held::Open(history) => history.finish(),
            Held::Lost(disk) => disk,
        }
    }
}

/// So many saves of the content x, 10,000 moments apart.
pub fn many(held: Held, count: u64) -> Held {
    let mut held = held;
    for place in 0..count.min(100) {
        let (next, _) = held.save(10_000 * place, b"x");
        held = next;
    }
    held
}

/// The entries as a text: up to three of them whole, else the first and the last number of a run.
pub fn shown(alloc: Global, history: &History<MemDisk>) -> Result<String, Fail> {
    let entries = history.entries();
    let mut text = String::new(alloc);
    match entries {
        [] => text.push_str("-")?,
        [first, .., last] if entries.len() > 3 => {
            for (place, entry) in entries.iter().enumerate() {
                if entry.number.wrapping_sub(first.number) != place as u64 {
                    return Err(Fail::new("a gap in the numbers"));
                }
            }
            text = format!(in alloc; "{}..{}", first.number, last.number)?;
        }
        _ => {
            for entry in entries {
                let content = str::from_utf8(entry.content.as_slice()).unwrap_or("?");
                let more = format!(in alloc; "{}:{}:{content} ", entry.number, entry.moment)?;
                text.push_str(&more)?;
            }
        }
    }
    Ok(text)
}

/// The entries that an opening finds on the disk.
pub fn entries_of(alloc: Global, disk: MemDisk) -> Result<String, Fail> {
    let history = opened(alloc, disk)?;
    let text = shown(alloc, &history);
    let _ = history.finish();
    text
}
