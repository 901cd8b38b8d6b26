//! The opening of a history.

ghost use Rattle.std.specs.Prelude.{◌≡◌, ◌≢◌, ◌≤◌, ◌<◌, ◌+◌, ◌-◌, ◌^◌, ◌⊎◌, ℕ, IsTrue, Err, Some, None, Option, true, false, length, IfOk, IfSome, IsErrOf, MatchOption};
ghost use Rattle.hx_faults.specs.Faults.{Rose};
ghost use Rattle.hx_events.specs.declared.backup.PairFound.TheVariants.{Empty, Found};
ghost use Rattle.hx_events.specs.declared.backup.Side.{Side};
ghost use Rattle.hx_lives.specs.Calls.{HandsBack};
ghost use Rattle.hx_lives.specs.Holds.{readings};
ghost use Rattle.hx_opening_laws.specs.Findings.{AreFindings};
ghost use Rattle.hx_opening_laws.specs.Opening.{IsVaultOpened};
ghost use Rattle.hx_slots.specs.Raws.{greatest_stamp};
ghost use Rattle.hx_vault.specs.declared.scanning.ScanError.TheVariants.{OpenFault};
ghost use Rattle.hx_history_laws.specs.Entries.{AreEntries, backup_of_entry, resource_at};
ghost use Rattle.hx_history_laws.specs.Having.{HaveEntries};
ghost use Rattle.hx_history_laws.specs.Opening.{HasHistory, IsHistory, IsHistoryOf};
ghost use Rattle.hx_history_laws.specs.Gathering.{AreGathered};
ghost use Rattle.hx_opening_laws.specs.FirstPairs.{IsFirstPair};
ghost use Rattle.hx_lives.specs.CrashSafe.{found_at};
ghost use Rattle.hx_history_laws.specs.Spans.{IsOfAnother, IsSpan, IsSpanTo, Widens, widened};
ghost use Rattle.hx_history_laws.specs.declared.entry.HistoryEntry.{HistoryEntry};
ghost use Rattle.hx_history_laws.specs.Stamps.{AreOwn};
ghost use Rattle.hx_history_laws.specs.States.{HistoryState};

use crate::frames::resource_of;
use crate::history::History;
use crate::parts::Parts;
use hx_base::read_decimal;
use hx_disk::{Disk, FileNo};
use hx_events::{Backup, Bytes, PairFound, PairNo};
use hx_history_laws::HistoryEntry;
use hx_restore::{pair_with, restored};
use hx_vault::{ScanError, Vault, barrier, scan};
use std::alloc::{AllocError, Global};

/// Why a disk's vault can't be opened as a history. The disk is handed back: done or failed, an opening does nothing but sync and
/// read.
pub enum HistoryError<D> {
    /// The disk failed, while a slot file was synced or read.
    OpenFault(D),

    /// What stands in the vault isn't a history.
    NotHistory(D),

    NoMemory(D),
}

impl<D: Disk> History<D> {
    /// Opens the history on the disk, an empty one where the vault is empty.
    pub fn open(alloc: Global, disk: D) -> Result<History<D>, HistoryError<D>>
        ensures history { IsTrue D.tells → IfOk result (λ h. HasHistory (readings (D.now disk))) }
        ensures stamp { IsTrue D.tells → IfOk result (λ h. h.stamp ≡ greatest_stamp (readings (D.now disk))) }
        ensures opened { IfOk result (λ h. h.opened ≡ D.time h.disk) }
        ensures own { IsTrue D.tells → AreOwn (D.now disk) → IfOk result (λ h. AreOwn (D.past h.disk h.opened)) }
        ensures entries { IsTrue D.tells → IfOk result (λ h. AreEntries (readings (D.now disk)) h.entries) }
        ensures kept { IsTrue D.tells → IfOk result (λ h. HaveEntries h.entries (D.now h.disk)) }
        ensures quiet { IfOk result (λ h. HandsBack D.tells D.time D.past D.failures disk h.disk) }
        ensures open_fault { (back : D) → result ≡ Err (HistoryError.OpenFault back) → HandsBack D.tells D.time D.past D.failures disk back }
        ensures no_memory { (back : D) → result ≡ Err (HistoryError.NoMemory back) → HandsBack D.tells D.time D.past D.failures disk back }
        ensures not_history { (back : D) → result ≡ Err (HistoryError.NotHistory back) → HandsBack D.tells D.time D.past D.failures disk back }
        ensures no_history { IsTrue D.tells → (back : D) → result ≡ Err (HistoryError.NotHistory back) → HasHistory (readings (D.now disk)) → ⊥ }
        ensures cause { (back : D) → result ≡ Err (HistoryError.OpenFault back) → Rose (D.failures disk) (D.failures back) }
    {
        let mut disk = disk;
        let (vault, found) = match open_vault(alloc, &mut disk) {
            Ok(opened) => opened,
            Err(ScanError::OpenFault) => return Err(HistoryError::OpenFault(disk)),
            Err(ScanError::NoMemory) => return Err(HistoryError::NoMemory(disk)),
        };
        match read_history(alloc, &found, vault.stamp()) {
            Ok(Some((entries, places))) => {
                let opened = disk.moment();
                let parts = Parts {
                    alloc,
                    disk,
                    vault,
                    entries,
                    places,
                };
                Ok(History::of(parts, opened))
            }
            Ok(None) => Err(HistoryError::NotHistory(disk)),
            Err(_) => Err(HistoryError::NoMemory(disk)),
        }
    }
}

// Syncs and reads the slot files, and takes over what was found in them.
fn open_vault<D: Disk>(alloc: Global, disk: &mut D) -> Result<(Vault, Vec<PairFound>), ScanError>
    ensures quiet { HandsBack D.tells D.time D.past D.failures disk.old disk.new }
    ensures opened { IfOk result (λ r. IsVaultOpened D.tells D.now r.0 r.1.items disk.new) }
    ensures fault { IsErrOf result ScanError.OpenFault → Rose (D.failures disk.old) (D.failures disk.new) }
{
    disk.reserve(FileNo::new(0), 0, 128)?;
    barrier(disk)?;
    let (mut vault, raws) = scan(alloc, disk)?;
    let found = restored(alloc, &raws)?;
    vault.adopt(&found);
    Ok((vault, found))
}

// The number that an entry's resource names.
fn number_in(resource: &[u8]) -> Option<u64>
    ensures some { IfSome result (λ n. resource.now ≡ resource_at n) }
    ensures each { (n : ℕ) → n < 2 ^ 64 → resource.now ≡ resource_at n → result ≡ Some n }
{
    if resource.len() < 8 || &resource[..8] != b"history:".as_slice() {
        return None;
    }
    read_decimal(&resource[8..])
}

// The number and the moment of the entry that a backup is of.
fn entry_of(backup: &Backup, stamp: u64) -> Option<(u64, u64)>
    ensures none { result ≡ None → (e : HistoryEntry) → 1 ≤ e.number → e.number ≤ stamp → backup.now ≡ backup_of_entry e → ⊥ }
    ensures some { IfSome result (λ r. (backup.now ≡ backup_of_entry (record { number = r.0; moment = r.1; content = backup.now.content })) × (1 ≤ r.0) × (r.0 ≤ stamp)) }
{
    let number = number_in(backup.resource.as_slice())?;
    let base = backup.base?;
    if number == 0 || number > stamp || base.size != backup.content.as_slice().len() as u64 {
        return None;
    }
    Some((number, base.mtime))
}

// The span with one number more.
fn wider(span: Option<(u64, u64)>, number: u64) -> (u64, u64)
    ensures { result ≡ widened span number }
{
    match span {
        Some((first, last)) => (first.min(number), last.max(number)),
        None => (number, number),
    }
}

// The span with the number of what was found, if that is an entry.
fn span_with(span: Option<(u64, u64)>, item: &PairFound, stamp: u64) -> Option<Option<(u64, u64)>>
    ensures some { IfSome result (λ wide. Widens item.now stamp span wide) }
    ensures none { result ≡ None → IsOfAnother item.now stamp }
{
    match item {
        PairFound::Empty => Some(span),
        PairFound::Found(backup, _) => {
            let (number, _) = entry_of(backup, stamp)?;
            Some(Some(wider(span, number)))
        }
        PairFound::Damaged | PairFound::Twin(_) => None,
    }
}

// From which number to which the entries stand in the pairs; nothing where what was found isn't a history.
fn span_of(found: &[PairFound], stamp: u64) -> Option<Option<(u64, u64)>>
    requires { length found.now ≡ 64 }
    ensures some { IfSome result (λ span. IsSpan found.now stamp 64 span) }
    ensures none { result ≡ None → IsHistory found.now stamp → ⊥ }
{
    let mut span = None;
    for item in found {
        span = span_with(span, item, stamp)?;
    }
    Some(span)
}

// The entries of these numbers, each with its pair; nothing where one of them isn't there.
fn gathered(
    alloc: Global,
    found: &[PairFound],
    stamp: u64,
    first: u64,
    last: u64,
) -> Result<Option<(Vec<HistoryEntry>, Vec<PairNo>)>, AllocError>
    requires pairs { length found.now ≡ 64 }
    requires order { first ≤ last }
    requires near { last ≤ first + 50 }
    requires span { IsSpanTo found.now stamp 64 first last }
    ensures some { IfOk result (λ read. IfSome read (λ r. AreGathered found.now first (last - first + 1) r.0.items r.1.items)) }
    ensures none { IfOk result (λ read. read ≡ None → IsHistory found.now stamp → ⊥) }
{
    let _ = stamp;
    let count = last - first + 1;
    let mut entries = Vec::with_capacity(alloc, count as usize)?;
    let mut places = Vec::with_capacity(alloc, count as usize)?;
    for place in 0..count {
        let number = first + place;
        let resource = resource_of(alloc, number)?;
        let Some(pair) = pair_with(found, &resource) else {
            return Ok(None);
        };
        let entry = entry_in(alloc, found, stamp, first, last, pair, number)?;
        entries.push(entry)?;
        places.push(pair)?;
    }
    Ok(Some((entries, places)))
}

// The entry of this number, which stands in this pair.
fn entry_in(
    alloc: Global,
    found: &[PairFound],
    stamp: u64,
    first: u64,
    last: u64,
    pair: PairNo,
    number: u64,
) -> Result<HistoryEntry, AllocError>
    requires pairs { length found.now ≡ 64 }
    requires span { IsSpanTo found.now stamp 64 first last }
    requires within { number ≤ last }
    requires there { IsFirstPair (resource_at number) found.now pair }
    ensures number { IfOk result (λ e. e.number ≡ number) }
    ensures found { IfOk result (λ e. (side : Side) × (found_at found.now pair ≡ Found (backup_of_entry e) side)) }
{
    let _ = (stamp, first, last);
    let PairFound::Found(backup, _) = &found[pair.number() as usize] else {
        unreachable!()
    };
    let Some(base) = backup.base else {
        unreachable!()
    };
    let content = Bytes::new(Vec::from_slice(alloc, backup.content.as_slice())?);
    Ok(HistoryEntry {
        number,
        moment: base.mtime,
        content,
    })
}

// The entries that were found, each with its pair; nothing where what was found isn't a history.
fn read_history(
    alloc: Global,
    found: &[PairFound],
    stamp: u64,
) -> Result<Option<(Vec<HistoryEntry>, Vec<PairNo>)>, AllocError>
    requires findings { AreFindings found.now }
    requires pairs { length found.now ≡ 64 }
    ensures some { IfOk result (λ read. IfSome read (λ r. IsHistoryOf found.now stamp r.0.items r.1.items)) }
    ensures none { IfOk result (λ read. read ≡ None → IsHistory found.now stamp → ⊥) }
{
    match span_of(found, stamp) {
        Some(None) => Ok(Some((Vec::new(alloc), Vec::new(alloc)))),
        Some(Some((first, last))) => {
            if last - first > 50 {
                return Ok(None);
            }
            gathered(alloc, found, stamp, first, last)
        }
        None => Ok(None),
    }
}
