ghost use Rattle.std.specs.Prelude.{◌≡◌, ◌≤◌, ◌<◌, ◌+◌, ◌*◌, ℕ, List, IsTrue, length, take, min, map, IfOk, OnOk, IsErrOf, MatchOption, slice_index_or, max};
ghost use Rattle.hx_faults.specs.Faults.{Rose, HasCause};
ghost use Rattle.hx_disk.specs.Disk.{ChangesNothing};
ghost use Rattle.hx_slots.specs.Frames.{shown_in};
ghost use Rattle.hx_slots.specs.Raws.{raw_at, AreReadOf, stamp_of, greatest_shown, greatest_stamp};
ghost use Rattle.hx_vault.specs.Vaults.{scanned, scanned_pair, reads_shut};
ghost use Rattle.hx_vault.specs.declared.scanning.ScanError.TheVariants.{OpenFault, NoMemory};

use crate::pair::{Pair, PairUse};
use crate::vault::Vault;
use hx_disk::{Disk, DiskFailed, FileNo};
use hx_events::{Bytes, PairNo, Side};
use hx_slots::{RawPair, shown, slot_file};
use std::alloc::{AllocError, Global};

// The gate, the header of form Two, and the longest body.
const READ_MAX: u64 = 534_305;

/// Why a vault can't be read.
#[derive(Clone, Copy, Debug, PartialEq, Eq)]
pub enum ScanError {
    /// A call of the disk failed, and was counted by it.
    OpenFault,

    NoMemory,
}

impl From<AllocError> for ScanError {
    ghost from_gives = { λ _ e. e ≡ NoMemory };

    fn from(_: AllocError) -> Self {
        ScanError::NoMemory
    }
}

impl From<DiskFailed> for ScanError {
    ghost from_gives = { λ _ e. e ≡ OpenFault };

    fn from(_: DiskFailed) -> Self {
        ScanError::OpenFault
    }
}

fn size_of<D: Disk>(disk: &mut D, file: FileNo) -> Result<u64, DiskFailed>
    ensures size { IsTrue D.tells → IfOk result (λ size. size ≡ length (D.now disk.old file).reading) }
    ensures unchanged { ChangesNothing D.time D.past D.now disk.old disk.new }
    ensures room { D.room disk.new ≡ D.room disk.old }
    ensures cause { HasCause (D.failures disk.old) (D.failures disk.new) result }
{
    match disk.stat(file)? {
        Some(stat) => Ok(stat.size),
        None => Ok(0),
    }
}

fn read_front<D: Disk>(
    alloc: Global,
    disk: &mut D,
    file: FileNo,
    count: usize,
) -> Result<Vec<u8>, ScanError>
    requires { IsTrue D.tells → count ≤ length (D.now disk.old file).reading }
    ensures bytes { IsTrue D.tells → IfOk result (λ bytes. bytes.items ≡ take count (D.now disk.old file).reading) }
    ensures unchanged { ChangesNothing D.time D.past D.now disk.old disk.new }
    ensures room { D.room disk.new ≡ D.room disk.old }
    ensures fault { IsErrOf result ScanError.OpenFault → Rose (D.failures disk.old) (D.failures disk.new) }
    ensures later { D.failures disk.old ≤ D.failures disk.new }
    ensures kept { OnOk result (D.failures disk.new ≡ D.failures disk.old) }
{
    let mut bytes = vec![in alloc; 0u8; count]?;
    disk.read(file, 0, &mut bytes)?;
    Ok(bytes)
}

// The first bytes of a file, past which no slot file shows anything.
fn read_file<D: Disk>(alloc: Global, disk: &mut D, file: FileNo) -> Result<Bytes, ScanError>
    ensures bytes { IsTrue D.tells → IfOk result (λ bytes. bytes ≡ take 534305 (D.now disk.old file).reading) }
    ensures unchanged { ChangesNothing D.time D.past D.now disk.old disk.new }
    ensures room { D.room disk.new ≡ D.room disk.old }
    ensures fault { IsErrOf result ScanError.OpenFault → Rose (D.failures disk.old) (D.failures disk.new) }
    ensures later { D.failures disk.old ≤ D.failures disk.new }
    ensures kept { OnOk result (D.failures disk.new ≡ D.failures disk.old) }
{
    let size = size_of(disk, file)?.min(READ_MAX);
    if size == 0 {
        return Ok(Bytes::new(Vec::new(alloc)));
    }
    let bytes = read_front(alloc, disk, file, size as usize)?;
    Ok(Bytes::new(bytes))
}

fn read_pair<D: Disk>(alloc: Global, disk: &mut D, pair: PairNo) -> Result<RawPair, ScanError>
    ensures a { IsTrue D.tells → IfOk result (λ raw. raw.a ≡ take 534305 (D.now disk.old (2 * pair)).reading) }
    ensures b { IsTrue D.tells → IfOk result (λ raw. raw.b ≡ take 534305 (D.now disk.old (2 * pair + 1)).reading) }
    ensures unchanged { ChangesNothing D.time D.past D.now disk.old disk.new }
    ensures room { D.room disk.new ≡ D.room disk.old }
    ensures fault { IsErrOf result ScanError.OpenFault → Rose (D.failures disk.old) (D.failures disk.new) }
    ensures later { D.failures disk.old ≤ D.failures disk.new }
    ensures kept { OnOk result (D.failures disk.new ≡ D.failures disk.old) }
{
    let a = read_file(alloc, disk, slot_file(pair, Side::A))?;
    let b = read_file(alloc, disk, slot_file(pair, Side::B))?;
    Ok(RawPair { a, b })
}

fn read_pairs<D: Disk>(alloc: Global, disk: &mut D) -> Result<Vec<RawPair>, ScanError>
    ensures read { IsTrue D.tells → IfOk result (λ raws. AreReadOf (λ f. (D.now disk.old f).reading) raws.items) }
    ensures count { IfOk result (λ raws. length raws.items ≡ 64) }
    ensures unchanged { ChangesNothing D.time D.past D.now disk.old disk.new }
    ensures room { D.room disk.new ≡ D.room disk.old }
    ensures fault { IsErrOf result ScanError.OpenFault → Rose (D.failures disk.old) (D.failures disk.new) }
    ensures later { D.failures disk.old ≤ D.failures disk.new }
    ensures kept { OnOk result (D.failures disk.new ≡ D.failures disk.old) }
{
    let mut raws = Vec::with_capacity(alloc, 64)?;
    for number in 0..64 {
        let raw = read_pair(alloc, disk, PairNo::new(number))?;
        match raws.push(raw) {
            Ok(()) => {}
            Err(_) => return Err(ScanError::NoMemory),
        }
    }
    Ok(raws)
}

fn is_shut(bytes: &[u8]) -> bool
    ensures { result ≡ reads_shut bytes.now }
{
    match bytes {
        [] => false,
        [gate, ..] => *gate != 1,
    }
}

fn stamp_in(bytes: &[u8]) -> u64
    ensures { result ≡ stamp_of (shown_in bytes.now) }
{
    match shown(bytes) {
        Some(shown) => shown.stamp,
        None => 0,
    }
}

fn greatest(raws: &[RawPair]) -> u64
    ensures { result ≡ greatest_shown (λ p. (raw_at raws.now p).a) (λ p. (raw_at raws.now p).b) (length raws.now) }
{
    let mut stamp = 0u64;
    for raw in raws {
        let a = stamp_in(raw.a.as_slice());
        let b = stamp_in(raw.b.as_slice());
        stamp = stamp.max(a.max(b));
    }
    stamp
}

fn scanned(raw: &RawPair) -> Pair
    ensures { result ≡ scanned_pair raw.now }
{
    Pair {
        used: PairUse::Free,
        home: Side::A,
        shut_a: is_shut(raw.a.as_slice()),
        shut_b: is_shut(raw.b.as_slice()),
        put: None,
    }
}

fn scanned_pairs(alloc: Global, raws: &[RawPair]) -> Result<Vec<Pair>, AllocError>
    ensures { IfOk result (λ pairs. pairs.items ≡ map scanned_pair raws.now) }
{
    let mut pairs = Vec::with_capacity(alloc, raws.len())?;
    for raw in raws {
        pairs.push(scanned(raw))?;
    }
    Ok(pairs)
}

/// Reads the slot files, each once and no further than its first 534,305 bytes, and gives what is read of each pair and a
/// vault that knows which gates are closed.
///
/// It asks for the stat of each file and reads those that aren't empty, and changes nothing on the disk. All pairs are free
/// until `adopt` says what was found in them. A gate counts as known closed exactly where the file has a first byte and that
/// isn't 1, so an empty file's doesn't. The counter is the greatest stamp that is shown, or 0. All of this is true of what a
/// crash leaves only where that is what is read, as after a `barrier` that answered `Ok`.
pub fn scan<D: Disk>(alloc: Global, disk: &mut D) -> Result<(Vault, Vec<RawPair>), ScanError>
    ensures read { IsTrue D.tells → IfOk result (λ r. AreReadOf (λ f. (D.now disk.old f).reading) r.1.items) }
    ensures count { IfOk result (λ r. length r.1.items ≡ 64) }
    ensures known { IfOk result (λ r. r.0 ≡ scanned r.1.items) }
    ensures stamp { IsTrue D.tells → IfOk result (λ r. r.0.stamp ≡ greatest_stamp (λ f. (D.now disk.old f).reading)) }
    ensures unchanged { ChangesNothing D.time D.past D.now disk.old disk.new }
    ensures room { D.room disk.new ≡ D.room disk.old }
    ensures fault { IsErrOf result ScanError.OpenFault → Rose (D.failures disk.old) (D.failures disk.new) }
    ensures later { D.failures disk.old ≤ D.failures disk.new }
    ensures kept { OnOk result (D.failures disk.new ≡ D.failures disk.old) }
{
    let raws = read_pairs(alloc, disk)?;
    let vault = Vault::known(scanned_pairs(alloc, &raws)?, greatest(&raws));
    Ok((vault, raws))
}
