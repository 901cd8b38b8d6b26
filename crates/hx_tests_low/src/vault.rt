ghost use Rattle.std.specs.Prelude.{◌≡◌, length, IfOk};

use crate::tables::Row;
use hx_disk::{Disk, DiskFailed, FileNo};
use hx_etag::Stat;
use hx_events::{PairFound, PairNo, Side};
use hx_memdisk::{MemDisk, Plan};
use hx_restore::restored;
use hx_slots::{frame, slot_file};
use hx_vault::{PairUse, Vault, barrier, scan};
use std::alloc::{AllocError, Global};
use std::test::Fail;

// A disk in memory that tells nothing, so that a test may go through the stages without saying what the files hold.
#[derive(Drop)]
struct Untold {
    disk: MemDisk,
}

impl Disk for Untold {
    ghost use Rattle.hx_memdisk.specs.MemDisk.{calls_of, files_of, past_of, recorded, faults_of, room_of};
    ghost use Rattle.hx_memdisk.specs.Replay.{file_after, pick_of};
    ghost use Rattle.hx_memdisk.specs.Sound.{file_sound, picked_image};
    ghost use Rattle.std.specs.Prelude.{false, length, take};
    ghost use Rattle.std.proofs.lemmas.List.{take_all};
    ghost use Rattle.std.proofs.Common.{ap, arith};

    ghost tells = { false };

    ghost now = { λ d. files_of d.disk };

    ghost past = { λ d. past_of d.disk };

    ghost time = { λ d. recorded d.disk };

    ghost failures = { λ d. faults_of d.disk };

    ghost room = { λ d. room_of d.disk };

    ghost picked = { pick_of };

    ghost present = { λ d f. ap (λ (l : _). file_after l f) (take_all (length (calls_of d.disk)) (calls_of d.disk) (Prim.omega arith)) };

    ghost sound = { λ d t f told. file_sound f (take t (calls_of d.disk)) };

    ghost pick_is_image = { λ pick file told sound. picked_image pick file sound };

    fn reserve(&mut self, file: FileNo, end: u64, calls: u32) -> Result<(), AllocError> {
        self.disk.reserve(file, end, calls)
    }

    fn stat(&mut self, file: FileNo) -> Result<Option<Stat>, DiskFailed> {
        self.disk.stat(file)
    }

    fn read(&mut self, file: FileNo, at: u64, into: &mut [u8]) -> Result<(), DiskFailed> {
        let len = self.disk.bytes(file).len() as u64;
        if at <= len && into.len() as u64 <= len - at {
            self.disk.read(file, at, into)
        } else {
            self.disk.read(file, 0, &mut into[..0])
        }
    }

    fn write_at(&mut self, file: FileNo, at: u64, bytes: &[u8]) -> Result<(), DiskFailed> {
        let at = at.min(self.disk.bytes(file).len() as u64);
        self.disk.write_at(file, at, bytes)
    }

    fn cut(&mut self, file: FileNo, len: u64) -> Result<(), DiskFailed> {
        let len = len.min(self.disk.bytes(file).len() as u64);
        self.disk.cut(file, len)
    }

    fn sync(&mut self, file: FileNo) -> Result<(), DiskFailed> {
        self.disk.sync(file)
    }

    fn set_mtime(&mut self, file: FileNo, mtime: u64) -> Result<(), DiskFailed> {
        self.disk.set_mtime(file, mtime)
    }

    fn crash(&mut self, pick: u64) -> Result<(), AllocError> {
        self.disk.crash(pick)
    }

    fn moment(&self) -> u64 {
        self.disk.moment()
    }

    fn faults(&self) -> u64 {
        self.disk.faults()
    }
}

fn memory(alloc: Global, fails: Option<u64>, fuse: Option<u64>) -> Result<Untold, Fail> {
    let mut plan = Plan {
        fails: Vec::new(alloc),
        fuse,
    };
    if let Some(call) = fails {
        plan.fails.push(call)?;
    }
    let disk = MemDisk::new(alloc, plan)?;
    Ok(Untold { disk })
}

// Writes the bytes of an escaped text into a file of a side of a pair.
fn plant(
    alloc: Global,
    disk: &mut Untold,
    pair: PairNo,
    side: Side,
    text: &str,
) -> Result<(), Fail> {
    let file = slot_file(pair, side);
    let bytes = Row::new(text).bytes(alloc)?;
    disk.reserve(file, bytes.len() as u64, 2)?;
    disk.write_at(file, 0, &bytes)?;
    disk.sync(file)?;
    Ok(())
}

// Slot files with the stamp 1 and the content hello, with the stamp 2 and the content world behind an open and behind a closed gate, and
// with the stamp 7 and no record.
const OLDER: &str = r#"=%01%00%00%00%00%00%00%00%01%00%00%00%1Dfile:///a%20{"typeId":""}%0Ahello"#;

const NEWER: &str = r#"=%01%00%00%00%00%00%00%00%02%00%00%00%1Dfile:///a%20{"typeId":""}%0Aworld"#;

const CLOSED: &str = r#"=%00%00%00%00%00%00%00%00%02%00%00%00%1Dfile:///a%20{"typeId":""}%0Aworld"#;

const SPOILT: &str = "=%01%00%00%00%00%00%00%00%07%FF%FF%FF%FF%00%00%00%09no%20record";

fn open_vault(alloc: Global, disk: &mut Untold) -> Result<(Vault, Vec<PairFound>), Fail>
    ensures { IfOk result (λ r. length r.0.pairs ≡ 64) }
{
    disk.reserve(FileNo::new(0), 0, 128)?;
    barrier(disk)?;
    let (mut vault, raws) = scan(alloc, disk)?;
    let found = restored(alloc, &raws)?;
    if found.len() == 64 {
        vault.adopt(&found);
    }
    Ok((vault, found))
}

#[test]
fn a_vault_is_read_and_its_pairs_are_adopted(rt: HostRuntime) -> Result<(), Fail> {
    let alloc = rt.alloc();
    let mut disk = memory(alloc, None, None)?;
    plant(alloc, &mut disk, PairNo::new(0), Side::B, OLDER)?;
    plant(alloc, &mut disk, PairNo::new(1), Side::A, "=%00")?;
    plant(alloc, &mut disk, PairNo::new(1), Side::B, SPOILT)?;
    plant(alloc, &mut disk, PairNo::new(2), Side::A, OLDER)?;
    let (vault, found) = open_vault(alloc, &mut disk)?;
    assert!(rt; vault.stamp() == 7 && !vault.is_spent());
    assert!(rt; found.len() == 64);
    assert!(rt; matches!(&found[1], PairFound::Damaged));
    assert!(rt; matches!(&found[2], PairFound::Twin(earlier) if earlier.number() == 0));
    assert!(rt; vault.free().map(|pair| pair.number()) == Some(3));
    Ok(())
}

// What a restart brings back of the first pair.
fn word(found: &[PairFound]) -> &'static str {
    match found.first() {
        Some(PairFound::Found(backup, _)) => {
            if backup.content.as_slice() == b"hello".as_slice() {
                "older"
            } else {
                "newer"
            }
        }
        Some(PairFound::Empty) => "nothing",
        _ => "else",
    }
}

// The calls of the disk before a stage: a write and a sync for each side, 128 syncs, 128 stats and two reads.
const BEFORE: u64 = 262;

// A stage, the gate of the newer side before it, the call that fails, counted from the first of the stage, what a restart brings back before
// the stage, and after it and a crash: one of two.
const STAGES: &str = "\
discard open 0 newer nothing nothing
discard open 1 newer newer newer
discard open 2 newer newer newer
discard open 3 newer newer nothing
discard open 4 newer newer nothing
open closed 0 older newer newer
open closed 1 older newer older
open closed 2 older newer older
prepare open 0 newer newer newer
prepare open 1 newer newer newer
prepare open 2 newer newer newer";

// A disk on which side A of the first pair shows the older backup, and side B has the newer one behind this gate.
fn written(alloc: Global, gate: &str, fails: Option<u64>) -> Result<Untold, Fail> {
    let newer = if gate == "open" { NEWER } else { CLOSED };
    let mut disk = memory(alloc, fails, None)?;
    plant(alloc, &mut disk, PairNo::new(0), Side::A, OLDER)?;
    plant(alloc, &mut disk, PairNo::new(0), Side::B, newer)?;
    Ok(disk)
}

fn prepare(vault: &mut Vault, disk: &mut Untold) -> Result<bool, Fail> {
    let pair = PairNo::new(0);
    if vault.is_spent() || vault.use_of(pair) != PairUse::Taken {
        return Ok(false);
    }
    vault.reserve(disk, pair, false, 1)?;
    Ok(vault.prepare(disk, pair).is_ok())
}

fn open(vault: &mut Vault, disk: &mut Untold) -> Result<bool, Fail> {
    let pair = PairNo::new(0);
    if vault.use_of(pair) != PairUse::Taken {
        return Ok(false);
    }
    vault.reserve(disk, pair, false, 1)?;
    Ok(vault.open_gate(disk, pair).is_ok())
}

fn fade(vault: &mut Vault, disk: &mut Untold) -> Result<bool, Fail> {
    let pair = PairNo::new(0);
    if vault.use_of(pair) != PairUse::Taken {
        return Ok(false);
    }
    vault.reserve(disk, pair, false, 1)?;
    Ok(vault.fade(disk, pair).is_ok())
}

fn discard(vault: &mut Vault, disk: &mut Untold) -> Result<(), Fail> {
    let pair = PairNo::new(0);
    if !fade(vault, disk)? || vault.use_of(pair) != PairUse::Taken {
        return Ok(());
    }
    vault.reserve(disk, pair, true, 1)?;
    let _ = vault.drop_newest(disk, pair);
    Ok(())
}

fn stage(vault: &mut Vault, disk: &mut Untold, stage: &str) -> Result<bool, Fail> {
    match stage {
        "discard" => discard(vault, disk)?,
        "open" => {
            let _ = open(vault, disk)?;
        }
        _ => {
            let _ = prepare(vault, disk)?;
            return Ok(vault.stamp() == 3);
        }
    }
    Ok(true)
}

// Whether a stage leaves what its line says, where a crash with this pick follows.
fn leaves(alloc: Global, line: &str, pick: u64) -> Result<bool, Fail> {
    let mut row = Row::new(line);
    let name = row.field();
    let gate = row.field();
    let fails = match row.number() {
        Some(call) if 0 < call && call < 10 => Some(BEFORE + call),
        _ => None,
    };
    let mut disk = written(alloc, gate, fails)?;
    let (mut vault, found) = open_vault(alloc, &mut disk)?;
    if word(&found) != row.field() || !stage(&mut vault, &mut disk, name)? {
        return Ok(false);
    }
    disk.crash(pick)?;
    let (_, found) = open_vault(alloc, &mut disk)?;
    let left = word(&found);
    Ok(left == row.field() || left == row.field())
}

#[test]
fn a_stage_that_fails_at_a_call_leaves_one_of_the_backups_before_or_after(
    rt: HostRuntime,
) -> Result<(), Fail> {
    for line in STAGES.lines() {
        for pick in 0..4 {
            assert!(rt; leaves(rt.alloc(), line, pick)?, "{line}, pick {pick}");
        }
    }
    Ok(())
}

// The block that follows the gate, for this content.
fn block(alloc: Global, stamp: u64, content: &[u8]) -> Result<Vec<u8>, Fail> {
    let mut body = Vec::from_slice(alloc, b"file:///a {\"typeId\":\"\"}\n")?;
    body.extend_from_slice(content)?;
    if body.len() > 200 {
        return Err(Fail::from("a long content"));
    }
    Ok(frame(alloc, stamp, &body)?)
}

// Whether a backup of this content was completed.
fn back_up(
    alloc: Global,
    vault: &mut Vault,
    disk: &mut Untold,
    content: &[u8],
) -> Result<bool, Fail>
    requires { length vault.old.pairs ≡ 64 }
    ensures { length vault.new.pairs ≡ 64 }
{
    let pair = PairNo::new(0);
    if vault.is_spent() || vault.use_of(pair) != PairUse::Taken {
        return Ok(false);
    }
    vault.reserve(disk, pair, false, 1)?;
    let Ok(()) = vault.prepare(disk, pair) else {
        return Ok(false);
    };
    let frame = block(alloc, vault.stamp(), content)?;
    let end = 1 + frame.len() as u64;
    if end > 300 {
        return Ok(false);
    }
    vault.reserve(disk, pair, false, end)?;
    let Ok(()) = vault.body(disk, pair, &frame) else {
        return Ok(false);
    };
    vault.reserve(disk, pair, false, 1)?;
    Ok(vault.open_gate(disk, pair).is_ok())
}

// The calls from one to another, and what a crash behind each of them leaves, one word for each pick. The first 256 calls open the vault.
const CRASHES: &str = "\
256 260 nothing nothing nothing nothing
261 261 nothing older older nothing
262 266 older older older older
267 267 older newer newer older
268 270 newer newer newer newer
271 271 newer nothing nothing newer
272 272 nothing nothing nothing nothing";

// Two backups and a discard, as far as they come, and then a crash.
fn left(alloc: Global, fuse: u64, pick: u64) -> Result<&'static str, Fail> {
    let mut disk = memory(alloc, None, Some(fuse))?;
    let (mut vault, _) = open_vault(alloc, &mut disk)?;
    if vault.use_of(PairNo::new(0)) != PairUse::Free {
        return Ok("no free pair");
    }
    vault.take(PairNo::new(0));
    if back_up(alloc, &mut vault, &mut disk, b"hello")?
        && back_up(alloc, &mut vault, &mut disk, b"world")?
    {
        discard(&mut vault, &mut disk)?;
    }
    disk.crash(pick)?;
    let (_, found) = open_vault(alloc, &mut disk)?;
    Ok(word(&found))
}

#[test]
fn a_crash_at_any_call_shows_the_older_backup_or_the_newer(rt: HostRuntime) -> Result<(), Fail> {
    for line in CRASHES.lines() {
        let mut row = Row::new(line);
        let first = row.number().unwrap_or(0);
        let last = row.number().unwrap_or(0);
        for pick in 0..4 {
            let wanted = row.field();
            for fuse in first..=last {
                assert!(rt;
                    left(rt.alloc(), fuse, pick)? == wanted,
                    "{line}, {fuse}, pick {pick}"
                );
            }
        }
    }
    Ok(())
}
