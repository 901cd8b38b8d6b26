ghost use Rattle.std.specs.Prelude.{◌≡◌, ◌≤◌, ◌<◌, ◌+◌, ◌^◌, ℕ, true, length, take, slice_index_or, vec_len, IfOk, OnOk};
ghost use Rattle.hx_memdisk.specs.Kept.{IsAfter};
ghost use Rattle.hx_memdisk.specs.Replay.{file_after, no_file, pick_of};
ghost use Rattle.hx_memdisk.specs.Room.{FileTakes};
ghost use Rattle.hx_memdisk.specs.declared.kept.Kept.{Kept};

use crate::call::{Call, Recorded};
use crate::course::{Course, Plan};
use crate::files::{crash_files, no_files, reserve_file};
use crate::kept::Kept;
use hx_disk::{Disk, DiskFailed, FileNo};
use hx_etag::Stat;
use hx_ghost::GhostList;
use std::alloc::{AllocError, Global};

/// A disk in memory. It keeps each file as a read finds it, and what is stable of it.
#[derive(Drop)]
pub struct MemDisk {
    files: Vec<Kept>,

    /// How many calls have been recorded.
    recorded: u64,
    log: GhostList<Recorded>,
    room_file: u32,
    room_end: u64,
    room_calls: u32,
    course: Course,
    ghost every_file: { vec_len files ≡ 384 },
    ghost each_after: { (f : ℕ) (d : Kept) → f < 384 → IsAfter log.items f (slice_index_or files.items f d) },
    ghost counted: { recorded ≡ length log.items },
    ghost countable: { recorded + room_calls < 2 ^ 64 },
    ghost file_takes: { FileTakes room_file room_end files.items },
}

impl MemDisk {
    ghost use Rattle.std.specs.Prelude.{OnErr};
    ghost use Rattle.hx_memdisk.specs.MemDisk.{calls_of, files_of, recorded, course_of, room_of};

    /// A disk on which no file exists, all is synced and no fault has come. It has no room yet.
    pub fn new(alloc: Global, plan: Plan) -> Result<MemDisk, AllocError>
        ensures files { IfOk result (λ disk. (f : ℕ) → files_of disk f ≡ no_file) }
        ensures moment { IfOk result (λ disk. recorded disk ≡ 0) }
        ensures room { IfOk result (λ disk. (room_of disk).calls ≡ 0) }
        ensures course { IfOk result (λ disk. course_of disk ≡ record { plan = plan; calls = 0; writes = 0; faults = 0 }) }
    {
        let files = no_files(alloc)?;
        Ok(MemDisk {
            files,
            recorded: 0,
            log: GhostList::new(),
            room_file: 0,
            room_end: 0,
            room_calls: 0,
            course: Course {
                plan,
                calls: 0,
                writes: 0,
                faults: 0,
            },
        })
    }

    // The room for so many calls that write up to this end. No more calls are let in than can be counted.
    fn make_room(&mut self, number: u32, end: u64, calls: u32) -> Result<(), AllocError>
        requires known { number < 384 }
        ensures room { OnOk result (room_of self.new ≡ record { file = number; end = end; calls = calls }) }
        ensures room_err { OnErr result (room_of self.new ≡ room_of self.old) }
        ensures calls { calls_of self.new ≡ calls_of self.old }
        ensures course { course_of self.new ≡ course_of self.old }
    {
        if self.recorded.checked_add(calls as u64).is_none() {
            return Err(AllocError);
        }
        match reserve_file(&mut self.files, number as usize, end as usize) {
            Ok(()) => {}
            Err(error) => return Err(error),
        }
        self.room_file = number;
        self.room_end = end;
        self.room_calls = calls;
        Ok(())
    }

    /// What a read of the whole file finds.
    pub fn bytes(&self, file: FileNo) -> &[u8]
        ensures { result.now ≡ (files_of self.now file).reading }
    {
        &self.files[file.number() as usize].bytes
    }
}

impl Disk for MemDisk {
    ghost use Rattle.std.specs.Prelude.{◌↔◌, ◌⊎◌, IsOk, IsErr, OnErr, MatchResult, is_ok, drop};
    ghost use Rattle.std.proofs.lemmas.List.{take_all};
    ghost use Rattle.std.proofs.Common.{ap, arith};
    ghost use Rattle.hx_faults.specs.Faults.{HasCause};
    ghost use Rattle.hx_disk.specs.Disk.{Elapses, ChangesOnly, ChangesNothing, UsesCalls, IsRoomWithin};
    ghost use Rattle.hx_disk.specs.File.{Wrote, Tried, WasCut, TriedCut, Synced, SameContent, asked_stat, Crashed};
    ghost use Rattle.hx_memdisk.specs.Course.{FailsNext, StartsAnew, next_mtime, called, wrote};
    ghost use Rattle.hx_memdisk.specs.MemDisk.{calls_of, files_of, past_of, recorded, course_of, faults_of, room_of};
    ghost use Rattle.hx_memdisk.specs.Replay.{write_after, cut_after, sync_after, mtime_after, crash_after};
    ghost use Rattle.hx_memdisk.specs.Sound.{file_sound, picked_image};

    ghost tells = { true };

    ghost now = { files_of };

    ghost past = { past_of };

    ghost time = { recorded };

    ghost failures = { faults_of };

    ghost room = { room_of };

    ghost picked = { pick_of };

    ghost present = { λ d f. ap (λ (l : _). file_after l f) (take_all (length (calls_of d)) (calls_of d) (Prim.omega arith)) };

    ghost sound = { λ d t f told. file_sound f (take t (calls_of d)) };

    ghost pick_is_image = { λ pick file told sound. picked_image pick file sound };

    fn reserve(&mut self, file: FileNo, end: u64, calls: u32) -> Result<(), AllocError>
        ensures room { OnOk result (room_of self.new ≡ record { file = file; end = end; calls = calls }) }
        ensures room_err { OnErr result (room_of self.new ≡ room_of self.old) }
        ensures unchanged { ChangesNothing recorded past_of files_of self.old self.new }
        ensures faults { faults_of self.new ≡ faults_of self.old }

        // It has no number. Where the room is there already it succeeds.
        ensures course { course_of self.new ≡ course_of self.old }
        ensures there { IsRoomWithin (record { file = file; end = end; calls = calls }) (room_of self.old) → IsOk result }
    {
        let number = file.number();
        if number == self.room_file && end <= self.room_end && calls <= self.room_calls {
            self.room_end = end;
            self.room_calls = calls;
            Ok(())
        } else {
            self.make_room(number, end, calls)
        }
    }

    fn stat(&mut self, file: FileNo) -> Result<Option<Stat>, DiskFailed>
        ensures stat { IfOk result (λ s. s ≡ (files_of self.old file).stat) }
        ensures unchanged { ChangesNothing recorded past_of files_of self.old self.new }
        ensures room { room_of self.new ≡ room_of self.old }
        ensures cause { HasCause (faults_of self.old) (faults_of self.new) result }

        // It fails where the plan says so. It has a number.
        ensures planned { IsErr result ↔ FailsNext (course_of self.old) }
        ensures course { course_of self.new ≡ called (is_ok result) (course_of self.old) }
    {
        if !self.course.call() {
            return Err(DiskFailed);
        }
        Ok(self.files[file.number() as usize].stat())
    }

    fn read(&mut self, file: FileNo, at: u64, into: &mut [u8]) -> Result<(), DiskFailed>
        requires { at + length into.old ≤ length (files_of self.old file).reading }
        ensures bytes { OnOk result (into.new ≡ take (length into.old) (drop at (files_of self.old file).reading)) }
        ensures unchanged { ChangesNothing recorded past_of files_of self.old self.new }
        ensures room { room_of self.new ≡ room_of self.old }
        ensures cause { HasCause (faults_of self.old) (faults_of self.new) result }

        // It fails where the plan says so, and has then filled nothing. It has a number.
        ensures planned { IsErr result ↔ FailsNext (course_of self.old) }
        ensures course { course_of self.new ≡ called (is_ok result) (course_of self.old) }
        ensures failed { OnErr result (into.new ≡ into.old) }
    {
        if !self.course.call() {
            return Err(DiskFailed);
        }
        let from = at as usize;
        let bytes = &self.files[file.number() as usize].bytes;
        into.copy_from_slice(&bytes[from..from + into.len()]);
        Ok(())
    }

    fn write_at(&mut self, file: FileNo, at: u64, bytes: &[u8]) -> Result<(), DiskFailed>
        requires within { at ≤ length (files_of self.old file).reading }
        requires room_file { (room_of self.old).file ≡ file }
        requires room_end { at + length bytes.now ≤ (room_of self.old).end }
        requires room_calls { 0 < (room_of self.old).calls }
        ensures ok { OnOk result (Wrote at bytes.now (files_of self.old file) (files_of self.new file)) }
        ensures err { OnErr result (Tried at (length bytes.now) (files_of self.old file) (files_of self.new file)) }
        ensures only { ChangesOnly recorded past_of files_of file self.old self.new }
        ensures room { UsesCalls 1 (room_of self.old) (room_of self.new) }
        ensures cause { HasCause (faults_of self.old) (faults_of self.new) result }

        // It fails where the plan says so, has then written its first half, and is recorded either way.
        ensures planned { IsErr result ↔ FailsNext (course_of self.old) }
        ensures course { course_of self.new ≡ wrote (is_ok result) (course_of self.old) }
        ensures file { files_of self.new file ≡ write_after at bytes.now (is_ok result) (next_mtime (course_of self.old)) (files_of self.old file) }
        ensures moment { recorded self.new ≡ recorded self.old + 1 }
    {
        let mtime = self.course.next_mtime();
        let ok = self.course.call();
        let number = file.number();
        self.files[number as usize].write(at as usize, bytes, ok, mtime);
        self.log.extend(&Call::Write {
            file: number,
            at,
            bytes,
            ok,
            mtime,
        });
        self.recorded += 1;
        self.room_calls -= 1;
        if ok {
            self.course.count_write();
            Ok(())
        } else {
            Err(DiskFailed)
        }
    }

    fn cut(&mut self, file: FileNo, len: u64) -> Result<(), DiskFailed>
        requires within { len ≤ length (files_of self.old file).reading }
        requires room_file { (room_of self.old).file ≡ file }
        requires room_calls { 0 < (room_of self.old).calls }
        ensures ok { OnOk result (WasCut len (files_of self.old file) (files_of self.new file)) }
        ensures err { OnErr result (TriedCut len (files_of self.old file) (files_of self.new file)) }
        ensures only { ChangesOnly recorded past_of files_of file self.old self.new }
        ensures room { UsesCalls 1 (room_of self.old) (room_of self.new) }
        ensures cause { HasCause (faults_of self.old) (faults_of self.new) result }

        // It fails where the plan says so, has then changed nothing that is read, and is recorded either way.
        ensures planned { IsErr result ↔ FailsNext (course_of self.old) }
        ensures course { course_of self.new ≡ wrote (is_ok result) (course_of self.old) }
        ensures file { files_of self.new file ≡ cut_after len (is_ok result) (next_mtime (course_of self.old)) (files_of self.old file) }
        ensures moment { recorded self.new ≡ recorded self.old + 1 }
    {
        let mtime = self.course.next_mtime();
        let ok = self.course.call();
        let number = file.number();
        self.files[number as usize].cut(len as usize, ok, mtime);
        self.log.extend(&Call::Cut {
            file: number,
            len,
            ok,
            mtime,
        });
        self.recorded += 1;
        self.room_calls -= 1;
        if ok {
            self.course.count_write();
            Ok(())
        } else {
            Err(DiskFailed)
        }
    }

    fn sync(&mut self, file: FileNo) -> Result<(), DiskFailed>
        requires room_calls { 0 < (room_of self.old).calls }
        ensures ok { OnOk result (Synced (files_of self.old file) (files_of self.new file)) }
        ensures err { OnErr result (files_of self.new file ≡ files_of self.old file) }
        ensures only { ChangesOnly recorded past_of files_of file self.old self.new }
        ensures room { UsesCalls 1 (room_of self.old) (room_of self.new) }
        ensures cause { HasCause (faults_of self.old) (faults_of self.new) result }

        // It fails where the plan says so, and is recorded either way.
        ensures planned { IsErr result ↔ FailsNext (course_of self.old) }
        ensures course { course_of self.new ≡ called (is_ok result) (course_of self.old) }
        ensures file { files_of self.new file ≡ sync_after (is_ok result) (files_of self.old file) }
        ensures moment { recorded self.new ≡ recorded self.old + 1 }
    {
        let ok = self.course.call();
        let number = file.number();
        self.files[number as usize].sync(ok);
        self.log.extend(&Call::Sync { file: number, ok });
        self.recorded += 1;
        self.room_calls -= 1;
        if ok { Ok(()) } else { Err(DiskFailed) }
    }

    fn set_mtime(&mut self, file: FileNo, mtime: u64) -> Result<(), DiskFailed>
        requires room_file { (room_of self.old).file ≡ file }
        requires room_calls { 0 < (room_of self.old).calls }
        ensures content { SameContent (files_of self.old file) (files_of self.new file) }
        ensures ok { OnOk result ((files_of self.new file).stat ≡ asked_stat mtime (files_of self.old file)) }
        ensures err { OnErr result (((files_of self.new file).stat ≡ (files_of self.old file).stat) ⊎ ((files_of self.new file).stat ≡ asked_stat mtime (files_of self.old file))) }
        ensures only { ChangesOnly recorded past_of files_of file self.old self.new }
        ensures room { UsesCalls 1 (room_of self.old) (room_of self.new) }
        ensures cause { HasCause (faults_of self.old) (faults_of self.new) result }

        // It fails where the plan says so, has then changed nothing, and is recorded either way.
        ensures planned { IsErr result ↔ FailsNext (course_of self.old) }
        ensures course { course_of self.new ≡ called (is_ok result) (course_of self.old) }
        ensures file { files_of self.new file ≡ mtime_after mtime (is_ok result) (files_of self.old file) }
        ensures moment { recorded self.new ≡ recorded self.old + 1 }
    {
        let ok = self.course.call();
        let number = file.number();
        self.files[number as usize].set_mtime(ok, mtime);
        self.log.extend(&Call::SetMtime {
            file: number,
            mtime,
            ok,
        });
        self.recorded += 1;
        self.room_calls -= 1;
        if ok { Ok(()) } else { Err(DiskFailed) }
    }

    fn crash(&mut self, pick: u64) -> Result<(), AllocError>
        ensures ok { OnOk result ((f : ℕ) → Crashed (pick_of pick (files_of self.old f)) (files_of self.new f)) }
        ensures err { OnErr result (ChangesNothing recorded past_of files_of self.old self.new) }
        ensures time { Elapses recorded past_of self.old self.new }
        ensures room { OnOk result ((room_of self.new).calls ≡ 0) }
        ensures room_err { OnErr result (room_of self.new ≡ room_of self.old) }
        ensures faults { faults_of self.new ≡ faults_of self.old }

        // Existence, modification times and the count of writes stay. The plan is empty then, and it is recorded.
        ensures files { OnOk result ((f : ℕ) → files_of self.new f ≡ crash_after pick (files_of self.old f)) }
        ensures course { OnOk result (StartsAnew (course_of self.old) (course_of self.new)) }
        ensures course_err { OnErr result (course_of self.new ≡ course_of self.old) }
        ensures moment { OnOk result (recorded self.new ≡ recorded self.old + 1) }
    {
        // It takes no memory. More crashes than can be counted never come.
        let Some(recorded) = self.recorded.checked_add(1) else {
            return Err(AllocError);
        };
        crash_files(&mut self.files, pick);
        self.log.extend(&Call::Crash { pick });
        self.recorded = recorded;
        self.room_end = 0;
        self.room_calls = 0;
        self.course.start_anew();
        Ok(())
    }

    fn moment(&self) -> u64 {
        self.recorded
    }

    fn faults(&self) -> u64 {
        self.course.faults
    }
}
