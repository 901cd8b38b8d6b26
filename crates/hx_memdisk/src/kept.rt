ghost use Rattle.std.specs.Prelude.{◌≡◌, ◌≤◌, ◌+◌, ℕ, if◌then◌else◌, Some, None, [], length, take, vec_len, vec_capacity, OnOk};
ghost use Rattle.hx_disk.specs.Overlay.{overlaid};
ghost use Rattle.hx_memdisk.specs.Replay.{part_of, written_stat};
ghost use Rattle.hx_memdisk.specs.Touched.{SameOutside};

use crate::carried::{carry, mix};
use crate::overlay::overlay;
use hx_etag::Stat;
use std::alloc::{AllocError, Global};

/// A file as a read finds it, and what is stable of it.
#[derive(Drop)]
pub struct Kept {
    pub bytes: Vec<u8>,
    pub exists: bool,
    pub mtime: u64,

    /// What the last good sync found, or the last crash left.
    pub stable: Vec<u8>,

    /// Where the two may differ: from the first of these places up to the second. A sync or a crash costs no more than these.
    pub from: usize,
    pub to: usize,
    pub ghost same: { SameOutside from to bytes.items stable.items },
    pub ghost room_stable: { vec_len bytes ≤ vec_capacity stable },
    pub ghost room_bytes: { vec_len stable ≤ vec_capacity bytes },
}

impl Kept {
    ghost use Rattle.hx_memdisk.specs.Kept.{stat_of, Takes, HasLeft};

    /// A file that was never written.
    pub fn new(alloc: Global) -> Kept
        ensures bytes { result.bytes.items ≡ [] }
        ensures stable { result.stable.items ≡ [] }
        ensures stat { stat_of result ≡ None }
    {
        Kept {
            bytes: Vec::new(alloc),
            exists: false,
            mtime: 0,
            stable: Vec::new(alloc),
            from: 0,
            to: 0,
        }
    }

    /// Makes room for so many bytes, which a sync needs no more memory for.
    pub fn reserve(&mut self, end: usize) -> Result<(), AllocError>
        ensures bytes { self.new.bytes.items ≡ self.old.bytes.items }
        ensures stat { stat_of self.new ≡ stat_of self.old }
        ensures stable { self.new.stable.items ≡ self.old.stable.items }
        ensures takes { OnOk result (Takes end self.new) }
        ensures keeps { (e : ℕ) → Takes e self.old → Takes e self.new }
    {
        reserve_up_to(&mut self.bytes, end)?;
        reserve_up_to(&mut self.stable, end)
    }

    /// Writes into the file. A failed write has written its first half.
    pub fn write(&mut self, at: usize, bytes: &[u8], ok: bool, mtime: u64)
        requires within { at ≤ length self.old.bytes.items }
        requires room { Takes (at + length bytes.now) self.old }
        ensures bytes { self.new.bytes.items ≡ overlaid self.old.bytes.items at (part_of bytes.now ok) }
        ensures stat { stat_of self.new ≡ written_stat ok (length (part_of bytes.now ok)) mtime (stat_of self.old) (length self.new.bytes.items) }
        ensures stable { self.new.stable.items ≡ self.old.stable.items }
        ensures keeps { (e : ℕ) → Takes e self.old → Takes e self.new }
    {
        let part = part_of(bytes, ok);
        match overlay(&mut self.bytes, at, part) {
            Ok(()) => {}
            Err(_) => unreachable!(),
        }
        self.from = self.from.min(at);
        self.to = self.to.max(at + part.len());
        if ok {
            self.mtime = mtime;
        } else if !self.exists {
            self.mtime = 0;
        }
        if ok || !part.is_empty() {
            self.exists = true;
        }
    }

    /// Cuts the file. A failed cut has changed nothing.
    pub fn cut(&mut self, len: usize, ok: bool, mtime: u64)
        ensures bytes { self.new.bytes.items ≡ (if ok then take len self.old.bytes.items else self.old.bytes.items) }
        ensures stat { stat_of self.new ≡ (if ok then Some (record { mtime = mtime; size = length self.new.bytes.items }) else stat_of self.old) }
        ensures stable { self.new.stable.items ≡ self.old.stable.items }
        ensures keeps { (e : ℕ) → Takes e self.old → Takes e self.new }
    {
        if ok {
            self.from = self.from.min(len);
            self.to = self.to.max(self.bytes.len());
            self.bytes.truncate(len);
            self.exists = true;
            self.mtime = mtime;
        }
    }

    /// Sets the modification time. A failed call has changed nothing.
    pub fn set_mtime(&mut self, ok: bool, mtime: u64)
        ensures bytes { self.new.bytes.items ≡ self.old.bytes.items }
        ensures stat { stat_of self.new ≡ (if ok then Some (record { mtime = mtime; size = length self.old.bytes.items }) else stat_of self.old) }
        ensures stable { self.new.stable.items ≡ self.old.stable.items }
        ensures keeps { (e : ℕ) → Takes e self.old → Takes e self.new }
    {
        if ok {
            self.exists = true;
            self.mtime = mtime;
        }
    }

    /// Makes stable what a read finds. A failed sync has changed nothing.
    pub fn sync(&mut self, ok: bool)
        ensures bytes { self.new.bytes.items ≡ self.old.bytes.items }
        ensures stat { stat_of self.new ≡ stat_of self.old }
        ensures stable { self.new.stable.items ≡ (if ok then self.old.bytes.items else self.old.stable.items) }
        ensures keeps { (e : ℕ) → Takes e self.old → Takes e self.new }
    {
        if ok {
            self.settle();
        }
    }

    fn settle(&mut self)
        ensures bytes { self.new.bytes.items ≡ self.old.bytes.items }
        ensures stat { stat_of self.new ≡ stat_of self.old }
        ensures stable { self.new.stable.items ≡ self.old.bytes.items }
        ensures keeps { (e : ℕ) → Takes e self.old → Takes e self.new }
    {
        carry(&mut self.stable, &self.bytes, self.from, self.to);
        self.from = self.bytes.len();
        self.to = 0;
    }

    /// Leaves the image that the pick names, stable.
    pub fn crash(&mut self, pick: u64)
        ensures { HasLeft pick self.old self.new }
    {
        match pick {
            0 => carry(&mut self.bytes, &self.stable, self.from, self.to),
            1 => {}
            _ => mix(&mut self.bytes, &self.stable, self.from, self.to, pick),
        }
        self.settle();
    }

    /// Its stat, or `None` where it doesn't exist.
    pub fn stat(&self) -> Option<Stat>
        ensures { result ≡ stat_of self.now }
    {
        if self.exists {
            Some(Stat {
                mtime: self.mtime,
                size: self.bytes.len() as u64,
            })
        } else {
            None
        }
    }
}

// What a write brings: a failed one its first half.
fn part_of(bytes: &[u8], ok: bool) -> &[u8]
    ensures value { result.now ≡ part_of bytes.now ok }
    ensures len { length result.now ≤ length bytes.now }
{
    if ok { bytes } else { &bytes[..bytes.len() / 2] }
}

fn reserve_up_to(content: &mut Vec<u8>, end: usize) -> Result<(), AllocError>
    ensures items { content.new.items ≡ content.old.items }
    ensures grown { vec_capacity content.old ≤ vec_capacity content.new }
    ensures ok { OnOk result (end ≤ vec_capacity content.new) }
{
    let have = content.len();
    if have < end {
        content.reserve(end - have)
    } else {
        Ok(())
    }
}
