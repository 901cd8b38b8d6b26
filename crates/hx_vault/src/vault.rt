ghost use Rattle.std.specs.Prelude.{MatchOption, slice_index_or, ◌≢◌, List, [], ◌++◌, ◌≡◌, ◌≤◌, ◌<◌, ◌+◌, ◌-◌, ◌^◌, ◌↔◌, if◌then◌else◌, ℕ, IsTrue, true, false, length, Option, Some, None, OnOk, OnErr, IsSome};
ghost use Rattle.hx_faults.specs.Faults.{HasCause};
ghost use Rattle.hx_disk.specs.Disk.{Through, ChangesNothing, UsesCalls};
ghost use Rattle.hx_slots.specs.Frames.{Frame};
ghost use Rattle.hx_slots.specs.Files.{file_of};
ghost use Rattle.hx_vault.specs.Sides.{SideState, Shut, Still, IsSide, IsFrame, WhereKnown, IsQuietFile, loosened};
ghost use Rattle.hx_vault.specs.Vaults.{adopted, pair_at, with_pair, raised, away_of, away_file, home_file, is_shut, with_shut, with_put, rehomed, place_of, with_use};
ghost use Rattle.hx_vault.specs.declared.pair.PairUse.TheVariants.{Free, Taken};
ghost use Rattle.hx_events.specs.declared.backup.Side.{Side};
ghost use Rattle.hx_events.specs.declared.backup.PairFound.TheVariants.{Empty};
ghost use Rattle.hx_slots.specs.Gate.{IsAnyState, Shows};

use crate::pair::{Pair, PairUse};
use crate::sides::{adopted_as, away, begun, knows_shut, marked, moved, used_for};
use hx_disk::{Disk, DiskFailed};
use hx_events::{PairFound, PairNo, Side};
use hx_slots::{close_gate, open_gate, put_block, slot_file};
use std::alloc::AllocError;
use std::marker::Model;

/// The pairs of a vault, and the greatest stamp that was given out.
#[derive(Drop)]
pub struct Vault {
    pairs: Vec<Pair>,
    stamp: u64,
}

impl Model for Vault {
    ghost use Rattle.std.specs.Prelude.{◌≡◌, length};
    ghost use Rattle.hx_vault.specs.Vaults.{VaultState};

    ghost Value = { VaultState };

    ghost view = { λ v. record { pairs = v.pairs.items; stamp = v.stamp } };

    ghost invariant = { λ v. length v.pairs.items ≡ 64 };
}

impl Vault {
    /// The vault of which this is known.
    pub fn known(pairs: Vec<Pair>, stamp: u64) -> Vault
        requires { length pairs.items ≡ 64 }
        ensures { result ≡ record { pairs = pairs.items; stamp = stamp } }
    {
        Vault { pairs, stamp }
    }

    fn pair(&self, pair: PairNo) -> Pair
        ensures value { result ≡ pair_at self.now pair }
        ensures count { length self.now.pairs ≡ 64 }
    {
        self.pairs[pair.number() as usize]
    }

    fn set_pair(&mut self, pair: PairNo, value: Pair)
        ensures { self.new ≡ with_pair self.old pair value }
    {
        self.pairs[pair.number() as usize] = value;
    }

    fn raise(&mut self)
        requires { self.old.stamp < 2 ^ 64 - 1 }
        ensures { self.new ≡ raised self.old }
    {
        self.stamp += 1;
    }

    // Closes a side, unless it is known closed. What is begun behind the gate is then so long.
    fn close<D: Disk>(
        &mut self,
        disk: &mut D,
        pair: PairNo,
        side: Side,
        put: Option<u64>,
    ) -> Result<(), DiskFailed>
        requires room_file { (D.room disk.old).file ≡ file_of pair side }
        requires room_end { 1 ≤ (D.room disk.old).end }
        requires room_calls { 2 ≤ (D.room disk.old).calls }
        ensures ok { OnOk result (self.new ≡ with_pair self.old pair (with_put (with_shut (pair_at self.old pair) side true) put)) }
        ensures err { OnErr result (self.new ≡ with_pair self.old pair (with_put (pair_at self.old pair) None)) }
        ensures closed { IsTrue D.tells → WhereKnown (is_shut (pair_at self.old pair) side) (D.now disk.old (file_of pair side)) (λ s. OnOk result (IsSide (Shut []) (D.now disk.new (file_of pair side)))) }
        ensures nothing { IsTrue D.tells → WhereKnown (is_shut (pair_at self.old pair) side) (D.now disk.old (file_of pair side)) (λ s. OnOk result (Shows None (D.now disk.new (file_of pair side)))) }
        ensures each { IsTrue D.tells → WhereKnown (is_shut (pair_at self.old pair) side) (D.now disk.old (file_of pair side)) (λ s. Through D.time D.past (file_of pair side) (IsSide (loosened s)) disk.old disk.new) }
        ensures runs { Through D.time D.past (file_of pair side) IsAnyState disk.old disk.new }
        ensures room { UsesCalls 2 (D.room disk.old) (D.room disk.new) }
        ensures cause { HasCause (D.failures disk.old) (D.failures disk.new) result }
    {
        let old = self.pair(pair);
        if !knows_shut(old, side) {
            match close_gate(disk, slot_file(pair, side)) {
                Ok(()) => {}
                Err(error) => {
                    self.set_pair(pair, begun(old, None));
                    return Err(error);
                }
            }
        }
        self.set_pair(pair, begun(marked(old, side, true), put));
        Ok(())
    }

    /// Closes the side that isn't home, to write a backup there, and gives out the next stamp, whether the closing succeeds or
    /// fails. Where that side is known closed there is no call of the disk. After a failure what is known closed is as before.
    pub fn prepare<D: Disk>(&mut self, disk: &mut D, pair: PairNo) -> Result<(), DiskFailed>
        requires taken { (pair_at self.old pair).used ≡ Taken }
        requires unspent { self.old.stamp < 2 ^ 64 - 1 }
        requires room_file { (D.room disk.old).file ≡ away_file self.old pair }
        requires room_end { 1 ≤ (D.room disk.old).end }
        requires room_calls { 2 ≤ (D.room disk.old).calls }
        ensures ok { OnOk result (self.new ≡ with_pair (raised self.old) pair (with_put (with_shut (pair_at self.old pair) (away_of (pair_at self.old pair)) true) (Some 0))) }
        ensures err { OnErr result (self.new ≡ with_pair (raised self.old) pair (with_put (pair_at self.old pair) None)) }

        // What is known of the side after it was closed, and at each moment of the call.
        ensures closed { IsTrue D.tells → WhereKnown (is_shut (pair_at self.old pair) (away_of (pair_at self.old pair))) (D.now disk.old (away_file self.old pair)) (λ s. OnOk result (IsSide (Shut []) (D.now disk.new (away_file self.old pair)))) }
        ensures nothing { IsTrue D.tells → WhereKnown (is_shut (pair_at self.old pair) (away_of (pair_at self.old pair))) (D.now disk.old (away_file self.old pair)) (λ s. OnOk result (Shows None (D.now disk.new (away_file self.old pair)))) }
        ensures each { IsTrue D.tells → WhereKnown (is_shut (pair_at self.old pair) (away_of (pair_at self.old pair))) (D.now disk.old (away_file self.old pair)) (λ s. Through D.time D.past (away_file self.old pair) (IsSide (loosened s)) disk.old disk.new) }
        ensures runs { Through D.time D.past (away_file self.old pair) IsAnyState disk.old disk.new }
        ensures room { UsesCalls 2 (D.room disk.old) (D.room disk.new) }
        ensures cause { HasCause (D.failures disk.old) (D.failures disk.new) result }
    {
        let side = away(self.pair(pair));
        self.raise();
        self.close(disk, pair, side, Some(0))
    }

    /// Closes the side that isn't home, which begins a discard: the older side goes first, so that a crash between the two
    /// leaves the newest backup. Where that side is known closed there is no call of the disk.
    pub fn fade<D: Disk>(&mut self, disk: &mut D, pair: PairNo) -> Result<(), DiskFailed>
        requires taken { (pair_at self.old pair).used ≡ Taken }
        requires room_file { (D.room disk.old).file ≡ away_file self.old pair }
        requires room_end { 1 ≤ (D.room disk.old).end }
        requires room_calls { 2 ≤ (D.room disk.old).calls }
        ensures ok { OnOk result (self.new ≡ with_pair self.old pair (with_put (with_shut (pair_at self.old pair) (away_of (pair_at self.old pair)) true) None)) }
        ensures err { OnErr result (self.new ≡ with_pair self.old pair (with_put (pair_at self.old pair) None)) }
        ensures closed { IsTrue D.tells → WhereKnown (is_shut (pair_at self.old pair) (away_of (pair_at self.old pair))) (D.now disk.old (away_file self.old pair)) (λ s. OnOk result (IsSide (Shut []) (D.now disk.new (away_file self.old pair)))) }
        ensures nothing { IsTrue D.tells → WhereKnown (is_shut (pair_at self.old pair) (away_of (pair_at self.old pair))) (D.now disk.old (away_file self.old pair)) (λ s. OnOk result (Shows None (D.now disk.new (away_file self.old pair)))) }
        ensures each { IsTrue D.tells → WhereKnown (is_shut (pair_at self.old pair) (away_of (pair_at self.old pair))) (D.now disk.old (away_file self.old pair)) (λ s. Through D.time D.past (away_file self.old pair) (IsSide (loosened s)) disk.old disk.new) }
        ensures runs { Through D.time D.past (away_file self.old pair) IsAnyState disk.old disk.new }
        ensures room { UsesCalls 2 (D.room disk.old) (D.room disk.new) }
        ensures cause { HasCause (D.failures disk.old) (D.failures disk.new) result }
    {
        let older = away(self.pair(pair));
        self.close(disk, pair, older, None)
    }

    /// Closes the home side, which completes a discard. The pair keeps its home.
    pub fn drop_newest<D: Disk>(&mut self, disk: &mut D, pair: PairNo) -> Result<(), DiskFailed>
        requires taken { (pair_at self.old pair).used ≡ Taken }
        requires room_file { (D.room disk.old).file ≡ home_file self.old pair }
        requires room_end { 1 ≤ (D.room disk.old).end }
        requires room_calls { 2 ≤ (D.room disk.old).calls }
        ensures ok { OnOk result (self.new ≡ with_pair self.old pair (with_put (with_shut (pair_at self.old pair) (pair_at self.old pair).home true) None)) }
        ensures err { OnErr result (self.new ≡ with_pair self.old pair (with_put (pair_at self.old pair) None)) }
        ensures closed { IsTrue D.tells → WhereKnown (is_shut (pair_at self.old pair) (pair_at self.old pair).home) (D.now disk.old (home_file self.old pair)) (λ s. OnOk result (IsSide (Shut []) (D.now disk.new (home_file self.old pair)))) }
        ensures nothing { IsTrue D.tells → WhereKnown (is_shut (pair_at self.old pair) (pair_at self.old pair).home) (D.now disk.old (home_file self.old pair)) (λ s. OnOk result (Shows None (D.now disk.new (home_file self.old pair)))) }
        ensures each { IsTrue D.tells → WhereKnown (is_shut (pair_at self.old pair) (pair_at self.old pair).home) (D.now disk.old (home_file self.old pair)) (λ s. Through D.time D.past (home_file self.old pair) (IsSide (loosened s)) disk.old disk.new) }
        ensures runs { Through D.time D.past (home_file self.old pair) IsAnyState disk.old disk.new }
        ensures room { UsesCalls 2 (D.room disk.old) (D.room disk.new) }
        ensures cause { HasCause (D.failures disk.old) (D.failures disk.new) result }
    {
        let newest = self.pair(pair).home;
        self.close(disk, pair, newest, None)
    }

    /// Puts a block of a frame behind those that were put since the last `prepare`, whose gate is known closed.
    ///
    /// After a failure the gate is still known closed, and the frame has to be begun anew by a `prepare`.
    pub fn body<D: Disk>(
        &mut self,
        disk: &mut D,
        pair: PairNo,
        block: &[u8],
    ) -> Result<(), DiskFailed>
        requires taken { (pair_at self.old pair).used ≡ Taken }
        requires prepared { IsSome (pair_at self.old pair).put }
        requires small { place_of (pair_at self.old pair) + length block.now < 2 ^ 32 }
        requires side { IsTrue D.tells → (put : List ℕ) × (length put ≡ place_of (pair_at self.old pair)) × IsSide (Shut put) (D.now disk.old (away_file self.old pair)) }
        requires room_file { (D.room disk.old).file ≡ away_file self.old pair }
        requires room_end { 1 + place_of (pair_at self.old pair) + length block.now ≤ (D.room disk.old).end }
        requires room_calls { 2 ≤ (D.room disk.old).calls }
        ensures ok { OnOk result (self.new ≡ with_pair self.old pair (with_put (pair_at self.old pair) (Some (place_of (pair_at self.old pair) + length block.now)))) }
        ensures err { OnErr result (self.new ≡ with_pair self.old pair (with_put (pair_at self.old pair) None)) }
        ensures done { IsTrue D.tells → (put : List ℕ) → length put ≡ place_of (pair_at self.old pair) → IsSide (Shut put) (D.now disk.old (away_file self.old pair)) → OnOk result (IsSide (Shut (put ++ block.now)) (D.now disk.new (away_file self.old pair))) }
        ensures each { IsTrue D.tells → Through D.time D.past (away_file self.old pair) (IsSide (Shut [])) disk.old disk.new }
        ensures runs { Through D.time D.past (away_file self.old pair) IsAnyState disk.old disk.new }
        ensures room { UsesCalls 2 (D.room disk.old) (D.room disk.new) }
        ensures cause { HasCause (D.failures disk.old) (D.failures disk.new) result }
    {
        let old = self.pair(pair);
        let side = away(old);
        let place = match old.put {
            Some(place) => place,
            None => unreachable!(),
        };
        match put_block(disk, slot_file(pair, side), 1 + place, block) {
            Ok(()) => {
                self.set_pair(pair, begun(old, Some(place + block.len() as u64)));
                Ok(())
            }
            Err(error) => {
                self.set_pair(pair, begun(old, None));
                Err(error)
            }
        }
    }

    /// Opens the side that isn't home, behind whose gate a whole frame stands. After `Ok` it is home, and a crash leaves the
    /// frame. After a failure the home is as before, the gate isn't known closed, and a crash leaves the frame or nothing
    /// on that side.
    pub fn open_gate<D: Disk>(&mut self, disk: &mut D, pair: PairNo) -> Result<(), DiskFailed>
        requires taken { (pair_at self.old pair).used ≡ Taken }
        requires room_file { (D.room disk.old).file ≡ away_file self.old pair }
        requires room_end { 1 ≤ (D.room disk.old).end }
        requires room_calls { 2 ≤ (D.room disk.old).calls }
        ensures ok { OnOk result (self.new ≡ with_pair self.old pair (rehomed (pair_at self.old pair) (away_of (pair_at self.old pair)))) }
        ensures err { OnErr result (self.new ≡ with_pair self.old pair (with_shut (pair_at self.old pair) (away_of (pair_at self.old pair)) false)) }
        ensures opened { IsTrue D.tells → (put : List ℕ) (frame : Frame) → IsSide (Shut put) (D.now disk.old (away_file self.old pair)) → IsFrame put frame → OnOk result (IsSide (Still (Some frame) true) (D.now disk.new (away_file self.old pair))) }
        ensures shows { IsTrue D.tells → (put : List ℕ) (frame : Frame) → IsSide (Shut put) (D.now disk.old (away_file self.old pair)) → IsFrame put frame → OnOk result (Shows (Some frame) (D.now disk.new (away_file self.old pair))) }
        ensures each { IsTrue D.tells → (put : List ℕ) (frame : Frame) → IsSide (Shut put) (D.now disk.old (away_file self.old pair)) → IsFrame put frame → Through D.time D.past (away_file self.old pair) (IsSide (Still (Some frame) false)) disk.old disk.new }
        ensures runs { Through D.time D.past (away_file self.old pair) IsAnyState disk.old disk.new }
        ensures room { UsesCalls 2 (D.room disk.old) (D.room disk.new) }
        ensures cause { HasCause (D.failures disk.old) (D.failures disk.new) result }
    {
        let old = self.pair(pair);
        let side = away(old);
        match open_gate(disk, slot_file(pair, side)) {
            Ok(()) => {
                self.set_pair(pair, moved(old, side));
                Ok(())
            }
            Err(error) => {
                self.set_pair(pair, marked(old, side, false));
                Err(error)
            }
        }
    }

    /// Makes the room for one stage that writes no further than `end`: for `drop_newest` where `newest` is true, else for one
    /// of the others. It fails only for want of memory.
    pub fn reserve<D: Disk>(
        &mut self,
        disk: &mut D,
        pair: PairNo,
        newest: bool,
        end: u64,
    ) -> Result<(), AllocError>
        ensures same { self.new ≡ self.old }
        ensures room { OnOk result (D.room disk.new ≡ record { file = if newest then home_file self.old pair else away_file self.old pair; end = end; calls = 2 }) }
        ensures room_err { OnErr result (D.room disk.new ≡ D.room disk.old) }
        ensures unchanged { ChangesNothing D.time D.past D.now disk.old disk.new }
        ensures faults { D.failures disk.new ≡ D.failures disk.old }
    {
        let old = self.pair(pair);
        let side = if newest { old.home } else { away(old) };
        disk.reserve(slot_file(pair, side), end, 2)
    }

    /// Gives each pair its use by what was found in it: an empty one is free, with side A as its home, one with a backup is
    /// taken, with that backup's side as its home, and any other is barred for good.
    pub fn adopt(&mut self, found: &[PairFound])
        requires { length found.now ≡ 64 }
        ensures count { length self.new.pairs ≡ length self.old.pairs }
        ensures pairs { (p : ℕ) → p < 64 → pair_at self.new p ≡ adopted (slice_index_or found.now p Empty) (pair_at self.old p) }
        ensures stamp { self.new.stamp ≡ self.old.stamp }
    {
        for number in 0..64 {
            let pair = PairNo::new(number);
            let old = self.pair(pair);
            self.set_pair(pair, adopted_as(&found[number as usize], old));
        }
    }

    /// Whether no stamp is left.
    pub fn is_spent(&self) -> bool
        ensures spent { IsTrue result ↔ self.now.stamp ≡ 2 ^ 64 - 1 }
        ensures left { result ≡ false → self.now.stamp < 2 ^ 64 - 1 }
    {
        self.stamp == u64::MAX
    }

    /// What the pair serves.
    pub fn use_of(&self, pair: PairNo) -> PairUse
        ensures { result ≡ (pair_at self.now pair).used }
    {
        self.pair(pair).used
    }

    /// How many bytes were put behind the gate since the last `prepare`.
    pub fn place(&self, pair: PairNo) -> u64
        ensures { result ≡ place_of (pair_at self.now pair) }
    {
        self.pair(pair).put.unwrap_or(0)
    }

    /// The greatest stamp that was given out.
    pub fn stamp(&self) -> u64
        ensures { result ≡ self.now.stamp }
    {
        self.stamp
    }

    /// Gives a free pair to a resource.
    pub fn take(&mut self, pair: PairNo)
        requires free { (pair_at self.old pair).used ≡ Free }
        ensures { self.new ≡ with_pair self.old pair (with_use (pair_at self.old pair) Taken) }
    {
        let old = self.pair(pair);
        self.set_pair(pair, used_for(old, PairUse::Taken));
    }

    /// Takes back the pair of a resource. Nothing shows in it, and a torn write of a gate wouldn't show anything either. It keeps
    /// its home and what is known closed.
    pub fn release<D: Disk>(&mut self, disk: &D, pair: PairNo)
        requires taken { (pair_at self.old pair).used ≡ Taken }
        requires quiet { IsTrue D.tells → (side : Side) → IsQuietFile (is_shut (pair_at self.old pair) side) (D.now disk.now (file_of pair side)) }
        ensures { self.new ≡ with_pair self.old pair (with_use (pair_at self.old pair) Free) }
    {
        let _ = disk;
        let old = self.pair(pair);
        self.set_pair(pair, used_for(old, PairUse::Free));
    }

    /// The lowest free pair.
    pub fn free(&self) -> Option<PairNo>
        ensures { MatchOption result ((p : ℕ) → p < 64 → (pair_at self.now p).used ≢ Free) (λ p. ((pair_at self.now p).used ≡ Free) × ((q : ℕ) → q < p → (pair_at self.now q).used ≢ Free)) }
    {
        for number in 0..64 {
            let pair = PairNo::new(number);
            match self.pair(pair).used {
                PairUse::Free => return Some(pair),
                PairUse::Taken | PairUse::Barred => {}
            }
        }
        None
    }
}
