//! The parts of a history, and the events on them.

ghost use Rattle.std.specs.Prelude.{◌≡◌, ◌≢◌, ◌≤◌, ◌<◌, ◌+◌, ◌-◌, ◌^◌, ◌++◌, IsTrue, IsErrOf, [], ◌∷◌, length, drop, true, IfOk, OnOk, OnErr, Bool};
ghost use Rattle.std.proofs.Common.{set};
ghost use Rattle.hx_faults.specs.Faults.{Rose};
ghost use Rattle.hx_events.specs.declared.backup.TheConstants.{CONTENT_MAX};
ghost use Rattle.hx_history.specs.declared.halts.Halt.TheVariants.{Fault, NoMemory};
ghost use Rattle.hx_history_laws.specs.Having.{HaveEither, HaveEntries};
ghost use Rattle.hx_history_laws.specs.Keeping.{AreKept, IsOrderly};
ghost use Rattle.hx_history_laws.specs.Kept.{joins_last, last_50, last_number, next, next_number};
ghost use Rattle.hx_history_laws.specs.PairRuns.{Moments};
ghost use Rattle.hx_history_laws.specs.Placed.{place_at};
ghost use Rattle.hx_history_laws.specs.Stamps.{AreStamped};

use crate::backing::{back_up, empty};
use crate::halts::Halt;
use hx_disk::Disk;
use hx_events::{Bytes, PairNo};
use hx_history_laws::HistoryEntry;
use hx_vault::Vault;
use std::alloc::{AllocError, Global};

/// How many entries are kept.
pub const ENTRIES_KEPT: usize = 50;

/// A disk with its vault, and the entries that stand in it, in order, with the pair of each. The first of 51 is to be emptied.
pub struct Parts<D> {
    pub alloc: Global,
    pub disk: D,
    pub vault: Vault,
    pub entries: Vec<HistoryEntry>,
    pub places: Vec<PairNo>,
}

// The number of a new group.
fn number_behind(entries: &[HistoryEntry]) -> u64
    requires { next_number entries.now < 2 ^ 64 }
    ensures { result ≡ next_number entries.now }
{
    match entries.last() {
        Some(last) => last.number + 1,
        None => 1,
    }
}

// Whether a save of this moment joins the last entry's group.
fn does_join(entries: &[HistoryEntry], moment: u64) -> bool
    ensures { result ≡ joins_last entries.now moment }
{
    match entries.last() {
        Some(last) => last.moment <= moment && moment - last.moment < 10_000,
        None => false,
    }
}

impl<D: Disk> Parts<D> {
    /// Empties the pair of the first of 51 entries.
    pub fn empty_first(&mut self) -> Result<(), Halt>
        requires orderly { IsOrderly self.old.entries.items self.old.places.items self.old.vault }
        requires kept { IsTrue D.tells → AreKept self.old.entries.items self.old.places.items self.old.vault (D.now self.old.disk) }
        requires full { length self.old.entries.items ≡ 51 }
        ensures entries { OnOk result (self.new.entries.items ≡ drop 1 self.old.entries.items) }
        ensures left { OnErr result (self.new.entries.items ≡ self.old.entries.items) }
        ensures stamp { self.new.vault.stamp ≡ self.old.vault.stamp }
        ensures orderly { IsOrderly self.new.entries.items self.new.places.items self.new.vault }
        ensures kept { IsTrue D.tells → AreKept self.new.entries.items self.new.places.items self.new.vault (D.now self.new.disk) }
        ensures moments { IsTrue D.tells → Moments D.time D.past (HaveEntries (last_50 self.old.entries.items)) self.old.disk self.new.disk }
        ensures stamps { IsTrue D.tells → (own : Bool) → AreStamped own self.old.vault (D.now self.old.disk) → AreStamped own self.new.vault (D.now self.new.disk) }
        ensures fault { IsErrOf result Halt.Fault → Rose (D.failures self.old.disk) (D.failures self.new.disk) }
        ensures no_fault { OnOk result (D.failures self.new.disk ≡ D.failures self.old.disk) }
        ensures later { D.failures self.old.disk ≤ D.failures self.new.disk }
    {
        let pair = self.places[0];
        empty(&mut self.disk, &mut self.vault, pair)?;
        let _ = self.entries.remove(0);
        let _ = self.places.remove(0);
        Ok(())
    }

    /// Writes the save as a group of its own, in a free pair.
    pub fn add_group(&mut self, moment: u64, content: &[u8]) -> Result<u64, Halt>
        requires orderly { IsOrderly self.old.entries.items self.old.places.items self.old.vault }
        requires kept { IsTrue D.tells → AreKept self.old.entries.items self.old.places.items self.old.vault (D.now self.old.disk) }
        requires few { length self.old.entries.items ≤ 50 }
        requires unspent { self.old.vault.stamp < 2 ^ 64 - 1 }
        requires small { length content.now ≤ CONTENT_MAX }
        ensures number { IfOk result (λ number. number ≡ next_number self.old.entries.items) }
        ensures entries { OnOk result (self.new.entries.items ≡ self.old.entries.items ++ record { number = next_number self.old.entries.items; moment = moment; content = content.now } ∷ []) }
        ensures left { IsErrOf result Halt.NoMemory → self.new.entries.items ≡ self.old.entries.items }
        ensures stamp { self.new.vault.stamp ≤ self.old.vault.stamp + 1 }
        ensures orderly { OnOk result (IsOrderly self.new.entries.items self.new.places.items self.new.vault) }
        ensures orderly_left { IsErrOf result Halt.NoMemory → IsOrderly self.new.entries.items self.new.places.items self.new.vault }
        ensures kept { IsTrue D.tells → OnOk result (AreKept self.new.entries.items self.new.places.items self.new.vault (D.now self.new.disk)) }
        ensures kept_left { IsTrue D.tells → IsErrOf result Halt.NoMemory → AreKept self.new.entries.items self.new.places.items self.new.vault (D.now self.new.disk) }
        ensures moments { IsTrue D.tells → Moments D.time D.past (HaveEither (last_50 self.old.entries.items) (last_50 (self.old.entries.items ++ record { number = next_number self.old.entries.items; moment = moment; content = content.now } ∷ []))) self.old.disk self.new.disk }
        ensures stamps { IsTrue D.tells → (own : Bool) → AreStamped own self.old.vault (D.now self.old.disk) → AreStamped own self.new.vault (D.now self.new.disk) }
        ensures fault { IsErrOf result Halt.Fault → Rose (D.failures self.old.disk) (D.failures self.new.disk) }
        ensures no_fault { OnOk result (D.failures self.new.disk ≡ D.failures self.old.disk) }
        ensures later { D.failures self.old.disk ≤ D.failures self.new.disk }
    {
        let number = number_behind(&self.entries);
        let copy = Bytes::new(Vec::from_slice(self.alloc, content)?);
        self.entries.reserve(1)?;
        self.places.reserve(1)?;
        let Some(pair) = self.vault.free() else {
            unreachable!()
        };
        self.vault.take(pair);
        match back_up(
            self.alloc,
            &mut self.disk,
            &mut self.vault,
            pair,
            number,
            moment,
            content,
        ) {
            Ok(()) => {
                self.entries.push_reserved(HistoryEntry {
                    number,
                    moment,
                    content: copy,
                });
                self.places.push_reserved(pair);
                Ok(number)
            }
            Err(Halt::NoMemory) => {
                self.vault.release(&self.disk, pair);
                Err(Halt::NoMemory)
            }
            Err(Halt::Fault) => Err(Halt::Fault),
        }
    }

    // The pair of this entry.
    fn pair_at(&self, place: usize) -> PairNo
        requires { place < length self.now.places.items }
        ensures { result ≡ place_at self.now.places.items place }
    {
        self.places[place]
    }

    /// Writes the save in the last entry's place.
    pub fn merge(&mut self, moment: u64, content: &[u8]) -> Result<u64, Halt>
        requires orderly { IsOrderly self.old.entries.items self.old.places.items self.old.vault }
        requires kept { IsTrue D.tells → AreKept self.old.entries.items self.old.places.items self.old.vault (D.now self.old.disk) }
        requires few { length self.old.entries.items ≤ 50 }
        requires some { 0 < length self.old.entries.items }
        requires unspent { self.old.vault.stamp < 2 ^ 64 - 1 }
        requires small { length content.now ≤ CONTENT_MAX }
        ensures number { IfOk result (λ number. number ≡ last_number self.old.entries.items) }
        ensures entries { OnOk result (self.new.entries.items ≡ set self.old.entries.items (length self.old.entries.items - 1) (record { number = last_number self.old.entries.items; moment = moment; content = content.now })) }
        ensures left { IsErrOf result Halt.NoMemory → self.new.entries.items ≡ self.old.entries.items }
        ensures stamp { self.new.vault.stamp ≤ self.old.vault.stamp + 1 }
        ensures orderly { OnOk result (IsOrderly self.new.entries.items self.new.places.items self.new.vault) }
        ensures orderly_left { IsErrOf result Halt.NoMemory → IsOrderly self.new.entries.items self.new.places.items self.new.vault }
        ensures kept { IsTrue D.tells → OnOk result (AreKept self.new.entries.items self.new.places.items self.new.vault (D.now self.new.disk)) }
        ensures kept_left { IsTrue D.tells → IsErrOf result Halt.NoMemory → AreKept self.new.entries.items self.new.places.items self.new.vault (D.now self.new.disk) }
        ensures moments { IsTrue D.tells → Moments D.time D.past (HaveEither (last_50 self.old.entries.items) (last_50 (set self.old.entries.items (length self.old.entries.items - 1) (record { number = last_number self.old.entries.items; moment = moment; content = content.now })))) self.old.disk self.new.disk }
        ensures stamps { IsTrue D.tells → (own : Bool) → AreStamped own self.old.vault (D.now self.old.disk) → AreStamped own self.new.vault (D.now self.new.disk) }
        ensures fault { IsErrOf result Halt.Fault → Rose (D.failures self.old.disk) (D.failures self.new.disk) }
        ensures no_fault { OnOk result (D.failures self.new.disk ≡ D.failures self.old.disk) }
        ensures later { D.failures self.old.disk ≤ D.failures self.new.disk }
    {
        let last = self.entries.len() - 1;
        let number = self.entries[last].number;
        let copy = Bytes::new(Vec::from_slice(self.alloc, content)?);
        let pair = self.pair_at(last);
        back_up(
            self.alloc,
            &mut self.disk,
            &mut self.vault,
            pair,
            number,
            moment,
            content,
        )?;
        self.entries[last] = HistoryEntry {
            number,
            moment,
            content: copy,
        };
        Ok(number)
    }

    /// Ends what an earlier save or a crash has left: of 51 entries the first is emptied.
    pub fn catch_up(&mut self) -> Result<(), Halt>
        requires orderly { IsOrderly self.old.entries.items self.old.places.items self.old.vault }
        requires kept { IsTrue D.tells → AreKept self.old.entries.items self.old.places.items self.old.vault (D.now self.old.disk) }
        ensures done { OnOk result (self.new.entries.items ≡ last_50 self.old.entries.items) }
        ensures same { last_50 self.new.entries.items ≡ last_50 self.old.entries.items }
        ensures stamp { self.new.vault.stamp ≡ self.old.vault.stamp }
        ensures orderly { IsOrderly self.new.entries.items self.new.places.items self.new.vault }
        ensures kept { IsTrue D.tells → AreKept self.new.entries.items self.new.places.items self.new.vault (D.now self.new.disk) }
        ensures moments { IsTrue D.tells → Moments D.time D.past (HaveEntries (last_50 self.old.entries.items)) self.old.disk self.new.disk }
        ensures stamps { IsTrue D.tells → (own : Bool) → AreStamped own self.old.vault (D.now self.old.disk) → AreStamped own self.new.vault (D.now self.new.disk) }
        ensures fault { IsErrOf result Halt.Fault → Rose (D.failures self.old.disk) (D.failures self.new.disk) }
        ensures later { D.failures self.old.disk ≤ D.failures self.new.disk }
    {
        let count = self.entries.len();
        if count <= ENTRIES_KEPT {
            return Ok(());
        }
        self.empty_first()
    }

    /// Keeps the save, and says whether it joined the last entry's group.
    ///
    /// The first of 51 entries is emptied only after the new one was opened; where that fails the save is kept all the same.
    pub fn save(&mut self, moment: u64, content: &[u8]) -> Result<bool, Halt>
        requires orderly { IsOrderly self.old.entries.items self.old.places.items self.old.vault }
        requires kept { IsTrue D.tells → AreKept self.old.entries.items self.old.places.items self.old.vault (D.now self.old.disk) }
        requires unspent { self.old.vault.stamp < 2 ^ 64 - 1 }
        requires small { length content.now ≤ CONTENT_MAX }
        ensures joined { IfOk result (λ joined. joined ≡ joins_last (last_50 self.old.entries.items) moment) }
        ensures saved { OnOk result (last_50 self.new.entries.items ≡ next (last_50 self.old.entries.items) (record { moment = moment; content = content.now })) }
        ensures left { IsErrOf result Halt.NoMemory → last_50 self.new.entries.items ≡ last_50 self.old.entries.items }
        ensures stamp { self.new.vault.stamp ≤ self.old.vault.stamp + 1 }
        ensures orderly { OnOk result (IsOrderly self.new.entries.items self.new.places.items self.new.vault) }
        ensures orderly_left { IsErrOf result Halt.NoMemory → IsOrderly self.new.entries.items self.new.places.items self.new.vault }
        ensures kept { IsTrue D.tells → OnOk result (AreKept self.new.entries.items self.new.places.items self.new.vault (D.now self.new.disk)) }
        ensures kept_left { IsTrue D.tells → IsErrOf result Halt.NoMemory → AreKept self.new.entries.items self.new.places.items self.new.vault (D.now self.new.disk) }
        ensures moments { IsTrue D.tells → Moments D.time D.past (HaveEither (last_50 self.old.entries.items) (next (last_50 self.old.entries.items) (record { moment = moment; content = content.now }))) self.old.disk self.new.disk }
        ensures stamps { IsTrue D.tells → (own : Bool) → AreStamped own self.old.vault (D.now self.old.disk) → AreStamped own self.new.vault (D.now self.new.disk) }
        ensures fault { IsErrOf result Halt.Fault → Rose (D.failures self.old.disk) (D.failures self.new.disk) }
        ensures later { D.failures self.old.disk ≤ D.failures self.new.disk }
    {
        self.catch_up()?;
        if does_join(&self.entries, moment) {
            self.merge(moment, content)?;
            return Ok(true);
        }
        self.add_group(moment, content)?;
        let _ = self.catch_up();
        Ok(false)
    }

    /// Hands the disk out.
    pub fn into_disk(self) -> D
        ensures { result ≡ self.disk }
    {
        let Parts {
            alloc: _,
            disk,
            vault: _,
            entries: _,
            places: _,
        } = self;
        disk
    }
}
