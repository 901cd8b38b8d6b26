//! The history as its users see it.

ghost use Rattle.std.specs.Prelude.{◌≡◌, ◌≤◌, ◌<◌, ◌+◌, ◌-◌, ◌^◌, ◌↔◌, ℕ, IsTrue, true, false, length, List};
ghost use Rattle.hx_faults.specs.Faults.{Rose};
ghost use Rattle.hx_events.specs.declared.backup.TheConstants.{CONTENT_MAX};
ghost use Rattle.hx_history_laws.specs.Having.{HaveEither, HaveEntries};
ghost use Rattle.hx_history_laws.specs.Histories.{AreHistories};
ghost use Rattle.hx_history_laws.specs.Keeping.{AreKept, IsOrderly};
ghost use Rattle.hx_history_laws.specs.Kept.{joins_last, last_50, next};
ghost use Rattle.hx_history_laws.specs.PairRuns.{Moments};
ghost use Rattle.hx_history_laws.specs.Stamps.{AreOwn, IsStampedSince, NoneAbove};
ghost use Rattle.hx_history_laws.specs.States.{HistoryState};
ghost use Rattle.hx_history.specs.declared.history.Refusal.{Refusal};

use crate::halts::Halt;
use crate::parts::{ENTRIES_KEPT, Parts};
use hx_disk::Disk;
use hx_events::CONTENT_MAX;
use hx_history_laws::HistoryEntry;
use std::marker::Model;

/// The saved versions of one file on a disk of their own. Contracts see the entries that are kept, the greatest stamp that was
/// given out or found, the moment of the opening, and the disk.
///
/// Its type keeps, on a disk that tells its content, that whatever a crash leaves now has exactly these entries, and shows no
/// stamp above the greatest.
pub struct History<D: Disk> {
    parts: Parts<D>,

    /// The moment of the opening.
    opened: u64,
}

impl<D: Disk> Model for History<D> {
    ghost use Rattle.std.specs.Prelude.{IsTrue};
    ghost use Rattle.hx_history_laws.specs.Keeping.{AreKept, IsOrderly};
    ghost use Rattle.hx_history_laws.specs.Kept.{last_50};
    ghost use Rattle.hx_history_laws.specs.Stamps.{IsStampedSince};
    ghost use Rattle.hx_history_laws.specs.States.{HistoryState};

    ghost Value = { HistoryState D };

    ghost view = { λ h. record { entries = last_50 h.parts.entries.items; stamp = h.parts.vault.stamp; opened = h.opened; disk = h.parts.disk } };

    ghost invariant = { λ h. IsOrderly h.parts.entries.items h.parts.places.items h.parts.vault × (IsTrue D.tells → AreKept h.parts.entries.items h.parts.places.items h.parts.vault (D.now h.parts.disk)) × (IsTrue D.tells → IsStampedSince D.time D.past D.now h.opened h.parts.vault h.parts.disk) };
}

/// Why a save was refused.
#[derive(Clone, Copy, Debug, PartialEq, Eq)]
pub enum Refusal {
    /// The content is longer than an entry may be.
    TooLarge,

    /// No stamp is left.
    Spent,

    NoMemory,
}

/// What came of a save.
pub enum Added<D: Disk> {
    /// It is kept as a group of its own.
    Kept(History<D>),

    /// It is kept in the place of the last save of its group.
    Merged(History<D>),

    /// It isn't kept, and the entries are as before.
    Refused(History<D>, Refusal),

    /// The disk failed. Whatever a crash leaves has the entries with the save or without it.
    Faulted(D),
}

impl<D: Disk> History<D> {
    /// The history of these parts.
    pub(crate) fn of(parts: Parts<D>, opened: u64) -> History<D>
        requires orderly { IsOrderly parts.entries.items parts.places.items parts.vault }
        requires kept { IsTrue D.tells → AreKept parts.entries.items parts.places.items parts.vault (D.now parts.disk) }
        requires stamped { IsTrue D.tells → IsStampedSince D.time D.past D.now opened parts.vault parts.disk }
        ensures { result ≡ record { entries = last_50 parts.entries.items; stamp = parts.vault.stamp; opened = opened; disk = parts.disk } }
    {
        History { parts, opened }
    }

    /// The last 50 entries, in order. Whatever a crash leaves now has them, and nothing else.
    pub fn entries(&self) -> &[HistoryEntry]
        ensures entries { result.now ≡ self.now.entries }
        ensures few { length self.now.entries ≤ 50 }
        ensures kept { IsTrue D.tells → HaveEntries self.now.entries (D.now self.now.disk) }
        ensures stamps { IsTrue D.tells → NoneAbove self.now.stamp (D.now self.now.disk) }
        ensures histories { IsTrue D.tells → AreOwn (D.past self.now.disk self.now.opened) → AreHistories (D.now self.now.disk) }
    {
        let entries = self.parts.entries.as_slice();
        &entries[entries.len() - entries.len().min(ENTRIES_KEPT)..]
    }

    /// How many calls of the disk have failed.
    pub fn faults(&self) -> u64
        ensures { result ≡ D.failures self.now.disk }
    {
        self.parts.disk.faults()
    }

    /// Hands the disk out. Whatever a crash leaves of it has the entries, and nothing else.
    pub fn finish(self) -> D
        ensures disk { result ≡ self.disk }
        ensures kept { IsTrue D.tells → HaveEntries self.entries (D.now self.disk) }
        ensures stamps { IsTrue D.tells → NoneAbove self.stamp (D.now self.disk) }
        ensures histories { IsTrue D.tells → AreOwn (D.past self.disk self.opened) → AreHistories (D.now self.disk) }
    {
        let History { parts, opened: _ } = self;
        parts.into_disk()
    }

    /// Keeps a save of the file. It takes the last entry's place where it joins that one's group, and is an entry of its own
    /// otherwise.
    ///
    /// Whatever a crash inside the call leaves has the entries before it or those with the save, and nothing else.
    pub fn add(self, moment: u64, content: &[u8]) -> Added<D>
        ensures kept { (h : HistoryState D) → result ≡ Added.Kept h → (joins_last self.entries moment ≡ false) × (h.entries ≡ next self.entries (record { moment = moment; content = content.now })) }
        ensures merged { (h : HistoryState D) → result ≡ Added.Merged h → (joins_last self.entries moment ≡ true) × (h.entries ≡ next self.entries (record { moment = moment; content = content.now })) }
        ensures refused { (h : HistoryState D) (why : Refusal) → result ≡ Added.Refused h why → h.entries ≡ self.entries }
        ensures too_large { (h : HistoryState D) → result ≡ Added.Refused h Refusal.TooLarge → CONTENT_MAX < length content.now }
        ensures spent { (h : HistoryState D) → result ≡ Added.Refused h Refusal.Spent → (length content.now ≤ CONTENT_MAX) × (self.stamp ≡ 2 ^ 64 - 1) }
        ensures is_too_large { CONTENT_MAX < length content.now → (h : HistoryState D) × (result ≡ Added.Refused h Refusal.TooLarge) }
        ensures is_spent { length content.now ≤ CONTENT_MAX → self.stamp ≡ 2 ^ 64 - 1 → (h : HistoryState D) × (result ≡ Added.Refused h Refusal.Spent) }
        ensures faulted { (back : D) → result ≡ Added.Faulted back → Rose (D.failures self.disk) (D.failures back) }

        // What every image has at each moment of the call.
        ensures moments_kept { IsTrue D.tells → (h : HistoryState D) → result ≡ Added.Kept h → Moments D.time D.past (HaveEither self.entries (next self.entries (record { moment = moment; content = content.now }))) self.disk h.disk }
        ensures moments_merged { IsTrue D.tells → (h : HistoryState D) → result ≡ Added.Merged h → Moments D.time D.past (HaveEither self.entries (next self.entries (record { moment = moment; content = content.now }))) self.disk h.disk }
        ensures moments_refused { IsTrue D.tells → (h : HistoryState D) (why : Refusal) → result ≡ Added.Refused h why → Moments D.time D.past (HaveEither self.entries (next self.entries (record { moment = moment; content = content.now }))) self.disk h.disk }
        ensures moments_faulted { IsTrue D.tells → (back : D) → result ≡ Added.Faulted back → Moments D.time D.past (HaveEither self.entries (next self.entries (record { moment = moment; content = content.now }))) self.disk back }

        // Stamps and counts. What is left by a disk that failed shows no later stamp, either.
        ensures stamps_faulted { IsTrue D.tells → (back : D) → result ≡ Added.Faulted back → NoneAbove (self.stamp + 1) (D.now back) }
        ensures histories_faulted { IsTrue D.tells → (back : D) → result ≡ Added.Faulted back → AreOwn (D.past self.disk self.opened) → AreHistories (D.now back) }
        ensures later_kept { (h : HistoryState D) → result ≡ Added.Kept h → (h.stamp ≤ self.stamp + 1) × (h.opened ≡ self.opened) × (D.failures self.disk ≤ D.failures h.disk) }
        ensures later_merged { (h : HistoryState D) → result ≡ Added.Merged h → (h.stamp ≤ self.stamp + 1) × (h.opened ≡ self.opened) × (D.failures self.disk ≤ D.failures h.disk) }
        ensures later_refused { (h : HistoryState D) (why : Refusal) → result ≡ Added.Refused h why → (h.stamp ≤ self.stamp + 1) × (h.opened ≡ self.opened) × (D.failures self.disk ≤ D.failures h.disk) }
    {
        let History { mut parts, opened } = self;
        if content.len() as u64 > CONTENT_MAX {
            return Added::Refused(History { parts, opened }, Refusal::TooLarge);
        }
        if parts.vault.is_spent() {
            return Added::Refused(History { parts, opened }, Refusal::Spent);
        }
        match parts.save(moment, content) {
            Ok(true) => Added::Merged(History { parts, opened }),
            Ok(false) => Added::Kept(History { parts, opened }),
            Err(Halt::NoMemory) => Added::Refused(History { parts, opened }, Refusal::NoMemory),
            Err(Halt::Fault) => Added::Faulted(parts.into_disk()),
        }
    }
}
