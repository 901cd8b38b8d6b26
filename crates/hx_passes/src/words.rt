//! The two words, with one method for each kind of step. Each says the whole view that the step leaves.

ghost use Rattle.std.specs.Prelude.{◌≡◌, ◌<◌, ◌≤◌, ◌^◌, [], false, true, length};
ghost use mathlib.Core.List.{IsPrefix};
ghost use Rattle.hx_passes.specs.Rules.{LooksAt};
ghost use Rattle.hx_passes.specs.Views.{both, clerk_of, departed, grown, in_lock, noting, parts_left, parts_moved, slip, without_right};
ghost use Rattle.hx_passes.specs.Closing.{Ends, TakesIn};

use crate::rule::{
    Add, Both, Counting, Cut, Depart, Finding, Finds, HandOver, Law, Look, Notes, Opening, Saying,
    View,
};
use atomic_table::{Seat, Table};
use hx_events::Entry;
use std::alloc::Global;
use std::marker::PhantomData;

/// Which shared history it is. Each call of a program picks it, and contracts alone see it.
pub trait Naming {
    ghost use Rattle.atomic_table.specs.Seated.{TableId};
    ghost use Rattle.hx_events.specs.declared.life.Entry.{Entry};
    ghost use Rattle.hx_passes.specs.declared.rule.Finding.{Finding};
    ghost use Rattle.std.specs.Prelude.{ℕ, List};

    ghost table: { TableId };

    /// The history that is there at the beginning, the oldest entry first.
    ghost before: { List Entry };

    ghost parts: { ℕ };

    /// How many windows are to leave.
    ghost windows: { ℕ };

    /// What a finding says of the history after which it was made.
    ghost says: { Finding → List Entry → Type 0 };
}

/// The words that all threads share: the length of the history, and how many passes have left.
#[derive(Drop)]
pub(crate) struct Words<J: Naming> {
    table: Table<(), View, Opening, Law, Global>,
    of: PhantomData<J>,
    ghost table_is: { table.shared.table_id ≡ J.table },
    ghost words: { table.shared.table_id.words ≡ 2 },
    ghost slots: { table.shared.table_id.slots ≡ 0 },
    ghost before: { table.shared.key.before.items ≡ J.before },
    ghost parts: { table.shared.key.parts ≡ J.parts },
    ghost few: { J.parts < 2 ^ 64 },
}

impl<J: Naming> Words<J> {
    pub(crate) fn named(table: Table<(), View, Opening, Law, Global>) -> Words<J>
        requires table { table.shared.table_id ≡ J.table }
        requires words { table.shared.table_id.words ≡ 2 }
        requires slots { table.shared.table_id.slots ≡ 0 }
        requires before { table.shared.key.before.items ≡ J.before }
        requires parts { table.shared.key.parts ≡ J.parts }
        requires few { table.shared.key.parts < 2 ^ 64 }
    {
        Words {
            table,
            of: PhantomData,
        }
    }

    /// Sees the history as it is, and that what was told is a beginning of it.
    pub(crate) fn look(&self, seat: &mut Seat<(), View>) -> u64
        requires { (seat.old.table_id ≡ J.table) × (seat.old.me.1 ≡ []) }
        ensures table { seat.new.table_id ≡ J.table }
        ensures looks { LooksAt seat.old.me.0 result seat.new.me.0 }
        ensures slots { seat.new.me.1 ≡ [] }
    {
        self.table.shared.load::<Look>(seat, 0)
    }

    /// Adds an entry, which the call names for the proof. The word counts it.
    pub(crate) fn add<E: Saying>(&self, seat: &mut Seat<(), View>, entry: &Entry)
        requires table { (seat.old.table_id ≡ J.table) × (seat.old.me.1 ≡ []) }
        requires entry { entry.now ≡ E.entry }
        requires right { seat.old.me.0.right ≡ true }
        requires part { 0 < seat.old.me.0.parts }
        requires room { length seat.old.me.0.seen < 2 ^ 62 }
        ensures table { seat.new.table_id ≡ J.table }
        ensures me { seat.new.me ≡ (grown seat.old.me.0 entry.now, []) }
    {
        let _ = entry;
        let _ = self.table.shared.fetch_add::<Add<E>>(seat, 0, 1);
    }

    /// Counts a leave.
    pub(crate) fn depart(&self, seat: &mut Seat<(), View>)
        requires table { (seat.old.table_id ≡ J.table) × (seat.old.me.1 ≡ []) }
        requires right { seat.old.me.0.right ≡ true }
        requires room { length seat.old.me.0.leaves < seat.old.me.0.parts }
        ensures table { seat.new.table_id ≡ J.table }
        ensures me { seat.new.me ≡ (departed seat.old.me.0, []) }
    {
        let _ = self.table.shared.fetch_add::<Depart>(seat, 1, 1);
    }

    /// Notes a finding, which the call names for the proof, and answers how many have left.
    pub(crate) fn note<F: Finds>(&self, seat: &mut Seat<(), View>, finding: Finding) -> u64
        requires table { (seat.old.table_id ≡ J.table) × (seat.old.me.1 ≡ []) }
        requires finding { finding ≡ F.finding }
        requires right { seat.old.me.0.right ≡ true }
        ensures table { seat.new.table_id ≡ J.table }
        ensures me { seat.new.me ≡ (noting finding result seat.old.me.0, []) }
    {
        let _ = finding;
        self.table.shared.load::<Notes<F>>(seat, 1)
    }

    /// Hands the right to add from one seat to another.
    pub(crate) fn hand_over(&self, from: &mut Seat<(), View>, to: &mut Seat<(), View>)
        requires from { (from.old.table_id ≡ J.table) × (from.old.me.1 ≡ []) × (from.old.me.0.right ≡ true) }
        requires to { (to.old.table_id ≡ J.table) × (to.old.me.1 ≡ []) }
        ensures from { (from.new.table_id ≡ J.table) × (from.new.me ≡ (without_right from.old.me.0, [])) }
        ensures to { (to.new.table_id ≡ J.table) × (to.new.me ≡ (both to.old.me.0 (slip from.old.me.0), [])) }
    {
        let slip = self.table.shared.split_seat::<HandOver>(from);
        self.table.shared.join_seat::<Both>(to, slip);
    }

    /// Lends a pass the clerk's right, and looks: the pass has then seen the whole history.
    pub(crate) fn lend(&self, clerk: &mut Seat<(), View>, pass: &mut Seat<(), View>)
        requires clerk { (clerk.old.table_id ≡ J.table) × (clerk.old.me ≡ (clerk_of clerk.old.me.0.seen, [])) }
        requires pass { (pass.old.table_id ≡ J.table) × (pass.old.me.1 ≡ []) }
        ensures clerk { (clerk.new.table_id ≡ J.table) × (clerk.new.me ≡ (without_right clerk.old.me.0, [])) }
        ensures pass { (pass.new.table_id ≡ J.table) × (pass.new.me ≡ (in_lock clerk.old.me.0.seen pass.old.me.0, [])) }
        ensures seen { IsPrefix pass.old.me.0.seen clerk.old.me.0.seen }
    {
        self.hand_over(clerk, pass);
        self.look(pass);
    }

    /// Gives the clerk its right back, and looks: the clerk has then seen what the pass has. It answers the history's length.
    pub(crate) fn give_back(&self, pass: &mut Seat<(), View>, clerk: &mut Seat<(), View>) -> u64
        requires pass { (pass.old.table_id ≡ J.table) × (pass.old.me.1 ≡ []) × (pass.old.me.0.right ≡ true) }
        requires clerk { (clerk.old.table_id ≡ J.table) × (clerk.old.me ≡ (without_right (clerk_of clerk.old.me.0.seen), [])) }
        ensures pass { (pass.new.table_id ≡ J.table) × (pass.new.me ≡ (without_right pass.old.me.0, [])) }
        ensures clerk { (clerk.new.table_id ≡ J.table) × (clerk.new.me ≡ (clerk_of pass.old.me.0.seen, [])) }
        ensures length { result ≡ length pass.old.me.0.seen }
    {
        self.hand_over(pass, clerk);
        self.look(clerk)
    }

    /// Cuts parts off, whose number the call names for the proof.
    pub(crate) fn cut<C: Counting>(&self, seat: &mut Seat<(), View>, parts: u64) -> Seat<(), View>
        requires table { (seat.old.table_id ≡ J.table) × (seat.old.me.1 ≡ []) }
        requires named { parts ≡ C.parts }
        requires fewer { parts < seat.old.me.0.parts }
        requires left { length seat.old.me.0.leaves ≤ 1 }
        ensures old { (seat.new.table_id ≡ J.table) × (seat.new.me ≡ (parts_left parts seat.old.me.0, [])) }
        ensures new { (result.table_id ≡ J.table) × (result.me ≡ (parts_moved parts seat.old.me.0, [])) }
    {
        let _ = parts;
        self.table.shared.split_seat::<Cut<C>>(seat)
    }

    /// Takes in another seat.
    pub(crate) fn join(&self, to: &mut Seat<(), View>, from: Seat<(), View>)
        requires from { (from.table_id ≡ J.table) × (from.me.1 ≡ []) }
        requires to { (to.old.table_id ≡ J.table) × (to.old.me.1 ≡ []) }
        ensures table { to.new.table_id ≡ J.table }
        ensures me { to.new.me ≡ (both to.old.me.0 from.me.0, []) }
    {
        self.table.shared.join_seat::<Both>(to, from);
    }

    /// Takes in another seat, and looks.
    pub(crate) fn take_in(&self, to: &mut Seat<(), View>, from: Seat<(), View>)
        requires from { (from.table_id ≡ J.table) × (from.me.1 ≡ []) × (from.me.0.right ≡ false) }
        requires to { (to.old.table_id ≡ J.table) × (to.old.me.1 ≡ []) × (to.old.me.0.right ≡ false) }
        ensures table { (to.new.table_id ≡ J.table) × (to.new.me.1 ≡ []) }
        ensures takes { TakesIn to.old.me.0 from.me.0 to.new.me.0 }
    {
        self.join(to, from);
        self.look(to);
    }

    /// Ends the words. The clerk knows the whole history, and the seat has all other parts.
    pub(crate) fn close(self, mut seat: Seat<(), View>, clerk: Seat<(), View>)
        requires seat { (seat.table_id ≡ J.table) × (seat.me.1 ≡ []) × (seat.me.0.parts ≡ J.parts) }
        requires clerk { (clerk.table_id ≡ J.table) × (clerk.me.1 ≡ []) }
        requires right { clerk.me.0.right ≡ true }
        requires empty { (clerk.me.0.parts ≡ 0) × (clerk.me.0.calls ≡ []) × (clerk.me.0.notes ≡ []) × (clerk.me.0.leaves ≡ []) }
        ensures { Ends J.before clerk.me.0.seen seat.me.0 }
    {
        self.join(&mut seat, clerk);
        self.look(&mut seat);
        let Words { table, of: _ } = self;
        table.close_with(seat).free();
    }
}
