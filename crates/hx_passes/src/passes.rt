//! Passes over a shared history, the clerk that stands in its lock, and what the lock's holder does for a pass.

ghost use Rattle.std.specs.Prelude.{◌≡◌, ◌+◌, ◌<◌, ◌≤◌, ◌^◌, ◌++◌, ◌∷◌, [], true, false, ℕ, nat_le, suc, length, IfOk, List, vec_len};
ghost use mathlib.Core.List.{IsPrefix};
ghost use Rattle.hx_passes.specs.Rules.{total};
ghost use Rattle.hx_passes.specs.Views.{first_view, fresh, gives, known_of, sees, with_call, with_leave, with_note};
ghost use Rattle.hx_passes.specs.Closing.{IsClosed};

use crate::rule::{Finding, HandOver, Law, Opening, View};
use crate::words::{Naming, Words};
use atomic_table::{Seat, Table};
use hx_events::{Actor, Entry};
use hx_ghost::GhostList;
use std::alloc::{AllocError, Global};
use std::marker::{Brand, Model, PhantomData};

/// A caller's token: whose it is, and what it knows of the history.
#[derive(Drop)]
pub struct Pass<J: Naming> {
    actor: Actor,
    seat: Seat<(), View>,
    of: PhantomData<J>,
}

impl<J: Naming> Model for Pass<J> {
    ghost use Rattle.std.specs.Prelude.{◌≡◌, [], false};
    ghost use Rattle.hx_passes.specs.declared.rule.Known.{Known};
    ghost use Rattle.hx_passes.specs.Closing.{IsOwn};
    ghost use Rattle.hx_passes.specs.Views.{known};

    ghost Value = { Known };

    ghost view = { λ p. known p.actor p.seat.me.0 };

    ghost invariant = { λ p. (p.seat.table_id ≡ J.table) × (p.seat.me.1 ≡ []) × (p.seat.me.0.right ≡ false) × IsOwn J.says p.actor p.seat.me.0 };
}

impl<J: Naming> Pass<J> {
    /// Whose it is.
    pub fn actor(&self) -> Actor
        ensures { result ≡ self.now.actor }
    {
        self.actor
    }
}

/// What stands in the lock beside the history, and alone may add to it. Contracts see the history that it knows.
#[derive(Drop)]
pub struct Clerk<J: Naming> {
    seat: Seat<(), View>,
    of: PhantomData<J>,
}

impl<J: Naming> Model for Clerk<J> {
    ghost use Rattle.std.specs.Prelude.{◌≡◌, [], List};
    ghost use Rattle.hx_events.specs.declared.life.Entry.{Entry};
    ghost use Rattle.hx_passes.specs.Views.{clerk_of};

    ghost Value = { List Entry };

    ghost view = { λ k. k.seat.me.0.seen };

    ghost invariant = { λ k. (k.seat.table_id ≡ J.table) × (k.seat.me ≡ (clerk_of k.seat.me.0.seen, [])) };
}

/// The words of a history, which have no name yet, and the first seat on them.
#[derive(Drop)]
pub struct Opened {
    table: Table<(), View, Opening, Law, Global>,
    seat: Seat<(), View>,
    windows: u64,
}

impl Model for Opened {
    ghost use Rattle.std.specs.Prelude.{◌≡◌, ◌<◌, ◌≤◌, ◌^◌, []};
    ghost use Rattle.hx_passes.specs.Views.{Founding, first_view};

    ghost Value = { Founding };

    ghost view = { λ o. record { table = o.table.shared.table_id; before = o.table.shared.key.before.items; parts = o.table.shared.key.parts; windows = o.windows } };

    ghost invariant = { λ o. (o.seat.table_id ≡ o.table.shared.table_id) × (o.table.shared.table_id.words ≡ 2) × (o.table.shared.table_id.slots ≡ 0) × (o.seat.me ≡ (first_view o.table.shared.key.before.items o.table.shared.key.parts, [])) × (1 ≤ o.table.shared.key.parts) × (o.table.shared.key.parts < 2 ^ 64) };
}

impl Opened {
    /// Makes the words over a history that is there. So many windows are to leave, and so many parts are dealt out.
    ///
    /// # Errors
    ///
    /// Want of memory.
    pub fn new(
        alloc: Global,
        history: &[Entry],
        windows: u64,
        parts: u64,
    ) -> Result<Opened, AllocError>
        requires { 1 ≤ parts }
        ensures { IfOk result (λ o. (o.before ≡ history.now) × (o.parts ≡ parts) × (o.windows ≡ windows)) }
    {
        let mut before = GhostList::new();
        before.extend(&history);
        let about = Opening { parts, before };
        let (table, seat) = Table::of_words(alloc, &[history.len() as u64, 0], &about)?;
        Ok(Opened {
            table,
            seat,
            windows,
        })
    }

    /// The words under a name, the clerk, and the first pass, which has all parts.
    pub fn named<J: Naming>(self, actor: Actor) -> (Passes<J>, Clerk<J>, Pass<J>)
        requires table { self.table ≡ J.table }
        requires before { self.before ≡ J.before }
        requires parts { self.parts ≡ J.parts }
        requires windows { self.windows ≡ J.windows }
        ensures clerk { result.1 ≡ J.before }
        ensures pass { result.2 ≡ fresh actor J.before J.parts }
    {
        let Opened {
            table,
            mut seat,
            windows,
        } = self;
        let clerk = table.shared.split_seat::<HandOver>(&mut seat);
        (
            Passes {
                words: Words::named(table),
                windows,
            },
            Clerk {
                seat: clerk,
                of: PhantomData,
            },
            Pass {
                actor,
                seat,
                of: PhantomData,
            },
        )
    }
}

/// What all who share the history have beside its lock.
#[derive(Drop)]
pub struct Passes<J: Naming> {
    words: Words<J>,
    windows: u64,
}

impl<J: Naming> Model for Passes<J> {
    ghost use Rattle.std.specs.Prelude.{◌≡◌, ℕ};

    ghost Value = { ℕ };

    ghost view = { λ p. p.windows };

    ghost invariant = { λ p. p.windows ≡ J.windows };
}

impl<J: Naming> Passes<J> {
    /// Answers how many entries the history has, as many as the pass has seen or more. It is one load, and waits for nobody.
    pub fn front(&self, pass: &mut Pass<J>) -> u64
        ensures length { result ≡ length pass.new.seen }
        ensures seen { IsPrefix pass.old.seen pass.new.seen }
        ensures pass { pass.new ≡ sees pass.new.seen pass.old }
    {
        self.words.look(&mut pass.seat)
    }

    /// Cuts a pass with so many parts off a pass. It waits for nobody.
    pub fn split(&self, pass: &mut Pass<J>, actor: Actor, parts: u64) -> Pass<J>
        requires some { 1 ≤ parts }
        requires fewer { parts < pass.old.parts }
        ensures new { result ≡ fresh actor pass.old.seen parts }
        ensures old { pass.new ≡ gives parts pass.old }
    {
        let seat = self.words.cut::<Brand>(&mut pass.seat, parts);
        Pass {
            actor,
            seat,
            of: PhantomData,
        }
    }

    /// Takes in a pass that has done nothing, and looks. The pass has then seen what either had. It waits for nobody.
    pub fn meet(&self, pass: &mut Pass<J>, other: Pass<J>)
        requires { (other.calls ≡ []) × (other.notes ≡ []) × (other.leaves ≡ []) }
        ensures seen { IsPrefix pass.old.seen pass.new.seen }
        ensures told { IsPrefix other.seen pass.new.seen }
        ensures pass { pass.new ≡ known_of pass.old.actor pass.new.seen pass.old.calls pass.old.notes pass.old.leaves (pass.old.parts + other.parts) }
    {
        let Pass {
            actor: _,
            seat,
            of: _,
        } = other;
        self.words.take_in(&mut pass.seat, seat);
    }

    /// Counts an entry of the pass that the lock's holder has just made, and answers its place, from 1.
    pub fn enter(&self, clerk: &mut Clerk<J>, pass: &mut Pass<J>, entry: &Entry) -> u64
        requires actor { entry.now.actor ≡ pass.old.actor }
        requires room { length clerk.old < 2 ^ 62 }
        ensures place { result ≡ suc (length clerk.old) }
        ensures clerk { clerk.new ≡ clerk.old ++ entry.now ∷ [] }
        ensures seen { IsPrefix pass.old.seen clerk.old }
        ensures pass { pass.new ≡ with_call entry.now clerk.old pass.old }
    {
        self.words.lend(&mut clerk.seat, &mut pass.seat);
        self.words.add::<Brand>(&mut pass.seat, entry);
        self.words.give_back(&mut pass.seat, &mut clerk.seat)
    }

    /// Notes for the pass what the lock's holder has found of the history, and answers whether all windows had left then.
    pub fn note(&self, clerk: &mut Clerk<J>, pass: &mut Pass<J>, finding: Finding) -> bool
        requires { J.says finding clerk.old }
        ensures clerk { clerk.new ≡ clerk.old }
        ensures seen { IsPrefix pass.old.seen clerk.old }
        ensures pass { (left : ℕ) × (pass.new ≡ with_note finding left clerk.old pass.old) × (result ≡ nat_le J.windows left) }
    {
        self.words.lend(&mut clerk.seat, &mut pass.seat);
        let left = self.words.note::<Brand>(&mut pass.seat, finding);
        self.words.give_back(&mut pass.seat, &mut clerk.seat);
        self.windows <= left
    }

    /// Counts that the pass has left, at the history's length. The lock's holder does it.
    pub fn leave(&self, clerk: &mut Clerk<J>, pass: &mut Pass<J>)
        requires { pass.old.leaves ≡ [] }
        ensures clerk { clerk.new ≡ clerk.old }
        ensures seen { IsPrefix pass.old.seen clerk.old }
        ensures pass { pass.new ≡ with_leave clerk.old pass.old }
    {
        self.words.lend(&mut clerk.seat, &mut pass.seat);
        self.words.depart(&mut pass.seat);
        self.words.give_back(&mut pass.seat, &mut clerk.seat);
    }

    /// Ends the words. The passes have all the parts together, so they are all that there are.
    pub fn close(self, clerk: Clerk<J>, first: Pass<J>, mut others: Vec<Pass<J>>)
        requires { first.parts + total (λ p. p.parts) others.items ≡ J.parts }
        ensures { IsClosed J.before J.windows J.says clerk (first ∷ others.items) }
    {
        let Passes { words, windows: _ } = self;
        let Pass {
            actor: _,
            seat: mut all,
            of: _,
        } = first;
        while let Some(pass) = others.pop() {
            let Pass {
                actor: _,
                seat,
                of: _,
            } = pass;
            words.take_in(&mut all, seat);
        }
        let Clerk { seat, of: _ } = clerk;
        words.close(all, seat);
    }
}

impl Naming for Brand {
    ghost use Rattle.std.specs.Prelude.{ℕ, List, []};
    ghost use Rattle.hx_events.specs.declared.life.Entry.{Entry};
    ghost use Rattle.hx_passes.specs.declared.rule.Finding.{Finding};

    ghost table = { record { words = 0; slots = 0; views_name = 0; atom = 0; block = 0; offset = 0; slot_names = [] } };

    ghost before = { [] };

    ghost parts = { 0 };

    ghost windows = { 0 };

    ghost says = { λ finding h. Unit {0} };
}
