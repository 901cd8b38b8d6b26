ghost use Rattle.std.specs.Prelude.{◌≡◌, ◌<◌, ◌+◌, ◌%◌, ◌^◌, ◌≤◌, ◌++◌, ◌∷◌, [], ℕ, nat_le, suc, length, List, IfOk, OnErr};
ghost use mathlib.Core.List.{IsPrefix};
ghost use Rattle.hx_events.specs.declared.life.Entry.{Entry};
ghost use Rattle.hx_passes.specs.declared.rule.Finding.{Finding};
ghost use Rattle.hx_tests_low.specs.declared.passes.Staged.TheVariants.{Did, Rest, Over};
ghost use Rattle.hx_passes.specs.Rules.{total};
ghost use Rattle.hx_passes.specs.Views.{with_call, with_leave, with_note};
ghost use Rattle.hx_passes.specs.Closing.{IsClosed};
ghost use Rattle.hx_passes.specs.declared.rule.Finding.TheVariants.{NothingDue};

use hx_events::{Actor, Bytes, Entry, Event, Outcome, ResNo};
use hx_passes::*;
use std::alloc::{AllocError, Global};
use std::marker::{Brand, Model, PhantomData};
use std::process::Abort;
use std::sync::{Mutex, Wait};
use std::test::*;
use std::thread::{Threads, join};

// What a stage came to.
#[derive(Drop)]
enum Staged {
    Did(u64),
    Rest,
    Over,
}

// A register stands in the registry's place. A stage is due exactly where its history has an odd number of entries.
#[derive(Drop)]
struct Desk<J: Naming> {
    history: Vec<Entry>,
    clerk: Clerk<J>,
}

impl<J: Naming> Model for Desk<J> {
    ghost use Rattle.std.specs.Prelude.{◌≡◌, List};
    ghost use Rattle.hx_events.specs.declared.life.Entry.{Entry};

    ghost Value = { List Entry };

    ghost view = { λ d. d.history.items };

    ghost invariant = { λ d. d.clerk ≡ d.history.items };
}

impl<J: Naming> Desk<J> {
    // Adds an entry for a pass, and answers its place.
    fn act(
        &mut self,
        alloc: Global,
        passes: &Passes<J>,
        pass: &mut Pass<J>,
        event: Event,
    ) -> Result<u64, AllocError>
        ensures made { IfOk result (λ n. (e : Entry) × (e.event ≡ event) × (e.actor ≡ pass.old.actor) × (self.new ≡ self.old ++ e ∷ []) × (n ≡ suc (length self.old)) × (pass.new ≡ with_call e self.old pass.old) × IsPrefix pass.old.seen self.old) }
        ensures err { OnErr result ((self.new ≡ self.old) × (pass.new ≡ pass.old)) }
    {
        self.history.reserve(1)?;
        if self.history.len() as u64 >= 1 << 40 {
            return Err(AllocError);
        }
        let entry = Entry {
            moment: 0,
            faults: 0,
            actor: pass.actor(),
            event,
            outcome: Outcome::Idle,
            content: Bytes::new(Vec::new(alloc)),
        };
        let place = passes.enter(&mut self.clerk, pass, &entry);
        self.history.push_reserved(entry);
        Ok(place)
    }

    // Does a stage where one is due, else notes that none is.
    fn stage(
        &mut self,
        alloc: Global,
        passes: &Passes<J>,
        pass: &mut Pass<J>,
        kind: Kind,
    ) -> Result<Staged, AllocError>
        requires says { (h : List Entry) → (f : Finding) → (length h % 2) ≡ 0 → J.says f h }
        ensures parts { pass.new.parts ≡ pass.old.parts }
        ensures staged { IfOk result (λ s. elim s [ Did n ↦ (e : Entry) × (self.new ≡ self.old ++ e ∷ []) × (n ≡ suc (length self.old)) × (pass.new ≡ with_call e self.old pass.old) | Rest ↦ (left : ℕ) × (left < J.windows) × (self.new ≡ self.old) × (pass.new ≡ with_note (NothingDue kind) left self.old pass.old) | Over ↦ (left : ℕ) × (J.windows ≤ left) × (self.new ≡ self.old) × (pass.new ≡ with_note (NothingDue kind) left self.old pass.old) ]) }
        ensures err { OnErr result ((self.new ≡ self.old) × (pass.new ≡ pass.old)) }
    {
        if self.history.len() % 2 == 1 {
            return Ok(Staged::Did(self.act(alloc, passes, pass, Event::Vault(ResNo::new(0)))?));
        }
        if passes.note(&mut self.clerk, pass, Finding::NothingDue(kind)) {
            Ok(Staged::Over)
        } else {
            Ok(Staged::Rest)
        }
    }

    fn leave(&mut self, passes: &Passes<J>, pass: &mut Pass<J>)
        requires { pass.old.leaves ≡ [] }
        ensures stays { self.new ≡ self.old }
        ensures pass { pass.new ≡ with_leave self.old pass.old }
    {
        passes.leave(&mut self.clerk, pass);
    }

    fn close(self, passes: Passes<J>, first: Pass<J>, others: Vec<Pass<J>>) -> Vec<Entry>
        requires { first.parts + total (λ p. p.parts) others.items ≡ J.parts }
        ensures { IsClosed J.before J.windows J.says result.items (first ∷ others.items) }
    {
        let Desk { history, clerk } = self;
        passes.close(clerk, first, others);
        history
    }
}

fn answer(staged: &Staged) -> u64 {
    match staged {
        Staged::Did(place) => *place,
        Staged::Rest => 100,
        Staged::Over => 200,
    }
}

// A window, a writer and the Closer, by hand.
#[test]
fn one_thread(rt: HostRuntime) -> Result<(), Fail> {
    let history = Vec::new(rt.alloc());
    let opened = Opened::new(rt.alloc(), history.as_slice(), 1, 4)?;
    by_hand::<Brand, _>(&rt, rt.alloc(), history, opened)
}

fn by_hand<J: Naming, R: Abort>(
    rt: &R,
    alloc: Global,
    history: Vec<Entry>,
    opened: Opened,
) -> Result<(), Fail>
    requires table { opened.table ≡ J.table }
    requires before { (opened.before ≡ J.before) × (history.items ≡ J.before) }
    requires parts { (opened.parts ≡ J.parts) × (J.parts ≡ 4) }
    requires windows { opened.windows ≡ J.windows }
    requires says { (h : List Entry) → (f : Finding) → (length h % 2) ≡ 0 → J.says f h }
{
    let mut others = Vec::with_capacity(alloc, 2)?;
    let (passes, clerk, mut closer) = opened.named::<J>(Actor::Closer);
    let mut desk = Desk { history, clerk };
    let mut window = passes.split(&mut closer, Actor::Window(0), 2);
    let notice = passes.split(&mut window, Actor::Window(0), 1);
    let mut writer = passes.split(&mut closer, Actor::Writer(0), 1);
    entries(rt, alloc, &mut desk, &passes, &mut window, &mut writer)?;
    desk.leave(&passes, &mut window);
    is_over(rt, alloc, &mut desk, &passes, &mut writer)?;
    passes.meet(&mut writer, notice);
    assert!(rt; passes.front(&mut closer) == 2);
    others.push_reserved(window);
    others.push_reserved(writer);
    let history = desk.close(passes, closer, others);
    assert!(rt; history.len() == 2);
    Ok(())
}

// The window makes an entry, and the writer one that is due, and finds none due then.
fn entries<J: Naming, R: Abort>(
    rt: &R,
    alloc: Global,
    desk: &mut Desk<J>,
    passes: &Passes<J>,
    window: &mut Pass<J>,
    writer: &mut Pass<J>,
) -> Result<(), Fail>
    requires says { (h : List Entry) → (f : Finding) → (length h % 2) ≡ 0 → J.says f h }
    requires here { window.old.leaves ≡ [] }
    ensures window { window.new.parts ≡ window.old.parts }
    ensures writer { writer.new.parts ≡ writer.old.parts }
    ensures here { window.new.leaves ≡ [] }
{
    assert!(rt; desk.act(alloc, passes, window, Event::Quit)? == 1);
    assert!(rt; answer(&desk.stage(alloc, passes, writer, Kind::Vault)?) == 2);
    assert!(rt; answer(&desk.stage(alloc, passes, writer, Kind::Vault)?) == 100);
    Ok(())
}

// The writer finds no stage due, and no window that hasn't left.
fn is_over<J: Naming, R: Abort>(
    rt: &R,
    alloc: Global,
    desk: &mut Desk<J>,
    passes: &Passes<J>,
    writer: &mut Pass<J>,
) -> Result<(), Fail>
    requires says { (h : List Entry) → (f : Finding) → (length h % 2) ≡ 0 → J.says f h }
    ensures writer { writer.new.parts ≡ writer.old.parts }
{
    assert!(rt; answer(&desk.stage(alloc, passes, writer, Kind::Save)?) == 200);
    Ok(())
}

// Two windows, each on a thread of its own, over a history that has an entry already.
#[test]
fn two_threads(rt: HostRuntime) -> Result<(), Fail> {
    let mut history = Vec::with_capacity(rt.alloc(), 1)?;
    history.push_reserved(Entry {
        moment: 0,
        faults: 0,
        actor: Actor::Closer,
        event: Event::Quit,
        outcome: Outcome::Idle,
        content: Bytes::new(Vec::new(rt.alloc())),
    });
    let opened = Opened::new(rt.alloc(), history.as_slice(), 2, 3)?;
    by_two::<Brand, _>(&rt, rt.alloc(), history, opened)
}

fn by_two<J: Naming + Send + Sync, R: Threads + Wait + Abort + Sync>(
    rt: &R,
    alloc: Global,
    history: Vec<Entry>,
    opened: Opened,
) -> Result<(), Fail>
    requires table { opened.table ≡ J.table }
    requires before { (opened.before ≡ J.before) × (history.items ≡ J.before) }
    requires parts { (opened.parts ≡ J.parts) × (J.parts ≡ 3) }
    requires windows { opened.windows ≡ J.windows }
{
    let mut others = Vec::with_capacity(alloc, 2)?;
    let (passes, clerk, mut closer) = opened.named::<J>(Actor::Closer);
    let one = passes.split(&mut closer, Actor::Window(0), 1);
    let two = passes.split(&mut closer, Actor::Window(1), 1);
    let desk = Mutex::new(Desk { history, clerk });
    let (a, b) = join(
        rt,
        || -> Pass<J>
            requires { (one.parts ≡ 1) × (one.leaves ≡ []) }
            ensures { result.parts ≡ 1 }
        { four(rt, alloc, &desk, &passes, one) },
        || -> Pass<J>
            requires { (two.parts ≡ 1) × (two.leaves ≡ []) }
            ensures { result.parts ≡ 1 }
        { four(rt, alloc, &desk, &passes, two) },
    );
    assert_eq!(rt; passes.front(&mut closer), 9);
    others.push_reserved(a);
    others.push_reserved(b);
    let history = desk.into_inner().close(passes, closer, others);
    assert_eq!(rt; history.len(), 9);
    Ok(())
}

// Makes four entries and leaves.
fn four<J: Naming, R: Wait>(
    rt: &R,
    alloc: Global,
    desk: &Mutex<Desk<J>>,
    passes: &Passes<J>,
    mut pass: Pass<J>,
) -> Pass<J>
    requires { (pass.parts ≡ 1) × (pass.leaves ≡ []) }
    ensures { result.parts ≡ 1 }
{
    for _ in 0..4 {
        let mut held = desk.lock(rt);
        let _ = held.act(alloc, passes, &mut pass, Event::Quit);
    }
    let mut held = desk.lock(rt);
    held.leave(passes, &mut pass);
    pass
}
