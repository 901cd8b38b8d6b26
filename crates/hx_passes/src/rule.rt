//! The rule of the two words, and the kinds of step.

use atomic_table::{Join, Play, Split, TableRule};
use hx_events::{Actor, CopyState, Entry, ResNo};
use hx_ghost::GhostList;
use std::collections::LinkedList;
use std::marker::{Brand, PhantomData};

/// The two kinds of stage that workers do.
#[derive(Clone, Copy, Debug, PartialEq, Eq)]
pub enum Kind {
    Vault,
    Save,
}

/// What was found of the history under the lock, without an entry.
#[derive(Clone, Copy, Debug, PartialEq, Eq)]
pub enum Finding {
    /// No stage of this kind was due.
    NothingDue(Kind),

    /// The copy of the resource was in this state.
    CopyIs(ResNo, CopyState),

    /// Nothing but how many windows had left.
    Windows,
}

/// An entry that a pass made, with its place in the history, from 1. No value of it is made.
pub struct Call {
    pub place: u64,
    pub entry: Entry,
}

/// A finding, the whole history at that moment, and how many had left then. No value of it is made.
pub struct Note {
    pub finding: Finding,
    pub upto: LinkedList<Entry>,
    pub left: u64,
}

/// What a seat knows. No value of it is made.
pub struct View {
    /// The history as far as it was seen, the oldest entry first.
    pub seen: LinkedList<Entry>,

    /// A beginning of the history that was handed over and isn't compared yet.
    pub told: LinkedList<Entry>,

    /// The seat's own entries, the newest first.
    pub calls: LinkedList<Call>,

    /// Its findings, the newest first.
    pub notes: LinkedList<Note>,

    /// The history's length at each leaving, the newest first.
    pub leaves: LinkedList<u64>,

    /// Its share of what the first seat was given.
    pub parts: u64,

    /// May it add to the history?
    pub right: bool,
}

/// What contracts see of a pass. No value of it is made.
pub struct Known {
    pub actor: Actor,

    /// The history as far as the pass has seen it, the oldest entry first.
    pub seen: LinkedList<Entry>,

    /// Its entries, the newest first.
    pub calls: LinkedList<Call>,

    /// Its findings, the newest first.
    pub notes: LinkedList<Note>,

    /// Where it has left, the history's length at that moment, else nothing.
    pub leaves: LinkedList<u64>,

    /// Its share of the parts that the first pass was given.
    pub parts: u64,
}

/// What the table is told when it is made: how many parts there are, and the history that is there already.
#[derive(Drop)]
pub struct Opening {
    pub parts: u64,
    pub before: GhostList<Entry>,
}

/// The rule of the two words.
pub struct Law;

impl TableRule<(), View, Opening> for Law {
    ghost use Rattle.hx_passes.specs.Rules.{Kept};
    ghost use Rattle.hx_passes.specs.Views.{first_view};

    ghost holds = { λ about s. Kept about.before.items about.parts s.words s.views };

    ghost first = { λ about. first_view about.before.items about.parts };
}

/// A load of the first word.
pub struct Look;

impl Play<(), View> for Look {
    ghost use Rattle.hx_passes.specs.Rules.{Looks};

    ghost then = { Looks };
}

/// An entry that a call names for the proof.
pub trait Saying {
    ghost use Rattle.hx_events.specs.declared.life.Entry.{Entry};

    ghost entry: { Entry };
}

/// A step of the first word for the entry.
pub struct Add<E: Saying> {
    of: PhantomData<E>,
}

impl<E: Saying> Play<(), View> for Add<E> {
    ghost use Rattle.hx_passes.specs.Rules.{Adds};

    ghost then = { λ s v found w. Adds E.entry v found w };
}

/// A step of the second word.
pub struct Depart;

impl Play<(), View> for Depart {
    ghost use Rattle.hx_passes.specs.Rules.{Departs};

    ghost then = { Departs };
}

/// A finding that a call names for the proof.
pub trait Finds {
    ghost use Rattle.hx_passes.specs.declared.rule.Finding.{Finding};

    ghost finding: { Finding };
}

/// A load of the second word, with the finding.
pub struct Notes<F: Finds> {
    of: PhantomData<F>,
}

impl<F: Finds> Play<(), View> for Notes<F> {
    ghost use Rattle.hx_passes.specs.Rules.{NotesDown};

    ghost then = { λ s v found w. NotesDown F.finding v found w };
}

/// A number of parts that a call names for the proof.
pub trait Counting {
    ghost use Rattle.std.specs.Prelude.{ℕ};

    ghost parts: { ℕ };
}

/// So many parts go to a new seat.
pub struct Cut<C: Counting> {
    of: PhantomData<C>,
}

impl<C: Counting> Split<View> for Cut<C> {
    ghost use Rattle.hx_passes.specs.Views.{parts_left, parts_moved};

    ghost left = { λ v. parts_left C.parts v };

    ghost right = { λ v. parts_moved C.parts v };
}

/// The right to add goes to a slip, which carries it to another seat.
pub struct HandOver;

impl Split<View> for HandOver {
    ghost use Rattle.hx_passes.specs.Views.{without_right, slip};

    ghost left = { without_right };

    ghost right = { slip };
}

/// One seat takes in another.
pub struct Both;

impl Join<View> for Both {
    ghost use Rattle.hx_passes.specs.Views.{both, spent};

    ghost both = { both };

    ghost spent = { spent };
}

impl Saying for Brand {
    ghost use Rattle.hx_passes.specs.Views.{no_entry};

    ghost entry = { no_entry };
}

impl Finds for Brand {
    ghost use Rattle.hx_passes.specs.declared.rule.Finding.TheVariants.{Windows};

    ghost finding = { Windows };
}

impl Counting for Brand {
    ghost parts = { 0 };
}
