//! What is noted while a script is played.

ghost use Rattle.std.specs.Prelude.{◌≡◌, ◌≤◌, ◌<◌, ◌+◌, ◌++◌, [], ◌∷◌, OnOk};

use hx_history_script::Answer;
use std::alloc::{AllocError, Global};
use std::marker::Model;

/// How far a script was played.
#[derive(Clone, Copy, Debug, PartialEq, Eq)]
pub enum Halt {
    /// To its end.
    Done,

    /// Up to an opening at which the disk failed.
    OpenFault,

    /// Up to an opening that found something else than a history.
    NotHistory,

    /// Up to where memory ran out.
    NoMemory,
}

/// A script that was stopped, with its disk.
pub struct Stopped<D> {
    pub halt: Halt,
    pub disk: D,
}

/// The answers to the lines so far, the marks, and room for more. A mark is the disk's count of faults right behind an opening or a
/// save.
#[derive(Drop)]
pub struct Account {
    answers: Vec<Answer>,
    marks: Vec<u64>,
}

impl Model for Account {
    ghost use Rattle.std.specs.Prelude.{vec_len, vec_capacity, ◌-◌};
    ghost use Rattle.hx_history_play.specs.Playing.{AccountState};

    ghost Value = { AccountState };

    ghost view = { λ a. record { answers = a.answers.items; marks = a.marks.items; answer_room = vec_capacity a.answers - vec_len a.answers; mark_room = vec_capacity a.marks - vec_len a.marks } };
}

impl Account {
    pub fn new(alloc: Global) -> Account
        ensures answers { result.answers ≡ [] }
        ensures marks { result.marks ≡ [] }
    {
        Account {
            answers: Vec::new(alloc),
            marks: Vec::new(alloc),
        }
    }

    /// Makes room for the answer of one line, and for its marks.
    pub fn reserve(&mut self) -> Result<(), AllocError>
        ensures answers { self.new.answers ≡ self.old.answers }
        ensures marks { self.new.marks ≡ self.old.marks }
        ensures answer_room { OnOk result (1 ≤ self.new.answer_room) }
        ensures mark_room { OnOk result (2 ≤ self.new.mark_room) }
    {
        self.answers.reserve(1)?;
        self.marks.reserve(2)
    }

    pub fn answer(&mut self, answer: Answer)
        requires { 1 ≤ self.old.answer_room }
        ensures answers { self.new.answers ≡ self.old.answers ++ answer ∷ [] }
        ensures marks { self.new.marks ≡ self.old.marks }
        ensures mark_room { self.new.mark_room ≡ self.old.mark_room }
    {
        self.answers.push_reserved(answer);
    }

    pub fn mark(&mut self, faults: u64)
        requires { 1 ≤ self.old.mark_room }
        ensures answers { self.new.answers ≡ self.old.answers }
        ensures marks { self.new.marks ≡ self.old.marks ++ faults ∷ [] }
        ensures answer_room { self.new.answer_room ≡ self.old.answer_room }
        ensures mark_room { self.new.mark_room + 1 ≡ self.old.mark_room }
    {
        self.marks.push_reserved(faults);
    }

    pub fn answers(&self) -> &[Answer]
        ensures { result.now ≡ self.now.answers }
    {
        self.answers.as_slice()
    }

    /// Hands the marks out.
    pub fn into_marks(self) -> Vec<u64>
        ensures { result.items ≡ self.marks }
    {
        let Account { answers: _, marks } = self;
        marks
    }
}
