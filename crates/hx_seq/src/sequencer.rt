ghost use Rattle.std.specs.Prelude.{◌≡◌, ◌<◌, ◌≤◌, ◌+◌, ℕ, Bool, List, [], length, None, Some, OnOk, is_some, true, option_map, vec_len, vec_capacity};
ghost use Rattle.hx_rules.specs.Saves.{SaveStep, Ask, Check, Finish, answer, answer_in, asked_by, queued_after, run_asked, run_finished, starts};
ghost use Rattle.hx_seq.specs.Keeps.{Keeps, KeepsWith, empty_seq, asked_seq, checked_seq, finished_seq, stand_in, next_by, may_come, open_saves, save_asked, shares, stands, ended, open_by};

use hx_rules::{Asked, QueuedSave, Running, SaveAnswer};
use indexmap::IndexMap;
use std::alloc::{AllocError, Global};
use std::marker::Model;

/// What follows the end of a save.
#[derive(Clone, Copy, Debug, PartialEq, Eq)]
pub enum Next {
    /// No save waited.
    Empty,

    /// A save waited, and there is nothing left to save.
    Clean,

    /// The save that waited runs, for the version that is the last one now.
    Started,
}

/// One running save, one that waits, and each ticket with where it stands. Contracts see the tickets in the order in which
/// they were asked, and for how many more of them there is room.
#[derive(Drop)]
pub struct Sequencer {
    run: Option<Running>,
    queue: Option<QueuedSave>,
    // For each ticket the number of the save whose answer it shares, or none where there was nothing to save.
    tickets: IndexMap<u64, Option<usize>>,
    // The answers of the ended saves, by their numbers. The running save has the next number, and the waiting one follows.
    answers: Vec<SaveAnswer>,
}

impl Model for Sequencer {
    ghost use Rattle.std.specs.Prelude.{◌≡◌, ◌≤◌, ◌+◌, ◌-◌, min, true, length, vec_len, vec_capacity};
    ghost use Rattle.indexmap.specs.IndexMap.{spare};
    ghost use Rattle.hx_seq.specs.Keeps.{SeqState, tickets_of, are_known, open_saves, waits_for_one};

    ghost Value = { SeqState };

    ghost view = { λ s. record { seq = record { tickets = tickets_of s.answers.items s.tickets.entries; run = s.run; queue = s.queue }; room = min (spare s.tickets) (vec_capacity s.answers - (vec_len s.answers + open_saves s.run s.queue)) } };

    ghost invariant = { λ s. (are_known (length s.answers.items + open_saves s.run s.queue) s.tickets.entries ≡ true) × (waits_for_one s.run s.queue ≡ true) × (vec_len s.answers + open_saves s.run s.queue ≤ vec_capacity s.answers) };
}

impl Sequencer {
    /// Nothing was asked. No memory is asked for.
    pub fn new(alloc: Global) -> Sequencer
        ensures seq { result.seq ≡ empty_seq }
        ensures keeps { Keeps [] result.seq }
    {
        Sequencer {
            run: None,
            queue: None,
            tickets: IndexMap::new(alloc),
            answers: Vec::new(alloc),
        }
    }

    /// Makes room for one ticket and for the answers that are due, and changes nothing else. Room that is there stays.
    pub fn reserve(&mut self) -> Result<(), AllocError>
        ensures room { OnOk result (0 < self.new.room) }
        ensures kept { self.old.room ≤ self.new.room }
        ensures seq { self.new.seq ≡ self.old.seq }
    {
        let open = self.open_saves();
        self.tickets.reserve(1)?;
        self.answers.reserve(open + 1)
    }

    /// The save that runs, if one does.
    pub fn running(&self) -> Option<Running>
        ensures { result ≡ self.now.seq.run }
    {
        self.run
    }

    /// What a request to save would come to, where `current` is the copy's last version: Joined where a save of that version
    /// runs; else Clean where the copy isn't dirty and nothing is forced; else Queued where a save runs; else Started. The
    /// order is VS Code's.
    pub fn asked(&self, current: u64, dirty: bool, force: bool) -> Asked
        ensures { result ≡ asked_by self.now.seq.run current dirty force }
    {
        match self.run {
            Some(run) if run.version == current => Asked::Joined,
            _ if !dirty && !force => Asked::Clean,
            Some(_) => Asked::Queued,
            None => Asked::Started,
        }
    }

    /// Asks for a save, and keeps the ticket, which must be a new one. A request that is queued replaces the one that waits,
    /// and its `force` and `over` hold; the tickets of both get the same answer. With `over` a conflict isn't looked for.
    pub fn ask(&mut self, ticket: u64, current: u64, dirty: bool, force: bool, over: bool) -> Asked
        requires room { 0 < self.old.room }
        requires new { stand_in ticket self.old.seq.tickets ≡ None }
        ensures asked { result ≡ asked_by self.old.seq.run current dirty force }
        ensures seq { self.new.seq ≡ asked_seq ticket current force over result self.old.seq }
        ensures keeps { KeepsWith (Ask ticket current dirty force over result) self.old.seq self.new.seq }
        ensures room { self.old.room ≤ self.new.room + 1 }
    {
        let asked = self.asked(current, dirty, force);
        self.note(asked, ticket, current, force, over);
        asked
    }

    /// Keeps a request of which `asked` has said what it comes to, as `ask` does.
    pub fn note(&mut self, asked: Asked, ticket: u64, current: u64, force: bool, over: bool)
        requires room { 0 < self.old.room }
        requires new { stand_in ticket self.old.seq.tickets ≡ None }
        requires may_come { may_come asked self.old.seq.run ≡ true }
        ensures seq { self.new.seq ≡ asked_seq ticket current force over asked self.old.seq }
        ensures keeps { (dirty : Bool) → KeepsWith (Ask ticket current dirty force over asked) self.old.seq self.new.seq }
        ensures room { self.old.room ≤ self.new.room + 1 }
    {
        let save = save_asked_for(asked, self.answers.as_slice());
        let Ok(_) = self.tickets.insert(ticket, save) else {
            unreachable!()
        };
        self.queue = queue_after(asked, force, over, self.queue);
        self.run = run_after(asked, current, over, self.run);
    }

    /// Notes that the running save's check has found no conflict.
    pub fn checked(&mut self)
        ensures seq { self.new.seq ≡ checked_seq self.old.seq }
        ensures keeps { KeepsWith Check self.old.seq self.new.seq }
        ensures room { self.new.room ≡ self.old.room }
    {
        if let Some(run) = self.run {
            self.run = Some(Running {
                checked: true,
                ..run
            });
        }
    }

    /// Whether the save that waits would start after a finish: one waits, and the copy is dirty then or the request forces it.
    pub fn starts(&self, dirty: bool) -> bool
        ensures { result ≡ starts self.now.seq.queue dirty }
    {
        starts_queued(self.queue, dirty)
    }

    /// Ends the running save with this answer, which all its tickets get. Then the save that waits starts with the version
    /// `current`, where the copy is `dirty` after the end or the request forces it; else its tickets are answered Clean.
    pub fn finish(&mut self, current: u64, dirty: bool, answer: SaveAnswer) -> Next
        requires runs { is_some self.old.seq.run ≡ true }
        ensures next { result ≡ next_by self.old.seq.queue dirty }
        ensures seq { self.new.seq ≡ finished_seq current dirty answer self.old.seq }
        ensures keeps { KeepsWith (Finish current dirty answer) self.old.seq self.new.seq }
        ensures room { self.new.room ≡ self.old.room }
    {
        let next = next_after(self.queue, dirty);
        end_saves(&mut self.answers, next, answer);
        self.run = run_started(self.queue, dirty, current);
        self.queue = None;
        next
    }

    /// The answer of the ticket, or none exactly where it was never asked or its save hasn't ended.
    pub fn answer_of(&self, ticket: u64) -> Option<SaveAnswer>
        ensures stands { result ≡ answer_in (stand_in ticket self.now.seq.tickets) }
        ensures keeps { (steps : List SaveStep) → Keeps steps self.now.seq → result ≡ answer ticket steps }
    {
        answer_at(self.answers.as_slice(), self.tickets.get(&ticket).copied())
    }

    // How many saves have no answer yet.
    fn open_saves(&self) -> usize
        ensures { result ≡ open_saves self.now.seq.run self.now.seq.queue }
    {
        self.run.is_some() as usize + self.queue.is_some() as usize
    }
}

// The number of the save whose answer a request shares.
fn save_asked_for(asked: Asked, answers: &[SaveAnswer]) -> Option<usize>
    ensures { result ≡ save_asked asked (length answers.now) }
{
    match asked {
        Asked::Clean => None,
        Asked::Joined | Asked::Started => Some(answers.len()),
        Asked::Queued => Some(answers.len() + 1),
    }
}

fn queue_after(asked: Asked, force: bool, over: bool, was: Option<QueuedSave>) -> Option<QueuedSave>
    ensures { result ≡ queued_after asked force over was }
{
    match asked {
        Asked::Queued => Some(QueuedSave { force, over }),
        _ => was,
    }
}

fn run_after(asked: Asked, current: u64, over: bool, was: Option<Running>) -> Option<Running>
    ensures { result ≡ run_asked asked current over was }
{
    match asked {
        Asked::Started => Some(Running {
            version: current,
            over,
            checked: false,
        }),
        _ => was,
    }
}

fn starts_queued(queue: Option<QueuedSave>, dirty: bool) -> bool
    ensures { result ≡ starts queue dirty }
{
    match queue {
        None => false,
        Some(queued) => dirty || queued.force,
    }
}

fn next_after(queue: Option<QueuedSave>, dirty: bool) -> Next
    ensures { result ≡ next_by queue dirty }
{
    if starts_queued(queue, dirty) {
        Next::Started
    } else if queue.is_some() {
        Next::Clean
    } else {
        Next::Empty
    }
}

// The queued save, where it starts.
fn run_started(queue: Option<QueuedSave>, dirty: bool, current: u64) -> Option<Running>
    ensures { result ≡ run_finished queue dirty current }
{
    match queue {
        Some(queued) if starts_queued(queue, dirty) => Some(Running {
            version: current,
            over: queued.over,
            checked: false,
        }),
        _ => None,
    }
}

// Appends the answer of the running save, and that of the one which waited and won't run.
fn end_saves(answers: &mut Vec<SaveAnswer>, next: Next, answer: SaveAnswer)
    requires room { vec_len answers.old + open_by next ≤ vec_capacity answers.old }
    ensures items { answers.new.items ≡ ended next answer answers.old.items }
    ensures len { vec_len answers.new ≡ vec_len answers.old + open_by next }
    ensures capacity { vec_capacity answers.new ≡ vec_capacity answers.old }
{
    answers.push_reserved(answer);
    if matches!(next, Next::Clean) {
        answers.push_reserved(SaveAnswer::Clean);
    }
}

// The answer that a ticket has, by the save that it shares.
fn answer_at(answers: &[SaveAnswer], save: Option<Option<usize>>) -> Option<SaveAnswer>
    ensures { result ≡ answer_in (option_map (shares answers.now) save) }
{
    match save {
        None => None,
        Some(None) => Some(SaveAnswer::Clean),
        Some(Some(number)) => answer_numbered(answers, number),
    }
}

// The answer with this number, if there is one yet.
fn answer_numbered(answers: &[SaveAnswer], number: usize) -> Option<SaveAnswer>
    ensures { result ≡ answer_in (Some (stands answers.now number)) }
{
    answers.get(number).copied()
}
