//! Traces, line by line.

ghost use Rattle.std.specs.Prelude.{◌≡◌, ◌≢◌, ◌≤◌, ◌<◌, ℕ, length, All, IfOk, OnOk, Result, Err};
ghost use Rattle.hx_events.specs.Fields.{fields_of};
ghost use Rattle.hx_events.specs.Texts.{IsEventOf, IsOutcomeOf};
ghost use Rattle.hx_script.specs.Events.{move_in};
ghost use Rattle.hx_script.specs.Outcomes.{outcome_in};
ghost use Rattle.hx_script.specs.declared.why.Why.{Why};
ghost use Rattle.hx_script.specs.Readings.{Answers, Takes, Reads, Refused, ranked};
ghost use Rattle.hx_script.specs.Lines.{texts, first_field, other_fields, parts_of, lines_over};
ghost use Rattle.hx_script.specs.Traces.{is_begun, has_entries, with_new_life, is_between, is_inside, is_naming, is_copying, is_behind_end, is_not_above, is_out_of_order, is_past, begun_lives, has_all_lives, names_everything, first_line, pair_in, entry_in, life_line, name_line, pair_line, entry_line, end_line, copy_line, ticket_line, trace_line_of, trace_line, trace_at_end, no_trace, trace_in, IsFoundOf, IsWellRead};

use crate::declarations::{name_in, ranked, settled};
use crate::draft::Draft;
use crate::events::move_in;
use crate::fields::{MOST_FIELDS, behind_header, cut_at, first_field, other_fields, split_fields};
use crate::outcomes::outcome_in;
use crate::parts::{both, copy_in, ended_in, life_in, pair_in, ticket_in, trace_kind};
use crate::trace::{Part, Trace, TraceKind, TraceLife};
use crate::values::number_in;
use crate::why::{LineError, ScriptError, Why};
use hx_events::{Actor, Bytes, Entry, Event, Items, Names, Outcome, PairFound};
use std::alloc::{AllocError, Global};
use std::marker::Model;
use std::mem;

/// The most bytes of a trace.
pub const TRACE_MAX: usize = 67_108_864;

const HEADER: &[u8] = b"hotexit trace 1";

const MOST_LINES: u64 = 200_000;

const MOST_LIVES: usize = 32;

const MOST_NAMES: usize = 256;

fn is_past(number: u64) -> bool
    ensures { result ≡ is_past number }
{
    number > MOST_LINES
}

fn is_between(part: Part) -> bool
    ensures { result ≡ is_between part }
{
    matches!(part, Part::Before | Part::Copies | Part::Tickets)
}

fn is_inside(part: Part) -> bool
    ensures { result ≡ is_inside part }
{
    matches!(part, Part::Names | Part::Pairs(_) | Part::Entries)
}

fn is_naming(part: Part) -> bool
    ensures { result ≡ is_naming part }
{
    matches!(part, Part::Names)
}

fn is_copying(part: Part) -> bool
    ensures { result ≡ is_copying part }
{
    matches!(part, Part::Copies)
}

fn is_behind_end(part: Part) -> bool
    ensures { result ≡ is_behind_end part }
{
    matches!(part, Part::Copies | Part::Tickets)
}

fn is_not_above(last: u64, number: Result<u64, Why>) -> bool
    ensures { result ≡ is_not_above last number }
{
    match number {
        Ok(number) => number <= last,
        Err(_) => false,
    }
}

#[tactic(auto, unfolding(crate::specs::Traces::is_out_of_order))]
fn is_out_of_order(part: Part, fields: &[&[u8]]) -> bool
    ensures { result ≡ is_out_of_order part (texts fields.now) }
{
    match part {
        Part::Names => false,
        Part::Pairs(last) => match fields {
            [number, ..] => is_not_above(last, number_in(number)),
            [] => is_not_above(last, number_in(b"")),
        },
        _ => true,
    }
}

fn is_begun(part: Part) -> bool
    ensures { result ≡ is_begun part }
{
    !matches!(part, Part::Before)
}

fn has_entries(part: Part) -> bool
    ensures { result ≡ has_entries part }
{
    matches!(part, Part::Entries)
}

fn move_of_text<'a>(
    alloc: Global,
    names: &Names,
    text: &'a [u8],
    fields: &mut Vec<&'a [u8]>,
) -> Result<(Actor, Event), LineError>
    ensures answers { Answers result (move_in names.now (fields_of text.now)) }
    ensures known { IfOk result (λ done. IsEventOf names.now done.1) }
{
    split_fields(text, MOST_FIELDS, fields)?;
    move_in(alloc, names, fields)
}

fn outcome_of_text<'a>(
    names: &Names,
    text: &'a [u8],
    fields: &mut Vec<&'a [u8]>,
) -> Result<Outcome, LineError>
    ensures answers { Answers result (outcome_in names.now (fields_of text.now)) }
    ensures known { IfOk result (IsOutcomeOf names.now) }
{
    split_fields(text, MOST_FIELDS, fields)?;
    settled(outcome_in(names, fields))
}

/// An entry of a line: its event, a tab, its outcome.
#[tactic(auto, unfolding(crate::specs::Traces::entry_in))]
fn entry_in<'a>(
    alloc: Global,
    names: &Names,
    line: &'a [u8],
    fields: &mut Vec<&'a [u8]>,
) -> Result<((Actor, Event), Outcome), LineError>
    ensures answers { Answers result (entry_in names.now line.now) }
    ensures event { IfOk result (λ entry. IsEventOf names.now entry.0.1) }
    ensures outcome { IfOk result (λ entry. IsOutcomeOf names.now entry.1) }
{
    let Some((event, outcome)) = cut_at(b'\t', line) else {
        return Err(LineError::Bad(Why::Form));
    };
    let event = move_of_text(alloc, names, event, fields);
    let outcome = outcome_of_text(names, outcome, fields);
    both(event, outcome)
}

/// A trace as far as it was read. Contracts see the lives that are over, and the one in hand with its part that stood last.
#[derive(Drop)]
pub struct TraceReader {
    lives: Vec<TraceLife>,
    part: Part,
    draft: Draft,
}

impl Model for TraceReader {
    ghost use Rattle.hx_script.specs.Traces.{TraceState, IsTraceState};

    ghost Value = { TraceState };

    ghost view = { λ r. record { lives = r.lives.items; part = r.part; life = r.draft } };

    ghost invariant = { λ r. IsTraceState (record { lives = r.lives.items; part = r.part; life = r.draft }) };
}

impl TraceReader {
    fn new(alloc: Global) -> Result<TraceReader, AllocError>
        ensures { IfOk result (λ reader. reader ≡ no_trace) }
    {
        Ok(TraceReader {
            lives: Vec::new(alloc),
            part: Part::Before,
            draft: Draft::new(alloc)?,
        })
    }

    fn begun_lives(&self) -> usize
        ensures count { result ≡ begun_lives self.now }
        ensures few { result ≤ 32 }
    {
        if is_begun(self.part) {
            self.lives.len() + 1
        } else {
            0
        }
    }

    fn has_all_lives(&self) -> bool
        ensures { result ≡ has_all_lives self.now }
    {
        self.begun_lives() >= MOST_LIVES
    }

    fn names_everything(&self) -> bool
        ensures { result ≡ names_everything self.now }
    {
        self.draft.names().len() >= MOST_NAMES
    }

    fn first_line(&self, number: u64) -> u64
        requires { number ≤ 200000 }
        ensures line { result ≡ first_line number self.now }
        ensures known { result ≤ 200001 }
    {
        if has_entries(self.part) {
            self.draft.first()
        } else {
            number
        }
    }

    fn begin_life(&mut self, alloc: Global) -> Result<(), AllocError>
        requires { begun_lives self.old < 32 }
        ensures { OnOk result (self.new ≡ with_new_life self.old) }
    {
        let draft = Draft::new(alloc)?;
        let life = mem::replace(&mut self.draft, draft).finish();
        let part = mem::replace(&mut self.part, Part::Names);
        if is_begun(part) {
            self.lives.push(life)?;
        }
        Ok(())
    }

    fn take_life(&mut self, alloc: Global, number: u64, fields: &[&[u8]]) -> Result<(), LineError>
        ensures { Takes result self.new (life_line number self.old (texts fields.now)) }
    {
        ranked(
            settled(life_in(self.begun_lives() as u64, fields)),
            !is_between(self.part),
            is_past(number) || self.has_all_lives(),
        )?;
        self.begin_life(alloc)?;
        Ok(())
    }

    fn take_name(&mut self, alloc: Global, number: u64, fields: &[&[u8]]) -> Result<(), LineError>
        ensures { Takes result self.new (name_line number self.old (texts fields.now)) }
    {
        let name = ranked(
            name_in(alloc, self.draft.names(), fields),
            !is_naming(self.part),
            is_past(number) || self.names_everything(),
        )?;
        self.draft.name(name)?;
        self.part = Part::Names;
        Ok(())
    }

    fn read_pair(
        &self,
        alloc: Global,
        number: u64,
        fields: &[&[u8]],
    ) -> Result<(u64, PairFound), LineError>
        ensures answers { Answers result (ranked (pair_in self.now.life.life.names (texts fields.now)) (is_out_of_order self.now.part (texts fields.now)) (is_past number)) }
        ensures pair { IfOk result (λ read. read.0 < 64) }
        ensures known { IfOk result (λ read. IsFoundOf self.now.life.life.names read.1) }
    {
        ranked(
            pair_in(alloc, self.draft.names(), fields),
            is_out_of_order(self.part, fields),
            is_past(number),
        )
    }

    fn take_pair(&mut self, alloc: Global, number: u64, fields: &[&[u8]]) -> Result<(), LineError>
        ensures { Takes result self.new (pair_line number self.old (texts fields.now)) }
    {
        let read = self.read_pair(alloc, number, fields)?;
        let (pair, found) = read;
        self.draft.pair(pair, found);
        self.part = Part::Pairs(pair);
        Ok(())
    }

    fn take_entry<'a>(
        &mut self,
        alloc: Global,
        number: u64,
        line: &'a [u8],
        fields: &mut Vec<&'a [u8]>,
    ) -> Result<(), LineError>
        ensures { Takes result self.new (entry_line number self.old line.now) }
    {
        let read = ranked(
            entry_in(alloc, self.draft.names(), line, fields),
            !is_inside(self.part),
            is_past(number),
        )?;
        let ((actor, event), outcome) = read;
        let first = self.first_line(number);
        let entry = Entry {
            moment: 0,
            faults: 0,
            actor,
            event,
            outcome,
            content: Bytes::new(Vec::new(alloc)),
        };
        self.draft.entry(entry, first)?;
        self.part = Part::Entries;
        Ok(())
    }

    fn take_end(&mut self, number: u64, fields: &[&[u8]]) -> Result<(), LineError>
        ensures { Takes result self.new (end_line number self.old (texts fields.now)) }
    {
        let ended = ranked(
            settled(ended_in(fields)),
            !is_inside(self.part),
            is_past(number),
        )?;
        let first = self.first_line(number);
        self.draft.end(ended, first, number + 1);
        self.part = Part::Copies;
        Ok(())
    }

    fn take_copy(
        &mut self,
        alloc: Global,
        number: u64,
        line: &[u8],
        fields: &[&[u8]],
    ) -> Result<(), LineError>
        ensures { Takes result self.new (copy_line number self.old line.now (texts fields.now)) }
    {
        ranked(
            settled(copy_in(self.draft.names(), fields)),
            !is_copying(self.part),
            is_past(number),
        )?;
        self.draft.tail(Bytes::new(Vec::from_slice(alloc, line)?))?;
        self.part = Part::Copies;
        Ok(())
    }

    fn take_ticket(
        &mut self,
        alloc: Global,
        number: u64,
        line: &[u8],
        fields: &[&[u8]],
    ) -> Result<(), LineError>
        ensures { Takes result self.new (ticket_line number self.old line.now (texts fields.now)) }
    {
        ranked(
            settled(ticket_in(fields)),
            !is_behind_end(self.part),
            is_past(number),
        )?;
        self.draft.tail(Bytes::new(Vec::from_slice(alloc, line)?))?;
        self.part = Part::Tickets;
        Ok(())
    }

    fn take_fields(
        &mut self,
        alloc: Global,
        kind: TraceKind,
        number: u64,
        line: &[u8],
        fields: &[&[u8]],
    ) -> Result<(), LineError>
        requires { kind ≢ TraceKind.Entry }
        ensures { Takes result self.new (trace_line_of kind number self.old line.now (texts fields.now)) }
    {
        match kind {
            TraceKind::Life => self.take_life(alloc, number, fields),
            TraceKind::Name => self.take_name(alloc, number, fields),
            TraceKind::Pair => self.take_pair(alloc, number, fields),
            TraceKind::Entry => unreachable!(),
            TraceKind::End => self.take_end(number, fields),
            TraceKind::Copy => self.take_copy(alloc, number, line, fields),
            TraceKind::Ticket => self.take_ticket(alloc, number, line, fields),
        }
    }

    /// The line with this number, at the end of the trace so far. `fields` is room for the line's fields.
    fn take<'a>(
        &mut self,
        alloc: Global,
        number: u64,
        line: &'a [u8],
        fields: &mut Vec<&'a [u8]>,
    ) -> Result<(), LineError>
        ensures { Takes result self.new (trace_line number self.old line.now) }
    {
        let kind = trace_kind(first_field(line));
        if let TraceKind::Entry = kind {
            return self.take_entry(alloc, number, line, fields);
        }
        split_fields(line, MOST_FIELDS, fields)?;
        self.take_fields(alloc, kind, number, line, other_fields(fields))
    }

    /// The trace, unless its last life has no end, or there is no life.
    fn trace(self, number: u64) -> Result<Trace, ScriptError>
        ensures ok { IfOk result (λ trace. trace_at_end number self ≡ Reads trace) }
        ensures bad { (line : ℕ) (why : Why) → result ≡ Err (ScriptError.Bad line why) → trace_at_end number self ≡ Refused line why }
        ensures well_read { IfOk result (λ trace. All IsWellRead trace.lives) }
    {
        let TraceReader {
            mut lives,
            part,
            draft,
        } = self;
        if !is_behind_end(part) {
            return Err(ScriptError::Bad(number, Why::Form));
        }
        lives.push(draft.finish())?;
        Ok(Trace {
            lives: Items::new(lives),
        })
    }
}

/// The lines behind the header.
fn read_lines(alloc: Global, bytes: &[u8]) -> Result<Trace, ScriptError>
    requires { length bytes.now ≤ 67108864 }
    ensures ok { IfOk result (λ trace. lines_over trace_line trace_at_end 2 no_trace (parts_of bytes.now) ≡ Reads trace) }
    ensures bad { (line : ℕ) (why : Why) → result ≡ Err (ScriptError.Bad line why) → lines_over trace_line trace_at_end 2 no_trace (parts_of bytes.now) ≡ Refused line why }
    ensures well_read { IfOk result (λ trace. All IsWellRead trace.lives) }
{
    let mut reader = TraceReader::new(alloc)?;
    let mut fields = Vec::new(alloc);
    let mut number = 2;
    let mut rest = bytes;
    'lines: while !rest.is_empty() {
        let Some((line, behind)) = cut_at(b'\n', rest) else {
            return Err(ScriptError::Bad(number, Why::NoEnd));
        };
        if let Err(error) = reader.take(alloc, number, line, &mut fields) {
            return Err(error.at(number));
        }
        number += 1;
        rest = behind;
    }
    reader.trace(number)
}

/// The trace that the bytes read as. `Bad` names the first bad line, counted from 1, with its first reason, exactly where the
/// bytes are no trace; `TooLong` has line 0 and comes exactly where they are more than 67,108,864. `NoMemory` may come in
/// place of any answer but `TooLong`.
#[tactic(auto, unfolding(crate::specs::Traces::trace_in))]
pub fn read_trace(alloc: Global, bytes: &[u8]) -> Result<Trace, ScriptError>
    ensures ok { IfOk result (λ trace. trace_in bytes.now ≡ Reads trace) }
    ensures bad { (line : ℕ) (why : Why) → result ≡ Err (ScriptError.Bad line why) → trace_in bytes.now ≡ Refused line why }
    ensures well_read { IfOk result (λ trace. All IsWellRead trace.lives) }
    ensures short { result ≡ Err ScriptError.NoMemory → length bytes.now ≤ 67108864 }
{
    if bytes.len() > TRACE_MAX {
        return Err(ScriptError::Bad(0, Why::TooLong));
    }
    let rest = behind_header(HEADER, bytes)?;
    read_lines(alloc, rest)
}
