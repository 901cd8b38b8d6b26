//! The script of a local history, line by line.

ghost use Rattle.std.specs.Prelude.{◌≡◌, ◌≤◌, ℕ, true, false, [], length, IfOk, Err};
ghost use Rattle.hx_script.specs.declared.why.Why.{Why};
ghost use Rattle.hx_script.specs.Readings.{Answers, Takes, Reads, Refused};
ghost use Rattle.hx_script.specs.Lines.{texts, parts_of, lines_over};
ghost use Rattle.hx_history_script.specs.Scripts.{saved_of, saved_in, crash_in, is_crash, is_beyond, has_all_crashes, saved_line, crash_line, fields_in, line_in, lines_at_end, history_script_in};

use crate::script::HistoryLine;
use hx_events::Items;
use hx_script::{
    LineError, SCRIPT_MAX, ScriptError, Why, behind_header, cut_at, is, number_in, ranked, settled,
    split_fields, text_in,
};
use std::alloc::Global;
use std::marker::Model;

const HEADER: &[u8] = b"hotexit history 1";

const MOST_LINES: u64 = 10_000;

const MOST_CRASHES: usize = 31;

/// More fields than a line has.
const MOST_FIELDS: usize = 4;

fn is_beyond(number: u64) -> bool
    ensures { result ≡ is_beyond number }
{
    number > MOST_LINES
}

fn saved_of(alloc: Global, moment: &[u8], text: &[u8]) -> Result<HistoryLine, LineError>
    ensures answers { Answers result (saved_of moment.now text.now) }
    ensures no_crash { IfOk result (λ line. is_crash line ≡ false) }
{
    let moment = number_in(moment)?;
    let content = text_in(alloc, text)?;
    Ok(HistoryLine::Saved { moment, content })
}

/// The save of a line, by the fields behind its first.
fn saved_in(alloc: Global, fields: &[&[u8]]) -> Result<HistoryLine, LineError>
    ensures answers { Answers result (saved_in (texts fields.now)) }
    ensures no_crash { IfOk result (λ line. is_crash line ≡ false) }
{
    match fields {
        [moment, text] => saved_of(alloc, moment, text),
        _ => Err(LineError::Bad(Why::Form)),
    }
}

/// The crash of a line, by the fields behind its first.
fn crash_in(fields: &[&[u8]]) -> Result<HistoryLine, Why>
    ensures answers { result ≡ crash_in (texts fields.now) }
    ensures crash { IfOk result (λ line. is_crash line ≡ true) }
{
    match fields {
        [pick] => Ok(HistoryLine::Crash(number_in(pick)?)),
        _ => Err(Why::Form),
    }
}

/// A script as far as it was read. Contracts see its lines.
#[derive(Drop)]
struct ScriptReader {
    lines: Vec<HistoryLine>,

    // how many of them are crashes
    crashes: usize,
}

impl Model for ScriptReader {
    ghost use Rattle.std.specs.Prelude.{◌≡◌, List, count_by};
    ghost use Rattle.hx_history_script.specs.declared.script.HistoryLine.{HistoryLine};
    ghost use Rattle.hx_history_script.specs.Scripts.{is_crash};

    ghost Value = { List HistoryLine };

    ghost view = { λ r. r.lines.items };

    ghost invariant = { λ r. r.crashes ≡ count_by is_crash r.lines.items };
}

impl ScriptReader {
    fn new(alloc: Global) -> ScriptReader
        ensures { result ≡ [] }
    {
        ScriptReader {
            lines: Vec::new(alloc),
            crashes: 0,
        }
    }

    fn has_all_crashes(&self) -> bool
        ensures { result ≡ has_all_crashes self.now }
    {
        self.crashes >= MOST_CRASHES
    }

    fn take_saved(&mut self, alloc: Global, number: u64, fields: &[&[u8]]) -> Result<(), LineError>
        ensures { Takes result self.new (saved_line number self.old (texts fields.now)) }
    {
        let line = ranked(saved_in(alloc, fields), false, is_beyond(number))?;
        self.lines.push(line)?;
        Ok(())
    }

    fn take_crash(&mut self, number: u64, fields: &[&[u8]]) -> Result<(), LineError>
        ensures { Takes result self.new (crash_line number self.old (texts fields.now)) }
    {
        let line = ranked(
            settled(crash_in(fields)),
            false,
            is_beyond(number) || self.has_all_crashes(),
        )?;
        self.lines.push(line)?;
        self.crashes += 1;
        Ok(())
    }

    /// The line with this number, which has these fields, behind the lines so far.
    fn take(&mut self, alloc: Global, number: u64, fields: &[&[u8]]) -> Result<(), LineError>
        ensures { Takes result self.new (fields_in number self.old (texts fields.now)) }
    {
        let [first, rest @ ..] = fields else {
            return Err(LineError::Bad(Why::Form));
        };
        if is(first, b"saved") {
            self.take_saved(alloc, number, rest)
        } else if is(first, b"crash") {
            self.take_crash(number, rest)
        } else {
            Err(LineError::Bad(Why::Form))
        }
    }

    fn lines(self) -> Items<HistoryLine>
        ensures { result ≡ self }
    {
        let ScriptReader { lines, crashes: _ } = self;
        Items::new(lines)
    }
}

/// The lines behind the header.
fn read_lines(alloc: Global, bytes: &[u8]) -> Result<ScriptReader, ScriptError>
    requires { length bytes.now ≤ 4194304 }
    ensures ok { IfOk result (λ reader. lines_over line_in lines_at_end 2 [] (parts_of bytes.now) ≡ Reads reader) }
    ensures bad { (line : ℕ) (why : Why) → result ≡ Err (ScriptError.Bad line why) → lines_over line_in lines_at_end 2 [] (parts_of bytes.now) ≡ Refused line why }
{
    let mut reader = ScriptReader::new(alloc);
    let mut fields = Vec::new(alloc);
    let mut number = 2;
    let mut rest = bytes;
    'lines: while !rest.is_empty() {
        let Some((line, behind)) = cut_at(b'\n', rest) else {
            return Err(ScriptError::Bad(number, Why::NoEnd));
        };
        split_fields(line, MOST_FIELDS, &mut fields)?;
        if let Err(error) = reader.take(alloc, number, &fields) {
            return Err(error.at(number));
        }
        number += 1;
        rest = behind;
    }
    Ok(reader)
}

/// The lines that the bytes read as. `Bad` names the first bad line, counted from 1, with its first reason, exactly where the bytes
/// are no script of a local history; `TooLong` has line 0 and comes exactly where they are more than 4,194,304. `NoMemory` may come
/// in place of any answer but `TooLong`.
#[tactic(auto, unfolding(crate::specs::Scripts::history_script_in))]
pub fn read_history_script(alloc: Global, bytes: &[u8]) -> Result<Items<HistoryLine>, ScriptError>
    ensures ok { IfOk result (λ lines. history_script_in bytes.now ≡ Reads lines) }
    ensures bad { (line : ℕ) (why : Why) → result ≡ Err (ScriptError.Bad line why) → history_script_in bytes.now ≡ Refused line why }
    ensures short { result ≡ Err ScriptError.NoMemory → length bytes.now ≤ 4194304 }
{
    if bytes.len() > SCRIPT_MAX {
        return Err(ScriptError::Bad(0, Why::TooLong));
    }
    let rest = behind_header(HEADER, bytes)?;
    let reader = read_lines(alloc, rest)?;
    Ok(reader.lines())
}
