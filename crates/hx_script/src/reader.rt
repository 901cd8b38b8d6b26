//! Scripts, line by line.

ghost use Rattle.std.specs.Prelude.{◌≡◌, ◌≤◌, ℕ, true, length, IfOk, Err};
ghost use Rattle.hx_script.specs.declared.why.Why.{Why};
ghost use Rattle.hx_script.specs.Readings.{Answers, Takes, Reads, Refused};
ghost use Rattle.hx_script.specs.Lines.{texts, parts_of, lines_over, behind_header};
ghost use Rattle.hx_script.specs.Scripts.{allows, allows_ends, is_beyond, has_steps, has_all_names, has_all_ends, is_ending, file_line, plant_line, event_line, ending_line, line_of_kind, fields_in, line_in, no_lines, script_at_end, script_in, IsWellMade};

use crate::declarations::{
    Kind, crash_in, kind_in, name_in, plant_in, ranked, restart_in, settled,
};
use crate::events::event_in;
use crate::fields::{MOST_FIELDS, behind_header, cut_at, split_fields};
use crate::script::{Form, Plant, Script, Step};
use crate::why::{LineError, ScriptError, Why};
use hx_events::{Actor, Items, Names};
use std::alloc::Global;
use std::marker::Model;

/// The most bytes of a script.
pub const SCRIPT_MAX: usize = 4_194_304;

const HEADER: &[u8] = b"hotexit 1";

const MOST_LINES: u64 = 10_000;

const MOST_NAMES: usize = 192;

const MOST_ENDS: usize = 31;

fn is_beyond(number: u64) -> bool
    ensures { result ≡ is_beyond number }
{
    number > MOST_LINES
}

fn allows(form: Form, actor: Actor) -> bool
    ensures { result ≡ allows form actor }
{
    match (form, actor) {
        (Form::Replay, _) => true,
        (Form::Run, Actor::Window(_)) => true,
        (Form::Run, _) => false,
        (Form::Restore, _) => false,
    }
}

fn allows_ends(form: Form) -> bool
    ensures { result ≡ allows_ends form }
{
    matches!(form, Form::Replay)
}

/// A script as far as it was read. Contracts see the script.
#[derive(Drop)]
pub struct ScriptReader {
    names: Names,
    slots: Vec<Plant>,
    steps: Vec<Step>,

    // how many steps end a life
    ends: usize,
}

impl Model for ScriptReader {
    ghost use Rattle.std.specs.Prelude.{◌≡◌, count_by};
    ghost use Rattle.hx_script.specs.declared.script.Script.{Script};
    ghost use Rattle.hx_script.specs.Scripts.{is_ending, IsWellMade};

    ghost Value = { Script };

    ghost view = { λ r. record { names = r.names; slots = r.slots.items; steps = r.steps.items } };

    ghost invariant = { λ r. (r.ends ≡ count_by is_ending r.steps.items) × IsWellMade (record { names = r.names; slots = r.slots.items; steps = r.steps.items }) };
}

impl ScriptReader {
    fn new(alloc: Global) -> ScriptReader
        ensures { result ≡ no_lines }
    {
        ScriptReader {
            names: Names::new(alloc),
            slots: Vec::new(alloc),
            steps: Vec::new(alloc),
            ends: 0,
        }
    }

    fn has_steps(&self) -> bool
        ensures { result ≡ has_steps self.now }
    {
        !self.steps.is_empty()
    }

    fn has_all_names(&self) -> bool
        ensures { result ≡ has_all_names self.now }
    {
        self.names.len() >= MOST_NAMES
    }

    fn has_all_ends(&self) -> bool
        ensures { result ≡ has_all_ends self.now }
    {
        self.ends >= MOST_ENDS
    }

    fn take_file(&mut self, alloc: Global, number: u64, fields: &[&[u8]]) -> Result<(), LineError>
        ensures { Takes result self.new (file_line number self.old (texts fields.now)) }
    {
        let name = ranked(
            name_in(alloc, &self.names, fields),
            self.has_steps(),
            is_beyond(number) || self.has_all_names(),
        )?;
        match self.names.add(name.into_vec()) {
            Ok(_) => Ok(()),
            Err(_) => Err(LineError::NoMemory),
        }
    }

    fn take_plant(&mut self, alloc: Global, number: u64, fields: &[&[u8]]) -> Result<(), LineError>
        ensures { Takes result self.new (plant_line number self.old (texts fields.now)) }
    {
        let plant = ranked(plant_in(alloc, fields), self.has_steps(), is_beyond(number))?;
        self.slots.push(plant)?;
        Ok(())
    }

    fn take_event(
        &mut self,
        alloc: Global,
        form: Form,
        number: u64,
        actor: Actor,
        fields: &[&[u8]],
    ) -> Result<(), LineError>
        ensures { Takes result self.new (event_line form number self.old actor (texts fields.now)) }
    {
        let event = ranked(
            event_in(alloc, &self.names, actor, fields),
            !allows(form, actor),
            is_beyond(number),
        )?;
        self.steps.push(Step::Do(actor, event))?;
        Ok(())
    }

    fn take_ending(
        &mut self,
        form: Form,
        number: u64,
        ending: Result<Step, Why>,
    ) -> Result<(), LineError>
        requires { IfOk ending (λ step. is_ending step ≡ true) }
        ensures { Takes result self.new (ending_line form number self.old ending) }
    {
        let step = ranked(
            settled(ending),
            !allows_ends(form),
            is_beyond(number) || self.has_all_ends(),
        )?;
        self.steps.push(step)?;
        self.ends += 1;
        Ok(())
    }

    /// The line with this number, which has these fields, at the end of the script so far.
    fn take(
        &mut self,
        alloc: Global,
        form: Form,
        number: u64,
        fields: &[&[u8]],
    ) -> Result<(), LineError>
        ensures { Takes result self.new (fields_in form number self.old (texts fields.now)) }
    {
        let [first, rest @ ..] = fields else {
            return Err(LineError::Bad(Why::Form));
        };
        match kind_in(first) {
            None => Err(LineError::Bad(Why::Form)),
            Some(Kind::Declares) => self.take_file(alloc, number, rest),
            Some(Kind::Plants) => self.take_plant(alloc, number, rest),
            Some(Kind::Crashes) => self.take_ending(form, number, crash_in(rest)),
            Some(Kind::Restarts) => self.take_ending(form, number, restart_in(rest)),
            Some(Kind::Does(actor)) => self.take_event(alloc, form, number, actor, rest),
        }
    }

    fn script(self) -> Script
        ensures { result ≡ self }
    {
        let ScriptReader {
            names,
            slots,
            steps,
            ends: _,
        } = self;
        Script {
            names,
            slots: Items::new(slots),
            steps: Items::new(steps),
        }
    }
}

/// The lines behind the header.
fn read_lines(alloc: Global, form: Form, bytes: &[u8]) -> Result<ScriptReader, ScriptError>
    requires { length bytes.now ≤ 4194304 }
    ensures ok { IfOk result (λ reader. lines_over (line_in form) script_at_end 2 no_lines (parts_of bytes.now) ≡ Reads reader) }
    ensures bad { (line : ℕ) (why : Why) → result ≡ Err (ScriptError.Bad line why) → lines_over (line_in form) script_at_end 2 no_lines (parts_of bytes.now) ≡ Refused line why }
{
    let mut reader = ScriptReader::new(alloc);
    let mut fields = Vec::new(alloc);
    let mut number = 2;
    let mut rest = bytes;
    'lines: while !rest.is_empty() {
        let Some((line, behind)) = cut_at(b'\n', rest) else {
            return Err(ScriptError::Bad(number, Why::NoEnd));
        };
        split_fields(line, MOST_FIELDS, &mut fields)?;
        if let Err(error) = reader.take(alloc, form, number, &fields) {
            return Err(error.at(number));
        }
        number += 1;
        rest = behind;
    }
    Ok(reader)
}

/// The script that the bytes read as for a command. `Bad` names the first bad line, counted from 1, with its first reason,
/// exactly where the bytes are no script; `TooLong` has line 0 and comes exactly where they are more than 4,194,304.
/// `NoMemory` may come in place of any answer but `TooLong`.
#[tactic(auto, unfolding(crate::specs::Scripts::script_in))]
pub fn read_script(alloc: Global, bytes: &[u8], form: Form) -> Result<Script, ScriptError>
    ensures ok { IfOk result (λ script. script_in form bytes.now ≡ Reads script) }
    ensures bad { (line : ℕ) (why : Why) → result ≡ Err (ScriptError.Bad line why) → script_in form bytes.now ≡ Refused line why }
    ensures well_made { IfOk result IsWellMade }
    ensures short { result ≡ Err ScriptError.NoMemory → length bytes.now ≤ 4194304 }
{
    if bytes.len() > SCRIPT_MAX {
        return Err(ScriptError::Bad(0, Why::TooLong));
    }
    let rest = behind_header(HEADER, bytes)?;
    let reader = read_lines(alloc, form, rest)?;
    Ok(reader.script())
}
