//! What the source is read as.

ghost use Rattle.std.specs.Prelude.{◌≡◌, ◌≤◌, [], true, false, All, IsTrue, IfOk, IfErr, OnOk, Err, Some, ℕ, length};
ghost use Rattle.hx_faults.specs.Faults.{Rose};
ghost use Rattle.hx_io.specs.Streams.{Grows, added};
ghost use Rattle.hx_history_script.specs.Scripts.{history_script_in};
ghost use Rattle.hx_script.specs.Readings.{Reads, Refused};
ghost use Rattle.hx_script.specs.Scripts.{IsWellMade, script_in};
ghost use Rattle.hx_script.specs.Traces.{IsWellRead, trace_in};
ghost use Rattle.hx_script.specs.declared.why.Why.{Why};
ghost use Rattle.hx_top.specs.Whole.{IsOfReading, limit, reads_source, script_of};
ghost use Rattle.hx_top.specs.Words.{IsTask};
ghost use Rattle.hx_top.specs.declared.words.Order.TheVariants.{Play};

use crate::whole::End;
use crate::words::Task;
use hx_events::Items;
use hx_history_script::{HistoryLine, read_history_script};
use hx_io::{ReadAllError, Source, read_all};
use hx_script::{Form, Script, ScriptError, Trace, Why, made, read_script, read_trace};
use std::alloc::Global;

/// The most bytes of a script, and of a trace.
const SCRIPT_MAX: usize = 4_194_304;

const TRACE_MAX: usize = 67_108_864;

fn refused(line: u64, why: Why) -> End
    ensures { result ≡ End.BadScript line why }
{
    End::BadScript { line, why }
}

/// The script that the source's bytes are, or the end that comes in its place.
pub fn read_as<S: Source>(alloc: Global, source: &mut S, form: Form) -> Result<Script, End>
    ensures script { IfOk result (λ script. script_in form (added (S.given source.old) (S.given source.new)) ≡ Reads script) }
    ensures well_made { IfOk result IsWellMade }
    ensures refused { (line : ℕ) (why : Why) → result ≡ Err (End.BadScript line why) → script_in form (added (S.given source.old) (S.given source.new)) ≡ Refused line why }
    ensures grows { Grows (S.given source.old) (S.given source.new) }
    ensures within { IfOk result (λ _. length (added (S.given source.old) (S.given source.new)) ≤ 4194304) }
    ensures told { IsTrue S.tells → IfOk result (λ _. (added (S.given source.old) (S.given source.new) ≡ S.left source.old) × (S.left source.new ≡ [])) }
    ensures told_refused { IsTrue S.tells → (line : ℕ) (why : Why) → result ≡ Err (End.BadScript line why) → script_in form (S.left source.old) ≡ Refused line why }
    ensures ends { IfErr result IsOfReading }
    ensures short { result ≡ Err End.NoMemory → length (added (S.given source.old) (S.given source.new)) ≤ 4194304 }
    ensures fault { result ≡ Err End.ReadFault → Rose (S.failures source.old) (S.failures source.new) }
    ensures no_fault { OnOk result (S.failures source.new ≡ S.failures source.old) }
    ensures later { S.failures source.old ≤ S.failures source.new }
{
    let bytes = match read_all(alloc, source, SCRIPT_MAX) {
        Ok(bytes) => bytes,
        Err(ReadAllError::ReadFault) => return Err(End::ReadFault),
        Err(ReadAllError::TooLong) => return Err(refused(0, Why::TooLong)),
        Err(ReadAllError::NoMemory) => return Err(End::NoMemory),
    };
    match read_script(alloc, &bytes, form) {
        Ok(script) => Ok(script),
        Err(ScriptError::Bad(line, why)) => Err(refused(line, why)),
        Err(ScriptError::NoMemory) => Err(End::NoMemory),
    }
}

/// The script of the task, or the end that comes in its place.
pub fn script_for<S: Source>(alloc: Global, task: Task, source: &mut S) -> Result<Script, End>
    requires { IsTask task }
    ensures script { IfOk result (λ script. script_of task (added (S.given source.old) (S.given source.new)) ≡ Reads script) }
    ensures well_made { IfOk result IsWellMade }
    ensures refused { (line : ℕ) (why : Why) → result ≡ Err (End.BadScript line why) → script_of task (added (S.given source.old) (S.given source.new)) ≡ Refused line why }
    ensures unasked { reads_source (Some (Play task)) ≡ false → source.new ≡ source.old }
    ensures grows { Grows (S.given source.old) (S.given source.new) }
    ensures within { IfOk result (λ _. length (added (S.given source.old) (S.given source.new)) ≤ limit (Some (Play task))) }
    ensures told { IsTrue S.tells → reads_source (Some (Play task)) ≡ true → IfOk result (λ _. (added (S.given source.old) (S.given source.new) ≡ S.left source.old) × (S.left source.new ≡ [])) }
    ensures told_refused { IsTrue S.tells → (line : ℕ) (why : Why) → result ≡ Err (End.BadScript line why) → script_of task (S.left source.old) ≡ Refused line why }
    ensures ends { IfErr result IsOfReading }
    ensures short { result ≡ Err End.NoMemory → length (added (S.given source.old) (S.given source.new)) ≤ limit (Some (Play task)) }
    ensures fault { result ≡ Err End.ReadFault → Rose (S.failures source.old) (S.failures source.new) }
    ensures no_fault { OnOk result (S.failures source.new ≡ S.failures source.old) }
    ensures later { S.failures source.old ≤ S.failures source.new }
{
    match task {
        Task::Replay { guarded: _ } | Task::Exit(_) => read_as(alloc, source, Form::Replay),
        Task::Restore => read_as(alloc, source, Form::Restore),
        Task::Made(n) => made(alloc, n).map_err(|_| End::NoMemory),
    }
}

/// The trace that the source's bytes are, or the end that comes in its place.
pub fn trace_from<S: Source>(alloc: Global, source: &mut S) -> Result<Trace, End>
    ensures trace { IfOk result (λ trace. trace_in (added (S.given source.old) (S.given source.new)) ≡ Reads trace) }
    ensures well_read { IfOk result (λ trace. All IsWellRead trace.lives) }
    ensures refused { (line : ℕ) (why : Why) → result ≡ Err (End.BadScript line why) → trace_in (added (S.given source.old) (S.given source.new)) ≡ Refused line why }
    ensures grows { Grows (S.given source.old) (S.given source.new) }
    ensures within { IfOk result (λ _. length (added (S.given source.old) (S.given source.new)) ≤ 67108864) }
    ensures told { IsTrue S.tells → IfOk result (λ _. (added (S.given source.old) (S.given source.new) ≡ S.left source.old) × (S.left source.new ≡ [])) }
    ensures told_refused { IsTrue S.tells → (line : ℕ) (why : Why) → result ≡ Err (End.BadScript line why) → trace_in (S.left source.old) ≡ Refused line why }
    ensures ends { IfErr result IsOfReading }
    ensures short { result ≡ Err End.NoMemory → length (added (S.given source.old) (S.given source.new)) ≤ 67108864 }
    ensures fault { result ≡ Err End.ReadFault → Rose (S.failures source.old) (S.failures source.new) }
    ensures no_fault { OnOk result (S.failures source.new ≡ S.failures source.old) }
    ensures later { S.failures source.old ≤ S.failures source.new }
{
    let bytes = match read_all(alloc, source, TRACE_MAX) {
        Ok(bytes) => bytes,
        Err(ReadAllError::ReadFault) => return Err(End::ReadFault),
        Err(ReadAllError::TooLong) => return Err(refused(0, Why::TooLong)),
        Err(ReadAllError::NoMemory) => return Err(End::NoMemory),
    };
    match read_trace(alloc, &bytes) {
        Ok(trace) => Ok(trace),
        Err(ScriptError::Bad(line, why)) => Err(refused(line, why)),
        Err(ScriptError::NoMemory) => Err(End::NoMemory),
    }
}

/// The lines of the local history that the source's bytes are, or the end that comes in their place.
pub fn history_from<S: Source>(alloc: Global, source: &mut S) -> Result<Items<HistoryLine>, End>
    ensures lines { IfOk result (λ lines. history_script_in (added (S.given source.old) (S.given source.new)) ≡ Reads lines) }
    ensures refused { (line : ℕ) (why : Why) → result ≡ Err (End.BadScript line why) → history_script_in (added (S.given source.old) (S.given source.new)) ≡ Refused line why }
    ensures grows { Grows (S.given source.old) (S.given source.new) }
    ensures within { IfOk result (λ _. length (added (S.given source.old) (S.given source.new)) ≤ 4194304) }
    ensures told { IsTrue S.tells → IfOk result (λ _. (added (S.given source.old) (S.given source.new) ≡ S.left source.old) × (S.left source.new ≡ [])) }
    ensures told_refused { IsTrue S.tells → (line : ℕ) (why : Why) → result ≡ Err (End.BadScript line why) → history_script_in (S.left source.old) ≡ Refused line why }
    ensures ends { IfErr result IsOfReading }
    ensures short { result ≡ Err End.NoMemory → length (added (S.given source.old) (S.given source.new)) ≤ 4194304 }
    ensures fault { result ≡ Err End.ReadFault → Rose (S.failures source.old) (S.failures source.new) }
    ensures no_fault { OnOk result (S.failures source.new ≡ S.failures source.old) }
    ensures later { S.failures source.old ≤ S.failures source.new }
{
    let bytes = match read_all(alloc, source, SCRIPT_MAX) {
        Ok(bytes) => bytes,
        Err(ReadAllError::ReadFault) => return Err(End::ReadFault),
        Err(ReadAllError::TooLong) => return Err(refused(0, Why::TooLong)),
        Err(ReadAllError::NoMemory) => return Err(End::NoMemory),
    };
    match read_history_script(alloc, &bytes) {
        Ok(lines) => Ok(lines),
        Err(ScriptError::Bad(line, why)) => Err(refused(line, why)),
        Err(ScriptError::NoMemory) => Err(End::NoMemory),
    }
}
