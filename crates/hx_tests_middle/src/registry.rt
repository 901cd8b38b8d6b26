ghost use Rattle.std.specs.Prelude.{◌≡◌, ◌<◌, ◌≤◌, true, length, IfOk};
ghost use Rattle.hx_opening_laws.specs.Names.{AreResources};
ghost use Rattle.hx_script.specs.Scripts.{IsWellMade};

use crate::traces::TRACES;
use crate::whole::are_whole;
use crate::words::{compare, is_fault, number, parted, put_line, row_parts, trace_text};
use hx_disk::{Disk, FileNo};
use hx_events::{Actor, Command, Ended, Event, Life, Names, Outcome, ResNo};
use hx_memdisk::{MemDisk, Plan};
use hx_registry::{BeginError, Registry};
use hx_report::{out, pairs};
use hx_script::{Form, Plant, Script, Step, read_script};
use std::alloc::{AllocError, Global};
use std::process::Abort;
use std::test::Fail;

// Which calls of the disk fail.
fn plan(alloc: Global, head: &str) -> Result<Plan, AllocError> {
    let mut fails = Vec::new(alloc);
    let mut fuse = None;
    for line in head.lines() {
        match parted(line, " ") {
            ("fail", call) => fails.push(number(call))?,
            ("fuse", call) => fuse = Some(number(call)),
            _ => {}
        }
    }
    Ok(Plan { fails, fuse })
}

fn put_plant(disk: &mut MemDisk, plant: &Plant) -> Result<(), Fail> {
    let (file, bytes) = (plant.file, plant.bytes.as_slice());
    if file.number() < 128 && bytes.len() < 1000 {
        disk.reserve(file, bytes.len() as u64, 2)?;
        disk.write_at(file, 0, bytes)?;
        disk.sync(file)?;
    }
    Ok(())
}

fn disk(alloc: Global, head: &str, plants: &[Plant]) -> Result<MemDisk, Fail> {
    let mut disk = MemDisk::new(alloc, plan(alloc, head)?)?;
    for plant in plants {
        put_plant(&mut disk, plant)?;
    }
    Ok(disk)
}

fn begun(
    alloc: Global,
    disk: MemDisk,
    names: &Names,
    guarded: bool,
) -> Result<Registry<MemDisk>, Fail>
    requires few { length names.now ≤ 192 }
    requires resources { AreResources names.now }
{
    let begun = if guarded {
        Registry::begin_guarded(alloc, disk, names)
    } else {
        Registry::begin(alloc, disk, names)
    };
    match begun {
        Ok(registry) => Ok(registry),
        Err(BeginError::OpenFault(_)) => Err(Fail::new("the vault can't be opened")),
        Err(BeginError::NoMemory(_)) => Err(AllocError.into()),
    }
}

fn is_known(registry: &Registry<MemDisk>, res: ResNo) -> bool
    ensures { result ≡ true → res < length registry.now.course.names }
{
    (res.number() as usize) < registry.names().len()
}

fn command(
    registry: &mut Registry<MemDisk>,
    actor: Actor,
    command: Command,
) -> Result<Outcome, Fail> {
    if !is_known(registry, command.resource()) {
        return Err(Fail::new("a command of a resource that isn't there"));
    }
    Ok(registry.command(actor, command)?)
}

fn stage(
    registry: &mut Registry<MemDisk>,
    actor: Actor,
    res: ResNo,
    saves: bool,
) -> Result<Outcome, Fail> {
    if !is_known(registry, res) {
        return Err(Fail::new("a stage of a resource that isn't there"));
    }
    if saves {
        return Ok(registry.save_stage(actor, res)?);
    }
    Ok(registry.vault_stage(actor, res)?)
}

fn make(registry: &mut Registry<MemDisk>, actor: Actor, event: Event) -> Result<Outcome, Fail> {
    match event {
        Event::Act(asked) => command(registry, actor, asked),
        Event::Vault(res) => stage(registry, actor, res, false),
        Event::Flush(res) => stage(registry, actor, res, true),
        Event::Quit => Ok(registry.ask_quit()?),
    }
}

// The registry after the event.
fn made(
    registry: Registry<MemDisk>,
    actor: Actor,
    event: Event,
) -> Result<Registry<MemDisk>, Fail> {
    let mut registry = registry;
    match make(&mut registry, actor, event) {
        Ok(_) => Ok(registry),
        Err(failed) => {
            let _ = registry.finish(Ended::Cut);
            Err(failed)
        }
    }
}

// Ends the life, and hands the disk out as it is then.
fn ended(registry: Registry<MemDisk>, pick: Option<u64>) -> Result<(MemDisk, Life), AllocError> {
    match pick {
        None => Ok(registry.finish(Ended::Restart)),
        Some(pick) => {
            let (disk, life, crash) = registry.crash(pick);
            crash?;
            Ok((disk, life))
        }
    }
}

// The registry after a step. The life that the step ends, if it ends one, is put at the end of the lives.
fn after(
    alloc: Global,
    registry: Registry<MemDisk>,
    step: Step,
    script: (&Names, bool),
    lives: &mut Vec<Life>,
) -> Result<Registry<MemDisk>, Fail>
    requires few { length script.0.now ≤ 192 }
    requires resources { AreResources script.0.now }
{
    let pick = match step {
        Step::Do(actor, event) => return made(registry, actor, event),
        Step::Crash(pick) => Some(pick),
        Step::Restart => None,
    };
    let (disk, life) = ended(registry, pick)?;
    lives.push(life)?;
    begun(alloc, disk, script.0, script.1)
}

// The last life of the script on its disk. The others are put at the end of the lives.
fn played(
    alloc: Global,
    head: &str,
    script: Script,
    lives: &mut Vec<Life>,
) -> Result<Registry<MemDisk>, Fail>
    requires { IsWellMade script }
{
    let Script {
        names,
        slots,
        steps,
    } = script;
    let guarded = head.starts_with("guarded");
    let disk = disk(alloc, head, slots.as_slice())?;
    let mut registry = begun(alloc, disk, &names, guarded)?;
    for step in steps.into_vec() {
        registry = after(alloc, registry, step, (&names, guarded), lives)?;
    }
    Ok(registry)
}

// The line of a script that leads to this line of a trace, if there is one.
fn put_step(out: &mut String, line: &str) -> Result<(), AllocError> {
    let (word, rest) = parted(line, " ");
    match word {
        "life" | "name" | "pair" | "copy" | "ticket" => Ok(()),
        "end" if rest == "script" => Ok(()),
        "end" => put_line(out, rest),
        _ => put_line(out, parted(line, " => ").0),
    }
}

// The script that leads to a trace: its settings' slots, its entries, and what ends its lives.
fn script_text(alloc: Global, head: &str, lines: &str) -> Result<String, AllocError> {
    let mut out = String::from_str(alloc, "hotexit 1\nfile file:///a\n")?;
    for line in head.lines() {
        if line.starts_with("slot ") {
            put_line(&mut out, line)?;
        }
    }
    for line in lines.lines() {
        put_step(&mut out, line)?;
    }
    Ok(out)
}

fn script(alloc: Global, text: &str) -> Result<Script, Fail>
    ensures { IfOk result IsWellMade }
{
    match read_script(alloc, text.as_bytes(), Form::Replay) {
        Ok(script) => Ok(script),
        Err(error) => Err(Fail::new(format_args!("{error} in {text}"))),
    }
}

// The lives of the script, and the disk behind them.
fn lives_of(alloc: Global, head: &str, text: &str) -> Result<(Vec<Life>, MemDisk), Fail> {
    let script = script(alloc, text)?;
    let mut lives = Vec::new(alloc);
    let registry = played(alloc, head, script, &mut lives)?;
    let (disk, life) = registry.finish(Ended::Script);
    lives.push(life)?;
    Ok((lives, disk))
}

// Plays what leads to the trace, and compares what is printed of its lives.
fn comes_about(rt: &impl Abort, alloc: Global, head: &str, lines: &str) -> Result<(), Fail> {
    let text = script_text(alloc, head, lines)?;
    let (lives, _) = lives_of(alloc, head, &text)?;
    assert!(rt; are_whole(&lives));
    compare(&out(alloc, &lives)?, &trace_text(alloc, lines)?)
}

// What the life after the first one restores, where that ends by a crash with this pick.
fn restored(alloc: Global, head: &str, lines: &str, pick: &str) -> Result<Vec<u8>, Fail> {
    let (first, _) = parted(lines, "\nend ");
    let mut text = script_text(alloc, head, first)?;
    text.push_str("crash ")?;
    put_line(&mut text, pick)?;
    let (lives, _) = lives_of(alloc, head, &text)?;
    match lives.last() {
        None => Err(Fail::new("there is no life")),
        Some(life) => Ok(pairs(alloc, life.base.as_slice())?),
    }
}

// Compares what is read of the user's file.
fn leaves(rt: &impl Abort, alloc: Global, head: &str, lines: &str, text: &str) -> Result<(), Fail> {
    let script = script_text(alloc, head, lines)?;
    let (_, disk) = lives_of(alloc, head, &script)?;
    let bytes = disk.bytes(FileNo::new(128));
    assert!(rt; bytes == text.as_bytes(), "file {text} behind {lines}");
    Ok(())
}

// Compares the pairs that another life restores.
fn restores(
    rt: &impl Abort,
    alloc: Global,
    head: &str,
    lines: &str,
    crash: &str,
) -> Result<(), Fail> {
    let (pick, pair) = parted(crash, " ");
    let mut wanted = String::new(alloc);
    if !pair.is_empty() {
        put_line(&mut wanted, pair)?;
    }
    let pairs = restored(alloc, head, lines, pick)?;
    assert!(rt;
        pairs.as_slice() == wanted.as_bytes(),
        "crash {crash} of {head} behind {lines}"
    );
    Ok(())
}

// Compares what a note says of the end of the first life.
fn ends(rt: &impl Abort, alloc: Global, head: &str, lines: &str, note: &str) -> Result<(), Fail> {
    match parted(note, " ") {
        ("file", text) => leaves(rt, alloc, head, lines, text),
        ("crash", crash) => restores(rt, alloc, head, lines, crash),
        _ => Ok(()),
    }
}

fn ends_all(
    rt: &impl Abort,
    alloc: Global,
    head: &str,
    lines: &str,
    notes: &str,
) -> Result<(), Fail> {
    for note in notes.split("\n> ") {
        ends(rt, alloc, head, lines, note)?;
    }
    Ok(())
}

#[test]
fn traces_come_about_on_a_disk_and_leave_what_their_notes_say(rt: HostRuntime) -> Result<(), Fail> {
    for row in TRACES.split("\n\n") {
        let (head, lines, notes) = row_parts(row);
        if !head.is_empty() {
            comes_about(&rt, rt.alloc(), head, lines)?;
            ends_all(&rt, rt.alloc(), head, lines, notes)?;
        }
    }
    Ok(())
}

// Two backups of a copy, which is closed and discarded then.
const DISCARD: &str = "\
w0 create file:///a
w0 edit file:///a 0 0 =hello
b0 vault file:///a
b0 vault file:///a
b0 vault file:///a
w0 edit file:///a 5 0 =!
b0 vault file:///a
b0 vault file:///a
b0 vault file:///a
w0 close file:///a
b0 vault file:///a
b0 vault file:///a";

// For the last calls that succeed, from one number to another, what is restored after a crash with pick 0, 1, 2 and 3.
const FUSES: &str = "\
256 260: - - - -
261 261: - hello hello -
262 266: hello hello hello hello
267 267: hello hello! hello! hello
268 270: hello! hello! hello! hello!
271 271: hello! - - hello!
272 272: - - - -";

// Compares what is restored where all calls behind this one fail.
fn restores_each(rt: &impl Abort, alloc: Global, fuse: u64, contents: &str) -> Result<(), Fail> {
    let head = format!(in alloc; "disk\nfuse {fuse}")?;
    let mut pick = 0u64;
    for content in contents.split(' ') {
        let crash = match content {
            "-" => format!(in alloc; "{pick}")?,
            _ => format!(in alloc; "{pick} pair 0 restored file:///a none ={content}")?,
        };
        restores(rt, alloc, &head, DISCARD, &crash)?;
        pick = pick.saturating_add(1);
    }
    Ok(())
}

#[test]
fn what_is_restored_behind_each_last_call_and_each_pick(rt: HostRuntime) -> Result<(), Fail> {
    for row in FUSES.lines() {
        let (fuses, contents) = parted(row, ": ");
        let (first, last) = parted(fuses, " ");
        for fuse in number(first)..=number(last) {
            restores_each(&rt, rt.alloc(), fuse, contents)?;
        }
    }
    Ok(())
}

// A copy of a file is edited and saved.
const SAVE: &str = "\
w0 outside file:///a 500 =one
w0 open file:///a
w0 edit file:///a 3 0 =!
w0 save file:///a
s0 flush file:///a
s0 flush file:///a";

fn faults_of(lives: &[Life]) -> usize {
    let mut count = 0usize;
    for life in lives {
        for entry in life.history.as_slice() {
            count = count.saturating_add(is_fault(&entry.outcome) as usize);
        }
    }
    count
}

// How many entries are faults where this one call fails.
fn faults(alloc: Global, call: u64, lines: &str) -> Result<usize, Fail> {
    let head = format!(in alloc; "disk\nfail {call}")?;
    let text = script_text(alloc, &head, lines)?;
    let (lives, _) = lives_of(alloc, &head, &text)?;
    Ok(faults_of(&lives))
}

// Compares how many entries are faults where this call fails.
fn has_faults(
    rt: &impl Abort,
    alloc: Global,
    call: u64,
    lines: &str,
    wanted: usize,
) -> Result<(), Fail> {
    let faults = faults(alloc, call, lines)?;
    assert!(rt; faults == wanted, "{faults} where {call} fails of {lines}");
    Ok(())
}

#[test]
fn each_call_that_fails_is_one_fault(rt: HostRuntime) -> Result<(), Fail> {
    for call in 257..=272 {
        has_faults(&rt, rt.alloc(), call, DISCARD, 1)?;
    }
    has_faults(&rt, rt.alloc(), 273, DISCARD, 0)?;
    for call in 257..=267 {
        has_faults(&rt, rt.alloc(), call, SAVE, 1)?;
    }
    has_faults(&rt, rt.alloc(), 268, SAVE, 0)
}

// Lives that are ended: what the Closer does begins with `q`.
const ENDS: &str = "\
guarded
hotexit trace 1
life 1
name file:///a
w0 create file:///a => created 1
w0 edit file:///a 0 0 =a => edited 2
w0 save file:///a => started 2
q flush file:///a => check none
q vault file:///a => prepare 2 ok
q vault file:///a => body 2 ok
q vault file:///a => open 2 ok
q flush file:///a => saved 2 5000 1
q vault file:///a => fade ok
q vault file:///a => drop ok
q quit => quit
end script
copy file:///a version 2 clean backup none
ticket 3 saved 2

guarded
fail 258
hotexit trace 1
life 1
name file:///a
w0 create file:///a => created 1
w0 edit file:///a 0 0 =a => edited 2
w0 save file:///a => started 2
q flush file:///a => check none
q vault file:///a => prepare 2 fault
q flush file:///a => unguarded 2
q quit => vetoed file:///a
end script
copy file:///a version 2 dirty backup none
ticket 3 unguarded

guarded
fail 258
hotexit trace 1
life 1
name file:///a
w0 create file:///a => created 1
w0 edit file:///a 0 0 =a => edited 2
w0 save file:///a => started 2
s0 flush file:///a => check none
b0 vault file:///a => prepare 2 fault
s0 flush file:///a => unguarded 2
q quit => vetoed file:///a
end script
copy file:///a version 2 dirty backup none
ticket 3 unguarded
> crash 0

disk
hotexit trace 1
life 1
name file:///a
w0 outside file:///a 5000 =one => written
w0 open file:///a => opened 5000 3
w0 edit file:///a 3 0 =! => edited 2
w0 outside file:///a 9000 =two => written
w0 save file:///a => started 2
q flush file:///a => check 9000 3
q flush file:///a => saved 2 6000 4
q quit => quit
end script
copy file:///a version 2 clean backup none
ticket 5 saved 2
";

// The lines of a trace without those of the Closer.
fn without_closer(alloc: Global, lines: &str) -> Result<String, AllocError> {
    let mut out = String::new(alloc);
    for line in lines.lines() {
        if !line.starts_with("q ") {
            out.push_str(line)?;
            out.push('\n')?;
        }
    }
    Ok(out)
}

type Answer = Result<Outcome, AllocError>;

// The life that is ended by asking twice, with both answers.
fn quit(registry: Registry<MemDisk>) -> (Answer, Answer, Life) {
    let mut registry = registry;
    let answer = registry.quit();
    let again = registry.quit();
    let (_, life) = registry.finish(Ended::Script);
    (answer, again, life)
}

// Lets the Closer end the life, and compares what is printed of it and what both questions are answered.
fn closes(rt: &impl Abort, alloc: Global, head: &str, lines: &str) -> Result<(), Fail> {
    let text = script_text(alloc, head, &without_closer(alloc, lines)?)?;
    let mut lives = Vec::new(alloc);
    let (answer, again, life) = quit(played(alloc, head, script(alloc, &text)?, &mut lives)?);
    let (answer, again) = (answer?, again?);
    let last = life.history.as_slice().last().map(|entry| entry.outcome);
    assert_eq!(rt; Some(answer), last, "{lines}");
    assert_eq!(rt; again, answer, "{lines}");
    lives.push(life)?;
    assert!(rt; are_whole(&lives));
    compare(&out(alloc, &lives)?, &trace_text(alloc, lines)?)
}

#[test]
fn a_life_is_ended_by_its_due_stages_and_one_question(rt: HostRuntime) -> Result<(), Fail> {
    for row in ENDS.split("\n\n") {
        let (head, lines, notes) = row_parts(row);
        closes(&rt, rt.alloc(), head, lines)?;
        ends_all(&rt, rt.alloc(), head, lines, notes)?;
    }
    Ok(())
}
