ghost use Rattle.hx_script.specs.Scripts.{IsWellMade};

use crate::refusals::REFUSALS;
use crate::words::{compare, number, parted, read, trace_text};
use hx_base::escape;
use hx_events::{Names, ResNo, line};
use hx_report::pairs;
use hx_script::{Form, Plant, Script, ScriptError, Step, TraceLife, made, read_script, read_trace};
use std::alloc::{AllocError, Global};
use std::process::Abort;
use std::test::Fail;

// The text with a line feed for each `;`.
fn put_lines(out: &mut String, text: &str) -> Result<(), AllocError> {
    let (first, rest) = parted(text, ";");
    out.push_str(first)?;
    if first.len() < text.len() {
        for line in rest.split(';') {
            out.push('\n')?;
            out.push_str(line)?;
        }
    }
    Ok(())
}

fn put_front(out: &mut String, text: &str) -> Result<(), AllocError> {
    if let Some(rest) = text.strip_prefix("@") {
        put_lines(out, "hotexit 1;file a;")?;
        return put_lines(out, rest);
    }
    if let Some(rest) = text.strip_prefix("&") {
        put_lines(out, "hotexit trace 1;life 1;name a;pair 5 twin 0;")?;
        return put_lines(out, rest);
    }
    put_lines(out, text)
}

// The text of a row.
fn bad_text(alloc: Global, text: &str) -> Result<String, AllocError> {
    let mut out = String::new(alloc);
    let (front, repeated) = parted(text, "|");
    put_front(&mut out, front)?;
    let (count, line) = parted(repeated, "|");
    for _ in 0..number(count) {
        put_lines(&mut out, line)?;
    }
    Ok(out)
}

// Why the text is no script, or no trace.
fn refusal(alloc: Global, kind: &str, text: &str) -> Option<ScriptError> {
    let bytes = text.as_bytes();
    match kind {
        "trace" => read_trace(alloc, bytes).err(),
        "Replay" => read_script(alloc, bytes, Form::Replay).err(),
        "Restore" => read_script(alloc, bytes, Form::Restore).err(),
        _ => read_script(alloc, bytes, Form::Run).err(),
    }
}

fn refuses(rt: &impl Abort, alloc: Global, row: &str) -> Result<(), Fail> {
    let (place, text) = parted(row, ": ");
    let (kind, place) = parted(place, " ");
    let (line, why) = parted(place, " ");
    let error = refusal(alloc, kind, bad_text(alloc, text)?.as_str()).ok_or("nothing refused")?;
    let wanted = format!(in alloc; "line {line} is bad: {why}")?;
    assert_eq!(rt; format!(in alloc; "{error}")?, wanted, "{row}");
    Ok(())
}

#[test]
fn texts_are_refused_at_their_first_bad_line_with_its_first_reason(
    rt: HostRuntime,
) -> Result<(), Fail> {
    for row in REFUSALS.lines() {
        refuses(&rt, rt.alloc(), row)?;
    }
    Ok(())
}

fn put_names(out: &mut Vec<u8>, names: &Names) -> Result<(), AllocError> {
    for place in 0..names.len() {
        out.extend_from_slice(b"file ")?;
        out.extend_from_slice(names.text(ResNo::new(place as u32)))?;
        out.push(b'\n')?;
    }
    Ok(())
}

fn put_plants(alloc: Global, out: &mut Vec<u8>, plants: &[Plant]) -> Result<(), AllocError> {
    for plant in plants {
        let front = format!(in alloc; "slot {} =", plant.file.number())?;
        out.extend_from_slice(front.as_bytes())?;
        out.extend_from_slice(&escape(alloc, plant.bytes.as_slice())?)?;
        out.push(b'\n')?;
    }
    Ok(())
}

// The text that the script is read from.
fn written(alloc: Global, script: &Script) -> Result<Vec<u8>, AllocError>
    requires { IsWellMade script.now }
{
    let mut out = Vec::from_slice(alloc, b"hotexit 1\n")?;
    put_names(&mut out, &script.names)?;
    put_plants(alloc, &mut out, script.slots.as_slice())?;
    for step in script.steps.as_slice() {
        match step {
            Step::Do(actor, event) => {
                out.extend_from_slice(&line(alloc, &script.names, *actor, event)?)?;
            }
            Step::Crash(pick) => {
                out.extend_from_slice(format!(in alloc; "crash {pick}")?.as_bytes())?;
            }
            Step::Restart => out.extend_from_slice(b"restart")?,
        }
        out.push(b'\n')?;
    }
    Ok(out)
}

const SCRIPT: &str = "\
hotexit 1
file a
slot 3 =%01x
w0 edit a 0 1 =y%0A
w7 save a force over
crash 2
v0 revert a
restart
";

#[test]
fn scripts_are_read_whole(rt: HostRuntime) -> Result<(), Fail> {
    match read_script(rt.alloc(), SCRIPT.as_bytes(), Form::Replay) {
        Ok(script) => compare(&written(rt.alloc(), &script)?, SCRIPT),
        Err(error) => Err(Fail::new(error)),
    }
}

// The first generated script: eight windows, eight turns and a restart.
const MADE: &str = "\
hotexit 1
file mem:/0
file mem:/1
file mem:/2
file mem:/3
file mem:/4
file mem:/5
file mem:/6
file mem:/7
w0 create mem:/0
w1 create mem:/1
w2 create mem:/2
w3 create mem:/3
w4 create mem:/4
w5 create mem:/5
w6 create mem:/6
w7 create mem:/7
w5 edit mem:/5 0 0 =1
s0 flush mem:/1
b0 vault mem:/1
b0 vault mem:/4
w3 edit mem:/3 0 0 =5
s0 flush mem:/3
b0 vault mem:/7
w1 edit mem:/1 0 0 =8
restart
";

#[test]
fn the_first_generated_script_is_made_whole(rt: HostRuntime) -> Result<(), Fail> {
    let script = made(rt.alloc(), 1)?;
    compare(&written(rt.alloc(), &script)?, MADE)
}

// Two lives, in each of which the first pair holds a backup.
const TWO_LIVES: &str = "\
life 1
name a
w0 create a => created 1
w0 edit a 0 0 =hello => edited 2
b0 vault a => prepare 2 ok
b0 vault a => body 2 ok
b0 vault a => open 2 ok
q quit => quit
end restart
copy a version 2 dirty backup 2
life 2
name a
pair 0 restored a 5000 3 =hello
end script
copy a version 1 dirty backup 1
ticket 1 saved 2";

// Of each life the lines of its first entry and of its tail, how many names, pairs, entries and lines of its tail there are, and its
// pairs.
const READ: &str = "\
4 11: 1 64 6 1
15 16: 1 64 0 2
pair 0 restored a 5000 3 =hello
";

fn put_read(alloc: Global, out: &mut Vec<u8>, told: &TraceLife) -> Result<(), AllocError> {
    let life = &told.life;
    let (names, base) = (life.names.len(), life.base.as_slice());
    let (entries, tail) = (life.history.as_slice().len(), told.tail.as_slice().len());
    let (first, behind) = (told.first, told.tail_line);
    let pairs_read = base.len();
    let counts = format!(in alloc; "{first} {behind}: {names} {pairs_read} {entries} {tail}\n")?;
    out.extend_from_slice(counts.as_bytes())?;
    out.extend_from_slice(&pairs(alloc, base)?)
}

#[test]
fn traces_are_read_whole(rt: HostRuntime) -> Result<(), Fail> {
    let alloc = rt.alloc();
    let text = trace_text(alloc, TWO_LIVES)?;
    let trace = read(alloc, &text)?;
    let mut out = Vec::new(alloc);
    for told in trace.lives.as_slice() {
        put_read(alloc, &mut out, told)?;
    }
    compare(&out, READ)
}
