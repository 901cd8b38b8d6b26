ghost use Rattle.std.specs.Prelude.{◌≡◌, ◌<◌, length, IfOk};
ghost use Rattle.hx_events.specs.Texts.{IsEventOf, IsOutcomeOf, resource_of};
ghost use Rattle.hx_events.specs.declared.event.Event.TheVariants.{Act};

use crate::tables::{Row, repeated};
use hx_events::{
    Actor, Bytes, Command, Event, Names, Outcome, ResNo, Stage, is_resource, line, outcome_text,
};
use std::alloc::Global;
use std::process::Abort;
use std::test::Fail;

// A list of names with one resource.
fn one_name(alloc: Global) -> Result<(Names, ResNo), Fail>
    ensures { IfOk result (λ pair. pair.1 < length pair.0) }
{
    let mut names = Names::new(alloc);
    match names.add(Vec::from_slice(alloc, b"file:///a")?) {
        Ok(res) => Ok((names, res)),
        Err(_) => Err(Fail::from("no memory for a name")),
    }
}

fn is_added(alloc: Global, names: &mut Names, byte: u8) -> Result<bool, Fail> {
    let name = Vec::from_slice(alloc, &[byte])?;
    if names.len() != usize::from(byte) || names.find(&name).is_some() {
        return Ok(false);
    }
    Ok(names.add(name).is_ok())
}

fn is_found(names: &Names, byte: u8) -> bool {
    match names.find(&[byte]) {
        Some(res) => res.number() == u32::from(byte),
        None => false,
    }
}

// How often a byte is repeated, the byte, and whether that is the name of a resource.
const RESOURCES: &str = "\
0 =a no
1 =! yes
1000 =~ yes
1001 =a no
3 =%20 no
3 =%7F no
3 =%FF no";

fn is_judged(alloc: Global, mut row: Row) -> Result<bool, Fail> {
    let count = row.number().unwrap_or(0);
    let text = repeated(alloc, &row.bytes(alloc)?, count)?;
    Ok(is_resource(&text) == (row.field() == "yes"))
}

fn fills(rt: &impl Abort, alloc: Global, names: &mut Names) -> Result<(), Fail> {
    for byte in 0..=255u8 {
        assert!(rt; is_added(alloc, names, byte)?, "{byte}");
    }
    Ok(())
}

fn finds_each(rt: &impl Abort, names: &Names) {
    for byte in 0..=255u8 {
        assert!(rt; is_found(names, byte), "{byte}");
    }
}

#[test]
fn a_list_takes_256_names_of_1_to_1000_printable_bytes_and_finds_each(
    rt: HostRuntime,
) -> Result<(), Fail> {
    for line in RESOURCES.lines() {
        assert!(rt; is_judged(rt.alloc(), Row::new(line))?, "{line}");
    }
    let mut names = Names::new(rt.alloc());
    fills(&rt, rt.alloc(), &mut names)?;
    finds_each(&rt, &names);
    Ok(())
}

// Lines of events of one resource.
const LINES: &str = "\
w0 open file:///a
w7 create file:///a
w7 edit file:///a 100 0 =fix%0A
w0 undo file:///a
w0 redo file:///a
w0 save file:///a
w0 save file:///a force
w0 save file:///a over
w0 save file:///a force over
w0 revert file:///a
v0 revert file:///a
w0 close file:///a
w0 outside file:///a 18446744073709551615 =
b3 vault file:///a
q vault file:///a
s0 flush file:///a
q quit";

fn actor(field: &str) -> Actor {
    match field {
        "w0" => Actor::Window(0),
        "w7" => Actor::Window(7),
        "b3" => Actor::Writer(3),
        "s0" => Actor::Saver(0),
        "v0" => Actor::Watcher,
        _ => Actor::Closer,
    }
}

fn written(alloc: Global, names: &Names, actor: Actor, event: Event) -> Result<Vec<u8>, Fail>
    requires { IsEventOf names.now event }
{
    Ok(line(alloc, names, actor, &event)?)
}

fn act(alloc: Global, names: &Names, actor: Actor, command: Command) -> Result<Vec<u8>, Fail>
    requires { IsEventOf names.now (Act command) }
{
    written(alloc, names, actor, Event::Act(command))
}

fn edit(alloc: Global, res: ResNo, mut row: Row) -> Result<Command, Fail>
    ensures { IfOk result (λ command. resource_of command ≡ res) }
{
    let off = row.number().unwrap_or(0);
    let del = row.number().unwrap_or(0);
    let text = Bytes::new(row.bytes(alloc)?);
    Ok(Command::Edit {
        res,
        off,
        del,
        text,
    })
}

fn outside(alloc: Global, res: ResNo, mut row: Row) -> Result<Command, Fail>
    ensures { IfOk result (λ command. resource_of command ≡ res) }
{
    let mtime = row.number().unwrap_or(0);
    let text = Bytes::new(row.bytes(alloc)?);
    Ok(Command::Outside { res, mtime, text })
}

fn save(res: ResNo, mut row: Row) -> Command
    ensures { resource_of result ≡ res }
{
    let first = row.field();
    Command::Save {
        res,
        force: first == "force",
        over: first == "over" || row.field() == "over",
    }
}

// The line of the event that a line names.
fn line_again(alloc: Global, names: &Names, res: ResNo, line: &str) -> Result<Vec<u8>, Fail>
    requires { res < length names.now }
{
    let mut row = Row::new(line);
    let actor = actor(row.field());
    let word = row.field();
    let _ = row.field();
    match word {
        "open" => act(alloc, names, actor, Command::Open(res)),
        "create" => act(alloc, names, actor, Command::Create(res)),
        "edit" => act(alloc, names, actor, edit(alloc, res, row)?),
        "undo" => act(alloc, names, actor, Command::Undo(res)),
        "redo" => act(alloc, names, actor, Command::Redo(res)),
        "save" => act(alloc, names, actor, save(res, row)),
        "revert" => act(alloc, names, actor, Command::Revert(res)),
        "close" => act(alloc, names, actor, Command::Close(res)),
        "outside" => act(alloc, names, actor, outside(alloc, res, row)?),
        "vault" => written(alloc, names, actor, Event::Vault(res)),
        "flush" => written(alloc, names, actor, Event::Flush(res)),
        _ => written(alloc, names, actor, Event::Quit),
    }
}

// Texts of outcomes.
const OUTCOMES: &str = "\
opened 7000 40024
reverted 7000 40024
created 1
edited 2
undone 3
redone 4
started 5
joined
clean
queued
closed
written
missing
nopair
alreadyopen
notopen
outofcontent
toolarge
noundo
noredo
saving
fault
idle
spent
prepare 7 ok
body 7 ok
open 7 ok
fade ok
drop ok
prepare 7 fault
body 7 fault
open 7 fault
fade fault
drop fault
check none
check 7000 40024
check fault
modified 7000 40024
saved 7 7000 40024
saved 7 none
write 2 fault
unguarded 2
quit
vetoed file:///a";

fn text(alloc: Global, names: &Names, outcome: Outcome) -> Result<Vec<u8>, Fail>
    requires { IsOutcomeOf names.now outcome }
{
    Ok(outcome_text(alloc, names, &outcome)?)
}

fn text_of_word(alloc: Global, names: &Names, word: &str) -> Result<Vec<u8>, Fail> {
    match word {
        "joined" => text(alloc, names, Outcome::Joined),
        "clean" => text(alloc, names, Outcome::Clean),
        "queued" => text(alloc, names, Outcome::Queued),
        "closed" => text(alloc, names, Outcome::Closed),
        "written" => text(alloc, names, Outcome::Written),
        "missing" => text(alloc, names, Outcome::Missing),
        "nopair" => text(alloc, names, Outcome::NoPair),
        "alreadyopen" => text(alloc, names, Outcome::AlreadyOpen),
        "notopen" => text(alloc, names, Outcome::NotOpen),
        "outofcontent" => text(alloc, names, Outcome::OutOfContent),
        "toolarge" => text(alloc, names, Outcome::TooLarge),
        "noundo" => text(alloc, names, Outcome::NoUndo),
        "noredo" => text(alloc, names, Outcome::NoRedo),
        "saving" => text(alloc, names, Outcome::Saving),
        "fault" => text(alloc, names, Outcome::Fault),
        "idle" => text(alloc, names, Outcome::Idle),
        "spent" => text(alloc, names, Outcome::Spent),
        _ => text(alloc, names, Outcome::Quit),
    }
}

fn text_of_stage(
    alloc: Global,
    names: &Names,
    stage: Stage,
    mut row: Row,
) -> Result<Vec<u8>, Fail> {
    let version = match stage {
        Stage::Prepare | Stage::Body | Stage::Open => row.number().unwrap_or(0),
        Stage::Fade | Stage::Drop => 0,
    };
    if row.field() == "ok" {
        text(alloc, names, Outcome::StageOk(stage, version))
    } else {
        text(alloc, names, Outcome::StageFault(stage, version))
    }
}

fn text_of_stat(alloc: Global, names: &Names, word: &str, mut row: Row) -> Result<Vec<u8>, Fail> {
    let Some(stat) = row.stat() else {
        return Err(Fail::from("no stat"));
    };
    match word {
        "opened" => text(alloc, names, Outcome::Opened(stat)),
        "reverted" => text(alloc, names, Outcome::Reverted(stat)),
        _ => text(alloc, names, Outcome::Modified(stat)),
    }
}

fn text_of_version(
    alloc: Global,
    names: &Names,
    word: &str,
    mut row: Row,
) -> Result<Vec<u8>, Fail> {
    let version = row.number().unwrap_or(0);
    match word {
        "created" => text(alloc, names, Outcome::Created(version)),
        "edited" => text(alloc, names, Outcome::Edited(version)),
        "undone" => text(alloc, names, Outcome::Undone(version)),
        "redone" => text(alloc, names, Outcome::Redone(version)),
        "started" => text(alloc, names, Outcome::Started(version)),
        "saved" => text(alloc, names, Outcome::Saved(version, row.stat())),
        "write" => text(alloc, names, Outcome::WriteFault(version)),
        _ => text(alloc, names, Outcome::Unguarded(version)),
    }
}

// The text of the outcome that a text names.
fn text_again(alloc: Global, names: &Names, res: ResNo, line: &str) -> Result<Vec<u8>, Fail>
    requires { res < length names.now }
{
    let mut row = Row::new(line);
    let word = row.field();
    match word {
        "opened" | "reverted" | "modified" => text_of_stat(alloc, names, word, row),
        "created" | "edited" | "undone" | "redone" | "started" | "saved" | "write" | "unguarded" =>
            text_of_version(alloc, names, word, row),
        "prepare" => text_of_stage(alloc, names, Stage::Prepare, row),
        "body" => text_of_stage(alloc, names, Stage::Body, row),
        "open" => text_of_stage(alloc, names, Stage::Open, row),
        "fade" => text_of_stage(alloc, names, Stage::Fade, row),
        "drop" => text_of_stage(alloc, names, Stage::Drop, row),
        "check" if line == "check fault" => text(alloc, names, Outcome::CheckFault),
        "check" => text(alloc, names, Outcome::Checked(row.stat())),
        "vetoed" => text(alloc, names, Outcome::Vetoed(res)),
        _ => text_of_word(alloc, names, word),
    }
}

fn have_texts(rt: &impl Abort, alloc: Global, names: &Names, res: ResNo) -> Result<(), Fail>
    requires { res < length names.now }
{
    for each in LINES.lines() {
        assert!(rt;
            line_again(alloc, names, res, each)?.as_slice() == each.as_bytes(),
            "{each}"
        );
    }
    for each in OUTCOMES.lines() {
        assert!(rt;
            text_again(alloc, names, res, each)?.as_slice() == each.as_bytes(),
            "{each}"
        );
    }
    Ok(())
}

#[test]
fn events_and_outcomes_have_their_texts(rt: HostRuntime) -> Result<(), Fail> {
    let (names, res) = one_name(rt.alloc())?;
    assert!(rt; names.text(res) == b"file:///a".as_slice());
    have_texts(&rt, rt.alloc(), &names, res)
}
