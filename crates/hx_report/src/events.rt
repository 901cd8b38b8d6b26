//! The texts of events and outcomes, appended to a buffer.

ghost use Rattle.std.specs.Prelude.{◌≡◌, ◌<◌, ◌++◌, [], ◌∷◌, length, codes, decimal, OnOk};
ghost use Rattle.hx_events.specs.Texts.{spaced, name_of, resource_of, IsEventOf, IsOutcomeOf, actor_text, text_field, word_if, command_fields, line_text, stage_word, stat_fields, found_fields, stage_fields, outcome_line};

use crate::put::{put_decimal, put_field, put_number, put_text};
use hx_etag::Stat;
use hx_events::{Actor, Command, Event, Names, Outcome, ResNo, Stage};
use std::alloc::{AllocError, Global};

fn put_numbered(out: &mut Vec<u8>, letter: u8, number: u8) -> Result<(), AllocError>
    ensures { OnOk result (out.new.items ≡ out.old.items ++ letter ∷ decimal number) }
{
    out.push(letter)?;
    put_decimal(out, u64::from(number))
}

fn put_actor(out: &mut Vec<u8>, actor: Actor) -> Result<(), AllocError>
    ensures { OnOk result (out.new.items ≡ out.old.items ++ actor_text actor) }
{
    match actor {
        Actor::Window(number) => put_numbered(out, b'w', number),
        Actor::Writer(number) => put_numbered(out, b'b', number),
        Actor::Saver(number) => put_numbered(out, b's', number),
        Actor::Closer => out.extend_from_slice(b"q"),
        Actor::Watcher => out.extend_from_slice(b"v0"),
    }
}

// The word and the resource, each behind a blank.
fn put_named(out: &mut Vec<u8>, word: &[u8], names: &Names, res: ResNo) -> Result<(), AllocError>
    requires { res < length names.now }
    ensures { OnOk result (out.new.items ≡ out.old.items ++ spaced (word.now ∷ name_of names.now res ∷ [])) }
{
    put_field(out, word)?;
    put_field(out, names.text(res))
}

fn put_edit(
    alloc: Global,
    out: &mut Vec<u8>,
    off: u64,
    del: u64,
    text: &[u8],
) -> Result<(), AllocError>
    ensures { OnOk result (out.new.items ≡ out.old.items ++ spaced (decimal off ∷ decimal del ∷ text_field text.now ∷ [])) }
{
    put_number(out, off)?;
    put_number(out, del)?;
    put_text(alloc, out, text)
}

fn put_flags(out: &mut Vec<u8>, force: bool, over: bool) -> Result<(), AllocError>
    ensures { OnOk result (out.new.items ≡ out.old.items ++ spaced (word_if force (codes "force") ++ word_if over (codes "over"))) }
{
    match (force, over) {
        (false, false) => Ok(()),
        (true, false) => put_field(out, b"force"),
        (false, true) => put_field(out, b"over"),
        (true, true) => out.extend_from_slice(b" force over"),
    }
}

fn put_outside(alloc: Global, out: &mut Vec<u8>, mtime: u64, text: &[u8]) -> Result<(), AllocError>
    ensures { OnOk result (out.new.items ≡ out.old.items ++ spaced (decimal mtime ∷ text_field text.now ∷ [])) }
{
    put_number(out, mtime)?;
    put_text(alloc, out, text)
}

fn put_command(
    alloc: Global,
    out: &mut Vec<u8>,
    names: &Names,
    command: &Command,
) -> Result<(), AllocError>
    requires { resource_of command.now < length names.now }
    ensures { OnOk result (out.new.items ≡ out.old.items ++ spaced (command_fields names.now command.now)) }
{
    match command {
        Command::Open(res) => put_named(out, b"open", names, *res),
        Command::Create(res) => put_named(out, b"create", names, *res),
        Command::Edit {
            res,
            off,
            del,
            text,
        } => {
            put_named(out, b"edit", names, *res)?;
            put_edit(alloc, out, *off, *del, text.as_slice())
        }
        Command::Undo(res) => put_named(out, b"undo", names, *res),
        Command::Redo(res) => put_named(out, b"redo", names, *res),
        Command::Save { res, force, over } => {
            put_named(out, b"save", names, *res)?;
            put_flags(out, *force, *over)
        }
        Command::Revert(res) => put_named(out, b"revert", names, *res),
        Command::Close(res) => put_named(out, b"close", names, *res),
        Command::Outside { res, mtime, text } => {
            put_named(out, b"outside", names, *res)?;
            put_outside(alloc, out, *mtime, text.as_slice())
        }
    }
}

// The line of the event, without its line feed.
pub(crate) fn put_line(
    alloc: Global,
    out: &mut Vec<u8>,
    names: &Names,
    actor: Actor,
    event: &Event,
) -> Result<(), AllocError>
    requires { IsEventOf names.now event.now }
    ensures { OnOk result (out.new.items ≡ out.old.items ++ line_text names.now actor event.now) }
{
    put_actor(out, actor)?;
    match event {
        Event::Act(command) => put_command(alloc, out, names, command),
        Event::Vault(res) => put_named(out, b"vault", names, *res),
        Event::Flush(res) => put_named(out, b"flush", names, *res),
        Event::Quit => put_field(out, b"quit"),
    }
}

fn put_version(out: &mut Vec<u8>, word: &[u8], version: u64) -> Result<(), AllocError>
    ensures { OnOk result (out.new.items ≡ out.old.items ++ word.now ++ spaced (decimal version ∷ [])) }
{
    out.extend_from_slice(word)?;
    put_number(out, version)
}

fn put_stat(out: &mut Vec<u8>, word: &[u8], stat: Stat) -> Result<(), AllocError>
    ensures { OnOk result (out.new.items ≡ out.old.items ++ word.now ++ spaced (stat_fields stat)) }
{
    out.extend_from_slice(word)?;
    put_number(out, stat.mtime)?;
    put_number(out, stat.size)
}

fn put_found(out: &mut Vec<u8>, word: &[u8], found: Option<Stat>) -> Result<(), AllocError>
    ensures { OnOk result (out.new.items ≡ out.old.items ++ word.now ++ spaced (found_fields found)) }
{
    match found {
        Some(stat) => put_stat(out, word, stat),
        None => {
            out.extend_from_slice(word)?;
            put_field(out, b"none")
        }
    }
}

fn put_saved(out: &mut Vec<u8>, version: u64, found: Option<Stat>) -> Result<(), AllocError>
    ensures { OnOk result (out.new.items ≡ out.old.items ++ codes "saved" ++ spaced (decimal version ∷ found_fields found)) }
{
    put_version(out, b"saved", version)?;
    put_found(out, b"", found)
}

fn put_write_fault(out: &mut Vec<u8>, version: u64) -> Result<(), AllocError>
    ensures { OnOk result (out.new.items ≡ out.old.items ++ codes "write" ++ spaced (decimal version ∷ codes "fault" ∷ [])) }
{
    put_version(out, b"write", version)?;
    put_field(out, b"fault")
}

fn put_backup_stage(
    out: &mut Vec<u8>,
    word: &[u8],
    version: u64,
    end: &[u8],
) -> Result<(), AllocError>
    ensures { OnOk result (out.new.items ≡ out.old.items ++ word.now ++ spaced (decimal version ∷ end.now ∷ [])) }
{
    put_version(out, word, version)?;
    put_field(out, end)
}

fn put_discard_stage(out: &mut Vec<u8>, word: &[u8], end: &[u8]) -> Result<(), AllocError>
    ensures { OnOk result (out.new.items ≡ out.old.items ++ word.now ++ spaced (end.now ∷ [])) }
{
    out.extend_from_slice(word)?;
    put_field(out, end)
}

fn put_stage(out: &mut Vec<u8>, stage: Stage, version: u64, end: &[u8]) -> Result<(), AllocError>
    ensures { OnOk result (out.new.items ≡ out.old.items ++ stage_word stage ++ spaced (stage_fields stage version end.now)) }
{
    match stage {
        Stage::Prepare => put_backup_stage(out, b"prepare", version, end),
        Stage::Body => put_backup_stage(out, b"body", version, end),
        Stage::Open => put_backup_stage(out, b"open", version, end),
        Stage::Fade => put_discard_stage(out, b"fade", end),
        Stage::Drop => put_discard_stage(out, b"drop", end),
    }
}

// The text of the outcome.
pub(crate) fn put_outcome(
    out: &mut Vec<u8>,
    names: &Names,
    outcome: &Outcome,
) -> Result<(), AllocError>
    requires { IsOutcomeOf names.now outcome.now }
    ensures { OnOk result (out.new.items ≡ out.old.items ++ outcome_line names.now outcome.now) }
{
    match outcome {
        Outcome::Opened(stat) => put_stat(out, b"opened", *stat),
        Outcome::Created(version) => put_version(out, b"created", *version),
        Outcome::Edited(version) => put_version(out, b"edited", *version),
        Outcome::Undone(version) => put_version(out, b"undone", *version),
        Outcome::Redone(version) => put_version(out, b"redone", *version),
        Outcome::Joined => out.extend_from_slice(b"joined"),
        Outcome::Clean => out.extend_from_slice(b"clean"),
        Outcome::Queued => out.extend_from_slice(b"queued"),
        Outcome::Started(version) => put_version(out, b"started", *version),
        Outcome::Reverted(stat) => put_stat(out, b"reverted", *stat),
        Outcome::Closed => out.extend_from_slice(b"closed"),
        Outcome::Written => out.extend_from_slice(b"written"),
        Outcome::Missing => out.extend_from_slice(b"missing"),
        Outcome::NoPair => out.extend_from_slice(b"nopair"),
        Outcome::AlreadyOpen => out.extend_from_slice(b"alreadyopen"),
        Outcome::NotOpen => out.extend_from_slice(b"notopen"),
        Outcome::OutOfContent => out.extend_from_slice(b"outofcontent"),
        Outcome::TooLarge => out.extend_from_slice(b"toolarge"),
        Outcome::NoUndo => out.extend_from_slice(b"noundo"),
        Outcome::NoRedo => out.extend_from_slice(b"noredo"),
        Outcome::Saving => out.extend_from_slice(b"saving"),
        Outcome::Fault => out.extend_from_slice(b"fault"),
        Outcome::Idle => out.extend_from_slice(b"idle"),
        Outcome::Spent => out.extend_from_slice(b"spent"),
        Outcome::StageOk(stage, version) => put_stage(out, *stage, *version, b"ok"),
        Outcome::StageFault(stage, version) => put_stage(out, *stage, *version, b"fault"),
        Outcome::Checked(found) => put_found(out, b"check", *found),
        Outcome::Modified(stat) => put_stat(out, b"modified", *stat),
        Outcome::CheckFault => out.extend_from_slice(b"check fault"),
        Outcome::Saved(version, found) => put_saved(out, *version, *found),
        Outcome::WriteFault(version) => put_write_fault(out, *version),
        Outcome::Unguarded(version) => put_version(out, b"unguarded", *version),
        Outcome::Quit => out.extend_from_slice(b"quit"),
        Outcome::Vetoed(res) => put_vetoed(out, names, *res),
    }
}

fn put_vetoed(out: &mut Vec<u8>, names: &Names, res: ResNo) -> Result<(), AllocError>
    requires { res < length names.now }
    ensures { OnOk result (out.new.items ≡ out.old.items ++ codes "vetoed" ++ spaced (name_of names.now res ∷ [])) }
{
    out.extend_from_slice(b"vetoed")?;
    put_field(out, names.text(res))
}
