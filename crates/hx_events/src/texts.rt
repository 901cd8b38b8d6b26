//! The texts of events and outcomes.

ghost use Rattle.std.specs.Prelude.{◌≡◌, ◌<◌, ◌++◌, [], ◌∷◌, ℕ, true, map, length, codes, decimal, OnOk, IfOk};
ghost use Rattle.hx_base.specs.Escapes.{escaped};
ghost use Rattle.hx_events.specs.Fields.{are_words, fields_of};
ghost use Rattle.hx_events.specs.Texts.{spaced, name_of, resource_of, IsEventOf, IsOutcomeOf, actor_text, text_field, word_if, command_fields, event_fields, line_text, stage_word, stat_fields, found_fields, stage_fields, outcome_word, outcome_fields, outcome_line};

use crate::{Actor, Command, Event, Names, Outcome, ResNo, Stage};
use hx_base::{decimal, escape};
use hx_etag::Stat;
use std::alloc::{AllocError, Global};

// each field behind one blank
fn put_fields(out: &mut Vec<u8>, fields: &[&[u8]]) -> Result<(), AllocError>
    ensures { OnOk result (out.new.items ≡ out.old.items ++ spaced (map (λ field. field.now) fields.now)) }
{
    for field in fields {
        out.push(b' ')?;
        out.extend_from_slice(field)?;
    }
    Ok(())
}

fn put_text(alloc: Global, out: &mut Vec<u8>, text: &[u8]) -> Result<(), AllocError>
    ensures { OnOk result (out.new.items ≡ out.old.items ++ spaced (text_field text.now ∷ [])) }
{
    out.extend_from_slice(b" =")?;
    out.extend_from_slice(&escape(alloc, text)?)?;
    Ok(())
}

// the word and, behind blanks, the fields
fn words(alloc: Global, word: &[u8], fields: &[&[u8]]) -> Result<Vec<u8>, AllocError>
    ensures { IfOk result (λ text. text.items ≡ word.now ++ spaced (map (λ field. field.now) fields.now)) }
{
    let mut out = Vec::from_slice(alloc, word)?;
    put_fields(&mut out, fields)?;
    Ok(out)
}

fn name<'a>(names: &'a Names, res: ResNo) -> &'a [u8]
    requires { res < length names.now }
    ensures { result.now ≡ name_of names.now res }
{
    names.text(res)
}

fn numbered(alloc: Global, letter: &[u8], number: u8) -> Result<Vec<u8>, AllocError>
    ensures { IfOk result (λ text. text.items ≡ letter.now ++ decimal number) }
{
    let mut out = Vec::from_slice(alloc, letter)?;
    out.extend_from_slice(&decimal(alloc, u64::from(number))?)?;
    Ok(out)
}

fn actor_name(alloc: Global, actor: Actor) -> Result<Vec<u8>, AllocError>
    ensures { IfOk result (λ text. text.items ≡ actor_text actor) }
{
    match actor {
        Actor::Window(number) => numbered(alloc, b"w", number),
        Actor::Writer(number) => numbered(alloc, b"b", number),
        Actor::Saver(number) => numbered(alloc, b"s", number),
        Actor::Closer => Vec::from_slice(alloc, b"q"),
        Actor::Watcher => Vec::from_slice(alloc, b"v0"),
    }
}

fn put_edit(
    alloc: Global,
    out: &mut Vec<u8>,
    name: &[u8],
    off: u64,
    del: u64,
    text: &[u8],
) -> Result<(), AllocError>
    ensures { OnOk result (out.new.items ≡ out.old.items ++ spaced (codes "edit" ∷ name.now ∷ decimal off ∷ decimal del ∷ text_field text.now ∷ [])) }
{
    let off = decimal(alloc, off)?;
    let del = decimal(alloc, del)?;
    put_fields(out, &[b"edit", name, &off, &del])?;
    put_text(alloc, out, text)
}

fn put_save(out: &mut Vec<u8>, name: &[u8], force: bool, over: bool) -> Result<(), AllocError>
    ensures { OnOk result (out.new.items ≡ out.old.items ++ spaced (codes "save" ∷ name.now ∷ word_if force (codes "force") ++ word_if over (codes "over"))) }
{
    match (force, over) {
        (false, false) => put_fields(out, &[b"save", name]),
        (true, false) => put_fields(out, &[b"save", name, b"force"]),
        (false, true) => put_fields(out, &[b"save", name, b"over"]),
        (true, true) => put_fields(out, &[b"save", name, b"force", b"over"]),
    }
}

fn put_outside(
    alloc: Global,
    out: &mut Vec<u8>,
    name: &[u8],
    mtime: u64,
    text: &[u8],
) -> Result<(), AllocError>
    ensures { OnOk result (out.new.items ≡ out.old.items ++ spaced (codes "outside" ∷ name.now ∷ decimal mtime ∷ text_field text.now ∷ [])) }
{
    let mtime = decimal(alloc, mtime)?;
    put_fields(out, &[b"outside", name, &mtime])?;
    put_text(alloc, out, text)
}

fn put_command(
    alloc: Global,
    out: &mut Vec<u8>,
    names: &Names,
    command: &Command,
) -> Result<(), AllocError>
    requires { resource_of command.now < length names.now }
    ensures { OnOk result (out.new.items ≡ out.old.items ++ spaced (command_fields names.now command.now)) }
{
    match command {
        Command::Open(res) => put_fields(out, &[b"open", name(names, *res)]),
        Command::Create(res) => put_fields(out, &[b"create", name(names, *res)]),
        Command::Edit {
            res,
            off,
            del,
            text,
        } => put_edit(alloc, out, name(names, *res), *off, *del, text.as_slice()),
        Command::Undo(res) => put_fields(out, &[b"undo", name(names, *res)]),
        Command::Redo(res) => put_fields(out, &[b"redo", name(names, *res)]),
        Command::Save { res, force, over } => put_save(out, name(names, *res), *force, *over),
        Command::Revert(res) => put_fields(out, &[b"revert", name(names, *res)]),
        Command::Close(res) => put_fields(out, &[b"close", name(names, *res)]),
        Command::Outside { res, mtime, text } => put_outside(
            alloc,
            out,
            name(names, *res),
            *mtime,
            text.as_slice(),
        ),
    }
}

fn written_line(
    alloc: Global,
    names: &Names,
    actor: Actor,
    event: &Event,
) -> Result<Vec<u8>, AllocError>
    requires { IsEventOf names.now event.now }
    ensures { IfOk result (λ text. text.items ≡ line_text names.now actor event.now) }
{
    let mut out = actor_name(alloc, actor)?;
    match event {
        Event::Act(command) => put_command(alloc, &mut out, names, command)?,
        Event::Vault(res) => put_fields(&mut out, &[b"vault", name(names, *res)])?,
        Event::Flush(res) => put_fields(&mut out, &[b"flush", name(names, *res)])?,
        Event::Quit => put_fields(&mut out, &[b"quit"])?,
    }
    Ok(out)
}

/// The line of an event, without its line feed: the actor, the word of the event and what it has, parted by single
/// blanks. A text stands behind `=`, escaped.
#[tactic(auto, using(crate::proofs::FieldLemmas::line_read_back))]
pub fn line(
    alloc: Global,
    names: &Names,
    actor: Actor,
    event: &Event,
) -> Result<Vec<u8>, AllocError>
    requires { IsEventOf names.now event.now }
    ensures text { IfOk result (λ text. text.items ≡ line_text names.now actor event.now) }

    // Where no name has a blank, parting the line at its blanks gives the fields again.
    ensures fields { are_words names.now ≡ true → IfOk result (λ text. fields_of text.items ≡ actor_text actor ∷ event_fields names.now event.now) }
{
    written_line(alloc, names, actor, event)
}

fn with_version(alloc: Global, word: &[u8], version: u64) -> Result<Vec<u8>, AllocError>
    ensures { IfOk result (λ text. text.items ≡ word.now ++ spaced (decimal version ∷ [])) }
{
    words(alloc, word, &[&decimal(alloc, version)?])
}

fn with_stat(alloc: Global, word: &[u8], stat: Stat) -> Result<Vec<u8>, AllocError>
    ensures { IfOk result (λ text. text.items ≡ word.now ++ spaced (stat_fields stat)) }
{
    words(
        alloc,
        word,
        &[&decimal(alloc, stat.mtime)?, &decimal(alloc, stat.size)?],
    )
}

fn checked(alloc: Global, found: Option<Stat>) -> Result<Vec<u8>, AllocError>
    ensures { IfOk result (λ text. text.items ≡ codes "check" ++ spaced (found_fields found)) }
{
    match found {
        Some(stat) => with_stat(alloc, b"check", stat),
        None => words(alloc, b"check", &[b"none"]),
    }
}

fn saved(alloc: Global, version: u64, found: Option<Stat>) -> Result<Vec<u8>, AllocError>
    ensures { IfOk result (λ text. text.items ≡ codes "saved" ++ spaced (decimal version ∷ found_fields found)) }
{
    let version = decimal(alloc, version)?;
    match found {
        Some(stat) => words(
            alloc,
            b"saved",
            &[
                &version,
                &decimal(alloc, stat.mtime)?,
                &decimal(alloc, stat.size)?,
            ],
        ),
        None => words(alloc, b"saved", &[&version, b"none"]),
    }
}

fn write_failed(alloc: Global, version: u64) -> Result<Vec<u8>, AllocError>
    ensures { IfOk result (λ text. text.items ≡ codes "write" ++ spaced (decimal version ∷ codes "fault" ∷ [])) }
{
    words(alloc, b"write", &[&decimal(alloc, version)?, b"fault"])
}

fn staged(alloc: Global, stage: Stage, version: u64, end: &[u8]) -> Result<Vec<u8>, AllocError>
    ensures { IfOk result (λ text. text.items ≡ stage_word stage ++ spaced (stage_fields stage version end.now)) }
{
    match stage {
        Stage::Prepare => words(alloc, b"prepare", &[&decimal(alloc, version)?, end]),
        Stage::Body => words(alloc, b"body", &[&decimal(alloc, version)?, end]),
        Stage::Open => words(alloc, b"open", &[&decimal(alloc, version)?, end]),
        Stage::Fade => words(alloc, b"fade", &[end]),
        Stage::Drop => words(alloc, b"drop", &[end]),
    }
}

fn written_outcome(alloc: Global, names: &Names, outcome: &Outcome) -> Result<Vec<u8>, AllocError>
    requires { IsOutcomeOf names.now outcome.now }
    ensures { IfOk result (λ text. text.items ≡ outcome_line names.now outcome.now) }
{
    match outcome {
        Outcome::Opened(stat) => with_stat(alloc, b"opened", *stat),
        Outcome::Created(version) => with_version(alloc, b"created", *version),
        Outcome::Edited(version) => with_version(alloc, b"edited", *version),
        Outcome::Undone(version) => with_version(alloc, b"undone", *version),
        Outcome::Redone(version) => with_version(alloc, b"redone", *version),
        Outcome::Joined => words(alloc, b"joined", &[]),
        Outcome::Clean => words(alloc, b"clean", &[]),
        Outcome::Queued => words(alloc, b"queued", &[]),
        Outcome::Started(version) => with_version(alloc, b"started", *version),
        Outcome::Reverted(stat) => with_stat(alloc, b"reverted", *stat),
        Outcome::Closed => words(alloc, b"closed", &[]),
        Outcome::Written => words(alloc, b"written", &[]),
        Outcome::Missing => words(alloc, b"missing", &[]),
        Outcome::NoPair => words(alloc, b"nopair", &[]),
        Outcome::AlreadyOpen => words(alloc, b"alreadyopen", &[]),
        Outcome::NotOpen => words(alloc, b"notopen", &[]),
        Outcome::OutOfContent => words(alloc, b"outofcontent", &[]),
        Outcome::TooLarge => words(alloc, b"toolarge", &[]),
        Outcome::NoUndo => words(alloc, b"noundo", &[]),
        Outcome::NoRedo => words(alloc, b"noredo", &[]),
        Outcome::Saving => words(alloc, b"saving", &[]),
        Outcome::Fault => words(alloc, b"fault", &[]),
        Outcome::Idle => words(alloc, b"idle", &[]),
        Outcome::Spent => words(alloc, b"spent", &[]),
        Outcome::StageOk(stage, version) => staged(alloc, *stage, *version, b"ok"),
        Outcome::StageFault(stage, version) => staged(alloc, *stage, *version, b"fault"),
        Outcome::Checked(found) => checked(alloc, *found),
        Outcome::Modified(stat) => with_stat(alloc, b"modified", *stat),
        Outcome::CheckFault => words(alloc, b"check", &[b"fault"]),
        Outcome::Saved(version, found) => saved(alloc, *version, *found),
        Outcome::WriteFault(version) => write_failed(alloc, *version),
        Outcome::Unguarded(version) => with_version(alloc, b"unguarded", *version),
        Outcome::Quit => words(alloc, b"quit", &[]),
        Outcome::Vetoed(res) => words(alloc, b"vetoed", &[name(names, *res)]),
    }
}

/// The text of an outcome: its word and what it has, parted by single blanks.
#[tactic(auto, using(crate::proofs::FieldLemmas::outcome_read_back))]
pub fn outcome_text(alloc: Global, names: &Names, outcome: &Outcome) -> Result<Vec<u8>, AllocError>
    requires { IsOutcomeOf names.now outcome.now }
    ensures text { IfOk result (λ text. text.items ≡ outcome_line names.now outcome.now) }

    // Where no name has a blank, parting the text at its blanks gives the fields again.
    ensures fields { are_words names.now ≡ true → IfOk result (λ text. fields_of text.items ≡ outcome_word outcome.now ∷ outcome_fields names.now outcome.now) }
{
    written_outcome(alloc, names, outcome)
}
