//! The outcomes of a trace's lines.

ghost use Rattle.std.specs.Prelude.{◌≡◌, ℕ, List, IfOk};
ghost use Rattle.hx_events.specs.Texts.{IsOutcomeOf};
ghost use Rattle.hx_script.specs.Lines.{texts};
ghost use Rattle.hx_script.specs.Outcomes.{plain_outcome, plain_refusal, word_alone, one_number, stat_of, one_stat, stage_of, stage_in, discard_in, check_in, saved_in, write_in, change_in, work_in, words_in, outcome_in};

use crate::events::one_resource;
use crate::fields::is;
use crate::values::number_in;
use crate::why::Why;
use hx_etag::Stat;
use hx_events::{Names, Outcome, Stage};

fn plain_outcome(word: &[u8]) -> Option<Outcome>
    ensures { result ≡ plain_outcome word.now }
{
    if is(word, b"joined") {
        return Some(Outcome::Joined);
    }
    if is(word, b"clean") {
        return Some(Outcome::Clean);
    }
    if is(word, b"queued") {
        return Some(Outcome::Queued);
    }
    if is(word, b"closed") {
        return Some(Outcome::Closed);
    }
    if is(word, b"written") {
        return Some(Outcome::Written);
    }
    if is(word, b"idle") {
        return Some(Outcome::Idle);
    }
    if is(word, b"spent") {
        return Some(Outcome::Spent);
    }
    if is(word, b"fault") {
        return Some(Outcome::Fault);
    }
    if is(word, b"quit") {
        return Some(Outcome::Quit);
    }
    None
}

fn plain_refusal(word: &[u8]) -> Option<Outcome>
    ensures { result ≡ plain_refusal word.now }
{
    if is(word, b"missing") {
        return Some(Outcome::Missing);
    }
    if is(word, b"nopair") {
        return Some(Outcome::NoPair);
    }
    if is(word, b"alreadyopen") {
        return Some(Outcome::AlreadyOpen);
    }
    if is(word, b"notopen") {
        return Some(Outcome::NotOpen);
    }
    if is(word, b"outofcontent") {
        return Some(Outcome::OutOfContent);
    }
    if is(word, b"toolarge") {
        return Some(Outcome::TooLarge);
    }
    if is(word, b"noundo") {
        return Some(Outcome::NoUndo);
    }
    if is(word, b"noredo") {
        return Some(Outcome::NoRedo);
    }
    if is(word, b"saving") {
        return Some(Outcome::Saving);
    }
    None
}

fn word_alone(word: &[u8]) -> Result<Outcome, Why>
    ensures answers { result ≡ word_alone word.now }
    ensures known { (names : List (List ℕ)) → IfOk result (IsOutcomeOf names) }
{
    match plain_outcome(word) {
        Some(outcome) => Ok(outcome),
        None => plain_refusal(word).ok_or(Why::Form),
    }
}

fn one_number(fields: &[&[u8]]) -> Result<u64, Why>
    ensures { result ≡ one_number (texts fields.now) }
{
    match fields {
        [field] => number_in(field),
        _ => Err(Why::Form),
    }
}

/// A stat by its time and its size.
pub fn stat_of(mtime: &[u8], size: &[u8]) -> Result<Stat, Why>
    ensures { result ≡ stat_of mtime.now size.now }
{
    let mtime = number_in(mtime)?;
    let size = number_in(size)?;
    Ok(Stat { mtime, size })
}

fn one_stat(fields: &[&[u8]]) -> Result<Stat, Why>
    ensures { result ≡ one_stat (texts fields.now) }
{
    match fields {
        [mtime, size] => stat_of(mtime, size),
        _ => Err(Why::Form),
    }
}

fn stage_of(stage: Stage, version: &[u8], end: &[u8]) -> Result<Outcome, Why>
    ensures answers { result ≡ stage_of stage version.now end.now }
    ensures known { (names : List (List ℕ)) → IfOk result (IsOutcomeOf names) }
{
    if is(end, b"ok") {
        return Ok(Outcome::StageOk(stage, number_in(version)?));
    }
    if is(end, b"fault") {
        return Ok(Outcome::StageFault(stage, number_in(version)?));
    }
    Err(Why::Form)
}

fn stage_in(stage: Stage, fields: &[&[u8]]) -> Result<Outcome, Why>
    ensures answers { result ≡ stage_in stage (texts fields.now) }
    ensures known { (names : List (List ℕ)) → IfOk result (IsOutcomeOf names) }
{
    match fields {
        [version, end] => stage_of(stage, version, end),
        _ => Err(Why::Form),
    }
}

fn discard_in(stage: Stage, fields: &[&[u8]]) -> Result<Outcome, Why>
    ensures answers { result ≡ discard_in stage (texts fields.now) }
    ensures known { (names : List (List ℕ)) → IfOk result (IsOutcomeOf names) }
{
    match fields {
        [end] if is(end, b"ok") => Ok(Outcome::StageOk(stage, 0)),
        [end] if is(end, b"fault") => Ok(Outcome::StageFault(stage, 0)),
        _ => Err(Why::Form),
    }
}

fn check_in(fields: &[&[u8]]) -> Result<Outcome, Why>
    ensures answers { result ≡ check_in (texts fields.now) }
    ensures known { (names : List (List ℕ)) → IfOk result (IsOutcomeOf names) }
{
    match fields {
        [end] if is(end, b"none") => Ok(Outcome::Checked(None)),
        [end] if is(end, b"fault") => Ok(Outcome::CheckFault),
        [mtime, size] => Ok(Outcome::Checked(Some(stat_of(mtime, size)?))),
        _ => Err(Why::Form),
    }
}

fn saved_in(fields: &[&[u8]]) -> Result<Outcome, Why>
    ensures answers { result ≡ saved_in (texts fields.now) }
    ensures known { (names : List (List ℕ)) → IfOk result (IsOutcomeOf names) }
{
    match fields {
        [version, end] if is(end, b"none") => Ok(Outcome::Saved(number_in(version)?, None)),
        [version, mtime, size] => {
            let version = number_in(version)?;
            Ok(Outcome::Saved(version, Some(stat_of(mtime, size)?)))
        }
        _ => Err(Why::Form),
    }
}

fn write_in(fields: &[&[u8]]) -> Result<Outcome, Why>
    ensures answers { result ≡ write_in (texts fields.now) }
    ensures known { (names : List (List ℕ)) → IfOk result (IsOutcomeOf names) }
{
    match fields {
        [version, end] if is(end, b"fault") => Ok(Outcome::WriteFault(number_in(version)?)),
        _ => Err(Why::Form),
    }
}

fn change_in(word: &[u8], fields: &[&[u8]]) -> Result<Outcome, Why>
    ensures answers { result ≡ change_in word.now (texts fields.now) }
    ensures known { (names : List (List ℕ)) → IfOk result (IsOutcomeOf names) }
{
    if is(word, b"opened") {
        return Ok(Outcome::Opened(one_stat(fields)?));
    }
    if is(word, b"reverted") {
        return Ok(Outcome::Reverted(one_stat(fields)?));
    }
    if is(word, b"created") {
        return Ok(Outcome::Created(one_number(fields)?));
    }
    if is(word, b"edited") {
        return Ok(Outcome::Edited(one_number(fields)?));
    }
    if is(word, b"undone") {
        return Ok(Outcome::Undone(one_number(fields)?));
    }
    if is(word, b"redone") {
        return Ok(Outcome::Redone(one_number(fields)?));
    }
    if is(word, b"started") {
        return Ok(Outcome::Started(one_number(fields)?));
    }
    if is(word, b"modified") {
        return Ok(Outcome::Modified(one_stat(fields)?));
    }
    Err(Why::Form)
}

fn work_in(names: &Names, word: &[u8], fields: &[&[u8]]) -> Result<Outcome, Why>
    ensures answers { result ≡ work_in names.now word.now (texts fields.now) }
    ensures known { IfOk result (IsOutcomeOf names.now) }
{
    if is(word, b"prepare") {
        return stage_in(Stage::Prepare, fields);
    }
    if is(word, b"body") {
        return stage_in(Stage::Body, fields);
    }
    if is(word, b"open") {
        return stage_in(Stage::Open, fields);
    }
    if is(word, b"fade") {
        return discard_in(Stage::Fade, fields);
    }
    if is(word, b"drop") {
        return discard_in(Stage::Drop, fields);
    }
    if is(word, b"check") {
        return check_in(fields);
    }
    if is(word, b"saved") {
        return saved_in(fields);
    }
    if is(word, b"write") {
        return write_in(fields);
    }
    if is(word, b"vetoed") {
        return Ok(Outcome::Vetoed(one_resource(names, fields)?));
    }
    change_in(word, fields)
}

/// The outcome that the fields of a text are.
pub fn outcome_in(names: &Names, fields: &[&[u8]]) -> Result<Outcome, Why>
    ensures answers { result ≡ outcome_in names.now (texts fields.now) }
    ensures known { IfOk result (IsOutcomeOf names.now) }
{
    match fields {
        [] => Err(Why::Form),
        [word] => word_alone(word),
        [word, rest @ ..] => work_in(names, word, rest),
    }
}
