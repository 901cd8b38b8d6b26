//! The tail of a life: how its copies stand, and what its requests to save were answered.

ghost use Rattle.std.specs.Prelude.{◌≡◌, ◌++◌, ◌<◌, [], ◌∷◌, length, codes, IfOk, OnOk};
ghost use Rattle.hx_events.specs.Texts.{spaced};
ghost use Rattle.hx_report.specs.Traces.{IsWhole};
ghost use Rattle.hx_report.specs.Tails.{answer_fields, copy_line, number_field, tail_text, ticket_line};
ghost use Rattle.hx_report.specs.Outlines.{answer_at, line_of_outline, outline_lines, tickets_text};

use crate::outline::Outline;
use crate::put::{put_field, put_number};
use crate::share::{Share, answer_by};
use crate::tally::{Tally, Ticket};
use hx_events::{Life, Names, ResNo};
use hx_rules::SaveAnswer;
use std::alloc::{AllocError, Global};

/// The tail of a life: a line for each registered copy, in the order of their numbers, and one for each request to save that
/// found its copy open. It is that of the rules for any history, also one that isn't legal. The history is read once.
pub fn tail(alloc: Global, life: &Life) -> Result<Vec<u8>, AllocError>
    requires { IsWhole life.now }
    ensures { IfOk result (λ text. text.items ≡ tail_text life.now) }
{
    let mut text = Vec::new(alloc);
    put_tail(alloc, &mut text, life)?;
    Ok(text)
}

pub(crate) fn put_tail(alloc: Global, out: &mut Vec<u8>, life: &Life) -> Result<(), AllocError>
    requires { IsWhole life.now }
    ensures { OnOk result (out.new.items ≡ out.old.items ++ tail_text life.now) }
{
    let tally = Tally::of_life(alloc, life)?;
    put_copies(out, &life.names, tally.outlines.as_slice())?;
    put_tickets(out, tally.tickets.as_slice(), tally.outlines.as_slice())
}

fn put_copies(out: &mut Vec<u8>, names: &Names, outlines: &[Outline]) -> Result<(), AllocError>
    requires { length outlines.now ≡ length names.now }
    ensures { OnOk result (out.new.items ≡ out.old.items ++ outline_lines names.now outlines.now (length names.now)) }
{
    for place in 0..names.len() {
        put_outline(out, names.text(ResNo::new(place as u32)), &outlines[place])?;
    }
    Ok(())
}

fn put_outline(out: &mut Vec<u8>, name: &[u8], outline: &Outline) -> Result<(), AllocError>
    ensures { OnOk result (out.new.items ≡ out.old.items ++ line_of_outline name.now outline.now) }
{
    if outline.registered {
        put_copy(out, name, outline.last, outline.is_dirty(), outline.done)?;
    }
    Ok(())
}

fn put_copy(
    out: &mut Vec<u8>,
    name: &[u8],
    version: u64,
    dirty: bool,
    done: Option<u64>,
) -> Result<(), AllocError>
    ensures { OnOk result (out.new.items ≡ out.old.items ++ copy_line name.now version dirty done) }
{
    out.extend_from_slice(b"copy")?;
    put_field(out, name)?;
    out.extend_from_slice(b" version")?;
    put_number(out, version)?;
    put_field(out, if dirty { b"dirty" } else { b"clean" })?;
    out.extend_from_slice(b" backup")?;
    put_done(out, done)?;
    out.push(b'\n')?;
    Ok(())
}

fn put_done(out: &mut Vec<u8>, done: Option<u64>) -> Result<(), AllocError>
    ensures { OnOk result (out.new.items ≡ out.old.items ++ spaced (number_field done ∷ [])) }
{
    match done {
        None => put_field(out, b"none"),
        Some(version) => put_number(out, version),
    }
}

fn put_tickets(
    out: &mut Vec<u8>,
    tickets: &[Ticket],
    outlines: &[Outline],
) -> Result<(), AllocError>
    ensures { OnOk result (out.new.items ≡ out.old.items ++ tickets_text outlines.now tickets.now) }
{
    for ticket in tickets {
        put_ticket(
            out,
            ticket.place,
            answer_of(outlines, ticket.res, ticket.share),
        )?;
    }
    Ok(())
}

fn answer_of(outlines: &[Outline], res: ResNo, share: Share) -> Option<SaveAnswer>
    ensures { result ≡ answer_at outlines.now res share }
{
    match outlines.get(res.number() as usize) {
        None => None,
        Some(outline) => answer_by(&outline.saves, share),
    }
}

fn put_ticket(out: &mut Vec<u8>, place: u64, answer: Option<SaveAnswer>) -> Result<(), AllocError>
    ensures { OnOk result (out.new.items ≡ out.old.items ++ ticket_line place answer) }
{
    out.extend_from_slice(b"ticket")?;
    put_number(out, place)?;
    put_answer(out, answer)?;
    out.push(b'\n')?;
    Ok(())
}

fn put_answer(out: &mut Vec<u8>, answer: Option<SaveAnswer>) -> Result<(), AllocError>
    ensures { OnOk result (out.new.items ≡ out.old.items ++ spaced (answer_fields answer)) }
{
    match answer {
        None => put_field(out, b"none"),
        Some(SaveAnswer::Saved(version)) => {
            out.extend_from_slice(b" saved")?;
            put_number(out, version)
        }
        Some(SaveAnswer::Clean) => put_field(out, b"clean"),
        Some(SaveAnswer::ModifiedSince) => put_field(out, b"modified"),
        Some(SaveAnswer::DiskFault) => put_field(out, b"fault"),
        Some(SaveAnswer::Unguarded) => put_field(out, b"unguarded"),
    }
}
