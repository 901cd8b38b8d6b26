//! What is printed of a local history.

ghost use Rattle.std.specs.Prelude.{◌≡◌, ◌++◌, codes, IfOk, OnOk};
ghost use Rattle.hx_history_script.specs.Texts.{answer_text, answer_lines, entry_line, entry_lines, history_text};

use crate::answer::Answer;
use hx_history_laws::HistoryEntry;
use hx_report::{put_number, put_text};
use std::alloc::{AllocError, Global};

/// What came of each line, in order, and then the entries that are kept.
#[tactic(auto, unfolding(crate::specs::Texts::history_text))]
pub fn history_text(
    alloc: Global,
    answers: &[Answer],
    entries: &[HistoryEntry],
) -> Result<Vec<u8>, AllocError>
    ensures { IfOk result (λ text. text.items ≡ history_text answers.now entries.now) }
{
    let mut text = Vec::new(alloc);
    put_answers(&mut text, answers)?;
    put_entries(alloc, &mut text, entries)?;
    Ok(text)
}

fn put_answers(out: &mut Vec<u8>, answers: &[Answer]) -> Result<(), AllocError>
    ensures { OnOk result (out.new.items ≡ out.old.items ++ answer_lines answers.now) }
{
    for answer in answers {
        put_line(out, *answer)?;
    }
    Ok(())
}

fn put_line(out: &mut Vec<u8>, answer: Answer) -> Result<(), AllocError>
    ensures { OnOk result (out.new.items ≡ out.old.items ++ answer_text answer ++ codes "\n") }
{
    put_answer(out, answer)?;
    out.push(b'\n')?;
    Ok(())
}

fn put_answer(out: &mut Vec<u8>, answer: Answer) -> Result<(), AllocError>
    ensures { OnOk result (out.new.items ≡ out.old.items ++ answer_text answer) }
{
    match answer {
        Answer::Kept(number) => {
            out.extend_from_slice(b"kept")?;
            put_number(out, number)
        }
        Answer::Merged(number) => {
            out.extend_from_slice(b"merged")?;
            put_number(out, number)
        }
        Answer::TooLarge => out.extend_from_slice(b"toolarge"),
        Answer::Spent => out.extend_from_slice(b"spent"),
        Answer::FaultIn => out.extend_from_slice(b"fault in"),
        Answer::FaultOut => out.extend_from_slice(b"fault out"),
        Answer::Crashed => out.extend_from_slice(b"crashed"),
    }
}

fn put_entries(alloc: Global, out: &mut Vec<u8>, entries: &[HistoryEntry]) -> Result<(), AllocError>
    ensures { OnOk result (out.new.items ≡ out.old.items ++ entry_lines entries.now) }
{
    for entry in entries {
        put_entry(alloc, out, entry)?;
    }
    Ok(())
}

fn put_entry(alloc: Global, out: &mut Vec<u8>, entry: &HistoryEntry) -> Result<(), AllocError>
    ensures { OnOk result (out.new.items ≡ out.old.items ++ entry_line entry.now) }
{
    out.extend_from_slice(b"entry")?;
    put_number(out, entry.number)?;
    put_number(out, entry.moment)?;
    put_text(alloc, out, entry.content.as_slice())?;
    out.push(b'\n')?;
    Ok(())
}
