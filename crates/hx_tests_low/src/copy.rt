use crate::tables::{Row, repeated};
use hx_copy::{EditError, WorkingCopy};
use hx_etag::Stat;
use hx_events::{Bytes, CONTENT_MAX};
use std::alloc::{AllocError, Global};
use std::test::Fail;

const STAT: Stat = Stat {
    mtime: 2000,
    size: 1,
};

// Calls on a copy that was created empty, and behind each the version, the alternative id and whether the copy is dirty. A line `new`
// begins anew, and a line `full` with a content that is as long as may be. The other lines say what else is found.
const CALLS: &str = "\
new
edit 0 0 =a 2 2 dirty
edit 1 0 =b 3 3 dirty
undo 4 2 dirty
undo 5 1 clean
trail no yes
new
edit 0 0 =a 2 2 dirty
edit 1 0 =b 3 3 dirty
undo 4 2 dirty
undo 5 1 clean
redo 6 2 dirty
edit 1 0 =c 7 7 dirty
trail yes no
content =ac
new
edit 0 0 =hello 2 2 dirty
undo 3 1 clean
new
edit 0 0 =a 2 2 dirty
saved 2 2 2 clean
edit 1 0 =b 3 3 dirty
undo 4 2 clean
new
edit 0 0 =a 2 2 dirty
undo 3 1 clean
saved 2 3 1 clean
new
edit 0 0 =a 2 2 dirty
undo 3 1 clean
redo 4 2 dirty
saved 2 4 2 dirty
saved 4 4 2 clean
edit 0 0 =b 5 5 dirty
reverted =c 6 6 clean
base 2000 1
content =c
full
edit 524288 0 = 2 2 dirty
refused 0 0 =y toolarge
edit 0 1 =y 3 3 dirty
refused 1 18446744073709551615 = outofcontent
refused 524288 1 = outofcontent
front =yx";

fn undo(copy: &mut WorkingCopy) -> Result<(), AllocError> {
    if copy.version() < u64::MAX && copy.can_undo() {
        copy.reserve_undo()?;
        copy.undo();
    }
    Ok(())
}

fn redo(copy: &mut WorkingCopy) -> Result<(), AllocError> {
    if copy.version() < u64::MAX && copy.can_redo() {
        copy.reserve_redo()?;
        copy.redo();
    }
    Ok(())
}

fn edit(
    alloc: Global,
    copy: &mut WorkingCopy,
    row: &mut Row,
) -> Result<Result<u64, EditError>, Fail> {
    let off = row.number().unwrap_or(0);
    let del = row.number().unwrap_or(0);
    let text = row.bytes(alloc)?;
    if copy.version() == u64::MAX {
        return Err(Fail::from("no version is left"));
    }
    copy.reserve(text.len())?;
    Ok(copy.edit(off, del, &text))
}

fn is_refused(alloc: Global, copy: &mut WorkingCopy, mut row: Row) -> Result<bool, Fail> {
    match edit(alloc, copy, &mut row)? {
        Err(EditError::TooLarge) => Ok(row.field() == "toolarge"),
        Err(EditError::OutOfContent) => Ok(row.field() == "outofcontent"),
        _ => Ok(false),
    }
}

fn revert(copy: &mut WorkingCopy, text: Vec<u8>) {
    if copy.version() < u64::MAX {
        copy.reverted(Bytes::new(text), STAT);
    }
}

fn made(alloc: Global, copy: &mut WorkingCopy, word: &str, row: &mut Row) -> Result<(), Fail> {
    match word {
        "edit" => {
            let _ = edit(alloc, copy, row)?;
        }
        "undo" => undo(copy)?,
        "redo" => redo(copy)?,
        "saved" => copy.saved(row.number().unwrap_or(0), Some(STAT)),
        _ => revert(copy, row.bytes(alloc)?),
    }
    Ok(())
}

fn is_left(copy: &WorkingCopy, row: &mut Row) -> bool {
    row.number() == Some(copy.version())
        && row.number() == Some(copy.alternative())
        && copy.is_dirty() == (row.field() == "dirty")
}

fn has_trail(copy: &WorkingCopy, mut row: Row) -> bool {
    let back = row.field() == "yes";
    let ahead = row.field() == "yes";
    copy.can_undo() == back && copy.can_redo() == ahead
}

fn has_front(alloc: Global, copy: &WorkingCopy, mut row: Row) -> Result<bool, Fail> {
    Ok(copy.content().starts_with(&row.bytes(alloc)?))
}

// Whether a line comes out as it says.
fn comes_out(alloc: Global, copy: &mut WorkingCopy, line: &str) -> Result<bool, Fail> {
    let mut row = Row::new(line);
    let word = row.field();
    match word {
        "content" => row.has(alloc, copy.content()),
        "front" => has_front(alloc, copy, row),
        "base" => Ok(copy.base() == row.stat()),
        "trail" => Ok(has_trail(copy, row)),
        "refused" => is_refused(alloc, copy, row),
        _ => {
            made(alloc, copy, word, &mut row)?;
            Ok(is_left(copy, &mut row))
        }
    }
}

fn created(alloc: Global, content: Vec<u8>) -> WorkingCopy {
    WorkingCopy::new(alloc, Bytes::new(content), None, true, 1)
}

#[test]
fn the_saved_state_is_clean_on_the_trail_and_edits_stay_within_the_limit(
    rt: HostRuntime,
) -> Result<(), Fail> {
    let alloc = rt.alloc();
    let mut copy = created(alloc, Vec::new(alloc));
    for line in CALLS.lines() {
        if line == "new" {
            copy = created(alloc, Vec::new(alloc));
        } else if line == "full" {
            copy = created(alloc, repeated(alloc, b"x", CONTENT_MAX)?);
        } else {
            assert!(rt; comes_out(alloc, &mut copy, line)?, "{line}");
        }
    }
    Ok(())
}
