use crate::tables::Row;
use hx_backups::Backups;
use hx_events::{ResNo, Stage};
use hx_tracker::{Flags, due};
use std::alloc::AllocError;
use std::test::Fail;

// The stage that is due of a copy, and what holds of the copy.
const DUE: &str = "\
none
prepare dirty
body dirty begun-body
open dirty begun-open
none dirty backed opened
none dirty halted
fade opened
drop opened faded
none opened keep
prepare opened held
none opened held safe";

const QUIET: Flags = Flags {
    dirty: false,
    backed: false,
    begun: None,
    halted: false,
    opened: false,
    faded: false,
    held: false,
    safe: false,
    keep: false,
};

fn mark(flags: &mut Flags, word: &str) {
    match word {
        "dirty" => flags.dirty = true,
        "backed" => flags.backed = true,
        "begun-body" => flags.begun = Some(Stage::Body),
        "begun-open" => flags.begun = Some(Stage::Open),
        "halted" => flags.halted = true,
        "opened" => flags.opened = true,
        "faded" => flags.faded = true,
        "held" => flags.held = true,
        "safe" => flags.safe = true,
        "keep" => flags.keep = true,
        _ => {}
    }
}

fn stage(word: &str) -> Option<Stage> {
    match word {
        "prepare" => Some(Stage::Prepare),
        "body" => Some(Stage::Body),
        "open" => Some(Stage::Open),
        "fade" => Some(Stage::Fade),
        "drop" => Some(Stage::Drop),
        _ => None,
    }
}

#[test]
fn a_dirty_copy_is_backed_up_and_a_clean_one_discarded(rt: HostRuntime) {
    for line in DUE.lines() {
        let mut row = Row::new(line);
        let stage = stage(row.field());
        let mut flags = QUIET;
        for word in line.split(' ') {
            mark(&mut flags, word);
        }
        assert!(rt; due(flags) == stage, "{line}");
    }
}

// Calls on a list of backups, and what is found then.
const BACKUPS: &str = "\
add 3 1
add 1 2
add 3 4
count 2
at 0 3
at 1 1
has 3 none yes
has 3 4 yes
has 3 1 no
has 2 none no
remove 3
remove 7
count 1
at 0 1
clear
count 0";

fn res(row: &mut Row) -> ResNo {
    ResNo::new((row.number().unwrap_or(0) % 256) as u32)
}

fn add(backups: &mut Backups, res: ResNo, version: u64) -> Result<(), AllocError> {
    backups.reserve()?;
    backups.add(res, version)
}

fn stands_at(backups: &Backups, mut row: Row) -> Result<bool, AllocError> {
    let place = row.number().unwrap_or(0) as usize;
    let res = res(&mut row);
    let all = backups.get()?;
    Ok(all.get(place).copied() == Some(res))
}

fn comes_out(backups: &mut Backups, line: &str) -> Result<bool, AllocError> {
    let mut row = Row::new(line);
    match row.field() {
        "add" => {
            let res = res(&mut row);
            add(backups, res, row.number().unwrap_or(0))?;
        }
        "remove" => backups.remove(res(&mut row)),
        "clear" => backups.clear(),
        "count" => return Ok(row.number() == Some(backups.get()?.len() as u64)),
        "at" => return stands_at(backups, row),
        _ => {
            let res = res(&mut row);
            let version = row.number();
            return Ok(backups.has(res, version) == (row.field() == "yes"));
        }
    }
    Ok(true)
}

#[test]
fn backups_stand_in_the_order_of_their_first(rt: HostRuntime) -> Result<(), Fail> {
    let mut backups = Backups::new(rt.alloc());
    for line in BACKUPS.lines() {
        assert!(rt; comes_out(&mut backups, line)?, "{line}");
    }
    Ok(())
}
