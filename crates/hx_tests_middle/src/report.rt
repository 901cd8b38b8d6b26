use crate::traces::TRACES;
use crate::whole::{are_whole, is_whole};
use crate::words::{compare, read, row_parts, trace_text};
use hx_events::{Ended, Life};
use hx_report::{out, summary, tail};
use std::alloc::Global;
use std::process::Abort;
use std::test::Fail;

fn lives_of(alloc: Global, text: &str) -> Result<Vec<Life>, Fail> {
    let trace = read(alloc, text)?;
    let mut lives = Vec::new(alloc);
    for told in trace.lives.into_vec() {
        lives.push(told.life)?;
    }
    Ok(lives)
}

// The lives that are read from a text are printed as that text.
fn prints(rt: &impl Abort, alloc: Global, text: &str) -> Result<(), Fail> {
    let lives = lives_of(alloc, text)?;
    assert!(rt; are_whole(&lives));
    compare(&out(alloc, &lives)?, text)
}

fn prints_row(rt: &impl Abort, alloc: Global, lines: &str) -> Result<(), Fail> {
    let text = trace_text(alloc, lines)?;
    prints(rt, alloc, &text)
}

#[test]
fn traces_are_printed_as_they_were_read(rt: HostRuntime) -> Result<(), Fail> {
    for row in TRACES.split("\n\n") {
        prints_row(&rt, rt.alloc(), row_parts(row).1)?;
    }
    Ok(())
}

// Each kind of a pair and each outcome. No life comes to these, but they are printed as they were read.
const LINES: &str = "\
life 1
name file:///a
pair 0 restored file:///a none =hello
pair 1 twin 0
pair 2 damaged
pair 63 restored file:///a 18446744073709551615 7 =%00%25
q vault file:///a => opened 1 2
q vault file:///a => created 1
q vault file:///a => edited 2
q vault file:///a => undone 3
q vault file:///a => redone 4
q vault file:///a => joined
q vault file:///a => clean
q vault file:///a => queued
q vault file:///a => started 5
q vault file:///a => reverted 6 7
q vault file:///a => written
q vault file:///a => missing
q vault file:///a => nopair
q vault file:///a => alreadyopen
q vault file:///a => notopen
q vault file:///a => outofcontent
q vault file:///a => toolarge
q vault file:///a => noundo
q vault file:///a => noredo
q vault file:///a => saving
q vault file:///a => fault
q vault file:///a => idle
q vault file:///a => spent
q vault file:///a => prepare 1 ok
q vault file:///a => body 2 fault
q vault file:///a => open 3 ok
q vault file:///a => fade ok
q vault file:///a => drop fault
q vault file:///a => check 1 2
q vault file:///a => check none
q vault file:///a => check fault
q vault file:///a => modified 8 9
q vault file:///a => saved 1 2 3
q vault file:///a => saved 1 none
q vault file:///a => write 1 fault
q vault file:///a => quit
q vault file:///a => vetoed file:///a
q vault file:///a => closed
end crash 7";

#[test]
fn each_outcome_and_each_kind_of_pair_is_read_and_printed(rt: HostRuntime) -> Result<(), Fail> {
    prints_row(&rt, rt.alloc(), LINES)
}

// Requests to save that wait share an answer.
const SHARED: &str = "\
life 1
name a
w0 create a => created 1
w0 edit a 0 0 =a => edited 2
w0 save a => started 2
w0 edit a 0 0 =b => edited 3
w0 save a => queued
w0 edit a 0 0 =c => edited 4
w0 save a => queued
w0 edit a 0 0 =d => edited 5
w0 save a => queued
s0 flush a => check none
s0 flush a => saved 2 none
s0 flush a => check none
s0 flush a => saved 5 none
end script";

const SHARED_TAIL: &str = "\
copy a version 5 clean backup none
ticket 3 saved 2
ticket 5 saved 5
ticket 7 saved 5
ticket 9 saved 5
";

// The lives as they are when memory has run out.
fn cut(lives: &mut [Life]) {
    for life in lives {
        life.ended = Ended::Cut;
    }
}

#[test]
fn a_life_that_was_cut_has_a_tail_and_is_not_printed(rt: HostRuntime) -> Result<(), Fail> {
    let alloc = rt.alloc();
    let mut lives = lives_of(alloc, &trace_text(alloc, SHARED)?)?;
    cut(&mut lives);
    assert!(rt; are_whole(&lives));
    compare(&out(alloc, &lives)?, "hotexit trace 1\n")?;
    for life in &lives {
        assert!(rt; is_whole(life));
        compare(&tail(alloc, life)?, SHARED_TAIL)?;
    }
    assert_eq!(rt; lives.len(), 1);
    Ok(())
}

// The lives of the generated script of 1: eight windows, eight turns, what an orderly end does of the three edited files, and
// a restart.
const MADE: &str = "\
life 1
name mem:/0
name mem:/1
name mem:/2
name mem:/3
name mem:/4
name mem:/5
name mem:/6
name mem:/7
w0 create mem:/0 => created 1
w1 create mem:/1 => created 1
w2 create mem:/2 => created 1
w3 create mem:/3 => created 1
w4 create mem:/4 => created 1
w5 create mem:/5 => created 1
w6 create mem:/6 => created 1
w7 create mem:/7 => created 1
w5 edit mem:/5 0 0 =1 => edited 2
s0 flush mem:/1 => idle
b0 vault mem:/1 => idle
b0 vault mem:/4 => idle
w3 edit mem:/3 0 0 =5 => edited 2
s0 flush mem:/3 => idle
b0 vault mem:/7 => idle
w1 edit mem:/1 0 0 =8 => edited 2
q vault mem:/1 => prepare 2 ok
q vault mem:/1 => body 2 ok
q vault mem:/1 => open 2 ok
q vault mem:/3 => prepare 2 ok
q vault mem:/3 => body 2 ok
q vault mem:/3 => open 2 ok
q vault mem:/5 => prepare 2 ok
q vault mem:/5 => body 2 ok
q vault mem:/5 => open 2 ok
q quit => quit
end restart
life 2
name mem:/0
name mem:/1
name mem:/2
name mem:/3
name mem:/4
name mem:/5
name mem:/6
name mem:/7
pair 0 restored mem:/1 none =8
pair 1 restored mem:/3 none =5
pair 2 restored mem:/5 none =1
q quit => quit
end script";

const SUMMARY: &str = "\
made 1
entries 27
edits 3
backups 3
drops 0
saved 0
modified 0
idle 5
faults 0
restored 3
dirty 3
";

#[test]
fn the_summary_of_a_made_script(rt: HostRuntime) -> Result<(), Fail> {
    let alloc = rt.alloc();
    let lives = lives_of(alloc, &trace_text(alloc, MADE)?)?;
    assert!(rt; are_whole(&lives));
    compare(&summary(alloc, 1, &lives)?, SUMMARY)
}
