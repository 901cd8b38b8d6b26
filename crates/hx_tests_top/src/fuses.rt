//! What comes back after a crash with the picks 0 to 3, where every device call behind one of these fails.

use crate::playing::{number, parted, run, text_of};
use hx_filedisk::Stores;
use std::alloc::Global;
use std::process::Abort;
use std::sync::Wait;
use std::test::Fail;
use std::thread::Threads;

const DISCARD: &str = "hotexit 1
file file:///a
w0 create file:///a
w0 edit file:///a 0 0 =hello
b0 vault file:///a
b0 vault file:///a
b0 vault file:///a
w0 edit file:///a 5 0 =!
b0 vault file:///a
b0 vault file:///a
b0 vault file:///a
w0 close file:///a
b0 vault file:///a
b0 vault file:///a";

// The first and the last of these calls, and for each pick the backup that comes back: none, the first one or the second one.
const DISCARDED: &str = "\
256 260 - - - -
261 261 - hello hello -
262 266 hello hello hello hello
267 267 hello hello! hello! hello
268 270 hello! hello! hello! hello!
271 271 hello! - - hello!
272 272 - - - -";

const GUARDED: &str = "hotexit 1
file file:///a
w0 create file:///a
w0 edit file:///a 0 0 =a
w0 save file:///a
s0 flush file:///a
s0 flush file:///a
b0 vault file:///a
b0 vault file:///a
b0 vault file:///a
s0 flush file:///a
b0 vault file:///a
b0 vault file:///a";

// The check is 257, the backup's three stages are 258 to 263, the save's write is 264 to 267, and the discard 268 to 271. From the
// moment on at which the backup is completed, each image has the version: as the backup or in the file.
const KEPT: &str = "\
257 261 - - - -
262 262 - a a -
263 269 a a a a
270 270 a - - a
271 271 - - - -";

// How long the file is then, where it is there.
const FILES: &str = "\
257 263 - - - -
264 265 0 1 1 1
266 271 1 1 1 1";

/// What a table tells of the second life.
#[derive(Clone, Copy)]
enum Told {
    Backup,
    Size,
}

// What the second life begins with.
fn restored(second: &str) -> &str {
    let (pair, behind) = parted(second, "\n");
    if pair.starts_with("pair 0 restored file:///a none =") && !behind.is_empty() {
        parted(pair, "none =").1
    } else {
        "-"
    }
}

// The size of the file that the second life's revert found.
fn size(second: &str) -> &str {
    let (_, found) = parted(second, "reverted ");
    let (stat, _) = parted(found, "\n");
    let (_, size) = parted(stat, " ");
    if size.is_empty() { "-" } else { size }
}

fn found(told: Told, second: &str) -> &str {
    match told {
        Told::Backup => restored(second),
        Told::Size => size(second),
    }
}

// Plays the script with this fuse and a crash behind it, and gives what the second life prints behind its name.
fn second_life<R: Threads + Wait + Sync + Stores>(
    rt: &R,
    alloc: Global,
    words: &str,
    script: &str,
    pick: u64,
) -> Result<String, Fail> {
    let script = format!(in alloc;
        "{script}\ncrash {pick}\nw0 open file:///a\nw0 revert file:///a\n"
    )?;
    let ran = run(rt, alloc, words, script.as_bytes())?;
    let (_, second) = parted(text_of(&ran.output)?, "life 2\nname file:///a\n");
    Ok(String::from_str(alloc, second)?)
}

// Compares one line of a table with what its fuses and picks leave.
fn is_as_said<R: Threads + Wait + Sync + Abort + Stores>(
    rt: &R,
    alloc: Global,
    command: &str,
    script: &str,
    line: &str,
    told: Told,
) -> Result<(), Fail> {
    let (first, rest) = parted(line, " ");
    let (last, wanted) = parted(rest, " ");
    for fuse in number(first)..=number(last) {
        let words = format!(in alloc; "--fuse {fuse} {command}")?;
        for (pick, content) in wanted.split(' ').enumerate() {
            let second = second_life(rt, alloc, &words, script, pick as u64)?;
            assert_eq!(rt; found(told, &second), content, "{words}, pick {pick}");
        }
    }
    Ok(())
}

#[test]
fn each_fuse_and_each_pick_of_a_discard(rt: HostRuntime) -> Result<(), Fail> {
    let alloc = rt.alloc();
    for line in DISCARDED.split('\n') {
        is_as_said(&rt, alloc, "replay", DISCARD, line, Told::Backup)?;
    }
    Ok(())
}

#[test]
fn each_fuse_and_each_pick_of_a_guarded_save(rt: HostRuntime) -> Result<(), Fail> {
    let alloc = rt.alloc();
    for line in KEPT.split('\n') {
        is_as_said(&rt, alloc, "replay --guarded", GUARDED, line, Told::Backup)?;
    }
    for line in FILES.split('\n') {
        is_as_said(&rt, alloc, "replay --guarded", GUARDED, line, Told::Size)?;
    }
    Ok(())
}
