//! Sessions over the files of a folder.

use crate::playing::{Ran, run, text_of};
use crate::sessions::session_in;
use crate::sessions_of_backups::BACKUPS;
use crate::sessions_of_blocks::BLOCKS;
use hx_disk::{Disk, FileNo};
use hx_filedisk::{FileDisk, Stores};
use std::alloc::{Alloc, Global};
use std::fs::{self, Files};
use std::io::ErrorKind;
use std::process::{Abort, ExitCode};
use std::sync::Wait;
use std::test::Fail;
use std::thread::Threads;

/// An empty folder of this name, whatever a test that was cut off has left there.
pub fn empty_folder<R: Files + Alloc>(rt: &R, name: &str) -> Result<(), Fail> {
    match fs::remove_dir_all(rt, name) {
        Err(error) if error.kind() != ErrorKind::NotFound => Err(Fail::from("a folder is in use")),
        _ => Ok(fs::create_dir(rt, name)?),
    }
}

fn ends_so(rt: &impl Abort, ran: &Ran, status: u8, output: &str, told: &str) {
    assert!(rt; ran.code == ExitCode::from(status));
    assert_eq!(rt; ran.output.as_slice(), output.as_bytes());
    assert_eq!(rt; ran.told.as_slice(), told.as_bytes());
}

const BACKED_UP: &str = "hotexit 1
file file:///a
w0 create file:///a
w0 edit file:///a 0 0 =hello
b0 vault file:///a
b0 vault file:///a
b0 vault file:///a
";

#[test]
fn a_backup_in_a_folder_is_restored(rt: HostRuntime) -> Result<(), Fail> {
    let alloc = rt.alloc();
    empty_folder(&rt, "backups")?;
    let ran = run(&rt, alloc, "--store backups replay", BACKED_UP.as_bytes())?;
    assert!(rt; ran.code == ExitCode::from(0));
    let ran = run(
        &rt,
        alloc,
        "--store backups restore",
        b"hotexit 1\nfile file:///a\n",
    )?;
    ends_so(&rt, &ran, 0, "pair 0 restored file:///a none =hello\n", "");
    Ok(fs::remove_dir_all(&rt, "backups")?)
}

const SAVED: &str = "hotexit 1
file file:///a
w0 create file:///a
w0 edit file:///a 0 0 =hello
w0 save file:///a
s0 flush file:///a
s0 flush file:///a
w0 edit file:///a 0 5 =hi
w0 save file:///a
s0 flush file:///a
s0 flush file:///a
";

#[test]
fn a_save_stands_whole_in_its_file(rt: HostRuntime) -> Result<(), Fail> {
    let alloc = rt.alloc();
    empty_folder(&rt, "saves")?;
    let ran = run(&rt, alloc, "--store saves replay", SAVED.as_bytes())?;
    assert!(rt; ran.code == ExitCode::from(0));
    assert_eq!(rt; fs::read(&rt, "saves/128")?.as_slice(), b"hi".as_slice());
    Ok(fs::remove_dir_all(&rt, "saves")?)
}

#[test]
fn a_folder_takes_no_other_programs_times(rt: HostRuntime) -> Result<(), Fail> {
    let alloc = rt.alloc();
    empty_folder(&rt, "times")?;
    let ran = run(
        &rt,
        alloc,
        "--store times replay",
        b"hotexit 1\nfile A\nw0 outside A 5 =x\n",
    )?;
    ends_so(
        &rt,
        &ran,
        0,
        "hotexit trace 1\nlife 1\nname A\nw0 outside A 5 =x\tfault\nq quit\tquit\nend script\n",
        "",
    );
    Ok(fs::remove_dir_all(&rt, "times")?)
}

#[test]
fn a_folder_may_be_none(rt: HostRuntime) -> Result<(), Fail> {
    let alloc = rt.alloc();
    let ran = run(&rt, alloc, "--store nowhere replay", BACKED_UP.as_bytes())?;
    assert!(rt; ran.code == ExitCode::from(0));
    assert!(rt;
        ran.output
            .ends_with(b"copy file:///a version 2 dirty backup none\n")
    );
    assert!(rt; !fs::exists(&rt, "nowhere")?);
    fs::write(&rt, "a_file", "x")?;
    let ran = run(&rt, alloc, "--store a_file replay", BACKED_UP.as_bytes())?;
    ends_so(&rt, &ran, 7, "", "the vault could not be opened\n");
    assert_eq!(rt; fs::read(&rt, "a_file")?.as_slice(), b"x".as_slice());
    Ok(fs::remove_file(&rt, "a_file")?)
}

#[test]
fn one_program_at_a_time_holds_a_folder(rt: HostRuntime) -> Result<(), Fail> {
    let alloc = rt.alloc();
    empty_folder(&rt, "held")?;
    let mut holder = FileDisk::new(rt, alloc, String::from_str(alloc, "held")?)?;
    assert!(rt; holder.stat(FileNo::new(0)) == Ok(None));
    let ran = run(&rt, alloc, "--store held replay", BACKED_UP.as_bytes())?;
    ends_so(&rt, &ran, 7, "", "the vault could not be opened\n");
    drop(holder);
    let ran = run(&rt, alloc, "--store held replay", BACKED_UP.as_bytes())?;
    assert!(rt; ran.code == ExitCode::from(0));
    Ok(fs::remove_dir_all(&rt, "held")?)
}

const SAVES: &str = "hotexit history 1
saved 0 =a
saved 20000 =b
";

#[test]
fn a_history_in_a_folder_goes_on(rt: HostRuntime) -> Result<(), Fail> {
    let alloc = rt.alloc();
    empty_folder(&rt, "versions")?;
    let ran = run(&rt, alloc, "--store versions history", SAVES.as_bytes())?;
    ends_so(
        &rt,
        &ran,
        0,
        "kept 1\nkept 2\nentry 1 0 =a\nentry 2 20000 =b\n",
        "",
    );
    let ran = run(
        &rt,
        alloc,
        "--store versions history",
        b"hotexit history 1\nsaved 20001 =c\n",
    )?;
    ends_so(
        &rt,
        &ran,
        0,
        "merged 2\nentry 1 0 =a\nentry 2 20001 =c\n",
        "",
    );
    Ok(fs::remove_dir_all(&rt, "versions")?)
}

#[test]
fn backups_are_no_history(rt: HostRuntime) -> Result<(), Fail> {
    let alloc = rt.alloc();
    empty_folder(&rt, "foreign")?;
    let ran = run(&rt, alloc, "--store foreign replay", BACKED_UP.as_bytes())?;
    assert!(rt; ran.code == ExitCode::from(0));
    let ran = run(&rt, alloc, "--store foreign history", SAVES.as_bytes())?;
    ends_so(&rt, &ran, 8, "", "not a history\n");
    let ran = run(
        &rt,
        alloc,
        "--store foreign restore",
        b"hotexit 1\nfile file:///a\n",
    )?;
    ends_so(&rt, &ran, 0, "pair 0 restored file:///a none =hello\n", "");
    Ok(fs::remove_dir_all(&rt, "foreign")?)
}

/// Whether nothing in the session goes by the times of files, or by what a crash leaves.
fn is_of_any_disk(words: &str, input: &str) -> bool {
    (words == "replay" || words == "restore")
        && !input.contains(" outside ")
        && !input.contains(" open ")
        && !input.contains(" flush ")
        && !input.contains("crash")
}

fn plays_over_a_folder<R: Threads + Wait + Sync + Abort + Stores + Files + Alloc>(
    rt: &R,
    alloc: Global,
    text: &str,
) -> Result<u64, Fail> {
    let mut played = 0u64;
    for part in text.split("$ ") {
        let session = session_in(alloc, part)?;
        if is_of_any_disk(&session.words, text_of(&session.input)?) {
            empty_folder(rt, "sessions")?;
            let words = format!(in alloc; "--store sessions {}", session.words)?;
            let ran = run(rt, alloc, &words, &session.input)?;
            ends_so(rt, &ran, 0, text_of(&session.output)?, "");
            played = played.saturating_add(1);
        }
    }
    Ok(played)
}

#[test]
fn a_folder_serves_sessions_as_memory_does(rt: HostRuntime) -> Result<(), Fail> {
    let alloc = rt.alloc();
    assert_eq!(rt; plays_over_a_folder(&rt, alloc, BACKUPS)?, 9);
    assert_eq!(rt; plays_over_a_folder(&rt, alloc, BLOCKS)?, 0);
    Ok(fs::remove_dir_all(&rt, "sessions")?)
}
