//! The words of `exit`, which asks what comes of the end of a script by the setting `files.hotExit`.

ghost use Rattle.std.specs.Prelude.{◌≡◌, ◌≤◌, IsTrue, IfSome, drop, length};
ghost use Rattle.hx_top.specs.Exits.{behind_flag, ending_of, exit_of, exit_with, has_flag, hot_exit_of, is_exit_word, is_flag, situation_of};
ghost use Rattle.hx_top.specs.Words.{texts_of};

use hx_exit::{Ending, Setting as HotExit, Situation};

/// What the end of a script is asked about.
#[derive(Clone, Copy, Debug, PartialEq, Eq)]
pub struct ExitOrder {
    pub setting: HotExit,
    pub ending: Ending,
    pub situation: Situation,
}

/// A word that says something of the window.
#[derive(Clone, Copy, Debug, PartialEq, Eq)]
pub enum Flag {
    /// It is the last one.
    Last,

    /// It has a folder.
    Folder,

    /// The program runs on a Mac.
    Mac,
}

fn hot_exit_of(word: &[u8]) -> Option<HotExit>
    ensures { result ≡ hot_exit_of word.now }
{
    if word == b"off".as_slice() {
        Some(HotExit::Off)
    } else if word == b"onExit".as_slice() {
        Some(HotExit::OnExit)
    } else if word == b"onExitAndWindowClose".as_slice() {
        Some(HotExit::OnExitAndWindowClose)
    } else {
        None
    }
}

fn ending_of(word: &[u8]) -> Option<Ending>
    ensures { result ≡ ending_of word.now }
{
    if word == b"quit".as_slice() {
        Some(Ending::Quit)
    } else if word == b"close".as_slice() {
        Some(Ending::CloseWindow)
    } else {
        None
    }
}

fn is_flag(flag: Flag, word: &[u8]) -> bool
    ensures { result ≡ is_flag flag word.now }
{
    match flag {
        Flag::Last => word == b"last".as_slice(),
        Flag::Folder => word == b"folder".as_slice(),
        Flag::Mac => word == b"mac".as_slice(),
    }
}

fn has_flag(flag: Flag, words: &[String]) -> bool
    ensures has { result ≡ has_flag flag (texts_of words.now) }
    ensures one { IsTrue result → 1 ≤ length words.now }
{
    match words {
        [word, ..] => is_flag(flag, word.as_bytes()),
        _ => false,
    }
}

fn behind_flag(flag: Flag, words: &[String]) -> &[String]
    ensures { texts_of result.now ≡ behind_flag flag (texts_of words.now) }
{
    if has_flag(flag, words) {
        &words[1..]
    } else {
        words
    }
}

fn situation_of(words: &[String]) -> Option<Situation>
    ensures { result ≡ situation_of (texts_of words.now) }
{
    let behind_last = behind_flag(Flag::Last, words);
    let behind_folder = behind_flag(Flag::Folder, behind_last);
    match behind_flag(Flag::Mac, behind_folder) {
        [] => Some(Situation {
            last: has_flag(Flag::Last, words),
            folder: has_flag(Flag::Folder, behind_last),
            mac: has_flag(Flag::Mac, behind_folder),
        }),
        _ => None,
    }
}

fn exit_with(
    setting: Option<HotExit>,
    ending: Option<Ending>,
    situation: Option<Situation>,
) -> Option<ExitOrder>
    ensures { result ≡ exit_with setting ending situation }
{
    let setting = setting?;
    let ending = ending?;
    let situation = situation?;
    Some(ExitOrder {
        setting,
        ending,
        situation,
    })
}

fn is_exit_word(word: &[u8]) -> bool
    ensures { result ≡ is_exit_word word.now }
{
    word == b"exit".as_slice()
}

/// What the words ask of the end of a script: `exit`, the setting, what ends, and flags.
pub fn exit_of(word: &[u8], setting: &[u8], ending: &[u8], flags: &[String]) -> Option<ExitOrder>
    ensures { result ≡ exit_of word.now setting.now ending.now (texts_of flags.now) }
{
    if is_exit_word(word) {
        exit_with(hot_exit_of(setting), ending_of(ending), situation_of(flags))
    } else {
        None
    }
}
