//! The words behind the program's name.

ghost use Rattle.std.specs.Prelude.{◌≡◌, ◌≤◌, ◌&&◌, ◌++◌, nat_le, [], ◌∷◌, drop, length, is_some, Some, None, string_bytes, IfOk, OnOk, IfSome};
ghost use Rattle.hx_base.specs.Decimals.{decimal_value};
ghost use Rattle.hx_top.specs.Exits.{exit_of};
ghost use Rattle.hx_top.specs.Words.{IsChosen, IsOrder, IsWorkers, are_few, behind_disk, command_in, exit_order, fails_of, first_setting, fuse_of, has_disk, is_fail, is_fuse, later_of, is_guarded_word, is_run_word, made_order, order_in, order_of, plain_order, run_behind, run_in, run_of, run_with, second_order, setting_in, setting_of, settings_before, store_in, texts_of, workers_behind, workers_in, workers_of};

use crate::exits::{ExitOrder, exit_of};
use hx_base::read_decimal;
use hx_memdisk::Plan;
use std::alloc::{AllocError, Global};

const MOST_FAILS: usize = 64;

const MOST_FUSES: usize = 1;

/// How many writers, and as many savers, a run has where no number is given.
const WORKERS: u32 = 2;

/// A word of the disk, with its number.
#[derive(Clone, Copy, Debug, PartialEq, Eq)]
pub enum Setting {
    /// The device call with this number fails.
    Fail(u64),

    /// Every call behind the one with this number fails.
    Fuse(u64),
}

/// A script to be played, and what is printed of it.
#[derive(Clone, Copy, Debug, PartialEq, Eq)]
pub enum Task {
    /// The source's script, in guarded lives or in plain ones; they are printed.
    Replay { guarded: bool },

    /// The source's script, which only declares and plants; what the vault restores is printed.
    Restore,

    /// The script that is generated from this number, from 1 to 1,000; counts are printed.
    Made(u32),

    /// The source's script, in plain lives; what comes of its end is printed, by the setting `files.hotExit`.
    Exit(ExitOrder),
}

/// What the program is asked for.
#[derive(Clone, Copy, Debug, PartialEq, Eq)]
pub enum Order {
    /// The source's trace is judged.
    Check,

    /// The source's saves are kept as a local history, which is printed.
    History,

    Play(Task),
}

/// What a run is asked for.
#[derive(Clone, Copy, Debug, PartialEq, Eq)]
pub struct RunOrder {
    /// How many writers it has, and as many savers.
    pub workers: u32,

    /// Whether its life is a guarded one.
    pub guarded: bool,
}

/// The disk that the words name.
#[derive(Drop)]
pub enum DiskChoice {
    /// One in memory, which fails as it is planned.
    Memory(Plan),

    /// The files of this folder.
    Store(String),
}

fn setting_of(word: &[u8], number: u64) -> Option<Setting>
    ensures { result ≡ setting_of word.now number }
{
    if word == b"--fail".as_slice() && number > 0 {
        Some(Setting::Fail(number))
    } else if word == b"--fuse".as_slice() {
        Some(Setting::Fuse(number))
    } else {
        None
    }
}

fn setting_in(word: &[u8], number: &[u8]) -> Option<Setting>
    ensures { result ≡ setting_in word.now number.now }
{
    let number = read_decimal(number)?;
    setting_of(word, number)
}

fn made_order(number: &[u8]) -> Option<Order>
    ensures task { IfSome result IsOrder }
    ensures order { result ≡ made_order (decimal_value number.now) }
{
    let number = read_decimal(number)?;
    if number > 0 && number <= 1000 {
        Some(Order::Play(Task::Made(number as u32)))
    } else {
        None
    }
}

fn plain_order(word: &[u8]) -> Option<Order>
    ensures task { IfSome result IsOrder }
    ensures order { result ≡ plain_order word.now }
{
    if word == b"replay".as_slice() {
        Some(Order::Play(Task::Replay { guarded: false }))
    } else if word == b"restore".as_slice() {
        Some(Order::Play(Task::Restore))
    } else if word == b"check".as_slice() {
        Some(Order::Check)
    } else if word == b"history".as_slice() {
        Some(Order::History)
    } else {
        None
    }
}

/// An order of two words.
fn second_order(word: &[u8], second: &[u8]) -> Option<Order>
    ensures task { IfSome result IsOrder }
    ensures order { result ≡ second_order word.now second.now }
{
    if word == b"made".as_slice() {
        made_order(second)
    } else if word == b"replay".as_slice() && second == b"--guarded".as_slice() {
        Some(Order::Play(Task::Replay { guarded: true }))
    } else {
        None
    }
}

fn exit_order(order: Option<ExitOrder>) -> Option<Order>
    ensures task { IfSome result IsOrder }
    ensures order { result ≡ exit_order order }
{
    Some(Order::Play(Task::Exit(order?)))
}

fn behind_three(words: &[String]) -> &[String]
    requires { 3 ≤ length words.now }
    ensures { result.now ≡ drop 3 words.now }
{
    &words[3..]
}

fn order_of(command: &[String]) -> Option<Order>
    ensures task { IfSome result IsOrder }
    ensures order { result ≡ order_of (texts_of command.now) }
{
    match command {
        [word] => plain_order(word.as_bytes()),
        [word, second] => second_order(word.as_bytes(), second.as_bytes()),
        [word, setting, ending, ..] => exit_order(exit_of(
            word.as_bytes(),
            setting.as_bytes(),
            ending.as_bytes(),
            behind_three(command),
        )),
        _ => None,
    }
}

fn first_setting(words: &[String]) -> Option<Setting>
    ensures first { result ≡ first_setting (texts_of words.now) }
    ensures two { IfSome result (λ _. 2 ≤ length words.now) }
{
    match words {
        [word, number, ..] => setting_in(word.as_bytes(), number.as_bytes()),
        _ => None,
    }
}

fn behind_setting(words: &[String]) -> &[String]
    requires { 2 ≤ length words.now }
    ensures { result.now ≡ drop 2 words.now }
{
    &words[2..]
}

fn is_fail(setting: Setting) -> bool
    ensures { result ≡ is_fail setting }
{
    matches!(setting, Setting::Fail(_))
}

fn is_fuse(setting: Setting) -> bool
    ensures { result ≡ is_fuse setting }
{
    matches!(setting, Setting::Fuse(_))
}

fn are_few(fails: usize, fuses: usize) -> bool
    ensures { result ≡ (nat_le fails 64 && nat_le fuses 1) }
{
    fails <= MOST_FAILS && fuses <= MOST_FUSES
}

/// The folder that the first two words name.
fn store_in(words: &[String]) -> Option<&String>
    ensures some { is_some result ≡ is_some (store_in (texts_of words.now)) }
    ensures folder { IfSome result (λ folder. store_in (texts_of words.now) ≡ Some (string_bytes folder.now)) }
    ensures two { IfSome result (λ _. 2 ≤ length words.now) }
{
    match words {
        [word, folder, ..] => {
            if word.as_bytes() == b"--store".as_slice() && !folder.is_empty() {
                Some(folder)
            } else {
                None
            }
        }
        _ => None,
    }
}

/// The words behind the settings of a disk in memory, or none where these are too many.
fn behind_settings(words: &[String]) -> Option<&[String]>
    ensures few { is_some result ≡ are_few (settings_before (texts_of words.now)) }
    ensures command { IfSome result (λ command. texts_of command.now ≡ command_in (texts_of words.now)) }
{
    let mut fails = 0;
    let mut fuses = 0;
    let mut rest = words;
    'settings: while let Some(setting) = first_setting(rest) {
        fails += usize::from(is_fail(setting));
        fuses += usize::from(is_fuse(setting));
        rest = behind_setting(rest);
    }
    if are_few(fails, fuses) {
        Some(rest)
    } else {
        None
    }
}

/// The words behind those of the disk, or none where these are no disk.
fn command_in(words: &[String]) -> Option<&[String]>
    ensures few { is_some result ≡ has_disk (texts_of words.now) }
    ensures command { IfSome result (λ command. texts_of command.now ≡ behind_disk (texts_of words.now)) }
{
    match store_in(words) {
        Some(_) => Some(behind_setting(words)),
        None => behind_settings(words),
    }
}

/// What the words ask for, or none exactly where they aren't a command line of `top`.
pub fn order_in(words: &[String]) -> Option<Order>
    ensures task { IfSome result IsOrder }
    ensures order { result ≡ order_in (texts_of words.now) }
{
    match command_in(words) {
        Some(command) => order_of(command),
        None => None,
    }
}

fn workers_of(number: &[u8]) -> Option<u32>
    ensures few { IfSome result IsWorkers }
    ensures workers { result ≡ workers_of (decimal_value number.now) }
{
    let number = read_decimal(number)?;
    if number > 0 && number <= 4 {
        Some(number as u32)
    } else {
        None
    }
}

fn workers_in(flag: &[u8], number: &[u8]) -> Option<u32>
    ensures few { IfSome result IsWorkers }
    ensures workers { result ≡ workers_in flag.now number.now }
{
    if flag == b"--workers".as_slice() {
        workers_of(number)
    } else {
        None
    }
}

fn is_run_word(word: &[u8]) -> bool
    ensures { result ≡ is_run_word word.now }
{
    word == b"run".as_slice()
}

fn is_guarded_word(word: &[u8]) -> bool
    ensures { result ≡ is_guarded_word word.now }
{
    word == b"--guarded".as_slice()
}

fn run_with(guarded: bool, workers: Option<u32>) -> Option<RunOrder>
    requires { IfSome workers IsWorkers }
    ensures few { IfSome result (λ order. IsWorkers order.workers) }
    ensures order { result ≡ run_with guarded workers }
{
    let workers = workers?;
    Some(RunOrder { workers, guarded })
}

fn behind_first(words: &[String]) -> &[String]
    requires { 1 ≤ length words.now }
    ensures { result.now ≡ drop 1 words.now }
{
    &words[1..]
}

fn workers_behind(guarded: bool, words: &[String]) -> Option<RunOrder>
    ensures few { IfSome result (λ order. IsWorkers order.workers) }
    ensures order { result ≡ workers_behind guarded (texts_of words.now) }
{
    match words {
        [] => run_with(guarded, Some(WORKERS)),
        [flag, number] => run_with(guarded, workers_in(flag.as_bytes(), number.as_bytes())),
        _ => None,
    }
}

fn run_behind(words: &[String]) -> Option<RunOrder>
    ensures few { IfSome result (λ order. IsWorkers order.workers) }
    ensures order { result ≡ run_behind (texts_of words.now) }
{
    match words {
        [first, ..] => {
            if is_guarded_word(first.as_bytes()) {
                workers_behind(true, behind_first(words))
            } else {
                workers_behind(false, words)
            }
        }
        _ => workers_behind(false, words),
    }
}

fn run_of(command: &[String]) -> Option<RunOrder>
    ensures few { IfSome result (λ order. IsWorkers order.workers) }
    ensures order { result ≡ run_of (texts_of command.now) }
{
    match command {
        [word, ..] => {
            if is_run_word(word.as_bytes()) {
                run_behind(behind_first(command))
            } else {
                None
            }
        }
        _ => None,
    }
}

/// The run that the words ask for, or none exactly where they aren't a command line of `top_run`.
pub fn run_in(words: &[String]) -> Option<RunOrder>
    ensures few { IfSome result (λ order. IsWorkers order.workers) }
    ensures order { result ≡ run_in (texts_of words.now) }
{
    match command_in(words) {
        Some(command) => run_of(command),
        None => None,
    }
}

/// Whether `top_run` serves the words, and not `top`.
pub fn is_run(words: &[String]) -> bool
    ensures { result ≡ is_some (run_in (texts_of words.now)) }
{
    run_in(words).is_some()
}

fn add_setting(plan: &mut Plan, setting: Setting) -> Result<(), AllocError>
    ensures fails { OnOk result (plan.new.fails.items ≡ plan.old.fails.items ++ fails_of (setting ∷ [])) }
    ensures fuse { OnOk result (plan.new.fuse ≡ later_of plan.old.fuse (fuse_of (setting ∷ []))) }
{
    match setting {
        Setting::Fail(number) => plan.fails.push(number)?,
        Setting::Fuse(number) => plan.fuse = Some(number),
    }
    Ok(())
}

fn planned(alloc: Global, words: &[String]) -> Result<Plan, AllocError>
    ensures fails { IfOk result (λ plan. plan.fails.items ≡ fails_of (settings_before (texts_of words.now))) }
    ensures fuse { IfOk result (λ plan. plan.fuse ≡ fuse_of (settings_before (texts_of words.now))) }
{
    let mut plan = empty_plan(alloc);
    let mut rest = words;
    'settings: while let Some(setting) = first_setting(rest) {
        add_setting(&mut plan, setting)?;
        rest = behind_setting(rest);
    }
    Ok(plan)
}

fn empty_plan(alloc: Global) -> Plan
    ensures fails { result.fails.items ≡ [] }
    ensures fuse { result.fuse ≡ None }
{
    Plan {
        fails: Vec::new(alloc),
        fuse: None,
    }
}

/// The disk that the words name, and one in memory that never fails where they aren't a command line.
pub fn disk_words(alloc: Global, words: &[String]) -> Result<DiskChoice, AllocError>
    ensures { IfOk result (IsChosen (texts_of words.now)) }
{
    if order_in(words).is_none() && !is_run(words) {
        return Ok(DiskChoice::Memory(empty_plan(alloc)));
    }
    match store_in(words) {
        Some(folder) => Ok(DiskChoice::Store(folder.clone()?)),
        None => Ok(DiskChoice::Memory(planned(alloc, words)?)),
    }
}
