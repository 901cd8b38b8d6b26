//! The generated script.

ghost use Rattle.std.specs.Prelude.{◌≡◌, ◌≤◌, ◌<◌, ◌*◌, ◌++◌, ◌∷◌, IfOk, OnOk};
ghost use Rattle.hx_script.specs.Scripts.{IsWellMade};
ghost use Rattle.hx_script.specs.Made.{made_name, made_names, creates, next_number, number_after, turn_of_kind, turn, turns, made_script};

use crate::script::{Script, Step};
use hx_base::decimal;
use hx_events::{Actor, Bytes, Command, Event, Items, Names, ResNo};
use std::alloc::{AllocError, Global};

// so many resources, each with a window of its own
const RESOURCES: u32 = 8;

fn made_name(alloc: Global, number: u32) -> Result<Vec<u8>, AllocError>
    requires { number < 8 }
    ensures { IfOk result (λ name. name.items ≡ made_name number) }
{
    let mut name = Vec::from_slice(alloc, b"mem:/")?;
    name.push(b'0' + number as u8)?;
    Ok(name)
}

fn made_names(alloc: Global) -> Result<Names, AllocError>
    ensures { IfOk result (λ names. names ≡ made_names 8) }
{
    let mut names = Names::new(alloc);
    for number in 0..RESOURCES {
        match names.add(made_name(alloc, number)?) {
            Ok(_) => {}
            Err(_) => return Err(AllocError),
        }
    }
    Ok(names)
}

fn create(number: u32) -> Step
    requires { number < 8 }
    ensures { result ≡ Step.Do (Actor.Window number) (Event.Act (Command.Create number)) }
{
    Step::Do(
        Actor::Window(number as u8),
        Event::Act(Command::Create(ResNo::new(number))),
    )
}

fn creates(alloc: Global) -> Result<Vec<Step>, AllocError>
    ensures { IfOk result (λ steps. steps.items ≡ creates 8) }
{
    let mut steps = Vec::new(alloc);
    for number in 0..RESOURCES {
        steps.push(create(number))?;
    }
    Ok(steps)
}

fn next_number(number: u64) -> u64
    requires { number < 65537 }
    ensures value { result ≡ next_number number }
    ensures small { result < 65537 }
{
    (75 * number + 74) % 65537
}

fn turn_of_kind(alloc: Global, kind: u64, i: u64, k: u32) -> Result<Step, AllocError>
    requires { k < 8 }
    ensures { IfOk result (λ step. step ≡ turn_of_kind kind i k) }
{
    let res = ResNo::new(k);
    let window = Actor::Window(k as u8);
    Ok(match kind {
        0..=2 => Step::Do(
            window,
            Event::Act(Command::Edit {
                res,
                off: 0,
                del: 0,
                text: Bytes::new(decimal(alloc, i)?),
            }),
        ),
        3 | 4 => Step::Do(Actor::Writer(0), Event::Vault(res)),
        5 => Step::Do(
            window,
            Event::Act(Command::Save {
                res,
                force: false,
                over: false,
            }),
        ),
        _ => Step::Do(Actor::Saver(0), Event::Flush(res)),
    })
}

fn turn(alloc: Global, i: u64, number: u64) -> Result<Step, AllocError>
    ensures { IfOk result (λ step. step ≡ turn i number) }
{
    turn_of_kind(alloc, number / 8 % 8, i, (number % 8) as u32)
}

// the turns behind the steps that stand there
fn put_turns(alloc: Global, steps: &mut Vec<Step>, n: u32) -> Result<(), AllocError>
    requires { n ≤ 1000 }
    ensures { OnOk result (steps.new.items ≡ steps.old.items ++ turns n (8 * n)) }
{
    let mut number = u64::from(n);
    for done in 0..8 * n {
        number = next_number(number);
        steps.push(turn(alloc, u64::from(done) + 1, number)?)?;
    }
    Ok(())
}

#[tactic(auto, unfolding(crate::specs::Made::made_script))]
fn generated(alloc: Global, n: u32) -> Result<Script, AllocError>
    requires { n ≤ 1000 }
    ensures { IfOk result (λ script. script ≡ made_script n) }
{
    let names = made_names(alloc)?;
    let mut steps = creates(alloc)?;
    put_turns(alloc, &mut steps, n)?;
    steps.push(Step::Restart)?;
    Ok(Script {
        names,
        slots: Items::new(Vec::new(alloc)),
        steps: Items::new(steps),
    })
}

/// The script that is generated from a number from 1 to 1,000: eight resources are created, eight times as many turns
/// as the number says are taken (edits, vault stages, saves and save stages, chosen by a fixed sequence), and the life
/// is restarted.
pub fn made(alloc: Global, n: u32) -> Result<Script, AllocError>
    requires some { 1 ≤ n }
    requires few { n ≤ 1000 }
    ensures script { IfOk result (λ script. script ≡ made_script n) }
    ensures well_made { IfOk result IsWellMade }
{
    generated(alloc, n)
}
