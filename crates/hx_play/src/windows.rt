//! The commands of a script's windows.

ghost use Rattle.std.specs.Prelude.{◌≡◌, ◌++◌, ◌∷◌, [], IfOk, List, OnOk, map, vec_len};
ghost use Rattle.hx_events.specs.declared.event.Event.TheVariants.{Act};
ghost use Rattle.hx_script.specs.declared.script.Step.{Step};
ghost use Rattle.hx_script.specs.declared.script.Step.TheVariants.{Do};
ghost use Rattle.hx_play.specs.Runs.{scripts_of, with_command};

use hx_events::{Actor, Command, Event};
use hx_script::Step;
use std::alloc::{AllocError, Global};

/// The commands of each window, 0 to 7, in the order of the steps. Steps that aren't commands of a window are left out.
pub fn scripts_of(alloc: Global, steps: Vec<Step>) -> Result<Vec<Vec<Command>>, AllocError>
    ensures scripts { IfOk result (λ scripts. map (λ s. s.items) scripts.items ≡ scripts_of steps.items) }
    ensures all { IfOk result (λ scripts. vec_len scripts ≡ 8) }
{
    let mut scripts = no_commands(alloc)?;
    for step in steps {
        add_step(&mut scripts, step)?;
    }
    Ok(scripts)
}

#[tactic(auto, unfolding(crate::specs::Runs::scripts_of))]
fn no_commands(alloc: Global) -> Result<Vec<Vec<Command>>, AllocError>
    ensures scripts { IfOk result (λ scripts. map (λ s. s.items) scripts.items ≡ scripts_of []) }
    ensures all { IfOk result (λ scripts. vec_len scripts ≡ 8) }
{
    Ok(vec![in alloc;
        Vec::new(alloc),
        Vec::new(alloc),
        Vec::new(alloc),
        Vec::new(alloc),
        Vec::new(alloc),
        Vec::new(alloc),
        Vec::new(alloc),
        Vec::new(alloc),
    ]?)
}

/// Adds the step's command to those of its window.
fn add_step(scripts: &mut Vec<Vec<Command>>, step: Step) -> Result<(), AllocError>
    ensures added { (before : List Step) → map (λ s. s.items) scripts.old.items ≡ scripts_of before → OnOk result (map (λ s. s.items) scripts.new.items ≡ scripts_of (before ++ step ∷ [])) }
    ensures all { vec_len scripts.new ≡ vec_len scripts.old }
{
    match step {
        Step::Do(actor, event) => add_event(scripts, actor, event),
        _ => Ok(()),
    }
}

fn add_event(scripts: &mut Vec<Vec<Command>>, actor: Actor, event: Event) -> Result<(), AllocError>
    ensures added { (before : List Step) → map (λ s. s.items) scripts.old.items ≡ scripts_of before → OnOk result (map (λ s. s.items) scripts.new.items ≡ scripts_of (before ++ Do actor event ∷ [])) }
    ensures all { vec_len scripts.new ≡ vec_len scripts.old }
{
    match event {
        Event::Act(command) => add_command(scripts, actor, command),
        _ => Ok(()),
    }
}

fn add_command(
    scripts: &mut Vec<Vec<Command>>,
    actor: Actor,
    command: Command,
) -> Result<(), AllocError>
    ensures added { (before : List Step) → map (λ s. s.items) scripts.old.items ≡ scripts_of before → OnOk result (map (λ s. s.items) scripts.new.items ≡ scripts_of (before ++ Do actor (Act command) ∷ [])) }
    ensures all { vec_len scripts.new ≡ vec_len scripts.old }
{
    match actor {
        Actor::Window(number) => add(scripts, usize::from(number), command),
        _ => Ok(()),
    }
}

/// Adds the command to those of the window with this number, where there is one.
fn add(scripts: &mut Vec<Vec<Command>>, number: usize, command: Command) -> Result<(), AllocError>
    ensures added { OnOk result (map (λ s. s.items) scripts.new.items ≡ with_command number command (map (λ s. s.items) scripts.old.items)) }
    ensures all { vec_len scripts.new ≡ vec_len scripts.old }
{
    if let Some(script) = scripts.get_mut(number) {
        script.push(command)?;
    }
    Ok(())
}
