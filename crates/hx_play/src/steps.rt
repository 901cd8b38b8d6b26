//! The steps of a script, one by one.

ghost use Rattle.std.specs.Prelude.{◌≡◌, ◌≢◌, ◌≤◌, ◌<◌, ◌⊎◌, ℕ, true, IfOk, IfErr, OnOk, OnErr, List, ◌∷◌, All, length};
ghost use Rattle.hx_faults.specs.Faults.{Rose};
ghost use Rattle.hx_events.specs.Resources.{is_resource};
ghost use Rattle.hx_events.specs.Texts.{IsEventOf};
ghost use Rattle.hx_script.specs.Events.{IsAskedBy};
ghost use Rattle.hx_script.specs.Scripts.{IsStepOf};
ghost use Rattle.hx_script.specs.declared.script.Step.{Step};
ghost use Rattle.hx_lives.specs.Calls.{AddsEntry, HasGoneOn};
ghost use Rattle.hx_lives.specs.Chained.{faults_of};
ghost use Rattle.hx_play.specs.Over.{EndsLife};
ghost use Rattle.hx_play.specs.Running.{IsBetween, IsCutShort, IsRunning, is_restart};

use crate::endings::{Stopped, crash_life, end_life};
use crate::lives::Lives;
use crate::openings::next_life;
use crate::playing::Halt;
use hx_disk::Disk;
use hx_events::{Actor, Ended, Event, Names, Outcome};
use hx_registry::Registry;
use hx_script::Step;
use std::alloc::{AllocError, Global};

/// One event of the life.
fn take<D: Disk>(
    registry: &mut Registry<D>,
    actor: Actor,
    event: Event,
) -> Result<Outcome, AllocError>
    requires named { IsEventOf registry.old.course.names event }
    requires asked { IsAskedBy actor event }
    ensures entry { IfOk result (λ outcome. AddsEntry actor event outcome registry.old.course registry.new.course) }
    ensures err { OnErr result (registry.new.course ≡ registry.old.course) }
    ensures runs { HasGoneOn D.time D.past D.failures registry.old.disk registry.new.disk }
{
    match event {
        Event::Act(command) => registry.command(actor, command),
        Event::Vault(res) => registry.vault_stage(actor, res),
        Event::Flush(res) => registry.save_stage(actor, res),
        Event::Quit => registry.ask_quit(),
    }
}

/// Cuts the life off for want of memory.
pub fn cut_off<D: Disk>(lives: &mut Lives, registry: Registry<D>) -> Stopped<D>
    requires { 0 < lives.old.room }
    ensures halt { result.halt ≡ Halt.NoMemory }
    ensures disk { result.disk ≡ registry.disk }
    ensures ends { EndsLife D.picked D.tells D.time D.past D.failures registry.course Ended.Cut lives.old.lives lives.new.lives result.disk }
{
    Stopped {
        halt: Halt::NoMemory,
        disk: end_life(lives, registry, Ended::Cut),
    }
}

/// One step more: an event of the life, or its end and the opening of the next one.
pub fn take_step<D: Disk>(
    alloc: Global,
    names: &Names,
    guarded: bool,
    lives: &mut Lives,
    mut registry: Registry<D>,
    step: Step,
) -> Result<Registry<D>, Stopped<D>>
    requires few { length names.now ≤ 192 }
    requires resources { All (λ name. is_resource name ≡ true) names.now }
    requires room { 0 < lives.old.room }
    requires named { length names.now ≤ length registry.course.names }
    requires known { IsStepOf names.now step }
    ensures room { OnOk result (0 < lives.new.room) }
    ensures named { IfOk result (λ r. length names.now ≤ length r.course.names) }
    ensures running { (moment faults : ℕ) (taken : List Step) → IsRunning D.picked D.tells D.time D.past guarded names.now moment faults taken lives.old.lives registry → IfOk result (λ r. IsRunning D.picked D.tells D.time D.past guarded names.now moment faults (step ∷ taken) lives.new.lives r) }
    ensures stopped { (moment faults : ℕ) (taken : List Step) → IsRunning D.picked D.tells D.time D.past guarded names.now moment faults taken lives.old.lives registry → IfErr result (λ s. IsBetween D.picked D.tells D.time D.past D.failures guarded names.now moment faults (step ∷ taken) lives.new.lives s.disk ⊎ ((s.halt ≡ Halt.NoMemory) × IsCutShort D.picked D.tells D.time D.past D.failures guarded names.now moment faults (is_restart step) taken lives.new.lives s.disk)) }
    ensures cause { (faults : ℕ) → IfErr result (λ s. s.halt ≡ Halt.OpenFault → Rose (faults_of faults lives.new.lives) (D.failures s.disk)) }
    ensures halts { IfErr result (λ s. s.halt ≢ Halt.Done) }
    ensures runs { IfOk result (λ r. HasGoneOn D.time D.past D.failures registry.disk r.disk) }
    ensures runs_err { IfErr result (λ s. HasGoneOn D.time D.past D.failures registry.disk s.disk) }
{
    match step {
        Step::Do(actor, event) => match take(&mut registry, actor, event) {
            Ok(_) => Ok(registry),
            Err(_) => Err(cut_off(lives, registry)),
        },
        Step::Crash(pick) => {
            let (disk, crashed) = crash_life(lives, registry, pick);
            match crashed {
                Ok(()) => next_life(alloc, names, guarded, lives, disk),
                Err(_) => Err(Stopped {
                    halt: Halt::NoMemory,
                    disk,
                }),
            }
        }
        Step::Restart => match registry.quit() {
            Ok(_) => {
                let disk = end_life(lives, registry, Ended::Restart);
                next_life(alloc, names, guarded, lives, disk)
            }
            Err(_) => Err(cut_off(lives, registry)),
        },
    }
}
