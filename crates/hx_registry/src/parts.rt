//! What a registry is made of, and the events that move no file.

ghost use Rattle.std.specs.Prelude.{◌≡◌, ◌<◌, true, length};
ghost use Rattle.hx_rules.specs.Entries.{is_of};
ghost use Rattle.hx_core.specs.Cores.{IsEventOf, StepRoom, asks_at, outcome_at};
ghost use Rattle.hx_resource.specs.Asks.{FitsAsked};
ghost use Rattle.hx_resource.specs.Rooms.{got_content};
ghost use Rattle.hx_lives.specs.Calls.{AddsEntry};
ghost use Rattle.hx_lives.specs.Course.{opening};
ghost use Rattle.hx_pairs.specs.AllPairs.{held_at};
ghost use Rattle.hx_pairs.specs.Registries.{RegistryInvariant, same_hold};
ghost use Rattle.hx_registry.specs.Answered.{IsAnswered};

use crate::life::OpenLife;
use hx_core::Got;
use hx_disk::Disk;
use hx_events::{Actor, Event, Outcome, PairNo, ResNo};
use hx_vault::Vault;
use std::alloc::Global;

/// The disk, its vault, the life on it, and which pair each resource has.
pub struct Parts<D> {
    pub alloc: Global,
    pub disk: D,
    pub vault: Vault,
    pub life: OpenLife,
    pub held: Vec<Option<PairNo>>,
}

impl<D: Disk> Parts<D> {
    /// The pair that the resource has.
    pub fn pair_of(&self, res: ResNo) -> Option<PairNo>
        requires { res < length self.now.held.items }
        ensures { result ≡ held_at self.now.held.items res }
    {
        self.held[res.number() as usize]
    }

    /// Adds the entry of an event of which the disk moved nothing, and which changes nobody's hold on a pair.
    pub fn rest(&mut self, actor: Actor, event: Event, got: Got) -> Outcome
        requires known { IsEventOf (length self.old.life.course.names) event }
        requires fits { FitsAsked (asks_at (opening self.old.life.course) self.old.life.course.entries event) got }
        requires room { StepRoom event (length (got_content got)) self.old.life.core }
        requires same { same_hold (outcome_at (opening self.old.life.course) self.old.life.course.entries event got) ≡ true }
        requires answered { IsAnswered D.tells D.time D.past D.now D.failures self.old.life.course self.old.vault self.old.held.items self.old.disk event (outcome_at (opening self.old.life.course) self.old.life.course.entries event got) (got_content got) }
        ensures entry { AddsEntry actor event result self.old.life.course self.new.life.course }
        ensures kept { RegistryInvariant D.tells D.time D.past D.now D.failures self.new.life.course self.new.vault self.new.held.items self.new.disk }
        ensures disk { self.new.disk ≡ self.old.disk }
    {
        self.life.step(&self.disk, actor, event, got)
    }

    /// Adds the entry of an event of which the disk moved nothing. Its resource gets a free pair where the rules say then
    /// that it holds one, and gives its pair back where they say that it holds none.
    pub fn answer(&mut self, actor: Actor, event: Event, res: ResNo, got: Got) -> Outcome
        requires known { IsEventOf (length self.old.life.course.names) event }
        requires of_res { is_of res event ≡ true }
        requires within { res < length self.old.life.course.names }
        requires fits { FitsAsked (asks_at (opening self.old.life.course) self.old.life.course.entries event) got }
        requires room { StepRoom event (length (got_content got)) self.old.life.core }
        requires answered { IsAnswered D.tells D.time D.past D.now D.failures self.old.life.course self.old.vault self.old.held.items self.old.disk event (outcome_at (opening self.old.life.course) self.old.life.course.entries event got) (got_content got) }
        ensures entry { AddsEntry actor event result self.old.life.course self.new.life.course }
        ensures kept { RegistryInvariant D.tells D.time D.past D.now D.failures self.new.life.course self.new.vault self.new.held.items self.new.disk }
        ensures disk { self.new.disk ≡ self.old.disk }
    {
        let outcome = self.life.step(&self.disk, actor, event, got);
        match self.pair_of(res) {
            None => {
                if self.life.holds(res) {
                    let Some(pair) = self.vault.free() else {
                        unreachable!()
                    };
                    self.vault.take(pair);
                    self.held[res.number() as usize] = Some(pair);
                }
            }
            Some(pair) => {
                if !self.life.holds(res) {
                    self.vault.release(&self.disk, pair);
                    self.held[res.number() as usize] = None;
                }
            }
        }
        outcome
    }
}
