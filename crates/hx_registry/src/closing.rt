//! The end of a life: the work that is due is finished, and the question is asked whether the program may end.

ghost use Rattle.std.specs.Prelude.{◌≡◌, ◌<◌, ◌≤◌, ◌+◌, ◌*◌, suc, Some, length, IfOk, OnErr, OnOk};
ghost use Rattle.hx_closing_laws.specs.Quitting.{quit_answer};
ghost use Rattle.hx_closing_laws.specs.Settling.{IsDone, SettlesOne};
ghost use Rattle.hx_lives.specs.Calls.{AddsFew, AddsStages, HasGoneOn, Quits, Settles, last_outcome, stages_at_most};
ghost use Rattle.hx_lives.specs.Course.{opening};

use crate::registry::Registry;
use hx_disk::Disk;
use hx_events::{Actor, Event, Outcome, ResNo};
use std::alloc::AllocError;

impl<D: Disk> Registry<D> {
    /// Does all stages that are due, by the Closer: for each resource in the order of their numbers those of saves, and then
    /// those of the vault; in a guarded life, where a completed backup may make a save's write due, by turns, and again a vault
    /// stage only where no save stage is due. For want of memory the entries that were made stand.
    #[tactic(auto, using(hx_closing_laws::specs::Settling::settled_none, hx_closing_laws::specs::Settling::settled_one, hx_closing_laws::specs::Settling::cut_short, hx_closing_laws::specs::Settling::cut_few, hx_closing_laws::specs::Settling::settled_all, hx_closing_laws::specs::Settling::settled_few, hx_closing_laws::specs::Settling::stands, hx_closing_laws::specs::Settling::goes_on))]
    pub fn settle(&mut self) -> Result<(), AllocError>
        ensures settled { OnOk result (Settles self.old.course self.new.course) }
        ensures err { OnErr result (AddsStages self.old.course self.new.course) }
        ensures few { AddsFew self.old.course self.new.course }
        ensures runs { HasGoneOn D.time D.past D.failures self.old.disk self.new.disk }
    {
        let count = self.names().len();
        'resources: for number in 0..count {
            self.settle_one(ResNo::new(number as u32))?;
        }
        Ok(())
    }

    // Does the stages that are due for one resource, until none is.
    #[tactic(auto, using(hx_closing_laws::specs::Closing::closing_starts, hx_closing_laws::specs::Closing::closing_save, hx_closing_laws::specs::Closing::closing_vault, hx_closing_laws::specs::Closing::closing_ends, hx_closing_laws::specs::Closing::save_leaves_fewer, hx_closing_laws::specs::Closing::vault_leaves_fewer, hx_closing_laws::specs::Closing::says_done, hx_closing_laws::specs::Settling::stands, hx_closing_laws::specs::Settling::goes_on))]
    fn settle_one(&mut self, res: ResNo) -> Result<(), AllocError>
        requires { res < length self.old.course.names }
        ensures settles { SettlesOne res self.old.course self.new.course }
        ensures done { OnOk result (IsDone (opening self.new.course) self.new.course.entries res) }
        ensures runs { HasGoneOn D.time D.past D.failures self.old.disk self.new.disk }
    {
        self.keeps_limits();
        'stages: loop {
            if self.is_save_due(res) {
                self.save_stage(Actor::Closer, res)?;
                continue;
            }
            if !self.is_vault_due(res) {
                return Ok(());
            }
            self.vault_stage(Actor::Closer, res)?;
        }
    }

    /// Settles, and then asks whether the program may end, unless that was the last entry. It answers the last entry's outcome,
    /// and adds at most one entry more than settling may. For want of memory the entries that were made stand.
    #[tactic(auto, using(hx_closing_laws::specs::Quitting::quits_as_asked, hx_closing_laws::specs::Quitting::quits_if_asked, hx_closing_laws::specs::Quitting::answers_as_asked, hx_closing_laws::specs::Quitting::answers_if_asked, hx_closing_laws::specs::Quitting::stages_stand, hx_closing_laws::specs::Settling::stays))]
    pub fn quit(&mut self) -> Result<Outcome, AllocError>
        ensures ended { OnOk result (Quits self.old.course self.new.course) }
        ensures answer { IfOk result (λ outcome. last_outcome self.new.course.entries ≡ Some outcome) }
        ensures err { OnErr result (AddsStages self.old.course self.new.course) }
        ensures few { length self.new.course.entries ≤ suc (length self.old.course.entries + stages_at_most self.old.course.guarded * length self.old.course.names) }
        ensures runs { HasGoneOn D.time D.past D.failures self.old.disk self.new.disk }
    {
        self.settle()?;
        match self.quit_answer() {
            Some(outcome) => Ok(outcome),
            None => self.ask_quit(),
        }
    }

    // What the last entry answered, if it was the question whether the program may end.
    #[tactic(auto, using(hx_closing_laws::specs::Quitting::answer_of_none, hx_closing_laws::specs::Quitting::answer_of_last))]
    fn quit_answer(&self) -> Option<Outcome>
        ensures { result ≡ quit_answer self.now.course.entries }
    {
        let last = self.history().last()?;
        match last.event {
            Event::Quit => Some(last.outcome),
            _ => None,
        }
    }
}
