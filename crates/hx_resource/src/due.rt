//! Which stages of a resource are due.

ghost use Rattle.std.specs.Prelude.{◌≡◌, length, option_map, is_some};
ghost use Rattle.hx_rules.specs.Due.{next_work, run_version, stage_due};
ghost use Rattle.hx_resource.specs.Kept.{is_safe_to};
ghost use Rattle.hx_resource.specs.Rows.{facts_kept, is_backed, vault_due_kept, save_due_kept, save_work_of};
ghost use Rattle.hx_resource.specs.Flagged.{flags_by, new_version, version_by};

use crate::resource::Resource;
use hx_events::Stage;
use hx_tracker::{Flags, due};
use std::marker::Model;

/// A vault stage with its version. A Fade and a Drop have the version 0.
#[derive(Clone, Copy, Debug, PartialEq, Eq)]
pub struct DueStage {
    pub stage: Stage,
    pub version: u64,
}

impl Model for DueStage {
    ghost use Rattle.hx_rules.specs.Due.{VaultWork, vault_work};

    ghost Value = { VaultWork };

    ghost view = { λ w. vault_work w.stage w.version };

    ghost inverse = { λ w. record { stage = w.stage; version = w.version } };
}

/// A save stage, of the running save.
#[derive(Clone, Copy, Debug, PartialEq, Eq)]
pub enum DueSave {
    Check,

    /// The write of this version.
    Write(u64),

    /// The refusal to write this version, which can't be backed up.
    Refuse(u64),
}

impl Resource {
    /// The vault stage that is due, the first of these: none while the copy is halted; the next stage of a begun backup; a
    /// Prepare of the running version, where a save of a guarded life waits for its backup; a Prepare of the last version,
    /// where the copy is dirty and that version isn't backed up; a Drop or a Fade, where nothing is wanted any more.
    pub fn due_vault(&self, guarded: bool) -> Option<DueStage>
        ensures { result ≡ vault_due_kept guarded self.now.kept }
    {
        match due(self.flags(guarded)) {
            None => None,
            Some(stage) => Some(DueStage {
                stage,
                version: self.stage_version(guarded, stage),
            }),
        }
    }

    // What decides which vault stage is due.
    fn flags(&self, guarded: bool) -> Flags
        ensures { result ≡ flags_by (facts_kept guarded self.now.kept) }
    {
        let held = self.is_held(guarded);
        Flags {
            dirty: self.is_dirty(),
            backed: self.is_backed(),
            begun: self.next_stage(),
            halted: self.halted,
            opened: self.opened,
            faded: self.faded,
            held,
            safe: held && self.is_safe(),
            keep: guarded && self.write_failed,
        }
    }

    fn next_stage(&self) -> Option<Stage>
        ensures { result ≡ stage_due (next_work self.now.kept.begun) }
    {
        match &self.begun {
            None => None,
            Some(begun) => Some(begun.next()),
        }
    }

    // The version of a due stage.
    fn stage_version(&self, guarded: bool, stage: Stage) -> u64
        ensures { result ≡ version_by (facts_kept guarded self.now.kept) stage }
    {
        match &self.begun {
            None => self.new_version(guarded, stage),
            Some(begun) => begun.version(),
        }
    }

    fn new_version(&self, guarded: bool, stage: Stage) -> u64
        ensures { result ≡ new_version (facts_kept guarded self.now.kept) stage }
    {
        match stage {
            Stage::Prepare => {
                if self.is_held(guarded) && !self.is_safe() {
                    self.running_version()
                } else {
                    self.last
                }
            }
            _ => 0,
        }
    }

    /// The save stage that is due: the check of a running save; after it the write, in a guarded life only once its version
    /// is safe, or the refusal, where the copy is halted.
    pub fn due_save(&self, guarded: bool) -> Option<DueSave>
        ensures { option_map save_work_of result ≡ save_due_kept guarded self.now.kept }
    {
        match self.running() {
            None => None,
            Some(run) => {
                if !run.checked {
                    Some(DueSave::Check)
                } else if !guarded || self.is_safe() {
                    Some(DueSave::Write(run.version))
                } else if self.halted {
                    Some(DueSave::Refuse(run.version))
                } else {
                    None
                }
            }
        }
    }

    /// Whether a save stage is due.
    pub fn has_save(&self, guarded: bool) -> bool
        ensures { result ≡ is_some (save_due_kept guarded self.now.kept) }
    {
        match self.due_save(guarded) {
            None => false,
            Some(_) => true,
        }
    }

    /// Whether the completed backup is of the last version.
    pub fn is_backed(&self) -> bool
        ensures { result ≡ is_backed self.now.kept.last self.now.kept.done }
    {
        match self.done {
            None => false,
            Some(version) => version == self.last,
        }
    }

    fn is_safe(&self) -> bool
        ensures { result ≡ is_safe_to (run_version self.now.kept.seq.run) self.now.kept.safe }
    {
        match self.safe {
            None => false,
            Some(version) => self.running_version() <= version,
        }
    }

    // The version of the running save, or 0 where none runs.
    pub(crate) fn running_version(&self) -> u64
        ensures { result ≡ run_version self.now.kept.seq.run }
    {
        match self.running() {
            None => 0,
            Some(run) => run.version,
        }
    }
}
