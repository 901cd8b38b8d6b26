//! What a life keeps of one resource.

ghost use Rattle.std.specs.Prelude.{◌≡◌, ◌||◌, ◌&&◌, None, not, length, is_some, option_map};
ghost use Rattle.hx_resource.specs.Kept.{dirty_now, content_in, base_in, held_by, wanted_by, kept_at_first, restored_kept};
ghost use Rattle.hx_rules.specs.Due.{next_stage};
ghost use Rattle.hx_resource.specs.Rows.{undo_in, redo_in, is_backed};

use hx_copy::WorkingCopy;
use hx_etag::Stat;
use hx_events::{Bytes, Stage};
use hx_rules::Running;
use hx_seq::Sequencer;
use std::alloc::Global;
use std::marker::Model;

/// A backup that is begun: the snapshot that its Prepare took, and how many blocks of it are written.
#[derive(Drop)]
pub struct BegunBackup {
    pub(crate) version: u64,
    pub(crate) base: Option<Stat>,
    pub(crate) content: Bytes,
    pub(crate) blocks: u64,
}

impl Model for BegunBackup {
    ghost use Rattle.std.specs.Prelude.{length};
    ghost use Rattle.hx_rules.specs.Backups.{Begun, begun_of, snapshot};

    ghost Value = { Begun };

    ghost view = { λ b. begun_of (snapshot b.version b.base b.content) (length b.content) b.blocks };
}

impl BegunBackup {
    /// The version of the snapshot.
    pub fn version(&self) -> u64
        ensures { result ≡ self.now.snapshot.version }
    {
        self.version
    }

    /// The stat that the copy kept when the snapshot was taken.
    pub fn base(&self) -> Option<Stat>
        ensures { result ≡ self.now.snapshot.base }
    {
        self.base
    }

    /// The content of the version.
    pub fn content(&self) -> &[u8]
        ensures { result.now ≡ self.now.snapshot.content }
    {
        self.content.as_slice()
    }

    /// The length of the content.
    pub fn size(&self) -> u64
        ensures { result ≡ self.now.size }
    {
        self.content.as_slice().len() as u64
    }

    /// How many blocks of the body are written.
    pub fn blocks(&self) -> u64
        ensures { result ≡ self.now.blocks }
    {
        self.blocks
    }

    // The next stage: a block of the body, or the opening.
    pub(crate) fn next(&self) -> Stage
        ensures { result ≡ next_stage self.now }
    {
        let size = self.size();
        let blocks = if size == 0 { 1 } else { (size - 1) / 4096 + 1 };
        if self.blocks < blocks {
            Stage::Body
        } else {
            Stage::Open
        }
    }
}

/// What a life keeps of one resource: its copy, its saves, and how its backups stand. Contracts see it as plain data, with
/// what there is room for.
#[derive(Drop)]
pub struct Resource {
    pub(crate) alloc: Global,
    pub(crate) last: u64,
    pub(crate) copy: Option<WorkingCopy>,
    pub(crate) seq: Sequencer,
    // The content of the running save's version.
    pub(crate) saving: Bytes,
    pub(crate) begun: Option<BegunBackup>,
    pub(crate) done: Option<u64>,
    pub(crate) safe: Option<u64>,
    pub(crate) halted: bool,
    pub(crate) opened: bool,
    pub(crate) faded: bool,
    pub(crate) write_failed: bool,
    // Room for the next content that is copied.
    pub(crate) spare: Vec<u8>,
}

impl Model for Resource {
    ghost use Rattle.std.specs.Prelude.{option_map, vec_capacity};
    ghost use Rattle.hx_resource.specs.Kept.{ResourceState};

    ghost Value = { ResourceState };

    ghost view = { λ s. record { kept = record { last = s.last; copy = option_map (λ c. c.copy) s.copy; seq = s.seq.seq; saving = s.saving; begun = s.begun; done = s.done; safe = s.safe; halted = s.halted; opened = s.opened; faded = s.faded; write_failed = s.write_failed }; copy = s.copy; tickets = s.seq.room; spare = vec_capacity s.spare } };
}

impl Resource {
    /// What is kept at the opening of a life, of a resource that has no backup. No memory is asked for.
    pub fn new(alloc: Global) -> Resource
        ensures { result.kept ≡ kept_at_first None }
    {
        Resource {
            alloc,
            last: 0,
            copy: None,
            seq: Sequencer::new(alloc),
            saving: Bytes::new(Vec::new(alloc)),
            begun: None,
            done: None,
            safe: None,
            halted: false,
            opened: false,
            faded: false,
            write_failed: false,
            spare: Vec::new(alloc),
        }
    }

    /// What is kept at the opening of a life, of a resource that was restored with this content and stat: its copy is dirty,
    /// and its version 1 is backed up. No memory is asked for.
    pub fn restored(alloc: Global, content: Bytes, base: Option<Stat>) -> Resource
        ensures { result.kept ≡ restored_kept content base }
    {
        Resource {
            last: 1,
            copy: Some(WorkingCopy::new(alloc, content, base, false, 1)),
            done: Some(1),
            opened: true,
            ..Resource::new(alloc)
        }
    }

    /// The copy, where it is registered.
    pub fn copy(&self) -> Option<&WorkingCopy>
        ensures kept { option_map (λ c. c.now.copy) result ≡ self.now.kept.copy }
    {
        self.copy.as_ref()
    }

    /// The resource's saves.
    pub fn sequencer(&self) -> &Sequencer
        ensures { result.now.seq ≡ self.now.kept.seq }
    {
        &self.seq
    }

    /// The version of the completed backup.
    pub fn done(&self) -> Option<u64>
        ensures { result ≡ self.now.kept.done }
    {
        self.done
    }

    /// The backup that is begun.
    pub fn begun(&self) -> Option<&BegunBackup>
        ensures { option_map (λ b. b.now) result ≡ self.now.kept.begun }
    {
        self.begun.as_ref()
    }

    /// The content of the running save's version.
    pub fn saving(&self) -> &[u8]
        ensures { result.now ≡ self.now.kept.saving }
    {
        self.saving.as_slice()
    }

    /// Whether the copy is registered.
    pub fn is_open(&self) -> bool
        ensures { result ≡ is_some self.now.kept.copy }
    {
        self.copy.is_some()
    }

    /// The id of the last version, or 0 where there was none.
    pub fn last(&self) -> u64
        ensures { result ≡ self.now.kept.last }
    {
        self.last
    }

    /// Whether the copy is registered and isn't in its clean state.
    pub fn is_dirty(&self) -> bool
        ensures { result ≡ dirty_now self.now.kept.copy }
    {
        match &self.copy {
            None => false,
            Some(copy) => copy.is_dirty(),
        }
    }

    /// The stat that the copy keeps of its file.
    pub fn base(&self) -> Option<Stat>
        ensures { result ≡ base_in self.now.kept.copy }
    {
        match &self.copy {
            None => None,
            Some(copy) => copy.base(),
        }
    }

    /// Whether an undo has a place to go back to.
    pub fn can_undo(&self) -> bool
        ensures { result ≡ undo_in self.now.kept.copy }
    {
        match &self.copy {
            None => false,
            Some(copy) => copy.can_undo(),
        }
    }

    /// Whether a redo has a place to go on to.
    pub fn can_redo(&self) -> bool
        ensures { result ≡ redo_in self.now.kept.copy }
    {
        match &self.copy {
            None => false,
            Some(copy) => copy.can_redo(),
        }
    }

    /// The length of the copy's content.
    pub fn size(&self) -> u64
        ensures { result ≡ length (content_in self.now.kept.copy) }
    {
        match &self.copy {
            None => 0,
            Some(copy) => copy.content().len() as u64,
        }
    }

    /// The save that runs.
    pub fn running(&self) -> Option<Running>
        ensures { result ≡ self.now.kept.seq.run }
    {
        self.seq.running()
    }

    /// Whether the life is guarded and a save runs.
    pub fn is_held(&self, guarded: bool) -> bool
        ensures { result ≡ held_by guarded self.now.kept.seq.run }
    {
        if guarded {
            self.seq.running().is_some()
        } else {
            false
        }
    }

    /// Whether a backup of the copy is wanted: it is dirty, or held.
    pub fn is_wanted(&self, guarded: bool) -> bool
        ensures { result ≡ wanted_by guarded self.now.kept.copy self.now.kept.seq.run }
    {
        self.is_dirty() || self.is_held(guarded)
    }

    /// Whether the resource holds a pair of slot files: its copy is registered, or something of it may show there.
    pub fn holds(&self) -> bool
        ensures kept { result ≡ (is_some self.now.kept.copy || self.now.kept.opened) }
    {
        self.copy.is_some() || self.opened
    }

    /// Whether the copy is dirty and its last version isn't backed up.
    pub fn is_unsafe(&self) -> bool
        ensures kept { result ≡ (dirty_now self.now.kept.copy && not (is_backed self.now.kept.last self.now.kept.done)) }
    {
        self.is_dirty() && !self.is_backed()
    }
}
