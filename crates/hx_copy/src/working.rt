ghost use Rattle.std.specs.Prelude.{◌≡◌, ◌+◌, ◌-◌, ◌<◌, ◌≤◌, ◌^◌, ℕ, Bool, true, Ok, Err, length, IfOk, IsOk, OnOk, OnErr};
ghost use Rattle.hx_events.specs.declared.outcome.Outcome.TheVariants.{Edited, Undone, Redone, Reverted, Saved};
ghost use Rattle.hx_copy.specs.Copies.{Follows, edit_answer, edited_copy, has_places, is_dirty_copy, new_copy, redone_copy, reverted_copy, saved_copy, undone_copy};

use crate::EditError;
use crate::places::replace;
use crate::trail::Steps;
use hx_etag::{Stat, newer};
use hx_events::{Bytes, CONTENT_MAX};
use std::alloc::{AllocError, Global};
use std::marker::Model;

/// A working copy: the content, the version id, the trail, the id of the clean state and the stat of the file. Contracts see
/// the content of each place of the trail, and for which calls there is room.
#[derive(Drop)]
pub struct WorkingCopy {
    version: u64,
    // The id at the trail's place, and the content there.
    id: u64,
    content: Vec<u8>,
    back: Steps,
    ahead: Steps,
    mark: Option<u64>,
    base: Option<Stat>,
}

impl Model for WorkingCopy {
    ghost use Rattle.std.specs.Prelude.{◌-◌, vec_len, vec_capacity};
    ghost use Rattle.hx_copy.specs.Steps.{IsChain};
    ghost use Rattle.hx_copy.specs.Copies.{CopyState, copy_of, place_of, walked, room_to_add, room_to_walk};

    ghost Value = { CopyState };

    ghost view = { λ c. record { copy = copy_of c.version (place_of c.id c.content.items) (walked c.content.items c.back.steps) (walked c.content.items c.ahead.steps) c.mark c.base; adds = room_to_add (vec_len c.content) (vec_capacity c.content - vec_len c.content) c.back; undoes = room_to_walk (vec_len c.content) (vec_capacity c.content) c.back.steps c.ahead; redoes = room_to_walk (vec_len c.content) (vec_capacity c.content) c.ahead.steps c.back } };

    ghost invariant = { λ c. IsChain c.content.items c.back.steps × IsChain c.content.items c.ahead.steps };
}

impl WorkingCopy {
    /// A copy whose trail begins with the version id `first`; its clean state is that version where it is `clean`, else it has
    /// none. The base is the stat of the file, where there is a file.
    pub fn new(
        alloc: Global,
        content: Bytes,
        base: Option<Stat>,
        clean: bool,
        first: u64,
    ) -> WorkingCopy
        ensures { result.copy ≡ new_copy first content base clean }
    {
        WorkingCopy {
            version: first,
            id: first,
            content: content.into_vec(),
            back: Steps::new(alloc),
            ahead: Steps::new(alloc),
            mark: if clean { Some(first) } else { None },
            base,
        }
    }

    /// The id of the last version.
    pub fn version(&self) -> u64
        ensures { result ≡ self.now.copy.version }
    {
        self.version
    }

    /// The id of the version that stands at the trail's place: after an undo or a redo an older one than the last version,
    /// with the same content.
    pub fn alternative(&self) -> u64
        ensures { result ≡ self.now.copy.here.id }
    {
        self.id
    }

    pub fn content(&self) -> &[u8]
        ensures { result.now ≡ self.now.copy.here.content }
    {
        self.content.as_slice()
    }

    /// The stat that the copy keeps of its file.
    pub fn base(&self) -> Option<Stat>
        ensures { result ≡ self.now.copy.base }
    {
        self.base
    }

    /// Whether the copy isn't in its clean state. After VS Code, an undo that brings back the saved state makes it clean.
    pub fn is_dirty(&self) -> bool
        ensures { result ≡ is_dirty_copy self.now.copy }
    {
        self.mark != Some(self.id)
    }

    /// Whether the trail has a place before the copy's.
    pub fn can_undo(&self) -> bool
        ensures { result ≡ has_places self.now.copy.back }
    {
        !self.back.is_empty()
    }

    /// Whether the trail has a place behind the copy's.
    pub fn can_redo(&self) -> bool
        ensures { result ≡ has_places self.now.copy.ahead }
    {
        !self.ahead.is_empty()
    }

    /// Whether an edit can be made that replaces `del` bytes from `off` on by `add` others: OutOfContent exactly where
    /// `off + del` exceeds the length, else TooLarge exactly where the new length exceeds the limit of a content.
    pub fn check_edit(&self, off: u64, del: u64, add: u64) -> Result<(), EditError>
        ensures { result ≡ edit_answer (length self.now.copy.here.content) off del add }
    {
        let len = self.content.as_slice().len() as u64;
        if off > len || del > len - off {
            return Err(EditError::OutOfContent);
        }
        if len - del > CONTENT_MAX || add > CONTENT_MAX - (len - del) {
            return Err(EditError::TooLarge);
        }
        Ok(())
    }

    /// Makes room for one edit that adds so many bytes, and for the bytes that it replaces.
    pub fn reserve(&mut self, add: usize) -> Result<(), AllocError>
        ensures room { OnOk result (add < self.new.adds) }
        ensures succeeds { add < self.old.adds → IsOk result }
        ensures copy { self.new.copy ≡ self.old.copy }
    {
        let Some(bytes) = self.content.len().checked_add(add) else {
            return Err(AllocError)
        };
        self.back.reserve(bytes)?;
        self.content.reserve(add)
    }

    /// Replaces `del` bytes from `off` on by the text, and gives the new version id, one more than before. What lay behind the
    /// trail's place is forgotten. The refusals are those of `check_edit`, and NoMemory only without room; after a refusal the
    /// copy is as before.
    pub fn edit(&mut self, off: u64, del: u64, text: &[u8]) -> Result<u64, EditError>
        requires version { self.old.copy.version < 2 ^ 64 - 1 }
        ensures copy { OnOk result (self.new.copy ≡ edited_copy off del text.now self.old.copy) }
        ensures version { IfOk result (λ version. version ≡ self.new.copy.version) }
        ensures follows { IfOk result (λ version. Follows (Edited version) self.old.copy self.new.copy) }
        ensures checked { OnOk result (edit_answer (length self.old.copy.here.content) off del (length text.now) ≡ Ok tt) }
        ensures refused { (e : EditError) → edit_answer (length self.old.copy.here.content) off del (length text.now) ≡ Err e → result ≡ Err e }
        ensures succeeds { edit_answer (length self.old.copy.here.content) off del (length text.now) ≡ Ok tt → length text.now < self.old.adds → IsOk result }
        ensures err { OnErr result (self.new.copy ≡ self.old.copy) }
    {
        self.check_edit(off, del, text.len() as u64)?;
        self.reserve(text.len()).map_err(|_| EditError::NoMemory)?;
        Ok(self.change(off as usize, del as usize, text))
    }

    // Makes an edit for which there is room.
    fn change(&mut self, off: usize, del: usize, text: &[u8]) -> u64
        requires fits { off + del ≤ length self.old.copy.here.content }
        requires room { length text.now < self.old.adds }
        requires version { self.old.copy.version < 2 ^ 64 - 1 }
        ensures copy { self.new.copy ≡ edited_copy off del text.now self.old.copy }
        ensures result { result ≡ self.new.copy.version }
    {
        let id = self.id;
        self.back
            .push(id, off, text, &self.content.as_slice()[off..off + del]);
        replace(&mut self.content, off, del, text);
        self.ahead.clear();
        self.version += 1;
        self.id = self.version;
        self.version
    }

    /// Makes room for the next undo.
    pub fn reserve_undo(&mut self) -> Result<(), AllocError>
        ensures room { OnOk result (self.new.undoes ≡ true) }
        ensures copy { self.new.copy ≡ self.old.copy }
    {
        let (here, there) = self.back.nearest();
        self.ahead.reserve(here + there)?;
        self.content.reserve(there.saturating_sub(here))
    }

    /// Goes back to the place before, and gives the new version id, one more than before.
    pub fn undo(&mut self) -> u64
        requires can { has_places self.old.copy.back ≡ true }
        requires room { self.old.undoes ≡ true }
        requires version { self.old.copy.version < 2 ^ 64 - 1 }
        ensures copy { self.new.copy ≡ undone_copy self.old.copy }
        ensures follows { Follows (Undone result) self.old.copy self.new.copy }
        ensures result { result ≡ self.new.copy.version }
    {
        let id = self.id;
        self.id = self.back.walk(&mut self.ahead, id, &mut self.content);
        self.version += 1;
        self.version
    }

    /// Makes room for the next redo.
    pub fn reserve_redo(&mut self) -> Result<(), AllocError>
        ensures room { OnOk result (self.new.redoes ≡ true) }
        ensures copy { self.new.copy ≡ self.old.copy }
    {
        let (here, there) = self.ahead.nearest();
        self.back.reserve(here + there)?;
        self.content.reserve(there.saturating_sub(here))
    }

    /// Goes on to the place behind, and gives the new version id, one more than before.
    pub fn redo(&mut self) -> u64
        requires can { has_places self.old.copy.ahead ≡ true }
        requires room { self.old.redoes ≡ true }
        requires version { self.old.copy.version < 2 ^ 64 - 1 }
        ensures copy { self.new.copy ≡ redone_copy self.old.copy }
        ensures follows { Follows (Redone result) self.old.copy self.new.copy }
        ensures result { result ≡ self.new.copy.version }
    {
        let id = self.id;
        self.id = self.ahead.walk(&mut self.back, id, &mut self.content);
        self.version += 1;
        self.version
    }

    /// Takes over what the file was found to hold as a new version, which is clean and begins the trail anew; gives its id, one
    /// more than before. The base is the newer stat.
    pub fn reverted(&mut self, content: Bytes, found: Stat) -> u64
        requires { self.old.copy.version < 2 ^ 64 - 1 }
        ensures copy { self.new.copy ≡ reverted_copy content found self.old.copy }
        ensures follows { Follows (Reverted found) self.old.copy self.new.copy }
        ensures result { result ≡ self.new.copy.version }
    {
        self.content = content.into_vec();
        self.back.clear();
        self.ahead.clear();
        self.base = Some(newer(self.base, found));
        self.version += 1;
        self.id = self.version;
        self.mark = Some(self.version);
        self.version
    }

    /// Notes that this version was saved: where it is the last one, the trail's place is the clean state; else what came after
    /// it is still unsaved. The base is the newer stat, where the save found one.
    pub fn saved(&mut self, version: u64, found: Option<Stat>)
        ensures copy { self.new.copy ≡ saved_copy version found self.old.copy }
        ensures follows { Follows (Saved version found) self.old.copy self.new.copy }
    {
        if version == self.version {
            self.mark = Some(self.id);
        }
        if let Some(stat) = found {
            self.base = Some(newer(self.base, stat));
        }
    }
}
