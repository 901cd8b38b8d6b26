ghost use Rattle.std.specs.Prelude.{◌∷◌, []};
ghost use Rattle.hx_memdisk.specs.Event.{Event, Crashes, event_of};

use hx_ghost::Lists;
use std::marker::Model;

/// A call that changed a disk or tried to: what it was handed, and whether it succeeded.
#[derive(Drop)]
pub enum Call<'a> {
    Write {
        file: u32,
        at: u64,
        bytes: &'a [u8],
        ok: bool,
        mtime: u64,
    },
    Cut {
        file: u32,
        len: u64,
        ok: bool,
        mtime: u64,
    },
    Sync {
        file: u32,
        ok: bool,
    },
    SetMtime {
        file: u32,
        mtime: u64,
        ok: bool,
    },
    Crash {
        pick: u64,
    },
}

/// What clauses see of a recorded call. No program makes such a value: only clauses read the record.
#[derive(Drop)]
pub struct Recorded(());

impl Model for Recorded {
    ghost Value = { Event };

    ghost view = { λ _. Crashes 0 };
}

impl Lists<Recorded> for Call<'_> {
    ghost listed = { λ call. event_of call ∷ [] };
}
