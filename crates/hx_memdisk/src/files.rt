ghost use Rattle.std.specs.Prelude.{◌≡◌, ◌<◌, ℕ, List, [], slice_index_or, vec_len, IfOk, OnOk};
ghost use Rattle.hx_memdisk.specs.Event.{Event};
ghost use Rattle.hx_memdisk.specs.Kept.{IsAfter, HasLeft};
ghost use Rattle.hx_memdisk.specs.Room.{FileTakes};
ghost use Rattle.hx_memdisk.specs.declared.kept.Kept.{Kept};

use crate::kept::Kept;
use std::alloc::{AllocError, Global};

const FILES: usize = 384;

/// The files of a disk on which none exists.
pub fn no_files(alloc: Global) -> Result<Vec<Kept>, AllocError>
    ensures len { IfOk result (λ files. vec_len files ≡ 384) }
    ensures each { IfOk result (λ files. (f : ℕ) (d : Kept) → f < 384 → IsAfter [] f (slice_index_or files.items f d)) }
{
    let mut files = Vec::new(alloc);
    for _ in 0..FILES {
        files.push(Kept::new(alloc))?;
    }
    Ok(files)
}

/// Makes room in a file for so many bytes.
pub fn reserve_file(files: &mut Vec<Kept>, i: usize, end: usize) -> Result<(), AllocError>
    requires { i < vec_len files.old }
    ensures len { vec_len files.new ≡ vec_len files.old }
    ensures same { (f : ℕ) (d : Kept) (calls : List Event) → IsAfter calls f (slice_index_or files.old.items f d) → IsAfter calls f (slice_index_or files.new.items f d) }
    ensures keeps { (f end : ℕ) → FileTakes f end files.old.items → FileTakes f end files.new.items }
    ensures takes { OnOk result (FileTakes i end files.new.items) }
{
    files[i].reserve(end)
}

/// Leaves of each file the image that the pick names.
pub fn crash_files(files: &mut Vec<Kept>, pick: u64)
    ensures len { vec_len files.new ≡ vec_len files.old }
    ensures each { (f : ℕ) (d : Kept) → f < vec_len files.old → HasLeft pick (slice_index_or files.old.items f d) (slice_index_or files.new.items f d) }
{
    for i in 0..files.len() {
        files[i].crash(pick);
    }
}
