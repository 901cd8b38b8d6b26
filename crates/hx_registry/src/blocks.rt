//! The blocks in which a backup is put behind its gate.

ghost use Rattle.std.specs.Prelude.{◌≡◌, ◌≤◌, ◌<◌, IsTrue, IfOk, length, take, drop};
ghost use Rattle.hx_events.specs.Resources.{is_resource};
ghost use Rattle.hx_events.specs.declared.backup.TheConstants.{CONTENT_MAX};
ghost use Rattle.hx_pairs.specs.Stages.{IsBlock};
ghost use Rattle.hx_registry.specs.Blocks.{IsFirst};

use hx_core::BegunBackup;
use hx_etag::Stat;
use hx_record::preamble;
use hx_slots::put_frame_head;
use std::alloc::{AllocError, Global};

// How many bytes of a content stand in a block.
const BLOCK: usize = 4096;

// The first bytes, at most so many.
fn front(bytes: &[u8], most: usize) -> &[u8]
    ensures front { result.now ≡ take most bytes.now }
    ensures short { length result.now ≤ most }
{
    &bytes[..most.min(bytes.len())]
}

// What stands from this place on.
fn behind(bytes: &[u8], from: usize) -> &[u8]
    ensures { result.now ≡ drop from bytes.now }
{
    &bytes[from.min(bytes.len())..]
}

// What a frame has before its content, and the first block of the content.
fn first_block(
    alloc: Global,
    stamp: u64,
    resource: &[u8],
    base: Option<Stat>,
    content: &[u8],
) -> Result<Vec<u8>, AllocError>
    requires resource { IsTrue (is_resource resource.now) }
    requires content { length content.now ≤ CONTENT_MAX }
    ensures first { IfOk result (λ block. IsFirst stamp (record { resource = resource.now; base = base; content = content.now }) block.items) }
    ensures short { IfOk result (λ block. length block.items ≤ 8192) }
{
    let line = preamble(alloc, resource, base)?;
    let size = (line.len() + content.len()) as u32;
    let first = front(content, BLOCK);
    let mut block = Vec::with_capacity(alloc, 16 + line.len() + first.len())?;
    put_frame_head(&mut block, stamp, size)?;
    block.extend_from_slice(&line)?;
    block.extend_from_slice(first)?;
    Ok(block)
}

/// The block of a begun backup that is to be put next: the first with all that a frame has before its content, each with 4,096
/// bytes of the content, or what is left of it.
pub fn next_block(
    alloc: Global,
    stamp: u64,
    resource: &[u8],
    backup: &BegunBackup,
) -> Result<Vec<u8>, AllocError>
    requires resource { IsTrue (is_resource resource.now) }
    requires content { length backup.now.snapshot.content ≤ CONTENT_MAX }
    requires few { backup.now.blocks < 129 }
    ensures block { IfOk result (λ block. IsBlock resource.now stamp backup.now block.items) }
    ensures short { IfOk result (λ block. length block.items ≤ 8192) }
{
    match backup.blocks() {
        0 => first_block(alloc, stamp, resource, backup.base(), backup.content()),
        blocks => front(behind(backup.content(), BLOCK * blocks as usize), BLOCK).to_vec(alloc),
    }
}
