//! An entry as the bytes of its slot file.

ghost use Rattle.std.specs.Prelude.{◌≡◌, ◌≤◌, ◌++◌, IsTrue, IfOk, length, take, drop};
ghost use Rattle.hx_events.specs.Resources.{is_resource};
ghost use Rattle.hx_events.specs.declared.backup.TheConstants.{CONTENT_MAX};
ghost use Rattle.hx_history_laws.specs.Entries.{resource_at};
ghost use Rattle.hx_history_laws.specs.Frames.{IsEntryFrame};

use hx_base::decimal;
use hx_etag::Stat;
use hx_record::preamble;
use hx_slots::put_frame_head;
use std::alloc::{AllocError, Global};

/// How many bytes of a content stand in a block.
pub const BLOCK: usize = 4096;

/// The resource of the entry with this number.
#[tactic(auto, using(hx_history_laws::specs::Frames::resource_named))]
pub fn resource_of(alloc: Global, number: u64) -> Result<Vec<u8>, AllocError>
    ensures text { IfOk result (λ text. text.items ≡ resource_at number) }
    ensures named { IfOk result (λ text. IsTrue (is_resource text.items)) }
{
    let digits = decimal(alloc, number)?;
    let mut text = Vec::with_capacity(alloc, 8 + digits.len())?;
    text.extend_from_slice(b"history:")?;
    text.extend_from_slice(&digits)?;
    Ok(text)
}

// The first bytes, at most so many.
fn front(bytes: &[u8], most: usize) -> &[u8]
    ensures front { result.now ≡ take most bytes.now }
    ensures short { length result.now ≤ most }
{
    &bytes[..most.min(bytes.len())]
}

// What stands from this place on.
fn behind(bytes: &[u8], from: usize) -> &[u8]
    ensures { result.now ≡ drop from bytes.now }
{
    &bytes[from.min(bytes.len())..]
}

/// What of a content stands behind its first block.
pub fn behind_first(content: &[u8]) -> &[u8]
    ensures { result.now ≡ drop 4096 content.now }
{
    behind(content, BLOCK)
}

/// The first block of an entry: all that its slot file has between the gate and the content, and the content's first 4,096
/// bytes.
pub fn first_block(
    alloc: Global,
    stamp: u64,
    number: u64,
    moment: u64,
    content: &[u8],
) -> Result<Vec<u8>, AllocError>
    requires { length content.now ≤ CONTENT_MAX }
    ensures frame { IfOk result (λ block. IsEntryFrame stamp (record { number = number; moment = moment; content = content.now }) (block.items ++ drop 4096 content.now)) }
    ensures short { IfOk result (λ block. length block.items ≤ 8192) }
{
    let resource = resource_of(alloc, number)?;
    let base = Stat {
        mtime: moment,
        size: content.len() as u64,
    };
    let line = preamble(alloc, &resource, Some(base))?;
    let size = (line.len() + content.len()) as u32;
    let first = front(content, BLOCK);
    let mut block = Vec::with_capacity(alloc, 16 + line.len() + first.len())?;
    put_frame_head(&mut block, stamp, size)?;
    block.extend_from_slice(&line)?;
    block.extend_from_slice(first)?;
    Ok(block)
}
