ghost use Rattle.std.specs.Prelude.{◌≡◌, ◌≤◌, ◌+◌, ◌++◌, ◌==◌, IsTrue, List, ℕ, MatchOption, IfSome, IfOk, OnOk, length, slice_index, slice_range};
ghost use Rattle.hx_slots.specs.Frames.{body_limit, body_place, frame_at, frame_by, frame_in, shown_in, frame_bytes, frame_head};
ghost use Rattle.hx_events.specs.declared.backup.SlotForm.TheVariants.{Two};

use crate::Shown;
use hx_base::{put_u32, put_u64, read_u32, read_u64};
use hx_events::SlotForm;
use std::alloc::{AllocError, Global};

// Stands where form One has its length, and is above its limit.
const MARK: u32 = 0xffff_ffff;

fn limit_of(form: SlotForm) -> u32
    ensures { result ≡ body_limit form }
{
    match form {
        SlotForm::One => 272_144,
        SlotForm::Two => 534_288,
    }
}

fn place_of(form: SlotForm) -> usize
    ensures { result ≡ body_place form }
{
    match form {
        SlotForm::One => 12,
        SlotForm::Two => 16,
    }
}

// What stands behind the gate begins with the stamp, and the body has this size.
#[tactic(auto, using(crate::proofs::FrameSteps::by_parts))]
fn shown_by(form: SlotForm, stamp: u64, rest: &[u8], size: u32) -> Option<Shown>
    ensures value { MatchOption result (frame_by form stamp rest.now (Some size) ≡ None) (λ s. frame_by form stamp rest.now (Some size) ≡ Some (frame_at s rest.now)) }
    ensures place { IfSome result (λ s. (1 ≤ s.start) × (s.start ≤ s.end) × (s.end ≤ 1 + length rest.now)) }
{
    let place = place_of(form);
    if size > limit_of(form) || rest.len() < place + size as usize {
        return None;
    }
    let start = 1 + place;
    Some(Shown {
        form,
        stamp,
        start,
        end: start + size as usize,
    })
}

#[tactic(auto, unfolding(crate::specs::Frames::frame_in))]
fn shown_behind(rest: &[u8]) -> Option<Shown>
    ensures value { MatchOption result (frame_in rest.now ≡ None) (λ s. frame_in rest.now ≡ Some (frame_at s rest.now)) }
    ensures place { IfSome result (λ s. (1 ≤ s.start) × (s.start ≤ s.end) × (s.end ≤ 1 + length rest.now)) }
{
    let stamp = read_u64(rest, 0)?;
    let word = read_u32(rest, 8)?;
    if word == MARK {
        shown_by(SlotForm::Two, stamp, rest, read_u32(rest, 12)?)
    } else {
        shown_by(SlotForm::One, stamp, rest, word)
    }
}

fn is_open(bytes: &[u8]) -> bool
    ensures gate { result ≡ (slice_index bytes.now 0 == 1) }
    ensures long { IsTrue result → 1 ≤ length bytes.now }
{
    !bytes.is_empty() && bytes[0] == 1
}

/// What a slot file shows: its frame where the gate is 1, a whole header follows, the length isn't above the limit of
/// its form, and all of the body is there. Any bytes are allowed; bytes behind the body are ignored.
pub fn shown(bytes: &[u8]) -> Option<Shown>
    ensures value { MatchOption result (shown_in bytes.now ≡ None)
        (λ s. shown_in bytes.now ≡ Some (record { form = s.form; stamp = s.stamp; body = slice_range bytes.now s.start s.end })) }
    ensures within { IfSome result (λ s. (s.start ≤ s.end) × (s.end ≤ length bytes.now)) }
{
    if is_open(bytes) {
        shown_behind(&bytes[1..])
    } else {
        None
    }
}

/// Appends what a frame of form Two has before a body of this size. Where memory runs out a part of it may stand there.
pub fn put_frame_head(out: &mut Vec<u8>, stamp: u64, size: u32) -> Result<(), AllocError>
    ensures { OnOk result (out.new.items ≡ out.old.items ++ frame_head stamp size) }
{
    put_u64(out, stamp)?;
    put_u32(out, MARK)?;
    put_u32(out, size)
}

/// All that stands behind the gate of a slot file, in form Two: the stamp, the mark, the body's length and the body.
pub fn frame(alloc: Global, stamp: u64, body: &[u8]) -> Result<Vec<u8>, AllocError>
    requires { length body.now ≤ body_limit Two }
    ensures bytes { IfOk result (λ frame. frame.items ≡ frame_bytes stamp body.now) }

    // It shows the body again, whatever stands behind it.
    ensures shows { IfOk result (λ frame. (tail : List ℕ) → frame_in (frame.items ++ tail) ≡ Some (record { form = Two; stamp = stamp; body = body.now })) }
{
    let mut frame = Vec::with_capacity(alloc, body.len() + 16)?;
    put_frame_head(&mut frame, stamp, body.len() as u32)?;
    frame.extend_from_slice(body)?;
    Ok(frame)
}
