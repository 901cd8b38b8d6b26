ghost use Rattle.std.specs.Prelude.{◌≡◌, ◌≤◌, ◌<◌, ℕ, List, length, Option, IfOk, MatchOption, IfSome, is_some, slice_index_or};
ghost use Rattle.std.specs.List.{position};
ghost use Rattle.hx_slots.specs.Frames.{shown_in};
ghost use Rattle.hx_slots.specs.Raws.{AreReadOf};
ghost use Rattle.hx_restore.specs.Values.{side_of, value_by_bytes, found_by, restored, restored_pairs};
ghost use Rattle.hx_restore.specs.Choices.{frame_at_place, shows_newer, backup_in, chosen, is_found_of, twin_in};

use crate::value::PairValue;
use hx_events::{Backup, PairFound, PairNo, Side};
use hx_record::{RecordError, decode};
use hx_slots::{RawPair, Shown, shown};
use std::alloc::{AllocError, Global};

#[tactic(auto, using(crate::specs::Choices::shown_at_place))]
fn place_of(bytes: &[u8]) -> Option<Shown>
    ensures shows { shown_in bytes.now ≡ frame_at_place bytes.now result }
    ensures within { IfSome result (λ s. (s.start ≤ s.end) × (s.end ≤ length bytes.now)) }
{
    shown(bytes)
}

// The backup that a side holds, of which it is known what it shows.
fn backup_at(
    alloc: Global,
    bytes: &[u8],
    place: Option<Shown>,
) -> Result<Option<Backup>, AllocError>
    requires { IfSome place (λ s. (s.start ≤ s.end) × (s.end ≤ length bytes.now)) }
    ensures { IfOk result (λ backup. backup ≡ backup_in (side_of (frame_at_place bytes.now place))) }
{
    let Some(place) = place else {
        return Ok(None);
    };
    match decode(alloc, &bytes[place.start..place.end], place.form) {
        Ok(backup) => Ok(Some(backup)),
        Err(RecordError::NoMemory) => Err(AllocError),
        Err(_) => Ok(None),
    }
}

// Whether side B shows a larger stamp than side A.
fn is_newer(a: Option<Shown>, b: Option<Shown>) -> bool
    ensures { result ≡ shows_newer a b }
{
    match (a, b) {
        (Some(a), Some(b)) => a.stamp < b.stamp,
        _ => false,
    }
}

// The side that shows the larger stamp is read first, so that of two backups only the one that counts is copied.
fn choose(
    alloc: Global,
    a: &[u8],
    at_a: Option<Shown>,
    b: &[u8],
    at_b: Option<Shown>,
) -> Result<PairValue, AllocError>
    requires a { IfSome at_a (λ s. (s.start ≤ s.end) × (s.end ≤ length a.now)) }
    requires b { IfSome at_b (λ s. (s.start ≤ s.end) × (s.end ≤ length b.now)) }
    ensures { IfOk result (λ value. value ≡ chosen (shows_newer at_a at_b) (is_some at_a) (is_some at_b) (backup_in (side_of (frame_at_place a.now at_a))) (backup_in (side_of (frame_at_place b.now at_b)))) }
{
    if is_newer(at_a, at_b) {
        if let Some(backup) = backup_at(alloc, b, at_b)? {
            return Ok(PairValue::Held(backup, Side::B));
        }
        return match backup_at(alloc, a, at_a)? {
            Some(backup) => Ok(PairValue::Held(backup, Side::A)),
            None => Ok(PairValue::Broken),
        };
    }
    if let Some(backup) = backup_at(alloc, a, at_a)? {
        return Ok(PairValue::Held(backup, Side::A));
    }
    match backup_at(alloc, b, at_b)? {
        Some(backup) => Ok(PairValue::Held(backup, Side::B)),
        None if at_a.is_some() || at_b.is_some() => Ok(PairValue::Broken),
        None => Ok(PairValue::Nothing),
    }
}

fn value(alloc: Global, pair: &RawPair) -> Result<PairValue, AllocError>
    ensures { IfOk result (λ value. value ≡ value_by_bytes pair.now.a pair.now.b) }
{
    let a = pair.a.as_slice();
    let b = pair.b.as_slice();
    choose(alloc, a, place_of(a), b, place_of(b))
}

fn is_found_of(found: &PairFound, resource: &[u8]) -> bool
    ensures { result ≡ is_found_of resource.now found.now }
{
    match found {
        PairFound::Found(backup, _) => backup.resource.as_slice() == resource,
        PairFound::Empty | PairFound::Damaged | PairFound::Twin(_) => false,
    }
}

// The place of the first pair in which a backup of this resource was found.
fn place_with(found: &[PairFound], resource: &[u8]) -> Option<usize>
    ensures place { result ≡ position (is_found_of resource.now) found.now }
    ensures within { IfSome result (λ place. place < length found.now) }
{
    found.iter().position(|found| is_found_of(found, resource))
}

/// The lowest of these pairs in which a backup of this resource was found, or none exactly where none was.
pub fn pair_with(found: &[PairFound], resource: &[u8]) -> Option<PairNo>
    requires { length found.now ≤ 64 }
    ensures { result ≡ position (is_found_of resource.now) found.now }
{
    match place_with(found, resource) {
        Some(place) => Some(PairNo::new(place as u32)),
        None => None,
    }
}

// The first pair in which the backup of the same resource was found.
fn twin_of(value: &PairValue, earlier: &[PairFound]) -> Option<PairNo>
    requires { length earlier.now ≤ 64 }
    ensures { result ≡ twin_in earlier.now value.now }
{
    match value {
        PairValue::Held(backup, _) => pair_with(earlier, backup.resource.as_slice()),
        PairValue::Nothing | PairValue::Broken => None,
    }
}

fn found_as(value: PairValue, twin: Option<PairNo>) -> PairFound
    ensures { result ≡ found_by value twin }
{
    match value {
        PairValue::Nothing => PairFound::Empty,
        PairValue::Broken => PairFound::Damaged,
        PairValue::Held(backup, side) => match twin {
            Some(earlier) => PairFound::Twin(earlier),
            None => PairFound::Found(backup, side),
        },
    }
}

/// What a restart finds in these pairs, in order, each by the raw bytes of its two files.
///
/// With the first 534,305 bytes of each slot file of a disk image it is what the whole image is restored as. It fails only
/// for want of memory.
pub fn restored(alloc: Global, pairs: &[RawPair]) -> Result<Vec<PairFound>, AllocError>
    requires { length pairs.now ≤ 64 }
    ensures value { IfOk result (λ found. found.items ≡ restored_pairs pairs.now) }
    ensures image { (image : ℕ → List ℕ) → AreReadOf image pairs.now → IfOk result (λ found. found.items ≡ restored image) }
{
    let mut found = Vec::with_capacity(alloc, pairs.len())?;
    for pair in pairs {
        let value = value(alloc, pair)?;
        let twin = twin_of(&value, &found);
        found.push(found_as(value, twin))?;
    }
    Ok(found)
}
