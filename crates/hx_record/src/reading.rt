ghost use Rattle.std.specs.Prelude.{◌≡◌, ◌≢◌, ◌<◌, ◌≤◌, length, take, IfSome, IfOk, IfErr};
ghost use Rattle.hx_meta.specs.Metas.{meta_in};
ghost use Rattle.hx_record.specs.Records.{place_in, content_limit, backup_of, line_read, record_in};
ghost use Rattle.hx_record.specs.declared.error.RecordError.TheVariants.{NoMemory};

use crate::RecordError;
use hx_events::{Backup, Bytes, CONTENT_MAX, SlotForm, is_resource};
use hx_meta::{MetaError, read};
use std::alloc::Global;

// VS Code looks no further for the end of the preamble.
const PREAMBLE_MAX: usize = 10_000;

fn limit_of(form: SlotForm) -> usize
    ensures { result ≡ content_limit form }
{
    match form {
        SlotForm::One => 262_144,
        SlotForm::Two => CONTENT_MAX as usize,
    }
}

fn place_of(byte: u8, bytes: &[u8]) -> Option<usize>
    ensures value { result ≡ place_in byte bytes.now }
    ensures within { IfSome result (λ at. at < length bytes.now) }
{
    bytes.iter().position(|other| *other == byte)
}

fn front(bytes: &[u8], most: usize) -> &[u8]
    ensures value { result.now ≡ take most bytes.now }
    ensures within { length result.now ≤ length bytes.now }
{
    if bytes.len() <= most {
        bytes
    } else {
        &bytes[..most]
    }
}

fn copy(alloc: Global, bytes: &[u8]) -> Result<Bytes, RecordError>
    ensures ok { IfOk result (λ copy. copy ≡ bytes.now) }
    ensures err { IfErr result (λ error. error ≡ NoMemory) }
{
    match Vec::from_slice(alloc, bytes) {
        Ok(copy) => Ok(Bytes::new(copy)),
        Err(_) => Err(RecordError::NoMemory),
    }
}

fn read_parts(
    alloc: Global,
    form: SlotForm,
    resource: &[u8],
    meta: &[u8],
    content: &[u8],
) -> Result<Backup, RecordError>
    ensures ok { IfOk result (λ backup. backup_of form resource.now (meta_in meta.now) content.now ≡ Ok backup) }
    ensures err { IfErr result (λ error. error ≢ NoMemory → backup_of form resource.now (meta_in meta.now) content.now ≡ Err error) }
{
    let meta = match read(alloc, meta) {
        Ok(meta) => meta,
        Err(MetaError::NotMeta) => return Err(RecordError::NotMeta),
        Err(MetaError::NoMemory) => return Err(RecordError::NoMemory),
    };
    if form == SlotForm::Two && !meta.type_id.as_slice().is_empty() {
        return Err(RecordError::OtherType);
    }
    if content.len() > limit_of(form) {
        return Err(RecordError::TooLong);
    }
    Ok(Backup {
        resource: copy(alloc, resource)?,
        base: meta.base,
        content: copy(alloc, content)?,
    })
}

fn read_line(
    alloc: Global,
    form: SlotForm,
    line: &[u8],
    content: &[u8],
) -> Result<Backup, RecordError>
    ensures ok { IfOk result (λ backup. line_read form line.now (place_in 32 line.now) content.now ≡ Ok backup) }
    ensures err { IfErr result (λ error. error ≢ NoMemory → line_read form line.now (place_in 32 line.now) content.now ≡ Err error) }
{
    let Some(blank) = place_of(b' ', line) else {
        return Err(RecordError::BadResource);
    };
    if !is_resource(&line[..blank]) {
        return Err(RecordError::BadResource);
    }
    read_parts(alloc, form, &line[..blank], &line[blank + 1..], content)
}

/// The backup that the bytes read as in a slot form. Each refusal comes exactly where `RecordError` says, in its order,
/// and `NoMemory` may come in place of any answer.
#[tactic(auto, unfolding(crate::specs::Records::record_in))]
pub fn decode(alloc: Global, bytes: &[u8], form: SlotForm) -> Result<Backup, RecordError>
    ensures ok { IfOk result (λ backup. record_in form bytes.now ≡ Ok backup) }
    ensures err { IfErr result (λ error. error ≢ NoMemory → record_in form bytes.now ≡ Err error) }
{
    let Some(end) = place_of(b'\n', front(bytes, PREAMBLE_MAX)) else {
        return Err(RecordError::NoLineFeed);
    };
    read_line(alloc, form, &bytes[..end], &bytes[end + 1..])
}
