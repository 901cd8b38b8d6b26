ghost use Rattle.std.specs.Prelude.{◌≡◌, ◌≤◌, ◌+◌, ◌*◌, length, All, IfOk};
ghost use Rattle.serde_json.specs.View.{view};
ghost use Rattle.hx_meta.specs.Metas.{IsPrintable, base_of, type_id_of, meta_in, meta_text, object_of, with_base_of};
ghost use Rattle.hx_meta.specs.declared.object.MetaError.TheVariants.{NotMeta};

use hx_etag::{Stat, etag};
use hx_events::Bytes;
use serde_json::{Value, json};
use std::alloc::{AllocError, Global};
use std::str;
use thiserror::Error;

/// What the meta object of a backup tells.
#[derive(Drop)]
pub struct Meta {
    /// The stat of the file that the backup was made from, where it is known.
    pub base: Option<Stat>,

    /// What kind of working copy it is. This project writes the empty text.
    pub type_id: Bytes,
}

/// Why bytes are no meta object.
#[derive(Clone, Copy, Debug, PartialEq, Eq, Error)]
pub enum MetaError {
    #[error("the bytes do not read as a JSON object")]
    NotMeta,

    #[error("out of memory")]
    NoMemory,
}

fn base_in(alloc: Global, value: &Value) -> Result<Option<Stat>, AllocError>
    ensures { IfOk result (λ base. base ≡ base_of (view value.now)) }
{
    let mtime = value.get("mtime").and_then(Value::as_u64);
    let size = value.get("size").and_then(Value::as_u64);
    let text = value.get("etag").and_then(Value::as_str);
    match (mtime, size, text) {
        (Some(mtime), Some(size), Some(text)) => {
            let stat = Stat { mtime, size };
            let own = etag(alloc, stat)?;
            Ok(if text.as_bytes() == own.as_slice() {
                Some(stat)
            } else {
                None
            })
        }
        _ => Ok(None),
    }
}

fn type_id_in(alloc: Global, value: &Value) -> Result<Bytes, AllocError>
    ensures { IfOk result (λ type_id. type_id ≡ type_id_of (view value.now)) }
{
    let mut bytes = Vec::new(alloc);
    if let Some(text) = value.get("typeId").and_then(Value::as_str) {
        bytes.extend_from_slice(text.as_bytes())?;
    }
    Ok(Bytes::new(bytes))
}

/// Reads a meta object. `NotMeta` comes exactly where the bytes don't read as a JSON object with `serde_json`, and
/// `NoMemory` may come in place of any answer. The base is there exactly where `mtime` and `size` are whole numbers of
/// 64 bits and `etag` is the text of their etag. The type id is the bytes of `typeId` where that is a text, else empty.
/// Other keys are ignored.
#[tactic(auto, using(crate::proofs::Objects::reads_as, crate::proofs::Objects::reads_as_none, crate::proofs::Objects::reads_as_other))]
pub fn read(alloc: Global, bytes: &[u8]) -> Result<Meta, MetaError>
    ensures ok { IfOk result (λ meta. meta_in bytes.now ≡ Some meta) }
    ensures not_meta { result ≡ Err NotMeta → meta_in bytes.now ≡ None }
{
    let value = match Value::from_slice(alloc, bytes) {
        Ok(value) => value,
        Err(error) if error.is_memory() => return Err(MetaError::NoMemory),
        Err(_) => return Err(MetaError::NotMeta),
    };
    if !value.is_object() {
        return Err(MetaError::NotMeta);
    }
    let (Ok(base), Ok(type_id)) = (base_in(alloc, &value), type_id_in(alloc, &value)) else {
        return Err(MetaError::NoMemory);
    };
    Ok(Meta { base, type_id })
}

fn ascii(bytes: &[u8]) -> &str
    requires { All IsPrintable bytes.now }
    ensures { result.now ≡ bytes.now }
{
    let Ok(text) = str::from_utf8(bytes) else {
        unreachable!()
    };
    text
}

fn with_base(alloc: Global, etag: &str, stat: Stat, type_id: &str) -> Result<Value, AllocError>
    ensures { IfOk result (λ value. view value ≡ with_base_of etag.now stat type_id.now) }
{
    json!(in alloc; { "etag": etag, "mtime": stat.mtime, "size": stat.size, "typeId": type_id })
}

#[tactic(auto, using(crate::proofs::Lines::also_blank))]
fn value_of(alloc: Global, base: Option<Stat>, type_id: &str) -> Result<Value, AllocError>
    ensures object { IfOk result (λ value. view value ≡ object_of base type_id.now) }
{
    match base {
        Some(stat) => {
            let text = etag(alloc, stat)?;
            with_base(alloc, ascii(&text), stat, type_id)
        }
        None => json!(in alloc; { "typeId": type_id }),
    }
}

#[tactic(auto, using(crate::proofs::Objects::no_float, crate::proofs::Objects::shallow))]
fn written(alloc: Global, base: Option<Stat>, type_id: &[u8]) -> Result<Vec<u8>, AllocError>
    requires { All IsPrintable type_id.now }
    ensures text { IfOk result (λ text. text.items ≡ meta_text (record { base = base; type_id = type_id.now })) }
    ensures printable { IfOk result (λ text. All IsPrintable text.items) }
    ensures short { IfOk result (λ text. length text.items ≤ 200 + 2 * length type_id.now) }
    ensures read_back { IfOk result (λ text. meta_in text.items ≡ Some (record { base = base; type_id = type_id.now })) }
{
    let value = value_of(alloc, base, ascii(type_id))?;
    Ok(value.to_string(alloc)?.into_bytes())
}

/// Writes the meta object without blanks, with the keys `etag`, `mtime`, `size` and `typeId` in that order, and without
/// a base with `typeId` alone. The text is one line.
pub fn write(alloc: Global, meta: &Meta) -> Result<Vec<u8>, AllocError>
    requires { All IsPrintable meta.now.type_id }
    ensures text { IfOk result (λ text. text.items ≡ meta_text meta.now) }
    ensures printable { IfOk result (λ text. All IsPrintable text.items) }
    ensures short { IfOk result (λ text. length text.items ≤ 200 + 2 * length meta.now.type_id) }

    // `read` reads it back.
    ensures read_back { IfOk result (λ text. meta_in text.items ≡ Some meta.now) }
{
    written(alloc, meta.base, meta.type_id.as_slice())
}
