ghost use Rattle.std.specs.Prelude.{◌≡◌, ◌≤◌, ◌+◌, ◌∷◌, ◌++◌, [], List, ℕ, length, IfOk, IsTrue};
ghost use Rattle.hx_events.specs.declared.backup.TheConstants.{CONTENT_MAX};
ghost use Rattle.hx_events.specs.Resources.{is_resource};
ghost use Rattle.hx_record.specs.Records.{encoded, preamble_text, record_in, content_limit};

use hx_etag::Stat;
use hx_events::{Backup, Bytes, SlotForm};
use hx_meta::{Meta, write};
use std::alloc::{AllocError, Global};

fn line_of(alloc: Global, resource: &[u8], meta: &[u8]) -> Result<Vec<u8>, AllocError>
    requires resource { length resource.now ≤ 1000 }
    requires meta { length meta.now ≤ 200 }
    ensures { IfOk result (λ bytes. bytes.items ≡ resource.now ++ 32 ∷ (meta.now ++ 10 ∷ [])) }
{
    let mut bytes = Vec::with_capacity(alloc, resource.len() + meta.len() + 2)?;
    bytes.extend_from_slice(resource)?;
    bytes.push(b' ')?;
    bytes.extend_from_slice(meta)?;
    bytes.push(b'\n')?;
    Ok(bytes)
}

/// The first line of a backup of a resource, which is one by `is_resource`: the resource, one blank, the meta object and a line
/// feed. With any content behind it that isn't too long for the form it reads back as the backup of these.
pub fn preamble(alloc: Global, resource: &[u8], base: Option<Stat>) -> Result<Vec<u8>, AllocError>
    requires { IsTrue (is_resource resource.now) }
    ensures text { IfOk result (λ bytes. bytes.items ≡ preamble_text resource.now base) }
    ensures short { IfOk result (λ bytes. length bytes.items ≤ 1202) }
    ensures read_back { (form : SlotForm) (content : List ℕ) → length content ≤ content_limit form → IfOk result (λ bytes. record_in form (bytes.items ++ content) ≡ Ok (record { resource = resource.now; base = base; content = content })) }
{
    let meta = Meta {
        base,
        type_id: Bytes::new(Vec::new(alloc)),
    };
    let meta = write(alloc, &meta)?;
    line_of(alloc, resource, &meta)
}

/// The bytes of a backup, whose resource is one by `is_resource`. `decode` reads them back in form Two, and in form One where the content isn't too long for it.
pub fn encode(alloc: Global, backup: &Backup) -> Result<Vec<u8>, AllocError>
    requires resource { IsTrue (is_resource backup.now.resource) }
    requires content { length backup.now.content ≤ CONTENT_MAX }
    ensures text { IfOk result (λ bytes. bytes.items ≡ encoded backup.now) }
    ensures short { IfOk result (λ bytes. length bytes.items ≤ length backup.now.content + 1202) }
    ensures read_back { (form : SlotForm) → length backup.now.content ≤ content_limit form → IfOk result (λ bytes. record_in form bytes.items ≡ Ok backup.now) }
{
    let mut bytes = preamble(alloc, backup.resource.as_slice(), backup.base)?;
    bytes.extend_from_slice(backup.content.as_slice())?;
    Ok(bytes)
}
