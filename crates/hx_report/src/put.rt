//! Writers that append to one buffer.

ghost use Rattle.std.specs.Prelude.{◌≡◌, ◌++◌, [], ◌∷◌, decimal, OnOk};
ghost use Rattle.hx_events.specs.Texts.{spaced, text_field};

use hx_base::escape;
use itoa::Buffer;
use std::alloc::{AllocError, Global};

/// Appends the number's decimal text. After want of memory a part of it may stand there.
pub fn put_decimal(out: &mut Vec<u8>, value: u64) -> Result<(), AllocError>
    ensures { OnOk result (out.new.items ≡ out.old.items ++ decimal value) }
{
    let mut buffer = Buffer::new();
    out.extend_from_slice(buffer.format(value).as_bytes())
}

// The field behind a blank.
pub(crate) fn put_field(out: &mut Vec<u8>, field: &[u8]) -> Result<(), AllocError>
    ensures { OnOk result (out.new.items ≡ out.old.items ++ spaced (field.now ∷ [])) }
{
    out.push(b' ')?;
    out.extend_from_slice(field)
}

/// Appends a blank and the number's decimal text. After want of memory a part of it may stand there.
pub fn put_number(out: &mut Vec<u8>, value: u64) -> Result<(), AllocError>
    ensures { OnOk result (out.new.items ≡ out.old.items ++ spaced (decimal value ∷ [])) }
{
    out.push(b' ')?;
    put_decimal(out, value)
}

/// Appends a blank, `=` and the bytes escaped. After want of memory a part of it may stand there.
pub fn put_text(alloc: Global, out: &mut Vec<u8>, text: &[u8]) -> Result<(), AllocError>
    ensures { OnOk result (out.new.items ≡ out.old.items ++ spaced (text_field text.now ∷ [])) }
{
    out.extend_from_slice(b" =")?;
    out.extend_from_slice(&escape(alloc, text)?)
}
