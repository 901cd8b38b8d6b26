use hx_base::{read_decimal, unescape};
use hx_etag::Stat;
use std::alloc::Global;
use std::test::Fail;

/// The fields of a line, with a blank between each two.
#[derive(Clone, Copy)]
pub struct Row<'a> {
    rest: &'a str,
}

impl<'a> Row<'a> {
    pub fn new(line: &'a str) -> Row<'a> {
        Row { rest: line }
    }

    /// The next field, empty behind the last.
    pub fn field(&mut self) -> &'a str {
        let rest = self.rest;
        let (field, rest) = rest.split_once(" ").unwrap_or((rest, ""));
        self.rest = rest;
        field
    }

    /// The next field as a number, `None` where it isn't one.
    pub fn number(&mut self) -> Option<u64> {
        read_decimal(self.field().as_bytes())
    }

    /// The next two fields as a modification time and a size, `None` where the first isn't a number.
    pub fn stat(&mut self) -> Option<Stat> {
        let mtime = self.number()?;
        let size = self.number()?;
        Some(Stat { mtime, size })
    }

    /// The next field without the `=` that it begins with.
    pub fn text(&mut self) -> &'a str {
        let field = self.field();
        field.strip_prefix("=").unwrap_or(field)
    }

    /// The bytes of the next field, which is `=` and an escaped text.
    pub fn bytes(&mut self, alloc: Global) -> Result<Vec<u8>, Fail> {
        Ok(unescape(alloc, self.text().as_bytes())?)
    }

    /// Whether the next field, which is `=` and an escaped text, stands for these bytes.
    pub fn has(&mut self, alloc: Global, bytes: &[u8]) -> Result<bool, Fail> {
        Ok(self.bytes(alloc)?.as_slice() == bytes)
    }

    /// The bytes of the next field of hexadecimal digits.
    pub fn hex(&mut self, alloc: Global) -> Result<Vec<u8>, Fail> {
        let mut bytes = Vec::new(alloc);
        for digits in self.field().as_bytes().chunks(2) {
            if let [high, low] = digits {
                bytes.push(hex_value(*high) << 4 | hex_value(*low))?;
            }
        }
        Ok(bytes)
    }

    /// Whether the next field of hexadecimal digits stands for these bytes.
    pub fn has_hex(&mut self, alloc: Global, bytes: &[u8]) -> Result<bool, Fail> {
        Ok(self.hex(alloc)?.as_slice() == bytes)
    }
}

/// The bytes, repeated so often.
pub fn repeated(alloc: Global, bytes: &[u8], count: u64) -> Result<Vec<u8>, Fail> {
    let mut all = Vec::new(alloc);
    for _ in 0..count {
        all.extend_from_slice(bytes)?;
    }
    Ok(all)
}

fn hex_value(digit: u8) -> u8 {
    match digit {
        b'0'..=b'9' => digit - b'0',
        b'a'..=b'f' => digit - b'a' + 10,
        _ => 0,
    }
}
