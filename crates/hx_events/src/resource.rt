//! Which texts name a resource.

ghost use Rattle.std.specs.Prelude.{◌≡◌};
ghost use Rattle.std.specs.List.{list_all};
ghost use Rattle.std.specs.Char.{is_ascii_graphic};
ghost use Rattle.hx_events.specs.Resources.{is_resource};

fn is_printable(text: &[u8]) -> bool
    ensures { result ≡ list_all is_ascii_graphic text.now }
{
    text.iter().all(|byte| byte.is_ascii_graphic())
}

/// Whether the text names a resource: 1 to 1,000 bytes, each from 0x21 to 0x7E.
pub fn is_resource(text: &[u8]) -> bool
    ensures { result ≡ is_resource text.now }
{
    (1..=1000).contains(&text.len()) && is_printable(text)
}
