//! How the ends of a run are told outside.

ghost use Rattle.std.specs.Prelude.{◌≡◌};
ghost use Rattle.hx_top.specs.Ends.{status_of, why_name};

use crate::whole::End;
use hx_script::Why;

/// The exit status.
pub fn status(end: End) -> u8
    ensures { result ≡ status_of end }
{
    match end {
        End::Done => 0,
        End::Usage => 2,
        End::BadScript { .. } => 3,
        End::ReadFault => 4,
        End::WriteFault => 5,
        End::NoMemory => 6,
        End::OpenFault => 7,
        End::NotHistory => 8,
    }
}

/// A reason as the line on standard error names it.
pub fn name_of(why: Why) -> &'static str
    ensures { result.now ≡ why_name why }
{
    match why {
        Why::TooLong => "toolong",
        Why::NoEnd => "noend",
        Why::Header => "header",
        Why::Form => "form",
        Why::Place => "place",
        Why::TooMany => "toomany",
        Why::Number => "number",
        Why::Escape => "escape",
        Why::Resource => "resource",
        Why::Declared => "declared",
    }
}
