//! What standard error says of an end.

ghost use Rattle.std.specs.Prelude.{◌≡◌, ◌≤◌, ◌++◌, OnErr, OnOk};
ghost use Rattle.hx_faults.specs.Faults.{Rose};
ghost use Rattle.hx_io.specs.Streams.{Grows};
ghost use Rattle.hx_top.specs.Ends.{error_text};
ghost use Rattle.hx_top.specs.declared.whole.End.{End};

use crate::ends::name_of;
use crate::whole::End;
use hx_io::{Sink, SinkFailed, write_all};
use hx_script::Why;
use itoa::Buffer;

const USAGE: &[u8] =
    b"usage: hotexit [--fail N]... [--fuse N] [--store DIR] replay, run [--workers N], restore, check or made N\n";

/// Names the line that was refused, with the reason.
fn report_refusal<K: Sink>(errors: &mut K, line: u64, why: Why) -> Result<(), SinkFailed>
    ensures told { OnOk result (K.taken errors.new ≡ K.taken errors.old ++ error_text (End.BadScript line why)) }
    ensures grows { Grows (K.taken errors.old) (K.taken errors.new) }
    ensures fault { OnErr result (Rose (K.failures errors.old) (K.failures errors.new)) }
{
    let mut number = Buffer::new();
    write_all(errors, b"line ")?;
    write_all(errors, number.format(line).as_bytes())?;
    write_all(errors, b": ")?;
    write_all(errors, name_of(why).as_bytes())?;
    write_all(errors, b"\n")
}

/// Tells the end in one line, or in none where all went well. It asks for no memory.
pub fn report<K: Sink>(errors: &mut K, end: End) -> Result<(), SinkFailed>
    ensures told { OnOk result (K.taken errors.new ≡ K.taken errors.old ++ error_text end) }
    ensures grows { Grows (K.taken errors.old) (K.taken errors.new) }
    ensures fault { OnErr result (Rose (K.failures errors.old) (K.failures errors.new)) }
{
    match end {
        End::Done => Ok(()),
        End::Usage => write_all(errors, USAGE),
        End::BadScript { line, why } => report_refusal(errors, line, why),
        End::ReadFault => write_all(errors, b"input failed\n"),
        End::WriteFault => write_all(errors, b"output failed\n"),
        End::NoMemory => write_all(errors, b"out of memory\n"),
        End::OpenFault => write_all(errors, b"the vault could not be opened\n"),
        End::NotHistory => write_all(errors, b"not a history\n"),
    }
}
