ghost use Rattle.std.specs.Prelude.{◌≡◌, ◌<◌};
ghost use Rattle.hx_slots.specs.Files.{file_of};

use hx_disk::FileNo;
use hx_events::{Bytes, PairNo, Side};

/// What is read of the two files of a pair.
#[derive(Drop)]
pub struct RawPair {
    pub a: Bytes,
    pub b: Bytes,
}

/// The file of a side of a pair: the pairs lie one after another, and side A before side B.
pub fn slot_file(pair: PairNo, side: Side) -> FileNo
    ensures value { result ≡ file_of pair side }
    ensures known { result < 128 }
{
    let first = 2 * pair.number();
    match side {
        Side::A => FileNo::new(first),
        Side::B => FileNo::new(first + 1),
    }
}
