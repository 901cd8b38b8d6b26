ghost use Rattle.std.specs.Prelude.{◌≡◌, ◌≤◌, length, vec_capacity};
ghost use Rattle.hx_memdisk.specs.Replay.{mixed, mixed_byte};
ghost use Rattle.hx_memdisk.specs.Touched.{SameOutside};

use crate::overlay::overlay;

/// Makes the first content the second, which is the same but for these places.
pub fn carry(into: &mut Vec<u8>, whole: &[u8], from: usize, to: usize)
    requires same { SameOutside from to whole.now into.old.items }
    requires room { length whole.now ≤ vec_capacity into.old }
    ensures items { into.new.items ≡ whole.now }
    ensures capacity { vec_capacity into.old ≤ vec_capacity into.new }
{
    into.truncate(whole.len());
    let end = to.min(whole.len());
    let start = from.min(end);
    match overlay(into, start, &whole[start..end]) {
        Ok(()) => {}
        Err(_) => unreachable!(),
    }
}

/// Mixes what is read with what is stable, where they are the same but for these places.
pub fn mix(reading: &mut [u8], stable: &[u8], from: usize, to: usize, pick: u64)
    requires { SameOutside from to reading.old stable.now }
    ensures { reading.new ≡ mixed pick reading.old stable.now }
{
    for i in from..to.min(reading.len()) {
        reading[i] = chosen_byte(i, reading[i], stable, pick);
    }
}

fn chosen_byte(i: usize, byte: u8, stable: &[u8], pick: u64) -> u8
    ensures { result ≡ mixed_byte pick stable.now i byte }
{
    if (i % 2 == 0) == (pick % 2 == 0) {
        byte
    } else if i < stable.len() {
        stable[i]
    } else {
        1
    }
}
