ghost use Rattle.std.specs.Prelude.{◌≡◌, ◌≢◌, ◌<◌, ℕ, false, length, slice_set, if◌then◌else◌, IfNone, IfSome};
ghost use Rattle.std.specs.Int.{bit_at};
ghost use Rattle.hx_rules.specs.Legal.{lowest_from};
ghost use Rattle.hx_tracker.specs.Index.{has_number};

use hx_events::ResNo;
use std::marker::Model;

/// A set of resource numbers below 256. Contracts see for each number whether it is in the set.
#[derive(Drop)]
pub struct DueIndex {
    words: [u64; 4],
}

impl Model for DueIndex {
    ghost use Rattle.std.specs.Prelude.{Bool, List};
    ghost use Rattle.hx_tracker.specs.Index.{numbers_in};

    ghost Value = { List Bool };

    ghost view = { λ i. numbers_in i.words };
}

impl DueIndex {
    /// The empty set.
    pub fn new() -> DueIndex
        ensures empty { (k : ℕ) → has_number result k ≡ false }
        ensures len { length result ≡ 256 }
    {
        DueIndex { words: [0; 4] }
    }

    /// Adds the number, or takes it out. All others stay as they are.
    pub fn put(&mut self, res: ResNo, on: bool)
        ensures { self.new ≡ slice_set self.old res on }
    {
        let number = res.number() as usize;
        let word = self.words[number / 64];
        self.words[number / 64] = with_bit(word, number as u32 % 64, on);
    }

    /// Whether the number is in the set.
    pub fn has(&self, res: ResNo) -> bool
        ensures { result ≡ has_number self.now res }
    {
        let number = res.number() as usize;
        (self.words[number / 64] >> (number % 64)) & 1 == 1
    }

    /// The lowest number in the set, or none exactly where it is empty.
    pub fn lowest(&self) -> Option<ResNo>
        ensures { result ≡ lowest_from (has_number self.now) 0 (length self.now) }
    {
        for (i, word) in self.words.iter().enumerate() {
            if let Some(bit) = lowest_bit(*word) {
                return Some(ResNo::new(64 * i as u32 + bit));
            }
        }
        None
    }
}

// The word with this bit set or cleared.
fn with_bit(word: u64, bit: u32, on: bool) -> u64
    requires { bit < 64 }
    ensures same { bit_at result bit ≡ (if on then 1 else 0) }
    ensures others { (i : ℕ) → i < 64 → i ≢ bit → bit_at result i ≡ bit_at word i }
{
    if on {
        word | 1 << bit
    } else {
        word & !(1 << bit)
    }
}

// The lowest bit that is set, if there is one.
fn lowest_bit(word: u64) -> Option<u32>
    ensures none { IfNone result (word ≡ 0) }
    ensures known { IfSome result (λ bit. bit < 64) }
    ensures set { IfSome result (λ bit. bit_at word bit ≡ 1) }
    ensures below { IfSome result (λ bit. (i : ℕ) → i < bit → bit_at word i ≡ 0) }
{
    if word == 0 {
        return None;
    }
    Some(word.trailing_zeros())
}
