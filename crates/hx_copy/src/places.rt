//! A run of bytes replaced in its place, so that only the bytes behind it move.

ghost use Rattle.std.specs.Prelude.{◌≡◌, ◌+◌, ◌-◌, ◌≤◌, ◌++◌, ℕ, take, drop, length, vec_len, vec_capacity};
ghost use Rattle.hx_rules.specs.Versions.{replaced};

// Moves the bytes from `tail` on to `seam`, and lets the content end behind them. What lies before them is as it was, as far
// as it lay before both.
fn move_tail(content: &mut Vec<u8>, tail: usize, seam: usize)
    requires within { tail ≤ length content.old.items }
    requires room { seam + (vec_len content.old - tail) ≤ vec_capacity content.old }
    ensures head { (k : ℕ) → k ≤ tail → k ≤ seam → take k content.new.items ≡ take k content.old.items }
    ensures tail { drop seam content.new.items ≡ drop tail content.old.items }
    ensures items { length content.new.items ≡ seam + (length content.old.items - tail) }
    ensures len { vec_len content.new ≡ seam + (vec_len content.old - tail) }
    ensures capacity { vec_capacity content.old ≤ vec_capacity content.new }
{
    let end = content.len();
    let len = seam + (end - tail);
    if len > end {
        let Ok(()) = content.resize(len, 0) else {
            unreachable!()
        };
    }
    // where the text is as long as what it replaces, nothing has to move
    if tail != seam {
        content.copy_within(tail..end, seam);
    }
    content.truncate(len);
}

fn write_over(bytes: &mut [u8], off: usize, text: &[u8])
    requires { off + length text.now ≤ length bytes.old }
    ensures { bytes.new ≡ take off bytes.old ++ text.now ++ drop (off + length text.now) bytes.old }
{
    bytes[off..off + text.len()].copy_from_slice(text);
}

/// Replaces `del` bytes from `off` on by the text.
pub fn replace(content: &mut Vec<u8>, off: usize, del: usize, text: &[u8])
    requires within { off + del ≤ length content.old.items }
    requires room { vec_len content.old - del + length text.now ≤ vec_capacity content.old }
    ensures items { content.new.items ≡ replaced off del text.now content.old.items }
    ensures len { vec_len content.new ≡ vec_len content.old - del + length text.now }
    ensures capacity { vec_capacity content.old ≤ vec_capacity content.new }
{
    move_tail(content, off + del, off + text.len());
    write_over(content.as_mut_slice(), off, text);
}
