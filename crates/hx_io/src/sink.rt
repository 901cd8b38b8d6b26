ghost use Rattle.std.specs.Prelude.{◌≡◌, ◌≤◌, ◌<◌, ℕ, List, ◌++◌, length, take, IfOk, OnOk, OnErr};
ghost use Rattle.hx_faults.specs.Faults.{HasCause};
ghost use Rattle.hx_io.specs.Streams.{AddsFront, Grows};

/// A write that failed. The sink has counted it.
#[derive(Clone, Copy, Debug, PartialEq, Eq)]
pub struct SinkFailed;

/// Where bytes go.
pub trait Sink {
    /// The bytes that its writes have taken so far.
    ghost taken: { Self → List ℕ };

    /// How many calls have failed.
    ghost failures: { Self → ℕ };

    /// Writes a front of the bytes, at least one of some, and gives how many. A write that fails has taken none.
    fn write(&mut self, bytes: &[u8]) -> Result<usize, SinkFailed>
        ensures count { IfOk result (λ n. n ≤ length bytes.now) }
        ensures some { 0 < length bytes.now → IfOk result (λ n. 0 < n) }
        ensures taken { IfOk result (λ n. taken self.new ≡ taken self.old ++ take n bytes.now) }
        ensures none { OnErr result (taken self.new ≡ taken self.old) }
        ensures cause { HasCause (failures self.old) (failures self.new) result };
}

/// Writes all the bytes. It ends with the first write that fails, and then a front of the bytes was written, possibly none.
pub fn write_all<K: Sink>(sink: &mut K, bytes: &[u8]) -> Result<(), SinkFailed>
    ensures all { OnOk result (K.taken sink.new ≡ K.taken sink.old ++ bytes.now) }
    ensures front { OnErr result (AddsFront bytes.now (K.taken sink.old) (K.taken sink.new)) }
    ensures grows { Grows (K.taken sink.old) (K.taken sink.new) }
    ensures cause { HasCause (K.failures sink.old) (K.failures sink.new) result }

    // No bytes: the sink isn't asked.
    ensures unasked { length bytes.now ≡ 0 → sink.new ≡ sink.old }
{
    let mut at = 0;
    while at < bytes.len() {
        at += sink.write(&bytes[at..])?;
    }
    Ok(())
}
