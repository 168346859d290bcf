//! The outside: where bytes come from and where they go.

ghost use Rattle.std.specs.Prelude.{◌≡◌, ◌≢◌, ℕ, ◌≤◌, ◌<◌, List, [], Option, length, take, Ok, IfOk, OnErr};
ghost use Rattle.span_text.specs.Streams.{Rose, Moved, IsOver, Grows, Keeps, Wrote};

use crate::fault::Failed;

/// Where bytes come from.
pub trait Source {
    /// The bytes still to come, where it tells them.
    ghost left: { Self → Option (List ℕ) };

    /// How often it has failed, up to 2^64 - 1.
    ghost faults: { Self → ℕ };

    /// Moves some of the bytes that are left into the front of the buffer, and says how many. Into a buffer that
    /// isn't empty it moves none only at the end. A failure is counted.
    fn read(&mut self, buffer: &mut [u8]) -> Result<usize, Failed>
        ensures within { IfOk result (λ n. n ≤ length buffer.old) }
        ensures moved { IfOk result (λ n. Moved (left self.old) (left self.new) buffer.new n) }
        ensures end { result ≡ Ok 0 → 0 < length buffer.old → IsOver (left self.old) }
        ensures failed { OnErr result (Rose (faults self.old) (faults self.new)) }
        ensures never_falls { faults self.old ≤ faults self.new };
}

/// Where bytes go.
pub trait Sink {
    /// The bytes that it holds, where it tells them.
    ghost held: { Self → Option (List ℕ) };

    /// How often it has failed, up to 2^64 - 1.
    ghost faults: { Self → ℕ };

    /// Takes some bytes from the front of the piece, and says how many: at least one, where the piece has any. A
    /// failure is counted, and nothing is taken then.
    fn write(&mut self, piece: &[u8]) -> Result<usize, Failed>
        ensures within { IfOk result (λ n. n ≤ length piece.now) }
        ensures some { result ≡ Ok 0 → piece.now ≡ [] }
        ensures appended { IfOk result (λ n. Grows (held self.old) (held self.new) (take n piece.now)) }
        ensures unchanged { OnErr result (Keeps (held self.old) (held self.new)) }
        ensures failed { OnErr result (Rose (faults self.old) (faults self.new)) }
        ensures never_falls { faults self.old ≤ faults self.new };
}

/// Writes all of these bytes, piece by piece. After a failure the sink has taken a front of them that isn't all.
pub fn write_all<K: Sink>(out: &mut K, bytes: &[u8]) -> Result<(), Failed>
    ensures { Wrote (K.held out.old) (K.held out.new) (K.faults out.old) (K.faults out.new) result bytes.now }
{
    let mut rest = bytes;
    'rest: while !rest.is_empty() {
        let taken = out.write(rest)?;
        (_, rest) = rest.split_at(taken);
    }
    Ok(())
}
