//! A source and a sink that never fail.

ghost use Rattle.std.specs.Prelude.{◌≡◌, ◌+◌, ◌-◌, ◌^◌, ◌<◌, ◌≤◌, ◌≢◌, ℕ, [], Option, Some, None, min, length, take, drop, Ok, IfOk, OnErr, IsOk};
ghost use Rattle.span_text.specs.Streams.{Rose, Moved, IsOver, Grows, Keeps};

use crate::fault::Failed;
use crate::stream::{Sink, Source};
use crate::text::Text;
use std::marker::Model;

/// The bytes of a text, all that the buffer has room for at each read.
#[derive(Debug, Drop)]
pub struct SureSource {
    bytes: Text,
    taken: usize,
}

impl Model for SureSource {
    ghost use Rattle.std.specs.Prelude.{List, ℕ, drop, length, ◌≤◌};

    ghost Value = { List ℕ };

    ghost view = { λ s. drop s.taken s.bytes };

    ghost invariant = { λ s. s.taken ≤ length s.bytes };
}

impl SureSource {
    pub fn new(bytes: Text) -> SureSource
        ensures { result ≡ bytes }
    {
        SureSource { bytes, taken: 0 }
    }
}

/// Copies as many bytes as fit from the front of `from` to the front of `to`, and says how many.
pub(crate) fn copy_front(from: &[u8], to: &mut [u8]) -> usize
    ensures count { result ≡ min (length from.now) (length to.old) }
    ensures moved { take result to.new ≡ take result from.now }
{
    let n = from.len().min(to.len());
    let (front, _) = to.split_at_mut(n);
    front.copy_from_slice(&from[..n]);
    n
}

impl Source for SureSource {
    ghost left = { λ s. Some s };

    ghost faults = { λ _. 0 };

    fn read(&mut self, buffer: &mut [u8]) -> Result<usize, Failed>
        ensures within { IfOk result (λ n. n ≤ length buffer.old) }
        ensures moved { IfOk result (λ n. Moved (Some self.old) (Some self.new) buffer.new n) }
        ensures end { result ≡ Ok 0 → 0 < length buffer.old → IsOver (Some self.old) }
        ensures failed { OnErr result (Rose 0 0) }
        ensures never_falls { 0 ≤ 0 }

        // It gives what the buffer has room for.
        ensures given { result ≡ Ok (min (length self.old) (length buffer.old)) }
    {
        let n = copy_front(&self.bytes.bytes()[self.taken..], buffer);
        self.taken += n;
        Ok(n)
    }
}

/// Drops what it takes, and counts the bytes up to the greatest `u128`.
#[derive(Debug, Drop)]
pub struct SureSink {
    taken: u128,
}

impl Model for SureSink {
    ghost use Rattle.std.specs.Prelude.{ℕ};

    ghost Value = { ℕ };

    ghost view = { λ s. s.taken };
}

impl SureSink {
    pub fn new() -> SureSink
        ensures { result ≡ 0 }
    {
        SureSink { taken: 0 }
    }

    /// How many bytes it took.
    pub fn taken(&self) -> u128
        ensures { result ≡ self.now }
    {
        self.taken
    }
}

impl Sink for SureSink {
    ghost held = { λ _. None };

    ghost faults = { λ _. 0 };

    fn write(&mut self, piece: &[u8]) -> Result<usize, Failed>
        ensures within { IfOk result (λ n. n ≤ length piece.now) }
        ensures some { result ≡ Ok 0 → piece.now ≡ [] }
        ensures appended { IfOk result (λ n. Grows None None (take n piece.now)) }
        ensures unchanged { OnErr result (Keeps None None) }
        ensures failed { OnErr result (Rose 0 0) }
        ensures never_falls { 0 ≤ 0 }

        // It takes the whole piece, and counts it.
        ensures taken { result ≡ Ok (length piece.now) }
        ensures counted { self.new ≡ min (self.old + length piece.now) (2 ^ 128 - 1) }
    {
        self.taken = self.taken.saturating_add(piece.len() as u128);
        Ok(piece.len())
    }
}
