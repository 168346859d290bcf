//! A source and a sink in memory, which give and take in steps and fail when they are told to.

ghost use Rattle.std.specs.Prelude.{◌≡◌, ◌+◌, ◌-◌, ◌^◌, ◌<◌, ◌≤◌, ◌≢◌, ◌==◌, ◌&&◌, ◌||◌, ◌++◌, ℕ, [], Option, Some, None, min, length, take, drop, Ok, IfOk, OnOk, OnErr, is_err, nat_lt};
ghost use Rattle.std.specs.List.{list_any};
ghost use Rattle.span_text.specs.Streams.{Rose, Moved, IsOver, Grows, Keeps};
ghost use Rattle.span_text.specs.Memory.{Feed, Store, counted, is_listed, given, taken};

use crate::fault::{Failed, Memory};
use crate::list::List;
use crate::stream::{Sink, Source};
use crate::sure::copy_front;
use crate::text::Text;
use std::alloc::Global;
use std::marker::Model;

/// The bytes of a text, at most `step` at each read.
#[derive(Debug, Drop)]
pub struct MemorySource {
    bytes: Text,
    taken: usize,
    step: usize,
    fails: List<u32>,
    reads: u64,
    faults: u64,
}

impl Model for MemorySource {
    ghost use Rattle.std.specs.Prelude.{drop, length, ◌≤◌};
    ghost use Rattle.span_text.specs.Memory.{Feed};

    ghost Value = { Feed };

    ghost view = { λ s. record { left = drop s.taken s.bytes; step = s.step; fails = s.fails; reads = s.reads; faults = s.faults } };

    ghost invariant = { λ s. (s.taken ≤ length s.bytes) × (1 ≤ s.step) };
}

fn is_listed(fails: &[u32], n: u64) -> bool
    ensures { result ≡ is_listed fails.now n }
{
    fails.iter().any(|k| u64::from(*k) == n)
}

impl MemorySource {
    /// A source of these bytes, whose n-th read, from 1, fails where n is listed.
    pub fn new(bytes: Text, step: usize, fails: List<u32>) -> MemorySource
        requires { 1 ≤ step }
        ensures { result ≡ record { left = bytes; step = step; fails = fails; reads = 0; faults = 0 } }
    {
        MemorySource {
            bytes,
            taken: 0,
            step,
            fails,
            reads: 0,
            faults: 0,
        }
    }
}

impl Source for MemorySource {
    ghost left = { λ s. Some s.left };

    ghost faults = { λ s. s.faults };

    fn read(&mut self, buffer: &mut [u8]) -> Result<usize, Failed>
        ensures within { IfOk result (λ n. n ≤ length buffer.old) }
        ensures moved { IfOk result (λ n. Moved (Some self.old.left) (Some self.new.left) buffer.new n) }
        ensures end { result ≡ Ok 0 → 0 < length buffer.old → IsOver (Some self.old.left) }
        ensures failed { OnErr result (Rose self.old.faults self.new.faults) }
        ensures never_falls { self.old.faults ≤ self.new.faults }

        // It fails just where it is told to.
        ensures told { is_err result ≡ is_listed self.old.fails (counted self.old.reads) }
        ensures ok { IfOk result (λ n. (n ≡ given self.old (length buffer.old)) × (self.new ≡ record self.old { left = drop n self.old.left; reads = counted self.old.reads })) }
        ensures err { OnErr result (self.new ≡ record self.old { reads = counted self.old.reads; faults = counted self.old.faults }) }
    {
        self.reads = self.reads.saturating_add(1);
        if is_listed(self.fails.as_slice(), self.reads) {
            self.faults = self.faults.saturating_add(1);
            return Err(Failed {});
        }
        let room = buffer.len().min(self.step);
        let (front, _) = buffer.split_at_mut(room);
        let n = copy_front(&self.bytes.bytes()[self.taken..], front);
        self.taken += n;
        Ok(n)
    }
}

/// Takes at most `step` bytes at each write, into room that was made before.
#[derive(Debug, Drop)]
pub struct MemorySink {
    cells: Vec<u8>,
    used: usize,
    step: usize,
    fails: List<u32>,
    writes: u64,
    faults: u64,
}

impl Model for MemorySink {
    ghost use Rattle.std.specs.Prelude.{take, length, ◌-◌, ◌≤◌};
    ghost use Rattle.span_text.specs.Memory.{Store};

    ghost Value = { Store };

    ghost view = { λ s. record { held = take s.used s.cells.items; room = length s.cells.items - s.used; step = s.step; fails = s.fails; writes = s.writes; faults = s.faults } };

    ghost invariant = { λ s. (s.used ≤ length s.cells.items) × (1 ≤ s.step) };
}

/// Puts the piece into the cells from this index on.
fn put(cells: &mut [u8], at: usize, piece: &[u8])
    requires { at + length piece.now ≤ length cells.old }
    ensures { take (at + length piece.now) cells.new ≡ take at cells.old ++ piece.now }
{
    let (_, tail) = cells.split_at_mut(at);
    let (front, _) = tail.split_at_mut(piece.len());
    front.copy_from_slice(piece);
}

impl MemorySink {
    /// A sink without room, whose n-th write, from 1, fails where n is listed.
    pub fn new(alloc: Global, step: usize, fails: List<u32>) -> MemorySink
        requires { 1 ≤ step }
        ensures { result ≡ record { held = []; room = 0; step = step; fails = fails; writes = 0; faults = 0 } }
    {
        MemorySink {
            cells: Vec::new(alloc),
            used: 0,
            step,
            fails,
            writes: 0,
            faults: 0,
        }
    }

    /// Makes room for so many more bytes.
    pub fn reserve(&mut self, bytes: usize) -> Result<(), Memory>
        ensures ok { OnOk result (self.new ≡ record self.old { room = self.old.room + bytes }) }
        ensures err { OnErr result (self.new ≡ self.old) }
    {
        let Some(room) = self.cells.len().checked_add(bytes) else {
            return Err(Memory {});
        };
        self.cells.resize(room, 0)?;
        Ok(())
    }

    /// The bytes that it took.
    pub fn held(&self) -> &[u8]
        ensures { result.now ≡ self.now.held }
    {
        &self.cells[..self.used]
    }
}

impl Sink for MemorySink {
    ghost held = { λ s. Some s.held };

    ghost faults = { λ s. s.faults };

    fn write(&mut self, piece: &[u8]) -> Result<usize, Failed>
        ensures within { IfOk result (λ n. n ≤ length piece.now) }
        ensures some { result ≡ Ok 0 → piece.now ≡ [] }
        ensures appended { IfOk result (λ n. Grows (Some self.old.held) (Some self.new.held) (take n piece.now)) }
        ensures unchanged { OnErr result (Keeps (Some self.old.held) (Some self.new.held)) }
        ensures failed { OnErr result (Rose self.old.faults self.new.faults) }
        ensures never_falls { self.old.faults ≤ self.new.faults }

        // It fails just where it is told to, or has no room for a piece that isn't empty.
        ensures told { is_err result ≡ (is_listed self.old.fails (counted self.old.writes) || (self.old.room == 0 && nat_lt 0 (length piece.now))) }
        ensures ok { IfOk result (λ n. (n ≡ taken self.old (length piece.now)) × (self.new ≡ record self.old { held = self.old.held ++ take n piece.now; room = self.old.room - n; writes = counted self.old.writes })) }
        ensures err { OnErr result (self.new ≡ record self.old { writes = counted self.old.writes; faults = counted self.old.faults }) }
    {
        self.writes = self.writes.saturating_add(1);
        let room = self.cells.len() - self.used;
        if is_listed(self.fails.as_slice(), self.writes) || (room == 0 && !piece.is_empty()) {
            self.faults = self.faults.saturating_add(1);
            return Err(Failed {});
        }
        let n = self.step.min(room.min(piece.len()));
        let (front, _) = piece.split_at(n);
        put(&mut self.cells, self.used, front);
        self.used += n;
        Ok(n)
    }
}
