//! The bounds of a run, which its interpreter counts against.

ghost use Rattle.std.specs.Prelude.{◌≡◌, ◌<◌};
ghost use Rattle.shell_world.specs.Meters.{counted_from, is_left, turn_taken, entered, left, turns_used};

use crate::world::Bounds;
use std::marker::Model;

/// The turns and the levels that are left of the bounds.
#[derive(Debug, Drop)]
pub struct Meter {
    turns: u32,
    levels: u32,
    bounds: Bounds,
}

impl Model for Meter {
    ghost use Rattle.shell_world.specs.Meters.{Counted};

    ghost Value = { Counted };

    ghost view = { λ m. record { turns = m.turns; levels = m.levels; bounds = m.bounds } };
}

impl Meter {
    /// All of the bounds is left.
    pub fn new(bounds: Bounds) -> Meter
        ensures { result ≡ counted_from bounds }
    {
        Meter {
            turns: bounds.turns,
            levels: bounds.depth,
            bounds,
        }
    }

    /// Takes a turn, which the start of a loop's body and the call of a function need. It answers false where none is
    /// left, and then nothing changes.
    pub fn take_turn(&mut self) -> bool
        ensures is { result ≡ is_left self.old.turns }
        ensures new { self.new ≡ turn_taken self.old }
    {
        if self.turns == 0 {
            return false;
        }
        self.turns -= 1;
        true
    }

    /// Takes a level, which a call of a function has until it returns. It answers false where none is left, and then
    /// nothing changes.
    pub fn enter(&mut self) -> bool
        ensures is { result ≡ is_left self.old.levels }
        ensures new { self.new ≡ entered self.old }
    {
        if self.levels == 0 {
            return false;
        }
        self.levels -= 1;
        true
    }

    /// Gives back a level, of which one must be open.
    pub fn leave(&mut self)
        requires open { self.old.levels < self.old.bounds.depth }
        ensures { self.new ≡ left self.old }
    {
        let most = self.bounds.depth;
        self.levels = (self.levels + 1).min(most);
    }

    /// The turns that were taken.
    pub fn used(&self) -> u32
        ensures { result ≡ turns_used self.now }
    {
        self.bounds.turns.saturating_sub(self.turns)
    }
}
