//! The state of a run.

ghost use Rattle.std.specs.Prelude.{◌≡◌};
ghost use Rattle.bash_interp.specs.declared.shell.Stop.TheVariants as stop;

use bash_meaning::Cell;
use shell_world::{Fds, Outside, TextMap};
use span_text::{List, Memory, Text};
use std::alloc::{AllocError, Global};

/// A shell environment (Bash manual, section 3.7.3), with the outside that it runs in.
#[derive(Debug, Drop)]
pub struct Shell<'w> {
    pub outside: Outside<'w>,
    /// The scope at the bottom. No function runs that would have another.
    pub bottom: TextMap<Cell>,
    /// `$0` and the positional parameters.
    pub params: List<Text>,
    /// `$?`
    pub status: u8,
    pub fds: Fds,
    /// The turns that are left.
    pub turns: u32,
    pub alloc: Global,
}

/// Why a run doesn't go on.
#[derive(Debug, Drop)]
pub enum Stop {
    Memory,
    /// No form of this kind has a meaning yet.
    Unspecified,
}

impl From<Memory> for Stop {
    ghost from_gives = { λ _ e. e ≡ stop.Memory };

    fn from(_: Memory) -> Stop {
        Stop::Memory
    }
}

impl From<AllocError> for Stop {
    ghost from_gives = { λ _ e. e ≡ stop.Memory };

    fn from(_: AllocError) -> Stop {
        Stop::Memory
    }
}
