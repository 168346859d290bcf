//! How a command ends, and what encloses it.

ghost use Rattle.std.specs.Prelude.{◌≡◌};
ghost use Rattle.sh_builtins.specs.declared.flow.Stop.TheVariants as stop;

use span_text::Memory;
use std::alloc::AllocError;

/// What comes after a command.
#[derive(Clone, Copy, Debug, PartialEq, Eq)]
pub enum Flow {
    /// The next command.
    Normal,
    /// `break`: the innermost loop is left, and so many more around it.
    Breaks(u64),
    /// `continue`: the next round of the innermost loop starts once so many inside it were left.
    Continues(u64),
    /// `return`: the function is left.
    Returns,
    /// `exit`: the shell environment is left.
    Exits,
}

/// What encloses a command in its function and its subshell environment.
#[derive(Clone, Copy, Debug, PartialEq, Eq)]
pub struct Place {
    /// How many loops do.
    pub loops: u64,
    /// Whether a function does that it can return from.
    pub in_function: bool,
}

/// Why a command has no end.
#[derive(Clone, Copy, Debug, PartialEq, Eq)]
pub enum Stop {
    Memory,
    /// The standard, or the profile of it, doesn't say what comes.
    Unspecified,
}

impl From<Memory> for Stop {
    ghost from_gives = { λ _ e. e ≡ stop.Memory };

    fn from(_: Memory) -> Stop {
        Stop::Memory
    }
}

impl From<AllocError> for Stop {
    ghost from_gives = { λ _ e. e ≡ stop.Memory };

    fn from(_: AllocError) -> Stop {
        Stop::Memory
    }
}
