//! Why a run doesn't go on.

ghost use Rattle.std.specs.Prelude.{◌≡◌};
ghost use Rattle.sh_builtins.specs.declared.flow.Stop.{Stop};
ghost use Rattle.sh_interp.specs.declared.halt.Halt.TheVariants as halt;
ghost use Rattle.sh_interp.specs.Views.{halt_of};

use sh_builtins::Stop;
use span_text::Memory;
use std::alloc::AllocError;

/// Why a run doesn't go on.
#[derive(Clone, Copy, Debug, PartialEq, Eq)]
pub enum Halt {
    Memory,
    /// No turn, or no level of calls, is left.
    GoesOn,
    /// The standard, or the profile of it, doesn't say what comes.
    Unspecified,
}

impl From<Memory> for Halt {
    ghost from_gives = { λ _ e. e ≡ halt.Memory };

    fn from(_: Memory) -> Halt {
        Halt::Memory
    }
}

impl From<AllocError> for Halt {
    ghost from_gives = { λ _ e. e ≡ halt.Memory };

    fn from(_: AllocError) -> Halt {
        Halt::Memory
    }
}

impl From<Stop> for Halt {
    ghost from_gives = { λ s e. e ≡ halt_of s };

    fn from(stop: Stop) -> Halt {
        match stop {
            Stop::Memory => Halt::Memory,
            Stop::Unspecified => Halt::Unspecified,
        }
    }
}
