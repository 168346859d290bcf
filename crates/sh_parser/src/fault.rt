//! Why reading stops.

ghost use Rattle.std.specs.Prelude.{◌≡◌};
ghost use Rattle.sh_parser.specs.declared.fault.ReadFault.TheVariants as read_fault;
ghost use Rattle.sh_parser.specs.declared.fault.Stop.TheVariants as stop;

use span_text::Memory;
use std::alloc::{AllocError, AllocFailed};

/// Why a text gives no script.
#[derive(Clone, Copy, Debug, PartialEq, Eq)]
pub enum ReadFault {
    /// The text spells no script: this is the offset of the first byte that doesn't go on.
    Unreadable(u32),
    /// There is no memory left.
    Memory,
}

impl From<Memory> for ReadFault {
    ghost from_gives = { λ _ e. e ≡ read_fault.Memory };

    fn from(_e: Memory) -> ReadFault {
        ReadFault::Memory
    }
}

/// Why reading stops.
#[derive(Debug, Drop)]
pub enum Stop {
    Memory,
    /// Nothing is spelled so.
    Bad,
}

impl From<AllocError> for Stop {
    ghost from_gives = { λ _ e. e ≡ stop.Memory };

    fn from(_e: AllocError) -> Stop {
        Stop::Memory
    }
}

impl<T: Drop> From<AllocFailed<T>> for Stop {
    ghost from_gives = { λ _ e. e ≡ stop.Memory };

    fn from(_e: AllocFailed<T>) -> Stop {
        Stop::Memory
    }
}

impl From<Memory> for Stop {
    ghost from_gives = { λ _ e. e ≡ stop.Memory };

    fn from(_e: Memory) -> Stop {
        Stop::Memory
    }
}
