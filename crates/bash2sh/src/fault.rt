//! Why a script could not be read.

ghost use Rattle.std.specs.Prelude.{◌≡◌};
ghost use Rattle.bash2sh.specs.declared.fault.Stop.TheVariants as stop;
ghost use Rattle.bash2sh.specs.declared.fault.ReadFault.TheVariants as fault;

use span_text::Memory;
use std::alloc::AllocError;

/// Why a line could not be read.
#[derive(Debug, Drop)]
pub enum Stop {
    Memory,
    /// It is of no form that is taken.
    Bad,
}

/// Why a script could not be read.
#[derive(Debug, Drop)]
pub enum ReadFault {
    Memory,
    /// The offset of the first line that is of no form that is taken, its blanks aside.
    NotYet(usize),
}

impl From<Memory> for Stop {
    ghost from_gives = { λ _ e. e ≡ stop.Memory };

    fn from(_: Memory) -> Stop {
        Stop::Memory
    }
}

impl From<Memory> for ReadFault {
    ghost from_gives = { λ _ e. e ≡ fault.Memory };

    fn from(_: Memory) -> ReadFault {
        ReadFault::Memory
    }
}

impl From<AllocError> for ReadFault {
    ghost from_gives = { λ _ e. e ≡ fault.Memory };

    fn from(_: AllocError) -> ReadFault {
        ReadFault::Memory
    }
}

/// Why a script was not translated.
#[derive(Debug, Drop)]
pub enum TranslateFault {
    Memory,
    /// The offset of the first line that is of no form that is taken, its blanks aside.
    NotYet(usize),
    /// The sink failed.
    Output,
}
