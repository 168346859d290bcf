//! Why nothing was printed.

ghost use Rattle.std.specs.Prelude.{◌≡◌};
ghost use Rattle.fmt_print.specs.declared.fault.EchoFault.TheVariants as echo_fault;
ghost use Rattle.fmt_print.specs.declared.fault.FmtFault.TheVariants as fault;

use std::alloc::AllocError;
use thiserror::Error;

/// Places and indexes count from 0.
#[derive(Debug, Drop, PartialEq, Error)]
pub enum FmtFault {
    /// The format has no meaning from this byte on.
    #[error("bad format at {0}")]
    BadFormat(usize),
    /// The argument of this index is no number.
    #[error("argument {0} is no number")]
    BadNumber(usize),
    /// The argument of this index has an escape that `%b` doesn't take.
    #[error("argument {0} has a bad escape")]
    BadEscape(usize),
    #[error("out of memory")]
    Memory,
}

impl From<AllocError> for FmtFault {
    ghost from_gives = { λ _ e. e ≡ fault.Memory };

    fn from(_: AllocError) -> FmtFault {
        FmtFault::Memory
    }
}

impl From<span_text::Memory> for FmtFault {
    ghost from_gives = { λ _ e. e ≡ fault.Memory };

    fn from(_: span_text::Memory) -> FmtFault {
        FmtFault::Memory
    }
}

/// The index counts from 0.
#[derive(Debug, Drop, PartialEq, Error)]
pub enum EchoFault {
    /// The argument of this index has an escape that has no meaning here.
    #[error("argument {0} has an escape that isn't supported")]
    Unsupported(usize),
    #[error("out of memory")]
    Memory,
}

impl From<span_text::Memory> for EchoFault {
    ghost from_gives = { λ _ e. e ≡ echo_fault.Memory };

    fn from(_: span_text::Memory) -> EchoFault {
        EchoFault::Memory
    }
}
