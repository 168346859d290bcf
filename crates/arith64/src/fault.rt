//! Why arithmetic isn't read, and why it has no value.

ghost use Rattle.std.specs.Prelude.{◌≡◌};
ghost use Rattle.arith64.specs.declared.fault.ExprFault.TheVariants as fault;
ghost use Rattle.arith64.specs.declared.fault.Stop.TheVariants as stop;

use thiserror::Error;

/// Why an operator gives no value.
#[derive(Clone, Copy, Debug, PartialEq, Eq, Error)]
pub enum ArithFault {
    /// The divisor is 0.
    #[error("division by 0")]
    DivZero,
    /// The count of a shift is below 0 or above 63.
    #[error("bad shift count")]
    BadShift,
    /// The exponent is below 0.
    #[error("negative exponent")]
    BadPower,
}

/// Why a text isn't read as an expression.
#[derive(Debug, PartialEq, Drop, Error)]
pub enum ExprFault {
    /// The text spells no expression, and no text that agrees with it up to and with this offset does.
    #[error("bad expression at offset {0}")]
    BadExpr(usize),
    /// There is no memory left.
    #[error("out of memory")]
    Memory,
}

impl From<span_text::Memory> for ExprFault {
    ghost from_gives = { λ _ e. e ≡ fault.Memory };

    fn from(_: span_text::Memory) -> ExprFault {
        ExprFault::Memory
    }
}

/// Why reading stops.
#[derive(Drop)]
pub(crate) enum Stop {
    /// What came can't stand there.
    Bad,
    Memory,
}

impl From<span_text::Memory> for Stop {
    ghost from_gives = { λ _ e. e ≡ stop.Memory };

    fn from(_: span_text::Memory) -> Stop {
        Stop::Memory
    }
}
