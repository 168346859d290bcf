//! The levels of precedence, from the loosest.

ghost use Rattle.std.specs.Prelude.{◌≡◌};
ghost use Rattle.span_text.specs.Expressions as spelling;
ghost use Rattle.span_text.specs.declared.sign.Infix.TheVariants as infixes;

use span_text::{BinOp, Infix};

/// The level of all expressions.
pub(crate) const LOOSEST: u32 = 0;

/// The level of an assignment.
pub(crate) const ASSIGNMENT: u32 = 1;

/// The level of `?:`.
pub(crate) const CONDITIONAL: u32 = 2;

/// The level of what stands before a `?`.
pub(crate) const TEST: u32 = 3;

/// The level of an operator before its operand.
pub(crate) const UNARY: u32 = 14;

fn plain_level(op: BinOp) -> u32
    ensures { result ≡ spelling.level (infixes.Plain op) }
{
    match op {
        BinOp::BitOr => 5,
        BinOp::BitXor => 6,
        BinOp::BitAnd => 7,
        BinOp::Equal | BinOp::Unequal => 8,
        BinOp::Less | BinOp::AtMost | BinOp::Greater | BinOp::AtLeast => 9,
        BinOp::ShiftLeft | BinOp::ShiftRight => 10,
        BinOp::Add | BinOp::Subtract => 11,
        BinOp::Times | BinOp::Divide | BinOp::Remainder => 12,
        BinOp::Power => 13,
    }
}

pub(crate) fn level(op: Infix) -> u32
    ensures { result ≡ spelling.level op }
{
    match op {
        Infix::Comma => LOOSEST,
        Infix::Or => 3,
        Infix::And => 4,
        Infix::Plain(op) => plain_level(op),
    }
}

pub(crate) fn left_level(op: Infix) -> u32
    ensures { result ≡ spelling.left_level op }
{
    match op {
        Infix::Plain(BinOp::Power) => UNARY,
        _ => level(op),
    }
}
