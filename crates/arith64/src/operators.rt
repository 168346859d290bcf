//! What operators give.

ghost use Rattle.std.specs.Prelude.{◌≡◌, ◌*◌, ◌^◌, ◌%◌, ◌≤◌, pos, int_div, unsigned_abs};
ghost use Rattle.arith64.specs.Values.{power, value_of};
ghost use Rattle.span_text.specs.declared.expr.BinOp.TheVariants as op;

use crate::fault::ArithFault;
use span_text::BinOp;

/// The greatest count of a shift.
const GREATEST_SHIFT: i64 = 63;

/// The power modulo 2^64, by squaring: a turn for each bit of the exponent.
fn power_of(base: u64, exponent: u64) -> u64
    ensures { result ≡ (base ^ exponent) % 2 ^ 64 }
{
    let mut power: u64 = 1;
    let mut square = base;
    let mut left = exponent;
    while 0 < left {
        if left % 2 == 1 {
            power = power.wrapping_mul(square);
        }
        square = square.wrapping_mul(square);
        left /= 2;
    }
    power
}

#[tactic(auto, using(crate::proofs::Powers::bits_of_power))]
fn raise(a: i64, b: i64) -> Result<i64, ArithFault>
    ensures { result ≡ value_of op.Power a b }
{
    if b < 0 {
        return Err(ArithFault::BadPower);
    }
    Ok(power_of(a.cast_unsigned(), b as u64).cast_signed())
}

fn divide(a: i64, b: i64) -> Result<i64, ArithFault>
    ensures { result ≡ value_of op.Divide a b }
{
    if b == 0 {
        return Err(ArithFault::DivZero);
    }
    Ok(a.wrapping_div(b))
}

fn remainder(a: i64, b: i64) -> Result<i64, ArithFault>
    ensures { result ≡ value_of op.Remainder a b }
{
    if b == 0 {
        return Err(ArithFault::DivZero);
    }
    Ok(a.wrapping_rem(b))
}

fn shift_left(a: i64, b: i64) -> Result<i64, ArithFault>
    ensures { result ≡ value_of op.ShiftLeft a b }
{
    if b < 0 || GREATEST_SHIFT < b {
        return Err(ArithFault::BadShift);
    }
    Ok(a << b as u32)
}

fn shift_right(a: i64, b: i64) -> Result<i64, ArithFault>
    ensures { result ≡ value_of op.ShiftRight a b }
{
    if b < 0 || GREATEST_SHIFT < b {
        return Err(ArithFault::BadShift);
    }
    Ok(a >> b as u32)
}

/// What the operator gives: the result in whole numbers, taken modulo 2^64 into the range of an `i64`. A division
/// rounds to 0, a remainder has the sign of `a`, and `>>` keeps the sign (Bash manual, section 6.5).
///
/// `DivZero` comes exactly where a division or a remainder has the divisor 0, `BadShift` exactly where a shift has a
/// count below 0 or above 63, and `BadPower` exactly where `**` has an exponent below 0.
pub fn apply(op: BinOp, a: i64, b: i64) -> Result<i64, ArithFault>
    ensures { result ≡ value_of op a b }
{
    match op {
        BinOp::Power => raise(a, b),
        BinOp::Times => Ok(a.wrapping_mul(b)),
        BinOp::Divide => divide(a, b),
        BinOp::Remainder => remainder(a, b),
        BinOp::Add => Ok(a.wrapping_add(b)),
        BinOp::Subtract => Ok(a.wrapping_sub(b)),
        BinOp::ShiftLeft => shift_left(a, b),
        BinOp::ShiftRight => shift_right(a, b),
        BinOp::Less => Ok(i64::from(a < b)),
        BinOp::AtMost => Ok(i64::from(a <= b)),
        BinOp::Greater => Ok(i64::from(a > b)),
        BinOp::AtLeast => Ok(i64::from(a >= b)),
        BinOp::Equal => Ok(i64::from(a == b)),
        BinOp::Unequal => Ok(i64::from(a != b)),
        BinOp::BitAnd => Ok(a & b),
        BinOp::BitXor => Ok(a ^ b),
        BinOp::BitOr => Ok(a | b),
    }
}
