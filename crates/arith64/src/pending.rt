//! Tokens that were begun and may become longer.

ghost use Rattle.std.specs.Prelude.{◌≡◌, ◌≤◌, Bool, true, false, Option, Some, None, map, if◌then◌else◌, ◌==◌};
ghost use Rattle.span_text.specs.Names as names;
ghost use Rattle.span_text.specs.ExprTokens as tokens;
ghost use Rattle.span_text.specs.declared.sign.Sign.TheVariants as signs;
ghost use Rattle.span_text.specs.declared.sign.Infix.TheVariants as infixes;
ghost use Rattle.arith64.specs.declared.pending.Digits.TheVariants as digit;
ghost use Rattle.arith64.specs.Reader as reading;

use crate::numbers::{GREATEST, next_number};
use span_text::{BinOp, Infix, Sign, Text};

/// The digits of a constant.
#[derive(Clone, Copy)]
pub(crate) enum Digits {
    /// `0`, which `x` and octal digits may follow.
    Zero,
    /// `0` and octal digits, with their value.
    Octal(u64),
    Decimal(u64),
    /// `0x`, and hexadecimal digits, if any came, with their value.
    Hexadecimal(Option<u64>),
}

/// What was begun and may become longer.
#[derive(Drop)]
pub(crate) enum Pending {
    /// Nothing, or blanks and newlines.
    Gap,
    Name(Text),
    Number(Digits),
    Operator(Sign),
}

pub(crate) fn first_digit(byte: u8) -> Digits
    requires { names.is_digit byte ≡ true }
    ensures { result ≡ reading.first_digit byte }
{
    if byte == b'0' {
        Digits::Zero
    } else {
        Digits::Decimal(u64::from(byte - b'0'))
    }
}

fn next_of_zero(byte: u8) -> Option<Digits>
    ensures { result ≡ reading.next_digit digit.Zero byte }
{
    if byte == b'x' || byte == b'X' {
        return Some(Digits::Hexadecimal(None));
    }
    Some(Digits::Octal(next_number(GREATEST, 8, 0, byte)?))
}

/// The digits with one byte more, where a constant begins so.
pub(crate) fn next_digit(digits: Digits, byte: u8) -> Option<Digits>
    ensures { result ≡ reading.next_digit digits byte }
{
    match digits {
        Digits::Zero => next_of_zero(byte),
        Digits::Octal(n) => Some(Digits::Octal(next_number(GREATEST, 8, n, byte)?)),
        Digits::Decimal(n) => Some(Digits::Decimal(next_number(GREATEST, 10, n, byte)?)),
        Digits::Hexadecimal(None) => {
            Some(Digits::Hexadecimal(Some(next_number(GREATEST, 16, 0, byte)?)))
        }
        Digits::Hexadecimal(Some(n)) => {
            Some(Digits::Hexadecimal(Some(next_number(GREATEST, 16, n, byte)?)))
        }
    }
}

pub(crate) fn value_of_digits(digits: Digits) -> Option<u64>
    ensures { result ≡ reading.value_of_digits digits }
{
    match digits {
        Digits::Zero => Some(0),
        Digits::Octal(n) | Digits::Decimal(n) => Some(n),
        Digits::Hexadecimal(n) => n,
    }
}

fn plain(op: BinOp) -> Option<Sign>
    ensures { result ≡ Some (signs.Between (infixes.Plain op)) }
{
    Some(Sign::Between(Infix::Plain(op)))
}

/// The sign of one byte.
#[tactic(auto, unfolding(span_text::specs::ExprTokens::sign_of))]
pub(crate) fn sign_of(byte: u8) -> Option<Sign>
    ensures { result ≡ tokens.sign_of byte }
{
    match byte {
        b'+' => plain(BinOp::Add),
        b'-' => plain(BinOp::Subtract),
        b'*' => plain(BinOp::Times),
        b'/' => plain(BinOp::Divide),
        b'%' => plain(BinOp::Remainder),
        b'<' => plain(BinOp::Less),
        b'>' => plain(BinOp::Greater),
        b'&' => plain(BinOp::BitAnd),
        b'^' => plain(BinOp::BitXor),
        b'|' => plain(BinOp::BitOr),
        b',' => Some(Sign::Between(Infix::Comma)),
        b'=' => Some(Sign::Assign(None)),
        b'!' => Some(Sign::Not),
        b'~' => Some(Sign::Complement),
        b'?' => Some(Sign::Question),
        b':' => Some(Sign::Colon),
        b'(' => Some(Sign::Open),
        b')' => Some(Sign::Close),
        b']' => Some(Sign::EndIndex),
        _ => None,
    }
}

/// The sign where the byte is this one.
fn on(byte: u8, this: u8, sign: Sign, other: Option<Sign>) -> Option<Sign>
    ensures { result ≡ (if byte == this then Some sign else other) }
{
    if byte == this { Some(sign) } else { other }
}

/// The sign where the byte is `=`.
fn equals(byte: u8, sign: Sign) -> Option<Sign>
    ensures { result ≡ (if byte == 61 then Some sign else None) }
{
    on(byte, b'=', sign, None)
}

#[tactic(auto, unfolding(span_text::specs::ExprTokens::longer))]
fn longer_plain(op: BinOp, byte: u8) -> Option<Sign>
    ensures { result ≡ tokens.longer (signs.Between (infixes.Plain op)) byte }
{
    let assigned = equals(byte, Sign::Assign(Some(op)));
    match op {
        BinOp::Add => on(byte, b'+', Sign::Increment, assigned),
        BinOp::Subtract => on(byte, b'-', Sign::Decrement, assigned),
        BinOp::Times => on(
            byte,
            b'*',
            Sign::Between(Infix::Plain(BinOp::Power)),
            assigned,
        ),
        BinOp::Less => on(
            byte,
            b'<',
            Sign::Between(Infix::Plain(BinOp::ShiftLeft)),
            equals(byte, Sign::Between(Infix::Plain(BinOp::AtMost))),
        ),
        BinOp::Greater => on(
            byte,
            b'>',
            Sign::Between(Infix::Plain(BinOp::ShiftRight)),
            equals(byte, Sign::Between(Infix::Plain(BinOp::AtLeast))),
        ),
        BinOp::BitAnd => on(byte, b'&', Sign::Between(Infix::And), assigned),
        BinOp::BitOr => on(byte, b'|', Sign::Between(Infix::Or), assigned),
        BinOp::ShiftLeft | BinOp::ShiftRight => assigned,
        BinOp::Divide | BinOp::Remainder | BinOp::BitXor => assigned,
        BinOp::Power | BinOp::AtMost | BinOp::AtLeast => None,
        BinOp::Equal | BinOp::Unequal => None,
    }
}

/// The sign that a sign becomes with one byte more.
#[tactic(auto, unfolding(span_text::specs::ExprTokens::longer))]
pub(crate) fn longer(sign: Sign, byte: u8) -> Option<Sign>
    ensures { result ≡ tokens.longer sign byte }
{
    match sign {
        Sign::Between(Infix::Plain(op)) => longer_plain(op, byte),
        Sign::Assign(None) => equals(byte, Sign::Between(Infix::Plain(BinOp::Equal))),
        Sign::Not => equals(byte, Sign::Between(Infix::Plain(BinOp::Unequal))),
        _ => None,
    }
}

/// Whether one byte more may make the sign longer.
pub(crate) fn may_grow(sign: Sign) -> bool
    ensures { result ≡ reading.may_grow sign }
{
    match sign {
        Sign::Between(Infix::Plain(op)) => !matches!(
            op,
            BinOp::Power | BinOp::AtMost | BinOp::AtLeast | BinOp::Equal | BinOp::Unequal
        ),
        Sign::Assign(None) | Sign::Not => true,
        _ => false,
    }
}
