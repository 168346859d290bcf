//! Decimal numbers.

ghost use Rattle.std.specs.Prelude.{◌≡◌, ◌≤◌, ◌^◌, Some, IfSome};
ghost use Rattle.arith64.specs.Digits.{with_digit, number_after};
ghost use Rattle.span_text.specs.Constant.{number_of, minus};
ghost use Rattle.sh_meaning.specs.builtins.Testing.{decimal_of};

/// The greatest number with a sign.
const GREATEST: u64 = 0x7fff_ffff_ffff_ffff;

/// The greatest number behind a minus.
const GREATEST_NEGATED: u64 = 0x8000_0000_0000_0000;

/// The number with one digit more, where the byte is a digit and the number isn't too much.
fn next_number(most: u64, number: u64, byte: u8) -> Option<u64>
    ensures value { result ≡ with_digit most 10 number byte }
    ensures bound { IfSome result (λ n. n ≤ most) }
{
    let digit = char::from(byte).to_digit(10)?;
    let next = u128::from(number) * 10 + u128::from(digit);
    if next <= u128::from(most) {
        Some(next as u64)
    } else {
        None
    }
}

fn number_of_digits(most: u64, digits: &[u8]) -> Option<u64>
    ensures value { result ≡ number_after most 10 (Some 0) digits.now }
    ensures bound { IfSome result (λ n. n ≤ most) }
{
    let mut number = 0;
    for byte in digits {
        number = next_number(most, number, *byte)?;
    }
    Some(number)
}

/// The number that one decimal digit or more write, where it is at most so much.
#[tactic(auto, unfolding(span_text::specs::Constant::number_of), using(arith64::proofs::Reading::numbers_are))]
pub fn number(most: u64, digits: &[u8]) -> Option<u64>
    ensures value { result ≡ number_of most 10 digits.now }
    ensures bound { IfSome result (λ n. n ≤ most) }
{
    if digits.is_empty() {
        None
    } else {
        number_of_digits(most, digits)
    }
}

fn negated(number: u64) -> i64
    requires { number ≤ 2 ^ 63 }
    ensures { result ≡ minus number }
{
    if number == 0 {
        0
    } else {
        -((number - 1) as i64) - 1
    }
}

/// A decimal number with a sign or none, from -2^63 to 2^63 - 1 (POSIX XCU test).
pub fn signed_number(text: &[u8]) -> Option<i64>
    ensures { result ≡ decimal_of text.now }
{
    match text {
        [] => None,
        [b'-', digits @ ..] => Some(negated(number(GREATEST_NEGATED, digits)?)),
        [b'+', digits @ ..] => Some(number(GREATEST, digits)? as i64),
        _ => Some(number(GREATEST, text)? as i64),
    }
}
