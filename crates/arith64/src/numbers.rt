//! Constants.

ghost use Rattle.std.specs.Prelude.{◌≡◌, ◌+◌, ◌-◌, ◌*◌, ◌^◌, ◌<◌, ◌≤◌, Some, IfSome, pos, neg_ℤ};
ghost use Rattle.span_text.specs.Constant.{number_of, unsigned_constant, minus, constant_of};
ghost use Rattle.arith64.specs.Digits.{with_digit, number_after};

/// The greatest value of a constant.
pub(crate) const GREATEST: u64 = 0x7fff_ffff_ffff_ffff;

/// The greatest value of a constant behind a minus.
const GREATEST_NEGATED: u64 = 0x8000_0000_0000_0000;

/// The number with one digit more, where the byte is a digit and the number isn't too much.
pub(crate) fn next_number(most: u64, radix: u32, number: u64, byte: u8) -> Option<u64>
    requires low { 2 ≤ radix }
    requires high { radix ≤ 16 }
    ensures value { result ≡ with_digit most radix number byte }
    ensures bound { IfSome result (λ n. n ≤ most) }
{
    let digit = char::from(byte).to_digit(radix)?;
    let next = u128::from(number) * u128::from(radix) + u128::from(digit);
    if next <= u128::from(most) {
        Some(next as u64)
    } else {
        None
    }
}

fn number_of_digits(most: u64, radix: u32, digits: &[u8]) -> Option<u64>
    requires low { 2 ≤ radix }
    requires high { radix ≤ 16 }
    ensures value { result ≡ number_after most radix (Some 0) digits.now }
    ensures bound { IfSome result (λ n. n ≤ most) }
{
    let mut number = 0;
    for byte in digits {
        number = next_number(most, radix, number, *byte)?;
    }
    Some(number)
}

#[tactic(auto, unfolding(span_text::specs::Constant::number_of), using(crate::proofs::Reading::numbers_are))]
fn number(most: u64, radix: u32, digits: &[u8]) -> Option<u64>
    requires low { 2 ≤ radix }
    requires high { radix ≤ 16 }
    ensures value { result ≡ number_of most radix digits.now }
    ensures bound { IfSome result (λ n. n ≤ most) }
{
    if digits.is_empty() {
        None
    } else {
        number_of_digits(most, radix, digits)
    }
}

fn unsigned(most: u64, text: &[u8]) -> Option<u64>
    ensures value { result ≡ unsigned_constant most text.now }
    ensures bound { IfSome result (λ n. n ≤ most) }
{
    match text {
        [b'0', b'x' | b'X', digits @ ..] => number(most, 16, digits),
        [b'0', ..] => number(most, 8, text),
        _ => number(most, 10, text),
    }
}

fn negated(number: u64) -> i64
    requires { number ≤ 2 ^ 63 }
    ensures { result ≡ minus number }
{
    if number == 0 {
        0
    } else {
        -((number - 1) as i64) - 1
    }
}

/// The value of a constant: an optional sign and decimal digits of which the first isn't 0, `0` and octal digits, or
/// `0x` or `0X` and hexadecimal digits. `None` comes exactly where the text is none, or where its value isn't from
/// -2^63 to 2^63 - 1 (Bash manual, section 6.5).
pub fn constant(text: &[u8]) -> Option<i64>
    ensures { result ≡ constant_of text.now }
{
    match text {
        [b'-', digits @ ..] => Some(negated(unsigned(GREATEST_NEGATED, digits)?)),
        [b'+', digits @ ..] => Some(unsigned(GREATEST, digits)? as i64),
        _ => Some(unsigned(GREATEST, text)? as i64),
    }
}
