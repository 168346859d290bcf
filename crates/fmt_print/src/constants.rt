//! Constants of the shell's arithmetic.

ghost use Rattle.std.specs.Prelude.{◌≡◌, ◌≤◌, ◌<◌, ◌^◌};
ghost use Rattle.fmt_print.specs.Constants as constants;

/// A sign and a size.
#[derive(Clone, Copy, Debug, PartialEq, Eq)]
pub struct Number {
    pub negative: bool,
    pub size: u64,
}

pub fn digit_of(byte: u8) -> u64
    ensures value { result ≡ constants.digit_of byte }
    ensures bound { result ≤ 16 }
{
    match byte {
        b'0'..=b'9' => u64::from(byte - b'0'),
        b'a'..=b'f' => u64::from(byte - b'a' + 10),
        b'A'..=b'F' => u64::from(byte - b'A' + 10),
        _ => 16,
    }
}

/// One more digit of a number of 64 bits.
fn with_digit(radix: u64, value: u64, digit: u64) -> Option<u64>
    ensures { result ≡ constants.with_digit radix value digit }
{
    if digit >= radix {
        return None;
    }
    radix.checked_mul(value)?.checked_add(digit)
}

fn number_of(radix: u64, digits: &[u8]) -> Option<u64>
    ensures { result ≡ constants.number_from radix 0 digits.now }
{
    let mut value = 0;
    for byte in digits {
        value = with_digit(radix, value, digit_of(*byte))?;
    }
    Some(value)
}

fn hex_number(digits: &[u8]) -> Option<u64>
    ensures { result ≡ constants.hex_number digits.now }
{
    match digits {
        [] => None,
        _ => number_of(16, digits),
    }
}

fn zero_led(bytes: &[u8]) -> Option<u64>
    ensures { result ≡ constants.zero_led bytes.now }
{
    match bytes {
        [] => Some(0),
        [b'x' | b'X', digits @ ..] => hex_number(digits),
        _ => number_of(8, bytes),
    }
}

fn natural(bytes: &[u8]) -> Option<u64>
    ensures { result ≡ constants.natural bytes.now }
{
    match bytes {
        [] => None,
        [b'0', behind @ ..] => zero_led(behind),
        _ => number_of(10, bytes),
    }
}

fn in_range(negative: bool, size: u64) -> Option<Number>
    ensures { result ≡ constants.in_range negative size }
{
    let greatest = if negative { 1 << 63 } else { (1 << 63) - 1 };
    if size <= greatest {
        Some(Number { negative, size })
    } else {
        None
    }
}

/// The constant that this text is.
pub fn constant(text: &[u8]) -> Option<Number>
    ensures { result ≡ constants.constant text.now }
{
    match text {
        [] => None,
        [b'-', behind @ ..] => in_range(true, natural(behind)?),
        [b'+', behind @ ..] => in_range(false, natural(behind)?),
        _ => in_range(false, natural(text)?),
    }
}
