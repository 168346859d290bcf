//! The names of delimiters.

ghost use Rattle.std.specs.Prelude.{◌≡◌, ◌≤◌, ◌+◌, ◌∷◌, length, take};
ghost use Rattle.sh_printing.specs.Delimiters.{numbered};

use itoa::Buffer;

/// The length of the longest name: `E` and a number of at most 40 digits, as `Buffer` has room for.
pub const NAME_SIZE: usize = 41;

/// The name of this number, put together in the buffer.
pub fn numbered(number: u64, buffer: &mut [u8; NAME_SIZE]) -> &[u8]
    ensures { result.now ≡ numbered number }
{
    let mut digits = Buffer::new();
    let digits = digits.format(number).as_bytes();
    write_name(digits, buffer);
    &buffer[..digits.len() + 1]
}

/// `E` and the digits at the front of the buffer.
fn write_name(digits: &[u8], buffer: &mut [u8; NAME_SIZE])
    requires { length digits.now ≤ 40 }
    ensures { take (length digits.now + 1) buffer.new ≡ 69 ∷ digits.now }
{
    buffer[0] = b'E';
    for (i, digit) in digits.iter().enumerate() {
        buffer[i + 1] = *digit;
    }
}
