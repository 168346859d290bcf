//! Escapes of bytes.

ghost use Rattle.std.specs.Prelude.{◌≡◌, ◌+◌, ◌*◌, ◌<◌, Some, IfOk};
ghost use Rattle.fmt_print.specs.Fronts.{seen};
ghost use Rattle.fmt_print.specs.Escapes as escapes;

use crate::Printed;
use crate::constants::digit_of;
use span_text::{Memory, Text};
use std::alloc::Global;

/// Whose escapes are read.
#[derive(Clone, Copy, Debug, PartialEq, Eq)]
pub enum Dialect {
    /// `printf %b`
    Printf,
    /// `echo -e`
    Echo,
}

/// A byte that an argument prints, or the end of all output.
#[derive(Clone, Copy, Debug, PartialEq, Eq)]
pub enum Unit {
    Byte(u8),
    /// `\c`
    Cut,
}

pub fn is_octal(byte: u8) -> bool
    ensures { result ≡ escapes.is_octal byte }
{
    b'0' <= byte && byte <= b'7'
}

/// One more octal digit, where one stands at the front.
fn more_octal(value: u32, bytes: &[u8]) -> (u32, &[u8])
    requires { value < 1024 }
    ensures value { result.0 ≡ (escapes.more_octal value bytes.now).0 }
    ensures rest { result.1.now ≡ (escapes.more_octal value bytes.now).1 }
    ensures bound { result.0 < 8 * value + 8 }
{
    match bytes {
        [digit, behind @ ..] if is_octal(*digit) => (8 * value + u32::from(*digit - b'0'), behind),
        _ => (value, bytes),
    }
}

/// The byte of up to three octal digits.
pub fn octal_byte(bytes: &[u8]) -> Option<(u8, &[u8])>
    ensures { seen result ≡ escapes.octal_byte bytes.now }
{
    let (one, behind) = more_octal(0, bytes);
    let (two, behind) = more_octal(one, behind);
    let (three, behind) = more_octal(two, behind);
    if three <= 255 {
        Some((three as u8, behind))
    } else {
        None
    }
}

/// The byte of `\\ \a \b \f \n \r \t \v`.
pub fn letter_escape(letter: u8) -> Option<u8>
    ensures { result ≡ escapes.letter_escape letter }
{
    match letter {
        b'\\' => Some(b'\\'),
        b'a' => Some(7),
        b'b' => Some(8),
        b'f' => Some(12),
        b'n' => Some(b'\n'),
        b'r' => Some(b'\r'),
        b't' => Some(b'\t'),
        b'v' => Some(11),
        _ => None,
    }
}

fn argument_escape(bytes: &[u8]) -> Option<(Unit, &[u8])>
    ensures { seen result ≡ escapes.argument_escape bytes.now }
{
    match bytes {
        [] => None,
        [b'0', behind @ ..] => match octal_byte(behind) {
            Some((byte, rest)) => Some((Unit::Byte(byte), rest)),
            None => None,
        },
        [b'c', behind @ ..] => Some((Unit::Cut, behind)),
        [letter, behind @ ..] => match letter_escape(*letter) {
            Some(byte) => Some((Unit::Byte(byte), behind)),
            None => None,
        },
    }
}

/// One more hexadecimal digit, where one stands at the front.
fn more_hex(value: u32, bytes: &[u8]) -> (u32, &[u8])
    requires { value < 16 }
    ensures value { result.0 ≡ (escapes.more_hex value bytes.now).0 }
    ensures rest { result.1.now ≡ (escapes.more_hex value bytes.now).1 }
    ensures bound { result.0 < 16 * value + 16 }
{
    match bytes {
        [digit, behind @ ..] if digit_of(*digit) < 16 => (
            16 * value + digit_of(*digit) as u32,
            behind,
        ),
        _ => (value, bytes),
    }
}

/// The byte of one or two hexadecimal digits.
fn hex_unit(bytes: &[u8]) -> Option<(Unit, &[u8])>
    ensures { seen result ≡ escapes.hex_unit bytes.now }
{
    match bytes {
        [digit, ..] if digit_of(*digit) < 16 => {
            let (one, behind) = more_hex(0, bytes);
            let (two, behind) = more_hex(one, behind);
            Some((Unit::Byte(two as u8), behind))
        }
        _ => None,
    }
}

fn is_refused(letter: u8) -> bool
    ensures { result ≡ escapes.is_refused letter }
{
    letter == b'u' || letter == b'U' || (b'1' <= letter && letter <= b'7')
}

/// The byte of `\\ \a \b \f \n \r \t \v`; another backslash stays.
fn escape_or_stay(bytes: &[u8]) -> (Unit, &[u8])
    ensures { seen (Some result) ≡ escapes.escape_or_stay_at bytes.now }
{
    match bytes {
        [] => (Unit::Byte(b'\\'), bytes),
        [letter, behind @ ..] => match letter_escape(*letter) {
            Some(byte) => (Unit::Byte(byte), behind),
            None => (Unit::Byte(b'\\'), bytes),
        },
    }
}

fn echo_escape(bytes: &[u8]) -> Option<(Unit, &[u8])>
    ensures { seen result ≡ escapes.echo_escape bytes.now }
{
    match bytes {
        [b'0', behind @ ..] => match octal_byte(behind) {
            Some((byte, rest)) => Some((Unit::Byte(byte), rest)),
            None => None,
        },
        [b'c', behind @ ..] => Some((Unit::Cut, behind)),
        [b'e' | b'E', behind @ ..] => Some((Unit::Byte(27), behind)),
        [b'x', behind @ ..] => hex_unit(behind),
        [letter, ..] if is_refused(*letter) => None,
        _ => Some(escape_or_stay(bytes)),
    }
}

fn escape_in(dialect: Dialect, bytes: &[u8]) -> Option<(Unit, &[u8])>
    ensures { seen result ≡ escapes.escape_in dialect bytes.now }
{
    match dialect {
        Dialect::Printf => argument_escape(bytes),
        Dialect::Echo => echo_escape(bytes),
    }
}

fn take_unit(dialect: Dialect, bytes: &[u8]) -> Option<(Unit, &[u8])>
    ensures { seen result ≡ escapes.unit_at dialect bytes.now }
{
    match bytes {
        [] => None,
        [b'\\', behind @ ..] => escape_in(dialect, behind),
        [byte, behind @ ..] => Some((Unit::Byte(*byte), behind)),
    }
}

/// What an argument prints, or None where it has an escape that isn't taken.
pub fn expand(alloc: Global, dialect: Dialect, argument: &[u8]) -> Result<Option<Printed>, Memory>
    ensures { IfOk result (λ answer. answer ≡ escapes.expanded dialect argument.now) }
{
    let mut text = Text::new(alloc);
    let mut rest = argument;
    'units: while let Some((unit, behind)) = take_unit(dialect, rest) {
        match unit {
            Unit::Cut => return Ok(Some(Printed { text, cut: true })),
            Unit::Byte(byte) => text.append(&[byte])?,
        }
        rest = behind;
    }
    if rest.is_empty() {
        Ok(Some(Printed { text, cut: false }))
    } else {
        Ok(None)
    }
}
