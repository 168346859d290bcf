//! The pieces of a format.

ghost use Rattle.std.specs.Prelude.{◌≡◌, ◌≤◌, IfOk, length};
ghost use Rattle.fmt_print.specs.Constants.{is_digit as is_digit_of};
ghost use Rattle.fmt_print.specs.Fronts.{seen};
ghost use Rattle.fmt_print.specs.Pieces as pieces;

use crate::escapes::{is_octal, letter_escape, octal_byte};
use span_text::{List, Memory};
use std::alloc::Global;

/// `-`, `0`, `+` and space.
#[derive(Clone, Copy, Debug, PartialEq, Eq)]
pub struct Flags {
    pub left: bool,
    pub zero: bool,
    pub plus: bool,
    pub space: bool,
}

#[derive(Clone, Copy, Debug, PartialEq, Eq)]
pub enum Kind {
    /// `d` and `i`
    Decimal,
    /// `u`
    Unsigned,
    /// `o`
    Octal,
    /// `x`
    LowerHex,
    /// `X`
    UpperHex,
    /// `s`
    Bytes,
}

/// `%-5.3d`: flags, a width and a precision in bytes, and a letter.
#[derive(Clone, Copy, Debug, PartialEq, Eq)]
pub struct Conversion {
    pub flags: Flags,
    pub width: usize,
    pub precision: Option<usize>,
    pub kind: Kind,
}

#[derive(Clone, Copy, Debug, PartialEq, Eq)]
pub enum Piece {
    /// A byte, an escape or `%%`.
    Byte(u8),
    Field(Conversion),
    /// `%b`
    Escapes,
}

pub fn is_digit(byte: u8) -> bool
    ensures { result ≡ is_digit_of byte }
{
    b'0' <= byte && byte <= b'9'
}

pub fn is_flag(byte: u8) -> bool
    ensures { result ≡ pieces.is_flag byte }
{
    byte == b'-' || byte == b'0' || byte == b'+' || byte == b' '
}

pub fn with_flag(mut flags: Flags, byte: u8) -> Flags
    ensures { result ≡ pieces.with_flag flags byte }
{
    match byte {
        b'-' => flags.left = true,
        b'0' => flags.zero = true,
        b'+' => flags.plus = true,
        _ => flags.space = true,
    }
    flags
}

fn take_flags(bytes: &[u8]) -> (Flags, &[u8])
    ensures flags { result.0 ≡ (pieces.flags_from pieces.no_flags bytes.now).0 }
    ensures rest { result.1.now ≡ (pieces.flags_from pieces.no_flags bytes.now).1 }
{
    let mut flags = Flags {
        left: false,
        zero: false,
        plus: false,
        space: false,
    };
    for (i, byte) in bytes.iter().enumerate() {
        if !is_flag(*byte) {
            return (flags, &bytes[i..]);
        }
        flags = with_flag(flags, *byte);
    }
    (flags, &[])
}

/// Decimal digits of a number of 9999 at most.
fn take_size(bytes: &[u8]) -> Option<(usize, &[u8])>
    ensures { seen result ≡ pieces.size_from 0 bytes.now }
{
    let mut value = 0;
    for (i, byte) in bytes.iter().enumerate() {
        if !is_digit(*byte) {
            return Some((value, &bytes[i..]));
        }
        value = 10 * value + usize::from(*byte - b'0');
        if value > 9999 {
            return None;
        }
    }
    Some((value, &[]))
}

fn take_precision(bytes: &[u8]) -> Option<(Option<usize>, &[u8])>
    ensures { seen result ≡ pieces.precision_at bytes.now }
{
    match bytes {
        [b'.', behind @ ..] => match take_size(behind) {
            Some((value, rest)) => Some((Some(value), rest)),
            None => None,
        },
        _ => Some((None, bytes)),
    }
}

pub fn kind_of(letter: u8) -> Option<Kind>
    ensures { result ≡ pieces.kind_of letter }
{
    match letter {
        b'd' | b'i' => Some(Kind::Decimal),
        b'u' => Some(Kind::Unsigned),
        b'o' => Some(Kind::Octal),
        b'x' => Some(Kind::LowerHex),
        b'X' => Some(Kind::UpperHex),
        b's' => Some(Kind::Bytes),
        _ => None,
    }
}

pub fn takes(kind: Kind, flags: Flags) -> bool
    ensures { result ≡ pieces.takes kind flags }
{
    match kind {
        Kind::Decimal => true,
        Kind::Bytes => !flags.zero && !flags.plus && !flags.space,
        _ => !flags.plus && !flags.space,
    }
}

fn take_letter(
    flags: Flags,
    width: usize,
    precision: Option<usize>,
    bytes: &[u8],
) -> Option<(Piece, &[u8])>
    ensures { seen result ≡ pieces.letter_at flags width precision bytes.now }
{
    let [letter, behind @ ..] = bytes else {
        return None;
    };
    let kind = kind_of(*letter)?;
    if !takes(kind, flags) {
        return None;
    }
    let conversion = Conversion {
        flags,
        width,
        precision,
        kind,
    };
    Some((Piece::Field(conversion), behind))
}

fn behind_width(flags: Flags, width: usize, bytes: &[u8]) -> Option<(Piece, &[u8])>
    ensures { seen result ≡ pieces.behind_width flags width bytes.now }
{
    let (precision, behind) = take_precision(bytes)?;
    take_letter(flags, width, precision, behind)
}

fn behind_flags(flags: Flags, bytes: &[u8]) -> Option<(Piece, &[u8])>
    ensures { seen result ≡ pieces.behind_flags flags bytes.now }
{
    let (width, behind) = take_size(bytes)?;
    behind_width(flags, width, behind)
}

fn take_conversion(bytes: &[u8]) -> Option<(Piece, &[u8])>
    ensures { seen result ≡ pieces.conversion_at bytes.now }
{
    let (flags, behind) = take_flags(bytes);
    behind_flags(flags, behind)
}

fn take_percent(bytes: &[u8]) -> Option<(Piece, &[u8])>
    ensures { seen result ≡ pieces.percent_at bytes.now }
{
    match bytes {
        [] => None,
        [b'%', behind @ ..] => Some((Piece::Byte(b'%'), behind)),
        [b'b', behind @ ..] => Some((Piece::Escapes, behind)),
        _ => take_conversion(bytes),
    }
}

fn take_escape(bytes: &[u8]) -> Option<(Piece, &[u8])>
    ensures { seen result ≡ pieces.escape_at bytes.now }
{
    match bytes {
        [] => None,
        [digit, ..] if is_octal(*digit) => match octal_byte(bytes) {
            Some((byte, rest)) => Some((Piece::Byte(byte), rest)),
            None => None,
        },
        [letter, behind @ ..] => match letter_escape(*letter) {
            Some(byte) => Some((Piece::Byte(byte), behind)),
            None => None,
        },
    }
}

fn take_piece(bytes: &[u8]) -> Option<(Piece, &[u8])>
    ensures { seen result ≡ pieces.piece_at bytes.now }
{
    match bytes {
        [] => None,
        [b'\\', behind @ ..] => take_escape(behind),
        [b'%', behind @ ..] => take_percent(behind),
        [byte, behind @ ..] => Some((Piece::Byte(*byte), behind)),
    }
}

/// The pieces at the front of a text, and what stands where no piece reads.
pub fn read_pieces(alloc: Global, format: &[u8]) -> Result<(List<Piece>, &[u8]), Memory>
    ensures pieces { IfOk result (λ read. read.0 ≡ (pieces.pieces format.now).0) }
    ensures rest { IfOk result (λ read. read.1.now ≡ (pieces.pieces format.now).1) }
    ensures bound { IfOk result (λ read. length read.1.now ≤ length format.now) }
{
    let mut read = List::new(alloc);
    let mut rest = format;
    'pieces: while let Some((piece, behind)) = take_piece(rest) {
        read.push(piece)?;
        rest = behind;
    }
    Ok((read, rest))
}
