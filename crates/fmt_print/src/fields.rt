//! What a conversion prints of its argument.

ghost use Rattle.std.specs.Prelude.{◌≡◌, ◌++◌, decimal, replicate, IfOk};
ghost use Rattle.fmt_print.specs.Fields as fields;

use crate::constants::Number;
use crate::pieces::{Conversion, Flags, Kind};
use itoa::Buffer;
use span_text::{Memory, Text};
use std::alloc::Global;

/// The number modulo 2^64.
fn wrapped(number: Number) -> u64
    ensures { result ≡ fields.wrapped number }
{
    if number.negative {
        number.size.wrapping_neg()
    } else {
        number.size
    }
}

fn decimal_of(alloc: Global, number: u64) -> Result<Text, Memory>
    ensures { IfOk result (λ text. text ≡ decimal number) }
{
    let mut buffer = Buffer::new();
    Text::copy(alloc, buffer.format(number).as_bytes())
}

fn figures(alloc: Global, kind: Kind, number: Number) -> Result<Text, Memory>
    ensures { IfOk result (λ text. text ≡ fields.figures kind number) }
{
    let value = wrapped(number);
    match kind {
        Kind::Decimal => decimal_of(alloc, number.size),
        Kind::Unsigned => decimal_of(alloc, value),
        Kind::Octal => Text::copy(alloc, format!(in alloc; "{value:o}")?.as_bytes()),
        Kind::LowerHex => Text::copy(alloc, format!(in alloc; "{value:x}")?.as_bytes()),
        Kind::UpperHex => Text::copy(alloc, format!(in alloc; "{value:X}")?.as_bytes()),
        Kind::Bytes => Ok(Text::new(alloc)),
    }
}

/// `+` wins over space.
fn plus_sign(flags: Flags) -> &'static [u8]
    ensures { result.now ≡ fields.plus_sign flags }
{
    if flags.plus {
        b"+"
    } else if flags.space {
        b" "
    } else {
        b""
    }
}

fn sign_of(kind: Kind, flags: Flags, number: Number) -> &'static [u8]
    ensures { result.now ≡ fields.sign_of kind flags number }
{
    match kind {
        Kind::Decimal => {
            if number.negative && number.size > 0 {
                b"-"
            } else {
                plus_sign(flags)
            }
        }
        _ => b"",
    }
}

/// Bytes of one value.
fn run_of(alloc: Global, byte: u8, count: usize) -> Result<Text, Memory>
    ensures { IfOk result (λ text. text ≡ replicate count byte) }
{
    let bytes = vec![in alloc; byte; count]?;
    Ok(Text::from_vec(bytes))
}

fn joined(alloc: Global, first: &[u8], second: &[u8], third: &[u8]) -> Result<Text, Memory>
    ensures { IfOk result (λ text. text ≡ first.now ++ (second.now ++ third.now)) }
{
    let mut text = Text::copy(alloc, first)?;
    text.append(second)?;
    text.append(third)?;
    Ok(text)
}

/// The digits with the zeros that a precision asks for; with precision 0 the number 0 has no digit.
fn with_zeros(
    alloc: Global,
    precision: Option<usize>,
    size: u64,
    figures: Text,
) -> Result<Text, Memory>
    ensures { IfOk result (λ text. text ≡ fields.with_zeros precision size figures) }
{
    let Some(precision) = precision else {
        return Ok(figures);
    };
    if precision == 0 && size == 0 {
        return Ok(Text::new(alloc));
    }
    let mut zeros = run_of(alloc, b'0', precision.saturating_sub(figures.bytes().len()))?;
    zeros.append(figures.bytes())?;
    Ok(zeros)
}

/// The sign and the body in a field of this width.
fn filled(
    alloc: Global,
    left: bool,
    zeros: bool,
    width: usize,
    sign: &[u8],
    body: &[u8],
) -> Result<Text, Memory>
    ensures { IfOk result (λ text. text ≡ fields.filled left zeros width sign.now body.now) }
{
    let count = width.saturating_sub(sign.len()).saturating_sub(body.len());
    let fill = run_of(alloc, if zeros { b'0' } else { b' ' }, count)?;
    if left {
        joined(alloc, sign, body, fill.bytes())
    } else if zeros {
        joined(alloc, sign, fill.bytes(), body)
    } else {
        joined(alloc, fill.bytes(), sign, body)
    }
}

/// `-` and a precision win over `0`.
fn fills_zeros(conversion: Conversion) -> bool
    ensures { result ≡ fields.fills_zeros conversion }
{
    conversion.flags.zero && !conversion.flags.left && conversion.precision.is_none()
}

pub fn number_text(alloc: Global, conversion: Conversion, number: Number) -> Result<Text, Memory>
    ensures { IfOk result (λ text. text ≡ fields.number_text conversion number) }
{
    let figures = figures(alloc, conversion.kind, number)?;
    let body = with_zeros(alloc, conversion.precision, number.size, figures)?;
    let sign = sign_of(conversion.kind, conversion.flags, number);
    filled(
        alloc,
        conversion.flags.left,
        fills_zeros(conversion),
        conversion.width,
        sign,
        body.bytes(),
    )
}

/// The first bytes of a text, as many as a precision allows.
fn shortened(precision: Option<usize>, text: &[u8]) -> &[u8]
    ensures { result.now ≡ fields.shortened precision text.now }
{
    match precision {
        Some(most) if most < text.len() => &text[..most],
        _ => text,
    }
}

pub fn bytes_text(alloc: Global, conversion: Conversion, text: &[u8]) -> Result<Text, Memory>
    ensures { IfOk result (λ text_of. text_of ≡ fields.bytes_text conversion text.now) }
{
    let body = shortened(conversion.precision, text);
    filled(
        alloc,
        conversion.flags.left,
        false,
        conversion.width,
        b"",
        body,
    )
}
