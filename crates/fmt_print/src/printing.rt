//! Passes over the arguments.

ghost use Rattle.std.specs.Prelude.{◌≡◌, ◌+◌, ◌≤◌, ◌<◌, ℕ, [], ◌∷◌, length, drop, count_by, IfOk};
ghost use Rattle.fmt_print.specs.Pieces.{begins_dash as begins_dash_of};
ghost use Rattle.fmt_print.specs.Printing as printing;

use crate::Printed;
use crate::constants::constant;
use crate::escapes::{Dialect, expand};
use crate::fault::FmtFault;
use crate::fields::{bytes_text, number_text};
use crate::pieces::{Conversion, Kind, Piece, read_pieces};
use span_text::{List, Memory, Text};
use std::alloc::Global;

fn is_bytes(kind: Kind) -> bool
    ensures { result ≡ printing.is_bytes kind }
{
    match kind {
        Kind::Bytes => true,
        _ => false,
    }
}

fn field_shows(
    alloc: Global,
    conversion: Conversion,
    argument: &[u8],
) -> Result<Option<Printed>, Memory>
    ensures { IfOk result (λ shown. shown ≡ printing.field_shows conversion argument.now) }
{
    let text = if is_bytes(conversion.kind) {
        bytes_text(alloc, conversion, argument)?
    } else {
        match constant(argument) {
            Some(number) => number_text(alloc, conversion, number)?,
            None => return Ok(None),
        }
    };
    Ok(Some(Printed { text, cut: false }))
}

/// What a piece prints of an argument, or None where it doesn't take it.
fn shows(alloc: Global, piece: Piece, argument: &[u8]) -> Result<Option<Printed>, Memory>
    ensures { IfOk result (λ shown. shown ≡ printing.shows piece argument.now) }
{
    match piece {
        Piece::Byte(byte) => Ok(Some(Printed {
            text: Text::copy(alloc, &[byte])?,
            cut: false,
        })),
        Piece::Field(conversion) => field_shows(alloc, conversion, argument),
        Piece::Escapes => expand(alloc, Dialect::Printf, argument),
    }
}

fn missing(piece: Piece) -> &'static [u8]
    ensures { result.now ≡ printing.missing piece }
{
    match piece {
        Piece::Field(conversion) => { if is_bytes(conversion.kind) { b"" } else { b"0" } }
        _ => b"",
    }
}

fn fault_of(piece: Piece, k: usize) -> FmtFault
    ensures { result ≡ printing.fault_of piece k }
{
    match piece {
        Piece::Escapes => FmtFault::BadEscape(k),
        _ => FmtFault::BadNumber(k),
    }
}

fn takes_argument(piece: Piece) -> bool
    ensures { result ≡ printing.takes_argument piece }
{
    match piece {
        Piece::Byte(_) => false,
        _ => true,
    }
}

/// How many arguments are used, and whether a `\c` has ended the output.
#[derive(Clone, Copy, Debug, PartialEq, Eq)]
struct Pass {
    used: usize,
    cut: bool,
}

/// The next argument, for a piece that takes one, and how many are used then.
fn argument_of<'a>(piece: Piece, arguments: &'a List<Text>, used: usize) -> (&'a [u8], usize)
    requires { used ≤ length arguments.now }
    ensures argument { printing.Argument piece arguments.now used result.0.now result.1 }
    ensures bound { result.1 ≤ length arguments.now }
{
    if takes_argument(piece) && used < arguments.len() {
        (arguments.at(used).bytes(), used + 1)
    } else {
        (missing(piece), used)
    }
}

fn print_piece(
    alloc: Global,
    piece: Piece,
    arguments: &List<Text>,
    used: usize,
    text: &mut Text,
) -> Result<Pass, FmtFault>
    requires { used ≤ length arguments.now }
    ensures { printing.Prints arguments.now text.old used (piece ∷ []) result text.new }
{
    let (argument, after) = argument_of(piece, arguments, used);
    let Some(shown) = shows(alloc, piece, argument)? else {
        return Err(fault_of(piece, used));
    };
    text.append(shown.text.bytes())?;
    Ok(Pass {
        used: after,
        cut: shown.cut,
    })
}

fn print_pass(
    alloc: Global,
    pieces: &[Piece],
    arguments: &List<Text>,
    from: usize,
    text: &mut Text,
) -> Result<Pass, FmtFault>
    requires { from ≤ length arguments.now }
    ensures { printing.Prints arguments.now text.old from pieces.now result text.new }
{
    let mut used = from;
    for piece in pieces {
        let pass = print_piece(alloc, *piece, arguments, used, text)?;
        if pass.cut {
            return Ok(pass);
        }
        used = pass.used;
    }
    Ok(Pass { used, cut: false })
}

fn takers(pieces: &[Piece]) -> usize
    ensures { result ≡ count_by printing.takes_argument pieces.now }
{
    pieces
        .iter()
        .filter(|piece| takes_argument(**piece))
        .count()
}

/// How often the format is used.
fn passes(takers: usize, arguments: usize) -> usize
    ensures { result ≡ printing.passes takers arguments }
{
    if takers == 0 {
        1
    } else {
        arguments.div_ceil(takers).max(1)
    }
}

fn print_passes(
    alloc: Global,
    pieces: &[Piece],
    arguments: &List<Text>,
) -> Result<Printed, FmtFault>
    ensures { printing.Answers result (printing.prints_all pieces.now arguments.now) }
{
    let mut text = Text::new(alloc);
    let mut used = 0;
    let count = passes(takers(pieces), arguments.len());
    for done in 0..count {
        let pass = print_pass(alloc, pieces, arguments, used, &mut text)?;
        if pass.cut {
            return Ok(Printed { text, cut: true });
        }
        used = pass.used;
    }
    Ok(Printed { text, cut: false })
}

fn begins_dash(format: &[u8]) -> bool
    ensures { result ≡ begins_dash_of format.now }
{
    match format {
        [b'-', ..] => true,
        _ => false,
    }
}

/// What the built-in `printf` prints by this format (the manual's "Bash Builtin Commands"). The format is used
/// again while arguments are left; missing arguments are empty, or 0 where a number is wanted. A `\c` in an
/// argument of `%b` ends all output, and nothing behind it is looked at.
///
/// `BadFormat` comes first, with the offset of the first byte, escape or conversion that a format may not have (0
/// where it begins with `-`). Else `BadNumber` and `BadEscape` come with the index of the first argument that its
/// conversion doesn't take.
pub fn format(alloc: Global, fmt: &[u8], args: &List<Text>) -> Result<Printed, FmtFault>
    ensures { printing.Answers result (printing.formatted fmt.now args.now) }
{
    if begins_dash(fmt) {
        return Err(FmtFault::BadFormat(0));
    }
    let (pieces, rest) = read_pieces(alloc, fmt)?;
    if !rest.is_empty() {
        return Err(FmtFault::BadFormat(fmt.len() - rest.len()));
    }
    print_passes(alloc, pieces.as_slice(), args)
}
