//! Reading cells: each function takes one more, or stops where it can't stand there.

ghost use Rattle.std.specs.Prelude.{◌≡◌, Bool, true, false, List, [], ◌∷◌, ◌++◌, Option, Some, None, if◌then◌else◌};
ghost use Rattle.span_text.specs.Names as names;
ghost use Rattle.span_text.specs.ExprTokens as cells;
ghost use Rattle.arith64.specs.Parsing.{Gives};
ghost use Rattle.arith64.specs.Reader as reading;
ghost use Rattle.arith64.specs.declared.pending.Pending.TheVariants as pending;

use crate::fault::Stop;
use crate::frames::{Frames, Parser, Slot};
use crate::parser::{accept, take_indexed, take_name, take_number, take_operand, take_sign};
use crate::pending::{
    Digits, Pending, first_digit, longer, may_grow, next_digit, sign_of, value_of_digits,
};
use span_text::{BinOp, Class, Expr, Infix, Sign, Text, is_in};
use std::alloc::Global;

/// Where reading is.
#[derive(Drop)]
pub(crate) struct Reader {
    /// A backslash came, which a newline has to follow.
    pub(crate) joins: bool,
    pub(crate) pending: Pending,
    pub(crate) parser: Parser,
}

pub(crate) fn at_start(alloc: Global) -> Reader
    ensures { result ≡ reading.at_start }
{
    Reader {
        joins: false,
        pending: Pending::Gap,
        parser: Parser {
            frames: Frames::new(alloc),
            slot: Slot::Wanted,
        },
    }
}

fn is_prefix(sign: Sign) -> bool
    ensures { result ≡ reading.is_prefix sign }
{
    matches!(
        sign,
        Sign::Between(Infix::Plain(BinOp::Add | BinOp::Subtract)) | Sign::Not
    )
}

/// Whether a sign that may grow, or one that it becomes, may stand here.
fn opens(slot: &Slot, sign: Sign) -> bool
    ensures { result ≡ reading.opens slot.now sign }
{
    match slot {
        Slot::Wanted => is_prefix(sign),
        Slot::Stepping(_) => false,
        Slot::Held(..) => true,
    }
}

fn wants_operand(slot: &Slot) -> bool
    ensures { result ≡ reading.wants_operand slot.now }
{
    match slot {
        Slot::Wanted => true,
        Slot::Stepping(_) | Slot::Held(..) => false,
    }
}

fn wants_variable(slot: &Slot) -> bool
    ensures { result ≡ reading.wants_variable slot.now }
{
    match slot {
        Slot::Wanted | Slot::Stepping(_) => true,
        Slot::Held(..) => false,
    }
}

#[tactic(auto, unfolding(span_text::specs::ExprTokens::is_gap))]
fn is_gap(byte: u8) -> bool
    ensures { result ≡ cells.is_gap byte }
{
    byte == b' ' || byte == b'\t' || byte == b'\n'
}

fn enter_name(alloc: Global, parser: Parser, byte: u8) -> Result<(Pending, Parser), Stop>
    ensures { Gives result (if reading.wants_variable parser.slot then Some (pending.Name (byte ∷ []), parser) else None) }
{
    if wants_variable(&parser.slot) {
        Ok((Pending::Name(Text::copy(alloc, &[byte])?), parser))
    } else {
        Err(Stop::Bad)
    }
}

fn enter_number(parser: Parser, byte: u8) -> Result<(Pending, Parser), Stop>
    requires { names.is_digit byte ≡ true }
    ensures { Gives result (if reading.wants_operand parser.slot then Some (pending.Number (reading.first_digit byte), parser) else None) }
{
    if wants_operand(&parser.slot) {
        Ok((Pending::Number(first_digit(byte)), parser))
    } else {
        Err(Stop::Bad)
    }
}

/// The first byte of a name or a constant.
fn enter_word(alloc: Global, parser: Parser, byte: u8) -> Result<(Pending, Parser), Stop>
    requires { names.continues_name byte ≡ true }
    ensures { Gives result (reading.enter_word parser byte) }
{
    if is_in(Class::NameFirst, byte) {
        enter_name(alloc, parser, byte)
    } else {
        enter_number(parser, byte)
    }
}

/// A sign that came; it waits, where one byte more may make it longer.
fn enter_sign(alloc: Global, parser: Parser, sign: Sign) -> Result<(Pending, Parser), Stop>
    ensures { Gives result (reading.enter_sign parser sign) }
{
    if !may_grow(sign) {
        return Ok((Pending::Gap, take_sign(alloc, parser, sign)?));
    }
    if opens(&parser.slot, sign) {
        Ok((Pending::Operator(sign), parser))
    } else {
        Err(Stop::Bad)
    }
}

/// A byte behind nothing that was begun.
fn start(alloc: Global, parser: Parser, byte: u8) -> Result<(Pending, Parser), Stop>
    ensures { Gives result (reading.start parser (cells.byte byte)) }
{
    if is_gap(byte) {
        return Ok((Pending::Gap, parser));
    }
    if is_in(Class::NameRest, byte) {
        return enter_word(alloc, parser, byte);
    }
    match sign_of(byte) {
        Some(sign) => enter_sign(alloc, parser, sign),
        None => Err(Stop::Bad),
    }
}

fn finish_number(alloc: Global, parser: Parser, digits: Digits) -> Result<Parser, Stop>
    ensures { Gives result (reading.finish parser (pending.Number digits)) }
{
    match value_of_digits(digits) {
        Some(value) => take_number(alloc, parser, value),
        None => Err(Stop::Bad),
    }
}

/// What was begun is over.
fn finish(alloc: Global, parser: Parser, pending: Pending) -> Result<Parser, Stop>
    ensures { Gives result (reading.finish parser pending) }
{
    match pending {
        Pending::Gap => Ok(parser),
        Pending::Name(name) => take_name(alloc, parser, name),
        Pending::Number(digits) => finish_number(alloc, parser, digits),
        Pending::Operator(sign) => take_sign(alloc, parser, sign),
    }
}

/// A byte behind what was begun, which it doesn't make longer.
fn flush(
    alloc: Global,
    parser: Parser,
    pending: Pending,
    byte: u8,
) -> Result<(Pending, Parser), Stop>
    ensures { Gives result (reading.flush parser pending (cells.byte byte)) }
{
    let parser = finish(alloc, parser, pending)?;
    start(alloc, parser, byte)
}

fn longer_name(name: Text, byte: u8) -> Result<Text, Stop>
    ensures { Gives result (Some (name ++ byte ∷ [])) }
{
    let mut name = name;
    name.append(&[byte])?;
    Ok(name)
}

fn more_name(alloc: Global, parser: Parser, name: Text, byte: u8) -> Result<(Pending, Parser), Stop>
    ensures { Gives result (reading.more_name parser name byte) }
{
    if is_in(Class::NameRest, byte) {
        return Ok((Pending::Name(longer_name(name, byte)?), parser));
    }
    if byte == b'[' {
        return Ok((Pending::Gap, take_indexed(parser, name)?));
    }
    flush(alloc, parser, Pending::Name(name), byte)
}

fn more_number(
    alloc: Global,
    parser: Parser,
    digits: Digits,
    byte: u8,
) -> Result<(Pending, Parser), Stop>
    ensures { Gives result (reading.more_number parser digits byte) }
{
    if !is_in(Class::NameRest, byte) {
        return flush(alloc, parser, Pending::Number(digits), byte);
    }
    match next_digit(digits, byte) {
        Some(digits) => Ok((Pending::Number(digits), parser)),
        None => Err(Stop::Bad),
    }
}

fn more_sign(alloc: Global, parser: Parser, sign: Sign, byte: u8) -> Result<(Pending, Parser), Stop>
    ensures { Gives result (reading.more_sign parser sign (cells.longer sign byte) byte) }
{
    match longer(sign, byte) {
        Some(longer) => enter_sign(alloc, parser, longer),
        None => flush(alloc, parser, Pending::Operator(sign), byte),
    }
}

/// A byte that is part of no join.
fn step(
    alloc: Global,
    parser: Parser,
    pending: Pending,
    byte: u8,
) -> Result<(Pending, Parser), Stop>
    ensures { Gives result (reading.step parser pending (cells.byte byte)) }
{
    match pending {
        Pending::Gap => start(alloc, parser, byte),
        Pending::Name(name) => more_name(alloc, parser, name, byte),
        Pending::Number(digits) => more_number(alloc, parser, digits, byte),
        Pending::Operator(sign) => more_sign(alloc, parser, sign, byte),
    }
}

/// The byte behind a backslash.
fn joined(reader: Reader, byte: u8) -> Result<Reader, Stop>
    requires { reader.joins ≡ true }
    ensures { Gives result (reading.read_cell reader (cells.byte byte)) }
{
    if byte != b'\n' {
        return Err(Stop::Bad);
    }
    let Reader {
        pending,
        parser,
        ..
    } = reader;
    Ok(Reader {
        joins: false,
        pending,
        parser,
    })
}

/// Takes a byte outside the expansions.
pub(crate) fn read_byte(alloc: Global, reader: Reader, byte: u8) -> Result<Reader, Stop>
    ensures { Gives result (reading.read_cell reader (cells.byte byte)) }
{
    if reader.joins {
        return joined(reader, byte);
    }
    let Reader {
        pending,
        parser,
        ..
    } = reader;
    if byte == b'\\' {
        return Ok(Reader {
            joins: true,
            pending,
            parser,
        });
    }
    let (pending, parser) = step(alloc, parser, pending, byte)?;
    Ok(Reader {
        joins: false,
        pending,
        parser,
    })
}

/// Takes an expansion that stands as one operand.
pub(crate) fn read_operand(alloc: Global, reader: Reader, number: u32) -> Result<Reader, Stop>
    ensures { Gives result (reading.read_cell reader (cells.expansion number)) }
{
    let Reader {
        joins,
        pending,
        parser,
    } = reader;
    if joins {
        return Err(Stop::Bad);
    }
    let parser = finish(alloc, parser, pending)?;
    Ok(Reader {
        joins: false,
        pending: Pending::Gap,
        parser: take_operand(alloc, parser, number)?,
    })
}

/// The expression, where the text ends here.
pub(crate) fn read_end(alloc: Global, reader: Reader) -> Result<Expr, Stop>
    ensures { Gives result (reading.read_end reader) }
{
    let Reader {
        joins,
        pending,
        parser,
    } = reader;
    if joins {
        return Err(Stop::Bad);
    }
    let parser = finish(alloc, parser, pending)?;
    accept(alloc, parser)
}
