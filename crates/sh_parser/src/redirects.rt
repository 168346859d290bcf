//! Redirections (POSIX 2.7).

ghost use Rattle.std.specs.Prelude.{◌≡◌, map, Some, if◌then◌else◌};
ghost use Rattle.text_grammar.specs.Grammar.{step};
ghost use Rattle.text_grammar.specs.Values.{stepped};
ghost use Rattle.sh_grammar.specs.Tokens as tokens;
ghost use Rattle.sh_grammar.specs.Table as table;
ghost use Rattle.sh_grammar.specs.Steps as steps;
ghost use Rattle.sh_grammar.specs.Steps.{Known};
ghost use Rattle.sh_syntax.specs.View.{parts_of, view_part, view_operator};
ghost use Rattle.sh_parser.specs.Answers.{Gives};
ghost use Rattle.sh_parser.specs.Views as views_of;
ghost use Rattle.sh_parser.specs.Views.{state};
ghost use Rattle.sh_parser.specs.Values.{optional_nodes};
ghost use Rattle.sh_parser.specs.Tables as tables;
ghost use Rattle.sh_parser.specs.Owing.{owed_of};
ghost use Rattle.sh_grammar.specs.Shape as shape;
ghost use Rattle.std.specs.Prelude.{◌+◌};

use crate::bodies::Owed;
use crate::class::{Context, is_digit, unit_starts};
use crate::delimiters::delimiter_for;
use crate::fault::Stop;
use crate::gaps::{clear, gap};
use crate::notes::{Notes, part_of_kind, word_of_parts};
use crate::steps::word_place;
use crate::table::RedirectStep;
use crate::tokens::{Op, is_token, token};
use crate::values::Value;
use sh_syntax::{Part, PartKind, RedirectOp};
use span_text::{List, Text};
use std::alloc::Global;

/// The steps of redirections.
pub fn take_redirect<'a>(
    alloc: Global,
    step: RedirectStep,
    bytes: &'a [u8],
    notes: &Notes,
) -> Result<(Option<Value>, &'a [u8]), Stop>
    ensures { (k : Known) → Gives (λ x. (optional_nodes x.0, state x.1.now notes.now)) result (stepped (steps.run_step k (tables.redirect_step step) (state bytes.now notes.now))) }
{
    match step {
        RedirectStep::Descriptor => descriptor_of(bytes, notes),
        RedirectStep::FileOp => file_op_step(bytes, notes),
        RedirectStep::Copy => copy_of(alloc, bytes, notes),
    }
}

/// The digit before `<` or `>`.
#[tactic(auto, unfolding(sh_grammar::specs::Steps::run_step))]
fn descriptor_of<'a>(bytes: &'a [u8], notes: &Notes) -> Result<(Option<Value>, &'a [u8]), Stop>
    ensures { (k : Known) → Gives (λ x. (optional_nodes x.0, state x.1.now notes.now)) result (stepped (steps.run_step k table.descriptor (state bytes.now notes.now))) }
{
    match gap(bytes) {
        [] => Err(Stop::Bad),
        [b, rest @ ..] => Ok((Some(Value::Digit(b.saturating_sub(b'0'))), rest)),
    }
}

/// `<`, `>` or `>>`.
fn file_op_of(bytes: &[u8]) -> Result<(RedirectOp, &[u8]), Stop>
    ensures { Gives (λ x. (view_operator x.0, x.1.now)) result (views_of.file_op (tokens.token bytes.now)) }
{
    let (op, rest) = token(bytes);
    match op {
        Op::Less => Ok((RedirectOp::Read, rest)),
        Op::Great => Ok((RedirectOp::Write, rest)),
        Op::DGreat => Ok((RedirectOp::Append, rest)),
        Op::End => Err(Stop::Bad),
        Op::Newline => Err(Stop::Bad),
        Op::Semi => Err(Stop::Bad),
        Op::SemiSemi => Err(Stop::Bad),
        Op::AndIf => Err(Stop::Bad),
        Op::OrIf => Err(Stop::Bad),
        Op::Pipe => Err(Stop::Bad),
        Op::Open => Err(Stop::Bad),
        Op::Close => Err(Stop::Bad),
        Op::DLess => Err(Stop::Bad),
        Op::DLessDash => Err(Stop::Bad),
        Op::LessAnd => Err(Stop::Bad),
        Op::GreatAnd => Err(Stop::Bad),
        Op::Io => Err(Stop::Bad),
        Op::Word => Err(Stop::Bad),
        Op::Other => Err(Stop::Bad),
    }
}

#[tactic(auto, unfolding(sh_grammar::specs::Steps::run_step))]
fn file_op_step<'a>(bytes: &'a [u8], notes: &Notes) -> Result<(Option<Value>, &'a [u8]), Stop>
    ensures { (k : Known) → Gives (λ x. (optional_nodes x.0, state x.1.now notes.now)) result (stepped (steps.run_step k table.file_op (state bytes.now notes.now))) }
{
    let (op, rest) = file_op_of(bytes)?;
    Ok((Some(Value::Op(op)), rest))
}

/// `<&` or `>&`.
fn copy_op_of(bytes: &[u8]) -> Result<(RedirectOp, &[u8]), Stop>
    ensures { Gives (λ x. (view_operator x.0, x.1.now)) result (views_of.copy_op (tokens.token bytes.now)) }
{
    let (op, rest) = token(bytes);
    match op {
        Op::LessAnd => Ok((RedirectOp::CopyIn, rest)),
        Op::GreatAnd => Ok((RedirectOp::CopyOut, rest)),
        Op::End => Err(Stop::Bad),
        Op::Newline => Err(Stop::Bad),
        Op::Semi => Err(Stop::Bad),
        Op::SemiSemi => Err(Stop::Bad),
        Op::AndIf => Err(Stop::Bad),
        Op::OrIf => Err(Stop::Bad),
        Op::Pipe => Err(Stop::Bad),
        Op::Open => Err(Stop::Bad),
        Op::Close => Err(Stop::Bad),
        Op::Less => Err(Stop::Bad),
        Op::Great => Err(Stop::Bad),
        Op::DGreat => Err(Stop::Bad),
        Op::DLess => Err(Stop::Bad),
        Op::DLessDash => Err(Stop::Bad),
        Op::Io => Err(Stop::Bad),
        Op::Word => Err(Stop::Bad),
        Op::Other => Err(Stop::Bad),
    }
}

/// `<<`, or `<<-`, which strips.
fn here_op_of(bytes: &[u8]) -> Result<(bool, &[u8]), Stop>
    ensures { Gives (λ x. (x.0, x.1.now)) result (views_of.here_op (tokens.token bytes.now)) }
{
    let (op, rest) = token(bytes);
    match op {
        Op::DLess => Ok((false, rest)),
        Op::DLessDash => Ok((true, rest)),
        Op::End => Err(Stop::Bad),
        Op::Newline => Err(Stop::Bad),
        Op::Semi => Err(Stop::Bad),
        Op::SemiSemi => Err(Stop::Bad),
        Op::AndIf => Err(Stop::Bad),
        Op::OrIf => Err(Stop::Bad),
        Op::Pipe => Err(Stop::Bad),
        Op::Open => Err(Stop::Bad),
        Op::Close => Err(Stop::Bad),
        Op::Less => Err(Stop::Bad),
        Op::Great => Err(Stop::Bad),
        Op::DGreat => Err(Stop::Bad),
        Op::LessAnd => Err(Stop::Bad),
        Op::GreatAnd => Err(Stop::Bad),
        Op::Io => Err(Stop::Bad),
        Op::Word => Err(Stop::Bad),
        Op::Other => Err(Stop::Bad),
    }
}

/// A digit or `-` that is the whole word.
fn copied(bytes: &[u8]) -> Result<(u8, &[u8]), Stop>
    ensures { Gives (λ x. (x.0, x.1.now)) result (views_of.copied bytes.now) }
{
    match bytes {
        [] => Err(Stop::Bad),
        [b, rest @ ..] => if (is_digit(*b) || *b == b'-')
            && !unit_starts(Context::Word, clear(rest))
        {
            Ok((*b, rest))
        } else {
            Err(Stop::Bad)
        },
    }
}

#[tactic(auto, unfolding(sh_grammar::specs::Steps::run_step))]
fn copy_of<'a>(
    alloc: Global,
    bytes: &'a [u8],
    notes: &Notes,
) -> Result<(Option<Value>, &'a [u8]), Stop>
    ensures { (k : Known) → Gives (λ x. (optional_nodes x.0, state x.1.now notes.now)) result (stepped (steps.run_step k table.copy (state bytes.now notes.now))) }
{
    let (op, after) = copy_op_of(bytes)?;
    let place = word_place(after)?;
    let (b, rest) = copied(place)?;
    let parts = plain_parts(alloc, notes, Text::copy(alloc, &[b])?, place, rest)?;
    let word = word_of_parts(notes, parts, place, rest);
    Ok((Some(Value::Aimed(op, word)), rest))
}

/// The bytes as one part, or none.
#[tactic(auto, using(sh_syntax::proofs::Views::plain_is))]
pub fn plain_parts(
    alloc: Global,
    notes: &Notes,
    text: Text,
    from: &[u8],
    to: &[u8],
) -> Result<List<Part>, Stop>
    ensures { Gives (λ x. parts_of (map view_part x)) result (Some (steps.literal_parts text)) }
{
    let mut parts = List::new(alloc);
    if !text.bytes().is_empty() {
        parts.push(part_of_kind(notes, PartKind::Plain(text), from, to))?;
    }
    Ok(parts)
}

/// The body that is known of a here-document, if one is: so many are owed and so many came before it.
pub fn body_of(bodies: &[Text], owed: usize, found: usize) -> &[u8]
    ensures { result.now ≡ steps.nth bodies.now (owed + found) }
{
    if found >= bodies.len() {
        return b"";
    }
    if owed >= bodies.len() - found {
        return b"";
    }
    bodies[owed + found].bytes()
}

/// `<<` or `<<-`, and the delimiter.
pub fn here_front<'a>(alloc: Global, bytes: &'a [u8]) -> Result<(Owed, &'a [u8]), Stop>
    ensures { Gives (λ x. (owed_of x.0, x.1.now)) result (views_of.here_front bytes.now) }
{
    let (strips, after) = here_op_of(bytes)?;
    let place = word_place(after)?;
    let (delimiter, rest) = delimiter_for(alloc, strips, place)?;
    let owed = Owed {
        delimiter: delimiter.text,
        literal: delimiter.quoted,
        strips,
    };
    Ok((owed, rest))
}

/// The operator of a here-document whose delimiter is quoted or not.
pub fn here_operator(literal: bool) -> RedirectOp
    ensures { view_operator result ≡ (if literal then shape.here_literal else shape.here_expanded) }
{
    if literal {
        RedirectOp::HereLiteral
    } else {
        RedirectOp::HereExpanded
    }
}
