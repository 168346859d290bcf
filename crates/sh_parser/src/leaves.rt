//! Parts of words that hold no others.

ghost use Rattle.std.specs.Prelude.{◌≡◌, ◌∷◌, ◌&&◌, [], Some};
ghost use Rattle.text_grammar.specs.Values.{stepped};
ghost use Rattle.sh_grammar.specs.Bytes as bytes_of;
ghost use Rattle.sh_grammar.specs.State.{part_node};
ghost use Rattle.sh_grammar.specs.Table as table;
ghost use Rattle.sh_grammar.specs.Steps as steps;
ghost use Rattle.sh_grammar.specs.Steps.{Known};
ghost use Rattle.sh_parser.specs.Kinds as kinds;
ghost use Rattle.sh_parser.specs.Answers.{Gives};
ghost use Rattle.sh_parser.specs.Views as views_of;
ghost use Rattle.sh_parser.specs.Views.{state};
ghost use Rattle.sh_parser.specs.Values.{optional_nodes};
ghost use Rattle.std.specs.Prelude.{◌&&◌};
ghost use Rattle.sh_syntax.specs.View.{view_op, view_part_kind};
ghost use Rattle.sh_parser.specs.Heads as heads;

use crate::bodies::quoted_run;
use crate::class::{Context, has_double, has_single, is_escaped};
use crate::fault::Stop;
use crate::gaps::clear;
use crate::names::{is_byte, tilde_at};
use crate::notes::{LIMIT, Notes, param_of, part_of_kind};
use crate::params::{Head, dollar_head, dollar_param};
use crate::runs::{Run, is_bare_dollar, run_of};
use crate::steps::byte_of;
use crate::values::{Opening, Value};
use sh_syntax::{ParamOp, PartKind};
use span_text::Text;
use std::alloc::Global;

/// Whether `'..'` comes next.
pub fn single_begins(place: Context, bytes: &[u8]) -> bool
    ensures { result ≡ (bytes_of.has_single (kinds.context place) && steps.byte_next 39 bytes.now) }
{
    has_single(place) && is_byte(b'\'', clear(bytes))
}

/// Whether `".."` comes next.
pub fn double_begins(place: Context, bytes: &[u8]) -> bool
    ensures { result ≡ (bytes_of.has_double (kinds.context place) && steps.byte_next 34 bytes.now) }
{
    has_double(place) && is_byte(b'"', clear(bytes))
}

/// A part of a word.
fn said(notes: &Notes, kind: PartKind, from: &[u8], to: &[u8]) -> Option<Value>
    ensures { optional_nodes result ≡ part_node (view_part_kind kind) ∷ [] }
{
    Some(Value::Part(part_of_kind(notes, kind, from, to)))
}

#[tactic(auto, using(sh_syntax::proofs::Views::as_is_is, sh_syntax::proofs::Views::length_is))]
fn measured(length: bool) -> ParamOp
    ensures { view_op result ≡ heads.measured length }
{
    if length {
        ParamOp::Length
    } else {
        ParamOp::Plain
    }
}

/// The byte that a backslash before these bytes quotes, and what follows it.
fn first_escaped(place: Context, bytes: &[u8]) -> Result<(u8, &[u8]), Stop>
    ensures { Gives (λ x. (x.0, x.1.now)) result (views_of.escaped_first (kinds.context place) bytes.now) }
{
    match bytes {
        [] => Err(Stop::Bad),
        [b, rest @ ..] => if is_escaped(place, *b) {
            Ok((*b, rest))
        } else {
            Err(Stop::Bad)
        },
    }
}

fn byte_text(alloc: Global, b: u8) -> Result<Text, Stop>
    ensures { Gives (λ x. x) result (Some (b ∷ [])) }
{
    Ok(Text::copy(alloc, &[b])?)
}

fn starts_escaped(place: Context, bytes: &[u8]) -> bool
    ensures { result ≡ bytes_of.starts (bytes_of.is_escaped (kinds.context place)) bytes.now }
{
    match bytes {
        [] => false,
        [b, ..] => is_escaped(place, *b),
    }
}

/// Whether a backslash and a byte that it quotes come next.
pub fn escape_begins(place: Context, bytes: &[u8]) -> bool
    ensures { result ≡ steps.escaped_behind (kinds.context place) bytes.now }
{
    match bytes {
        [] => false,
        [b, after @ ..] => *b == b'\\' && starts_escaped(place, after),
    }
}

/// Whether an expansion comes next.
pub fn expansion_begins(bytes: &[u8]) -> bool
    ensures { result ≡ steps.dollar_behind bytes.now }
{
    match bytes {
        [] => false,
        [b, after @ ..] => *b == b'$' && !is_bare_dollar(after),
    }
}

#[tactic(auto, unfolding(sh_grammar::specs::Steps::run_step), using(sh_syntax::proofs::Views::tilde_is))]
pub fn tilde_of<'a>(bytes: &'a [u8], notes: &Notes) -> Result<(Option<Value>, &'a [u8]), Stop>
    ensures { (k : Known) → Gives (λ x. (optional_nodes x.0, state x.1.now notes.now)) result (stepped (steps.run_step k table.tilde (state bytes.now notes.now))) }
{
    match tilde_at(clear(bytes)) {
        None => Err(Stop::Bad),
        Some(rest) => Ok((said(notes, PartKind::Tilde, bytes, rest), rest)),
    }
}

#[tactic(auto, unfolding(sh_grammar::specs::Steps::run_step, sh_grammar::specs::Bytes::literal_run), using(sh_syntax::proofs::Views::plain_is))]
pub fn literal_of<'a>(
    alloc: Global,
    place: Context,
    bytes: &'a [u8],
    notes: &Notes,
) -> Result<(Option<Value>, &'a [u8]), Stop>
    ensures { (k : Known) → Gives (λ x. (optional_nodes x.0, state x.1.now notes.now)) result (stepped (steps.run_step k (table.literal (kinds.context place)) (state bytes.now notes.now))) }
{
    let (text, rest) = run_of(alloc, Run::Literal(place), clear(bytes))?;
    if text.bytes().is_empty() {
        return Err(Stop::Bad);
    }
    Ok((said(notes, PartKind::Plain(text), bytes, rest), rest))
}

#[tactic(auto, unfolding(sh_grammar::specs::Steps::run_step), using(sh_syntax::proofs::Views::exact_is, crate::proofs::Escapes::escaped_is, crate::proofs::Escapes::escaped_none))]
pub fn escaped_of<'a>(
    alloc: Global,
    place: Context,
    bytes: &'a [u8],
    notes: &Notes,
) -> Result<(Option<Value>, &'a [u8]), Stop>
    ensures { (k : Known) → Gives (λ x. (optional_nodes x.0, state x.1.now notes.now)) result (stepped (steps.run_step k (table.escaped (kinds.context place)) (state bytes.now notes.now))) }
{
    let after = byte_of(b'\\', bytes)?;
    let (b, rest) = first_escaped(place, after)?;
    let text = byte_text(alloc, b)?;
    Ok((said(notes, PartKind::Exact(text), bytes, rest), rest))
}

#[tactic(auto, unfolding(sh_grammar::specs::Steps::run_step), using(sh_syntax::proofs::Views::exact_is))]
pub fn exact_of<'a>(
    alloc: Global,
    bytes: &'a [u8],
    notes: &Notes,
) -> Result<(Option<Value>, &'a [u8]), Stop>
    ensures { (k : Known) → Gives (λ x. (optional_nodes x.0, state x.1.now notes.now)) result (stepped (steps.run_step k table.exact (state bytes.now notes.now))) }
{
    let inside = byte_of(b'\'', bytes)?;
    let (text, rest) = quoted_run(alloc, inside)?;
    Ok((said(notes, PartKind::Exact(text), bytes, rest), rest))
}

#[tactic(auto, unfolding(sh_grammar::specs::Steps::run_step), using(sh_syntax::proofs::Views::param_is, sh_syntax::proofs::Views::as_is_is))]
pub fn dollar_of<'a>(
    alloc: Global,
    bytes: &'a [u8],
    notes: &Notes,
) -> Result<(Option<Value>, &'a [u8]), Stop>
    ensures { (k : Known) → Gives (λ x. (optional_nodes x.0, state x.1.now notes.now)) result (stepped (steps.run_step k table.dollar (state bytes.now notes.now))) }
{
    let Some((found, rest)) = dollar_param(bytes) else {
        return Err(Stop::Bad);
    };
    let param = param_of(alloc, notes, found)?;
    let kind = PartKind::Param {
        param,
        op: ParamOp::Plain,
    };
    Ok((said(notes, kind, bytes, rest), rest))
}

#[tactic(auto, unfolding(sh_grammar::specs::Steps::run_step), using(sh_syntax::proofs::Views::param_is))]
pub fn closed_of<'a>(
    alloc: Global,
    bytes: &'a [u8],
    notes: &Notes,
) -> Result<(Option<Value>, &'a [u8]), Stop>
    ensures { (k : Known) → Gives (λ x. (optional_nodes x.0, state x.1.now notes.now)) result (stepped (steps.run_step k table.closed (state bytes.now notes.now))) }
{
    if notes.depth >= LIMIT {
        return Err(Stop::Bad);
    }
    let Some((Head::Closed { param, length }, rest)) = dollar_head(bytes) else {
        return Err(Stop::Bad);
    };
    let param = param_of(alloc, notes, param)?;
    let op = measured(length);
    Ok((
        said(notes, PartKind::Param { param, op }, bytes, rest),
        rest,
    ))
}

/// `${a-`, `${a%%`: the front before a word.
#[tactic(auto, unfolding(sh_grammar::specs::Steps::run_step))]
pub fn head_of<'a>(
    alloc: Global,
    bytes: &'a [u8],
    notes: &Notes,
) -> Result<(Option<Value>, &'a [u8]), Stop>
    ensures { (k : Known) → Gives (λ x. (optional_nodes x.0, state x.1.now notes.now)) result (stepped (steps.run_step k table.open_head (state bytes.now notes.now))) }
{
    match dollar_head(bytes) {
        Some((Head::Filling { param, test, colon }, rest)) => {
            let param = param_of(alloc, notes, param)?;
            let opening = Opening::Filling { param, test, colon };
            Ok((Some(Value::Opening(opening)), rest))
        }
        Some(
            (
                Head::Trimming {
                    param,
                    suffix,
                    longest,
                },
                rest,
            ),
        ) => {
            let param = param_of(alloc, notes, param)?;
            let opening = Opening::Trimming {
                param,
                suffix,
                longest,
            };
            Ok((Some(Value::Opening(opening)), rest))
        }
        Some((Head::Closed { .. }, _)) => Err(Stop::Bad),
        None => Err(Stop::Bad),
    }
}
