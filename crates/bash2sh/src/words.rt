//! Reads the words of a line.

ghost use Rattle.std.specs.Prelude.{◌≡◌, map, length, suc, MatchOption, Some, None};
ghost use Rattle.bash_tree.specs.View.{view_part, view_word};
ghost use Rattle.bash2sh.specs.Model.{Gives, param_at, quoted_run_at, quoted_part_at, quoted_parts_at, exact_at, double_at, plain_at, part_at, parts_at, word_at, words_at, is_quote, behind};
ghost use Rattle.span_text.specs.Scanning.{starts};
ghost use Rattle.bash2sh.specs.Views.{parts_seen, words_seen};

use crate::fault::Stop;
use bash_tree::{Name, Param, ParamOp, Part, PartKind, Word};
use span_text::{Class, List, Span, Text, is_started, is_word_end, run};
use std::alloc::Global;

/// The span between two suffixes of a line that ends at this offset.
pub fn span(end: usize, from: &[u8], to: &[u8]) -> Span {
    Span {
        from: offset(end, from),
        to: offset(end, to),
    }
}

fn offset(end: usize, rest: &[u8]) -> u32 {
    u32::try_from(end.saturating_sub(rest.len())).unwrap_or(u32::MAX)
}

#[tactic(auto, unfolding(crate::specs::Model::param_at), using(crate::proofs::Views::param_seen))]
fn param_of(alloc: Global, inner: &[u8], end: usize) -> Result<(Part, &[u8]), Stop>
    ensures { Gives (λ x. (view_part x.0, x.1.now)) result (param_at inner.now) }
{
    if !is_started(Class::NameFirst, inner) {
        return Err(Stop::Bad);
    }
    let (text, rest) = run(Class::NameRest, inner);
    let span = span(end, inner, rest);
    let name = Name {
        text: Text::copy(alloc, text)?,
        span,
    };
    let kind = PartKind::Param {
        param: Param::Name(name),
        op: ParamOp::Plain,
    };
    Ok((Part { kind, span }, rest))
}

#[tactic(auto, unfolding(crate::specs::Model::quoted_run_at), using(crate::proofs::Views::plain_seen))]
fn quoted_run_of(alloc: Global, bytes: &[u8], end: usize) -> Result<(Part, &[u8]), Stop>
    ensures { Gives (λ x. (view_part x.0, x.1.now)) result (quoted_run_at bytes.now) }
{
    if !is_started(Class::Quoted, bytes) {
        return Err(Stop::Bad);
    }
    let (text, rest) = run(Class::Quoted, bytes);
    let kind = PartKind::Plain(Text::copy(alloc, text)?);
    let span = span(end, bytes, rest);
    Ok((Part { kind, span }, rest))
}

#[tactic(auto, unfolding(crate::specs::Model::quoted_part_at))]
fn quoted_part_of(alloc: Global, bytes: &[u8], end: usize) -> Result<(Part, &[u8]), Stop>
    ensures { Gives (λ x. (view_part x.0, x.1.now)) result (quoted_part_at bytes.now) }
{
    match bytes {
        [] => Err(Stop::Bad),
        [b'$', inner @ ..] => param_of(alloc, inner, end),
        _ => quoted_run_of(alloc, bytes, end),
    }
}

fn is_quote(bytes: &[u8]) -> bool
    ensures { result ≡ starts is_quote bytes.now }
{
    match bytes {
        [] => false,
        [b, ..] => *b == b'"',
    }
}

/// Parts up to the closing double quote.
fn quoted_parts_of(alloc: Global, bytes: &[u8], end: usize) -> Result<(List<Part>, &[u8]), Stop>
    ensures { Gives (λ x. (parts_seen x.0, x.1.now)) result (quoted_parts_at (suc (length bytes.now)) bytes.now) }
{
    let mut parts = List::new(alloc);
    let mut rest = bytes;
    'parts: while !is_quote(rest) {
        let (part, after) = quoted_part_of(alloc, rest, end)?;
        parts.push(part)?;
        rest = after;
    }
    Ok((parts, rest))
}

/// What stands behind this quote.
fn behind(quote: u8, bytes: &[u8]) -> Option<&[u8]>
    ensures { MatchOption result (behind quote bytes.now ≡ None) (λ rest. behind quote bytes.now ≡ Some rest.now) }
{
    match bytes {
        [b, rest @ ..] if *b == quote => Some(rest),
        _ => None,
    }
}

#[tactic(auto, unfolding(crate::specs::Model::exact_at), using(crate::proofs::Views::exact_seen))]
fn exact_of(alloc: Global, inner: &[u8], end: usize) -> Result<(Part, &[u8]), Stop>
    ensures { Gives (λ x. (view_part x.0, x.1.now)) result (exact_at inner.now) }
{
    let (text, after) = run(Class::Exact, inner);
    let Some(rest) = behind(b'\'', after) else {
        return Err(Stop::Bad);
    };
    let kind = PartKind::Exact(Text::copy(alloc, text)?);
    let span = span(end, inner, rest);
    Ok((Part { kind, span }, rest))
}

#[tactic(auto, unfolding(crate::specs::Model::double_at), using(crate::proofs::Views::double_seen))]
fn double_of(alloc: Global, inner: &[u8], end: usize) -> Result<(Part, &[u8]), Stop>
    ensures { Gives (λ x. (view_part x.0, x.1.now)) result (double_at inner.now) }
{
    let (parts, after) = quoted_parts_of(alloc, inner, end)?;
    let Some(rest) = behind(b'"', after) else {
        return Err(Stop::Bad);
    };
    let kind = PartKind::Double(parts);
    let span = span(end, inner, rest);
    Ok((Part { kind, span }, rest))
}

#[tactic(auto, unfolding(crate::specs::Model::plain_at), using(crate::proofs::Views::plain_seen))]
fn plain_of(alloc: Global, bytes: &[u8], end: usize) -> Result<(Part, &[u8]), Stop>
    ensures { Gives (λ x. (view_part x.0, x.1.now)) result (plain_at bytes.now) }
{
    if !is_started(Class::Plain, bytes) {
        return Err(Stop::Bad);
    }
    let (text, rest) = run(Class::Plain, bytes);
    let kind = PartKind::Plain(Text::copy(alloc, text)?);
    let span = span(end, bytes, rest);
    Ok((Part { kind, span }, rest))
}

#[tactic(auto, unfolding(crate::specs::Model::part_at))]
fn part_of(alloc: Global, bytes: &[u8], end: usize) -> Result<(Part, &[u8]), Stop>
    ensures { Gives (λ x. (view_part x.0, x.1.now)) result (part_at bytes.now) }
{
    match bytes {
        [] => Err(Stop::Bad),
        [b'\'', inner @ ..] => exact_of(alloc, inner, end),
        [b'"', inner @ ..] => double_of(alloc, inner, end),
        _ => plain_of(alloc, bytes, end),
    }
}

fn parts_of(alloc: Global, bytes: &[u8], end: usize) -> Result<(List<Part>, &[u8]), Stop>
    ensures { Gives (λ x. (parts_seen x.0, x.1.now)) result (word_at bytes.now) }
{
    let mut parts = List::new(alloc);
    let mut rest = bytes;
    'parts: while !is_word_end(rest) {
        let (part, after) = part_of(alloc, rest, end)?;
        parts.push(part)?;
        rest = after;
    }
    Ok((parts, rest))
}

/// The word that these bytes begin with, of a line that ends at the offset `end` of its text.
pub fn word_of(alloc: Global, bytes: &[u8], end: usize) -> Result<(Word, &[u8]), Stop>
    ensures { Gives (λ x. (parts_seen x.0.parts, x.1.now)) result (word_at bytes.now) }
{
    let (parts, rest) = parts_of(alloc, bytes, end)?;
    let span = span(end, bytes, rest);
    Ok((Word { parts, span }, rest))
}

/// Words up to the end of the line.
pub fn words_of(alloc: Global, bytes: &[u8], end: usize) -> Result<List<Word>, Stop>
    ensures { Gives words_seen result (words_at (suc (length bytes.now)) bytes.now) }
{
    let mut words = List::new(alloc);
    let mut rest = bytes;
    'words: loop {
        let (_, front) = run(Class::Blank, rest);
        if front.is_empty() {
            return Ok(words);
        }
        let (word, after) = word_of(alloc, front, end)?;
        words.push(word)?;
        rest = after;
    }
}
