//! The longest front of bytes of one kind, with joins between them left out.

ghost use Rattle.std.specs.Prelude.{◌≡◌, ◌==◌, ◌&&◌, not, Some};
ghost use Rattle.bash_grammar.specs.Bytes as bytes_of;
ghost use Rattle.bash_tokens.specs.Kinds.{spot, context};
ghost use Rattle.bash_tokens.specs.Runs as runs;
ghost use Rattle.bash_tokens.specs.Answers.{Gives, Shows};

use crate::class::{closing, continues_name, counts, is_digit, opening};
use crate::fault::Stop;
use crate::literals::is_literal;
use crate::spots::{Context, Spot};
use span_text::Text;
use std::alloc::Global;

/// What runs are of.
#[derive(Clone, Copy)]
pub enum Run {
    /// Bytes that stand for themselves there.
    Literal(Context),
    /// What a name goes on with.
    Name,
    Digits,
}

fn goes_on(run: Run, b: u8, after: &[u8]) -> bool
    ensures { result ≡ runs.goes_on run b after.now }
{
    match run {
        Run::Literal(place) => is_literal(place, b, after),
        Run::Name => continues_name(b),
        Run::Digits => is_digit(b),
    }
}

/// What follows the last byte of the run.
pub fn run_end(run: Run, bytes: &[u8]) -> &[u8]
    ensures { result.now ≡ (runs.run run bytes.now).1 }
{
    let mut end = bytes;
    let mut rest = bytes;
    'run: loop {
        match rest {
            [] => return end,
            [b'\\', b'\n', after @ ..] => rest = after,
            [b, after @ ..] => {
                if !goes_on(run, *b, after) {
                    return end;
                }
                end = after;
                rest = after;
            },
        }
    }
}

/// The bytes of the run, and what follows the last of them.
pub fn run_at<'a>(alloc: Global, run: Run, bytes: &'a [u8]) -> Result<(Text, &'a [u8]), Stop>
    ensures { Gives (λ x. (x.0, x.1.now)) result (Some (runs.run run bytes.now)) }
{
    let mut text = Vec::new(alloc);
    let mut end = bytes;
    let mut rest = bytes;
    'run: loop {
        match rest {
            [] => return Ok((Text::from_vec(text), end)),
            [b'\\', b'\n', after @ ..] => rest = after,
            [b, after @ ..] => {
                if !goes_on(run, *b, after) {
                    return Ok((Text::from_vec(text), end));
                }
                text.push(*b)?;
                end = after;
                rest = after;
            },
        }
    }
}

/// What follows the last byte of the run, if its bytes are these.
pub fn run_behind<'a>(run: Run, bytes: &'a [u8], text: &[u8]) -> Option<&'a [u8]>
    ensures { Shows (λ x. x.now) result (runs.matched text.now (runs.run run bytes.now)) }
{
    let mut end = bytes;
    let mut rest = bytes;
    let mut wanted = text;
    'run: loop {
        match rest {
            [] => return if wanted.is_empty() { Some(end) } else { None },
            [b'\\', b'\n', after @ ..] => rest = after,
            [b, after @ ..] => {
                if !goes_on(run, *b, after) {
                    return if wanted.is_empty() { Some(end) } else { None };
                }
                match wanted {
                    [] => return None,
                    [first, others @ ..] => {
                        if *b != *first {
                            return None;
                        }
                        wanted = others;
                        end = after;
                        rest = after;
                    },
                }
            },
        }
    }
}

/// Bytes where brackets count, what follows the last of them, and how many brackets stand open there.
#[derive(Drop)]
pub struct Counted<'a> {
    pub text: Text,
    pub rest: &'a [u8],
    pub level: usize,
}

/// How many brackets stand open behind the byte.
fn level_behind(place: Spot, b: u8, level: usize) -> Result<usize, Stop>
    ensures { Gives (λ x. x) result (Some (bytes_of.level_behind (bytes_of.opening (spot place)) (bytes_of.closing (spot place)) b level)) }
{
    if b == opening(place) {
        match level.checked_add(1) {
            Some(more) => Ok(more),
            None => Err(Stop::Memory),
        }
    } else if b == closing(place) {
        Ok(level.saturating_sub(1))
    } else {
        Ok(level)
    }
}

/// Whether the byte stands for itself where so many brackets are open.
fn goes_on_in(place: Context, level: usize, b: u8, after: &[u8]) -> bool
    ensures { result ≡ (bytes_of.is_literal (context place) b after.now && not (b == bytes_of.closing (spot place.spot) && level == 0)) }
{
    is_literal(place, b, after) && !(b == closing(place.spot) && level == 0)
}

/// The bytes that stand for themselves where brackets count, of which so many are open.
fn counted_at<'a>(
    alloc: Global,
    place: Context,
    opened: usize,
    bytes: &'a [u8],
) -> Result<Counted<'a>, Stop>
    ensures { Gives runs.counted result (Some (runs.counted_run (context place) opened bytes.now)) }
{
    let mut text = Vec::new(alloc);
    let mut level = opened;
    let mut end = bytes;
    let mut rest = bytes;
    'run: loop {
        match rest {
            [] => return Ok(counted_of(text, end, level)),
            [b'\\', b'\n', after @ ..] => rest = after,
            [b, after @ ..] => {
                if !goes_on_in(place, level, *b, after) {
                    return Ok(counted_of(text, end, level));
                }
                level = level_behind(place.spot, *b, level)?;
                text.push(*b)?;
                end = after;
                rest = after;
            },
        }
    }
}

fn counted_of<'a>(text: Vec<u8>, rest: &'a [u8], level: usize) -> Counted<'a>
    ensures { runs.counted result ≡ ((text.items, rest.now), level) }
{
    Counted {
        text: Text::from_vec(text),
        rest,
        level,
    }
}

/// The bytes that stand for themselves there, where so many brackets are open.
#[tactic(auto, unfolding(bash_grammar::specs::Bytes::literal_in, bash_grammar::specs::Bytes::literal_run))]
pub fn literal_in<'a>(
    alloc: Global,
    place: Context,
    level: usize,
    bytes: &'a [u8],
) -> Result<Counted<'a>, Stop>
    ensures { Gives runs.counted result (Some (bytes_of.literal_in (context place) level bytes.now)) }
{
    if counts(place.spot) {
        return counted_at(alloc, place, level, bytes);
    }
    let (text, rest) = run_at(alloc, Run::Literal(place), bytes)?;
    Ok(Counted { text, rest, level })
}
