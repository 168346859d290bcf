//! The longest front of bytes of one kind, with joins between them left out.

ghost use Rattle.std.specs.Prelude.{◌≡◌, false, IfOk};
ghost use Rattle.span_text.specs.KnownNames.{same_text};
ghost use Rattle.sh_grammar.specs.Bytes as bytes_of;
ghost use Rattle.sh_parser.specs.Kinds as kinds;
ghost use Rattle.sh_parser.specs.Kinds.{context};
ghost use Rattle.sh_parser.specs.Answers.{Gives};
ghost use Rattle.std.specs.Prelude.{Some};

use crate::class::{Context, continues_name, expands, is_digit, is_escaped, is_plain};
use crate::fault::Stop;
use crate::gaps::clear;
use span_text::Text;
use std::alloc::Global;

/// What runs are of.
#[derive(Clone, Copy)]
pub enum Run {
    /// Bytes that stand for themselves there.
    Literal(Context),
    /// What a name goes on with.
    Name,
    Digits,
}

/// Whether the `$` before these bytes stands for itself.
#[inline(always)]
pub fn is_bare_dollar(bytes: &[u8]) -> bool
    ensures { result ≡ bytes_of.is_bare_dollar bytes.now }
{
    match clear(bytes) {
        [] => true,
        [b, ..] => !expands(*b),
    }
}

#[inline(always)]
fn is_bare_backslash(place: Context, bytes: &[u8]) -> bool
    ensures { result ≡ bytes_of.is_bare_backslash (context place) bytes.now }
{
    match bytes {
        [] => false,
        [b, ..] => !(is_escaped(place, *b) || *b == 0),
    }
}

#[tactic(auto, unfolding(sh_grammar::specs::Bytes::is_literal))]
#[inline(always)]
fn is_literal(place: Context, b: u8, after: &[u8]) -> bool
    ensures { result ≡ bytes_of.is_literal (context place) b after.now }
{
    is_plain(place, b)
        || (b == b'$' && is_bare_dollar(after))
        || (b == b'\\' && is_bare_backslash(place, after))
}

#[inline(always)]
fn goes_on(run: Run, b: u8, after: &[u8]) -> bool
    ensures { result ≡ kinds.goes_on run b after.now }
{
    match run {
        Run::Literal(place) => is_literal(place, b, after),
        Run::Name => continues_name(b),
        Run::Digits => is_digit(b),
    }
}

/// What follows the run.
pub fn run_end(run: Run, bytes: &[u8]) -> &[u8]
    ensures { result.now ≡ (bytes_of.run_from (kinds.goes_on run) false bytes.now).1 }
{
    let mut rest = bytes;
    'run: loop {
        match rest {
            [] => return rest,
            [b'\\', b'\n', after @ ..] => rest = after,
            [b, after @ ..] => if goes_on(run, *b, after) {
                rest = after;
            } else {
                return rest;
            },
        }
    }
}

/// The bytes of the run.
pub fn run_text(alloc: Global, run: Run, bytes: &[u8]) -> Result<Text, Stop>
    ensures { Gives (λ x. x) result (Some (bytes_of.run_from (kinds.goes_on run) false bytes.now).0) }
{
    let mut text = Vec::new(alloc);
    let mut rest = bytes;
    'run: loop {
        match rest {
            [] => return Ok(Text::from_vec(text)),
            [b'\\', b'\n', after @ ..] => rest = after,
            [b, after @ ..] => {
                if !goes_on(run, *b, after) {
                    return Ok(Text::from_vec(text));
                }
                text.push(*b)?;
                rest = after;
            },
        }
    }
}

/// The bytes of the run, and what follows them.
pub fn run_of<'a>(alloc: Global, run: Run, bytes: &'a [u8]) -> Result<(Text, &'a [u8]), Stop>
    ensures text { Gives (λ x. x.0) result (Some (bytes_of.run_from (kinds.goes_on run) false bytes.now).0) }
    ensures rest { IfOk result (λ x. x.1.now ≡ (bytes_of.run_from (kinds.goes_on run) false bytes.now).1) }
{
    let mut text = Vec::new(alloc);
    let mut rest = bytes;
    'run: loop {
        match rest {
            [] => return Ok((Text::from_vec(text), rest)),
            [b'\\', b'\n', after @ ..] => rest = after,
            [b, after @ ..] => {
                if !goes_on(run, *b, after) {
                    return Ok((Text::from_vec(text), rest));
                }
                text.push(*b)?;
                rest = after;
            },
        }
    }
}

/// Whether the bytes of the run are these.
pub fn run_is(run: Run, bytes: &[u8], text: &[u8]) -> bool
    ensures { result ≡ same_text (bytes_of.run_from (kinds.goes_on run) false bytes.now).0 text.now }
{
    let mut rest = bytes;
    let mut wanted = text;
    'run: loop {
        match rest {
            [] => return wanted.is_empty(),
            [b'\\', b'\n', after @ ..] => rest = after,
            [b, after @ ..] => {
                if !goes_on(run, *b, after) {
                    return wanted.is_empty();
                }
                match wanted {
                    [] => return false,
                    [first, others @ ..] => {
                        if *b != *first {
                            return false;
                        }
                        wanted = others;
                        rest = after;
                    },
                }
            },
        }
    }
}
