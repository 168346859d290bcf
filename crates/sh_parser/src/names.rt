//! Names, assignments and tildes at the front of a word.

ghost use Rattle.std.specs.Prelude.{◌≡◌, ◌==◌, ◌||◌, not};
ghost use Rattle.span_text.specs.Names as names;
ghost use Rattle.sh_grammar.specs.Bytes as bytes_of;
ghost use Rattle.sh_grammar.specs.Tokens as tokens;
ghost use Rattle.sh_parser.specs.Answers.{Gives, Shows};

use crate::class::{Context, begins_name, unit_starts};
use crate::fault::Stop;
use crate::gaps::{clear, gap};
use crate::keys::name_next;
use crate::runs::{Run, run_end, run_of};
use crate::tokens::{Op, is_token};
use span_text::Text;
use std::alloc::Global;

pub fn is_byte(k: u8, bytes: &[u8]) -> bool
    ensures { result ≡ bytes_of.starts (λ b. b == k) bytes.now }
{
    match bytes {
        [] => false,
        [b, ..] => *b == k,
    }
}

pub fn starts_name(bytes: &[u8]) -> bool
    ensures { result ≡ bytes_of.starts names.begins_name bytes.now }
{
    match bytes {
        [] => false,
        [b, ..] => begins_name(*b),
    }
}

/// The name here, and what follows it.
#[tactic(auto, unfolding(sh_grammar::specs::Tokens::name_at, sh_grammar::specs::Bytes::name_run))]
pub fn name_at<'a>(alloc: Global, bytes: &'a [u8]) -> Result<(Text, &'a [u8]), Stop>
    ensures { Gives (λ x. (x.0, x.1.now)) result (tokens.name_at bytes.now) }
{
    if !starts_name(bytes) {
        return Err(Stop::Bad);
    }
    run_of(alloc, Run::Name, bytes)
}

/// The name before a `=` at a token's place, and what follows the `=`.
#[tactic(auto, unfolding(sh_grammar::specs::Tokens::assign_at))]
pub fn assign_at<'a>(alloc: Global, bytes: &'a [u8]) -> Result<(Text, &'a [u8]), Stop>
    ensures { Gives (λ x. (x.0, x.1.now)) result (tokens.assign_at bytes.now) }
{
    let (name, after) = name_at(alloc, gap(bytes))?;
    match clear(after) {
        [] => Err(Stop::Bad),
        [b, rest @ ..] => if *b == b'=' {
            Ok((name, rest))
        } else {
            Err(Stop::Bad)
        },
    }
}

/// Whether `name=` comes next.
#[tactic(auto, unfolding(sh_grammar::specs::Tokens::assign_next, sh_grammar::specs::Tokens::assign_at, sh_grammar::specs::Tokens::name_at, sh_grammar::specs::Bytes::name_run))]
pub fn assign_next(bytes: &[u8]) -> bool
    ensures { result ≡ tokens.assign_next bytes.now }
{
    let front = gap(bytes);
    if !starts_name(front) {
        return false;
    }
    match clear(run_end(Run::Name, front)) {
        [] => false,
        [b, ..] => *b == b'=',
    }
}

#[tactic(auto, unfolding(sh_grammar::specs::Tokens::name_at, sh_grammar::specs::Bytes::name_run))]
fn opens_at(bytes: &[u8]) -> bool
    ensures { result ≡ tokens.opens (tokens.name_at bytes.now) }
{
    if !starts_name(bytes) {
        return false;
    }
    is_token(Op::Open, run_end(Run::Name, bytes))
}

/// Whether a function's definition comes next: a name and `(`.
#[tactic(auto, unfolding(sh_grammar::specs::Tokens::function_next))]
pub fn function_next(bytes: &[u8]) -> bool
    ensures { result ≡ tokens.function_next bytes.now }
{
    name_next(bytes) && opens_at(gap(bytes))
}

fn ends_tilde(bytes: &[u8]) -> bool
    ensures { result ≡ (bytes_of.starts (λ b. b == 47) bytes.now || not (bytes_of.unit_starts bytes_of.in_word bytes.now)) }
{
    is_byte(b'/', bytes) || !unit_starts(Context::Word, bytes)
}

/// What follows a `~` that stands for the home directory.
#[tactic(auto, unfolding(sh_grammar::specs::Tokens::tilde_at))]
pub fn tilde_at(bytes: &[u8]) -> Option<&[u8]>
    ensures { Shows (λ x. x.now) result (tokens.tilde_at bytes.now) }
{
    match bytes {
        [] => None,
        [b'~', rest @ ..] => if ends_tilde(clear(rest)) {
            Some(rest)
        } else {
            None
        },
        [_, ..] => None,
    }
}

/// Whether such a `~` comes next.
#[tactic(auto, unfolding(sh_grammar::specs::Tokens::tilde_next))]
pub fn tilde_next(bytes: &[u8]) -> bool
    ensures { result ≡ tokens.tilde_next bytes.now }
{
    match tilde_at(clear(bytes)) {
        None => false,
        Some(_) => true,
    }
}
