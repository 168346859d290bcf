//! Names, tildes, and what stands behind a name that is assigned (Bash manual, sections 3.4, 3.5.2).

ghost use Rattle.std.specs.Prelude.{◌≡◌, ◌||◌, not};
ghost use Rattle.bash_grammar.specs.Bytes as bytes_of;
ghost use Rattle.bash_grammar.specs.Heads as heads;
ghost use Rattle.bash_grammar.specs.Steps as steps;
ghost use Rattle.bash_grammar.specs.Tokens as tokens;
ghost use Rattle.bash_tokens.specs.Answers.{Gives, Shows};
ghost use Rattle.bash_tokens.specs.Fronts.{name_rest};

use crate::fault::Stop;
use crate::gaps::{clear, gap};
use crate::literals::{byte_next, unit_starts};
use crate::operators::Op;
use crate::runs::{Run, run_at, run_end};
use crate::spots::Context;
use crate::tokens::{behind, is_token, starts_name};
use span_text::Text;
use std::alloc::Global;

/// Without the first byte.
pub fn tail(bytes: &[u8]) -> &[u8]
    ensures { result.now ≡ heads.tail bytes.now }
{
    match bytes {
        [] => bytes,
        [_, rest @ ..] => rest,
    }
}

/// The name here, and what follows it.
#[tactic(auto, unfolding(bash_grammar::specs::Tokens::name_at, bash_grammar::specs::Bytes::name_run))]
pub fn name_at<'a>(alloc: Global, bytes: &'a [u8]) -> Result<(Text, &'a [u8]), Stop>
    ensures { Gives (λ x. (x.0, x.1.now)) result (tokens.name_at bytes.now) }
{
    if !starts_name(bytes) {
        return Err(Stop::Mismatch);
    }
    run_at(alloc, Run::Name, bytes)
}

/// What follows the name here.
#[tactic(auto, unfolding(bash_grammar::specs::Tokens::name_at, bash_grammar::specs::Bytes::name_run))]
pub fn name_end(bytes: &[u8]) -> Option<&[u8]>
    ensures { Shows (λ x. x.now) result (name_rest bytes.now) }
{
    if !starts_name(bytes) {
        return None;
    }
    Some(run_end(Run::Name, bytes))
}

/// Behind the `=` of an assignment that appends, or that doesn't.
#[tactic(auto, unfolding(bash_grammar::specs::Steps::equals_at))]
pub fn equals_at(bytes: &[u8]) -> Option<(bool, &[u8])>
    ensures { Shows (λ x. (x.0, x.1.now)) result (steps.equals_at bytes.now) }
{
    let appends = byte_next(b'+', bytes);
    let after = if appends {
        clear(tail(clear(bytes)))
    } else {
        clear(bytes)
    };
    match behind(b'=', after) {
        None => None,
        Some(rest) => Some((appends, rest)),
    }
}

/// Whether a `~` before these bytes stands for the home directory: `/` or the word's end follows.
fn ends_tilde(bytes: &[u8]) -> bool
    ensures { result ≡ (bytes_of.byte_next 47 bytes.now || not (bytes_of.unit_starts bytes_of.in_word bytes.now)) }
{
    byte_next(b'/', bytes) || !unit_starts(Context::WORD, bytes)
}

/// What follows a `~` that stands for the home directory.
#[tactic(auto, unfolding(bash_grammar::specs::Tokens::tilde_at))]
pub fn tilde_at(bytes: &[u8]) -> Option<&[u8]>
    ensures { Shows (λ x. x.now) result (tokens.tilde_at bytes.now) }
{
    match behind(b'~', bytes) {
        None => None,
        Some(rest) => if ends_tilde(rest) { Some(rest) } else { None },
    }
}

/// Whether such a `~` comes next.
#[tactic(auto, unfolding(bash_grammar::specs::Tokens::tilde_next))]
pub fn tilde_next(bytes: &[u8]) -> bool
    ensures { result ≡ tokens.tilde_next bytes.now }
{
    tilde_at(clear(bytes)).is_some()
}

/// Where a word begins behind blanks.
pub fn word_place(bytes: &[u8]) -> Option<&[u8]>
    ensures { Shows (λ x. x.now) result (steps.word_place bytes.now) }
{
    if is_token(Op::Word, bytes) {
        Some(gap(bytes))
    } else {
        None
    }
}
