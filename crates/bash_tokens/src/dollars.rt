//! What stands behind a `$` (Bash manual, sections 3.1.2, 3.4, 3.5.3, 3.5.4, 3.5.5).

ghost use Rattle.std.specs.Prelude.{◌≡◌, ◌&&◌, Some};
ghost use Rattle.bash_grammar.specs.Bytes as bytes_of;
ghost use Rattle.bash_grammar.specs.Heads as heads;
ghost use Rattle.bash_grammar.specs.Tokens as tokens;
ghost use Rattle.bash_tokens.specs.Answers.{Shows};
ghost use Rattle.bash_tokens.specs.Kinds.{spot};

use crate::class::{expands, is_quotes};
use crate::gaps::clear;
use crate::spots::Spot;
use crate::tokens::{behind, starts_name};

/// What follows two bytes, with joins before them and between them.
#[tactic(auto, unfolding(bash_grammar::specs::Heads::behind_two))]
pub fn behind_two(j: u8, k: u8, bytes: &[u8]) -> Option<&[u8]>
    ensures { Shows (λ x. x.now) result (heads.behind_two j k bytes.now) }
{
    match behind(j, clear(bytes)) {
        None => None,
        Some(rest) => behind(k, clear(rest)),
    }
}

/// The name that comes next, joins aside.
fn name_next(bytes: &[u8]) -> Option<&[u8]>
    ensures { Shows (λ x. x.now) result (heads.if_name (Some bytes.now)) }
{
    let front = clear(bytes);
    if starts_name(front) {
        Some(front)
    } else {
        None
    }
}

/// Behind `$`, where a name comes next.
#[tactic(auto, unfolding(bash_grammar::specs::Heads::dollar_name))]
pub fn dollar_name(bytes: &[u8]) -> Option<&[u8]>
    ensures { Shows (λ x. x.now) result (heads.dollar_name bytes.now) }
{
    match behind(b'$', clear(bytes)) {
        None => None,
        Some(rest) => name_next(rest),
    }
}

/// Behind `${`, where a name comes next.
#[tactic(auto, unfolding(bash_grammar::specs::Heads::brace_name))]
pub fn brace_name(bytes: &[u8]) -> Option<&[u8]>
    ensures { Shows (λ x. x.now) result (heads.brace_name bytes.now) }
{
    match behind_two(b'$', b'{', bytes) {
        None => None,
        Some(rest) => name_next(rest),
    }
}

/// Behind this byte, where a name comes next.
fn name_behind(k: u8, bytes: &[u8]) -> Option<&[u8]>
    ensures { Shows (λ x. x.now) result (heads.if_name (tokens.behind k bytes.now)) }
{
    match behind(k, bytes) {
        None => None,
        Some(rest) => name_next(rest),
    }
}

/// Behind `${#`, where a name comes next.
#[tactic(auto, unfolding(bash_grammar::specs::Heads::length_name))]
pub fn length_name(bytes: &[u8]) -> Option<&[u8]>
    ensures { Shows (λ x. x.now) result (heads.length_name bytes.now) }
{
    match behind_two(b'$', b'{', bytes) {
        None => None,
        Some(rest) => name_behind(b'#', clear(rest)),
    }
}

/// Behind `${!`, where a name comes next.
#[tactic(auto, unfolding(bash_grammar::specs::Heads::pointed_name))]
pub fn pointed_name(bytes: &[u8]) -> Option<&[u8]>
    ensures { Shows (λ x. x.now) result (heads.pointed_name bytes.now) }
{
    match behind_two(b'$', b'{', bytes) {
        None => None,
        Some(rest) => name_behind(b'!', clear(rest)),
    }
}

/// Whether `${` comes next.
#[tactic(auto, unfolding(bash_grammar::specs::Heads::brace_next))]
pub fn brace_next(bytes: &[u8]) -> bool
    ensures { result ≡ heads.brace_next bytes.now }
{
    behind_two(b'$', b'{', bytes).is_some()
}

/// What follows the second `(` of `$((`.
#[tactic(auto, unfolding(bash_grammar::specs::Heads::dollar_sum))]
pub fn dollar_sum(bytes: &[u8]) -> Option<&[u8]>
    ensures { Shows (λ x. x.now) result (heads.dollar_sum bytes.now) }
{
    match behind_two(b'$', b'(', bytes) {
        None => None,
        Some(rest) => behind(b'(', clear(rest)),
    }
}

/// Whether `$((` comes next.
#[tactic(auto, unfolding(bash_grammar::specs::Heads::sum_next))]
pub fn sum_next(bytes: &[u8]) -> bool
    ensures { result ≡ heads.sum_next bytes.now }
{
    dollar_sum(bytes).is_some()
}

/// Whether `$(` comes next and isn't `$((`.
#[tactic(auto, unfolding(bash_grammar::specs::Heads::subst_next))]
pub fn subst_next(bytes: &[u8]) -> bool
    ensures { result ≡ heads.subst_next bytes.now }
{
    behind_two(b'$', b'(', bytes).is_some() && !sum_next(bytes)
}

/// Whether `$[` comes next.
#[tactic(auto, unfolding(bash_grammar::specs::Heads::old_next))]
pub fn old_next(bytes: &[u8]) -> bool
    ensures { result ≡ heads.old_next bytes.now }
{
    behind_two(b'$', b'[', bytes).is_some()
}

/// Whether `$'` comes next, where quotes quote.
#[tactic(auto, unfolding(bash_grammar::specs::Heads::ansi_next))]
pub fn ansi_next(place: Spot, bytes: &[u8]) -> bool
    ensures { result ≡ heads.ansi_next (spot place) bytes.now }
{
    !is_quotes(place) && behind_two(b'$', b'\'', bytes).is_some()
}

/// Whether `$"` comes next, where quotes quote.
#[tactic(auto, unfolding(bash_grammar::specs::Heads::locale_next))]
pub fn locale_next(place: Spot, bytes: &[u8]) -> bool
    ensures { result ≡ heads.locale_next (spot place) bytes.now }
{
    !is_quotes(place) && behind_two(b'$', b'"', bytes).is_some()
}

fn starts_expanded(bytes: &[u8]) -> bool
    ensures { result ≡ bytes_of.starts bytes_of.expands bytes.now }
{
    match bytes {
        [] => false,
        [b, ..] => expands(*b),
    }
}

/// Whether a `$` that begins an expansion is here.
pub fn dollar_at(bytes: &[u8]) -> bool
    ensures { result ≡ heads.dollar_at bytes.now }
{
    match bytes {
        [] => false,
        [b, after @ ..] => *b == b'$' && starts_expanded(clear(after)),
    }
}

/// Whether an expansion that a `$` begins comes next.
#[tactic(auto, unfolding(bash_grammar::specs::Heads::expansion_next))]
pub fn expansion_next(bytes: &[u8]) -> bool
    ensures { result ≡ heads.expansion_next bytes.now }
{
    dollar_at(clear(bytes))
}
