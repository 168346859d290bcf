//! Kinds of bytes (Bash manual, sections 2, 3.1.2, 3.4).

ghost use Rattle.std.specs.Prelude.{◌≡◌, ◌==◌};
ghost use Rattle.span_text.specs.Names as names;
ghost use Rattle.bash_grammar.specs.Bytes as bytes_of;
ghost use Rattle.bash_tokens.specs.Kinds.{spot, quoting, context};

use crate::spots::{Context, Quoting, Spot};

pub fn is_blank(b: u8) -> bool
    ensures { result ≡ bytes_of.is_blank b }
{
    b == b' ' || b == b'\t'
}

pub fn is_digit(b: u8) -> bool
    ensures { result ≡ names.is_digit b }
{
    b.is_ascii_digit()
}

#[tactic(auto, unfolding(span_text::specs::Names::begins_name))]
pub fn begins_name(b: u8) -> bool
    ensures { result ≡ names.begins_name b }
{
    b == b'_' || b.is_ascii_alphabetic()
}

#[tactic(auto, unfolding(span_text::specs::Names::continues_name))]
pub fn continues_name(b: u8) -> bool
    ensures { result ≡ names.continues_name b }
{
    b == b'_' || b.is_ascii_alphabetic() || b.is_ascii_digit()
}

/// `$#`, `$?`, `$@`, `$*`, `$$`, `$!`, `$-`.
#[tactic(auto, unfolding(bash_grammar::specs::Bytes::is_special_param))]
pub fn is_special_param(b: u8) -> bool
    ensures { result ≡ bytes_of.is_special_param b }
{
    b == b'#' || b == b'?' || b == b'@' || b == b'*' || b == b'$' || b == b'!' || b == b'-'
}

/// Whether the byte makes a `$` before it the beginning of an expansion.
#[tactic(auto, unfolding(bash_grammar::specs::Bytes::expands))]
pub fn expands(b: u8) -> bool
    ensures { result ≡ bytes_of.expands b }
{
    begins_name(b) || is_digit(b) || is_special_param(b) || b == b'{' || b == b'(' || b == b'['
}

/// Whether the byte ends a word or begins an operator.
#[tactic(auto, unfolding(bash_grammar::specs::Bytes::is_meta))]
fn is_meta(b: u8) -> bool
    ensures { result ≡ bytes_of.is_meta b }
{
    is_blank(b)
        || b == b'\n'
        || b == b';'
        || b == b'&'
        || b == b'|'
        || b == b'('
        || b == b')'
        || b == b'<'
        || b == b'>'
}

/// `$`, the backquote and the backslash stand for themselves nowhere.
#[tactic(auto, unfolding(bash_grammar::specs::Bytes::is_active))]
pub fn is_active(b: u8) -> bool
    ensures { result ≡ bytes_of.is_active b }
{
    b == b'$' || b == b'`' || b == b'\\'
}

pub fn is_glob(b: u8) -> bool
    ensures { result ≡ bytes_of.is_glob b }
{
    b == b'?' || b == b'*' || b == b'+' || b == b'@' || b == b'!'
}

pub fn is_angle(b: u8) -> bool
    ensures { result ≡ bytes_of.is_angle b }
{
    b == b'<' || b == b'>'
}

/// Whether the place is between double quotes or in a here-document.
pub fn is_quotes(place: Spot) -> bool
    ensures { result ≡ bytes_of.is_quotes (spot place) }
{
    match place {
        Spot::Quotes => true,
        Spot::Words | Spot::Fills | Spot::Patterns | Spot::Firsts | Spot::Seconds => false,
        Spot::Keys | Spot::Brackets | Spot::Groups | Spot::Regexes => false,
    }
}

pub fn is_bare(around: Quoting) -> bool
    ensures { result ≡ bytes_of.is_bare (quoting around) }
{
    match around {
        Quoting::Bare => true,
        Quoting::Quoted => false,
        Quoting::InBody => false,
    }
}

pub fn is_body(around: Quoting) -> bool
    ensures { result ≡ bytes_of.is_body (quoting around) }
{
    match around {
        Quoting::Bare => false,
        Quoting::Quoted => false,
        Quoting::InBody => true,
    }
}

/// Whether brackets or parentheses count there.
pub fn counts(place: Spot) -> bool
    ensures { result ≡ bytes_of.counts (spot place) }
{
    match place {
        Spot::Keys | Spot::Brackets | Spot::Groups => true,
        Spot::Words | Spot::Quotes | Spot::Fills | Spot::Patterns => false,
        Spot::Firsts | Spot::Seconds | Spot::Regexes => false,
    }
}

/// The bracket or parenthesis that opens there.
pub fn opening(place: Spot) -> u8
    ensures { result ≡ bytes_of.opening (spot place) }
{
    match place {
        Spot::Groups => b'(',
        Spot::Words | Spot::Quotes | Spot::Fills | Spot::Patterns | Spot::Firsts => b'[',
        Spot::Seconds | Spot::Keys | Spot::Brackets | Spot::Regexes => b'[',
    }
}

/// The bracket or parenthesis that closes there.
pub fn closing(place: Spot) -> u8
    ensures { result ≡ bytes_of.closing (spot place) }
{
    match place {
        Spot::Groups => b')',
        Spot::Words | Spot::Quotes | Spot::Fills | Spot::Patterns | Spot::Firsts => b']',
        Spot::Seconds | Spot::Keys | Spot::Brackets | Spot::Regexes => b']',
    }
}

/// Whether the byte isn't plain there.
#[tactic(auto, unfolding(bash_grammar::specs::Bytes::is_ended))]
fn is_ended(place: Spot, b: u8) -> bool
    ensures { result ≡ bytes_of.is_ended (spot place) b }
{
    match place {
        Spot::Words => is_meta(b),
        Spot::Quotes | Spot::Keys | Spot::Brackets | Spot::Groups => false,
        Spot::Fills | Spot::Patterns | Spot::Seconds => b == b'}',
        Spot::Firsts => b == b'}' || b == b'/',
        Spot::Regexes => ends_regex(b),
    }
}

/// A byte that ends a regular expression outside of its parentheses.
#[tactic(auto, unfolding(bash_grammar::specs::Bytes::is_ended))]
fn ends_regex(b: u8) -> bool
    ensures { result ≡ bytes_of.is_ended bytes_of.regexes b }
{
    is_blank(b)
        || b == b'\n'
        || b == b';'
        || b == b'&'
        || b == b'('
        || b == b')'
        || b == b'<'
        || b == b'>'
}

/// Whether the byte is a quote that doesn't stand for itself there.
#[tactic(auto, unfolding(bash_grammar::specs::Bytes::is_quote))]
pub fn is_quote(place: Context, b: u8) -> bool
    ensures { result ≡ bytes_of.is_quote (context place) b }
{
    (b == b'\'' && !is_quotes(place.spot))
        || (b == b'"' && !(is_quotes(place.spot) && is_body(place.quoting)))
}

/// Whether the byte is plain there.
#[tactic(auto, unfolding(bash_grammar::specs::Bytes::is_plain))]
pub fn is_plain(place: Context, b: u8) -> bool
    ensures { result ≡ bytes_of.is_plain (context place) b }
{
    !(is_active(b) || is_ended(place.spot, b) || is_quote(place, b))
}

/// A byte that a backslash quotes there, whatever quoting is around.
#[tactic(auto, unfolding(bash_grammar::specs::Bytes::is_escaped_in, bash_grammar::specs::Bytes::is_active))]
fn is_escaped_in(place: Spot, b: u8) -> bool
    ensures { result ≡ bytes_of.is_escaped_in (spot place) b }
{
    match place {
        Spot::Patterns | Spot::Firsts => true,
        Spot::Quotes => is_active(b),
        Spot::Keys => is_active(b) || b == b'[' || b == b']' || b == b'}',
        Spot::Words | Spot::Fills | Spot::Seconds => is_active(b) || b == b'}',
        Spot::Brackets | Spot::Groups | Spot::Regexes => is_active(b) || b == b'}',
    }
}

/// Whether a backslash quotes the byte there.
#[tactic(auto, unfolding(bash_grammar::specs::Bytes::is_escaped))]
pub fn is_escaped(place: Context, b: u8) -> bool
    ensures { result ≡ bytes_of.is_escaped (context place) b }
{
    is_bare(place.quoting) || is_escaped_in(place.spot, b) || (b == b'"' && !is_body(place.quoting))
}

/// Whether an extended pattern may begin there.
pub fn has_globs(place: Context) -> bool
    ensures { result ≡ bytes_of.has_globs_at (spot place.spot) (quoting place.quoting) }
{
    match place.spot {
        Spot::Words | Spot::Patterns | Spot::Firsts => true,
        Spot::Fills | Spot::Seconds => is_bare(place.quoting),
        Spot::Quotes | Spot::Keys | Spot::Brackets | Spot::Groups | Spot::Regexes => false,
    }
}

/// Whether a process substitution may begin there.
pub fn has_processes(place: Context) -> bool
    ensures { result ≡ bytes_of.has_processes_at (spot place.spot) (quoting place.quoting) }
{
    match place.spot {
        Spot::Words | Spot::Fills | Spot::Patterns | Spot::Firsts | Spot::Seconds => {
            is_bare(place.quoting)
        }
        Spot::Quotes | Spot::Keys | Spot::Brackets | Spot::Groups | Spot::Regexes => false,
    }
}
