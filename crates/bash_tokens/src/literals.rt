//! Bytes that stand for themselves by what follows them, and where parts of words begin (Bash manual, sections 3.1.2, 3.5).

ghost use Rattle.std.specs.Prelude.{◌≡◌, ◌==◌, ◌&&◌, not};
ghost use Rattle.bash_grammar.specs.Bytes as bytes_of;
ghost use Rattle.bash_tokens.specs.Kinds.{spot, context};

use crate::class::{
    closing, counts, expands, has_globs, has_processes, is_active, is_angle, is_escaped, is_glob,
    is_plain, is_quote, is_quotes,
};
use crate::gaps::clear;
use crate::spots::{Context, Spot};

/// Whether this byte is the first.
pub fn is_byte(k: u8, bytes: &[u8]) -> bool
    ensures { result ≡ bytes_of.starts (λ b. b == k) bytes.now }
{
    match bytes {
        [] => false,
        [b, ..] => *b == k,
    }
}

/// Whether this byte comes next, joins aside.
pub fn byte_next(k: u8, bytes: &[u8]) -> bool
    ensures { result ≡ bytes_of.byte_next k bytes.now }
{
    is_byte(k, clear(bytes))
}

/// `@(`
#[tactic(auto, unfolding(bash_grammar::specs::Bytes::opens_glob))]
pub fn opens_glob(place: Context, b: u8, after: &[u8]) -> bool
    ensures { result ≡ bytes_of.opens_glob (context place) b after.now }
{
    has_globs(place) && is_glob(b) && byte_next(b'(', after)
}

/// `<(`
#[tactic(auto, unfolding(bash_grammar::specs::Bytes::opens_process))]
pub fn opens_process(place: Context, b: u8, after: &[u8]) -> bool
    ensures { result ≡ bytes_of.opens_process (context place) b after.now }
{
    has_processes(place) && is_angle(b) && byte_next(b'(', after)
}

/// Whether the byte makes a `$` before it the beginning of a quotation.
pub fn quotes_dollar(place: Spot, b: u8) -> bool
    ensures { result ≡ bytes_of.quotes_dollar (spot place) b }
{
    (b == b'\'' || b == b'"') && !is_quotes(place)
}

/// Whether the `$` before these bytes stands for itself.
pub fn is_bare_dollar(place: Spot, bytes: &[u8]) -> bool
    ensures { result ≡ bytes_of.is_bare_dollar (spot place) bytes.now }
{
    match clear(bytes) {
        [] => true,
        [b, ..] => !(expands(*b) || quotes_dollar(place, *b)),
    }
}

/// Whether the backslash before these bytes stands for itself.
fn is_bare_backslash(place: Context, bytes: &[u8]) -> bool
    ensures { result ≡ bytes_of.is_bare_backslash (context place) bytes.now }
{
    match bytes {
        [] => false,
        [b, ..] => !is_escaped(place, *b),
    }
}

/// Whether the byte stands for itself by what follows it.
#[tactic(auto, unfolding(bash_grammar::specs::Bytes::is_literal))]
pub fn is_literal(place: Context, b: u8, after: &[u8]) -> bool
    ensures { result ≡ bytes_of.is_literal (context place) b after.now }
{
    (is_plain(place, b) && !(opens_glob(place, b, after) || opens_process(place, b, after)))
        || (b == b'$' && is_bare_dollar(place.spot, after))
        || (b == b'\\' && is_bare_backslash(place, after))
}

/// Whether a part of a word begins with this byte.
#[tactic(auto, unfolding(bash_grammar::specs::Bytes::begins_unit))]
fn begins_unit(place: Context, b: u8, after: &[u8]) -> bool
    ensures { result ≡ bytes_of.begins_unit (context place) b after.now }
{
    is_plain(place, b)
        || is_active(b)
        || (is_quote(place, b) && !is_quotes(place.spot))
        || opens_process(place, b, after)
}

/// Whether a part of a word begins here.
#[tactic(auto, unfolding(bash_grammar::specs::Bytes::unit_starts))]
pub fn unit_starts(place: Context, bytes: &[u8]) -> bool
    ensures { result ≡ bytes_of.unit_starts (context place) bytes.now }
{
    match clear(bytes) {
        [] => false,
        [b, after @ ..] => begins_unit(place, *b, after),
    }
}

/// Whether something else comes first than the bracket that ends the text where none is open.
fn goes_on_in(place: Spot, level: usize, bytes: &[u8]) -> bool
    ensures { result ≡ bytes_of.starts (λ b. not (b == bytes_of.closing (spot place) && level == 0)) bytes.now }
{
    match bytes {
        [] => false,
        [b, ..] => !(*b == closing(place) && level == 0),
    }
}

/// Whether a part begins here, where brackets count and so many are open.
#[tactic(auto, unfolding(bash_grammar::specs::Bytes::unit_starts_in))]
pub fn unit_starts_in(place: Context, level: usize, bytes: &[u8]) -> bool
    ensures { result ≡ bytes_of.unit_starts_in (context place) level bytes.now }
{
    if counts(place.spot) {
        goes_on_in(place.spot, level, clear(bytes))
    } else {
        unit_starts(place, bytes)
    }
}
