//! Names, parameters, and words that are something else at their place.

ghost use Rattle.std.specs.Prelude.{◌≡◌, ◌<◌, ◌==◌, ◌||◌, ◌&&◌, not, nat_lt, suc, length, map, Some, None};
ghost use Rattle.std.specs.List.{list_all};
ghost use Rattle.span_text.specs.Names.{is_digit, is_name};
ghost use Rattle.sh_grammar.specs.Steps.{limit, is_copied, is_empty};
ghost use Rattle.sh_printing.specs.Printable.{fd_fits, is_copied_text};
ghost use Rattle.sh_printing.specs.Spellable.{is_digits, is_long, param_fits, bare_fits, is_count, equals_behind, begins_assign};
ghost use Rattle.sh_syntax.specs.View.{view_param};

use crate::checking::checks::Nesting;
use sh_syntax::Param;
use span_text::{Class, is_in, is_name};

/// The deepest nesting.
pub const LIMIT: usize = 1000;

/// Whether one level more can be opened.
pub fn has_room(nesting: Nesting) -> bool
    ensures { result ≡ nat_lt nesting.depth limit }
{
    nesting.depth < LIMIT
}

/// Whether something fits, and one level more can be opened.
pub fn has_room_for(fits: bool, nesting: Nesting) -> bool
    ensures { result ≡ (nat_lt nesting.depth limit && fits) }
{
    has_room(nesting) && fits
}

/// One level deeper, where that is within the limit.
pub fn deeper(nesting: Nesting) -> Nesting
    ensures depth { nesting.depth < limit → result.depth ≡ suc nesting.depth }
    ensures body { result.in_body ≡ nesting.in_body }
{
    Nesting {
        in_body: nesting.in_body,
        depth: nesting.depth.saturating_add(1),
    }
}

fn are_digits(text: &[u8]) -> bool
    ensures { result ≡ list_all is_digit text.now }
{
    text.iter().all(|byte| byte.is_ascii_digit())
}

fn is_number(text: &[u8]) -> bool
    ensures { result ≡ is_digits text.now }
{
    !text.is_empty() && are_digits(text)
}

/// Whether the parameter can stand between braces (2.5).
pub fn param_fits(param: &Param) -> bool
    ensures { result ≡ param_fits (view_param param.now) }
{
    match param {
        Param::Name(name) => is_name(name.text.bytes()),
        Param::Digits(text) => is_number(text.bytes()),
        Param::Count => true,
        Param::Status => true,
        Param::At => true,
        Param::Star => true,
    }
}

fn is_long(text: &[u8]) -> bool
    ensures { result ≡ is_long text.now }
{
    match text {
        [_, _, ..] => true,
        [] => false,
        [_] => false,
    }
}

/// Whether the braces, which are a level of nesting, are needed only where there is room for them.
fn has_room_if(braces: bool, nesting: Nesting) -> bool
    ensures { result ≡ (not braces || nat_lt nesting.depth limit) }
{
    !braces || has_room(nesting)
}

fn name_fits(text: &[u8], more: bool, nesting: Nesting) -> bool
    ensures { result ≡ (is_name text.now && (not more || nat_lt nesting.depth limit)) }
{
    is_name(text) && has_room_if(more, nesting)
}

fn digits_fit(text: &[u8], nesting: Nesting) -> bool
    ensures { result ≡ (is_digits text.now && (not (is_long text.now) || nat_lt nesting.depth limit)) }
{
    is_number(text) && has_room_if(is_long(text), nesting)
}

/// Whether the parameter can stand as `$a`, or with braces where more of a name follows.
pub fn bare_fits(nesting: Nesting, more: bool, param: &Param) -> bool
    ensures { result ≡ bare_fits nesting.depth more (view_param param.now) }
{
    match param {
        Param::Name(name) => name_fits(name.text.bytes(), more, nesting),
        Param::Digits(text) => digits_fit(text.bytes(), nesting),
        Param::Count => true,
        Param::Status => true,
        Param::At => true,
        Param::Star => true,
    }
}

pub fn is_count(param: &Param) -> bool
    ensures { result ≡ is_count (view_param param.now) }
{
    match param {
        Param::Count => true,
        Param::Name(_) => false,
        Param::Digits(_) => false,
        Param::Status => false,
        Param::At => false,
        Param::Star => false,
    }
}

/// Whether an assignment's `=` comes behind the rest of a name.
fn equals_behind(text: &[u8]) -> bool
    ensures { result ≡ equals_behind text.now }
{
    let mut rest = text;
    'name: loop {
        match rest {
            [] => return false,
            [byte, behind @ ..] => {
                if !is_in(Class::NameRest, *byte) {
                    return *byte == b'=';
                }
                rest = behind;
            }
        }
    }
}

/// Whether the text begins with `name=` (2.9.1).
pub fn begins_assign(text: &[u8]) -> bool
    ensures { result ≡ begins_assign text.now }
{
    match text {
        [] => false,
        [first, behind @ ..] => is_in(Class::NameFirst, *first) && equals_behind(behind),
    }
}

/// Whether the descriptor is one digit (2.7).
pub fn fd_fits(fd: Option<u8>) -> bool
    ensures { result ≡ fd_fits fd }
{
    match fd {
        None => true,
        Some(number) => number < 10,
    }
}

/// Whether `<&` can stand before the text: a digit or `-`.
pub fn is_copied_text(text: &[u8]) -> bool
    ensures { result ≡ is_copied_text text.now }
{
    match text {
        [byte] => byte.is_ascii_digit() || *byte == b'-',
        [] => false,
        [_, _, ..] => false,
    }
}
