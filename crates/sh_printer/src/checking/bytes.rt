//! Texts whose bytes stand for themselves or are quoted (POSIX 2.2).

ghost use Rattle.std.specs.Prelude.{◌≡◌, ◌==◌, ◌&&◌, true, false, not, length};
ghost use Rattle.std.specs.List.{list_all};
ghost use Rattle.sh_grammar.specs.Bytes as bytes_of;
ghost use Rattle.sh_grammar.specs.Bytes.{has_single};
ghost use Rattle.sh_printer.specs.Codes.{view_context};
ghost use Rattle.sh_printing.specs.Marks.{is_quote};
ghost use Rattle.sh_printing.specs.Printable.{is_body_byte, literal_body};
ghost use Rattle.sh_printing.specs.Spellable.{is_literal_text, is_unjoined, keeps, is_exact_byte, is_escaped_text, exact_fits, exact_fits_by, ends_with, begins_with};

use crate::context::{Context, has_single};
use crate::leaves::is_quote;
use span_text::{Class, is_in};

/// A backslash with a newline right behind it.
fn is_join(byte: u8, behind: &[u8]) -> bool
    ensures { result ≡ bytes_of.is_join byte behind.now }
{
    match behind {
        [] => false,
        [next, ..] => byte == b'\\' && *next == b'\n',
    }
}

/// Without the joins at the front.
#[tactic(auto, unfolding(sh_grammar::specs::Bytes::clear))]
fn clear(bytes: &[u8]) -> &[u8]
    ensures { result.now ≡ bytes_of.clear bytes.now }
{
    let mut rest = bytes;
    'joins: loop {
        match rest {
            [] => return rest,
            [b'\\', after @ ..] => match after {
                [] => return rest,
                [b'\n', behind @ ..] => rest = behind,
                [_, ..] => return rest,
            },
            [_, ..] => return rest,
        }
    }
}

#[tactic(auto, unfolding(sh_grammar::specs::Bytes::is_special_param))]
fn is_special_param(byte: u8) -> bool
    ensures { result ≡ bytes_of.is_special_param byte }
{
    byte == b'#' || byte == b'?' || byte == b'@' || byte == b'*'
}

/// Whether a `$` before the byte begins an expansion, or what isn't read.
#[tactic(auto, unfolding(sh_grammar::specs::Bytes::expands))]
fn expands(byte: u8) -> bool
    ensures { result ≡ bytes_of.expands byte }
{
    is_in(Class::NameFirst, byte)
        || byte.is_ascii_digit()
        || is_special_param(byte)
        || byte == b'$'
        || byte == b'!'
        || byte == b'-'
        || byte == b'{'
        || byte == b'('
        || byte == b'`'
}

/// Whether the `$` before these bytes stands for itself.
fn is_bare_dollar(bytes: &[u8]) -> bool
    ensures { result ≡ bytes_of.is_bare_dollar bytes.now }
{
    match clear(bytes) {
        [] => true,
        [byte, ..] => !expands(*byte),
    }
}

fn is_blank(byte: u8) -> bool
    ensures { result ≡ bytes_of.is_blank byte }
{
    byte == b' ' || byte == b'\t'
}

/// Whether the byte ends a word or begins an operator (2.3).
#[tactic(auto, unfolding(sh_grammar::specs::Bytes::is_meta))]
fn is_meta(byte: u8) -> bool
    ensures { result ≡ bytes_of.is_meta byte }
{
    is_blank(byte)
        || byte == b'\n'
        || byte == b';'
        || byte == b'&'
        || byte == b'|'
        || byte == b'('
        || byte == b')'
        || byte == b'<'
        || byte == b'>'
}

#[tactic(auto, unfolding(sh_grammar::specs::Bytes::is_active))]
fn is_active(byte: u8) -> bool
    ensures { result ≡ bytes_of.is_active byte }
{
    byte == b'$' || byte == b'`' || byte == b'\\' || byte == 0
}

/// Whether the byte stands for itself there.
#[tactic(auto, unfolding(sh_grammar::specs::Bytes::is_plain))]
fn is_plain(context: Context, byte: u8) -> bool
    ensures { result ≡ bytes_of.is_plain (view_context context) byte }
{
    match context {
        Context::Word => !(is_active(byte) || is_meta(byte) || byte == b'\'' || byte == b'"'),
        Context::Double => !(is_active(byte) || byte == b'"'),
        Context::Body => !is_active(byte),
        Context::Brace => !(is_active(byte) || byte == b'}' || byte == b'\'' || byte == b'"'),
        Context::QuotedBrace => !(is_active(byte) || byte == b'}' || byte == b'\'' || byte == b'"'),
        Context::BodyBrace => !(is_active(byte) || byte == b'}' || byte == b'\'' || byte == b'"'),
        Context::BodyPattern => !(is_active(byte) || byte == b'}' || byte == b'\'' || byte == b'"'),
    }
}

/// Whether a backslash quotes the byte there.
#[tactic(auto, unfolding(sh_grammar::specs::Bytes::is_escaped))]
fn is_escaped(context: Context, byte: u8) -> bool
    ensures { result ≡ bytes_of.is_escaped (view_context context) byte }
{
    match context {
        Context::Word => byte != 0,
        Context::Double => byte == b'$' || byte == b'`' || byte == b'"' || byte == b'\\',
        Context::Body => byte == b'$' || byte == b'`' || byte == b'\\',
        Context::Brace => byte != 0,
        Context::QuotedBrace => {
            byte == b'$' || byte == b'`' || byte == b'"' || byte == b'\\' || byte == b'}'
        }
        Context::BodyBrace => byte == b'$' || byte == b'`' || byte == b'\\' || byte == b'}',
        Context::BodyPattern => byte != 0,
    }
}

fn is_bare_backslash(context: Context, bytes: &[u8]) -> bool
    ensures { result ≡ bytes_of.is_bare_backslash (view_context context) bytes.now }
{
    match bytes {
        [] => false,
        [byte, ..] => !(is_escaped(context, *byte) || *byte == 0),
    }
}

/// Whether the byte stands for itself there, before these.
#[tactic(auto, unfolding(sh_grammar::specs::Bytes::is_literal))]
fn is_literal(context: Context, byte: u8, behind: &[u8]) -> bool
    ensures { result ≡ bytes_of.is_literal (view_context context) byte behind.now }
{
    is_plain(context, byte)
        || (byte == b'$' && is_bare_dollar(behind))
        || (byte == b'\\' && is_bare_backslash(context, behind))
}

/// Whether the byte stands for itself there and begins no join.
fn is_whole(context: Context, byte: u8, behind: &[u8]) -> bool
    ensures { result ≡ (not (bytes_of.is_join byte behind.now) && bytes_of.is_literal (view_context context) byte behind.now) }
{
    !is_join(byte, behind) && is_literal(context, byte, behind)
}

/// Whether all bytes stand for themselves there.
pub fn is_literal_text(context: Context, text: &[u8]) -> bool
    ensures { result ≡ is_literal_text (view_context context) text.now }
{
    let mut rest = text;
    'bytes: loop {
        match rest {
            [] => return true,
            [byte, behind @ ..] => {
                if !is_whole(context, *byte, behind) {
                    return false;
                }
                rest = behind;
            }
        }
    }
}

/// Whether the text has no join: a newline behind a backslash that another one doesn't quote.
fn is_unjoined(text: &[u8]) -> bool
    ensures { result ≡ is_unjoined false text.now }
{
    let mut rest = text;
    'bytes: loop {
        match rest {
            [] => return true,
            [b'\\', b'\n', ..] => return false,
            [b'\\', _, behind @ ..] => rest = behind,
            [_, behind @ ..] => rest = behind,
        }
    }
}

/// Whether the text can stand inside the body of a here-document that is expanded, or there is no such body.
fn keeps(in_body: bool, text: &[u8]) -> bool
    ensures { result ≡ keeps in_body text.now }
{
    !in_body || is_unjoined(text)
}

/// Whether `'..'` quotes all bytes.
fn are_exact(text: &[u8]) -> bool
    ensures { result ≡ list_all is_exact_byte text.now }
{
    text.iter().all(|byte| !(*byte == b'\'' || *byte == 0))
}

/// Whether the text is a byte that a backslash quotes there.
fn is_escaped_text(context: Context, text: &[u8]) -> bool
    ensures { result ≡ is_escaped_text (view_context context) text.now }
{
    match text {
        [byte] => is_escaped(context, *byte) && *byte != b'\n',
        [] => false,
        [_, _, ..] => false,
    }
}

/// Whether single quotes or a backslash quote the text.
fn is_quotable(in_body: bool, text: &[u8]) -> bool
    ensures { result ≡ exact_fits_by true in_body bytes_of.in_word text.now }
{
    is_quote(text) || (are_exact(text) && keeps(in_body, text))
}

/// Whether the text can be quoted there.
pub fn exact_fits(in_body: bool, context: Context, text: &[u8]) -> bool
    ensures { result ≡ exact_fits in_body (view_context context) text.now }
{
    if has_single(context) {
        return is_quotable(in_body, text);
    }
    is_escaped_text(context, text)
}

pub fn ends_with(byte: u8, text: &[u8]) -> bool
    ensures { result ≡ ends_with byte text.now }
{
    let mut rest = text;
    'bytes: loop {
        match rest {
            [] => return false,
            [last] => return *last == byte,
            [_, behind @ ..] => rest = behind,
        }
    }
}

pub fn begins_with(byte: u8, text: &[u8]) -> bool
    ensures { result ≡ begins_with byte text.now }
{
    match text {
        [] => false,
        [first, ..] => *first == byte,
    }
}

fn has_no_nul(text: &[u8]) -> bool
    ensures { result ≡ list_all is_body_byte text.now }
{
    text.iter().all(|byte| *byte != 0)
}

/// Whether the text can be the body of a here-document that isn't expanded: lines.
pub fn are_body_lines(in_body: bool, text: &[u8]) -> bool
    ensures { result ≡ (ends_with 10 text.now && list_all is_body_byte text.now && keeps in_body text.now) }
{
    ends_with(b'\n', text) && has_no_nul(text) && keeps(in_body, text)
}
