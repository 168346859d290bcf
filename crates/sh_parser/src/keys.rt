//! Reserved words (POSIX 2.4), and what may come next.

ghost use Rattle.std.specs.Prelude.{◌≡◌, ◌||◌, false};
ghost use Rattle.span_text.specs.KnownNames.{same_text};
ghost use Rattle.sh_grammar.specs.Bytes as bytes_of;
ghost use Rattle.sh_grammar.specs.Tokens as tokens;
ghost use Rattle.sh_parser.specs.Fronts.{front_byte};
ghost use Rattle.sh_parser.specs.Kinds as kinds;

use crate::class::{Context, unit_starts};
use crate::gaps::gap;
use crate::runs::{Run, run_end, run_is};
use crate::tokens::{Op, begins_redirect, is_token, token};

#[derive(Clone, Copy, Debug, PartialEq)]
pub enum Key {
    If,
    Then,
    Elif,
    Else,
    Fi,
    For,
    In,
    Until,
    While,
    Do,
    Done,
    Case,
    Esac,
    OpenBrace,
    CloseBrace,
    Bang,
}

#[tactic(auto, unfolding(sh_grammar::specs::Tokens::key_text))]
fn key_text(key: Key) -> &'static [u8]
    ensures { result.now ≡ tokens.key_text (kinds.key key) }
{
    match key {
        Key::If => b"if",
        Key::Then => b"then",
        Key::Elif => b"elif",
        Key::Else => b"else",
        Key::Fi => b"fi",
        Key::For => b"for",
        Key::In => b"in",
        Key::Until => b"until",
        Key::While => b"while",
        Key::Do => b"do",
        Key::Done => b"done",
        Key::Case => b"case",
        Key::Esac => b"esac",
        Key::OpenBrace => b"{",
        Key::CloseBrace => b"}",
        Key::Bang => b"!",
    }
}

/// What follows the bytes at a token's place that stand for themselves.
#[tactic(auto, unfolding(sh_grammar::specs::Bytes::literal_run))]
pub fn bare_end(bytes: &[u8]) -> &[u8]
    ensures { result.now ≡ (tokens.bare bytes.now).1 }
{
    run_end(Run::Literal(Context::Word), gap(bytes))
}

/// Whether a word here may be this text, by its first byte.
#[tactic(auto, using(crate::proofs::Front::other_front, crate::proofs::Front::no_front))]
fn may_begin(text: &[u8], bytes: &[u8]) -> bool
    ensures { result ≡ false → same_text (bytes_of.literal_run bytes_of.in_word bytes.now).0 text.now ≡ false }
{
    match text {
        [] => true,
        [first, ..] => match bytes {
            [] => false,
            [b, ..] => *b == *first || *b == b'\\',
        },
    }
}

/// Whether this reserved word comes next.
#[tactic(auto, unfolding(sh_grammar::specs::Tokens::is_key, sh_grammar::specs::Bytes::literal_run))]
pub fn is_key(key: Key, bytes: &[u8]) -> bool
    ensures { result ≡ tokens.is_key (kinds.key key) bytes.now }
{
    let text = key_text(key);
    let front = gap(bytes);
    may_begin(text, front)
        && run_is(Run::Literal(Context::Word), front, text)
        && !unit_starts(Context::Word, bare_end(bytes))
}

/// The first byte at a token's place, or NUL at the end.
fn front_byte(bytes: &[u8]) -> u8
    ensures { result ≡ front_byte (bytes_of.gap bytes.now) }
{
    match gap(bytes) {
        [] => 0,
        [b, ..] => *b,
    }
}

fn any_compound(bytes: &[u8]) -> bool
    ensures { result ≡ tokens.opens_compound bytes.now }
{
    is_key(Key::If, bytes)
        || is_key(Key::For, bytes)
        || is_key(Key::While, bytes)
        || is_key(Key::Until, bytes)
        || is_key(Key::Case, bytes)
        || is_key(Key::OpenBrace, bytes)
}

/// A reserved word that begins a compound command. Only those are compared that begin with the byte here.
#[tactic(auto, using(crate::proofs::Front::opens_if, crate::proofs::Front::opens_for, crate::proofs::Front::opens_while, crate::proofs::Front::opens_until, crate::proofs::Front::opens_case, crate::proofs::Front::opens_brace, crate::proofs::Front::opens_none))]
fn opens_compound(bytes: &[u8]) -> bool
    ensures { result ≡ tokens.opens_compound bytes.now }
{
    let front = front_byte(bytes);
    if front == b'\\' {
        any_compound(bytes)
    } else if front == b'i' {
        is_key(Key::If, bytes)
    } else if front == b'f' {
        is_key(Key::For, bytes)
    } else if front == b'w' {
        is_key(Key::While, bytes)
    } else if front == b'u' {
        is_key(Key::Until, bytes)
    } else if front == b'c' {
        is_key(Key::Case, bytes)
    } else if front == b'{' {
        is_key(Key::OpenBrace, bytes)
    } else {
        false
    }
}

fn any_other_key(bytes: &[u8]) -> bool
    ensures { result ≡ tokens.is_other_key bytes.now }
{
    is_key(Key::Then, bytes)
        || is_key(Key::Elif, bytes)
        || is_key(Key::Else, bytes)
        || is_key(Key::Fi, bytes)
        || is_key(Key::In, bytes)
        || is_key(Key::Do, bytes)
        || is_key(Key::Done, bytes)
        || is_key(Key::Esac, bytes)
        || is_key(Key::CloseBrace, bytes)
        || is_key(Key::Bang, bytes)
}

fn is_key_of_e(bytes: &[u8]) -> bool
    ensures { result ≡ (tokens.is_key tokens.Elif bytes.now || tokens.is_key tokens.Else bytes.now || tokens.is_key tokens.Esac bytes.now) }
{
    is_key(Key::Elif, bytes) || is_key(Key::Else, bytes) || is_key(Key::Esac, bytes)
}

fn is_key_of_d(bytes: &[u8]) -> bool
    ensures { result ≡ (tokens.is_key tokens.Do bytes.now || tokens.is_key tokens.Done bytes.now) }
{
    is_key(Key::Do, bytes) || is_key(Key::Done, bytes)
}

/// A reserved word that begins no command. Only those are compared that begin with the byte here.
#[tactic(auto, using(crate::proofs::Front::other_then, crate::proofs::Front::other_e, crate::proofs::Front::other_fi, crate::proofs::Front::other_in, crate::proofs::Front::other_d, crate::proofs::Front::other_brace, crate::proofs::Front::other_bang, crate::proofs::Front::other_none))]
fn is_other_key(bytes: &[u8]) -> bool
    ensures { result ≡ tokens.is_other_key bytes.now }
{
    let front = front_byte(bytes);
    if front == b'\\' {
        any_other_key(bytes)
    } else if front == b't' {
        is_key(Key::Then, bytes)
    } else if front == b'e' {
        is_key_of_e(bytes)
    } else if front == b'f' {
        is_key(Key::Fi, bytes)
    } else if front == b'i' {
        is_key(Key::In, bytes)
    } else if front == b'd' {
        is_key_of_d(bytes)
    } else if front == b'}' {
        is_key(Key::CloseBrace, bytes)
    } else if front == b'!' {
        is_key(Key::Bang, bytes)
    } else {
        false
    }
}

/// Whether `<<` or `<<-` comes next.
#[tactic(auto, unfolding(sh_grammar::specs::Tokens::here_next))]
pub fn here_next(bytes: &[u8]) -> bool
    ensures { result ≡ tokens.here_next bytes.now }
{
    is_token(Op::DLess, bytes) || is_token(Op::DLessDash, bytes)
}

/// Whether `<&` or `>&` comes next.
#[tactic(auto, unfolding(sh_grammar::specs::Tokens::copy_next))]
pub fn copy_next(bytes: &[u8]) -> bool
    ensures { result ≡ tokens.copy_next bytes.now }
{
    is_token(Op::LessAnd, bytes) || is_token(Op::GreatAnd, bytes)
}

/// Whether a redirection comes next.
pub fn redirect_next(bytes: &[u8]) -> bool
    ensures { result ≡ tokens.redirect_next bytes.now }
{
    begins_redirect(token(bytes).0)
}

/// Whether a word comes next that is no reserved word.
#[tactic(auto, unfolding(sh_grammar::specs::Tokens::name_next))]
pub fn name_next(bytes: &[u8]) -> bool
    ensures { result ≡ tokens.name_next bytes.now }
{
    is_token(Op::Word, bytes) && !(opens_compound(bytes) || is_other_key(bytes))
}

/// Whether a simple command's redirection or word comes next.
#[tactic(auto, unfolding(sh_grammar::specs::Tokens::simple_next))]
pub fn simple_next(bytes: &[u8]) -> bool
    ensures { result ≡ tokens.simple_next bytes.now }
{
    redirect_next(bytes) || name_next(bytes)
}

/// Whether a compound command comes next.
#[tactic(auto, unfolding(sh_grammar::specs::Tokens::compound_next))]
pub fn compound_next(bytes: &[u8]) -> bool
    ensures { result ≡ tokens.compound_next bytes.now }
{
    is_token(Op::Open, bytes) || (is_token(Op::Word, bytes) && opens_compound(bytes))
}

#[tactic(auto, unfolding(sh_grammar::specs::Tokens::command_next))]
fn command_next(bytes: &[u8]) -> bool
    ensures { result ≡ tokens.command_next bytes.now }
{
    compound_next(bytes) || simple_next(bytes)
}

/// Whether a pipeline comes next.
#[tactic(auto, unfolding(sh_grammar::specs::Tokens::pipeline_next))]
pub fn pipeline_next(bytes: &[u8]) -> bool
    ensures { result ≡ tokens.pipeline_next bytes.now }
{
    is_key(Key::Bang, bytes) || command_next(bytes)
}
