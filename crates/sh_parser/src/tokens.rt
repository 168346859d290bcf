//! Operators, each the longest at its place (POSIX 2.3).

ghost use Rattle.std.specs.Prelude.{◌≡◌, ◌==◌, ◌∷◌, length, true, if◌then◌else◌};
ghost use Rattle.span_text.specs.Names.{is_digit as digit};
ghost use Rattle.sh_grammar.specs.Bytes.{starts, digit_run, in_word};
ghost use Rattle.sh_grammar.specs.Bytes as bytes_of;
ghost use Rattle.sh_grammar.specs.Tokens as tokens;
ghost use Rattle.sh_grammar.specs.Tokens.{goes_on_with, Other as other, SemiSemi as semi_semi};
ghost use Rattle.sh_parser.specs.Kinds.{op, redirect_op};

use crate::class::{Context, is_digit, unit_starts};
use crate::gaps::{clear, gap};
use crate::runs::{Run, run_end};

/// What stands at the front.
#[derive(Clone, Copy, Debug, PartialEq)]
pub enum Op {
    /// The end of the text.
    End,
    Newline,
    Semi,
    SemiSemi,
    AndIf,
    OrIf,
    Pipe,
    Open,
    Close,
    Less,
    Great,
    DGreat,
    DLess,
    DLessDash,
    LessAnd,
    GreatAnd,
    /// One digit right before `<` or `>`.
    Io,
    /// A word begins.
    Word,
    /// An operator that isn't read, or no token.
    Other,
}

fn semi_semi_at(bytes: &[u8]) -> (Op, &[u8])
    ensures { (op result.0, result.1.now) ≡ goes_on_with 38 bytes.now (λ ds. (other, ds)) (semi_semi, bytes.now) }
{
    match clear(bytes) {
        [] => (Op::SemiSemi, bytes),
        [b, after @ ..] => if *b == b'&' {
            (Op::Other, after)
        } else {
            (Op::SemiSemi, bytes)
        },
    }
}

#[tactic(auto, unfolding(sh_grammar::specs::Tokens::semi_at))]
fn semi_at(bytes: &[u8]) -> (Op, &[u8])
    ensures { (op result.0, result.1.now) ≡ tokens.semi_at bytes.now }
{
    match clear(bytes) {
        [] => (Op::Semi, bytes),
        [b, after @ ..] => if *b == b';' {
            semi_semi_at(after)
        } else if *b == b'&' {
            (Op::Other, after)
        } else {
            (Op::Semi, bytes)
        },
    }
}

#[tactic(auto, unfolding(sh_grammar::specs::Tokens::and_at))]
fn and_at(bytes: &[u8]) -> (Op, &[u8])
    ensures { (op result.0, result.1.now) ≡ tokens.and_at bytes.now }
{
    match clear(bytes) {
        [] => (Op::Other, bytes),
        [b, after @ ..] => if *b == b'&' {
            (Op::AndIf, after)
        } else {
            (Op::Other, bytes)
        },
    }
}

#[tactic(auto, unfolding(sh_grammar::specs::Tokens::pipe_at))]
fn pipe_at(bytes: &[u8]) -> (Op, &[u8])
    ensures { (op result.0, result.1.now) ≡ tokens.pipe_at bytes.now }
{
    match clear(bytes) {
        [] => (Op::Pipe, bytes),
        [b, after @ ..] => if *b == b'|' {
            (Op::OrIf, after)
        } else if *b == b'&' {
            (Op::Other, after)
        } else {
            (Op::Pipe, bytes)
        },
    }
}

#[tactic(auto, unfolding(sh_grammar::specs::Tokens::here_at))]
fn here_at(bytes: &[u8]) -> (Op, &[u8])
    ensures { (op result.0, result.1.now) ≡ tokens.here_at bytes.now }
{
    match clear(bytes) {
        [] => (Op::DLess, bytes),
        [b, after @ ..] => if *b == b'-' {
            (Op::DLessDash, after)
        } else if *b == b'<' {
            (Op::Other, after)
        } else {
            (Op::DLess, bytes)
        },
    }
}

#[tactic(auto, unfolding(sh_grammar::specs::Tokens::less_at))]
fn less_at(bytes: &[u8]) -> (Op, &[u8])
    ensures { (op result.0, result.1.now) ≡ tokens.less_at bytes.now }
{
    match clear(bytes) {
        [] => (Op::Less, bytes),
        [b, after @ ..] => if *b == b'<' {
            here_at(after)
        } else if *b == b'&' {
            (Op::LessAnd, after)
        } else if *b == b'>' {
            (Op::Other, after)
        } else {
            (Op::Less, bytes)
        },
    }
}

#[tactic(auto, unfolding(sh_grammar::specs::Tokens::great_at))]
fn great_at(bytes: &[u8]) -> (Op, &[u8])
    ensures { (op result.0, result.1.now) ≡ tokens.great_at bytes.now }
{
    match clear(bytes) {
        [] => (Op::Great, bytes),
        [b, after @ ..] => if *b == b'>' {
            (Op::DGreat, after)
        } else if *b == b'&' {
            (Op::GreatAnd, after)
        } else if *b == b'|' {
            (Op::Other, after)
        } else {
            (Op::Great, bytes)
        },
    }
}

fn is_angle(bytes: &[u8]) -> bool
    ensures { result ≡ starts tokens.is_angle bytes.now }
{
    match bytes {
        [] => false,
        [b, ..] => *b == b'<' || *b == b'>',
    }
}

fn starts_digit(bytes: &[u8]) -> bool
    ensures { result ≡ starts digit bytes.now }
{
    match bytes {
        [] => false,
        [b, ..] => is_digit(*b),
    }
}

/// Whether the run of digits that this one begins is it alone.
#[tactic(auto, using(crate::proofs::Digits::one_digit))]
fn is_alone(b: u8, after: &[u8]) -> bool
    requires { digit b ≡ true }
    ensures { result ≡ (length (digit_run (b ∷ after.now)).0 == 1) }
{
    !starts_digit(clear(after))
}

#[tactic(auto, unfolding(sh_grammar::specs::Bytes::digit_run))]
#[inline(always)]
fn word_at(bytes: &[u8]) -> (Op, &[u8])
    ensures { (op result.0, result.1.now) ≡ tokens.word_at bytes.now }
{
    match bytes {
        [] => (Op::Word, bytes),
        [b, after @ ..] => {
            if !is_digit(*b) {
                return (Op::Word, bytes);
            }
            let rest = run_end(Run::Digits, bytes);
            if !is_angle(rest) {
                return (Op::Word, bytes);
            }
            if is_alone(*b, after) {
                (Op::Io, rest)
            } else {
                (Op::Other, bytes)
            }
        },
    }
}

#[inline(always)]
fn word_or_none(bytes: &[u8]) -> (Op, &[u8])
    ensures { (op result.0, result.1.now) ≡ (if bytes_of.unit_starts in_word bytes.now then tokens.word_at bytes.now else (other, bytes.now)) }
{
    if unit_starts(Context::Word, bytes) {
        word_at(bytes)
    } else {
        (Op::Other, bytes)
    }
}

#[tactic(auto, unfolding(sh_grammar::specs::Tokens::front))]
#[inline(always)]
fn front(bytes: &[u8]) -> (Op, &[u8])
    ensures { (op result.0, result.1.now) ≡ tokens.front bytes.now }
{
    match bytes {
        [] => (Op::End, bytes),
        [b'\n', rest @ ..] => (Op::Newline, rest),
        [b';', rest @ ..] => semi_at(rest),
        [b'&', rest @ ..] => and_at(rest),
        [b'|', rest @ ..] => pipe_at(rest),
        [b'(', rest @ ..] => (Op::Open, rest),
        [b')', rest @ ..] => (Op::Close, rest),
        [b'<', rest @ ..] => less_at(rest),
        [b'>', rest @ ..] => great_at(rest),
        [_, ..] => word_or_none(bytes),
    }
}

/// The token behind blanks and a comment, and what follows it; what begins a word stays.
#[tactic(auto, unfolding(sh_grammar::specs::Tokens::token))]
pub fn token(bytes: &[u8]) -> (Op, &[u8])
    ensures { (op result.0, result.1.now) ≡ tokens.token bytes.now }
{
    front(gap(bytes))
}

#[tactic(auto, unfolding(sh_grammar::specs::Tokens::code))]
#[inline(always)]
fn code(token: Op) -> u8
    ensures { result ≡ tokens.code (op token) }
{
    match token {
        Op::End => 0,
        Op::Newline => 1,
        Op::Semi => 2,
        Op::SemiSemi => 3,
        Op::AndIf => 4,
        Op::OrIf => 5,
        Op::Pipe => 6,
        Op::Open => 7,
        Op::Close => 8,
        Op::Less => 9,
        Op::Great => 10,
        Op::DGreat => 11,
        Op::DLess => 12,
        Op::DLessDash => 13,
        Op::LessAnd => 14,
        Op::GreatAnd => 15,
        Op::Io => 16,
        Op::Word => 17,
        Op::Other => 18,
    }
}

/// Whether a redirection begins with this token.
#[tactic(auto, unfolding(sh_grammar::specs::Tokens::code))]
#[inline(always)]
pub fn begins_redirect(token: Op) -> bool
    ensures { result ≡ redirect_op (op token) }
{
    match token {
        Op::Less | Op::Great | Op::DGreat | Op::DLess | Op::DLessDash => true,
        Op::LessAnd | Op::GreatAnd | Op::Io => true,
        Op::End | Op::Newline | Op::Semi | Op::SemiSemi | Op::AndIf | Op::OrIf => false,
        Op::Pipe | Op::Open | Op::Close | Op::Word | Op::Other => false,
    }
}

/// Whether this token comes next.
#[tactic(auto, unfolding(sh_grammar::specs::Tokens::is_token))]
#[inline(always)]
pub fn is_token(wanted: Op, bytes: &[u8]) -> bool
    ensures { result ≡ tokens.is_token (op wanted) bytes.now }
{
    code(token(bytes).0) == code(wanted)
}
