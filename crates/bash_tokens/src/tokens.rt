//! Operators, each the longest at its place (Bash manual, section 3.2).

ghost use Rattle.std.specs.Prelude.{◌≡◌, ◌==◌, ◌&&◌, ◌∷◌, length, true, None, if◌then◌else◌};
ghost use Rattle.span_text.specs.Names.{is_digit as digit, begins_name as name_byte};
ghost use Rattle.bash_grammar.specs.Bytes.{starts, digit_run};
ghost use Rattle.bash_grammar.specs.Bytes as bytes_of;
ghost use Rattle.bash_grammar.specs.Tokens as tokens;
ghost use Rattle.bash_grammar.specs.Tokens.{goes_on_with};
ghost use Rattle.bash_tokens.specs.Kinds.{op, control, redirection};
ghost use Rattle.bash_tokens.specs.Answers.{Shows};

use crate::class::{begins_name, is_angle, is_digit};
use crate::gaps::{clear, gap};
use crate::literals::byte_next;
use crate::operators::{Control, Op, Redirection};
use crate::runs::{Run, run_end};

/// Behind `;;`.
fn semi_semi_at(bytes: &[u8]) -> (Op, &[u8])
    ensures { (op result.0, result.1.now) ≡ goes_on_with 38 bytes.now (λ ds. (tokens.SemiSemiAnd, ds)) (tokens.SemiSemi, bytes.now) }
{
    match clear(bytes) {
        [] => (Op::Control(Control::SemiSemi), bytes),
        [b, after @ ..] => if *b == b'&' {
            (Op::Control(Control::SemiSemiAnd), after)
        } else {
            (Op::Control(Control::SemiSemi), bytes)
        },
    }
}

/// Behind `;`.
#[tactic(auto, unfolding(bash_grammar::specs::Tokens::semi_at))]
fn semi_at(bytes: &[u8]) -> (Op, &[u8])
    ensures { (op result.0, result.1.now) ≡ tokens.semi_at bytes.now }
{
    match clear(bytes) {
        [] => (Op::Control(Control::Semi), bytes),
        [b, after @ ..] => if *b == b';' {
            semi_semi_at(after)
        } else if *b == b'&' {
            (Op::Control(Control::SemiAnd), after)
        } else {
            (Op::Control(Control::Semi), bytes)
        },
    }
}

/// Behind `&>`.
fn and_great_at(bytes: &[u8]) -> (Op, &[u8])
    ensures { (op result.0, result.1.now) ≡ goes_on_with 62 bytes.now (λ ds. (tokens.AndDGreat, ds)) (tokens.AndGreat, bytes.now) }
{
    match clear(bytes) {
        [] => (Op::Redirection(Redirection::AndGreat), bytes),
        [b, after @ ..] => if *b == b'>' {
            (Op::Redirection(Redirection::AndDGreat), after)
        } else {
            (Op::Redirection(Redirection::AndGreat), bytes)
        },
    }
}

/// Behind `&`.
#[tactic(auto, unfolding(bash_grammar::specs::Tokens::and_at))]
fn and_at(bytes: &[u8]) -> (Op, &[u8])
    ensures { (op result.0, result.1.now) ≡ tokens.and_at bytes.now }
{
    match clear(bytes) {
        [] => (Op::Control(Control::Amp), bytes),
        [b, after @ ..] => if *b == b'&' {
            (Op::Control(Control::AndIf), after)
        } else if *b == b'>' {
            and_great_at(after)
        } else {
            (Op::Control(Control::Amp), bytes)
        },
    }
}

/// Behind `|`.
#[tactic(auto, unfolding(bash_grammar::specs::Tokens::pipe_at))]
fn pipe_at(bytes: &[u8]) -> (Op, &[u8])
    ensures { (op result.0, result.1.now) ≡ tokens.pipe_at bytes.now }
{
    match clear(bytes) {
        [] => (Op::Control(Control::Pipe), bytes),
        [b, after @ ..] => if *b == b'|' {
            (Op::Control(Control::OrIf), after)
        } else if *b == b'&' {
            (Op::Control(Control::PipeAnd), after)
        } else {
            (Op::Control(Control::Pipe), bytes)
        },
    }
}

/// Behind `<<`.
#[tactic(auto, unfolding(bash_grammar::specs::Tokens::here_at))]
fn here_at(bytes: &[u8]) -> (Op, &[u8])
    ensures { (op result.0, result.1.now) ≡ tokens.here_at bytes.now }
{
    match clear(bytes) {
        [] => (Op::Redirection(Redirection::DLess), bytes),
        [b, after @ ..] => if *b == b'-' {
            (Op::Redirection(Redirection::DLessDash), after)
        } else if *b == b'<' {
            (Op::Redirection(Redirection::TLess), after)
        } else {
            (Op::Redirection(Redirection::DLess), bytes)
        },
    }
}

/// Behind `<`.
#[tactic(auto, unfolding(bash_grammar::specs::Tokens::less_at))]
fn less_at(bytes: &[u8]) -> (Op, &[u8])
    ensures { (op result.0, result.1.now) ≡ tokens.less_at bytes.now }
{
    match clear(bytes) {
        [] => (Op::Redirection(Redirection::Less), bytes),
        [b, after @ ..] => if *b == b'<' {
            here_at(after)
        } else if *b == b'&' {
            (Op::Redirection(Redirection::LessAnd), after)
        } else if *b == b'>' {
            (Op::Redirection(Redirection::LessGreat), after)
        } else {
            (Op::Redirection(Redirection::Less), bytes)
        },
    }
}

/// Behind `>`.
#[tactic(auto, unfolding(bash_grammar::specs::Tokens::great_at))]
fn great_at(bytes: &[u8]) -> (Op, &[u8])
    ensures { (op result.0, result.1.now) ≡ tokens.great_at bytes.now }
{
    match clear(bytes) {
        [] => (Op::Redirection(Redirection::Great), bytes),
        [b, after @ ..] => if *b == b'>' {
            (Op::Redirection(Redirection::DGreat), after)
        } else if *b == b'&' {
            (Op::Redirection(Redirection::GreatAnd), after)
        } else if *b == b'|' {
            (Op::Redirection(Redirection::Clobber), after)
        } else {
            (Op::Redirection(Redirection::Great), bytes)
        },
    }
}

/// Whether an operator that begins with `<` or `>` is here: a parenthesis right behind it makes a word of it.
fn is_redirecting(bytes: &[u8]) -> bool
    ensures { result ≡ tokens.is_redirecting bytes.now }
{
    match bytes {
        [] => false,
        [b, after @ ..] => is_angle(*b) && !byte_next(b'(', after),
    }
}

pub fn starts_digit(bytes: &[u8]) -> bool
    ensures { result ≡ starts digit bytes.now }
{
    match bytes {
        [] => false,
        [b, ..] => is_digit(*b),
    }
}

pub fn starts_name(bytes: &[u8]) -> bool
    ensures { result ≡ starts name_byte bytes.now }
{
    match bytes {
        [] => false,
        [b, ..] => begins_name(*b),
    }
}

/// Whether the run of digits that this one begins is it alone.
#[tactic(auto, using(crate::proofs::Digits::one_digit))]
fn is_alone(b: u8, after: &[u8]) -> bool
    requires { digit b ≡ true }
    ensures { result ≡ (length (digit_run (b ∷ after.now)).0 == 1) }
{
    !starts_digit(clear(after))
}

/// Digits in front: a descriptor, or a word.
#[tactic(auto, unfolding(bash_grammar::specs::Bytes::digit_run))]
fn digits_at<'a>(b: u8, after: &'a [u8], bytes: &'a [u8]) -> (Op, &'a [u8])
    requires digit { digit b ≡ true }
    requires all { bytes.now ≡ b ∷ after.now }
    ensures { (op result.0, result.1.now) ≡ tokens.digits_word bytes.now (digit_run bytes.now) }
{
    let rest = run_end(Run::Digits, bytes);
    if !is_redirecting(clear(rest)) {
        (Op::Word, bytes)
    } else if is_alone(b, after) {
        (Op::Io, rest)
    } else {
        (Op::Far, rest)
    }
}

/// Behind this byte.
pub fn behind(k: u8, bytes: &[u8]) -> Option<&[u8]>
    ensures { Shows (λ x. x.now) result (tokens.behind k bytes.now) }
{
    match bytes {
        [] => None,
        [b, rest @ ..] => if *b == k { Some(rest) } else { None },
    }
}

/// Behind the name that stands here and a brace.
#[tactic(auto, unfolding(bash_grammar::specs::Bytes::name_run))]
fn named_brace(bytes: &[u8]) -> Option<&[u8]>
    ensures { Shows (λ x. x.now) result (if starts name_byte (bytes_of.clear bytes.now) then tokens.behind 125 (bytes_of.clear (bytes_of.name_run bytes.now).1) else None) }
{
    if starts_name(clear(bytes)) {
        behind(b'}', clear(run_end(Run::Name, bytes)))
    } else {
        None
    }
}

/// Behind a name in braces.
fn braced_at(bytes: &[u8]) -> Option<&[u8]>
    ensures { Shows (λ x. x.now) result (tokens.braced_at bytes.now) }
{
    match behind(b'{', bytes) {
        None => None,
        Some(after) => named_brace(after),
    }
}

/// A name in braces in front: a descriptor, or a word.
fn braces_at(bytes: &[u8]) -> (Op, &[u8])
    ensures { (op result.0, result.1.now) ≡ tokens.braces_word bytes.now (tokens.braced_at bytes.now) }
{
    match braced_at(bytes) {
        None => (Op::Word, bytes),
        Some(rest) => if is_redirecting(clear(rest)) {
            (Op::Far, rest)
        } else {
            (Op::Word, bytes)
        },
    }
}

/// What begins a word, or the descriptor of a redirection.
fn word_at(bytes: &[u8]) -> (Op, &[u8])
    ensures { (op result.0, result.1.now) ≡ tokens.word_at bytes.now }
{
    match bytes {
        [] => braces_at(bytes),
        [b, after @ ..] => if is_digit(*b) {
            digits_at(*b, after, bytes)
        } else {
            braces_at(bytes)
        },
    }
}

/// An angle: an operator, or a word.
fn angle_at<'a>(b: u8, after: &'a [u8], bytes: &'a [u8]) -> (Op, &'a [u8])
    requires { bytes.now ≡ b ∷ after.now }
    ensures { (op result.0, result.1.now) ≡ tokens.angle_at b after.now }
{
    if byte_next(b'(', after) {
        (Op::Word, bytes)
    } else if b == b'<' {
        less_at(after)
    } else {
        great_at(after)
    }
}

/// The token at the front, and what follows it; what begins a word stays.
#[tactic(auto, unfolding(bash_grammar::specs::Tokens::front))]
fn front(bytes: &[u8]) -> (Op, &[u8])
    ensures { (op result.0, result.1.now) ≡ tokens.front bytes.now }
{
    match bytes {
        [] => (Op::End, bytes),
        [b'\n', rest @ ..] => (Op::Newline, rest),
        [b';', rest @ ..] => semi_at(rest),
        [b'&', rest @ ..] => and_at(rest),
        [b'|', rest @ ..] => pipe_at(rest),
        [b'(', rest @ ..] => (Op::Control(Control::Open), rest),
        [b')', rest @ ..] => (Op::Control(Control::Close), rest),
        [b'<', rest @ ..] => angle_at(b'<', rest, bytes),
        [b'>', rest @ ..] => angle_at(b'>', rest, bytes),
        [_, ..] => word_at(bytes),
    }
}

/// The token behind blanks and a comment, and what follows it; what begins a word stays.
#[tactic(auto, unfolding(bash_grammar::specs::Tokens::token))]
pub fn token(bytes: &[u8]) -> (Op, &[u8])
    ensures { (op result.0, result.1.now) ≡ tokens.token bytes.now }
{
    front(gap(bytes))
}

#[tactic(auto, unfolding(bash_grammar::specs::Tokens::code))]
fn control_code(token: Control) -> u8
    ensures { result ≡ tokens.code (control token) }
{
    match token {
        Control::Semi => 2,
        Control::SemiSemi => 3,
        Control::SemiAnd => 4,
        Control::SemiSemiAnd => 5,
        Control::Amp => 6,
        Control::AndIf => 7,
        Control::OrIf => 8,
        Control::Pipe => 9,
        Control::PipeAnd => 10,
        Control::Open => 11,
        Control::Close => 12,
    }
}

#[tactic(auto, unfolding(bash_grammar::specs::Tokens::code))]
fn redirection_code(token: Redirection) -> u8
    ensures { result ≡ tokens.code (redirection token) }
{
    match token {
        Redirection::Less => 13,
        Redirection::Great => 14,
        Redirection::Clobber => 15,
        Redirection::DGreat => 16,
        Redirection::DLess => 17,
        Redirection::DLessDash => 18,
        Redirection::TLess => 19,
        Redirection::LessAnd => 20,
        Redirection::GreatAnd => 21,
        Redirection::LessGreat => 22,
        Redirection::AndGreat => 23,
        Redirection::AndDGreat => 24,
    }
}

/// The number of the token, by which tokens are compared.
#[tactic(auto, unfolding(bash_grammar::specs::Tokens::code))]
fn code(token: Op) -> u8
    ensures { result ≡ tokens.code (op token) }
{
    match token {
        Op::End => 0,
        Op::Newline => 1,
        Op::Control(token) => control_code(token),
        Op::Redirection(token) => redirection_code(token),
        Op::Io => 25,
        Op::Far => 26,
        Op::Word => 27,
    }
}

/// Whether this token comes next.
#[tactic(auto, unfolding(bash_grammar::specs::Tokens::is_token))]
pub fn is_token(wanted: Op, bytes: &[u8]) -> bool
    ensures { result ≡ tokens.is_token (op wanted) bytes.now }
{
    code(token(bytes).0) == code(wanted)
}

pub fn is_control(wanted: Control, bytes: &[u8]) -> bool
    ensures { result ≡ tokens.is_token (control wanted) bytes.now }
{
    is_token(Op::Control(wanted), bytes)
}

pub fn is_redirection(wanted: Redirection, bytes: &[u8]) -> bool
    ensures { result ≡ tokens.is_token (redirection wanted) bytes.now }
{
    is_token(Op::Redirection(wanted), bytes)
}
