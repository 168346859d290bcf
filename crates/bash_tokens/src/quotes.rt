//! What stands between `'..'` and between `$'..'` (Bash manual, sections 3.1.2.2 and 3.1.2.4).

ghost use Rattle.std.specs.Prelude.{◌≡◌, ◌≤◌, ◌+◌, ◌*◌, ◌-◌, ℕ, Option, true, length, Some, IfSome};
ghost use Rattle.bash_grammar.specs.Quotes as quotes;
ghost use Rattle.bash_tokens.specs.Answers.{Gives, Shows};
ghost use Rattle.bash_tokens.specs.Escapes.{escaped, ansi_of, first_of};

use crate::fault::Stop;
use span_text::Text;
use std::alloc::Global;

/// The bytes up to the closing quote, and what follows it.
#[tactic(auto, unfolding(bash_grammar::specs::Quotes::quoted_run))]
pub fn quoted_run<'a>(alloc: Global, bytes: &'a [u8]) -> Result<(Text, &'a [u8]), Stop>
    ensures { Gives (λ x. (x.0, x.1.now)) result (quotes.quoted_run bytes.now) }
{
    let mut text = Vec::new(alloc);
    let mut rest = bytes;
    'bytes: loop {
        match rest {
            [] => return Err(Stop::Mismatch),
            [b, after @ ..] => {
                if *b == b'\'' {
                    return Ok((Text::from_vec(text), after));
                }
                text.push(*b)?;
                rest = after;
            },
        }
    }
}

/// The bytes of `$'..'`; how many were ahead at its first escape that isn't one; and what follows the closing quote.
#[derive(Drop)]
pub struct Ansi<'a> {
    pub text: Text,
    pub bad: Option<usize>,
    pub rest: &'a [u8],
}

/// The byte that a letter behind a backslash stands for.
#[tactic(auto, unfolding(bash_grammar::specs::Quotes::letter))]
fn letter(b: u8) -> Option<u8>
    ensures { Shows (λ x. x) result (quotes.letter b) }
{
    if b == b'a' {
        Some(7)
    } else if b == b'b' {
        Some(8)
    } else if b == b'e' || b == b'E' {
        Some(27)
    } else if b == b'f' {
        Some(12)
    } else if b == b'n' {
        Some(10)
    } else if b == b'r' {
        Some(13)
    } else if b == b't' {
        Some(9)
    } else if b == b'v' {
        Some(11)
    } else if b == b'\\' || b == b'\'' || b == b'"' || b == b'?' {
        Some(b)
    } else {
        None
    }
}

fn is_octal(b: u8) -> bool
    ensures is { result ≡ quotes.is_octal b }
    ensures small { result ≡ true → b - 48 ≤ 7 }
    ensures digit { result ≡ true → 48 ≤ b }
{
    48 <= b && b <= 55
}

/// The value of a hexadecimal digit.
fn digit_of(b: u8) -> Option<u8>
    ensures is { Shows (λ x. x) result (quotes.digit_of b) }
    ensures small { IfSome result (λ d. d ≤ 15) }
{
    if 48 <= b && b <= 57 {
        Some(b - 48)
    } else if 97 <= b && b <= 102 {
        Some(b - 87)
    } else if 65 <= b && b <= 70 {
        Some(b - 55)
    } else {
        None
    }
}

/// Behind two octal digits: their value with a third, if one is there.
#[tactic(auto, using(crate::proofs::Escapes::octal_more, crate::proofs::Escapes::octal_ends))]
fn octal_third(value: u16, bytes: &[u8]) -> (u16, &[u8])
    requires { value ≤ 63 }
    ensures is { (at : ℕ) → quotes.ansi_from (quotes.octal at 2 value) bytes.now ≡ quotes.says_value at result.0 (quotes.ansi_from quotes.outside result.1.now) }
    ensures less { length result.1.now ≤ length bytes.now }
{
    match bytes {
        [] => (value, bytes),
        [b, rest @ ..] => if is_octal(*b) {
            (8 * value + (*b - 48) as u16, rest)
        } else {
            (value, bytes)
        },
    }
}

/// Behind an octal digit: the value with two more, if they are there.
#[tactic(auto, unfolding(bash_grammar::specs::Quotes::ansi_from), using(crate::proofs::Escapes::octal_ends))]
fn octal_second(value: u16, bytes: &[u8]) -> (u16, &[u8])
    requires { value ≤ 7 }
    ensures is { (at : ℕ) → quotes.ansi_from (quotes.octal at 1 value) bytes.now ≡ quotes.says_value at result.0 (quotes.ansi_from quotes.outside result.1.now) }
    ensures less { length result.1.now ≤ length bytes.now }
{
    match bytes {
        [] => (value, bytes),
        [b, rest @ ..] => if is_octal(*b) {
            octal_third(8 * value + (*b - 48) as u16, rest)
        } else {
            (value, bytes)
        },
    }
}

/// Behind a hexadecimal digit: the value with a second, if one is there.
#[tactic(auto, unfolding(bash_grammar::specs::Quotes::ansi_from), using(crate::proofs::Escapes::hexadecimal_done, crate::proofs::Escapes::hexadecimal_ends, crate::proofs::Escapes::hexadecimal_none))]
fn hexadecimal_second(value: u16, bytes: &[u8]) -> (u16, &[u8])
    requires { value ≤ 15 }
    ensures is { (at : ℕ) → quotes.ansi_from (quotes.hexadecimal at 1 value) bytes.now ≡ quotes.says_value at result.0 (quotes.ansi_from quotes.outside result.1.now) }
    ensures less { length result.1.now ≤ length bytes.now }
{
    match bytes {
        [] => (value, bytes),
        [b, rest @ ..] => match digit_of(*b) {
            Some(digit) => (16 * value + digit as u16, rest),
            None => (value, bytes),
        },
    }
}

/// Behind `\x`: the value of one or two digits, or 0.
#[tactic(auto, unfolding(bash_grammar::specs::Quotes::ansi_from), using(crate::proofs::Escapes::hexadecimal_ends, crate::proofs::Escapes::hexadecimal_none))]
fn hexadecimal_at(bytes: &[u8]) -> (u16, &[u8])
    ensures is { (at : ℕ) → quotes.ansi_from (quotes.hexadecimal at 0 0) bytes.now ≡ quotes.says_value at result.0 (quotes.ansi_from quotes.outside result.1.now) }
    ensures less { length result.1.now ≤ length bytes.now }
{
    match bytes {
        [] => (0, bytes),
        [b, rest @ ..] => match digit_of(*b) {
            Some(digit) => hexadecimal_second(digit as u16, rest),
            None => (0, bytes),
        },
    }
}

/// A value from 1 to 255.
fn byte_of(value: u16) -> Option<u8>
    ensures { (at : ℕ) (x : Option quotes.Ansi) → quotes.says_value at value x ≡ escaped at result x }
{
    if 1 <= value && value <= 255 {
        Some(value as u8)
    } else {
        None
    }
}

/// Behind a backslash: the byte that the escape stands for, if it is one, and what follows it.
#[tactic(auto, unfolding(bash_grammar::specs::Quotes::ansi_from))]
fn escape_at(bytes: &[u8]) -> (Option<u8>, &[u8])
    ensures is { (at : ℕ) → quotes.ansi_from (quotes.kept at) bytes.now ≡ escaped at result.0 (quotes.ansi_from quotes.outside result.1.now) }
    ensures less { length result.1.now ≤ length bytes.now }
{
    match bytes {
        [] => (None, bytes),
        [b, rest @ ..] => {
            if let Some(value) = letter(*b) {
                return (Some(value), rest);
            }
            let (value, behind) = if is_octal(*b) {
                octal_second((*b - 48) as u16, rest)
            } else if *b == b'x' {
                hexadecimal_at(rest)
            } else {
                return (None, rest);
            };
            (byte_of(value), behind)
        },
    }
}

/// The first of both, if there is one.
fn or_next(first: Option<usize>, second: usize) -> Option<usize>
    ensures { result ≡ Some (first_of first second) }
{
    match first {
        Some(at) => Some(at),
        None => Some(second),
    }
}

/// The bytes of `$'..'` behind its first quote.
#[tactic(auto, unfolding(bash_grammar::specs::Quotes::ansi_from), using(crate::proofs::Escapes::ends, crate::proofs::Escapes::keeps, crate::proofs::Escapes::spoils))]
pub fn ansi_at<'a>(alloc: Global, bytes: &'a [u8]) -> Result<Ansi<'a>, Stop>
    ensures { Gives ansi_of result (quotes.ansi_from quotes.outside bytes.now) }
{
    let mut text = Vec::new(alloc);
    let mut bad = None;
    let mut rest = bytes;
    'bytes: loop {
        match rest {
            [] => return Err(Stop::Mismatch),
            [b'\'', after @ ..] => return Ok(quoted(text, bad, after)),
            [b'\\', after @ ..] => {
                let at = rest.len();
                let (value, behind) = escape_at(after);
                match value {
                    Some(byte) => text.push(byte)?,
                    None => bad = or_next(bad, at),
                }
                rest = behind;
            },
            [b, after @ ..] => {
                text.push(*b)?;
                rest = after;
            },
        }
    }
}

fn quoted<'a>(text: Vec<u8>, bad: Option<usize>, rest: &'a [u8]) -> Ansi<'a>
    ensures { ansi_of result ≡ record { text = text.items; bad = bad; rest = rest.now } }
{
    Ansi {
        text: Text::from_vec(text),
        bad,
        rest,
    }
}
