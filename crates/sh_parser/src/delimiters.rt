//! Delimiters of here-documents (POSIX 2.7.4).

ghost use Rattle.std.specs.Prelude.{◌≡◌, ◌==◌, ◌∷◌};
ghost use Rattle.sh_grammar.specs.Bytes as bytes_of;
ghost use Rattle.sh_grammar.specs.Bodies as bodies;
ghost use Rattle.sh_parser.specs.Answers.{Gives};
ghost use Rattle.sh_parser.specs.Delimiters.{mode, continued, ended, shown};

use crate::class::{Context, is_escaped, is_plain, unit_starts};
use crate::fault::Stop;
use crate::gaps::{clear, is_join};
use span_text::Text;
use std::alloc::Global;

/// Where the reading of a delimiter is.
#[derive(Clone, Copy)]
pub enum Mode {
    Bare,
    Single,
    Double,
    /// Behind a backslash.
    Kept,
    KeptDouble,
    /// Before the newline of a join.
    Joined,
    JoinedDouble,
}

/// What a byte does.
#[derive(Clone, Copy)]
pub enum Turn {
    /// It stands for nothing.
    Skips(Mode),
    /// It quotes what follows.
    Quotes(Mode),
    /// It stands for itself.
    Keeps(Mode),
    /// It and the backslash before it stand for themselves.
    KeepsBoth(Mode),
    /// It is behind the delimiter.
    Ends,
    /// Nothing is spelled so.
    Fails,
}

/// A delimiter, and whether something in it was quoted.
#[derive(Debug, Drop)]
pub struct Delimiter {
    pub text: Text,
    pub quoted: bool,
}

/// Whether the `$` before these bytes begins what no delimiter may hold.
fn opens_expansion(bytes: &[u8]) -> bool
    ensures { result ≡ bodies.opens_expansion bytes.now }
{
    match clear(bytes) {
        [] => false,
        [b, ..] => *b == b'{' || *b == b'(',
    }
}

#[tactic(auto, unfolding(sh_grammar::specs::Bodies::delimiter_from))]
fn bare_turn(b: u8, after: &[u8]) -> Turn
    ensures { bodies.delimiter_from bodies.bare (b ∷ after.now) ≡ continued result b after.now }
{
    if is_join(b, after) {
        Turn::Skips(Mode::Joined)
    } else if b == b'\'' {
        Turn::Quotes(Mode::Single)
    } else if b == b'"' {
        Turn::Quotes(Mode::Double)
    } else if b == b'\\' {
        Turn::Quotes(Mode::Kept)
    } else if b == b'$' && opens_expansion(after) {
        Turn::Fails
    } else if is_plain(Context::Word, b) || b == b'$' {
        Turn::Keeps(Mode::Bare)
    } else {
        Turn::Ends
    }
}

#[tactic(auto, unfolding(sh_grammar::specs::Bodies::delimiter_from))]
fn single_turn(b: u8, after: &[u8]) -> Turn
    ensures { bodies.delimiter_from bodies.single (b ∷ after.now) ≡ continued result b after.now }
{
    if b == b'\'' {
        Turn::Skips(Mode::Bare)
    } else if b == b'\n' || b == 0 {
        Turn::Fails
    } else {
        Turn::Keeps(Mode::Single)
    }
}

#[tactic(auto, unfolding(sh_grammar::specs::Bodies::delimiter_from))]
fn double_turn(b: u8, after: &[u8]) -> Turn
    ensures { bodies.delimiter_from bodies.doubled (b ∷ after.now) ≡ continued result b after.now }
{
    if is_join(b, after) {
        Turn::Skips(Mode::JoinedDouble)
    } else if b == b'"' {
        Turn::Skips(Mode::Bare)
    } else if b == b'\\' {
        Turn::Skips(Mode::KeptDouble)
    } else if b == b'`' || b == b'\n' || b == 0 {
        Turn::Fails
    } else {
        Turn::Keeps(Mode::Double)
    }
}

#[tactic(auto, unfolding(sh_grammar::specs::Bodies::delimiter_from))]
fn kept_turn(b: u8, after: &[u8]) -> Turn
    ensures { bodies.delimiter_from bodies.kept (b ∷ after.now) ≡ continued result b after.now }
{
    if b == 0 {
        Turn::Fails
    } else {
        Turn::Keeps(Mode::Bare)
    }
}

#[tactic(auto, unfolding(sh_grammar::specs::Bodies::delimiter_from))]
fn kept_double_turn(b: u8, after: &[u8]) -> Turn
    ensures { bodies.delimiter_from bodies.kept_doubled (b ∷ after.now) ≡ continued result b after.now }
{
    if b == 0 {
        Turn::Fails
    } else if is_escaped(Context::Double, b) {
        Turn::Keeps(Mode::Double)
    } else {
        Turn::KeepsBoth(Mode::Double)
    }
}

#[tactic(auto, unfolding(sh_grammar::specs::Bodies::delimiter_from))]
fn turn_of(at: Mode, b: u8, after: &[u8]) -> Turn
    ensures { bodies.delimiter_from (mode at) (b ∷ after.now) ≡ continued result b after.now }
{
    match at {
        Mode::Bare => bare_turn(b, after),
        Mode::Single => single_turn(b, after),
        Mode::Double => double_turn(b, after),
        Mode::Kept => kept_turn(b, after),
        Mode::KeptDouble => kept_double_turn(b, after),
        Mode::Joined => Turn::Skips(Mode::Bare),
        Mode::JoinedDouble => Turn::Skips(Mode::Double),
    }
}

/// Whether a delimiter may end with the text.
fn may_end(at: Mode) -> bool
    ensures { result ≡ ended at }
{
    match at {
        Mode::Bare => true,
        Mode::Single => false,
        Mode::Double => false,
        Mode::Kept => false,
        Mode::KeptDouble => false,
        Mode::Joined => false,
        Mode::JoinedDouble => false,
    }
}

fn delimiter_of(text: Vec<u8>, quoted: bool) -> Delimiter
    ensures text { result.text ≡ text.items }
    ensures quoted { result.quoted ≡ quoted }
{
    Delimiter {
        text: Text::from_vec(text),
        quoted,
    }
}

#[tactic(auto, unfolding(sh_grammar::specs::Bodies::delimiter_from), using(crate::proofs::Kept::delimiter_ends, crate::proofs::Kept::delimiter_quotes, crate::proofs::Kept::delimiter_keeps))]
fn delimiter_from(alloc: Global, bytes: &[u8]) -> Result<(Delimiter, &[u8]), Stop>
    ensures { Gives (λ x. shown x.0 x.1.now) result (bodies.delimiter_from bodies.bare bytes.now) }
{
    let mut text = Vec::new(alloc);
    let mut quoted = false;
    let mut at = Mode::Bare;
    let mut rest = bytes;
    'bytes: loop {
        match rest {
            [] => if may_end(at) {
                return Ok((delimiter_of(text, quoted), rest));
            } else {
                return Err(Stop::Bad);
            },
            [b, after @ ..] => {
                match turn_of(at, *b, after) {
                    Turn::Skips(next) => at = next,
                    Turn::Quotes(next) => {
                        at = next;
                        quoted = true;
                    },
                    Turn::Keeps(next) => {
                        at = next;
                        text.push(*b)?;
                    },
                    Turn::KeepsBoth(next) => {
                        at = next;
                        text.push(b'\\')?;
                        text.push(*b)?;
                    },
                    Turn::Ends => return Ok((delimiter_of(text, quoted), rest)),
                    Turn::Fails => return Err(Stop::Bad),
                }
                rest = after;
            },
        }
    }
}

/// The delimiter at a word's place, and what follows it.
#[tactic(auto, unfolding(sh_grammar::specs::Bodies::delimiter_at))]
fn delimiter_at(alloc: Global, bytes: &[u8]) -> Result<(Delimiter, &[u8]), Stop>
    ensures { Gives (λ x. shown x.0 x.1.now) result (bodies.delimiter_at bytes.now) }
{
    if !unit_starts(Context::Word, bytes) {
        return Err(Stop::Bad);
    }
    delimiter_from(alloc, bytes)
}

fn starts_tab(bytes: &[u8]) -> bool
    ensures { result ≡ bytes_of.starts (λ b. b == 9) bytes.now }
{
    match bytes {
        [] => false,
        [b, ..] => *b == b'\t',
    }
}

/// The delimiter behind `<<`, or behind `<<-`, which strips tabs, so that no line begins with one.
#[tactic(auto, unfolding(sh_grammar::specs::Bodies::delimiter_for))]
pub fn delimiter_for(alloc: Global, strips: bool, bytes: &[u8]) -> Result<(Delimiter, &[u8]), Stop>
    ensures { Gives (λ x. shown x.0 x.1.now) result (bodies.delimiter_for strips bytes.now) }
{
    let (delimiter, rest) = delimiter_at(alloc, bytes)?;
    if strips && starts_tab(delimiter.text.bytes()) {
        return Err(Stop::Bad);
    }
    Ok((delimiter, rest))
}
