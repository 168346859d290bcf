//! Delimiters of here-documents (Bash manual, section 3.6.6).

ghost use Rattle.std.specs.Prelude.{◌≡◌, ◌==◌, ◌||◌, ◌∷◌, [], false, Some, None, if◌then◌else◌};
ghost use Rattle.bash_grammar.specs.Bytes as bytes_of;
ghost use Rattle.bash_grammar.specs.Bodies as bodies;
ghost use Rattle.bash_tokens.specs.Answers.{Gives};
ghost use Rattle.bash_tokens.specs.Delimiters.{mode, continued, ended, shown};
ghost use Rattle.bash_grammar.specs.Bytes.{Text as Bytes};

use crate::class::{is_escaped, is_plain};
use crate::fault::Stop;
use crate::gaps::clear;
use crate::literals::{opens_glob, opens_process, unit_starts};
use crate::spots::Context;
use span_text::Text;
use std::alloc::Global;

/// Where the reading of a delimiter is.
#[derive(Clone, Copy)]
pub enum Mode {
    Bare,
    Single,
    Double,
    /// Behind a backslash.
    Kept,
    KeptDouble,
    /// Before the newline of a join.
    Joined,
    JoinedDouble,
}

/// What a byte does.
#[derive(Clone, Copy)]
pub enum Turn {
    /// It belongs to a join.
    Joins(Mode),
    /// It stands for nothing.
    Skips(Mode),
    /// It quotes what follows.
    Quotes(Mode),
    /// It stands for itself.
    Keeps(Mode),
    /// It and the backslash before it stand for themselves.
    KeepsBoth(Mode),
    /// It is behind the delimiter.
    Ends,
    /// Nothing is spelled so.
    Fails,
}

/// A delimiter, and whether something in it was quoted.
#[derive(Drop)]
pub struct Delimiter {
    pub text: Text,
    pub quoted: bool,
}

pub fn is_join(b: u8, after: &[u8]) -> bool
    ensures { result ≡ bytes_of.is_join b after.now }
{
    match after {
        [] => false,
        [c, ..] => b == b'\\' && *c == b'\n',
    }
}

/// Whether the `$` before these bytes begins what no delimiter may hold.
fn opens_expansion(bytes: &[u8]) -> bool
    ensures { result ≡ bodies.opens_expansion bytes.now }
{
    match clear(bytes) {
        [] => false,
        [b, ..] => { *b == b'{' || *b == b'(' || *b == b'[' || *b == b'\'' || *b == b'"' }
    }
}

/// What would be an expansion or a quotation.
fn opens_other(b: u8, after: &[u8]) -> bool
    ensures { result ≡ bodies.opens_other b after.now }
{
    b == b'`'
        || (b == b'$' && opens_expansion(after))
        || opens_glob(Context::WORD, b, after)
        || opens_process(Context::WORD, b, after)
}

/// The same of a byte that neither quotes nor joins.
fn plain_turn(b: u8, after: &[u8]) -> Turn
    ensures { (end : Bytes) → (if bodies.opens_other b after.now then None else (if bytes_of.is_plain bytes_of.in_word b || b == 36 then bodies.with b (bodies.delimiter_from bodies.unquoted after.now after.now) else Some (([], false), end))) ≡ continued result end b after.now }
{
    if opens_other(b, after) {
        Turn::Fails
    } else if is_plain(Context::WORD, b) || b == b'$' {
        Turn::Keeps(Mode::Bare)
    } else {
        Turn::Ends
    }
}

#[tactic(auto, unfolding(bash_grammar::specs::Bodies::delimiter_from))]
fn bare_turn(b: u8, after: &[u8]) -> Turn
    ensures { (end : Bytes) → bodies.delimiter_from bodies.unquoted end (b ∷ after.now) ≡ continued result end b after.now }
{
    if is_join(b, after) {
        Turn::Joins(Mode::Joined)
    } else if b == b'\'' {
        Turn::Quotes(Mode::Single)
    } else if b == b'"' {
        Turn::Quotes(Mode::Double)
    } else if b == b'\\' {
        Turn::Quotes(Mode::Kept)
    } else {
        plain_turn(b, after)
    }
}

#[tactic(auto, unfolding(bash_grammar::specs::Bodies::delimiter_from))]
fn single_turn(b: u8, after: &[u8]) -> Turn
    ensures { (end : Bytes) → bodies.delimiter_from bodies.single end (b ∷ after.now) ≡ continued result end b after.now }
{
    if b == b'\'' {
        Turn::Skips(Mode::Bare)
    } else if b == b'\n' {
        Turn::Fails
    } else {
        Turn::Keeps(Mode::Single)
    }
}

#[tactic(auto, unfolding(bash_grammar::specs::Bodies::delimiter_from))]
fn double_turn(b: u8, after: &[u8]) -> Turn
    ensures { (end : Bytes) → bodies.delimiter_from bodies.doubled end (b ∷ after.now) ≡ continued result end b after.now }
{
    if is_join(b, after) {
        Turn::Joins(Mode::JoinedDouble)
    } else if b == b'"' {
        Turn::Skips(Mode::Bare)
    } else if b == b'\\' {
        Turn::Skips(Mode::KeptDouble)
    } else if b == b'`' || b == b'\n' {
        Turn::Fails
    } else {
        Turn::Keeps(Mode::Double)
    }
}

#[tactic(auto, unfolding(bash_grammar::specs::Bodies::delimiter_from))]
fn kept_double_turn(b: u8, after: &[u8]) -> Turn
    ensures { (end : Bytes) → bodies.delimiter_from bodies.kept_doubled end (b ∷ after.now) ≡ continued result end b after.now }
{
    if is_escaped(Context::DOUBLE, b) {
        Turn::Keeps(Mode::Double)
    } else {
        Turn::KeepsBoth(Mode::Double)
    }
}

#[tactic(auto, unfolding(bash_grammar::specs::Bodies::delimiter_from))]
fn turn_of(at: Mode, b: u8, after: &[u8]) -> Turn
    ensures { (end : Bytes) → bodies.delimiter_from (mode at) end (b ∷ after.now) ≡ continued result end b after.now }
{
    match at {
        Mode::Bare => bare_turn(b, after),
        Mode::Single => single_turn(b, after),
        Mode::Double => double_turn(b, after),
        Mode::Kept => Turn::Keeps(Mode::Bare),
        Mode::KeptDouble => kept_double_turn(b, after),
        Mode::Joined => Turn::Joins(Mode::Bare),
        Mode::JoinedDouble => Turn::Joins(Mode::Double),
    }
}

/// Whether a delimiter may end with the text.
fn may_end(at: Mode) -> bool
    ensures { result ≡ ended at }
{
    match at {
        Mode::Bare => true,
        Mode::Single => false,
        Mode::Double => false,
        Mode::Kept => false,
        Mode::KeptDouble => false,
        Mode::Joined => false,
        Mode::JoinedDouble => false,
    }
}

fn delimiter_of(text: Vec<u8>, quoted: bool) -> Delimiter
    ensures text { result.text ≡ text.items }
    ensures quoted { result.quoted ≡ quoted }
{
    Delimiter {
        text: Text::from_vec(text),
        quoted,
    }
}

#[tactic(auto, unfolding(bash_grammar::specs::Bodies::delimiter_from), using(crate::proofs::Kept::delimiter_ends, crate::proofs::Kept::delimiter_quotes, crate::proofs::Kept::delimiter_keeps))]
fn delimiter_from(alloc: Global, bytes: &[u8]) -> Result<(Delimiter, &[u8]), Stop>
    ensures { Gives (λ x. shown x.0 x.1.now) result (bodies.delimiter_from bodies.unquoted bytes.now bytes.now) }
{
    let mut text = Vec::new(alloc);
    let mut quoted = false;
    let mut at = Mode::Bare;
    let mut end = bytes;
    let mut rest = bytes;
    'bytes: loop {
        match rest {
            [] => if may_end(at) {
                return Ok((delimiter_of(text, quoted), end));
            } else {
                return Err(Stop::Mismatch);
            },
            [b, after @ ..] => {
                match turn_of(at, *b, after) {
                    Turn::Joins(next) => at = next,
                    Turn::Skips(next) => {
                        at = next;
                        end = after;
                    },
                    Turn::Quotes(next) => {
                        at = next;
                        quoted = true;
                        end = after;
                    },
                    Turn::Keeps(next) => {
                        at = next;
                        text.push(*b)?;
                        end = after;
                    },
                    Turn::KeepsBoth(next) => {
                        at = next;
                        text.push(b'\\')?;
                        text.push(*b)?;
                        end = after;
                    },
                    Turn::Ends => return Ok((delimiter_of(text, quoted), end)),
                    Turn::Fails => return Err(Stop::Mismatch),
                }
                rest = after;
            },
        }
    }
}

/// The delimiter at a word's place, and what follows it.
#[tactic(auto, unfolding(bash_grammar::specs::Bodies::delimiter_at))]
fn delimiter_at(alloc: Global, bytes: &[u8]) -> Result<(Delimiter, &[u8]), Stop>
    ensures { Gives (λ x. shown x.0 x.1.now) result (bodies.delimiter_at bytes.now) }
{
    if !unit_starts(Context::WORD, bytes) {
        return Err(Stop::Mismatch);
    }
    delimiter_from(alloc, bytes)
}

fn starts_tab(bytes: &[u8]) -> bool
    ensures { result ≡ bytes_of.starts (λ b. b == 9) bytes.now }
{
    match bytes {
        [] => false,
        [b, ..] => *b == b'\t',
    }
}

/// The delimiter behind `<<`, or behind `<<-`, which strips tabs, so that no line begins with one.
#[tactic(auto, unfolding(bash_grammar::specs::Bodies::delimiter_for))]
pub fn delimiter_for(alloc: Global, strips: bool, bytes: &[u8]) -> Result<(Delimiter, &[u8]), Stop>
    ensures { Gives (λ x. shown x.0 x.1.now) result (bodies.delimiter_for strips bytes.now) }
{
    let (delimiter, rest) = delimiter_at(alloc, bytes)?;
    if strips && starts_tab(delimiter.text.bytes()) {
        return Err(Stop::Mismatch);
    }
    Ok((delimiter, rest))
}
