//! Bodies of here-documents, and bytes in single quotes.

ghost use Rattle.std.specs.Prelude.{◌≡◌, ◌∷◌, true, false, None};
ghost use Rattle.sh_grammar.specs.Bytes as bytes_of;
ghost use Rattle.sh_grammar.specs.Bodies as bodies;
ghost use Rattle.sh_grammar.specs.Steps as steps;
ghost use Rattle.sh_parser.specs.Answers.{Gives, Shows};
ghost use Rattle.sh_parser.specs.Owing.{owed_of, place_of, continued, plain_from, is_kept, is_joins};

use crate::fault::Stop;
use crate::gaps::{behind_join, is_join};
use span_text::Text;
use std::alloc::Global;

/// A here-document whose body is still to come.
#[derive(Debug, Drop)]
pub struct Owed {
    pub delimiter: Text,
    /// The delimiter was quoted, so the body isn't expanded.
    pub literal: bool,
    /// `<<-`: tabs at the beginning of a line are dropped.
    pub strips: bool,
}

/// Behind the line of this text, which is the last one or ends with a newline.
#[tactic(auto, using(crate::proofs::Joins::line_joins))]
fn line_end<'a>(literal: bool, text: &[u8], bytes: &'a [u8]) -> Option<&'a [u8]>
    ensures { Shows (λ x. x.now) result (bodies.line_from literal false text.now bytes.now) }
{
    let mut wanted = text;
    let mut rest = bytes;
    'bytes: loop {
        match rest {
            [] => if wanted.is_empty() {
                return Some(rest)
            } else {
                return None
            },
            [b, after @ ..] => {
                if !literal && is_join(*b, after) {
                    rest = behind_join(*b, after);
                } else {
                    match wanted {
                        [] => if *b == b'\n' {
                            return Some(after)
                        } else {
                            return None
                        },
                        [first, others @ ..] => {
                            if *first != *b {
                                return None;
                            }
                            wanted = others;
                            rest = after;
                        },
                    }
                }
            },
        }
    }
}

/// Where the reading of a body is.
#[derive(Clone, Copy)]
pub enum Place {
    Start,
    Within,
    /// Behind a backslash that makes no join.
    Kept,
}

/// What a byte of a body does.
#[derive(Clone, Copy)]
pub enum Turn {
    /// It belongs to the body.
    Keeps(Place),
    /// A tab at the beginning of a line is dropped.
    Drops,
    /// A join, which stands for nothing, begins.
    Joins,
    /// NUL stands nowhere.
    Fails,
}

fn behind_byte(literal: bool, b: u8) -> Place
    ensures { place_of result ≡ bodies.behind_byte literal b }
{
    if b == b'\n' {
        Place::Start
    } else if b == b'\\' && !literal {
        Place::Kept
    } else {
        Place::Within
    }
}

fn is_start(at: Place) -> bool
    ensures { result ≡ bodies.is_start (place_of at) }
{
    match at {
        Place::Start => true,
        Place::Within => false,
        Place::Kept => false,
    }
}

#[tactic(auto, using(crate::proofs::Joins::body_joins))]
fn plain_turn(owed: &Owed, at: Place, b: u8, after: &[u8]) -> Turn
    requires kept { is_kept at ≡ false }
    requires last { bodies.last_line (owed_of owed.now) (place_of at) (b ∷ after.now) ≡ None }
    ensures joins { is_joins result ≡ true → bytes_of.is_join b after.now ≡ true }
    ensures turn { plain_from (owed_of owed.now) (place_of at) b after.now ≡ continued (owed_of owed.now) at result b after.now }
{
    if b == 0 {
        Turn::Fails
    } else if !owed.literal && is_join(b, after) {
        Turn::Joins
    } else if owed.strips && is_start(at) && b == b'\t' {
        Turn::Drops
    } else {
        Turn::Keeps(behind_byte(owed.literal, b))
    }
}

/// What the byte does where no delimiter's line is.
#[tactic(auto, unfolding(sh_grammar::specs::Bodies::body_from))]
fn turn_of(owed: &Owed, at: Place, b: u8, after: &[u8]) -> Turn
    requires { bodies.last_line (owed_of owed.now) (place_of at) (b ∷ after.now) ≡ None }
    ensures joins { is_joins result ≡ true → bytes_of.is_join b after.now ≡ true }
    ensures turn { bodies.body_from (owed_of owed.now) (place_of at) (b ∷ after.now) ≡ continued (owed_of owed.now) at result b after.now }
{
    match at {
        Place::Kept => if b == 0 {
            Turn::Fails
        } else {
            Turn::Keeps(Place::Within)
        },
        Place::Start => plain_turn(owed, at, b, after),
        Place::Within => plain_turn(owed, at, b, after),
    }
}

/// Behind the delimiter's line, if one is here.
fn last_line<'a>(owed: &Owed, at: Place, bytes: &'a [u8]) -> Option<&'a [u8]>
    ensures { Shows (λ x. x.now) result (bodies.last_line (owed_of owed.now) (place_of at) bytes.now) }
{
    match at {
        Place::Start => line_end(owed.literal, owed.delimiter.bytes(), bytes),
        Place::Within => None,
        Place::Kept => None,
    }
}

/// A body from the beginning of its first line, and what follows the delimiter's line.
#[tactic(auto, unfolding(sh_grammar::specs::Bodies::body_at, sh_grammar::specs::Bodies::body_from), using(crate::proofs::Kept::last_ends, crate::proofs::Kept::body_keeps))]
pub fn body_at<'a>(alloc: Global, owed: &Owed, bytes: &'a [u8]) -> Result<(Text, &'a [u8]), Stop>
    ensures { Gives (λ x. (x.0, x.1.now)) result (bodies.body_at (owed_of owed.now) bytes.now) }
{
    let mut text = Vec::new(alloc);
    let mut at = Place::Start;
    let mut rest = bytes;
    'bytes: loop {
        match rest {
            [] => return Err(Stop::Bad),
            [b, after @ ..] => {
                if let Some(behind) = last_line(owed, at, rest) {
                    return Ok((Text::from_vec(text), behind));
                }
                match turn_of(owed, at, *b, after) {
                    Turn::Keeps(next) => {
                        text.push(*b)?;
                        at = next;
                        rest = after;
                    }
                    Turn::Drops => rest = after,
                    Turn::Joins => rest = behind_join(*b, after),
                    Turn::Fails => return Err(Stop::Bad),
                }
            }
        }
    }
}

/// The bytes up to the closing quote, and what follows it.
#[tactic(auto, unfolding(sh_grammar::specs::Steps::quoted_run))]
pub fn quoted_run<'a>(alloc: Global, bytes: &'a [u8]) -> Result<(Text, &'a [u8]), Stop>
    ensures { Gives (λ x. (x.0, x.1.now)) result (steps.quoted_run bytes.now) }
{
    let mut text = Vec::new(alloc);
    let mut rest = bytes;
    'bytes: loop {
        match rest {
            [] => return Err(Stop::Bad),
            [b, after @ ..] => {
                if *b == b'\'' {
                    return Ok((Text::from_vec(text), after));
                }
                if *b == 0 {
                    return Err(Stop::Bad);
                }
                text.push(*b)?;
                rest = after;
            },
        }
    }
}
