//! The bodies of here-documents, while the text in which they stand is read.
//!
//! A here-document's body stands behind the line of its operator, so it is only found later. It is guessed at once, as what
//! stands behind the next newline, and a text whose bodies are those that were guessed is read only once.

ghost use Rattle.std.specs.Prelude.{◌≡◌, ◌+◌, ◌<◌, ◌≤◌, [], true, false, IfOk, IfErr, length};
ghost use Rattle.std.specs.Cmp.Lexicographic.{pointwise};
ghost use Rattle.span_text.specs.KnownNames.{same_text};
ghost use Rattle.sh_grammar.specs.Bytes.{Text as Bytes};
ghost use Rattle.sh_grammar.specs.Steps as steps;
ghost use Rattle.sh_parser.specs.Answers.{is_memory};
ghost use Rattle.sh_parser.specs.Knowing.{MayBe, Grows};
ghost use Rattle.sh_parser.specs.declared.knowing.Extent.TheVariants as extents;

use crate::bodies::{Owed, body_at};
use crate::fault::Stop;
use span_text::{List, Text};
use std::alloc::Global;

/// How much is known.
#[derive(Clone, Copy)]
pub enum Extent {
    /// All bodies: no others follow.
    All,
    /// Bodies in front: each further one is guessed where it is asked for.
    Front,
}

/// What is known of the bodies of a text's here-documents.
#[derive(Drop)]
pub struct Bodies {
    pub texts: List<Text>,
    pub extent: Extent,
    /// How many bytes are ahead behind the body that was guessed last.
    pub ahead: usize,
}

impl Bodies {
    /// These, and no others.
    pub fn all(texts: List<Text>) -> Bodies
        ensures texts { result.texts ≡ texts }
        ensures all { result.extent ≡ extents.All }
    {
        Bodies {
            texts,
            extent: Extent::All,
            ahead: 0,
        }
    }

    /// Nothing is known: each body is guessed.
    pub fn guessed(alloc: Global) -> Bodies {
        Bodies {
            texts: List::new(alloc),
            extent: Extent::Front,
            ahead: 0,
        }
    }
}

/// Behind the next newline that no backslash stands before.
fn behind_line(bytes: &[u8]) -> &[u8] {
    let mut rest = bytes;
    'line: loop {
        match rest {
            [] => return rest,
            [b'\\', _, after @ ..] => rest = after,
            [b'\n', after @ ..] => return after,
            [_, after @ ..] => rest = after,
        }
    }
}

/// So many bytes at the end, or all where there are fewer.
fn last_bytes(count: usize, bytes: &[u8]) -> &[u8] {
    if count <= bytes.len() {
        &bytes[bytes.len() - count..]
    } else {
        bytes
    }
}

/// What may be the body of a here-document, and how many bytes are ahead behind it.
fn guess(alloc: Global, owed: &Owed, from: &[u8]) -> Result<(Text, usize), Stop>
    ensures { IfErr result (λ stop. is_memory stop ≡ true) }
{
    match body_at(alloc, owed, from) {
        Ok((body, rest)) => Ok((body, rest.len())),
        Err(Stop::Memory) => Err(Stop::Memory),
        Err(Stop::Bad) => Ok((Text::new(alloc), 0)),
    }
}

/// Whether there is a text at the index that is the sum of these.
fn is_there(texts: &List<Text>, owed: usize, found: usize) -> bool
    ensures there { result ≡ true → owed + found < length texts.now }
    ensures missing { result ≡ false → length texts.now ≤ owed + found }
{
    if found >= texts.len() {
        return false;
    }
    owed < texts.len() - found
}

/// One more body is guessed: behind the line, or behind the last one where other bodies are still owed.
fn guess_one(
    alloc: Global,
    bodies: &mut Bodies,
    document: &Owed,
    owed: usize,
    rest: &[u8],
) -> Result<(), Stop>
    requires { bodies.old.extent ≡ extents.Front }
    ensures grows { Grows bodies.old bodies.new }
    ensures more { IfOk result (λ _. length bodies.old.texts < length bodies.new.texts) }
    ensures memory { IfErr result (λ stop. is_memory stop ≡ true) }
{
    let from = if owed == 0 {
        behind_line(rest)
    } else {
        last_bytes(bodies.ahead, rest)
    };
    let (text, ahead) = guess(alloc, document, from)?;
    bodies.ahead = ahead;
    bodies.texts.push(text)?;
    Ok(())
}

/// Guesses bodies up to that of the document, before which so many are owed and so many were found.
fn guess_all(
    alloc: Global,
    bodies: &mut Bodies,
    document: &Owed,
    owed: usize,
    found: usize,
    rest: &[u8],
) -> Result<(), Stop>
    requires { bodies.old.extent ≡ extents.Front }
    ensures grows { Grows bodies.old bodies.new }
    ensures there { IfOk result (λ _. owed + found < length bodies.new.texts) }
    ensures memory { IfErr result (λ stop. is_memory stop ≡ true) }
{
    'guesses: loop {
        if is_there(&bodies.texts, owed, found) {
            return Ok(());
        }
        guess_one(alloc, bodies, document, owed, rest)?;
    }
}

/// The body of this document is known, by a guess if need be.
#[tactic(auto, using(crate::proofs::Guessed::nth_known, crate::proofs::Guessed::nth_all, crate::proofs::Guessed::grows_not))]
pub fn look_ahead(
    alloc: Global,
    bodies: &mut Bodies,
    document: &Owed,
    owed: usize,
    found: usize,
    rest: &[u8],
) -> Result<(), Stop>
    ensures grows { Grows bodies.old bodies.new }
    ensures body { IfOk result (λ _. (ds : List Bytes) → MayBe bodies.new ds → steps.nth bodies.new.texts (owed + found) ≡ steps.nth ds (owed + found)) }
    ensures memory { IfErr result (λ stop. is_memory stop ≡ true) }
{
    match bodies.extent {
        Extent::All => Ok(()),
        Extent::Front => guess_all(alloc, bodies, document, owed, found, rest),
    }
}

fn is_same(text: &[u8], other: &[u8]) -> bool
    ensures { result ≡ same_text text.now other.now }
{
    text == other
}

/// Whether the texts are the same.
pub fn are_same(texts: &[Text], others: &[Text]) -> bool
    ensures { result ≡ pointwise same_text texts.now others.now }
{
    let mut some = texts;
    let mut more = others;
    'texts: loop {
        match some {
            [] => return more.is_empty(),
            [text, texts_behind @ ..] => match more {
                [] => return false,
                [other, others_behind @ ..] => {
                    if !is_same(text.bytes(), other.bytes()) {
                        return false;
                    }
                    some = texts_behind;
                    more = others_behind;
                }
            },
        }
    }
}
