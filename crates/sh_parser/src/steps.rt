//! Steps of the grammar that give no part of a word, and names.

ghost use Rattle.std.specs.Prelude.{◌≡◌, ◌-◌, ◌&&◌, map, suc, [], None, if◌then◌else◌, nat_lt};
ghost use Rattle.sh_grammar.specs.Bytes as bytes_of;
ghost use Rattle.sh_grammar.specs.Bytes.{Text as Bytes};
ghost use Rattle.sh_grammar.specs.Tokens as tokens;
ghost use Rattle.sh_grammar.specs.Steps as steps;
ghost use Rattle.sh_grammar.specs.Steps.{when};
ghost use Rattle.sh_grammar.specs.Bodies as bodies;
ghost use Rattle.sh_parser.specs.Owing.{owed_of};
ghost use Rattle.sh_parser.specs.Kinds as kinds;
ghost use Rattle.sh_parser.specs.Answers.{Gives};
ghost use Rattle.sh_parser.specs.Views.{state, whole_name, found_behind, lined};

use crate::bodies::{Owed, body_at};
use crate::class::{Context, unit_starts};
use crate::fault::Stop;
use crate::gaps::{clear, gap};
use crate::keys::{Key, bare_end, is_key};
use crate::names::name_at;
use crate::notes::{LIMIT, Notes, span_of};
use crate::tokens::{Op, is_token, token};
use sh_syntax::Name;
use span_text::{List, Text};
use std::alloc::Global;

/// Behind this operator.
pub fn op_of(wanted: Op, bytes: &[u8]) -> Result<&[u8], Stop>
    ensures { Gives (λ x. x.now) result (when (tokens.is_token (kinds.op wanted) bytes.now) (tokens.token bytes.now).1) }
{
    if !is_token(wanted, bytes) {
        return Err(Stop::Bad);
    }
    Ok(token(bytes).1)
}

/// Behind this reserved word.
pub fn key_of(wanted: Key, bytes: &[u8]) -> Result<&[u8], Stop>
    ensures { Gives (λ x. x.now) result (when (tokens.is_key (kinds.key wanted) bytes.now) (tokens.bare bytes.now).1) }
{
    if !is_key(wanted, bytes) {
        return Err(Stop::Bad);
    }
    Ok(bare_end(bytes))
}

/// Behind this byte of a word.
pub fn byte_of(wanted: u8, bytes: &[u8]) -> Result<&[u8], Stop>
    ensures { Gives (λ x. x.now) result (steps.behind wanted (bytes_of.clear bytes.now)) }
{
    match clear(bytes) {
        [] => Err(Stop::Bad),
        [b, rest @ ..] => if *b == wanted {
            Ok(rest)
        } else {
            Err(Stop::Bad)
        },
    }
}

/// Where a word begins behind blanks.
pub fn word_place(bytes: &[u8]) -> Result<&[u8], Stop>
    ensures { Gives (λ x. x.now) result (steps.word_place bytes.now) }
{
    if !is_token(Op::Word, bytes) {
        return Err(Stop::Bad);
    }
    Ok(gap(bytes))
}

/// A name that is a whole word.
pub fn name_of<'a>(alloc: Global, bytes: &'a [u8], notes: &Notes) -> Result<(Name, &'a [u8]), Stop>
    ensures { Gives (λ x. (x.0.text, x.1.now)) result (whole_name (tokens.name_at (bytes_of.gap bytes.now))) }
{
    let front = gap(bytes);
    let (text, rest) = name_at(alloc, front)?;
    if unit_starts(Context::Word, rest) {
        return Err(Stop::Bad);
    }
    let span = span_of(notes, front, rest);
    Ok((Name { text, span }, rest))
}

/// A level of nesting begins.
pub fn enter(notes: &mut Notes) -> Result<(), Stop>
    ensures { (b : Bytes) → Gives (λ x. state b notes.new) result (when (nat_lt notes.old.depth 1000) (record (state b notes.old) { depth = suc notes.old.depth })) }
{
    if notes.depth >= LIMIT {
        return Err(Stop::Bad);
    }
    notes.depth += 1;
    Ok(())
}

/// A level of nesting ends.
pub fn leave(notes: &mut Notes)
    ensures { (b : Bytes) → state b notes.new ≡ record (state b notes.old) { depth = notes.old.depth - 1 } }
{
    notes.depth = notes.depth.saturating_sub(1);
}

/// The bodies of these here-documents, one behind the other, behind those that came before.
#[tactic(auto, unfolding(sh_grammar::specs::Bodies::bodies_at))]
fn bodies_of<'a>(
    alloc: Global,
    owed: &List<Owed>,
    bytes: &'a [u8],
    found: &mut List<Text>,
) -> Result<&'a [u8], Stop>
    ensures { Gives (λ x. (found.new, x.now)) result (found_behind found.old (bodies.bodies_at (map owed_of owed.now) bytes.now)) }
{
    let mut rest = bytes;
    for document in owed.as_slice() {
        let (body, after) = body_at(alloc, document, rest)?;
        found.push(body)?;
        rest = after;
    }
    Ok(rest)
}

/// Behind a newline, and the bodies that were owed before it.
#[tactic(auto, using(crate::proofs::Counts::bodies_count, crate::proofs::Counts::owed_count))]
pub fn line_of<'a>(alloc: Global, bytes: &'a [u8], notes: &mut Notes) -> Result<&'a [u8], Stop>
    ensures { Gives (λ x. state x.now notes.new) result (if tokens.is_token tokens.Newline bytes.now then lined (state bytes.now notes.old) (bodies.bodies_at (map owed_of notes.old.owed) (tokens.token bytes.now).1) else None) }
{
    let after = op_of(Op::Newline, bytes)?;
    let rest = bodies_of(alloc, &notes.owed, after, &mut notes.found)?;
    notes.owed = List::new(alloc);
    Ok(rest)
}

fn is_nothing_owed(notes: &Notes) -> bool
    ensures { result ≡ steps.none_owed (map owed_of notes.now.owed) }
{
    match notes.owed.as_slice() {
        [] => true,
        [_, ..] => false,
    }
}

/// The end of the text, where no body is still to come.
pub fn end_of<'a>(bytes: &'a [u8], notes: &Notes) -> Result<&'a [u8], Stop>
    ensures { Gives (λ x. x.now) result (when (tokens.is_token tokens.End bytes.now && steps.none_owed (map owed_of notes.now.owed)) []) }
{
    if is_token(Op::End, bytes) && is_nothing_owed(notes) {
        Ok(b"")
    } else {
        Err(Stop::Bad)
    }
}
