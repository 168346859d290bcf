//! Whole texts.

ghost use Rattle.std.specs.Prelude.{◌≡◌, ◌<◌, ◌^◌, ◌-◌, List, length, true, Some, IfOk, IfErr, IfSome};
ghost use Rattle.text_grammar.specs.Grammar.{rule};
ghost use Rattle.text_grammar.specs.Values.{vals};
ghost use Rattle.sh_grammar.specs.Bytes as bytes_of;
ghost use Rattle.sh_grammar.specs.Bytes.{Text as Bytes};
ghost use Rattle.sh_grammar.specs.Shape as shape;
ghost use Rattle.sh_grammar.specs.State.{chains_in};
ghost use Rattle.sh_grammar.specs.Table as table;
ghost use Rattle.sh_grammar.specs.Spelling.{sh_with, Reads, IsErrorAt};
ghost use Rattle.sh_syntax.specs.View.{view};
ghost use Rattle.sh_parser.specs.Answers.{Gives, is_memory};
ghost use Rattle.sh_parser.specs.Knowing.{MayBe, Grows};
ghost use Rattle.sh_parser.specs.Turns.{next_at, IfUnreadable};
ghost use Rattle.sh_parser.specs.Values.{nodes};
ghost use Rattle.sh_parser.specs.Views.{state};

use crate::acts::chains_of;
use crate::fault::{ReadFault, Stop};
use crate::gaps::{gap, idle};
use crate::knowing::{Bodies, are_same};
use crate::notes::Notes;
use crate::reader::rule_of;
use crate::table::{LineRule, Rule};
use crate::values::{Value, joined};
use sh_syntax::Script;
use span_text::List;
use std::alloc::Global;

/// Bodies of here-documents stand in one another at most so deep.
const LEVELS: u32 = 1001;

/// A complete command and the newline or the end behind it, or a newline.
fn piece_of<'a>(
    alloc: Global,
    bodies: &mut Bodies,
    bytes: &'a [u8],
    notes: &mut Notes,
) -> Result<(List<Value>, &'a [u8]), Stop>
    ensures gives { (ds : List Bytes) → MayBe bodies.new ds → Gives (λ x. (nodes x.0, state x.1.now notes.new)) result (vals (sh_with ds) (rule table.piece) (state bytes.now notes.old)) }
    ensures grows { Grows bodies.old bodies.new }
{
    let rule = Rule::Line(LineRule::Piece);
    rule_of(alloc, LEVELS, bodies, rule, bytes, notes)
}

/// A piece, where the bodies of its here-documents are those that are guessed.
fn guessed_piece<'a>(
    alloc: Global,
    whole: u32,
    bytes: &'a [u8],
) -> Result<Option<(List<Value>, &'a [u8])>, Stop>
    ensures read { IfOk result (λ o. IfSome o (λ x. next_at bytes.now ≡ Some (nodes x.0, x.1.now))) }
    ensures memory { IfErr result (λ stop. is_memory stop ≡ true) }
{
    let mut notes = Notes::fresh(alloc, whole);
    let mut bodies = Bodies::guessed(alloc);
    match piece_of(alloc, &mut bodies, bytes, &mut notes) {
        Err(Stop::Memory) => Err(Stop::Memory),
        Err(Stop::Bad) => Ok(None),
        Ok(piece) => {
            if are_same(notes.found.as_slice(), bodies.texts.as_slice()) {
                Ok(Some(piece))
            } else {
                Ok(None)
            }
        }
    }
}

/// A piece: it is read once to find the bodies of its here-documents, and where there are any, once more with them.
fn found_piece<'a>(
    alloc: Global,
    whole: u32,
    bytes: &'a [u8],
) -> Result<(List<Value>, &'a [u8]), Stop>
    ensures { Gives (λ x. (nodes x.0, x.1.now)) result (next_at bytes.now) }
{
    let mut first = Notes::fresh(alloc, whole);
    let mut none = Bodies::all(List::new(alloc));
    let (values, rest) = piece_of(alloc, &mut none, bytes, &mut first)?;
    let Notes { found, .. } = first;
    if found.len() == 0 {
        return Ok((values, rest));
    }
    let mut second = Notes::fresh(alloc, whole);
    let mut bodies = Bodies::all(found);
    piece_of(alloc, &mut bodies, bytes, &mut second)
}

/// A piece.
fn next_piece<'a>(
    alloc: Global,
    whole: u32,
    bytes: &'a [u8],
) -> Result<(List<Value>, &'a [u8]), Stop>
    ensures { Gives (λ x. (nodes x.0, x.1.now)) result (next_at bytes.now) }
{
    match guessed_piece(alloc, whole, bytes)? {
        Some(piece) => Ok(piece),
        None => found_piece(alloc, whole, bytes),
    }
}

/// The script of the chains that were read.
#[tactic(auto, using(crate::proofs::Rolls::script_rolled))]
fn script_of(alloc: Global, values: List<Value>) -> Result<Script, Stop>
    ensures { Gives view result (Some (chains_in (nodes values))) }
{
    let items = chains_of(alloc, values)?;
    Ok(Script { items })
}

/// The offset of the first byte that is ahead which is no blank, newline, comment or join.
fn place_of(text: &[u8], rest: &[u8]) -> u32
    requires { length text.now < 2 ^ 32 }
    ensures { result ≡ length text.now - length (bytes_of.idle rest.now) }
{
    text.len().saturating_sub(idle(rest).len()) as u32
}

/// The script that a text spells.
///
/// `Unreadable(at)` comes exactly where it spells none; `at` is the offset of the first byte behind the longest front
/// of lines that read which is no blank, newline, comment or join.
pub fn read(alloc: Global, text: &[u8]) -> Result<Script, ReadFault>
    requires { length text.now < 2 ^ 32 }
    // What is read is spelled so, and a text spells at most one script (`one_script`).
    ensures read { IfOk result (λ script. Reads text.now (view script)) }
    // A text is refused only if it spells none.
    ensures refused { IfErr result (λ fault. IfUnreadable fault (λ at. (x : shape.Script) → Reads text.now x → ⊥)) }
    ensures place { IfErr result (λ fault. IfUnreadable fault (λ at. IsErrorAt text.now at)) }
{
    let mut values = List::new(alloc);
    let mut rest = text;
    'pieces: loop {
        if gap(rest).is_empty() {
            return match script_of(alloc, values) {
                Ok(script) => Ok(script),
                Err(_) => Err(ReadFault::Memory),
            };
        }
        match next_piece(alloc, text.len() as u32, rest) {
            Err(Stop::Memory) => return Err(ReadFault::Memory),
            Err(Stop::Bad) => return Err(ReadFault::Unreadable(place_of(text, rest))),
            Ok((more, after)) => {
                values = match joined(values, more) {
                    Ok(all) => all,
                    Err(_) => return Err(ReadFault::Memory),
                };
                rest = after;
            },
        }
    }
}
