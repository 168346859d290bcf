//! Words that are read at once: those of bytes, quotes and short expansions. Any other word is left to the tasks.

ghost use Rattle.std.specs.Prelude.{◌≡◌, ◌∷◌, ℕ, List, [], true, Some, IfOk, IfErr, IfSome};
ghost use Rattle.text_grammar.specs.Grammar.{rule, star};
ghost use Rattle.text_grammar.specs.Values.{vals, stepped};
ghost use Rattle.sh_grammar.specs.Bytes.{Text as Bytes, in_word, in_double};
ghost use Rattle.sh_grammar.specs.State.{State, part_node, word_node};
ghost use Rattle.sh_grammar.specs.Table as table;
ghost use Rattle.sh_grammar.specs.Steps.{run_step};
ghost use Rattle.sh_grammar.specs.Spelling.{sh};
ghost use Rattle.sh_syntax.specs.View.{view_part, view_word};
ghost use Rattle.sh_parser.specs.Answers.{is_memory};
ghost use Rattle.sh_parser.specs.Kinds as kinds;
ghost use Rattle.sh_parser.specs.Tables as tables;
ghost use Rattle.sh_parser.specs.Values.{part_nodes};
ghost use Rattle.sh_parser.specs.Views.{known, state};

use crate::class::{Context, unit_starts};
use crate::fault::Stop;
use crate::gaps::clear;
use crate::leaves::{double_begins, escape_begins, expansion_begins, single_begins};
use crate::names::tilde_next;
use crate::notes::{Notes, part_of_kind, word_of_parts};
use crate::params::{brace_next, closed_next, subst_next, sum_next};
use crate::picking::tight;
use crate::steps::{byte_of, word_place};
use crate::table::WordStep;
use crate::taking::take_word;
use crate::values::Value;
use sh_syntax::{Part, PartKind, Word};
use span_text::List;
use std::alloc::Global;

/// The step that is all of the expansion, if one is.
#[tactic(auto, unfolding(sh_grammar::specs::Steps::holds), using(crate::proofs::AtOnce::expansion_is_dollar, crate::proofs::AtOnce::expansion_is_closed))]
fn expansion_step(place: Context, bytes: &[u8]) -> Option<WordStep>
    ensures { IfSome result (λ k. (n : ℕ) (ds : List Bytes) (s : State) → s.bytes ≡ bytes.now → vals (sh n ds) (rule (table.expansion (kinds.context place))) s ≡ stepped (run_step (known n ds) (tables.word_step k) s)) }
{
    if sum_next(bytes) || subst_next(bytes) {
        return None;
    }
    if !brace_next(bytes) {
        return Some(WordStep::Dollar);
    }
    if closed_next(bytes) {
        Some(WordStep::Closed)
    } else {
        None
    }
}

/// The step that is all of the part, if one is.
#[tactic(auto, unfolding(sh_grammar::specs::Steps::holds), using(crate::proofs::AtOnce::part_is_exact, crate::proofs::AtOnce::part_is_escaped, crate::proofs::AtOnce::part_is_expansion, crate::proofs::AtOnce::part_is_literal))]
fn part_step(place: Context, bytes: &[u8]) -> Option<WordStep>
    ensures { IfSome result (λ k. (n : ℕ) (ds : List Bytes) (s : State) → s.bytes ≡ bytes.now → vals (sh n ds) (rule (table.part (kinds.context place))) s ≡ stepped (run_step (known n ds) (tables.word_step k) s)) }
{
    if single_begins(place, bytes) {
        return Some(WordStep::Exact);
    }
    if double_begins(place, bytes) {
        return None;
    }
    let front = clear(bytes);
    if escape_begins(place, front) {
        Some(WordStep::Escaped(place))
    } else if expansion_begins(front) {
        expansion_step(place, bytes)
    } else {
        Some(WordStep::Literal(place))
    }
}

/// A part that holds no parts, and what follows it.
fn leaf<'a>(
    alloc: Global,
    place: Context,
    bytes: &'a [u8],
    notes: &Notes,
) -> Result<Option<(Part, &'a [u8])>, Stop>
    ensures read { IfOk result (λ o. IfSome o (λ x. (n : ℕ) (ds : List Bytes) → vals (sh n ds) (rule (table.part (kinds.context place))) (state bytes.now notes.now) ≡ Some (part_node (view_part x.0) ∷ [], state x.1.now notes.now))) }
    ensures memory { IfErr result (λ stop. is_memory stop ≡ true) }
{
    let Some(step) = part_step(place, bytes) else {
        return Ok(None);
    };
    match take_word(alloc, step, bytes, notes) {
        Err(Stop::Memory) => Err(Stop::Memory),
        Err(Stop::Bad) => Ok(None),
        Ok((value, rest)) => match value {
            Some(Value::Part(part)) => Ok(Some((part, rest))),
            _ => Ok(None),
        },
    }
}

/// Parts between double quotes that hold no parts, and what follows them.
fn leaves<'a>(
    alloc: Global,
    bytes: &'a [u8],
    notes: &Notes,
) -> Result<Option<(List<Part>, &'a [u8])>, Stop>
    ensures read { IfOk result (λ o. IfSome o (λ x. (n : ℕ) (ds : List Bytes) → vals (sh n ds) (star (table.unit_begins in_double) (rule (table.part in_double))) (state bytes.now notes.now) ≡ Some (part_nodes x.0, state x.1.now notes.now))) }
    ensures memory { IfErr result (λ stop. is_memory stop ≡ true) }
{
    let mut parts = List::new(alloc);
    let mut rest = bytes;
    'parts: loop {
        if !unit_starts(Context::Double, clear(rest)) {
            return Ok(Some((tight(parts), rest)));
        }
        match leaf(alloc, Context::Double, rest, notes)? {
            None => return Ok(None),
            Some((part, after)) => {
                if after.len() >= rest.len() {
                    return Ok(None);
                }
                parts.push(part)?;
                rest = after;
            }
        }
    }
}

/// `".."` of such parts, and what follows it.
fn quoted<'a>(
    alloc: Global,
    bytes: &'a [u8],
    notes: &Notes,
) -> Result<Option<(Part, &'a [u8])>, Stop>
    ensures read { IfOk result (λ o. IfSome o (λ x. (n : ℕ) (ds : List Bytes) → vals (sh n ds) (rule table.double_quotes) (state bytes.now notes.now) ≡ Some (part_node (view_part x.0) ∷ [], state x.1.now notes.now))) }
    ensures memory { IfErr result (λ stop. is_memory stop ≡ true) }
{
    let Ok(inside) = byte_of(b'"', bytes) else {
        return Ok(None);
    };
    let Some((parts, after)) = leaves(alloc, inside, notes)? else {
        return Ok(None);
    };
    let Ok(rest) = byte_of(b'"', after) else {
        return Ok(None);
    };
    let kind = PartKind::Double(parts);
    Ok(Some((part_of_kind(notes, kind, bytes, rest), rest)))
}

/// A part of a word, and what follows it.
fn part<'a>(alloc: Global, bytes: &'a [u8], notes: &Notes) -> Result<Option<(Part, &'a [u8])>, Stop>
    ensures read { IfOk result (λ o. IfSome o (λ x. (n : ℕ) (ds : List Bytes) → vals (sh n ds) (rule (table.part in_word)) (state bytes.now notes.now) ≡ Some (part_node (view_part x.0) ∷ [], state x.1.now notes.now))) }
    ensures memory { IfErr result (λ stop. is_memory stop ≡ true) }
{
    if double_begins(Context::Word, bytes) && !single_begins(Context::Word, bytes) {
        quoted(alloc, bytes, notes)
    } else {
        leaf(alloc, Context::Word, bytes, notes)
    }
}

/// Parts of a word, and what follows them.
fn parts_of<'a>(
    alloc: Global,
    bytes: &'a [u8],
    notes: &Notes,
) -> Result<Option<(List<Part>, &'a [u8])>, Stop>
    ensures read { IfOk result (λ o. IfSome o (λ x. (n : ℕ) (ds : List Bytes) → vals (sh n ds) (star (table.unit_begins in_word) (rule (table.part in_word))) (state bytes.now notes.now) ≡ Some (part_nodes x.0, state x.1.now notes.now))) }
    ensures memory { IfErr result (λ stop. is_memory stop ≡ true) }
{
    let mut parts = List::new(alloc);
    let mut rest = bytes;
    'parts: loop {
        if !unit_starts(Context::Word, clear(rest)) {
            return Ok(Some((tight(parts), rest)));
        }
        match part(alloc, rest, notes)? {
            None => return Ok(None),
            Some((part, after)) => {
                if after.len() >= rest.len() {
                    return Ok(None);
                }
                parts.push(part)?;
                rest = after;
            }
        }
    }
}

/// A word, and what follows it.
pub fn word<'a>(
    alloc: Global,
    bytes: &'a [u8],
    notes: &Notes,
) -> Result<Option<(Word, &'a [u8])>, Stop>
    ensures read { IfOk result (λ o. IfSome o (λ x. (n : ℕ) (ds : List Bytes) → vals (sh n ds) (rule table.word) (state bytes.now notes.now) ≡ Some (word_node (view_word x.0) ∷ [], state x.1.now notes.now))) }
    ensures memory { IfErr result (λ stop. is_memory stop ≡ true) }
{
    let Ok(place) = word_place(bytes) else {
        return Ok(None);
    };
    if tilde_next(place) || !unit_starts(Context::Word, clear(place)) {
        return Ok(None);
    }
    match parts_of(alloc, place, notes)? {
        None => Ok(None),
        Some((parts, rest)) => Ok(Some((word_of_parts(notes, parts, place, rest), rest))),
    }
}
