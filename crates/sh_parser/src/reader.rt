//! Reading by the grammar's table.
//!
//! What is still to be read stands on a stack of tasks in memory, so the program's own stack doesn't grow with a text: only
//! the bodies of here-documents in one another lead back to themselves.

ghost use Rattle.std.specs.Prelude.{◌∷◌, List, [], Some, if◌then◌else◌};
ghost use Rattle.text_grammar.specs.Grammar.{rule};
ghost use Rattle.text_grammar.specs.Values.{vals, stepped};
ghost use Rattle.sh_grammar.specs.Bytes.{Text as Bytes};
ghost use Rattle.sh_grammar.specs.State.{word_in};
ghost use Rattle.sh_grammar.specs.Table as table;
ghost use Rattle.sh_grammar.specs.Steps as steps;
ghost use Rattle.sh_grammar.specs.Spelling.{sh};
ghost use Rattle.sh_syntax.specs.View.{view_word};
ghost use Rattle.sh_parser.specs.Answers.{Gives};
ghost use Rattle.sh_parser.specs.Knowing.{MayBe, Grows};
ghost use Rattle.sh_parser.specs.Tables as tables;
ghost use Rattle.sh_parser.specs.Values.{value_node, nodes};
ghost use Rattle.sh_parser.specs.Views.{known, state};

use crate::fault::Stop;
use crate::knowing::{Bodies, look_ahead};
use crate::notes::{Notes, word_of_parts};
use crate::redirects::{body_of, here_front, here_operator, plain_parts};
use crate::table::{Rule, Unit, WordRule};
use crate::tasks::{Task, turn, unit_turn};
use crate::values::{Value, with};
use sh_syntax::Word;
use span_text::{List, Text};
use std::alloc::Global;

/// How many turns are made: no text that fits the memory takes more.
const TURNS: u64 = u64::MAX;

/// What the rule gives here, and what follows it.
#[cycle(reader)]
pub fn rule_of<'a>(
    alloc: Global,
    levels: u32,
    bodies: &mut Bodies,
    wanted: Rule,
    bytes: &'a [u8],
    notes: &mut Notes,
) -> Result<(List<Value>, &'a [u8]), Stop>
    ensures gives { (ds : List Bytes) → MayBe bodies.new ds → Gives (λ x. (nodes x.0, state x.1.now notes.new)) result (vals (sh levels ds) (rule (tables.rule wanted)) (state bytes.now notes.old)) }
    ensures grows { Grows bodies.old bodies.new }
{
    let mut tasks = Vec::new(alloc);
    let unit = Unit::Rule(wanted);
    let none = List::new(alloc);
    let start = unit_turn(alloc, unit, none, bytes, &mut tasks, notes)?;
    let (mut values, mut rest) = start;
    let mut left = TURNS;
    'turns: loop {
        if left == 0 {
            return Err(Stop::Memory);
        }
        left -= 1;
        match tasks.pop() {
            None => return Ok((values, rest)),
            Some(Task::Here) => {
                let (value, after) = here_of(alloc, levels, bodies, rest, notes)?;
                values = with(values, Some(value))?;
                rest = after;
            }
            Some(task) => {
                let (more, after) = turn(alloc, task, values, rest, &mut tasks, notes)?;
                values = more;
                rest = after;
            }
        }
    }
}

// ---- here-documents (2.7.4)

/// `<<` or `<<-`, and the delimiter, with the body that is known of it.
#[cycle(reader)]
fn here_of<'a>(
    alloc: Global,
    levels: u32,
    bodies: &mut Bodies,
    bytes: &'a [u8],
    notes: &mut Notes,
) -> Result<(Value, &'a [u8]), Stop>
    ensures gives { (ds : List Bytes) → MayBe bodies.new ds → Gives (λ x. (value_node x.0 ∷ [], state x.1.now notes.new)) result (stepped (steps.run_step (known levels ds) table.here (state bytes.now notes.old))) }
    ensures grows { Grows bodies.old bodies.new }
{
    let (owed, rest) = here_front(alloc, bytes)?;
    let literal = owed.literal;
    let before = notes.owed.len();
    let found = notes.found.len();
    look_ahead(alloc, bodies, &owed, before, found, rest)?;
    let body = body_of(bodies.texts.as_slice(), before, found);
    let word = document_of(alloc, levels, body, literal, bytes, rest, notes)?;
    notes.owed.push(owed)?;
    Ok((Value::Aimed(here_operator(literal), word), rest))
}

/// The parts of the body that the delimiter at this place stands for.
#[cycle(reader)]
fn document_of(
    alloc: Global,
    levels: u32,
    body: &[u8],
    literal: bool,
    place: &[u8],
    rest: &[u8],
    notes: &Notes,
) -> Result<Word, Stop>
    ensures { (ds : List Bytes) → Gives view_word result (if literal then Some (steps.literal_parts body.now) else steps.expanded_parts (known levels ds) notes.now.depth body.now) }
{
    if literal {
        let parts = plain_parts(alloc, notes, Text::copy(alloc, body)?, place, rest)?;
        return Ok(word_of_parts(notes, parts, place, rest));
    }
    expanded_of(alloc, levels, body, place, rest, notes)
}

/// The parts of a body that is expanded, which holds the bodies of here-documents of its own. It is read twice: once to
/// find these, once with them.
#[cycle(reader)]
fn expanded_of(
    alloc: Global,
    levels: u32,
    text: &[u8],
    from: &[u8],
    to: &[u8],
    notes: &Notes,
) -> Result<Word, Stop>
    ensures { (ds : List Bytes) → Gives view_word result (steps.expanded_parts (known levels ds) notes.now.depth text.now) }
{
    if text.is_empty() {
        return Ok(word_of_parts(notes, List::new(alloc), from, to));
    }
    if levels == 0 {
        return Err(Stop::Bad);
    }
    let rule = Rule::Word(WordRule::BodyParts);
    let mut first = notes.inner(alloc, from, to);
    let mut none = Bodies::all(List::new(alloc));
    let (values, _) = rule_of(alloc, levels - 1, &mut none, rule, text, &mut first)?;
    let Notes { found, .. } = first;
    if found.len() == 0 {
        return word_in_values(alloc, values, notes, from, to);
    }
    let mut second = notes.inner(alloc, from, to);
    let mut bodies = Bodies::all(found);
    let (values, _) = rule_of(alloc, levels - 1, &mut bodies, rule, text, &mut second)?;
    word_in_values(alloc, values, notes, from, to)
}

/// The first word of the values, or one without parts.
fn word_in_values(
    alloc: Global,
    values: List<Value>,
    notes: &Notes,
    from: &[u8],
    to: &[u8],
) -> Result<Word, Stop>
    ensures { Gives view_word result (Some (word_in (nodes values))) }
{
    for value in values.into_vec() {
        if let Value::Word(word) = value {
            return Ok(word);
        }
    }
    Ok(word_of_parts(notes, List::new(alloc), from, to))
}
