//! What is still to be read, as a stack of tasks.

ghost use Rattle.std.specs.Prelude.{◌≡◌, ◌∷◌, ◌++◌, ℕ, List, true, Some, IfOk, if◌then◌else◌};
ghost use Rattle.sh_grammar.specs.State.{start_at};
ghost use Rattle.sh_grammar.specs.Steps as steps;
ghost use Rattle.sh_grammar.specs.Acts as acts;
ghost use Rattle.sh_grammar.specs.Table as table;
ghost use Rattle.sh_grammar.specs.Bytes.{Text as Bytes};
ghost use Rattle.sh_grammar.specs.State.{State, Node};
ghost use Rattle.sh_parser.specs.Answers.{Gives};
ghost use Rattle.sh_parser.specs.Tables as tables;
ghost use Rattle.sh_parser.specs.Tasks as tasks_of;
ghost use Rattle.sh_parser.specs.Tasks.{todo_of, todos, then_items, go_on, all_ready, is_ready, Turns};
ghost use Rattle.sh_parser.specs.Values.{nodes};
ghost use Rattle.sh_parser.specs.Views.{state};

use crate::acts::{act, leads_on};
use crate::ahead::holds;
use crate::direct::word;
use crate::fault::Stop;
use crate::gaps::gap;
use crate::notes::{Notes, span_of};
use crate::rules::body;
use crate::table::{Item, Rule, Test, Unit, WordRule};
use crate::taking::take;
use crate::values::{Value, joined, with};
use span_text::{List, Span};
use std::alloc::Global;

/// What is still to be read.
#[derive(Drop)]
pub enum Task {
    /// Items one behind the other.
    Items(&'static [Item]),
    /// A here-document.
    Here,
    /// The unit again and again, as long as the test holds.
    Star(Test, Unit),
    /// A rule ends, which began at this place behind these values.
    Make(Rule, List<Value>, Span),
}

/// The items are next, if there are any.
fn push_items(items: &'static [Item], tasks: &mut Vec<Task>) -> Result<(), Stop>
    ensures { Gives (λ _. todos tasks.new.items) result (Some (then_items items.now (todos tasks.old.items))) }
{
    match items {
        [] => Ok(()),
        [_, ..] => {
            tasks.push(Task::Items(items))?;
            Ok(())
        }
    }
}

/// The one where the test holds, else the other.
fn side(test: Test, one: Unit, other: Unit, bytes: &[u8]) -> Unit
    ensures { result ≡ (if steps.holds (tables.test test) (start_at 0 bytes.now) then one else other) }
{
    if holds(test, bytes) { one } else { other }
}

/// What is read at once of an item with others behind it, which are still to be read.
fn next_unit(
    item: Item,
    rest: &'static [Item],
    bytes: &[u8],
    tasks: &mut Vec<Task>,
) -> Result<Unit, Stop>
    ensures turns { (n : ℕ) (ds : List Bytes) (xs : List Node) (s : State) → s.bytes ≡ bytes.now → Turns result (λ u. go_on n ds (tasks_of.unit u ∷ todos tasks.new.items) xs s) (go_on n ds (tasks_of.items (item ∷ rest.now) ∷ todos tasks.old.items) xs s) }
    ensures ready { IfOk result (λ _. all_ready (tasks_of.items (item ∷ rest.now) ∷ todos tasks.old.items) ≡ true → all_ready (todos tasks.new.items) ≡ true) }
{
    match item {
        Item::One(unit) => {
            push_items(rest, tasks)?;
            Ok(unit)
        }
        Item::If(test, one, other) => {
            push_items(rest, tasks)?;
            Ok(side(test, one, other, bytes))
        }
        Item::Where(test) => if holds(test, bytes) {
            push_items(rest, tasks)?;
            Ok(Unit::Pass)
        } else {
            Ok(Unit::Pass)
        },
        Item::Star(test, again) => {
            push_items(rest, tasks)?;
            tasks.push(Task::Star(test, again))?;
            Ok(Unit::Pass)
        }
    }
}

/// What is read at once of the items; those behind it are still to be read.
fn items_unit(items: &'static [Item], bytes: &[u8], tasks: &mut Vec<Task>) -> Result<Unit, Stop>
    ensures turns { (n : ℕ) (ds : List Bytes) (xs : List Node) (s : State) → s.bytes ≡ bytes.now → Turns result (λ u. go_on n ds (tasks_of.unit u ∷ todos tasks.new.items) xs s) (go_on n ds (tasks_of.items items.now ∷ todos tasks.old.items) xs s) }
    ensures ready { IfOk result (λ _. all_ready (tasks_of.items items.now ∷ todos tasks.old.items) ≡ true → all_ready (todos tasks.new.items) ≡ true) }
{
    match items {
        [] => Ok(Unit::Pass),
        [first, rest @ ..] => next_unit(*first, rest, bytes, tasks),
    }
}

/// The unit once more where the test holds, and the repetition again behind it.
fn star_unit(test: Test, unit: Unit, bytes: &[u8], tasks: &mut Vec<Task>) -> Result<Unit, Stop>
    requires { is_ready (tasks_of.turns test unit) ≡ true }
    ensures turns { (n : ℕ) (ds : List Bytes) (xs : List Node) (s : State) → s.bytes ≡ bytes.now → Turns result (λ u. go_on n ds (tasks_of.unit u ∷ todos tasks.new.items) xs s) (go_on n ds (tasks_of.turns test unit ∷ todos tasks.old.items) xs s) }
    ensures ready { IfOk result (λ _. all_ready (todos tasks.old.items) ≡ true → all_ready (todos tasks.new.items) ≡ true) }
{
    if holds(test, bytes) {
        tasks.push(Task::Star(test, unit))?;
        return Ok(unit);
    }
    Ok(Unit::Pass)
}

/// The rule's values are made of those that were read in it, and come behind those before it.
fn make_turn(
    alloc: Global,
    rule: Rule,
    front: List<Value>,
    values: List<Value>,
    span: Span,
) -> Result<List<Value>, Stop>
    ensures { Gives nodes result (Some (nodes front ++ acts.act (tables.rule rule) (nodes values))) }
{
    let made = act(alloc, rule, values, span)?;
    joined(front, made)
}

/// Where what a rule reads begins.
fn place_of(rule: Rule, bytes: &[u8]) -> &[u8] {
    match rule {
        Rule::Word(WordRule::Part(_)) => bytes,
        Rule::Word(WordRule::DoubleQuotes) => bytes,
        Rule::Dollar(_) => bytes,
        _ => gap(bytes),
    }
}

/// A rule begins. Where it gives back the values below it, these come behind those before it.
fn begin(
    alloc: Global,
    rule: Rule,
    values: List<Value>,
    bytes: &[u8],
    tasks: &mut Vec<Task>,
    notes: &Notes,
) -> Result<List<Value>, Stop>
    ensures turns { (n : ℕ) (ds : List Bytes) → Turns result (λ x. go_on n ds (todos tasks.new.items) (nodes x) (state bytes.now notes.now)) (go_on n ds (tasks_of.unit (Unit.Rule rule) ∷ todos tasks.old.items) (nodes values) (state bytes.now notes.now)) }
    ensures ready { IfOk result (λ _. all_ready (todos tasks.old.items) ≡ true → all_ready (todos tasks.new.items) ≡ true) }
{
    let items = body(rule, bytes);
    if leads_on(rule) {
        tasks.push(Task::Items(items))?;
        return Ok(values);
    }
    let span = span_of(notes, place_of(rule, bytes), bytes);
    tasks.push(Task::Make(rule, values, span))?;
    tasks.push(Task::Items(items))?;
    Ok(List::new(alloc))
}

fn is_word(rule: Rule) -> bool
    ensures { result ≡ true → tables.rule rule ≡ table.word }
{
    match rule {
        Rule::Word(WordRule::Word) => true,
        _ => false,
    }
}

/// A rule begins, or a word is read at once.
fn rule_turn<'a>(
    alloc: Global,
    rule: Rule,
    values: List<Value>,
    bytes: &'a [u8],
    tasks: &mut Vec<Task>,
    notes: &Notes,
) -> Result<(List<Value>, &'a [u8]), Stop>
    ensures turns { (n : ℕ) (ds : List Bytes) → Turns result (λ x. go_on n ds (todos tasks.new.items) (nodes x.0) (state x.1.now notes.now)) (go_on n ds (tasks_of.unit (Unit.Rule rule) ∷ todos tasks.old.items) (nodes values) (state bytes.now notes.now)) }
    ensures ready { IfOk result (λ _. all_ready (todos tasks.old.items) ≡ true → all_ready (todos tasks.new.items) ≡ true) }
{
    if is_word(rule) {
        if let Some((word, rest)) = word(alloc, bytes, notes)? {
            return Ok((with(values, Some(Value::Word(word)))?, rest));
        }
    }
    Ok((begin(alloc, rule, values, bytes, tasks, notes)?, bytes))
}

/// A step is read, or a rule begins.
pub fn unit_turn<'a>(
    alloc: Global,
    unit: Unit,
    values: List<Value>,
    bytes: &'a [u8],
    tasks: &mut Vec<Task>,
    notes: &mut Notes,
) -> Result<(List<Value>, &'a [u8]), Stop>
    ensures turns { (n : ℕ) (ds : List Bytes) → Turns result (λ x. go_on n ds (todos tasks.new.items) (nodes x.0) (state x.1.now notes.new)) (go_on n ds (tasks_of.unit unit ∷ todos tasks.old.items) (nodes values) (state bytes.now notes.old)) }
    ensures ready { IfOk result (λ _. all_ready (todos tasks.old.items) ≡ true → all_ready (todos tasks.new.items) ≡ true) }
{
    match unit {
        Unit::Pass => Ok((values, bytes)),
        Unit::Fail => Err(Stop::Bad),
        Unit::Unless(test) => if holds(test, bytes) {
            Err(Stop::Bad)
        } else {
            Ok((values, bytes))
        },
        Unit::Step(step) => {
            let (value, rest) = take(alloc, step, bytes, notes)?;
            Ok((with(values, value)?, rest))
        }
        Unit::Here => {
            tasks.push(Task::Here)?;
            Ok((values, bytes))
        }
        Unit::Rule(rule) => rule_turn(alloc, rule, values, bytes, tasks, notes),
    }
}

/// What is read of a task at once. A here-document is left where it is.
pub fn turn<'a>(
    alloc: Global,
    task: Task,
    values: List<Value>,
    bytes: &'a [u8],
    tasks: &mut Vec<Task>,
    notes: &mut Notes,
) -> Result<(List<Value>, &'a [u8]), Stop>
    requires { is_ready (todo_of task) ≡ true }
    ensures turns { (n : ℕ) (ds : List Bytes) → Turns result (λ x. go_on n ds (todos tasks.new.items) (nodes x.0) (state x.1.now notes.new)) (go_on n ds (todo_of task ∷ todos tasks.old.items) (nodes values) (state bytes.now notes.old)) }
    ensures ready { IfOk result (λ _. all_ready (todos tasks.old.items) ≡ true → all_ready (todos tasks.new.items) ≡ true) }
{
    match task {
        Task::Items(items) => {
            let unit = items_unit(items, bytes, tasks)?;
            unit_turn(alloc, unit, values, bytes, tasks, notes)
        }
        Task::Star(test, unit) => {
            let unit = star_unit(test, unit, bytes, tasks)?;
            unit_turn(alloc, unit, values, bytes, tasks, notes)
        }
        Task::Here => unit_turn(alloc, Unit::Here, values, bytes, tasks, notes),
        Task::Make(rule, front, from) => {
            let span = until(from, span_of(notes, bytes, bytes));
            Ok((make_turn(alloc, rule, front, values, span)?, bytes))
        }
    }
}

/// From where the one begins to where the other ends.
fn until(from: Span, to: Span) -> Span {
    Span {
        from: from.from,
        to: to.to,
    }
}
