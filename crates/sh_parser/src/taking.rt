//! The steps of the grammar: what is read at once.

ghost use Rattle.text_grammar.specs.Values.{stepped};
ghost use Rattle.sh_grammar.specs.Table as table;
ghost use Rattle.sh_grammar.specs.Steps as steps;
ghost use Rattle.sh_grammar.specs.Steps.{Known};
ghost use Rattle.sh_parser.specs.Answers.{Gives};
ghost use Rattle.sh_parser.specs.Kinds as kinds;
ghost use Rattle.sh_parser.specs.Tables as tables;
ghost use Rattle.sh_parser.specs.Values.{optional_nodes};
ghost use Rattle.sh_parser.specs.Views.{state};

use crate::fault::Stop;
use crate::gaps::gap;
use crate::keys::Key;
use crate::leaves::{closed_of, dollar_of, escaped_of, exact_of, head_of, literal_of, tilde_of};
use crate::names::assign_at;
use crate::notes::{Notes, span_of};
use crate::params::behind_two;
use crate::redirects::take_redirect;
use crate::steps::{byte_of, end_of, enter, key_of, leave, line_of, name_of, op_of, word_place};
use crate::sum_steps::take_sum;
use crate::table::{Step, WordStep};
use crate::tokens::Op;
use crate::values::Value;
use sh_syntax::Name;
use std::alloc::Global;

/// What the step reads, and what follows it.
pub fn take<'a>(
    alloc: Global,
    step: Step,
    bytes: &'a [u8],
    notes: &mut Notes,
) -> Result<(Option<Value>, &'a [u8]), Stop>
    ensures { (k : Known) → Gives (λ x. (optional_nodes x.0, state x.1.now notes.new)) result (stepped (steps.run_step k (tables.step step) (state bytes.now notes.old))) }
{
    match step {
        Step::Op(op) => op_step(op, bytes, notes),
        Step::Key(key) => key_step(key, bytes, notes),
        Step::Line => line_step(alloc, bytes, notes),
        Step::Ends => end_step(bytes, notes),
        Step::Name => name_step(alloc, bytes, notes),
        Step::Enter => enter_step(bytes, notes),
        Step::Leave => leave_step(bytes, notes),
        Step::Word(step) => take_word(alloc, step, bytes, notes),
        Step::Redirect(step) => take_redirect(alloc, step, bytes, notes),
        Step::Sum(step) => take_sum(alloc, step, bytes, notes),
    }
}

/// A name that is a whole word.
#[tactic(auto, unfolding(sh_grammar::specs::Steps::run_step))]
fn name_step<'a>(
    alloc: Global,
    bytes: &'a [u8],
    notes: &Notes,
) -> Result<(Option<Value>, &'a [u8]), Stop>
    ensures { (k : Known) → Gives (λ x. (optional_nodes x.0, state x.1.now notes.now)) result (stepped (steps.run_step k table.name (state bytes.now notes.now))) }
{
    let (name, rest) = name_of(alloc, bytes, notes)?;
    Ok((Some(Value::Name(name)), rest))
}

/// The steps of words.
pub fn take_word<'a>(
    alloc: Global,
    step: WordStep,
    bytes: &'a [u8],
    notes: &Notes,
) -> Result<(Option<Value>, &'a [u8]), Stop>
    ensures { (k : Known) → Gives (λ x. (optional_nodes x.0, state x.1.now notes.now)) result (stepped (steps.run_step k (tables.word_step step) (state bytes.now notes.now))) }
{
    match step {
        WordStep::AssignName => assign_name(alloc, bytes, notes),
        WordStep::ToWord => place_step(bytes, notes),
        WordStep::Tilde => tilde_of(bytes, notes),
        WordStep::Literal(place) => literal_of(alloc, place, bytes, notes),
        WordStep::Escaped(place) => escaped_of(alloc, place, bytes, notes),
        WordStep::Exact => exact_of(alloc, bytes, notes),
        WordStep::Quote => quote_step(bytes, notes),
        WordStep::Dollar => dollar_of(alloc, bytes, notes),
        WordStep::Closed => closed_of(alloc, bytes, notes),
        WordStep::OpenHead => head_of(alloc, bytes, notes),
        WordStep::OpenSubst => subst_step(bytes, notes),
        WordStep::CloseBrace => brace_step(bytes, notes),
    }
}

/// `name=`.
#[tactic(auto, unfolding(sh_grammar::specs::Steps::run_step))]
fn assign_name<'a>(
    alloc: Global,
    bytes: &'a [u8],
    notes: &Notes,
) -> Result<(Option<Value>, &'a [u8]), Stop>
    ensures { (k : Known) → Gives (λ x. (optional_nodes x.0, state x.1.now notes.now)) result (stepped (steps.run_step k table.assign_name (state bytes.now notes.now))) }
{
    let (text, rest) = assign_at(alloc, bytes)?;
    let span = span_of(notes, gap(bytes), rest);
    Ok((Some(Value::Name(Name { text, span })), rest))
}

/// An operator.
#[tactic(auto, unfolding(sh_grammar::specs::Steps::run_step))]
fn op_step<'a>(op: Op, bytes: &'a [u8], notes: &Notes) -> Result<(Option<Value>, &'a [u8]), Stop>
    ensures { (k : Known) → Gives (λ x. (optional_nodes x.0, state x.1.now notes.now)) result (stepped (steps.run_step k (table.op (kinds.op op)) (state bytes.now notes.now))) }
{
    Ok((None, op_of(op, bytes)?))
}

/// A reserved word.
#[tactic(auto, unfolding(sh_grammar::specs::Steps::run_step))]
fn key_step<'a>(key: Key, bytes: &'a [u8], notes: &Notes) -> Result<(Option<Value>, &'a [u8]), Stop>
    ensures { (k : Known) → Gives (λ x. (optional_nodes x.0, state x.1.now notes.now)) result (stepped (steps.run_step k (table.key (kinds.key key)) (state bytes.now notes.now))) }
{
    Ok((None, key_of(key, bytes)?))
}

/// A newline, and the bodies that were owed before it.
#[tactic(auto, unfolding(sh_grammar::specs::Steps::run_step))]
fn line_step<'a>(
    alloc: Global,
    bytes: &'a [u8],
    notes: &mut Notes,
) -> Result<(Option<Value>, &'a [u8]), Stop>
    ensures { (k : Known) → Gives (λ x. (optional_nodes x.0, state x.1.now notes.new)) result (stepped (steps.run_step k table.line (state bytes.now notes.old))) }
{
    Ok((None, line_of(alloc, bytes, notes)?))
}

/// The end of the text.
#[tactic(auto, unfolding(sh_grammar::specs::Steps::run_step))]
fn end_step<'a>(bytes: &'a [u8], notes: &Notes) -> Result<(Option<Value>, &'a [u8]), Stop>
    ensures { (k : Known) → Gives (λ x. (optional_nodes x.0, state x.1.now notes.now)) result (stepped (steps.run_step k table.ends (state bytes.now notes.now))) }
{
    Ok((None, end_of(bytes, notes)?))
}

/// A level of nesting begins.
#[tactic(auto, unfolding(sh_grammar::specs::Steps::run_step))]
fn enter_step<'a>(bytes: &'a [u8], notes: &mut Notes) -> Result<(Option<Value>, &'a [u8]), Stop>
    ensures { (k : Known) → Gives (λ x. (optional_nodes x.0, state x.1.now notes.new)) result (stepped (steps.run_step k table.enter (state bytes.now notes.old))) }
{
    enter(notes)?;
    Ok((None, bytes))
}

/// A level of nesting ends.
#[tactic(auto, unfolding(sh_grammar::specs::Steps::run_step))]
fn leave_step<'a>(bytes: &'a [u8], notes: &mut Notes) -> Result<(Option<Value>, &'a [u8]), Stop>
    ensures { (k : Known) → Gives (λ x. (optional_nodes x.0, state x.1.now notes.new)) result (stepped (steps.run_step k table.leave (state bytes.now notes.old))) }
{
    leave(notes);
    Ok((None, bytes))
}

/// The place where a word begins.
#[tactic(auto, unfolding(sh_grammar::specs::Steps::run_step))]
fn place_step<'a>(bytes: &'a [u8], notes: &Notes) -> Result<(Option<Value>, &'a [u8]), Stop>
    ensures { (k : Known) → Gives (λ x. (optional_nodes x.0, state x.1.now notes.now)) result (stepped (steps.run_step k table.to_word (state bytes.now notes.now))) }
{
    Ok((None, word_place(bytes)?))
}

/// `"`.
#[tactic(auto, unfolding(sh_grammar::specs::Steps::run_step))]
fn quote_step<'a>(bytes: &'a [u8], notes: &Notes) -> Result<(Option<Value>, &'a [u8]), Stop>
    ensures { (k : Known) → Gives (λ x. (optional_nodes x.0, state x.1.now notes.now)) result (stepped (steps.run_step k table.quote (state bytes.now notes.now))) }
{
    Ok((None, byte_of(b'"', bytes)?))
}

/// `}`.
#[tactic(auto, unfolding(sh_grammar::specs::Steps::run_step))]
fn brace_step<'a>(bytes: &'a [u8], notes: &Notes) -> Result<(Option<Value>, &'a [u8]), Stop>
    ensures { (k : Known) → Gives (λ x. (optional_nodes x.0, state x.1.now notes.now)) result (stepped (steps.run_step k table.close_brace (state bytes.now notes.now))) }
{
    Ok((None, byte_of(b'}', bytes)?))
}

/// `$(`.
#[tactic(auto, unfolding(sh_grammar::specs::Steps::run_step))]
fn subst_step<'a>(bytes: &'a [u8], notes: &Notes) -> Result<(Option<Value>, &'a [u8]), Stop>
    ensures { (k : Known) → Gives (λ x. (optional_nodes x.0, state x.1.now notes.now)) result (stepped (steps.run_step k table.open_subst (state bytes.now notes.now))) }
{
    match behind_two(b'$', b'(', bytes) {
        Some(rest) => Ok((None, rest)),
        None => Err(Stop::Bad),
    }
}
