//! The steps of arithmetic expansions (POSIX 2.6.4).
ghost use Rattle.text_grammar.specs.Values.{stepped};
ghost use Rattle.sh_grammar.specs.Expansions as expansions;
ghost use Rattle.sh_grammar.specs.Table as table;
ghost use Rattle.sh_grammar.specs.Steps as steps;
ghost use Rattle.sh_grammar.specs.Steps.{Known};
ghost use Rattle.sh_parser.specs.Answers.{Gives};
ghost use Rattle.sh_parser.specs.Tables as tables;
ghost use Rattle.sh_parser.specs.Values.{optional_nodes};
ghost use Rattle.sh_parser.specs.Views.{state};

use crate::fault::Stop;
use crate::notes::Notes;
use crate::open_sum::Sum;
use crate::params::{behind_two, dollar_sum};
use crate::sums::{append, append_operand, close, sum_bytes};
use crate::table::SumStep;
use crate::values::Value;
use span_text::Text;
use std::alloc::Global;

/// The steps of arithmetic expansions.
pub fn take_sum<'a>(
    alloc: Global,
    step: SumStep,
    bytes: &'a [u8],
    notes: &mut Notes,
) -> Result<(Option<Value>, &'a [u8]), Stop>
    ensures { (k : Known) → Gives (λ x. (optional_nodes x.0, state x.1.now notes.new)) result (stepped (steps.run_step k (tables.sum_step step) (state bytes.now notes.old))) }
{
    match step {
        SumStep::OpenSum => open_sum(alloc, bytes, notes),
        SumStep::SumBytes => bytes_step(alloc, bytes, notes),
        SumStep::Operand => operand(bytes, notes),
        SumStep::SumOpen => sum_open(bytes, notes),
        SumStep::SumClose => sum_close(bytes, notes),
        SumStep::CloseSum => close_sum(alloc, bytes, notes),
    }
}

/// `$((`.
#[tactic(auto, unfolding(sh_grammar::specs::Steps::run_step))]
fn open_sum<'a>(
    alloc: Global,
    bytes: &'a [u8],
    notes: &mut Notes,
) -> Result<(Option<Value>, &'a [u8]), Stop>
    ensures { (k : Known) → Gives (λ x. (optional_nodes x.0, state x.1.now notes.new)) result (stepped (steps.run_step k table.open_sum (state bytes.now notes.old))) }
{
    let Some(rest) = dollar_sum(bytes) else {
        return Err(Stop::Bad);
    };
    notes.sums.push(Sum {
        text: Text::new(alloc),
        operands: Vec::new(alloc),
    })?;
    Ok((None, rest))
}

/// Bytes.
fn bytes_step<'a>(
    alloc: Global,
    bytes: &'a [u8],
    notes: &mut Notes,
) -> Result<(Option<Value>, &'a [u8]), Stop>
    ensures { (k : Known) → Gives (λ x. (optional_nodes x.0, state x.1.now notes.new)) result (stepped (steps.run_step k table.sum_bytes (state bytes.now notes.old))) }
{
    Ok((None, sum_bytes(alloc, bytes, notes)?))
}

/// An expansion that is an operand begins.
#[tactic(auto, unfolding(sh_grammar::specs::Steps::run_step))]
fn operand<'a>(bytes: &'a [u8], notes: &mut Notes) -> Result<(Option<Value>, &'a [u8]), Stop>
    ensures { (k : Known) → Gives (λ x. (optional_nodes x.0, state x.1.now notes.new)) result (stepped (steps.run_step k table.operand (state bytes.now notes.old))) }
{
    append_operand(notes)?;
    Ok((None, bytes))
}

/// `(`.
#[tactic(auto, unfolding(sh_grammar::specs::Steps::run_step))]
fn sum_open<'a>(bytes: &'a [u8], notes: &mut Notes) -> Result<(Option<Value>, &'a [u8]), Stop>
    ensures { (k : Known) → Gives (λ x. (optional_nodes x.0, state x.1.now notes.new)) result (stepped (steps.run_step k table.sum_open (state bytes.now notes.old))) }
{
    let rest = behind_of(b'(', bytes)?;
    append(notes, b"(")?;
    Ok((None, rest))
}

/// `)`.
#[tactic(auto, unfolding(sh_grammar::specs::Steps::run_step))]
fn sum_close<'a>(bytes: &'a [u8], notes: &mut Notes) -> Result<(Option<Value>, &'a [u8]), Stop>
    ensures { (k : Known) → Gives (λ x. (optional_nodes x.0, state x.1.now notes.new)) result (stepped (steps.run_step k table.sum_close (state bytes.now notes.old))) }
{
    let rest = behind_of(b')', bytes)?;
    append(notes, b")")?;
    Ok((None, rest))
}

/// Behind this byte.
fn behind_of(wanted: u8, bytes: &[u8]) -> Result<&[u8], Stop>
    ensures { Gives (λ x. x.now) result (steps.behind wanted bytes.now) }
{
    match bytes {
        [] => Err(Stop::Bad),
        [b, rest @ ..] => if *b == wanted {
            Ok(rest)
        } else {
            Err(Stop::Bad)
        },
    }
}

/// `))`, where the bytes and operands before it spell an expression.
#[tactic(auto, unfolding(sh_grammar::specs::Steps::run_step))]
fn close_sum<'a>(
    alloc: Global,
    bytes: &'a [u8],
    notes: &mut Notes,
) -> Result<(Option<Value>, &'a [u8]), Stop>
    ensures { (k : Known) → Gives (λ x. (optional_nodes x.0, state x.1.now notes.new)) result (stepped (steps.run_step k table.close_sum (state bytes.now notes.old))) }
{
    let rest = closing_of(bytes)?;
    let expr = close(alloc, notes)?;
    Ok((Some(Value::Expr(expr)), rest))
}

/// Behind `))`.
fn closing_of(bytes: &[u8]) -> Result<&[u8], Stop>
    ensures { Gives (λ x. x.now) result (expansions.behind_two 41 41 bytes.now) }
{
    match behind_two(b')', b')', bytes) {
        Some(rest) => Ok(rest),
        None => Err(Stop::Bad),
    }
}
