//! Simple commands, assignments and redirections (POSIX 2.9.1, 2.7).

ghost use Rattle.std.specs.Prelude.{Some};
ghost use Rattle.sh_grammar.specs.Acts as acts;
ghost use Rattle.sh_grammar.specs.Shape as shape;
ghost use Rattle.sh_grammar.specs.State as states;
ghost use Rattle.sh_parser.specs.Answers.{Gives};
ghost use Rattle.sh_parser.specs.Tables as tables;
ghost use Rattle.sh_parser.specs.Values.{nodes};
ghost use Rattle.sh_syntax.specs.View.{view_command, view_assign};

use crate::acts::empty::{name_or_empty, word_or_empty};
use crate::acts::single::one;
use crate::fault::Stop;
use crate::picking::{Picked, first, pick, tight};
use crate::table::SimpleRule;
use crate::values::Value;
use sh_syntax::{Assign, AssignValue, Command, CommandKind, Redirect};
use span_text::{List, Span};
use std::alloc::Global;

#[tactic(auto, using(crate::proofs::Picked::assigns_seen, crate::proofs::Picked::words_seen, crate::proofs::Picked::redirects_seen, crate::proofs::Rolls::command_rolled, sh_syntax::proofs::Views::simple_is))]
fn simple_command(alloc: Global, values: List<Value>, span: Span) -> Result<Command, Stop>
    ensures { Gives view_command result (Some (shape.command (shape.simple (states.assigns_in (nodes values)) (states.words_in (nodes values))) (states.redirects_in (nodes values)))) }
{
    let Picked {
        assigns,
        words,
        redirects,
        ..
    } = pick(alloc, values)?;
    let words = tight(words);
    Ok(Command {
        kind: CommandKind::Simple { assigns, words },
        redirects,
        span,
    })
}

#[tactic(auto, using(crate::proofs::Picked::text_seen, crate::proofs::Picked::value_seen, sh_syntax::proofs::Views::assign_is, sh_syntax::proofs::Views::value_is))]
fn assign(alloc: Global, values: List<Value>, span: Span) -> Result<Assign, Stop>
    ensures { Gives view_assign result (Some (states.text_in (nodes values), states.value_in (nodes values))) }
{
    let Picked { name, words, .. } = pick(alloc, values)?;
    Ok(Assign {
        name: name_or_empty(alloc, name, span),
        value: AssignValue::Word(first(words)),
        span,
    })
}

/// A redirection with its descriptor; none without an operator.
#[tactic(auto, using(crate::proofs::Picked::aimed_seen, crate::proofs::Picked::digit_seen, crate::proofs::Rolls::redirect_rolled))]
fn redirect(alloc: Global, values: List<Value>, span: Span) -> Result<List<Value>, Stop>
    ensures { Gives nodes result (Some (states.aimed_in (nodes values) (states.digit_in (nodes values)))) }
{
    let Picked { digit, aimed, .. } = pick(alloc, values)?;
    match aimed {
        Some((op, word)) => one(
            alloc,
            Value::Redirect(Redirect {
                fd: digit,
                op,
                word,
                span,
            }),
        ),
        None => Ok(List::new(alloc)),
    }
}

/// An operator with its word; nothing without an operator.
#[tactic(auto, using(crate::proofs::Picked::op_seen, crate::proofs::Picked::word_seen))]
fn file(alloc: Global, values: List<Value>, span: Span) -> Result<List<Value>, Stop>
    ensures { Gives nodes result (Some (states.op_in (nodes values) (states.word_in (nodes values)))) }
{
    let Picked { op, words, .. } = pick(alloc, values)?;
    match op {
        Some(op) => {
            let word = word_or_empty(alloc, first(words), span);
            one(alloc, Value::Aimed(op, word))
        }
        None => Ok(List::new(alloc)),
    }
}

/// What a rule of simple commands makes.
pub fn simple(
    alloc: Global,
    rule: SimpleRule,
    values: List<Value>,
    span: Span,
) -> Result<List<Value>, Stop>
    ensures { Gives nodes result (Some (acts.act (tables.simple_rule rule) (nodes values))) }
{
    match rule {
        SimpleRule::SimpleCommand => {
            one(alloc, Value::Command(simple_command(alloc, values, span)?))
        }
        SimpleRule::Assign => one(alloc, Value::Assign(assign(alloc, values, span)?)),
        SimpleRule::Redirect => redirect(alloc, values, span),
        SimpleRule::File => file(alloc, values, span),
        SimpleRule::Prefixed
        | SimpleRule::Called
        | SimpleRule::Suffix
        | SimpleRule::PrefixItem
        | SimpleRule::SuffixItem
        | SimpleRule::Target => Ok(values),
    }
}
