//! Compound commands but for `for` and `case`, and functions (POSIX 2.9.4, 2.9.5).

ghost use Rattle.std.specs.Prelude.{Some};
ghost use Rattle.sh_grammar.specs.Acts as acts;
ghost use Rattle.sh_grammar.specs.Shape as shape;
ghost use Rattle.sh_grammar.specs.State as states;
ghost use Rattle.sh_parser.specs.Answers.{Gives};
ghost use Rattle.sh_parser.specs.Tables as tables;
ghost use Rattle.sh_parser.specs.Values.{value_node, nodes};
ghost use Rattle.sh_syntax.specs.View.{view_kind, view_command};

use crate::acts::empty::{command_or_empty, kind_or_empty, name_or_empty};
use crate::acts::single::{one, script, two_scripts};
use crate::fault::Stop;
use crate::picking::{Picked, first, pick};
use crate::table::CommandRule;
use crate::values::Value;
use sh_syntax::{Command, CommandKind, Function};
use span_text::{Boxed, List, Span};
use std::alloc::Global;

/// A compound command and its redirections.
#[tactic(auto, using(crate::proofs::Picked::kind_seen, crate::proofs::Picked::redirects_seen, crate::proofs::Rolls::command_rolled))]
fn compound_command(alloc: Global, values: List<Value>, span: Span) -> Result<Command, Stop>
    ensures { Gives view_command result (Some (shape.command (states.kind_in (nodes values)) (states.redirects_in (nodes values)))) }
{
    let Picked {
        kind,
        redirects,
        ..
    } = pick(alloc, values)?;
    let kind = kind_or_empty(alloc, kind);
    Ok(Command {
        kind,
        redirects,
        span,
    })
}

#[tactic(auto, using(sh_syntax::proofs::Views::group_is))]
fn group(alloc: Global, values: List<Value>) -> Result<CommandKind, Stop>
    ensures { Gives view_kind result (Some (shape.group (states.script_in (nodes values)))) }
{
    Ok(CommandKind::Group(script(alloc, values)?))
}

#[tactic(auto, using(sh_syntax::proofs::Views::subshell_is))]
fn subshell(alloc: Global, values: List<Value>) -> Result<CommandKind, Stop>
    ensures { Gives view_kind result (Some (shape.subshell (states.script_in (nodes values)))) }
{
    Ok(CommandKind::Subshell(script(alloc, values)?))
}

#[tactic(auto, using(crate::proofs::Picked::branches_seen, crate::proofs::Picked::else_seen, sh_syntax::proofs::Views::if_is))]
fn if_command(alloc: Global, values: List<Value>) -> Result<CommandKind, Stop>
    ensures { Gives view_kind result (Some (shape.branching (states.branches_in (nodes values)) (states.else_in (nodes values)))) }
{
    let Picked {
        branches,
        otherwise,
        ..
    } = pick(alloc, values)?;
    Ok(CommandKind::If {
        parts: branches,
        otherwise,
    })
}

/// A test and what runs where it succeeds.
fn branch(alloc: Global, values: List<Value>) -> Result<Value, Stop>
    ensures { Gives value_node result (Some (states.branch_node (states.script_in (nodes values)) (states.second_script_in (nodes values)))) }
{
    let (test, body) = two_scripts(alloc, values)?;
    Ok(Value::Branch(test, body))
}

#[tactic(auto, using(sh_syntax::proofs::Views::loop_is))]
fn loop_command(alloc: Global, until: bool, values: List<Value>) -> Result<CommandKind, Stop>
    ensures { Gives view_kind result (Some (shape.loop until (states.script_in (nodes values)) (states.second_script_in (nodes values)))) }
{
    let (test, body) = two_scripts(alloc, values)?;
    Ok(CommandKind::Loop { until, test, body })
}

/// `f() { a; }`, whose redirections stand at the body.
#[tactic(auto, using(crate::proofs::Picked::text_seen, crate::proofs::Picked::command_seen, crate::proofs::Rolls::function_rolled, crate::proofs::Rolls::command_rolled, sh_syntax::proofs::Views::function_kind_is))]
fn function_command(alloc: Global, values: List<Value>, span: Span) -> Result<Command, Stop>
    ensures { Gives view_command result (Some (shape.command (shape.function (states.text_in (nodes values)) (states.command_in (nodes values))) shape.no_redirect)) }
{
    let Picked { name, commands, .. } = pick(alloc, values)?;
    let name = name_or_empty(alloc, name, span);
    let body = Boxed::new(alloc, command_or_empty(alloc, first(commands), span))?;
    Ok(Command {
        kind: CommandKind::Function(Function { name, body }),
        redirects: List::new(alloc),
        span,
    })
}

/// What a rule of commands makes.
pub fn command(
    alloc: Global,
    rule: CommandRule,
    values: List<Value>,
    span: Span,
) -> Result<List<Value>, Stop>
    ensures { Gives nodes result (Some (acts.act (tables.command_rule rule) (nodes values))) }
{
    let value = match rule {
        CommandRule::CompoundCommand => Value::Command(compound_command(alloc, values, span)?),
        CommandRule::Group => Value::Kind(group(alloc, values)?),
        CommandRule::Subshell => Value::Kind(subshell(alloc, values)?),
        CommandRule::IfCommand => Value::Kind(if_command(alloc, values)?),
        CommandRule::IfBranch => branch(alloc, values)?,
        CommandRule::ElsePart => Value::Else(script(alloc, values)?),
        CommandRule::WhileLoop => Value::Kind(loop_command(alloc, false, values)?),
        CommandRule::UntilLoop => Value::Kind(loop_command(alloc, true, values)?),
        CommandRule::FunctionCommand => Value::Command(function_command(alloc, values, span)?),
        CommandRule::Command
        | CommandRule::Compound
        | CommandRule::OtherCompound
        | CommandRule::ElifBranch
        | CommandRule::DoBody => return Ok(values),
    };
    one(alloc, value)
}
