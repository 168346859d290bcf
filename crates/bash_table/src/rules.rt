//! The grammar's table: what each rule is made of.

ghost use Rattle.std.specs.Prelude.{◌≡◌};
ghost use Rattle.bash_grammar.specs.Bytes.{Context};
ghost use Rattle.bash_grammar.specs.Table as table;
ghost use Rattle.bash_rules.specs.Rules as rules;
ghost use Rattle.bash_table.specs.Tables.{items_gram};

use crate::brace_rules::{brace_body, operation_body, sum_body};
use crate::branch_rules::{branch_body, for_body};
use crate::list_rules::{command_body, line_body, pipe_body};
use crate::other_rules::{cond_body, other_body, regex_body};
use crate::simple_rules::{assign_body, redirect_body, simple_body};
use crate::steps::{STEP_BEGIN_OPERAND, STEP_END_OPERAND};
use crate::table::Item;
use crate::table::Item::One;
use crate::units::PART;
use crate::word_rules::{unit_body, word_body};
use bash_rules::Rule;

/// What the rule is made of, in any place.
pub fn body(rule: Rule) -> &'static [Item]
    ensures { (c : Context) → items_gram c result.now ≡ table.body (rules.rule rule c) }
{
    match rule {
        Rule::Line(rule) => line_body(rule),
        Rule::Pipe(rule) => pipe_body(rule),
        Rule::Command(rule) => command_body(rule),
        Rule::Branch(rule) => branch_body(rule),
        Rule::For(rule) => for_body(rule),
        Rule::Other(rule) => other_body(rule),
        Rule::Cond(rule) => cond_body(rule),
        Rule::Regex(rule) => regex_body(rule),
        Rule::Simple(rule) => simple_body(rule),
        Rule::Assign(rule) => assign_body(rule),
        Rule::Redirect(rule) => redirect_body(rule),
        Rule::Word(rule) => word_body(rule),
        Rule::Unit(rule) => unit_body(rule),
        Rule::Brace(rule) => brace_body(rule),
        Rule::Operation(rule) => operation_body(rule),
        Rule::Sum(rule) => sum_body(rule),
        Rule::KeyOperand => &[One(STEP_BEGIN_OPERAND), One(PART), One(STEP_END_OPERAND)],
    }
}
