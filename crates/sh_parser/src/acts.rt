//! What a rule makes of the values that were read below it. Where a value of a kind is missing, as never happens where a
//! rule was read, an empty one stands for it.

ghost use Rattle.std.specs.Prelude.{Some};
ghost use Rattle.sh_grammar.specs.Acts as acts;
ghost use Rattle.sh_parser.specs.Answers.{Gives};
ghost use Rattle.sh_parser.specs.Tables as tables;
ghost use Rattle.sh_parser.specs.Values.{nodes};

mod commands;
mod empty;
mod leading;
mod lists;
mod loops;
mod simple;
mod single;
mod words;

use crate::fault::Stop;
use crate::table::Rule;
use crate::values::Value;
pub use leading::leads_on;
pub use lists::chains_of;
use span_text::{List, Span};
use std::alloc::Global;

/// What a rule makes of the values that were read below it; `span` is where it stands.
pub fn act(alloc: Global, rule: Rule, values: List<Value>, span: Span) -> Result<List<Value>, Stop>
    ensures { Gives nodes result (Some (acts.act (tables.rule rule) (nodes values))) }
{
    match rule {
        Rule::Line(rule) => lists::line(alloc, rule, values),
        Rule::Pipe(rule) => lists::pipe(alloc, rule, values),
        Rule::Command(rule) => commands::command(alloc, rule, values, span),
        Rule::Loop(rule) => loops::for_or_case(alloc, rule, values, span),
        Rule::Simple(rule) => simple::simple(alloc, rule, values, span),
        Rule::Word(rule) => words::word_or_part(alloc, rule, values, span),
        Rule::Dollar(rule) => words::expansion(alloc, rule, values, span),
    }
}
