//! The grammar's table (POSIX 2.10.2): what each rule is made of, where its first choices are made by the bytes ahead.

ghost use Rattle.std.specs.Prelude.{◌≡◌};
ghost use Rattle.sh_grammar.specs.Table as table;
ghost use Rattle.sh_parser.specs.Tables as tables;
ghost use Rattle.sh_parser.specs.Tables.{items_gram, chosen};

mod commands;
mod dollars;
mod lines;
mod loops;
mod places;
mod simple;
mod words;

use crate::table::{Item, Rule};

/// What the rule is made of, its first choices made.
pub fn body(rule: Rule, bytes: &[u8]) -> &'static [Item]
    ensures { items_gram result.now ≡ chosen (table.body (tables.rule rule)) bytes.now }
{
    match rule {
        Rule::Line(rule) => lines::line_body(rule, bytes),
        Rule::Pipe(rule) => lines::pipe_body(rule, bytes),
        Rule::Command(rule) => commands::command_body(rule, bytes),
        Rule::Loop(rule) => loops::loop_body(rule, bytes),
        Rule::Simple(rule) => simple::simple_body(rule, bytes),
        Rule::Word(rule) => words::word_body(rule, bytes),
        Rule::Dollar(rule) => dollars::dollar_body(rule, bytes),
    }
}
