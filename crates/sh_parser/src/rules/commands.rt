//! Commands.

ghost use Rattle.std.specs.Prelude.{◌≡◌};
ghost use Rattle.sh_grammar.specs.Table as table;
ghost use Rattle.sh_parser.specs.Tables as tables;
ghost use Rattle.sh_parser.specs.Tables.{items_gram, chosen};

use crate::ahead::holds;
use crate::keys::Key;
use crate::table::Item::{If, One, Star};
use crate::table::{CommandRule, Item, RedirectTest, Test};
use crate::tokens::Op;
use crate::units::{
    CASE_COMMAND, CLOSE, COMPOUND, COMPOUND_COMMAND, DO, DO_BODY, DONE, ELIF, ELIF_BRANCH, ELSE,
    ELSE_PART, END_GROUP, ENTER, FI, FOR_LOOP, FUNCTION_COMMAND, GROUP, IF, IF_BRANCH, IF_COMMAND,
    LEAVE, LINES, LIST, NAME, OPEN, OPEN_BRACE, OTHER_COMPOUND, PASS, REDIRECT, SIMPLE_COMMAND,
    SUBSHELL, THEN, UNTIL, UNTIL_LOOP, WHILE, WHILE_LOOP,
};

/// Commands.
pub fn command_body(rule: CommandRule, bytes: &[u8]) -> &'static [Item]
    ensures { items_gram result.now ≡ chosen (table.body (tables.command_rule rule)) bytes.now }
{
    match rule {
        CommandRule::Command => command(bytes),
        CommandRule::CompoundCommand => &[
            One(COMPOUND),
            Star(Test::Redirect(RedirectTest::RedirectBegins), REDIRECT),
        ],
        CommandRule::Compound => compound(bytes),
        CommandRule::OtherCompound => other_compound(bytes),
        CommandRule::Group => &[
            One(OPEN_BRACE),
            One(ENTER),
            One(LIST),
            One(END_GROUP),
            One(LEAVE),
        ],
        CommandRule::Subshell => &[One(OPEN), One(ENTER), One(LIST), One(CLOSE), One(LEAVE)],
        CommandRule::IfCommand => if_command(),
        CommandRule::IfBranch => &[One(LIST), One(THEN), One(LIST)],
        CommandRule::ElifBranch => &[One(ELIF), One(IF_BRANCH)],
        CommandRule::ElsePart => &[One(ELSE), One(LIST)],
        CommandRule::WhileLoop => &[One(WHILE), One(ENTER), One(LIST), One(DO_BODY), One(LEAVE)],
        CommandRule::UntilLoop => &[One(UNTIL), One(ENTER), One(LIST), One(DO_BODY), One(LEAVE)],
        CommandRule::DoBody => &[One(DO), One(LIST), One(DONE)],
        CommandRule::FunctionCommand => &[
            One(NAME),
            One(OPEN),
            One(CLOSE),
            One(LINES),
            One(COMPOUND_COMMAND),
        ],
    }
}

fn command(bytes: &[u8]) -> &'static [Item]
    ensures { items_gram result.now ≡ chosen (table.body table.command) bytes.now }
{
    if holds(Test::CompoundBegins, bytes) {
        &[One(COMPOUND_COMMAND)]
    } else if holds(Test::FunctionBegins, bytes) {
        &[One(FUNCTION_COMMAND)]
    } else {
        &[One(SIMPLE_COMMAND)]
    }
}

fn compound(bytes: &[u8]) -> &'static [Item]
    ensures { items_gram result.now ≡ chosen (table.body table.compound) bytes.now }
{
    if holds(Test::Next(Op::Open), bytes) {
        &[One(SUBSHELL)]
    } else if holds(Test::KeyNext(Key::OpenBrace), bytes) {
        &[One(GROUP)]
    } else if holds(Test::KeyNext(Key::If), bytes) {
        &[One(IF_COMMAND)]
    } else {
        &[One(OTHER_COMPOUND)]
    }
}

fn other_compound(bytes: &[u8]) -> &'static [Item]
    ensures { items_gram result.now ≡ chosen (table.body table.other_compound) bytes.now }
{
    if holds(Test::KeyNext(Key::While), bytes) {
        &[One(WHILE_LOOP)]
    } else if holds(Test::KeyNext(Key::Until), bytes) {
        &[One(UNTIL_LOOP)]
    } else if holds(Test::KeyNext(Key::For), bytes) {
        &[One(FOR_LOOP)]
    } else {
        &[One(CASE_COMMAND)]
    }
}

fn if_command() -> &'static [Item]
    ensures { items_gram result.now ≡ table.body table.if_command }
{
    &[
        One(IF),
        One(ENTER),
        One(IF_BRANCH),
        Star(Test::KeyNext(Key::Elif), ELIF_BRANCH),
        If(Test::KeyNext(Key::Else), ELSE_PART, PASS),
        One(FI),
        One(LEAVE),
    ]
}
