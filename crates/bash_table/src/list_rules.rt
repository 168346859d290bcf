//! Lists, pipelines and groups (Bash manual, 3.2.3, 3.2.4, 3.2.5.3).

ghost use Rattle.std.specs.Prelude.{◌≡◌};
ghost use Rattle.bash_grammar.specs.Bytes.{Context};
ghost use Rattle.bash_grammar.specs.Table as table;
ghost use Rattle.bash_rules.specs.Rules as rules;
ghost use Rattle.bash_table.specs.Tables.{items_gram};

use crate::guards::{
    COMPOUND_BEGINS, DOUBLE_BEGINS, GOES_ON, KEY_NEXT_BANG, KEY_NEXT_CASE, KEY_NEXT_FOR,
    KEY_NEXT_IF, KEY_NEXT_OPEN_BRACE, KEY_NEXT_OPEN_COND, KEY_NEXT_UNTIL, KEY_NEXT_WHILE, LINKS,
    LIST_GOES_ON, NEXT_AMP, NEXT_AND_IF, NEXT_NEWLINE, NEXT_OPEN, OTHER_BEGINS, PIPELINE_BEGINS,
    PIPES, REDIRECT_BEGINS, SEPARATES, SUM_GOES_ON_TO_CLOSE,
};
use crate::steps::{
    END_SUM, ENTER, FROM_TOKEN, KEY_BANG, KEY_CLOSE_BRACE, KEY_OPEN_BRACE, LEAVE, OP_AND_IF,
    OP_CLOSE, OP_OPEN, OP_OR_IF, OP_SEMI, STEP_AMPERSAND, STEP_BEGIN_SUM, STEP_CLOSE_DOUBLE,
    STEP_ENDS, STEP_LINE, STEP_OPEN_DOUBLE, STEP_PIPE, TO_HERE,
};
use crate::table::Item;
use crate::table::Item::{Either, If, One, Star, Where};
use crate::units::{
    AND_LINK, BANG, CASE_COMMAND, CHAIN, COMMAND, COMPLETE, COMPLETE_MORE, COMPOUND,
    COMPOUND_COMMAND, CONDITIONAL, FOR_LOOP, GROUP, IF_COMMAND, LINES, LINK, LIST, LIST_MORE,
    LOOP_OR_CASE, OR_LINK, OTHER_COMMAND, OTHER_COMPOUND, PARENTHESIS, PASS, PIPELINE, REDIRECT,
    SELECT_LOOP, SEPARATOR, SIMPLE_COMMAND, STAGE, SUBSHELL, SUM_COMMAND,
    SUM_PART_TO_CLOSE_IN_DOUBLE, UNLESS_SEPARATES, UNTIL_LOOP, WHILE_LOOP,
};
use bash_rules::{CommandRule, LineRule, PipeRule};

/// Lines and lists.
pub fn line_body(rule: LineRule) -> &'static [Item]
    ensures { (c : Context) → items_gram c result.now ≡ table.body (rules.line_rule rule c) }
{
    match rule {
        LineRule::Piece => &[
            Either(NEXT_NEWLINE, STEP_LINE),
            One(COMPLETE),
            If(NEXT_NEWLINE, STEP_LINE, STEP_ENDS),
        ],
        LineRule::LinePiece => &[
            Either(NEXT_NEWLINE, STEP_LINE),
            One(COMPLETE),
            One(STEP_LINE),
        ],
        LineRule::Complete => &[
            One(CHAIN),
            Star(GOES_ON, COMPLETE_MORE),
            If(SEPARATES, SEPARATOR, PASS),
        ],
        LineRule::CompleteMore => &[One(SEPARATOR), One(CHAIN)],
        LineRule::Separator => &[If(NEXT_AMP, STEP_AMPERSAND, OP_SEMI)],
        LineRule::List => &[One(LINES), One(CHAIN), Star(LIST_GOES_ON, LIST_MORE)],
        LineRule::MaybeList => &[
            One(LINES),
            Where(PIPELINE_BEGINS),
            One(CHAIN),
            Star(LIST_GOES_ON, LIST_MORE),
        ],
        LineRule::ListMore => &[
            If(NEXT_NEWLINE, STEP_LINE, SEPARATOR),
            One(LINES),
            If(PIPELINE_BEGINS, CHAIN, UNLESS_SEPARATES),
        ],
        LineRule::Lines => &[Star(NEXT_NEWLINE, STEP_LINE)],
    }
}

/// Pipelines.
pub fn pipe_body(rule: PipeRule) -> &'static [Item]
    ensures { (c : Context) → items_gram c result.now ≡ table.body (rules.pipe_rule rule c) }
{
    match rule {
        PipeRule::Chain => &[One(PIPELINE), Star(LINKS, LINK)],
        PipeRule::Link => &[If(NEXT_AND_IF, AND_LINK, OR_LINK)],
        PipeRule::AndLink => &[One(OP_AND_IF), One(LINES), One(PIPELINE)],
        PipeRule::OrLink => &[One(OP_OR_IF), One(LINES), One(PIPELINE)],
        PipeRule::Pipeline => &[
            If(KEY_NEXT_BANG, BANG, PASS),
            One(COMMAND),
            Star(PIPES, STAGE),
        ],
        PipeRule::Bang => &[One(KEY_BANG)],
        PipeRule::Stage => &[One(STEP_PIPE), One(LINES), One(COMMAND)],
    }
}

/// Commands, groups and `((a))`.
pub fn command_body(rule: CommandRule) -> &'static [Item]
    ensures { (c : Context) → items_gram c result.now ≡ table.body (rules.command_rule rule c) }
{
    match rule {
        CommandRule::Command => &[
            Either(COMPOUND_BEGINS, COMPOUND_COMMAND),
            If(OTHER_BEGINS, OTHER_COMMAND, SIMPLE_COMMAND),
        ],
        CommandRule::CompoundCommand => &[
            One(FROM_TOKEN),
            One(COMPOUND),
            Star(REDIRECT_BEGINS, REDIRECT),
            One(TO_HERE),
        ],
        CommandRule::Compound => &[
            Either(NEXT_OPEN, PARENTHESIS),
            Either(KEY_NEXT_OPEN_BRACE, GROUP),
            If(KEY_NEXT_IF, IF_COMMAND, OTHER_COMPOUND),
        ],
        CommandRule::Parenthesis => &[If(DOUBLE_BEGINS, SUM_COMMAND, SUBSHELL)],
        CommandRule::OtherCompound => &[
            Either(KEY_NEXT_OPEN_COND, CONDITIONAL),
            Either(KEY_NEXT_FOR, FOR_LOOP),
            If(KEY_NEXT_CASE, CASE_COMMAND, LOOP_OR_CASE),
        ],
        CommandRule::LoopOrCase => &[
            Either(KEY_NEXT_WHILE, WHILE_LOOP),
            If(KEY_NEXT_UNTIL, UNTIL_LOOP, SELECT_LOOP),
        ],
        CommandRule::Group => &[
            One(KEY_OPEN_BRACE),
            One(ENTER),
            One(LIST),
            One(KEY_CLOSE_BRACE),
            One(LEAVE),
        ],
        CommandRule::Subshell => &[
            One(OP_OPEN),
            One(ENTER),
            One(LIST),
            One(OP_CLOSE),
            One(LEAVE),
        ],
        CommandRule::SumCommand => &[
            One(STEP_OPEN_DOUBLE),
            One(ENTER),
            One(STEP_BEGIN_SUM),
            Star(SUM_GOES_ON_TO_CLOSE, SUM_PART_TO_CLOSE_IN_DOUBLE),
            One(END_SUM),
            One(STEP_CLOSE_DOUBLE),
            One(LEAVE),
            One(TO_HERE),
        ],
    }
}
