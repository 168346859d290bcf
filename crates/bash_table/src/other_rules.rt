//! Functions, `time`, `coproc` and `[[ ]]` (Bash manual, 3.2.3, 3.2.5.2, 3.2.6, 3.3).

ghost use Rattle.std.specs.Prelude.{◌≡◌};
ghost use Rattle.bash_grammar.specs.Bytes.{Context};
ghost use Rattle.bash_grammar.specs.Table as table;
ghost use Rattle.bash_rules.specs.Rules as rules;
ghost use Rattle.bash_table.specs.Tables.{items_gram};

use crate::guards::{
    BINARY_BEGINS, BYTE_BEGINS_OPEN_PAREN, COMMAND_BEGINS, COMPOUND_BEGINS, COND_WORD_BEGINS,
    KEY_NEXT_BANG, KEY_NEXT_FUNCTION, KEY_NEXT_TIME, NEXT_AND_IF, NEXT_OPEN, NEXT_OR_IF,
    OPTION_BEGINS_LAST, OPTION_BEGINS_POSIX, PARENS_BEGIN, PREFIX_BEGINS, REGEX_BEGINS,
    REGEX_GOES_ON, REGEX_WORD_BEGINS, SIMPLE_BEGINS, UNARY_BEGINS, UNIT_BEGINS_IN_GROUP,
};
use crate::steps::{
    CLOSE_GROUP_CLOSE_PAREN, ENTER, FROM_TOKEN, FROM_UNIT, KEY_BANG, KEY_CLOSE_COND, KEY_COPROC,
    KEY_FUNCTION, KEY_OPEN_COND, KEY_TIME, LEAVE, OP_AND_IF, OP_CLOSE, OP_OPEN, OP_OR_IF,
    OPTION_LAST, OPTION_POSIX, STEP_OPEN_GROUP, STEP_TEST_OP, STEP_TO_REGEX, TO_HERE,
};
use crate::table::Item;
use crate::table::Item::{Either, If, One, Only, Star};
use crate::units::{
    AND_MORE, BANG, BINARY, BINARY_MORE, COMMAND, COMPOUND_COMMAND, COND_AND, COND_GROUP, COND_NOT,
    COND_OR, COND_TERM, COND_WORD, COPROC_COMMAND, COPROC_NAMED, COPROC_REST, FAIL,
    FUNCTION_COMMAND, LINES, OR_MORE, PARENS, PART_IN_GROUP, PART_IN_REGEX, PASS, PATTERN,
    PREFIXED, REGEX, REGEX_GROUP, REGEX_PART, REGEX_TEST, SUFFIX, TIME_COMMAND, TIME_PREFIX,
    TIMED_BANG, UNARY, WHEN_COMMAND_BEGINS, WHEN_TIME_ENDS, WORD,
};
use bash_rules::{CondRule, OtherRule, RegexRule};

/// Functions, `time` and `coproc`.
pub fn other_body(rule: OtherRule) -> &'static [Item]
    ensures { (c : Context) → items_gram c result.now ≡ table.body (rules.other_rule rule c) }
{
    match rule {
        OtherRule::OtherCommand => &[
            Either(KEY_NEXT_FUNCTION, FUNCTION_COMMAND),
            If(KEY_NEXT_TIME, TIME_COMMAND, COPROC_COMMAND),
        ],
        OtherRule::FunctionCommand => &[
            One(FROM_TOKEN),
            One(KEY_FUNCTION),
            One(WORD),
            If(PARENS_BEGIN, PARENS, PASS),
            One(LINES),
            One(COMPOUND_COMMAND),
            One(TO_HERE),
        ],
        OtherRule::FunctionRest => &[One(PARENS), One(LINES), One(COMPOUND_COMMAND)],
        OtherRule::Parens => &[One(OP_OPEN), One(OP_CLOSE)],
        OtherRule::TimeCommand => &[
            One(FROM_TOKEN),
            One(TIME_PREFIX),
            Star(KEY_NEXT_TIME, TIME_PREFIX),
            If(COMMAND_BEGINS, COMMAND, WHEN_TIME_ENDS),
            One(TO_HERE),
        ],
        OtherRule::TimePrefix => &[
            One(KEY_TIME),
            If(OPTION_BEGINS_POSIX, OPTION_POSIX, PASS),
            If(OPTION_BEGINS_LAST, OPTION_LAST, PASS),
            If(KEY_NEXT_BANG, TIMED_BANG, PASS),
        ],
        OtherRule::TimedBang => &[One(KEY_BANG), One(WHEN_COMMAND_BEGINS)],
        OtherRule::CoprocCommand => &[
            One(FROM_TOKEN),
            One(KEY_COPROC),
            If(COMPOUND_BEGINS, COMPOUND_COMMAND, COPROC_REST),
            One(TO_HERE),
        ],
        OtherRule::CoprocRest => &[
            Only(SIMPLE_BEGINS),
            If(PREFIX_BEGINS, PREFIXED, COPROC_NAMED),
        ],
        OtherRule::CoprocNamed => &[One(WORD), If(COMPOUND_BEGINS, COMPOUND_COMMAND, SUFFIX)],
    }
}

/// `[[ ]]`.
pub fn cond_body(rule: CondRule) -> &'static [Item]
    ensures { (c : Context) → items_gram c result.now ≡ table.body (rules.cond_rule rule c) }
{
    match rule {
        CondRule::Conditional => &[
            One(KEY_OPEN_COND),
            One(ENTER),
            One(COND_OR),
            One(KEY_CLOSE_COND),
            One(LEAVE),
        ],
        CondRule::CondOr => &[One(COND_AND), Star(NEXT_OR_IF, OR_MORE)],
        CondRule::OrMore => &[One(OP_OR_IF), One(COND_AND)],
        CondRule::CondAnd => &[One(COND_NOT), Star(NEXT_AND_IF, AND_MORE)],
        CondRule::AndMore => &[One(OP_AND_IF), One(COND_NOT)],
        CondRule::CondNot => &[Star(KEY_NEXT_BANG, BANG), One(COND_TERM)],
        CondRule::CondTerm => &[
            Either(NEXT_OPEN, COND_GROUP),
            If(UNARY_BEGINS, UNARY, BINARY),
        ],
        CondRule::CondGroup => &[
            One(OP_OPEN),
            One(ENTER),
            One(COND_OR),
            One(OP_CLOSE),
            One(LEAVE),
        ],
        CondRule::Unary => &[One(STEP_TEST_OP), One(COND_WORD)],
        CondRule::Binary => &[
            One(COND_WORD),
            Either(REGEX_BEGINS, REGEX_TEST),
            If(BINARY_BEGINS, BINARY_MORE, PASS),
        ],
        CondRule::BinaryMore => &[One(STEP_TEST_OP), One(COND_WORD)],
        CondRule::CondWord => &[If(COND_WORD_BEGINS, PATTERN, FAIL)],
    }
}

/// `=~` and what stands behind it.
pub fn regex_body(rule: RegexRule) -> &'static [Item]
    ensures { (c : Context) → items_gram c result.now ≡ table.body (rules.regex_rule rule c) }
{
    match rule {
        RegexRule::RegexTest => &[One(STEP_TEST_OP), If(REGEX_WORD_BEGINS, REGEX, FAIL)],
        RegexRule::Regex => &[
            One(STEP_TO_REGEX),
            One(FROM_UNIT),
            One(REGEX_PART),
            Star(REGEX_GOES_ON, REGEX_PART),
            One(TO_HERE),
        ],
        RegexRule::RegexPart => &[If(BYTE_BEGINS_OPEN_PAREN, REGEX_GROUP, PART_IN_REGEX)],
        RegexRule::RegexGroup => &[
            One(STEP_OPEN_GROUP),
            Star(UNIT_BEGINS_IN_GROUP, PART_IN_GROUP),
            One(CLOSE_GROUP_CLOSE_PAREN),
        ],
    }
}
