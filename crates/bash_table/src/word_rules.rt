//! Words (Bash manual, 3.1.2, 3.5).

ghost use Rattle.std.specs.Prelude.{◌≡◌};
ghost use Rattle.bash_grammar.specs.Bytes.{Context};
ghost use Rattle.bash_grammar.specs.Table as table;
ghost use Rattle.bash_rules.specs.Rules as rules;
ghost use Rattle.bash_table.specs.Tables.{items_gram};

use crate::guards::{
    ANSI_BEGINS, ANSI_PAIR_BEGINS, BRACE_BEGINS, DOLLAR_BEGINS, DOUBLE_QUOTE_BEGINS, ESCAPE_BEGINS,
    EXACT_BEGINS, EXPANSION_BEGINS, IN_COMMAND, LOCALE_BEGINS, LONE_LOCALE_BEGINS, ODD_TICK_BEGINS,
    OLD_BEGINS, OTHER_UNIT_BEGINS, PAIR_BEGINS, PROCESS_BEGINS, QUOTE_BEGINS, SUBST_BEGINS,
    SUM_BEGINS, TICK_BEGINS, TILDE_BEGINS, UNIT_BEGINS_IN_BODY, UNIT_BEGINS_IN_BRACKETS,
    UNIT_BEGINS_IN_DOUBLE, UNIT_BEGINS_IN_GROUP, UNIT_BEGINS_IN_WORD,
};
use crate::steps::{
    BYTE_QUOTE, CLOSE_GROUP_CLOSE_BRACKET, CLOSE_GROUP_CLOSE_PAREN, ENTER, FROM_UNIT, LEAVE,
    LITERAL, OP_CLOSE, STEP_ANSI, STEP_CLOSE_TICKS, STEP_DOLLAR, STEP_ENDS, STEP_ESCAPED,
    STEP_EXACT, STEP_LONE_ANSI, STEP_LONE_GLOB, STEP_LONE_LOCALE, STEP_LONE_QUOTE,
    STEP_NESTED_ANSI, STEP_NESTED_EXACT, STEP_ODD_TICKS, STEP_OPEN_GLOB, STEP_OPEN_LOCALE,
    STEP_OPEN_OLD, STEP_OPEN_PROCESS, STEP_OPEN_SUBST, STEP_OPEN_TICKS, STEP_TILDE, STEP_TO_WORD,
    TO_HERE,
};
use crate::table::Item;
use crate::table::Item::{Either, If, One, Star};
use crate::units::{
    ANSI_QUOTE, BRACES, DOLLAR_PART, DOLLAR_QUOTE, DOUBLE_QUOTES, EXPANSION, GLOB, GLOB_UNIT,
    LOCALE, MAYBE_LIST, MORE_PARTS, NAMED_EXPANSION, ODD_QUOTE, OLD, OTHER_UNIT, PART_IN_BODY,
    PART_IN_BRACKETS, PART_IN_DOUBLE, PART_IN_GROUP, PART_IN_WORD, PROCESS, QUOTE, SUBST, SUM,
    TICKS, TILDE_PART, UNIT, WORD_PARTS,
};
use bash_rules::{UnitRule, WordRule};

/// Words.
pub fn word_body(rule: WordRule) -> &'static [Item]
    ensures { (c : Context) → items_gram c result.now ≡ table.body (rules.word_rule rule c) }
{
    match rule {
        WordRule::Word => &[
            One(STEP_TO_WORD),
            One(FROM_UNIT),
            One(WORD_PARTS),
            One(TO_HERE),
        ],
        WordRule::Value => &[One(FROM_UNIT), One(WORD_PARTS), One(TO_HERE)],
        WordRule::WordParts => &[If(TILDE_BEGINS, TILDE_PART, PART_IN_WORD), One(MORE_PARTS)],
        WordRule::TildePart => &[One(FROM_UNIT), One(STEP_TILDE), One(TO_HERE)],
        WordRule::MoreParts => &[Star(UNIT_BEGINS_IN_WORD, PART_IN_WORD)],
        WordRule::Pattern => &[
            One(STEP_TO_WORD),
            One(FROM_UNIT),
            One(PART_IN_WORD),
            One(MORE_PARTS),
            One(TO_HERE),
        ],
        WordRule::Part => &[One(FROM_UNIT), One(UNIT), One(TO_HERE)],
        WordRule::BodyParts => &[
            One(FROM_UNIT),
            Star(UNIT_BEGINS_IN_BODY, PART_IN_BODY),
            One(TO_HERE),
            One(STEP_ENDS),
        ],
    }
}

/// What a part of a word is.
pub fn unit_body(rule: UnitRule) -> &'static [Item]
    ensures { (c : Context) → items_gram c result.now ≡ table.body (rules.unit_rule rule c) }
{
    match rule {
        UnitRule::Unit => &[
            Either(QUOTE_BEGINS, QUOTE),
            Either(DOLLAR_BEGINS, DOLLAR_PART),
            If(OTHER_UNIT_BEGINS, OTHER_UNIT, LITERAL),
        ],
        UnitRule::Quote => &[
            Either(EXACT_BEGINS, STEP_EXACT),
            Either(DOUBLE_QUOTE_BEGINS, DOUBLE_QUOTES),
            If(ESCAPE_BEGINS, STEP_ESCAPED, ODD_QUOTE),
        ],
        UnitRule::OddQuote => &[If(PAIR_BEGINS, STEP_NESTED_EXACT, STEP_LONE_QUOTE)],
        UnitRule::DoubleQuotes => &[
            One(BYTE_QUOTE),
            Star(UNIT_BEGINS_IN_DOUBLE, PART_IN_DOUBLE),
            One(BYTE_QUOTE),
        ],
        UnitRule::DollarPart => &[If(EXPANSION_BEGINS, EXPANSION, DOLLAR_QUOTE)],
        UnitRule::DollarQuote => &[
            Either(LOCALE_BEGINS, LOCALE),
            If(LONE_LOCALE_BEGINS, STEP_LONE_LOCALE, ANSI_QUOTE),
        ],
        UnitRule::AnsiQuote => &[
            Either(ANSI_BEGINS, STEP_ANSI),
            If(ANSI_PAIR_BEGINS, STEP_NESTED_ANSI, STEP_LONE_ANSI),
        ],
        UnitRule::Locale => &[
            One(STEP_OPEN_LOCALE),
            Star(UNIT_BEGINS_IN_DOUBLE, PART_IN_DOUBLE),
            One(BYTE_QUOTE),
        ],
        UnitRule::Expansion => &[
            Either(SUM_BEGINS, SUM),
            If(SUBST_BEGINS, SUBST, NAMED_EXPANSION),
        ],
        UnitRule::NamedExpansion => &[
            Either(BRACE_BEGINS, BRACES),
            If(OLD_BEGINS, OLD, STEP_DOLLAR),
        ],
        UnitRule::OtherUnit => &[
            Either(ODD_TICK_BEGINS, STEP_ODD_TICKS),
            Either(TICK_BEGINS, TICKS),
            If(PROCESS_BEGINS, PROCESS, GLOB_UNIT),
        ],
        UnitRule::GlobUnit => &[If(IN_COMMAND, GLOB, STEP_LONE_GLOB)],
        UnitRule::Process => &[
            One(STEP_OPEN_PROCESS),
            One(ENTER),
            One(MAYBE_LIST),
            One(OP_CLOSE),
            One(LEAVE),
        ],
        UnitRule::Glob => &[
            One(STEP_OPEN_GLOB),
            Star(UNIT_BEGINS_IN_GROUP, PART_IN_GROUP),
            One(CLOSE_GROUP_CLOSE_PAREN),
        ],
        UnitRule::Old => &[
            One(STEP_OPEN_OLD),
            One(ENTER),
            Star(UNIT_BEGINS_IN_BRACKETS, PART_IN_BRACKETS),
            One(CLOSE_GROUP_CLOSE_BRACKET),
            One(LEAVE),
        ],
        UnitRule::Subst => &[
            One(STEP_OPEN_SUBST),
            One(ENTER),
            One(MAYBE_LIST),
            One(OP_CLOSE),
            One(LEAVE),
        ],
        UnitRule::Ticks => &[
            One(STEP_OPEN_TICKS),
            One(ENTER),
            One(MAYBE_LIST),
            One(STEP_CLOSE_TICKS),
            One(LEAVE),
        ],
    }
}
