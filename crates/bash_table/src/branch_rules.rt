//! `if`, loops and `case` (Bash manual, 3.2.5).

ghost use Rattle.std.specs.Prelude.{◌≡◌};
ghost use Rattle.bash_grammar.specs.Bytes.{Context};
ghost use Rattle.bash_grammar.specs.Table as table;
ghost use Rattle.bash_rules.specs.Rules as rules;
ghost use Rattle.bash_table.specs.Tables.{items_gram};

use crate::guards::{
    DOUBLE_BEGINS, ITEM_BEGINS, ITEM_ENDS, KEY_NEXT_ELIF, KEY_NEXT_ELSE, KEY_NEXT_IN, NEXT_OPEN,
    NEXT_PIPE, NEXT_SEMI, NEXT_WORD, SUM_GOES_ON_TO_CLOSE, SUM_GOES_ON_TO_SEMI,
};
use crate::steps::{
    BYTE_SEMICOLON, END_SECTION, ENTER, FROM_TOKEN, KEY_CASE, KEY_DO, KEY_DONE, KEY_ELIF, KEY_ELSE,
    KEY_ESAC, KEY_FI, KEY_FOR, KEY_IF, KEY_IN, KEY_SELECT, KEY_THEN, KEY_UNTIL, KEY_WHILE, LEAVE,
    OP_CLOSE, OP_OPEN, OP_PIPE, OP_SEMI, STEP_BEGIN_SUM, STEP_CLOSE_DOUBLE, STEP_ITEM_OP,
    STEP_LINE, STEP_NAME, STEP_OPEN_DOUBLE, TO_HERE,
};
use crate::table::Item;
use crate::table::Item::{Both, If, One, Star};
use crate::units::{
    CASE_IN, CASE_ITEM, DO_BODY, ELIF_BRANCH, ELSE_PART, FOR_IN, FOR_WORDS, IF_BRANCH, ITEM_END,
    LAST_SECTION, LINES, LIST, MAYBE_LIST, NAME_FOR, PASS, PATTERN, PATTERN_MORE, SECTION, SUM_FOR,
    SUM_PART_TO_CLOSE_IN_DOUBLE, SUM_PART_TO_SEMI_IN_DOUBLE, WHEN_KEY_NEXT_ESAC, WORD,
};
use bash_rules::{BranchRule, ForRule};

/// `if`, `while`, `until` and `case`.
pub fn branch_body(rule: BranchRule) -> &'static [Item]
    ensures { (c : Context) → items_gram c result.now ≡ table.body (rules.branch_rule rule c) }
{
    match rule {
        BranchRule::IfCommand => &[
            One(KEY_IF),
            One(ENTER),
            One(IF_BRANCH),
            Star(KEY_NEXT_ELIF, ELIF_BRANCH),
            If(KEY_NEXT_ELSE, ELSE_PART, PASS),
            One(KEY_FI),
            One(LEAVE),
        ],
        BranchRule::IfBranch => &[One(LIST), One(KEY_THEN), One(LIST)],
        BranchRule::ElifBranch => &[One(KEY_ELIF), One(IF_BRANCH)],
        BranchRule::ElsePart => &[One(KEY_ELSE), One(LIST)],
        BranchRule::WhileLoop => &[
            One(KEY_WHILE),
            One(ENTER),
            One(LIST),
            One(DO_BODY),
            One(LEAVE),
        ],
        BranchRule::UntilLoop => &[
            One(KEY_UNTIL),
            One(ENTER),
            One(LIST),
            One(DO_BODY),
            One(LEAVE),
        ],
        BranchRule::DoBody => &[One(KEY_DO), One(LIST), One(KEY_DONE)],
        BranchRule::CaseCommand => &[
            One(KEY_CASE),
            One(ENTER),
            One(WORD),
            One(LINES),
            One(CASE_IN),
            One(LEAVE),
        ],
        BranchRule::CaseIn => &[
            One(KEY_IN),
            One(LINES),
            Star(ITEM_BEGINS, CASE_ITEM),
            One(KEY_ESAC),
        ],
        BranchRule::CaseItem => &[
            If(NEXT_OPEN, OP_OPEN, PASS),
            One(PATTERN),
            Star(NEXT_PIPE, PATTERN_MORE),
            One(OP_CLOSE),
            One(MAYBE_LIST),
            One(ITEM_END),
        ],
        BranchRule::PatternMore => &[One(OP_PIPE), One(PATTERN)],
        BranchRule::ItemEnd => &[
            Both(ITEM_ENDS, STEP_ITEM_OP, LINES),
            One(WHEN_KEY_NEXT_ESAC),
        ],
    }
}

/// `for` and `select`.
pub fn for_body(rule: ForRule) -> &'static [Item]
    ensures { (c : Context) → items_gram c result.now ≡ table.body (rules.for_rule rule c) }
{
    match rule {
        ForRule::ForLoop => &[
            One(KEY_FOR),
            One(ENTER),
            If(DOUBLE_BEGINS, SUM_FOR, NAME_FOR),
            One(DO_BODY),
            One(LEAVE),
            One(TO_HERE),
        ],
        ForRule::NameFor => &[One(STEP_NAME), One(FOR_WORDS)],
        ForRule::ForWords => &[
            Both(NEXT_SEMI, OP_SEMI, LINES),
            One(LINES),
            If(KEY_NEXT_IN, FOR_IN, PASS),
        ],
        ForRule::ForIn => &[
            One(KEY_IN),
            Star(NEXT_WORD, WORD),
            If(NEXT_SEMI, OP_SEMI, STEP_LINE),
            One(LINES),
        ],
        ForRule::SumFor => &[
            One(STEP_OPEN_DOUBLE),
            One(ENTER),
            One(SECTION),
            One(SECTION),
            One(LAST_SECTION),
            One(LEAVE),
            If(NEXT_SEMI, OP_SEMI, PASS),
            One(LINES),
        ],
        ForRule::Section => &[
            One(STEP_BEGIN_SUM),
            Star(SUM_GOES_ON_TO_SEMI, SUM_PART_TO_SEMI_IN_DOUBLE),
            One(END_SECTION),
            One(BYTE_SEMICOLON),
        ],
        ForRule::LastSection => &[
            One(STEP_BEGIN_SUM),
            Star(SUM_GOES_ON_TO_CLOSE, SUM_PART_TO_CLOSE_IN_DOUBLE),
            One(END_SECTION),
            One(STEP_CLOSE_DOUBLE),
        ],
        ForRule::SelectLoop => &[
            One(FROM_TOKEN),
            One(KEY_SELECT),
            One(ENTER),
            One(NAME_FOR),
            One(DO_BODY),
            One(LEAVE),
            One(TO_HERE),
        ],
    }
}
