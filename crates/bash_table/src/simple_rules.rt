//! Simple commands (Bash manual, 3.2.2, 3.4, 3.6).

ghost use Rattle.std.specs.Prelude.{◌≡◌};
ghost use Rattle.bash_grammar.specs.Bytes.{Context};
ghost use Rattle.bash_grammar.specs.Table as table;
ghost use Rattle.bash_rules.specs.Rules as rules;
ghost use Rattle.bash_table.specs.Tables.{items_gram};

use crate::guards::{
    BYTE_BEGINS_OPEN_BRACKET, BYTE_BEGINS_OPEN_PAREN, DECLARE_BEGINS, HERE_BEGINS, INDEXED_BEGINS,
    LIST_BEGINS, NEXT_FAR, NEXT_IO, NEXT_OPEN, NEXT_WORD, PREFIX_BEGINS, REDIRECT_BEGINS,
    SIMPLE_BEGINS, SUFFIX_BEGINS, UNIT_BEGINS_IN_WORD,
};
use crate::steps::{
    BYTE_EQUALS, BYTE_OPEN_PAREN, FROM_TOKEN, FROM_UNIT, HERE_DOCUMENT, OP_CLOSE, STEP_ASSIGN_NAME,
    STEP_ASSIGN_OP, STEP_DIGIT, STEP_FAR, STEP_REDIRECT_OP, STEP_TO_WORD, TO_HERE,
};
use crate::table::Item;
use crate::table::Item::{Either, If, One, Or, Star};
use crate::units::{
    ASSIGN, ASSIGNED, BEHIND_PREFIX, CALLED, CALLING, DECLARED, DECLARED_ITEM, DECLARED_ITEMS,
    DECLARING, ELEMENT, ELEMENT_ITEM, ELEMENT_VALUE, ELEMENTS, FAIL, FILE, FUNCTION_REST, INDEXED,
    LINES, LIST_WORD, MORE_PARTS, PART_IN_WORD, PASS, PATTERN, PREFIX_ITEM, PREFIXED, REDIRECT,
    SIMPLE_BODY, SUBSCRIPT_IN_WORD, SUFFIX, SUFFIX_ITEM, TARGET, UNLESS_UNIT_BEGINS_IN_WORD, VALUE,
    WORD,
};
use bash_rules::{AssignRule, RedirectRule, SimpleRule};

/// Simple commands.
pub fn simple_body(rule: SimpleRule) -> &'static [Item]
    ensures { (c : Context) → items_gram c result.now ≡ table.body (rules.simple_rule rule c) }
{
    match rule {
        SimpleRule::SimpleCommand => &[If(SIMPLE_BEGINS, SIMPLE_BODY, FAIL)],
        SimpleRule::SimpleBody => &[
            One(FROM_TOKEN),
            If(PREFIX_BEGINS, PREFIXED, CALLED),
            One(TO_HERE),
        ],
        SimpleRule::Prefixed => &[
            One(PREFIX_ITEM),
            Star(PREFIX_BEGINS, PREFIX_ITEM),
            One(BEHIND_PREFIX),
        ],
        SimpleRule::BehindPrefix => &[If(DECLARE_BEGINS, DECLARED, SUFFIX)],
        SimpleRule::Called => &[If(DECLARE_BEGINS, DECLARING, CALLING)],
        SimpleRule::Calling => &[One(WORD), If(NEXT_OPEN, FUNCTION_REST, SUFFIX)],
        SimpleRule::Declaring => &[One(WORD), If(NEXT_OPEN, FUNCTION_REST, DECLARED_ITEMS)],
        SimpleRule::Declared => &[One(WORD), One(DECLARED_ITEMS)],
        SimpleRule::DeclaredItems => &[Star(SUFFIX_BEGINS, DECLARED_ITEM)],
        SimpleRule::DeclaredItem => &[
            Either(REDIRECT_BEGINS, REDIRECT),
            If(LIST_BEGINS, LIST_WORD, WORD),
        ],
        SimpleRule::ListWord => &[One(ASSIGN)],
        SimpleRule::Suffix => &[Star(SUFFIX_BEGINS, SUFFIX_ITEM)],
        SimpleRule::PrefixItem => &[If(REDIRECT_BEGINS, REDIRECT, ASSIGN)],
        SimpleRule::SuffixItem => &[If(REDIRECT_BEGINS, REDIRECT, WORD)],
    }
}

/// Assignments.
pub fn assign_body(rule: AssignRule) -> &'static [Item]
    ensures { (c : Context) → items_gram c result.now ≡ table.body (rules.assign_rule rule c) }
{
    match rule {
        AssignRule::Assign => &[
            One(FROM_TOKEN),
            One(STEP_ASSIGN_NAME),
            If(BYTE_BEGINS_OPEN_BRACKET, SUBSCRIPT_IN_WORD, PASS),
            One(STEP_ASSIGN_OP),
            One(ASSIGNED),
            One(TO_HERE),
        ],
        AssignRule::Assigned => &[
            Either(BYTE_BEGINS_OPEN_PAREN, ELEMENTS),
            If(UNIT_BEGINS_IN_WORD, VALUE, PASS),
        ],
        AssignRule::Elements => &[
            One(BYTE_OPEN_PAREN),
            One(LINES),
            Star(NEXT_WORD, ELEMENT_ITEM),
            One(OP_CLOSE),
            One(UNLESS_UNIT_BEGINS_IN_WORD),
        ],
        AssignRule::ElementItem => &[One(ELEMENT), One(LINES)],
        AssignRule::Element => &[
            One(FROM_TOKEN),
            If(INDEXED_BEGINS, INDEXED, PATTERN),
            One(TO_HERE),
        ],
        AssignRule::Indexed => &[
            One(STEP_TO_WORD),
            One(SUBSCRIPT_IN_WORD),
            One(BYTE_EQUALS),
            If(UNIT_BEGINS_IN_WORD, ELEMENT_VALUE, PASS),
        ],
        AssignRule::ElementValue => &[
            One(FROM_UNIT),
            One(PART_IN_WORD),
            One(MORE_PARTS),
            One(TO_HERE),
        ],
    }
}

/// Redirections.
pub fn redirect_body(rule: RedirectRule) -> &'static [Item]
    ensures { (c : Context) → items_gram c result.now ≡ table.body (rules.redirect_rule rule c) }
{
    match rule {
        RedirectRule::Redirect => &[
            One(FROM_TOKEN),
            Or(NEXT_IO, STEP_DIGIT, NEXT_FAR, STEP_FAR, PASS),
            One(TARGET),
            One(TO_HERE),
        ],
        RedirectRule::Target => &[If(HERE_BEGINS, HERE_DOCUMENT, FILE)],
        RedirectRule::File => &[One(STEP_REDIRECT_OP), One(WORD)],
    }
}
