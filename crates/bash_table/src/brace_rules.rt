//! `${ }` and arithmetic (Bash manual, 3.5.3, 3.5.5).

ghost use Rattle.std.specs.Prelude.{◌≡◌};
ghost use Rattle.bash_grammar.specs.Bytes.{Context};
ghost use Rattle.bash_grammar.specs.Table as table;
ghost use Rattle.bash_rules.specs.Rules as rules;
ghost use Rattle.bash_table.specs.Tables.{items_gram};

use crate::guards::{
    BYTE_BEGINS_CLOSE_BRACE, BYTE_BEGINS_COLON, BYTE_BEGINS_OPEN_BRACKET, BYTE_BEGINS_SLASH,
    CASE_BEGINS, EXPANSION_BEGINS, FILL_BEGINS, LENGTH_BEGINS, MEMBERS_BEGIN, NAMED_BEGINS,
    NAMES_BEGIN, POINTED_BEGINS, SLICE_BEGINS, SUM_EXPANDS, SUM_GOES_ON_TO_BRACE,
    SUM_GOES_ON_TO_CLOSE, SUM_GOES_ON_TO_COLON, SUM_OPENS, TRIM_BEGINS, UNIT_BEGINS,
    UNIT_BEGINS_IN_KEYS,
};
use crate::steps::{
    BYTE_CLOSE_BRACE, BYTE_CLOSE_BRACKET, BYTE_CLOSE_PAREN, BYTE_COLON, BYTE_OPEN_PAREN,
    BYTE_SLASH, END_QUOTED_SUM, END_SUM, ENTER, LEAVE, STEP_BEGIN_OPERAND, STEP_BEGIN_SUM,
    STEP_CASE_OP, STEP_CLOSE_DOUBLE, STEP_END_OPERAND, STEP_FILL_OP, STEP_MEMBERS, STEP_NAMES,
    STEP_OPEN_KEY, STEP_OPEN_LENGTH, STEP_OPEN_NAMED, STEP_OPEN_POINTED, STEP_OPEN_SPECIAL,
    STEP_OPEN_SUM, STEP_REPLACE_OP, STEP_SLICE_OP, STEP_TRANSFORM_OP, STEP_TRIM_OP,
    SUM_BYTES_TO_BRACE, SUM_BYTES_TO_CLOSE, SUM_BYTES_TO_COLON, SUM_BYTES_TO_SEMI, TO_HERE,
};
use crate::table::Item;
use crate::table::Item::{Either, If, One, Star};
use crate::units::{
    BRACED_IN_FILLS, BRACED_IN_FIRSTS, BRACED_IN_PATTERNS, BRACED_IN_SECONDS, CASING, FILL, INDEX,
    KEY_OPERAND, KEY_PART_IN_KEYS, LENGTH_BRACES, OFFSET, OPERATION, OTHER_OPERATION, PART, PASS,
    POINTED_BRACES, REPLACE, REPLACEMENT, SLICE, SLICE_LENGTH, SPECIAL_BRACES, SUBSCRIPT,
    SUM_GROUP, SUM_OPERAND, SUM_PART_TO_BRACE_IN_SUM, SUM_PART_TO_CLOSE, SUM_PART_TO_CLOSE_IN_SUM,
    SUM_PART_TO_COLON_IN_SUM, TRANSFORM, TRIM, VALUED_BRACES,
};
use bash_rules::{BraceRule, OperationRule, SumRule};

/// `${ }` and subscripts.
pub fn brace_body(rule: BraceRule) -> &'static [Item]
    ensures { (c : Context) → items_gram c result.now ≡ table.body (rules.brace_rule rule c) }
{
    match rule {
        BraceRule::Braces => &[
            Either(LENGTH_BEGINS, LENGTH_BRACES),
            Either(POINTED_BEGINS, POINTED_BRACES),
            If(NAMED_BEGINS, VALUED_BRACES, SPECIAL_BRACES),
        ],
        BraceRule::LengthBraces => &[
            One(STEP_OPEN_LENGTH),
            One(ENTER),
            One(INDEX),
            One(BYTE_CLOSE_BRACE),
            One(LEAVE),
        ],
        BraceRule::PointedBraces => &[
            One(STEP_OPEN_POINTED),
            One(ENTER),
            One(INDEX),
            If(NAMES_BEGIN, STEP_NAMES, PASS),
            One(OPERATION),
            One(LEAVE),
        ],
        BraceRule::ValuedBraces => &[
            One(STEP_OPEN_NAMED),
            One(ENTER),
            One(INDEX),
            One(OPERATION),
            One(LEAVE),
        ],
        BraceRule::SpecialBraces => &[
            One(STEP_OPEN_SPECIAL),
            One(ENTER),
            One(OPERATION),
            One(LEAVE),
        ],
        BraceRule::Index => &[
            Either(MEMBERS_BEGIN, STEP_MEMBERS),
            If(BYTE_BEGINS_OPEN_BRACKET, SUBSCRIPT, PASS),
        ],
        BraceRule::Subscript => &[
            One(STEP_OPEN_KEY),
            One(TO_HERE),
            Star(UNIT_BEGINS_IN_KEYS, KEY_PART_IN_KEYS),
            One(TO_HERE),
            One(END_SUM),
            One(BYTE_CLOSE_BRACKET),
        ],
        BraceRule::KeyPart => &[If(EXPANSION_BEGINS, KEY_OPERAND, PART)],
        BraceRule::Braced => &[One(TO_HERE), Star(UNIT_BEGINS, PART), One(TO_HERE)],
    }
}

/// What is done to a parameter.
pub fn operation_body(rule: OperationRule) -> &'static [Item]
    ensures { (c : Context) → items_gram c result.now ≡ table.body (rules.operation_rule rule c) }
{
    match rule {
        OperationRule::Operation => &[
            Either(BYTE_BEGINS_CLOSE_BRACE, BYTE_CLOSE_BRACE),
            Either(SLICE_BEGINS, SLICE),
            If(BYTE_BEGINS_SLASH, REPLACE, OTHER_OPERATION),
        ],
        OperationRule::OtherOperation => &[
            Either(FILL_BEGINS, FILL),
            Either(TRIM_BEGINS, TRIM),
            If(CASE_BEGINS, CASING, TRANSFORM),
        ],
        OperationRule::Transform => &[One(STEP_TRANSFORM_OP), One(BYTE_CLOSE_BRACE)],
        OperationRule::Fill => &[
            One(STEP_FILL_OP),
            One(BRACED_IN_FILLS),
            One(BYTE_CLOSE_BRACE),
        ],
        OperationRule::Trim => &[
            One(STEP_TRIM_OP),
            One(BRACED_IN_PATTERNS),
            One(BYTE_CLOSE_BRACE),
        ],
        OperationRule::Casing => &[
            One(STEP_CASE_OP),
            One(BRACED_IN_PATTERNS),
            One(BYTE_CLOSE_BRACE),
        ],
        OperationRule::Replace => &[
            One(STEP_REPLACE_OP),
            One(BRACED_IN_FIRSTS),
            If(BYTE_BEGINS_SLASH, REPLACEMENT, PASS),
            One(BYTE_CLOSE_BRACE),
        ],
        OperationRule::Replacement => &[One(BYTE_SLASH), One(BRACED_IN_SECONDS)],
        OperationRule::Slice => &[
            One(STEP_SLICE_OP),
            One(OFFSET),
            If(BYTE_BEGINS_COLON, SLICE_LENGTH, PASS),
            One(BYTE_CLOSE_BRACE),
        ],
        OperationRule::Offset => &[
            One(STEP_BEGIN_SUM),
            Star(SUM_GOES_ON_TO_COLON, SUM_PART_TO_COLON_IN_SUM),
            One(END_QUOTED_SUM),
        ],
        OperationRule::SliceLength => &[
            One(BYTE_COLON),
            One(STEP_BEGIN_SUM),
            Star(SUM_GOES_ON_TO_BRACE, SUM_PART_TO_BRACE_IN_SUM),
            One(END_QUOTED_SUM),
        ],
    }
}

/// Arithmetic.
pub fn sum_body(rule: SumRule) -> &'static [Item]
    ensures { (c : Context) → items_gram c result.now ≡ table.body (rules.sum_rule rule c) }
{
    match rule {
        SumRule::Sum => &[
            One(STEP_OPEN_SUM),
            One(ENTER),
            One(STEP_BEGIN_SUM),
            Star(SUM_GOES_ON_TO_CLOSE, SUM_PART_TO_CLOSE_IN_SUM),
            One(END_SUM),
            One(STEP_CLOSE_DOUBLE),
            One(LEAVE),
        ],
        SumRule::PartToClose => &[
            Either(SUM_OPENS, SUM_GROUP),
            If(SUM_EXPANDS, SUM_OPERAND, SUM_BYTES_TO_CLOSE),
        ],
        SumRule::PartToSemi => &[
            Either(SUM_OPENS, SUM_GROUP),
            If(SUM_EXPANDS, SUM_OPERAND, SUM_BYTES_TO_SEMI),
        ],
        SumRule::PartToColon => &[
            Either(SUM_OPENS, SUM_GROUP),
            If(SUM_EXPANDS, SUM_OPERAND, SUM_BYTES_TO_COLON),
        ],
        SumRule::PartToBrace => &[
            Either(SUM_OPENS, SUM_GROUP),
            If(SUM_EXPANDS, SUM_OPERAND, SUM_BYTES_TO_BRACE),
        ],
        SumRule::SumGroup => &[
            One(BYTE_OPEN_PAREN),
            One(ENTER),
            Star(SUM_GOES_ON_TO_CLOSE, SUM_PART_TO_CLOSE),
            One(BYTE_CLOSE_PAREN),
            One(LEAVE),
        ],
        SumRule::SumOperand => &[One(STEP_BEGIN_OPERAND), One(PART), One(STEP_END_OPERAND)],
    }
}
