//! Words and assignments, as pieces that are checked.

ghost use Rattle.std.specs.Prelude.{◌≡◌, ◌≤◌, ◌+◌, ◌*◌, ◌&&◌, not, suc, map, option_map, nat_lt};
ghost use Rattle.span_text.specs.Expression.{nodes};
ghost use Rattle.sh_grammar.specs.Bytes.{has_double, in_double, in_word};
ghost use Rattle.sh_grammar.specs.Shape as shape;
ghost use Rattle.sh_grammar.specs.Steps.{limit};
ghost use Rattle.sh_printer.specs.Checks.{AsPart, NodeSplits, Splits, check_holds, check_weight, front_fits};
ghost use Rattle.sh_printer.specs.Codes.{view_context};
ghost use Rattle.sh_printer.specs.Weights.{part_weight, parts_weight, script_weight, value_weight, words_weight};
ghost use Rattle.sh_printer.specs.declared.checking.checks.CheckNode.TheVariants as node;
ghost use Rattle.sh_printer.specs.declared.checking.checks.WordCheck.TheVariants as checks;
ghost use Rattle.sh_printing.specs.Printable.{changes_mark, has_part, is_expansion, is_length, list_fits, operand_checks, part_fits, parts_fit, plain_begins, plain_fits, reads_tilde, trim_byte, value_fits};
ghost use Rattle.sh_printing.specs.Spellable.{begins_with, param_fits, sum_fits};
ghost use Rattle.sh_syntax.specs.View.{view, view_op, view_param, view_part, view_test, view_word, parts_of, value_of, words_of};
ghost use Rattle.sh_syntax.specs.declared.tree.Arith.{out-Arith};

use crate::checking::bytes::{begins_with, exact_fits};
use crate::checking::checks::{Check, CheckNode, Checks, CommandCheck, Nesting, WordCheck};
use crate::checking::names::{bare_fits, deeper, has_room, has_room_for, is_count, param_fits};
use crate::checking::parts::{
    behind_tilde, has_parts, is_expansion, plain_begins, plain_fits, reads_tilde,
};
use crate::checking::redirects::{body_apart, redirects_apart};
use crate::context::{Context, fill_context, has_double, trim_context};
use crate::opening::is_continued;
use sh_syntax::{
    Arith, Assign, AssignValue, FillTest, Param, ParamOp, Part, PartKind, Script, Word,
};
use span_text::is_name;

/// The pieces of words, assignments or redirections.
pub fn word_apart<'a>(check: WordCheck<'a>, nesting: Nesting) -> Checks<'a>
    ensures { NodeSplits (node.Word check.entry) nesting result }
{
    match check {
        WordCheck::Words(words) => words_apart(words, nesting),
        WordCheck::Word(parts, spaced) => whole_word_apart(parts, spaced, nesting),
        WordCheck::Parts(parts, context) => parts_apart(parts, context, nesting),
        WordCheck::Part(part, context, behind) => part_apart(part, context, behind, nesting),
        WordCheck::Operand(parts) => operand_apart(parts, nesting),
        WordCheck::Body(parts) => body_apart(parts, nesting),
        WordCheck::Patterns(patterns) => patterns_apart(patterns, nesting),
        WordCheck::Assigns(assigns) => assigns_apart(assigns, nesting),
        WordCheck::Value(value) => value_apart(value, nesting),
        WordCheck::Redirects(redirects) => redirects_apart(redirects, nesting),
    }
}

/// It is known whether all holds.
pub fn known(holds: bool) -> Checks<'static>
    ensures { Splits holds 1 result }
{
    Checks {
        first: Check::Known(true),
        second: Check::Known(true),
        rest: Check::Known(holds),
    }
}

/// The first word, and those behind it.
fn words_apart<'a>(words: &'a [Word], nesting: Nesting) -> Checks<'a>
    ensures { NodeSplits (node.Word (checks.Words words.entry)) nesting result }
{
    match words {
        [] => known(true),
        [first, ..] => {
            let (_, rest) = words.split_at(1);
            let word = WordCheck::Word(first.parts.as_slice(), true);
            Checks {
                first: Check::Known(true),
                second: Check::Node(CheckNode::Word(word), nesting),
                rest: Check::Node(CheckNode::Word(WordCheck::Words(rest)), nesting),
            }
        }
    }
}

/// The first part of a word, and those behind it.
fn whole_word_apart<'a>(parts: &'a [Part], spaced: bool, nesting: Nesting) -> Checks<'a>
    ensures { NodeSplits (node.Word (checks.Word parts.entry spaced)) nesting result }
{
    match parts {
        [] => known(false),
        [first, ..] => {
            let (_, rest) = parts.split_at(1);
            let behind = WordCheck::Parts(rest, Context::Word);
            Checks {
                first: Check::Known(true),
                second: front_check(first, rest, spaced, nesting),
                rest: Check::Node(CheckNode::Word(behind), nesting),
            }
        }
    }
}

/// What is to hold of the first part of a word, which may be a tilde (2.6.1).
fn front_check<'a>(first: &'a Part, behind: &'a [Part], spaced: bool, nesting: Nesting) -> Check<'a>
    ensures holds { check_holds result ≡ front_fits nesting.in_body nesting.depth spaced (parts_of (map view_part behind.now)) (view_part first.now) }
    ensures weight { check_weight result ≤ part_weight (view_part first.now) + 2 }
{
    match &first.kind {
        PartKind::Tilde => Check::Known(behind_tilde(behind)),
        PartKind::Plain(text) => Check::Known(plain_front_fits(text.bytes(), behind, spaced)),
        PartKind::Exact(_) => part_check(first, behind, nesting),
        PartKind::Double(_) => part_check(first, behind, nesting),
        PartKind::Param { param: _, op: _ } => part_check(first, behind, nesting),
        PartKind::Subst(_) => part_check(first, behind, nesting),
        PartKind::Arith(_) => part_check(first, behind, nesting),
    }
}

fn part_check<'a>(part: &'a Part, behind: &'a [Part], nesting: Nesting) -> Check<'a>
    ensures holds { check_holds result ≡ part_fits nesting.in_body nesting.depth in_word (parts_of (map view_part behind.now)) (view_part part.now) }
    ensures weight { check_weight result ≡ part_weight (view_part part.now) + 2 }
{
    let check = WordCheck::Part(part, Context::Word, behind);
    Check::Node(CheckNode::Word(check), nesting)
}

/// Whether a word can begin with this text. Behind a blank a `#` would begin a comment (2.3).
fn plain_front_fits(text: &[u8], behind: &[Part], spaced: bool) -> bool
    ensures { result ≡ (not (spaced && begins_with 35 text.now) && not (reads_tilde text.now (parts_of (map view_part behind.now))) && plain_fits in_word (parts_of (map view_part behind.now)) text.now) }
{
    !(spaced && begins_with(b'#', text))
        && !reads_tilde(text, behind)
        && plain_fits(Context::Word, behind, text)
}

/// The first part, and those behind it.
fn parts_apart<'a>(parts: &'a [Part], context: Context, nesting: Nesting) -> Checks<'a>
    ensures { NodeSplits (node.Word (checks.Parts parts.entry context)) nesting result }
{
    match parts {
        [] => known(true),
        [first, ..] => {
            let (_, rest) = parts.split_at(1);
            let part = WordCheck::Part(first, context, rest);
            Checks {
                first: Check::Known(true),
                second: Check::Node(CheckNode::Word(part), nesting),
                rest: Check::Node(CheckNode::Word(WordCheck::Parts(rest, context)), nesting),
            }
        }
    }
}

/// The one part of an operand, which is an expansion.
fn operand_apart<'a>(parts: &'a [Part], nesting: Nesting) -> Checks<'a>
    ensures { NodeSplits (node.Word (checks.Operand parts.entry)) nesting result }
{
    match parts {
        [] => known(false),
        [first, ..] => {
            let (_, rest) = parts.split_at(1);
            let part = WordCheck::Part(first, Context::Double, rest);
            Checks {
                first: Check::Known(true),
                second: Check::Known(is_only_expansion(first, rest)),
                rest: Check::Node(CheckNode::Word(part), nesting),
            }
        }
    }
}

/// Whether the part is an expansion, and none is behind it.
fn is_only_expansion(part: &Part, behind: &[Part]) -> bool
    ensures { result ≡ (is_expansion (view_part part.now) && not (has_part (parts_of (map view_part behind.now)))) }
{
    is_expansion(part) && !has_parts(behind)
}

fn part_apart<'a>(
    part: &'a Part,
    context: Context,
    behind: &'a [Part],
    nesting: Nesting,
) -> Checks<'a>
    ensures { NodeSplits (node.Word (checks.Part part.entry context behind.entry)) nesting result }
{
    match &part.kind {
        PartKind::Plain(text) => known(plain_fits(context, behind, text.bytes())),
        PartKind::Exact(text) => known(exact_fits(nesting.in_body, context, text.bytes())),
        PartKind::Double(parts) => double_apart(parts.as_slice(), context, nesting),
        PartKind::Tilde => known(false),
        PartKind::Param { param, op } => param_apart(param, op, context, behind, nesting),
        PartKind::Subst(script) => subst_apart(script, nesting),
        PartKind::Arith(arith) => arith_apart(arith, nesting),
    }
}

/// `"a$b"`
fn double_apart<'a>(parts: &'a [Part], context: Context, nesting: Nesting) -> Checks<'a>
    ensures { Splits (has_double (view_context context) && parts_fit nesting.in_body nesting.depth in_double (parts_of (map view_part parts.now))) (parts_weight (parts_of (map view_part parts.now)) + 2) result }
{
    let inside = WordCheck::Parts(parts, Context::Double);
    Checks {
        first: Check::Known(true),
        second: Check::Known(has_double(context)),
        rest: Check::Node(CheckNode::Word(inside), nesting),
    }
}

fn param_apart<'a>(
    param: &'a Param,
    op: &'a ParamOp,
    context: Context,
    behind: &'a [Part],
    nesting: Nesting,
) -> Checks<'a>
    ensures { AsPart nesting context behind.now (shape.param (view_param param.now) (view_op op.now)) result }
{
    match op {
        ParamOp::Plain => known(bare_fits(nesting, is_continued(behind), param)),
        ParamOp::Length => known(has_room_for(param_fits(param), nesting)),
        ParamOp::Fill { test, colon, word } => {
            let fits = fill_fits(param, *test, *colon, word.parts.as_slice());
            closed_apart(fits, word, fill_context(context), nesting)
        }
        ParamOp::Trim {
            suffix,
            longest,
            pattern,
        } => {
            let fits = trim_fits(param, *suffix, *longest, pattern.parts.as_slice());
            closed_apart(fits, pattern, trim_context(context), nesting)
        }
    }
}

/// The word of `${a-w}`, which fits before it or not.
fn closed_apart<'a>(fits: bool, word: &'a Word, context: Context, nesting: Nesting) -> Checks<'a>
    ensures { Splits (nat_lt nesting.depth limit && fits && parts_fit nesting.in_body (suc nesting.depth) (view_context context) (view_word word.now)) (parts_weight (view_word word.now) + 2) result }
{
    let inside = WordCheck::Parts(word.parts.as_slice(), context);
    Checks {
        first: Check::Known(true),
        second: Check::Known(has_room_for(fits, nesting)),
        rest: Check::Node(CheckNode::Word(inside), deeper(nesting)),
    }
}

/// Whether `${#-}` or `${##}` is a length, and not what it would stand for.
fn is_length(param: &Param, test: FillTest, colon: bool, word: &[Part]) -> bool
    ensures { result ≡ is_length (view_param param.now) (view_test test) colon (parts_of (map view_part word.now)) }
{
    match test {
        FillTest::Default => is_count(param) && !colon && !has_parts(word),
        FillTest::Assign => false,
        FillTest::Alternate => false,
    }
}

/// Whether the parameter and the operator of `${a-w}` stand for themselves.
fn fill_fits(param: &Param, test: FillTest, colon: bool, word: &[Part]) -> bool
    ensures { result ≡ (param_fits (view_param param.now) && not (is_length (view_param param.now) (view_test test) colon (parts_of (map view_part word.now)))) }
{
    param_fits(param) && !is_length(param, test, colon, word)
}

fn trim_byte(suffix: bool) -> u8
    ensures { result ≡ trim_byte suffix }
{
    if suffix { b'%' } else { b'#' }
}

/// Whether the word would make the mark longer, or the whole a length.
fn changes_mark(param: &Param, suffix: bool, longest: bool, word: &[Part]) -> bool
    ensures { result ≡ changes_mark (view_param param.now) suffix longest (parts_of (map view_part word.now)) }
{
    if longest {
        return false;
    }
    plain_begins(trim_byte(suffix), word) || (is_count(param) && !suffix && !has_parts(word))
}

/// Whether the parameter and the operator of `${a%w}` stand for themselves.
fn trim_fits(param: &Param, suffix: bool, longest: bool, word: &[Part]) -> bool
    ensures { result ≡ (param_fits (view_param param.now) && not (changes_mark (view_param param.now) suffix longest (parts_of (map view_part word.now)))) }
{
    param_fits(param) && !changes_mark(param, suffix, longest, word)
}

/// `$(a)`
fn subst_apart<'a>(script: &'a Script, nesting: Nesting) -> Checks<'a>
    ensures { Splits (nat_lt nesting.depth limit && list_fits nesting.in_body (suc nesting.depth) (view script.now)) (script_weight (view script.now) + 2) result }
{
    let inside = CommandCheck::Chains(script.items.as_slice());
    Checks {
        first: Check::Known(true),
        second: Check::Known(has_room(nesting)),
        rest: Check::Node(CheckNode::Command(inside), deeper(nesting)),
    }
}

/// `$((a + 1))`
fn arith_apart<'a>(arith: &'a Arith, nesting: Nesting) -> Checks<'a>
    ensures { Splits (nat_lt nesting.depth limit && sum_fits (operand_checks nesting.in_body (words_of (map view_word (out-Arith arith.now).operands))) (suc nesting.depth) (out-Arith arith.now).expr) (200 * nodes (out-Arith arith.now).expr + words_weight (words_of (map view_word (out-Arith arith.now).operands)) + 120) result }
{
    let operands = arith.operands.as_slice();
    Checks {
        first: Check::Known(true),
        second: Check::Known(has_room(nesting)),
        rest: Check::Sum(&arith.expr, operands, deeper(nesting)),
    }
}

/// Whether the parts are some, and don't begin as a comment would.
fn begins_pattern(parts: &[Part]) -> bool
    ensures { result ≡ (has_part (parts_of (map view_part parts.now)) && not (plain_begins 35 (parts_of (map view_part parts.now)))) }
{
    has_parts(parts) && !plain_begins(b'#', parts)
}

/// The first pattern, and those behind it.
fn patterns_apart<'a>(patterns: &'a [Word], nesting: Nesting) -> Checks<'a>
    ensures { NodeSplits (node.Word (checks.Patterns patterns.entry)) nesting result }
{
    match patterns {
        [] => known(true),
        [first, ..] => {
            let (_, rest) = patterns.split_at(1);
            let parts = first.parts.as_slice();
            let pattern = WordCheck::Parts(parts, Context::Word);
            Checks {
                first: Check::Known(begins_pattern(parts)),
                second: Check::Node(CheckNode::Word(pattern), nesting),
                rest: Check::Node(CheckNode::Word(WordCheck::Patterns(rest)), nesting),
            }
        }
    }
}

/// The first assignment, and those behind it.
fn assigns_apart<'a>(assigns: &'a [Assign], nesting: Nesting) -> Checks<'a>
    ensures { NodeSplits (node.Word (checks.Assigns assigns.entry)) nesting result }
{
    match assigns {
        [] => known(true),
        [first, ..] => {
            let (_, rest) = assigns.split_at(1);
            let value = WordCheck::Value(&first.value);
            Checks {
                first: Check::Known(is_name(first.name.text.bytes())),
                second: Check::Node(CheckNode::Word(value), nesting),
                rest: Check::Node(CheckNode::Word(WordCheck::Assigns(rest)), nesting),
            }
        }
    }
}

fn value_apart<'a>(value: &'a AssignValue, nesting: Nesting) -> Checks<'a>
    ensures { NodeSplits (node.Word (checks.Value value.entry)) nesting result }
{
    match value {
        AssignValue::Word(word) => optional_apart(word, nesting),
    }
}

fn optional_apart<'a>(word: &'a Option<Word>, nesting: Nesting) -> Checks<'a>
    ensures { Splits (value_fits nesting.in_body nesting.depth (value_of (option_map view_word word.now))) (value_weight (value_of (option_map view_word word.now)) + 2) result }
{
    match word {
        None => known(true),
        Some(word) => whole_word_apart(word.parts.as_slice(), false, nesting),
    }
}
