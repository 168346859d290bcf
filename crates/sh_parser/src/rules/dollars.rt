//! Expansions (POSIX 2.6).

ghost use Rattle.std.specs.Prelude.{◌≡◌};
ghost use Rattle.sh_grammar.specs.Table as table;
ghost use Rattle.sh_parser.specs.Kinds as kinds;
ghost use Rattle.sh_parser.specs.Tables as tables;
ghost use Rattle.sh_parser.specs.Tables.{items_gram, chosen};

use super::places::{braces_rule, fill_rule, opened, trim_rule};
use crate::ahead::holds;
use crate::class::{Context, fill_context, trim_context};
use crate::table::Item::{One, Star};
use crate::table::{DollarRule, DollarTest, Item, Test};
use crate::units::{
    CLOSE, CLOSE_SUM, CLOSED, DOLLAR, DOUBLE_EXPANSION, ENTER, LEAVE, MAYBE_LIST, OPEN_SUBST,
    OPEN_SUM, OPERAND, SUBST, SUM, SUM_BYTES, SUM_CLOSE, SUM_GROUP, SUM_OPEN, SUM_PART,
};

/// Expansions.
pub fn dollar_body(rule: DollarRule, bytes: &[u8]) -> &'static [Item]
    ensures { items_gram result.now ≡ chosen (table.body (tables.dollar_rule rule)) bytes.now }
{
    match rule {
        DollarRule::Expansion(place) => expansion(place, bytes),
        DollarRule::Braces(place) => braces(place, bytes),
        DollarRule::Fill(place) => fill(place, bytes),
        DollarRule::Trim(place) => trim(place, bytes),
        DollarRule::Subst => &[
            One(OPEN_SUBST),
            One(ENTER),
            One(MAYBE_LIST),
            One(CLOSE),
            One(LEAVE),
        ],
        DollarRule::Sum => &[
            One(OPEN_SUM),
            One(ENTER),
            Star(Test::Dollar(DollarTest::SumGoesOn), SUM_PART),
            One(CLOSE_SUM),
            One(LEAVE),
        ],
        DollarRule::SumPart => sum_part(bytes),
        DollarRule::SumGroup => &[
            One(SUM_OPEN),
            One(ENTER),
            Star(Test::Dollar(DollarTest::SumGoesOn), SUM_PART),
            One(SUM_CLOSE),
            One(LEAVE),
        ],
    }
}

fn expansion(place: Context, bytes: &[u8]) -> &'static [Item]
    ensures { items_gram result.now ≡ chosen (table.body (table.expansion (kinds.context place))) bytes.now }
{
    if holds(Test::Dollar(DollarTest::SumBegins), bytes) {
        &[One(SUM)]
    } else if holds(Test::Dollar(DollarTest::SubstBegins), bytes) {
        &[One(SUBST)]
    } else if holds(Test::Dollar(DollarTest::BraceBegins), bytes) {
        braces_rule(place)
    } else {
        &[One(DOLLAR)]
    }
}

fn braces(place: Context, bytes: &[u8]) -> &'static [Item]
    ensures { items_gram result.now ≡ chosen (table.body (table.braces (kinds.context place))) bytes.now }
{
    if holds(Test::Dollar(DollarTest::ClosedBegins), bytes) {
        &[One(CLOSED)]
    } else if holds(Test::Dollar(DollarTest::FillingBegins), bytes) {
        fill_rule(place)
    } else {
        trim_rule(place)
    }
}

fn fill(place: Context, bytes: &[u8]) -> &'static [Item]
    ensures { items_gram result.now ≡ chosen (table.body (table.fill (kinds.context place))) bytes.now }
{
    opened(fill_context(place))
}

fn trim(place: Context, bytes: &[u8]) -> &'static [Item]
    ensures { items_gram result.now ≡ chosen (table.body (table.trim (kinds.context place))) bytes.now }
{
    opened(trim_context(place))
}

fn sum_part(bytes: &[u8]) -> &'static [Item]
    ensures { items_gram result.now ≡ chosen (table.body table.sum_part) bytes.now }
{
    if holds(Test::Dollar(DollarTest::SumOpens), bytes) {
        &[One(SUM_GROUP)]
    } else if holds(Test::Dollar(DollarTest::ExpansionBegins), bytes) {
        &[One(OPERAND), One(DOUBLE_EXPANSION)]
    } else {
        &[One(SUM_BYTES)]
    }
}
