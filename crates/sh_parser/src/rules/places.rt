//! What differs by where a part of a word stands.

ghost use Rattle.std.specs.Prelude.{◌≡◌};
ghost use Rattle.text_grammar.specs.Grammar.{rule, step as a_step};
ghost use Rattle.sh_grammar.specs.Table as table;
ghost use Rattle.sh_parser.specs.Kinds as kinds;
ghost use Rattle.sh_parser.specs.Tables.{items_gram, opened_gram};

use crate::class::Context;
use crate::table::Item::{One, Star};
use crate::table::{DollarRule, Item, Rule, Step, Test, Unit, WordRule, WordStep, WordTest};
use crate::units::{CLOSE_BRACE, ENTER, LEAVE, OPEN_HEAD};

/// What a macro gives for the place, as a constant: the items of the table stand in static memory.
macro_rules! at_place {
    ($place:expr, $items:ident $(, $unit:path)?) => {
        match $place {
            Context::Word => $items!(Word $(, $unit)?),
            Context::Double => $items!(Double $(, $unit)?),
            Context::Body => $items!(Body $(, $unit)?),
            Context::Brace => $items!(Brace $(, $unit)?),
            Context::QuotedBrace => $items!(QuotedBrace $(, $unit)?),
            Context::BodyBrace => $items!(BodyBrace $(, $unit)?),
            Context::BodyPattern => $items!(BodyPattern $(, $unit)?),
        }
    };
}

/// One step of words.
macro_rules! word_step {
    ($place:ident, $step:path) => {
        &[One(Unit::Step(Step::Word($step(Context::$place))))]
    };
}

/// One rule of expansions.
macro_rules! dollar_rule {
    ($place:ident, $rule:path) => {
        &[One(Unit::Rule(Rule::Dollar($rule(Context::$place))))]
    };
}

/// A backslash and the byte that it quotes.
pub fn escaped(place: Context) -> &'static [Item]
    ensures { items_gram result.now ≡ a_step (table.escaped (kinds.context place)) }
{
    at_place!(place, word_step, WordStep::Escaped)
}

/// Bytes that stand for themselves.
pub fn literal(place: Context) -> &'static [Item]
    ensures { items_gram result.now ≡ a_step (table.literal (kinds.context place)) }
{
    at_place!(place, word_step, WordStep::Literal)
}

/// An expansion.
pub fn expansion_rule(place: Context) -> &'static [Item]
    ensures { items_gram result.now ≡ rule (table.expansion (kinds.context place)) }
{
    at_place!(place, dollar_rule, DollarRule::Expansion)
}

/// `${..}`.
pub fn braces_rule(place: Context) -> &'static [Item]
    ensures { items_gram result.now ≡ rule (table.braces (kinds.context place)) }
{
    at_place!(place, dollar_rule, DollarRule::Braces)
}

/// `${a-w}`.
pub fn fill_rule(place: Context) -> &'static [Item]
    ensures { items_gram result.now ≡ rule (table.fill (kinds.context place)) }
{
    at_place!(place, dollar_rule, DollarRule::Fill)
}

/// `${a%w}`.
pub fn trim_rule(place: Context) -> &'static [Item]
    ensures { items_gram result.now ≡ rule (table.trim (kinds.context place)) }
{
    at_place!(place, dollar_rule, DollarRule::Trim)
}

/// The word of `${a-w}`, and what closes it.
macro_rules! opened_items {
    ($place:ident) => {
        &[
            One(OPEN_HEAD),
            One(ENTER),
            Star(
                Test::Word(WordTest::UnitBegins(Context::$place)),
                Unit::Rule(Rule::Word(WordRule::Part(Context::$place))),
            ),
            One(CLOSE_BRACE),
            One(LEAVE),
        ]
    };
}

/// `${a-`, a word in this place, and `}`.
pub fn opened(place: Context) -> &'static [Item]
    ensures { items_gram result.now ≡ opened_gram (kinds.context place) }
{
    at_place!(place, opened_items)
}
