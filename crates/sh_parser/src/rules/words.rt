//! Words (POSIX 2.2).

ghost use Rattle.std.specs.Prelude.{◌≡◌};
ghost use Rattle.sh_grammar.specs.Table as table;
ghost use Rattle.sh_parser.specs.Kinds as kinds;
ghost use Rattle.sh_parser.specs.Tables as tables;
ghost use Rattle.sh_parser.specs.Tables.{items_gram, chosen};

use super::places::{escaped, expansion_rule, literal};
use crate::ahead::holds;
use crate::class::Context;
use crate::table::Item::{If, One, Star};
use crate::table::{DollarTest, Item, Test, WordRule, WordTest};
use crate::units::{
    BODY_PART, DOUBLE_PART, DOUBLE_QUOTES, ENDS, EXACT, MORE_PARTS, PART, QUOTE, TILDE, TO_WORD,
    WORD_PARTS,
};

/// Words.
pub fn word_body(rule: WordRule, bytes: &[u8]) -> &'static [Item]
    ensures { items_gram result.now ≡ chosen (table.body (tables.word_rule rule)) bytes.now }
{
    match rule {
        WordRule::Word => &[One(TO_WORD), One(WORD_PARTS)],
        WordRule::Value => &[One(WORD_PARTS)],
        WordRule::WordParts => &[
            If(Test::Word(WordTest::TildeBegins), TILDE, PART),
            One(MORE_PARTS),
        ],
        WordRule::MoreParts => &[Star(Test::Word(WordTest::UnitBegins(Context::Word)), PART)],
        WordRule::Pattern => &[One(TO_WORD), One(PART), One(MORE_PARTS)],
        WordRule::Part(place) => part(place, bytes),
        WordRule::DoubleQuotes => &[
            One(QUOTE),
            Star(
                Test::Word(WordTest::UnitBegins(Context::Double)),
                DOUBLE_PART,
            ),
            One(QUOTE),
        ],
        WordRule::BodyParts => &[
            Star(Test::Word(WordTest::UnitBegins(Context::Body)), BODY_PART),
            One(ENDS),
        ],
    }
}

fn part(place: Context, bytes: &[u8]) -> &'static [Item]
    ensures { items_gram result.now ≡ chosen (table.body (table.part (kinds.context place))) bytes.now }
{
    if holds(Test::Word(WordTest::SingleBegins(place)), bytes) {
        &[One(EXACT)]
    } else if holds(Test::Word(WordTest::DoubleBegins(place)), bytes) {
        &[One(DOUBLE_QUOTES)]
    } else if holds(Test::Word(WordTest::EscapeBegins(place)), bytes) {
        escaped(place)
    } else if holds(Test::Dollar(DollarTest::ExpansionBegins), bytes) {
        expansion_rule(place)
    } else {
        literal(place)
    }
}
