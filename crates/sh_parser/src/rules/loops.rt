//! `for` and `case`.

ghost use Rattle.std.specs.Prelude.{◌≡◌};
ghost use Rattle.sh_grammar.specs.Table as table;
ghost use Rattle.sh_parser.specs.Tables as tables;
ghost use Rattle.sh_parser.specs.Tables.{items_gram, chosen};

use crate::ahead::holds;
use crate::keys::Key;
use crate::table::Item::{If, One, Star};
use crate::table::{Item, LoopRule, Test};
use crate::tokens::Op;
use crate::units::{
    CASE, CASE_IN, CASE_ITEM, CLOSE, DO_BODY, ENTER, ESAC, FAIL, FOR, FOR_IN, FOR_WORDS, IN,
    ITEM_END, LEAVE, LINE, LINES, MAYBE_LIST, NAME, OPEN, PASS, PATTERN, PATTERN_MORE, PIPE, SEMI,
    SEMI_SEMI, WORD,
};

/// `for` and `case`.
pub fn loop_body(rule: LoopRule, bytes: &[u8]) -> &'static [Item]
    ensures { items_gram result.now ≡ chosen (table.body (tables.loop_rule rule)) bytes.now }
{
    match rule {
        LoopRule::ForLoop => &[
            One(FOR),
            One(NAME),
            One(ENTER),
            One(FOR_WORDS),
            One(DO_BODY),
            One(LEAVE),
        ],
        LoopRule::ForWords => for_words(bytes),
        LoopRule::ForIn => &[
            One(IN),
            Star(Test::Next(Op::Word), WORD),
            If(Test::Next(Op::Semi), SEMI, LINE),
            One(LINES),
        ],
        LoopRule::CaseCommand => &[
            One(CASE),
            One(ENTER),
            One(WORD),
            One(LINES),
            One(CASE_IN),
            One(LEAVE),
        ],
        LoopRule::CaseIn => &[
            One(IN),
            One(LINES),
            Star(Test::ItemBegins, CASE_ITEM),
            One(ESAC),
        ],
        LoopRule::CaseItem => case_item(),
        LoopRule::PatternMore => &[One(PIPE), One(PATTERN)],
        LoopRule::ItemEnd => item_end(bytes),
    }
}

fn for_words(bytes: &[u8]) -> &'static [Item]
    ensures { items_gram result.now ≡ chosen (table.body table.for_words) bytes.now }
{
    if holds(Test::Next(Op::Semi), bytes) {
        &[One(SEMI), One(LINES)]
    } else {
        &[One(LINES), If(Test::KeyNext(Key::In), FOR_IN, PASS)]
    }
}

fn case_item() -> &'static [Item]
    ensures { items_gram result.now ≡ table.body table.case_item }
{
    &[
        If(Test::Next(Op::Open), OPEN, PASS),
        One(PATTERN),
        Star(Test::Next(Op::Pipe), PATTERN_MORE),
        One(CLOSE),
        One(MAYBE_LIST),
        One(ITEM_END),
    ]
}

fn item_end(bytes: &[u8]) -> &'static [Item]
    ensures { items_gram result.now ≡ chosen (table.body table.item_end) bytes.now }
{
    if holds(Test::Next(Op::SemiSemi), bytes) {
        &[One(SEMI_SEMI), One(LINES)]
    } else if holds(Test::KeyNext(Key::Esac), bytes) {
        &[One(PASS)]
    } else {
        &[One(FAIL)]
    }
}
