//! Simple commands and redirections.

ghost use Rattle.std.specs.Prelude.{◌≡◌};
ghost use Rattle.sh_grammar.specs.Table as table;
ghost use Rattle.sh_parser.specs.Tables as tables;
ghost use Rattle.sh_parser.specs.Tables.{items_gram, chosen};

use crate::ahead::holds;
use crate::class::Context;
use crate::table::Item::{If, One, Star};
use crate::table::{Item, RedirectTest, SimpleRule, Test, WordTest};
use crate::tokens::Op;
use crate::units::{
    ASSIGN, ASSIGN_NAME, CALLED, COPY, DESCRIPTOR, FAIL, FILE, FILE_OP, HERE, PASS, PREFIX_ITEM,
    PREFIXED, REDIRECT, SUFFIX, SUFFIX_ITEM, TARGET, VALUE, WORD,
};

/// Simple commands and redirections.
pub fn simple_body(rule: SimpleRule, bytes: &[u8]) -> &'static [Item]
    ensures { items_gram result.now ≡ chosen (table.body (tables.simple_rule rule)) bytes.now }
{
    match rule {
        SimpleRule::SimpleCommand => simple_command(bytes),
        SimpleRule::Prefixed => &[
            One(PREFIX_ITEM),
            Star(Test::PrefixBegins, PREFIX_ITEM),
            One(SUFFIX),
        ],
        SimpleRule::Called => &[One(WORD), One(SUFFIX)],
        SimpleRule::Suffix => &[Star(Test::SuffixBegins, SUFFIX_ITEM)],
        SimpleRule::PrefixItem => prefix_item(bytes),
        SimpleRule::SuffixItem => suffix_item(bytes),
        SimpleRule::Assign => &[
            One(ASSIGN_NAME),
            If(Test::Word(WordTest::UnitBegins(Context::Word)), VALUE, PASS),
        ],
        SimpleRule::Redirect => &[If(Test::Next(Op::Io), DESCRIPTOR, PASS), One(TARGET)],
        SimpleRule::Target => target(bytes),
        SimpleRule::File => &[One(FILE_OP), One(WORD)],
    }
}

fn simple_command(bytes: &[u8]) -> &'static [Item]
    ensures { items_gram result.now ≡ chosen (table.body table.simple_command) bytes.now }
{
    if holds(Test::SimpleBegins, bytes) {
        if holds(Test::PrefixBegins, bytes) {
            &[One(PREFIXED)]
        } else {
            &[One(CALLED)]
        }
    } else {
        &[One(FAIL)]
    }
}

fn prefix_item(bytes: &[u8]) -> &'static [Item]
    ensures { items_gram result.now ≡ chosen (table.body table.prefix_item) bytes.now }
{
    if holds(Test::Redirect(RedirectTest::RedirectBegins), bytes) {
        &[One(REDIRECT)]
    } else {
        &[One(ASSIGN)]
    }
}

fn suffix_item(bytes: &[u8]) -> &'static [Item]
    ensures { items_gram result.now ≡ chosen (table.body table.suffix_item) bytes.now }
{
    if holds(Test::Redirect(RedirectTest::RedirectBegins), bytes) {
        &[One(REDIRECT)]
    } else {
        &[One(WORD)]
    }
}

fn target(bytes: &[u8]) -> &'static [Item]
    ensures { items_gram result.now ≡ chosen (table.body table.target) bytes.now }
{
    if holds(Test::Redirect(RedirectTest::HereBegins), bytes) {
        &[One(HERE)]
    } else if holds(Test::Redirect(RedirectTest::CopyBegins), bytes) {
        &[One(COPY)]
    } else {
        &[One(FILE)]
    }
}
