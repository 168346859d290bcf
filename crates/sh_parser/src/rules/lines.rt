//! Lines, lists and pipelines.

ghost use Rattle.std.specs.Prelude.{◌≡◌};
ghost use Rattle.sh_grammar.specs.Table as table;
ghost use Rattle.sh_parser.specs.Tables as tables;
ghost use Rattle.sh_parser.specs.Tables.{items_gram, chosen};

use crate::ahead::holds;
use crate::keys::Key;
use crate::table::Item::{If, One, Star, Where};
use crate::table::{Item, LineRule, PipeRule, Test};
use crate::tokens::Op;
use crate::units::{
    AND_IF, AND_LINK, BANG, BANG_KEY, CHAIN, COMMAND, COMPLETE, COMPLETE_MORE, ENDS, LINE, LINES,
    LINK, LIST_MORE, NO_SEMI, OR_IF, OR_LINK, PASS, PIPE, PIPELINE, SEMI, STAGE,
};

/// Lines and lists.
pub fn line_body(rule: LineRule, bytes: &[u8]) -> &'static [Item]
    ensures { items_gram result.now ≡ chosen (table.body (tables.line_rule rule)) bytes.now }
{
    match rule {
        LineRule::Piece => piece(bytes),
        LineRule::LinePiece => line_piece(bytes),
        LineRule::Complete => &[
            One(CHAIN),
            Star(Test::GoesOn, COMPLETE_MORE),
            If(Test::Next(Op::Semi), SEMI, PASS),
        ],
        LineRule::CompleteMore => &[One(SEMI), One(CHAIN)],
        LineRule::List => &[One(LINES), One(CHAIN), Star(Test::Separates, LIST_MORE)],
        LineRule::MaybeList => &[
            One(LINES),
            Where(Test::PipelineBegins),
            One(CHAIN),
            Star(Test::Separates, LIST_MORE),
        ],
        LineRule::ListMore => &[
            If(Test::Next(Op::Semi), SEMI, LINE),
            One(LINES),
            If(Test::PipelineBegins, CHAIN, NO_SEMI),
        ],
        LineRule::Lines => &[Star(Test::Next(Op::Newline), LINE)],
    }
}

fn piece(bytes: &[u8]) -> &'static [Item]
    ensures { items_gram result.now ≡ chosen (table.body table.piece) bytes.now }
{
    if holds(Test::Next(Op::Newline), bytes) {
        &[One(LINE)]
    } else {
        &[One(COMPLETE), If(Test::Next(Op::Newline), LINE, ENDS)]
    }
}

fn line_piece(bytes: &[u8]) -> &'static [Item]
    ensures { items_gram result.now ≡ chosen (table.body table.line_piece) bytes.now }
{
    if holds(Test::Next(Op::Newline), bytes) {
        &[One(LINE)]
    } else {
        &[One(COMPLETE), One(LINE)]
    }
}

/// Pipelines.
pub fn pipe_body(rule: PipeRule, bytes: &[u8]) -> &'static [Item]
    ensures { items_gram result.now ≡ chosen (table.body (tables.pipe_rule rule)) bytes.now }
{
    match rule {
        PipeRule::Chain => &[One(PIPELINE), Star(Test::Links, LINK)],
        PipeRule::Link => link(bytes),
        PipeRule::AndLink => &[One(AND_IF), One(LINES), One(PIPELINE)],
        PipeRule::OrLink => &[One(OR_IF), One(LINES), One(PIPELINE)],
        PipeRule::Pipeline => &[
            If(Test::KeyNext(Key::Bang), BANG, PASS),
            One(COMMAND),
            Star(Test::Next(Op::Pipe), STAGE),
        ],
        PipeRule::Bang => &[One(BANG_KEY)],
        PipeRule::Stage => &[One(PIPE), One(LINES), One(COMMAND)],
    }
}

fn link(bytes: &[u8]) -> &'static [Item]
    ensures { items_gram result.now ≡ chosen (table.body table.link) bytes.now }
{
    if holds(Test::Next(Op::AndIf), bytes) {
        &[One(AND_LINK)]
    } else {
        &[One(OR_LINK)]
    }
}
