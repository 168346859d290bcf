//! Words and assignments, taken apart.

ghost use Rattle.std.specs.Prelude.{◌≡◌, ◌≤◌, ◌+◌, ◌++◌, ◌∷◌, [], map, option_map, Bool};
ghost use Rattle.sh_grammar.specs.Shape as shape;
ghost use Rattle.sh_printer.specs.Codes.{view_context};
ghost use Rattle.sh_printing.specs.Marks.{gap};
ghost use Rattle.sh_printer.specs.Owed.{owed_text};
ghost use Rattle.sh_printer.specs.Pieces.{Comes, Apart, AsPart, leaf_text, piece_text, piece_weight, owed_weight};
ghost use Rattle.sh_printing.specs.Printing.{parts_text, value_text};
ghost use Rattle.sh_printer.specs.Weights.{parts_weight, value_weight};
ghost use Rattle.sh_syntax.specs.View.{view, view_op, view_param, view_part, view_redirect, view_value, view_word, parts_of, value_of, words_of};
ghost use Rattle.sh_syntax.specs.declared.tree.Arith.{out-Arith};
ghost use Rattle.sh_printer.specs.declared.pieces.Node.TheVariants as node;
ghost use Rattle.sh_printer.specs.declared.pieces.WordPiece.TheVariants as in_word;

use crate::context::{Context, fill_context, trim_context};
use crate::leaves::lead;
use crate::marks::trim_mark;
use crate::opening::{is_continued, owed_behind};
use crate::pieces::{CommandPiece, Leaf, Node, Operands, Piece, Place, Split, SumPiece, WordPiece};
use crate::redirects::{gap, last_apart, redirect_apart, redirects_apart};
use sh_syntax::{
    Arith, Assign, AssignValue, Param, ParamOp, Part, PartKind, Redirect, Script, Word,
};

/// The pieces of words, assignments or redirections.
pub fn word_apart(piece: WordPiece<'_>) -> Split<'_>
    ensures { Apart (node.Word piece.entry) result }
{
    match piece {
        WordPiece::Words(words, behind) => words_apart(words, behind),
        WordPiece::Word(word) => whole_word_apart(word),
        WordPiece::Parts(parts, context, owed) => parts_apart(parts, context, owed),
        WordPiece::Part(part, place) => part_apart(part, place),
        WordPiece::Redirects(all, done, behind, tail) => redirects_apart(all, done, behind, tail),
        WordPiece::Last(tail, owed) => last_apart(tail, owed),
        WordPiece::Redirect(redirect, owed) => redirect_apart(redirect, owed),
        WordPiece::Assigns(assigns, behind) => assigns_apart(assigns, behind),
        WordPiece::Assign(assign) => assign_apart(assign),
    }
}

/// The first word, and those behind it.
fn words_apart(words: &[Word], behind: bool) -> Split<'_>
    ensures { Apart (node.Word (in_word.Words words.entry behind)) result }
{
    match words {
        [] => Split {
            first: Piece::Leaf(Leaf::Bytes(b"")),
            second: Piece::Leaf(Leaf::Bytes(b"")),
            rest: Piece::Leaf(Leaf::Bytes(b"")),
        },
        [first, ..] => {
            let (_, rest) = words.split_at(1);
            Split {
                first: Piece::Leaf(Leaf::Bytes(lead(behind))),
                second: Piece::Node(Node::Word(WordPiece::Word(first))),
                rest: Piece::Node(Node::Word(WordPiece::Words(rest, true))),
            }
        }
    }
}

fn whole_word_apart(word: &Word) -> Split<'_>
    ensures { Apart (node.Word (in_word.Word word.entry)) result }
{
    let parts = word.parts.as_slice();
    Split {
        first: Piece::Leaf(Leaf::Bytes(b"")),
        second: Piece::Leaf(Leaf::Bytes(b"")),
        rest: Piece::Node(Node::Word(WordPiece::Parts(parts, Context::Word, &[]))),
    }
}

/// The first part, and those behind it.
fn parts_apart<'a>(parts: &'a [Part], context: Context, owed: &'a [Redirect]) -> Split<'a>
    ensures { Apart (node.Word (in_word.Parts parts.entry context owed.entry)) result }
{
    match parts {
        [] => Split {
            first: Piece::Leaf(Leaf::Bytes(b"")),
            second: Piece::Leaf(Leaf::Bytes(b"")),
            rest: Piece::Leaf(Leaf::Bytes(b"")),
        },
        [first, ..] => {
            let (_, rest) = parts.split_at(1);
            let place = Place {
                context,
                more: is_continued(rest),
                owed,
            };
            let later = owed_behind(owed, first);
            Split {
                first: Piece::Node(Node::Word(WordPiece::Part(first, place))),
                second: Piece::Leaf(Leaf::Bytes(b"")),
                rest: Piece::Node(Node::Word(WordPiece::Parts(rest, context, later))),
            }
        }
    }
}

fn part_apart<'a>(part: &'a Part, place: Place<'a>) -> Split<'a>
    ensures { Apart (node.Word (in_word.Part part.entry place.entry)) result }
{
    match &part.kind {
        PartKind::Plain(text) => plain_apart(text.bytes(), place),
        PartKind::Exact(text) => exact_apart(text.bytes(), place),
        PartKind::Double(parts) => double_apart(parts.as_slice(), place),
        PartKind::Tilde => tilde_apart(place),
        PartKind::Param { param, op } => param_apart(param, op, place),
        PartKind::Subst(script) => subst_apart(script, place),
        PartKind::Arith(arith) => arith_apart(arith, place),
    }
}

fn plain_apart<'a>(text: &'a [u8], place: Place<'a>) -> Split<'a>
    ensures { AsPart place.entry (shape.plain text.now) result }
{
    Split {
        first: Piece::Leaf(Leaf::Bytes(b"")),
        second: Piece::Leaf(Leaf::Bytes(b"")),
        rest: Piece::Leaf(Leaf::Bytes(text)),
    }
}

fn exact_apart<'a>(text: &'a [u8], place: Place<'a>) -> Split<'a>
    ensures { AsPart place.entry (shape.exact text.now) result }
{
    Split {
        first: Piece::Leaf(Leaf::Bytes(b"")),
        second: Piece::Leaf(Leaf::Bytes(b"")),
        rest: Piece::Leaf(Leaf::Exact(text, place.context)),
    }
}

fn tilde_apart(place: Place<'_>) -> Split<'_>
    ensures { AsPart place.entry shape.tilde result }
{
    Split {
        first: Piece::Leaf(Leaf::Bytes(b"")),
        second: Piece::Leaf(Leaf::Bytes(b"")),
        rest: Piece::Leaf(Leaf::Bytes(b"~")),
    }
}

/// `"a$b"`
fn double_apart<'a>(parts: &'a [Part], place: Place<'a>) -> Split<'a>
    ensures { AsPart place.entry (shape.double (parts_of (map view_part parts.now))) result }
{
    Split {
        first: Piece::Leaf(Leaf::Bytes(b"\"")),
        second: Piece::Node(Node::Word(WordPiece::Parts(parts, Context::Double, place.owed))),
        rest: Piece::Leaf(Leaf::Bytes(b"\"")),
    }
}

fn param_apart<'a>(param: &'a Param, op: &'a ParamOp, place: Place<'a>) -> Split<'a>
    ensures { AsPart place.entry (shape.param (view_param param.now) (view_op op.now)) result }
{
    match op {
        ParamOp::Plain => leaf_apart(Leaf::Named(param, place.more)),
        ParamOp::Length => leaf_apart(Leaf::Length(param)),
        ParamOp::Fill { test, colon, word } => {
            let start = Leaf::Filling(param, *test, *colon);
            closed_apart(start, word, fill_context(place.context), place.owed)
        }
        ParamOp::Trim {
            suffix,
            longest,
            pattern,
        } => {
            let start = Leaf::Trimming(param, trim_mark(*suffix, *longest));
            closed_apart(start, pattern, trim_context(place.context), place.owed)
        }
    }
}

fn leaf_apart(leaf: Leaf<'_>) -> Split<'_>
    ensures { Comes (λ full. leaf_text leaf.entry) 1 result }
{
    Split {
        first: Piece::Leaf(Leaf::Bytes(b"")),
        second: Piece::Leaf(Leaf::Bytes(b"")),
        rest: Piece::Leaf(leaf),
    }
}

/// The word of `${a-w}` behind its start, and the brace.
fn closed_apart<'a>(
    start: Leaf<'a>,
    word: &'a Word,
    context: Context,
    owed: &'a [Redirect],
) -> Split<'a>
    ensures { Comes (λ full. leaf_text start.entry ++ parts_text full (view_context context) (gap (owed_text full (map view_redirect owed.now))) (view_word word.now) ++ 125 ∷ []) (parts_weight (view_word word.now) + owed_weight owed.now + 2) result }
{
    let parts = word.parts.as_slice();
    Split {
        first: Piece::Leaf(start),
        second: Piece::Node(Node::Word(WordPiece::Parts(parts, context, owed))),
        rest: Piece::Leaf(Leaf::Bytes(b"}")),
    }
}

/// `$(a)`
fn subst_apart<'a>(script: &'a Script, place: Place<'a>) -> Split<'a>
    ensures { AsPart place.entry (shape.subst (view script.now)) result }
{
    Split {
        first: Piece::Leaf(Leaf::Bytes(b"$(")),
        second: gap(place.owed),
        rest: Piece::Node(Node::Command(CommandPiece::Between(b"", script, b")"))),
    }
}

/// `$((a + 1))`
fn arith_apart<'a>(arith: &'a Arith, place: Place<'a>) -> Split<'a>
    ensures { AsPart place.entry (shape.arith (out-Arith arith.now).expr (words_of (map view_word (out-Arith arith.now).operands))) result }
{
    let operands = Operands {
        words: arith.operands.as_slice(),
        owed: place.owed,
    };
    Split {
        first: Piece::Leaf(Leaf::Bytes(b"$((")),
        second: Piece::Node(Node::Sum(SumPiece::Expr(&arith.expr, 0), operands)),
        rest: Piece::Leaf(Leaf::Bytes(b"))")),
    }
}

/// The first assignment, and those behind it.
fn assigns_apart(assigns: &[Assign], behind: bool) -> Split<'_>
    ensures { Apart (node.Word (in_word.Assigns assigns.entry behind)) result }
{
    match assigns {
        [] => Split {
            first: Piece::Leaf(Leaf::Bytes(b"")),
            second: Piece::Leaf(Leaf::Bytes(b"")),
            rest: Piece::Leaf(Leaf::Bytes(b"")),
        },
        [first, ..] => {
            let (_, rest) = assigns.split_at(1);
            Split {
                first: Piece::Leaf(Leaf::Bytes(lead(behind))),
                second: Piece::Node(Node::Word(WordPiece::Assign(first))),
                rest: Piece::Node(Node::Word(WordPiece::Assigns(rest, true))),
            }
        }
    }
}

/// `a=w`
fn assign_apart(assign: &Assign) -> Split<'_>
    ensures { Apart (node.Word (in_word.Assign assign.entry)) result }
{
    Split {
        first: Piece::Leaf(Leaf::Bytes(assign.name.text.bytes())),
        second: Piece::Leaf(Leaf::Bytes(b"=")),
        rest: value_piece(&assign.value),
    }
}

fn value_piece(value: &AssignValue) -> Piece<'_>
    ensures text { (full : Bool) → piece_text full result ≡ value_text full (view_value value.now) }
    ensures weight { piece_weight result ≤ value_weight (view_value value.now) }
{
    match value {
        AssignValue::Word(word) => optional_word(word),
    }
}

fn optional_word(word: &Option<Word>) -> Piece<'_>
    ensures text { (full : Bool) → piece_text full result ≡ value_text full (value_of (option_map view_word word.now)) }
    ensures weight { piece_weight result ≤ value_weight (value_of (option_map view_word word.now)) }
{
    match word {
        None => Piece::Leaf(Leaf::Bytes(b"")),
        Some(word) => Piece::Node(Node::Word(WordPiece::Word(word))),
    }
}
