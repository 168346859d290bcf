//! Arithmetic expressions, taken apart (POSIX 2.6.4), with parentheses where the operators' order asks for them.

ghost use Rattle.std.specs.Prelude.{◌≡◌, ◌+◌, ◌-◌, ◌≤◌, ◌<◌, ◌*◌, ◌^◌, ◌∷◌, ◌++◌, [], map, option_copied, false, Bool};
ghost use Rattle.span_text.specs.Expression.{nodes};
ghost use Rattle.span_text.specs.declared.expr.Expr.TheOpen as layer;
ghost use Rattle.sh_printer.specs.Chains.{Chained, down, first_of, has_first, if_bare, last_operator, next_down};
ghost use Rattle.sh_printer.specs.Levels.{own_level};
ghost use Rattle.sh_printer.specs.Pieces.{Apart, AsLayer, Comes, leaf_text, operand_of, owed_weight, piece_text, piece_weight, sums_weight};
ghost use Rattle.sh_printing.specs.Sums.{levelled_text};
ghost use Rattle.sh_syntax.specs.View.{view_word, words_of};
ghost use Rattle.sh_printer.specs.Weights.{words_weight};
ghost use Rattle.sh_printer.specs.declared.pieces.Node.TheVariants as node;
ghost use Rattle.sh_printer.specs.declared.pieces.SumPiece.TheVariants as sums;

use crate::context::Context;
use crate::marks::{
    assigned_mark, before_target, behind_target, binary_level, binary_mark, left_level, unary_mark,
};
use crate::opening::owed_behind_words;
use crate::pieces::{Leaf, Node, Operands, Piece, Split, SumPiece, WordPiece};
use span_text::{BinOp, Expr, StepOp, UnOp};

/// The pieces of an arithmetic expression.
pub fn sum_apart<'a>(piece: SumPiece<'a>, operands: Operands<'a>) -> Split<'a>
    ensures { Apart (node.Sum piece.entry operands.entry) result }
{
    match piece {
        SumPiece::Expr(expr, wanted) => expr_apart(expr, wanted, operands),
        SumPiece::Bare(expr) => bare_apart(expr, operands),
        SumPiece::Closed(expr) => closed_apart(expr, operands),
        SumPiece::Links(expr, count, bits) => links_apart(expr, count, bits, operands),
        SumPiece::Behind(mark, expr, wanted) => behind_apart(mark, expr, wanted, operands),
        SumPiece::Indexed(expr) => indexed_apart(expr, operands),
    }
}

/// The level of an expression: 0 is the comma, 15 what stands for itself.
pub fn level(expr: &Expr) -> u8
    ensures { result ≡ own_level expr.now }
{
    match expr {
        Expr::Comma(_, _) => 0,
        Expr::Assign(_, _, _) => 1,
        Expr::Choose(_, _, _) => 2,
        Expr::Or(_, _) => 3,
        Expr::And(_, _) => 4,
        Expr::Binary(op, _, _) => binary_level(*op),
        Expr::Unary(_, _) => 14,
        Expr::Step(_, _) => 14,
        Expr::Constant(_) => 15,
        Expr::Name(_) => 15,
        Expr::Operand(_) => 15,
        Expr::Member(_, _) => 15,
    }
}

/// An expression, in parentheses where it is looser than what is asked for.
fn expr_apart<'a>(expr: &'a Expr, wanted: u8, operands: Operands<'a>) -> Split<'a>
    ensures { Apart (node.Sum (sums.Expr expr.entry wanted) operands.entry) result }
{
    let piece = if wanted <= level(expr) {
        SumPiece::Bare(expr)
    } else {
        SumPiece::Closed(expr)
    };
    Split {
        first: Piece::Leaf(Leaf::Bytes(b"")),
        second: Piece::Leaf(Leaf::Bytes(b"")),
        rest: Piece::Node(Node::Sum(piece, operands)),
    }
}

/// The first expression of a chain, and the operators behind it.
fn bare_apart<'a>(expr: &'a Expr, operands: Operands<'a>) -> Split<'a>
    ensures { Apart (node.Sum (sums.Bare expr.entry) operands.entry) result }
{
    let count = links(expr);
    if count == 0 {
        return end_apart(expr, operands);
    }
    Split {
        first: Piece::Node(Node::Sum(SumPiece::Bare(below(expr, count)), operands)),
        second: Piece::Leaf(Leaf::Bytes(b"")),
        rest: Piece::Node(Node::Sum(SumPiece::Links(expr, count, 64), operands)),
    }
}

/// How many operators of a chain `a + b + c` stand before this expression's last one, and this one: those between operands
/// whose first operand stands without parentheses.
pub fn links(expr: &Expr) -> usize
    ensures chained { Chained result expr.now }
    ensures ends { result < 2 ^ 64 - 1 → has_first (down result expr.now) ≡ false }
{
    let mut now = expr;
    for count in 0..usize::MAX {
        match first_operand(now) {
            None => return count,
            Some(first) => now = first,
        }
    }
    usize::MAX
}

/// The expression so many first operands down.
pub fn below(expr: &Expr, count: usize) -> &Expr
    ensures { result.now ≡ down count expr.now }
{
    let mut now = expr;
    for _step in 0..count {
        now = next_down(now);
    }
    now
}

/// The first operand where it stands without parentheses, or the expression itself.
fn next_down(expr: &Expr) -> &Expr
    ensures { result.now ≡ next_down expr.now }
{
    match first_operand(expr) {
        None => expr,
        Some(first) => first,
    }
}

/// The first operand of an operator between operands, where it stands without parentheses.
fn first_operand(expr: &Expr) -> Option<&Expr>
    ensures { option_copied result ≡ first_of expr.now }
{
    match expr {
        Expr::Binary(op, a, _) => if_bare(a.get(), left_level(*op)),
        Expr::And(a, _) => if_bare(a.get(), 4),
        Expr::Or(a, _) => if_bare(a.get(), 3),
        Expr::Comma(a, _) => if_bare(a.get(), 0),
        Expr::Constant(_) => None,
        Expr::Name(_) => None,
        Expr::Operand(_) => None,
        Expr::Member(_, _) => None,
        Expr::Unary(_, _) => None,
        Expr::Step(_, _) => None,
        Expr::Assign(_, _, _) => None,
        Expr::Choose(_, _, _) => None,
    }
}

/// The expression, where it stands without parentheses where one of this level or a tighter one is asked for.
fn if_bare(expr: &Expr, wanted: u8) -> Option<&Expr>
    ensures { option_copied result ≡ if_bare wanted expr.now }
{
    if wanted <= level(expr) {
        Some(expr)
    } else {
        None
    }
}

/// The operators of a chain by halves, so that a long chain needs no deep stack.
fn links_apart<'a>(expr: &'a Expr, count: usize, bits: u8, operands: Operands<'a>) -> Split<'a>
    ensures { Apart (node.Sum (sums.Links expr.entry count bits) operands.entry) result }
{
    if count == 0 {
        return leaf_apart(Leaf::Bytes(b""));
    }
    if count == 1 {
        return piece_apart(link_piece(expr, operands));
    }
    if bits == 0 {
        return piece_apart(link_piece(expr, operands));
    }
    let half = count / 2;
    let front = SumPiece::Links(below(expr, half), count - half, bits - 1);
    Split {
        first: Piece::Node(Node::Sum(front, operands)),
        second: Piece::Leaf(Leaf::Bytes(b"")),
        rest: Piece::Node(Node::Sum(SumPiece::Links(expr, half, bits - 1), operands)),
    }
}

/// An operator between operands, and its second operand.
fn link_piece<'a>(expr: &'a Expr, operands: Operands<'a>) -> Piece<'a>
    ensures text { (full : Bool) → piece_text full result ≡ last_operator (operand_of full operands.entry) expr.now }
    ensures weight { piece_weight result < 200 * nodes expr.now + words_weight (words_of (map view_word operands.entry.words.now)) + owed_weight operands.entry.owed.now }
{
    match expr {
        Expr::Binary(op, _, b) => {
            let right = binary_level(*op) + 1;
            Piece::Node(Node::Sum(SumPiece::Behind(binary_mark(*op), b.get(), right), operands))
        }
        Expr::And(_, b) => Piece::Node(Node::Sum(SumPiece::Behind(b"&&", b.get(), 5), operands)),
        Expr::Or(_, b) => Piece::Node(Node::Sum(SumPiece::Behind(b"||", b.get(), 4), operands)),
        Expr::Comma(_, b) => Piece::Node(Node::Sum(SumPiece::Behind(b",", b.get(), 1), operands)),
        Expr::Constant(_) => Piece::Leaf(Leaf::Bytes(b"")),
        Expr::Name(_) => Piece::Leaf(Leaf::Bytes(b"")),
        Expr::Operand(_) => Piece::Leaf(Leaf::Bytes(b"")),
        Expr::Member(_, _) => Piece::Leaf(Leaf::Bytes(b"")),
        Expr::Unary(_, _) => Piece::Leaf(Leaf::Bytes(b"")),
        Expr::Step(_, _) => Piece::Leaf(Leaf::Bytes(b"")),
        Expr::Assign(_, _, _) => Piece::Leaf(Leaf::Bytes(b"")),
        Expr::Choose(_, _, _) => Piece::Leaf(Leaf::Bytes(b"")),
    }
}

/// An expression by its outermost operator.
fn end_apart<'a>(expr: &'a Expr, operands: Operands<'a>) -> Split<'a>
    ensures { Apart (node.Sum (sums.Bare expr.entry) operands.entry) result }
{
    match expr {
        Expr::Constant(n) => leaf_apart(Leaf::Constant(*n)),
        Expr::Name(text) => leaf_apart(Leaf::Bytes(text.bytes())),
        Expr::Operand(n) => piece_apart(operand_piece(*n, operands)),
        Expr::Member(text, a) => member_apart(text.bytes(), a.get(), operands),
        Expr::Unary(op, a) => unary_apart(*op, a.get(), operands),
        Expr::Step(op, a) => step_apart(*op, a.get(), operands),
        Expr::Binary(op, a, _) => infix_apart(expr, a.get(), left_level(*op), operands),
        Expr::And(a, _) => infix_apart(expr, a.get(), 4, operands),
        Expr::Or(a, _) => infix_apart(expr, a.get(), 3, operands),
        Expr::Comma(a, _) => infix_apart(expr, a.get(), 0, operands),
        Expr::Assign(a, op, b) => assigned_apart(a.get(), *op, b.get(), operands),
        Expr::Choose(a, b, c) => choice_apart(a.get(), b.get(), c.get(), operands),
    }
}

fn leaf_apart(leaf: Leaf<'_>) -> Split<'_>
    ensures { Comes (λ full. leaf_text leaf.entry) 1 result }
{
    Split {
        first: Piece::Leaf(Leaf::Bytes(b"")),
        second: Piece::Leaf(Leaf::Bytes(b"")),
        rest: Piece::Leaf(leaf),
    }
}

fn piece_apart(piece: Piece<'_>) -> Split<'_>
    ensures { Comes (λ full. piece_text full piece.entry) (piece_weight piece.entry + 1) result }
{
    Split {
        first: Piece::Leaf(Leaf::Bytes(b"")),
        second: Piece::Leaf(Leaf::Bytes(b"")),
        rest: piece,
    }
}

/// `a[e]`
fn member_apart<'a>(name: &'a [u8], index: &'a Expr, operands: Operands<'a>) -> Split<'a>
    ensures { AsLayer operands.entry (layer.Member name.now index.now) result }
{
    Split {
        first: Piece::Leaf(Leaf::Bytes(name)),
        second: Piece::Leaf(Leaf::Bytes(b"[")),
        rest: Piece::Node(Node::Sum(SumPiece::Indexed(index), operands)),
    }
}

/// `- a`
fn unary_apart<'a>(op: UnOp, expr: &'a Expr, operands: Operands<'a>) -> Split<'a>
    ensures { AsLayer operands.entry (layer.Unary op expr.now) result }
{
    Split {
        first: Piece::Leaf(Leaf::Bytes(unary_mark(op))),
        second: Piece::Leaf(Leaf::Bytes(b" ")),
        rest: Piece::Node(Node::Sum(SumPiece::Expr(expr, 14), operands)),
    }
}

/// `++a`, `a++`
fn step_apart<'a>(op: StepOp, target: &'a Expr, operands: Operands<'a>) -> Split<'a>
    ensures { AsLayer operands.entry (layer.Step op target.now) result }
{
    Split {
        first: Piece::Leaf(Leaf::Bytes(before_target(op))),
        second: Piece::Node(Node::Sum(SumPiece::Expr(target, 0), operands)),
        rest: Piece::Leaf(Leaf::Bytes(behind_target(op))),
    }
}

/// An operator between operands, of which this is the first.
fn infix_apart<'a>(expr: &'a Expr, first: &'a Expr, wanted: u8, operands: Operands<'a>) -> Split<'a>
    requires { nodes first.now < nodes expr.now }
    ensures { Comes (λ full. levelled_text (operand_of full operands.entry) first.now wanted ++ last_operator (operand_of full operands.entry) expr.now) (sums_weight operands.entry (nodes expr.now)) result }
{
    Split {
        first: Piece::Node(Node::Sum(SumPiece::Expr(first, wanted), operands)),
        second: Piece::Leaf(Leaf::Bytes(b"")),
        rest: link_piece(expr, operands),
    }
}

/// `a += b`
fn assigned_apart<'a>(
    target: &'a Expr,
    op: Option<BinOp>,
    value: &'a Expr,
    operands: Operands<'a>,
) -> Split<'a>
    ensures { AsLayer operands.entry (layer.Assign target.now op value.now) result }
{
    Split {
        first: Piece::Node(Node::Sum(SumPiece::Expr(target, 0), operands)),
        second: Piece::Leaf(Leaf::Bytes(b"")),
        rest: Piece::Node(Node::Sum(SumPiece::Behind(assigned_mark(op), value, 1), operands)),
    }
}

/// `a ? b : c`
fn choice_apart<'a>(
    test: &'a Expr,
    then: &'a Expr,
    otherwise: &'a Expr,
    operands: Operands<'a>,
) -> Split<'a>
    ensures { AsLayer operands.entry (layer.Choose test.now then.now otherwise.now) result }
{
    Split {
        first: Piece::Node(Node::Sum(SumPiece::Expr(test, 3), operands)),
        second: Piece::Node(Node::Sum(SumPiece::Behind(b"?", then, 0), operands)),
        rest: Piece::Node(Node::Sum(SumPiece::Behind(b":", otherwise, 2), operands)),
    }
}

/// An expression in parentheses.
fn closed_apart<'a>(expr: &'a Expr, operands: Operands<'a>) -> Split<'a>
    ensures { Apart (node.Sum (sums.Closed expr.entry) operands.entry) result }
{
    Split {
        first: Piece::Leaf(Leaf::Bytes(b"(")),
        second: Piece::Node(Node::Sum(SumPiece::Bare(expr), operands)),
        rest: Piece::Leaf(Leaf::Bytes(b")")),
    }
}

/// ` + b`
fn behind_apart<'a>(mark: &'a [u8], expr: &'a Expr, wanted: u8, operands: Operands<'a>) -> Split<'a>
    ensures { Apart (node.Sum (sums.Behind mark.entry expr.entry wanted) operands.entry) result }
{
    Split {
        first: Piece::Leaf(Leaf::Operator(mark)),
        second: Piece::Leaf(Leaf::Bytes(b"")),
        rest: Piece::Node(Node::Sum(SumPiece::Expr(expr, wanted), operands)),
    }
}

/// `e]`
fn indexed_apart<'a>(expr: &'a Expr, operands: Operands<'a>) -> Split<'a>
    ensures { Apart (node.Sum (sums.Indexed expr.entry) operands.entry) result }
{
    Split {
        first: Piece::Leaf(Leaf::Bytes(b"")),
        second: Piece::Node(Node::Sum(SumPiece::Expr(expr, 0), operands)),
        rest: Piece::Leaf(Leaf::Bytes(b"]")),
    }
}

/// The operand of this number, from 0.
fn operand_piece<'a>(number: u32, operands: Operands<'a>) -> Piece<'a>
    ensures text { (full : Bool) → piece_text full result ≡ operand_of full operands.entry number }
    ensures weight { piece_weight result ≤ words_weight (words_of (map view_word operands.entry.words.now)) + owed_weight operands.entry.owed.now }
{
    let n = number as usize;
    if n >= operands.words.len() {
        return Piece::Leaf(Leaf::Bytes(b""));
    }
    let (before, _) = operands.words.split_at(n);
    let owed = owed_behind_words(operands.owed, before);
    let word = &operands.words[n];
    Piece::Node(Node::Word(WordPiece::Parts(word.parts.as_slice(), Context::Double, owed)))
}
