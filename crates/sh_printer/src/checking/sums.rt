//! Arithmetic expressions, as pieces that are checked (POSIX 2.6.4). Where an expression is looser than what its place asks
//! for it is printed in parentheses, which are a level of nesting.

ghost use Rattle.std.specs.Prelude.{◌≡◌, ◌≤◌, ◌<◌, ◌+◌, ◌*◌, ◌&&◌, ◌||◌, ◌==◌, nat_le, ℕ, Some};
ghost use Rattle.span_text.specs.Expressions.{level};
ghost use Rattle.span_text.specs.declared.sign.Infix.TheVariants.{Plain};
ghost use Rattle.span_text.specs.Expression.{nodes};
ghost use Rattle.sh_printer.specs.SumChecks.{Check, Counts, behind, SumSplits, fits, is_constant, is_variable, known, last_fits, power_fits, sum_counts, sum_rank};
ghost use Rattle.sh_printer.specs.declared.checking.checks.SumNode.TheVariants as checks;
ghost use Rattle.sh_printing.specs.Spellable.{assigns, is_power};

use crate::checking::checks::{SumCheck, SumChecks, SumNode};
use crate::checking::names::LIMIT;
use crate::marks::{binary_level, left_level};
use crate::sums::{below, level, links};
use span_text::{BinOp, Expr, is_name};

/// The pieces of an expression.
pub fn sum_apart<'a>(node: SumNode<'a>, depth: usize) -> SumChecks<'a>
    ensures { SumSplits node.entry depth result }
{
    match node {
        SumNode::Expr(expr, wanted) => only(expr_check(expr, wanted, depth)),
        SumNode::Bare(expr) => bare_apart(expr, depth),
        SumNode::Links(expr, count, bits) => links_apart(expr, count, bits, depth),
    }
}

fn only(sum: SumCheck<'_>) -> SumChecks<'_>
    ensures { Counts (λ check. sum_counts check sum.entry) (sum_rank sum.entry + 1) result }
{
    SumChecks {
        first: SumCheck::Known(true),
        second: SumCheck::Known(true),
        rest: sum,
    }
}

/// Whether an expression of this level stands without parentheses. What stands for itself always does.
fn stands_bare(own: u8, wanted: u8) -> bool
    ensures { result ≡ ((own == 15) || nat_le wanted own) }
{
    own == 15 || wanted <= own
}

/// An expression, one level deeper where it is looser than what is asked for.
fn expr_check<'a>(expr: &'a Expr, wanted: u8, depth: usize) -> SumCheck<'a>
    ensures counts { (check : Check) (n : ℕ) → sum_counts check result n ≡ fits check expr.now wanted depth n }
    ensures rank { sum_rank result ≤ 200 * nodes expr.now + 100 }
{
    if stands_bare(level(expr), wanted) {
        return SumCheck::Node(SumNode::Bare(expr), depth);
    }
    if depth < LIMIT {
        return SumCheck::Node(SumNode::Bare(expr), depth + 1);
    }
    SumCheck::Known(false)
}

/// The first expression of a chain, and the operators behind it.
fn bare_apart<'a>(expr: &'a Expr, depth: usize) -> SumChecks<'a>
    ensures { SumSplits (checks.Bare expr.entry) depth result }
{
    let count = links(expr);
    if count == 0 {
        return end_apart(expr, depth);
    }
    SumChecks {
        first: SumCheck::Known(true),
        second: SumCheck::Node(SumNode::Bare(below(expr, count)), depth),
        rest: SumCheck::Node(SumNode::Links(expr, count, 64), depth),
    }
}

/// The operators of a chain by halves, so that a long chain needs no deep stack.
fn links_apart<'a>(expr: &'a Expr, count: usize, bits: u8, depth: usize) -> SumChecks<'a>
    ensures { SumSplits (checks.Links expr.entry count bits) depth result }
{
    if count == 0 {
        return only(SumCheck::Known(true));
    }
    if count == 1 {
        return only(link_check(expr, depth));
    }
    if bits == 0 {
        return only(link_check(expr, depth));
    }
    let half = count / 2;
    let front = SumNode::Links(below(expr, half), count - half, bits - 1);
    SumChecks {
        first: SumCheck::Known(true),
        second: SumCheck::Node(front, depth),
        rest: SumCheck::Node(SumNode::Links(expr, half, bits - 1), depth),
    }
}

/// The second operand of an operator between operands. sh has neither `**` nor the comma.
fn link_check<'a>(expr: &'a Expr, depth: usize) -> SumCheck<'a>
    ensures counts { (check : Check) (n : ℕ) → sum_counts check result n ≡ last_fits check expr.now depth n }
    ensures rank { sum_rank result < 200 * nodes expr.now }
{
    match expr {
        Expr::Binary(op, _, b) => power_check(*op, b.get(), depth),
        Expr::And(_, b) => SumCheck::Node(SumNode::Expr(b.get(), 5), depth),
        Expr::Or(_, b) => SumCheck::Node(SumNode::Expr(b.get(), 4), depth),
        Expr::Comma(_, _) => SumCheck::Known(false),
        Expr::Constant(_) => SumCheck::Known(false),
        Expr::Name(_) => SumCheck::Known(false),
        Expr::Operand(_) => SumCheck::Known(false),
        Expr::Member(_, _) => SumCheck::Known(false),
        Expr::Unary(_, _) => SumCheck::Known(false),
        Expr::Step(_, _) => SumCheck::Known(false),
        Expr::Assign(_, _, _) => SumCheck::Known(false),
        Expr::Choose(_, _, _) => SumCheck::Known(false),
    }
}

fn is_power(op: BinOp) -> bool
    ensures { result ≡ is_power op }
{
    match op {
        BinOp::Power => true,
        BinOp::Times
        | BinOp::Divide
        | BinOp::Remainder
        | BinOp::Add
        | BinOp::Subtract
        | BinOp::ShiftLeft
        | BinOp::ShiftRight
        | BinOp::Less
        | BinOp::AtMost
        | BinOp::Greater
        | BinOp::AtLeast
        | BinOp::Equal
        | BinOp::Unequal
        | BinOp::BitAnd
        | BinOp::BitXor
        | BinOp::BitOr => false,
    }
}

fn power_check<'a>(op: BinOp, operand: &'a Expr, depth: usize) -> SumCheck<'a>
    ensures counts { (check : Check) (n : ℕ) → sum_counts check result n ≡ power_fits (is_power op) check operand.now (level (Plain op) + 1) depth n }
    ensures rank { sum_rank result ≤ 200 * nodes operand.now + 102 }
{
    if is_power(op) {
        return SumCheck::Known(false);
    }
    SumCheck::Node(SumNode::Expr(operand, binary_level(op) + 1), depth)
}

/// Whether a constant can be written: it isn't negative.
fn is_constant(value: i64) -> bool
    ensures { result ≡ is_constant value }
{
    value >= 0
}

/// Whether the expression is a variable alone.
fn is_variable(expr: &Expr) -> bool
    ensures { result ≡ is_variable expr.now }
{
    match expr {
        Expr::Name(text) => is_name(text.bytes()),
        Expr::Constant(_) => false,
        Expr::Operand(_) => false,
        Expr::Member(_, _) => false,
        Expr::Unary(_, _) => false,
        Expr::Step(_, _) => false,
        Expr::Binary(_, _, _) => false,
        Expr::And(_, _) => false,
        Expr::Or(_, _) => false,
        Expr::Comma(_, _) => false,
        Expr::Assign(_, _, _) => false,
        Expr::Choose(_, _, _) => false,
    }
}

/// Whether the operator can stand before the `=` of an assignment.
fn assigns(op: Option<BinOp>) -> bool
    ensures { result ≡ assigns op }
{
    match op {
        None => true,
        Some(op) => is_assigning(op),
    }
}

fn is_assigning(op: BinOp) -> bool
    ensures { result ≡ assigns (Some op) }
{
    match op {
        BinOp::Times => true,
        BinOp::Divide => true,
        BinOp::Remainder => true,
        BinOp::Add => true,
        BinOp::Subtract => true,
        BinOp::ShiftLeft => true,
        BinOp::ShiftRight => true,
        BinOp::BitAnd => true,
        BinOp::BitXor => true,
        BinOp::BitOr => true,
        BinOp::Power => false,
        BinOp::Less => false,
        BinOp::AtMost => false,
        BinOp::Greater => false,
        BinOp::AtLeast => false,
        BinOp::Equal => false,
        BinOp::Unequal => false,
    }
}

/// Whether there is an assignment to this by the operator.
fn assigns_to(target: &Expr, op: Option<BinOp>) -> bool
    ensures { result ≡ (is_variable target.now && assigns op) }
{
    is_variable(target) && assigns(op)
}

/// An expression by its outermost operator.
fn end_apart<'a>(expr: &'a Expr, depth: usize) -> SumChecks<'a>
    ensures { SumSplits (checks.Bare expr.entry) depth result }
{
    match expr {
        Expr::Constant(n) => only(SumCheck::Known(is_constant(*n))),
        Expr::Name(text) => only(SumCheck::Known(is_name(text.bytes()))),
        Expr::Operand(n) => only(SumCheck::Operand(*n, depth)),
        Expr::Member(_, _) => only(SumCheck::Known(false)),
        Expr::Unary(_, a) => only(SumCheck::Node(SumNode::Expr(a.get(), 14), depth)),
        Expr::Step(_, _) => only(SumCheck::Known(false)),
        Expr::Binary(op, a, _) => infix_apart(expr, a.get(), left_level(*op), depth),
        Expr::And(a, _) => infix_apart(expr, a.get(), 4, depth),
        Expr::Or(a, _) => infix_apart(expr, a.get(), 3, depth),
        Expr::Comma(_, _) => only(SumCheck::Known(false)),
        Expr::Assign(a, op, b) => assigned_apart(a.get(), *op, b.get(), depth),
        Expr::Choose(a, b, c) => choice_apart(a.get(), b.get(), c.get(), depth),
    }
}

/// An operator between operands, of which this is the first.
fn infix_apart<'a>(expr: &'a Expr, first: &'a Expr, wanted: u8, depth: usize) -> SumChecks<'a>
    requires { nodes first.now < nodes expr.now }
    ensures { Counts (λ check. behind (fits check first.now wanted depth) (last_fits check expr.now depth)) (200 * nodes expr.now + 100) result }
{
    SumChecks {
        first: SumCheck::Known(true),
        second: SumCheck::Node(SumNode::Expr(first, wanted), depth),
        rest: link_check(expr, depth),
    }
}

/// `a += b`
fn assigned_apart<'a>(
    target: &'a Expr,
    op: Option<BinOp>,
    value: &'a Expr,
    depth: usize,
) -> SumChecks<'a>
    ensures { Counts (λ check. behind (behind (known (is_variable target.now && assigns op)) (fits check target.now 0 depth)) (fits check value.now 1 depth)) (200 * (nodes target.now + nodes value.now) + 103) result }
{
    SumChecks {
        first: SumCheck::Known(assigns_to(target, op)),
        second: SumCheck::Node(SumNode::Expr(target, 0), depth),
        rest: SumCheck::Node(SumNode::Expr(value, 1), depth),
    }
}

/// `a ? b : c`
fn choice_apart<'a>(
    test: &'a Expr,
    then: &'a Expr,
    otherwise: &'a Expr,
    depth: usize,
) -> SumChecks<'a>
    ensures { Counts (λ check. behind (behind (fits check test.now 3 depth) (fits check then.now 0 depth)) (fits check otherwise.now 2 depth)) (200 * (nodes test.now + (nodes then.now + nodes otherwise.now)) + 103) result }
{
    SumChecks {
        first: SumCheck::Node(SumNode::Expr(test, 3), depth),
        second: SumCheck::Node(SumNode::Expr(then, 0), depth),
        rest: SumCheck::Node(SumNode::Expr(otherwise, 2), depth),
    }
}
