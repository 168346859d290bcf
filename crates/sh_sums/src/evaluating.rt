//! The value of an expression.

ghost use Rattle.std.specs.Prelude.{◌≡◌, ℕ, List, ◌+◌, ◌*◌, ◌<◌, ◌≤◌, ◌∷◌, ℤ, ◌-ℤ◌, Option, None, IfOk, OnOk, if◌then◌else◌};
ghost use Rattle.std.specs.Int.{w64, int_wrap};
ghost use Rattle.span_text.specs.Expression.{nodes};
ghost use Rattle.arith64.specs.Values.{truth, value_of};
ghost use Rattle.shell_world.specs.Texts.{nth};
ghost use Rattle.sh_meaning.specs.Arithmetic as sums;
ghost use Rattle.sh_meaning.specs.Arithmetic.{evaluated};
ghost use Rattle.sh_meaning.specs.Variables.{Variables};
ghost use Rattle.sh_sums.specs.declared.frames.Frame.{Frame};
ghost use Rattle.sh_sums.specs.Frames.{frame_weight, frames_weight, meant, resumed, stored_in, sum_of, target_name, turn_weight, unwound};
ghost use Rattle.sh_sums.specs.declared.frames.Frame.TheVariants as open_frame;
ghost use Rattle.sh_sums.specs.declared.frames.Turn.TheVariants as turns;

use crate::assigning::assign;
use crate::frames::{Frame, Frames, Turn};
use crate::numbers::number_text;
use arith64::{apply, constant};
use sh_meaning::Variable;
use shell_world::TextMap;
use span_text::{BinOp, Expr, Memory, UnOp};
use std::alloc::Global;

fn is_true(number: i64) -> bool
    ensures { result ≡ sums.is_true number }
{
    number != 0
}

fn truth(is: bool) -> i64
    ensures { result ≡ truth is }
{
    i64::from(is)
}

/// A difference, modulo 2^64.
fn difference(a: i64, b: i64) -> i64
    ensures { result ≡ int_wrap w64 (a -ℤ b) }
{
    a.wrapping_sub(b)
}

fn unary_value(op: UnOp, number: i64) -> i64
    ensures { result ≡ sums.unary_value op number }
{
    match op {
        UnOp::Plus => number,
        UnOp::Minus => difference(0, number),
        UnOp::Not => truth(number == 0),
        UnOp::Complement => !number,
    }
}

fn binary_value(op: BinOp, a: i64, b: i64) -> Option<i64>
    ensures { result ≡ sums.ok (value_of op a b) }
{
    match apply(op, a, b) {
        Ok(number) => Some(number),
        Err(_) => None,
    }
}

/// The number that a variable holds.
fn number_in(name: &[u8], vars: &TextMap<Variable>) -> Option<i64>
    ensures { result ≡ sums.number_in name.now vars.now }
{
    match vars.get(name) {
        None => None,
        Some(variable) => match &variable.value {
            None => None,
            Some(text) => constant(text.bytes()),
        },
    }
}

/// The number that the operand of this number gave.
fn number_at(k: u32, numbers: &[i64]) -> Option<i64>
    ensures { result ≡ nth k numbers.now }
{
    numbers.get(k as usize).copied()
}

/// The value that the variable of an assignment has before it, which is asked for where there is an operator.
fn old_value(op: Option<BinOp>, name: &[u8], vars: &TextMap<Variable>) -> Option<i64>
    ensures { sum_of result vars.now ≡ sums.old_value op name.now vars.now }
{
    match op {
        None => Some(0),
        Some(_) => number_in(name, vars),
    }
}

/// What an assignment stores.
fn applied(op: Option<BinOp>, old: i64, number: i64) -> Option<i64>
    ensures { (vs : Variables) → sum_of result vs ≡ sums.applied op old (number, vs) }
{
    match op {
        None => Some(number),
        Some(op) => binary_value(op, old, number),
    }
}

#[tactic(auto, using(crate::proofs::Turns::unwound_none))]
fn turn_of(number: Option<i64>) -> Turn<'static>
    ensures meant { (fs : List Frame) (ns : List ℤ) (vs : Variables) → meant result fs ns vs ≡ unwound fs ns (sum_of number vs) }
    ensures weight { turn_weight result ≡ 0 }
{
    match number {
        None => Turn::Unclear,
        Some(number) => Turn::Up(number),
    }
}

/// An expression is evaluated, and its value goes to a frame.
fn inside<'e>(frames: &mut Frames<'e>, frame: Frame<'e>, next: &'e Expr) -> Result<Turn<'e>, Memory>
    ensures turn { IfOk result (λ turn. turn ≡ turns.Down next.entry) }
    ensures frames { OnOk result (frames.new ≡ frame.entry ∷ frames.old) }
{
    frames.push(frame)?;
    Ok(Turn::Down(next))
}

/// `a = b`, `a += b`: the old value is read before `b` is evaluated. Only a name is assigned to.
#[tactic(auto, using(crate::proofs::Turns::unwound_none))]
fn into_assign<'e>(
    target: &'e Expr,
    op: Option<BinOp>,
    next: &'e Expr,
    vars: &TextMap<Variable>,
    frames: &mut Frames<'e>,
) -> Result<Turn<'e>, Memory>
    ensures meant { IfOk result (λ turn. (ns : List ℤ) → meant turn frames.new ns vars.now ≡ unwound frames.old ns (sums.assigns (target_name target.now) op (evaluated next.now ns) vars.now)) }
    ensures weight { IfOk result (λ turn. frames_weight frames.new + turn_weight turn ≤ frames_weight frames.old + (3 * nodes next.now + 1)) }
{
    let Expr::Name(name) = target else {
        return Ok(Turn::Unclear);
    };
    match old_value(op, name.bytes(), vars) {
        None => Ok(Turn::Unclear),
        Some(old) => inside(frames, Frame::Store(name.bytes(), op, old), next),
    }
}

/// The turn behind the one in which an expression is evaluated.
fn down<'e>(
    expr: &'e Expr,
    numbers: &[i64],
    vars: &TextMap<Variable>,
    frames: &mut Frames<'e>,
) -> Result<Turn<'e>, Memory>
    ensures meant { IfOk result (λ turn. meant turn frames.new numbers.now vars.now ≡ unwound frames.old numbers.now (evaluated expr.now numbers.now vars.now)) }
    ensures weight { IfOk result (λ turn. frames_weight frames.new + turn_weight turn < frames_weight frames.old + 3 * nodes expr.now) }
{
    match expr {
        Expr::Constant(number) => Ok(Turn::Up(*number)),
        Expr::Name(name) => Ok(turn_of(number_in(name.bytes(), vars))),
        Expr::Operand(k) => Ok(turn_of(number_at(*k, numbers))),
        Expr::Member(_, _) => Ok(Turn::Unclear),
        Expr::Step(_, _) => Ok(Turn::Unclear),
        Expr::Comma(_, _) => Ok(Turn::Unclear),
        Expr::Unary(op, a) => inside(frames, Frame::Unary(*op), a.get()),
        Expr::Binary(op, a, b) => inside(frames, Frame::Right(*op, b.get()), a.get()),
        Expr::And(a, b) => inside(frames, Frame::And(b.get()), a.get()),
        Expr::Or(a, b) => inside(frames, Frame::Or(b.get()), a.get()),
        Expr::Choose(a, b, c) => inside(frames, Frame::Choose(b.get(), c.get()), a.get()),
        Expr::Assign(a, op, b) => into_assign(a.get(), *op, b.get(), vars, frames),
    }
}

/// The right operand of `&&` is evaluated where the left one isn't 0.
fn into_and<'e>(left: i64, next: &'e Expr, frames: &mut Frames<'e>) -> Result<Turn<'e>, Memory>
    ensures meant { IfOk result (λ turn. (ns : List ℤ) (vs : Variables) → meant turn frames.new ns vs ≡ unwound frames.old ns (resumed (open_frame.And next.entry) ns (left, vs))) }
    ensures weight { IfOk result (λ turn. frames_weight frames.new + turn_weight turn < frames_weight frames.old + (3 * nodes next.now + 2)) }
{
    if !is_true(left) {
        return Ok(Turn::Up(0));
    }
    inside(frames, Frame::Truth, next)
}

/// The right operand of `||` is evaluated where the left one is 0.
fn into_or<'e>(left: i64, next: &'e Expr, frames: &mut Frames<'e>) -> Result<Turn<'e>, Memory>
    ensures meant { IfOk result (λ turn. (ns : List ℤ) (vs : Variables) → meant turn frames.new ns vs ≡ unwound frames.old ns (resumed (open_frame.Or next.entry) ns (left, vs))) }
    ensures weight { IfOk result (λ turn. frames_weight frames.new + turn_weight turn < frames_weight frames.old + (3 * nodes next.now + 2)) }
{
    if is_true(left) {
        return Ok(Turn::Up(1));
    }
    inside(frames, Frame::Truth, next)
}

fn into_right<'e>(
    op: BinOp,
    left: i64,
    next: &'e Expr,
    frames: &mut Frames<'e>,
) -> Result<Turn<'e>, Memory>
    ensures meant { IfOk result (λ turn. (ns : List ℤ) (vs : Variables) → meant turn frames.new ns vs ≡ unwound frames.old ns (resumed (open_frame.Right op next.entry) ns (left, vs))) }
    ensures weight { IfOk result (λ turn. frames_weight frames.new + turn_weight turn < frames_weight frames.old + (3 * nodes next.now + 2)) }
{
    inside(frames, Frame::Left(op, left), next)
}

/// The second or the third operand of `?:`.
fn chosen<'e>(test: i64, second: &'e Expr, third: &'e Expr) -> &'e Expr
    ensures { result.now ≡ (if sums.is_true test then second.now else third.now) }
{
    if is_true(test) { second } else { third }
}

fn into_chosen<'e>(test: i64, second: &'e Expr, third: &'e Expr) -> Turn<'e>
    ensures meant { (fs : List Frame) (ns : List ℤ) (vs : Variables) → meant result fs ns vs ≡ unwound fs ns (resumed (open_frame.Choose second.entry third.entry) ns (test, vs)) }
    ensures weight { turn_weight result < 3 * nodes second.now + 3 * nodes third.now + 1 }
{
    Turn::Down(chosen(test, second, third))
}

/// Stores what an assignment gives, and gives it.
#[tactic(auto, using(crate::proofs::Turns::unwound_none))]
fn store(
    alloc: Global,
    name: &[u8],
    number: Option<i64>,
    vars: &mut TextMap<Variable>,
) -> Result<Turn<'static>, Memory>
    ensures meant { IfOk result (λ turn. (fs : List Frame) (ns : List ℤ) → meant turn fs ns vars.new ≡ unwound fs ns (stored_in name.now (sum_of number vars.old))) }
    ensures weight { IfOk result (λ turn. turn_weight turn ≡ 0) }
{
    let Some(number) = number else {
        return Ok(Turn::Unclear);
    };
    let text = number_text(alloc, number)?;
    assign(alloc, name, text, vars)?;
    Ok(Turn::Up(number))
}

/// The turn behind the one in which a frame gets its value.
fn up<'e>(
    alloc: Global,
    frame: Frame<'e>,
    number: i64,
    vars: &mut TextMap<Variable>,
    frames: &mut Frames<'e>,
) -> Result<Turn<'e>, Memory>
    ensures meant { IfOk result (λ turn. (ns : List ℤ) → meant turn frames.new ns vars.new ≡ unwound frames.old ns (resumed frame.entry ns (number, vars.old))) }
    ensures weight { IfOk result (λ turn. frames_weight frames.new + turn_weight turn < frames_weight frames.old + frame_weight frame.entry) }
{
    match frame {
        Frame::Unary(op) => Ok(Turn::Up(unary_value(op, number))),
        Frame::Right(op, b) => into_right(op, number, b, frames),
        Frame::Left(op, a) => Ok(turn_of(binary_value(op, a, number))),
        Frame::And(b) => into_and(number, b, frames),
        Frame::Or(b) => into_or(number, b, frames),
        Frame::Truth => Ok(Turn::Up(truth(is_true(number)))),
        Frame::Choose(b, c) => Ok(into_chosen(number, b, c)),
        Frame::Store(name, op, old) => store(alloc, name, applied(op, old, number), vars),
    }
}

/// The value of an expression, and the variables behind it (POSIX XCU 2.6.4): from left to right, where `&&`, `||` and
/// `?:` skip what isn't taken, and `numbers` are those that its operands gave. None is what shells don't agree on: a
/// division by 0, a shift by a count below 0 or above 63, a name without a value or whose value is no constant, and
/// operators that sh doesn't have; the variables may have changed then.
pub fn evaluate(
    alloc: Global,
    expr: &Expr,
    numbers: &[i64],
    vars: &mut TextMap<Variable>,
) -> Result<Option<i64>, Memory>
    ensures { IfOk result (λ number. sum_of number vars.new ≡ evaluated expr.now numbers.now vars.old) }
{
    let mut frames = Frames::new(alloc);
    let mut turn = Turn::Down(expr);
    'turns: loop {
        match turn {
            Turn::Unclear => return Ok(None),
            Turn::Down(next) => turn = down(next, numbers, vars, &mut frames)?,
            Turn::Up(number) => match frames.pop() {
                None => return Ok(Some(number)),
                Some(frame) => turn = up(alloc, frame, number, vars, &mut frames)?,
            },
        }
    }
}
