//! Arithmetic expansions (POSIX 2.6.4).

ghost use Rattle.std.specs.Prelude.{◌≡◌, [], Some};
ghost use Rattle.sh_grammar.specs.Bytes.{Text as Bytes};
ghost use Rattle.text_grammar.specs.Values.{stepped};
ghost use Rattle.sh_grammar.specs.Table as table;
ghost use Rattle.sh_grammar.specs.Steps as steps;
ghost use Rattle.sh_grammar.specs.Sums as sums;
ghost use Rattle.sh_grammar.specs.Steps.{Known};
ghost use Rattle.sh_parser.specs.Answers.{Gives};
ghost use Rattle.sh_parser.specs.Views as views_of;
ghost use Rattle.sh_parser.specs.Views.{state};

use crate::fault::Stop;
use crate::notes::Notes;
use crate::open_sum::Sum;
use crate::runs::is_bare_dollar;
use arith64::{ExprFault, read_expr};
use span_text::{BinOp, Expr, Span, Text};
use std::alloc::Global;

fn is_sum_byte(b: u8, after: &[u8]) -> bool
    ensures { result ≡ sums.is_sum_byte b after.now }
{
    !(b == b'(' || b == b')' || b == 0 || b == b'$') || (b == b'$' && is_bare_dollar(after))
}

/// What follows the bytes up to a parenthesis or an expansion.
#[tactic(auto, unfolding(sh_grammar::specs::Sums::sum_run))]
fn sum_end(bytes: &[u8]) -> &[u8]
    ensures { result.now ≡ (sums.sum_run bytes.now).1 }
{
    let mut rest = bytes;
    'bytes: loop {
        match rest {
            [] => return rest,
            [b, after @ ..] => if is_sum_byte(*b, after) {
                rest = after;
            } else {
                return rest;
            },
        }
    }
}

/// The bytes up to a parenthesis or an expansion.
#[tactic(auto, unfolding(sh_grammar::specs::Sums::sum_run))]
fn sum_text(alloc: Global, bytes: &[u8]) -> Result<Text, Stop>
    ensures { Gives (λ x. x) result (Some (sums.sum_run bytes.now).0) }
{
    let mut text = Vec::new(alloc);
    let mut rest = bytes;
    'bytes: loop {
        match rest {
            [] => return Ok(Text::from_vec(text)),
            [b, after @ ..] => {
                if !is_sum_byte(*b, after) {
                    return Ok(Text::from_vec(text));
                }
                text.push(*b)?;
                rest = after;
            },
        }
    }
}

/// Bytes of the innermost that stands open.
#[tactic(auto, using(crate::proofs::Opened::last_first, crate::proofs::Aparts::apart_more))]
pub fn append(notes: &mut Notes, text: &[u8]) -> Result<(), Stop>
    ensures { (b : Bytes) → Gives (λ x. state b notes.new) result (Some (record (state b notes.old) { sums = sums.with_bytes text.now (state b notes.old).sums })) }
{
    let Some(sum) = notes.sums.pop() else {
        return Ok(());
    };
    let Sum {
        text: mut all,
        operands,
    } = sum;
    all.append(text)?;
    notes.sums.push(Sum {
        text: all,
        operands,
    })?;
    Ok(())
}

/// An operand is a byte, `$`, with a span of its own.
#[tactic(auto, using(crate::proofs::Opened::last_first, crate::proofs::Aparts::apart_last))]
pub fn append_operand(notes: &mut Notes) -> Result<(), Stop>
    ensures { (b : Bytes) → Gives (λ x. state b notes.new) result (Some (record (state b notes.old) { sums = sums.with_operand (state b notes.old).sums })) }
{
    let Some(sum) = notes.sums.pop() else {
        return Ok(());
    };
    let Sum {
        mut text,
        mut operands,
    } = sum;
    let from = text.bytes().len();
    if from >= 0xffff_ffff {
        return Err(Stop::Memory);
    }
    let from = from as u32;
    text.append(b"$")?;
    operands.push(Span { from, to: from + 1 })?;
    notes.sums.push(Sum { text, operands })?;
    Ok(())
}

#[tactic(auto, unfolding(sh_grammar::specs::Steps::run_step))]
pub fn sum_bytes<'a>(alloc: Global, bytes: &'a [u8], notes: &mut Notes) -> Result<&'a [u8], Stop>
    ensures { (k : Known) → Gives (λ x. ([], state x.now notes.new)) result (stepped (steps.run_step k table.sum_bytes (state bytes.now notes.old))) }
{
    let text = sum_text(alloc, bytes)?;
    if text.bytes().is_empty() {
        return Err(Stop::Bad);
    }
    append(notes, text.bytes())?;
    Ok(sum_end(bytes))
}

/// sh has no `**`, no `++` and `--`, no comma and no members.
#[cycle(is_sh_expr)]
#[tactic(auto, using(crate::proofs::ShForms::constant_sh, crate::proofs::ShForms::name_sh, crate::proofs::ShForms::operand_sh, crate::proofs::ShForms::member_sh, crate::proofs::ShForms::unary_sh, crate::proofs::ShForms::step_sh, crate::proofs::ShForms::binary_sh, crate::proofs::ShForms::and_sh, crate::proofs::ShForms::or_sh, crate::proofs::ShForms::assign_sh, crate::proofs::ShForms::comma_sh, crate::proofs::ShForms::choose_sh))]
fn is_sh(expr: &Expr) -> bool
    ensures { result ≡ sums.is_sh_expr expr.now }
{
    match expr {
        Expr::Constant(_) => true,
        Expr::Name(_) => true,
        Expr::Operand(_) => true,
        Expr::Member(_, _) => false,
        Expr::Unary(_, a) => is_sh(a.get()),
        Expr::Step(_, _) => false,
        Expr::Binary(op, a, b) => *op != BinOp::Power && is_sh(a.get()) && is_sh(b.get()),
        Expr::And(a, b) => is_sh(a.get()) && is_sh(b.get()),
        Expr::Or(a, b) => is_sh(a.get()) && is_sh(b.get()),
        Expr::Assign(a, _, b) => is_sh(a.get()) && is_sh(b.get()),
        Expr::Comma(_, _) => false,
        Expr::Choose(a, b, c) => is_sh(a.get()) && is_sh(b.get()) && is_sh(c.get()),
    }
}

/// The expression of the innermost that stands open, which is closed.
#[tactic(auto, using(crate::proofs::Spelt::spelled_sh, crate::proofs::Spelt::spelled_else, crate::proofs::Spelt::unspelled, crate::proofs::Opened::last_first))]
pub fn close(alloc: Global, notes: &mut Notes) -> Result<Expr, Stop>
    ensures { (b : Bytes) → Gives (λ x. (x, state b notes.new)) result (views_of.closed (state b notes.old)) }
{
    let Some(sum) = notes.sums.pop() else {
        return Err(Stop::Bad);
    };
    match read_expr(alloc, sum.text.bytes(), sum.operands.as_slice()) {
        Err(ExprFault::Memory) => Err(Stop::Memory),
        Err(ExprFault::BadExpr(_)) => Err(Stop::Bad),
        Ok(expr) => if is_sh(&expr) {
            Ok(expr)
        } else {
            Err(Stop::Bad)
        },
    }
}
