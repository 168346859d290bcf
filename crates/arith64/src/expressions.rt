//! Expressions in a text.

ghost use Rattle.std.specs.Prelude.{◌≡◌, ℕ, ◌+◌, ◌<◌, ◌≤◌, ◌^◌, length, IfOk, IfErr, if◌then◌else◌};
ghost use Rattle.span_text.specs.declared.expr.Expr.{Expr};
ghost use Rattle.span_text.specs.ExprTokens as cells;
ghost use Rattle.span_text.specs.Expressions.{IsSpelled, Apart, IsFirstBad};
ghost use Rattle.arith64.specs.Faults as faults;
ghost use Rattle.arith64.specs.Faults.{IfBadExpr};
ghost use Rattle.arith64.specs.Parsing.{Gives};
ghost use Rattle.arith64.specs.Reader as reading;

use crate::fault::{ExprFault, Stop};
use crate::reader::{Reader, at_start, read_byte, read_end, read_operand};
use span_text::{Expr, Span};
use std::alloc::Global;

/// Takes the byte at an offset, with the spans that end behind it: an expansion is taken at its first byte.
#[tactic(auto, using(crate::proofs::Loop::one_cell))]
fn read_at(
    alloc: Global,
    reader: Reader,
    at: usize,
    byte: u8,
    number: u32,
    spans: &[Span],
) -> Result<Reader, Stop>
    ensures { Gives result (reading.read_cells reader (cells.cell_at at number spans.now byte)) }
{
    match spans {
        [] => read_byte(alloc, reader, byte),
        [span, ..] => {
            if at < span.from as usize {
                read_byte(alloc, reader, byte)
            } else if at == span.from as usize {
                read_operand(alloc, reader, number)
            } else {
                Ok(reader)
            }
        }
    }
}

/// The spans that don't end behind the byte at this offset, and the number of the first.
fn spans_behind(at: usize, number: u32, spans: &[Span]) -> (u32, &[Span])
    requires counted { number ≤ at }
    requires within { at + 1 < 2 ^ 64 }
    ensures number { result.0 ≡ (if cells.is_last at spans.now then number + 1 else number) }
    ensures spans { result.1.now ≡ (if cells.is_last at spans.now then cells.without_first spans.now else spans.now) }
{
    match spans {
        [] => (number, spans),
        [span, rest @ ..] => {
            if at + 1 == span.to as usize {
                (number + 1, rest)
            } else {
                (number, spans)
            }
        }
    }
}

fn fault_at(stop: Stop, at: usize) -> ExprFault
    ensures { result ≡ faults.fault_at stop at }
{
    match stop {
        Stop::Bad => ExprFault::BadExpr(at),
        Stop::Memory => ExprFault::Memory,
    }
}

/// The expression that a text spells (Bash manual, section 6.5), where each span covers an expansion that stands as
/// one operand.
///
/// `BadExpr(at)` comes exactly where the text spells no expression. `at` is the least offset, inside of no span, at
/// which no spelled text has the same bytes and spans before it and this byte there (as the first of a span exactly
/// where it is one here), or the text's length where there is no such offset.
///
/// Nothing here calls itself: what stands open is kept on the heap, however long or deep the text is.
pub fn read_expr(alloc: Global, text: &[u8], operands: &[Span]) -> Result<Expr, ExprFault>
    requires { Apart 0 (length text.now) operands.now }
    // What is read is spelled so, and a text spells at most one expression (`one_expression`).
    ensures read { IfOk result (λ e. IsSpelled text.now operands.now e) }
    // A text is refused only if it spells none.
    ensures refused { IfErr result (λ fault. IfBadExpr fault (λ at. (e : Expr) → IsSpelled text.now operands.now e → ⊥)) }
    ensures place { IfErr result (λ fault. IfBadExpr fault (λ at. IsFirstBad text.now operands.now at)) }
{
    let mut reader = at_start(alloc);
    let mut spans = operands;
    let mut number: u32 = 0;
    for (at, byte) in text.iter().enumerate() {
        match read_at(alloc, reader, at, *byte, number, spans) {
            Ok(next) => reader = next,
            Err(stop) => return Err(fault_at(stop, at)),
        }
        let (next_number, rest) = spans_behind(at, number, spans);
        number = next_number;
        spans = rest;
    }
    let at = text.len();
    match read_end(alloc, reader) {
        Ok(expression) => Ok(expression),
        Err(stop) => Err(fault_at(stop, at)),
    }
}
