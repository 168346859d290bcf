//! What stands open and what came, put together.

ghost use Rattle.std.specs.Prelude.{◌≡◌, Bool, true, false, List, [], ◌∷◌, Option, Some, None, IfOk};
ghost use Rattle.span_text.specs.Expressions as spelling;
ghost use Rattle.arith64.specs.Parsing as parsing;
ghost use Rattle.arith64.specs.Parsing.{PopsBinding};

use crate::frames::{Frame, Frames};
use crate::levels::{ASSIGNMENT, CONDITIONAL, level};
use span_text::{Boxed, Expr, Infix, Memory};
use std::alloc::Global;

fn joined(op: Infix, a: Boxed<Expr>, b: Boxed<Expr>) -> Expr
    ensures { result ≡ spelling.joined op a b }
{
    match op {
        Infix::Plain(op) => Expr::Binary(op, a, b),
        Infix::And => Expr::And(a, b),
        Infix::Or => Expr::Or(a, b),
        Infix::Comma => Expr::Comma(a, b),
    }
}

/// The expression of a frame that waits for its last operand; or the operand itself, where the frame doesn't.
fn built(alloc: Global, frame: Frame, operand: Boxed<Expr>) -> Result<Boxed<Expr>, Memory>
    ensures { IfOk result (λ e. e ≡ parsing.built frame operand) }
{
    match frame {
        Frame::Prefix(op) => Boxed::new(alloc, Expr::Unary(op, operand)),
        Frame::Left(op, a) => Boxed::new(alloc, joined(op, a, operand)),
        Frame::Otherwise(a, b) => Boxed::new(alloc, Expr::Choose(a, b, operand)),
        Frame::Target(target, op) => Boxed::new(alloc, Expr::Assign(target, op, operand)),
        Frame::Group | Frame::Index(..) | Frame::Test(_) => Ok(operand),
    }
}

/// Whether the frame takes its last operand before an operator of this level does.
fn binds(before: u32, frame: &Frame) -> bool
    ensures { result ≡ parsing.binds before frame.now }
{
    match frame {
        Frame::Prefix(_) => true,
        Frame::Left(op, _) => before <= level(*op),
        Frame::Otherwise(..) => before <= CONDITIONAL,
        Frame::Target(..) => before <= ASSIGNMENT,
        Frame::Group | Frame::Index(..) | Frame::Test(_) => false,
    }
}

fn is_top_bound(before: u32, frames: &Frames) -> bool
    ensures { result ≡ parsing.binds_top before frames.now }
{
    match frames.top() {
        None => false,
        Some(frame) => binds(before, frame),
    }
}

/// The innermost frame, if it binds before an operator of this level.
fn pop_bound(before: u32, frames: &mut Frames) -> Option<Frame>
    ensures { PopsBinding before frames.old frames.new result }
{
    if is_top_bound(before, frames) {
        frames.pop()
    } else {
        None
    }
}

/// Puts together what binds before an operator of this level.
pub(crate) fn reduce(
    alloc: Global,
    before: u32,
    frames: Frames,
    operand: Boxed<Expr>,
) -> Result<(Frames, Boxed<Expr>), Memory>
    ensures { IfOk result (λ x. x ≡ parsing.reduce before frames operand) }
{
    let mut frames = frames;
    let mut operand = operand;
    'frames: loop {
        match pop_bound(before, &mut frames) {
            Some(frame) => operand = built(alloc, frame, operand)?,
            None => return Ok((frames, operand)),
        }
    }
}
