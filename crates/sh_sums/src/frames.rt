//! What stands open while an expression is evaluated.

ghost use Rattle.std.specs.Prelude.{◌≡◌, [], ◌∷◌, OnOk};
ghost use Rattle.arith64.specs.Frames.{Pops};

use span_text::{BinOp, Expr, Memory, UnOp};
use std::alloc::Global;
use std::marker::Model;

/// What goes on with the value of what is evaluated in front of it.
#[derive(Clone, Copy)]
pub(crate) enum Frame<'e> {
    /// An operator before its operand.
    Unary(UnOp),
    /// `+ b` behind the left operand.
    Right(BinOp, &'e Expr),
    /// `1 +` before the right operand, whose left one has this value.
    Left(BinOp, i64),
    /// `&& b`
    And(&'e Expr),
    /// `|| b`
    Or(&'e Expr),
    /// The right operand of `&&` or `||`, which gives 1 or 0.
    Truth,
    /// `? b : c`
    Choose(&'e Expr, &'e Expr),
    /// `a =`, and `a +=` with the value that the variable had.
    Store(&'e [u8], Option<BinOp>, i64),
}

/// Frames, which contracts see as the list of them, the innermost first.
#[derive(Drop)]
pub(crate) struct Frames<'e> {
    cells: Vec<Frame<'e>>,
}

impl<'e> Model for Frames<'e> {
    ghost use Rattle.std.specs.Prelude.{List, reverse};
    ghost use Rattle.std.specs.Coded.{codes};
    ghost use Rattle.sh_sums.specs.declared.frames.Frame.{Frame};
    ghost use Rattle.span_text.specs.contracts.expr.Expr as exprs;

    ghost Value = { List Frame };

    ghost coded = { Prim.hlevel (codes, exprs.the_row.coded) };

    ghost view = { λ f. reverse f.cells.items };
}

impl<'e> Frames<'e> {
    pub(crate) fn new(alloc: Global) -> Frames<'e>
        ensures { result ≡ [] }
    {
        Frames {
            cells: Vec::new(alloc),
        }
    }

    /// Takes the innermost frame out.
    pub(crate) fn pop(&mut self) -> Option<Frame<'e>>
        ensures { Pops self.old self.new result }
    {
        self.cells.pop()
    }

    pub(crate) fn push(&mut self, frame: Frame<'e>) -> Result<(), Memory>
        ensures { OnOk result (self.new ≡ frame.entry ∷ self.old) }
    {
        self.cells.push(frame)?;
        Ok(())
    }
}

/// What comes next.
#[derive(Clone, Copy)]
pub(crate) enum Turn<'e> {
    /// An expression is evaluated.
    Down(&'e Expr),
    /// A value is there.
    Up(i64),
    /// Shells don't agree on a value.
    Unclear,
}
