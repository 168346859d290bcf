//! What stands open in front of the place where reading is.

ghost use Rattle.std.specs.Prelude.{◌≡◌, [], ◌∷◌, IfSome, IfNone, OnOk};
ghost use Rattle.arith64.specs.Frames.{IsTop, Pops};

use span_text::{BinOp, Boxed, Expr, Infix, Memory, StepOp, Text, UnOp};
use std::alloc::Global;
use std::marker::Model;

/// What was begun, and goes on with the next operand.
#[derive(Drop)]
pub(crate) enum Frame {
    /// `(`
    Group,
    /// `a[`, with the `++` or `--` before it.
    Index(Text, Option<StepOp>),
    /// An operator before its operand.
    Prefix(UnOp),
    /// `a +`
    Left(Infix, Boxed<Expr>),
    /// `a ?`
    Test(Boxed<Expr>),
    /// `a ? b :`
    Otherwise(Boxed<Expr>, Boxed<Expr>),
    /// `a =`, `a +=`
    Target(Boxed<Expr>, Option<BinOp>),
}

/// Frames, which contracts see as the list of them, the innermost first.
#[derive(Drop)]
pub(crate) struct Frames {
    cells: Vec<Frame>,
}

impl Model for Frames {
    ghost use Rattle.std.specs.Prelude.{List, reverse};
    ghost use Rattle.std.specs.Coded.{codes};
    ghost use Rattle.arith64.specs.declared.frames.Frame.{Frame};
    ghost use Rattle.arith64.specs.contracts.frames.Frame as frames;

    ghost Value = { List Frame };

    ghost coded = { Prim.hlevel (codes, frames.the_row.coded) };

    ghost view = { λ f. reverse f.cells.items };
}

impl Frames {
    pub(crate) fn new(alloc: Global) -> Frames
        ensures { result ≡ [] }
    {
        Frames {
            cells: Vec::new(alloc),
        }
    }

    /// The innermost frame.
    pub(crate) fn top(&self) -> Option<&Frame>
        ensures some { IfSome result (λ frame. IsTop self.now frame.now) }
        ensures none { IfNone result (self.now ≡ []) }
    {
        self.cells.last()
    }

    /// Takes the innermost frame out.
    pub(crate) fn pop(&mut self) -> Option<Frame>
        ensures { Pops self.old self.new result }
    {
        self.cells.pop()
    }

    pub(crate) fn push(&mut self, frame: Frame) -> Result<(), Memory>
        ensures { OnOk result (self.new ≡ frame ∷ self.old) }
    {
        self.cells.push(frame)?;
        Ok(())
    }
}

/// What stands at the place where reading is.
#[derive(Drop)]
pub(crate) enum Slot {
    /// An operand has to come.
    Wanted,
    /// A variable has to come, for this `++` or `--`.
    Stepping(StepOp),
    /// An operand came. The bool: it is a variable without parentheses, so it may be assigned to.
    Held(Boxed<Expr>, bool),
}

/// Where reading is: what stands open, the innermost first, and what stands there.
#[derive(Drop)]
pub(crate) struct Parser {
    pub(crate) frames: Frames,
    pub(crate) slot: Slot,
}
