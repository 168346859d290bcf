//! Arithmetic expressions, as they are written (POSIX XCU 2.6.4). One can be as deep as its text is long, so what is still
//! to be gone over stands on a stack.

ghost use Rattle.std.specs.Prelude.{◌≡◌, [], ◌∷◌, ◌++◌, ◌||◌, ◌<◌, ℕ, List, None, false, IfOk, OnOk};
ghost use Rattle.arith64.specs.Frames.{Pops};
ghost use Rattle.span_text.specs.Expression.{nodes};
ghost use Rattle.span_text.specs.KnownNames.{is_among};
ghost use Rattle.sh_meaning.specs.Arithmetic as sums;
ghost use Rattle.sh_meaning.specs.Lists.{is_used_in_sum};
ghost use Rattle.sh_checks.specs.declared.sums.Leaf.TheVariants as leaf_of;
ghost use Rattle.sh_checks.specs.Walks.{any_uses, behind, below, leaf_signs, leaf_uses, nodes_in, signs_of, taken};

use crate::names::is_among;
use span_text::{BinOp, Expr, List, Memory, Text, UnOp};
use std::alloc::Global;
use std::marker::Model;

/// An expression that is still to be gone over.
#[derive(Clone, Copy)]
pub(crate) struct Waiting<'e> {
    pub(crate) expr: &'e Expr,
    /// An operator `+` or `-` stands right before it, with nothing but `(` between.
    pub(crate) signed: bool,
}

/// What stands in an expression itself.
#[derive(Clone, Copy)]
pub(crate) enum Leaf<'e> {
    Nothing,
    /// `a`, and `a` of `a[e]`.
    Name(&'e [u8]),
    /// The `$` expansion of this number.
    Operand(u32),
}

/// What stands in an expression itself, and the expressions right below it, in their order.
#[derive(Clone, Copy)]
pub(crate) struct Split<'e> {
    pub(crate) leaf: Leaf<'e>,
    pub(crate) first: Option<Waiting<'e>>,
    pub(crate) second: Option<Waiting<'e>>,
    pub(crate) third: Option<Waiting<'e>>,
}

/// Expressions that are still to be gone over, which contracts see as the list of them, the next one first.
#[derive(Drop)]
pub(crate) struct Stack<'e> {
    cells: Vec<Waiting<'e>>,
}

impl<'e> Model for Stack<'e> {
    ghost use Rattle.std.specs.Prelude.{List, reverse};
    ghost use Rattle.std.specs.Coded.{codes};
    ghost use Rattle.sh_checks.specs.declared.sums.Waiting.{Waiting};
    ghost use Rattle.span_text.specs.contracts.expr.Expr as exprs;

    ghost Value = { List Waiting };

    ghost coded = { Prim.hlevel (codes, exprs.the_row.coded) };

    ghost view = { λ s. reverse s.cells.items };
}

impl<'e> Stack<'e> {
    fn new(alloc: Global) -> Stack<'e>
        ensures { result ≡ [] }
    {
        Stack {
            cells: Vec::new(alloc),
        }
    }

    /// Takes the next one out.
    fn pop(&mut self) -> Option<Waiting<'e>>
        ensures { Pops self.old self.new result }
    {
        self.cells.pop()
    }

    fn push(&mut self, next: Waiting<'e>) -> Result<(), Memory>
        ensures { OnOk result (self.new ≡ next.entry ∷ self.old) }
    {
        self.cells.push(next)?;
        Ok(())
    }

    fn push_some(&mut self, next: Option<Waiting<'e>>) -> Result<(), Memory>
        ensures { OnOk result (self.new ≡ taken next.entry ++ self.old) }
    {
        match next {
            None => Ok(()),
            Some(next) => self.push(next),
        }
    }

    /// The expressions below one come before those that wait.
    fn push_below(&mut self, split: Split<'e>) -> Result<(), Memory>
        ensures { OnOk result (self.new ≡ below split.entry ++ self.old) }
    {
        self.push_some(split.third)?;
        self.push_some(split.second)?;
        self.push_some(split.first)
    }
}

fn is_sign(op: BinOp) -> bool
    ensures { result ≡ sums.is_sign op }
{
    match op {
        BinOp::Add | BinOp::Subtract => true,
        BinOp::Power | BinOp::Times | BinOp::Divide | BinOp::Remainder => false,
        BinOp::ShiftLeft | BinOp::ShiftRight => false,
        BinOp::Less | BinOp::AtMost | BinOp::Greater | BinOp::AtLeast => false,
        BinOp::Equal | BinOp::Unequal => false,
        BinOp::BitAnd | BinOp::BitXor | BinOp::BitOr => false,
    }
}

fn is_sign_before(op: UnOp) -> bool
    ensures { result ≡ sums.is_sign_before op }
{
    match op {
        UnOp::Plus | UnOp::Minus => true,
        UnOp::Not | UnOp::Complement => false,
    }
}

fn alone(leaf: Leaf<'_>) -> Split<'_>
    ensures { result ≡ record { leaf = leaf.entry; first = None; second = None; third = None } }
{
    Split {
        leaf,
        first: None,
        second: None,
        third: None,
    }
}

fn over_one<'e>(leaf: Leaf<'e>, a: &'e Expr, signed: bool) -> Split<'e>
    ensures leaf { result.leaf ≡ leaf.entry }
    ensures below { below result ≡ record { expr = a.entry; signed = signed } ∷ [] }
{
    Split {
        leaf,
        first: Some(Waiting { expr: a, signed }),
        second: None,
        third: None,
    }
}

/// The first of two stands where the whole does.
fn over_two<'e>(signed: bool, a: &'e Expr, sign: bool, b: &'e Expr) -> Split<'e>
    ensures leaf { result.leaf ≡ leaf_of.Nothing }
    ensures below { below result ≡ record { expr = a.entry; signed = signed } ∷ record { expr = b.entry; signed = sign } ∷ [] }
{
    Split {
        leaf: Leaf::Nothing,
        first: Some(Waiting { expr: a, signed }),
        second: Some(Waiting {
            expr: b,
            signed: sign,
        }),
        third: None,
    }
}

/// `a ? b : c`
fn over_three<'e>(signed: bool, a: &'e Expr, b: &'e Expr, c: &'e Expr) -> Split<'e>
    ensures leaf { result.leaf ≡ leaf_of.Nothing }
    ensures below { below result ≡ record { expr = a.entry; signed = signed } ∷ record { expr = b.entry; signed = false } ∷ record { expr = c.entry; signed = false } ∷ [] }
{
    Split {
        leaf: Leaf::Nothing,
        first: Some(Waiting { expr: a, signed }),
        second: Some(Waiting {
            expr: b,
            signed: false,
        }),
        third: Some(Waiting {
            expr: c,
            signed: false,
        }),
    }
}

/// An expression, taken apart.
fn apart<'e>(expr: &'e Expr, signed: bool) -> Split<'e>
    ensures signs { leaf_signs signed result.leaf ++ signs_of (below result) ≡ behind expr.now signed }
    ensures uses { (names : List (List ℕ)) → (leaf_uses names result.leaf || any_uses names (below result)) ≡ is_used_in_sum names expr.now }
    ensures fewer { nodes_in (below result) < nodes expr.now }
{
    match expr {
        Expr::Constant(_) => alone(Leaf::Nothing),
        Expr::Name(name) => alone(Leaf::Name(name.bytes())),
        Expr::Operand(k) => alone(Leaf::Operand(*k)),
        Expr::Member(name, a) => over_one(Leaf::Name(name.bytes()), a.get(), false),
        Expr::Step(_, a) => over_one(Leaf::Nothing, a.get(), signed),
        Expr::Unary(op, a) => over_one(Leaf::Nothing, a.get(), is_sign_before(*op)),
        Expr::Binary(op, a, b) => over_two(signed, a.get(), is_sign(*op), b.get()),
        Expr::And(a, b) => over_two(signed, a.get(), false, b.get()),
        Expr::Or(a, b) => over_two(signed, a.get(), false, b.get()),
        Expr::Comma(a, b) => over_two(signed, a.get(), false, b.get()),
        Expr::Assign(a, _, b) => over_two(signed, a.get(), false, b.get()),
        Expr::Choose(a, b, c) => over_three(signed, a.get(), b.get(), c.get()),
    }
}

/// An operand behind a sign is found.
fn push_operand(leaf: Leaf<'_>, signed: bool, found: &mut List<u32>) -> Result<(), Memory>
    ensures { OnOk result (found.new ≡ found.old ++ leaf_signs signed leaf.entry) }
{
    match leaf {
        Leaf::Nothing => Ok(()),
        Leaf::Name(_) => Ok(()),
        Leaf::Operand(k) if signed => found.push(k),
        Leaf::Operand(_) => Ok(()),
    }
}

/// The numbers of the operands right behind an operator `+` or `-`, with nothing but `(` between, in their order: the
/// value of none of them may begin with a sign.
#[tactic(auto, unfolding(sh_meaning::specs::Arithmetic::behind_signs))]
pub fn behind_signs(alloc: Global, expr: &Expr) -> Result<List<u32>, Memory>
    ensures { IfOk result (λ found. found ≡ sums.behind_signs expr.now) }
{
    let mut found = List::new(alloc);
    let mut waiting = Stack::new(alloc);
    waiting.push(Waiting {
        expr,
        signed: false,
    })?;
    'expressions: loop {
        let Some(next) = waiting.pop() else {
            return Ok(found);
        };
        let split = apart(next.expr, next.signed);
        push_operand(split.leaf, next.signed, &mut found)?;
        waiting.push_below(split)?;
    }
}

fn uses_leaf(names: &[Text], leaf: Leaf<'_>) -> bool
    ensures { result ≡ leaf_uses names.now leaf.entry }
{
    match leaf {
        Leaf::Nothing => false,
        Leaf::Name(name) => is_among(names, name),
        Leaf::Operand(_) => false,
    }
}

/// Whether an expression names one of these, assigned or not.
pub(crate) fn is_used_in_sum(alloc: Global, names: &[Text], expr: &Expr) -> Result<bool, Memory>
    ensures { IfOk result (λ is. is ≡ is_used_in_sum names.now expr.now) }
{
    let mut waiting = Stack::new(alloc);
    waiting.push(Waiting {
        expr,
        signed: false,
    })?;
    'expressions: loop {
        let Some(next) = waiting.pop() else {
            return Ok(false);
        };
        let split = apart(next.expr, next.signed);
        if uses_leaf(names, split.leaf) {
            return Ok(true);
        }
        waiting.push_below(split)?;
    }
}
