//! Arithmetic expressions (Bash manual, section 6.5), which both shells' syntax trees hold.

ghost use Rattle.std.specs.Prelude.{◌≡◌, ◌+◌};
ghost use Rattle.span_text.specs.Expression.{nodes, waiting, left};

use crate::boxed::Boxed;
use crate::text::Text;

/// An operator before its operand.
#[derive(Clone, Copy, Debug, PartialEq, Eq)]
pub enum UnOp {
    /// `+a`
    Plus,
    /// `-a`
    Minus,
    /// `!a`
    Not,
    /// `~a`
    Complement,
}

/// An operator between two operands that are both evaluated.
#[derive(Clone, Copy, Debug, PartialEq, Eq)]
pub enum BinOp {
    /// `a ** b`
    Power,
    /// `a * b`
    Times,
    /// `a / b`
    Divide,
    /// `a % b`
    Remainder,
    /// `a + b`
    Add,
    /// `a - b`
    Subtract,
    /// `a << b`
    ShiftLeft,
    /// `a >> b`
    ShiftRight,
    /// `a < b`
    Less,
    /// `a <= b`
    AtMost,
    /// `a > b`
    Greater,
    /// `a >= b`
    AtLeast,
    /// `a == b`
    Equal,
    /// `a != b`
    Unequal,
    /// `a & b`
    BitAnd,
    /// `a ^ b`
    BitXor,
    /// `a | b`
    BitOr,
}

/// An operator that changes a variable by 1.
#[derive(Clone, Copy, Debug, PartialEq, Eq)]
pub enum StepOp {
    /// `++a`
    PreAdd,
    /// `--a`
    PreSub,
    /// `a++`
    PostAdd,
    /// `a--`
    PostSub,
}

/// An expression. The target of `Assign` and of `Step` is a `Name` or a `Member`, and a constant isn't negative.
#[derive(Debug, PartialEq)]
pub enum Expr {
    /// `12`, `014`, `0xc`
    Constant(i64),
    /// `a`
    Name(Text),
    /// `a[e]`
    Member(Text, Boxed<Expr>),
    /// The `$` expansion of this number, from 0.
    Operand(u32),
    Unary(UnOp, Boxed<Expr>),
    Binary(BinOp, Boxed<Expr>, Boxed<Expr>),
    /// `a && b`: the second is evaluated where the first isn't 0.
    And(Boxed<Expr>, Boxed<Expr>),
    /// `a || b`: the second is evaluated where the first is 0.
    Or(Boxed<Expr>, Boxed<Expr>),
    /// `a ? b : c`
    Choose(Boxed<Expr>, Boxed<Expr>, Boxed<Expr>),
    /// `a = b`, and `a += b` with the operator.
    Assign(Boxed<Expr>, Option<BinOp>, Boxed<Expr>),
    Step(StepOp, Boxed<Expr>),
    /// `a, b`
    Comma(Boxed<Expr>, Boxed<Expr>),
}

/// An expression can be as deep as its text is long, so it is dropped by a loop. What waits is a chain in the boxes that
/// come free: `Comma(next, others)`, `Choose(next, second, others)`, or nothing of these at its end.
impl Drop for Expr {
    fn drop(mut self) {
        let mut later = Expr::Operand(0);
        'nodes: loop {
            let next = match self {
                Expr::Constant(_value) => later.waiting(),
                Expr::Operand(_number) => later.waiting(),
                Expr::Name(_text) => later.waiting(),
                Expr::Member(_name, a) => one(a, later),
                Expr::Unary(_op, a) => one(a, later),
                Expr::Step(_op, a) => one(a, later),
                Expr::Binary(_op, a, b) => both(a, b, later),
                Expr::And(a, b) => both(a, b, later),
                Expr::Or(a, b) => both(a, b, later),
                Expr::Assign(a, _op, b) => both(a, b, later),
                Expr::Comma(a, b) => both(a, b, later),
                Expr::Choose(a, b, c) => all(a, b, c, later),
            };
            let Some((now, others)) = next else { return };
            self = now;
            later = others;
        }
    }
}

impl Expr {
    /// The first expression of those that wait, and the others.
    fn waiting(self) -> Option<(Expr, Expr)>
        ensures { left result ≡ waiting self }
    {
        match self {
            Expr::Comma(next, others) => Some((next.into_inner(), others.into_inner())),
            Expr::Choose(next, second, others) => Some((
                next.into_inner(),
                Expr::Comma(second, others),
            )),
            Expr::Constant(_) | Expr::Operand(_) | Expr::Name(_) => None,
            other => Some((other, Expr::Operand(0))),
        }
    }
}

fn one(only: Boxed<Expr>, later: Expr) -> Option<(Expr, Expr)>
    ensures { left result ≡ nodes only + waiting later }
{
    Some((only.into_inner(), later))
}

/// The first of two, which gives its box to those that wait.
fn both(mut first: Boxed<Expr>, second: Boxed<Expr>, later: Expr) -> Option<(Expr, Expr)>
    ensures { left result ≡ nodes first + (nodes second + waiting later) }
{
    let now = first.replace(later);
    Some((now, Expr::Comma(second, first)))
}

/// The first of three, which gives its box to those that wait.
fn all(
    mut first: Boxed<Expr>,
    second: Boxed<Expr>,
    third: Boxed<Expr>,
    later: Expr,
) -> Option<(Expr, Expr)>
    ensures { left result ≡ nodes first + (nodes second + (nodes third + waiting later)) }
{
    let now = first.replace(later);
    Some((now, Expr::Choose(second, third, first)))
}
