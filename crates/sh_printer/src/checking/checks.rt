//! What is checked of a script, as pieces of its tree. A piece comes apart in smaller ones, so that one function checks them
//! all.

use crate::context::Context;
use sh_syntax::{
    Assign, AssignValue, CaseItem, Command, CommandKind, Item, Joint, Part, Pipeline, Redirect,
    Script, Word,
};
use span_text::Expr;

/// Where a piece stands.
#[derive(Clone, Copy)]
pub struct Nesting {
    /// It stands in the body of a here-document that is expanded.
    pub in_body: bool,
    /// How many levels of nesting are open there.
    pub depth: usize,
}

/// What is to hold.
#[derive(Clone, Copy)]
pub enum Check<'a> {
    /// It is known whether it does.
    Known(bool),
    /// `a + $b`: an arithmetic expression, and its operands.
    Sum(&'a Expr, &'a [Word], Nesting),
    Node(CheckNode<'a>, Nesting),
}

/// What comes apart in smaller pieces.
#[derive(Clone, Copy)]
pub enum CheckNode<'a> {
    Word(WordCheck<'a>),
    Command(CommandCheck<'a>),
}

/// Words, assignments and redirections.
#[derive(Clone, Copy)]
pub enum WordCheck<'a> {
    /// ` a b`
    Words(&'a [Word]),
    /// A word's parts, behind a blank or not.
    Word(&'a [Part], bool),
    Parts(&'a [Part], Context),
    /// A part, and those behind it.
    Part(&'a Part, Context, &'a [Part]),
    /// An operand of an arithmetic expression: one expansion.
    Operand(&'a [Part]),
    /// The body of a here-document that is expanded.
    Body(&'a [Part]),
    /// `(a | b)`
    Patterns(&'a [Word]),
    /// `a=b c=d`
    Assigns(&'a [Assign]),
    /// What stands behind the `=`.
    Value(&'a AssignValue),
    /// `<a 2>b`
    Redirects(&'a [Redirect]),
}

/// Commands and lists.
#[derive(Clone, Copy)]
pub enum CommandCheck<'a> {
    Command(&'a Command),
    /// A command before its redirections, of which there are any or not.
    Kind(&'a CommandKind, bool),
    /// A list of one command at least.
    List(&'a Script),
    /// `if a; then b; elif c; then d;`
    Branches(&'a [(Script, Script)]),
    /// `(a) b ;; (c) d ;;`
    Items(&'a [CaseItem]),
    Item(&'a CaseItem),
    /// `a; b && c`
    Chains(&'a [Item]),
    /// `&& a || b`
    Links(&'a [(Joint, Pipeline)]),
    Pipeline(&'a Pipeline),
    /// `a | b`
    Stages(&'a [Command]),
}

/// The pieces of a node. All of them hold where it does.
#[derive(Clone, Copy)]
pub struct Checks<'a> {
    pub first: Check<'a>,
    pub second: Check<'a>,
    pub rest: Check<'a>,
}

/// What is to hold of an expression. Each piece counts the operands in it, which are numbered in their order.
#[derive(Clone, Copy)]
pub enum SumCheck<'a> {
    /// There is no operand in it, and it is known whether it holds.
    Known(bool),
    /// The operand of this number, so deep.
    Operand(u32, usize),
    /// An expression, so deep.
    Node(SumNode<'a>, usize),
}

/// Expressions that come apart in smaller pieces.
#[derive(Clone, Copy)]
pub enum SumNode<'a> {
    /// An expression where one of this level or a tighter one is asked for.
    Expr(&'a Expr, u8),
    /// An expression without parentheses of its own.
    Bare(&'a Expr),
    /// The operators of a chain up to this expression's, so many of them; there are no more than 2 to the power of the last
    /// number.
    Links(&'a Expr, usize, u8),
}

/// The pieces of an expression, in their order.
#[derive(Clone, Copy)]
pub struct SumChecks<'a> {
    pub first: SumCheck<'a>,
    pub second: SumCheck<'a>,
    pub rest: SumCheck<'a>,
}

/// The operands of an expression, inside the body of a here-document that is expanded or not.
#[derive(Clone, Copy)]
pub struct Given<'a> {
    pub words: &'a [Word],
    pub in_body: bool,
}
