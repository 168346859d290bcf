//! What is printed, as pieces of the tree. A node comes apart in smaller pieces, so that one function prints them all.

use crate::context::Context;
use crate::marks::End;
use sh_syntax::{
    Assign, CaseItem, Command, FillTest, Item, Joint, Name, Param, Part, Pipeline, Redirect,
    Script, Word,
};
use span_text::{Expr, List};

/// A text that is to be printed.
#[derive(Clone, Copy)]
pub enum Piece<'a> {
    Leaf(Leaf<'a>),
    /// The operator of a here-document with this body, and its delimiter; it is quoted or not.
    Here(&'a [Part], bool),
    /// A newline, and the bodies that are still to come, each with the line of its delimiter.
    Line(&'a [Redirect]),
    Node(Node<'a>),
}

/// What holds no other piece.
#[derive(Clone, Copy)]
pub enum Leaf<'a> {
    Bytes(&'a [u8]),
    /// `'ab'`
    Exact(&'a [u8], Context),
    /// `$a`, or `${a}` where more of a name follows.
    Named(&'a Param, bool),
    /// `${#a}`
    Length(&'a Param),
    /// `${a-`, and `${a:-` with a colon.
    Filling(&'a Param, FillTest, bool),
    /// `${a#` with this mark.
    Trimming(&'a Param, &'a [u8]),
    /// The descriptor before a redirection's operator.
    Fd(Option<u8>),
    Constant(i64),
    /// An operator with a blank on either side.
    Operator(&'a [u8]),
}

/// What comes apart in smaller pieces.
#[derive(Clone, Copy)]
pub enum Node<'a> {
    Word(WordPiece<'a>),
    Command(CommandPiece<'a>),
    Sum(SumPiece<'a>, Operands<'a>),
}

/// Words, assignments and redirections. `owed` has the bodies that are still to come, `behind` says that something stands
/// before the first one.
#[derive(Clone, Copy)]
pub enum WordPiece<'a> {
    Words(&'a [Word], bool),
    Word(&'a Word),
    Parts(&'a [Part], Context, &'a [Redirect]),
    Part(&'a Part, Place<'a>),
    /// Redirections, of which so many stand already, and what stands behind them.
    Redirects(&'a [Redirect], usize, bool, Tail<'a>),
    Last(Tail<'a>, &'a [Redirect]),
    Redirect(&'a Redirect, &'a [Redirect]),
    Assigns(&'a [Assign], bool),
    Assign(&'a Assign),
}

/// What stands behind the redirections of a command: words, and what ends the command.
#[derive(Clone, Copy)]
pub struct Tail<'a> {
    pub words: &'a [Word],
    pub end: End,
}

/// Where a part stands, whether more of a name follows it, and which bodies are still to come.
#[derive(Clone, Copy)]
pub struct Place<'a> {
    pub context: Context,
    pub more: bool,
    pub owed: &'a [Redirect],
}

/// Commands and lists, up to what ends them.
#[derive(Clone, Copy)]
pub enum CommandPiece<'a> {
    Command(&'a Command, End),
    /// A list between two marks.
    Between(&'a [u8], &'a Script, &'a [u8]),
    /// `if a; then b; elif c; then d;`, whose first stands behind this key.
    Branches(&'a [(Script, Script)], &'a [u8]),
    /// `for i in a b; `
    For(&'a Name, &'a Option<List<Word>>),
    /// ` in a b; `
    ForWords(&'a [Word]),
    /// A word behind a mark.
    Led(&'a [u8], &'a Word),
    /// ` in (a) b ;; esac`
    Case(&'a [CaseItem]),
    Items(&'a [CaseItem]),
    /// Patterns, of which the first stands behind this mark.
    Patterns(&'a [Word], &'a [u8]),
    Chains(&'a [Item], End),
    Links(&'a [(Joint, Pipeline)], End),
    Pipeline(&'a Pipeline, End),
    Stages(&'a [Command], End),
}

/// Arithmetic expressions.
#[derive(Clone, Copy)]
pub enum SumPiece<'a> {
    /// An expression where one of this level or a tighter one is asked for.
    Expr(&'a Expr, u8),
    /// An expression without parentheses of its own.
    Bare(&'a Expr),
    /// An expression in parentheses.
    Closed(&'a Expr),
    /// The operators of a chain up to this expression's, so many of them; there are no more than 2 to the power of the last
    /// number.
    Links(&'a Expr, usize, u8),
    /// An operator with a blank on either side, and the expression behind it.
    Behind(&'a [u8], &'a Expr, u8),
    /// A subscript and its bracket.
    Indexed(&'a Expr),
}

/// The operands of an expression, and which bodies are still to come before them.
#[derive(Clone, Copy)]
pub struct Operands<'a> {
    pub words: &'a [Word],
    pub owed: &'a [Redirect],
}

/// The pieces of a node, in their order.
#[derive(Clone, Copy)]
pub struct Split<'a> {
    pub first: Piece<'a>,
    pub second: Piece<'a>,
    pub rest: Piece<'a>,
}
