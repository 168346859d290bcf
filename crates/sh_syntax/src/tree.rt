//! The syntax tree of sh text (POSIX 2.10). Each type shows the text that it stands for.

use span_text::{Boxed, Expr, List, Span, Text};

/// Commands in their order, each up to `;` or a newline.
#[cycle(tree)]
#[derive(Debug, PartialEq, Drop)]
pub struct Script {
    pub items: List<Item>,
}

/// `a && b` up to `;` or a newline.
#[cycle(tree)]
#[derive(Debug, PartialEq, Drop)]
pub struct Item {
    pub chain: AndOr,
}

/// `a && b || c`: pipelines, the first of them alone (2.9.3).
#[cycle(tree)]
#[derive(Debug, PartialEq, Drop)]
pub struct AndOr {
    pub first: Pipeline,
    pub rest: List<(Joint, Pipeline)>,
}

/// What joins a pipeline to those before it.
#[derive(Clone, Copy, Debug, PartialEq, Eq)]
pub enum Joint {
    /// `a && b`: the second runs where the first succeeds.
    And,
    /// `a || b`: the second runs where the first fails.
    Or,
}

/// `! a | b`: stages, each of which reads what the one before it writes (2.9.2).
#[cycle(tree)]
#[derive(Debug, PartialEq, Drop)]
pub struct Pipeline {
    pub negated: bool,
    pub stages: List<Command>,
}

/// `a >b`: a command and its redirections (2.9). The redirections of a function's definition stand at its body.
#[cycle(tree)]
#[derive(Debug, PartialEq, Drop)]
pub struct Command {
    pub kind: CommandKind,
    pub redirects: List<Redirect>,
    pub span: Span,
}

#[cycle(tree)]
#[derive(Debug, PartialEq, Drop)]
pub enum CommandKind {
    /// `x=1 y=2 show a b` (2.9.1).
    Simple {
        assigns: List<Assign>,
        words: List<Word>,
    },
    /// `{ a; }` (2.9.4.1).
    Group(Script),
    /// `(a)` (2.9.4.1).
    Subshell(Script),
    /// `if a; then b; elif c; then d; else e; fi`: tests with what runs where they succeed (2.9.4.4).
    If {
        parts: List<(Script, Script)>,
        otherwise: Option<Script>,
    },
    /// `while a; do b; done`, or `until a; do b; done` (2.9.4.5).
    Loop {
        until: bool,
        test: Script,
        body: Script,
    },
    /// `for i in a b; do c; done`; without `in` it goes over `"$@"` (2.9.4.2).
    For {
        name: Name,
        words: Option<List<Word>>,
        body: Script,
    },
    /// `case a in b) c ;; esac` (2.9.4.3).
    Case {
        subject: Word,
        items: List<CaseItem>,
    },
    /// `f() { a; }`.
    Function(Function),
}

/// `f() { a; } >b`: a function's definition (2.9.5).
#[cycle(tree)]
#[derive(Debug, PartialEq, Drop)]
pub struct Function {
    pub name: Name,
    pub body: Boxed<Command>,
}

/// A name of a variable or a function (3.216).
#[derive(Debug, PartialEq, Drop)]
pub struct Name {
    pub text: Text,
    pub span: Span,
}

/// `a | b) c ;;`: patterns, and what runs where one of them matches (2.9.4.3).
#[cycle(tree)]
#[derive(Debug, PartialEq, Drop)]
pub struct CaseItem {
    pub patterns: List<Word>,
    pub body: Script,
}

/// `name=value` (2.9.1).
#[cycle(tree)]
#[derive(Debug, PartialEq, Drop)]
pub struct Assign {
    pub name: Name,
    pub value: AssignValue,
    pub span: Span,
}

#[cycle(tree)]
#[derive(Debug, PartialEq, Drop)]
pub enum AssignValue {
    /// A word, or nothing behind the `=`.
    Word(Option<Word>),
}

/// Parts without blanks between them (2.2, 2.6).
#[cycle(tree)]
#[derive(Debug, PartialEq, Drop)]
pub struct Word {
    pub parts: List<Part>,
    pub span: Span,
}

#[cycle(tree)]
#[derive(Debug, PartialEq, Drop)]
pub struct Part {
    pub kind: PartKind,
    pub span: Span,
}

#[cycle(tree)]
#[derive(Debug, PartialEq, Drop)]
pub enum PartKind {
    /// `ab`: bytes that stand for themselves.
    Plain(Text),
    /// `'ab'`, `\a`: bytes that are quoted (2.2.1, 2.2.2).
    Exact(Text),
    /// `"a$b"` (2.2.3).
    Double(List<Part>),
    /// `~` (2.6.1).
    Tilde,
    /// `$a`, `${a}`, `${#a}`, `${a-w}`, `${a%w}` (2.6.2).
    Param { param: Param, op: ParamOp },
    /// `$(a)` (2.6.3).
    Subst(Script),
    /// `$((a + 1))` (2.6.4).
    Arith(Arith),
}

/// An arithmetic expression, with the expansions that stand in it as words in their order (2.6.4).
#[cycle(tree)]
#[derive(Debug, PartialEq, Drop)]
pub struct Arith {
    pub expr: Expr,
    pub operands: List<Word>,
    pub span: Span,
}

/// What is expanded (2.5.1, 2.5.2).
#[derive(Debug, PartialEq, Drop)]
pub enum Param {
    /// `$name`.
    Name(Name),
    /// `$1`, `${10}`: decimal digits. `$0` is the script's name.
    Digits(Text),
    /// `$#`.
    Count,
    /// `$?`.
    Status,
    /// `$@`.
    At,
    /// `$*`.
    Star,
}

/// What is done to what is expanded (2.6.2).
#[cycle(tree)]
#[derive(Debug, PartialEq, Drop)]
pub enum ParamOp {
    /// `$a`: nothing.
    Plain,
    /// `${#a}`.
    Length,
    /// `${a-w}`, `${a=w}`, `${a+w}`, and with a colon `${a:-w}`, which takes an empty value as unset.
    Fill {
        test: FillTest,
        colon: bool,
        word: Word,
    },
    /// `${a#w}`, `${a##w}`, `${a%w}`, `${a%%w}`.
    Trim {
        suffix: bool,
        longest: bool,
        pattern: Word,
    },
}

/// What fills in for a parameter, and when (2.6.2).
#[derive(Clone, Copy, Debug, PartialEq, Eq)]
pub enum FillTest {
    /// `-`: the word where the parameter is unset.
    Default,
    /// `=`: the same, and the word is assigned.
    Assign,
    /// `+`: the word where the parameter is set.
    Alternate,
}

/// `2>a`: the descriptor, the operator and its word, which for a here-document is the document's text (2.7).
#[cycle(tree)]
#[derive(Debug, PartialEq, Drop)]
pub struct Redirect {
    pub fd: Option<u8>,
    pub op: RedirectOp,
    pub word: Word,
    pub span: Span,
}

/// An operator of redirection (2.7).
#[derive(Clone, Copy, Debug, PartialEq, Eq)]
pub enum RedirectOp {
    /// `<a`.
    Read,
    /// `>a`.
    Write,
    /// `>>a`.
    Append,
    /// `<<'E'`: a here-document that is taken as it stands (2.7.4).
    HereLiteral,
    /// `<<E`: a here-document that is expanded (2.7.4).
    HereExpanded,
    /// `<&1`.
    CopyIn,
    /// `>&1`.
    CopyOut,
}
