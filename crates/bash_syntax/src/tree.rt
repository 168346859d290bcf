//! The syntax tree of a Bash script. Each type shows the text that it stands for. Children that are large, or that are
//! seldom there, stand in boxes, so that the common nodes stay small.

use crate::code::Code;
use span_text::{Boxed, Expr, List, Span, Text};

/// Commands in their order, each up to `;`, `&` or a newline.
#[cycle(tree)]
#[derive(Debug, PartialEq, Drop)]
pub struct Script {
    pub items: List<Item>,
}

/// `a && b` up to `;`, a newline or `&`, whose span is the last field (3.2.4).
#[cycle(tree)]
#[derive(Debug, PartialEq, Drop)]
pub struct Item {
    pub chain: AndOr,
    pub background: Option<Span>,
}

/// `a && b || c`: pipelines, the first of them alone (3.2.4).
#[cycle(tree)]
#[derive(Debug, PartialEq, Drop)]
pub struct AndOr {
    pub first: Pipeline,
    pub rest: List<(Joint, Pipeline)>,
}

/// What joins a pipeline to those before it.
#[derive(Clone, Copy, Debug, PartialEq, Eq)]
pub enum Joint {
    /// `a && b`: the second runs where the first succeeds.
    And,
    /// `a || b`: the second runs where the first fails.
    Or,
}

/// `! a | b`: stages, each of which reads what the one before it writes (3.2.3).
#[cycle(tree)]
#[derive(Debug, PartialEq, Drop)]
pub struct Pipeline {
    pub negated: bool,
    pub stages: List<Command>,
    /// One value for each `|` or `|&`, true for `|&`.
    pub both: List<bool>,
}

/// `a >b`: a command and its redirections (3.2). Those of a function's definition stand at its body.
#[cycle(tree)]
#[derive(Debug, PartialEq, Drop)]
pub struct Command {
    pub kind: CommandKind,
    pub redirects: List<Redirect>,
    pub span: Span,
}

#[cycle(tree)]
#[derive(Debug, PartialEq, Drop)]
pub enum CommandKind {
    /// `x=1 y+=2 show a b` (3.2.2).
    Simple {
        assigns: List<Assign>,
        words: List<Word>,
    },
    /// `{ a; }` (3.2.5.3).
    Group(Script),
    /// `(a)` (3.2.5.3).
    Subshell(Script),
    /// `if a; then b; elif c; then d; else e; fi`: tests with what runs where they succeed (3.2.5.2).
    If {
        parts: List<(Script, Script)>,
        otherwise: Option<Script>,
    },
    /// `while a; do b; done`, or `until a; do b; done` (3.2.5.1).
    Loop {
        until: bool,
        test: Script,
        body: Script,
    },
    /// `for i in a b; do c; done`; without `in` it goes over `"$@"` (3.2.5.1).
    For {
        name: Name,
        words: Option<List<Word>>,
        body: Script,
    },
    /// `for ((a; b; c)); do d; done` (3.2.5.1).
    ArithFor {
        first: Option<Boxed<Arith>>,
        test: Option<Boxed<Arith>>,
        step: Option<Boxed<Arith>>,
        body: Script,
    },
    /// `case a in b) c ;; esac` (3.2.5.2).
    Case {
        subject: Word,
        items: List<CaseItem>,
    },
    /// `((a))` (3.2.5.2).
    Arith(Boxed<Arith>),
    /// `[[ a == b ]]` (3.2.5.2).
    Cond(Boxed<Cond>),
    /// `f() { a; }`, `function f { a; }`.
    Function(Function),
    Refused(Code, Span),
}

/// `f() { a; } >b`: a function's definition (3.3).
#[cycle(tree)]
#[derive(Debug, PartialEq, Drop)]
pub struct Function {
    pub name: Name,
    pub body: Boxed<Command>,
}

/// A name of a variable or a function.
#[derive(Debug, PartialEq, Drop)]
pub struct Name {
    pub text: Text,
    pub span: Span,
}

/// `a | b) c ;;`: patterns, and what runs where one of them matches (3.2.5.2).
#[cycle(tree)]
#[derive(Debug, PartialEq, Drop)]
pub struct CaseItem {
    pub patterns: List<Word>,
    pub body: Script,
    pub end: ItemEnd,
}

/// What an item of `case` ends with.
#[derive(Clone, Copy, Debug, PartialEq, Eq)]
pub enum ItemEnd {
    /// `;;`, or nothing behind the last item.
    Stop,
    /// `;&`: the next item's commands run too.
    Fall,
    /// `;;&`: the next items' patterns are tried.
    Test,
}

/// What stands in `[[ ]]` (3.2.5.2, 6.4).
#[cycle(tree)]
#[derive(Debug, PartialEq, Drop)]
pub enum Cond {
    /// `a || b`
    Or(Boxed<Cond>, Boxed<Cond>),
    /// `a && b`
    And(Boxed<Cond>, Boxed<Cond>),
    /// `! a`
    Not(Boxed<Cond>),
    /// `a`: the text isn't empty.
    Text(Word),
    /// `-n a`
    Unary(TestOp, Word),
    /// `a == b`
    Binary(Word, TestOp, Word),
}

/// An operator of `[[ ]]` (6.4).
#[derive(Debug, PartialEq, Drop)]
pub struct TestOp {
    pub text: Text,
    pub span: Span,
}

/// `name=value`, `name[i]+=value`, `name=(a b)` (3.4).
#[cycle(tree)]
#[derive(Debug, PartialEq, Drop)]
pub struct Assign {
    pub name: Name,
    pub sub: Option<Boxed<Subscript>>,
    /// `+=`
    pub append: bool,
    pub value: AssignValue,
    pub span: Span,
}

#[cycle(tree)]
#[derive(Debug, PartialEq, Drop)]
pub enum AssignValue {
    /// A word, or nothing behind the `=`.
    Word(Option<Word>),
    /// `(a [2]=b)` (6.7).
    Items(List<ArrayItem>),
}

/// `a` or `[i]=a` of a list of items (6.7).
#[cycle(tree)]
#[derive(Debug, PartialEq, Drop)]
pub struct ArrayItem {
    pub sub: Option<Boxed<Subscript>>,
    pub value: Option<Word>,
    pub span: Span,
}

/// `[i]`, as a key and as an expression, or the place where it spells none: the kind of the name says which one counts
/// (6.7).
#[cycle(tree)]
#[derive(Debug, PartialEq, Drop)]
pub struct Subscript {
    pub word: Word,
    pub arith: Result<Arith, Span>,
    pub span: Span,
}

/// An arithmetic expression (3.5.5, 6.5).
#[cycle(tree)]
#[derive(Debug, PartialEq, Drop)]
pub struct Arith {
    pub expr: Expr,
    /// The expansions that stand in it, in their order.
    pub operands: List<Word>,
    /// The names that it uses, in their order.
    pub names: List<Name>,
    /// The spans of its assignments, and of its `++` and `--`.
    pub effects: List<Span>,
    pub span: Span,
}

/// Parts without blanks between them (3.1.2, 3.5).
#[cycle(tree)]
#[derive(Debug, PartialEq, Drop)]
pub struct Word {
    pub parts: List<Part>,
    pub span: Span,
}

#[cycle(tree)]
#[derive(Debug, PartialEq, Drop)]
pub struct Part {
    pub kind: PartKind,
    pub span: Span,
}

#[cycle(tree)]
#[derive(Debug, PartialEq, Drop)]
pub enum PartKind {
    /// `ab`: bytes that stand for themselves.
    Plain(Text),
    /// `'ab'`, `\a`, `$'a'`: bytes that are quoted (3.1.2).
    Exact(Text),
    /// `"a$b"` (3.1.2.3).
    Double(List<Part>),
    /// `~` (3.5.2).
    Tilde,
    /// `$a`, `${a[1]}`, `${#a}`, `${a-w}` (3.5.3).
    Param { param: Param, op: ParamOp },
    /// `$(a)` (3.5.4).
    Subst(Script),
    /// `$((a + 1))` (3.5.5).
    Arith(Boxed<Arith>),
    /// `a=(b)` as a word of `declare` (4.2).
    Compound(Boxed<Assign>),
    Refused(Code, Span),
}

/// What is expanded (3.4, 6.7).
#[cycle(tree)]
#[derive(Debug, PartialEq, Drop)]
pub enum Param {
    /// `$name`
    Name(Name),
    /// `${name[i]}`
    Member(Name, Boxed<Subscript>),
    /// `${name[@]}`, and `${name[*]}` where it is false.
    Members(Name, bool),
    /// `$1`, `${10}`: decimal digits. `$0` is the script's name.
    Digits(Text),
    /// `$#`
    Count,
    /// `$?`
    Status,
    /// `$@`
    At,
    /// `$*`
    Star,
}

/// What is done to what is expanded (3.5.3).
#[cycle(tree)]
#[derive(Debug, PartialEq, Drop)]
pub enum ParamOp {
    /// `$a`: nothing.
    Plain,
    /// `${#a}`
    Length,
    /// `${!a[@]}`
    Keys,
    /// `${a-w}`, `${a=w}`, `${a+w}`, and with a colon `${a:-w}`, which takes an empty value as unset.
    Fill {
        test: FillTest,
        colon: bool,
        word: Word,
    },
    /// `${a#w}`, `${a##w}`, `${a%w}`, `${a%%w}`
    Trim {
        suffix: bool,
        longest: bool,
        pattern: Word,
    },
    /// `${a:1}`, `${a:1:2}`
    Slice {
        offset: Boxed<Arith>,
        length: Option<Boxed<Arith>>,
    },
    /// `${a/p/w}`
    Replace {
        place: ReplaceAt,
        pattern: Word,
        by: Word,
    },
    /// `${a^}`, `${a^^}`, `${a,}`, `${a,,}`
    Case {
        upper: bool,
        all: bool,
    },
}

/// What fills in for a parameter, and when (3.5.3).
#[derive(Clone, Copy, Debug, PartialEq, Eq)]
pub enum FillTest {
    /// `-`: the word where the parameter is unset.
    Default,
    /// `=`: the same, and the word is assigned.
    Assign,
    /// `+`: the word where the parameter is set.
    Alternate,
}

/// Which matches are replaced (3.5.3).
#[derive(Clone, Copy, Debug, PartialEq, Eq)]
pub enum ReplaceAt {
    /// `${a/p/w}`
    First,
    /// `${a//p/w}`
    All,
    /// `${a/#p/w}`
    Start,
    /// `${a/%p/w}`
    End,
}

/// `2>a`: the descriptor, the operator and its word, which for a here-document is the document's text (3.6).
#[cycle(tree)]
#[derive(Debug, PartialEq, Drop)]
pub struct Redirect {
    pub fd: Option<u8>,
    pub op: RedirectOp,
    pub word: Word,
    pub span: Span,
}

/// An operator of redirection (3.6).
#[derive(Clone, Copy, Debug, PartialEq, Eq)]
pub enum RedirectOp {
    /// `<a`
    Read,
    /// `>a`, `>|a`
    Write,
    /// `>>a`
    Append,
    /// `<<'E'`: a here-document that is taken as it stands (3.6.6).
    HereLiteral,
    /// `<<E`: a here-document that is expanded (3.6.6).
    HereExpanded,
    /// `<<<a` (3.6.7)
    HereString,
    /// `<&1`
    CopyIn,
    /// `>&1`
    CopyOut,
    /// `&>a` (3.6.4)
    Both,
    /// `&>>a` (3.6.5)
    BothAppend,
    Refused(Code, Span),
}
