//! The names of the grammar's table (POSIX 2.10.2), as the code has them.

use crate::class::Context;
use crate::keys::Key;
use crate::tokens::Op;

/// Steps of words.
#[derive(Clone, Copy)]
pub enum WordStep {
    /// `name=`.
    AssignName,
    /// The place where a word begins.
    ToWord,
    /// `~`.
    Tilde,
    /// Bytes that stand for themselves.
    Literal(Context),
    /// A backslash, and the byte that it quotes.
    Escaped(Context),
    /// `'ab'`.
    Exact,
    /// `"`.
    Quote,
    /// `$a`.
    Dollar,
    /// `${a}`, `${#a}`.
    Closed,
    /// `${a-`, `${a%%`.
    OpenHead,
    /// `$(`.
    OpenSubst,
    /// `}`.
    CloseBrace,
}

/// Steps of redirections.
#[derive(Clone, Copy)]
pub enum RedirectStep {
    /// The digit before `<` or `>`.
    Descriptor,
    /// `<`, `>`, `>>`.
    FileOp,
    /// `<&` or `>&`, and a digit or `-`.
    Copy,
}

/// Steps of arithmetic expansions.
#[derive(Clone, Copy)]
pub enum SumStep {
    /// `$((`.
    OpenSum,
    /// Bytes of an arithmetic expansion.
    SumBytes,
    /// An expansion that is an operand begins.
    Operand,
    /// `(`.
    SumOpen,
    /// `)`.
    SumClose,
    /// `))`, where the bytes and operands before it spell an expression.
    CloseSum,
}

/// What is read at once. All but the units of words stand behind blanks, joins and a comment.
#[derive(Clone, Copy)]
pub enum Step {
    Op(Op),
    Key(Key),
    /// A newline, and the bodies of the here-documents that were named before it.
    Line,
    /// The end of the text, where no body is still to come.
    Ends,
    /// A name that is a whole word.
    Name,
    /// A level of nesting begins.
    Enter,
    /// A level of nesting ends.
    Leave,
    Word(WordStep),
    Redirect(RedirectStep),
    Sum(SumStep),
}

/// What redirection comes next.
#[derive(Clone, Copy)]
pub enum RedirectTest {
    /// An operator of redirection, or a digit before one.
    RedirectBegins,
    /// `<<`, `<<-`.
    HereBegins,
    /// `<&`, `>&`.
    CopyBegins,
}

/// What part of a word comes next.
#[derive(Clone, Copy)]
pub enum WordTest {
    /// `~` alone or before `/`.
    TildeBegins,
    /// Any part of a word.
    UnitBegins(Context),
    /// `'`.
    SingleBegins(Context),
    /// `"`.
    DoubleBegins(Context),
    /// A backslash, and a byte that it quotes.
    EscapeBegins(Context),
}

/// What expansion comes next.
#[derive(Clone, Copy)]
pub enum DollarTest {
    /// A `$` that doesn't stand for itself.
    ExpansionBegins,
    /// `$(` without another `(`.
    SubstBegins,
    /// `${`.
    BraceBegins,
    /// `${a}`, `${#a}`.
    ClosedBegins,
    /// `${a-`, `${a:=`.
    FillingBegins,
    /// `$((`.
    SumBegins,
    /// Anything but the `)` that closes an arithmetic expansion or a parenthesis in it.
    SumGoesOn,
    /// `(`.
    SumOpens,
}

/// What comes next.
#[derive(Clone, Copy)]
pub enum Test {
    Next(Op),
    KeyNext(Key),
    /// `;` or a newline.
    Separates,
    /// `;` and a command behind it.
    GoesOn,
    /// `&&` or `||`.
    Links,
    /// `!`, or a command.
    PipelineBegins,
    /// `(`, `{`, `if`, `while`, `until`, `for`, `case`.
    CompoundBegins,
    /// `f (`.
    FunctionBegins,
    /// A word that isn't reserved, an assignment or a redirection.
    SimpleBegins,
    /// `a=`.
    AssignBegins,
    /// An assignment or a redirection.
    PrefixBegins,
    /// A word or a redirection.
    SuffixBegins,
    /// `(` or a word other than `esac`.
    ItemBegins,
    Redirect(RedirectTest),
    Word(WordTest),
    Dollar(DollarTest),
}

/// Lines and lists.
#[derive(Clone, Copy)]
pub enum LineRule {
    /// A newline, or `a; b` and the newline or the end of the text behind it.
    Piece,
    /// The same, with a newline behind it.
    LinePiece,
    /// `a; b`.
    Complete,
    /// `; b`.
    CompleteMore,
    /// `a; b`, also over lines.
    List,
    /// The same, or nothing but newlines.
    MaybeList,
    /// `; b`, or a newline and `b`, or these without `b`.
    ListMore,
    /// Newlines.
    Lines,
}

/// Pipelines.
#[derive(Clone, Copy)]
pub enum PipeRule {
    /// `a && b || c`.
    Chain,
    /// `&& b` or `|| b`.
    Link,
    /// `&& b`.
    AndLink,
    /// `|| b`.
    OrLink,
    /// `! a | b`.
    Pipeline,
    /// `!`.
    Bang,
    /// `| b`.
    Stage,
}

/// Commands.
#[derive(Clone, Copy)]
pub enum CommandRule {
    /// Any command.
    Command,
    /// `{ a; } >b`.
    CompoundCommand,
    /// A compound command without its redirections.
    Compound,
    /// `while`, `until`, `for` or `case`.
    OtherCompound,
    /// `{ a; }`.
    Group,
    /// `(a)`.
    Subshell,
    /// `if a; then b; fi`.
    IfCommand,
    /// `a; then b;`.
    IfBranch,
    /// `elif a; then b;`.
    ElifBranch,
    /// `else a;`.
    ElsePart,
    /// `while a; do b; done`.
    WhileLoop,
    /// `until a; do b; done`.
    UntilLoop,
    /// `do a; done`.
    DoBody,
    /// `f() { a; }`.
    FunctionCommand,
}

/// `for` and `case`.
#[derive(Clone, Copy)]
pub enum LoopRule {
    /// `for x in a b; do c; done`.
    ForLoop,
    /// `in a b;`, `;`, or nothing.
    ForWords,
    /// `in a b;`.
    ForIn,
    /// `case x in a) b ;; esac`.
    CaseCommand,
    /// `in a) b ;; esac`.
    CaseIn,
    /// `a | b) c ;;`.
    CaseItem,
    /// `| b`.
    PatternMore,
    /// `;;`, or nothing before `esac`.
    ItemEnd,
}

/// Simple commands and redirections.
#[derive(Clone, Copy)]
pub enum SimpleRule {
    /// `x=1 a b >c`.
    SimpleCommand,
    /// The same, where an assignment or a redirection comes first.
    Prefixed,
    /// The same, where a word comes first.
    Called,
    /// `b >c`.
    Suffix,
    /// `x=1` or `>c`.
    PrefixItem,
    /// `b` or `>c`.
    SuffixItem,
    /// `x=1`.
    Assign,
    /// `2>c`.
    Redirect,
    /// The same without its digit.
    Target,
    /// `<a`, `>a`, `>>a`.
    File,
}

/// Words.
#[derive(Clone, Copy)]
pub enum WordRule {
    /// `~/a"$b"`.
    Word,
    /// What stands behind `x=`.
    Value,
    /// The parts of a word, of which the first may be `~`.
    WordParts,
    /// Parts without `~`, if there are any.
    MoreParts,
    /// `a*`, before `|` or `)` in a `case`.
    Pattern,
    /// `'a'`, `".."`, `\a`, `$a` or bytes.
    Part(Context),
    /// `"a $b"`.
    DoubleQuotes,
    /// The body of a here-document that is expanded.
    BodyParts,
}

/// Expansions.
#[derive(Clone, Copy)]
pub enum DollarRule {
    /// `$a`, `${..}`, `$(..)`, `$((..))`.
    Expansion(Context),
    /// `${..}`.
    Braces(Context),
    /// `${a-w}`, `${a:=w}`.
    Fill(Context),
    /// `${a#w}`, `${a%%w}`.
    Trim(Context),
    /// `$(a)`.
    Subst,
    /// `$((a + 1))`.
    Sum,
    /// `(..)`, an operand `$a`, or bytes of an arithmetic expansion.
    SumPart,
    /// `(a + 1)` in an arithmetic expansion.
    SumGroup,
}

/// The rules of the grammar.
#[derive(Clone, Copy)]
pub enum Rule {
    Line(LineRule),
    Pipe(PipeRule),
    Command(CommandRule),
    Loop(LoopRule),
    Simple(SimpleRule),
    Word(WordRule),
    Dollar(DollarRule),
}

/// One of what a rule's body is made of.
#[derive(Clone, Copy)]
pub enum Unit {
    /// Nothing.
    Pass,
    /// No text.
    Fail,
    /// Nothing, where this doesn't come next.
    Unless(Test),
    Step(Step),
    /// `<<` or `<<-`, and the delimiter, of which the body is read by the grammar.
    Here,
    Rule(Rule),
}

/// What stands one behind the other in a rule's body.
#[derive(Clone, Copy)]
pub enum Item {
    One(Unit),
    /// The first where the test holds, else the second.
    If(Test, Unit, Unit),
    /// All behind it where the test holds, else nothing.
    Where(Test),
    /// Again and again, as long as the test holds.
    Star(Test, Unit),
}
