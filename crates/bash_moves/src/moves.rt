//! The steps of the grammar's table: what is read at once. What stands outside of words stands behind blanks, joins and a
//! comment.

use bash_tokens::{Context, Flag, Key, Op, Quoting, Stretch};

/// Tokens outside of words.
#[derive(Clone, Copy)]
pub enum TokenStep {
    /// A newline, and the bodies of the here-documents that were named before it.
    Line,
    /// The end of the text, where no body is still to come.
    Ends,
    /// `&`
    Ampersand,
    /// `|` or `|&`.
    Pipe,
    /// `;;`, `;&` or `;;&`.
    ItemOp,
    /// An operator of `[[ ]]`.
    TestOp,
    Option(Flag),
    /// A name that is a whole word.
    Name,
    /// The digit before `<` or `>`.
    Digit,
    /// More digits there, or a name in braces.
    Far,
    /// An operator before a word.
    RedirectOp,
}

/// Marks of places.
#[derive(Clone, Copy)]
pub enum Mark {
    /// Where the next token begins.
    FromToken,
    /// Where the next part of a word does.
    FromUnit,
    /// Where the last one ended.
    ToHere,
}

/// Parts of words.
#[derive(Clone, Copy)]
pub enum WordStep {
    /// The name before `=`, `+=` or a subscript.
    AssignName,
    /// `=` or `+=`.
    AssignOp,
    /// The place where a word begins.
    ToWord,
    /// The place where a regular expression begins.
    ToRegex,
    /// `~`
    Tilde,
    /// Bytes that stand for themselves.
    Literal(Context),
    /// A backslash, and the byte that it quotes.
    Escaped,
    /// `$a`
    Dollar,
}

/// Quotes.
#[derive(Clone, Copy)]
pub enum QuoteStep {
    /// `'ab'`
    Exact,
    /// `$'ab'`
    Ansi,
    /// `'ab'` where it is refused.
    NestedExact,
    /// `$'ab'` where it is refused.
    NestedAnsi,
    /// A quote that is refused alone.
    LoneQuote,
    /// `$'` that is refused alone.
    LoneAnsi,
    /// `$"` that is refused alone.
    LoneLocale,
    /// `$"`
    OpenLocale,
}

/// What opens and closes a text inside of a word.
#[derive(Clone, Copy)]
pub enum NestStep {
    /// `$(`
    OpenSubst,
    /// `<(` or `>(`.
    OpenProcess,
    /// `@(` where it ends at once.
    LoneGlob,
    /// `$[`
    OpenOld,
    /// `@(`
    OpenGlob,
    /// `(`
    OpenGroup,
    /// The byte that closes one of them.
    CloseGroup(u8),
    /// Backquotes that are refused as a whole.
    OddTicks,
    /// A backquote that opens a list.
    OpenTicks,
    /// The backquote that closes it.
    CloseTicks,
    /// `[`
    OpenKey,
}

/// What stands between the braces of `${ }`.
#[derive(Clone, Copy)]
pub enum BraceStep {
    /// `${#a`
    OpenLength,
    /// `${!a`
    OpenPointed,
    /// `${a`
    OpenNamed,
    /// `${1`
    OpenSpecial,
    /// `[@]` or `[*]`.
    Members,
    /// The `*` of `${!a*}`.
    Names,
    /// `-`, `=`, `+` or `?`, with a colon before it or without.
    FillOp,
    /// `#`, `##`, `%` or `%%`.
    TrimOp,
    /// `^`, `^^`, `,` or `,,`.
    CaseOp,
    /// `/`, `//`, `/#` or `/%`.
    ReplaceOp,
    /// `:`
    SliceOp,
    /// The `@Q` of `${a@Q}`.
    TransformOp,
}

/// Arithmetic expressions.
#[derive(Clone, Copy)]
pub enum SumStep {
    /// `$((`
    OpenSum,
    /// `((`
    OpenDouble,
    /// `))`
    CloseDouble,
    /// An expression begins.
    BeginSum,
    /// Bytes of an expression.
    SumBytes(Stretch),
    /// One of its expansions begins.
    BeginOperand,
    /// One of its expansions ends.
    EndOperand,
}

/// Where an arithmetic expression ends.
#[derive(Clone, Copy)]
pub enum EndStep {
    /// It has quotes in it as they are there.
    Sum(Quoting),
    /// One of `for ((a; b; c))`, which may be left out.
    Section,
}

/// What is read at once, but for a here-document, whose body the grammar reads.
#[derive(Clone, Copy)]
pub enum Step {
    Op(Op),
    Key(Key),
    /// This byte, joins aside.
    Byte(u8),
    Token(TokenStep),
    Mark(Mark),
    Word(WordStep),
    Quote(QuoteStep),
    Nest(NestStep),
    Brace(BraceStep),
    Sum(SumStep),
    End(EndStep),
    /// A level of nesting begins.
    Enter,
    /// A level of nesting ends.
    Leave,
}
