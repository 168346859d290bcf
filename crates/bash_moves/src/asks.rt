//! The tests of the grammar's table: what comes next.

use bash_tokens::{Context, Flag, Key, Op, Stretch};

/// What comes next in a list of commands.
#[derive(Clone, Copy)]
pub enum ListTest {
    /// `;` or `&`.
    Separates,
    /// `;`, `&` or a newline.
    ListGoesOn,
    /// `;` or `&`, and a command behind it.
    GoesOn,
    /// `&&` or `||`.
    Links,
    /// `|` or `|&`.
    Pipes,
    /// `;;`, `;&` or `;;&`.
    ItemEnds,
    /// `;`, a newline or the end.
    TimeEnds,
    /// `(` or a word other than `esac`.
    ItemBegins,
}

/// What command comes next.
#[derive(Clone, Copy)]
pub enum CommandTest {
    PipelineBegins,
    CommandBegins,
    CompoundBegins,
    /// `function`, `time` or `coproc`.
    OtherBegins,
    SimpleBegins,
    /// `((`
    DoubleBegins,
    /// `(` and `)`.
    ParensBegin,
    OptionBegins(Flag),
    /// A built-in that declares.
    DeclareBegins,
    RedirectBegins,
    /// `<<` or `<<-`.
    HereBegins,
    /// A word or a redirection.
    SuffixBegins,
}

/// What comes next in `[[ ]]`.
#[derive(Clone, Copy)]
pub enum CondTest {
    UnaryBegins,
    BinaryBegins,
    /// `=~`
    RegexBegins,
    /// A word other than `]]`.
    CondWordBegins,
    RegexWordBegins,
    RegexGoesOn,
}

/// What part of a word comes next there.
#[derive(Clone, Copy)]
pub enum UnitTest {
    UnitBegins,
    QuoteBegins,
    DollarBegins,
    /// A backquote, `<(` or `@(`.
    OtherUnitBegins,
    OddTickBegins,
    ProcessBegins,
    /// Nothing is asked of the text: the place is a word of a command.
    InCommand,
}

/// What quotes come next there.
#[derive(Clone, Copy)]
pub enum QuoteTest {
    /// `'ab'`
    ExactBegins,
    /// `"`
    DoubleQuoteBegins,
    /// A backslash and a byte that it quotes.
    EscapeBegins,
    /// `'ab'` that is refused as a pair.
    PairBegins,
    /// `$"`
    LocaleBegins,
    LoneLocaleBegins,
    /// `$'ab'`
    AnsiBegins,
    AnsiPairBegins,
}

/// What expansion comes next.
#[derive(Clone, Copy)]
pub enum ExpansionTest {
    TildeBegins,
    /// `$` and what it expands.
    ExpansionBegins,
    TickBegins,
    /// `$((`
    SumBegins,
    /// `$(`
    SubstBegins,
    /// `${`
    BraceBegins,
    /// `$[`
    OldBegins,
}

/// What comes next between the braces of `${ }`.
#[derive(Clone, Copy)]
pub enum BraceTest {
    /// `${#a`
    LengthBegins,
    /// `${!a`
    PointedBegins,
    /// `${a`
    NamedBegins,
    /// `[@]`
    MembersBegin,
    /// The `*` of `${!a*}`.
    NamesBegin,
    FillBegins,
    TrimBegins,
    CaseBegins,
    SliceBegins,
}

/// What comes next in an expression.
#[derive(Clone, Copy)]
pub enum SumTest {
    SumGoesOn(Stretch),
    /// `(`
    SumOpens,
    /// An expansion.
    SumExpands,
}

/// What comes next, as the bytes ahead show it.
#[derive(Clone, Copy)]
pub enum Test {
    Next(Op),
    KeyNext(Key),
    ByteBegins(u8),
    List(ListTest),
    Command(CommandTest),
    Cond(CondTest),
    Unit(UnitTest, Context),
    Quote(QuoteTest, Context),
    Expansion(ExpansionTest),
    Brace(BraceTest),
    Sum(SumTest),
}

/// What comes next, where a subscript is read by the grammar to know it.
#[derive(Clone, Copy)]
pub enum ScanTest {
    /// An assignment or a redirection.
    PrefixBegins,
    /// An assignment of a list.
    ListBegins,
    /// `[i]=`
    IndexedBegins,
}
