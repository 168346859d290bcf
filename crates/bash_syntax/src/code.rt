//! What is refused.

/// The codes of what the profile of Bash leaves out, in the order in which the first of two at one place is given.
#[derive(Clone, Copy, Debug, PartialEq, Eq)]
pub enum Code {
    /// A NUL byte.
    NulByte,
    /// What isn't Bash.
    Syntax,
    /// A command whose form isn't built yet.
    NotYet,
    /// `a &`
    Background,
    /// `<(a)`, `>(a)`
    ProcessSubstitution,
    /// `@(a|b)`
    ExtendedGlob,
    /// `=~`
    RegexTest,
    /// `coproc`, `select`, `time`
    ReservedCommand,
    /// A built-in that is left out, as `eval`.
    RefusedBuiltin,
    /// The name of a command that shells don't agree on, as `print`.
    RestrictedName,
    /// A form of a built-in that is left out, as `break 0`.
    BuiltinForm,
    /// `${!a}`, `${!a*}`, `${a@Q}`
    Indirect,
    /// `${a^b}`
    CasePattern,
    /// `${a?b}`
    ErrorExpansion,
    /// `${@-a}`, `${1=a}`
    ListOperator,
    /// `"$@$@"`
    ListForm,
    /// `a=$@`
    ListInScalar,
    /// `$$`, `$!`, `$-`, `$_`
    SpecialParameter,
    /// A variable that shells set by themselves, as `RANDOM`.
    SpecialName,
    /// A name that begins with `__bs_`.
    ReservedPrefix,
    /// `$"a"`
    LocaleQuote,
    /// `$[1]`
    OldArithmetic,
    /// `$'\c'`
    AnsiEscape,
    /// `a:~`
    Tilde,
    /// `"${a-'b'}"`
    NestedQuote,
    /// A backslash between backquotes.
    Backquote,
    /// `${a//b/&}`
    Replacement,
    /// `{1..x}`
    BraceForm,
    /// More words by braces than the limits allow.
    BraceLimit,
    /// `>&a`
    RedirectWord,
    /// `{a}>b`, `10>b`
    Descriptor,
    /// `<>`
    ReadWrite,
    /// `$(< a)`
    ReadSubstitution,
    /// `<a >$(b)`
    RedirectionOrder,
    /// `a=b f` before a function.
    PrefixAssignment,
    /// A function whose name is none, or another command's.
    FunctionName,
    /// A name of one kind that is used as another.
    Kind,
    /// What spells no expression.
    ArithForm,
    /// `a[$(b)]`
    Effect,
    /// `m=(a)`, of an associative `m`
    ArrayItem,
    /// `break` outside of loops.
    Enclosure,
    /// `printf "$a"`
    PrintfFormat,
    /// `test -a b`
    TestOperator,
}
