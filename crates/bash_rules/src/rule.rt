//! The rules of the grammar (Bash manual, 3.2 to 3.6), by their names. Where a rule hangs on the place of what it reads, the
//! place is said beside it.

/// Lines and lists.
#[derive(Clone, Copy)]
pub enum LineRule {
    Piece,
    LinePiece,
    Complete,
    CompleteMore,
    Separator,
    List,
    MaybeList,
    ListMore,
    Lines,
}

/// Pipelines.
#[derive(Clone, Copy)]
pub enum PipeRule {
    Chain,
    Link,
    AndLink,
    OrLink,
    Pipeline,
    Bang,
    Stage,
}

/// Commands, groups and `((a))`.
#[derive(Clone, Copy)]
pub enum CommandRule {
    Command,
    CompoundCommand,
    Compound,
    Parenthesis,
    OtherCompound,
    LoopOrCase,
    Group,
    Subshell,
    SumCommand,
}

/// `if`, `while`, `until` and `case`.
#[derive(Clone, Copy)]
pub enum BranchRule {
    IfCommand,
    IfBranch,
    ElifBranch,
    ElsePart,
    WhileLoop,
    UntilLoop,
    DoBody,
    CaseCommand,
    CaseIn,
    CaseItem,
    PatternMore,
    ItemEnd,
}

/// `for` and `select`.
#[derive(Clone, Copy)]
pub enum ForRule {
    ForLoop,
    NameFor,
    ForWords,
    ForIn,
    SumFor,
    Section,
    LastSection,
    SelectLoop,
}

/// Functions, `time` and `coproc`.
#[derive(Clone, Copy)]
pub enum OtherRule {
    OtherCommand,
    FunctionCommand,
    FunctionRest,
    Parens,
    TimeCommand,
    TimePrefix,
    TimedBang,
    CoprocCommand,
    CoprocRest,
    CoprocNamed,
}

/// `[[ ]]`.
#[derive(Clone, Copy)]
pub enum CondRule {
    Conditional,
    CondOr,
    OrMore,
    CondAnd,
    AndMore,
    CondNot,
    CondTerm,
    CondGroup,
    Unary,
    Binary,
    BinaryMore,
    CondWord,
}

/// `=~` and what stands behind it.
#[derive(Clone, Copy)]
pub enum RegexRule {
    RegexTest,
    Regex,
    RegexPart,
    RegexGroup,
}

/// Simple commands.
#[derive(Clone, Copy)]
pub enum SimpleRule {
    SimpleCommand,
    SimpleBody,
    Prefixed,
    BehindPrefix,
    Called,
    Calling,
    Declaring,
    Declared,
    DeclaredItems,
    DeclaredItem,
    ListWord,
    Suffix,
    PrefixItem,
    SuffixItem,
}

/// Assignments.
#[derive(Clone, Copy)]
pub enum AssignRule {
    Assign,
    Assigned,
    Elements,
    ElementItem,
    Element,
    Indexed,
    ElementValue,
}

/// Redirections.
#[derive(Clone, Copy)]
pub enum RedirectRule {
    Redirect,
    Target,
    File,
}

/// Words.
#[derive(Clone, Copy)]
pub enum WordRule {
    Word,
    Value,
    WordParts,
    TildePart,
    MoreParts,
    Pattern,
    Part,
    BodyParts,
}

/// What a part of a word is.
#[derive(Clone, Copy)]
pub enum UnitRule {
    Unit,
    Quote,
    OddQuote,
    DoubleQuotes,
    DollarPart,
    DollarQuote,
    AnsiQuote,
    Locale,
    Expansion,
    NamedExpansion,
    OtherUnit,
    GlobUnit,
    Process,
    Glob,
    Old,
    Subst,
    Ticks,
}

/// `${ }` and subscripts.
#[derive(Clone, Copy)]
pub enum BraceRule {
    Braces,
    LengthBraces,
    PointedBraces,
    ValuedBraces,
    SpecialBraces,
    Index,
    Subscript,
    KeyPart,
    Braced,
}

/// What is done to a parameter.
#[derive(Clone, Copy)]
pub enum OperationRule {
    Operation,
    OtherOperation,
    Transform,
    Fill,
    Trim,
    Casing,
    Replace,
    Replacement,
    Slice,
    Offset,
    SliceLength,
}

/// Arithmetic.
#[derive(Clone, Copy)]
pub enum SumRule {
    Sum,
    PartToClose,
    PartToSemi,
    PartToColon,
    PartToBrace,
    SumGroup,
    SumOperand,
}

/// The rules of the grammar.
#[derive(Clone, Copy)]
pub enum Rule {
    Line(LineRule),
    Pipe(PipeRule),
    Command(CommandRule),
    Branch(BranchRule),
    For(ForRule),
    Other(OtherRule),
    Cond(CondRule),
    Regex(RegexRule),
    Simple(SimpleRule),
    Assign(AssignRule),
    Redirect(RedirectRule),
    Word(WordRule),
    Unit(UnitRule),
    Brace(BraceRule),
    Operation(OperationRule),
    Sum(SumRule),
    /// An expansion in a subscript, which stands in a word and in an expression.
    KeyOperand,
}
