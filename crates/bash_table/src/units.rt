//! The rules that the grammar's table is made of, by short names.

use crate::table::{Guard, Shift, Unit};
use bash_moves::{CommandTest, Key, ListTest, Test, UnitTest};
use bash_rules::{
    AssignRule, BraceRule, BranchRule, CommandRule, CondRule, ForRule, LineRule, OperationRule,
    OtherRule, PipeRule, RedirectRule, RegexRule, Rule, SimpleRule, SumRule, UnitRule, WordRule,
};

pub const AND_LINK: Unit = Unit::Rule(Rule::Pipe(PipeRule::AndLink), Shift::Same);

pub const AND_MORE: Unit = Unit::Rule(Rule::Cond(CondRule::AndMore), Shift::Same);

pub const ANSI_QUOTE: Unit = Unit::Rule(Rule::Unit(UnitRule::AnsiQuote), Shift::Same);

pub const ASSIGN: Unit = Unit::Rule(Rule::Assign(AssignRule::Assign), Shift::Same);

pub const ASSIGNED: Unit = Unit::Rule(Rule::Assign(AssignRule::Assigned), Shift::Same);

pub const BANG: Unit = Unit::Rule(Rule::Pipe(PipeRule::Bang), Shift::Same);

pub const BEHIND_PREFIX: Unit = Unit::Rule(Rule::Simple(SimpleRule::BehindPrefix), Shift::Same);

pub const BINARY: Unit = Unit::Rule(Rule::Cond(CondRule::Binary), Shift::Same);

pub const BINARY_MORE: Unit = Unit::Rule(Rule::Cond(CondRule::BinaryMore), Shift::Same);

pub const BRACED_IN_FILLS: Unit = Unit::Rule(Rule::Brace(BraceRule::Braced), Shift::Fills);

pub const BRACED_IN_FIRSTS: Unit = Unit::Rule(Rule::Brace(BraceRule::Braced), Shift::Firsts);

pub const BRACED_IN_PATTERNS: Unit = Unit::Rule(Rule::Brace(BraceRule::Braced), Shift::Patterns);

pub const BRACED_IN_SECONDS: Unit = Unit::Rule(Rule::Brace(BraceRule::Braced), Shift::Seconds);

pub const BRACES: Unit = Unit::Rule(Rule::Brace(BraceRule::Braces), Shift::Same);

pub const CALLED: Unit = Unit::Rule(Rule::Simple(SimpleRule::Called), Shift::Same);

pub const CALLING: Unit = Unit::Rule(Rule::Simple(SimpleRule::Calling), Shift::Same);

pub const CASE_COMMAND: Unit = Unit::Rule(Rule::Branch(BranchRule::CaseCommand), Shift::Same);

pub const CASE_IN: Unit = Unit::Rule(Rule::Branch(BranchRule::CaseIn), Shift::Same);

pub const CASE_ITEM: Unit = Unit::Rule(Rule::Branch(BranchRule::CaseItem), Shift::Same);

pub const CASING: Unit = Unit::Rule(Rule::Operation(OperationRule::Casing), Shift::Same);

pub const CHAIN: Unit = Unit::Rule(Rule::Pipe(PipeRule::Chain), Shift::Same);

pub const COMMAND: Unit = Unit::Rule(Rule::Command(CommandRule::Command), Shift::Same);

pub const COMPLETE: Unit = Unit::Rule(Rule::Line(LineRule::Complete), Shift::Same);

pub const COMPLETE_MORE: Unit = Unit::Rule(Rule::Line(LineRule::CompleteMore), Shift::Same);

pub const COMPOUND: Unit = Unit::Rule(Rule::Command(CommandRule::Compound), Shift::Same);

pub const COMPOUND_COMMAND: Unit = Unit::Rule(
    Rule::Command(CommandRule::CompoundCommand),
    Shift::Same,
);

pub const CONDITIONAL: Unit = Unit::Rule(Rule::Cond(CondRule::Conditional), Shift::Same);

pub const COND_AND: Unit = Unit::Rule(Rule::Cond(CondRule::CondAnd), Shift::Same);

pub const COND_GROUP: Unit = Unit::Rule(Rule::Cond(CondRule::CondGroup), Shift::Same);

pub const COND_NOT: Unit = Unit::Rule(Rule::Cond(CondRule::CondNot), Shift::Same);

pub const COND_OR: Unit = Unit::Rule(Rule::Cond(CondRule::CondOr), Shift::Same);

pub const COND_TERM: Unit = Unit::Rule(Rule::Cond(CondRule::CondTerm), Shift::Same);

pub const COND_WORD: Unit = Unit::Rule(Rule::Cond(CondRule::CondWord), Shift::Same);

pub const COPROC_COMMAND: Unit = Unit::Rule(Rule::Other(OtherRule::CoprocCommand), Shift::Same);

pub const COPROC_NAMED: Unit = Unit::Rule(Rule::Other(OtherRule::CoprocNamed), Shift::Same);

pub const COPROC_REST: Unit = Unit::Rule(Rule::Other(OtherRule::CoprocRest), Shift::Same);

pub const DECLARED: Unit = Unit::Rule(Rule::Simple(SimpleRule::Declared), Shift::Same);

pub const DECLARED_ITEM: Unit = Unit::Rule(Rule::Simple(SimpleRule::DeclaredItem), Shift::Same);

pub const DECLARED_ITEMS: Unit = Unit::Rule(Rule::Simple(SimpleRule::DeclaredItems), Shift::Same);

pub const DECLARING: Unit = Unit::Rule(Rule::Simple(SimpleRule::Declaring), Shift::Same);

pub const DOLLAR_PART: Unit = Unit::Rule(Rule::Unit(UnitRule::DollarPart), Shift::Same);

pub const DOLLAR_QUOTE: Unit = Unit::Rule(Rule::Unit(UnitRule::DollarQuote), Shift::Same);

pub const DOUBLE_QUOTES: Unit = Unit::Rule(Rule::Unit(UnitRule::DoubleQuotes), Shift::Same);

pub const DO_BODY: Unit = Unit::Rule(Rule::Branch(BranchRule::DoBody), Shift::Same);

pub const ELEMENT: Unit = Unit::Rule(Rule::Assign(AssignRule::Element), Shift::Same);

pub const ELEMENTS: Unit = Unit::Rule(Rule::Assign(AssignRule::Elements), Shift::Same);

pub const ELEMENT_ITEM: Unit = Unit::Rule(Rule::Assign(AssignRule::ElementItem), Shift::Same);

pub const ELEMENT_VALUE: Unit = Unit::Rule(Rule::Assign(AssignRule::ElementValue), Shift::Same);

pub const ELIF_BRANCH: Unit = Unit::Rule(Rule::Branch(BranchRule::ElifBranch), Shift::Same);

pub const ELSE_PART: Unit = Unit::Rule(Rule::Branch(BranchRule::ElsePart), Shift::Same);

pub const EXPANSION: Unit = Unit::Rule(Rule::Unit(UnitRule::Expansion), Shift::Same);

pub const FAIL: Unit = Unit::Fail;

pub const FILE: Unit = Unit::Rule(Rule::Redirect(RedirectRule::File), Shift::Same);

pub const FILL: Unit = Unit::Rule(Rule::Operation(OperationRule::Fill), Shift::Same);

pub const FOR_IN: Unit = Unit::Rule(Rule::For(ForRule::ForIn), Shift::Same);

pub const FOR_LOOP: Unit = Unit::Rule(Rule::For(ForRule::ForLoop), Shift::Same);

pub const FOR_WORDS: Unit = Unit::Rule(Rule::For(ForRule::ForWords), Shift::Same);

pub const FUNCTION_COMMAND: Unit = Unit::Rule(Rule::Other(OtherRule::FunctionCommand), Shift::Same);

pub const FUNCTION_REST: Unit = Unit::Rule(Rule::Other(OtherRule::FunctionRest), Shift::Same);

pub const GLOB: Unit = Unit::Rule(Rule::Unit(UnitRule::Glob), Shift::Same);

pub const GLOB_UNIT: Unit = Unit::Rule(Rule::Unit(UnitRule::GlobUnit), Shift::Same);

pub const GROUP: Unit = Unit::Rule(Rule::Command(CommandRule::Group), Shift::Same);

pub const IF_BRANCH: Unit = Unit::Rule(Rule::Branch(BranchRule::IfBranch), Shift::Same);

pub const IF_COMMAND: Unit = Unit::Rule(Rule::Branch(BranchRule::IfCommand), Shift::Same);

pub const INDEX: Unit = Unit::Rule(Rule::Brace(BraceRule::Index), Shift::Same);

pub const INDEXED: Unit = Unit::Rule(Rule::Assign(AssignRule::Indexed), Shift::Same);

pub const ITEM_END: Unit = Unit::Rule(Rule::Branch(BranchRule::ItemEnd), Shift::Same);

pub const KEY_OPERAND: Unit = Unit::Rule(Rule::KeyOperand, Shift::Same);

pub const KEY_PART_IN_KEYS: Unit = Unit::Rule(Rule::Brace(BraceRule::KeyPart), Shift::Keys);

pub const LAST_SECTION: Unit = Unit::Rule(Rule::For(ForRule::LastSection), Shift::Same);

pub const LENGTH_BRACES: Unit = Unit::Rule(Rule::Brace(BraceRule::LengthBraces), Shift::Same);

pub const LINES: Unit = Unit::Rule(Rule::Line(LineRule::Lines), Shift::Same);

pub const LINK: Unit = Unit::Rule(Rule::Pipe(PipeRule::Link), Shift::Same);

pub const LIST: Unit = Unit::Rule(Rule::Line(LineRule::List), Shift::Same);

pub const LIST_MORE: Unit = Unit::Rule(Rule::Line(LineRule::ListMore), Shift::Same);

pub const LIST_WORD: Unit = Unit::Rule(Rule::Simple(SimpleRule::ListWord), Shift::Same);

pub const LOCALE: Unit = Unit::Rule(Rule::Unit(UnitRule::Locale), Shift::Same);

pub const LOOP_OR_CASE: Unit = Unit::Rule(Rule::Command(CommandRule::LoopOrCase), Shift::Same);

pub const MAYBE_LIST: Unit = Unit::Rule(Rule::Line(LineRule::MaybeList), Shift::Same);

pub const MORE_PARTS: Unit = Unit::Rule(Rule::Word(WordRule::MoreParts), Shift::Same);

pub const NAMED_EXPANSION: Unit = Unit::Rule(Rule::Unit(UnitRule::NamedExpansion), Shift::Same);

pub const NAME_FOR: Unit = Unit::Rule(Rule::For(ForRule::NameFor), Shift::Same);

pub const ODD_QUOTE: Unit = Unit::Rule(Rule::Unit(UnitRule::OddQuote), Shift::Same);

pub const OFFSET: Unit = Unit::Rule(Rule::Operation(OperationRule::Offset), Shift::Same);

pub const OLD: Unit = Unit::Rule(Rule::Unit(UnitRule::Old), Shift::Same);

pub const OPERATION: Unit = Unit::Rule(Rule::Operation(OperationRule::Operation), Shift::Same);

pub const OR_LINK: Unit = Unit::Rule(Rule::Pipe(PipeRule::OrLink), Shift::Same);

pub const OR_MORE: Unit = Unit::Rule(Rule::Cond(CondRule::OrMore), Shift::Same);

pub const OTHER_COMMAND: Unit = Unit::Rule(Rule::Other(OtherRule::OtherCommand), Shift::Same);

pub const OTHER_COMPOUND: Unit = Unit::Rule(Rule::Command(CommandRule::OtherCompound), Shift::Same);

pub const OTHER_OPERATION: Unit = Unit::Rule(
    Rule::Operation(OperationRule::OtherOperation),
    Shift::Same,
);

pub const OTHER_UNIT: Unit = Unit::Rule(Rule::Unit(UnitRule::OtherUnit), Shift::Same);

pub const PARENS: Unit = Unit::Rule(Rule::Other(OtherRule::Parens), Shift::Same);

pub const PARENTHESIS: Unit = Unit::Rule(Rule::Command(CommandRule::Parenthesis), Shift::Same);

pub const PART: Unit = Unit::Rule(Rule::Word(WordRule::Part), Shift::Same);

pub const PART_IN_BODY: Unit = Unit::Rule(Rule::Word(WordRule::Part), Shift::Body);

pub const PART_IN_BRACKETS: Unit = Unit::Rule(Rule::Word(WordRule::Part), Shift::Brackets);

pub const PART_IN_DOUBLE: Unit = Unit::Rule(Rule::Word(WordRule::Part), Shift::Double);

pub const PART_IN_GROUP: Unit = Unit::Rule(Rule::Word(WordRule::Part), Shift::Group);

pub const PART_IN_REGEX: Unit = Unit::Rule(Rule::Word(WordRule::Part), Shift::Regex);

pub const PART_IN_WORD: Unit = Unit::Rule(Rule::Word(WordRule::Part), Shift::Word);

pub const PASS: Unit = Unit::Pass;

pub const PATTERN: Unit = Unit::Rule(Rule::Word(WordRule::Pattern), Shift::Same);

pub const PATTERN_MORE: Unit = Unit::Rule(Rule::Branch(BranchRule::PatternMore), Shift::Same);

pub const PIPELINE: Unit = Unit::Rule(Rule::Pipe(PipeRule::Pipeline), Shift::Same);

pub const POINTED_BRACES: Unit = Unit::Rule(Rule::Brace(BraceRule::PointedBraces), Shift::Same);

pub const PREFIXED: Unit = Unit::Rule(Rule::Simple(SimpleRule::Prefixed), Shift::Same);

pub const PREFIX_ITEM: Unit = Unit::Rule(Rule::Simple(SimpleRule::PrefixItem), Shift::Same);

pub const PROCESS: Unit = Unit::Rule(Rule::Unit(UnitRule::Process), Shift::Same);

pub const QUOTE: Unit = Unit::Rule(Rule::Unit(UnitRule::Quote), Shift::Same);

pub const REDIRECT: Unit = Unit::Rule(Rule::Redirect(RedirectRule::Redirect), Shift::Same);

pub const REGEX: Unit = Unit::Rule(Rule::Regex(RegexRule::Regex), Shift::Same);

pub const REGEX_GROUP: Unit = Unit::Rule(Rule::Regex(RegexRule::RegexGroup), Shift::Same);

pub const REGEX_PART: Unit = Unit::Rule(Rule::Regex(RegexRule::RegexPart), Shift::Same);

pub const REGEX_TEST: Unit = Unit::Rule(Rule::Regex(RegexRule::RegexTest), Shift::Same);

pub const REPLACE: Unit = Unit::Rule(Rule::Operation(OperationRule::Replace), Shift::Same);

pub const REPLACEMENT: Unit = Unit::Rule(Rule::Operation(OperationRule::Replacement), Shift::Same);

pub const SECTION: Unit = Unit::Rule(Rule::For(ForRule::Section), Shift::Same);

pub const SELECT_LOOP: Unit = Unit::Rule(Rule::For(ForRule::SelectLoop), Shift::Same);

pub const SEPARATOR: Unit = Unit::Rule(Rule::Line(LineRule::Separator), Shift::Same);

pub const SIMPLE_BODY: Unit = Unit::Rule(Rule::Simple(SimpleRule::SimpleBody), Shift::Same);

pub const SIMPLE_COMMAND: Unit = Unit::Rule(Rule::Simple(SimpleRule::SimpleCommand), Shift::Same);

pub const SLICE: Unit = Unit::Rule(Rule::Operation(OperationRule::Slice), Shift::Same);

pub const SLICE_LENGTH: Unit = Unit::Rule(Rule::Operation(OperationRule::SliceLength), Shift::Same);

pub const SPECIAL_BRACES: Unit = Unit::Rule(Rule::Brace(BraceRule::SpecialBraces), Shift::Same);

pub const STAGE: Unit = Unit::Rule(Rule::Pipe(PipeRule::Stage), Shift::Same);

pub const SUBSCRIPT: Unit = Unit::Rule(Rule::Brace(BraceRule::Subscript), Shift::Same);

pub const SUBSCRIPT_IN_WORD: Unit = Unit::Rule(Rule::Brace(BraceRule::Subscript), Shift::Word);

pub const SUBSHELL: Unit = Unit::Rule(Rule::Command(CommandRule::Subshell), Shift::Same);

pub const SUBST: Unit = Unit::Rule(Rule::Unit(UnitRule::Subst), Shift::Same);

pub const SUFFIX: Unit = Unit::Rule(Rule::Simple(SimpleRule::Suffix), Shift::Same);

pub const SUFFIX_ITEM: Unit = Unit::Rule(Rule::Simple(SimpleRule::SuffixItem), Shift::Same);

pub const SUM: Unit = Unit::Rule(Rule::Sum(SumRule::Sum), Shift::Same);

pub const SUM_COMMAND: Unit = Unit::Rule(Rule::Command(CommandRule::SumCommand), Shift::Same);

pub const SUM_FOR: Unit = Unit::Rule(Rule::For(ForRule::SumFor), Shift::Same);

pub const SUM_GROUP: Unit = Unit::Rule(Rule::Sum(SumRule::SumGroup), Shift::Same);

pub const SUM_OPERAND: Unit = Unit::Rule(Rule::Sum(SumRule::SumOperand), Shift::Same);

pub const SUM_PART_TO_BRACE_IN_SUM: Unit = Unit::Rule(Rule::Sum(SumRule::PartToBrace), Shift::Sum);

pub const SUM_PART_TO_CLOSE: Unit = Unit::Rule(Rule::Sum(SumRule::PartToClose), Shift::Same);

pub const SUM_PART_TO_CLOSE_IN_DOUBLE: Unit = Unit::Rule(
    Rule::Sum(SumRule::PartToClose),
    Shift::Double,
);

pub const SUM_PART_TO_CLOSE_IN_SUM: Unit = Unit::Rule(Rule::Sum(SumRule::PartToClose), Shift::Sum);

pub const SUM_PART_TO_COLON_IN_SUM: Unit = Unit::Rule(Rule::Sum(SumRule::PartToColon), Shift::Sum);

pub const SUM_PART_TO_SEMI_IN_DOUBLE: Unit = Unit::Rule(
    Rule::Sum(SumRule::PartToSemi),
    Shift::Double,
);

pub const TARGET: Unit = Unit::Rule(Rule::Redirect(RedirectRule::Target), Shift::Same);

pub const TICKS: Unit = Unit::Rule(Rule::Unit(UnitRule::Ticks), Shift::Same);

pub const TILDE_PART: Unit = Unit::Rule(Rule::Word(WordRule::TildePart), Shift::Same);

pub const TIMED_BANG: Unit = Unit::Rule(Rule::Other(OtherRule::TimedBang), Shift::Same);

pub const TIME_COMMAND: Unit = Unit::Rule(Rule::Other(OtherRule::TimeCommand), Shift::Same);

pub const TIME_PREFIX: Unit = Unit::Rule(Rule::Other(OtherRule::TimePrefix), Shift::Same);

pub const TRANSFORM: Unit = Unit::Rule(Rule::Operation(OperationRule::Transform), Shift::Same);

pub const TRIM: Unit = Unit::Rule(Rule::Operation(OperationRule::Trim), Shift::Same);

pub const UNARY: Unit = Unit::Rule(Rule::Cond(CondRule::Unary), Shift::Same);

pub const UNIT: Unit = Unit::Rule(Rule::Unit(UnitRule::Unit), Shift::Same);

pub const UNLESS_SEPARATES: Unit = Unit::Unless(Guard::Test(Test::List(ListTest::Separates)));

pub const UNLESS_UNIT_BEGINS_IN_WORD: Unit = Unit::Unless(Guard::Unit(
    UnitTest::UnitBegins,
    Shift::Word,
));

pub const UNTIL_LOOP: Unit = Unit::Rule(Rule::Branch(BranchRule::UntilLoop), Shift::Same);

pub const VALUE: Unit = Unit::Rule(Rule::Word(WordRule::Value), Shift::Same);

pub const VALUED_BRACES: Unit = Unit::Rule(Rule::Brace(BraceRule::ValuedBraces), Shift::Same);

pub const WHEN_COMMAND_BEGINS: Unit = Unit::When(Guard::Test(Test::Command(
    CommandTest::CommandBegins,
)));

pub const WHEN_KEY_NEXT_ESAC: Unit = Unit::When(Guard::Test(Test::KeyNext(Key::Esac)));

pub const WHEN_TIME_ENDS: Unit = Unit::When(Guard::Test(Test::List(ListTest::TimeEnds)));

pub const WHILE_LOOP: Unit = Unit::Rule(Rule::Branch(BranchRule::WhileLoop), Shift::Same);

pub const WORD: Unit = Unit::Rule(Rule::Word(WordRule::Word), Shift::Same);

pub const WORD_PARTS: Unit = Unit::Rule(Rule::Word(WordRule::WordParts), Shift::Same);
