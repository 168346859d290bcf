//! The steps and rules that the grammar's table is made of, by short names.

use crate::class::Context;
use crate::keys::Key;
use crate::table::{
    CommandRule, DollarRule, LineRule, LoopRule, PipeRule, RedirectStep, Rule, SimpleRule, Step,
    SumStep, Test, Unit, WordRule, WordStep,
};
use crate::tokens::Op;

pub const CHAIN: Unit = Unit::Rule(Rule::Pipe(PipeRule::Chain));

pub const COMPLETE_MORE: Unit = Unit::Rule(Rule::Line(LineRule::CompleteMore));

pub const SEMI: Unit = Unit::Step(Step::Op(Op::Semi));

pub const PASS: Unit = Unit::Pass;

pub const LINES: Unit = Unit::Rule(Rule::Line(LineRule::Lines));

pub const LIST_MORE: Unit = Unit::Rule(Rule::Line(LineRule::ListMore));

pub const LINE: Unit = Unit::Step(Step::Line);

pub const NO_SEMI: Unit = Unit::Unless(Test::Next(Op::Semi));

pub const PIPELINE: Unit = Unit::Rule(Rule::Pipe(PipeRule::Pipeline));

pub const LINK: Unit = Unit::Rule(Rule::Pipe(PipeRule::Link));

pub const AND_IF: Unit = Unit::Step(Step::Op(Op::AndIf));

pub const OR_IF: Unit = Unit::Step(Step::Op(Op::OrIf));

pub const BANG: Unit = Unit::Rule(Rule::Pipe(PipeRule::Bang));

pub const COMMAND: Unit = Unit::Rule(Rule::Command(CommandRule::Command));

pub const STAGE: Unit = Unit::Rule(Rule::Pipe(PipeRule::Stage));

pub const BANG_KEY: Unit = Unit::Step(Step::Key(Key::Bang));

pub const PIPE: Unit = Unit::Step(Step::Op(Op::Pipe));

pub const COMPOUND: Unit = Unit::Rule(Rule::Command(CommandRule::Compound));

pub const REDIRECT: Unit = Unit::Rule(Rule::Simple(SimpleRule::Redirect));

pub const OPEN_BRACE: Unit = Unit::Step(Step::Key(Key::OpenBrace));

pub const ENTER: Unit = Unit::Step(Step::Enter);

pub const LIST: Unit = Unit::Rule(Rule::Line(LineRule::List));

pub const END_GROUP: Unit = Unit::Step(Step::Key(Key::CloseBrace));

pub const LEAVE: Unit = Unit::Step(Step::Leave);

pub const OPEN: Unit = Unit::Step(Step::Op(Op::Open));

pub const CLOSE: Unit = Unit::Step(Step::Op(Op::Close));

pub const IF: Unit = Unit::Step(Step::Key(Key::If));

pub const IF_BRANCH: Unit = Unit::Rule(Rule::Command(CommandRule::IfBranch));

pub const ELIF_BRANCH: Unit = Unit::Rule(Rule::Command(CommandRule::ElifBranch));

pub const ELSE_PART: Unit = Unit::Rule(Rule::Command(CommandRule::ElsePart));

pub const FI: Unit = Unit::Step(Step::Key(Key::Fi));

pub const THEN: Unit = Unit::Step(Step::Key(Key::Then));

pub const ELIF: Unit = Unit::Step(Step::Key(Key::Elif));

pub const ELSE: Unit = Unit::Step(Step::Key(Key::Else));

pub const WHILE: Unit = Unit::Step(Step::Key(Key::While));

pub const DO_BODY: Unit = Unit::Rule(Rule::Command(CommandRule::DoBody));

pub const UNTIL: Unit = Unit::Step(Step::Key(Key::Until));

pub const DO: Unit = Unit::Step(Step::Key(Key::Do));

pub const DONE: Unit = Unit::Step(Step::Key(Key::Done));

pub const NAME: Unit = Unit::Step(Step::Name);

pub const COMPOUND_COMMAND: Unit = Unit::Rule(Rule::Command(CommandRule::CompoundCommand));

pub const FOR: Unit = Unit::Step(Step::Key(Key::For));

pub const FOR_WORDS: Unit = Unit::Rule(Rule::Loop(LoopRule::ForWords));

pub const IN: Unit = Unit::Step(Step::Key(Key::In));

pub const WORD: Unit = Unit::Rule(Rule::Word(WordRule::Word));

pub const CASE: Unit = Unit::Step(Step::Key(Key::Case));

pub const CASE_IN: Unit = Unit::Rule(Rule::Loop(LoopRule::CaseIn));

pub const CASE_ITEM: Unit = Unit::Rule(Rule::Loop(LoopRule::CaseItem));

pub const ESAC: Unit = Unit::Step(Step::Key(Key::Esac));

pub const PATTERN: Unit = Unit::Rule(Rule::Word(WordRule::Pattern));

pub const PATTERN_MORE: Unit = Unit::Rule(Rule::Loop(LoopRule::PatternMore));

pub const MAYBE_LIST: Unit = Unit::Rule(Rule::Line(LineRule::MaybeList));

pub const ITEM_END: Unit = Unit::Rule(Rule::Loop(LoopRule::ItemEnd));

pub const PREFIX_ITEM: Unit = Unit::Rule(Rule::Simple(SimpleRule::PrefixItem));

pub const SUFFIX: Unit = Unit::Rule(Rule::Simple(SimpleRule::Suffix));

pub const SUFFIX_ITEM: Unit = Unit::Rule(Rule::Simple(SimpleRule::SuffixItem));

pub const ASSIGN_NAME: Unit = Unit::Step(Step::Word(WordStep::AssignName));

pub const VALUE: Unit = Unit::Rule(Rule::Word(WordRule::Value));

pub const DESCRIPTOR: Unit = Unit::Step(Step::Redirect(RedirectStep::Descriptor));

pub const TARGET: Unit = Unit::Rule(Rule::Simple(SimpleRule::Target));

pub const FILE_OP: Unit = Unit::Step(Step::Redirect(RedirectStep::FileOp));

pub const TO_WORD: Unit = Unit::Step(Step::Word(WordStep::ToWord));

pub const WORD_PARTS: Unit = Unit::Rule(Rule::Word(WordRule::WordParts));

pub const TILDE: Unit = Unit::Step(Step::Word(WordStep::Tilde));

pub const PART: Unit = Unit::Rule(Rule::Word(WordRule::Part(Context::Word)));

pub const MORE_PARTS: Unit = Unit::Rule(Rule::Word(WordRule::MoreParts));

pub const QUOTE: Unit = Unit::Step(Step::Word(WordStep::Quote));

pub const DOUBLE_PART: Unit = Unit::Rule(Rule::Word(WordRule::Part(Context::Double)));

pub const BODY_PART: Unit = Unit::Rule(Rule::Word(WordRule::Part(Context::Body)));

pub const ENDS: Unit = Unit::Step(Step::Ends);

pub const OPEN_SUBST: Unit = Unit::Step(Step::Word(WordStep::OpenSubst));

pub const OPEN_SUM: Unit = Unit::Step(Step::Sum(SumStep::OpenSum));

pub const SUM_PART: Unit = Unit::Rule(Rule::Dollar(DollarRule::SumPart));

pub const CLOSE_SUM: Unit = Unit::Step(Step::Sum(SumStep::CloseSum));

pub const SUM_OPEN: Unit = Unit::Step(Step::Sum(SumStep::SumOpen));

pub const SUM_CLOSE: Unit = Unit::Step(Step::Sum(SumStep::SumClose));

pub const COMPLETE: Unit = Unit::Rule(Rule::Line(LineRule::Complete));

pub const AND_LINK: Unit = Unit::Rule(Rule::Pipe(PipeRule::AndLink));

pub const OR_LINK: Unit = Unit::Rule(Rule::Pipe(PipeRule::OrLink));

pub const FUNCTION_COMMAND: Unit = Unit::Rule(Rule::Command(CommandRule::FunctionCommand));

pub const SIMPLE_COMMAND: Unit = Unit::Rule(Rule::Simple(SimpleRule::SimpleCommand));

pub const SUBSHELL: Unit = Unit::Rule(Rule::Command(CommandRule::Subshell));

pub const GROUP: Unit = Unit::Rule(Rule::Command(CommandRule::Group));

pub const IF_COMMAND: Unit = Unit::Rule(Rule::Command(CommandRule::IfCommand));

pub const OTHER_COMPOUND: Unit = Unit::Rule(Rule::Command(CommandRule::OtherCompound));

pub const WHILE_LOOP: Unit = Unit::Rule(Rule::Command(CommandRule::WhileLoop));

pub const UNTIL_LOOP: Unit = Unit::Rule(Rule::Command(CommandRule::UntilLoop));

pub const FOR_LOOP: Unit = Unit::Rule(Rule::Loop(LoopRule::ForLoop));

pub const CASE_COMMAND: Unit = Unit::Rule(Rule::Loop(LoopRule::CaseCommand));

pub const FOR_IN: Unit = Unit::Rule(Rule::Loop(LoopRule::ForIn));

pub const SEMI_SEMI: Unit = Unit::Step(Step::Op(Op::SemiSemi));

pub const FAIL: Unit = Unit::Fail;

pub const PREFIXED: Unit = Unit::Rule(Rule::Simple(SimpleRule::Prefixed));

pub const CALLED: Unit = Unit::Rule(Rule::Simple(SimpleRule::Called));

pub const ASSIGN: Unit = Unit::Rule(Rule::Simple(SimpleRule::Assign));

pub const HERE: Unit = Unit::Here;

pub const COPY: Unit = Unit::Step(Step::Redirect(RedirectStep::Copy));

pub const FILE: Unit = Unit::Rule(Rule::Simple(SimpleRule::File));

pub const SUM_GROUP: Unit = Unit::Rule(Rule::Dollar(DollarRule::SumGroup));

pub const OPERAND: Unit = Unit::Step(Step::Sum(SumStep::Operand));

pub const DOUBLE_EXPANSION: Unit = Unit::Rule(Rule::Dollar(DollarRule::Expansion(Context::Double)));

pub const SUM_BYTES: Unit = Unit::Step(Step::Sum(SumStep::SumBytes));

pub const EXACT: Unit = Unit::Step(Step::Word(WordStep::Exact));

pub const DOUBLE_QUOTES: Unit = Unit::Rule(Rule::Word(WordRule::DoubleQuotes));

pub const SUM: Unit = Unit::Rule(Rule::Dollar(DollarRule::Sum));

pub const SUBST: Unit = Unit::Rule(Rule::Dollar(DollarRule::Subst));

pub const DOLLAR: Unit = Unit::Step(Step::Word(WordStep::Dollar));

pub const CLOSED: Unit = Unit::Step(Step::Word(WordStep::Closed));

pub const OPEN_HEAD: Unit = Unit::Step(Step::Word(WordStep::OpenHead));

pub const CLOSE_BRACE: Unit = Unit::Step(Step::Word(WordStep::CloseBrace));
