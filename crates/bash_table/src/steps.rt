//! The steps that the grammar's table is made of, by short names.

use crate::table::Unit;
use bash_moves::{
    BraceStep, Control, EndStep, Flag, Key, Mark, NestStep, Op, QuoteStep, Quoting, Step, Stretch,
    SumStep, TokenStep, WordStep,
};

pub const BYTE_CLOSE_BRACE: Unit = Unit::Step(Step::Byte(b'}'));

pub const BYTE_CLOSE_BRACKET: Unit = Unit::Step(Step::Byte(b']'));

pub const BYTE_CLOSE_PAREN: Unit = Unit::Step(Step::Byte(b')'));

pub const BYTE_COLON: Unit = Unit::Step(Step::Byte(b':'));

pub const BYTE_EQUALS: Unit = Unit::Step(Step::Byte(b'='));

pub const BYTE_OPEN_PAREN: Unit = Unit::Step(Step::Byte(b'('));

pub const BYTE_QUOTE: Unit = Unit::Step(Step::Byte(b'"'));

pub const BYTE_SEMICOLON: Unit = Unit::Step(Step::Byte(b';'));

pub const BYTE_SLASH: Unit = Unit::Step(Step::Byte(b'/'));

pub const CLOSE_GROUP_CLOSE_BRACKET: Unit = Unit::Step(Step::Nest(NestStep::CloseGroup(b']')));

pub const CLOSE_GROUP_CLOSE_PAREN: Unit = Unit::Step(Step::Nest(NestStep::CloseGroup(b')')));

pub const END_QUOTED_SUM: Unit = Unit::EndSum;

pub const END_SECTION: Unit = Unit::Step(Step::End(EndStep::Section));

pub const END_SUM: Unit = Unit::Step(Step::End(EndStep::Sum(Quoting::Bare)));

pub const ENTER: Unit = Unit::Step(Step::Enter);

pub const FROM_TOKEN: Unit = Unit::Step(Step::Mark(Mark::FromToken));

pub const FROM_UNIT: Unit = Unit::Step(Step::Mark(Mark::FromUnit));

pub const HERE_DOCUMENT: Unit = Unit::Here;

pub const KEY_BANG: Unit = Unit::Step(Step::Key(Key::Bang));

pub const KEY_CASE: Unit = Unit::Step(Step::Key(Key::Case));

pub const KEY_CLOSE_BRACE: Unit = Unit::Step(Step::Key(Key::CloseBrace));

pub const KEY_CLOSE_COND: Unit = Unit::Step(Step::Key(Key::CloseCond));

pub const KEY_COPROC: Unit = Unit::Step(Step::Key(Key::Coproc));

pub const KEY_DO: Unit = Unit::Step(Step::Key(Key::Do));

pub const KEY_DONE: Unit = Unit::Step(Step::Key(Key::Done));

pub const KEY_ELIF: Unit = Unit::Step(Step::Key(Key::Elif));

pub const KEY_ELSE: Unit = Unit::Step(Step::Key(Key::Else));

pub const KEY_ESAC: Unit = Unit::Step(Step::Key(Key::Esac));

pub const KEY_FI: Unit = Unit::Step(Step::Key(Key::Fi));

pub const KEY_FOR: Unit = Unit::Step(Step::Key(Key::For));

pub const KEY_FUNCTION: Unit = Unit::Step(Step::Key(Key::Function));

pub const KEY_IF: Unit = Unit::Step(Step::Key(Key::If));

pub const KEY_IN: Unit = Unit::Step(Step::Key(Key::In));

pub const KEY_OPEN_BRACE: Unit = Unit::Step(Step::Key(Key::OpenBrace));

pub const KEY_OPEN_COND: Unit = Unit::Step(Step::Key(Key::OpenCond));

pub const KEY_SELECT: Unit = Unit::Step(Step::Key(Key::Select));

pub const KEY_THEN: Unit = Unit::Step(Step::Key(Key::Then));

pub const KEY_TIME: Unit = Unit::Step(Step::Key(Key::Time));

pub const KEY_UNTIL: Unit = Unit::Step(Step::Key(Key::Until));

pub const KEY_WHILE: Unit = Unit::Step(Step::Key(Key::While));

pub const LEAVE: Unit = Unit::Step(Step::Leave);

pub const LITERAL: Unit = Unit::Literal;

pub const OPTION_LAST: Unit = Unit::Step(Step::Token(TokenStep::Option(Flag::Last)));

pub const OPTION_POSIX: Unit = Unit::Step(Step::Token(TokenStep::Option(Flag::Posix)));

pub const OP_AND_IF: Unit = Unit::Step(Step::Op(Op::Control(Control::AndIf)));

pub const OP_CLOSE: Unit = Unit::Step(Step::Op(Op::Control(Control::Close)));

pub const OP_OPEN: Unit = Unit::Step(Step::Op(Op::Control(Control::Open)));

pub const OP_OR_IF: Unit = Unit::Step(Step::Op(Op::Control(Control::OrIf)));

pub const OP_PIPE: Unit = Unit::Step(Step::Op(Op::Control(Control::Pipe)));

pub const OP_SEMI: Unit = Unit::Step(Step::Op(Op::Control(Control::Semi)));

pub const STEP_AMPERSAND: Unit = Unit::Step(Step::Token(TokenStep::Ampersand));

pub const STEP_ANSI: Unit = Unit::Step(Step::Quote(QuoteStep::Ansi));

pub const STEP_ASSIGN_NAME: Unit = Unit::Step(Step::Word(WordStep::AssignName));

pub const STEP_ASSIGN_OP: Unit = Unit::Step(Step::Word(WordStep::AssignOp));

pub const STEP_BEGIN_OPERAND: Unit = Unit::Step(Step::Sum(SumStep::BeginOperand));

pub const STEP_BEGIN_SUM: Unit = Unit::Step(Step::Sum(SumStep::BeginSum));

pub const STEP_CASE_OP: Unit = Unit::Step(Step::Brace(BraceStep::CaseOp));

pub const STEP_CLOSE_DOUBLE: Unit = Unit::Step(Step::Sum(SumStep::CloseDouble));

pub const STEP_CLOSE_TICKS: Unit = Unit::Step(Step::Nest(NestStep::CloseTicks));

pub const STEP_DIGIT: Unit = Unit::Step(Step::Token(TokenStep::Digit));

pub const STEP_DOLLAR: Unit = Unit::Step(Step::Word(WordStep::Dollar));

pub const STEP_ENDS: Unit = Unit::Step(Step::Token(TokenStep::Ends));

pub const STEP_END_OPERAND: Unit = Unit::Step(Step::Sum(SumStep::EndOperand));

pub const STEP_ESCAPED: Unit = Unit::Step(Step::Word(WordStep::Escaped));

pub const STEP_EXACT: Unit = Unit::Step(Step::Quote(QuoteStep::Exact));

pub const STEP_FAR: Unit = Unit::Step(Step::Token(TokenStep::Far));

pub const STEP_FILL_OP: Unit = Unit::Step(Step::Brace(BraceStep::FillOp));

pub const STEP_ITEM_OP: Unit = Unit::Step(Step::Token(TokenStep::ItemOp));

pub const STEP_LINE: Unit = Unit::Step(Step::Token(TokenStep::Line));

pub const STEP_LONE_ANSI: Unit = Unit::Step(Step::Quote(QuoteStep::LoneAnsi));

pub const STEP_LONE_GLOB: Unit = Unit::Step(Step::Nest(NestStep::LoneGlob));

pub const STEP_LONE_LOCALE: Unit = Unit::Step(Step::Quote(QuoteStep::LoneLocale));

pub const STEP_LONE_QUOTE: Unit = Unit::Step(Step::Quote(QuoteStep::LoneQuote));

pub const STEP_MEMBERS: Unit = Unit::Step(Step::Brace(BraceStep::Members));

pub const STEP_NAME: Unit = Unit::Step(Step::Token(TokenStep::Name));

pub const STEP_NAMES: Unit = Unit::Step(Step::Brace(BraceStep::Names));

pub const STEP_NESTED_ANSI: Unit = Unit::Step(Step::Quote(QuoteStep::NestedAnsi));

pub const STEP_NESTED_EXACT: Unit = Unit::Step(Step::Quote(QuoteStep::NestedExact));

pub const STEP_ODD_TICKS: Unit = Unit::Step(Step::Nest(NestStep::OddTicks));

pub const STEP_OPEN_DOUBLE: Unit = Unit::Step(Step::Sum(SumStep::OpenDouble));

pub const STEP_OPEN_GLOB: Unit = Unit::Step(Step::Nest(NestStep::OpenGlob));

pub const STEP_OPEN_GROUP: Unit = Unit::Step(Step::Nest(NestStep::OpenGroup));

pub const STEP_OPEN_KEY: Unit = Unit::Step(Step::Nest(NestStep::OpenKey));

pub const STEP_OPEN_LENGTH: Unit = Unit::Step(Step::Brace(BraceStep::OpenLength));

pub const STEP_OPEN_LOCALE: Unit = Unit::Step(Step::Quote(QuoteStep::OpenLocale));

pub const STEP_OPEN_NAMED: Unit = Unit::Step(Step::Brace(BraceStep::OpenNamed));

pub const STEP_OPEN_OLD: Unit = Unit::Step(Step::Nest(NestStep::OpenOld));

pub const STEP_OPEN_POINTED: Unit = Unit::Step(Step::Brace(BraceStep::OpenPointed));

pub const STEP_OPEN_PROCESS: Unit = Unit::Step(Step::Nest(NestStep::OpenProcess));

pub const STEP_OPEN_SPECIAL: Unit = Unit::Step(Step::Brace(BraceStep::OpenSpecial));

pub const STEP_OPEN_SUBST: Unit = Unit::Step(Step::Nest(NestStep::OpenSubst));

pub const STEP_OPEN_SUM: Unit = Unit::Step(Step::Sum(SumStep::OpenSum));

pub const STEP_OPEN_TICKS: Unit = Unit::Step(Step::Nest(NestStep::OpenTicks));

pub const STEP_PIPE: Unit = Unit::Step(Step::Token(TokenStep::Pipe));

pub const STEP_REDIRECT_OP: Unit = Unit::Step(Step::Token(TokenStep::RedirectOp));

pub const STEP_REPLACE_OP: Unit = Unit::Step(Step::Brace(BraceStep::ReplaceOp));

pub const STEP_SLICE_OP: Unit = Unit::Step(Step::Brace(BraceStep::SliceOp));

pub const STEP_TEST_OP: Unit = Unit::Step(Step::Token(TokenStep::TestOp));

pub const STEP_TILDE: Unit = Unit::Step(Step::Word(WordStep::Tilde));

pub const STEP_TO_REGEX: Unit = Unit::Step(Step::Word(WordStep::ToRegex));

pub const STEP_TO_WORD: Unit = Unit::Step(Step::Word(WordStep::ToWord));

pub const STEP_TRANSFORM_OP: Unit = Unit::Step(Step::Brace(BraceStep::TransformOp));

pub const STEP_TRIM_OP: Unit = Unit::Step(Step::Brace(BraceStep::TrimOp));

pub const SUM_BYTES_TO_BRACE: Unit = Unit::Step(Step::Sum(SumStep::SumBytes(Stretch::ToBrace)));

pub const SUM_BYTES_TO_CLOSE: Unit = Unit::Step(Step::Sum(SumStep::SumBytes(Stretch::ToClose)));

pub const SUM_BYTES_TO_COLON: Unit = Unit::Step(Step::Sum(SumStep::SumBytes(Stretch::ToColon)));

pub const SUM_BYTES_TO_SEMI: Unit = Unit::Step(Step::Sum(SumStep::SumBytes(Stretch::ToSemi)));

pub const TO_HERE: Unit = Unit::Step(Step::Mark(Mark::ToHere));
