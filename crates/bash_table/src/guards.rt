//! The tests of the grammar's table, by short names.

use crate::table::{Guard, Shift};
use bash_moves::{
    BraceTest, CommandTest, CondTest, Control, ExpansionTest, Flag, Key, ListTest, Op, QuoteTest,
    ScanTest, Stretch, SumTest, Test, UnitTest,
};

pub const ANSI_BEGINS: Guard = Guard::Quote(QuoteTest::AnsiBegins, Shift::Same);

pub const ANSI_PAIR_BEGINS: Guard = Guard::Quote(QuoteTest::AnsiPairBegins, Shift::Same);

pub const BINARY_BEGINS: Guard = Guard::Test(Test::Cond(CondTest::BinaryBegins));

pub const BRACE_BEGINS: Guard = Guard::Test(Test::Expansion(ExpansionTest::BraceBegins));

pub const BYTE_BEGINS_CLOSE_BRACE: Guard = Guard::Test(Test::ByteBegins(b'}'));

pub const BYTE_BEGINS_COLON: Guard = Guard::Test(Test::ByteBegins(b':'));

pub const BYTE_BEGINS_OPEN_BRACKET: Guard = Guard::Test(Test::ByteBegins(b'['));

pub const BYTE_BEGINS_OPEN_PAREN: Guard = Guard::Test(Test::ByteBegins(b'('));

pub const BYTE_BEGINS_SLASH: Guard = Guard::Test(Test::ByteBegins(b'/'));

pub const CASE_BEGINS: Guard = Guard::Test(Test::Brace(BraceTest::CaseBegins));

pub const COMMAND_BEGINS: Guard = Guard::Test(Test::Command(CommandTest::CommandBegins));

pub const COMPOUND_BEGINS: Guard = Guard::Test(Test::Command(CommandTest::CompoundBegins));

pub const COND_WORD_BEGINS: Guard = Guard::Test(Test::Cond(CondTest::CondWordBegins));

pub const DECLARE_BEGINS: Guard = Guard::Test(Test::Command(CommandTest::DeclareBegins));

pub const DOLLAR_BEGINS: Guard = Guard::Unit(UnitTest::DollarBegins, Shift::Same);

pub const DOUBLE_BEGINS: Guard = Guard::Test(Test::Command(CommandTest::DoubleBegins));

pub const DOUBLE_QUOTE_BEGINS: Guard = Guard::Quote(QuoteTest::DoubleQuoteBegins, Shift::Same);

pub const ESCAPE_BEGINS: Guard = Guard::Quote(QuoteTest::EscapeBegins, Shift::Same);

pub const EXACT_BEGINS: Guard = Guard::Quote(QuoteTest::ExactBegins, Shift::Same);

pub const EXPANSION_BEGINS: Guard = Guard::Test(Test::Expansion(ExpansionTest::ExpansionBegins));

pub const FILL_BEGINS: Guard = Guard::Test(Test::Brace(BraceTest::FillBegins));

pub const GOES_ON: Guard = Guard::Test(Test::List(ListTest::GoesOn));

pub const HERE_BEGINS: Guard = Guard::Test(Test::Command(CommandTest::HereBegins));

pub const INDEXED_BEGINS: Guard = Guard::Scan(ScanTest::IndexedBegins);

pub const IN_COMMAND: Guard = Guard::Unit(UnitTest::InCommand, Shift::Same);

pub const ITEM_BEGINS: Guard = Guard::Test(Test::List(ListTest::ItemBegins));

pub const ITEM_ENDS: Guard = Guard::Test(Test::List(ListTest::ItemEnds));

pub const KEY_NEXT_BANG: Guard = Guard::Test(Test::KeyNext(Key::Bang));

pub const KEY_NEXT_CASE: Guard = Guard::Test(Test::KeyNext(Key::Case));

pub const KEY_NEXT_ELIF: Guard = Guard::Test(Test::KeyNext(Key::Elif));

pub const KEY_NEXT_ELSE: Guard = Guard::Test(Test::KeyNext(Key::Else));

pub const KEY_NEXT_FOR: Guard = Guard::Test(Test::KeyNext(Key::For));

pub const KEY_NEXT_FUNCTION: Guard = Guard::Test(Test::KeyNext(Key::Function));

pub const KEY_NEXT_IF: Guard = Guard::Test(Test::KeyNext(Key::If));

pub const KEY_NEXT_IN: Guard = Guard::Test(Test::KeyNext(Key::In));

pub const KEY_NEXT_OPEN_BRACE: Guard = Guard::Test(Test::KeyNext(Key::OpenBrace));

pub const KEY_NEXT_OPEN_COND: Guard = Guard::Test(Test::KeyNext(Key::OpenCond));

pub const KEY_NEXT_TIME: Guard = Guard::Test(Test::KeyNext(Key::Time));

pub const KEY_NEXT_UNTIL: Guard = Guard::Test(Test::KeyNext(Key::Until));

pub const KEY_NEXT_WHILE: Guard = Guard::Test(Test::KeyNext(Key::While));

pub const LENGTH_BEGINS: Guard = Guard::Test(Test::Brace(BraceTest::LengthBegins));

pub const LINKS: Guard = Guard::Test(Test::List(ListTest::Links));

pub const LIST_BEGINS: Guard = Guard::Scan(ScanTest::ListBegins);

pub const LIST_GOES_ON: Guard = Guard::Test(Test::List(ListTest::ListGoesOn));

pub const LOCALE_BEGINS: Guard = Guard::Quote(QuoteTest::LocaleBegins, Shift::Same);

pub const LONE_LOCALE_BEGINS: Guard = Guard::Quote(QuoteTest::LoneLocaleBegins, Shift::Same);

pub const MEMBERS_BEGIN: Guard = Guard::Test(Test::Brace(BraceTest::MembersBegin));

pub const NAMED_BEGINS: Guard = Guard::Test(Test::Brace(BraceTest::NamedBegins));

pub const NAMES_BEGIN: Guard = Guard::Test(Test::Brace(BraceTest::NamesBegin));

pub const NEXT_AMP: Guard = Guard::Test(Test::Next(Op::Control(Control::Amp)));

pub const NEXT_AND_IF: Guard = Guard::Test(Test::Next(Op::Control(Control::AndIf)));

pub const NEXT_FAR: Guard = Guard::Test(Test::Next(Op::Far));

pub const NEXT_IO: Guard = Guard::Test(Test::Next(Op::Io));

pub const NEXT_NEWLINE: Guard = Guard::Test(Test::Next(Op::Newline));

pub const NEXT_OPEN: Guard = Guard::Test(Test::Next(Op::Control(Control::Open)));

pub const NEXT_OR_IF: Guard = Guard::Test(Test::Next(Op::Control(Control::OrIf)));

pub const NEXT_PIPE: Guard = Guard::Test(Test::Next(Op::Control(Control::Pipe)));

pub const NEXT_SEMI: Guard = Guard::Test(Test::Next(Op::Control(Control::Semi)));

pub const NEXT_WORD: Guard = Guard::Test(Test::Next(Op::Word));

pub const ODD_TICK_BEGINS: Guard = Guard::Unit(UnitTest::OddTickBegins, Shift::Same);

pub const OLD_BEGINS: Guard = Guard::Test(Test::Expansion(ExpansionTest::OldBegins));

pub const OPTION_BEGINS_LAST: Guard = Guard::Test(Test::Command(CommandTest::OptionBegins(
    Flag::Last,
)));

pub const OPTION_BEGINS_POSIX: Guard = Guard::Test(Test::Command(CommandTest::OptionBegins(
    Flag::Posix,
)));

pub const OTHER_BEGINS: Guard = Guard::Test(Test::Command(CommandTest::OtherBegins));

pub const OTHER_UNIT_BEGINS: Guard = Guard::Unit(UnitTest::OtherUnitBegins, Shift::Same);

pub const PAIR_BEGINS: Guard = Guard::Quote(QuoteTest::PairBegins, Shift::Same);

pub const PARENS_BEGIN: Guard = Guard::Test(Test::Command(CommandTest::ParensBegin));

pub const PIPELINE_BEGINS: Guard = Guard::Test(Test::Command(CommandTest::PipelineBegins));

pub const PIPES: Guard = Guard::Test(Test::List(ListTest::Pipes));

pub const POINTED_BEGINS: Guard = Guard::Test(Test::Brace(BraceTest::PointedBegins));

pub const PREFIX_BEGINS: Guard = Guard::Scan(ScanTest::PrefixBegins);

pub const PROCESS_BEGINS: Guard = Guard::Unit(UnitTest::ProcessBegins, Shift::Same);

pub const QUOTE_BEGINS: Guard = Guard::Unit(UnitTest::QuoteBegins, Shift::Same);

pub const REDIRECT_BEGINS: Guard = Guard::Test(Test::Command(CommandTest::RedirectBegins));

pub const REGEX_BEGINS: Guard = Guard::Test(Test::Cond(CondTest::RegexBegins));

pub const REGEX_GOES_ON: Guard = Guard::Test(Test::Cond(CondTest::RegexGoesOn));

pub const REGEX_WORD_BEGINS: Guard = Guard::Test(Test::Cond(CondTest::RegexWordBegins));

pub const SEPARATES: Guard = Guard::Test(Test::List(ListTest::Separates));

pub const SIMPLE_BEGINS: Guard = Guard::Test(Test::Command(CommandTest::SimpleBegins));

pub const SLICE_BEGINS: Guard = Guard::Test(Test::Brace(BraceTest::SliceBegins));

pub const SUBST_BEGINS: Guard = Guard::Test(Test::Expansion(ExpansionTest::SubstBegins));

pub const SUFFIX_BEGINS: Guard = Guard::Test(Test::Command(CommandTest::SuffixBegins));

pub const SUM_BEGINS: Guard = Guard::Test(Test::Expansion(ExpansionTest::SumBegins));

pub const SUM_EXPANDS: Guard = Guard::Test(Test::Sum(SumTest::SumExpands));

pub const SUM_GOES_ON_TO_BRACE: Guard = Guard::Test(Test::Sum(SumTest::SumGoesOn(
    Stretch::ToBrace,
)));

pub const SUM_GOES_ON_TO_CLOSE: Guard = Guard::Test(Test::Sum(SumTest::SumGoesOn(
    Stretch::ToClose,
)));

pub const SUM_GOES_ON_TO_COLON: Guard = Guard::Test(Test::Sum(SumTest::SumGoesOn(
    Stretch::ToColon,
)));

pub const SUM_GOES_ON_TO_SEMI: Guard = Guard::Test(Test::Sum(SumTest::SumGoesOn(Stretch::ToSemi)));

pub const SUM_OPENS: Guard = Guard::Test(Test::Sum(SumTest::SumOpens));

pub const TICK_BEGINS: Guard = Guard::Test(Test::Expansion(ExpansionTest::TickBegins));

pub const TILDE_BEGINS: Guard = Guard::Test(Test::Expansion(ExpansionTest::TildeBegins));

pub const TRIM_BEGINS: Guard = Guard::Test(Test::Brace(BraceTest::TrimBegins));

pub const UNARY_BEGINS: Guard = Guard::Test(Test::Cond(CondTest::UnaryBegins));

pub const UNIT_BEGINS: Guard = Guard::Unit(UnitTest::UnitBegins, Shift::Same);

pub const UNIT_BEGINS_IN_BODY: Guard = Guard::Unit(UnitTest::UnitBegins, Shift::Body);

pub const UNIT_BEGINS_IN_BRACKETS: Guard = Guard::Unit(UnitTest::UnitBegins, Shift::Brackets);

pub const UNIT_BEGINS_IN_DOUBLE: Guard = Guard::Unit(UnitTest::UnitBegins, Shift::Double);

pub const UNIT_BEGINS_IN_GROUP: Guard = Guard::Unit(UnitTest::UnitBegins, Shift::Group);

pub const UNIT_BEGINS_IN_KEYS: Guard = Guard::Unit(UnitTest::UnitBegins, Shift::Keys);

pub const UNIT_BEGINS_IN_WORD: Guard = Guard::Unit(UnitTest::UnitBegins, Shift::Word);
