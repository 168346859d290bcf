//! Rules that give back the values below them.

ghost use Rattle.std.specs.Prelude.{◌≡◌};
ghost use Rattle.sh_parser.specs.Tables as tables;
ghost use Rattle.sh_parser.specs.Tasks as tasks_of;

use crate::table::{
    CommandRule, DollarRule, LineRule, LoopRule, PipeRule, Rule, SimpleRule, WordRule,
};

fn line(rule: LineRule) -> bool
    ensures { result ≡ tasks_of.leads_on (tables.line_rule rule) }
{
    match rule {
        LineRule::List | LineRule::MaybeList => false,
        LineRule::Piece
        | LineRule::LinePiece
        | LineRule::Complete
        | LineRule::CompleteMore
        | LineRule::ListMore
        | LineRule::Lines => true,
    }
}

fn pipe(rule: PipeRule) -> bool
    ensures { result ≡ tasks_of.leads_on (tables.pipe_rule rule) }
{
    match rule {
        PipeRule::Chain
        | PipeRule::AndLink
        | PipeRule::OrLink
        | PipeRule::Pipeline
        | PipeRule::Bang => false,
        PipeRule::Link | PipeRule::Stage => true,
    }
}

fn command(rule: CommandRule) -> bool
    ensures { result ≡ tasks_of.leads_on (tables.command_rule rule) }
{
    match rule {
        CommandRule::CompoundCommand
        | CommandRule::Group
        | CommandRule::Subshell
        | CommandRule::IfCommand
        | CommandRule::IfBranch
        | CommandRule::ElsePart
        | CommandRule::WhileLoop
        | CommandRule::UntilLoop
        | CommandRule::FunctionCommand => false,
        CommandRule::Command
        | CommandRule::Compound
        | CommandRule::OtherCompound
        | CommandRule::ElifBranch
        | CommandRule::DoBody => true,
    }
}

fn for_or_case(rule: LoopRule) -> bool
    ensures { result ≡ tasks_of.leads_on (tables.loop_rule rule) }
{
    match rule {
        LoopRule::ForLoop | LoopRule::ForIn | LoopRule::CaseCommand | LoopRule::CaseItem => false,
        LoopRule::ForWords | LoopRule::CaseIn | LoopRule::PatternMore | LoopRule::ItemEnd => true,
    }
}

fn simple(rule: SimpleRule) -> bool
    ensures { result ≡ tasks_of.leads_on (tables.simple_rule rule) }
{
    match rule {
        SimpleRule::SimpleCommand | SimpleRule::Assign | SimpleRule::Redirect | SimpleRule::File =>
            false,
        SimpleRule::Prefixed
        | SimpleRule::Called
        | SimpleRule::Suffix
        | SimpleRule::PrefixItem
        | SimpleRule::SuffixItem
        | SimpleRule::Target => true,
    }
}

fn word_or_part(rule: WordRule) -> bool
    ensures { result ≡ tasks_of.leads_on (tables.word_rule rule) }
{
    match rule {
        WordRule::Word
        | WordRule::Value
        | WordRule::Pattern
        | WordRule::BodyParts
        | WordRule::DoubleQuotes => false,
        WordRule::WordParts | WordRule::MoreParts => true,
        WordRule::Part(_) => true,
    }
}

fn expansion(rule: DollarRule) -> bool
    ensures { result ≡ tasks_of.leads_on (tables.dollar_rule rule) }
{
    match rule {
        DollarRule::Fill(_) => false,
        DollarRule::Trim(_) => false,
        DollarRule::Subst | DollarRule::Sum => false,
        DollarRule::Expansion(_) => true,
        DollarRule::Braces(_) => true,
        DollarRule::SumPart | DollarRule::SumGroup => true,
    }
}

/// Whether a rule gives back the values below it.
pub fn leads_on(rule: Rule) -> bool
    ensures { result ≡ tasks_of.leads_on (tables.rule rule) }
{
    match rule {
        Rule::Line(rule) => line(rule),
        Rule::Pipe(rule) => pipe(rule),
        Rule::Command(rule) => command(rule),
        Rule::Loop(rule) => for_or_case(rule),
        Rule::Simple(rule) => simple(rule),
        Rule::Word(rule) => word_or_part(rule),
        Rule::Dollar(rule) => expansion(rule),
    }
}
