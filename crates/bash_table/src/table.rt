//! What the rules of the grammar are made of (Bash manual, 3.2 to 3.6). The names of rules, steps and tests are those of
//! bash_rules and bash_moves; the place of what a rule reads stands beside it, and here is said how it changes.

use bash_moves::{QuoteTest, ScanTest, Step, Test, UnitTest};
use bash_rules::Rule;

/// The place of what is read below a rule, by the place of the rule.
#[derive(Clone, Copy)]
pub enum Shift {
    /// The same.
    Same,
    /// A word of a command.
    Word,
    /// Between double quotes.
    Double,
    /// In a here-document.
    Body,
    /// Behind `=~`.
    Regex,
    /// In parentheses of a pattern or a regular expression.
    Group,
    /// In `$[ ]`.
    Brackets,
    /// In a subscript.
    Keys,
    /// In the word of `${a-w}`.
    Fills,
    /// In the pattern of `${a%w}`.
    Patterns,
    /// In the pattern of `${a/w/b}`.
    Firsts,
    /// In what `${a/b/w}` puts in its place.
    Seconds,
    /// In an expression.
    Sum,
}

/// What comes next, in the place of a rule.
#[derive(Clone, Copy)]
pub enum Guard {
    Test(Test),
    Scan(ScanTest),
    Unit(UnitTest, Shift),
    Quote(QuoteTest, Shift),
}

/// One of what a rule's body is made of.
#[derive(Clone, Copy)]
pub enum Unit {
    /// Nothing.
    Pass,
    /// No text.
    Fail,
    /// Nothing, where this doesn't come next.
    Unless(Guard),
    /// Nothing, where this comes next.
    When(Guard),
    Step(Step),
    /// Bytes that stand for themselves in this place.
    Literal,
    /// An expression ends, with the quotes in it as they are in this place.
    EndSum,
    /// `<<` or `<<-`, and the delimiter, of which the body is read by the grammar.
    Here,
    Rule(Rule, Shift),
}

/// What stands one behind the other in a rule's body.
#[derive(Clone, Copy)]
pub enum Item {
    One(Unit),
    /// The first where this comes next, else the second.
    If(Guard, Unit, Unit),
    /// The first where this comes next, else the second where that comes next, else the third.
    Or(Guard, Unit, Guard, Unit, Unit),
    /// Again and again, as long as this comes next.
    Star(Guard, Unit),
    /// This alone where it comes next, else all behind it.
    Either(Guard, Unit),
    /// Both alone where this comes next, else all behind them.
    Both(Guard, Unit, Unit),
    /// All behind it where this comes next, else nothing.
    Where(Guard),
    /// All behind it where this comes next, else no text.
    Only(Guard),
}
