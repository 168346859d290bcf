//! The names of the steps and tests of Bash's grammar: what is read at once, and what comes next.
//!
//! `moves` has the steps, `asks` the tests. `specs/Tables` takes each to the name that bash_grammar has for it.
#![tactic(auto)]

mod asks;
mod moves;

pub use asks::{
    BraceTest, CommandTest, CondTest, ExpansionTest, ListTest, QuoteTest, ScanTest, SumTest, Test,
    UnitTest,
};
pub use bash_tokens::{Context, Control, Flag, Key, Op, Quoting, Redirection, Spot, Stretch};
pub use moves::{
    BraceStep, EndStep, Mark, NestStep, QuoteStep, Step, SumStep, TokenStep, WordStep,
};
