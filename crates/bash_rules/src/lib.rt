//! The rules of Bash's grammar by their names (Bash manual, 3.1 to 3.6). `specs/Rules` says which rule of bash_grammar each is, in
//! a place of parts of words.
#![tactic(auto)]

mod rule;

pub use rule::{
    AssignRule, BraceRule, BranchRule, CommandRule, CondRule, ForRule, LineRule, OperationRule,
    OtherRule, PipeRule, RedirectRule, RegexRule, Rule, SimpleRule, SumRule, UnitRule, WordRule,
};
