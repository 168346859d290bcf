//! The syntax tree of all of sh's text (POSIX 2.10).
//!
//! `tree` has a type for each kind of node, with places. `specs/View` takes each to its plain mirror in sh_grammar, which
//! says what texts spell it. `proofs/Views` has a lemma for each node.
#![tactic(auto)]

mod tree;

pub use tree::{
    AndOr, Arith, Assign, AssignValue, CaseItem, Command, CommandKind, FillTest, Function, Item,
    Joint, Name, Param, ParamOp, Part, PartKind, Pipeline, Redirect, RedirectOp, Script, Word,
};

#[cfg(test)]
mod tests;
