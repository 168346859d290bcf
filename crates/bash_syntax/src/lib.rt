//! The syntax tree of all of Bash's text (Bash manual, sections 3.1 to 3.7).
//!
//! `tree` has a type for each kind of node, with places; `code` the codes of what is refused. `specs/View` takes each node to
//! its plain mirror in bash_grammar, which says what texts spell it. `proofs/Views` has a lemma for each node.
#![tactic(auto)]

mod code;
mod tree;

pub use code::Code;
pub use tree::{
    AndOr, Arith, ArrayItem, Assign, AssignValue, CaseItem, Command, CommandKind, Cond, FillTest,
    Function, Item, ItemEnd, Joint, Name, Param, ParamOp, Part, PartKind, Pipeline, Redirect,
    RedirectOp, ReplaceAt, Script, Subscript, TestOp, Word,
};

#[cfg(test)]
mod tests;
