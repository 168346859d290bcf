//! The syntax tree of a Bash script (Bash manual, section 3.2).
#![tactic(auto)]

mod tree;

pub use tree::{
    AndOr, Assign, AssignValue, Command, CommandKind, Item, Joint, Name, Param, ParamOp, Part,
    PartKind, Pipeline, Script, Word,
};
