//! The table of Bash's grammar as data in code: what each rule is made of (`body`), and what a task of reading does
//! (`specs/Tasks`), so that a reader can go over the table with a stack.
#![tactic(auto)]

mod brace_rules;
mod branch_rules;
mod guards;
mod list_rules;
mod other_rules;
mod rules;
mod simple_rules;
mod steps;
mod table;
mod units;
mod word_rules;

pub use rules::body;
pub use table::{Guard, Item, Shift, Unit};

#[cfg(test)]
mod tests;
