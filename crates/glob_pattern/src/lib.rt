//! The patterns of the shell: which texts match, how long a front or an end that matches is, and which names of files
//! a field becomes.
//!
//! Read `piece` and `matching` first (what a pattern is and what matches it), then `lengths`; then `sign`, `bracket`,
//! `member` and `reading`, by which a text becomes a pattern; `pattern` has the calls. `component` and `path` do the
//! same for names of files.
#![tactic(auto)]

mod bracket;
mod class;
mod component;
mod fault;
mod lengths;
mod matching;
mod member;
mod path;
mod pattern;
mod piece;
mod reading;
mod sign;

pub use class::Class;
pub use fault::PatternFault;
pub use path::paths;
pub use pattern::Pattern;
pub use piece::{Member, Piece};

#[cfg(test)]
mod path_tests;
#[cfg(test)]
mod tests;
