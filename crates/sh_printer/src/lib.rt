//! Scripts of sh as text, one complete command a line (POSIX 2.10).
//!
//! `print` writes a script through a sink and takes no memory. What is to be printed is a `Piece` (`pieces`), which
//! `words`, `redirects`, `commands` and `sums` take apart into smaller ones; `printer` goes over them, and finds for each
//! here-document a delimiter that is no line of its body.
#![tactic(auto)]

mod checking;
mod commands;
mod context;
mod last;
mod leaves;
mod marks;
mod names;
mod opening;
mod pieces;
mod printer;
mod redirects;
mod search;
mod sums;
mod words;

pub use checking::printable;
pub use printer::print;
