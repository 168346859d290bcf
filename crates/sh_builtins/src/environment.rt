//! A shell environment.

use sh_meaning::Variable;
use shell_world::{Fds, TextMap};
use span_text::{List, Text};

/// A shell environment (POSIX XCU 2.12) without its functions, whose bodies an interpreter keeps: no built-in changes
/// them.
#[derive(Debug, Drop)]
pub struct Environment {
    /// The variables in the order of their names, each with a text or none, and its export mark.
    pub vars: TextMap<Variable>,
    /// `$0` and the positional parameters.
    pub params: List<Text>,
    /// `$?`
    pub status: u8,
    pub fds: Fds,
}
