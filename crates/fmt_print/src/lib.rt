//! What the built-ins `printf` and `echo` print.
//!
//! Every answer is that of definitions on lists. `pieces` reads a format, `check` tells of bytes whether they are
//! one; `escapes` and `constants` read arguments, `fields` lays a conversion out, and `printing` passes over the
//! arguments until all are used. `echoing` prints words. Read them in this order.
#![tactic(auto)]

mod check;
mod constants;
mod echoing;
mod escapes;
mod fault;
mod fields;
mod pieces;
mod printing;

pub use check::FormatCheck;
pub use echoing::echo_text;
pub use fault::{EchoFault, FmtFault};
pub use printing::format;
use span_text::Text;

/// What was printed, and whether a `\c` has ended it.
#[derive(Debug, Drop, PartialEq)]
pub struct Printed {
    pub text: Text,
    pub cut: bool,
}

#[cfg(test)]
mod echo_tests;
#[cfg(test)]
mod refusal_tests;
#[cfg(test)]
mod tests;
