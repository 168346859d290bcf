//! The arithmetic of both shells (Bash manual, section 6.5), in whole numbers of 64 bits with a sign.
//!
//! `constant` reads a number, `apply` gives what an operator makes of two, and `read_expr` reads an expression. Read
//! `numbers` and `operators`, whose contracts cite `specs/Values.antt`, and `specs/Constant.antt` of `span_text`; then
//! `expressions`, whose contract cites `specs/Expressions.antt` of `span_text`.
//!
//! An expression is read from left to right, a byte or an expansion at a time: `reader` keeps the token that was begun
//! (`pending`), and gives each whole one to `parser`, which keeps what stands open as a stack of `frames` and puts
//! together (`reducing`) what binds tighter (`levels`) than the operator that comes. It stops at the first byte after
//! which no text can spell an expression: what it keeps can always be closed.
#![tactic(auto)]

mod expressions;
mod fault;
mod frames;
mod laws;
mod levels;
mod numbers;
mod operators;
mod parser;
mod pending;
mod reader;
mod reducing;

pub use expressions::read_expr;
pub use fault::{ArithFault, ExprFault};
pub use laws::one_expression;
pub use numbers::constant;
pub use operators::apply;

#[cfg(test)]
mod reading_tests;
#[cfg(test)]
mod refusal_tests;
#[cfg(test)]
mod tests;
