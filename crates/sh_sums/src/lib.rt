//! What arithmetic expressions of sh give (POSIX XCU 2.6.4).
//!
//! An expression can be as deep as its text is long, so nothing here calls itself: what stands open is kept on a stack.
//! Read `frames` and `specs/Frames` first (what stands open, and what it makes of a value), then `evaluating`. `numbers` has
//! the texts of numbers, and `assigning` stores one.
#![tactic(auto)]

mod assigning;
mod evaluating;
mod frames;
mod numbers;

pub use assigning::assign;
pub use evaluating::evaluate;
pub use numbers::{number_text, operand_number};
