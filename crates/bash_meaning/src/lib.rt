//! What a Bash script does: `specs/Meaning`, over the variables of `specs/Variables`. Its law is in `proofs/Bounds`.
//!
//! The only code is the type of a cell, which the definitions and an interpreter share.
#![tactic(auto)]

mod cell;

pub use cell::{Cell, Value};
