//! The pieces of expanding a word of sh (POSIX XCU 2.6): each does what the definition of its name in `sh_meaning` says.
//!
//! `mode` says what a word is expanded for, `expanded` builds a word part by part and splits it, `parameters` has the
//! values of parameters, `patterns` what a pattern removes, and `pathname` the names of files that
//! fields become.
//! `specs/Views` takes the code's types to those of the definitions.
#![tactic(auto)]

mod expanded;
mod mode;
mod parameters;
mod pathname;
mod patterns;

pub use expanded::Expanded;
pub use mode::{Listing, Mode, Purpose};
pub use parameters::{
    arguments, can_trim, has_length, home, ifs, is_lacking, length, parameter, parameter_text,
    variable,
};
pub use pathname::{field_texts, texts_among};
pub use patterns::{pattern_of, trimmed};
