//! Fields of texts: splitting after expansion, the names of `read`, and `"$*"`.
//!
//! Only bytes of unquoted expansions are split. Read `sort` first (what a separator is), then `splitting`, `reading`
//! and `joining`.
#![tactic(auto)]

mod joining;
mod reading;
mod sort;
mod splitting;

pub use joining::join;
pub use reading::read_fields;
pub use splitting::{fields_between, split};

#[cfg(test)]
mod tests;
