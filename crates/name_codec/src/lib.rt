//! Lists of texts as one text, and the names that a lowered script keeps for itself.
//!
//! `decode` undoes `encode` and refuses every other text. `reserved` gives one name for each use and name,
//! with a prefix that no script's own names have. Read `lists` first, then `names`.
#![tactic(auto)]

mod lists;
mod names;

pub use lists::{decode, encode};
pub use names::{Role, names_apart, reserved};

#[cfg(test)]
mod tests;
