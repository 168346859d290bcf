//! Tests of the crates that sh's interpreter stands on: `sh_builtins`, `sh_checks`, `sh_expansion` and `sh_sums`.
//!
//! They stand apart from those crates, since the proof of a crate's tests proves the whole crate once more. They call what
//! is public alone.
#![tactic(auto)]

#[cfg(test)]
mod builtins;
#[cfg(test)]
mod cases;
#[cfg(test)]
mod checks;
#[cfg(test)]
mod expansion;
#[cfg(test)]
mod sums;
