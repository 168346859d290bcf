//! Grammars as data, for every language: a table of rules, steps and tests, the derivations that it spells, and the
//! laws of reading. Nothing here is of one language.
//! It promises for each table that ends: a text has one derivation at most, what is read is what is spelled, code
//! can read it one rule a function, and a syntax error has one place (`laws`).
//! Read `specs/Grammar`, `Ranks`, `Language`, `Derivations`, `Reading`, `Values`, `Answers`, `Place`, `Later`, then
//! `laws`; `specs/Example` and `proofs/Example` show how a language is made, `LaterExample` one whose trees hold what
//! comes later.
#![tactic(auto)]

mod laws;

pub use laws::{
    allowed, fronts, later, later_fronts, later_places, later_texts, later_values, one_level,
    one_tree, places, reading, shorter, values, whole_texts,
};
