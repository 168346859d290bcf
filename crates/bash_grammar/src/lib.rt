//! The spelling of Bash: which text spells which script (Bash manual, sections 3.1 to 3.6).
//!
//! Read in `specs`: `Shape` (a script as plain data, with the places of its nodes), `Table` (the grammar, a rule a line, over
//! the steps and tests of `Moves`), `Steps` and `Tests` (what each step reads, and when each test holds), over `Bytes`, `Quotes`, `Tokens`, `Heads`,
//! `Bodies` and `Sums`; `Acts` (what each rule makes of what was read); `Spelling`, which states the relation and the
//! place of a syntax error; and `Pieces`, which reads a text piece by piece.
#![tactic(auto)]

mod laws;

pub use laws::{expressions, one_place, one_script, piecewise};
