//! The spelling of sh: which text spells which script (POSIX, sections 2.2 to 2.10).
//!
//! Read in `specs`: `Shape` (a script as plain data), `Table` (the grammar, a rule a line), `Steps` (what each step reads),
//! over the bytes and tokens of `Bytes`, `Tokens`, `Expansions` and `Bodies`; `Acts` (what each rule makes of what was
//! read); `Spelling`, which states the relation and the place of a syntax error;
//! and `Pieces`, which reads a text piece by piece.
#![tactic(auto)]

mod laws;

pub use laws::{one_place, one_script, piecewise};
