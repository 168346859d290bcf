//! What comes of a run and goes to what stands behind it.

use sh_builtins::Flow;
use sh_expansion::Expanded;
use sh_meaning::Variable;
use span_text::{Flagged, List, Text};

/// The operands of an expression so far.
#[derive(Debug, Drop)]
pub struct Operands {
    pub numbers: List<i64>,
    /// Whether a command substitution ran.
    pub ran: bool,
}

/// The fields so far, of all words of a command.
#[derive(Debug, Drop)]
pub struct Fielded {
    pub fields: List<Flagged>,
    pub ran: bool,
}

/// What fields became.
#[derive(Debug, Drop)]
pub struct Arguments {
    pub texts: List<Text>,
    pub ran: bool,
}

/// How redirections went.
#[derive(Clone, Copy, Debug, PartialEq, Eq)]
pub enum Made {
    /// All were made; whether a command substitution ran.
    Done(bool),
    Failed,
}

/// What comes of a run.
#[derive(Debug, Drop)]
pub enum Payload {
    /// How commands ended.
    Ended(Flow),
    /// A word so far.
    Word(Expanded),
    Numbers(Operands),
    Fields(Fielded),
    Arguments(Arguments),
    /// Whether a pattern matched, or whether a command substitution ran.
    Truth(bool),
    /// What the names of a prefix had before it, the first of them first.
    Saved(List<(Text, Option<Variable>)>),
    Made(Made),
}
