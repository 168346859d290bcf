//! What a run is given, and the calls that it makes.

use span_text::{List, Text};

/// What a run is given.
#[derive(Debug, PartialEq, Drop)]
pub struct World {
    /// `$0` and the positional parameters.
    pub args: List<Text>,
    /// Names and values of the environment.
    pub env: List<(Text, Text)>,
    /// Paths and bytes of the files.
    pub files: List<(Text, Text)>,
    /// The table that answers external commands.
    pub rows: List<Row>,
    /// The bytes of standard input.
    pub stdin: Text,
    pub bounds: Bounds,
    pub latitude: Latitude,
}

/// The most turns of loops and calls, and the most calls of functions that run at once.
#[derive(Clone, Copy, Debug, PartialEq, Eq)]
pub struct Bounds {
    pub turns: u32,
    pub depth: u32,
}

/// What the standard leaves open to an sh (POSIX 2.9.2 and 2.8.1).
#[derive(Clone, Copy, Debug, PartialEq, Eq)]
pub struct Latitude {
    /// Whether the last stage of a pipeline of two or more runs in the current environment.
    pub last_current: bool,
    /// The status, from 1 to 125, of a failed redirection.
    pub redirect: u8,
}

/// A row of the table of external commands.
#[derive(Debug, PartialEq, Drop)]
pub struct Row {
    pub key: RowKey,
    pub input: RowInput,
    /// The answers in turn, of which the last repeats.
    pub answers: List<Answer>,
}

/// Which calls a row answers.
#[derive(Debug, PartialEq, Drop)]
pub enum RowKey {
    /// Those with just these arguments, the command's name first.
    Whole(List<Text>),
    /// Those of the command of this name.
    Name(Text),
}

/// What a row takes of the rest of standard input.
#[derive(Debug, PartialEq, Drop)]
pub enum RowInput {
    /// Nothing of it.
    Nothing,
    /// All of it.
    Any,
    /// All of it, and the row answers only where it is this text.
    Exactly(Text),
}

/// What a command does.
#[derive(Debug, PartialEq, Drop)]
pub struct Answer {
    pub status: u8,
    pub out: Text,
    pub err: Text,
}

/// An external command that was called.
#[derive(Debug, PartialEq, Drop)]
pub struct Call {
    /// The arguments, the command's name first.
    pub argv: List<Text>,
    /// The exported environment, sorted by name.
    pub env: List<(Text, Text)>,
    /// The input that was taken, where any could be.
    pub input: Option<Text>,
    /// The index of the row that answered.
    pub row: Option<usize>,
}

/// How a run ends.
#[derive(Clone, Copy, Debug, PartialEq, Eq)]
pub enum End {
    /// With this status.
    Ended(u8),
    /// It goes on beyond its bounds.
    GoesOn,
    /// The standard, or the profile of it, doesn't say what comes.
    Unspecified,
}

/// What a run did.
#[derive(Debug, PartialEq, Drop)]
pub struct Report {
    pub end: End,
    /// The external commands that were called, in their order.
    pub calls: List<Call>,
    /// What was written on standard output, and on standard error.
    pub out: Text,
    pub err: Text,
    /// The files in the order of the bytes of their paths, where the run ended.
    pub files: Option<List<(Text, Text)>>,
    /// The turns that were used.
    pub turns: u32,
}
