//! The cell of a variable.

use span_text::Text;

/// What a cell holds.
#[derive(Debug, PartialEq, Drop)]
pub enum Value {
    Unset,
    /// A text.
    One(Text),
}

/// A variable's cell in a scope.
#[derive(Debug, PartialEq, Drop)]
pub struct Cell {
    pub value: Value,
    pub exported: bool,
    /// The mark of `declare -A`.
    pub assoc: bool,
}
