//! A variable.

use span_text::Text;

/// A variable of sh (POSIX 2.5.3).
#[derive(Debug, PartialEq, Drop)]
pub struct Variable {
    /// Its text, where it has one.
    pub value: Option<Text>,
    pub exported: bool,
}
