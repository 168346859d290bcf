//! The operators and brackets of arithmetic, as they are written (Bash manual, section 6.5).

use crate::expr::BinOp;

/// An operator between two operands.
#[derive(Clone, Copy)]
pub enum Infix {
    Plain(BinOp),
    /// `&&`
    And,
    /// `||`
    Or,
    /// `,`
    Comma,
}

/// An operator or a bracket.
#[derive(Clone, Copy)]
pub enum Sign {
    /// An operator between two operands. `+` and `-` also stand before one.
    Between(Infix),
    /// `=`, and `+=` with the operator.
    Assign(Option<BinOp>),
    /// `!`
    Not,
    /// `~`
    Complement,
    /// `++`
    Increment,
    /// `--`
    Decrement,
    /// `?`
    Question,
    /// `:`
    Colon,
    /// `(`
    Open,
    /// `)`
    Close,
    /// `]`
    EndIndex,
}
