//! Reserved words, and the options of `time` (Bash manual, sections 3.2.1, 3.2.3).

/// Reserved words.
#[derive(Clone, Copy)]
pub enum Key {
    If,
    Then,
    Elif,
    Else,
    Fi,
    For,
    In,
    Until,
    While,
    Do,
    Done,
    Case,
    Esac,
    Select,
    Function,
    Time,
    Coproc,
    /// `{`
    OpenBrace,
    /// `}`
    CloseBrace,
    /// `[[`
    OpenCond,
    /// `]]`
    CloseCond,
    /// `!`
    Bang,
}

/// An option of `time`.
#[derive(Clone, Copy)]
pub enum Flag {
    /// `-p`
    Posix,
    /// `--`
    Last,
}
