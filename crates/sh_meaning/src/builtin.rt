//! The built-ins of sh.

/// A command that the shell runs by itself (POSIX XCU 2.14, and the utilities that shells build in).
#[derive(Clone, Copy, Debug, PartialEq, Eq)]
pub enum Builtin {
    /// `:`
    Colon,
    True,
    False,
    Break,
    Continue,
    Return,
    Exit,
    /// `set -- a b`
    Set,
    Shift,
    /// `export a=b`
    Export,
    Unset,
    Printf,
    Read,
    /// `test -f a`
    Test,
    /// `[ -f a ]`
    Bracket,
    Echo,
}
