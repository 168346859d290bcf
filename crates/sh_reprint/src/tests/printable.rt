//! Scripts that can be printed, and scripts that no text spells.

mod commands;
mod long;
mod nested;
mod sums;
mod words;

use sh_printer::printable;
use sh_syntax::Script;
use std::process::Abort;
use std::test::Fail;

/// A script, and whether it can be printed.
pub fn shows(rt: &impl Abort, script: Script, wanted: bool) -> Result<(), Fail> {
    assert_eq!(rt; printable(&script), wanted);
    Ok(())
}
