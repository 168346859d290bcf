//! What the words ask for.

ghost use Rattle.std.specs.Prelude.{◌≡◌, ◌<◌, ◌^◌, map, string_bytes};
ghost use Rattle.bash2sh.specs.Program as program;

use crate::input::{LARGE_LIMIT, LIMIT};
use crate::language::Language;

/// A command of the program.
#[derive(Clone, Copy, Debug, PartialEq, Eq)]
pub enum Asked {
    /// `translate`: from a Bash script to sh text.
    Translate,
    /// `run-bash`, `run-sh`: from a job to the report of its run.
    Run(Language),
}

impl Asked {
    /// How many bytes it takes.
    pub fn limit(self) -> usize
        ensures is { result ≡ program.limit_of self }
        ensures small { result < 2 ^ 32 }
    {
        match self {
            Asked::Translate => LIMIT,
            Asked::Run(_) => LARGE_LIMIT,
        }
    }
}

fn asked_by(word: &[u8]) -> Option<Asked>
    ensures { result ≡ program.asked_by word.now }
{
    if word == b"translate".as_slice() {
        Some(Asked::Translate)
    } else if word == b"run-bash".as_slice() {
        Some(Asked::Run(Language::Bash))
    } else if word == b"run-sh".as_slice() {
        Some(Asked::Run(Language::Sh))
    } else {
        None
    }
}

/// The command that the words name, alone.
pub fn asked_of(words: &[String]) -> Option<Asked>
    ensures { result ≡ program.asked_of (map string_bytes words.now) }
{
    match words {
        [word] => asked_by(word.as_bytes()),
        _ => None,
    }
}
