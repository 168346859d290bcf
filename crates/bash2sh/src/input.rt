//! The bytes of a script.

ghost use Rattle.std.specs.Prelude.{◌≡◌, ◌<◌, ◌^◌, length};
ghost use Rattle.bash2sh.specs.declared.input.InputFault.TheVariants as input;
ghost use Rattle.bash2sh.specs.Answers.{GivesInput};
ghost use Rattle.bash2sh.specs.Input.{Reads};

use span_text::{Failed, Memory, Source, Text};
use std::alloc::{AllocError, Global};

/// How many bytes a Bash script may have.
pub const LIMIT: usize = 1_048_576;

/// How many bytes sh text and a job may have.
pub const LARGE_LIMIT: usize = 16_777_216;

/// How many bytes are asked for at once.
const PIECE: usize = 4_096;

/// Why a script's text could not be taken.
#[derive(Debug, Drop)]
pub enum InputFault {
    Memory,
    /// The source failed.
    Failed,
    /// It has more bytes than a script may have.
    TooLong,
}

impl From<Memory> for InputFault {
    ghost from_gives = { λ _ e. e ≡ input.Memory };

    fn from(_: Memory) -> InputFault {
        InputFault::Memory
    }
}

impl From<AllocError> for InputFault {
    ghost from_gives = { λ _ e. e ≡ input.Memory };

    fn from(_: AllocError) -> InputFault {
        InputFault::Memory
    }
}

impl From<Failed> for InputFault {
    ghost from_gives = { λ _ e. e ≡ input.Failed };

    fn from(_: Failed) -> InputFault {
        InputFault::Failed
    }
}

/// Reads once, as many bytes as there is room for at most, and puts them behind the text.
fn read_some<S: Source>(
    source: &mut S,
    room: &mut [u8],
    text: &mut Text,
) -> Result<usize, InputFault>
    ensures { Reads (S.left source.old) (S.left source.new) (S.faults source.old) (S.faults source.new) text.old text.new (length room.old) result }
{
    let count = source.read(room)?;
    let (front, _) = room.split_at(count);
    text.append(front)?;
    Ok(count)
}

/// All bytes of the source, at most so many.
pub fn read_all<S: Source>(alloc: Global, source: &mut S, limit: usize) -> Result<Text, InputFault>
    requires { limit < 2 ^ 32 }
    ensures { GivesInput limit (S.left source.old) (S.left source.new) (S.faults source.old) (S.faults source.new) result }
{
    let mut buffer = [0u8; PIECE];
    let mut text = Text::new(alloc);
    'pieces: while text.bytes().len() <= limit {
        let rest = limit + 1 - text.bytes().len();
        let (room, _) = buffer.split_at_mut(rest.min(PIECE));
        if read_some(source, room, &mut text)? == 0 {
            return Ok(text);
        }
    }
    Err(InputFault::TooLong)
}
