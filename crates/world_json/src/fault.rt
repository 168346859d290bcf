//! Why bytes are no job.

ghost use Rattle.std.specs.Prelude.{◌≡◌, ◌++◌, [], IfOk};
ghost use Rattle.std.specs.List.{flat_map};
ghost use Rattle.world_json.specs.declared.fault.JobFault.TheVariants as fault;
ghost use Rattle.world_json.specs.Judging as judging;

use span_text::{Memory, Text};
use std::alloc::{AllocError, AllocFailed, Global};
use thiserror::Error;

/// Why a field is bad. Of several reasons the first in this order is told.
#[derive(Clone, Copy, Debug, PartialEq, Eq)]
pub enum Reason {
    /// The bytes are no JSON object in UTF-8.
    Json,
    /// No member has this name here.
    Unknown,
    /// The member isn't there.
    Missing,
    /// The value isn't of the member's type.
    WrongType,
    /// A character of the text stands for no byte.
    NotBytes,
    /// The number or the word isn't one that may stand here.
    Range,
    /// The list has no item.
    Empty,
    /// The script is longer than may be.
    TooLong,
    /// It is no name of a variable.
    Name,
    /// The name is kept for translated scripts.
    Reserved,
    /// Shells set or read a variable of this name by themselves.
    Special,
    /// It is no path.
    Path,
    /// A folder of this path is a file.
    PathClash,
}

impl Reason {
    /// The word for it in a message.
    pub fn word(self) -> &'static str
        ensures { result.now ≡ judging.reason_word self }
    {
        match self {
            Reason::Json => "json",
            Reason::Unknown => "unknown",
            Reason::Missing => "missing",
            Reason::WrongType => "type",
            Reason::NotBytes => "not-bytes",
            Reason::Range => "range",
            Reason::Empty => "empty",
            Reason::TooLong => "too-long",
            Reason::Name => "name",
            Reason::Reserved => "reserved",
            Reason::Special => "special",
            Reason::Path => "path",
            Reason::PathClash => "path-clash",
        }
    }
}

/// The pointer to the first bad field (RFC 6901, in UTF-8), and why it is bad.
#[derive(Debug, Drop, PartialEq, Error)]
pub enum JobFault {
    #[error("bad world")]
    BadWorld(Text, Reason),
    #[error("out of memory")]
    Memory,
}

impl From<AllocError> for JobFault {
    ghost from_gives = { λ _ e. e ≡ fault.Memory };

    fn from(_: AllocError) -> JobFault {
        JobFault::Memory
    }
}

impl From<Memory> for JobFault {
    ghost from_gives = { λ _ e. e ≡ fault.Memory };

    fn from(_: Memory) -> JobFault {
        JobFault::Memory
    }
}

impl<T: Drop> From<AllocFailed<T>> for JobFault {
    ghost from_gives = { λ _ e. e ≡ fault.Memory };

    fn from(_: AllocFailed<T>) -> JobFault {
        JobFault::Memory
    }
}

/// The fault of a field by itself. It takes no memory.
pub(crate) fn refused(alloc: Global, reason: Reason) -> JobFault
    ensures { result ≡ fault.BadWorld [] reason }
{
    JobFault::BadWorld(Text::new(alloc), reason)
}

/// The answer on a member or an item of this name, from where it stands.
pub(crate) fn within<T: Drop>(
    alloc: Global,
    name: &[u8],
    field: Result<T, JobFault>,
) -> Result<T, JobFault>
    ensures { (judged : judging.Judged T) → judging.IsJudged judged field → judging.IsJudged (judging.within name.now judged) result }
{
    match field {
        Err(JobFault::BadWorld(pointer, reason)) => Err(JobFault::BadWorld(
            behind(alloc, name, &pointer)?,
            reason,
        )),
        field => field,
    }
}

/// The pointer behind the step to a member or an item of this name.
fn behind(alloc: Global, name: &[u8], pointer: &Text) -> Result<Text, Memory>
    ensures { IfOk result (λ whole. whole ≡ judging.step_to name.now ++ pointer.now) }
{
    let mut whole = Text::copy(alloc, b"/")?;
    append_escaped(&mut whole, name)?;
    whole.append(pointer.bytes())?;
    Ok(whole)
}

fn append_escaped(text: &mut Text, name: &[u8]) -> Result<(), Memory>
    ensures { IfOk result (λ _. text.new ≡ text.old ++ flat_map judging.escaped_byte name.now) }
{
    for byte in name {
        append_escaped_byte(text, *byte)?;
    }
    Ok(())
}

fn append_escaped_byte(text: &mut Text, byte: u8) -> Result<(), Memory>
    ensures { IfOk result (λ _. text.new ≡ text.old ++ judging.escaped_byte byte) }
{
    match byte {
        b'~' => text.append(b"~0"),
        b'/' => text.append(b"~1"),
        _ => text.append(&[byte]),
    }
}
