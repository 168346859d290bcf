//! What several tests share.

use crate::{JobFault, Reason, read};
use span_text::{List, Memory, Text};
use std::alloc::Global;

/// The list of these pairs.
pub(crate) fn pairs_of(
    alloc: Global,
    pairs: &[(&[u8], &[u8])],
) -> Result<List<(Text, Text)>, Memory> {
    let mut list = List::new(alloc);
    for (key, value) in pairs {
        list.push((Text::copy(alloc, key)?, Text::copy(alloc, value)?))?;
    }
    Ok(list)
}

/// The list of these texts.
pub(crate) fn texts_of(alloc: Global, texts: &[&[u8]]) -> Result<List<Text>, Memory> {
    let mut list = List::new(alloc);
    for text in texts {
        list.push(Text::copy(alloc, text)?)?;
    }
    Ok(list)
}

/// The most bytes of a script in tests of faults.
pub(crate) const LIMIT: u32 = 16;

/// Whether the job is refused with this pointer and reason.
pub(crate) fn is_refused(
    alloc: Global,
    job: &[u8],
    pointer: &str,
    reason: Reason,
) -> Result<bool, Memory> {
    let pointer = Text::copy(alloc, pointer.as_bytes())?;
    Ok(read(alloc, job, LIMIT) == Err(JobFault::BadWorld(pointer, reason)))
}
