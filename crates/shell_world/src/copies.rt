//! Copies of lists of texts.

ghost use Rattle.std.specs.Prelude.{◌≡◌, IfOk};

use span_text::{List, Memory, Text};
use std::alloc::Global;

/// The same texts in a list of their own.
pub fn copy_texts(alloc: Global, texts: &List<Text>) -> Result<List<Text>, Memory>
    ensures { IfOk result (λ l. l ≡ texts.now) }
{
    let mut copied = List::new(alloc);
    for text in texts.as_slice() {
        copied.push(Text::copy(alloc, text.bytes())?)?;
    }
    Ok(copied)
}

fn copy_pair(alloc: Global, pair: &(Text, Text)) -> Result<(Text, Text), Memory>
    ensures { IfOk result (λ p. p ≡ pair.now) }
{
    Ok((
        Text::copy(alloc, pair.0.bytes())?,
        Text::copy(alloc, pair.1.bytes())?,
    ))
}

/// The same pairs in a list of their own.
pub fn copy_pairs(alloc: Global, pairs: &List<(Text, Text)>) -> Result<List<(Text, Text)>, Memory>
    ensures { IfOk result (λ l. l ≡ pairs.now) }
{
    let mut copied = List::new(alloc);
    for pair in pairs.as_slice() {
        copied.push(copy_pair(alloc, pair)?)?;
    }
    Ok(copied)
}
