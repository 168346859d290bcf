//! Bytes as the characters of a JSON text.

ghost use Rattle.std.specs.Prelude.{◌≡◌, IfOk, string_bytes};
ghost use Rattle.world_json.specs.Texts as texts;

use span_text::Memory;
use std::alloc::Global;

/// The text whose characters, from U+0000 to U+00FF, are these bytes.
pub(crate) fn characters(alloc: Global, bytes: &[u8]) -> Result<String, Memory>
    ensures { IfOk result (λ text. string_bytes text ≡ texts.characters bytes.now) }
{
    let mut text = String::new(alloc);
    for byte in bytes {
        text.push(char::from(*byte))?;
    }
    Ok(text)
}
