//! Lists of texts as one text.

ghost use Rattle.std.specs.Prelude.{◌≡◌, ◌≢◌, ◌<◌, ◌^◌, ℕ, ◌++◌, MatchOption, IfOk, decimal};
ghost use Rattle.name_codec.specs.Encoding.{entry_text, encoded, Decodes, NoEntry};

use itoa::Buffer;
use memchr::memchr;
use span_text::{List, Memory, Text};
use std::alloc::Global;

/// The list as one text: of each entry its length in bytes, in decimal, then a colon and its bytes.
pub fn encode(alloc: Global, entries: &List<Text>) -> Result<Text, Memory>
    ensures { IfOk result (λ text. text ≡ encoded entries.now) }
{
    let mut text = Text::new(alloc);
    for entry in entries.as_slice() {
        append_entry(&mut text, entry.bytes())?;
    }
    Ok(text)
}

fn append_entry(text: &mut Text, entry: &[u8]) -> Result<(), Memory>
    ensures { IfOk result (λ _. text.new ≡ text.old ++ entry_text entry.now) }
{
    let mut buffer = Buffer::new();
    text.append(buffer.format(entry.len()).as_bytes())?;
    text.append(b":")?;
    text.append(entry)
}

/// The list of which this is the text, or None where it is the text of no list.
pub fn decode(alloc: Global, text: &[u8]) -> Result<Option<List<Text>>, Memory>
    ensures { IfOk result (Decodes text.now) }
{
    let mut entries = List::new(alloc);
    let mut rest = text;
    'entries: while !rest.is_empty() {
        match take_entry(rest) {
            None => return Ok(None),
            Some((entry, behind)) => {
                entries.push(Text::copy(alloc, entry)?)?;
                rest = behind;
            }
        }
    }
    Ok(Some(entries))
}

/// The first entry, and what stands behind it.
fn take_entry(text: &[u8]) -> Option<(&[u8], &[u8])>
    ensures { MatchOption result (NoEntry text.now) (λ front. text.now ≡ entry_text front.0.now ++ front.1.now) }
{
    let colon = memchr(b':', text)?;
    let length = number_of(&text[..colon])?;
    let behind = &text[colon + 1..];
    if length > behind.len() {
        return None;
    }
    Some(behind.split_at(length))
}

/// The number of 64 bits of which these are the decimal digits, without a leading zero.
fn number_of(digits: &[u8]) -> Option<usize>
    ensures { MatchOption result ((n : ℕ) → n < 2 ^ 64 → digits.now ≢ decimal n) (λ n. digits.now ≡ decimal n) }
{
    let Ok(text) = str::from_utf8(digits) else {
        return None;
    };
    let Ok(number) = text.parse::<usize>() else {
        return None;
    };
    // What `parse` takes beside: a sign, and leading zeros.
    let mut buffer = Buffer::new();
    if buffer.format(number).as_bytes() == digits {
        Some(number)
    } else {
        None
    }
}
