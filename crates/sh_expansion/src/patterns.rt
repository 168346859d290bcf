//! Patterns that a word of the script gives (POSIX XCU 2.6.2, 2.13).

ghost use Rattle.std.specs.Prelude.{◌≡◌, ℕ, ◌-◌, Bool, List, Option, Some, None, length, drop, take, is_some, if◌then◌else◌, IfOk};
ghost use Rattle.glob_pattern.specs.Reading.{pieces_of, doubt_of};
ghost use Rattle.glob_pattern.specs.declared.sign.Use.TheVariants as use_of;
ghost use Rattle.sh_meaning.specs.Parameters as parameters;

use glob_pattern::{Pattern, PatternFault};
use span_text::{Flagged, Memory, Text};
use std::alloc::Global;

/// The pattern that a word's text is; None where it is doubtful.
pub fn pattern_of(alloc: Global, text: &Flagged) -> Result<Option<Pattern>, Memory>
    ensures { IfOk result (λ pattern. pattern ≡ (if is_some (doubt_of use_of.Text text.now) then None else Some (pieces_of text.now))) }
{
    match Pattern::read(alloc, text) {
        Ok(pattern) => Ok(Some(pattern)),
        Err(PatternFault::Doubtful(_)) => Ok(None),
        Err(PatternFault::Memory) => Err(Memory {}),
    }
}

fn without_front(len: Option<usize>, text: &[u8]) -> &[u8]
    ensures { result.now ≡ parameters.without_front len text.now }
{
    match len {
        None => text,
        Some(n) => {
            if n < text.len() {
                &text[n..]
            } else {
                &text[text.len()..]
            }
        }
    }
}

fn without_end(len: Option<usize>, text: &[u8]) -> &[u8]
    ensures { result.now ≡ parameters.without_end len text.now }
{
    match len {
        None => text,
        Some(n) => &text[..text.len().saturating_sub(n)],
    }
}

/// What is left of a text without the shortest or the longest front or end that matches; all where none does.
fn rest_of<'t>(suffix: bool, longest: bool, pattern: &Pattern, text: &'t [u8]) -> &'t [u8]
    ensures { result.now ≡ parameters.trimmed suffix longest pattern.now text.now }
{
    match (suffix, longest) {
        (false, false) => without_front(pattern.shortest_prefix(text), text),
        (false, true) => without_front(pattern.longest_prefix(text), text),
        (true, false) => without_end(pattern.shortest_suffix(text), text),
        (true, true) => without_end(pattern.longest_suffix(text), text),
    }
}

/// `${a#w}`, `${a##w}`, `${a%w}`, `${a%%w}`: a text without the front or the end that matches (2.6.2).
pub fn trimmed(
    alloc: Global,
    suffix: bool,
    longest: bool,
    pattern: &Pattern,
    text: &[u8],
) -> Result<Text, Memory>
    ensures { IfOk result (λ t. t ≡ parameters.trimmed suffix longest pattern.now text.now) }
{
    Text::copy(alloc, rest_of(suffix, longest, pattern, text))
}
