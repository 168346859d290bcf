//! Fields of a job by themselves: texts, numbers, lists and objects.

ghost use Rattle.std.specs.Prelude.{◌≡◌, [], true, false, map, option_map, string_bytes, MatchOption};
ghost use Rattle.std.specs.List.{list_any};
ghost use Rattle.span_text.specs.KnownNames as known;
ghost use Rattle.serde_json.specs.View.{view, items_view, members_view};
ghost use Rattle.serde_json.specs.Data.{Data};
ghost use Rattle.world_json.specs.Judging as judging;

use crate::fault::{JobFault, Reason, refused, within};
use itoa::Buffer;
use serde_json::{Map, Value};
use span_text::{List, Text};
use std::alloc::Global;

/// A text whose characters, U+0001 to U+00FF, stand for the bytes of their numbers.
pub(crate) fn text(alloc: Global, value: &Value) -> Result<Text, JobFault>
    ensures { judging.IsJudged (judging.text_of (view value.now)) result }
{
    match value.as_str() {
        Some(text) => bytes(alloc, text),
        None => Err(refused(alloc, Reason::WrongType)),
    }
}

/// The bytes for which the characters stand.
pub(crate) fn bytes(alloc: Global, text: &str) -> Result<Text, JobFault>
    ensures { judging.IsJudged (judging.bytes_of text.now) result }
{
    let mut bytes = Vec::new(alloc);
    for character in text.chars() {
        let Some(byte) = byte_of(character) else {
            return Err(refused(alloc, Reason::NotBytes));
        };
        bytes.push(byte)?;
    }
    Ok(Text::from_vec(bytes))
}

/// What is written of bytes from 1 to 255 is read as them, and no other text is read.
#[tactic(auto, using(crate::proofs::TextLaws::texts_are))]
pub fn texts_are_characters()
    ensures { judging.TextsAreCharacters }
{}

/// The byte of the character's number.
fn byte_of(character: char) -> Option<u8>
    ensures { MatchOption result (judging.stands_for_byte character ≡ false)
        (λ byte. (byte ≡ character) × (judging.stands_for_byte character ≡ true)) }
{
    let number = character as u32;
    if 1 <= number && number <= 255 {
        Some(number as u8)
    } else {
        None
    }
}

/// A whole number in these bounds.
pub(crate) fn number(alloc: Global, value: &Value, low: u32, high: u32) -> Result<u32, JobFault>
    ensures { judging.IsJudged (judging.number_of low high (view value.now)) result }
{
    let Some(number) = value.as_number() else {
        return Err(refused(alloc, Reason::WrongType));
    };
    if number.is_f64() {
        return Err(refused(alloc, Reason::WrongType));
    }
    match number.as_u64() {
        Some(n) if low as u64 <= n && n <= high as u64 => Ok(n as u32),
        _ => Err(refused(alloc, Reason::Range)),
    }
}

/// What lists of a job hold.
pub(crate) trait Item: Drop + Sized {
    ghost judged: { Data → judging.Judged Self };

    /// The item that the value is.
    fn judge(alloc: Global, value: &Value) -> Result<Self, JobFault>
        ensures { judging.IsJudged (judged (view value.now)) result };
}

impl Item for Text {
    ghost judged = { judging.text_of };

    fn judge(alloc: Global, value: &Value) -> Result<Text, JobFault> {
        text(alloc, value)
    }
}

/// The list of these items.
fn items<T: Item>(alloc: Global, values: &Vec<Value>) -> Result<List<T>, JobFault>
    ensures { judging.IsJudged (judging.items_of T.judged 0 (items_view values.now.items)) result }
{
    let mut list = List::new(alloc);
    for value in values {
        let mut buffer = Buffer::new();
        let index = buffer.format(list.len());
        list.push(within(alloc, index.as_bytes(), T::judge(alloc, value))?)?;
    }
    Ok(list)
}

/// A list.
pub(crate) fn list<T: Item>(alloc: Global, value: &Value) -> Result<List<T>, JobFault>
    ensures { judging.IsJudged (judging.list_of T.judged (view value.now)) result }
{
    match value.as_array() {
        Some(values) => items(alloc, values),
        None => Err(refused(alloc, Reason::WrongType)),
    }
}

/// A list of one item at least.
pub(crate) fn some<T: Item>(alloc: Global, value: &Value) -> Result<List<T>, JobFault>
    ensures { judging.IsJudged (judging.some_of T.judged (view value.now)) result }
{
    match value.as_array() {
        Some(values) if values.as_slice().is_empty() => Err(refused(alloc, Reason::Empty)),
        Some(values) => items(alloc, values),
        None => Err(refused(alloc, Reason::WrongType)),
    }
}

/// Sees that the value is an object with these members alone.
pub(crate) fn only(alloc: Global, value: &Value, names: &[&[u8]]) -> Result<(), JobFault>
    ensures { judging.IsJudged (judging.only (map (λ name. name.now) names.now) (view value.now)) result }
{
    let Some(members) = value.as_object() else {
        return Err(refused(alloc, Reason::WrongType));
    };
    match first_unknown(names, members) {
        Some(name) => within(alloc, name.as_bytes(), Err(refused(alloc, Reason::Unknown))),
        None => Ok(()),
    }
}

/// The first name of a member that isn't among these.
fn first_unknown<'m>(names: &[&[u8]], members: &'m Map<String, Value>) -> Option<&'m String>
    ensures { option_map (λ name. string_bytes name.now) result
        ≡ judging.first_unknown (map (λ name. name.now) names.now) (members_view members.now.entries) }
{
    for (name, _member) in members.iter() {
        if !is_among(names, name.as_bytes()) {
            return Some(name);
        }
    }
    None
}

fn is_among(names: &[&[u8]], text: &[u8]) -> bool
    ensures { result ≡ list_any (λ name. known.same_text name.now text.now) names.now }
{
    names.iter().any(|name| *name == text)
}

/// The text of this member, or the empty text where it is missing.
pub(crate) fn text_member(alloc: Global, value: &Value, name: &str) -> Result<Text, JobFault>
    ensures { judging.IsJudged (judging.member_or [] judging.text_of name.now (view value.now)) result }
{
    match value.get(name) {
        Some(member) => within(alloc, name.as_bytes(), text(alloc, member)),
        None => Ok(Text::new(alloc)),
    }
}

/// The number of this member, or another where it is missing.
pub(crate) fn number_member(
    alloc: Global,
    value: &Value,
    name: &str,
    missing: u32,
    low: u32,
    high: u32,
) -> Result<u32, JobFault>
    ensures { judging.IsJudged
        (judging.member_or missing (judging.number_of low high) name.now (view value.now)) result }
{
    match value.get(name) {
        Some(member) => within(alloc, name.as_bytes(), number(alloc, member, low, high)),
        None => Ok(missing),
    }
}
