//! Fields become names of files, and lose their quotes (POSIX XCU 2.6.6, 2.6.7).

ghost use Rattle.std.specs.Prelude.{◌≡◌, ◌==◌, ◌∷◌, [], length, Some, None, is_some, if◌then◌else◌, IfOk};
ghost use Rattle.field_split.specs.Reading.{bytes_of};
ghost use Rattle.glob_pattern.specs.Paths.{found_paths};
ghost use Rattle.glob_pattern.specs.Reading.{doubt_of};
ghost use Rattle.glob_pattern.specs.declared.sign.Use.TheVariants as use_of;
ghost use Rattle.sh_meaning.specs.Pathnames as pathnames;

use crate::expanded::bytes_of;
use glob_pattern::{PatternFault, paths};
use span_text::{Flagged, Item, List, Mark, Memory, Text};
use std::alloc::Global;

fn is_special(b: u8) -> bool
    ensures { result ≡ pathnames.is_special b }
{
    b == b'*' || b == b'?' || b == b'['
}

/// Whether an item is an unquoted `*`, `?` or `[`.
fn is_active(item: Item) -> bool
    ensures { result ≡ pathnames.is_active item }
{
    match item {
        Item::Byte(b, Mark::Written | Mark::Value) => is_special(b),
        Item::Byte(_, Mark::Quoted) | Item::Quote => false,
    }
}

fn is_pattern(field: &[Item]) -> bool
    ensures { result ≡ pathnames.is_pattern field.now }
{
    field.iter().any(|item| is_active(*item))
}

/// A field as it is.
fn only(alloc: Global, field: &Flagged) -> Result<List<Text>, Memory>
    ensures { IfOk result (λ texts. texts ≡ bytes_of field.now ∷ []) }
{
    let mut texts = List::new(alloc);
    texts.push(bytes_of(alloc, field.items())?)?;
    Ok(texts)
}

/// The names that a pattern found, in the order of their bytes; the field itself where there are none.
fn found_or(alloc: Global, field: &Flagged, found: List<Text>) -> Result<List<Text>, Memory>
    ensures { IfOk result (λ texts. texts ≡ (if length found == 0 then bytes_of field.now ∷ [] else found)) }
{
    if found.len() == 0 {
        return only(alloc, field);
    }
    Ok(found)
}

/// What a field with a pattern becomes.
#[tactic(auto, using(crate::proofs::Orders::found_is))]
fn found_texts(
    alloc: Global,
    names: &List<Text>,
    field: &Flagged,
) -> Result<Option<List<Text>>, Memory>
    ensures { IfOk result (λ texts. texts ≡ (if is_some (doubt_of use_of.Path field.now) then None else Some (pathnames.found_or (bytes_of field.now) (found_paths field.now names.now)))) }
{
    match paths(alloc, field, names) {
        Ok(found) => Ok(Some(found_or(alloc, field, found)?)),
        Err(PatternFault::Doubtful(_)) => Ok(None),
        Err(PatternFault::Memory) => Err(Memory {}),
    }
}

/// What a field becomes among the names of files; None where its pattern is doubtful.
#[tactic(auto, unfolding(sh_meaning::specs::Pathnames::field_texts))]
pub fn field_texts(
    alloc: Global,
    names: &List<Text>,
    field: &Flagged,
) -> Result<Option<List<Text>>, Memory>
    ensures { IfOk result (λ texts. texts ≡ pathnames.field_texts names.now field.now) }
{
    if is_pattern(field.items()) {
        return found_texts(alloc, names, field);
    }
    Ok(Some(only(alloc, field)?))
}

/// Puts the texts of a field behind others; whether its pattern is clear.
fn append_texts(
    alloc: Global,
    names: &List<Text>,
    field: &Flagged,
    all: &mut Vec<Text>,
) -> Result<bool, Memory>
    ensures { IfOk result (λ clear. pathnames.both (Some all.old.items) (pathnames.field_texts names.now field.now) ≡ (if clear then Some all.new.items else None)) }
{
    match field_texts(alloc, names, field)? {
        None => Ok(false),
        Some(texts) => {
            let mut texts = texts.into_vec();
            all.append(&mut texts)?;
            Ok(true)
        }
    }
}

/// The texts of all fields among the names of files (`Outside::names`); None where the pattern of one is doubtful.
#[tactic(auto, using(crate::proofs::Orders::both_assoc, crate::proofs::Orders::both_none))]
pub fn texts_among(
    alloc: Global,
    names: &List<Text>,
    fields: &[Flagged],
) -> Result<Option<List<Text>>, Memory>
    ensures { IfOk result (λ texts. texts ≡ pathnames.texts_among names.now fields.now) }
{
    let mut all = Vec::new(alloc);
    for field in fields {
        if !append_texts(alloc, names, field, &mut all)? {
            return Ok(None);
        }
    }
    Ok(Some(List::from_vec(all)))
}
