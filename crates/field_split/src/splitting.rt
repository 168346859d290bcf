//! The fields of a word after its expansion.

ghost use Rattle.std.specs.Prelude.{◌≡◌, ℕ, List, IfOk};
ghost use Rattle.std.specs.Option.{option_copied};
ghost use Rattle.field_split.specs.Fields.{separators, fields};
ghost use Rattle.field_split.specs.Cuts.{AreFields};
ghost use Rattle.span_text.specs.declared.flagged.Item.{Item};

use crate::sort::{Sort, after, behind, field};
use span_text::{Flagged, Item, List, Memory};
use std::alloc::Global;

/// The separators where IFS has this value; None is an unset IFS.
#[inline]
pub fn separators(ifs: Option<&[u8]>) -> &[u8]
    ensures { result.now ≡ separators (option_copied ifs.entry) }
{
    match ifs {
        None => b" \t\n",
        Some(bytes) => bytes,
    }
}

fn split_at(alloc: Global, items: &[Item], ifs: &[u8]) -> Result<List<Flagged>, Memory>
    ensures { IfOk result (λ all. all ≡ fields ifs.now items.now) }
{
    let mut all = List::new(alloc);
    let mut rest = after(Sort::White, ifs, items);
    'fields: while !rest.is_empty() {
        all.push(Flagged::copy(alloc, field(ifs, rest))?)?;
        rest = behind(ifs, rest);
    }
    Ok(all)
}

/// The fields of an expanded word. Its `Value` bytes in IFS split it: white space among them at the word's ends is
/// dropped, each run of it and each other separator ends a field, and a separator at the end begins none. A field
/// keeps its items with their marks. An unset IFS (None) is space, tab and newline, an empty one splits nothing; a
/// word without items has no field. See the Bash manual's "Word Splitting".
pub fn split(alloc: Global, text: &Flagged, ifs: Option<&[u8]>) -> Result<List<Flagged>, Memory>
    ensures { IfOk result (λ all. all ≡ fields (separators (option_copied ifs.entry)) text.now) }
{
    split_at(alloc, text.items(), separators(ifs))
}

/// The fields are the parts of a text between its delimiters, each of which is as long as it can be, and no other list
/// is.
pub fn fields_between()
    ensures are { (ifs : List ℕ) (text : List Item) → AreFields ifs (fields ifs text) text }
    ensures alone { (ifs : List ℕ) (text : List Item) (all : List (List Item)) → AreFields ifs all text → all ≡ fields ifs text }
{}
