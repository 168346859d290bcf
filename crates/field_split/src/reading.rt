//! The texts that `read` gives its names.

ghost use Rattle.std.specs.Prelude.{◌≡◌, ◌<◌, true, false, IfOk};
ghost use Rattle.std.specs.Option.{option_copied};
ghost use Rattle.field_split.specs.Fields.{separators};
ghost use Rattle.field_split.specs.Reading.{bytes_of, unescaped, line_items, without_end, texts_of};
ghost use Rattle.field_split.specs.Names.{last};

use crate::sort::{Sort, after, behind, field, is_of};
use crate::splitting::separators;
use span_text::{Flagged, Item, List, Mark, Memory, Text};
use std::alloc::Global;

#[tactic(auto, unfolding(crate::specs::Reading::line_items))]
fn plain(alloc: Global, line: &[u8]) -> Result<Flagged, Memory>
    ensures { IfOk result (λ items. items ≡ line_items true line.now) }
{
    let mut items = Flagged::new(alloc);
    for b in line {
        items.push(Item::Byte(*b, Mark::Value))?;
    }
    Ok(items)
}

#[tactic(auto, unfolding(crate::specs::Reading::line_items))]
fn unescaped(alloc: Global, line: &[u8]) -> Result<Flagged, Memory>
    ensures { IfOk result (λ items. items ≡ line_items false line.now) }
{
    let mut items = Flagged::new(alloc);
    let mut escaped = false;
    for b in line {
        match (escaped, *b) {
            (false, b'\\') => escaped = true,
            (false, b) => items.push(Item::Byte(b, Mark::Value))?,
            (true, b'\n') => escaped = false,
            (true, b) => {
                items.push(Item::Byte(b, Mark::Quoted))?;
                escaped = false;
            }
        }
    }
    Ok(items)
}

#[tactic(auto, unfolding(crate::specs::Reading::bytes_of))]
fn text_of(alloc: Global, items: &[Item]) -> Result<Text, Memory>
    ensures { IfOk result (λ text. text ≡ bytes_of items.now) }
{
    let mut bytes = Vec::new(alloc);
    for item in items {
        if let Item::Byte(b, _) = item {
            bytes.push(*b)?;
        }
    }
    Ok(Text::from_vec(bytes))
}

#[tactic(auto, unfolding(crate::specs::Reading::without_end))]
fn without_end<'a>(ifs: &[u8], items: &'a [Item]) -> &'a [Item]
    ensures { result.now ≡ without_end ifs.now items.now }
{
    let mut end = items.len();
    'end: while end > 0 && is_of(Sort::White, ifs, items[end - 1]) {
        end -= 1;
    }
    &items[..end]
}

/// What the last name gets of the text from its field on.
#[tactic(auto, unfolding(crate::specs::Names::last))]
fn last<'a>(ifs: &[u8], items: &'a [Item]) -> &'a [Item]
    ensures { result.now ≡ last ifs.now items.now }
{
    if behind(ifs, items).is_empty() {
        field(ifs, items)
    } else {
        without_end(ifs, items)
    }
}

fn texts_of(alloc: Global, items: &[Item], ifs: &[u8], n: usize) -> Result<List<Text>, Memory>
    requires { 0 < n }
    ensures { IfOk result (λ texts. texts ≡ texts_of ifs.now n items.now) }
{
    let mut texts = List::new(alloc);
    let mut rest = after(Sort::White, ifs, items);
    'names: for _ in 1..n {
        texts.push(text_of(alloc, field(ifs, rest))?)?;
        rest = behind(ifs, rest);
    }
    texts.push(text_of(alloc, last(ifs, rest))?)?;
    Ok(texts)
}

/// What `read` gives n names, n texts. The line is split as a word that came from an expansion. Unless `raw` (`-r`), a
/// backslash keeps the byte behind it, which then splits nothing, goes with a newline behind it, and is dropped at
/// the end. A name without a field gets no byte. Where there are more fields than names, the last name gets the text
/// from its field to the end without the IFS white space there. See the Bash manual's "Bash Builtin Commands", `read`.
pub fn read_fields(
    alloc: Global,
    line: &[u8],
    ifs: Option<&[u8]>,
    raw: bool,
    n: usize,
) -> Result<List<Text>, Memory>
    requires { 0 < n }
    ensures { IfOk result (λ texts. texts ≡ texts_of (separators (option_copied ifs.entry)) n (line_items raw line.now)) }
{
    let items = if raw {
        plain(alloc, line)?
    } else {
        unescaped(alloc, line)?
    };
    texts_of(alloc, items.items(), separators(ifs), n)
}
