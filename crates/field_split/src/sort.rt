//! Which items of a text split it.

ghost use Rattle.std.specs.Prelude.{◌≡◌, ◌==◌, ◌≤◌, length};
ghost use Rattle.std.specs.List.{prefix_len, list_any};
ghost use Rattle.field_split.specs.Fields.{splits, is_blank, is_of, after, after_one, field, behind};
ghost use Rattle.field_split.specs.declared.sort.Sort.TheVariants as sort;

use span_text::{Item, Mark};

#[derive(Clone, Copy)]
pub enum Sort {
    /// A part of a field.
    Kept,
    /// IFS white space.
    White,
    /// Another separator.
    Other,
}

fn is_among(ifs: &[u8], b: u8) -> bool
    ensures { result ≡ list_any (λ x. x == b) ifs.now }
{
    ifs.iter().any(|x| *x == b)
}

fn is_separator(ifs: &[u8], item: Item) -> bool
    ensures { result ≡ splits ifs.now item }
{
    match item {
        Item::Byte(b, Mark::Value) => is_among(ifs, b),
        Item::Byte(_, Mark::Written | Mark::Quoted) | Item::Quote => false,
    }
}

fn is_blank(item: Item) -> bool
    ensures { result ≡ is_blank item }
{
    match item {
        Item::Byte(b, _) => b == b' ' || b == b'\t' || b == b'\n',
        Item::Quote => false,
    }
}

/// Whether an item is of this sort under an IFS.
#[tactic(auto, unfolding(crate::specs::Fields::is_of))]
pub fn is_of(sort: Sort, ifs: &[u8], item: Item) -> bool
    ensures { result ≡ is_of sort ifs.now item }
{
    match sort {
        Sort::White => is_separator(ifs, item) && is_blank(item),
        Sort::Other => is_separator(ifs, item) && !is_blank(item),
        Sort::Kept => !is_separator(ifs, item),
    }
}

/// How many items at the front are of this sort.
pub fn run_len(sort: Sort, ifs: &[u8], items: &[Item]) -> usize
    ensures len { result ≡ prefix_len (is_of sort ifs.now) items.now }
    ensures within { result ≤ length items.now }
{
    for (i, item) in items.iter().enumerate() {
        if !is_of(sort, ifs, *item) {
            return i;
        }
    }
    items.len()
}

/// The items behind those of this sort at the front.
pub fn after<'a>(sort: Sort, ifs: &[u8], items: &'a [Item]) -> &'a [Item]
    ensures { result.now ≡ after sort ifs.now items.now }
{
    &items[run_len(sort, ifs, items)..]
}

fn after_one<'a>(ifs: &[u8], items: &'a [Item]) -> &'a [Item]
    ensures { result.now ≡ after_one ifs.now items.now }
{
    match items {
        [] => items,
        [first, rest @ ..] => {
            if is_of(Sort::Other, ifs, *first) {
                rest
            } else {
                items
            }
        }
    }
}

/// The first field of a text without white space at its front.
pub fn field<'a>(ifs: &[u8], items: &'a [Item]) -> &'a [Item]
    ensures { result.now ≡ field ifs.now items.now }
{
    &items[..run_len(Sort::Kept, ifs, items)]
}

/// What stands behind the first field and its delimiter.
#[tactic(auto, unfolding(crate::specs::Fields::behind))]
pub fn behind<'a>(ifs: &[u8], items: &'a [Item]) -> &'a [Item]
    ensures { result.now ≡ behind ifs.now items.now }
{
    let delimiter = after(Sort::Kept, ifs, items);
    let separator = after(Sort::White, ifs, delimiter);
    after(Sort::White, ifs, after_one(ifs, separator))
}
