//! Which path a text names, and the folders of paths. The path itself is compared part by part, so only a copy of it
//! takes memory.

ghost use Rattle.std.specs.Prelude.{◌≡◌, ◌∷◌, ◌++◌, [], ◌<◌, ◌==◌, length, IfOk, OnOk, IfSome};
ghost use Rattle.std.specs.List.{list_any, slice_split};
ghost use Rattle.std.specs.Option.{option_copied, option_map_or};
ghost use Rattle.span_text.specs.Scanning.{starts};
ghost use Rattle.shell_world.specs.Paths.{is_slash, parts, is_kept, is_above, names_path, placed, next_lead, lead_of, path_text, behind, begins_below, is_folder_of};
ghost use Rattle.shell_world.specs.Texts.{text_cmp};
ghost use Rattle.std.specs.Ordering.{is_eq};

use span_text::{Memory, Text};
use std::alloc::Global;

/// What stands before the first `/`, and what stands behind it.
fn first_part(text: &[u8]) -> (&[u8], Option<&[u8]>)
    ensures parts { parts text.now ≡ result.0.now ∷ option_map_or (λ rest. parts rest.now) result.1 [] }
    ensures shorter { IfSome result.1 (λ rest. length rest.now < length text.now) }
{
    for (at, b) in text.iter().enumerate() {
        if *b == b'/' {
            return (&text[..at], Some(&text[at + 1..]));
        }
    }
    (text, None)
}

fn is_kept(part: &[u8]) -> bool
    ensures { result ≡ is_kept part.now }
{
    !(part.is_empty() || part == b".".as_slice())
}

fn is_above(part: &[u8]) -> bool
    ensures { result ≡ is_above part.now }
{
    part == b"..".as_slice()
}

fn has_above(text: &[u8]) -> bool
    ensures { result ≡ list_any is_above (parts text.now) }
{
    text.split(|b| *b == b'/').any(|part| is_above(part))
}

fn has_kept(text: &[u8]) -> bool
    ensures { result ≡ list_any is_kept (parts text.now) }
{
    text.split(|b| *b == b'/').any(|part| is_kept(part))
}

fn has_nul(text: &[u8]) -> bool
    ensures { result ≡ list_any (λ b. b == 0) text.now }
{
    text.iter().any(|b| *b == 0)
}

/// Whether the text names a path (POSIX XBD 4.13): it holds no NUL and no component `..`, and has a component beside
/// empty ones and `.`.
#[tactic(auto, unfolding(crate::specs::Paths::names_path))]
pub fn names_path(text: &[u8]) -> bool
    ensures { result ≡ names_path text.now }
{
    !has_nul(text) && !has_above(text) && has_kept(text)
}

fn begins_slash(text: &[u8]) -> bool
    ensures { result ≡ starts is_slash text.now }
{
    match text {
        [] => false,
        [b, ..] => *b == b'/',
    }
}

fn lead_of(text: &[u8]) -> &'static [u8]
    ensures { result.now ≡ lead_of text.now }
{
    if begins_slash(text) { b"/" } else { b"" }
}

fn next_lead<'a>(lead: &'a [u8], part: &[u8]) -> &'a [u8]
    ensures { result.now ≡ next_lead lead.now part.now }
{
    if is_kept(part) { b"/" } else { lead }
}

/// Puts a part behind those before it.
fn place(path: &mut Text, lead: &[u8], part: &[u8]) -> Result<(), Memory>
    ensures { OnOk result (path.new ≡ path.old ++ placed lead.now part.now) }
{
    if is_kept(part) {
        path.append(lead)?;
        path.append(part)?;
    }
    Ok(())
}

/// The path that a text names, where it names one.
#[tactic(auto, unfolding(crate::specs::Paths::path_text))]
pub fn path_text(alloc: Global, text: &[u8]) -> Result<Text, Memory>
    ensures { IfOk result (λ path. path ≡ path_text text.now) }
{
    let mut path = Text::new(alloc);
    let mut lead = lead_of(text);
    let mut rest = text;
    'parts: loop {
        let (part, more) = first_part(rest);
        place(&mut path, lead, part)?;
        lead = next_lead(lead, part);
        match more {
            None => return Ok(path),
            Some(next) => rest = next,
        }
    }
}

/// What stands behind a front of a text.
fn behind<'p>(front: &[u8], text: &'p [u8]) -> Option<&'p [u8]>
    ensures { option_copied result ≡ behind front.now text.now }
{
    text.strip_prefix(front)
}

fn behind_part<'p>(lead: &[u8], part: &[u8], path: &'p [u8]) -> Option<&'p [u8]>
    ensures { option_copied result ≡ behind (placed lead.now part.now) path.now }
{
    if !is_kept(part) {
        return Some(path);
    }
    let at_part = behind(lead, path)?;
    behind(part, at_part)
}

/// What stands behind the path that a text names, where that is a front of this path.
#[tactic(auto, unfolding(crate::specs::Paths::path_text))]
fn behind_named<'p>(text: &[u8], path: &'p [u8]) -> Option<&'p [u8]>
    ensures { option_copied result ≡ behind (path_text text.now) path.now }
{
    let mut lead = lead_of(text);
    let mut left = path;
    let mut rest = text;
    'parts: loop {
        let (part, more) = first_part(rest);
        left = behind_part(lead, part, left)?;
        lead = next_lead(lead, part);
        match more {
            None => return Some(left),
            Some(next) => rest = next,
        }
    }
}

/// Whether the path that a text names is a folder of this path.
pub fn names_folder_of(text: &[u8], path: &[u8]) -> bool
    ensures { result ≡ is_folder_of (path_text text.now) path.now }
{
    match behind_named(text, path) {
        None => false,
        Some(rest) => begins_slash(rest),
    }
}

/// Whether this path is the one that a text names.
pub fn names_this(text: &[u8], path: &[u8]) -> bool
    ensures { result ≡ is_eq (text_cmp (path_text text.now) path.now) }
{
    match behind_named(text, path) {
        None => false,
        Some(rest) => rest.is_empty(),
    }
}
