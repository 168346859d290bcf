//! The names of files that a pattern matches.

ghost use Rattle.std.specs.Prelude.{◌≡◌, ◌==◌, ◌++◌, ◌∷◌, [], None, Some, IfOk, OnOk, IfErr};
ghost use Rattle.std.specs.List.{list_any, filter_map, starts_with};
ghost use Rattle.std.specs.List.Sorted.{IsSorted, IsPermutation};
ghost use Rattle.std.specs.Ordering.{nat_cmp};
ghost use Rattle.std.specs.Cmp.Lexicographic.{slice_cmp};
ghost use Rattle.glob_pattern.specs.Paths.{cut, is_slash_byte, is_slash_sign, is_rooted, unrooted, begins_dot, first_dot, fits_name, spelled, is_folder, lead_of, path_of, found_paths, components_of};
ghost use Rattle.glob_pattern.specs.Reading.{doubt_of};
ghost use Rattle.glob_pattern.specs.Faults.{IfDoubtful};
ghost use Rattle.glob_pattern.specs.declared.sign.Use.TheVariants as use_of;

use crate::component::{Component, asks_folder, components_of, is_rooted};
use crate::fault::PatternFault;
use crate::matching::{behind, is_match};
use crate::piece::Piece;
use crate::reading::doubt_in;
use crate::sign::{Use, signs_of};
use span_text::{Flagged, List, Memory, Text};
use std::alloc::Global;

fn begins_dot(name: &[u8]) -> bool
    ensures { result ≡ begins_dot name.now }
{
    match name {
        [] => false,
        [b, ..] => *b == b'.',
    }
}

fn first_dot(pieces: &[Piece]) -> bool
    ensures { result ≡ first_dot pieces.now }
{
    match pieces {
        [Piece::Byte(b), ..] => *b == b'.',
        _ => false,
    }
}

fn fits_name(pieces: &[Piece], name: &[u8]) -> bool
    ensures { result ≡ fits_name pieces.now name.now }
{
    (!begins_dot(name) || first_dot(pieces)) && is_match(pieces, name)
}

/// The components of a name.
fn cut_name(alloc: Global, name: &[u8]) -> Result<List<Text>, Memory>
    ensures { IfOk result (λ all. all ≡ cut is_slash_byte name.now) }
{
    let mut all = List::new(alloc);
    let mut part = Text::new(alloc);
    for b in name {
        if *b == b'/' {
            all.push(part)?;
            part = Text::new(alloc);
        } else {
            part.append([*b].as_slice())?;
        }
    }
    all.push(part)?;
    Ok(all)
}

fn is_name_rooted(name: &[u8]) -> bool
    ensures { result ≡ is_rooted is_slash_byte name.now }
{
    match name {
        [] => false,
        [b, ..] => *b == b'/',
    }
}

fn unrooted(name: &[u8]) -> &[u8]
    ensures { result.now ≡ unrooted is_slash_byte name.now }
{
    match name {
        [] => name,
        [b, rest @ ..] => { if *b == b'/' { rest } else { name } }
    }
}

fn spelled(
    alloc: Global,
    first: &[u8],
    components: &[Component],
    parts: &[Text],
) -> Result<Option<Text>, Memory>
    ensures { IfOk result (λ text. text ≡ spelled first.now components.now parts.now) }
{
    let mut text = Text::new(alloc);
    let mut lead = first;
    let mut rest = parts;
    for component in components {
        text.append(lead)?;
        lead = b"/";
        match component {
            Component::Empty => {}
            Component::Here => text.append(b".")?,
            Component::Named(pieces) => match rest {
                [] => return Ok(None),
                [name, ..] => {
                    if !fits_name(pieces.as_slice(), name.bytes()) {
                        return Ok(None);
                    }
                    text.append(name.bytes())?;
                    rest = behind(rest);
                }
            },
        }
    }
    if rest.is_empty() {
        return Ok(Some(text));
    }
    Ok(None)
}

fn is_folder(alloc: Global, names: &[Text], name: &[u8]) -> Result<bool, Memory>
    ensures { IfOk result (λ found. found ≡ is_folder names.now name.now) }
{
    let mut folder = Text::copy(alloc, name)?;
    folder.append(b"/")?;
    Ok(
        names
            .iter()
            .any(|other| other.bytes().starts_with(folder.bytes())),
    )
}

fn lead_of(rooted: bool) -> &'static [u8]
    ensures { result.now ≡ lead_of rooted }
{
    if rooted { b"/" } else { b"" }
}

fn path_of(
    alloc: Global,
    rooted: bool,
    components: &[Component],
    names: &[Text],
    name: &[u8],
) -> Result<Option<Text>, Memory>
    ensures { IfOk result (λ path. path ≡ path_of rooted components.now names.now name.now) }
{
    if rooted != is_name_rooted(name) {
        return Ok(None);
    }
    if asks_folder(components) && !is_folder(alloc, names, name)? {
        return Ok(None);
    }
    let parts = cut_name(alloc, unrooted(name))?;
    spelled(alloc, lead_of(rooted), components, parts.as_slice())
}

fn found_paths(
    alloc: Global,
    rooted: bool,
    components: &[Component],
    names: &[Text],
) -> Result<Vec<Text>, Memory>
    ensures { IfOk result (λ found. found.items ≡ filter_map (path_of rooted components.now names.now) names.now) }
{
    let mut found = Vec::new(alloc);
    for name in names {
        if let Some(path) = path_of(alloc, rooted, components, names, name.bytes())? {
            found.push(path)?;
        }
    }
    Ok(found)
}

/// The paths that a field with an unquoted `*`, `?` or `[` becomes: each of the names (paths and folders) that it
/// matches component by component, spelled with the components that it keeps, an empty one and a `.`. A `/` and a
/// leading `.` are matched by themselves alone, and a `/` or `/.` at the end asks for a folder. They are sorted by
/// their bytes; where none matches there are none. `Doubtful` is that of `Pattern::read`, and comes for a `/` in a
/// bracket too. See the Bash manual's "Filename Expansion".
#[tactic(auto, unfolding(crate::specs::Paths::found_paths, crate::specs::Reading::doubt_of))]
pub fn paths(alloc: Global, text: &Flagged, names: &List<Text>) -> Result<List<Text>, PatternFault>
    ensures found { IfOk result (λ paths. IsPermutation (found_paths text.now names.now) paths) }
    ensures sorted { IfOk result (λ paths. IsSorted (slice_cmp nat_cmp) paths) }
    ensures clear { OnOk result (doubt_of use_of.Path text.now ≡ None) }
    ensures doubtful { IfErr result (λ fault. IfDoubtful fault (λ at. doubt_of use_of.Path text.now ≡ Some at)) }
{
    let signs = signs_of(alloc, text.items())?;
    if let Some(at) = doubt_in(Use::Path, &signs) {
        return Err(PatternFault::Doubtful(at));
    }
    let components = components_of(alloc, &signs)?;
    let mut found = found_paths(
        alloc,
        is_rooted(&signs),
        components.as_slice(),
        names.as_slice(),
    )?;
    found.sort_unstable();
    Ok(List::from_vec(found))
}
