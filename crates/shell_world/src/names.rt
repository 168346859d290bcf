//! The files at paths that texts name, and the names of all files and folders.

ghost use Rattle.std.specs.Prelude.{◌≡◌, ◌==◌, ◌&&◌, ◌<◌, ◌≤◌, nat_lt, take, length, map, get_or, slice_index_or, IfOk, OnOk, if◌then◌else◌};
ghost use Rattle.std.specs.Option.{option_copied};
ghost use Rattle.shell_world.specs.Paths.{path_text, is_folder, is_under_file, found_in, folders_of, with_names, name_added, names_of};
ghost use Rattle.shell_world.specs.Texts.{lookup, insert};

use crate::opening::Found;
use crate::paths::{names_folder_of, names_this};
use crate::text_map::TextMap;
use span_text::{List, Memory, Text};
use std::alloc::Global;

/// Whether the path that a text names is a folder of one of the files.
pub fn is_folder(text: &[u8], files: &TextMap<Text>) -> bool
    ensures { result ≡ is_folder (path_text text.now) files.now }
{
    for file in files.entries() {
        if names_folder_of(text, file.0.bytes()) {
            return true;
        }
    }
    false
}

/// The file at the path that a text names.
fn file_named<'f>(text: &[u8], files: &'f TextMap<Text>) -> Option<&'f Text>
    ensures { option_copied result ≡ lookup (path_text text.now) files.now }
{
    for file in files.entries() {
        if names_this(text, file.0.bytes()) {
            return Some(&file.1);
        }
    }
    None
}

/// What stands at the path that a text names. It takes no memory.
pub fn found_in(text: &[u8], files: &TextMap<Text>) -> Found
    ensures { result ≡ found_in (path_text text.now) files.now }
{
    if is_folder(text, files) {
        return Found::Folder;
    }
    match file_named(text, files) {
        None => Found::Nothing,
        Some(bytes) => Found::File(bytes.bytes().len() as u64),
    }
}

/// Whether a folder of this path is a file.
pub fn is_under_file(path: &[u8], files: &TextMap<Text>) -> bool
    ensures { result ≡ is_under_file path.now files.now }
{
    for (at, b) in path.iter().enumerate() {
        if *b == b'/' && at > 0 && files.get(&path[..at]).is_some() {
            return true;
        }
    }
    false
}

/// Puts a front of a path among the names, where it is a folder of the path.
fn add_front(alloc: Global, path: &[u8], at: usize, names: &mut TextMap<()>) -> Result<(), Memory>
    requires { at < length path.now }
    ensures { OnOk result (names.new ≡ name_added (slice_index_or path.now at 0 == 47 && nat_lt 0 at) (take at path.now) names.old) }
{
    if path[at] == b'/' && at > 0 {
        let folder = Text::copy(alloc, &path[..at])?;
        return names.insert(folder, ());
    }
    Ok(())
}

fn add_folders(alloc: Global, path: &[u8], names: &mut TextMap<()>) -> Result<(), Memory>
    ensures { OnOk result (names.new ≡ with_names (folders_of path.now) names.old) }
{
    for at in 0..path.len() {
        add_front(alloc, path, at, names)?;
    }
    Ok(())
}

fn add_file(alloc: Global, path: &[u8], names: &mut TextMap<()>) -> Result<(), Memory>
    ensures { OnOk result (names.new ≡ with_names (folders_of path.now) (insert path.now tt names.old)) }
{
    let name = Text::copy(alloc, path)?;
    names.insert(name, ())?;
    add_folders(alloc, path, names)
}

fn keys(alloc: Global, names: &TextMap<()>) -> Result<List<Text>, Memory>
    ensures { IfOk result (λ keys. keys ≡ map (λ e. e.0) names.now) }
{
    let mut keys = List::new(alloc);
    for entry in names.entries() {
        keys.push(Text::copy(alloc, entry.0.bytes())?)?;
    }
    Ok(keys)
}

/// The paths of the files and their folders, each once, in the order of their bytes.
pub fn names_of(alloc: Global, files: &TextMap<Text>) -> Result<List<Text>, Memory>
    ensures { IfOk result (λ names. names ≡ names_of files.now) }
{
    let mut names = TextMap::new(alloc);
    for file in files.entries() {
        add_file(alloc, file.0.bytes(), &mut names)?;
    }
    keys(alloc, &names)
}
