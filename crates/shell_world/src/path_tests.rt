//! Tables of what texts name, and of what is opened there.

use crate::tests::world_of;
use crate::{Found, OpenFault, Outside, World};
use span_text::Memory;
use std::alloc::Global;
use std::test::Fail;

/// A world with files in folders.
fn world(alloc: Global) -> Result<World, Memory> {
    world_of(
        alloc,
        &[("d/f", "x"), ("d/e", "123"), ("a", "12"), ("/r/s/t", "")],
        "",
    )
}

fn look(alloc: Global, path: &str) -> Result<Found, Memory> {
    let world = world(alloc)?;
    let (outside, _) = Outside::start(alloc, &world)?;
    Ok(outside.look(path.as_bytes()))
}

fn read_fault(alloc: Global, path: &str) -> Result<Option<OpenFault>, Memory> {
    let world = world(alloc)?;
    let (mut outside, _) = Outside::start(alloc, &world)?;
    Ok(outside.open_read(path.as_bytes()).err())
}

fn write_fault(alloc: Global, path: &str, append: bool) -> Result<Option<OpenFault>, Memory> {
    let world = world(alloc)?;
    let (mut outside, _) = Outside::start(alloc, &world)?;
    Ok(outside.open_write(path.as_bytes(), append).err())
}

/// What is at a path once this one was written or appended to.
fn found_after(alloc: Global, written: &str, append: bool, path: &str) -> Result<Found, OpenFault> {
    let world = world(alloc)?;
    let (mut outside, _) = Outside::start(alloc, &world)?;
    outside.open_write(written.as_bytes(), append)?;
    Ok(outside.look(path.as_bytes()))
}

#[test]
fn a_file_is_named_in_many_ways(rt: HostRuntime) -> Result<(), Fail> {
    for (path, size) in [
        ("a", 2),
        ("./a", 2),
        ("a/", 2),
        (".//a/.", 2),
        ("././/a", 2),
        ("d/e", 3),
        ("d//e", 3),
        ("d/./e/", 3),
        ("/r/s/t", 0),
        ("//r/./s//t", 0),
        ("/./r/s/t/.", 0),
    ] {
        assert_eq!(rt; look(rt.alloc(), path)?, Found::File(size));
    }
    Ok(())
}

#[test]
fn folders_are_fronts_before_a_slash(rt: HostRuntime) -> Result<(), Fail> {
    for path in ["d", "d/", "./d/.", "/r", "//r", "/r/s", "/r//s/.", "/r/s/"] {
        assert_eq!(rt; look(rt.alloc(), path)?, Found::Folder);
    }
    Ok(())
}

#[test]
fn other_texts_name_nothing(rt: HostRuntime) -> Result<(), Fail> {
    for path in [
        "", ".", "/", "./.", "..", "a/..", "d/../a", "/..", "/a", "r", "r/s/t", "D", "dd", "d/ee",
        "d/e/x", "a/b", "...", "/r/s/t/u", "/r/s/tt", "a\0", "\0", "d\0/e",
    ] {
        assert_eq!(rt; look(rt.alloc(), path)?, Found::Nothing);
    }
    Ok(())
}

#[test]
fn what_is_not_read_is_refused(rt: HostRuntime) -> Result<(), Fail> {
    for (path, fault) in [
        ("", OpenFault::NoPath),
        ("/", OpenFault::NoPath),
        ("d/..", OpenFault::NoPath),
        ("a\0", OpenFault::NoPath),
        ("d", OpenFault::IsFolder),
        ("/r/s/", OpenFault::IsFolder),
        ("x", OpenFault::NoFile),
        ("a/b", OpenFault::NoFile),
        ("/d", OpenFault::NoFile),
    ] {
        assert_eq!(rt; read_fault(rt.alloc(), path)?, Some(fault));
    }
    assert_eq!(rt; read_fault(rt.alloc(), "./d//e/")?, None);
    Ok(())
}

#[test]
fn what_is_not_written_is_refused(rt: HostRuntime) -> Result<(), Fail> {
    for (path, fault) in [
        ("", OpenFault::NoPath),
        ("../a", OpenFault::NoPath),
        ("a\0", OpenFault::NoPath),
        ("d/", OpenFault::IsFolder),
        ("/r", OpenFault::IsFolder),
        ("a/b", OpenFault::UnderFile),
        ("d/e/x/y", OpenFault::UnderFile),
        ("/r/s/t/u", OpenFault::UnderFile),
    ] {
        assert_eq!(rt; write_fault(rt.alloc(), path, false)?, Some(fault));
        assert_eq!(rt; write_fault(rt.alloc(), path, true)?, Some(fault));
    }
    Ok(())
}

/// A folder below a file is in no good world; the order of the causes shows there.
fn clash_fault(alloc: Global, path: &str) -> Result<Option<OpenFault>, Memory> {
    let world = world_of(alloc, &[("a", ""), ("a/b/c", "")], "")?;
    let (mut outside, _) = Outside::start(alloc, &world)?;
    Ok(outside.open_write(path.as_bytes(), false).err())
}

#[test]
fn a_folder_is_told_before_a_file_above_it(rt: HostRuntime) -> Result<(), Fail> {
    assert_eq!(rt; clash_fault(rt.alloc(), "a/b")?, Some(OpenFault::IsFolder));
    assert_eq!(rt; clash_fault(rt.alloc(), "a/c")?, Some(OpenFault::UnderFile));
    Ok(())
}

#[test]
fn files_are_made_and_emptied(rt: HostRuntime) -> Result<(), Fail> {
    for (written, append, path, found) in [
        ("a", true, "a", Found::File(2)),
        ("a", false, "a", Found::File(0)),
        ("n//m/x", true, "n/m", Found::Folder),
        ("n//m/x", true, "n/m/x", Found::File(0)),
        ("d/./g", false, "d/g", Found::File(0)),
        ("d/g", false, "d/e", Found::File(3)),
    ] {
        assert_eq!(rt; found_after(rt.alloc(), written, append, path)?, found);
    }
    Ok(())
}

/// Whether these are the names of the files and their folders.
fn has_names(alloc: Global, want: &[&str]) -> Result<bool, Memory> {
    let files = [
        ("d/f", ""),
        ("b", ""),
        ("/r/s", ""),
        ("d-", ""),
        ("d/c/e", ""),
    ];
    let world = world_of(alloc, &files, "")?;
    let (outside, _) = Outside::start(alloc, &world)?;
    let names = outside.names()?;
    Ok(names.as_slice() == crate::tests::texts(alloc, want)?.as_slice())
}

#[test]
fn names_are_sorted(rt: HostRuntime) -> Result<(), Fail> {
    let want = ["/r", "/r/s", "b", "d", "d-", "d/c", "d/c/e", "d/f"];
    assert!(rt; has_names(rt.alloc(), &want)?);
    Ok(())
}
