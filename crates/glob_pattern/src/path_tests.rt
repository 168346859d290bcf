//! Tables of the paths that fields become, as Bash 5 tells in the C locale with `nullglob`.

use super::*;
use crate::tests::flagged;
use span_text::{List, Memory, Text};
use std::alloc::Global;
use std::test::Fail;

/// The paths for a field, each with a space behind it; the field `!n` where they are doubtful at n.
fn paths_for(alloc: Global, row: &[u8], names: &[&[u8]]) -> Result<Text, PatternFault> {
    let field = flagged(alloc, row)?;
    let mut list = List::new(alloc);
    for name in names {
        list.push(Text::copy(alloc, name)?)?;
    }
    let mut shown = Text::new(alloc);
    match paths(alloc, &field, &list) {
        Ok(found) => {
            for path in found.as_slice() {
                shown.append(path.bytes())?;
                shown.append(b" ")?;
            }
        }
        Err(PatternFault::Doubtful(at)) => {
            shown.append([b'!', b'0'.saturating_add(at.min(9) as u8)].as_slice())?;
        }
        Err(PatternFault::Memory) => return Err(PatternFault::Memory),
    }
    Ok(shown)
}

/// The files and directories in which paths are found.
const NAMES: [&[u8]; 12] = [
    b".h", b"/r", b"/r/a", b"d", b"d/.b", b"d/a", b"d/c", b"d/s", b"d/s/x", b"d.x", b"d.x/a", b"e",
];

#[test]
fn paths_of_one_folder_are_found(rt: HostRuntime) -> Result<(), Fail> {
    for (row, want) in [
        (b"*".as_slice(), b"d d.x e ".as_slice()),
        (b".*", b".h "),
        (b".?", b".h "),
        (b"d/*", b"d/a d/c d/s "),
        (b"d/.*", b"d/.b "),
        (b"d/[ac]", b"d/a d/c "),
    ] {
        assert_eq!(rt;
            paths_for(rt.alloc(), row, NAMES.as_slice())?.bytes(),
            want,
            "{row:?}"
        );
    }
    Ok(())
}

#[test]
fn paths_through_folders_are_found(rt: HostRuntime) -> Result<(), Fail> {
    for (row, want) in [
        (b"*/".as_slice(), b"d.x/ d/ ".as_slice()),
        (b"*/*", b"d.x/a d/a d/c d/s "),
        (b"*//a", b"d.x//a d//a "),
        (b"./*", b"./d ./d.x ./e "),
        (b"./d/?", b"./d/a ./d/c ./d/s "),
        (b"*/./a", b"d.x/./a d/./a "),
        (b"*/.", b"d.x/. d/. "),
        (b"d/*/", b"d/s/ "),
        (b"d/*//", b"d/s// "),
        (b"d/*/x", b"d/s/x "),
    ] {
        assert_eq!(rt;
            paths_for(rt.alloc(), row, NAMES.as_slice())?.bytes(),
            want,
            "{row:?}"
        );
    }
    Ok(())
}

#[test]
fn paths_are_not_found(rt: HostRuntime) -> Result<(), Fail> {
    let names = [
        b".h".as_slice(),
        b"/r",
        b"/r/a",
        b"d",
        b"d/.b",
        b"d/a",
        b"d/s",
        b"d/s/x",
    ];
    for (row, want) in [
        (b"x*".as_slice(), b"".as_slice()),
        (b"*a", b""),
        (b"d*a", b""),
        (b"d?a", b""),
        (b"d/?b", b""),
        (b"d/[.]b", b""),
        (b"[!a]h", b""),
        (b"*'*'", b""),
        (b"../*", b""),
        (b"d/a*/", b""),
        (b"/*", b"/r "),
        (b"/r/*", b"/r/a "),
        (b"//r/*", b"//r/a "),
        (b"*/*/*", b"d/s/x "),
        (b"d'/'*", b"d/a d/s "),
        (b"[/]*", b"!1"),
        (b"a[b'/'c]*", b"!3"),
        (b"[a/*", b""),
    ] {
        assert_eq!(rt;
            paths_for(rt.alloc(), row, names.as_slice())?.bytes(),
            want,
            "{row:?}"
        );
    }
    Ok(())
}

#[test]
fn paths_are_spelled_as_the_field_is(rt: HostRuntime) -> Result<(), Fail> {
    let names = [
        b".b".as_slice(),
        b"a",
        b"d",
        b"d/.b",
        b"d/a",
        b"d/e",
        b"d/e/f",
    ];
    for (row, want) in [
        (b".b".as_slice(), b".b ".as_slice()),
        (b"'.'b", b".b "),
        (b"d/a", b"d/a "),
        (b"d//a", b"d//a "),
        (b"d/./a", b"d/./a "),
        (b"./a", b"./a "),
        (b"./.b", b"./.b "),
        (b".//a", b".//a "),
        (b"./[a-d]", b"./a ./d "),
        (b"*/", b"d/ "),
        (b"./*/", b"./d/ "),
        (b"*/*/", b"d/e/ "),
        (b"a/", b""),
        (b"?//?/f", b"d//e/f "),
        (b"*/.b", b"d/.b "),
        (b"*/?b", b""),
        (b"{*}", b"a d "),
        (b"{d/?}", b"d/a d/e "),
        (b"d/'*'", b""),
        (b"d/[!a]", b"d/e "),
    ] {
        assert_eq!(rt;
            paths_for(rt.alloc(), row, names.as_slice())?.bytes(),
            want,
            "{row:?}"
        );
    }
    Ok(())
}
