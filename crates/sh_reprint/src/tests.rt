//! The reader's tables, what is printed of scripts and read back, and the program's one call.

use crate::reprint::{ReprintFault, reprint};
use sh_parser::{ReadFault, read};
use sh_syntax::Script;
use span_text::{List, MemorySink, Text};
use std::alloc::Global;
use std::process::Abort;
use std::test::Fail;

mod back;
mod borders;
mod commands;
mod deep;
mod joins;
mod picture;
mod printable;
mod refused;
mod trees;
mod words;

use picture::picture_of;

/// Reads a text, which is short.
fn read_short(rt: &impl Abort, alloc: Global, text: &[u8]) -> Result<Script, ReadFault> {
    assert!(rt; text.len() <= u32::MAX as usize);
    read(alloc, text)
}

/// Reads each text, and compares what it is with the picture that stands behind it.
fn read_as(rt: &impl Abort, alloc: Global, table: &[(&[u8], &[u8])]) -> Result<(), Fail> {
    for (text, wanted) in table {
        let mut shown = Text::new(alloc);
        match read_short(rt, alloc, text) {
            Ok(script) => picture_of(&script, &mut shown)?,
            Err(ReadFault::Memory) => shown.append(b"MEMORY")?,
            Err(ReadFault::Unreadable(_)) => shown.append(b"UNREADABLE")?,
        }
        assert_eq!(rt; (*text, shown.bytes()), (*text, *wanted));
    }
    Ok(())
}

/// Each text isn't read, and has the place that stands behind it.
fn refused_at(rt: &impl Abort, alloc: Global, table: &[(&[u8], u32)]) -> Result<(), Fail> {
    for (text, at) in table {
        match read_short(rt, alloc, text) {
            Ok(_) => assert_eq!(rt; (*text, u32::MAX), (*text, *at)),
            Err(ReadFault::Memory) => assert_eq!(rt; (*text, u32::MAX), (*text, *at)),
            Err(ReadFault::Unreadable(place)) => assert_eq!(rt; (*text, place), (*text, *at)),
        }
    }
    Ok(())
}

#[test]
fn a_script_is_printed_anew(rt: HostRuntime) -> Result<(), Fail> {
    let mut out = MemorySink::new(rt.alloc(), 1, List::new(rt.alloc()));
    out.reserve(100)?;
    assert_eq!(&rt; reprint(rt.alloc(), b"a;b&&c", &mut out), Ok(()));
    assert_eq!(&rt; out.held(), b"a\nb && c\n".as_slice());
    Ok(())
}

#[test]
fn what_is_no_script_is_refused(rt: HostRuntime) -> Result<(), Fail> {
    let mut out = MemorySink::new(rt.alloc(), 1, List::new(rt.alloc()));
    out.reserve(100)?;
    assert_eq!(&rt;
        reprint(rt.alloc(), b"a\nif b\n", &mut out),
        Err(ReprintFault::Unreadable(2))
    );
    assert_eq!(&rt; out.held(), b"".as_slice());
    Ok(())
}

#[test]
fn a_failing_sink_has_taken_a_front(rt: HostRuntime) -> Result<(), Fail> {
    let mut fails = List::new(rt.alloc());
    fails.push(3)?;
    let mut out = MemorySink::new(rt.alloc(), 1, fails);
    out.reserve(100)?;
    assert_eq!(&rt;
        reprint(rt.alloc(), b"a;b", &mut out),
        Err(ReprintFault::Output)
    );
    assert_eq!(&rt; out.held(), b"a\n".as_slice());
    Ok(())
}
