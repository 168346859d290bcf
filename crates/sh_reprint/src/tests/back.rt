//! Scripts that are read, printed, and read back.

use super::picture::picture_of;
use super::read_short;
use sh_parser::ReadFault;
use sh_printer::print;
use sh_syntax::Script;
use span_text::{List, MemorySink, Text};
use std::alloc::Global;
use std::process::Abort;
use std::test::Fail;

mod commands;
mod documents;
mod words;

/// The script that a text spells.
fn script_of(rt: &impl Abort, alloc: Global, text: &[u8]) -> Result<Script, Fail> {
    match read_short(rt, alloc, text) {
        Ok(script) => Ok(script),
        Err(ReadFault::Memory) => panic!(rt; "no memory"),
        Err(ReadFault::Unreadable(_)) => panic!(rt; "not read"),
    }
}

/// What is printed of a script, which has less than `room` bytes.
fn printed(
    rt: &impl Abort,
    alloc: Global,
    script: &Script,
    room: usize,
) -> Result<MemorySink, Fail> {
    let mut out = MemorySink::new(alloc, 4096, List::new(alloc));
    out.reserve(room)?;
    assert_eq!(rt; print(script, &mut out), Ok(()));
    Ok(out)
}

/// Both scripts are the same, places aside.
fn are_alike(rt: &impl Abort, alloc: Global, one: &Script, other: &Script) -> Result<(), Fail> {
    let mut first = Text::new(alloc);
    picture_of(one, &mut first)?;
    let mut second = Text::new(alloc);
    picture_of(other, &mut second)?;
    assert_eq!(rt; second.bytes(), first.bytes());
    Ok(())
}

/// Each text's script is printed as the second text, and reads back from it.
fn print_as(rt: &impl Abort, alloc: Global, table: &[(&[u8], &[u8])]) -> Result<(), Fail> {
    for (text, wanted) in table {
        let script = script_of(rt, alloc, text)?;
        let out = printed(rt, alloc, &script, 1000)?;
        assert_eq!(rt; (*text, out.held()), (*text, *wanted));
        are_alike(rt, alloc, &script, &script_of(rt, alloc, out.held())?)?;
    }
    Ok(())
}

/// Each text is printed as it stands, and a newline.
fn print_same(rt: &impl Abort, alloc: Global, texts: &[&[u8]]) -> Result<(), Fail> {
    for text in texts {
        let mut line = Text::copy(alloc, text)?;
        line.append(b"\n")?;
        print_as(rt, alloc, &[(*text, line.bytes())])?;
    }
    Ok(())
}
