use crate::fault::TranslateFault;
use crate::input::{LIMIT, read_all};
use crate::messages::{Refusal, say_refused};
use crate::program::bash2sh;
use crate::status::Status;
use crate::translator::translate;
use span_text::{List, Memory, MemorySink, MemorySource, Place, Text};
use std::alloc::Global;
use std::test::Fail;

/// A sink with ample room.
fn sink(alloc: Global) -> Result<MemorySink, Memory> {
    let mut sink = MemorySink::new(alloc, 64, List::new(alloc));
    sink.reserve(4_096)?;
    Ok(sink)
}

#[test]
fn three_lines_are_translated(rt: HostRuntime) -> Result<(), Fail> {
    let mut out = sink(rt.alloc())?;
    let result = translate(rt.alloc(), b"n=ab\nn+=cd\nshow \"$n\"\n", &mut out);
    assert!(rt; result.is_ok());
    assert_eq!(rt; out.held(), b"n=ab\nn=\"$n\"cd\nshow \"$n\"\n".as_slice());
    Ok(())
}

#[test]
fn another_line_is_refused_at_its_place(rt: HostRuntime) -> Result<(), Fail> {
    let mut out = sink(rt.alloc())?;
    let result = translate(rt.alloc(), b"show a\n  show b;\n", &mut out);
    assert!(rt; matches!(result, Err(TranslateFault::NotYet(9))));
    assert_eq!(rt; out.held(), b"".as_slice());
    Ok(())
}

#[test]
fn all_bytes_of_a_source_are_taken(rt: HostRuntime) -> Result<(), Fail> {
    let bytes = Text::copy(rt.alloc(), b"show a\n")?;
    let mut source = MemorySource::new(bytes, 3, List::new(rt.alloc()));
    match read_all(rt.alloc(), &mut source, LIMIT) {
        Ok(text) => assert_eq!(rt; text.bytes(), b"show a\n".as_slice()),
        Err(_) => assert!(rt; false),
    }
    Ok(())
}

#[test]
fn a_refusal_names_its_line_and_column(rt: HostRuntime) -> Result<(), Fail> {
    let mut err = sink(rt.alloc())?;
    say_refused(&mut err, Refusal::NotYet, Place { line: 2, column: 3 });
    assert_eq!(rt; err.held(), b"bash2sh: 2:3: not-yet\n".as_slice());
    Ok(())
}

fn asked(alloc: Global, word: &str) -> Result<Vec<String>, Fail> {
    let mut words = Vec::new(alloc);
    words.push(String::from_str(alloc, word)?)?;
    Ok(words)
}

#[test]
fn a_refused_script_is_answered_on_standard_error(rt: HostRuntime) -> Result<(), Fail> {
    let mut source = MemorySource::new(
        Text::copy(rt.alloc(), b"x=1\nshow $x\n")?,
        5,
        List::new(rt.alloc()),
    );
    let mut out = sink(rt.alloc())?;
    let mut err = sink(rt.alloc())?;
    let asked = asked(rt.alloc(), "translate")?;
    let status = bash2sh(
        rt.alloc(),
        asked.as_slice(),
        &mut source,
        &mut out,
        &mut err,
    );
    assert_eq!(rt; status, Status::Refused);
    assert_eq!(rt; out.held(), b"".as_slice());
    assert_eq!(rt; err.held(), b"bash2sh: 2:1: not-yet\n".as_slice());
    Ok(())
}

#[test]
fn another_word_is_answered_by_the_usage(rt: HostRuntime) -> Result<(), Fail> {
    let mut source = MemorySource::new(Text::copy(rt.alloc(), b"x=1\n")?, 5, List::new(rt.alloc()));
    let mut out = sink(rt.alloc())?;
    let mut err = sink(rt.alloc())?;
    let asked = asked(rt.alloc(), "translat")?;
    let status = bash2sh(
        rt.alloc(),
        asked.as_slice(),
        &mut source,
        &mut out,
        &mut err,
    );
    assert_eq!(rt; status, Status::Usage);
    assert_eq!(rt; err.held(), b"bash2sh: usage\n".as_slice());
    Ok(())
}
