//! The program's call with the word `translate`, over sources and sinks in memory.

ghost use Rattle.std.specs.Prelude.{◌≤◌};

use crate::program::bash2sh;
use crate::status::Status;
use span_text::{
    Failed, List, MemorySink, MemorySource, Source, StandardError, SureSink, SureSource, Text,
};
use std::alloc::Global;
use std::process::Abort;
use std::test::Fail;

const THREE_LINES: &[u8] = b"n=ab\nn+=cd\nshow \"$n\"\n";

const LONGEST: usize = 1_048_576;

fn numbers(alloc: Global, items: &[u32]) -> Result<List<u32>, Fail> {
    let mut list = List::new(alloc);
    for n in items {
        list.push(*n)?;
    }
    Ok(list)
}

fn source(alloc: Global, script: &[u8], fails: &[u32]) -> Result<MemorySource, Fail> {
    let bytes = Text::copy(alloc, script)?;
    Ok(MemorySource::new(bytes, 4, numbers(alloc, fails)?))
}

/// A sink of ample room that takes a byte at each write.
fn sink(alloc: Global, fails: &[u32]) -> Result<MemorySink, Fail> {
    let mut sink = MemorySink::new(alloc, 1, numbers(alloc, fails)?);
    sink.reserve(32_768)?;
    Ok(sink)
}

fn words(alloc: Global, asked: &[&str]) -> Result<Vec<String>, Fail> {
    let mut words = Vec::new(alloc);
    for word in asked {
        words.push(String::from_str(alloc, word)?)?;
    }
    Ok(words)
}

/// Asks for the translation of what the source gives.
fn translated(
    alloc: Global,
    source: &mut MemorySource,
    out: &mut MemorySink,
    err: &mut MemorySink,
) -> Result<Status, Fail> {
    let asked = words(alloc, &["translate"])?;
    Ok(bash2sh(alloc, asked.as_slice(), source, out, err))
}

/// How a run ends: its status, the text on `out` and the line on `err`.
struct Ending<'a>(Status, &'a [u8], &'a [u8]);

/// Checks how the translation of a script ends.
fn ends(
    rt: &impl Abort,
    alloc: Global,
    script: &[u8],
    Ending(status, text, line): Ending,
) -> Result<(), Fail> {
    let mut source = source(alloc, script, &[])?;
    let mut out = sink(alloc, &[])?;
    let mut err = sink(alloc, &[])?;
    let ended = translated(alloc, &mut source, &mut out, &mut err)?;
    assert_eq!(rt; ended, status, "{script:?}");
    assert_eq!(rt; out.held(), text, "{script:?}");
    assert_eq!(rt; err.held(), line, "{script:?}");
    Ok(())
}

#[test]
fn each_kind_of_line_is_translated(rt: HostRuntime) -> Result<(), Fail> {
    for (script, text) in [
        (THREE_LINES, b"n=ab\nn=\"$n\"cd\nshow \"$n\"\n".as_slice()),
        (b"", b""),
        (b"\n \t\n", b""),
        (b"#\n# it's \"$n\n \t#c", b""),
        (b"n=\nn=a'b c'\"d $m e\"f\n", b"n=\nn=a'b c'\"d $m e\"f\n"),
        (
            b"n='a b'\nn=\"a b\"\nn=\"$m\"\n",
            b"n='a b'\nn=\"a b\"\nn=\"$m\"\n",
        ),
        (b"n+=\nn+='a b'\n", b"n=\"$n\"\nn=\"$n\"'a b'\n"),
        (
            b"n+=\"a b\"\nn+=\"$m\"\n",
            b"n=\"$n\"\"a b\"\nn=\"$n\"\"$m\"\n",
        ),
        (b"n+=a'b c'\"d $n\"\n", b"n=\"$n\"a'b c'\"d $n\"\n"),
        (b" \tshow \t a.b  '' \"\"\t\n", b"show a.b '' \"\"\n"),
        (b"show 'a b' \"it's $n\" -c", b"show 'a b' \"it's $n\" -c\n"),
        (b"'sh'o\"w\" n\n", b"'sh'o\"w\" n\n"),
    ] {
        ends(&rt, rt.alloc(), script, Ending(Status::Done, text, b""))?;
    }
    Ok(())
}

#[test]
fn another_line_is_refused_at_its_first_byte(rt: HostRuntime) -> Result<(), Fail> {
    for (script, line) in [
        (
            b"x=1\nshow $x\n".as_slice(),
            b"bash2sh: 2:1: not-yet\n".as_slice(),
        ),
        (b"show a\n  show b;\n", b"bash2sh: 2:3: not-yet\n"),
        (b"\n\t show 'a\n'\n", b"bash2sh: 2:3: not-yet\n"),
        (b"show \"a\\b\"\nshow $x", b"bash2sh: 1:1: not-yet\n"),
        (b"# a\n#\0\n", b"bash2sh: 2:1: not-yet\n"),
        (b"show a # b\n", b"bash2sh: 1:1: not-yet\n"),
        (b"x=1 show\n", b"bash2sh: 1:1: not-yet\n"),
        (b"show n=a\n", b"bash2sh: 1:1: not-yet\n"),
        (b"\"$n\" a\n", b"bash2sh: 1:1: not-yet\n"),
        (b"\n\n'ec'ho a\n", b"bash2sh: 3:1: not-yet\n"),
        (b"IFS=a\n", b"bash2sh: 1:1: not-yet\n"),
        (b"show \"$__bs_x\"\n", b"bash2sh: 1:1: not-yet\n"),
    ] {
        ends(&rt, rt.alloc(), script, Ending(Status::Refused, b"", line))?;
    }
    Ok(())
}

#[test]
fn a_thousand_lines_are_translated(rt: HostRuntime) -> Result<(), Fail> {
    let mut script = Text::new(rt.alloc());
    let mut text = Text::new(rt.alloc());
    for i in 0..1_000 {
        let line = format!(in rt.alloc(); "n{i}+=x\n")?;
        script.append(line.as_bytes())?;
        let line = format!(in rt.alloc(); "n{i}=\"$n{i}\"x\n")?;
        text.append(line.as_bytes())?;
    }
    ends(
        &rt,
        rt.alloc(),
        script.bytes(),
        Ending(Status::Done, text.bytes(), b""),
    )
}

#[test]
fn a_failed_read_or_write_ends_the_run(rt: HostRuntime) -> Result<(), Fail> {
    for (reads, writes, status, text, line) in [
        (
            2,
            99,
            Status::ReadFault,
            b"".as_slice(),
            b"bash2sh: read fault\n".as_slice(),
        ),
        (99, 3, Status::WriteFault, b"n=", b"bash2sh: write fault\n"),
    ] {
        let mut source = source(rt.alloc(), THREE_LINES, &[reads])?;
        let mut out = sink(rt.alloc(), &[writes])?;
        let mut err = sink(rt.alloc(), &[])?;
        let ended = translated(rt.alloc(), &mut source, &mut out, &mut err)?;
        assert_eq!(rt; ended, status);
        assert_eq!(rt; out.held(), text);
        assert_eq!(rt; err.held(), line);
    }
    Ok(())
}

#[test]
fn a_script_of_the_limit_is_taken(rt: HostRuntime) -> Result<(), Fail> {
    for (bytes, status, line) in [
        (LONGEST, Status::Done, b"".as_slice()),
        (LONGEST + 1, Status::TooLong, b"bash2sh: too long\n"),
    ] {
        let mut script = Vec::new(rt.alloc());
        script.push(b'#')?;
        script.resize(bytes, b'x')?;
        ends(
            &rt,
            rt.alloc(),
            script.as_slice(),
            Ending(status, b"", line),
        )?;
    }
    Ok(())
}

#[test]
fn other_words_are_answered_before_anything_is_read(rt: HostRuntime) -> Result<(), Fail> {
    for asked in [[].as_slice(), &["translate", "extra"], &["translat"], &[""]] {
        let mut source = source(rt.alloc(), THREE_LINES, &[])?;
        let mut out = sink(rt.alloc(), &[])?;
        let mut err = sink(rt.alloc(), &[])?;
        let words = words(rt.alloc(), asked)?;
        let status = bash2sh(
            rt.alloc(),
            words.as_slice(),
            &mut source,
            &mut out,
            &mut err,
        );
        assert_eq!(rt; status, Status::Usage, "{asked:?}");
        assert_eq!(rt; out.held(), b"".as_slice());
        assert_eq!(rt; err.held(), b"bash2sh: usage\n".as_slice());
        let mut buffer = [b'.'; 5];
        assert_eq!(rt; source.read(&mut buffer), Ok(4));
        assert_eq!(rt; buffer.as_slice(), b"n=ab.".as_slice());
    }
    Ok(())
}

#[test]
fn a_failing_error_stream_leaves_the_status(rt: HostRuntime) -> Result<(), Fail> {
    for (fails, line) in [
        (1, b"".as_slice()),
        (10, b"bash2sh: "),
        (12, b"bash2sh: 1:"),
        (21, b"bash2sh: 1:1: not-ye"),
    ] {
        let mut source = source(rt.alloc(), b"show $x\n", &[])?;
        let mut out = sink(rt.alloc(), &[])?;
        let mut err = sink(rt.alloc(), &[fails])?;
        let ended = translated(rt.alloc(), &mut source, &mut out, &mut err)?;
        assert_eq!(rt; ended, Status::Refused);
        assert_eq!(rt; err.held(), line);
        assert_eq!(rt; out.held(), b"".as_slice());
    }
    Ok(())
}

#[test]
fn sure_streams_and_standard_error_serve_too(rt: HostRuntime) -> Result<(), Fail> {
    let asked = words(rt.alloc(), &["translate"])?;
    let mut err = StandardError::new(rt.stderr());
    for (script, status, taken) in [
        (THREE_LINES, Status::Done, 24),
        (b"show $x\n", Status::Refused, 0),
    ] {
        let mut source = SureSource::new(Text::copy(rt.alloc(), script)?);
        let mut out = SureSink::new();
        let ended = bash2sh(
            rt.alloc(),
            asked.as_slice(),
            &mut source,
            &mut out,
            &mut err,
        );
        assert_eq!(rt; ended, status);
        assert_eq!(rt; out.taken(), taken);
    }
    Ok(())
}
