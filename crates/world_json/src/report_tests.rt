use super::*;
use crate::samples::{pairs_of, texts_of};
use shell_world::{Call, End, Report};
use span_text::{List, Memory, Text};
use std::alloc::Global;
use std::test::Fail;

/// A report without calls, output and files.
fn bare(alloc: Global, end: End, turns: u32) -> Report {
    Report {
        end,
        calls: List::new(alloc),
        out: Text::new(alloc),
        err: Text::new(alloc),
        files: None,
        turns,
    }
}

#[test]
fn each_end_is_written(rt: HostRuntime) -> Result<(), Fail> {
    let table: [(End, &[u8]); 4] = [
        (
            End::Ended(0),
            b"{\"calls\":[],\"end\":\"ended\",\"err\":\"\",\"files\":{},\"out\":\"\",\"status\":0,\"turns\":3}\n",
        ),
        (
            End::Ended(255),
            b"{\"calls\":[],\"end\":\"ended\",\"err\":\"\",\"files\":{},\"out\":\"\",\"status\":255,\"turns\":3}\n",
        ),
        (
            End::GoesOn,
            b"{\"calls\":[],\"end\":\"goes-on\",\"err\":\"\",\"files\":null,\"out\":\"\",\"status\":null,\"turns\":3}\n",
        ),
        (
            End::Unspecified,
            b"{\"calls\":[],\"end\":\"unspecified\",\"err\":\"\",\"files\":null,\"out\":\"\",\"status\":null,\"turns\":3}\n",
        ),
    ];
    for (end, text) in table {
        let mut report = bare(rt.alloc(), end, 3);
        report.files = Some(List::new(rt.alloc()));
        assert_eq!(rt; report_text(rt.alloc(), &report)?.bytes(), text);
    }
    Ok(())
}

/// Bytes 0, 1, 127, 128 and 255, a quote, a backslash and a newline.
const BYTES: &[u8] = b"\x00\x01\x7f\x80\xff\"\\\n";

#[test]
fn each_byte_is_a_character(rt: HostRuntime) -> Result<(), Fail> {
    let mut report = bare(rt.alloc(), End::Ended(2), 4_294_967_295);
    report.out = Text::copy(rt.alloc(), BYTES)?;
    report.err = Text::copy(rt.alloc(), b"a/b \xc3\xa4\t")?;
    report.files = Some(pairs_of(rt.alloc(), &[(b"\xff", BYTES)])?);
    let text = report_text(rt.alloc(), &report)?;
    let expected: &[u8] =
        b"{\"calls\":[],\"end\":\"ended\",\"err\":\"a/b \xc3\x83\xc2\xa4\\t\",\"files\":{\"\xc3\xbf\":\"\\u0000\\u0001\x7f\xc2\x80\xc3\xbf\\\"\\\\\\n\"},\"out\":\"\\u0000\\u0001\x7f\xc2\x80\xc3\xbf\\\"\\\\\\n\",\"status\":2,\"turns\":4294967295}\n";
    assert_eq!(rt; text.bytes(), expected);
    Ok(())
}

fn call_of(
    alloc: Global,
    argv: &[&[u8]],
    env: &[(&[u8], &[u8])],
    input: Option<&[u8]>,
) -> Result<Call, Memory> {
    let input = match input {
        Some(bytes) => Some(Text::copy(alloc, bytes)?),
        None => None,
    };
    Ok(Call {
        argv: texts_of(alloc, argv)?,
        env: pairs_of(alloc, env)?,
        input,
        row: None,
    })
}

#[test]
fn calls_and_files_are_written(rt: HostRuntime) -> Result<(), Fail> {
    let mut report = bare(rt.alloc(), End::Ended(127), 0);
    report.calls.push(call_of(rt.alloc(), &[b"show", b"zy"], &[(b"n", b"zy")], None)?)?;
    report.calls.push(call_of(
        rt.alloc(),
        &[b"gone", b"a b"],
        &[(b"A", b""), (b"n", b"z")],
        Some(b""),
    )?)?;
    report
        .calls
        .push(call_of(rt.alloc(), &[b"cat"], &[], Some(b"in\n"))?)?;
    report.files = Some(pairs_of(rt.alloc(), &[(b"a", b"1"), (b"b/c", b"")])?);
    let text = report_text(rt.alloc(), &report)?;
    let expected: &[u8] =
        b"{\"calls\":[{\"argv\":[\"show\",\"zy\"],\"env\":{\"n\":\"zy\"},\"input\":null},{\"argv\":[\"gone\",\"a b\"],\"env\":{\"A\":\"\",\"n\":\"z\"},\"input\":\"\"},{\"argv\":[\"cat\"],\"env\":{},\"input\":\"in\\n\"}],\"end\":\"ended\",\"err\":\"\",\"files\":{\"a\":\"1\",\"b/c\":\"\"},\"out\":\"\",\"status\":127,\"turns\":0}\n";
    assert_eq!(rt; text.bytes(), expected);
    Ok(())
}

/// A run that went on shows its calls and output so far, and no file.
#[test]
fn a_run_that_goes_on_shows_what_it_did(rt: HostRuntime) -> Result<(), Fail> {
    let mut report = bare(rt.alloc(), End::GoesOn, 3);
    report
        .calls
        .push(call_of(rt.alloc(), &[b"show", b"a"], &[], None)?)?;
    report.out = Text::copy(rt.alloc(), b"o")?;
    report.files = Some(pairs_of(rt.alloc(), &[(b"a", b"1")])?);
    let text = report_text(rt.alloc(), &report)?;
    let expected: &[u8] =
        b"{\"calls\":[{\"argv\":[\"show\",\"a\"],\"env\":{},\"input\":null}],\"end\":\"goes-on\",\"err\":\"\",\"files\":null,\"out\":\"o\",\"status\":null,\"turns\":3}\n";
    assert_eq!(rt; text.bytes(), expected);
    Ok(())
}
