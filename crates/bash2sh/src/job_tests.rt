//! The commands that run jobs, over sources and sinks in memory.

use crate::program::bash2sh;
use crate::status::Status;
use span_text::{List, MemorySink, MemorySource, Text};
use std::alloc::Global;
use std::process::Abort;
use std::test::Fail;

/// A sink of ample room.
fn sink(alloc: Global) -> Result<MemorySink, Fail> {
    let mut sink = MemorySink::new(alloc, 4_096, List::new(alloc));
    sink.reserve(65_536)?;
    Ok(sink)
}

/// What a command gives for these bytes: its status, the text on `out` and the line on `err`.
pub fn given(alloc: Global, asked: &str, bytes: &[u8]) -> Result<(Status, Text, Text), Fail> {
    let mut words = Vec::new(alloc);
    words.push(String::from_str(alloc, asked)?)?;
    let text = Text::copy(alloc, bytes)?;
    let mut source = MemorySource::new(text, 1_000, List::new(alloc));
    let mut out = sink(alloc)?;
    let mut err = sink(alloc)?;
    let status = bash2sh(alloc, words.as_slice(), &mut source, &mut out, &mut err);
    let out = Text::copy(alloc, out.held())?;
    let err = Text::copy(alloc, err.held())?;
    Ok((status, out, err))
}

/// Checks what a command gives for a job.
fn gives(
    rt: &impl Abort,
    alloc: Global,
    asked: &str,
    job: &[u8],
    (status, out, err): (Status, &[u8], &[u8]),
) -> Result<(), Fail> {
    let (ended, text, line) = given(alloc, asked, job)?;
    assert_eq!(rt; ended, status, "{asked} {job:?}");
    assert_eq!(rt; text.bytes(), out, "{asked} {job:?}");
    assert_eq!(rt; line.bytes(), err, "{asked} {job:?}");
    Ok(())
}

const APPENDED: &[u8] =
    br#"{"calls":[{"argv":["show","zy"],"env":{"n":"zy"},"input":null},{"argv":["gone","a b"],"env":{"n":"zy"},"input":null}],"end":"ended","err":"","files":{},"out":"","status":127,"turns":0}
"#;

#[test]
fn a_run_of_either_language_is_reported(rt: HostRuntime) -> Result<(), Fail> {
    let bash =
        br#"{"script":"n+=y\nshow \"$n\"\ngone 'a b'\n","env":{"n":"z"},"table":[{"name":"show","answers":[{}]}]}"#;
    let sh =
        br#"{"script":"n=\"$n\"y\nshow \"$n\"\ngone 'a b'\n","env":{"n":"z"},"table":[{"name":"show","answers":[{}]}]}"#;
    gives(
        &rt,
        rt.alloc(),
        "run-bash",
        bash,
        (Status::Done, APPENDED, b""),
    )?;
    gives(&rt, rt.alloc(), "run-sh", sh, (Status::Done, APPENDED, b""))
}

#[test]
fn answers_come_in_turn_and_the_last_repeats(rt: HostRuntime) -> Result<(), Fail> {
    let job =
        br#"{"script":"cat\ncat\ncat\n","stdin":"in","table":[{"name":"cat","input":true,"answers":[{"out":"A"},{"out":"B"}]}]}"#;
    let report =
        br#"{"calls":[{"argv":["cat"],"env":{},"input":"in"},{"argv":["cat"],"env":{},"input":""},{"argv":["cat"],"env":{},"input":""}],"end":"ended","err":"","files":{},"out":"ABB","status":0,"turns":0}
"#;
    gives(
        &rt,
        rt.alloc(),
        "run-bash",
        job,
        (Status::Done, report, b""),
    )?;
    gives(&rt, rt.alloc(), "run-sh", job, (Status::Done, report, b""))
}

#[test]
fn what_is_no_job_or_no_script_is_refused(rt: HostRuntime) -> Result<(), Fail> {
    for (job, status, line) in [
        (
            br#"{"script":"","env":{"__bs_q":""}}"#.as_slice(),
            Status::BadWorld,
            b"bash2sh: /env/__bs_q: reserved\n".as_slice(),
        ),
        (
            br#"{"args":[]}"#,
            Status::BadWorld,
            b"bash2sh: /script: missing\n",
        ),
        (
            br#"{"script":"","latitude":{"redirect":0}}"#,
            Status::BadWorld,
            b"bash2sh: /latitude/redirect: range\n",
        ),
        (
            br#"{"script":"show a\n\u0000"}"#,
            Status::BadWorld,
            b"bash2sh: /script: not-bytes\n",
        ),
        (b"script", Status::BadWorld, b"bash2sh: : json\n"),
    ] {
        for asked in ["run-bash", "run-sh"] {
            gives(&rt, rt.alloc(), asked, job, (status, b"", line))?;
        }
    }
    Ok(())
}

#[test]
fn what_is_no_script_is_refused_at_its_place(rt: HostRuntime) -> Result<(), Fail> {
    for (asked, job, line) in [
        (
            "run-bash",
            br#"{"script":"show a\n  show b;\n"}"#.as_slice(),
            b"bash2sh: 2:3: not-yet\n".as_slice(),
        ),
        (
            "run-sh",
            br#"{"script":"if a"}"#,
            b"bash2sh: 1:1: sh-syntax\n",
        ),
        (
            "run-sh",
            br#"{"script":"show a\n\n  b; }\n"}"#,
            b"bash2sh: 3:3: sh-syntax\n",
        ),
    ] {
        gives(&rt, rt.alloc(), asked, job, (Status::Refused, b"", line))?;
    }
    Ok(())
}

/// A job with this script, where `show` answers in two ways.
fn job(alloc: Global, script: &[u8]) -> Result<Text, Fail> {
    let mut job = Text::copy(alloc, b"{\"script\":\"")?;
    for byte in script {
        match *byte {
            b'"' => job.append(b"\\\"")?,
            b'\n' => job.append(b"\\n")?,
            b'\t' => job.append(b"\\t")?,
            b => job.append(&[b])?,
        }
    }
    job.append(
        br#"","env":{"HOME":"/h","n":"z"},"table":[{"name":"show","answers":[{"out":"s"},{"status":3,"err":"e"}]}]}"#,
    )?;
    Ok(job)
}

/// Checks that the translation of this script, run as sh, does what the script does.
fn runs_as_translated(rt: &impl Abort, alloc: Global, script: &str) -> Result<(), Fail> {
    let text = given(alloc, "translate", script.as_bytes())?;
    assert_eq!(rt; text.0, Status::Done, "{script:?}");
    let bash = job(alloc, script.as_bytes())?;
    let sh = job(alloc, text.1.bytes())?;
    let bash = given(alloc, "run-bash", bash.bytes())?;
    let sh = given(alloc, "run-sh", sh.bytes())?;
    assert_eq!(rt; bash.0, Status::Done, "{script:?}");
    assert!(rt; bash == sh, "{script:?}");
    Ok(())
}

#[test]
fn translated_calls_and_assignments_run_as_before(rt: HostRuntime) -> Result<(), Fail> {
    for script in [
        "",
        "\n",
        "# a\n",
        "show",
        "show a\n",
        "show a\nshow b\n",
        "n=ab\nn+=cd\nshow \"$n\"\n",
        "n=\nshow \"$n\"\n",
        "n+=\nshow \"$n\"\n",
        "m=\"$n\"\nm+=\"$n\"x\nshow \"$m\" \"$n\"\n",
        "m+='a b'\nshow \"$m\"\n",
    ] {
        runs_as_translated(&rt, rt.alloc(), script)?;
    }
    Ok(())
}

#[test]
fn translated_empty_words_and_missing_commands_run_as_before(rt: HostRuntime) -> Result<(), Fail> {
    for script in [
        "show ''\n",
        "show \"\"\n",
        "show \"$no\"\n",
        "gone\n",
        "gone a\nshow b\n",
        "show a\ngone\n",
        "HOME=/x\ngone \"$HOME\"\n",
        "HOME+=/x\ngone \"$HOME\"\n",
        "m=1\ngone\n",
    ] {
        runs_as_translated(&rt, rt.alloc(), script)?;
    }
    Ok(())
}

#[test]
fn translated_quotes_and_longer_scripts_run_as_before(rt: HostRuntime) -> Result<(), Fail> {
    for script in [
        "'sh'ow \"it's $n\"\n",
        "show a'b c'\"d $n\"\n",
        "  show \t a  \n\n # c\n",
        "n+=a\nn+=b\nn+=c\ngone \"$n\"\n",
        "a=1\nb=\"$a\"\na=2\ngone \"$a$b\"\n",
        "/bin/echo hi\n",
        "./x -v --long @a,b\n",
        "show \"a\tb\"\n",
        "x='$n'\nshow \"$x\"\n",
        "show a\nshow b\nshow c\nn=1\n",
    ] {
        runs_as_translated(&rt, rt.alloc(), script)?;
    }
    Ok(())
}
