//! Tables of built-ins, each row written from the standard's rules and the profile's.

use crate::cases::W::{Gone, Plain as P, PlainQuotedValue, PlainValue, Quoted, QuotedValue, Value};
use crate::cases::{INSIDE, Output, Setting, Show, TOP, W, given, shown};
use sh_builtins::{is_sh_builtin, is_special};
use span_text::Memory;
use std::alloc::Global;
use std::test::Fail;

/// A command's words, its name first, and what is shown.
type Row<'r> = (&'r [W<'r>], &'r str);

/// The index of the first row that shows something else, or how many rows there are.
fn first_wrong(
    alloc: Global,
    setting: Setting<'_>,
    show: Show,
    rows: &[Row<'_>],
) -> Result<usize, Memory> {
    for (at, row) in rows.iter().enumerate() {
        let text = shown(alloc, setting, row.0, show)?;
        if text.bytes() != row.1.as_bytes() {
            return Ok(at);
        }
    }
    Ok(rows.len())
}

const NONE: &str = "unspecified";

#[test]
fn statuses(rt: HostRuntime) -> Result<(), Fail> {
    let rows: [Row<'_>; 6] = [
        (&[P(":")], "next 0"),
        (&[P(":"), P("a"), Value("b")], "next 0"),
        (&[P("true")], "next 0"),
        (&[P("true"), P("a")], "next 0"),
        (&[P("false")], "next 1"),
        (&[P("false"), P("a")], "next 1"),
    ];
    assert_eq!(rt; first_wrong(rt.alloc(), TOP, Show::End, &rows)?, rows.len());
    Ok(())
}

#[test]
fn jumps_inside(rt: HostRuntime) -> Result<(), Fail> {
    let rows: [Row<'_>; 16] = [
        (&[P("break")], "break+0 0"),
        (&[P("break"), P("1")], "break+0 0"),
        (&[P("break"), P("2")], "break+1 0"),
        (&[P("break"), Quoted("02")], "break+1 0"),
        (&[P("break"), P("3")], NONE),
        (&[P("break"), P("0")], NONE),
        (&[P("break"), P("a")], NONE),
        (&[P("break"), Value("1")], NONE),
        (&[P("break"), Gone], NONE),
        (&[P("break"), P("1"), P("1")], NONE),
        (&[Value("break")], "break+0 0"),
        (&[P("continue")], "continue+0 0"),
        (&[P("continue"), P("2")], "continue+1 0"),
        (&[P("continue"), P("3")], NONE),
        (&[P("return")], "return 7"),
        (&[P("return"), Value("0255")], "return 255"),
    ];
    assert_eq!(rt;
        first_wrong(rt.alloc(), INSIDE, Show::End, &rows)?,
        rows.len()
    );
    Ok(())
}

#[test]
fn jumps_outside(rt: HostRuntime) -> Result<(), Fail> {
    let rows: [Row<'_>; 10] = [
        (&[P("break")], NONE),
        (&[P("continue")], NONE),
        (&[P("return")], NONE),
        (&[P("return"), P("1")], NONE),
        (&[P("exit")], "exit 7"),
        (&[P("exit"), P("0")], "exit 0"),
        (&[P("exit"), Gone], "exit 7"),
        (&[P("exit"), P("256")], NONE),
        (&[P("exit"), P("-1")], NONE),
        (&[P("exit"), P("1"), P("2")], NONE),
    ];
    assert_eq!(rt; first_wrong(rt.alloc(), TOP, Show::End, &rows)?, rows.len());
    Ok(())
}

#[test]
fn parameters(rt: HostRuntime) -> Result<(), Fail> {
    let rows: [Row<'_>; 12] = [
        (&[P("set"), P("--")], "sh,"),
        (&[P("set"), P("--"), P("c"), P("--")], "sh,c,--,"),
        (&[P("set")], NONE),
        (&[P("set"), P("c")], NONE),
        (&[P("set"), P("-e")], NONE),
        (&[P("shift")], "sh,b,"),
        (&[P("shift"), P("0")], "sh,a,b,"),
        (&[P("shift"), Value("2")], "sh,"),
        (&[P("shift"), P("3")], NONE),
        (&[P("shift"), P("x")], NONE),
        (&[P("shift"), P("-1")], NONE),
        (&[P("shift"), P("1"), P("1")], NONE),
    ];
    assert_eq!(rt;
        first_wrong(rt.alloc(), TOP, Show::Params, &rows)?,
        rows.len()
    );
    Ok(())
}

#[test]
fn exports(rt: HostRuntime) -> Result<(), Fail> {
    let rows: [Row<'_>; 17] = [
        (&[P("export"), P("y")], "x=1!,y!,"),
        (&[P("export"), P("x")], "x=1!,"),
        (&[P("export"), Quoted("y")], "x=1!,y!,"),
        (&[P("export"), P("y=2"), P("x=3")], "x=3!,y=2!,"),
        (&[P("export"), P("y=a=b")], "x=1!,y=a=b!,"),
        (&[P("export"), P("y=")], "x=1!,y=!,"),
        (
            &[P("export"), PlainQuotedValue("y=", "a b")],
            "x=1!,y=a b!,",
        ),
        (&[P("export"), PlainValue("y=", "a")], NONE),
        (&[P("export"), PlainQuotedValue("y", "=a")], NONE),
        (&[P("export"), QuotedValue("y")], NONE),
        (&[P("export"), Quoted("y=2")], NONE),
        (&[P("export"), P("y=~")], NONE),
        (&[P("export"), P("y=a:~")], NONE),
        (&[P("export"), P("y=a~")], "x=1!,y=a~!,"),
        (&[P("export")], NONE),
        (&[P("export"), P("-p")], NONE),
        (&[P("export"), P("1y=2")], NONE),
    ];
    assert_eq!(rt;
        first_wrong(rt.alloc(), TOP, Show::Variables, &rows)?,
        rows.len()
    );
    Ok(())
}

#[test]
fn unsets(rt: HostRuntime) -> Result<(), Fail> {
    let rows: [Row<'_>; 9] = [
        (&[P("unset"), P("x")], "x,"),
        (&[P("unset"), P("-v"), P("x")], "x,"),
        (&[P("unset"), Quoted("x")], "x,"),
        (&[P("unset"), P("f")], NONE),
        (&[P("unset"), P("-f"), P("x")], NONE),
        (&[P("unset")], NONE),
        (&[P("unset"), P("-v")], NONE),
        (&[P("unset"), Value("x")], NONE),
        (&[P("unset"), P("1x")], NONE),
    ];
    assert_eq!(rt;
        first_wrong(rt.alloc(), TOP, Show::Variables, &rows)?,
        rows.len()
    );
    Ok(())
}

#[test]
fn outputs(rt: HostRuntime) -> Result<(), Fail> {
    let rows: [Row<'_>; 20] = [
        (&[P("echo")], "\n"),
        (&[P("echo"), P("a"), Value("b c"), P("-n")], "a b c -n\n"),
        (&[P("echo"), P("-n")], NONE),
        (&[P("echo"), Value("-")], NONE),
        (&[P("echo"), P("a"), Quoted("b\\c")], NONE),
        (&[P("printf"), P("a\\n")], "a\n"),
        (&[P("printf"), P("--"), P("a")], "a"),
        (&[P("printf"), P("%s,"), P("a"), P("b")], "a,b,"),
        (&[P("printf"), P("%5.1d|%%"), P("-3")], "   -3|%"),
        (
            &[P("printf"), P("%b%s"), Quoted("a\\tb\\cd"), P("e")],
            "a\tb",
        ),
        (&[P("printf"), P("%d"), P("0x1f")], "31"),
        (&[P("printf"), P("%d")], "0"),
        (&[P("printf")], NONE),
        (&[P("printf"), P("--")], NONE),
        (&[P("printf"), P("-v"), P("x"), P("a")], NONE),
        (&[P("printf"), P("--"), P("-a")], NONE),
        (&[P("printf"), P("a%%"), P("b")], NONE),
        (&[P("printf"), P("%d"), P("x")], NONE),
        (&[P("printf"), P("%q"), P("x")], NONE),
        (&[P("printf"), P("%b"), Quoted("\\q")], NONE),
    ];
    assert_eq!(rt;
        first_wrong(rt.alloc(), TOP, Show::Output, &rows)?,
        rows.len()
    );
    Ok(())
}

#[test]
fn what_is_closed_is_not_written(rt: HostRuntime) -> Result<(), Fail> {
    let closed = Setting {
        loops: 0,
        in_function: false,
        stdin: "",
        output: Output::Closed,
    };
    let rows: [Row<'_>; 3] = [
        (&[P("echo")], "next 1"),
        (&[P("printf"), P("a")], "next 1"),
        (&[P("printf"), P("")], "next 0"),
    ];
    assert_eq!(rt;
        first_wrong(rt.alloc(), closed, Show::End, &rows)?,
        rows.len()
    );
    Ok(())
}

#[test]
fn fields_of_a_line(rt: HostRuntime) -> Result<(), Fail> {
    let rows: [Row<'_>; 14] = [
        (&[P("read"), P("y")], "x=1!,y=a b  c,"),
        (&[P("read"), P("y"), P("z")], "x=1!,y=a,z=b  c,"),
        (&[P("read"), P("-r"), P("y"), P("z")], "x=1!,y=a,z=b\\,"),
        (
            &[P("read"), P("w"), P("x"), P("y"), P("z")],
            "w=a,x=b!,y=c,z=,",
        ),
        (&[P("read"), Quoted("y")], "x=1!,y=a b  c,"),
        (&[P("read"), P("y"), P("y")], "x=1!,y=b  c,"),
        (&[P("read")], NONE),
        (&[P("read"), P("-r")], NONE),
        (&[P("read"), Value("y")], NONE),
        (&[P("read"), P("y"), Gone], NONE),
        (&[P("read"), P("-p"), P("y")], NONE),
        (&[P("read"), P("1y")], NONE),
        (&[P("read"), P("p")], NONE),
        (&[P("read"), P("f")], "f=a b  c,x=1!,"),
    ];
    let lines = given("  a b\\\n  c \nd\n");
    assert_eq!(rt;
        first_wrong(rt.alloc(), lines, Show::Variables, &rows)?,
        rows.len()
    );
    Ok(())
}

#[test]
fn ends_of_a_line(rt: HostRuntime) -> Result<(), Fail> {
    let read: [Row<'_>; 1] = [(&[P("read"), P("y")], "next 0")];
    assert_eq!(rt; first_wrong(rt.alloc(), given("a\n"), Show::End, &read)?, 1);
    let unended: [Row<'_>; 1] = [(&[P("read"), P("y")], "next 1")];
    assert_eq!(rt;
        first_wrong(rt.alloc(), given("a"), Show::End, &unended)?,
        1
    );
    assert_eq!(rt; first_wrong(rt.alloc(), given(""), Show::End, &unended)?, 1);
    assert_eq!(rt;
        first_wrong(rt.alloc(), given("a\\\n"), Show::End, &unended)?,
        1
    );
    let kept: [Row<'_>; 1] = [(&[P("read"), P("y")], "x=1!,y=a ,")];
    assert_eq!(rt;
        first_wrong(rt.alloc(), given("a\\ \n"), Show::Variables, &kept)?,
        1
    );
    let dropped: [Row<'_>; 1] = [(&[P("read"), P("y")], "x=1!,y=ab,")];
    assert_eq!(rt;
        first_wrong(rt.alloc(), given("a\\b\\"), Show::Variables, &dropped)?,
        1
    );
    Ok(())
}

#[test]
fn tests_of_texts(rt: HostRuntime) -> Result<(), Fail> {
    let rows: [Row<'_>; 20] = [
        (&[P("test")], "next 1"),
        (&[P("test"), P("-n")], "next 0"),
        (&[P("test"), Quoted("")], "next 1"),
        (&[P("test"), P("!"), P("a")], "next 1"),
        (&[P("test"), P("-n"), Quoted("")], "next 1"),
        (&[P("test"), P("-z"), Quoted("")], "next 0"),
        (&[P("test"), P("a"), P("="), P("a")], "next 0"),
        (&[P("test"), P("a"), P("!="), P("a")], "next 1"),
        (&[P("test"), P("!"), P("="), P("a")], "next 1"),
        (&[P("test"), P("!"), P("-n"), P("a")], "next 1"),
        (&[P("test"), P("!"), P("a"), P("="), P("b")], "next 0"),
        (&[P("test"), P("a"), P("=="), P("a")], NONE),
        (&[P("test"), P("a"), P("-a"), P("b")], NONE),
        (&[P("test"), P("-q"), P("b")], NONE),
        (&[P("test"), P("("), P("a"), P(")")], NONE),
        (&[P("test"), P("a"), P("b"), P("="), P("b")], NONE),
        (&[P("test"), P("!"), P("!"), P("!"), P("!"), P("a")], NONE),
        (&[P("["), P("a"), P("="), P("a"), P("]")], "next 0"),
        (&[P("["), P("]")], "next 1"),
        (&[P("["), P("a")], NONE),
    ];
    assert_eq!(rt; first_wrong(rt.alloc(), TOP, Show::End, &rows)?, rows.len());
    Ok(())
}

#[test]
fn tests_of_numbers_and_files(rt: HostRuntime) -> Result<(), Fail> {
    let rows: [Row<'_>; 21] = [
        (&[P("test"), P("010"), P("-eq"), P("+10")], "next 0"),
        (&[P("test"), P("1"), P("-ne"), P("1")], "next 1"),
        (
            &[P("test"), P("-9223372036854775808"), P("-lt"), P("-1")],
            "next 0",
        ),
        (&[P("test"), P("2"), P("-le"), P("1")], "next 1"),
        (&[P("test"), P("2"), P("-gt"), P("1")], "next 0"),
        (&[P("test"), P("2"), P("-ge"), P("2")], "next 0"),
        (
            &[P("test"), P("9223372036854775808"), P("-gt"), P("1")],
            NONE,
        ),
        (&[P("test"), Quoted(""), P("-eq"), P("0")], NONE),
        (&[P("test"), P("0x1"), P("-eq"), P("1")], NONE),
        (&[P("test"), Quoted(" 1"), P("-eq"), P("1")], NONE),
        (&[P("test"), P("-e"), P("d/f")], "next 0"),
        (&[P("test"), P("-e"), P("g")], "next 1"),
        (&[P("test"), P("-f"), P("d")], "next 1"),
        (&[P("test"), P("-f"), P("./e")], "next 0"),
        (&[P("test"), P("-d"), P("d")], "next 0"),
        (&[P("test"), P("-d"), P("e")], "next 1"),
        (&[P("test"), P("-s"), P("e")], "next 1"),
        (&[P("test"), P("-s"), P("d")], "next 0"),
        (&[P("test"), P("-r"), P("e")], "next 0"),
        (&[P("test"), P("-w"), P("d/f")], "next 0"),
        (&[P("test"), P("-x"), P("e")], NONE),
    ];
    assert_eq!(rt; first_wrong(rt.alloc(), TOP, Show::End, &rows)?, rows.len());
    Ok(())
}

#[test]
fn names(rt: HostRuntime) -> Result<(), Fail> {
    let special: [&[u8]; 9] = [
        b":",
        b"break",
        b"continue",
        b"return",
        b"exit",
        b"set",
        b"shift",
        b"export",
        b"unset",
    ];
    assert_eq!(rt; special.iter().filter(|name| is_special(**name)).count(), 9);
    let plain: [&[u8]; 7] = [
        b"true", b"false", b"printf", b"read", b"test", b"[", b"echo",
    ];
    assert_eq!(rt;
        plain.iter().filter(|name| is_sh_builtin(**name)).count(),
        7
    );
    assert_eq!(rt; plain.iter().filter(|name| is_special(**name)).count(), 0);
    assert_eq!(rt; is_sh_builtin(b"mapfile"), false);
    assert_eq!(rt; is_sh_builtin(b"cd"), false);
    let other: [Row<'_>; 1] = [(&[P("cd")], NONE)];
    assert_eq!(rt; first_wrong(rt.alloc(), TOP, Show::End, &other)?, 1);
    Ok(())
}
