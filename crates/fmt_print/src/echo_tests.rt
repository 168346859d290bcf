//! Rows of the arguments (each behind a comma) and what is printed. `tests/shell_cases` at the top runs the rows
//! with output by the shells at hand.

use super::*;
use crate::tests::list_of;
use span_text::Text;
use std::test::Fail;

#[test]
fn echo_words(rt: HostRuntime) -> Result<(), Fail> {
    let table: [(&[u8], &[u8]); 7] = [
        (b"", b"\n"),
        (b",a", b"a\n"),
        (b",a,b", b"a b\n"),
        (b",a b,c", b"a b c\n"),
        (b",", b"\n"),
        (b",,", b" \n"),
        (b",a,", b"a \n"),
    ];
    for (arguments, text) in table {
        let list = list_of(rt.alloc(), arguments)?;
        let printed = Text::copy(rt.alloc(), text)?;
        assert_eq!(rt; echo_text(rt.alloc(), &list), Ok(printed));
    }
    Ok(())
}

#[test]
fn echo_options(rt: HostRuntime) -> Result<(), Fail> {
    let table: [(&[u8], &[u8]); 13] = [
        (b",-n", b""),
        (b",-n,a", b"a"),
        (b",-n,-n,a", b"a"),
        (b",-nn,a", b"a"),
        (b",-e,a\\tb", b"a\tb\n"),
        (b",-E,a\\tb", b"a\\tb\n"),
        (b",a\\tb", b"a\\tb\n"),
        (b",-eE,a\\tb", b"a\\tb\n"),
        (b",-Ee,a\\tb", b"a\tb\n"),
        (b",-e,-E,a\\n", b"a\\n\n"),
        (b",-E,-e,a\\n", b"a\n\n"),
        (b",-neE,x\\n", b"x\\n"),
        (b",-nE,-e,x\\ny", b"x\ny"),
    ];
    for (arguments, text) in table {
        let list = list_of(rt.alloc(), arguments)?;
        let printed = Text::copy(rt.alloc(), text)?;
        assert_eq!(rt; echo_text(rt.alloc(), &list), Ok(printed));
    }
    Ok(())
}

#[test]
fn echo_words_that_are_no_options(rt: HostRuntime) -> Result<(), Fail> {
    let table: [(&[u8], &[u8]); 10] = [
        (b",-", b"-\n"),
        (b",--", b"--\n"),
        (b",-,-n", b"- -n\n"),
        (b",--,a", b"-- a\n"),
        (b",a,-n", b"a -n\n"),
        (b",a,-e,\\n", b"a -e \\n\n"),
        (b",-x,a", b"-x a\n"),
        (b",-nx,a", b"-nx a\n"),
        (b",-ne,-z,a\\n", b"-z a\n"),
        (b",-n,,a", b" a"),
    ];
    for (arguments, text) in table {
        let list = list_of(rt.alloc(), arguments)?;
        let printed = Text::copy(rt.alloc(), text)?;
        assert_eq!(rt; echo_text(rt.alloc(), &list), Ok(printed));
    }
    Ok(())
}

#[test]
fn echo_escapes(rt: HostRuntime) -> Result<(), Fail> {
    let table: [(&[u8], &[u8]); 13] = [
        (b",-e,\\\\", b"\\\n"),
        (b",-e,\\a\\b\\f\\n\\r\\t\\v", b"\x07\x08\x0c\n\r\t\x0b\n"),
        (b",-e,\\e[0m\\E", b"\x1b[0m\x1b\n"),
        (b",-e,\\0101", b"A\n"),
        (b",-e,\\01012", b"A2\n"),
        (b",-e,\\0", b"\x00\n"),
        (b",-e,\\08", b"\x008\n"),
        (b",-e,\\0377", b"\xff\n"),
        (b",-e,\\x41", b"A\n"),
        (b",-e,\\x4", b"\x04\n"),
        (b",-e,\\x4g", b"\x04g\n"),
        (b",-e,\\x414", b"A4\n"),
        (b",-e,\\xfF", b"\xff\n"),
    ];
    for (arguments, text) in table {
        let list = list_of(rt.alloc(), arguments)?;
        let printed = Text::copy(rt.alloc(), text)?;
        assert_eq!(rt; echo_text(rt.alloc(), &list), Ok(printed));
    }
    Ok(())
}

#[test]
fn echo_backslashes_that_are_printed(rt: HostRuntime) -> Result<(), Fail> {
    let table: [(&[u8], &[u8]); 5] = [
        (b",-e,\\q\\z", b"\\q\\z\n"),
        (b",-e,\\8\\9", b"\\8\\9\n"),
        (b",-e,a\\", b"a\\\n"),
        (b",-e,a\\,b", b"a\\ b\n"),
        (b",-e,\\\\n", b"\\n\n"),
    ];
    for (arguments, text) in table {
        let list = list_of(rt.alloc(), arguments)?;
        let printed = Text::copy(rt.alloc(), text)?;
        assert_eq!(rt; echo_text(rt.alloc(), &list), Ok(printed));
    }
    Ok(())
}

#[test]
fn echo_cuts(rt: HostRuntime) -> Result<(), Fail> {
    let table: [(&[u8], &[u8]); 3] = [
        (b",-e,a\\cb,c", b"a"),
        (b",-e,\\c", b""),
        (b",-e,a,b\\c,\\u", b"a b"),
    ];
    for (arguments, text) in table {
        let list = list_of(rt.alloc(), arguments)?;
        let printed = Text::copy(rt.alloc(), text)?;
        assert_eq!(rt; echo_text(rt.alloc(), &list), Ok(printed));
    }
    Ok(())
}

#[test]
fn echo_options_and_escapes_together(rt: HostRuntime) -> Result<(), Fail> {
    let table: [(&[u8], &[u8]); 10] = [
        (b",-en,a\\tb", b"a\tb"),
        (b",-e,\\\"", b"\\\"\n"),
        (b",-e,a  b,c\\nd", b"a  b c\nd\n"),
        (b",-e,x\\c\\x", b"x"),
        (b",-E,\\u\\1\\x", b"\\u\\1\\x\n"),
        (b",\\0400", b"\\0400\n"),
        (b",-e,-n,a", b"a"),
        (b",-e,--,\\t", b"-- \t\n"),
        (b",-e,\\07a", b"\x07a\n"),
        (b",-e,\\0012", b"\n\n"),
    ];
    for (arguments, text) in table {
        let list = list_of(rt.alloc(), arguments)?;
        let printed = Text::copy(rt.alloc(), text)?;
        assert_eq!(rt; echo_text(rt.alloc(), &list), Ok(printed));
    }
    Ok(())
}

#[test]
fn what_echo_gives_no_meaning_is_refused(rt: HostRuntime) -> Result<(), Fail> {
    let table: [(&[u8], usize); 14] = [
        (b",-e,\\u", 1),
        (b",-e,\\u0041", 1),
        (b",-e,\\U00000041", 1),
        (b",-e,\\1", 1),
        (b",-e,\\7", 1),
        (b",-e,\\x", 1),
        (b",-e,\\xg", 1),
        (b",-e,\\0400", 1),
        (b",-e,\\0777", 1),
        (b",-e,a,\\x", 2),
        (b",-n,-e,a,b,c\\3", 4),
        (b",-e,\\u,\\c", 1),
        (b",-e,a\\,\\5\\c", 2),
        (b",-e,\\x,\\1", 1),
    ];
    for (arguments, k) in table {
        let list = list_of(rt.alloc(), arguments)?;
        assert_eq!(rt;
            echo_text(rt.alloc(), &list),
            Err(EchoFault::Unsupported(k))
        );
    }
    Ok(())
}
