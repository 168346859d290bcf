//! Tables of what Bash does, each row written from the manual's rules.

ghost use Rattle.std.specs.Prelude.{◌<◌};

use super::*;
use span_text::{Flagged, Item, List, Mark, Memory, Text};
use std::alloc::Global;
use std::test::Fail;

/// A flagged text of a row: bytes are `Value`; between `'` they are quoted, and an empty pair is a `Quote`; between
/// `<` and `>` they are written.
fn flagged(alloc: Global, row: &[u8]) -> Result<Flagged, Memory> {
    let mut text = Flagged::new(alloc);
    let mut mark = Mark::Value;
    let mut empty = false;
    for b in row {
        match (*b, mark) {
            (b'\'', Mark::Quoted) => {
                if empty {
                    text.push(Item::Quote)?;
                }
                mark = Mark::Value;
            }
            (b'\'', _) => {
                mark = Mark::Quoted;
                empty = true;
            }
            (b'<', _) => mark = Mark::Written,
            (b'>', _) => mark = Mark::Value,
            (b, _) => {
                text.push(Item::Byte(b, mark))?;
                empty = false;
            }
        }
    }
    Ok(text)
}

/// Fields as a row: each ends with `|`, and a `Quote` is `"`.
fn shown(alloc: Global, fields: &List<Flagged>) -> Result<Text, Memory> {
    let mut row = Text::new(alloc);
    for field in fields.as_slice() {
        for item in field.items() {
            match item {
                Item::Byte(b, _) => row.append([*b].as_slice())?,
                Item::Quote => row.append(b"\"")?,
            }
        }
        row.append(b"|")?;
    }
    Ok(row)
}

fn bars(alloc: Global, texts: &List<Text>) -> Result<Text, Memory> {
    let mut row = Text::new(alloc);
    for text in texts.as_slice() {
        row.append(text.bytes())?;
        row.append(b"|")?;
    }
    Ok(row)
}

fn splits_to(alloc: Global, row: &[u8], ifs: Option<&[u8]>, want: &[u8]) -> Result<bool, Memory> {
    let text = flagged(alloc, row)?;
    let fields = split(alloc, &text, ifs)?;
    Ok(shown(alloc, &fields)?.bytes() == want)
}

#[test]
fn words_split_at_blanks(rt: HostRuntime) -> Result<(), Fail> {
    for (row, want) in [
        (b"".as_slice(), b"".as_slice()),
        (b"a", b"a|"),
        (b"a b", b"a|b|"),
        (b"  a", b"a|"),
        (b"a  ", b"a|"),
        (b"  a \t b\n", b"a|b|"),
        (b"\t\n ", b""),
        (b"a\tb\nc d", b"a|b|c|d|"),
        (b"'a b' c", b"a b|c|"),
        (b"''", b"\"|"),
        (b"'' a", b"\"|a|"),
        (b"a ''", b"a|\"|"),
        (b" '' ", b"\"|"),
        (b"a''b", b"a\"b|"),
        (b"<a b> c", b"a b|c|"),
        (b"<a >b", b"a b|"),
        (b"a:b", b"a:b|"),
        (b"a<x> <y>b", b"ax|yb|"),
        (b"' 'a", b" a|"),
        (b"a' '", b"a |"),
    ] {
        assert!(rt; splits_to(rt.alloc(), row, None, want)?, "{row:?}");
    }
    Ok(())
}

#[test]
fn words_split_at_spaces(rt: HostRuntime) -> Result<(), Fail> {
    for (row, want) in [
        (b"a b".as_slice(), b"a|b|".as_slice()),
        (b"a\tb", b"a\tb|"),
        (b" a  b ", b"a|b|"),
        (b"\n", b"\n|"),
        (b"a \n b", b"a|\n|b|"),
        (b"\t a", b"\t|a|"),
    ] {
        assert!(rt; splits_to(rt.alloc(), row, Some(b" "), want)?, "{row:?}");
    }
    Ok(())
}

#[test]
fn words_split_at_colons(rt: HostRuntime) -> Result<(), Fail> {
    for (row, want) in [
        (b"a:b".as_slice(), b"a|b|".as_slice()),
        (b"a:", b"a|"),
        (b":a", b"|a|"),
        (b"a::b", b"a||b|"),
        (b":", b"|"),
        (b"::", b"||"),
        (b"a: b", b"a| b|"),
        (b" a:b ", b" a|b |"),
        (b"a b", b"a b|"),
        (b"", b""),
        (b"'':a", b"\"|a|"),
        (b"a:''", b"a|\"|"),
        (b"'a:b':c", b"a:b|c|"),
        (b"<a:>b:c", b"a:b|c|"),
        (b":::a:", b"|||a|"),
        (b"<a>:", b"a|"),
    ] {
        assert!(rt; splits_to(rt.alloc(), row, Some(b":"), want)?, "{row:?}");
    }
    Ok(())
}

#[test]
fn words_split_at_both(rt: HostRuntime) -> Result<(), Fail> {
    for (row, want) in [
        (b"a : b".as_slice(), b"a|b|".as_slice()),
        (b" a b:c ", b"a|b|c|"),
        (b"a : : b", b"a||b|"),
        (b" : ", b"|"),
        (b": a", b"|a|"),
        (b"a :", b"a|"),
        (b" :a", b"|a|"),
        (b"a  :  b", b"a|b|"),
        (b"a:  :b", b"a||b|"),
        (b"a ::b", b"a||b|"),
        (b"  ", b""),
        (b"a:b c", b"a|b|c|"),
        (b"' ':a", b" |a|"),
        (b"'' : ''", b"\"|\"|"),
        (b"a\tb", b"a\tb|"),
    ] {
        assert!(rt; splits_to(rt.alloc(), row, Some(b" :"), want)?, "{row:?}");
    }
    Ok(())
}

#[test]
fn words_stay_whole_at_an_empty_ifs(rt: HostRuntime) -> Result<(), Fail> {
    for (row, want) in [
        (b"a b".as_slice(), b"a b|".as_slice()),
        (b"", b""),
        (b" ", b" |"),
        (b"a:b\t", b"a:b\t|"),
        (b"''", b"\"|"),
    ] {
        assert!(rt; splits_to(rt.alloc(), row, Some(b""), want)?, "{row:?}");
    }
    Ok(())
}

#[test]
fn words_split_at_newlines(rt: HostRuntime) -> Result<(), Fail> {
    for (row, want) in [
        (b"a b\nc".as_slice(), b"a b|c|".as_slice()),
        (b"\n\na\n\n", b"a|"),
        (b"\n", b""),
    ] {
        assert!(rt; splits_to(rt.alloc(), row, Some(b"\n"), want)?, "{row:?}");
    }
    Ok(())
}

#[test]
fn words_split_at_commas_and_tabs(rt: HostRuntime) -> Result<(), Fail> {
    for (row, want) in [
        (b"a\t,\tb".as_slice(), b"a|b|".as_slice()),
        (b"a,\t,b", b"a||b|"),
        (b"a b,c", b"a b|c|"),
        (b",,", b"||"),
    ] {
        assert!(rt; splits_to(rt.alloc(), row, Some(b",\t"), want)?, "{row:?}");
    }
    Ok(())
}

#[test]
fn words_split_at_letters(rt: HostRuntime) -> Result<(), Fail> {
    for (row, want) in [
        (b"1a2X3\\4".as_slice(), b"1|2|3|4|".as_slice()),
        (b"aa", b"||"),
    ] {
        assert!(rt; splits_to(rt.alloc(), row, Some(b"aX\\"), want)?, "{row:?}");
    }
    Ok(())
}

fn reads_to(
    alloc: Global,
    line: &[u8],
    ifs: Option<&[u8]>,
    raw: bool,
    n: usize,
    want: &[u8],
) -> Result<bool, Memory>
    requires { 0 < n }
{
    let texts = read_fields(alloc, line, ifs, raw, n)?;
    Ok(bars(alloc, &texts)?.bytes() == want)
}

#[test]
fn lines_read_at_blanks(rt: HostRuntime) -> Result<(), Fail> {
    for (line, raw, n, want) in [
        (b"a b c".as_slice(), false, 3usize, b"a|b|c|".as_slice()),
        (b"a b c", false, 2, b"a|b c|"),
        (b"a b c", false, 1, b"a b c|"),
        (b"a", false, 3, b"a|||"),
        (b"", false, 2, b"||"),
        (b"  a  b  ", false, 2, b"a|b|"),
        (b"  a  b  c  ", false, 2, b"a|b  c|"),
        (b"  a  ", false, 1, b"a|"),
        (b"\\ a b", false, 1, b" a b|"),
        (b"a\\ b c", false, 2, b"a b|c|"),
        (b"a\\", false, 1, b"a|"),
        (b"a\\", true, 1, b"a\\|"),
        (b"a\\ b c", true, 2, b"a\\|b c|"),
        (b"a b\\ ", false, 2, b"a|b |"),
        (b"a b\\ ", true, 2, b"a|b\\|"),
        (b"a b c\\ ", false, 2, b"a|b c |"),
        (b"a\\\nb", false, 1, b"ab|"),
        (b"a\\\\b", false, 1, b"a\\b|"),
        (b"\\", false, 1, b"|"),
        (b"\\a\\b", false, 1, b"ab|"),
        (b"a\tb\nc", true, 3, b"a|b|c|"),
    ] {
        if n > 0 {
            assert!(rt; reads_to(rt.alloc(), line, None, raw, n, want)?, "{line:?}");
        }
    }
    Ok(())
}

#[test]
fn lines_read_at_colons(rt: HostRuntime) -> Result<(), Fail> {
    for (line, raw, n, want) in [
        (b"a:b:c:".as_slice(), false, 2usize, b"a|b:c:|".as_slice()),
        (b"a:b:", false, 2, b"a|b|"),
        (b"a:", false, 1, b"a|"),
        (b"a::", false, 1, b"a::|"),
        (b":", false, 1, b"|"),
        (b"::", false, 1, b"::|"),
        (b"a\\:b:c", false, 2, b"a:b|c|"),
        (b":a", false, 2, b"|a|"),
        (b"a b:c", false, 2, b"a b|c|"),
        (b" a: b ", false, 2, b" a| b |"),
    ] {
        if n > 0 {
            assert!(rt;
                reads_to(rt.alloc(), line, Some(b":"), raw, n, want)?,
                "{line:?}"
            );
        }
    }
    Ok(())
}

#[test]
fn lines_read_at_both(rt: HostRuntime) -> Result<(), Fail> {
    for (line, raw, n, want) in [
        (
            b"a : b : c : ".as_slice(),
            false,
            2usize,
            b"a|b : c :|".as_slice(),
        ),
        (b"a : b : ", false, 2, b"a|b|"),
        (b"a :", false, 1, b"a|"),
        (b" : a", false, 2, b"|a|"),
    ] {
        if n > 0 {
            assert!(rt;
                reads_to(rt.alloc(), line, Some(b" :"), raw, n, want)?,
                "{line:?}"
            );
        }
    }
    Ok(())
}

#[test]
fn lines_read_whole(rt: HostRuntime) -> Result<(), Fail> {
    for (line, raw, n, want) in [
        (b"a b\\ c".as_slice(), false, 2usize, b"a b c||".as_slice()),
        (b" a ", false, 1, b" a |"),
    ] {
        if n > 0 {
            assert!(rt;
                reads_to(rt.alloc(), line, Some(b""), raw, n, want)?,
                "{line:?}"
            );
        }
    }
    Ok(())
}

fn joins_to(
    alloc: Global,
    texts: &[&[u8]],
    ifs: Option<&[u8]>,
    want: &[u8],
) -> Result<bool, Memory> {
    let mut list = List::new(alloc);
    for text in texts {
        list.push(Text::copy(alloc, text)?)?;
    }
    Ok(join(alloc, &list, ifs)?.bytes() == want)
}

#[test]
fn texts_join(rt: HostRuntime) -> Result<(), Fail> {
    let texts = [b"a".as_slice(), b"", b"b c"];
    assert!(rt; joins_to(rt.alloc(), texts.as_slice(), None, b"a  b c")?);
    assert!(rt; joins_to(rt.alloc(), texts.as_slice(), Some(b":-"), b"a::b c")?);
    assert!(rt; joins_to(rt.alloc(), texts.as_slice(), Some(b""), b"ab c")?);
    assert!(rt; joins_to(rt.alloc(), &texts[..1], Some(b":"), b"a")?);
    assert!(rt; joins_to(rt.alloc(), &texts[..0], None, b"")?);
    Ok(())
}
