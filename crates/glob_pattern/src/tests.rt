//! Tables: whether texts match, and lengths, as Bash 5 tells in the C locale; doubtful places by the rules.

use super::*;
use span_text::{Flagged, Item, List, Mark, Memory, Text};
use std::alloc::Global;
use std::test::Fail;

/// A flagged text of a row: bytes are `Written`; between `'` they are quoted, and an empty pair is a `Quote`; between
/// `{` and `}` they are `Value`.
pub fn flagged(alloc: Global, row: &[u8]) -> Result<Flagged, Memory> {
    let mut text = Flagged::new(alloc);
    let mut mark = Mark::Written;
    let mut empty = false;
    for b in row {
        match (*b, mark) {
            (b'\'', Mark::Quoted) => {
                if empty {
                    text.push(Item::Quote)?;
                }
                mark = Mark::Written;
            }
            (b'\'', _) => {
                mark = Mark::Quoted;
                empty = true;
            }
            (b'{', _) => mark = Mark::Value,
            (b'}', _) => mark = Mark::Written,
            (b, _) => {
                text.push(Item::Byte(b, mark))?;
                empty = false;
            }
        }
    }
    Ok(text)
}

fn pattern(alloc: Global, row: &[u8]) -> Result<Pattern, PatternFault> {
    let text = flagged(alloc, row)?;
    Pattern::read(alloc, &text)
}

fn matches(alloc: Global, row: &[u8], text: &[u8]) -> Result<bool, PatternFault> {
    Ok(pattern(alloc, row)?.matches(text))
}

#[test]
fn patterns_match_a(rt: HostRuntime) -> Result<(), Fail> {
    for (pattern, text, want) in [
        (b"''".as_slice(), b"".as_slice(), true),
        (b"''", b"a", false),
        (b"a", b"a", true),
        (b"a", b"b", false),
        (b"a", b"", false),
        (b"a", b"aa", false),
        (b"?", b"a", true),
        (b"?", b"", false),
        (b"?", b"ab", false),
        (b"?", b"\n", true),
        (b"*", b"", true),
        (b"*", b"a", true),
        (b"*", b"abc", true),
        (b"*", b"/.", true),
        (b"a*", b"a", true),
        (b"a*", b"abc", true),
        (b"a*", b"ba", false),
        (b"*a", b"a", true),
        (b"*a", b"bca", true),
        (b"*a", b"ab", false),
        (b"*a*", b"xax", true),
        (b"*a*", b"a", true),
        (b"*a*", b"bbb", false),
        (b"a?c", b"abc", true),
    ] {
        assert_eq!(rt;
            matches(rt.alloc(), pattern, text)?,
            want,
            "{pattern:?} {text:?}"
        );
    }
    Ok(())
}

#[test]
fn patterns_match_b(rt: HostRuntime) -> Result<(), Fail> {
    for (pattern, text, want) in [
        (b"a?c".as_slice(), b"ac".as_slice(), false),
        (b"a?c", b"abbc", false),
        (b"a*b*c", b"abc", true),
        (b"a*b*c", b"axxbyyc", true),
        (b"a*b*c", b"acb", false),
        (b"*ab", b"aab", true),
        (b"*ab", b"abab", true),
        (b"*ab", b"aba", false),
        (b"**", b"", true),
        (b"**", b"xy", true),
        (b"*?", b"", false),
        (b"*?", b"x", true),
        (b"*?", b"xy", true),
        (b"?*?", b"x", false),
        (b"?*?", b"xy", true),
        (b"?*?", b"xyz", true),
        (b"[abc]", b"a", true),
        (b"[abc]", b"c", true),
        (b"[abc]", b"d", false),
        (b"[abc]", b"ab", false),
        (b"[abc]", b"", false),
        (b"[a-c]", b"a", true),
        (b"[a-c]", b"b", true),
        (b"[a-c]", b"c", true),
    ] {
        assert_eq!(rt;
            matches(rt.alloc(), pattern, text)?,
            want,
            "{pattern:?} {text:?}"
        );
    }
    Ok(())
}

#[test]
fn patterns_match_c(rt: HostRuntime) -> Result<(), Fail> {
    for (pattern, text, want) in [
        (b"[a-c]".as_slice(), b"d".as_slice(), false),
        (b"[!a-c]", b"a", false),
        (b"[!a-c]", b"d", true),
        (b"[!a-c]", b"", false),
        (b"[^a-c]", b"b", false),
        (b"[^a-c]", b"z", true),
        (b"[]a]", b"]", true),
        (b"[]a]", b"a", true),
        (b"[]a]", b"b", false),
        (b"[!]a]", b"]", false),
        (b"[!]a]", b"a", false),
        (b"[!]a]", b"b", true),
        (b"[a-]", b"-", true),
        (b"[a-]", b"a", true),
        (b"[a-]", b"b", false),
        (b"[-a]", b"-", true),
        (b"[-a]", b"a", true),
        (b"[-a]", b"b", false),
        (b"[[:alpha:]]", b"x", true),
        (b"[[:alpha:]]", b"X", true),
        (b"[[:alpha:]]", b"1", false),
        (b"[[:digit:][:upper:]]", b"5", true),
        (b"[[:digit:][:upper:]]", b"Q", true),
        (b"[[:digit:][:upper:]]", b"q", false),
    ] {
        assert_eq!(rt;
            matches(rt.alloc(), pattern, text)?,
            want,
            "{pattern:?} {text:?}"
        );
    }
    Ok(())
}

#[test]
fn patterns_match_d(rt: HostRuntime) -> Result<(), Fail> {
    for (pattern, text, want) in [
        (b"[![:space:]]".as_slice(), b" ".as_slice(), false),
        (b"[![:space:]]", b"\t", false),
        (b"[![:space:]]", b"x", true),
        (b"[[:punct:]]", b"!", true),
        (b"[[:punct:]]", b"a", false),
        (b"[[:punct:]]", b"_", true),
        (b"[[:xdigit:]]", b"f", true),
        (b"[[:xdigit:]]", b"G", false),
        (b"[[:xdigit:]]", b"0", true),
        (b"[[:cntrl:]]", b"\x01", true),
        (b"[[:cntrl:]]", b" ", false),
        (b"[[:blank:]]", b"\t", true),
        (b"[[:blank:]]", b"\n", false),
        (b"[[:graph:]]", b"~", true),
        (b"[[:graph:]]", b" ", false),
        (b"[[:print:]]", b" ", true),
        (b"[[:print:]]", b"\x7f", false),
        (b"[[:lower:]]", b"a", true),
        (b"[[:lower:]]", b"A", false),
        (b"[[:alnum:]]", b"z", true),
        (b"[[:alnum:]]", b"-", false),
        (b"[[:upper:]]", b"A", true),
        (b"[[:upper:]]", b"a", false),
        (b"[", b"[", true),
    ] {
        assert_eq!(rt;
            matches(rt.alloc(), pattern, text)?,
            want,
            "{pattern:?} {text:?}"
        );
    }
    Ok(())
}

#[test]
fn patterns_match_e(rt: HostRuntime) -> Result<(), Fail> {
    for (pattern, text, want) in [
        (b"[".as_slice(), b"a".as_slice(), false),
        (b"[a", b"[a", true),
        (b"[a", b"a", false),
        (b"a[", b"a[", true),
        (b"a[", b"ab", false),
        (b"[]", b"[]", true),
        (b"[]", b"]", false),
        (b"[!]", b"[!]", true),
        (b"[!]", b"!", false),
        (b"'*'", b"*", true),
        (b"'*'", b"a", false),
        (b"'?'a", b"?a", true),
        (b"'?'a", b"ba", false),
        (b"a'[bc]'", b"a[bc]", true),
        (b"a'[bc]'", b"ab", false),
        (b"[a'-'c]", b"-", true),
        (b"[a'-'c]", b"b", false),
        (b"[a'-'c]", b"a", true),
        (b"[a']'b]", b"]", true),
        (b"[a']'b]", b"b", true),
        (b"['a'-'c']", b"b", true),
        (b"['a'-'c']", b"d", false),
        (b"['!'a]", b"!", true),
        (b"['!'a]", b"a", true),
    ] {
        assert_eq!(rt;
            matches(rt.alloc(), pattern, text)?,
            want,
            "{pattern:?} {text:?}"
        );
    }
    Ok(())
}

#[test]
fn patterns_match_f(rt: HostRuntime) -> Result<(), Fail> {
    for (pattern, text, want) in [
        (b"['!'a]".as_slice(), b"b".as_slice(), false),
        (b"[ab]*[yz]", b"a-z", true),
        (b"[ab]*[yz]", b"by", true),
        (b"[ab]*[yz]", b"az9", false),
        (b"*[0-9]*", b"ab3c", true),
        (b"*[0-9]*", b"abc", false),
        (b"*.txt", b"a.txt", true),
        (b"*.txt", b"a.txt.gz", false),
        (b"[[:alpha:]_]*", b"_x", true),
        (b"[[:alpha:]_]*", b"9x", false),
        (b"[a-cx-z]", b"b", true),
        (b"[a-cx-z]", b"y", true),
        (b"[a-cx-z]", b"m", false),
        (b"[+--]", b",", true),
        (b"[+--]", b".", false),
        (b"*a*b*a", b"aba", true),
        (b"*a*b*a", b"abxa", true),
        (b"*a*b*a", b"ab", false),
    ] {
        assert_eq!(rt;
            matches(rt.alloc(), pattern, text)?,
            want,
            "{pattern:?} {text:?}"
        );
    }
    Ok(())
}

#[test]
fn lengths(rt: HostRuntime) -> Result<(), Fail> {
    for (row, text, want) in [
        (
            b"*a".as_slice(),
            b"xaya".as_slice(),
            [Some(2), Some(4), Some(1), Some(4)],
        ),
        (b"a*", b"abc", [Some(1), Some(3), Some(3), Some(3)]),
        (b"?", b"abc", [Some(1), Some(1), Some(1), Some(1)]),
        (b"x", b"abc", [None, None, None, None]),
        (b"*", b"abc", [Some(0), Some(3), Some(0), Some(3)]),
        (b"''", b"abc", [Some(0), Some(0), Some(0), Some(0)]),
        (b"*/", b"a/b/c", [Some(2), Some(4), None, None]),
        (b"/*", b"a/b/c", [None, None, Some(2), Some(4)]),
        (b"[a-z]", b"abc", [Some(1), Some(1), Some(1), Some(1)]),
        (b"*.", b"a.b.c", [Some(2), Some(4), None, None]),
        (b"b*", b"abc", [None, None, Some(2), Some(2)]),
        (b"*", b"", [Some(0), Some(0), Some(0), Some(0)]),
    ] {
        let pattern = pattern(rt.alloc(), row)?;
        let found = [
            pattern.shortest_prefix(text),
            pattern.longest_prefix(text),
            pattern.shortest_suffix(text),
            pattern.longest_suffix(text),
        ];
        assert_eq!(rt; found, want, "{row:?} {text:?}");
    }
    Ok(())
}

fn doubt(alloc: Global, row: &[u8]) -> Result<Option<usize>, PatternFault> {
    match pattern(alloc, row) {
        Ok(_) => Ok(None),
        Err(PatternFault::Doubtful(at)) => Ok(Some(at)),
        Err(PatternFault::Memory) => Err(PatternFault::Memory),
    }
}

#[test]
fn backslashes_of_values_are_doubtful(rt: HostRuntime) -> Result<(), Fail> {
    for (row, want) in [
        (b"a*".as_slice(), None),
        (b"{\\}a", Some(0)),
        (b"a{\\}b", Some(1)),
        (b"'\\'", None),
    ] {
        assert_eq!(rt; doubt(rt.alloc(), row)?, want, "{row:?}");
    }
    Ok(())
}

#[test]
fn classes_are_doubtful_by_their_names(rt: HostRuntime) -> Result<(), Fail> {
    for (row, want) in [
        (b"[[.a.]]".as_slice(), Some(1)),
        (b"[[=a=]]", Some(1)),
        (b"[[:foo:]]", Some(1)),
        (b"[[:foo_bar:]]", Some(1)),
        (b"[[:Alpha:]]", Some(1)),
        (b"[[:alpha1:]]", Some(1)),
        (b"[![:{\\}:]]", Some(2)),
        (b"[[:'alpha':]]", None),
        (b"[[::]]", None),
        (b"[[:a]b:]", None),
        (b"[a:]", None),
    ] {
        assert_eq!(rt; doubt(rt.alloc(), row)?, want, "{row:?}");
    }
    Ok(())
}

#[test]
fn ranges_are_doubtful_by_their_ends(rt: HostRuntime) -> Result<(), Fail> {
    for (row, want) in [
        (b"[[:alpha:]-z]".as_slice(), Some(1)),
        (b"[a-[:alpha:]]", Some(1)),
        (b"[z-a]", Some(1)),
        (b"x[b-c][z-a]", Some(7)),
        (b"[a{\\}b]", Some(2)),
        (b"[A-{\\}]", Some(3)),
        (b"[z-{\\}]", Some(1)),
    ] {
        assert_eq!(rt; doubt(rt.alloc(), row)?, want, "{row:?}");
    }
    Ok(())
}

#[test]
fn doubtful_places_stand_in_closed_brackets(rt: HostRuntime) -> Result<(), Fail> {
    for (row, want) in [
        (b"[[.a".as_slice(), None),
        (b"[[:]", None),
        (b"[[:alpha]", None),
        (b"[z-a", None),
        (b"[[:foo:]-{\\}]", Some(1)),
        (b"''[z-a]", Some(2)),
    ] {
        assert_eq!(rt; doubt(rt.alloc(), row)?, want, "{row:?}");
    }
    Ok(())
}

#[test]
fn brackets_that_resemble_doubtful_ones(rt: HostRuntime) -> Result<(), Fail> {
    for (row, want) in [
        (b"[a-a]".as_slice(), None),
        (b"[/]", None),
        (b"[a'[.'b]", None),
        (b"[.a.]", None),
        (b"[]-a]", None),
        (b"[]-A]", Some(1)),
    ] {
        assert_eq!(rt; doubt(rt.alloc(), row)?, want, "{row:?}");
    }
    Ok(())
}

/// The steps are at most the product of the lengths: these would be past counting for one that tries each cut.
#[test]
fn many_runs_end_at_once(rt: HostRuntime) -> Result<(), Fail> {
    let text = [b'a'; 10_000];
    assert!(rt; !matches(rt.alloc(), b"*a*a*a*a*a*a*a*a*b", text.as_slice())?);
    assert!(rt; matches(rt.alloc(), b"*a*a*a*a*a*a*a*a*a", text.as_slice())?);
    Ok(())
}
