use super::shows;
use crate::tests::trees::{
    calls, digits, double, exact, named, one, param, part, plain, says, two, word,
};
use sh_syntax::{FillTest, Param, ParamOp, PartKind};
use span_text::{List, Text};
use std::alloc::Global;
use std::process::Abort;
use std::test::Fail;

/// Each text as a plain word behind a command's name.
fn plain_words(rt: &impl Abort, alloc: Global, texts: &[&[u8]], wanted: bool) -> Result<(), Fail> {
    for text in texts {
        shows(rt, says(alloc, one(alloc, plain(alloc, text)?)?)?, wanted)?;
    }
    Ok(())
}

/// Each text as a command's name.
fn names(rt: &impl Abort, alloc: Global, texts: &[&[u8]], wanted: bool) -> Result<(), Fail> {
    for text in texts {
        shows(rt, calls(alloc, text)?, wanted)?;
    }
    Ok(())
}

/// Each text as quoted bytes.
fn exacts(rt: &impl Abort, alloc: Global, texts: &[&[u8]], wanted: bool) -> Result<(), Fail> {
    for text in texts {
        shows(rt, says(alloc, one(alloc, exact(alloc, text)?)?)?, wanted)?;
    }
    Ok(())
}

/// Each text as quoted bytes between double quotes.
fn escapes(rt: &impl Abort, alloc: Global, texts: &[&[u8]], wanted: bool) -> Result<(), Fail> {
    for text in texts {
        let inside = double(alloc, exact(alloc, text)?)?;
        shows(rt, says(alloc, one(alloc, inside)?)?, wanted)?;
    }
    Ok(())
}

#[test]
fn bytes_that_stand_for_themselves(rt: HostRuntime) -> Result<(), Fail> {
    let texts: [&[u8]; 12] = [
        b"b",
        b"b#",
        b"if",
        b"~b",
        b"b~",
        b"$",
        b"$%",
        b"=",
        b"x=y",
        b"{",
        b"}",
        b"\xc3\xa9",
    ];
    plain_words(&rt, rt.alloc(), &texts, true)
}

#[test]
fn bytes_that_do_not(rt: HostRuntime) -> Result<(), Fail> {
    let texts: [&[u8]; 16] = [
        b"", b"b c", b"b'", b"\"", b"#b", b"~", b"~/b", b"$b", b"$(", b"b\\", b"b\\c", b"`", b"\0",
        b"b\n", b";", b"b&",
    ];
    plain_words(&rt, rt.alloc(), &texts, false)
}

#[test]
fn names_of_commands(rt: HostRuntime) -> Result<(), Fail> {
    let texts: [&[u8]; 6] = [b"a", b"iff", b"1=b", b"=b", b"[", b"a-b=c"];
    names(&rt, rt.alloc(), &texts, true)
}

#[test]
fn words_that_name_no_command(rt: HostRuntime) -> Result<(), Fail> {
    let texts: [&[u8]; 12] = [
        b"if", b"then", b"fi", b"in", b"do", b"esac", b"{", b"}", b"!", b"a=b", b"_1=", b"#a",
    ];
    names(&rt, rt.alloc(), &texts, false)
}

#[test]
fn quoted_bytes(rt: HostRuntime) -> Result<(), Fail> {
    let texts: [&[u8]; 6] = [b"", b"'", b"b c", b"\n", b"$b\\", b"\x01\xff"];
    exacts(&rt, rt.alloc(), &texts, true)?;
    let others: [&[u8]; 4] = [b"b'", b"''", b"\0", b"b\0c"];
    exacts(&rt, rt.alloc(), &others, false)
}

#[test]
fn quoted_bytes_between_double_quotes(rt: HostRuntime) -> Result<(), Fail> {
    let texts: [&[u8]; 4] = [b"$", b"`", b"\"", b"\\"];
    escapes(&rt, rt.alloc(), &texts, true)?;
    let others: [&[u8]; 5] = [b"", b"b", b"$$", b"\n", b"'"];
    escapes(&rt, rt.alloc(), &others, false)
}

#[test]
fn parts_in_one_another(rt: HostRuntime) -> Result<(), Fail> {
    let alloc = rt.alloc();
    let quoted = double(alloc, plain(alloc, b"b c")?)?;
    shows(&rt, says(alloc, one(alloc, quoted)?)?, true)?;
    let empty = part(PartKind::Double(List::new(alloc)));
    shows(&rt, says(alloc, one(alloc, empty)?)?, true)?;
    let twice = double(alloc, double(alloc, plain(alloc, b"b")?)?)?;
    shows(&rt, says(alloc, one(alloc, twice)?)?, false)?;
    shows(&rt, says(alloc, List::new(alloc))?, false)
}

#[test]
fn parts_beside_one_another(rt: HostRuntime) -> Result<(), Fail> {
    let alloc = rt.alloc();
    let halves = two(alloc, plain(alloc, b"b")?, plain(alloc, b"c")?)?;
    shows(&rt, says(alloc, halves)?, false)?;
    let quoted = two(alloc, plain(alloc, b"b")?, exact(alloc, b"c")?)?;
    shows(&rt, says(alloc, quoted)?, true)?;
    let quotes = two(alloc, exact(alloc, b"b")?, exact(alloc, b"c")?)?;
    shows(&rt, says(alloc, quotes)?, true)?;
    let dollar = two(
        alloc,
        plain(alloc, b"b$")?,
        param(Param::Count, ParamOp::Plain),
    )?;
    shows(&rt, says(alloc, dollar)?, false)?;
    let bare = two(alloc, plain(alloc, b"b$")?, exact(alloc, b"c")?)?;
    shows(&rt, says(alloc, bare)?, true)
}

#[test]
fn tildes(rt: HostRuntime) -> Result<(), Fail> {
    let alloc = rt.alloc();
    shows(&rt, says(alloc, one(alloc, part(PartKind::Tilde))?)?, true)?;
    let path = two(alloc, part(PartKind::Tilde), plain(alloc, b"/b")?)?;
    shows(&rt, says(alloc, path)?, true)?;
    let login = two(alloc, part(PartKind::Tilde), plain(alloc, b"b")?)?;
    shows(&rt, says(alloc, login)?, false)?;
    let later = two(alloc, exact(alloc, b"b")?, part(PartKind::Tilde))?;
    shows(&rt, says(alloc, later)?, false)
}

#[test]
fn parameters(rt: HostRuntime) -> Result<(), Fail> {
    let alloc = rt.alloc();
    let a_name = param(named(alloc, b"b_1")?, ParamOp::Plain);
    shows(&rt, says(alloc, one(alloc, a_name)?)?, true)?;
    let no_name = param(named(alloc, b"1b")?, ParamOp::Plain);
    shows(&rt, says(alloc, one(alloc, no_name)?)?, false)?;
    let number = param(digits(alloc, b"10")?, ParamOp::Length);
    shows(&rt, says(alloc, one(alloc, number)?)?, true)?;
    let no_number = param(digits(alloc, b"")?, ParamOp::Plain);
    shows(&rt, says(alloc, one(alloc, no_number)?)?, false)?;
    let letters = param(digits(alloc, b"1a")?, ParamOp::Length);
    shows(&rt, says(alloc, one(alloc, letters)?)?, false)
}

/// `${p-w}` with these parts as the word.
fn filled(alloc: Global, test: FillTest, text: &[u8]) -> Result<ParamOp, Fail> {
    Ok(ParamOp::Fill {
        test,
        colon: false,
        word: word(one(alloc, plain(alloc, text)?)?),
    })
}

#[test]
fn operators_of_parameters(rt: HostRuntime) -> Result<(), Fail> {
    let alloc = rt.alloc();
    let dash = filled(alloc, FillTest::Default, b"w x")?;
    shows(
        &rt,
        says(alloc, one(alloc, param(Param::Count, dash))?)?,
        true,
    )?;
    let brace = filled(alloc, FillTest::Alternate, b"w}")?;
    shows(
        &rt,
        says(alloc, one(alloc, param(Param::Count, brace))?)?,
        false,
    )?;
    let empty = ParamOp::Fill {
        test: FillTest::Default,
        colon: false,
        word: word(List::new(alloc)),
    };
    shows(
        &rt,
        says(alloc, one(alloc, param(Param::Count, empty))?)?,
        false,
    )?;
    let colon = ParamOp::Fill {
        test: FillTest::Default,
        colon: true,
        word: word(List::new(alloc)),
    };
    shows(
        &rt,
        says(alloc, one(alloc, param(Param::Count, colon))?)?,
        true,
    )
}

/// `${p%w}` and its like.
fn trimmed(alloc: Global, suffix: bool, longest: bool, text: &[u8]) -> Result<ParamOp, Fail> {
    Ok(ParamOp::Trim {
        suffix,
        longest,
        pattern: word(one(alloc, plain(alloc, text)?)?),
    })
}

#[test]
fn patterns_that_would_change_the_mark(rt: HostRuntime) -> Result<(), Fail> {
    let alloc = rt.alloc();
    let same = trimmed(alloc, true, false, b"%b")?;
    shows(
        &rt,
        says(alloc, one(alloc, param(Param::At, same))?)?,
        false,
    )?;
    let other = trimmed(alloc, true, false, b"#b")?;
    shows(
        &rt,
        says(alloc, one(alloc, param(Param::At, other))?)?,
        true,
    )?;
    let longest = trimmed(alloc, true, true, b"%b")?;
    shows(
        &rt,
        says(alloc, one(alloc, param(Param::At, longest))?)?,
        true,
    )?;
    let length = ParamOp::Trim {
        suffix: false,
        longest: false,
        pattern: word(List::new(alloc)),
    };
    shows(
        &rt,
        says(alloc, one(alloc, param(Param::Count, length))?)?,
        false,
    )
}

#[test]
fn every_other_byte_can_be_quoted(rt: HostRuntime) -> Result<(), Fail> {
    let alloc = rt.alloc();
    for byte in 1..=255 {
        let mut text = Text::new(alloc);
        text.append(&[byte])?;
        let quoted = part(PartKind::Exact(text));
        shows(&rt, says(alloc, one(alloc, quoted)?)?, true)?;
    }
    Ok(())
}
