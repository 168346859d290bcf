//! The pieces, at both sides of their borders.

use sh_expansion::{
    Expanded, Listing, Mode, Purpose, arguments, can_trim, field_texts, has_length, home, ifs,
    is_lacking, length, parameter, parameter_text, pattern_of, texts_among, trimmed,
};
use sh_meaning::Variable;
use sh_syntax::{Name, Param};
use shell_world::TextMap;
use span_text::{Flagged, Item, List, Mark, Memory, Span, Text};
use std::alloc::Global;
use std::test::Fail;

/// A part of a word.
#[derive(Clone, Copy)]
enum Put<'t> {
    /// `ab`
    Plain(&'t [u8]),
    /// `'ab'`
    Exact(&'t [u8]),
    /// `$a`
    Value(&'t [u8]),
    /// `$a` between double quotes.
    Quoted(&'t [u8]),
    /// The closing quote of `".."`.
    Quote,
    /// `~`
    Home(&'t [u8]),
    /// `$@` where the parameters are these bytes, one each.
    List(&'t [u8]),
    /// `$@` between double quotes.
    QuotedList(&'t [u8]),
}

fn members(alloc: Global, bytes: &[u8]) -> Result<List<Text>, Memory> {
    let mut texts = List::new(alloc);
    for b in bytes {
        if *b == b'-' {
            texts.push(Text::new(alloc))?;
        } else {
            texts.push(Text::copy(alloc, &[*b])?)?;
        }
    }
    Ok(texts)
}

fn put_behind(alloc: Global, word: &mut Expanded, part: Put<'_>) -> Result<(), Memory> {
    let bare = Mode::fields();
    match part {
        Put::Plain(text) => word.with_plain(bare, text),
        Put::Exact(text) => word.with_exact(text),
        Put::Value(text) => word.with_value(bare, text),
        Put::Quoted(text) => word.with_value(bare.in_quotes(), text),
        Put::Quote => word.with_quote(),
        Put::Home(text) => word.with_home(text),
        Put::List(bytes) => {
            let texts = members(alloc, bytes)?;
            word.with_members(alloc, bare, texts.as_slice())
        }
        Put::QuotedList(bytes) => {
            let texts = members(alloc, bytes)?;
            word.with_members(alloc, bare.in_quotes(), texts.as_slice())
        }
    }
}

fn built(alloc: Global, parts: &[Put<'_>]) -> Result<Expanded, Memory> {
    let mut word = Expanded::new(alloc, false);
    for part in parts {
        put_behind(alloc, &mut word, *part)?;
    }
    Ok(word)
}

/// The fields of a word, each with a `|` behind it, where `'` stands for what keeps an empty field.
fn bars(alloc: Global, fields: &List<Flagged>) -> Result<Text, Memory> {
    let mut out = Text::new(alloc);
    for field in fields.as_slice() {
        for item in field.items() {
            match *item {
                Item::Byte(b, _) => out.append(&[b])?,
                Item::Quote => out.append(b"'")?,
            }
        }
        out.append(b"|")?;
    }
    Ok(out)
}

fn splits_to(
    alloc: Global,
    parts: &[Put<'_>],
    ifs: Option<&[u8]>,
    want: &[u8],
) -> Result<bool, Memory> {
    let word = built(alloc, parts)?;
    let fields = word.fields_of(alloc, ifs)?;
    Ok(bars(alloc, &fields)?.bytes() == want)
}

#[test]
fn words_split(rt: HostRuntime) -> Result<(), Fail> {
    let alloc = rt.alloc();
    assert!(rt; splits_to(alloc, &[], None, b"")?);
    assert!(rt; splits_to(alloc, &[Put::Plain(b"a b")], None, b"a b|")?);
    assert!(rt; splits_to(alloc, &[Put::Value(b"a b")], None, b"a|b|")?);
    assert!(rt; splits_to(alloc, &[Put::Value(b"")], None, b"")?);
    assert!(rt; splits_to(alloc, &[Put::Value(b" ")], None, b"")?);
    assert!(rt; splits_to(alloc, &[Put::Exact(b"")], None, b"'|")?);
    assert!(rt; splits_to(alloc, &[Put::Exact(b"a b")], None, b"a b|")?);
    assert!(rt; splits_to(alloc, &[Put::Quoted(b"a b"), Put::Quote], None, b"a b'|")?);
    assert!(rt; splits_to(alloc, &[Put::Quoted(b""), Put::Quote], None, b"'|")?);
    assert!(rt; splits_to(alloc, &[Put::Value(b""), Put::Exact(b"")], None, b"'|")?);
    assert!(rt; splits_to(alloc, &[Put::Plain(b"x"), Put::Value(b" a")], None, b"x|a|")?);
    assert!(rt; splits_to(alloc, &[Put::Value(b"a "), Put::Plain(b"x")], None, b"a|x|")?);
    assert!(rt; splits_to(alloc, &[Put::Value(b"a:b")], Some(b":"), b"a|b|")?);
    assert!(rt; splits_to(alloc, &[Put::Value(b"a b")], Some(b":"), b"a b|")?);
    assert!(rt; splits_to(alloc, &[Put::Value(b"a b")], Some(b""), b"a b|")?);
    assert!(rt; splits_to(alloc, &[Put::Home(b"/a b")], None, b"/a b|")?);
    assert!(rt; splits_to(alloc, &[Put::Home(b"")], None, b"")?);
    Ok(())
}

#[test]
fn lists_split(rt: HostRuntime) -> Result<(), Fail> {
    let alloc = rt.alloc();
    assert!(rt; splits_to(alloc, &[Put::List(b"ab")], None, b"a|b|")?);
    assert!(rt; splits_to(alloc, &[Put::List(b"a-b")], None, b"a|b|")?);
    assert!(rt; splits_to(alloc, &[Put::List(b"a b")], None, b"a|b|")?);
    assert!(rt; splits_to(alloc, &[Put::List(b"")], None, b"")?);
    assert!(rt; splits_to(alloc, &[Put::QuotedList(b"ab"), Put::Quote], None, b"a|b'|")?);
    assert!(rt;
        splits_to(
            alloc,
            &[Put::QuotedList(b"a-b"), Put::Quote],
            None,
            b"a|'|b'|"
        )?
    );
    assert!(rt;
        splits_to(
            alloc,
            &[Put::QuotedList(b"a b"), Put::Quote],
            None,
            b"a| |b'|"
        )?
    );
    assert!(rt; splits_to(alloc, &[Put::QuotedList(b""), Put::Quote], None, b"")?);
    assert!(rt;
        splits_to(
            alloc,
            &[Put::Plain(b"x"), Put::QuotedList(b""), Put::Quote],
            None,
            b"x|"
        )?
    );
    assert!(rt;
        splits_to(
            alloc,
            &[
                Put::Plain(b"x"),
                Put::QuotedList(b"ab"),
                Put::Quote,
                Put::Plain(b"y"),
            ],
            None,
            b"xa|b'y|",
        )?
    );
    assert!(rt;
        splits_to(
            alloc,
            &[Put::Plain(b"x"), Put::List(b"ab"), Put::Plain(b"y")],
            None,
            b"xa|by|",
        )?
    );
    Ok(())
}

#[test]
fn unclear_words_are_told(rt: HostRuntime) -> Result<(), Fail> {
    let alloc = rt.alloc();
    assert!(rt; !built(alloc, &[Put::QuotedList(b"")])?.is_unclear());
    assert!(rt; built(alloc, &[Put::QuotedList(b""), Put::Value(b"")])?.is_unclear());
    assert!(rt; built(alloc, &[Put::Exact(b""), Put::QuotedList(b"")])?.is_unclear());
    assert!(rt; !built(alloc, &[Put::QuotedList(b""), Put::Value(b"a")])?.is_unclear());
    assert!(rt; !built(alloc, &[Put::QuotedList(b"-"), Put::Value(b"")])?.is_unclear());
    assert!(rt; !built(alloc, &[Put::List(b""), Put::Value(b"")])?.is_unclear());
    Ok(())
}

#[test]
fn texts_are_joined(rt: HostRuntime) -> Result<(), Fail> {
    let alloc = rt.alloc();
    let word = built(
        alloc,
        &[
            Put::Plain(b"a "),
            Put::Exact(b""),
            Put::Value(b" b"),
            Put::Quote,
        ],
    )?;
    assert!(rt; word.text_of(alloc)?.bytes() == b"a  b".as_slice());
    assert!(rt; built(alloc, &[])?.text_of(alloc)?.bytes() == b"".as_slice());
    Ok(())
}

#[test]
fn modes_are_nested(rt: HostRuntime) -> Result<(), Fail> {
    let _ = rt.alloc();
    let fields = Mode::fields();
    assert!(rt; fields.listing_at() == Listing::Members);
    assert!(rt; fields.in_quotes().listing_at() == Listing::Members);
    assert!(rt; fields.listing_star() == Listing::Members);
    assert!(rt; fields.in_quotes().listing_star() == Listing::Joined);
    assert!(rt; Mode::value().listing_at() == Listing::Nowhere);
    assert!(rt; Mode::value().listing_star() == Listing::Nowhere);
    assert!(rt; Mode::value().in_quotes().listing_star() == Listing::Joined);
    assert!(rt; Mode::Double(Purpose::Body).listing_star() == Listing::Nowhere);
    assert!(rt; Mode::operand().in_quotes() == Mode::Double(Purpose::Single));
    assert!(rt; fields.in_fill() == Mode::Bare(Purpose::Fields, Mark::Value));
    assert!(rt; fields.in_assigning() == Mode::Bare(Purpose::Single, Mark::Value));
    assert!(rt; fields.plain_mark() == Mark::Written);
    assert!(rt; fields.in_fill().plain_mark() == Mark::Value);
    assert!(rt; fields.in_quotes().value_mark() == Mark::Quoted);
    Ok(())
}

fn variables(alloc: Global) -> Result<TextMap<Variable>, Memory> {
    let mut vars = TextMap::new(alloc);
    for (name, value) in [
        (b"a".as_slice(), b"xy".as_slice()),
        (b"e", b""),
        (b"HOME", b"/h"),
    ] {
        let variable = Variable {
            value: Some(Text::copy(alloc, value)?),
            exported: false,
        };
        vars.insert(Text::copy(alloc, name)?, variable)?;
    }
    vars.insert(
        Text::copy(alloc, b"IFS")?,
        Variable {
            value: None,
            exported: true,
        },
    )?;
    Ok(vars)
}

fn named(alloc: Global, name: &[u8]) -> Result<Param, Memory> {
    Ok(Param::Name(Name {
        text: Text::copy(alloc, name)?,
        span: Span { from: 0, to: 0 },
    }))
}

/// The text of a parameter, `?` where it is unset; there are two positional parameters, `b` and nothing.
fn shown(alloc: Global, param: &Param) -> Result<Text, Memory> {
    let vars = variables(alloc)?;
    let params = members(alloc, b"sb-")?;
    match parameter(alloc, param, &vars, params.as_slice(), 42)? {
        None => Text::copy(alloc, b"?"),
        Some(text) => Ok(text),
    }
}

#[test]
fn parameters_have_texts(rt: HostRuntime) -> Result<(), Fail> {
    let alloc = rt.alloc();
    for (name, want) in [
        (b"a".as_slice(), b"xy".as_slice()),
        (b"e", b""),
        (b"IFS", b"?"),
        (b"unset", b"?"),
    ] {
        assert!(rt;
            shown(alloc, &named(alloc, name)?)?.bytes() == want,
            "{name:?}"
        );
    }
    for (digits, want) in [
        (b"0".as_slice(), b"s".as_slice()),
        (b"1", b"b"),
        (b"01", b"b"),
        (b"2", b""),
        (b"3", b"?"),
        (b"10", b"?"),
        (b"99999999999999999999999999999999999999999999", b"?"),
    ] {
        let param = Param::Digits(Text::copy(alloc, digits)?);
        assert!(rt; shown(alloc, &param)?.bytes() == want, "{digits:?}");
    }
    assert!(rt; shown(alloc, &Param::Count)?.bytes() == b"2".as_slice());
    assert!(rt; shown(alloc, &Param::Status)?.bytes() == b"42".as_slice());
    assert!(rt; shown(alloc, &Param::At)?.bytes() == b"?".as_slice());
    assert!(rt; shown(alloc, &Param::Star)?.bytes() == b"?".as_slice());
    Ok(())
}

#[test]
fn parameters_are_tested(rt: HostRuntime) -> Result<(), Fail> {
    let alloc = rt.alloc();
    let vars = variables(alloc)?;
    assert!(rt; home(&vars) == Some(b"/h"));
    assert!(rt; ifs(&vars).is_none());
    assert!(rt; arguments(&[]).is_empty());
    assert!(rt;
        parameter_text(alloc, &named(alloc, b"unset")?, &vars, &[], 0)?.bytes() == b"".as_slice()
    );
    assert!(rt; is_lacking(false, None));
    assert!(rt; is_lacking(true, None));
    assert!(rt; !is_lacking(false, Some(b"")));
    assert!(rt; is_lacking(true, Some(b"")));
    assert!(rt; !is_lacking(true, Some(b"a")));
    assert!(rt; has_length(&Param::Count));
    assert!(rt; !has_length(&Param::At));
    assert!(rt; can_trim(&Param::Status));
    assert!(rt; !can_trim(&Param::Count));
    assert!(rt; length(alloc, b"")?.bytes() == b"0".as_slice());
    assert!(rt; length(alloc, b"0123456789")?.bytes() == b"10".as_slice());
    Ok(())
}

fn pattern_text(alloc: Global, text: &[u8], mark: Mark) -> Result<Flagged, Memory> {
    let mut items = Flagged::new(alloc);
    for b in text {
        items.push(Item::Byte(*b, mark))?;
    }
    Ok(items)
}

#[test]
fn texts_are_trimmed(rt: HostRuntime) -> Result<(), Fail> {
    let alloc = rt.alloc();
    for (suffix, longest, pattern, want) in [
        (false, false, b"*.".as_slice(), b"b.c".as_slice()),
        (false, true, b"*.", b"c"),
        (true, false, b".*", b"a.b"),
        (true, true, b".*", b"a"),
        (false, true, b"x", b"a.b.c"),
        (true, true, b"*", b""),
        (true, false, b"*", b"a.b.c"),
        (false, false, b"a.b.c", b""),
    ] {
        let items = pattern_text(alloc, pattern, Mark::Written)?;
        let got = match pattern_of(alloc, &items)? {
            None => Text::copy(alloc, b"doubtful")?,
            Some(pattern) => trimmed(alloc, suffix, longest, &pattern, b"a.b.c")?,
        };
        assert!(rt; got.bytes() == want, "{pattern:?}");
    }
    let quoted = pattern_text(alloc, b"*.", Mark::Quoted)?;
    assert!(rt; pattern_of(alloc, &quoted)?.is_some_and(|pattern| !pattern.matches(b"a.")));
    let doubtful = pattern_text(alloc, b"a\\b", Mark::Value)?;
    assert!(rt; pattern_of(alloc, &doubtful)?.is_none());
    Ok(())
}

/// What a field becomes among three files, each text with a `|` behind it; `?` where its pattern is doubtful.
fn found(alloc: Global, field: &[u8], mark: Mark) -> Result<Text, Memory> {
    let names = members(alloc, b"bac")?;
    let mut out = Text::new(alloc);
    match field_texts(alloc, &names, &pattern_text(alloc, field, mark)?)? {
        None => out.append(b"?")?,
        Some(texts) => {
            for text in texts.as_slice() {
                out.append(text.bytes())?;
                out.append(b"|")?;
            }
        }
    }
    Ok(out)
}

#[test]
fn fields_become_names(rt: HostRuntime) -> Result<(), Fail> {
    let alloc = rt.alloc();
    for (field, mark, want) in [
        (b"*".as_slice(), Mark::Written, b"a|b|c|".as_slice()),
        (b"[bc]", Mark::Value, b"b|c|"),
        (b"*", Mark::Quoted, b"*|"),
        (b"x*", Mark::Written, b"x*|"),
        (b"d", Mark::Written, b"d|"),
        (b"", Mark::Written, b"|"),
        (b"*\\", Mark::Value, b"?"),
        (b"a\\", Mark::Value, b"a\\|"),
    ] {
        assert!(rt; found(alloc, field, mark)?.bytes() == want, "{field:?}");
    }
    let fields = [
        pattern_text(alloc, b"?", Mark::Written)?,
        pattern_text(alloc, b"x", Mark::Written)?,
    ];
    let names = members(alloc, b"ab")?;
    assert!(rt; texts_among(alloc, &names, &fields)?.is_some_and(|texts| texts.len() == 3));
    let fields = [
        pattern_text(alloc, b"?", Mark::Written)?,
        pattern_text(alloc, b"[[.a.]]", Mark::Written)?,
    ];
    assert!(rt; texts_among(alloc, &names, &fields)?.is_none());
    Ok(())
}
