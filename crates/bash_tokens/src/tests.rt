//! Fronts of texts, at both sides of their borders.

use super::*;
use std::process::Abort;
use std::test::Fail;

const WORD: Op = Op::Word;

/// `;`, `&`, `|` and their kin: how many bytes stand behind the operator.
#[test]
fn control_operators_are_the_longest(rt: HostRuntime) -> Result<(), Fail> {
    let rows: [(&[u8], Control, usize); 18] = [
        (b";a", Control::Semi, 1),
        (b"; ;", Control::Semi, 2),
        (b";;a", Control::SemiSemi, 1),
        (b";\\\n;a", Control::SemiSemi, 1),
        (b";&a", Control::SemiAnd, 1),
        (b";;&a", Control::SemiSemiAnd, 1),
        (b";; &", Control::SemiSemi, 2),
        (b"&a", Control::Amp, 1),
        (b"& &", Control::Amp, 2),
        (b"&&a", Control::AndIf, 1),
        (b"&\\\n&a", Control::AndIf, 1),
        (b"|a", Control::Pipe, 1),
        (b"| &", Control::Pipe, 2),
        (b"||a", Control::OrIf, 1),
        (b"|&a", Control::PipeAnd, 1),
        (b"(a", Control::Open, 1),
        (b" \t\\\n)a", Control::Close, 1),
        (b"# a\\\n", Control::Close, 0),
    ];
    for (text, op, left) in rows.iter() {
        if *left > 0 {
            assert!(rt; is_control(*op, *text));
            assert!(rt; token(*text).1.len() == *left);
        } else {
            assert!(rt; !is_control(*op, *text));
        }
    }
    Ok(())
}

/// `<`, `>` and their kin.
#[test]
fn redirections_are_the_longest(rt: HostRuntime) -> Result<(), Fail> {
    let rows: [(&[u8], Redirection, usize); 18] = [
        (b"<a", Redirection::Less, 1),
        (b"< <", Redirection::Less, 2),
        (b"<<a", Redirection::DLess, 1),
        (b"<< <", Redirection::DLess, 2),
        (b"<<<a", Redirection::TLess, 1),
        (b"<\\\n<\\\n<a", Redirection::TLess, 1),
        (b"<<-a", Redirection::DLessDash, 1),
        (b"<&a", Redirection::LessAnd, 1),
        (b"<>a", Redirection::LessGreat, 1),
        (b">a", Redirection::Great, 1),
        (b"> >", Redirection::Great, 2),
        (b">>a", Redirection::DGreat, 1),
        (b">>>", Redirection::DGreat, 1),
        (b">&a", Redirection::GreatAnd, 1),
        (b">|a", Redirection::Clobber, 1),
        (b"&>a", Redirection::AndGreat, 1),
        (b"&> >", Redirection::AndGreat, 2),
        (b"&>>a", Redirection::AndDGreat, 1),
    ];
    for (text, op, left) in rows.iter() {
        assert!(rt; is_redirection(*op, *text));
        assert!(rt; token(*text).1.len() == *left);
    }
    Ok(())
}

/// What begins a word stays; digits and a name in braces right before `<` or `>` are descriptors.
#[test]
fn words_and_descriptors(rt: HostRuntime) -> Result<(), Fail> {
    let rows: [(&[u8], Op, usize); 17] = [
        (b"", Op::End, 0),
        (b" # a", Op::End, 0),
        (b"\na", Op::Newline, 1),
        (b"a#b", WORD, 3),
        (b"1>a", Op::Io, 2),
        (b"1\\\n>a", Op::Io, 4),
        (b"1 >a", WORD, 4),
        (b"12>a", Op::Far, 2),
        (b"1&>a", WORD, 4),
        (b"{a}>b", Op::Far, 2),
        (b"{a}b", WORD, 4),
        (b"{1}>b", WORD, 5),
        (b"<(a)", WORD, 4),
        (b">\\\n(a)", WORD, 6),
        (b"1<(a)", WORD, 5),
        (b"{", WORD, 1),
        (b"'a'", WORD, 3),
    ];
    for (text, op, left) in rows.iter() {
        assert!(rt; is_token(*op, *text));
        assert!(rt; token(*text).1.len() == *left);
    }
    Ok(())
}

/// Reserved words are whole and unquoted.
#[test]
fn reserved_words(rt: HostRuntime) -> Result<(), Fail> {
    assert!(rt; is_key(Key::Esac, b" esac)"));
    assert!(rt; is_key(Key::Esac, b"es\\\nac"));
    assert!(rt; !is_key(Key::Esac, b"esac1"));
    assert!(rt; !is_key(Key::Esac, b"'esac'"));
    assert!(rt; !is_key(Key::Esac, b"esa"));
    assert!(rt; is_key(Key::OpenCond, b"[[ a"));
    assert!(rt; is_key(Key::Bang, b"! a"));
    assert!(rt; !is_key(Key::Bang, b"!(a)"));
    assert!(rt; !simple_next(b"esac"));
    assert!(rt; simple_next(b"esac1"));
    assert!(rt; compound_next(b"select a"));
    assert!(rt; is_option(Flag::Posix, b"-p a"));
    assert!(rt; !is_option(Flag::Posix, b"-pa"));
    assert!(rt; is_unary_test(b"-z a"));
    assert!(rt; !is_unary_test(b"-q a"));
    assert!(rt; is_binary_test(b"== a"));
    assert!(rt; is_regex_test(b"=~ a"));
    assert!(rt; !is_regex_test(b"= ~"));
    Ok(())
}

/// A delimiter of a here-document, with its quotes taken away.
#[test]
fn delimiters_of_documents(rt: HostRuntime) -> Result<(), Fail> {
    let alloc = rt.alloc();
    let rows: [(&[u8], &[u8], bool, usize); 7] = [
        (b"E\nx", b"E", false, 2),
        (b"'E F'\n", b"E F", true, 1),
        (b"\"E\\\"F\"\n", b"E\"F", true, 1),
        (b"\\E\n", b"E", true, 1),
        (b"E\\\nF\n", b"EF", false, 1),
        (b"$a;", b"$a", false, 1),
        (b"E\\\n", b"E", false, 2),
    ];
    for (text, delimiter, quoted, left) in rows.iter() {
        let (found, rest) = read(&rt, delimiter_for(alloc, false, *text));
        assert!(rt; found.text.bytes() == *delimiter);
        assert!(rt; found.quoted == *quoted);
        assert!(rt; rest.len() == *left);
    }
    for text in [b"$'E'".as_slice(), b"`E`", b"$(E)", b"'E", b"\"a\nb\""] {
        assert!(rt; delimiter_for(alloc, false, text).is_err());
    }
    assert!(rt; delimiter_for(alloc, true, b"\\\tE").is_err());
    assert!(rt; delimiter_for(alloc, false, b"\\\tE").is_ok());
    Ok(())
}

/// What a call read.
fn read<T>(rt: &impl Abort, answer: Result<T, Stop>) -> T {
    answer.ok().expect(rt, "it reads")
}

/// Escapes of `$'..'`.
#[test]
fn escapes(rt: HostRuntime) -> Result<(), Fail> {
    let alloc = rt.alloc();
    let rows: [(&[u8], &[u8]); 8] = [
        (b"a'", b"a"),
        (b"\\n\\t\\e\\E'", b"\n\t\x1b\x1b"),
        (b"\\101\\?'", b"A?"),
        (b"\\1011'", b"A1"),
        (b"\\18'", b"\x018"),
        (b"\\x4ag'", b"Jg"),
        (b"\\x4A1'", b"J1"),
        (b"\\377\\''", b"\xff'"),
    ];
    for (text, wanted) in rows.iter() {
        let found = read(&rt, ansi_at(alloc, *text));
        assert!(rt; found.text.bytes() == *wanted);
        assert!(rt; found.bad.is_none());
    }
    let places: [(&[u8], usize); 4] = [
        (b"a\\0'", 3),
        (b"\\400'", 5),
        (b"\\x'", 3),
        (b"\\c\\0'", 5),
    ];
    for (text, place) in places.iter() {
        let found = read(&rt, ansi_at(alloc, *text));
        assert!(rt; found.bad == Some(*place));
    }
    assert!(rt; ansi_at(alloc, b"a\\'").is_err());
    Ok(())
}

/// Runs end behind their last byte.
#[test]
fn runs_end_before_joins(rt: HostRuntime) -> Result<(), Fail> {
    let alloc = rt.alloc();
    let (name, rest) = read(&rt, name_at(alloc, b"a\\\nb\\\n=c"));
    assert!(rt; name.bytes() == b"ab".as_slice());
    assert!(rt; rest.len() == 4);
    assert!(rt; name_at(alloc, b"1a").is_err());
    let found = read(&rt, literal_in(alloc, Context::WORD, 0, b"a$;b"));
    assert!(rt; found.text.bytes() == b"a$".as_slice());
    let keys = Context {
        spot: Spot::Keys,
        quoting: Quoting::Bare,
    };
    let found = read(&rt, literal_in(alloc, keys, 0, b"b[c]]"));
    assert!(rt; found.text.bytes() == b"b[c]".as_slice());
    assert!(rt; found.level == 0);
    let (inside, rest) = ticks_at(b"`a`b").expect(&rt, "backquotes");
    assert!(rt; inside == b"a".as_slice());
    assert!(rt; rest == b"b".as_slice());
    Ok(())
}
