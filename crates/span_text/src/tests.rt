use super::*;
use std::alloc::Global;
use std::test::Fail;

fn numbers(alloc: Global, items: &[u32]) -> Result<List<u32>, Memory> {
    let mut list = List::new(alloc);
    for n in items {
        list.push(*n)?;
    }
    Ok(list)
}

#[test]
fn texts_and_lists_keep_what_they_get(rt: HostRuntime) -> Result<(), Fail> {
    let mut text = Text::copy(rt.alloc(), b"ab")?;
    text.append(b"cd")?;
    assert_eq!(rt; text.bytes(), b"abcd".as_slice());
    let mut list = List::new(rt.alloc());
    list.push(text)?;
    assert_eq!(rt; list.len(), 1);
    assert_eq!(rt; list.at(0).bytes(), b"abcd".as_slice());
    let mut same = List::new(rt.alloc());
    same.push(Text::from_vec(b"abcd".to_vec(rt.alloc())?))?;
    assert_eq!(rt; list, same);
    same.push(Text::new(rt.alloc()))?;
    assert_ne!(rt; list, same);
    Ok(())
}

#[test]
fn lists_and_vectors_have_the_same_items(rt: HostRuntime) -> Result<(), Fail> {
    let list = List::from_vec([3, 1, 2].to_vec(rt.alloc())?);
    assert_eq!(rt; list, numbers(rt.alloc(), &[3, 1, 2])?);
    assert_eq!(rt; list.as_slice(), [3, 1, 2].as_slice());
    assert_eq!(rt; list.into_vec().as_slice(), [3, 1, 2].as_slice());
    Ok(())
}

#[test]
fn boxes_hold_their_value(rt: HostRuntime) -> Result<(), Fail> {
    let value = Boxed::new(rt.alloc(), 7)?;
    assert_eq!(rt; *value.get(), 7);
    assert_eq!(rt; value, Boxed::new(rt.alloc(), 7)?);
    assert_ne!(rt; value, Boxed::new(rt.alloc(), 8)?);
    assert_eq!(rt; value.into_inner(), 7);
    Ok(())
}

#[test]
fn places_count_lines_and_columns(rt: HostRuntime) {
    let text = b"ab\n\ncd\n".as_slice();
    for (at, line, column) in [
        (0, 1, 1),
        (2, 1, 3),
        (3, 2, 1),
        (4, 3, 1),
        (6, 3, 3),
        (7, 4, 1),
    ] {
        assert!(rt; at <= text.len());
        assert_eq!(rt; place_of(text, at), Place { line, column }, "at {at}");
    }
    assert_eq!(rt; place_of(b"", 0), Place { line: 1, column: 1 });
    assert_eq!(rt; place_of(b"abc", 3), Place { line: 1, column: 4 });
}

#[test]
fn names_have_letters_digits_and_underscores(rt: HostRuntime) {
    for name in [b"a".as_slice(), b"_", b"Z9", b"a_b", b"__bs_x"] {
        assert!(rt; is_name(name), "{name:?}");
    }
    for text in [
        b"".as_slice(),
        b"9a",
        b"a-b",
        b"a b",
        b"a.",
        b"\xc3\xa4",
        b"a\0",
    ] {
        assert!(rt; !is_name(text), "{text:?}");
    }
    for name in [b"__bs_".as_slice(), b"__bs_x"] {
        assert!(rt; is_reserved(name), "{name:?}");
    }
    for name in [
        b"".as_slice(),
        b"__bs",
        b"__b",
        b"_bs_x",
        b"x__bs_",
        b"__BS_x",
    ] {
        assert!(rt; !is_reserved(name), "{name:?}");
    }
}

#[test]
fn builtins_are_known_commands(rt: HostRuntime) {
    for name in [b":".as_slice(), b"[", b"readonly", b"echo"] {
        assert!(rt; is_builtin(name) && is_known_command(name), "{name:?}");
    }
}

#[test]
fn refused_builtins_are_known_commands(rt: HostRuntime) {
    for name in [b".".as_slice(), b"eval", b"wait"] {
        assert!(rt;
            is_refused_builtin(name) && is_known_command(name),
            "{name:?}"
        );
    }
}

#[test]
fn standard_words_are_restricted_and_known(rt: HostRuntime) {
    for name in [b"if".as_slice(), b"!", b"esac"] {
        assert!(rt;
            is_standard_word(name) && is_restricted(name) && is_known_command(name),
            "{name:?}"
        );
    }
}

#[test]
fn words_of_bash_are_restricted_and_known(rt: HostRuntime) {
    for name in [b"[[".as_slice(), b"time"] {
        assert!(rt;
            is_bash_word(name) && is_restricted(name) && is_known_command(name),
            "{name:?}"
        );
    }
}

#[test]
fn other_restricted_names_are_known(rt: HostRuntime) {
    for name in [b"print".as_slice(), b"whence"] {
        assert!(rt; is_restricted(name) && is_known_command(name), "{name:?}");
    }
}

#[test]
fn other_names_are_no_known_commands(rt: HostRuntime) {
    for name in [b"".as_slice(), b"show", b"IF", b"ech", b"echos"] {
        assert!(rt; !is_known_command(name), "{name:?}");
    }
}

#[test]
fn special_names_are_known(rt: HostRuntime) {
    for name in [
        b"_".as_slice(),
        b"IFS",
        b"PS4",
        b"BASH",
        b"BASH_ENV",
        b"BASHx",
        b"COMP_LINE",
        b"LC_",
        b"LC_ALL",
        b"HISTSIZE",
    ] {
        assert!(rt; is_special_name(name), "{name:?}");
    }
}

#[test]
fn other_names_are_not_special(rt: HostRuntime) {
    for name in [
        b"".as_slice(),
        b"__",
        b"ifs",
        b"IFSx",
        b"BAS",
        b"xBASH",
        b"COMP",
        b"LC",
        b"HOME",
        b"PATH",
    ] {
        assert!(rt; !is_special_name(name), "{name:?}");
    }
}

#[test]
fn runs_end_before_the_first_other_byte(rt: HostRuntime) {
    assert_eq!(rt;
        run(Class::Plain, b"a.b c"),
        (b"a.b".as_slice(), b" c".as_slice())
    );
    assert_eq!(rt;
        run(Class::Quoted, b"a'b\"c"),
        (b"a'b".as_slice(), b"\"c".as_slice())
    );
    assert_eq!(rt; run_len(Class::Exact, b"\"$`\\#'x"), 5);
    assert_eq!(rt; run_len(Class::Blank, b" \t\n"), 2);
    assert!(rt; all_in(Class::Comment, b"a # '\" b") && !all_in(Class::Comment, b"a\nb"));
    assert!(rt; is_started(Class::NameFirst, b"a9") && !is_started(Class::NameFirst, b"9a"));
    assert!(rt; is_in(Class::NameRest, b'9') && !is_in(Class::NameRest, b'-'));
    assert!(rt; is_word_end(b"") && is_word_end(b"\tx") && !is_word_end(b"x "));
}

#[test]
fn a_source_goes_on_after_a_failure(rt: HostRuntime) -> Result<(), Fail> {
    let bytes = Text::copy(rt.alloc(), b"abcde")?;
    let mut source = MemorySource::new(bytes, 2, numbers(rt.alloc(), &[2, 5])?);
    let mut buffer = [b'.'; 3];
    assert_eq!(rt; source.read(&mut buffer), Ok(2));
    assert_eq!(rt; buffer.as_slice(), b"ab.".as_slice());
    assert_eq!(rt; source.read(&mut buffer), Err(Failed {}));
    assert_eq!(rt; source.read(&mut buffer), Ok(2));
    assert_eq!(rt; buffer.as_slice(), b"cd.".as_slice());
    assert_eq!(rt; source.read(&mut buffer), Ok(1));
    assert_eq!(rt; buffer.as_slice(), b"ed.".as_slice());
    assert_eq!(rt; source.read(&mut buffer), Err(Failed {}));
    assert_eq!(rt; source.read(&mut buffer), Ok(0));
    Ok(())
}

#[test]
fn a_source_gives_what_the_buffer_has_room_for(rt: HostRuntime) -> Result<(), Fail> {
    let bytes = Text::copy(rt.alloc(), b"abcde")?;
    let mut source = MemorySource::new(bytes, 4, numbers(rt.alloc(), &[])?);
    let mut buffer = [b'.'; 3];
    assert_eq!(rt; source.read(&mut buffer), Ok(3));
    assert_eq!(rt; buffer.as_slice(), b"abc".as_slice());
    assert_eq!(rt; source.read(&mut []), Ok(0));
    assert_eq!(rt; source.read(&mut buffer), Ok(2));
    assert_eq!(rt; buffer.as_slice(), b"dec".as_slice());
    Ok(())
}

#[test]
fn a_sink_takes_what_it_has_room_for(rt: HostRuntime) -> Result<(), Fail> {
    let mut sink = MemorySink::new(rt.alloc(), 2, numbers(rt.alloc(), &[5])?);
    assert_eq!(rt; sink.write(b"x"), Err(Failed {}));
    assert_eq!(rt; sink.write(b""), Ok(0));
    sink.reserve(4)?;
    assert_eq!(rt; sink.write(b"abc"), Ok(2));
    assert_eq!(rt; sink.write(b"c"), Ok(1));
    assert_eq!(rt; sink.write(b"d"), Err(Failed {}));
    assert_eq!(rt; sink.held(), b"abc".as_slice());
    assert_eq!(rt; sink.write(b"de"), Ok(1));
    assert_eq!(rt; sink.write(b"e"), Err(Failed {}));
    sink.reserve(1)?;
    assert_eq!(rt; sink.write(b"e"), Ok(1));
    assert_eq!(rt; sink.held(), b"abcde".as_slice());
    Ok(())
}

#[test]
fn all_is_written_byte_by_byte(rt: HostRuntime) -> Result<(), Fail> {
    let mut sink = MemorySink::new(rt.alloc(), 1, numbers(rt.alloc(), &[])?);
    sink.reserve(7)?;
    assert_eq!(rt; write_all(&mut sink, b"ab\0\nc"), Ok(()));
    assert_eq!(rt; write_all(&mut sink, b""), Ok(()));
    assert_eq!(rt; write_all(&mut sink, b"def"), Err(Failed {}));
    assert_eq!(rt; sink.held(), b"ab\0\ncde".as_slice());
    Ok(())
}

#[test]
fn a_failed_write_leaves_a_front(rt: HostRuntime) -> Result<(), Fail> {
    let mut sink = MemorySink::new(rt.alloc(), 2, numbers(rt.alloc(), &[3])?);
    sink.reserve(9)?;
    assert_eq!(rt; write_all(&mut sink, b"abcdef"), Err(Failed {}));
    assert_eq!(rt; sink.held(), b"abcd".as_slice());
    assert_eq!(rt; write_all(&mut sink, b"ef"), Ok(()));
    assert_eq!(rt; sink.held(), b"abcdef".as_slice());
    Ok(())
}

#[test]
fn sure_sources_and_sinks_never_fail(rt: HostRuntime) -> Result<(), Fail> {
    let mut source = SureSource::new(Text::copy(rt.alloc(), b"abcde")?);
    let mut buffer = [b'.'; 3];
    assert_eq!(rt; source.read(&mut buffer), Ok(3));
    assert_eq!(rt; buffer.as_slice(), b"abc".as_slice());
    assert_eq!(rt; source.read(&mut buffer), Ok(2));
    assert_eq!(rt; buffer.as_slice(), b"dec".as_slice());
    assert_eq!(rt; source.read(&mut buffer), Ok(0));
    let mut sink = SureSink::new();
    assert_eq!(rt; write_all(&mut sink, b"abcde"), Ok(()));
    assert_eq!(rt; write_all(&mut sink, b"fg"), Ok(()));
    assert_eq!(rt; sink.taken(), 7);
    Ok(())
}

#[test]
fn a_line_goes_to_standard_error(rt: HostRuntime) {
    let mut err = StandardError::new(rt.stderr());
    assert_eq!(rt; write_all(&mut err, b"bash2sh: test\n"), Ok(()));
}
