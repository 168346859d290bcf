use super::read_short;
use sh_parser::ReadFault;
use span_text::Text;
use std::alloc::Global;
use std::process::Abort;
use std::test::Fail;

/// What stands around each level, and what stands inside.
type Row = (&'static [u8], &'static [u8], &'static [u8]);

/// A line that reads.
fn a_line(alloc: Global) -> Result<Text, Fail> {
    Ok(Text::copy(alloc, b":\n")?)
}

/// What stands inside, in as many levels as `levels` says.
fn nest(text: &mut Text, row: Row, levels: usize) -> Result<(), Fail> {
    let (open, inside, close) = row;
    for _ in 0..levels {
        text.append(open)?;
    }
    text.append(inside)?;
    for _ in 0..levels {
        text.append(close)?;
    }
    Ok(())
}

/// The same behind a line that reads.
fn nested(alloc: Global, row: Row, levels: usize) -> Result<Text, Fail> {
    let mut text = a_line(alloc)?;
    nest(&mut text, row, levels)?;
    Ok(text)
}

/// A number of four digits.
fn number(text: &mut Text, n: usize) -> Result<(), Fail> {
    for power in [1000, 100, 10, 1] {
        text.append(&[b'0' + (n / power % 10) as u8])?;
    }
    Ok(())
}

/// A line that reads, and here-documents whose bodies hold one another.
fn documents(alloc: Global, levels: usize) -> Result<Text, Fail> {
    let mut text = a_line(alloc)?;
    text.append(b"a <<E\n")?;
    for level in 0..levels {
        text.append(b"$(a <<E")?;
        number(&mut text, level)?;
        text.append(b"\n")?;
    }
    text.append(b"b\n")?;
    for level in 0..levels {
        text.append(b"E")?;
        number(&mut text, levels - 1 - level)?;
        text.append(b"\n)\n")?;
    }
    text.append(b"E\n")?;
    Ok(text)
}

/// Where the text isn't read.
fn refused_at(rt: &impl Abort, alloc: Global, text: &Text) -> Option<u32> {
    match read_short(rt, alloc, text.bytes()) {
        Ok(_) => None,
        Err(ReadFault::Memory) => Some(u32::MAX),
        Err(ReadFault::Unreadable(at)) => Some(at),
    }
}

#[test]
fn a_thousand_levels_are_read_and_no_more(rt: HostRuntime) -> Result<(), Fail> {
    let rows: [Row; 13] = [
        (b"{ ", b"a", b"; }"),
        (b"( ", b"a", b" )"),
        (b"if a; then ", b"b", b"; fi"),
        (b"if ", b"a", b"; then b; fi"),
        (b"while a; do ", b"b", b"; done"),
        (b"until ", b"a", b"; do b; done"),
        (b"for i in a; do ", b"b", b"; done"),
        (b"case a in b) ", b"c", b" ;; esac"),
        (b"f() { ", b"a", b"; }"),
        (b"$(", b"a", b")"),
        (b"\"$(", b"a", b")\""),
        (b"${a-", b"b", b"}"),
        (b"${a%", b"b", b"}"),
    ];
    for row in rows {
        let text = nested(rt.alloc(), row, 1000)?;
        assert_eq!(&rt; refused_at(&rt, rt.alloc(), &text), None);
        let text = nested(rt.alloc(), row, 1001)?;
        assert_eq!(&rt; refused_at(&rt, rt.alloc(), &text), Some(2));
    }
    Ok(())
}

#[test]
fn parentheses_in_sums_are_levels(rt: HostRuntime) -> Result<(), Fail> {
    for (levels, refused) in [(999, None), (1000, Some(2))] {
        let mut text = a_line(rt.alloc())?;
        text.append(b"$((")?;
        nest(&mut text, (b"(", b"1", b")"), levels)?;
        text.append(b"))")?;
        assert_eq!(&rt; refused_at(&rt, rt.alloc(), &text), refused);
    }
    Ok(())
}

#[test]
fn bodies_in_one_another_are_levels(rt: HostRuntime) -> Result<(), Fail> {
    for (levels, refused) in [(1000, None), (1001, Some(2))] {
        let text = documents(rt.alloc(), levels)?;
        assert_eq!(&rt; refused_at(&rt, rt.alloc(), &text), refused);
    }
    Ok(())
}
