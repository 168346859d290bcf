//! Texts that are refused, and long ones.

use crate::read_expr;
use crate::reading_tests::reads;
use span_text::{Memory, Text};
use std::alloc::Global;
use std::test::Fail;

#[test]
fn words_are_refused(rt: HostRuntime) -> Result<(), Fail> {
    let table: [(&[u8], &[u8]); 29] = [
        (b"", b"bad 0"),
        (b" ", b"bad 1"),
        (b"1 2", b"bad 2"),
        (b"a b", b"bad 2"),
        (b"1a", b"bad 1"),
        (b"08", b"bad 1"),
        (b"009", b"bad 2"),
        (b"0x", b"bad 2"),
        (b"0xg", b"bad 2"),
        (b"0x1g", b"bad 3"),
        (b"00x1", b"bad 2"),
        (b"9223372036854775808", b"bad 18"),
        (b"0x8000000000000000", b"bad 17"),
        (b"01000000000000000000000", b"bad 22"),
        (b"10#1", b"bad 2"),
        (b"$a", b"bad 0"),
        (b"'1'", b"bad 0"),
        (b"a;", b"bad 1"),
        (b"a.b", b"bad 1"),
        (b"a [1]", b"bad 2"),
        (b"1[2]", b"bad 1"),
        (b"a[]", b"bad 2"),
        (b"a[1", b"bad 3"),
        (b"a[1)", b"bad 3"),
        (b"(1]", b"bad 2"),
        (b"(1", b"bad 2"),
        (b"1)", b"bad 1"),
        (b"()", b"bad 1"),
        (b"(a)[1]", b"bad 3"),
    ];
    for (text, tree) in table {
        reads(&rt, text, tree)?;
    }
    Ok(())
}

#[test]
fn steps_out_of_place_are_refused(rt: HostRuntime) -> Result<(), Fail> {
    let table: [(&[u8], &[u8]); 8] = [
        (b"1--2", b"bad 2"),
        (b"1++", b"bad 2"),
        (b"--1", b"bad 2"),
        (b"--a--", b"bad 4"),
        (b"a++++b", b"bad 4"),
        (b"a++b", b"bad 3"),
        (b"+++a", b"bad 2"),
        (b"++(a)", b"bad 2"),
    ];
    for (text, tree) in table {
        reads(&rt, text, tree)?;
    }
    Ok(())
}

#[test]
fn targets_of_no_variable_are_refused(rt: HostRuntime) -> Result<(), Fail> {
    let table: [(&[u8], &[u8]); 10] = [
        (b"1=2", b"bad 2"),
        (b"a+b=c", b"bad 4"),
        (b"a+b=", b"bad 4"),
        (b"1+=2", b"bad 2"),
        (b"(a)=1", b"bad 4"),
        (b"(a)++", b"bad 4"),
        (b"a?b:c=d", b"bad 6"),
        (b"-a=1", b"bad 3"),
        (b"a||b=c", b"bad 5"),
        (b"a=b+c=d", b"bad 6"),
    ];
    for (text, tree) in table {
        reads(&rt, text, tree)?;
    }
    Ok(())
}

#[test]
fn powers_and_choices_out_of_place_are_refused(rt: HostRuntime) -> Result<(), Fail> {
    let table: [(&[u8], &[u8]); 7] = [
        (b"a**b**c", b"bad 5"),
        (b"a**b**", b"bad 5"),
        (b"a?b", b"bad 3"),
        (b"a?b)", b"bad 3"),
        (b"a:b", b"bad 1"),
        (b"a?b:c:d", b"bad 5"),
        (b"(a?b):c", b"bad 4"),
    ];
    for (text, tree) in table {
        reads(&rt, text, tree)?;
    }
    Ok(())
}

#[test]
fn operators_without_operands_are_refused(rt: HostRuntime) -> Result<(), Fail> {
    let table: [(&[u8], &[u8]); 14] = [
        (b",a", b"bad 0"),
        (b"a,,b", b"bad 2"),
        (b"a,", b"bad 2"),
        (b"*a", b"bad 0"),
        (b"a*", b"bad 2"),
        (b"a<<", b"bad 3"),
        (b"a=", b"bad 2"),
        (b"a! =b", b"bad 2"),
        (b"a !", b"bad 3"),
        (b"!", b"bad 1"),
        (b"a&&&b", b"bad 3"),
        (b"a~", b"bad 1"),
        (b"a<<<b", b"bad 3"),
        (b"a= =b", b"bad 3"),
    ];
    for (text, tree) in table {
        reads(&rt, text, tree)?;
    }
    Ok(())
}

/// So many times this piece, and then this end.
fn repeated(alloc: Global, count: u32, piece: &[u8], end: &[u8]) -> Result<Text, Memory> {
    let mut text = Text::copy(alloc, b"")?;
    for _ in 0..count {
        text.append(piece)?;
    }
    text.append(end)?;
    Ok(text)
}

#[test]
fn what_stands_open_takes_no_deep_stack(rt: HostRuntime) -> Result<(), Fail> {
    let alloc = rt.alloc();
    let table: [(&[u8], &[u8]); 6] = [
        (b"- ", b"bad 20000"),
        (b"a=", b"bad 20000"),
        (b"a?", b"bad 20000"),
        (b"a[", b"bad 20000"),
        (b"(", b"bad 10000"),
        (b"a?1:", b"bad 40000"),
    ];
    for (piece, tree) in table {
        let text = repeated(alloc, 10_000, piece, b"")?;
        reads(&rt, text.bytes(), tree)?;
    }
    Ok(())
}

fn is_read(alloc: Global, text: &[u8]) -> bool {
    match read_expr(alloc, text, &[]) {
        Ok(_) => true,
        Err(_) => false,
    }
}

/// Trees that are as deep as they are long are dropped too.
#[test]
fn long_chains_of_each_kind_are_read(rt: HostRuntime) -> Result<(), Fail> {
    let alloc = rt.alloc();
    let pieces: [&[u8]; 6] = [b"1+", b"- ", b"a,", b"a=", b"a?1:", b"a||"];
    for piece in pieces {
        let text = repeated(alloc, 20_000, piece, b"1")?;
        assert!(rt; is_read(alloc, text.bytes()));
    }
    Ok(())
}

#[test]
fn a_million_operators_are_read(rt: HostRuntime) -> Result<(), Fail> {
    let alloc = rt.alloc();
    let text = repeated(alloc, 1_048_576, b"- ", b"1")?;
    assert!(rt; is_read(alloc, text.bytes()));
    Ok(())
}

/// What was read before the place is dropped too.
#[test]
fn long_chains_are_refused_at_their_ends(rt: HostRuntime) -> Result<(), Fail> {
    let alloc = rt.alloc();
    let table: [(&[u8], &[u8]); 5] = [
        (b"1+", b"bad 40000"),
        (b"- ", b"bad 40000"),
        (b"a=", b"bad 40000"),
        (b"a?1:", b"bad 80000"),
        (b"a[1]&&", b"bad 120000"),
    ];
    for (piece, tree) in table {
        let text = repeated(alloc, 20_000, piece, b")")?;
        reads(&rt, text.bytes(), tree)?;
    }
    Ok(())
}

#[test]
fn a_quarter_of_a_million_operators_are_refused_at_their_end(rt: HostRuntime) -> Result<(), Fail> {
    let alloc = rt.alloc();
    let text = repeated(alloc, 262_144, b"1+", b")")?;
    reads(&rt, text.bytes(), b"bad 524288")?;
    Ok(())
}
