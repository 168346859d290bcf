//! Tables of what passes through descriptors and descriptions: steps, and what they show with the file `a` at the end.

use crate::steps::{Step, shown_of};
use crate::{Bounds, Meter};
use std::test::Fail;

#[test]
fn duplicates_share_an_offset(rt: HostRuntime) -> Result<(), Fail> {
    let steps = [
        Step::Write(3, "a"),
        Step::Duplicate(4, 3),
        Step::Put(3, "ab"),
        Step::Put(4, "cd"),
        Step::Close(3),
        Step::Put(3, "x"),
        Step::Put(4, "e"),
    ];
    let shown = shown_of(rt.alloc(), "old", "", &steps)?;
    assert_eq!(rt; shown.bytes(), b"closed (abcde)".as_slice());
    Ok(())
}

#[test]
fn two_descriptions_have_two_offsets(rt: HostRuntime) -> Result<(), Fail> {
    let steps = [
        Step::Write(3, "a"),
        Step::Write(4, "./a"),
        Step::Put(3, "abcd"),
        Step::Put(4, "X"),
        Step::Put(3, "e"),
    ];
    let shown = shown_of(rt.alloc(), "old", "", &steps)?;
    assert_eq!(rt; shown.bytes(), b"(Xbcde)".as_slice());
    Ok(())
}

#[test]
fn a_gap_holds_nul_bytes(rt: HostRuntime) -> Result<(), Fail> {
    let steps = [
        Step::Write(3, "a"),
        Step::Put(3, "abc"),
        Step::Write(4, "a"),
        Step::Put(3, "d"),
    ];
    let shown = shown_of(rt.alloc(), "", "", &steps)?;
    assert_eq!(rt; shown.bytes(), b"(\0\0\0d)".as_slice());
    Ok(())
}

#[test]
fn appending_is_at_the_end_as_it_is_now(rt: HostRuntime) -> Result<(), Fail> {
    let steps = [
        Step::Append(3, "a"),
        Step::Append(4, "a"),
        Step::Put(3, "1"),
        Step::Put(4, "22"),
        Step::Put(3, "3"),
    ];
    let shown = shown_of(rt.alloc(), "0", "", &steps)?;
    assert_eq!(rt; shown.bytes(), b"(01223)".as_slice());
    Ok(())
}

#[test]
fn a_reader_sees_what_is_written_later(rt: HostRuntime) -> Result<(), Fail> {
    let steps = [
        Step::Read(3, "a"),
        Step::Append(4, "a"),
        Step::Line(3),
        Step::Line(3),
        Step::Put(4, "two\nthree"),
        Step::Line(3),
        Step::Line(3),
        Step::Write(5, "a"),
        Step::Put(4, "x\n"),
        Step::Line(3),
    ];
    let shown = shown_of(rt.alloc(), "one\n", "", &steps)?;
    assert_eq!(rt; shown.bytes(), b"one+ - two+ three- - (x\n)".as_slice());
    Ok(())
}

#[test]
fn lines_are_taken_one_by_one(rt: HostRuntime) -> Result<(), Fail> {
    for (bytes, want) in [
        ("", "- - ()"),
        ("ab", "ab- - ()"),
        ("ab\n", "ab+ - ()"),
        ("ab\ncd", "ab+ cd- ()"),
        ("\n\n", "+ + ()"),
        ("a\0b\n\0\nc", "ab+ + ()"),
        ("\0", "- - ()"),
        (" a \\\nb\n", " a \\+ b+ ()"),
    ] {
        let steps = [Step::Given(3, bytes), Step::Line(3), Step::Line(3)];
        let shown = shown_of(rt.alloc(), "", "", &steps)?;
        assert_eq!(rt; shown.bytes(), want.as_bytes());
    }
    Ok(())
}

#[test]
fn nothing_is_read_where_nothing_is_open_for_reading(rt: HostRuntime) -> Result<(), Fail> {
    let steps = [
        Step::Line(1),
        Step::Line(2),
        Step::Append(3, "a"),
        Step::Line(3),
        Step::Buffer(4),
        Step::Put(4, "y\n"),
        Step::Line(4),
        Step::Line(5),
        Step::Line(0),
    ];
    let shown = shown_of(rt.alloc(), "x\n", "in\n", &steps)?;
    assert_eq!(rt; shown.bytes(), b"- - - - - in+ (x\n)".as_slice());
    Ok(())
}

#[test]
fn nothing_is_written_where_nothing_is_open_for_writing(rt: HostRuntime) -> Result<(), Fail> {
    let steps = [
        Step::Put(0, "x"),
        Step::Read(3, "a"),
        Step::Put(3, "x"),
        Step::Put(3, ""),
        Step::Put(5, ""),
        Step::Given(4, "y"),
        Step::Put(4, "x"),
    ];
    let shown = shown_of(rt.alloc(), "old", "in", &steps)?;
    assert_eq!(rt; shown.bytes(), b"closed closed closed (old)".as_slice());
    Ok(())
}

#[test]
fn a_buffer_is_taken_once(rt: HostRuntime) -> Result<(), Fail> {
    let steps = [
        Step::Buffer(3),
        Step::Put(3, "ab"),
        Step::Put(3, "c"),
        Step::Take(3),
        Step::Take(3),
        Step::Put(3, "d"),
        Step::Take(3),
        Step::Take(0),
    ];
    let shown = shown_of(rt.alloc(), "", "in", &steps)?;
    assert_eq!(rt; shown.bytes(), b"abc= = d= = ()".as_slice());
    Ok(())
}

#[test]
fn a_call_takes_what_is_left(rt: HostRuntime) -> Result<(), Fail> {
    let steps = [
        Step::Line(0),
        Step::Call("cat"),
        Step::Call("cat"),
        Step::Read(0, "a"),
        Step::Line(0),
        Step::Call("cat"),
        Step::Close(0),
        Step::Call("cat"),
        Step::Duplicate(0, 1),
        Step::Call("cat"),
    ];
    let shown = shown_of(rt.alloc(), "one\ntwo\n", "first\nsecond", &steps)?;
    assert_eq!(rt;
        shown.bytes(),
        b"first+ 0 3 one+ 3 3 3 (second)()(two\n)()()(one\ntwo\n)".as_slice()
    );
    Ok(())
}

#[test]
fn an_exact_row_fits_the_rest(rt: HostRuntime) -> Result<(), Fail> {
    let steps = [
        Step::Call("sum"),
        Step::Line(0),
        Step::Call("sum"),
        Step::Call("sum"),
        Step::Given(0, "in"),
        Step::Call("sum"),
    ];
    let shown = shown_of(rt.alloc(), "", "x\nin", &steps)?;
    assert_eq!(rt;
        shown.bytes(),
        b"7 x+ 0 7 0 (none)(in)(none)(in)()".as_slice()
    );
    Ok(())
}

#[test]
fn what_a_call_writes_goes_where_its_descriptors_lead(rt: HostRuntime) -> Result<(), Fail> {
    let steps = [
        Step::Append(1, "a"),
        Step::Duplicate(2, 1),
        Step::Call("cat"),
        Step::Call("cat"),
        Step::Close(1),
        Step::Call("cat"),
    ];
    let shown = shown_of(rt.alloc(), "", "", &steps)?;
    assert_eq!(rt; shown.bytes(), b"0 3 3 ()()()(ABee)".as_slice());
    Ok(())
}

#[test]
fn turns_and_levels_are_counted(rt: HostRuntime) -> Result<(), Fail> {
    let mut meter = Meter::new(Bounds { turns: 2, depth: 1 });
    assert_eq!(rt; meter.take_turn(), true);
    assert_eq!(rt; meter.enter(), true);
    assert_eq!(rt; meter.enter(), false);
    assert_eq!(rt; meter.used(), 1);
    meter.leave();
    assert_eq!(rt; meter.enter(), true);
    assert_eq!(rt; meter.take_turn(), true);
    assert_eq!(rt; meter.take_turn(), false);
    assert_eq!(rt; meter.used(), 2);
    Ok(())
}
