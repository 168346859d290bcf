//! Rows of a format, arguments (each behind a comma), and the place or the index of what is refused.

use super::*;
use crate::tests::{is_format, list_of};
use span_text::Memory;
use std::process::Abort;
use std::test::Fail;

fn refuses(
    rt: &(impl Abort + AllocGlobal),
    fmt: &[u8],
    arguments: &[u8],
    fault: FmtFault,
) -> Result<(), Memory> {
    let list = list_of(rt.alloc(), arguments)?;
    assert_eq!(rt; format(rt.alloc(), fmt, &list), Err(fault));
    Ok(())
}

#[test]
fn options_and_unfinished_conversions_are_refused(rt: HostRuntime) -> Result<(), Fail> {
    let table: [(&[u8], usize); 9] = [
        (b"-x", 0),
        (b"-", 0),
        (b"--", 0),
        (b"-%d", 0),
        (b"%", 0),
        (b"a%", 1),
        (b"%5", 0),
        (b"%.", 0),
        (b"ab%q", 2),
    ];
    for (fmt, at) in table {
        refuses(&rt, fmt, b",x,\\", FmtFault::BadFormat(at))?;
        assert!(rt; !is_format(fmt), "{fmt:?}");
    }
    Ok(())
}

#[test]
fn flags_widths_and_letters_without_meaning_are_refused(rt: HostRuntime) -> Result<(), Fail> {
    let table: [(&[u8], usize); 15] = [
        (b"%+u", 0),
        (b"%+s", 0),
        (b"% x", 0),
        (b"% o", 0),
        (b"%+X", 0),
        (b"%0s", 0),
        (b"%05s", 0),
        (b"%-0s", 0),
        (b"%5b", 0),
        (b"%-b", 0),
        (b"%.1b", 0),
        (b"%10000d", 0),
        (b"%.10000d", 0),
        (b"%99999999999999999999d", 0),
        (b"%d%z", 2),
    ];
    for (fmt, at) in table {
        refuses(&rt, fmt, b",x,\\", FmtFault::BadFormat(at))?;
        assert!(rt; !is_format(fmt), "{fmt:?}");
    }
    Ok(())
}

#[test]
fn bad_escapes_of_a_format_are_refused(rt: HostRuntime) -> Result<(), Fail> {
    let table: [(&[u8], usize); 9] = [
        (b"\\", 0),
        (b"a\\", 1),
        (b"\\q", 0),
        (b"\\c", 0),
        (b"\\e", 0),
        (b"\\x41", 0),
        (b"\\400", 0),
        (b"\\777", 0),
        (b"\\8", 0),
    ];
    for (fmt, at) in table {
        refuses(&rt, fmt, b",x,\\", FmtFault::BadFormat(at))?;
        assert!(rt; !is_format(fmt), "{fmt:?}");
    }
    Ok(())
}

#[test]
fn other_conversions_are_refused(rt: HostRuntime) -> Result<(), Fail> {
    let table: [(&[u8], usize); 10] = [
        (b"%5%", 0),
        (b"%ld", 0),
        (b"%#x", 0),
        (b"%*d", 0),
        (b"%'d", 0),
        (b"%.-3d", 0),
        (b"%5-d", 0),
        (b"%c", 0),
        (b"%f", 0),
        (b"%1$d", 0),
    ];
    for (fmt, at) in table {
        refuses(&rt, fmt, b",x,\\", FmtFault::BadFormat(at))?;
        assert!(rt; !is_format(fmt), "{fmt:?}");
    }
    Ok(())
}

#[test]
fn bad_formats_are_refused_at_their_place(rt: HostRuntime) -> Result<(), Fail> {
    let table: [(&[u8], usize); 4] = [
        (b"%%%", 2),
        (b"a\\nb%", 4),
        (b"%d\\12\\q", 5),
        (b"\\1234\\400", 5),
    ];
    for (fmt, at) in table {
        refuses(&rt, fmt, b",x,\\", FmtFault::BadFormat(at))?;
        assert!(rt; !is_format(fmt), "{fmt:?}");
    }
    Ok(())
}

#[test]
fn what_is_no_number_is_refused(rt: HostRuntime) -> Result<(), Fail> {
    let table: [(&[u8], &[u8], usize); 25] = [
        (b"%d", b",", 0),
        (b"%d", b",a", 0),
        (b"%i", b",1x", 0),
        (b"%u", b",0x", 0),
        (b"%o", b",08", 0),
        (b"%x", b",0b1", 0),
        (b"%d", b",1 ", 0),
        (b"%d", b", 1", 0),
        (b"%d", b",'a", 0),
        (b"%d", b",9223372036854775808", 0),
        (b"%d", b",-9223372036854775809", 0),
        (b"%u", b",0x8000000000000000", 0),
        (b"%X", b",18446744073709551616", 0),
        (b"%d", b",99999999999999999999999999", 0),
        (b"%d", b",--1", 0),
        (b"%d", b",+", 0),
        (b"%d", b",-", 0),
        (b"%d", b",+-1", 0),
        (b"%d", b",1.0", 0),
        (b"%d", b",0xg", 0),
        (b"%d", b",01777777777777777777777", 0),
        (b"%s %d", b",a,b", 1),
        (b"%d", b",1,2,x", 2),
        (b"%s%d\\n", b",1,2,3,4,5,z,7,w", 5),
        (b"%d%b", b",x,\\", 0),
    ];
    for (fmt, arguments, k) in table {
        refuses(&rt, fmt, arguments, FmtFault::BadNumber(k))?;
    }
    Ok(())
}

#[test]
fn bad_escapes_are_refused(rt: HostRuntime) -> Result<(), Fail> {
    let table: [(&[u8], &[u8], usize); 11] = [
        (b"%b", b",\\q", 0),
        (b"%b", b",\\", 0),
        (b"%b", b",a\\1", 0),
        (b"%b", b",\\0400", 0),
        (b"%b", b",\\0777", 0),
        (b"%b", b",\\e", 0),
        (b"%b", b",\\x41", 0),
        (b"%b", b",\\u0041", 0),
        (b"%s%b", b",a,\\", 1),
        (b"%b", b",a,b\\q\\c", 1),
        (b"%b%d", b",\\8,x", 0),
    ];
    for (fmt, arguments, k) in table {
        refuses(&rt, fmt, arguments, FmtFault::BadEscape(k))?;
    }
    Ok(())
}
