//! Rows of a format, the arguments (each behind a comma) and what is printed. `tests/shell_cases` at the top runs
//! the rows with output by the shells at hand.

use super::*;
use span_text::{List, Memory, Text};
use std::alloc::Global;
use std::process::Abort;
use std::test::Fail;

pub fn list_of(alloc: Global, arguments: &[u8]) -> Result<List<Text>, Memory> {
    let mut list = List::new(alloc);
    for argument in arguments.split(|byte| *byte == b',').skip(1) {
        list.push(Text::copy(alloc, argument)?)?;
    }
    Ok(list)
}

fn prints(
    rt: &(impl Abort + AllocGlobal),
    fmt: &[u8],
    arguments: &[u8],
    text: &[u8],
    cut: bool,
) -> Result<(), Memory> {
    let list = list_of(rt.alloc(), arguments)?;
    let printed = Printed {
        text: Text::copy(rt.alloc(), text)?,
        cut,
    };
    assert_eq!(rt; format(rt.alloc(), fmt, &list), Ok(printed));
    assert!(rt; is_format(fmt));
    Ok(())
}

/// Whether the bytes are a format, by one byte after another.
pub fn is_format(fmt: &[u8]) -> bool {
    let mut check = FormatCheck::new();
    for byte in fmt {
        check.step(*byte);
    }
    check.is_format()
}

#[test]
fn printf_signed_numbers_with_flags_and_widths(rt: HostRuntime) -> Result<(), Fail> {
    let table: [(&[u8], &[u8], &[u8]); 13] = [
        (b"%d", b",42", b"42"),
        (b"%i", b",42", b"42"),
        (b"%5d", b",42", b"   42"),
        (b"%-5d|", b",42", b"42   |"),
        (b"%05d", b",42", b"00042"),
        (b"%+d", b",42", b"+42"),
        (b"% d", b",42", b" 42"),
        (b"%+ d", b",42", b"+42"),
        (b"% +d", b",42", b"+42"),
        (b"%-05d|", b",42", b"42   |"),
        (b"%0-5d|", b",42", b"42   |"),
        (b"%+05d", b",42", b"+0042"),
        (b"% 05d", b",42", b" 0042"),
    ];
    for (fmt, arguments, text) in table {
        prints(&rt, fmt, arguments, text, false)?;
    }
    Ok(())
}

#[test]
fn printf_signed_numbers_with_precisions(rt: HostRuntime) -> Result<(), Fail> {
    let table: [(&[u8], &[u8], &[u8]); 14] = [
        (b"%.3d", b",42", b"042"),
        (b"%8.3d", b",42", b"     042"),
        (b"%-8.3d|", b",42", b"042     |"),
        (b"%08.3d", b",42", b"     042"),
        (b"%+.3d", b",42", b"+042"),
        (b"%+8.3d", b",42", b"    +042"),
        (b"%.0d", b",42", b"42"),
        (b"%.0d", b",0", b""),
        (b"%.d", b",42", b"42"),
        (b"%.d", b",0", b""),
        (b"%5.0d", b",42", b"   42"),
        (b"%5.0d", b",0", b"     "),
        (b"%1d", b",42", b"42"),
        (b"%00005d", b",42", b"00042"),
    ];
    for (fmt, arguments, text) in table {
        prints(&rt, fmt, arguments, text, false)?;
    }
    Ok(())
}

#[test]
fn printf_negative_numbers(rt: HostRuntime) -> Result<(), Fail> {
    let table: [(&[u8], &[u8], &[u8]); 9] = [
        (b"%d", b",-42", b"-42"),
        (b"%5d", b",-42", b"  -42"),
        (b"%05d", b",-42", b"-0042"),
        (b"%+d", b",-42", b"-42"),
        (b"% d", b",-42", b"-42"),
        (b"%.3d", b",-42", b"-042"),
        (b"%08.3d", b",-42", b"    -042"),
        (b"%-6d|", b",-42", b"-42   |"),
        (b"%i", b",-42", b"-42"),
    ];
    for (fmt, arguments, text) in table {
        prints(&rt, fmt, arguments, text, false)?;
    }
    Ok(())
}

#[test]
fn printf_signed_constants(rt: HostRuntime) -> Result<(), Fail> {
    let table: [(&[u8], &[u8], &[u8]); 14] = [
        (b"%d", b",0", b"0"),
        (b"%d", b",-0", b"0"),
        (b"%d", b",+7", b"7"),
        (b"%d", b",007", b"7"),
        (b"%d", b",-010", b"-8"),
        (b"%d", b",0x1F", b"31"),
        (b"%d", b",0Xff", b"255"),
        (b"%d", b",-0x10", b"-16"),
        (b"%d", b",+0x7fffffffffffffff", b"9223372036854775807"),
        (b"%d", b",9223372036854775807", b"9223372036854775807"),
        (b"%d", b",-9223372036854775808", b"-9223372036854775808"),
        (b"%d", b",-0x8000000000000000", b"-9223372036854775808"),
        (b"%d", b",0777777777777777777777", b"9223372036854775807"),
        (b"%d", b",00", b"0"),
    ];
    for (fmt, arguments, text) in table {
        prints(&rt, fmt, arguments, text, false)?;
    }
    Ok(())
}

#[test]
fn printf_zero_with_a_sign(rt: HostRuntime) -> Result<(), Fail> {
    let table: [(&[u8], &[u8], &[u8]); 3] = [
        (b"%+.0d", b",0", b"+"),
        (b"% .0d", b",0", b" "),
        (b"%+d", b",0", b"+0"),
    ];
    for (fmt, arguments, text) in table {
        prints(&rt, fmt, arguments, text, false)?;
    }
    Ok(())
}

#[test]
fn printf_i_is_as_d(rt: HostRuntime) -> Result<(), Fail> {
    let table: [(&[u8], &[u8], &[u8]); 6] = [
        (b"%-5i|", b",42", b"42   |"),
        (b"%05i", b",42", b"00042"),
        (b"%+i", b",42", b"+42"),
        (b"% i", b",42", b" 42"),
        (b"%-+ 06i|", b",42", b"+42   |"),
        (b"%.0i", b",0", b""),
    ];
    for (fmt, arguments, text) in table {
        prints(&rt, fmt, arguments, text, false)?;
    }
    Ok(())
}

#[test]
fn printf_flags_and_widths_that_change_nothing(rt: HostRuntime) -> Result<(), Fail> {
    let table: [(&[u8], &[u8], &[u8]); 4] = [
        (b"%0d", b",42", b"42"),
        (b"%-0d|", b",42", b"42|"),
        (b"%--5d|", b",42", b"42   |"),
        (b"%2d", b",12345", b"12345"),
    ];
    for (fmt, arguments, text) in table {
        prints(&rt, fmt, arguments, text, false)?;
    }
    Ok(())
}

#[test]
fn printf_decimal_numbers_without_sign(rt: HostRuntime) -> Result<(), Fail> {
    let table: [(&[u8], &[u8], &[u8]); 14] = [
        (b"%u", b",43981", b"43981"),
        (b"%8u", b",43981", b"   43981"),
        (b"%-8u|", b",43981", b"43981   |"),
        (b"%08u", b",43981", b"00043981"),
        (b"%.6u", b",43981", b"043981"),
        (b"%10.6u", b",43981", b"    043981"),
        (b"%010.6u", b",43981", b"    043981"),
        (b"%-010.6u|", b",43981", b"043981    |"),
        (b"%.0u", b",43981", b"43981"),
        (b"%u", b",-1", b"18446744073709551615"),
        (b"%.0u", b",0", b""),
        (b"%u", b",-9223372036854775808", b"9223372036854775808"),
        (b"%u", b",0", b"0"),
        (b"%5u", b",-0", b"    0"),
    ];
    for (fmt, arguments, text) in table {
        prints(&rt, fmt, arguments, text, false)?;
    }
    Ok(())
}

#[test]
fn printf_octal_numbers(rt: HostRuntime) -> Result<(), Fail> {
    let table: [(&[u8], &[u8], &[u8]); 14] = [
        (b"%o", b",43981", b"125715"),
        (b"%8o", b",43981", b"  125715"),
        (b"%-8o|", b",43981", b"125715  |"),
        (b"%08o", b",43981", b"00125715"),
        (b"%.6o", b",43981", b"125715"),
        (b"%10.6o", b",43981", b"    125715"),
        (b"%010.6o", b",43981", b"    125715"),
        (b"%-010.6o|", b",43981", b"125715    |"),
        (b"%.0o", b",43981", b"125715"),
        (b"%o", b",-1", b"1777777777777777777777"),
        (b"%.0o", b",0", b""),
        (b"%o", b",-9223372036854775808", b"1000000000000000000000"),
        (b"%o", b",0", b"0"),
        (b"%5o", b",-0", b"    0"),
    ];
    for (fmt, arguments, text) in table {
        prints(&rt, fmt, arguments, text, false)?;
    }
    Ok(())
}

#[test]
fn printf_hexadecimal_numbers(rt: HostRuntime) -> Result<(), Fail> {
    let table: [(&[u8], &[u8], &[u8]); 14] = [
        (b"%x", b",43981", b"abcd"),
        (b"%8x", b",43981", b"    abcd"),
        (b"%-8x|", b",43981", b"abcd    |"),
        (b"%08x", b",43981", b"0000abcd"),
        (b"%.6x", b",43981", b"00abcd"),
        (b"%10.6x", b",43981", b"    00abcd"),
        (b"%010.6x", b",43981", b"    00abcd"),
        (b"%-010.6x|", b",43981", b"00abcd    |"),
        (b"%.0x", b",43981", b"abcd"),
        (b"%x", b",-1", b"ffffffffffffffff"),
        (b"%.0x", b",0", b""),
        (b"%x", b",-9223372036854775808", b"8000000000000000"),
        (b"%x", b",0", b"0"),
        (b"%5x", b",-0", b"    0"),
    ];
    for (fmt, arguments, text) in table {
        prints(&rt, fmt, arguments, text, false)?;
    }
    Ok(())
}

#[test]
fn printf_hexadecimal_numbers_in_capitals(rt: HostRuntime) -> Result<(), Fail> {
    let table: [(&[u8], &[u8], &[u8]); 14] = [
        (b"%X", b",43981", b"ABCD"),
        (b"%8X", b",43981", b"    ABCD"),
        (b"%-8X|", b",43981", b"ABCD    |"),
        (b"%08X", b",43981", b"0000ABCD"),
        (b"%.6X", b",43981", b"00ABCD"),
        (b"%10.6X", b",43981", b"    00ABCD"),
        (b"%010.6X", b",43981", b"    00ABCD"),
        (b"%-010.6X|", b",43981", b"00ABCD    |"),
        (b"%.0X", b",43981", b"ABCD"),
        (b"%X", b",-1", b"FFFFFFFFFFFFFFFF"),
        (b"%.0X", b",0", b""),
        (b"%X", b",-9223372036854775808", b"8000000000000000"),
        (b"%X", b",0", b"0"),
        (b"%5X", b",-0", b"    0"),
    ];
    for (fmt, arguments, text) in table {
        prints(&rt, fmt, arguments, text, false)?;
    }
    Ok(())
}

#[test]
fn printf_unsigned_numbers_in_fields(rt: HostRuntime) -> Result<(), Fail> {
    let table: [(&[u8], &[u8], &[u8]); 4] = [
        (b"%0u", b",7", b"7"),
        (b"%5.0x", b",0", b"     "),
        (b"%-5.3o|", b",8", b"010  |"),
        (b"%05X", b",-1", b"FFFFFFFFFFFFFFFF"),
    ];
    for (fmt, arguments, text) in table {
        prints(&rt, fmt, arguments, text, false)?;
    }
    Ok(())
}

#[test]
fn printf_texts(rt: HostRuntime) -> Result<(), Fail> {
    let table: [(&[u8], &[u8], &[u8]); 18] = [
        (b"%s", b",abc", b"abc"),
        (b"%5s", b",abc", b"  abc"),
        (b"%-5s|", b",abc", b"abc  |"),
        (b"%2s", b",abc", b"abc"),
        (b"%5s", b",abcdefgh", b"abcdefgh"),
        (b"%-5s|", b",abcdefgh", b"abcdefgh|"),
        (b"%.2s", b",abc", b"ab"),
        (b"%5.2s", b",abc", b"   ab"),
        (b"%-5.2s|", b",abc", b"ab   |"),
        (b"%.0s|", b",abc", b"|"),
        (b"%.s|", b",abc", b"|"),
        (b"%5.0s|", b",abc", b"     |"),
        (b"%.9s", b",abc", b"abc"),
        (b"%s", b",", b""),
        (b"%3s", b",", b"   "),
        (b"%s", b",a b", b"a b"),
        (b"%s", b",\\n%d", b"\\n%d"),
        (b"%s", b",-x", b"-x"),
    ];
    for (fmt, arguments, text) in table {
        prints(&rt, fmt, arguments, text, false)?;
    }
    Ok(())
}

#[test]
fn printf_formats_that_take_no_argument(rt: HostRuntime) -> Result<(), Fail> {
    let table: [(&[u8], &[u8], &[u8]); 15] = [
        (b"", b"", b""),
        (b"abc", b"", b"abc"),
        (b"%%", b"", b"%"),
        (b"a%%b", b"", b"a%b"),
        (b"100%%\\n", b"", b"100%\n"),
        (
            b"\\\\|\\a\\b\\f\\n\\r\\t\\v",
            b"",
            b"\\|\x07\x08\x0c\n\r\t\x0b",
        ),
        (b"\\101\\1012", b"", b"AA2"),
        (b"\\1|\\12|\\7z", b"", b"\x01|\n|\x07z"),
        (b"\\377", b"", b"\xff"),
        (b"\\0", b"", b"\x00"),
        (b"\\08", b"", b"\x008"),
        (b"\\060", b"", b"0"),
        (b"\\53", b"", b"+"),
        (b"no\\n", b",a,b", b"no\n"),
        (b"%%\\n", b",a", b"%\n"),
    ];
    for (fmt, arguments, text) in table {
        prints(&rt, fmt, arguments, text, false)?;
    }
    Ok(())
}

#[test]
fn printf_escapes(rt: HostRuntime) -> Result<(), Fail> {
    let table: [(&[u8], &[u8], &[u8]); 13] = [
        (b"%b", b",abc", b"abc"),
        (b"%b", b",a\\tb", b"a\tb"),
        (
            b"%b",
            b",\\\\|\\a\\b\\f\\n\\r\\t\\v",
            b"\\|\x07\x08\x0c\n\r\t\x0b",
        ),
        (b"%b", b",\\0101", b"A"),
        (b"%b", b",\\01012", b"A2"),
        (b"%b", b",\\0", b"\x00"),
        (b"%b", b",\\07", b"\x07"),
        (b"%b", b",\\08", b"\x008"),
        (b"%b", b",\\0377", b"\xff"),
        (b"%b", b",\\0053x", b"+x"),
        (b"%b", b",", b""),
        (b"%b|%b|", b",a\\n,b", b"a\n|b|"),
        (b"%b:%d|", b",\\0101,3,x,4", b"A:3|x:4|"),
    ];
    for (fmt, arguments, text) in table {
        prints(&rt, fmt, arguments, text, false)?;
    }
    Ok(())
}

#[test]
fn printf_passes(rt: HostRuntime) -> Result<(), Fail> {
    let table: [(&[u8], &[u8], &[u8]); 13] = [
        (b"%s\\n", b",a,b,c", b"a\nb\nc\n"),
        (b"%s-%s|", b",a,b,c", b"a-b|c-|"),
        (b"%d %s|", b",1,a,2", b"1 a|2 |"),
        (b"%s", b"", b""),
        (b"%d", b"", b"0"),
        (b"%b|", b"", b"|"),
        (b"%x|%5s|%+d|", b"", b"0|     |+0|"),
        (b"%s%d|", b",a", b"a0|"),
        (b"[%s]", b"", b"[]"),
        (b"%d,", b",1,2,3", b"1,2,3,"),
        (b"a%sb%%", b",1,2", b"a1b%a2b%"),
        (
            b"%s %u %o\\n",
            b",x,1,8,y,2,9,z",
            b"x 1 10\ny 2 11\nz 0 0\n",
        ),
        (b"%5d|", b",1", b"    1|"),
    ];
    for (fmt, arguments, text) in table {
        prints(&rt, fmt, arguments, text, false)?;
    }
    Ok(())
}

#[test]
fn printf_cuts(rt: HostRuntime) -> Result<(), Fail> {
    let table: [(&[u8], &[u8], &[u8]); 8] = [
        (b"%b", b",ab\\cde", b"ab"),
        (b"%b-", b",a,b\\cx,\\q", b"a-b"),
        (b"%b%d", b",\\c,x", b""),
        (b"a%bz", b",\\c", b"a"),
        (b"%s%b|", b",x,y\\n\\c,z", b"xy\n"),
        (b"%b", b",\\c\\c", b""),
        (b"%d:%b.", b",1,\\0101\\c\\,2", b"1:A"),
        (b"%b|", b",a,,\\c,b", b"a||"),
    ];
    for (fmt, arguments, text) in table {
        prints(&rt, fmt, arguments, text, true)?;
    }
    Ok(())
}

#[test]
fn a_width_and_a_precision_may_be_9999(rt: HostRuntime) -> Result<(), Fail> {
    let list = list_of(rt.alloc(), b",7")?;
    let table: [(&[u8], u8, u8); 6] = [
        (b"%9999d", b' ', b'7'),
        (b"%-9999d", b'7', b' '),
        (b"%09999x", b'0', b'7'),
        (b"%.9999u", b'0', b'7'),
        (b"%9999s", b' ', b'7'),
        (b"%-9999.9999s", b'7', b' '),
    ];
    for (fmt, first, last) in table {
        let printed = format(rt.alloc(), fmt, &list)?;
        let bytes = printed.text.bytes();
        assert_eq!(rt; bytes.len(), 9999);
        assert_eq!(rt; bytes.first(), Some(&first));
        assert_eq!(rt; bytes.last(), Some(&last));
    }
    Ok(())
}
