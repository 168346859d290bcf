use super::*;
use span_text::{List, Memory, Text};
use std::alloc::Global;
use std::test::Fail;

/// The entries that bars keep apart.
fn list_of(alloc: Global, entries: &[u8]) -> Result<List<Text>, Memory> {
    let mut list = List::new(alloc);
    for entry in entries.split(|byte| *byte == b'|') {
        list.push(Text::copy(alloc, entry)?)?;
    }
    Ok(list)
}

#[test]
fn lists_are_encoded_and_decoded(rt: HostRuntime) -> Result<(), Fail> {
    let none = List::new(rt.alloc());
    assert_eq!(rt; encode(rt.alloc(), &none)?.bytes(), b"".as_slice());
    assert_eq!(rt; decode(rt.alloc(), b"")?, Some(none));
    let table: [(&[u8], &[u8]); 8] = [
        (b"a:b|", b"3:a:b0:"),
        (b"", b"0:"),
        (b"|", b"0:0:"),
        (b"a|bc", b"1:a2:bc"),
        (b":", b"1::"),
        (b"1:a|\n", b"3:1:a1:\n"),
        (b"0123456789", b"10:0123456789"),
        (b"a b||\xff\x00", b"3:a b0:2:\xff\x00"),
    ];
    for (entries, text) in table {
        let list = list_of(rt.alloc(), entries)?;
        let encoded = encode(rt.alloc(), &list)?;
        assert_eq!(rt; encoded.bytes(), text);
        assert_eq!(rt; decode(rt.alloc(), text)?, Some(list));
    }
    Ok(())
}

#[test]
fn texts_without_whole_entries_are_refused(rt: HostRuntime) -> Result<(), Fail> {
    let table: [&[u8]; 11] = [
        b"03:a:b", b"3:a:", b":a", b"1a:b", b":", b"::", b"a", b"0", b"1", b"1:", b"2:a",
    ];
    for text in table {
        assert_eq!(rt; decode(rt.alloc(), text)?, None, "{text:?}");
    }
    Ok(())
}

#[test]
fn zeros_and_bytes_beside_an_entry_are_refused(rt: HostRuntime) -> Result<(), Fail> {
    let table: [&[u8]; 7] = [b"00:", b"01:a", b"0:a", b"1:ab", b"1:a ", b" 1:a", b"1 :a"];
    for text in table {
        assert_eq!(rt; decode(rt.alloc(), text)?, None, "{text:?}");
    }
    Ok(())
}

#[test]
fn signs_and_bases_of_lengths_are_refused(rt: HostRuntime) -> Result<(), Fail> {
    let table: [&[u8]; 5] = [b"+1:a", b"-1:a", b"-0:", b"+0:", b"0x1:a"];
    for text in table {
        assert_eq!(rt; decode(rt.alloc(), text)?, None, "{text:?}");
    }
    Ok(())
}

#[test]
fn broken_second_entries_and_other_bytes_are_refused(rt: HostRuntime) -> Result<(), Fail> {
    let table: [&[u8]; 6] = [b"1:a2:b", b"1:a:", b"1:a0", b"1:a00:", b"1;a", b"\xb11:a"];
    for text in table {
        assert_eq!(rt; decode(rt.alloc(), text)?, None, "{text:?}");
    }
    Ok(())
}

#[test]
fn lengths_past_the_text_are_refused(rt: HostRuntime) -> Result<(), Fail> {
    let table: [&[u8]; 3] = [
        b"18446744073709551615:a",
        b"18446744073709551616:a",
        b"99999999999999999999999999999999999999:a",
    ];
    for text in table {
        assert_eq!(rt; decode(rt.alloc(), text)?, None, "{text:?}");
    }
    Ok(())
}

#[test]
fn texts_a_byte_off_are_refused(rt: HostRuntime) -> Result<(), Fail> {
    let table: [&[u8]; 7] = [
        b"1:a\n",
        b"3:a:b0",
        b"3:a:b0:x",
        b"0:0:1:",
        b"10:012345678",
        b"10:0123456789a",
        b"010:0123456789",
    ];
    for text in table {
        assert_eq!(rt; decode(rt.alloc(), text)?, None, "{text:?}");
    }
    Ok(())
}

#[test]
fn other_numbers_and_zero_bytes_are_refused(rt: HostRuntime) -> Result<(), Fail> {
    let table: [&[u8]; 5] = [
        b"1_0:0123456789",
        b"1.0:a",
        b"1e1:0123456789",
        b"\x00:",
        b"1:a\x00",
    ];
    for text in table {
        assert_eq!(rt; decode(rt.alloc(), text)?, None, "{text:?}");
    }
    Ok(())
}

#[test]
fn a_thousand_long_entries_come_back(rt: HostRuntime) -> Result<(), Fail> {
    let mut bytes = Vec::new(rt.alloc());
    for i in 0..1000u32 {
        bytes.push((i % 251) as u8)?;
    }
    let mut list = List::new(rt.alloc());
    for _ in 0..1000u32 {
        list.push(Text::copy(rt.alloc(), &bytes)?)?;
    }
    let text = encode(rt.alloc(), &list)?;
    assert_eq!(rt; text.bytes().len(), 1_005_000);
    assert_eq!(rt; decode(rt.alloc(), text.bytes())?, Some(list));
    Ok(())
}

#[test]
fn reserved_names_are_spelled(rt: HostRuntime) -> Result<(), Fail> {
    let table: [(Role, &[u8], &[u8]); 9] = [
        (Role::Temporary, b"0", b"__bs_t_0"),
        (Role::Temporary, b"10", b"__bs_t_10"),
        (Role::Helper, b"lookup", b"__bs_h_lookup"),
        (Role::HelperVariable, b"Z9", b"__bs_v_Z9"),
        (Role::Array, b"a_b.c", b"__bs_a_a__b_coc"),
        (Role::Depth, b"", b"__bs_d_"),
        (Role::SaveStack, b"__", b"__bs_s_____"),
        (Role::Marks, b"\x00\xff", b"__bs_m__aa_pp"),
        (Role::Array, b"aa", b"__bs_a_aa"),
    ];
    for (role, name, spelled) in table {
        assert_eq!(rt; reserved(rt.alloc(), role, name)?.bytes(), spelled);
    }
    names_apart();
    Ok(())
}
