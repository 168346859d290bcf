use super::{are_alike, print_as, print_same, printed, script_of};
use span_text::Text;
use std::test::Fail;

#[test]
fn words_as_they_stand(rt: HostRuntime) -> Result<(), Fail> {
    let texts: [&[u8]; 20] = [
        b"a",
        b"a b",
        b"echo if then }",
        b"a=b",
        b"a=",
        b"a=b c=d e",
        b"a=b if",
        b"'a b'",
        b"''",
        b"\"\"",
        b"\"a $b\"'c'd",
        b"\"a\\$b\\\\\"",
        b"\"a\\`b\"",
        b"\\'",
        b"~",
        b"~/x",
        b"x=~/y",
        b"a~",
        b"a#b",
        b"*.[ch]?",
    ];
    print_same(&rt, rt.alloc(), &texts)
}

#[test]
fn words_by_their_quotes(rt: HostRuntime) -> Result<(), Fail> {
    print_as(
        &rt,
        rt.alloc(),
        &[
            (b"", b""),
            (b"# a", b""),
            (b"a   b # c", b"a b\n"),
            (b"a\\\nb", b"ab\n"),
            (b"\\a", b"'a'\n"),
            (b"a\\ b", b"a' 'b\n"),
            (b"'a'\\''b'", b"'a'\\''b'\n"),
            (b"\"a\\\"b\"", b"\"a\\\"b\"\n"),
        ],
    )
}

#[test]
fn parameters(rt: HostRuntime) -> Result<(), Fail> {
    let texts: [&[u8]; 20] = [
        b"$a",
        b"${a}b",
        b"$a-b",
        b"\"$a\"b",
        b"$1",
        b"$10",
        b"${10}",
        b"$# $? $@ $*",
        b"\"$@\"",
        b"${#a}",
        b"${##}",
        b"${a-b}",
        b"${a:-}",
        b"${a=b c}",
        b"${a:+$b}",
        b"${a#b}",
        b"${a##*/}",
        b"${a%\"}\"}",
        b"${a%%b}",
        b"\"${a-b}\"",
    ];
    print_same(&rt, rt.alloc(), &texts)?;
    print_as(
        &rt,
        rt.alloc(),
        &[
            (b"${a}", b"$a\n"),
            (b"${a}.b", b"$a.b\n"),
            (b"${1}", b"$1\n"),
            (b"${#}", b"$#\n"),
        ],
    )
}

#[test]
fn substitutions_and_arithmetic(rt: HostRuntime) -> Result<(), Fail> {
    print_as(
        &rt,
        rt.alloc(),
        &[
            (b"$(a)", b"$( a; )\n"),
            (b"$()", b"$( )\n"),
            (b"$(a;b)c", b"$( a; b; )c\n"),
            (b"\"$(a \"b\")\"", b"\"$( a \"b\"; )\"\n"),
            (b"$(a $(b))", b"$( a $( b; ); )\n"),
            (b"$((1+2*3))", b"$((1 + 2 * 3))\n"),
            (b"$(((1+2)*3))", b"$(((1 + 2) * 3))\n"),
            (b"$((1-(2-3)))", b"$((1 - (2 - 3)))\n"),
            (b"$((a=b?c:d))", b"$((a = b ? c : d))\n"),
            (b"$((- -1))", b"$((- - 1))\n"),
            (b"$((a&&b||!c))", b"$((a && b || ! c))\n"),
            (b"$((x<<=1))", b"$((x <<= 1))\n"),
            (b"$(($a+${b-1}))", b"$(($a + ${b-1}))\n"),
        ],
    )
}

/// Between single quotes, each byte from 1 to 255 but `'`, and `\'`.
#[test]
fn every_byte(rt: HostRuntime) -> Result<(), Fail> {
    let mut text = Text::copy(rt.alloc(), b"\\''")?;
    for byte in 1..=255u8 {
        if byte != b'\'' {
            text.append(&[byte])?;
        }
    }
    text.append(b"'\n")?;
    let script = script_of(&rt, rt.alloc(), text.bytes())?;
    let out = printed(&rt, rt.alloc(), &script, 1000)?;
    assert_eq!(&rt; out.held(), text.bytes());
    are_alike(
        &rt,
        rt.alloc(),
        &script,
        &script_of(&rt, rt.alloc(), out.held())?,
    )
}
