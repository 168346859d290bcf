use super::{are_alike, print_as, printed, script_of};
use span_text::Text;
use std::test::Fail;

#[test]
fn here_documents(rt: HostRuntime) -> Result<(), Fail> {
    print_as(
        &rt,
        rt.alloc(),
        &[
            (b"a <<X\nb\nX\n", b"a <<E0\nb\nE0\n"),
            (b"a <<X\nX\n", b"a <<E0\nE0\n"),
            (b"a <<'X'\n$b\nX\n", b"a <<'E0'\n$b\nE0\n"),
            (b"a <<-X\n\tb\n\tX\n", b"a <<E0\nb\nE0\n"),
            (b"a <<X\n$b \"c\"\\$\nX", b"a <<E0\n$b \"c\"\\$\nE0\n"),
            (b"a <<X\nE0\nE1\nX\n", b"a <<E2\nE0\nE1\nE2\n"),
            (b"a <<X\nE1\nX\n", b"a <<E0\nE1\nE0\n"),
            (b"a 3<<A <<B\n1\nA\n2\nB\n", b"a 3<<E0 <<E0\n1\nE0\n2\nE0\n"),
            (b"a <<X\n$(b)\nX\n", b"a <<E0\n$( b; )\nE0\n"),
            (b"a <<X; b\nx\nX\n", b"a <<E0\nx\nE0\nb\n"),
            (b"a <<X | b\nx\nX\n", b"a <<E0 |\nx\nE0\nb\n"),
            (b"a <<X && b\nx\nX\n", b"a <<E0 &&\nx\nE0\nb\n"),
            (b"{ a <<X; b\nx\nX\n}", b"{ a <<E0\nx\nE0\nb; }\n"),
            (b"$(a <<X\nx\nX\n)", b"$( a <<E0\nx\nE0\n)\n"),
            (b"a <<X >$(b\nx\nX\n)", b"a <<E0 >$(\nx\nE0\nb; )\n"),
            (b"<<X if\nx\nX\n", b"<<E0 if\nx\nE0\n"),
            (b"<<X if $(b\nx\nX\n)", b"<<E0 if $(\nx\nE0\nb; )\n"),
            (
                b"a <<X\n$(b <<Y\ny\nY\n)\nX\n",
                b"a <<E1\n$( b <<E0\ny\nE0\n)\nE1\n",
            ),
        ],
    )
}

/// A body that has the lines `E0` to `E20`, and a quoted delimiter.
#[test]
fn taken_delimiters(rt: HostRuntime) -> Result<(), Fail> {
    let mut lines = Text::new(rt.alloc());
    for tens in 0..3u8 {
        for ones in 0..10u8 {
            if tens == 0 {
                lines.append(&[b'E', b'0' + ones, b'\n'])?;
            } else if tens == 1 || ones == 0 {
                lines.append(&[b'E', b'0' + tens, b'0' + ones, b'\n'])?;
            }
        }
    }
    let mut text = Text::copy(rt.alloc(), b"a <<'X'\n")?;
    text.append(lines.bytes())?;
    text.append(b"X\n")?;
    let mut wanted = Text::copy(rt.alloc(), b"a <<'E21'\n")?;
    wanted.append(lines.bytes())?;
    wanted.append(b"E21\n")?;
    let script = script_of(&rt, rt.alloc(), text.bytes())?;
    let out = printed(&rt, rt.alloc(), &script, 1000)?;
    assert_eq!(&rt; out.held(), wanted.bytes());
    are_alike(
        &rt,
        rt.alloc(),
        &script,
        &script_of(&rt, rt.alloc(), out.held())?,
    )
}
