use super::{are_alike, print_as, print_same, printed, script_of};
use span_text::Text;
use std::test::Fail;

#[test]
fn commands_as_they_stand(rt: HostRuntime) -> Result<(), Fail> {
    let texts: [&[u8]; 20] = [
        b"a | b",
        b"! a",
        b"! a | b && c || ! d",
        b"{ a; }",
        b"( a; b; ) >c",
        b"if a; then b; fi",
        b"if a; then b; elif c; then d; else e; fi",
        b"while a; do b; done <c",
        b"until a; do b; c; done",
        b"for i in a \"$b\"; do c; done",
        b"for i in; do c; done",
        b"for i do c; done",
        b"case a in esac",
        b"case $a in (b) c; ;; (d | \"e\"*) ;; esac",
        b"case a in (esac) b; ;; esac",
        b"f() { a; }",
        b"f() ( a; ) >b 2>&1",
        b"f() if a; then b; fi",
        b"f() { g() { a; }; }",
        b"{ { a; } | ( b; ); }",
    ];
    print_same(&rt, rt.alloc(), &texts)
}

#[test]
fn commands_by_their_lines(rt: HostRuntime) -> Result<(), Fail> {
    print_as(
        &rt,
        rt.alloc(),
        &[
            (b"a;b", b"a\nb\n"),
            (b"a\n\nb;", b"a\nb\n"),
            (b"a|\nb&&\nc", b"a | b && c\n"),
            (b"((a))", b"( ( a; ); )\n"),
            (b"if a\nthen\nb\nfi", b"if a; then b; fi\n"),
            (b"for i\ndo a\ndone", b"for i do a; done\n"),
            (b"case a in b) c\nesac", b"case a in (b) c; ;; esac\n"),
            (b"f()\n{\na\n}", b"f() { a; }\n"),
        ],
    )
}

#[test]
fn redirections(rt: HostRuntime) -> Result<(), Fail> {
    print_as(
        &rt,
        rt.alloc(),
        &[
            (b"a>b", b"a >b\n"),
            (b"2> b a <c", b"a 2>b <c\n"),
            (b"a >b c", b"a c >b\n"),
            (b">b", b">b\n"),
            (b"a <&3 >&- 2>>b", b"a <&3 >&- 2>>b\n"),
            (b"a=b >c", b"a=b >c\n"),
            (b">x if", b">x if\n"),
            (b">x if a >y", b">x >y if a\n"),
            (b"{ a; } >b", b"{ a; } >b\n"),
        ],
    )
}

/// Subshells in one another, as deep as the grammar has them.
#[test]
fn a_thousand_levels(rt: HostRuntime) -> Result<(), Fail> {
    let mut text = Text::new(rt.alloc());
    for _ in 0..1000 {
        text.append(b"( ")?;
    }
    text.append(b"a")?;
    for _ in 0..1000 {
        text.append(b"; )")?;
    }
    text.append(b"\n")?;
    let script = script_of(&rt, rt.alloc(), text.bytes())?;
    let out = printed(&rt, rt.alloc(), &script, 10_000)?;
    assert_eq!(&rt; out.held(), text.bytes());
    are_alike(
        &rt,
        rt.alloc(),
        &script,
        &script_of(&rt, rt.alloc(), out.held())?,
    )
}
