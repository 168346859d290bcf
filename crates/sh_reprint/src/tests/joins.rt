//! A backslash and a newline in tokens of each kind (POSIX 2.2.1).

use super::read_as;
use std::test::Fail;

#[test]
fn in_operators(rt: HostRuntime) -> Result<(), Fail> {
    read_as(
        &rt,
        rt.alloc(),
        &[
            (b"case x in a) b;\\\n; esac", b"(case x (a [(do b)]))"),
            (b"a |\\\n| b", b"(do a) || (do b)"),
            (b"a ;\\\nb", b"(do a) ; (do b)"),
            (b"(\\\na\\\n)", b"(shell (do a))"),
            (b"a >\\\n&2", b"(do a (>& 2))"),
            (b"a <\\\n&\\\n-", b"(do a (<& -))"),
            (b"a >>\\\nb", b"(do a (>> b))"),
            (b"a <\\\n<E\nb\nE\n", b"(do a (<< b\n))"),
            (b"a <<\\\n-E\n\tb\n\tE\n", b"(do a (<< b\n))"),
            (b"2\\\n2>a", b"UNREADABLE"),
            (b"a;\\\n;", b"UNREADABLE"),
        ],
    )
}

#[test]
fn in_reserved_words(rt: HostRuntime) -> Result<(), Fail> {
    read_as(
        &rt,
        rt.alloc(),
        &[
            (
                b"wh\\\nile a; d\\\no b; don\\\ne",
                b"(while [(do a)] [(do b)])",
            ),
            (b"unti\\\nl a; do b; done", b"(until [(do a)] [(do b)])"),
            (b"fo\\\nr x i\\\nn a; do b; done", b"(for x in a [(do b)])"),
            (b"c\\\nase x in a) b;; esa\\\nc", b"(case x (a [(do b)]))"),
            (
                b"if a; the\\\nn b; el\\\nif c; then d; els\\\ne e; f\\\ni",
                b"(if [(do a)] [(do b)] [(do c)] [(do d)] else [(do e)])",
            ),
            (b"!\\\n a", b"! (do a)"),
            (b"!\\\na", b"(do !a)"),
            (b"{ a;\\\n}", b"(group (do a))"),
            (b"the\\\nn", b"UNREADABLE"),
        ],
    )
}

#[test]
fn in_names_and_expansions(rt: HostRuntime) -> Result<(), Fail> {
    read_as(
        &rt,
        rt.alloc(),
        &[
            (b"for a\\\nb do c; done", b"(for ab [(do c)])"),
            (b"f(\\\n)\\\n{ a; }", b"(fn f (group (do a)))"),
            (b"$\\\n{\\\na\\\n-\\\nb\\\n}", b"(do ($- a b))"),
            (b"${\\\n#\\\na}", b"(do ($# a))"),
            (b"$\\\n1\\\n2", b"(do ($ 1).2)"),
            (b"${1\\\n2}", b"(do ($ 12))"),
            (b"$\\\n(\\\n(1)\\\n)", b"(do (sum))"),
            (b"$((a\\\nb+\\\n1))", b"(do (sum))"),
            (b"\"$\\\na\"", b"(do (\" ($ a)))"),
            (b"\"\\\n\"", b"(do (\"))"),
        ],
    )
}

#[test]
fn where_none_is_seen(rt: HostRuntime) -> Result<(), Fail> {
    read_as(
        &rt,
        rt.alloc(),
        &[
            (b"# a\\\nb", b"(do b)"),
            (b"a\\\\\nb", b"(do a.'\\') ; (do b)"),
            (b"\"a\\\\\nb\"", b"(do (\" a '\\' \nb))"),
            (b"a <<E\\\nF\nb\nEF\n", b"(do a (<< b\n))"),
            (b"a <<'E\\\nF'\nb\nEF\n", b"UNREADABLE"),
            (b"a <<E\nb\nE\\\n\n", b"(do a (<< b\n))"),
            (b"a <<'E'\nb\nE\\\n\n", b"UNREADABLE"),
        ],
    )
}
