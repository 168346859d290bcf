//! Forms at both sides of their borders.

use super::read_as;
use std::test::Fail;

#[test]
fn reserved_words_as_words(rt: HostRuntime) -> Result<(), Fail> {
    read_as(
        &rt,
        rt.alloc(),
        &[
            (
                b"echo ! { } case do done elif else esac",
                b"(do echo ! { } case do done elif else esac)",
            ),
            (
                b"echo fi for if in then until while",
                b"(do echo fi for if in then until while)",
            ),
            (b"x=1 then", b"(do (= x 1) then)"),
            (b">x then", b"(do then (> x))"),
            (b"the\"n\"", b"(do the.(\" n))"),
            (b"\\then", b"(do 't'.hen)"),
            (b"thena", b"(do thena)"),
            (b"{a", b"(do {a)"),
            (b"a }", b"(do a })"),
            (b"}a", b"(do }a)"),
        ],
    )
}

#[test]
fn reserved_words_out_of_place(rt: HostRuntime) -> Result<(), Fail> {
    let words: [&[u8]; 16] = [
        b"!", b"{", b"}", b"case", b"do", b"done", b"elif", b"else", b"esac", b"fi", b"for", b"if",
        b"in", b"then", b"until", b"while",
    ];
    for word in words {
        read_as(&rt, rt.alloc(), &[(word, b"UNREADABLE")])?;
    }
    read_as(
        &rt,
        rt.alloc(),
        &[
            (b"a; then", b"UNREADABLE"),
            (b"a && do", b"UNREADABLE"),
            (b"a | fi", b"UNREADABLE"),
            (b"{a; }", b"UNREADABLE"),
            (b"{ a; }}", b"UNREADABLE"),
            (b"(a) b", b"UNREADABLE"),
            (b"(a) (b)", b"UNREADABLE"),
        ],
    )
}

#[test]
fn compound_commands(rt: HostRuntime) -> Result<(), Fail> {
    read_as(
        &rt,
        rt.alloc(),
        &[
            (b"if a; then b; else fi", b"UNREADABLE"),
            (b"if a; then b; elif c; fi", b"UNREADABLE"),
            (b"for x in a; do b; done c", b"UNREADABLE"),
            (b"for x in a; b; done", b"UNREADABLE"),
            (b"for x a; do b; done", b"UNREADABLE"),
            (b"for x;\n\ndo b; done", b"(for x [(do b)])"),
            (b"for x\n;do b; done", b"UNREADABLE"),
            (b"for x in a;; do b; done", b"UNREADABLE"),
            (b"while a; do b", b"UNREADABLE"),
            (b"f()", b"UNREADABLE"),
            (b"f() {a; }", b"UNREADABLE"),
            (b"f(a) { b; }", b"UNREADABLE"),
        ],
    )
}

#[test]
fn case_items(rt: HostRuntime) -> Result<(), Fail> {
    read_as(
        &rt,
        rt.alloc(),
        &[
            (b"case x in a) b;;; esac", b"UNREADABLE"),
            (b"case x in a b) c;; esac", b"UNREADABLE"),
            (b"case x in a|) b;; esac", b"UNREADABLE"),
            (b"case x in ) a;; esac", b"UNREADABLE"),
            (b"case x in (a b;; esac", b"UNREADABLE"),
            (b"case x in a) b;;", b"UNREADABLE"),
            (b"case x a) b;; esac", b"UNREADABLE"),
            (b"case x y in a) b;; esac", b"UNREADABLE"),
            (b"case x in a) b;; c) esac", b"(case x (a [(do b)]) (c []))"),
            (b"case x in a|esac) b;; esac", b"(case x (a|esac [(do b)]))"),
            (b"case x in a)\n\nb\n\n;;\n\nesac", b"(case x (a [(do b)]))"),
        ],
    )
}

#[test]
fn words_and_expansions(rt: HostRuntime) -> Result<(), Fail> {
    read_as(
        &rt,
        rt.alloc(),
        &[
            (b"a=b c=d e=f", b"(do (= a b) (= c d) (= e f))"),
            (b"${x%\"}\"}", b"(do ($% x (\" })))"),
            (b"${a-b}}", b"(do ($- a b).})"),
            (b"\"${a-}\"", b"(do (\" ($- a ())))"),
            (b"$((1+(2)))", b"(do (sum))"),
            (b"$((1+(2))", b"UNREADABLE"),
            (b"$(((1)+2))", b"(do (sum))"),
            (b"$(a))", b"UNREADABLE"),
            (b"$((1) )", b"UNREADABLE"),
            (b"${a-b", b"UNREADABLE"),
            (b"${}", b"UNREADABLE"),
            (b"${a b}", b"UNREADABLE"),
            (b"$'a'", b"(do $.'a')"),
            (b"$\"a\"", b"(do $.(\" a))"),
            (b"$[1]", b"(do $[1])"),
            (b"a[1]=b", b"(do a[1]=b)"),
            (b"a+=b", b"(do a+=b)"),
        ],
    )
}

#[test]
fn redirections(rt: HostRuntime) -> Result<(), Fail> {
    read_as(
        &rt,
        rt.alloc(),
        &[
            (b"9>a", b"(do (9> a))"),
            (b"10>a", b"UNREADABLE"),
            (b"2 >a", b"(do 2 (> a))"),
            (b"a >", b"UNREADABLE"),
            (b"a > >b", b"UNREADABLE"),
            (b"a 0<&9", b"(do a (0<& 9))"),
            (b"a <&-1", b"UNREADABLE"),
            (b"a <<E <<E\nb\nE\nc\nE\n", b"(do a (<< b\n) (<< c\n))"),
            (b"a <<E <<E\nb\nE\nc\n", b"UNREADABLE"),
            (b"a <<E\nb\nE\t\nE\n", b"(do a (<< b\nE\t\n))"),
            (b"a <<E\nb\n E\nE\n", b"(do a (<< b\n E\n))"),
            (b"a <<-E\n\t\tb\n\tE \n\t\tE\n", b"(do a (<< b\nE \n))"),
            (b"a <<", b"UNREADABLE"),
            (b"a << E\nb\nE\n", b"(do a (<< b\n))"),
        ],
    )
}
