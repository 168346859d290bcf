use super::read_as;
use std::test::Fail;

#[test]
fn assignments(rt: HostRuntime) -> Result<(), Fail> {
    read_as(
        &rt,
        rt.alloc(),
        &[
            (b"a=b", b"(do (= a b))"),
            (b"a=b c=d e", b"(do (= a b) (= c d) e)"),
            (b"a= b", b"(do (= a) b)"),
            (b"a=", b"(do (= a))"),
            (b"a=b=c", b"(do (= a b=c))"),
            (b"e a=b", b"(do e a=b)"),
            (b"1a=b", b"(do 1a=b)"),
            (b"a='b c'", b"(do (= a 'b c'))"),
            (b"'a'=b", b"(do 'a'.=b)"),
            (b"a\\\n=b", b"(do (= a b))"),
            (b"a\\\nb=c", b"(do (= ab c))"),
            (b"a=$(b)", b"(do (= a (sub (do b))))"),
            (b"_1=2", b"(do (= _1 2))"),
            (b"if=1", b"(do (= if 1))"),
        ],
    )
}

#[test]
fn redirections(rt: HostRuntime) -> Result<(), Fail> {
    read_as(
        &rt,
        rt.alloc(),
        &[
            (b"a >b", b"(do a (> b))"),
            (b"a>b", b"(do a (> b))"),
            (b">b a", b"(do a (> b))"),
            (b">b", b"(do (> b))"),
            (b"a <b >c >>d", b"(do a (< b) (> c) (>> d))"),
            (b"2>a", b"(do (2> a))"),
            (b"a 2>b", b"(do a (2> b))"),
            (b"a2>b", b"(do a2 (> b))"),
            (b"a 2 >b", b"(do a 2 (> b))"),
            (b"22>a", b"UNREADABLE"),
            (b"a 22>b", b"UNREADABLE"),
            (b"2\\\n>a", b"(do (2> a))"),
            (b"a>&2", b"(do a (>& 2))"),
            (b"a<&-", b"(do a (<& -))"),
            (b"a>&b", b"UNREADABLE"),
            (b"a>&12", b"UNREADABLE"),
            (b"a 2>&1 b", b"(do a b (2>& 1))"),
            (b"a > b c", b"(do a c (> b))"),
            (b"a>|b", b"UNREADABLE"),
            (b"a<>b", b"UNREADABLE"),
            (b"a >\\\n> b", b"(do a (>> b))"),
            (b"x=1 >a y=2 b", b"(do (= x 1) (= y 2) b (> a))"),
            (b"{ a; } >b 2>&1", b"(group (do a) (> b) (2>& 1))"),
            (b"(a)<b", b"(shell (do a) (< b))"),
            (b"a >2>b", b"UNREADABLE"),
        ],
    )
}

#[test]
fn here_documents(rt: HostRuntime) -> Result<(), Fail> {
    read_as(
        &rt,
        rt.alloc(),
        &[
            (b"a <<E\nb\nE\n", b"(do a (<< b\n))"),
            (b"a <<E\nE\n", b"(do a (<< ()))"),
            (b"a <<E\nE", b"(do a (<< ()))"),
            (b"a <<'E'\nb$c\nE\n", b"(do a (<<' b$c\n))"),
            (b"a <<\\E\n$c\nE\n", b"(do a (<<' $c\n))"),
            (b"a <<\"E F\"\nb\nE F\n", b"(do a (<<' b\n))"),
            (b"a <<E\nx$b\nE\n", b"(do a (<< x.($ b).\n))"),
            (b"a <<E\n\"$b\"\nE\n", b"(do a (<< \".($ b).\"\n))"),
            (b"a <<-E\n\tb\n\tE\n", b"(do a (<< b\n))"),
            (b"a <<E <<F\nb\nE\nc\nF\n", b"(do a (<< b\n) (<< c\n))"),
            (
                b"a <<E; b <<E\nx\nE\ny\nE\n",
                b"(do a (<< x\n)) ; (do b (<< y\n))",
            ),
            (b"a <<E\nE \nE\n", b"(do a (<< E \n))"),
            (b"a <<E\nb\n", b"UNREADABLE"),
            (b"a <<E", b"UNREADABLE"),
            (b"a <<E\nb\\\nE\nE\n", b"(do a (<< bE\n))"),
            (b"a <<'E'\nb\\\nE\n", b"(do a (<<' b\\\n))"),
            (b"a <<E\n\\$b\\c\nE\n", b"(do a (<< '$'.b\\c\n))"),
        ],
    )
}

#[test]
fn here_documents_inside(rt: HostRuntime) -> Result<(), Fail> {
    read_as(
        &rt,
        rt.alloc(),
        &[
            (
                b"a <<E\n$(b <<F\nc\nF\n)\nE\n",
                b"(do a (<< (sub (do b (<< c\n))).\n))",
            ),
            (b"a <<E\n${x-y}\nE\n", b"(do a (<< ($- x y).\n))"),
            (b"a <<E && b\nc\nE\n", b"(do a (<< c\n)) && (do b)"),
            (b"a <<E |\nb\nE\nc\n", b"(do a (<< b\n)) | (do c)"),
            (b"$(a <<E\nb\nE\n)\n", b"(do (sub (do a (<< b\n))))"),
            (b"{ a <<E\nb\nE\n}\n", b"(group (do a (<< b\n)))"),
            (b"a <<$E\nb\n$E\n", b"(do a (<< b\n))"),
            (b"a <<E\n$((1+$b))\nE\n", b"(do a (<< (sum ($ b)).\n))"),
            (b"a <<E\n$(b\nE\n", b"UNREADABLE"),
            (b"a <<''\nb\n\n", b"(do a (<<' b\n))"),
            (b"a <<''\nb\n", b"UNREADABLE"),
            (b"a <<-'\tE'\nb\n\tE\n", b"UNREADABLE"),
            (b"a <<-E\n\t\tb\n\\\n\tc\n\\\nE\n", b"(do a (<< b\nc\n))"),
            (b"a <<\"\"\nb\n\\\n", b"UNREADABLE"),
        ],
    )
}

#[test]
fn lists(rt: HostRuntime) -> Result<(), Fail> {
    read_as(
        &rt,
        rt.alloc(),
        &[
            (b"a;b", b"(do a) ; (do b)"),
            (b"a;", b"(do a)"),
            (b"a;;", b"UNREADABLE"),
            (b"a; ;", b"UNREADABLE"),
            (b";", b"UNREADABLE"),
            (b"a\nb", b"(do a) ; (do b)"),
            (b"a\n\n\nb", b"(do a) ; (do b)"),
            (b"a&&b", b"(do a) && (do b)"),
            (b"a && b || c", b"(do a) && (do b) || (do c)"),
            (b"a &&\nb", b"(do a) && (do b)"),
            (b"a\n&& b", b"UNREADABLE"),
            (b"a ||\n\n# x\nb", b"(do a) || (do b)"),
            (b"a &\\\n& b", b"(do a) && (do b)"),
            (b"a|b|c", b"(do a) | (do b) | (do c)"),
            (b"a|\nb", b"(do a) | (do b)"),
            (b"a\n|b", b"UNREADABLE"),
            (b"! a", b"! (do a)"),
            (b"! a|b", b"! (do a) | (do b)"),
            (b"!a", b"(do !a)"),
            (b"a && ! b", b"(do a) && ! (do b)"),
            (b"a && b | ! c", b"UNREADABLE"),
            (b"! ! a", b"UNREADABLE"),
            (b"a&", b"UNREADABLE"),
            (b"a & b", b"UNREADABLE"),
            (b"a|&b", b"UNREADABLE"),
            (b"a &&", b"UNREADABLE"),
            (b"a |", b"UNREADABLE"),
            (b"!", b"UNREADABLE"),
        ],
    )
}

#[test]
fn groups(rt: HostRuntime) -> Result<(), Fail> {
    read_as(
        &rt,
        rt.alloc(),
        &[
            (b"{ a; }", b"(group (do a))"),
            (b"{ a\n}", b"(group (do a))"),
            (b"{\na;b\n}", b"(group (do a) ; (do b))"),
            (b"{ a }", b"UNREADABLE"),
            (b"{ }", b"UNREADABLE"),
            (b"{ a; };", b"(group (do a))"),
            (b"{ a; } b", b"UNREADABLE"),
            (b"}", b"UNREADABLE"),
            (b"(a)", b"(shell (do a))"),
            (b"( a )", b"(shell (do a))"),
            (b"(a;)", b"(shell (do a))"),
            (b"()", b"UNREADABLE"),
            (b"(a)(b)", b"UNREADABLE"),
            (b"(a);(b)", b"(shell (do a)) ; (shell (do b))"),
            (b"((a))", b"(shell (shell (do a)))"),
            (b"(a", b"UNREADABLE"),
            (b"a)", b"UNREADABLE"),
            (b"{ (a) }", b"(group (shell (do a)))"),
            (b"{ { a; } }", b"(group (group (do a)))"),
            (b"{ echo }; }", b"(group (do echo }))"),
            (b"{\\\n a; }", b"(group (do a))"),
            (b"'{' a", b"(do '{' a)"),
        ],
    )
}

#[test]
fn ifs(rt: HostRuntime) -> Result<(), Fail> {
    read_as(
        &rt,
        rt.alloc(),
        &[
            (b"if a; then b; fi", b"(if [(do a)] [(do b)])"),
            (b"if a\nthen b\nfi", b"(if [(do a)] [(do b)])"),
            (
                b"if a; then b; else c; fi",
                b"(if [(do a)] [(do b)] else [(do c)])",
            ),
            (
                b"if a; then b; elif c; then d; fi",
                b"(if [(do a)] [(do b)] [(do c)] [(do d)])",
            ),
            (
                b"if a; then b; elif c; then d; else e; fi >f",
                b"(if [(do a)] [(do b)] [(do c)] [(do d)] else [(do e)] (> f))",
            ),
            (b"if a; then fi", b"UNREADABLE"),
            (b"if; then b; fi", b"UNREADABLE"),
            (b"if a then b; fi", b"UNREADABLE"),
            (b"if a; then b; fi c", b"UNREADABLE"),
            (b"i\\\nf a; then b; fi", b"(if [(do a)] [(do b)])"),
            (b"'if' a", b"(do 'if' a)"),
        ],
    )
}

#[test]
fn loops(rt: HostRuntime) -> Result<(), Fail> {
    read_as(
        &rt,
        rt.alloc(),
        &[
            (b"while a; do b; done", b"(while [(do a)] [(do b)])"),
            (b"until a; do b; done", b"(until [(do a)] [(do b)])"),
            (b"while a\ndo\nb\ndone", b"(while [(do a)] [(do b)])"),
            (b"while a; do done", b"UNREADABLE"),
            (b"for x do a; done", b"(for x [(do a)])"),
            (b"for x; do a; done", b"(for x [(do a)])"),
            (b"for x\ndo a; done", b"(for x [(do a)])"),
            (b"for x in; do a; done", b"(for x in [(do a)])"),
            (b"for x in a b; do c; done", b"(for x in a b [(do c)])"),
            (b"for x in a\ndo c; done", b"(for x in a [(do c)])"),
            (b"for x\nin a; do c; done", b"(for x in a [(do c)])"),
            (b"for x in do; do c; done", b"(for x in do [(do c)])"),
            (b"for x in a do c; done", b"UNREADABLE"),
            (b"for 1 in a; do c; done", b"UNREADABLE"),
            (
                b"for x in $a \"b\"; do c; done",
                b"(for x in ($ a) (\" b) [(do c)])",
            ),
            (b"for in in in; do c; done", b"(for in in in [(do c)])"),
            (b"done", b"UNREADABLE"),
        ],
    )
}

#[test]
fn cases(rt: HostRuntime) -> Result<(), Fail> {
    read_as(
        &rt,
        rt.alloc(),
        &[
            (b"case x in esac", b"(case x)"),
            (b"case x in\nesac", b"(case x)"),
            (b"case x\nin a) b;; esac", b"(case x (a [(do b)]))"),
            (b"case x in a) b;; esac", b"(case x (a [(do b)]))"),
            (b"case x in (a) b;; esac", b"(case x (a [(do b)]))"),
            (b"case x in a|b) c;; esac", b"(case x (a|b [(do c)]))"),
            (b"case x in a) ;; esac", b"(case x (a []))"),
            (b"case x in a) b; esac", b"(case x (a [(do b)]))"),
            (b"case x in a) b\nesac", b"(case x (a [(do b)]))"),
            (b"case x in a) esac", b"(case x (a []))"),
            (
                b"case x in a) b;; c) d;; esac",
                b"(case x (a [(do b)]) (c [(do d)]))",
            ),
            (
                b"case x in a) b;; c) d; esac",
                b"(case x (a [(do b)]) (c [(do d)]))",
            ),
            (b"case x in a) b esac", b"UNREADABLE"),
            (b"case x in a) b c) d;; esac", b"UNREADABLE"),
            (b"case x in (esac) a;; esac", b"(case x (esac [(do a)]))"),
            (b"case x in esac) a;; esac", b"UNREADABLE"),
            (b"case x in *) a;; esac", b"(case x (* [(do a)]))"),
            (
                b"case \"$x\" in \"a b\"|'c') d;; esac",
                b"(case (\" ($ x)) ((\" a b)|'c' [(do d)]))",
            ),
            (b"case in in in) a;; esac", b"(case in (in [(do a)]))"),
            (b"case x in a);; esac >b", b"(case x (a []) (> b))"),
            (b"case x in a) b;;\n\n# c\nesac", b"(case x (a [(do b)]))"),
            (b"echo esac", b"(do echo esac)"),
            (b"esac", b"UNREADABLE"),
        ],
    )
}

#[test]
fn functions(rt: HostRuntime) -> Result<(), Fail> {
    read_as(
        &rt,
        rt.alloc(),
        &[
            (b"f() { a; }", b"(fn f (group (do a)))"),
            (b"f () { a; }", b"(fn f (group (do a)))"),
            (b"f( ) { a; }", b"(fn f (group (do a)))"),
            (b"f()\n{ a; }", b"(fn f (group (do a)))"),
            (b"f() (a)", b"(fn f (shell (do a)))"),
            (b"f() { a; } >b", b"(fn f (group (do a) (> b)))"),
            (b"f() if a; then b; fi", b"(fn f (if [(do a)] [(do b)]))"),
            (b"f() a", b"UNREADABLE"),
            (b"f() { a; } b", b"UNREADABLE"),
            (b"f( a", b"UNREADABLE"),
            (b"1f() { a; }", b"UNREADABLE"),
            (b"if() { a; }", b"UNREADABLE"),
            (b"f\\\ng() { a; }", b"(fn fg (group (do a)))"),
            (b"f() { a; }; b", b"(fn f (group (do a))) ; (do b)"),
        ],
    )
}
