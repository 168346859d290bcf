use super::read_as;
use std::test::Fail;

#[test]
fn plain_words(rt: HostRuntime) -> Result<(), Fail> {
    read_as(
        &rt,
        rt.alloc(),
        &[
            (b"a", b"(do a)"),
            (b"a b", b"(do a b)"),
            (b" \ta\t b ", b"(do a b)"),
            (b"", b""),
            (b" \n\n", b""),
            (b"# a\n", b""),
            (b"# a", b""),
            (b"a # b", b"(do a)"),
            (b"a #b\nc", b"(do a) ; (do c)"),
            (b"a#b", b"(do a#b)"),
            (b"a\\\n", b"(do a)"),
            (b"a\\\nb", b"(do ab)"),
            (b"a \\\n b", b"(do a b)"),
            (b"e\\\nsac", b"UNREADABLE"),
            (b"echo {", b"(do echo {)"),
            (b"echo }", b"(do echo })"),
            (b"echo if then fi", b"(do echo if then fi)"),
            (b"{a", b"(do {a)"),
            (b"a{", b"(do a{)"),
            (b"a,b.c/d:e@f%g^h", b"(do a,b.c/d:e@f%g^h)"),
            (b"*.[ch]?", b"(do *.[ch]?)"),
        ],
    )
}

#[test]
fn quotes(rt: HostRuntime) -> Result<(), Fail> {
    read_as(
        &rt,
        rt.alloc(),
        &[
            (b"'a b'", b"(do 'a b')"),
            (b"''", b"(do '')"),
            (b"a'b'c", b"(do a.'b'.c)"),
            (b"'a\nb'", b"(do 'a\nb')"),
            (b"'a\\\nb'", b"(do 'a\\\nb')"),
            (b"\\a", b"(do 'a')"),
            (b"a\\ b", b"(do a.' '.b)"),
            (b"\\'", b"(do ''')"),
            (b"\"a b\"", b"(do (\" a b))"),
            (b"\"\"", b"(do (\"))"),
            (b"\"a\\\"b\"", b"(do (\" a '\"' b))"),
            (b"\"a\\b\"", b"(do (\" a\\b))"),
            (b"\"\\$a\"", b"(do (\" '$' a))"),
            (b"\"a'b\"", b"(do (\" a'b))"),
            (b"\"a\nb\"", b"(do (\" a\nb))"),
            (b"\"a\\\nb\"", b"(do (\" ab))"),
            (b"\"$a\"", b"(do (\" ($ a)))"),
            (b"\"a$\"", b"(do (\" a$))"),
            (b"a\"b\"'c'", b"(do a.(\" b).'c')"),
        ],
    )
}

#[test]
fn parameters(rt: HostRuntime) -> Result<(), Fail> {
    read_as(
        &rt,
        rt.alloc(),
        &[
            (b"$a", b"(do ($ a))"),
            (b"${a}", b"(do ($ a))"),
            (b"$ab.c", b"(do ($ ab)..c)"),
            (b"$1", b"(do ($ 1))"),
            (b"$12", b"(do ($ 1).2)"),
            (b"${12}", b"(do ($ 12))"),
            (b"${0}", b"(do ($ 0))"),
            (b"$#", b"(do ($ #))"),
            (b"$?", b"(do ($ ?))"),
            (b"$@", b"(do ($ @))"),
            (b"$*", b"(do ($ *))"),
            (b"${#}", b"(do ($ #))"),
            (b"${#a}", b"(do ($# a))"),
            (b"${#12}", b"(do ($# 12))"),
            (b"${##}", b"(do ($# #))"),
            (b"${#?}", b"(do ($# ?))"),
            (b"$", b"(do $)"),
            (b"$.", b"(do $.)"),
            (b"a$", b"(do a$)"),
            (b"$\\\na", b"(do ($ a))"),
            (b"$a\\\nb", b"(do ($ ab))"),
            (b"${a\\\nb}", b"(do ($ ab))"),
            (b"$\\\n{a}", b"(do ($ a))"),
        ],
    )
}

#[test]
fn operators_of_parameters(rt: HostRuntime) -> Result<(), Fail> {
    read_as(
        &rt,
        rt.alloc(),
        &[
            (b"${a-b}", b"(do ($- a b))"),
            (b"${a:-b}", b"(do ($:- a b))"),
            (b"${a=b}", b"(do ($= a b))"),
            (b"${a:=b}", b"(do ($:= a b))"),
            (b"${a+b}", b"(do ($+ a b))"),
            (b"${a:+b}", b"(do ($:+ a b))"),
            (b"${a-}", b"(do ($- a ()))"),
            (b"${a- b c }", b"(do ($- a  b c ))"),
            (b"${a#b}", b"(do ($# a b))"),
            (b"${a##b}", b"(do ($## a b))"),
            (b"${a%b}", b"(do ($% a b))"),
            (b"${a%%b}", b"(do ($%% a b))"),
            (b"${a%}", b"(do ($% a ()))"),
            (b"${#-a}", b"(do ($- # a))"),
            (b"${#%a}", b"(do ($% # a))"),
            (b"${a-$b}", b"(do ($- a ($ b)))"),
            (b"${a-${b-c}}", b"(do ($- a ($- b c)))"),
            (b"${a-'}'}", b"(do ($- a '}'))"),
            (b"${a-\"}\"}", b"(do ($- a (\" })))"),
            (b"\"${a-\"b c\"}\"", b"(do (\" ($- a (\" b c))))"),
            (b"\"${x%\"}\"}\"", b"(do (\" ($% x (\" }))))"),
            (b"\"${x%'}'}\"", b"(do (\" ($% x '}')))"),
            (b"\"${x-'a}\"", b"UNREADABLE"),
            (b"\"${x-\\}}\"", b"(do (\" ($- x '}')))"),
            (b"${a:\\\n-b}", b"(do ($:- a b))"),
            (b"${a%\\\n%b}", b"(do ($%% a b))"),
        ],
    )
}

#[test]
fn substitutions(rt: HostRuntime) -> Result<(), Fail> {
    read_as(
        &rt,
        rt.alloc(),
        &[
            (b"$(a)", b"(do (sub (do a)))"),
            (b"$( a )", b"(do (sub (do a)))"),
            (b"$()", b"(do (sub ))"),
            (b"$(a;b)", b"(do (sub (do a) ; (do b)))"),
            (b"$(a\nb\n)", b"(do (sub (do a) ; (do b)))"),
            (b"\"$(a \"b\")\"", b"(do (\" (sub (do a (\" b)))))"),
            (b"$( (a) )", b"(do (sub (shell (do a))))"),
            (b"$(a)$(b)", b"(do (sub (do a)).(sub (do b)))"),
            (b"$(a $(b))", b"(do (sub (do a (sub (do b)))))"),
            (b"$\\\n(a)", b"(do (sub (do a)))"),
            (
                b"$(case a in b) c;; esac)",
                b"(do (sub (case a (b [(do c)]))))",
            ),
            (b"$(a # b)\n)", b"(do (sub (do a)))"),
        ],
    )
}

#[test]
fn sums(rt: HostRuntime) -> Result<(), Fail> {
    read_as(
        &rt,
        rt.alloc(),
        &[
            (b"$((1))", b"(do (sum))"),
            (b"$(( a + 1 ))", b"(do (sum))"),
            (b"$((a*(b+2)))", b"(do (sum))"),
            (b"$(($a+1))", b"(do (sum ($ a)))"),
            (b"$((${a}+$(b)))", b"(do (sum ($ a) (sub (do b))))"),
            (b"$((a=1))", b"(do (sum))"),
            (b"$((a?b:c))", b"(do (sum))"),
            (b"$((1+$((2))))", b"(do (sum (sum)))"),
            (b"\"$((1+1))\"", b"(do (\" (sum)))"),
            (b"$((a++))", b"UNREADABLE"),
            (b"$((1+))", b"UNREADABLE"),
            (b"$((a**b))", b"UNREADABLE"),
            (b"$((a,b))", b"UNREADABLE"),
        ],
    )
}

#[test]
fn tildes(rt: HostRuntime) -> Result<(), Fail> {
    read_as(
        &rt,
        rt.alloc(),
        &[
            (b"~", b"(do (~))"),
            (b"~/a", b"(do (~)./a)"),
            (b"~a", b"(do ~a)"),
            (b"a ~", b"(do a (~))"),
            (b"a~", b"(do a~)"),
            (b"x=~", b"(do (= x (~)))"),
            (b"x=~/a", b"(do (= x (~)./a))"),
            (b"'~'", b"(do '~')"),
            (b"~\\\n/a", b"(do (~)./a)"),
            (b"case ~ in ~) a;; esac", b"(case (~) (~ [(do a)]))"),
        ],
    )
}
