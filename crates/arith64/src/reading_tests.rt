//! What texts are read as. The trees are written with the operator first, and all of an operator in parentheses.

ghost use Rattle.std.specs.Prelude.{◌≡◌, length};
ghost use Rattle.span_text.specs.Expressions.{Apart};

use super::*;
use span_text::{BinOp, Expr, Memory, Span, StepOp, Text, UnOp};
use std::alloc::Global;
use std::process::Abort;
use std::test::Fail;

fn binary_text(op: BinOp) -> &'static [u8] {
    match op {
        BinOp::Power => b"(** ",
        BinOp::Times => b"(* ",
        BinOp::Divide => b"(/ ",
        BinOp::Remainder => b"(% ",
        BinOp::Add => b"(+ ",
        BinOp::Subtract => b"(- ",
        BinOp::ShiftLeft => b"(<< ",
        BinOp::ShiftRight => b"(>> ",
        BinOp::Less => b"(< ",
        BinOp::AtMost => b"(<= ",
        BinOp::Greater => b"(> ",
        BinOp::AtLeast => b"(>= ",
        BinOp::Equal => b"(== ",
        BinOp::Unequal => b"(!= ",
        BinOp::BitAnd => b"(& ",
        BinOp::BitXor => b"(^ ",
        BinOp::BitOr => b"(| ",
    }
}

fn unary_text(op: UnOp) -> &'static [u8] {
    match op {
        UnOp::Plus => b"(pos ",
        UnOp::Minus => b"(neg ",
        UnOp::Not => b"(! ",
        UnOp::Complement => b"(~ ",
    }
}

fn step_text(op: StepOp) -> &'static [u8] {
    match op {
        StepOp::PreAdd => b"(++. ",
        StepOp::PreSub => b"(--. ",
        StepOp::PostAdd => b"(.++ ",
        StepOp::PostSub => b"(.-- ",
    }
}

fn assign_text(op: Option<BinOp>) -> &'static [u8] {
    match op {
        None => b"(= ",
        Some(op) => binary_text(op),
    }
}

/// Shows an operand with these texts before it and behind it.
#[cycle(show)]
fn show_operand(
    alloc: Global,
    before: &[u8],
    e: &Expr,
    behind: &[u8],
    out: &mut Text,
) -> Result<(), Memory> {
    out.append(before)?;
    show(alloc, e, out)?;
    out.append(behind)
}

#[cycle(show)]
fn show(alloc: Global, e: &Expr, out: &mut Text) -> Result<(), Memory> {
    match e {
        Expr::Constant(n) => out.append(format!(in alloc; "{n}")?.as_bytes()),
        Expr::Operand(n) => out.append(format!(in alloc; "${n}")?.as_bytes()),
        Expr::Name(name) => out.append(name.bytes()),
        Expr::Member(name, index) => {
            out.append(name.bytes())?;
            show_operand(alloc, b"[", index.get(), b"]", out)
        }
        Expr::Unary(op, a) => show_operand(alloc, unary_text(*op), a.get(), b")", out),
        Expr::Step(op, a) => show_operand(alloc, step_text(*op), a.get(), b")", out),
        Expr::Binary(op, a, b) => {
            show_operand(alloc, binary_text(*op), a.get(), b" ", out)?;
            show_operand(alloc, b"", b.get(), b")", out)
        }
        Expr::And(a, b) => {
            show_operand(alloc, b"(&& ", a.get(), b" ", out)?;
            show_operand(alloc, b"", b.get(), b")", out)
        }
        Expr::Or(a, b) => {
            show_operand(alloc, b"(|| ", a.get(), b" ", out)?;
            show_operand(alloc, b"", b.get(), b")", out)
        }
        Expr::Comma(a, b) => {
            show_operand(alloc, b"(, ", a.get(), b" ", out)?;
            show_operand(alloc, b"", b.get(), b")", out)
        }
        Expr::Assign(target, op, value) => {
            out.append(b"set")?;
            show_operand(alloc, assign_text(*op), target.get(), b" ", out)?;
            show_operand(alloc, b"", value.get(), b")", out)
        }
        Expr::Choose(a, b, c) => {
            show_operand(alloc, b"(? ", a.get(), b" ", out)?;
            show_operand(alloc, b"", b.get(), b" ", out)?;
            show_operand(alloc, b"", c.get(), b")", out)
        }
    }
}

/// What a text whose expansions have these spans is read as: its tree, or the offset at which it is bad.
fn read(alloc: Global, text: &[u8], operands: &[Span]) -> Result<Text, Memory>
    requires { Apart 0 (length text.now) operands.now }
{
    let mut out = Text::copy(alloc, b"")?;
    match read_expr(alloc, text, operands) {
        Ok(e) => show(alloc, &e, &mut out)?,
        Err(ExprFault::BadExpr(at)) => out.append(format!(in alloc; "bad {at}")?.as_bytes())?,
        Err(ExprFault::Memory) => return Err(Memory {}),
    }
    Ok(out)
}

/// Asserts that a text whose expansions have these spans is read as this.
fn reads_with(
    rt: &(impl Abort + AllocGlobal),
    text: &[u8],
    operands: &[Span],
    tree: &[u8],
) -> Result<(), Memory>
    requires { Apart 0 (length text.now) operands.now }
{
    let shown = read(rt.alloc(), text, operands)?;
    assert_eq!(rt; shown.bytes(), tree);
    Ok(())
}

/// Asserts that a text without expansions is read as this.
pub(crate) fn reads(
    rt: &(impl Abort + AllocGlobal),
    text: &[u8],
    tree: &[u8],
) -> Result<(), Memory> {
    reads_with(rt, text, &[], tree)
}

#[test]
fn operands_are_read(rt: HostRuntime) -> Result<(), Fail> {
    let table: [(&[u8], &[u8]); 16] = [
        (b"0", b"0"),
        (b"017", b"15"),
        (b"00", b"0"),
        (b"0xfF", b"255"),
        (b"0X10", b"16"),
        (b"9223372036854775807", b"9223372036854775807"),
        (b"0777777777777777777777", b"9223372036854775807"),
        (b"0x7fffffffffffffff", b"9223372036854775807"),
        (b"  a\t", b"a"),
        (b"\n1\n", b"1"),
        (b"_a1", b"_a1"),
        (b"a[1]", b"a[1]"),
        (b"a[b[c]]", b"a[b[c]]"),
        (b"a[ b , c ]", b"a[(, b c)]"),
        (b"(a)", b"a"),
        (b" ( ( 1 ) ) ", b"1"),
    ];
    for (text, tree) in table {
        reads(&rt, text, tree)?;
    }
    Ok(())
}

#[test]
fn operators_before_operands_are_read(rt: HostRuntime) -> Result<(), Fail> {
    let table: [(&[u8], &[u8]); 24] = [
        (b"-1", b"(neg 1)"),
        (b"+a", b"(pos a)"),
        (b"!a", b"(! a)"),
        (b"~a", b"(~ a)"),
        (b"- -1", b"(neg (neg 1))"),
        (b"-!~+a", b"(neg (! (~ (pos a))))"),
        (b"!-a", b"(! (neg a))"),
        (b"-a++", b"(neg (.++ a))"),
        (b"- --a", b"(neg (--. a))"),
        (b"a++", b"(.++ a)"),
        (b"a --", b"(.-- a)"),
        (b"++ a", b"(++. a)"),
        (b"--a", b"(--. a)"),
        (b"++a[i]", b"(++. a[i])"),
        (b"a[i]--", b"(.-- a[i])"),
        (b"a+++b", b"(+ (.++ a) b)"),
        (b"a---b", b"(- (.-- a) b)"),
        (b"a + ++b", b"(+ a (++. b))"),
        (b"a++ + ++b", b"(+ (.++ a) (++. b))"),
        (b"1 - -2", b"(- 1 (neg 2))"),
        (b"-a**b", b"(** (neg a) b)"),
        (b"a**-b", b"(** a (neg b))"),
        (b"!a**b", b"(** (! a) b)"),
        (b"-a*b", b"(* (neg a) b)"),
    ];
    for (text, tree) in table {
        reads(&rt, text, tree)?;
    }
    Ok(())
}

#[test]
fn loose_operators_group(rt: HostRuntime) -> Result<(), Fail> {
    let table: [(&[u8], &[u8]); 25] = [
        (b"a,b,c", b"(, (, a b) c)"),
        (b"a=b,c", b"(, set(= a b) c)"),
        (b"a,b=c", b"(, a set(= b c))"),
        (b"a=b=c", b"set(= a set(= b c))"),
        (b"a=b?c:d", b"set(= a (? b c d))"),
        (b"a ? b : c ? d : e", b"(? a b (? c d e))"),
        (b"a?b?c:d:e", b"(? a (? b c d) e)"),
        (b"a?b,c:d", b"(? a (, b c) d)"),
        (b"a?b=c:d", b"(? a set(= b c) d)"),
        (b"a?b:c,d", b"(, (? a b c) d)"),
        (b"a||b?c:d", b"(? (|| a b) c d)"),
        (b"a?b:c||d", b"(? a b (|| c d))"),
        (b"a||b||c", b"(|| (|| a b) c)"),
        (b"a||b&&c", b"(|| a (&& b c))"),
        (b"a&&b||c", b"(|| (&& a b) c)"),
        (b"a&&b&&c", b"(&& (&& a b) c)"),
        (b"a&&b|c", b"(&& a (| b c))"),
        (b"a|b&&c", b"(&& (| a b) c)"),
        (b"a|b|c", b"(| (| a b) c)"),
        (b"a|b^c", b"(| a (^ b c))"),
        (b"a^b|c", b"(| (^ a b) c)"),
        (b"a^b^c", b"(^ (^ a b) c)"),
        (b"a^b&c", b"(^ a (& b c))"),
        (b"a&b^c", b"(^ (& a b) c)"),
        (b"a&b&c", b"(& (& a b) c)"),
    ];
    for (text, tree) in table {
        reads(&rt, text, tree)?;
    }
    Ok(())
}

#[test]
fn comparisons_group(rt: HostRuntime) -> Result<(), Fail> {
    let table: [(&[u8], &[u8]); 11] = [
        (b"a&b==c", b"(& a (== b c))"),
        (b"a==b&c", b"(& (== a b) c)"),
        (b"a&b!=c", b"(& a (!= b c))"),
        (b"a!=b&c", b"(& (!= a b) c)"),
        (b"a==b!=c", b"(!= (== a b) c)"),
        (b"a==b<c", b"(== a (< b c))"),
        (b"a<b==c", b"(== (< a b) c)"),
        (b"a!=b>=c", b"(!= a (>= b c))"),
        (b"a<=b!=c", b"(!= (<= a b) c)"),
        (b"a<b<=c", b"(<= (< a b) c)"),
        (b"a>b>=c", b"(>= (> a b) c)"),
    ];
    for (text, tree) in table {
        reads(&rt, text, tree)?;
    }
    Ok(())
}

#[test]
fn shifts_group(rt: HostRuntime) -> Result<(), Fail> {
    let table: [(&[u8], &[u8]); 11] = [
        (b"a<b<<c", b"(< a (<< b c))"),
        (b"a<<b<c", b"(< (<< a b) c)"),
        (b"a>=b>>c", b"(>= a (>> b c))"),
        (b"a>>b>c", b"(> (>> a b) c)"),
        (b"a<=b<<c", b"(<= a (<< b c))"),
        (b"a<<b<=c", b"(<= (<< a b) c)"),
        (b"a<<b>>c", b"(>> (<< a b) c)"),
        (b"a<<b+c", b"(<< a (+ b c))"),
        (b"a+b<<c", b"(<< (+ a b) c)"),
        (b"a>>b-c", b"(>> a (- b c))"),
        (b"a-b>>c", b"(>> (- a b) c)"),
    ];
    for (text, tree) in table {
        reads(&rt, text, tree)?;
    }
    Ok(())
}

#[test]
fn sums_and_products_group(rt: HostRuntime) -> Result<(), Fail> {
    let table: [(&[u8], &[u8]); 8] = [
        (b"a-b+c", b"(+ (- a b) c)"),
        (b"a+b*c", b"(+ a (* b c))"),
        (b"a*b+c", b"(+ (* a b) c)"),
        (b"a-b/c", b"(- a (/ b c))"),
        (b"a/b-c", b"(- (/ a b) c)"),
        (b"a-b%c", b"(- a (% b c))"),
        (b"a%b-c", b"(- (% a b) c)"),
        (b"a*b/c%d", b"(% (/ (* a b) c) d)"),
    ];
    for (text, tree) in table {
        reads(&rt, text, tree)?;
    }
    Ok(())
}

#[test]
fn powers_and_parentheses_group(rt: HostRuntime) -> Result<(), Fail> {
    let table: [(&[u8], &[u8]); 8] = [
        (b"a*b**c", b"(* a (** b c))"),
        (b"a**b*c", b"(* (** a b) c)"),
        (b"a/b**c", b"(/ a (** b c))"),
        (b"a**b%c", b"(% (** a b) c)"),
        (b"(a**b)**c", b"(** (** a b) c)"),
        (b"a**(b**c)", b"(** a (** b c))"),
        (b"a*(b+c)", b"(* a (+ b c))"),
        (b"(a=b)+c", b"(+ set(= a b) c)"),
    ];
    for (text, tree) in table {
        reads(&rt, text, tree)?;
    }
    Ok(())
}

#[test]
fn assignments_are_read(rt: HostRuntime) -> Result<(), Fail> {
    let table: [(&[u8], &[u8]); 15] = [
        (b"a*=b", b"set(* a b)"),
        (b"a/=b", b"set(/ a b)"),
        (b"a%=b", b"set(% a b)"),
        (b"a+=b", b"set(+ a b)"),
        (b"a-=b", b"set(- a b)"),
        (b"a<<=b", b"set(<< a b)"),
        (b"a>>=b", b"set(>> a b)"),
        (b"a&=b", b"set(& a b)"),
        (b"a^=b", b"set(^ a b)"),
        (b"a|=b", b"set(| a b)"),
        (b"a[1]+=2", b"set(+ a[1] 2)"),
        (b"a=b+=c", b"set(= a set(+ b c))"),
        (b"a=!b", b"set(= a (! b))"),
        (b"a==!b", b"(== a (! b))"),
        (b"a = b == c", b"set(= a (== b c))"),
    ];
    for (text, tree) in table {
        reads(&rt, text, tree)?;
    }
    Ok(())
}

#[test]
fn joins_count_as_removed(rt: HostRuntime) -> Result<(), Fail> {
    let table: [(&[u8], &[u8]); 18] = [
        (b"1\\\n2", b"12"),
        (b"a\\\nb", b"ab"),
        (b"a<\\\n<\\\n=b", b"set(<< a b)"),
        (b"a+\\\n+", b"(.++ a)"),
        (b"0\\\nx1", b"1"),
        (b"a\\\n", b"a"),
        (b"\\\na", b"a"),
        (b"a\\\n[1]", b"a[1]"),
        (b"a \\\n\\\n + b", b"(+ a b)"),
        (b"a<\\\n b", b"(< a b)"),
        (b"a<\\\nb", b"(< a b)"),
        (b"a\\b", b"bad 2"),
        (b"a\\", b"bad 2"),
        (b"\\ a", b"bad 1"),
        (b"a\\\\\n", b"bad 2"),
        (b"1\\\n", b"1"),
        (b"1 \\\n2", b"bad 4"),
        (b"1+\\\n=2", b"bad 4"),
    ];
    for (text, tree) in table {
        reads(&rt, text, tree)?;
    }
    Ok(())
}

#[test]
fn expansions_are_operands(rt: HostRuntime) -> Result<(), Fail> {
    let alloc = rt.alloc();
    let first = [Span { from: 0, to: 2 }];
    let second = [Span { from: 2, to: 4 }];
    let both = [Span { from: 0, to: 2 }, Span { from: 2, to: 4 }];
    let three = [
        Span { from: 0, to: 4 },
        Span { from: 5, to: 7 },
        Span { from: 8, to: 10 },
    ];
    reads_with(&rt, b"$x+1", &first, b"(+ $0 1)")?;
    reads_with(&rt, b"1+$x", &second, b"(+ 1 $0)")?;
    reads_with(&rt, b"a[$x]", &second, b"a[$0]")?;
    reads_with(&rt, b"${a}*$x-$y", &three, b"(- (* $0 $1) $2)")?;
    reads_with(&rt, b"$(()?$x:$y", &three, b"(? $0 $1 $2)")?;
    reads_with(&rt, b"$x$y", &both, b"bad 2")?;
    reads_with(&rt, b"$x[1]", &first, b"bad 2")?;
    reads_with(&rt, b"$x=1", &first, b"bad 3")?;
    reads_with(&rt, b"$x++", &first, b"bad 3")?;
    reads_with(&rt, b"ab$x", &second, b"bad 2")?;
    reads_with(&rt, b"++$x", &second, b"bad 2")?;
    reads_with(&rt, b" \\$x", &second, b"bad 2")?;
    reads_with(&rt, b"($x", &[Span { from: 1, to: 3 }], b"bad 3")?;
    Ok(())
}
