//! Values of expressions, at both sides of the borders.

use arith64::read_expr;
use sh_meaning::Variable;
use sh_sums::{assign, evaluate, number_text, operand_number};
use shell_world::TextMap;
use span_text::{Expr, Memory, Text};
use std::alloc::Global;
use std::test::Fail;

fn variables(alloc: Global) -> Result<TextMap<Variable>, Memory> {
    let mut vars = TextMap::new(alloc);
    assign(alloc, b"one", Text::copy(alloc, b"1")?, &mut vars)?;
    assign(alloc, b"eight", Text::copy(alloc, b"010")?, &mut vars)?;
    assign(alloc, b"word", Text::copy(alloc, b"abc")?, &mut vars)?;
    assign(alloc, b"empty", Text::new(alloc), &mut vars)?;
    vars.insert(
        Text::copy(alloc, b"marked")?,
        Variable {
            value: None,
            exported: true,
        },
    )?;
    Ok(vars)
}

fn read(alloc: Global, text: &[u8]) -> Result<Expr, Memory> {
    match read_expr(alloc, text, &[]) {
        Ok(expr) => Ok(expr),
        Err(_) => Err(Memory {}),
    }
}

/// The value of an expression, with the texts that its variables have behind it; `-` where there is none.
fn shown(alloc: Global, text: &[u8], numbers: &[i64]) -> Result<Text, Fail> {
    let mut vars = variables(alloc)?;
    let mut out = Text::new(alloc);
    match evaluate(alloc, &read(alloc, text)?, numbers, &mut vars)? {
        None => out.append(b"-")?,
        Some(number) => out.append(number_text(alloc, number)?.bytes())?,
    }
    for name in [b"a".as_slice(), b"b", b"one"] {
        out.append(b" ")?;
        match vars.get(name) {
            None => out.append(b"?")?,
            Some(variable) => match &variable.value {
                None => out.append(b"?")?,
                Some(value) => out.append(value.bytes())?,
            },
        }
    }
    Ok(out)
}

fn gives(alloc: Global, text: &[u8], want: &[u8]) -> Result<bool, Fail> {
    let got = shown(alloc, text, &[])?;
    Ok(got.bytes() == want)
}

#[test]
fn operators_give(rt: HostRuntime) -> Result<(), Fail> {
    for (text, want) in [
        (b"7".as_slice(), b"7 ? ? 1".as_slice()),
        (b"-7", b"-7 ? ? 1"),
        (b"+7", b"7 ? ? 1"),
        (b"!7", b"0 ? ? 1"),
        (b"!0", b"1 ? ? 1"),
        (b"~0", b"-1 ? ? 1"),
        (b"~5", b"-6 ? ? 1"),
        (b"1-2-3", b"-4 ? ? 1"),
        (b"-7/2", b"-3 ? ? 1"),
        (b"-7%2", b"-1 ? ? 1"),
        (b"7/0", b"- ? ? 1"),
        (b"7%0", b"- ? ? 1"),
        (b"1<<63", b"-9223372036854775808 ? ? 1"),
        (b"1<<64", b"- ? ? 1"),
        (b"1>>(0-1)", b"- ? ? 1"),
        (b"9223372036854775807+1", b"-9223372036854775808 ? ? 1"),
        (b"-(-9223372036854775807-1)", b"-9223372036854775808 ? ? 1"),
        (b"3<3", b"0 ? ? 1"),
        (b"3<=3", b"1 ? ? 1"),
        (b"6&3|8^1", b"11 ? ? 1"),
    ] {
        assert!(rt; gives(rt.alloc(), text, want)?, "{text:?}");
    }
    Ok(())
}

#[test]
fn names_give_their_constants(rt: HostRuntime) -> Result<(), Fail> {
    for (text, want) in [
        (b"one".as_slice(), b"1 ? ? 1".as_slice()),
        (b"eight", b"8 ? ? 1"),
        (b"word", b"- ? ? 1"),
        (b"empty", b"- ? ? 1"),
        (b"unset", b"- ? ? 1"),
        (b"marked", b"- ? ? 1"),
        (b"0&&unset", b"0 ? ? 1"),
        (b"1&&unset", b"- ? ? 1"),
        (b"1||unset", b"1 ? ? 1"),
        (b"0||unset", b"- ? ? 1"),
        (b"1?2:unset", b"2 ? ? 1"),
        (b"0?unset:3", b"3 ? ? 1"),
        (b"0?2:unset", b"- ? ? 1"),
        (b"2&&3", b"1 ? ? 1"),
        (b"0||5", b"1 ? ? 1"),
        (b"0||0", b"0 ? ? 1"),
    ] {
        assert!(rt; gives(rt.alloc(), text, want)?, "{text:?}");
    }
    Ok(())
}

#[test]
fn assignments_are_stored(rt: HostRuntime) -> Result<(), Fail> {
    for (text, want) in [
        (b"a=5".as_slice(), b"5 5 ? 1".as_slice()),
        (b"a=b=-4", b"-4 -4 -4 1"),
        (b"one+=2", b"3 ? ? 3"),
        (b"one-=2", b"-1 ? ? -1"),
        (b"a+=2", b"- ? ? 1"),
        (b"one/=0", b"- ? ? 1"),
        (b"0&&(a=1)", b"0 ? ? 1"),
        (b"1&&(a=2)", b"1 2 ? 1"),
        (b"1||(a=1)", b"1 ? ? 1"),
        (b"1?a=1:(b=2)", b"1 1 ? 1"),
        (b"(a=2)*(a+1)", b"6 2 ? 1"),
        (b"one+=one+=1", b"3 ? ? 3"),
        (b"one++", b"- ? ? 1"),
        (b"1,2", b"- ? ? 1"),
        (b"a[0]", b"- ? ? 1"),
        (b"a[0]=1", b"- ? ? 1"),
    ] {
        assert!(rt; gives(rt.alloc(), text, want)?, "{text:?}");
    }
    Ok(())
}

#[test]
fn marks_stay(rt: HostRuntime) -> Result<(), Fail> {
    let mut vars = variables(rt.alloc())?;
    let expr = read(rt.alloc(), b"marked=3")?;
    assert!(rt; evaluate(rt.alloc(), &expr, &[], &mut vars)? == Some(3));
    assert!(rt;
        vars.get(b"marked")
            .is_some_and(|variable| variable.exported)
    );
    Ok(())
}

/// `1+1+..`, so many operators.
fn chain(alloc: Global, operators: usize) -> Result<Expr, Fail> {
    let mut text = Text::copy(alloc, b"1")?;
    for _ in 0..operators {
        text.append(b"+1")?;
    }
    Ok(read(alloc, text.bytes())?)
}

#[test]
fn long_chains_need_no_stack(rt: HostRuntime) -> Result<(), Fail> {
    let mut vars = variables(rt.alloc())?;
    let expr = chain(rt.alloc(), 20000)?;
    assert!(rt; evaluate(rt.alloc(), &expr, &[], &mut vars)? == Some(20001));
    Ok(())
}

#[test]
fn operands_give_their_constants(rt: HostRuntime) -> Result<(), Fail> {
    let _ = rt.alloc();
    for (text, at_sign, want) in [
        (b"7".as_slice(), false, Some(7)),
        (b"-7", false, Some(-7)),
        (b"+7", false, Some(7)),
        (b"010", false, Some(8)),
        (b"0x1F", false, Some(31)),
        (b"7", true, Some(7)),
        (b"-7", true, None),
        (b"+7", true, None),
        (b"", false, None),
        (b"08", false, None),
        (b"a", false, None),
        (b"9223372036854775807", false, Some(9223372036854775807)),
        (b"9223372036854775808", false, None),
    ] {
        let signs: &[u32] = if at_sign { &[2] } else { &[1, 3] };
        assert!(rt; operand_number(signs, 2, text) == want, "{text:?}");
    }
    Ok(())
}
