//! Scripts of 1,000 levels, and of one level more.

use super::shows;
use crate::tests::trees::{
    binary, calls, digits, does, named, nothing, one, param, part, plain, says, sum, two, word,
};
use sh_syntax::{CommandKind, FillTest, ParamOp, Part, PartKind, Script};
use span_text::{BinOp, Expr, List, Memory};
use std::alloc::Global;
use std::test::Fail;

/// `( .. )` in so many levels.
fn subshells(alloc: Global, levels: usize) -> Result<Script, Memory> {
    let mut now = calls(alloc, b"a")?;
    for _ in 0..levels {
        now = does(alloc, CommandKind::Subshell(now))?;
    }
    Ok(now)
}

#[test]
fn commands(rt: HostRuntime) -> Result<(), Fail> {
    shows(&rt, subshells(rt.alloc(), 1000)?, true)?;
    shows(&rt, subshells(rt.alloc(), 1001)?, false)
}

/// `$(a $(a ..))` in so many levels, around this part.
fn substitutions(alloc: Global, levels: usize, inside: Part) -> Result<Script, Memory> {
    let mut now = says(alloc, one(alloc, inside)?)?;
    for _ in 0..levels {
        now = says(alloc, one(alloc, part(PartKind::Subst(now)))?)?;
    }
    Ok(now)
}

#[test]
fn expansions(rt: HostRuntime) -> Result<(), Fail> {
    let alloc = rt.alloc();
    shows(&rt, substitutions(alloc, 1000, plain(alloc, b"b")?)?, true)?;
    shows(&rt, substitutions(alloc, 1001, plain(alloc, b"b")?)?, false)?;
    let length = param(named(alloc, b"b")?, ParamOp::Length);
    shows(&rt, substitutions(alloc, 999, length)?, true)?;
    let length = param(named(alloc, b"b")?, ParamOp::Length);
    shows(&rt, substitutions(alloc, 1000, length)?, false)?;
    let one_digit = param(digits(alloc, b"1")?, ParamOp::Plain);
    shows(&rt, substitutions(alloc, 1000, one_digit)?, true)?;
    let two_digits = param(digits(alloc, b"10")?, ParamOp::Plain);
    shows(&rt, substitutions(alloc, 1000, two_digits)?, false)
}

/// `${a-${a-..}}` in so many levels.
fn fills(alloc: Global, levels: usize) -> Result<Script, Memory> {
    let mut now = List::new(alloc);
    for _ in 0..levels {
        let op = ParamOp::Fill {
            test: FillTest::Default,
            colon: false,
            word: word(now),
        };
        now = one(alloc, param(named(alloc, b"a")?, op))?;
    }
    says(alloc, now)
}

#[test]
fn words_of_expansions(rt: HostRuntime) -> Result<(), Fail> {
    shows(&rt, fills(rt.alloc(), 1000)?, true)?;
    shows(&rt, fills(rt.alloc(), 1001)?, false)
}

#[test]
fn braces_that_more_of_a_name_needs(rt: HostRuntime) -> Result<(), Fail> {
    let alloc = rt.alloc();
    let mut now = says(
        alloc,
        two(
            alloc,
            param(named(alloc, b"b")?, ParamOp::Plain),
            plain(alloc, b"c")?,
        )?,
    )?;
    for _ in 0..999 {
        now = does(alloc, CommandKind::Group(now))?;
    }
    let deeper = does(alloc, CommandKind::Group(nothing(alloc)))?;
    shows(&rt, deeper, false)?;
    shows(&rt, now, true)
}

/// `1 - (1 - (1 - ..))` with so many parentheses, in an expansion of their own level.
fn parentheses(alloc: Global, levels: usize) -> Result<Script, Memory> {
    let mut now = binary(alloc, BinOp::Subtract, Expr::Constant(1), Expr::Constant(1))?;
    for _ in 0..levels {
        now = binary(alloc, BinOp::Subtract, Expr::Constant(1), now)?;
    }
    sum(alloc, now)
}

#[test]
fn expressions(rt: HostRuntime) -> Result<(), Fail> {
    shows(&rt, parentheses(rt.alloc(), 999)?, true)?;
    shows(&rt, parentheses(rt.alloc(), 1000)?, false)
}
