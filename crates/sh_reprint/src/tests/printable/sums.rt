use super::shows;
use crate::tests::trees::{binary, counts, named, one, param, plain_word, sum, two, word};
use sh_syntax::{Param, ParamOp, Word};
use span_text::{BinOp, Boxed, Expr, List, Memory, StepOp, Text, UnOp};
use std::alloc::Global;
use std::test::Fail;

fn variable(alloc: Global, text: &[u8]) -> Result<Expr, Memory> {
    Ok(Expr::Name(Text::copy(alloc, text)?))
}

/// `$a`
fn operand(alloc: Global) -> Result<Word, Memory> {
    Ok(word(one(alloc, param(named(alloc, b"a")?, ParamOp::Plain))?))
}

#[test]
fn constants_and_variables(rt: HostRuntime) -> Result<(), Fail> {
    let alloc = rt.alloc();
    shows(&rt, sum(alloc, Expr::Constant(0))?, true)?;
    shows(&rt, sum(alloc, Expr::Constant(i64::MAX))?, true)?;
    shows(&rt, sum(alloc, Expr::Constant(-1))?, false)?;
    shows(&rt, sum(alloc, Expr::Constant(i64::MIN))?, false)?;
    shows(&rt, sum(alloc, variable(alloc, b"a")?)?, true)?;
    shows(&rt, sum(alloc, variable(alloc, b"1a")?)?, false)
}

#[test]
fn operators_that_sh_has(rt: HostRuntime) -> Result<(), Fail> {
    let alloc = rt.alloc();
    let shift = binary(
        alloc,
        BinOp::ShiftLeft,
        Expr::Constant(1),
        Expr::Constant(2),
    )?;
    shows(&rt, sum(alloc, shift)?, true)?;
    let power = binary(alloc, BinOp::Power, Expr::Constant(1), Expr::Constant(2))?;
    shows(&rt, sum(alloc, power)?, false)?;
    let a = Boxed::new(alloc, Expr::Constant(1))?;
    let b = Boxed::new(alloc, Expr::Constant(2))?;
    shows(&rt, sum(alloc, Expr::Comma(a, b))?, false)?;
    let a = Boxed::new(alloc, variable(alloc, b"a")?)?;
    shows(&rt, sum(alloc, Expr::Step(StepOp::PostAdd, a))?, false)?;
    let a = Boxed::new(alloc, Expr::Constant(1))?;
    shows(
        &rt,
        sum(alloc, Expr::Member(Text::copy(alloc, b"a")?, a))?,
        false,
    )?;
    let a = Boxed::new(alloc, Expr::Constant(1))?;
    shows(&rt, sum(alloc, Expr::Unary(UnOp::Not, a))?, true)
}

/// An assignment to this, with this operator.
fn assignment(alloc: Global, target: Expr, op: Option<BinOp>) -> Result<Expr, Memory> {
    let value = Boxed::new(alloc, Expr::Constant(1))?;
    Ok(Expr::Assign(Boxed::new(alloc, target)?, op, value))
}

#[test]
fn assignments(rt: HostRuntime) -> Result<(), Fail> {
    let alloc = rt.alloc();
    let plain = assignment(alloc, variable(alloc, b"a")?, None)?;
    shows(&rt, sum(alloc, plain)?, true)?;
    let shift = assignment(alloc, variable(alloc, b"a")?, Some(BinOp::ShiftRight))?;
    shows(&rt, sum(alloc, shift)?, true)?;
    let less = assignment(alloc, variable(alloc, b"a")?, Some(BinOp::Less))?;
    shows(&rt, sum(alloc, less)?, false)?;
    let constant = assignment(alloc, Expr::Constant(1), None)?;
    shows(&rt, sum(alloc, constant)?, false)?;
    let of_operand = assignment(alloc, Expr::Operand(0), None)?;
    shows(
        &rt,
        counts(alloc, of_operand, one(alloc, operand(alloc)?)?)?,
        false,
    )
}

#[test]
fn operands_are_numbered_in_their_order(rt: HostRuntime) -> Result<(), Fail> {
    let alloc = rt.alloc();
    let both = binary(alloc, BinOp::Add, Expr::Operand(0), Expr::Operand(1))?;
    let words = two(alloc, operand(alloc)?, operand(alloc)?)?;
    shows(&rt, counts(alloc, both, words)?, true)?;
    let turned = binary(alloc, BinOp::Add, Expr::Operand(1), Expr::Operand(0))?;
    let words = two(alloc, operand(alloc)?, operand(alloc)?)?;
    shows(&rt, counts(alloc, turned, words)?, false)?;
    let twice = binary(alloc, BinOp::Add, Expr::Operand(0), Expr::Operand(0))?;
    shows(
        &rt,
        counts(alloc, twice, one(alloc, operand(alloc)?)?)?,
        false,
    )?;
    let few = binary(alloc, BinOp::Add, Expr::Operand(0), Expr::Constant(1))?;
    let words = two(alloc, operand(alloc)?, operand(alloc)?)?;
    shows(&rt, counts(alloc, few, words)?, false)?;
    shows(&rt, sum(alloc, Expr::Operand(0))?, false)
}

#[test]
fn operands_are_expansions(rt: HostRuntime) -> Result<(), Fail> {
    let alloc = rt.alloc();
    let plain = one(alloc, plain_word(alloc, b"a")?)?;
    shows(&rt, counts(alloc, Expr::Operand(0), plain)?, false)?;
    let parts = two(
        alloc,
        param(Param::Count, ParamOp::Plain),
        param(Param::Count, ParamOp::Plain),
    )?;
    let several = one(alloc, word(parts))?;
    shows(&rt, counts(alloc, Expr::Operand(0), several)?, false)?;
    let nothing = one(alloc, word(List::new(alloc)))?;
    shows(&rt, counts(alloc, Expr::Operand(0), nothing)?, false)
}
