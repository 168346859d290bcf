//! Trees that are built by hand.

use super::*;
use span_text::{Boxed, Expr, List, Memory, Span, Text};
use std::alloc::Global;
use std::test::Fail;

fn span(from: u32, to: u32) -> Span {
    Span { from, to }
}

fn one<T: Drop>(alloc: Global, item: T) -> Result<List<T>, Memory> {
    let mut list = List::new(alloc);
    list.push(item)?;
    Ok(list)
}

fn name(alloc: Global, text: &[u8], at: Span) -> Result<Name, Memory> {
    Ok(Name {
        text: Text::copy(alloc, text)?,
        span: at,
    })
}

fn word(alloc: Global, kind: PartKind, at: Span) -> Result<Word, Memory> {
    let parts = one(alloc, Part { kind, span: at })?;
    Ok(Word { parts, span: at })
}

fn plain(alloc: Global, text: &[u8], at: Span) -> Result<Word, Memory> {
    word(alloc, PartKind::Plain(Text::copy(alloc, text)?), at)
}

/// A script of one command.
fn script(alloc: Global, kind: CommandKind, at: Span) -> Result<Script, Memory> {
    let command = Command {
        kind,
        redirects: List::new(alloc),
        span: at,
    };
    let first = Pipeline {
        negated: false,
        stages: one(alloc, command)?,
        both: List::new(alloc),
    };
    let chain = AndOr {
        first,
        rest: List::new(alloc),
    };
    let items = one(
        alloc,
        Item {
            chain,
            background: None,
        },
    )?;
    Ok(Script { items })
}

/// `[[ -n ${a[1]} ]]`, where the name has this span.
fn test_of_member(alloc: Global, at: Span) -> Result<Script, Memory> {
    let expr = Arith {
        expr: Expr::Constant(1),
        operands: List::new(alloc),
        names: List::new(alloc),
        effects: List::new(alloc),
        span: span(10, 11),
    };
    let sub = Subscript {
        word: plain(alloc, b"1", span(10, 11))?,
        arith: Ok(expr),
        span: span(9, 12),
    };
    let param = Param::Member(name(alloc, b"a", at)?, Boxed::new(alloc, sub)?);
    let part = PartKind::Param {
        param,
        op: ParamOp::Plain,
    };
    let op = TestOp {
        text: Text::copy(alloc, b"-n")?,
        span: span(3, 5),
    };
    let cond = Cond::Unary(op, word(alloc, part, span(6, 13))?);
    let kind = CommandKind::Cond(Boxed::new(alloc, cond)?);
    script(alloc, kind, span(0, 16))
}

/// `a=([k]=b)`, with the subscript's expression or without.
fn assigned_list(alloc: Global) -> Result<Script, Memory> {
    let sub = Subscript {
        word: plain(alloc, b"k", span(4, 5))?,
        arith: Err(span(5, 5)),
        span: span(3, 6),
    };
    let item = ArrayItem {
        sub: Some(Boxed::new(alloc, sub)?),
        value: Some(plain(alloc, b"b", span(7, 8))?),
        span: span(3, 8),
    };
    let assign = Assign {
        name: name(alloc, b"a", span(0, 1))?,
        sub: None,
        append: false,
        value: AssignValue::Items(one(alloc, item)?),
        span: span(0, 9),
    };
    let kind = CommandKind::Simple {
        assigns: one(alloc, assign)?,
        words: List::new(alloc),
    };
    script(alloc, kind, span(0, 9))
}

#[test]
fn equal_trees_are_equal(rt: HostRuntime) -> Result<(), Fail> {
    let alloc = rt.alloc();
    assert!(rt; test_of_member(alloc, span(8, 9))? == test_of_member(alloc, span(8, 9))?);
    assert!(rt; assigned_list(alloc)? == assigned_list(alloc)?);
    Ok(())
}

#[test]
fn other_trees_and_places_are_not(rt: HostRuntime) -> Result<(), Fail> {
    let alloc = rt.alloc();
    assert!(rt; test_of_member(alloc, span(8, 9))? != assigned_list(alloc)?);
    assert!(rt; test_of_member(alloc, span(8, 9))? != test_of_member(alloc, span(7, 8))?);
    Ok(())
}
