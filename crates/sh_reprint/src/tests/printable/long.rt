//! Long scripts, which need no deep stack.

use super::shows;
use crate::tests::trees::{
    alone, binary, calls, command, does, item, one, plain, plain_word, simple, sum, word,
};
use sh_syntax::{CommandKind, Item, Joint, Pipeline, Script};
use span_text::{BinOp, Boxed, Expr, List, Memory, Text, UnOp};
use std::alloc::Global;
use std::test::Fail;

const MANY: usize = 100_000;

fn a_command(alloc: Global) -> Result<Pipeline, Memory> {
    let words = one(alloc, plain_word(alloc, b"a")?)?;
    alone(alloc, command(alloc, simple(alloc, words)))
}

#[test]
fn commands(rt: HostRuntime) -> Result<(), Fail> {
    let alloc = rt.alloc();
    let mut items = List::new(alloc);
    for _ in 0..MANY {
        items.push(item(alloc, a_command(alloc)?))?;
    }
    shows(&rt, Script { items }, true)
}

#[test]
fn pipelines(rt: HostRuntime) -> Result<(), Fail> {
    let alloc = rt.alloc();
    let mut whole: Item = item(alloc, a_command(alloc)?);
    for _ in 0..MANY {
        whole.chain.rest.push((Joint::Or, a_command(alloc)?))?;
    }
    let items = one(alloc, whole)?;
    shows(&rt, Script { items }, true)
}

#[test]
fn words(rt: HostRuntime) -> Result<(), Fail> {
    let alloc = rt.alloc();
    let mut words = List::new(alloc);
    for _ in 0..MANY {
        words.push(plain_word(alloc, b"a")?)?;
    }
    words.push(word(List::new(alloc)))?;
    shows(&rt, does(alloc, simple(alloc, words))?, false)
}

#[test]
fn branches(rt: HostRuntime) -> Result<(), Fail> {
    let alloc = rt.alloc();
    let mut parts = List::new(alloc);
    for _ in 0..MANY {
        parts.push((calls(alloc, b"a")?, calls(alloc, b"b")?))?;
    }
    let kind = CommandKind::If {
        parts,
        otherwise: None,
    };
    shows(&rt, does(alloc, kind)?, true)
}

#[test]
fn sums_from_the_left(rt: HostRuntime) -> Result<(), Fail> {
    let alloc = rt.alloc();
    let mut now = Expr::Constant(1);
    for _ in 0..MANY {
        now = binary(alloc, BinOp::Subtract, now, Expr::Constant(2))?;
    }
    shows(&rt, sum(alloc, now)?, true)
}

#[test]
fn sums_from_the_right(rt: HostRuntime) -> Result<(), Fail> {
    let alloc = rt.alloc();
    let mut now = Expr::Constant(1);
    for _ in 0..MANY {
        let target = Boxed::new(alloc, Expr::Name(Text::copy(alloc, b"a")?))?;
        now = Expr::Assign(target, None, Boxed::new(alloc, now)?);
    }
    shows(&rt, sum(alloc, now)?, true)?;
    let mut now = Expr::Constant(1);
    for _ in 0..MANY {
        now = Expr::Unary(UnOp::Minus, Boxed::new(alloc, now)?);
    }
    shows(&rt, sum(alloc, now)?, true)
}

#[test]
fn choices(rt: HostRuntime) -> Result<(), Fail> {
    let alloc = rt.alloc();
    let mut now = Expr::Constant(1);
    for _ in 0..MANY {
        let test = Boxed::new(alloc, Expr::Constant(1))?;
        let then = Boxed::new(alloc, Expr::Constant(2))?;
        now = Expr::Choose(test, then, Boxed::new(alloc, now)?);
    }
    shows(&rt, sum(alloc, now)?, true)
}

#[test]
fn a_long_text(rt: HostRuntime) -> Result<(), Fail> {
    let alloc = rt.alloc();
    let mut text = Text::new(alloc);
    for _ in 0..MANY {
        text.append(b"abcdefgh")?;
    }
    text.append(b" ")?;
    let words = one(alloc, word(one(alloc, plain(alloc, text.bytes())?)?))?;
    shows(&rt, does(alloc, simple(alloc, words))?, false)
}
