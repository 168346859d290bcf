//! Trees built by hand.

use super::*;
use span_text::{Boxed, List, Memory, Span, Text};
use std::alloc::Global;
use std::test::Fail;

const NOWHERE: Span = Span { from: 0, to: 0 };

fn one<T: Drop>(alloc: Global, item: T) -> Result<List<T>, Memory> {
    let mut list = List::new(alloc);
    list.push(item)?;
    Ok(list)
}

fn two<T: Drop>(alloc: Global, first: T, second: T) -> Result<List<T>, Memory> {
    let mut list = one(alloc, first)?;
    list.push(second)?;
    Ok(list)
}

fn name(alloc: Global, text: &[u8]) -> Result<Name, Memory> {
    Ok(Name {
        text: Text::copy(alloc, text)?,
        span: NOWHERE,
    })
}

fn part(kind: PartKind) -> Part {
    Part {
        kind,
        span: NOWHERE,
    }
}

fn plain(alloc: Global, text: &[u8]) -> Result<Part, Memory> {
    Ok(part(PartKind::Plain(Text::copy(alloc, text)?)))
}

fn word(parts: List<Part>) -> Word {
    Word {
        parts,
        span: NOWHERE,
    }
}

fn plain_word(alloc: Global, text: &[u8]) -> Result<Word, Memory> {
    Ok(word(one(alloc, plain(alloc, text)?)?))
}

fn command(alloc: Global, kind: CommandKind) -> Command {
    Command {
        kind,
        redirects: List::new(alloc),
        span: NOWHERE,
    }
}

fn call(alloc: Global, words: List<Word>) -> Command {
    let kind = CommandKind::Simple {
        assigns: List::new(alloc),
        words,
    };
    command(alloc, kind)
}

fn item(alloc: Global, only: Command) -> Result<Item, Memory> {
    let first = Pipeline {
        negated: false,
        stages: one(alloc, only)?,
    };
    Ok(Item {
        chain: AndOr {
            first,
            rest: List::new(alloc),
        },
    })
}

fn script(alloc: Global, only: Command) -> Result<Script, Memory> {
    Ok(Script {
        items: one(alloc, item(alloc, only)?)?,
    })
}

/// A command of one word.
fn calls(alloc: Global, text: &[u8]) -> Result<Script, Memory> {
    script(alloc, call(alloc, one(alloc, plain_word(alloc, text)?)?))
}

/// `if a; then b; fi`.
fn branching(alloc: Global) -> Result<Script, Memory> {
    let parts = one(alloc, (calls(alloc, b"a")?, calls(alloc, b"b")?))?;
    let kind = CommandKind::If {
        parts,
        otherwise: None,
    };
    script(alloc, command(alloc, kind))
}

/// `f() { show "$(a)" x; }`.
fn defining(alloc: Global) -> Result<Script, Memory> {
    let subst = part(PartKind::Subst(calls(alloc, b"a")?));
    let quoted = part(PartKind::Double(one(alloc, subst)?));
    let words = two(
        alloc,
        plain_word(alloc, b"show")?,
        word(one(alloc, quoted)?),
    )?;
    let group = CommandKind::Group(script(alloc, call(alloc, words))?);
    let function = Function {
        name: name(alloc, b"f")?,
        body: Boxed::new(alloc, command(alloc, group))?,
    };
    script(alloc, command(alloc, CommandKind::Function(function)))
}

#[test]
fn equal_trees_are_equal(rt: HostRuntime) -> Result<(), Fail> {
    assert!(rt; branching(rt.alloc())? == branching(rt.alloc())?);
    assert!(rt; defining(rt.alloc())? == defining(rt.alloc())?);
    Ok(())
}

#[test]
fn other_trees_are_not(rt: HostRuntime) -> Result<(), Fail> {
    assert!(rt; branching(rt.alloc())? != defining(rt.alloc())?);
    assert!(rt; calls(rt.alloc(), b"a")? != calls(rt.alloc(), b"b")?);
    Ok(())
}
