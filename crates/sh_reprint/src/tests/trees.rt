//! Trees that are built by hand.

use sh_syntax::{
    AndOr, Arith, Assign, AssignValue, Command, CommandKind, Item, Name, Param, ParamOp, Part,
    PartKind, Pipeline, Redirect, RedirectOp, Script, Word,
};
use span_text::{BinOp, Boxed, Expr, List, Memory, Span, Text};
use std::alloc::Global;

pub const NOWHERE: Span = Span { from: 0, to: 0 };

pub fn one<T: Drop>(alloc: Global, item: T) -> Result<List<T>, Memory> {
    let mut list = List::new(alloc);
    list.push(item)?;
    Ok(list)
}

pub fn two<T: Drop>(alloc: Global, first: T, second: T) -> Result<List<T>, Memory> {
    let mut list = one(alloc, first)?;
    list.push(second)?;
    Ok(list)
}

pub fn name(alloc: Global, text: &[u8]) -> Result<Name, Memory> {
    Ok(Name {
        text: Text::copy(alloc, text)?,
        span: NOWHERE,
    })
}

pub fn part(kind: PartKind) -> Part {
    Part {
        kind,
        span: NOWHERE,
    }
}

pub fn plain(alloc: Global, text: &[u8]) -> Result<Part, Memory> {
    Ok(part(PartKind::Plain(Text::copy(alloc, text)?)))
}

pub fn exact(alloc: Global, text: &[u8]) -> Result<Part, Memory> {
    Ok(part(PartKind::Exact(Text::copy(alloc, text)?)))
}

pub fn double(alloc: Global, inside: Part) -> Result<Part, Memory> {
    Ok(part(PartKind::Double(one(alloc, inside)?)))
}

/// `$a`, or `$` and digits, with what is done to it.
pub fn param(param: Param, op: ParamOp) -> Part {
    part(PartKind::Param { param, op })
}

pub fn named(alloc: Global, text: &[u8]) -> Result<Param, Memory> {
    Ok(Param::Name(name(alloc, text)?))
}

pub fn digits(alloc: Global, text: &[u8]) -> Result<Param, Memory> {
    Ok(Param::Digits(Text::copy(alloc, text)?))
}

pub fn word(parts: List<Part>) -> Word {
    Word {
        parts,
        span: NOWHERE,
    }
}

pub fn plain_word(alloc: Global, text: &[u8]) -> Result<Word, Memory> {
    Ok(word(one(alloc, plain(alloc, text)?)?))
}

pub fn command(alloc: Global, kind: CommandKind) -> Command {
    Command {
        kind,
        redirects: List::new(alloc),
        span: NOWHERE,
    }
}

pub fn simple(alloc: Global, words: List<Word>) -> CommandKind {
    CommandKind::Simple {
        assigns: List::new(alloc),
        words,
    }
}

pub fn alone(alloc: Global, only: Command) -> Result<Pipeline, Memory> {
    Ok(Pipeline {
        negated: false,
        stages: one(alloc, only)?,
    })
}

pub fn item(alloc: Global, first: Pipeline) -> Item {
    Item {
        chain: AndOr {
            first,
            rest: List::new(alloc),
        },
    }
}

pub fn script(alloc: Global, only: Command) -> Result<Script, Memory> {
    Ok(Script {
        items: one(alloc, item(alloc, alone(alloc, only)?))?,
    })
}

pub fn does(alloc: Global, kind: CommandKind) -> Result<Script, Memory> {
    script(alloc, command(alloc, kind))
}

pub fn nothing(alloc: Global) -> Script {
    Script {
        items: List::new(alloc),
    }
}

/// A command of one word.
pub fn calls(alloc: Global, text: &[u8]) -> Result<Script, Memory> {
    does(alloc, simple(alloc, one(alloc, plain_word(alloc, text)?)?))
}

/// `a` with a word of these parts.
pub fn says(alloc: Global, parts: List<Part>) -> Result<Script, Memory> {
    let words = two(alloc, plain_word(alloc, b"a")?, word(parts))?;
    does(alloc, simple(alloc, words))
}

/// `n=` and the parts, before a command of one word or none.
pub fn assigns(
    alloc: Global,
    text: &[u8],
    value: List<Part>,
    words: List<Word>,
) -> Result<Script, Memory> {
    let assign = Assign {
        name: name(alloc, text)?,
        value: AssignValue::Word(Some(word(value))),
        span: NOWHERE,
    };
    let kind = CommandKind::Simple {
        assigns: one(alloc, assign)?,
        words,
    };
    does(alloc, kind)
}

/// Words behind one redirection.
pub fn redirected(
    alloc: Global,
    words: List<Word>,
    fd: Option<u8>,
    op: RedirectOp,
    target: List<Part>,
) -> Result<Script, Memory> {
    let redirect = Redirect {
        fd,
        op,
        word: word(target),
        span: NOWHERE,
    };
    let command = Command {
        kind: simple(alloc, words),
        redirects: one(alloc, redirect)?,
        span: NOWHERE,
    };
    script(alloc, command)
}

/// `a $((..))` with these operands.
pub fn counts(alloc: Global, expr: Expr, operands: List<Word>) -> Result<Script, Memory> {
    let arith = Arith {
        expr,
        operands,
        span: NOWHERE,
    };
    says(alloc, one(alloc, part(PartKind::Arith(arith)))?)
}

/// An expression without operands.
pub fn sum(alloc: Global, expr: Expr) -> Result<Script, Memory> {
    counts(alloc, expr, List::new(alloc))
}

pub fn binary(alloc: Global, op: BinOp, a: Expr, b: Expr) -> Result<Expr, Memory> {
    Ok(Expr::Binary(op, Boxed::new(alloc, a)?, Boxed::new(alloc, b)?))
}
