use super::shows;
use crate::tests::trees::{
    alone, assigns, calls, command, does, exact, item, name, nothing, one, plain, plain_word,
    redirected, simple, two, word,
};
use sh_syntax::{CaseItem, CommandKind, Function, Pipeline, RedirectOp, Script};
use span_text::{Boxed, List, Memory};
use std::alloc::Global;
use std::process::Abort;
use std::test::Fail;

#[test]
fn lists_of_commands(rt: HostRuntime) -> Result<(), Fail> {
    let alloc = rt.alloc();
    shows(&rt, nothing(alloc), true)?;
    shows(&rt, calls(alloc, b"a")?, true)?;
    shows(&rt, does(alloc, simple(alloc, List::new(alloc)))?, false)?;
    let no_stage = Pipeline {
        negated: true,
        stages: List::new(alloc),
    };
    let items = one(alloc, item(alloc, no_stage))?;
    shows(&rt, Script { items }, false)
}

#[test]
fn compound_commands_hold_commands(rt: HostRuntime) -> Result<(), Fail> {
    let alloc = rt.alloc();
    shows(
        &rt,
        does(alloc, CommandKind::Group(calls(alloc, b"a")?))?,
        true,
    )?;
    shows(&rt, does(alloc, CommandKind::Group(nothing(alloc)))?, false)?;
    shows(
        &rt,
        does(alloc, CommandKind::Subshell(nothing(alloc)))?,
        false,
    )?;
    let no_body = CommandKind::Loop {
        until: true,
        test: calls(alloc, b"a")?,
        body: nothing(alloc),
    };
    shows(&rt, does(alloc, no_body)?, false)
}

/// `if a; then b; else c; fi` with these lists.
fn branching(alloc: Global, then: Script, otherwise: Script) -> Result<CommandKind, Memory> {
    Ok(CommandKind::If {
        parts: one(alloc, (calls(alloc, b"a")?, then))?,
        otherwise: Some(otherwise),
    })
}

#[test]
fn branches_hold_commands(rt: HostRuntime) -> Result<(), Fail> {
    let alloc = rt.alloc();
    let whole = branching(alloc, calls(alloc, b"b")?, calls(alloc, b"c")?)?;
    shows(&rt, does(alloc, whole)?, true)?;
    let no_then = branching(alloc, nothing(alloc), calls(alloc, b"c")?)?;
    shows(&rt, does(alloc, no_then)?, false)?;
    let no_else = branching(alloc, calls(alloc, b"b")?, nothing(alloc))?;
    shows(&rt, does(alloc, no_else)?, false)?;
    let no_branch = CommandKind::If {
        parts: List::new(alloc),
        otherwise: None,
    };
    shows(&rt, does(alloc, no_branch)?, false)
}

/// `for i in if b; do c; done` with this name.
fn walks(alloc: Global, over: &[u8]) -> Result<CommandKind, Memory> {
    Ok(CommandKind::For {
        name: name(alloc, over)?,
        words: Some(two(alloc, plain_word(alloc, b"if")?, plain_word(alloc, b"b")?)?),
        body: calls(alloc, b"c")?,
    })
}

#[test]
fn names_of_variables(rt: HostRuntime) -> Result<(), Fail> {
    let alloc = rt.alloc();
    shows(&rt, does(alloc, walks(alloc, b"i")?)?, true)?;
    shows(&rt, does(alloc, walks(alloc, b"if")?)?, true)?;
    shows(&rt, does(alloc, walks(alloc, b"1")?)?, false)?;
    let value = one(alloc, plain(alloc, b"#b=c")?)?;
    shows(&rt, assigns(alloc, b"a", value, List::new(alloc))?, true)?;
    let value = one(alloc, plain(alloc, b"b")?)?;
    shows(&rt, assigns(alloc, b"a-", value, List::new(alloc))?, false)?;
    let value = one(alloc, plain(alloc, b"~")?)?;
    shows(&rt, assigns(alloc, b"a", value, List::new(alloc))?, false)
}

#[test]
fn reserved_words_behind_others(rt: HostRuntime) -> Result<(), Fail> {
    let alloc = rt.alloc();
    let value = one(alloc, plain(alloc, b"b")?)?;
    let words = one(alloc, plain_word(alloc, b"if")?)?;
    shows(&rt, assigns(alloc, b"a", value, words)?, true)?;
    let words = one(alloc, plain_word(alloc, b"fi")?)?;
    let target = one(alloc, plain(alloc, b"x")?)?;
    shows(
        &rt,
        redirected(alloc, words, None, RedirectOp::Write, target)?,
        true,
    )?;
    let words = one(alloc, plain_word(alloc, b"a=b")?)?;
    let target = one(alloc, plain(alloc, b"x")?)?;
    shows(
        &rt,
        redirected(alloc, words, None, RedirectOp::Write, target)?,
        false,
    )?;
    let quoted = one(alloc, word(one(alloc, exact(alloc, b"if")?)?))?;
    shows(&rt, does(alloc, simple(alloc, quoted))?, true)
}

/// `a` with a redirection to this text.
fn aimed(alloc: Global, fd: Option<u8>, op: RedirectOp, text: &[u8]) -> Result<Script, Memory> {
    let words = one(alloc, plain_word(alloc, b"a")?)?;
    redirected(alloc, words, fd, op, one(alloc, plain(alloc, text)?)?)
}

#[test]
fn redirections(rt: HostRuntime) -> Result<(), Fail> {
    let alloc = rt.alloc();
    shows(&rt, aimed(alloc, Some(9), RedirectOp::Read, b"x")?, true)?;
    shows(&rt, aimed(alloc, Some(10), RedirectOp::Read, b"x")?, false)?;
    shows(&rt, aimed(alloc, None, RedirectOp::Append, b"#x")?, false)?;
    shows(&rt, aimed(alloc, None, RedirectOp::CopyOut, b"1")?, true)?;
    shows(&rt, aimed(alloc, None, RedirectOp::CopyIn, b"-")?, true)?;
    shows(&rt, aimed(alloc, None, RedirectOp::CopyIn, b"12")?, false)?;
    shows(&rt, aimed(alloc, None, RedirectOp::CopyOut, b"x")?, false)
}

#[test]
fn bodies_of_documents(rt: HostRuntime) -> Result<(), Fail> {
    let alloc = rt.alloc();
    shows(
        &rt,
        aimed(alloc, None, RedirectOp::HereLiteral, b"$'`\\\n")?,
        true,
    )?;
    shows(
        &rt,
        aimed(alloc, None, RedirectOp::HereLiteral, b"b")?,
        false,
    )?;
    shows(
        &rt,
        aimed(alloc, None, RedirectOp::HereLiteral, b"\0\n")?,
        false,
    )?;
    shows(
        &rt,
        aimed(alloc, None, RedirectOp::HereExpanded, b"b'\"\n")?,
        true,
    )?;
    shows(
        &rt,
        aimed(alloc, None, RedirectOp::HereExpanded, b"b")?,
        false,
    )?;
    shows(
        &rt,
        aimed(alloc, None, RedirectOp::HereExpanded, b"b\\\n")?,
        false,
    )?;
    let words = one(alloc, plain_word(alloc, b"a")?)?;
    let empty = redirected(
        alloc,
        words,
        None,
        RedirectOp::HereExpanded,
        List::new(alloc),
    )?;
    shows(&rt, empty, true)
}

/// `case a in PATTERN) b ;; esac`
fn choosing(alloc: Global, pattern: &[u8]) -> Result<CommandKind, Memory> {
    let only = CaseItem {
        patterns: one(alloc, plain_word(alloc, pattern)?)?,
        body: nothing(alloc),
    };
    Ok(CommandKind::Case {
        subject: plain_word(alloc, b"in")?,
        items: one(alloc, only)?,
    })
}

#[test]
fn items_of_a_case(rt: HostRuntime) -> Result<(), Fail> {
    let alloc = rt.alloc();
    shows(&rt, does(alloc, choosing(alloc, b"esac")?)?, true)?;
    shows(&rt, does(alloc, choosing(alloc, b"~")?)?, true)?;
    shows(&rt, does(alloc, choosing(alloc, b"#")?)?, false)?;
    let no_pattern = CaseItem {
        patterns: List::new(alloc),
        body: calls(alloc, b"a")?,
    };
    let kind = CommandKind::Case {
        subject: plain_word(alloc, b"a")?,
        items: one(alloc, no_pattern)?,
    };
    shows(&rt, does(alloc, kind)?, false)
}

/// A function of this name.
fn defining(alloc: Global, text: &[u8], body: CommandKind) -> Result<CommandKind, Memory> {
    Ok(CommandKind::Function(Function {
        name: name(alloc, text)?,
        body: Boxed::new(alloc, command(alloc, body))?,
    }))
}

#[test]
fn functions(rt: HostRuntime) -> Result<(), Fail> {
    let alloc = rt.alloc();
    let whole = defining(alloc, b"f", CommandKind::Group(calls(alloc, b"a")?))?;
    shows(&rt, does(alloc, whole)?, true)?;
    let key = defining(alloc, b"if", CommandKind::Group(calls(alloc, b"a")?))?;
    shows(&rt, does(alloc, key)?, false)?;
    let words = one(alloc, plain_word(alloc, b"a")?)?;
    let bare = defining(alloc, b"f", simple(alloc, words))?;
    shows(&rt, does(alloc, bare)?, false)?;
    let inner = defining(alloc, b"g", CommandKind::Group(calls(alloc, b"a")?))?;
    shows(&rt, does(alloc, defining(alloc, b"f", inner)?)?, false)
}

#[test]
fn pipelines(rt: HostRuntime) -> Result<(), Fail> {
    let alloc = rt.alloc();
    let first = command(alloc, CommandKind::Group(calls(alloc, b"a")?));
    let second = command(alloc, CommandKind::Subshell(nothing(alloc)));
    let stages = two(alloc, first, second)?;
    let broken = Pipeline {
        negated: false,
        stages,
    };
    let items = one(alloc, item(alloc, broken))?;
    shows(&rt, Script { items }, false)?;
    let last = command(alloc, CommandKind::Subshell(calls(alloc, b"a")?));
    let items = one(alloc, item(alloc, alone(alloc, last)?))?;
    shows(&rt, Script { items }, true)
}
