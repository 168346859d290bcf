//! Words, expressions and commands at both sides of the borders.

use sh_checks::{
    Role, Where, behind_signs, fd_of, functions_of, has_assigns, has_crowded_lists,
    has_doubtful_tilde, is_entangled, is_list, is_misassigned, names_of, plain_text,
};
use sh_syntax::{
    AndOr, Arith, Assign, AssignValue, Command, CommandKind, FillTest, Function, Item, Name, Param,
    ParamOp, Part, PartKind, Pipeline, RedirectOp, Script, Word,
};
use span_text::{BinOp, Boxed, Expr, List, Memory, Span, Text, UnOp};
use std::alloc::Global;
use std::test::Fail;

fn nowhere() -> Span {
    Span { from: 0, to: 0 }
}

fn part(kind: PartKind) -> Part {
    Part {
        kind,
        span: nowhere(),
    }
}

fn word(parts: List<Part>) -> Word {
    Word {
        parts,
        span: nowhere(),
    }
}

fn param(param: Param) -> Part {
    part(PartKind::Param {
        param,
        op: ParamOp::Plain,
    })
}

fn quoted(parts: List<Part>) -> Part {
    part(PartKind::Double(parts))
}

fn exact(alloc: Global, text: &[u8]) -> Result<Part, Memory> {
    Ok(part(PartKind::Exact(Text::copy(alloc, text)?)))
}

/// `${#-w}`
fn filled(inside: List<Part>) -> Part {
    part(PartKind::Param {
        param: Param::Count,
        op: ParamOp::Fill {
            test: FillTest::Default,
            colon: false,
            word: word(inside),
        },
    })
}

fn two(alloc: Global, a: Part, b: Part) -> Result<List<Part>, Memory> {
    let mut parts = List::new(alloc);
    parts.push(a)?;
    parts.push(b)?;
    Ok(parts)
}

fn one(alloc: Global, a: Part) -> Result<List<Part>, Memory> {
    let mut parts = List::new(alloc);
    parts.push(a)?;
    Ok(parts)
}

#[test]
fn lists_are_told(rt: HostRuntime) -> Result<(), Fail> {
    let _ = rt.alloc();
    assert!(rt; is_list(&Param::At));
    assert!(rt; is_list(&Param::Star));
    assert!(rt; !is_list(&Param::Count));
    Ok(())
}

#[test]
fn two_lists_are_crowded(rt: HostRuntime) -> Result<(), Fail> {
    let alloc = rt.alloc();
    let parts = two(alloc, param(Param::At), param(Param::Star))?;
    assert!(rt; has_crowded_lists(parts.as_slice()));
    let parts = two(alloc, param(Param::At), param(Param::Count))?;
    assert!(rt; !has_crowded_lists(parts.as_slice()));
    let parts = two(
        alloc,
        param(Param::At),
        filled(one(alloc, param(Param::At))?),
    )?;
    assert!(rt; has_crowded_lists(parts.as_slice()));
    let parts = one(alloc, filled(one(alloc, param(Param::At))?))?;
    assert!(rt; !has_crowded_lists(parts.as_slice()));
    Ok(())
}

#[test]
fn empty_quotes_crowd_quoted_lists(rt: HostRuntime) -> Result<(), Fail> {
    let alloc = rt.alloc();
    let at = quoted(one(alloc, param(Param::At))?);
    let parts = two(alloc, at, exact(alloc, b"")?)?;
    assert!(rt; has_crowded_lists(parts.as_slice()));
    let at = quoted(one(alloc, param(Param::At))?);
    let parts = two(alloc, at, quoted(List::new(alloc)))?;
    assert!(rt; has_crowded_lists(parts.as_slice()));
    let at = quoted(one(alloc, param(Param::At))?);
    let parts = two(alloc, at, exact(alloc, b"a")?)?;
    assert!(rt; !has_crowded_lists(parts.as_slice()));
    let parts = two(alloc, param(Param::At), exact(alloc, b"")?)?;
    assert!(rt; !has_crowded_lists(parts.as_slice()));
    Ok(())
}

fn signed(alloc: Global, op: UnOp, a: Expr) -> Result<Expr, Memory> {
    Ok(Expr::Unary(op, Boxed::new(alloc, a)?))
}

fn joined(alloc: Global, a: Expr, op: BinOp, b: Expr) -> Result<Expr, Memory> {
    Ok(Expr::Binary(op, Boxed::new(alloc, a)?, Boxed::new(alloc, b)?))
}

fn chosen(alloc: Global, a: Expr, b: Expr, c: Expr) -> Result<Expr, Memory> {
    Ok(Expr::Choose(
        Boxed::new(alloc, a)?,
        Boxed::new(alloc, b)?,
        Boxed::new(alloc, c)?,
    ))
}

fn are_behind(alloc: Global, expr: Expr, want: &[u32]) -> Result<bool, Memory> {
    let found = behind_signs(alloc, &expr)?;
    Ok(found.as_slice() == want)
}

#[test]
fn operands_stand_behind_signs(rt: HostRuntime) -> Result<(), Fail> {
    let alloc = rt.alloc();
    assert!(rt; are_behind(alloc, Expr::Operand(0), &[])?);
    let minus = signed(alloc, UnOp::Minus, Expr::Operand(0))?;
    assert!(rt; are_behind(alloc, minus, &[0])?);
    let not = signed(alloc, UnOp::Not, Expr::Operand(0))?;
    assert!(rt; are_behind(alloc, signed(alloc, UnOp::Minus, not)?, &[])?);
    let sum = joined(alloc, Expr::Operand(0), BinOp::Add, Expr::Operand(1))?;
    assert!(rt; are_behind(alloc, sum, &[1])?);
    let product = joined(alloc, Expr::Operand(0), BinOp::Times, Expr::Operand(1))?;
    assert!(rt; are_behind(alloc, product, &[])?);
    let product = joined(alloc, Expr::Operand(1), BinOp::Times, Expr::Operand(2))?;
    let difference = joined(alloc, Expr::Operand(0), BinOp::Subtract, product)?;
    assert!(rt; are_behind(alloc, signed(alloc, UnOp::Plus, difference)?, &[0, 1])?);
    let choice = chosen(alloc, Expr::Operand(0), Expr::Operand(1), Expr::Operand(2))?;
    assert!(rt; are_behind(alloc, signed(alloc, UnOp::Minus, choice)?, &[0])?);
    Ok(())
}

fn name(alloc: Global, text: &[u8]) -> Result<Name, Memory> {
    Ok(Name {
        text: Text::copy(alloc, text)?,
        span: nowhere(),
    })
}

fn value(alloc: Global, only: Part) -> Result<AssignValue, Memory> {
    Ok(AssignValue::Word(Some(word(one(alloc, only)?))))
}

/// Whether a value of this part depends on `a` behind `a=1`.
fn depends(alloc: Global, only: Part) -> Result<bool, Memory> {
    let names = [Text::copy(alloc, b"b")?, Text::copy(alloc, b"a")?];
    is_entangled(alloc, &names, &value(alloc, only)?)
}

fn variable(alloc: Global, text: &[u8]) -> Result<Part, Memory> {
    Ok(param(Param::Name(name(alloc, text)?)))
}

fn arith(alloc: Global, expr: Expr) -> Part {
    part(PartKind::Arith(Arith {
        expr,
        operands: List::new(alloc),
        span: nowhere(),
    }))
}

fn substitution(alloc: Global) -> Part {
    part(PartKind::Subst(Script {
        items: List::new(alloc),
    }))
}

#[test]
fn values_use_names(rt: HostRuntime) -> Result<(), Fail> {
    let alloc = rt.alloc();
    assert!(rt; depends(alloc, variable(alloc, b"a")?)?);
    assert!(rt; !depends(alloc, variable(alloc, b"c")?)?);
    assert!(rt; depends(alloc, quoted(one(alloc, variable(alloc, b"b")?)?))?);
    assert!(rt; depends(alloc, filled(one(alloc, variable(alloc, b"a")?)?))?);
    assert!(rt; !depends(alloc, filled(one(alloc, variable(alloc, b"c")?)?))?);
    assert!(rt; depends(alloc, substitution(alloc))?);
    assert!(rt; !depends(alloc, exact(alloc, b"a")?)?);
    assert!(rt; depends(alloc, arith(alloc, Expr::Name(Text::copy(alloc, b"a")?)))?);
    assert!(rt; !depends(alloc, arith(alloc, Expr::Name(Text::copy(alloc, b"c")?)))?);
    let choice = chosen(
        alloc,
        Expr::Constant(1),
        Expr::Name(Text::copy(alloc, b"c")?),
        Expr::Name(Text::copy(alloc, b"b")?),
    )?;
    assert!(rt; depends(alloc, arith(alloc, choice))?);
    Ok(())
}

#[test]
fn values_use_shell_variables(rt: HostRuntime) -> Result<(), Fail> {
    let alloc = rt.alloc();
    assert!(rt; !depends(alloc, part(PartKind::Tilde))?);
    assert!(rt; !depends(alloc, param(Param::Star))?);
    let names = [Text::copy(alloc, b"HOME")?, Text::copy(alloc, b"IFS")?];
    assert!(rt; is_entangled(alloc, &names, &value(alloc, part(PartKind::Tilde))?)?);
    assert!(rt; is_entangled(alloc, &names, &value(alloc, param(Param::Star))?)?);
    assert!(rt; !is_entangled(alloc, &names, &value(alloc, param(Param::At))?)?);
    assert!(rt; !is_entangled(alloc, &names, &AssignValue::Word(None))?);
    // The first value of a prefix.
    assert!(rt; !is_entangled(alloc, &[], &value(alloc, substitution(alloc))?)?);
    Ok(())
}

#[test]
fn tildes_are_doubtful(rt: HostRuntime) -> Result<(), Fail> {
    let _ = rt.alloc();
    for (text, first, later) in [
        (b"~a".as_slice(), true, false),
        (b"a~", false, false),
        (b"a=~b", true, true),
        (b"a:b:~", true, true),
        (b"a=b~", false, false),
        (b"=", false, false),
        (b"", false, false),
    ] {
        assert!(rt; has_doubtful_tilde(Where::First, text) == first);
        assert!(rt; has_doubtful_tilde(Where::Later, text) == later);
    }
    Ok(())
}

#[test]
fn only_names_are_assigned(rt: HostRuntime) -> Result<(), Fail> {
    let alloc = rt.alloc();
    let named = Param::Name(name(alloc, b"a")?);
    assert!(rt; !is_misassigned(FillTest::Assign, &named));
    assert!(rt; is_misassigned(FillTest::Assign, &Param::Count));
    assert!(rt; is_misassigned(FillTest::Assign, &Param::Digits(Text::copy(alloc, b"1")?)));
    assert!(rt; !is_misassigned(FillTest::Default, &Param::Count));
    assert!(rt; !is_misassigned(FillTest::Alternate, &Param::Count));
    Ok(())
}

#[test]
fn redirections_have_descriptors(rt: HostRuntime) -> Result<(), Fail> {
    let alloc = rt.alloc();
    for (op, fd) in [
        (RedirectOp::Read, 0),
        (RedirectOp::Write, 1),
        (RedirectOp::Append, 1),
        (RedirectOp::HereLiteral, 0),
        (RedirectOp::HereExpanded, 0),
        (RedirectOp::CopyIn, 0),
        (RedirectOp::CopyOut, 1),
    ] {
        assert!(rt; fd_of(None, op) == fd);
        assert!(rt; fd_of(Some(2), op) == 2);
    }
    let digit = one(alloc, part(PartKind::Plain(Text::copy(alloc, b"2")?)))?;
    assert!(rt; plain_text(digit.as_slice()) == b"2".as_slice());
    let digit = one(alloc, exact(alloc, b"2")?)?;
    assert!(rt; plain_text(digit.as_slice()) == b"".as_slice());
    assert!(rt; plain_text(&[]) == b"".as_slice());
    Ok(())
}

#[test]
fn prefixes_have_names(rt: HostRuntime) -> Result<(), Fail> {
    let alloc = rt.alloc();
    let mut assigns = List::new(alloc);
    assert!(rt; !has_assigns(assigns.as_slice()));
    assigns.push(Assign {
        name: name(alloc, b"a")?,
        value: AssignValue::Word(None),
        span: nowhere(),
    })?;
    assert!(rt; has_assigns(assigns.as_slice()));
    let names = names_of(alloc, assigns.as_slice())?;
    assert!(rt; names.len() == 1);
    for name in names.as_slice() {
        assert!(rt; name.bytes() == b"a".as_slice());
    }
    Ok(())
}

fn plain(alloc: Global, text: &[u8]) -> Result<Part, Memory> {
    Ok(part(PartKind::Plain(Text::copy(alloc, text)?)))
}

/// What stands behind a first word of these parts.
fn behind(parts: List<Part>) -> Role {
    Role::Name.behind(&word(parts))
}

#[test]
fn operands_stand_behind_export(rt: HostRuntime) -> Result<(), Fail> {
    let alloc = rt.alloc();
    assert!(rt; behind(one(alloc, plain(alloc, b"export")?)?) == Role::Export);
    assert!(rt; behind(one(alloc, plain(alloc, b"exports")?)?) == Role::Argument);
    assert!(rt; behind(one(alloc, plain(alloc, b"expor")?)?) == Role::Argument);
    let split = two(
        alloc,
        plain(alloc, b"ex")?,
        quoted(one(alloc, exact(alloc, b"port")?)?),
    )?;
    assert!(rt; behind(split) == Role::Export);
    let expanded = two(
        alloc,
        plain(alloc, b"export")?,
        quoted(one(alloc, variable(alloc, b"a")?)?),
    )?;
    assert!(rt; behind(expanded) == Role::Argument);
    let export = word(one(alloc, plain(alloc, b"export")?)?);
    assert!(rt; Role::Argument.behind(&export) == Role::Argument);
    let operand = word(one(alloc, plain(alloc, b"a")?)?);
    assert!(rt; Role::Export.behind(&operand) == Role::Export);
    Ok(())
}

fn command(alloc: Global, kind: CommandKind) -> Command {
    Command {
        kind,
        redirects: List::new(alloc),
        span: nowhere(),
    }
}

fn script(alloc: Global, only: Command) -> Result<Script, Memory> {
    let mut stages = List::new(alloc);
    stages.push(only)?;
    let mut items = List::new(alloc);
    items.push(Item {
        chain: AndOr {
            first: Pipeline {
                negated: false,
                stages,
            },
            rest: List::new(alloc),
        },
    })?;
    Ok(Script { items })
}

/// `f() { a; }`
fn function(alloc: Global, text: &[u8], body: Script) -> Result<Command, Memory> {
    let body = command(alloc, CommandKind::Group(body));
    Ok(command(
        alloc,
        CommandKind::Function(Function {
            name: name(alloc, text)?,
            body: Boxed::new(alloc, body)?,
        }),
    ))
}

/// `$(a)`, as a command.
fn substituted(alloc: Global, inside: Script) -> Result<Command, Memory> {
    let mut words = List::new(alloc);
    words.push(word(one(alloc, part(PartKind::Subst(inside)))?))?;
    Ok(command(
        alloc,
        CommandKind::Simple {
            assigns: List::new(alloc),
            words,
        },
    ))
}

#[test]
fn functions_are_found_inside(rt: HostRuntime) -> Result<(), Fail> {
    let alloc = rt.alloc();
    let empty = Script {
        items: List::new(alloc),
    };
    let inner = script(alloc, function(alloc, b"g", empty)?)?;
    let body = script(alloc, substituted(alloc, inner)?)?;
    let whole = script(alloc, function(alloc, b"f", body)?)?;
    let names = functions_of(alloc, &whole)?;
    let mut shown = Text::new(alloc);
    for name in names.as_slice() {
        shown.append(name.bytes())?;
        shown.append(b" ")?;
    }
    assert!(rt; shown.bytes() == b"f g ".as_slice());
    Ok(())
}
