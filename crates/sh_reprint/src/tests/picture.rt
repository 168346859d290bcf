use sh_syntax::*;
use span_text::{List, Memory, Text};

fn param(param: &Param, out: &mut Text) -> Result<(), Memory> {
    match param {
        Param::Name(name) => out.append(name.text.bytes()),
        Param::Digits(text) => out.append(text.bytes()),
        Param::Count => out.append(b"#"),
        Param::Status => out.append(b"?"),
        Param::At => out.append(b"@"),
        Param::Star => out.append(b"*"),
    }
}

fn test_of(test: FillTest, colon: bool) -> &'static [u8] {
    match (test, colon) {
        (FillTest::Default, false) => b"-",
        (FillTest::Default, true) => b":-",
        (FillTest::Assign, false) => b"=",
        (FillTest::Assign, true) => b":=",
        (FillTest::Alternate, false) => b"+",
        (FillTest::Alternate, true) => b":+",
    }
}

fn trim_of(suffix: bool, longest: bool) -> &'static [u8] {
    match (suffix, longest) {
        (false, false) => b"#",
        (false, true) => b"##",
        (true, false) => b"%",
        (true, true) => b"%%",
    }
}

/// What stands in front of a parameter.
fn operator(op: &ParamOp, out: &mut Text) -> Result<(), Memory> {
    match op {
        ParamOp::Plain => {},
        ParamOp::Length => out.append(b"#")?,
        ParamOp::Fill {
            test,
            colon,
            word: _,
        } => out.append(test_of(*test, *colon))?,
        ParamOp::Trim {
            suffix,
            longest,
            pattern: _,
        } => out.append(trim_of(*suffix, *longest))?,
    }
    out.append(b" ")
}

#[cycle(picture)]
fn expansion(name: &Param, op: &ParamOp, out: &mut Text) -> Result<(), Memory> {
    out.append(b"($")?;
    operator(op, out)?;
    param(name, out)?;
    match op {
        ParamOp::Plain => {},
        ParamOp::Length => {},
        ParamOp::Fill {
            test: _,
            colon: _,
            word: filled,
        } => behind_blank(filled, out)?,
        ParamOp::Trim {
            suffix: _,
            longest: _,
            pattern,
        } => behind_blank(pattern, out)?,
    }
    out.append(b")")
}

#[cycle(picture)]
fn part(part: &Part, out: &mut Text) -> Result<(), Memory> {
    match &part.kind {
        PartKind::Plain(text) => out.append(text.bytes()),
        PartKind::Exact(text) => {
            out.append(b"'")?;
            out.append(text.bytes())?;
            out.append(b"'")
        },
        PartKind::Double(inner) => {
            out.append(b"(\"")?;
            for one in inner.as_slice() {
                out.append(b" ")?;
                part_of(one, out)?;
            }
            out.append(b")")
        },
        PartKind::Tilde => out.append(b"(~)"),
        PartKind::Param { param, op } => expansion(param, op, out),
        PartKind::Subst(script) => {
            out.append(b"(sub ")?;
            picture_of(script, out)?;
            out.append(b")")
        },
        PartKind::Arith(sum) => {
            out.append(b"(sum")?;
            words(&sum.operands, out)?;
            out.append(b")")
        },
    }
}

#[cycle(picture)]
fn part_of(one: &Part, out: &mut Text) -> Result<(), Memory> {
    part(one, out)
}

#[cycle(picture)]
fn word(word: &Word, out: &mut Text) -> Result<(), Memory> {
    if word.parts.len() == 0 {
        return out.append(b"()");
    }
    let mut first = true;
    for one in word.parts.as_slice() {
        if !first {
            out.append(b".")?;
        }
        first = false;
        part_of(one, out)?;
    }
    Ok(())
}

#[cycle(picture)]
fn behind_blank(one: &Word, out: &mut Text) -> Result<(), Memory> {
    out.append(b" ")?;
    word(one, out)
}

#[cycle(picture)]
fn words(all: &List<Word>, out: &mut Text) -> Result<(), Memory> {
    for one in all.as_slice() {
        behind_blank(one, out)?;
    }
    Ok(())
}

fn op_of(op: RedirectOp) -> &'static [u8] {
    match op {
        RedirectOp::Read => b"<",
        RedirectOp::Write => b">",
        RedirectOp::Append => b">>",
        RedirectOp::HereLiteral => b"<<'",
        RedirectOp::HereExpanded => b"<<",
        RedirectOp::CopyIn => b"<&",
        RedirectOp::CopyOut => b">&",
    }
}

#[cycle(picture)]
fn redirect(redirect: &Redirect, out: &mut Text) -> Result<(), Memory> {
    out.append(b" (")?;
    if let Some(fd) = redirect.fd {
        out.append(&[b'0' + fd % 10])?;
    }
    out.append(op_of(redirect.op))?;
    out.append(b" ")?;
    word(&redirect.word, out)?;
    out.append(b")")
}

#[cycle(picture)]
fn assign(assign: &Assign, out: &mut Text) -> Result<(), Memory> {
    out.append(b" (= ")?;
    out.append(assign.name.text.bytes())?;
    match &assign.value {
        AssignValue::Word(None) => {},
        AssignValue::Word(Some(value)) => behind_blank(value, out)?,
    }
    out.append(b")")
}

#[cycle(picture)]
fn in_brackets(script: &Script, out: &mut Text) -> Result<(), Memory> {
    out.append(b" [")?;
    picture_of(script, out)?;
    out.append(b"]")
}

#[cycle(picture)]
fn branches(parts: &List<(Script, Script)>, out: &mut Text) -> Result<(), Memory> {
    for (test, body) in parts.as_slice() {
        in_brackets(test, out)?;
        in_brackets(body, out)?;
    }
    Ok(())
}

fn loop_word(until: bool) -> &'static [u8] {
    if until { b"(until" } else { b"(while" }
}

#[cycle(picture)]
fn kind(kind: &CommandKind, out: &mut Text) -> Result<(), Memory> {
    match kind {
        CommandKind::Simple {
            assigns,
            words: all,
        } => {
            out.append(b"(do")?;
            for one in assigns.as_slice() {
                assign(one, out)?;
            }
            words(all, out)
        },
        CommandKind::Group(script) => {
            out.append(b"(group ")?;
            picture_of(script, out)
        },
        CommandKind::Subshell(script) => {
            out.append(b"(shell ")?;
            picture_of(script, out)
        },
        CommandKind::If { parts, otherwise } => {
            out.append(b"(if")?;
            branches(parts, out)?;
            if let Some(script) = otherwise {
                out.append(b" else")?;
                in_brackets(script, out)?;
            }
            Ok(())
        },
        other => rarer_kind(other, out),
    }
}

#[cycle(picture)]
fn rarer_kind(kind: &CommandKind, out: &mut Text) -> Result<(), Memory> {
    match kind {
        CommandKind::Loop { until, test, body } => {
            out.append(loop_word(*until))?;
            in_brackets(test, out)?;
            in_brackets(body, out)
        },
        CommandKind::For {
            name,
            words: list,
            body,
        } => {
            out.append(b"(for ")?;
            out.append(name.text.bytes())?;
            if let Some(all) = list {
                out.append(b" in")?;
                words(all, out)?;
            }
            in_brackets(body, out)
        },
        CommandKind::Case { subject, items } => {
            out.append(b"(case ")?;
            word(subject, out)?;
            for one in items.as_slice() {
                item(one, out)?;
            }
            Ok(())
        },
        CommandKind::Function(function) => {
            out.append(b"(fn ")?;
            out.append(function.name.text.bytes())?;
            out.append(b" ")?;
            command(function.body.get(), out)
        },
        _ => Ok(()),
    }
}

#[cycle(picture)]
fn item(item: &CaseItem, out: &mut Text) -> Result<(), Memory> {
    out.append(b" (")?;
    let mut first = true;
    for pattern in item.patterns.as_slice() {
        if !first {
            out.append(b"|")?;
        }
        first = false;
        word(pattern, out)?;
    }
    in_brackets(&item.body, out)?;
    out.append(b")")
}

#[cycle(picture)]
fn command(command: &Command, out: &mut Text) -> Result<(), Memory> {
    kind(&command.kind, out)?;
    for one in command.redirects.as_slice() {
        redirect(one, out)?;
    }
    out.append(b")")
}

#[cycle(picture)]
fn pipeline(pipeline: &Pipeline, out: &mut Text) -> Result<(), Memory> {
    if pipeline.negated {
        out.append(b"! ")?;
    }
    let mut first = true;
    for stage in pipeline.stages.as_slice() {
        if !first {
            out.append(b" | ")?;
        }
        first = false;
        command(stage, out)?;
    }
    Ok(())
}

#[cycle(picture)]
fn chain(chain: &AndOr, out: &mut Text) -> Result<(), Memory> {
    pipeline(&chain.first, out)?;
    for (joint, one) in chain.rest.as_slice() {
        out.append(match joint {
            Joint::And => b" && ",
            Joint::Or => b" || ",
        })?;
        pipeline(one, out)?;
    }
    Ok(())
}

/// A script as bytes, in which each node but pipelines has brackets: parts of a word stand between dots, quoted bytes
/// between single quotes.
#[cycle(picture)]
pub fn picture_of(script: &Script, out: &mut Text) -> Result<(), Memory> {
    let mut first = true;
    for item in script.items.as_slice() {
        if !first {
            out.append(b" ; ")?;
        }
        first = false;
        chain(&item.chain, out)?;
    }
    Ok(())
}
