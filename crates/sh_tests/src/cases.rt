//! Built-ins that tests run, each in a setting, and what is shown of it.

use sh_builtins::{Environment, Flow, Form, Place, Stop, run_builtin, start_variables};
use sh_meaning::Variable;
use sh_syntax::{Name, Param, ParamOp, Part, PartKind, Word};
use shell_world::{Bounds, End, Fds, Latitude, Outside, TextMap, World, copy_texts};
use span_text::{List, Memory, Span, Text};
use std::alloc::Global;

/// A word as it is written, and the field that it gives.
#[derive(Clone, Copy)]
pub enum W<'w> {
    /// `a`
    Plain(&'w str),
    /// `"a"`
    Quoted(&'w str),
    /// `$v`, which gives this text.
    Value(&'w str),
    /// `"$v"`, which gives this text.
    QuotedValue(&'w str),
    /// `a$v`
    PlainValue(&'w str, &'w str),
    /// `a"$v"`
    PlainQuotedValue(&'w str, &'w str),
    /// `$v`, which gives no field.
    Gone,
}

/// What is shown.
#[derive(Clone, Copy)]
pub enum Show {
    /// How it ends and its status.
    End,
    Params,
    /// Those but IFS, with `!` behind the exported ones.
    Variables,
    Output,
}

/// Where a built-in runs.
#[derive(Clone, Copy)]
pub struct Setting<'s> {
    pub loops: u64,
    pub in_function: bool,
    pub stdin: &'s str,
    pub output: Output,
}

/// Whether standard output is open.
#[derive(Clone, Copy)]
pub enum Output {
    Open,
    Closed,
}

/// Outside of loops and functions.
pub const TOP: Setting<'static> = Setting {
    loops: 0,
    in_function: false,
    stdin: "",
    output: Output::Open,
};

/// In two loops of a function.
pub const INSIDE: Setting<'static> = Setting {
    loops: 2,
    in_function: true,
    stdin: "",
    output: Output::Open,
};

/// With this standard input.
pub fn given(stdin: &str) -> Setting<'_> {
    Setting {
        loops: 0,
        in_function: false,
        stdin,
        output: Output::Open,
    }
}

const NOWHERE: Span = Span { from: 0, to: 0 };

fn text(alloc: Global, bytes: &str) -> Result<Text, Memory> {
    Text::copy(alloc, bytes.as_bytes())
}

fn texts(alloc: Global, all: &[&str]) -> Result<List<Text>, Memory> {
    let mut list = List::new(alloc);
    for one in all {
        list.push(text(alloc, one)?)?;
    }
    Ok(list)
}

fn pair(alloc: Global, key: &str, value: &str) -> Result<(Text, Text), Memory> {
    Ok((text(alloc, key)?, text(alloc, value)?))
}

/// Parameters `a` and `b`, the variable x, the files `d/f` and `e`.
fn world_of(alloc: Global, stdin: &str) -> Result<World, Memory> {
    let mut env = List::new(alloc);
    env.push(pair(alloc, "x", "1")?)?;
    let mut files = List::new(alloc);
    files.push(pair(alloc, "d/f", "abc")?)?;
    files.push(pair(alloc, "e", "")?)?;
    Ok(World {
        args: texts(alloc, &["sh", "a", "b"])?,
        env,
        files,
        rows: List::new(alloc),
        stdin: text(alloc, stdin)?,
        bounds: Bounds { turns: 9, depth: 9 },
        latitude: Latitude {
            last_current: false,
            redirect: 1,
        },
    })
}

fn part(kind: PartKind) -> Part {
    Part {
        kind,
        span: NOWHERE,
    }
}

fn plain(alloc: Global, bytes: &str) -> Result<Part, Memory> {
    Ok(part(PartKind::Plain(text(alloc, bytes)?)))
}

fn value(alloc: Global) -> Result<Part, Memory> {
    let name = Name {
        text: text(alloc, "v")?,
        span: NOWHERE,
    };
    Ok(part(PartKind::Param {
        param: Param::Name(name),
        op: ParamOp::Plain,
    }))
}

fn quoted(alloc: Global, inner: Part) -> Result<Part, Memory> {
    let mut parts = List::new(alloc);
    parts.push(inner)?;
    Ok(part(PartKind::Double(parts)))
}

fn parts_of(alloc: Global, word: W<'_>) -> Result<List<Part>, Memory> {
    let mut parts = List::new(alloc);
    match word {
        W::Plain(bytes) => parts.push(plain(alloc, bytes)?)?,
        W::Quoted(bytes) => parts.push(quoted(alloc, plain(alloc, bytes)?)?)?,
        W::Value(_) | W::Gone => parts.push(value(alloc)?)?,
        W::QuotedValue(_) => parts.push(quoted(alloc, value(alloc)?)?)?,
        W::PlainValue(front, _) => {
            parts.push(plain(alloc, front)?)?;
            parts.push(value(alloc)?)?;
        }
        W::PlainQuotedValue(front, _) => {
            parts.push(plain(alloc, front)?)?;
            parts.push(quoted(alloc, value(alloc)?)?)?;
        }
    }
    Ok(parts)
}

fn words_of(alloc: Global, words: &[W<'_>]) -> Result<List<Word>, Memory> {
    let mut list = List::new(alloc);
    for word in words {
        list.push(Word {
            parts: parts_of(alloc, *word)?,
            span: NOWHERE,
        })?;
    }
    Ok(list)
}

fn field_of(alloc: Global, word: W<'_>) -> Result<Option<Text>, Memory> {
    match word {
        W::Plain(bytes) | W::Quoted(bytes) | W::Value(bytes) | W::QuotedValue(bytes) => {
            Ok(Some(text(alloc, bytes)?))
        }
        W::PlainValue(front, bytes) | W::PlainQuotedValue(front, bytes) => {
            let mut field = text(alloc, front)?;
            field.append(bytes.as_bytes())?;
            Ok(Some(field))
        }
        W::Gone => Ok(None),
    }
}

fn fields_of(alloc: Global, words: &[W<'_>]) -> Result<List<Text>, Memory> {
    let mut list = List::new(alloc);
    for word in words {
        if let Some(field) = field_of(alloc, *word)? {
            list.push(field)?;
        }
    }
    Ok(list)
}

fn show_number(n: u8, shown: &mut Text) -> Result<(), Memory> {
    if n >= 100 {
        shown.append([b'0' + n / 100].as_slice())?;
    }
    if n >= 10 {
        shown.append([b'0' + n / 10 % 10].as_slice())?;
    }
    shown.append([b'0' + n % 10].as_slice())
}

fn show_flow(flow: Flow, shown: &mut Text) -> Result<(), Memory> {
    match flow {
        Flow::Normal => shown.append(b"next"),
        Flow::Breaks(more) => {
            shown.append(b"break+")?;
            show_number(more.min(9) as u8, shown)
        }
        Flow::Continues(more) => {
            shown.append(b"continue+")?;
            show_number(more.min(9) as u8, shown)
        }
        Flow::Returns => shown.append(b"return"),
        Flow::Exits => shown.append(b"exit"),
    }
}

fn show_params(params: &List<Text>, shown: &mut Text) -> Result<(), Memory> {
    for param in params.as_slice() {
        shown.append(param.bytes())?;
        shown.append(b",")?;
    }
    Ok(())
}

fn show_variable(name: &Text, variable: &Variable, shown: &mut Text) -> Result<(), Memory> {
    if name.bytes() == b"IFS".as_slice() {
        return Ok(());
    }
    shown.append(name.bytes())?;
    if let Some(value) = &variable.value {
        shown.append(b"=")?;
        shown.append(value.bytes())?;
    }
    shown.append(if variable.exported { b"!," } else { b"," })
}

fn show_variables(vars: &TextMap<Variable>, shown: &mut Text) -> Result<(), Memory> {
    for entry in vars.entries() {
        show_variable(&entry.0, &entry.1, shown)?;
    }
    Ok(())
}

fn show_end(
    flow: Flow,
    env: &Environment,
    outside: Outside<'_>,
    show: Show,
    shown: &mut Text,
) -> Result<(), Memory> {
    match show {
        Show::End => {
            show_flow(flow, shown)?;
            shown.append(b" ")?;
            show_number(env.status, shown)
        }
        Show::Params => show_params(&env.params, shown),
        Show::Variables => show_variables(&env.vars, shown),
        Show::Output => shown.append(outside.finish(End::Ended(0), 0).out.bytes()),
    }
}

fn environment_of(alloc: Global, world: &World, fds: Fds) -> Result<Environment, Memory> {
    Ok(Environment {
        vars: start_variables(alloc, world.env.as_slice())?,
        params: copy_texts(alloc, &world.args)?,
        status: 7,
        fds,
    })
}

/// What a built-in shows whose words are these, its name first. The script has a function f, and p is assigned before the
/// command. The status before is 7.
pub fn shown(
    alloc: Global,
    setting: Setting<'_>,
    words: &[W<'_>],
    show: Show,
) -> Result<Text, Memory> {
    let world = world_of(alloc, setting.stdin)?;
    let (mut outside, mut fds) = Outside::start(alloc, &world)?;
    if let Output::Closed = setting.output {
        fds.set(1, None);
    }
    let mut env = environment_of(alloc, &world, fds)?;
    let functions = texts(alloc, &["f"])?;
    let prefix = texts(alloc, &["p"])?;
    let written = words_of(alloc, words)?;
    let form = Form {
        functions: functions.as_slice(),
        prefix: prefix.as_slice(),
        words: written.as_slice(),
    };
    let place = Place {
        loops: setting.loops,
        in_function: setting.in_function,
    };
    let fields = fields_of(alloc, words)?;
    let mut shown = Text::new(alloc);
    if let [name, args @ ..] = fields.as_slice() {
        match run_builtin(
            alloc,
            place,
            &form,
            name.bytes(),
            args,
            &mut env,
            &mut outside,
        ) {
            Ok(flow) => show_end(flow, &env, outside, show, &mut shown)?,
            Err(Stop::Unspecified) => shown.append(b"unspecified")?,
            Err(Stop::Memory) => return Err(Memory {}),
        }
    }
    Ok(shown)
}
