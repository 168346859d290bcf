//! `read` (POSIX XCU read).

ghost use Rattle.std.specs.Prelude.{◌≡◌, ◌++◌, ◌∷◌, [], ◌<◌, drop, length, not, ◌&&◌, true, false, IfOk, IsTrue, OnOk, codes};
ghost use Rattle.std.specs.List.{list_all};
ghost use Rattle.std.specs.Option.{option_copied};
ghost use Rattle.shell_world.specs.Running.{index_of};
ghost use Rattle.sh_meaning.specs.builtins.Reading as reading;
ghost use Rattle.sh_builtins.specs.Views.{Keeps, Leaves, state_of, form_of, is_raw, words_before};
ghost use Rattle.sh_builtins.specs.Lines.{Takes, quotes_behind, input_at, taken_at};

use crate::environment::Environment;
use crate::flow::{Flow, Stop};
use crate::form::{Form, are_written};
use crate::names::is_word;
use crate::variables::{assign, is_among, value_at};
use field_split::read_fields;
use sh_meaning::Variable;
use shell_world::{Desc, Line, Outside, TextMap};
use span_text::{List, Memory, Text, is_name};
use std::alloc::Global;

/// How backslashes are taken.
#[derive(Clone, Copy, Debug, PartialEq, Eq)]
enum Backslashes {
    /// `read`: each quotes the next byte.
    Quote,
    /// `read -r`: they stand for themselves.
    Stand,
}

/// What a line that was read is of the line that `read` takes.
#[derive(Clone, Copy, Debug, PartialEq, Eq)]
enum Part {
    /// A quoted newline joins the next one to it.
    Joined,
    /// Its end, behind which a newline stood or none.
    Last(bool),
}

/// Whether a backslash quotes the byte behind a text.
fn quotes_behind(text: &[u8]) -> bool
    ensures { result ≡ quotes_behind false text.now }
{
    let mut quoted = false;
    for b in text {
        if *b != 0 {
            quoted = !quoted && *b == b'\\';
        }
    }
    quoted
}

/// Puts the next line behind the text, with its newline where that is quoted.
fn take_part(text: &mut Text, outside: &mut Outside, from: Option<Desc>) -> Result<Part, Memory>
    ensures takes { IfOk result (λ part. Takes (index_of from) text.old text.new outside.old.outside outside.new.outside part) }
    ensures rest { OnOk result (outside.new ≡ record outside.old { outside = outside.new.outside }) }
    ensures table { outside.new.rows ≡ outside.old.rows }
{
    let line = outside.read_line(from)?;
    text.append(line.text.bytes())?;
    if line.ended && quotes_behind(line.text.bytes()) {
        text.append(b"\n")?;
        Ok(Part::Joined)
    } else {
        Ok(Part::Last(line.ended))
    }
}

/// A line, to which a quoted newline joins the next one.
fn joined_line(alloc: Global, outside: &mut Outside, from: Option<Desc>) -> Result<Line, Memory>
    ensures line { IfOk result (λ line. line ≡ reading.line_read false (input_at (index_of from) outside.old.outside)) }
    ensures new { OnOk result (outside.new ≡ record outside.old { outside = taken_at false (index_of from) outside.old.outside }) }
    ensures table { outside.new.rows ≡ outside.old.rows }
{
    let mut text = Text::new(alloc);
    'parts: loop {
        match take_part(&mut text, outside, from)? {
            Part::Joined => {}
            Part::Last(ended) => return Ok(Line { text, ended }),
        }
    }
}

fn take_line(
    alloc: Global,
    backslashes: Backslashes,
    outside: &mut Outside,
    from: Option<Desc>,
) -> Result<Line, Memory>
    ensures line { IfOk result (λ line. line ≡ reading.line_read (is_raw backslashes) (input_at (index_of from) outside.old.outside)) }
    ensures new { OnOk result (outside.new ≡ record outside.old { outside = taken_at (is_raw backslashes) (index_of from) outside.old.outside }) }
    ensures table { outside.new.rows ≡ outside.old.rows }
{
    match backslashes {
        Backslashes::Stand => outside.read_line(from),
        Backslashes::Quote => joined_line(alloc, outside, from),
    }
}

fn texts_behind(texts: &[Text], behind: usize) -> &[Text]
    ensures { result.now ≡ drop behind texts.now }
{
    if behind < texts.len() {
        &texts[behind..]
    } else {
        &[]
    }
}

/// Gives a variable the first of the texts.
fn assign_next(
    alloc: Global,
    name: &[u8],
    texts: &[Text],
    vars: &mut TextMap<Variable>,
) -> Result<(), Memory>
    ensures { OnOk result (vars.new ≡ reading.assign_next name.now texts.now vars.old) }
{
    match texts {
        [] => Ok(()),
        [text, ..] => assign(
            vars,
            Text::copy(alloc, name)?,
            Text::copy(alloc, text.bytes())?,
        ),
    }
}

/// Gives each name the text at its place.

fn assign_all(
    alloc: Global,
    names: &[Text],
    texts: &[Text],
    vars: &mut TextMap<Variable>,
) -> Result<(), Memory>
    ensures { OnOk result (vars.new ≡ reading.assign_all names.now texts.now vars.old) }
{
    for (at, name) in names.iter().enumerate() {
        assign_next(alloc, name.bytes(), texts_behind(texts, at), vars)?;
    }
    Ok(())
}

fn is_raw(backslashes: Backslashes) -> bool
    ensures { result ≡ is_raw backslashes }
{
    match backslashes {
        Backslashes::Stand => true,
        Backslashes::Quote => false,
    }
}

/// The fields of a line for so many names.
fn texts_read(
    alloc: Global,
    backslashes: Backslashes,
    count: usize,
    line: &[u8],
    vars: &TextMap<Variable>,
) -> Result<List<Text>, Memory>
    requires { 0 < count }
    ensures { IfOk result (λ texts. texts ≡ reading.texts_read (is_raw backslashes) count line.now vars.now) }
{
    read_fields(
        alloc,
        line,
        value_at(vars, b"IFS"),
        is_raw(backslashes),
        count,
    )
}

/// Reads a line, and gives each name its field.
fn read_line_to(
    alloc: Global,
    backslashes: Backslashes,
    names: &[Text],
    env: &mut Environment,
    outside: &mut Outside,
) -> Result<Flow, Stop>
    requires { 0 < length names.now }
    ensures table { outside.new.rows ≡ outside.old.rows }
    ensures leaves { Leaves (reading.reads (is_raw backslashes) names.now (state_of env.old outside.old)) env.new outside.new result }
    ensures kept { Keeps outside.old outside.new result }
{
    let line = take_line(alloc, backslashes, outside, env.fds.get(0))?;
    let texts = texts_read(
        alloc,
        backslashes,
        names.len(),
        line.text.bytes(),
        &env.vars,
    )?;
    assign_all(alloc, names, texts.as_slice(), &mut env.vars)?;
    env.status = if line.ended { 0 } else { 1 };
    Ok(Flow::Normal)
}

fn is_read_name(form: &Form, name: &[u8]) -> bool
    ensures { result ≡ reading.is_read_name (form_of form.now) name.now }
{
    is_name(name) && !is_among(form.prefix, name)
}

fn are_read_names(form: &Form, names: &[Text]) -> bool
    ensures { result ≡ list_all (reading.is_read_name (form_of form.now)) names.now }
{
    names.iter().all(|name| is_read_name(form, name.bytes()))
}

fn can_read(behind: usize, form: &Form, names: &[Text]) -> bool
    ensures is { result ≡ reading.can_read behind (form_of form.now) names.now }
    ensures some { IsTrue result → 0 < length names.now }
{
    !names.is_empty() && are_read_names(form, names) && are_written(form.words, behind, names.len())
}

/// `read name ..`, `read -r name ..`: a line of standard input, of which each name gets a field. The status is 1 where no
/// newline ends it. Without names, with a word that is no literal name, and with a name that a prefix assigns it is
/// unspecified.
pub fn read(
    alloc: Global,
    form: &Form,
    args: &[Text],
    env: &mut Environment,
    outside: &mut Outside,
) -> Result<Flow, Stop>
    ensures table { outside.new.rows ≡ outside.old.rows }
    ensures leaves { Leaves (reading.read_run (form_of form.now) args.now (state_of env.old outside.old)) env.new outside.new result }
    ensures kept { Keeps outside.old outside.new result }
{
    match args {
        [] => Err(Stop::Unspecified),
        [first, more @ ..] => {
            if is_word(b"-r", first.bytes()) {
                read_names(alloc, Backslashes::Stand, form, more, env, outside)
            } else {
                read_names(alloc, Backslashes::Quote, form, args, env, outside)
            }
        }
    }
}

/// The names stand behind the option.
fn words_before(backslashes: Backslashes) -> usize
    ensures { result ≡ words_before backslashes }
{
    match backslashes {
        Backslashes::Stand => 2,
        Backslashes::Quote => 1,
    }
}

fn read_names(
    alloc: Global,
    backslashes: Backslashes,
    form: &Form,
    names: &[Text],
    env: &mut Environment,
    outside: &mut Outside,
) -> Result<Flow, Stop>
    ensures table { outside.new.rows ≡ outside.old.rows }
    ensures leaves { Leaves (reading.read_names (words_before backslashes) (is_raw backslashes) (form_of form.now) names.now (state_of env.old outside.old)) env.new outside.new result }
    ensures kept { Keeps outside.old outside.new result }
{
    if can_read(words_before(backslashes), form, names) {
        read_line_to(alloc, backslashes, names, env, outside)
    } else {
        Err(Stop::Unspecified)
    }
}
