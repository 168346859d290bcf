//! `printf` and `echo` (POSIX XCU printf, echo).

ghost use Rattle.std.specs.Prelude.{◌≡◌, ◌++◌, ◌∷◌, [], IfOk, Some};
ghost use Rattle.std.specs.List.{list_any, join_by};
ghost use Rattle.fmt_print.specs.Printing.{formatted as format_answer};
ghost use Rattle.sh_meaning.specs.builtins.Printing as printing;
ghost use Rattle.sh_builtins.specs.Views.{Keeps, Leaves, state_of, Outputs};

use crate::environment::Environment;
use crate::flow::{Flow, Stop};
use crate::names::is_word;
use field_split::join;
use fmt_print::{FmtFault, format};
use shell_world::Outside;
use span_text::{List, Memory, Text};
use std::alloc::Global;

/// Writes a text to standard output. The status is 1 where that can't be done.
fn print(text: &[u8], env: &mut Environment, outside: &mut Outside) -> Result<Flow, Stop>
    ensures table { outside.new.rows ≡ outside.old.rows }
    ensures leaves { Leaves (printing.prints text.now (state_of env.old outside.old)) env.new outside.new result }
    ensures kept { Keeps outside.old outside.new result }
{
    let done = outside.write(env.fds.get(1), text)?;
    env.status = if done { 0 } else { 1 };
    Ok(Flow::Normal)
}

/// Whether a conversion stands in a format: a `%` that no other `%` follows.
fn has_conversion(format: &[u8]) -> bool
    ensures { result ≡ printing.has_conversion format.now }
{
    let mut rest = format;
    'bytes: loop {
        match rest {
            [] => return false,
            [b'%', b'%', more @ ..] => rest = more,
            [b'%', ..] => return true,
            [_, more @ ..] => rest = more,
        }
    }
}

fn ignores(format: &[u8], args: &[Text]) -> bool
    ensures { result ≡ printing.ignores format.now args.now }
{
    !args.is_empty() && !has_conversion(format)
}

/// A list of copies.
fn copies(alloc: Global, texts: &[Text]) -> Result<List<Text>, Memory>
    ensures { IfOk result (λ l. l ≡ texts.now) }
{
    let mut list = List::new(alloc);
    for text in texts {
        list.push(Text::copy(alloc, text.bytes())?)?;
    }
    Ok(list)
}

fn formatted(alloc: Global, template: &[u8], args: &List<Text>) -> Result<Text, Stop>
    ensures { Outputs (printing.text_of_printed (format_answer template.now args.now)) result }
{
    match format(alloc, template, args) {
        Ok(printed) => Ok(printed.text),
        Err(FmtFault::Memory) => Err(Stop::Memory),
        Err(_) => Err(Stop::Unspecified),
    }
}

/// What `printf` prints of a format and its arguments.
fn printf_text(alloc: Global, template: &[u8], args: &[Text]) -> Result<Text, Stop>
    ensures { Outputs (printing.printf_text template.now args.now) result }
{
    if ignores(template, args) {
        return Err(Stop::Unspecified);
    }
    let args = copies(alloc, args)?;
    formatted(alloc, template, &args)
}

fn printf_behind(alloc: Global, args: &[Text]) -> Result<Text, Stop>
    ensures { Outputs (printing.printf_behind args.now) result }
{
    match args {
        [] => Err(Stop::Unspecified),
        [template, more @ ..] => printf_text(alloc, template.bytes(), more),
    }
}

fn printf_output(alloc: Global, args: &[Text]) -> Result<Text, Stop>
    ensures { Outputs (printing.printf_output args.now) result }
{
    match args {
        [] => Err(Stop::Unspecified),
        [first, more @ ..] => {
            if is_word(b"--", first.bytes()) {
                printf_behind(alloc, more)
            } else {
                printf_text(alloc, first.bytes(), more)
            }
        }
    }
}

/// `printf format words`, `printf -- format words`. It is unspecified without a format, with one that shells don't agree
/// on, with an argument that its conversion doesn't take, and with arguments where the format has no conversion.
pub fn printf(
    alloc: Global,
    args: &[Text],
    env: &mut Environment,
    outside: &mut Outside,
) -> Result<Flow, Stop>
    ensures table { outside.new.rows ≡ outside.old.rows }
    ensures leaves { Leaves (printing.printf_run args.now (state_of env.old outside.old)) env.new outside.new result }
    ensures kept { Keeps outside.old outside.new result }
{
    let text = printf_output(alloc, args)?;
    print(text.bytes(), env, outside)
}

fn begins_dash(args: &[Text]) -> bool
    ensures { result ≡ printing.begins_dash args.now }
{
    match args {
        [] => false,
        [first, ..] => is_dashed(first.bytes()),
    }
}

fn is_dashed(text: &[u8]) -> bool
    ensures { result ≡ printing.is_dashed text.now }
{
    match text {
        [] => false,
        [b, ..] => *b == b'-',
    }
}

fn has_backslash(text: &[u8]) -> bool
    ensures { result ≡ printing.has_backslash text.now }
{
    text.iter().any(|b| *b == b'\\')
}

fn have_backslash(args: &[Text]) -> bool
    ensures { result ≡ list_any printing.has_backslash args.now }
{
    args.iter().any(|text| has_backslash(text.bytes()))
}

fn echo_line(alloc: Global, args: &[Text]) -> Result<Text, Memory>
    ensures { IfOk result (λ t. t ≡ join_by (λ t. t) (32 ∷ []) args.now ++ 10 ∷ []) }
{
    let words = copies(alloc, args)?;
    let mut line = join(alloc, &words, Some(b" "))?;
    line.append(b"\n")?;
    Ok(line)
}

fn echo_output(alloc: Global, args: &[Text]) -> Result<Text, Stop>
    ensures { Outputs (printing.echo_output args.now) result }
{
    if begins_dash(args) || have_backslash(args) {
        return Err(Stop::Unspecified);
    }
    Ok(echo_line(alloc, args)?)
}

/// `echo words`: the words with a space between them, and a newline. It is unspecified where the first one begins with
/// `-`, and where one has a backslash.
pub fn echo(
    alloc: Global,
    args: &[Text],
    env: &mut Environment,
    outside: &mut Outside,
) -> Result<Flow, Stop>
    ensures table { outside.new.rows ≡ outside.old.rows }
    ensures leaves { Leaves (printing.echo_run args.now (state_of env.old outside.old)) env.new outside.new result }
    ensures kept { Keeps outside.old outside.new result }
{
    let text = echo_output(alloc, args)?;
    print(text.bytes(), env, outside)
}
