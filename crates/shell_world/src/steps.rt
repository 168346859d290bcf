//! What tests do with an outside, step by step, and what it shows.

use crate::copies::copy_texts;
use crate::tests::{text, texts, world_of};
use crate::{Desc, End, Fds, Line, OpenFault, Outside};
use span_text::{List, Memory, Text};
use std::alloc::Global;

/// A step, on a descriptor below 10 where it has one.
#[derive(Clone, Copy)]
pub enum Step<'s> {
    /// `n< path`
    Read(u8, &'s str),
    /// `n> path`
    Write(u8, &'s str),
    /// `n>> path`
    Append(u8, &'s str),
    /// A here-document.
    Given(u8, &'s str),
    Buffer(u8),
    /// `n>&m`
    Duplicate(u8, u8),
    /// `n>&-`
    Close(u8),
    Put(u8, &'s str),
    Line(u8),
    Take(u8),
    Call(&'s str),
}

fn slot(fds: &Fds, n: u8) -> Option<Desc> {
    fds.get(n.min(9))
}

fn set(fds: &mut Fds, n: u8, to: Option<Desc>) {
    fds.set(n.min(9), to);
}

fn fault_word(fault: OpenFault) -> &'static [u8] {
    match fault {
        OpenFault::Memory => b"Memory ",
        OpenFault::NoPath => b"NoPath ",
        OpenFault::IsFolder => b"IsFolder ",
        OpenFault::NoFile => b"NoFile ",
        OpenFault::UnderFile => b"UnderFile ",
    }
}

/// Opens a descriptor, or shows why nothing is opened.
fn opened(
    fds: &mut Fds,
    n: u8,
    answer: Result<Desc, OpenFault>,
    shown: &mut Text,
) -> Result<(), Memory> {
    match answer {
        Ok(desc) => {
            set(fds, n, Some(desc));
            Ok(())
        }
        Err(fault) => shown.append(fault_word(fault)),
    }
}

fn open_text(
    alloc: Global,
    outside: &mut Outside<'_>,
    fds: &mut Fds,
    n: u8,
    bytes: &str,
) -> Result<(), Memory> {
    let desc = outside.open_text(text(alloc, bytes)?)?;
    set(fds, n, Some(desc));
    Ok(())
}

fn open_buffer(outside: &mut Outside<'_>, fds: &mut Fds, n: u8) -> Result<(), Memory> {
    let desc = outside.open_buffer()?;
    set(fds, n, Some(desc));
    Ok(())
}

/// Shows `closed` where the bytes can't be written.
fn put(
    outside: &mut Outside<'_>,
    to: Option<Desc>,
    bytes: &[u8],
    shown: &mut Text,
) -> Result<(), Memory> {
    if outside.write(to, bytes)? {
        Ok(())
    } else {
        shown.append(b"closed ")
    }
}

/// Shows a line with `+` behind it, or with `-` where no newline ended it.
fn show_line(line: &Line, shown: &mut Text) -> Result<(), Memory> {
    shown.append(line.text.bytes())?;
    shown.append(if line.ended { b"+ " } else { b"- " })
}

fn take_line(
    outside: &mut Outside<'_>,
    from: Option<Desc>,
    shown: &mut Text,
) -> Result<(), Memory> {
    let line = outside.read_line(from)?;
    show_line(&line, shown)
}

fn take_buffer(
    outside: &mut Outside<'_>,
    from: Option<Desc>,
    shown: &mut Text,
) -> Result<(), Memory> {
    match from {
        None => Ok(()),
        Some(desc) => {
            shown.append(outside.take_buffer(desc).bytes())?;
            shown.append(b"= ")
        }
    }
}

/// Shows the last digit of the status.
fn call(
    alloc: Global,
    outside: &mut Outside<'_>,
    fds: &Fds,
    name: &str,
    shown: &mut Text,
) -> Result<(), Memory> {
    let argv = copy_texts(alloc, &texts(alloc, &[name])?)?;
    let status = outside.call(&argv, &List::new(alloc), fds)?;
    shown.append([b'0' + status % 10].as_slice())?;
    shown.append(b" ")
}

fn take_step(
    alloc: Global,
    outside: &mut Outside<'_>,
    fds: &mut Fds,
    step: &Step<'_>,
    shown: &mut Text,
) -> Result<(), Memory> {
    match step {
        Step::Read(n, path) => opened(fds, *n, outside.open_read(path.as_bytes()), shown),
        Step::Write(n, path) => opened(fds, *n, outside.open_write(path.as_bytes(), false), shown),
        Step::Append(n, path) => opened(fds, *n, outside.open_write(path.as_bytes(), true), shown),
        Step::Given(n, bytes) => open_text(alloc, outside, fds, *n, bytes),
        Step::Buffer(n) => open_buffer(outside, fds, *n),
        Step::Duplicate(n, m) => {
            let shared = slot(fds, *m);
            set(fds, *n, shared);
            Ok(())
        }
        Step::Close(n) => {
            set(fds, *n, None);
            Ok(())
        }
        Step::Put(n, bytes) => put(outside, slot(fds, *n), bytes.as_bytes(), shown),
        Step::Line(n) => take_line(outside, slot(fds, *n), shown),
        Step::Take(n) => take_buffer(outside, slot(fds, *n), shown),
        Step::Call(name) => call(alloc, outside, fds, name, shown),
    }
}

/// Shows the inputs of the calls and the bytes of the file `a`, each in brackets.
fn show_end(outside: Outside<'_>, shown: &mut Text) -> Result<(), Memory> {
    let report = outside.finish(End::Ended(0), 0);
    for call in report.calls.as_slice() {
        show_input(&call.input, shown)?;
    }
    if let Some(files) = &report.files {
        for file in files.as_slice() {
            show_file(file, shown)?;
        }
    }
    Ok(())
}

fn show_input(input: &Option<Text>, shown: &mut Text) -> Result<(), Memory> {
    match input {
        None => shown.append(b"(none)"),
        Some(bytes) => show_in(bytes, shown),
    }
}

fn show_file(file: &(Text, Text), shown: &mut Text) -> Result<(), Memory> {
    if file.0.bytes() == b"a".as_slice() {
        show_in(&file.1, shown)?;
    }
    Ok(())
}

fn show_in(bytes: &Text, shown: &mut Text) -> Result<(), Memory> {
    shown.append(b"(")?;
    shown.append(bytes.bytes())?;
    shown.append(b")")
}

/// What these steps show in a world with the file `a` and this standard input.
pub fn shown_of(
    alloc: Global,
    file: &str,
    stdin: &str,
    steps: &[Step<'_>],
) -> Result<Text, Memory> {
    let world = world_of(alloc, &[("a", file)], stdin)?;
    let (mut outside, mut fds) = Outside::start(alloc, &world)?;
    let mut shown = Text::new(alloc);
    for step in steps {
        take_step(alloc, &mut outside, &mut fds, step, &mut shown)?;
    }
    show_end(outside, &mut shown)?;
    Ok(shown)
}
