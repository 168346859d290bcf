//! The sh text of a script, made line by line: no more is held than the tree of one line and the text so far.

ghost use Rattle.std.specs.Prelude.{◌≡◌, ◌++◌, [], ◌∷◌, OnOk};
ghost use Rattle.std.specs.List.{slice_split};
ghost use Rattle.span_text.specs.Scanning.{is_newline};
ghost use Rattle.bash_tree.specs.View.{command_of};
ghost use Rattle.bash2sh.specs.Model.{line_at, lines_at};
ghost use Rattle.bash2sh.specs.LineTexts.{text_from, PutsLine, GivesText};

use crate::fault::{ReadFault, Stop};
use crate::gather::TextSink;
use crate::lines::{first_line, item, line_of};
use crate::lowering::lower;
use crate::words::span;
use bash_tree::{CommandKind, Script};
use sh_printer::print;
use span_text::{Class, List, Memory, Span, Text, run_len};
use std::alloc::Global;

/// Puts the sh text of a command behind what was written.
fn put_command(
    alloc: Global,
    kind: CommandKind,
    span: Span,
    written: &mut TextSink,
) -> Result<(), Memory>
    ensures { OnOk result (written.new.text ≡ written.old.text ++ text_from (command_of kind ∷ [])) }
{
    let mut items = List::new(alloc);
    items.push(item(alloc, kind, span)?)?;
    let lowered = lower(alloc, &Script { items })?;
    match print(&lowered, written) {
        Ok(()) => Ok(()),
        Err(_) => Err(Memory {}),
    }
}

/// Puts the sh text of a line that ends at the offset `end` of its text behind what was written.
fn put_line(alloc: Global, line: &[u8], end: usize, written: &mut TextSink) -> Result<(), Stop>
    ensures { PutsLine result (line_at line.now) written.old.text written.new.text }
{
    match line_of(alloc, line, end)? {
        None => Ok(()),
        Some(kind) => Ok(put_command(alloc, kind, span(end, line, &[]), written)?),
    }
}

/// The sh text of the script that this text spells.
pub fn text_of(alloc: Global, text: &[u8]) -> Result<Text, ReadFault>
    ensures { GivesText result (lines_at 0 (slice_split is_newline text.now)) }
{
    let mut written = TextSink::new(alloc);
    let mut rest = text;
    'lines: loop {
        let (line, behind) = first_line(rest);
        let at = text.len() - rest.len();
        match put_line(alloc, line, at + line.len(), &mut written) {
            Err(Stop::Memory) => return Err(ReadFault::Memory),
            Err(Stop::Bad) => return Err(ReadFault::NotYet(at + run_len(Class::Blank, line))),
            Ok(()) => {}
        }
        match behind {
            None => return Ok(written.into_text()),
            Some(more) => rest = more,
        }
    }
}
