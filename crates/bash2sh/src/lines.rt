//! Reads a script, line by line.

ghost use Rattle.std.specs.Prelude.{◌≡◌, ◌<◌, ◌^◌, ◌+◌, ◌++◌, ◌∷◌, [], ℕ, List, Some, None, length, map, IfOk, IfErr, OnOk};
ghost use Rattle.std.specs.List.{slice_split};
ghost use Rattle.span_text.specs.Scanning.{is_newline};
ghost use Rattle.bash_tree.specs.Shape.{Script as ScriptShape, alone};
ghost use Rattle.bash_tree.specs.Shape as shape;
ghost use Rattle.bash_tree.specs.View.{view, items_of, command_of};
ghost use Rattle.bash2sh.specs.Spelling.{Reads, IsFirstBad};
ghost use Rattle.bash2sh.specs.Model.{Gives, taken_at, front_at, line_at, lines_at};
ghost use Rattle.bash2sh.specs.Views.{command_seen, GivesItems, IfNotYet, Cut, Pushed};

use crate::commands::command_of;
use crate::fault::{ReadFault, Stop};
use crate::form::is_taken;
use crate::words::span;
use bash_tree::{AndOr, Command, CommandKind, Item, Pipeline, Script};
use memchr::memchr;
use span_text::{Class, List, Memory, Span, all_in, run, run_len};
use std::alloc::Global;

/// The first line, and what stands behind its newline.
pub fn first_line(text: &[u8]) -> (&[u8], Option<&[u8]>)
    ensures { Cut text.now result.0.now result.1 }
{
    match memchr(b'\n', text) {
        None => (text, None),
        Some(at) => {
            let (line, newline) = text.split_at(at);
            let (_, behind) = newline.split_at(1);
            (line, Some(behind))
        }
    }
}

/// The command of this form that stands on these bytes.
fn taken_of(alloc: Global, front: &[u8], end: usize) -> Result<Option<CommandKind>, Stop>
    ensures { Gives command_seen result (taken_at front.now) }
{
    let kind = command_of(alloc, front, end)?;
    if is_taken(alloc, &kind)? {
        Ok(Some(kind))
    } else {
        Err(Stop::Bad)
    }
}

#[tactic(auto, unfolding(crate::specs::Model::front_at))]
fn front_of(alloc: Global, front: &[u8], end: usize) -> Result<Option<CommandKind>, Stop>
    ensures { Gives command_seen result (front_at front.now) }
{
    match front {
        [] => Ok(None),
        [b'#', comment @ ..] => {
            if all_in(Class::Comment, comment) {
                Ok(None)
            } else {
                Err(Stop::Bad)
            }
        }
        _ => taken_of(alloc, front, end),
    }
}

/// The command of a line that ends at the offset `end` of its text; nothing where the line is blank or a comment.
#[tactic(auto, unfolding(crate::specs::Model::line_at))]
pub fn line_of(alloc: Global, line: &[u8], end: usize) -> Result<Option<CommandKind>, Stop>
    ensures { Gives command_seen result (line_at line.now) }
{
    let (_, front) = run(Class::Blank, line);
    front_of(alloc, front, end)
}

/// A command by itself, as a complete command of a script.
pub fn item(alloc: Global, kind: CommandKind, span: Span) -> Result<Item, Memory>
    ensures { IfOk result (λ i. items_of (i ∷ []) ≡ shape.item (alone (command_of kind)) shape.no_item) }
{
    let mut stages = List::new(alloc);
    stages.push(Command { kind, span })?;
    let first = Pipeline {
        negated: false,
        stages,
        both: List::new(alloc),
    };
    let chain = AndOr {
        first,
        rest: List::new(alloc),
    };
    Ok(Item {
        chain,
        background: None,
    })
}

/// Puts the command of a line, where it has one, behind the others.
fn push_line(
    alloc: Global,
    items: &mut List<Item>,
    kind: Option<CommandKind>,
    span: Span,
) -> Result<(), Memory>
    ensures { OnOk result (Pushed items.old (command_seen kind) items.new) }
{
    match kind {
        None => Ok(()),
        Some(kind) => items.push(item(alloc, kind, span)?),
    }
}

/// The script that the text spells.
pub fn read(alloc: Global, text: &[u8]) -> Result<Script, ReadFault>
    // What is read is spelled so.
    ensures found { IfOk result (λ s. Reads text.now (view s)) }
    // A text is refused only if it spells no script of the form that is taken,
    ensures refused { IfErr result (λ fault. IfNotYet fault (λ place. (s : ScriptShape) → Reads text.now s → ⊥)) }
    // and the place is that of its first line that isn't of this form.
    ensures place { IfErr result (λ fault. IfNotYet fault (λ place. IsFirstBad text.now place)) }
{
    let items = items_of(alloc, text)?;
    Ok(Script { items })
}

fn items_of(alloc: Global, text: &[u8]) -> Result<List<Item>, ReadFault>
    ensures { GivesItems result (lines_at 0 (slice_split is_newline text.now)) }
{
    let mut items = List::new(alloc);
    let mut rest = text;
    'lines: loop {
        let (line, behind) = first_line(rest);
        let at = text.len() - rest.len();
        let end = at + line.len();
        match line_of(alloc, line, end) {
            Err(Stop::Memory) => return Err(ReadFault::Memory),
            Err(Stop::Bad) => return Err(ReadFault::NotYet(at + run_len(Class::Blank, line))),
            Ok(kind) => push_line(alloc, &mut items, kind, span(end, line, &[]))?,
        }
        match behind {
            None => return Ok(items),
            Some(more) => rest = more,
        }
    }
}
