//! Assignments (POSIX XCU 2.9.1): those without a command, and those before one, whose variables are exported and gone
//! behind it.

ghost use Rattle.std.specs.Prelude.{◌≡◌, ◌∷◌, Some, map, option_map, true, IfOk, OnOk};
ghost use Rattle.shell_world.specs.Texts.{insert};
ghost use Rattle.sh_builtins.specs.Views.{flow_of};
ghost use Rattle.sh_grammar.specs.Shape as shape;
ghost use Rattle.sh_syntax.specs.View.{view_assign, view_value, view_word, assigns_of, value_of};
ghost use Rattle.sh_expansion.specs.Views.{word_of};
ghost use Rattle.sh_meaning.specs.Commands as commands;
ghost use Rattle.sh_meaning.specs.Simple as simple;
ghost use Rattle.sh_meaning.specs.Simple.{Setting};
ghost use Rattle.sh_interp.specs.Answers.{Does, Turns};
ghost use Rattle.sh_frames.specs.Payloads.{to_saved, to_truth, to_word};
ghost use Rattle.sh_interp.specs.Views.{saved_of};

use crate::frames::{Frame, Frames, SavedFrame, TruthFrame, WordFrame};
use crate::halt::Halt;
use crate::payload::Payload;
use crate::shell::{Shell, copy_found};
use sh_builtins::{Flow, assign};
use sh_checks::{Where, has_crowded_lists, is_entangled};
use sh_expansion::{Expanded, Mode};
use sh_meaning::Variable;
use sh_syntax::{Assign, AssignValue, Word};
use shell_world::TextMap;
use span_text::{List, Memory, Text};
use std::alloc::Global;

/// The word behind a `=` is expanded.
#[tactic(auto, using(sh_syntax::proofs::Views::word_is))]
fn value_word<'s>(
    word: &'s Word,
    ran: bool,
    frames: &mut Frames<'s>,
    shell: &Shell<'s>,
) -> Result<Payload, Halt>
    ensures { (z : Setting) → Turns z (λ call. commands.value_run z call (shape.value (view_word word.now)) ran) to_word frames.old frames.new shell.now shell.now result }
{
    let parts = word.parts.as_slice();
    if has_crowded_lists(parts) {
        return Err(Halt::Unspecified);
    }
    frames.push(Frame::Word(WordFrame::Parts(Mode::value(), Where::First, parts)))?;
    Ok(Payload::Word(Expanded::new(shell.alloc, ran)))
}

/// What stands behind a `=` is expanded, where anything stands there.
fn optional_word<'s>(
    word: &'s Option<Word>,
    ran: bool,
    frames: &mut Frames<'s>,
    shell: &Shell<'s>,
) -> Result<Payload, Halt>
    ensures { (z : Setting) → Turns z (λ call. commands.value_run z call (value_of (option_map view_word word.now)) ran) to_word frames.old frames.new shell.now shell.now result }
{
    match word {
        None => Ok(Payload::Word(Expanded::new(shell.alloc, ran))),
        Some(word) => value_word(word, ran, frames, shell),
    }
}

fn value<'s>(
    value: &'s AssignValue,
    ran: bool,
    frames: &mut Frames<'s>,
    shell: &Shell<'s>,
) -> Result<Payload, Halt>
    ensures { (z : Setting) → Turns z (λ call. commands.value_run z call (view_value value.now) ran) to_word frames.old frames.new shell.now shell.now result }
{
    match value {
        AssignValue::Word(word) => optional_word(word, ran, frames, shell),
    }
}

/// An assignment without a command that has others behind it: its value is expanded now.
#[tactic(auto, using(sh_syntax::proofs::Views::assign_is, sh_frames::proofs::CommandLaws::assigns_go))]
fn next_assign<'s>(
    first: &'s Assign,
    rest: &'s [Assign],
    ran: bool,
    frames: &mut Frames<'s>,
    shell: &Shell<'s>,
) -> Result<Payload, Halt>
    ensures { (z : Setting) → Turns z (λ call. commands.assigns_run z call (assigns_of (view_assign first.now ∷ map view_assign rest.now)) ran) to_truth frames.old frames.new shell.now shell.now result }
{
    frames.push(Frame::Truth(TruthFrame::Assigns(rest)))?;
    frames.push(Frame::Word(WordFrame::Value(first.name.text.bytes())))?;
    value(&first.value, ran, frames, shell)
}

/// Further assignments without a command.
pub fn assigns<'s>(
    assigns: &'s [Assign],
    ran: bool,
    frames: &mut Frames<'s>,
    shell: &Shell<'s>,
) -> Result<Payload, Halt>
    ensures { (z : Setting) → Turns z (λ call. commands.assigns_run z call (assigns_of (map view_assign assigns.now)) ran) to_truth frames.old frames.new shell.now shell.now result }
{
    match assigns {
        [] => Ok(Payload::Truth(ran)),
        [first, rest @ ..] => next_assign(first, rest, ran, frames, shell),
    }
}

/// Behind the value of an assignment without a command.
pub fn assigned<'s>(name: &[u8], word: Expanded, shell: &mut Shell<'s>) -> Result<bool, Halt>
    ensures { Does (λ b. b) (simple.assigned_over name.now (word_of word)) shell.old shell.new result }
{
    let text = word.text_of(shell.alloc)?;
    let name = Text::copy(shell.alloc, name)?;
    assign(&mut shell.own.env.vars, name, text)?;
    Ok(word.ran)
}

/// Behind all of them: the status is that of the last command substitution, or 0.
pub fn nameless<'s>(ran: bool, shell: &mut Shell<'s>) -> Result<Flow, Halt>
    ensures { Does flow_of (simple.nameless_over ran) shell.old shell.new result }
{
    if !ran {
        shell.own.env.status = 0;
    }
    Ok(Flow::Normal)
}

// ---- before a command

/// The names of a prefix, the first of them first.
fn names_in_order(alloc: Global, before: &[(Text, Option<Variable>)]) -> Result<List<Text>, Memory>
    ensures { IfOk result (λ names. names ≡ simple.saved_names before.now) }
{
    let mut names = List::new(alloc);
    for entry in before {
        names.push(Text::copy(alloc, entry.0.bytes())?)?;
    }
    Ok(names)
}

/// The names of a prefix, the last first.
#[tactic(auto, using(crate::proofs::Prefixes::names_reversed))]
fn names_of(alloc: Global, before: &[(Text, Option<Variable>)]) -> Result<List<Text>, Memory>
    ensures { IfOk result (λ names. names ≡ simple.saved_names (saved_of before.now)) }
{
    let mut names = names_in_order(alloc, before)?.into_vec();
    names.reverse();
    Ok(List::from_vec(names))
}

/// An assignment before a command that has others behind it: its value is expanded now.
#[tactic(auto, using(sh_syntax::proofs::Views::assign_is, sh_frames::proofs::CommandLaws::prefix_goes))]
fn next_prefix<'s>(
    first: &'s Assign,
    rest: &'s [Assign],
    before: List<(Text, Option<Variable>)>,
    frames: &mut Frames<'s>,
    shell: &Shell<'s>,
) -> Result<Payload, Halt>
    ensures { (z : Setting) → Turns z (λ call. commands.prefix_run z call (assigns_of (view_assign first.now ∷ map view_assign rest.now)) (saved_of before)) to_saved frames.old frames.new shell.now shell.now result }
{
    let names = names_of(shell.alloc, before.as_slice())?;
    if is_entangled(shell.alloc, names.as_slice(), &first.value)? {
        return Err(Halt::Unspecified);
    }
    let name = first.name.text.bytes();
    frames.push(Frame::Saved(SavedFrame::Prefix(rest)))?;
    frames.push(Frame::Word(WordFrame::PrefixValue(name, before)))?;
    value(&first.value, false, frames, shell)
}

/// Further assignments before a command.
pub fn prefix<'s>(
    assigns: &'s [Assign],
    before: List<(Text, Option<Variable>)>,
    frames: &mut Frames<'s>,
    shell: &Shell<'s>,
) -> Result<Payload, Halt>
    ensures { (z : Setting) → Turns z (λ call. commands.prefix_run z call (assigns_of (map view_assign assigns.now)) (saved_of before)) to_saved frames.old frames.new shell.now shell.now result }
{
    match assigns {
        [] => Ok(Payload::Saved(before)),
        [first, rest @ ..] => next_prefix(first, rest, before, frames, shell),
    }
}

/// Gives a variable a text and the export mark.
fn export(
    alloc: Global,
    name: &[u8],
    text: Text,
    vars: &mut TextMap<Variable>,
) -> Result<(), Memory>
    ensures { OnOk result (vars.new ≡ insert name.now (record { value = Some text; exported = true }) vars.old) }
{
    let variable = Variable {
        value: Some(text),
        exported: true,
    };
    vars.insert(Text::copy(alloc, name)?, variable)
}

/// Behind the value of an assignment before a command.
pub fn exported<'s>(
    name: &[u8],
    before: List<(Text, Option<Variable>)>,
    word: Expanded,
    shell: &mut Shell<'s>,
) -> Result<List<(Text, Option<Variable>)>, Halt>
    ensures { Does saved_of (simple.prefix_over name.now (saved_of before) (word_of word)) shell.old shell.new result }
{
    let mut before = before;
    let text = word.text_of(shell.alloc)?;
    let found = copy_found(shell.alloc, shell.own.env.vars.get(name))?;
    before.push((Text::copy(shell.alloc, name)?, found))?;
    export(shell.alloc, name, text, &mut shell.own.env.vars)?;
    Ok(before)
}

/// The variable that a name had, or one without a value.
fn or_new(found: Option<Variable>) -> Variable
    ensures { result ≡ simple.or_new found }
{
    match found {
        None => Variable {
            value: None,
            exported: false,
        },
        Some(variable) => variable,
    }
}

/// Behind the command: the names of the prefix are what they were before it.
pub fn restore(
    before: List<(Text, Option<Variable>)>,
    vars: &mut TextMap<Variable>,
) -> Result<(), Memory>
    ensures { OnOk result (vars.new ≡ simple.restored (saved_of before) vars.old) }
{
    let mut before = before.into_vec();
    'names: while let Some((name, found)) = before.pop() {
        vars.insert(name, or_new(found))?;
    }
    Ok(())
}
