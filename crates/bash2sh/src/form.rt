//! Whether a command is of a form that is taken.

ghost use Rattle.std.specs.Prelude.{◌≡◌, ◌++◌, ◌&&◌, [], map, length, ◌<◌, IfOk, OnOk};
ghost use Rattle.std.specs.List.{list_all, flat_map};
ghost use Rattle.bash_tree.specs.View.{view_part, name_of_param, parts_of, view_word, words_of, value_of, view_value, assigns_of, command_of};
ghost use Rattle.bash_tree.specs.Shape.{simple, no_assign, no_word};
ghost use Rattle.bash2sh.specs.Form as form;
ghost use Rattle.bash2sh.specs.Views.{parts_seen};

use bash_tree::{Assign, AssignValue, CommandKind, Param, Part, PartKind, Word};
use span_text::{Memory, Text, is_known_command, is_reserved, is_special_name};
use std::alloc::Global;

fn is_free_name(name: &[u8]) -> bool
    ensures { result ≡ form.is_free_name name.now }
{
    !(is_special_name(name) || is_reserved(name))
}

fn is_free_param(param: &Param) -> bool
    ensures { result ≡ form.is_free_name (name_of_param param.now) }
{
    let Param::Name(name) = param;
    is_free_name(name.text.bytes())
}

fn quoted_form(part: &Part) -> bool
    ensures { result ≡ form.quoted_form (view_part part.now) }
{
    match &part.kind {
        PartKind::Plain(_) => true,
        PartKind::Param { param, op: _ } => is_free_param(param),
        PartKind::Exact(_) => false,
        PartKind::Double(_) => false,
    }
}

fn quoted_forms(parts: &[Part]) -> bool
    ensures { result ≡ list_all (λ p. form.quoted_form (view_part p)) parts.now }
{
    parts.iter().all(|part| quoted_form(part))
}

fn part_form(part: &Part) -> bool
    ensures { result ≡ form.part_form (view_part part.now) }
{
    match &part.kind {
        PartKind::Plain(_) => true,
        PartKind::Exact(_) => true,
        PartKind::Double(parts) => quoted_forms(parts.as_slice()),
        PartKind::Param { .. } => false,
    }
}

fn part_forms(parts: &[Part]) -> bool
    ensures { result ≡ list_all (λ p. form.part_form (view_part p)) parts.now }
{
    parts.iter().all(|part| part_form(part))
}

#[tactic(auto, using(crate::proofs::FormLaws::forms_are))]
fn word_form(word: &Word) -> bool
    ensures { result ≡ form.word_form (view_word word.now) }
{
    part_forms(word.parts.as_slice())
}

fn word_forms(words: &[Word]) -> bool
    ensures { result ≡ list_all (λ w. form.word_form (view_word w)) words.now }
{
    words.iter().all(|word| word_form(word))
}

// ---- the command's name

fn is_plain(part: &Part) -> bool
    ensures { result ≡ form.is_plain (view_part part.now) }
{
    match &part.kind {
        PartKind::Plain(_) => true,
        PartKind::Exact(_) => false,
        PartKind::Double(_) => false,
        PartKind::Param { .. } => false,
    }
}

fn all_plain(parts: &[Part]) -> bool
    ensures { result ≡ list_all (λ p. form.is_plain (view_part p)) parts.now }
{
    parts.iter().all(|part| is_plain(part))
}

fn is_literal_part(part: &Part) -> bool
    ensures { result ≡ form.is_literal_part (view_part part.now) }
{
    match &part.kind {
        PartKind::Plain(_) => true,
        PartKind::Exact(_) => true,
        PartKind::Double(parts) => all_plain(parts.as_slice()),
        PartKind::Param { .. } => false,
    }
}

fn all_literal(parts: &[Part]) -> bool
    ensures { result ≡ list_all (λ p. form.is_literal_part (view_part p)) parts.now }
{
    parts.iter().all(|part| is_literal_part(part))
}

fn append_plain(part: &Part, text: &mut Text) -> Result<(), Memory>
    ensures { OnOk result (text.new ≡ text.old ++ form.plain_text (view_part part.now)) }
{
    match &part.kind {
        PartKind::Plain(bytes) => text.append(bytes.bytes()),
        PartKind::Exact(_) => Ok(()),
        PartKind::Double(_) => Ok(()),
        PartKind::Param { .. } => Ok(()),
    }
}

fn append_all_plain(parts: &[Part], text: &mut Text) -> Result<(), Memory>
    ensures { OnOk result (text.new ≡ text.old ++ flat_map (λ p. form.plain_text (view_part p)) parts.now) }
{
    for part in parts {
        append_plain(part, text)?;
    }
    Ok(())
}

fn append_literal(part: &Part, text: &mut Text) -> Result<(), Memory>
    ensures { OnOk result (text.new ≡ text.old ++ form.literal_part_text (view_part part.now)) }
{
    match &part.kind {
        PartKind::Plain(bytes) => text.append(bytes.bytes()),
        PartKind::Exact(bytes) => text.append(bytes.bytes()),
        PartKind::Double(parts) => append_all_plain(parts.as_slice(), text),
        PartKind::Param { .. } => Ok(()),
    }
}

fn append_all_literal(parts: &[Part], text: &mut Text) -> Result<(), Memory>
    ensures { OnOk result (text.new ≡ text.old ++ flat_map (λ p. form.literal_part_text (view_part p)) parts.now) }
{
    for part in parts {
        append_literal(part, text)?;
    }
    Ok(())
}

#[tactic(auto, using(crate::proofs::FormLaws::texts_are))]
fn literal_text(alloc: Global, word: &Word) -> Result<Text, Memory>
    ensures { IfOk result (λ t. t ≡ form.literal_text (view_word word.now)) }
{
    let mut text = Text::new(alloc);
    append_all_literal(word.parts.as_slice(), &mut text)?;
    Ok(text)
}

#[tactic(auto, using(crate::proofs::FormLaws::forms_are))]
fn name_form(alloc: Global, word: &Word) -> Result<bool, Memory>
    ensures { IfOk result (λ b. b ≡ form.name_form (view_word word.now)) }
{
    if !all_literal(word.parts.as_slice()) {
        return Ok(false);
    }
    let name = literal_text(alloc, word)?;
    Ok(!(is_known_command(name.bytes()) || is_reserved(name.bytes())))
}

// ---- commands

fn value_form(value: &AssignValue) -> bool
    ensures { result ≡ form.value_form (view_value value.now) }
{
    match value {
        AssignValue::Word(None) => true,
        AssignValue::Word(Some(word)) => word_form(word),
    }
}

fn assign_form(assign: &Assign) -> bool
    ensures { result ≡ (form.is_free_name assign.now.name.text && form.value_form (view_value assign.now.value)) }
{
    is_free_name(assign.name.text.bytes()) && value_form(&assign.value)
}

/// Whether these words, without an assignment, are taken.
fn call_form(alloc: Global, words: &[Word]) -> Result<bool, Memory>
    ensures { IfOk result (λ b. b ≡ form.command_form (simple no_assign (words_of words.now))) }
{
    match words {
        [] => Ok(false),
        [name, ..] => {
            let (_, args) = words.split_at(1);
            let named = name_form(alloc, name)?;
            Ok(named && word_forms(args))
        }
    }
}

/// Whether these assignments, of which there are some, are taken by themselves.
fn assigns_form(assigns: &[Assign]) -> bool
    requires { 0 < length assigns.now }
    ensures { result ≡ form.command_form (simple (assigns_of assigns.now) no_word) }
{
    assigns.len() == 1 && assign_form(&assigns[0])
}

/// Whether the command is one assignment, or a literal name that no shell knows with its arguments.
pub fn is_taken(alloc: Global, kind: &CommandKind) -> Result<bool, Memory>
    ensures { IfOk result (λ b. b ≡ form.command_form (command_of kind.now)) }
{
    if kind.assigns().is_empty() {
        return call_form(alloc, kind.words());
    }
    Ok(kind.words().is_empty() && assigns_form(kind.assigns()))
}
