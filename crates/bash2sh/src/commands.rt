//! Reads the command of a line.

ghost use Rattle.std.specs.Prelude.{◌≡◌, map, length, suc, MatchOption, Some, None, [], ◌∷◌};
ghost use Rattle.bash_tree.specs.Shape.{simple, assign, no_assign, no_word};
ghost use Rattle.bash_tree.specs.View.{value_of, command_of};
ghost use Rattle.bash2sh.specs.Model.{Gives, value_at, plus_at, sign_at, words_command, assign_command, command_at};
ghost use Rattle.bash2sh.specs.Views.{sign_seen};

use crate::fault::Stop;
use crate::words::{span, word_of, words_of};
use bash_tree::{Assign, AssignValue, CommandKind, Name, Word};
use span_text::{Class, List, Text, all_in, is_started, is_word_end, run};
use std::alloc::Global;

/// What stands behind the `=`, up to the end of the line.
#[tactic(auto, unfolding(crate::specs::Model::value_at))]
fn value_of(alloc: Global, bytes: &[u8], end: usize) -> Result<Option<Word>, Stop>
    ensures { Gives value_of result (value_at bytes.now) }
{
    if is_word_end(bytes) {
        return if all_in(Class::Blank, bytes) {
            Ok(None)
        } else {
            Err(Stop::Bad)
        };
    }
    let (word, after) = word_of(alloc, bytes, end)?;
    if all_in(Class::Blank, after) {
        Ok(Some(word))
    } else {
        Err(Stop::Bad)
    }
}

/// `=` or `+=`: whether it appends, and what stands behind it.
#[tactic(auto, unfolding(crate::specs::Model::sign_at))]
fn sign_of(bytes: &[u8]) -> Option<(bool, &[u8])>
    ensures { MatchOption result (sign_at bytes.now ≡ None) (λ s. sign_at bytes.now ≡ Some (sign_seen s)) }
{
    match bytes {
        [b'=', after @ ..] => Some((false, after)),
        [b'+', b'=', after @ ..] => Some((true, after)),
        _ => None,
    }
}

fn simple(assigns: List<Assign>, words: List<Word>) -> CommandKind
    ensures { result ≡ CommandKind.Simple assigns words }
{
    CommandKind::Simple { assigns, words }
}

#[tactic(auto, unfolding(crate::specs::Model::assign_command))]
fn assign_of(
    alloc: Global,
    name: &[u8],
    append: bool,
    after: &[u8],
    end: usize,
) -> Result<CommandKind, Stop>
    ensures { Gives command_of result (assign_command name.now (append, after.now)) }
{
    let value = value_of(alloc, after, end)?;
    let place = span(end, after, after);
    let name = Name {
        text: Text::copy(alloc, name)?,
        span: place,
    };
    let mut assigns = List::new(alloc);
    assigns.push(Assign {
        name,
        append,
        value: AssignValue::Word(value),
        span: place,
    })?;
    Ok(simple(assigns, List::new(alloc)))
}

#[tactic(auto, unfolding(crate::specs::Model::words_command), using(crate::proofs::Views::words_named))]
fn call_of(alloc: Global, bytes: &[u8], end: usize) -> Result<CommandKind, Stop>
    ensures { Gives command_of result (words_command bytes.now) }
{
    let words = words_of(alloc, bytes, end)?;
    if words.as_slice().is_empty() {
        return Err(Stop::Bad);
    }
    Ok(simple(List::new(alloc), words))
}

/// The command of a line, from its first byte on.
#[tactic(auto, unfolding(crate::specs::Model::command_at))]
pub fn command_of(alloc: Global, bytes: &[u8], end: usize) -> Result<CommandKind, Stop>
    ensures { Gives command_of result (command_at bytes.now) }
{
    if !is_started(Class::NameFirst, bytes) {
        return call_of(alloc, bytes, end);
    }
    let (name, rest) = run(Class::NameRest, bytes);
    match sign_of(rest) {
        None => call_of(alloc, bytes, end),
        Some((append, after)) => assign_of(alloc, name, append, after, end),
    }
}
