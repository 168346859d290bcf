//! The words of a command become fields, and these arguments (POSIX XCU 2.6.5 to 2.6.7).

ghost use Rattle.std.specs.Prelude.{◌≡◌, List, map};
ghost use Rattle.sh_grammar.specs.Shape.{word};
ghost use Rattle.sh_syntax.specs.View.{view_word, words_of};
ghost use Rattle.sh_checks.specs.Roles.{role_of};
ghost use Rattle.sh_expansion.specs.Views.{mode_of, word_of};
ghost use Rattle.sh_meaning.specs.Expanding as expanding;
ghost use Rattle.sh_meaning.specs.Commands as commands;
ghost use Rattle.sh_meaning.specs.Simple as simple;
ghost use Rattle.sh_meaning.specs.Simple.{Setting};
ghost use Rattle.sh_interp.specs.Answers.{Gives, Turns};
ghost use Rattle.sh_frames.specs.Payloads.{to_fields};
ghost use Rattle.sh_interp.specs.Views.{arguments_of, fielded_of};

use crate::frames::{FieldsFrame, Frame, Frames, WordFrame};
use crate::halt::Halt;
use crate::payload::{Arguments, Fielded, Payload};
use crate::shell::Shell;
use sh_builtins::{is_export_operand, is_fit_operand};
use sh_checks::{Role, Where, has_crowded_lists};
use sh_expansion::{Expanded, Mode, ifs, texts_among};
use sh_syntax::Word;
use span_text::List;

/// How a word of a command is expanded: `name=word` behind `export` as an assignment is.
fn word_mode(role: Role, word: &Word) -> Mode
    ensures { mode_of result ≡ simple.word_mode (role_of role) (view_word word.now) }
{
    match role {
        Role::Name | Role::Argument => Mode::fields(),
        Role::Export => if is_export_operand(word) {
            Mode::value()
        } else {
            Mode::fields()
        },
    }
}

fn word_fits(role: Role, word: &Word) -> bool
    ensures { result ≡ simple.word_fits (role_of role) (view_word word.now) }
{
    match role {
        Role::Name | Role::Argument => true,
        Role::Export => is_fit_operand(word),
    }
}

/// A word of a command that has others behind it is expanded now.
#[tactic(auto, using(sh_syntax::proofs::Views::word_is, sh_frames::proofs::WordLaws::words_go))]
fn next_word<'s>(
    role: Role,
    first: &'s Word,
    rest: &'s [Word],
    done: Fielded,
    frames: &mut Frames<'s>,
    shell: &Shell<'s>,
) -> Result<Payload, Halt>
    ensures { (z : Setting) → Turns z (λ call. commands.words_run z call (role_of role) (word (view_word first.now) (words_of (map view_word rest.now))) (fielded_of done)) to_fields frames.old frames.new shell.now shell.now result }
{
    let parts = first.parts.as_slice();
    if has_crowded_lists(parts) {
        return Err(Halt::Unspecified);
    }
    if !word_fits(role, first) {
        return Err(Halt::Unspecified);
    }
    let next = Expanded::new(shell.alloc, done.ran);
    let mode = word_mode(role, first);
    frames.push(Frame::Fields(FieldsFrame::Words(role.behind(first), rest)))?;
    frames.push(Frame::Word(WordFrame::Field(role, first, done)))?;
    frames.push(Frame::Word(WordFrame::Parts(mode, Where::First, parts)))?;
    Ok(Payload::Word(next))
}

/// Further words of a command: the first is expanded now.
pub fn words<'s>(
    role: Role,
    words: &'s [Word],
    done: Fielded,
    frames: &mut Frames<'s>,
    shell: &Shell<'s>,
) -> Result<Payload, Halt>
    ensures { (z : Setting) → Turns z (λ call. commands.words_run z call (role_of role) (words_of (map view_word words.now)) (fielded_of done)) to_fields frames.old frames.new shell.now shell.now result }
{
    match words {
        [] => Ok(Payload::Fields(done)),
        [first, rest @ ..] => next_word(role, first, rest, done, frames, shell),
    }
}

/// Puts the fields of a word behind those before it (2.6.5).
fn split_fields(done: Fielded, word: Expanded, shell: &Shell) -> Result<Fielded, Halt>
    ensures { Gives fielded_of (expanding.fields_over (fielded_of done) (word_of word)) shell.now result }
{
    if word.is_unclear() {
        return Err(Halt::Unspecified);
    }
    let mut more = word
        .fields_of(shell.alloc, ifs(&shell.own.env.vars))?
        .into_vec();
    let mut fields = done.fields.into_vec();
    fields.append(&mut more)?;
    Ok(Fielded {
        fields: List::from_vec(fields),
        ran: word.ran,
    })
}

/// Puts a word that is one field as it is behind those before it: it is neither split nor a pattern.
fn whole_field(done: Fielded, word: Expanded, shell: &Shell) -> Result<Fielded, Halt>
    ensures { Gives fielded_of (expanding.operand_field_over (fielded_of done) (word_of word)) shell.now result }
{
    let text = word.text_of(shell.alloc)?;
    let mut field = Expanded::new(shell.alloc, false);
    field.with_exact(text.bytes())?;
    let Expanded { text: items, .. } = field;
    let Fielded { fields, ran: _ } = done;
    let mut fields = fields;
    fields.push(items)?;
    Ok(Fielded {
        fields,
        ran: word.ran,
    })
}

/// Behind a word of a command.
pub fn field<'s>(
    role: Role,
    written: &'s Word,
    done: Fielded,
    word: Expanded,
    shell: &Shell<'s>,
) -> Result<Fielded, Halt>
    ensures { Gives fielded_of (simple.word_over (role_of role) (view_word written.now) (fielded_of done) (word_of word)) shell.now result }
{
    match role {
        Role::Name | Role::Argument => split_fields(done, word, shell),
        Role::Export => if is_export_operand(written) {
            whole_field(done, word, shell)
        } else {
            split_fields(done, word, shell)
        },
    }
}

/// Behind all words: fields become names of files, and lose their quotes.
#[tactic(auto, unfolding(sh_meaning::specs::Pathnames::field_texts))]
pub fn pathnames(done: Fielded, shell: &Shell) -> Result<Arguments, Halt>
    ensures { Gives arguments_of (expanding.pathnames_over (fielded_of done)) shell.now result }
{
    let names = shell.outside.names()?;
    match texts_among(shell.alloc, &names, done.fields.as_slice())? {
        None => Err(Halt::Unspecified),
        Some(texts) => Ok(Arguments {
            texts,
            ran: done.ran,
        }),
    }
}
