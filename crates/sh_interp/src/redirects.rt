//! Redirections are made, from left to right (POSIX XCU 2.7).

ghost use Rattle.std.specs.Prelude.{◌≡◌, ◌∷◌, map};
ghost use Rattle.sh_syntax.specs.View.{view_operator, view_redirect, view_word, redirects_of};
ghost use Rattle.sh_expansion.specs.Views.{mode_of, word_of};
ghost use Rattle.shell_runs.specs.Redirecting as redirecting;
ghost use Rattle.shell_world.specs.Opening.{IsOpened};
ghost use Rattle.sh_meaning.specs.Commands as commands;
ghost use Rattle.sh_meaning.specs.Expanded as words;
ghost use Rattle.sh_meaning.specs.Expanding as expanding;
ghost use Rattle.sh_meaning.specs.Own.{fds_of, with_fds};
ghost use Rattle.sh_meaning.specs.Redirecting as meaning;
ghost use Rattle.sh_meaning.specs.Simple.{Setting};
ghost use Rattle.sh_interp.specs.Answers.{Does, Turns};
ghost use Rattle.sh_frames.specs.Payloads.{to_made};
ghost use Rattle.sh_interp.specs.Views.{made_of};

use crate::frames::{Frame, Frames, MadeFrame, WordFrame};
use crate::halt::Halt;
use crate::payload::{Made, Payload};
use crate::shell::Shell;
use sh_checks::{Where, fd_of, has_crowded_lists, plain_text};
use sh_expansion::{Expanded, Mode, Purpose};
use sh_syntax::{Redirect, RedirectOp, Word};
use shell_world::{Desc, OpenFault};
use span_text::Text;

/// How the word of a redirection is expanded: the body of a here-document stands as between double quotes.
fn redirect_mode(op: RedirectOp) -> Mode
    ensures { mode_of result ≡ meaning.redirect_mode (view_operator op) }
{
    match op {
        RedirectOp::HereLiteral | RedirectOp::HereExpanded => Mode::Double(Purpose::Body),
        RedirectOp::Read
        | RedirectOp::Write
        | RedirectOp::Append
        | RedirectOp::CopyIn
        | RedirectOp::CopyOut => Mode::value(),
    }
}

/// Opens a file, or a text, by the operator.
fn open_by(op: RedirectOp, text: Text, shell: &mut Shell) -> Result<Desc, OpenFault>
    ensures opened { IsOpened (meaning.opened_by (view_operator op) text shell.old.outside.outside) result shell.old.outside shell.new.outside }
    ensures state { shell.new ≡ record shell.old { outside = shell.new.outside } }
{
    match op {
        RedirectOp::Read => shell.outside.open_read(text.bytes()),
        RedirectOp::Write => shell.outside.open_write(text.bytes(), false),
        RedirectOp::Append => shell.outside.open_write(text.bytes(), true),
        RedirectOp::HereLiteral
        | RedirectOp::HereExpanded
        | RedirectOp::CopyIn
        | RedirectOp::CopyOut => Ok(shell.outside.open_text(text)?),
    }
}

/// A descriptor is opened for a text, by the operator.
fn open<'s>(
    ran: bool,
    fd: u8,
    op: RedirectOp,
    text: Text,
    shell: &mut Shell<'s>,
) -> Result<Made, Halt>
    ensures { Does made_of (λ n s. redirecting.opened_run fds_of with_fds ran fd (meaning.opened_by (view_operator op) text s.outside) n s) shell.old shell.new result }
{
    match open_by(op, text, shell) {
        Ok(desc) => {
            shell.own.env.fds.set(fd, Some(desc));
            Ok(Made::Done(ran))
        }
        Err(OpenFault::Memory) => Err(Halt::Memory),
        Err(_) => Ok(Made::Failed),
    }
}

/// `<&d`, `<&-`.
fn copy<'s>(ran: bool, fd: u8, text: &[u8], shell: &mut Shell<'s>) -> Result<Made, Halt>
    ensures { Does made_of (meaning.copy_run ran fd text.now) shell.old shell.new result }
{
    match text {
        [] => {
            shell.own.env.fds.set(fd, None);
            Ok(Made::Done(ran))
        }
        [first, ..] => {
            if *first == b'-' {
                shell.own.env.fds.set(fd, None);
                return Ok(Made::Done(ran));
            }
            let Some(desc) = shell.own.env.fds.get(first.saturating_sub(b'0')) else {
                return Ok(Made::Failed);
            };
            shell.own.env.fds.set(fd, Some(desc));
            Ok(Made::Done(ran))
        }
    }
}

/// A redirection whose word is expanded first.
#[tactic(auto, using(sh_syntax::proofs::Views::word_is, sh_frames::proofs::CommandLaws::worded_goes))]
fn worded<'s>(
    ran: bool,
    fd: u8,
    op: RedirectOp,
    word: &'s Word,
    frames: &mut Frames<'s>,
    shell: &Shell<'s>,
) -> Result<Payload, Halt>
    ensures { (z : Setting) → Turns z (λ call. meaning.worded_run fd (view_operator op) (expanding.checked (view_word word.now) (commands.parts_run z call (meaning.redirect_mode (view_operator op)) expanding.First (view_word word.now) (words.nothing ran)))) to_made frames.old frames.new shell.now shell.now result }
{
    let parts = word.parts.as_slice();
    if has_crowded_lists(parts) {
        return Err(Halt::Unspecified);
    }
    let mode = redirect_mode(op);
    frames.push(Frame::Word(WordFrame::Target(fd, op)))?;
    frames.push(Frame::Word(WordFrame::Parts(mode, Where::First, parts)))?;
    Ok(Payload::Word(Expanded::new(shell.alloc, ran)))
}

/// The text of a word that is taken as it stands.
#[tactic(auto, using(sh_syntax::proofs::Views::word_is))]
fn text_of(word: &Word) -> &[u8]
    ensures { result.now ≡ meaning.plain_text (view_word word.now) }
{
    plain_text(word.parts.as_slice())
}

/// One redirection.
fn one<'s>(
    ran: bool,
    fd: u8,
    op: RedirectOp,
    word: &'s Word,
    frames: &mut Frames<'s>,
    shell: &mut Shell<'s>,
) -> Result<Payload, Halt>
    ensures { (z : Setting) → Turns z (λ call. meaning.redirect_run ran fd (view_operator op) (view_word word.now) (expanding.checked (view_word word.now) (commands.parts_run z call (meaning.redirect_mode (view_operator op)) expanding.First (view_word word.now) (words.nothing ran)))) to_made frames.old frames.new shell.old shell.new result }
{
    match op {
        RedirectOp::Read => worded(ran, fd, op, word, frames, shell),
        RedirectOp::Write => worded(ran, fd, op, word, frames, shell),
        RedirectOp::Append => worded(ran, fd, op, word, frames, shell),
        RedirectOp::HereExpanded => worded(ran, fd, op, word, frames, shell),
        RedirectOp::HereLiteral => {
            let body = Text::copy(shell.alloc, text_of(word))?;
            Ok(Payload::Made(open(ran, fd, op, body, shell)?))
        }
        RedirectOp::CopyIn | RedirectOp::CopyOut => {
            Ok(Payload::Made(copy(ran, fd, text_of(word), shell)?))
        }
    }
}

/// A redirection that has others behind it is made now.
#[tactic(auto, using(sh_syntax::proofs::Views::redirect_is, sh_frames::proofs::CommandLaws::redirects_go))]
fn next_redirect<'s>(
    first: &'s Redirect,
    rest: &'s [Redirect],
    ran: bool,
    frames: &mut Frames<'s>,
    shell: &mut Shell<'s>,
) -> Result<Payload, Halt>
    ensures { (z : Setting) → Turns z (λ call. commands.redirects_run z call (redirects_of (view_redirect first.now ∷ map view_redirect rest.now)) ran) to_made frames.old frames.new shell.old shell.new result }
{
    let fd = fd_of(first.fd, first.op);
    frames.push(Frame::Made(MadeFrame::Redirects(rest)))?;
    one(ran, fd, first.op, &first.word, frames, shell)
}

/// Further redirections, where those before were made.
pub fn redirects<'s>(
    redirects: &'s [Redirect],
    made: Made,
    frames: &mut Frames<'s>,
    shell: &mut Shell<'s>,
) -> Result<Payload, Halt>
    ensures { (z : Setting) → Turns z (λ call. redirecting.if_made (commands.redirects_run z call (redirects_of (map view_redirect redirects.now))) (made_of made)) to_made frames.old frames.new shell.old shell.new result }
{
    let Made::Done(ran) = made else {
        return Ok(Payload::Made(Made::Failed));
    };
    match redirects {
        [] => Ok(Payload::Made(Made::Done(ran))),
        [first, rest @ ..] => next_redirect(first, rest, ran, frames, shell),
    }
}

/// Behind the word of a redirection.
pub fn target<'s>(
    fd: u8,
    op: RedirectOp,
    word: Expanded,
    shell: &mut Shell<'s>,
) -> Result<Made, Halt>
    ensures { Does made_of (meaning.redirect_over fd (view_operator op) (word_of word)) shell.old shell.new result }
{
    let text = word.text_of(shell.alloc)?;
    open(word.ran, fd, op, text, shell)
}
