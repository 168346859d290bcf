//! Words are expanded part by part (POSIX XCU 2.6).

ghost use Rattle.std.specs.Prelude.{◌≡◌, map, not, IfOk};
ghost use Rattle.sh_grammar.specs.Shape.{double, part};
ghost use Rattle.sh_syntax.specs.View.{view_op, view_param, view_part, view_part_kind, view_test, view_word, parts_of};
ghost use Rattle.sh_checks.specs.Places.{where_of};
ghost use Rattle.sh_expansion.specs.Views.{mode_of, word_of};
ghost use Rattle.sh_meaning.specs.Expanded as words;
ghost use Rattle.sh_meaning.specs.Expanding as expanding;
ghost use Rattle.sh_meaning.specs.Commands as commands;
ghost use Rattle.sh_meaning.specs.Simple.{Setting};
ghost use Rattle.sh_interp.specs.Answers.{Gives, Turns};
ghost use Rattle.sh_frames.specs.Payloads.{to_word};

use crate::frames::{Frame, Frames, WordFrame};
use crate::halt::Halt;
use crate::params::{fill, param, param_length, trim};
use crate::payload::Payload;
use crate::shell::Shell;
use crate::substitutions::substitution;
use crate::sums::arithmetic;
use sh_checks::{Where, has_doubtful_tilde};
use sh_expansion::{Expanded, Mode, home};
use sh_syntax::{Param, ParamOp, Part, PartKind};
use span_text::Memory;

/// Whether shells read an unquoted tilde of these bytes differently.
fn is_doubtful(mode: Mode, place: Where, text: &[u8]) -> bool
    ensures { not result ≡ expanding.plain_is_clear (mode_of mode) (where_of place) text.now }
{
    match mode {
        Mode::Bare(_, _) => has_doubtful_tilde(place, text),
        Mode::Double(_) => false,
    }
}

/// Bytes that stand for themselves.
fn plain(
    mode: Mode,
    place: Where,
    text: &[u8],
    word: Expanded,
    shell: &Shell,
) -> Result<Expanded, Halt>
    ensures { Gives word_of (expanding.plain_run (mode_of mode) (where_of place) text.now (word_of word)) shell.now result }
{
    let mut word = word;
    if is_doubtful(mode, place, text) {
        return Err(Halt::Unspecified);
    }
    word.with_plain(mode, text)?;
    Ok(word)
}

/// `'..'` and `\b`.
fn exact(text: &[u8], word: Expanded) -> Result<Expanded, Memory>
    ensures { IfOk result (λ w. word_of w ≡ words.with_exact text.now (word_of word)) }
{
    let mut word = word;
    word.with_exact(text)?;
    Ok(word)
}

/// `~` (2.6.1).
fn tilde(word: Expanded, shell: &Shell) -> Result<Expanded, Halt>
    ensures { Gives word_of (expanding.tilde_run (word_of word)) shell.now result }
{
    let mut word = word;
    match home(&shell.own.env.vars) {
        None => Err(Halt::Unspecified),
        Some(text) => {
            word.with_home(text)?;
            Ok(word)
        }
    }
}

/// `".."`: the parts inside, and then the closing quote.
#[tactic(auto, using(sh_frames::proofs::WordLaws::double_goes))]
fn double<'s>(
    mode: Mode,
    parts: &'s [Part],
    word: Expanded,
    frames: &mut Frames<'s>,
    shell: &Shell<'s>,
) -> Result<Payload, Halt>
    ensures { (z : Setting) (place : expanding.Where) → Turns z (λ call. commands.part_run z call (mode_of mode) place (double (parts_of (map view_part parts.now))) (word_of word)) to_word frames.old frames.new shell.now shell.now result }
{
    frames.push(Frame::Word(WordFrame::Quoted))?;
    frames.push(Frame::Word(WordFrame::Parts(mode.in_quotes(), Where::First, parts)))?;
    Ok(Payload::Word(word))
}

/// `$a`, `${#a}`, `${a-w}`, `${a%w}`.
#[tactic(auto, using(sh_syntax::proofs::Views::as_is_is, sh_syntax::proofs::Views::length_is, sh_syntax::proofs::Views::fill_is, sh_syntax::proofs::Views::trim_is))]
fn expansion<'s>(
    mode: Mode,
    of: &'s Param,
    op: &'s ParamOp,
    word: Expanded,
    frames: &mut Frames<'s>,
    shell: &mut Shell<'s>,
) -> Result<Payload, Halt>
    ensures { (z : Setting) → Turns z (λ call. commands.op_run z call (mode_of mode) (view_param of.now) (view_op op.now) (word_of word)) to_word frames.old frames.new shell.old shell.new result }
{
    match op {
        ParamOp::Plain => Ok(Payload::Word(param(mode, of, word, shell)?)),
        ParamOp::Length => Ok(Payload::Word(param_length(mode, of, word, shell)?)),
        ParamOp::Fill {
            test,
            colon,
            word: inner,
        } => fill(*test, *colon, mode, of, inner, word, frames, shell),
        ParamOp::Trim {
            suffix,
            longest,
            pattern,
        } => trim(*suffix, *longest, mode, of, pattern, word, frames, shell),
    }
}

/// What a part gives, behind the word so far.
#[tactic(auto, using(sh_syntax::proofs::Views::plain_is, sh_syntax::proofs::Views::exact_is, sh_syntax::proofs::Views::double_is, sh_syntax::proofs::Views::tilde_is, sh_syntax::proofs::Views::param_is, sh_syntax::proofs::Views::subst_is, sh_syntax::proofs::Views::arith_part_is))]
fn part_kind<'s>(
    mode: Mode,
    place: Where,
    kind: &'s PartKind,
    word: Expanded,
    frames: &mut Frames<'s>,
    shell: &mut Shell<'s>,
) -> Result<Payload, Halt>
    ensures { (z : Setting) → Turns z (λ call. commands.part_run z call (mode_of mode) (where_of place) (view_part_kind kind.now) (word_of word)) to_word frames.old frames.new shell.old shell.new result }
{
    match kind {
        PartKind::Plain(text) => {
            let word = plain(mode, place, text.bytes(), word, shell)?;
            Ok(Payload::Word(word))
        }
        PartKind::Exact(text) => Ok(Payload::Word(exact(text.bytes(), word)?)),
        PartKind::Double(parts) => double(mode, parts.as_slice(), word, frames, shell),
        PartKind::Tilde => Ok(Payload::Word(tilde(word, shell)?)),
        PartKind::Param { param, op } => expansion(mode, param, op, word, frames, shell),
        PartKind::Subst(script) => substitution(mode, script, word, frames, shell),
        PartKind::Arith(arith) => arithmetic(mode, arith, word, frames, shell),
    }
}

/// A part that has others behind it is expanded now; those wait.
#[tactic(auto, using(sh_syntax::proofs::Views::part_is, sh_frames::proofs::WordLaws::parts_go))]
fn next_part<'s>(
    mode: Mode,
    place: Where,
    first: &'s Part,
    rest: &'s [Part],
    word: Expanded,
    frames: &mut Frames<'s>,
    shell: &mut Shell<'s>,
) -> Result<Payload, Halt>
    ensures { (z : Setting) → Turns z (λ call. commands.parts_run z call (mode_of mode) (where_of place) (part (view_part first.now) (parts_of (map view_part rest.now))) (word_of word)) to_word frames.old frames.new shell.old shell.new result }
{
    frames.push(Frame::Word(WordFrame::Parts(mode, Where::Later, rest)))?;
    part_kind(mode, place, &first.kind, word, frames, shell)
}

/// Parts, from left to right.
pub fn parts<'s>(
    mode: Mode,
    place: Where,
    parts: &'s [Part],
    word: Expanded,
    frames: &mut Frames<'s>,
    shell: &mut Shell<'s>,
) -> Result<Payload, Halt>
    ensures { (z : Setting) → Turns z (λ call. commands.parts_run z call (mode_of mode) (where_of place) (parts_of (map view_part parts.now)) (word_of word)) to_word frames.old frames.new shell.old shell.new result }
{
    match parts {
        [] => Ok(Payload::Word(word)),
        [first, rest @ ..] => next_part(mode, place, first, rest, word, frames, shell),
    }
}

// ---- behind parts

/// Behind the parts of `".."`.
pub fn quoted(word: Expanded) -> Result<Expanded, Memory>
    ensures { IfOk result (λ w. word_of w ≡ words.with_quote (word_of word)) }
{
    let mut word = word;
    word.with_quote()?;
    Ok(word)
}
