//! Arithmetic expansion (POSIX XCU 2.6.4): the operands are expanded from left to right, and then the expression is
//! evaluated.

ghost use Rattle.std.specs.Prelude.{map};
ghost use Rattle.sh_grammar.specs.Shape.{arith, word};
ghost use Rattle.sh_syntax.specs.View.{view_arith, view_word, words_of};
ghost use Rattle.sh_expansion.specs.Views.{mode_of, word_of};
ghost use Rattle.sh_meaning.specs.Expanding as expanding;
ghost use Rattle.sh_meaning.specs.Commands as commands;
ghost use Rattle.sh_meaning.specs.Simple.{Setting};
ghost use Rattle.shell_world.specs.Runs.{after};
ghost use Rattle.sh_interp.specs.Answers.{Does, Gives, Turns};
ghost use Rattle.sh_frames.specs.Payloads.{to_numbers, to_word};
ghost use Rattle.sh_interp.specs.Views.{operands_of};

use crate::frames::{Frame, Frames, NumbersFrame, WordFrame};
use crate::halt::Halt;
use crate::payload::{Operands, Payload};
use crate::shell::Shell;
use sh_checks::{Where, behind_signs, has_crowded_lists};
use sh_expansion::{Expanded, Mode};
use sh_sums::{evaluate, number_text, operand_number};
use sh_syntax::{Arith, Word};
use span_text::{Expr, List};

/// `$((a))`.
#[tactic(auto, using(sh_syntax::proofs::Views::arith_is, sh_frames::proofs::WordLaws::arithmetic_goes))]
pub fn arithmetic<'s>(
    mode: Mode,
    sum: &'s Arith,
    word: Expanded,
    frames: &mut Frames<'s>,
    shell: &mut Shell<'s>,
) -> Result<Payload, Halt>
    ensures { (z : Setting) (place : expanding.Where) → Turns z (λ call. commands.part_run z call (mode_of mode) place (arith (view_arith sum.now).0 (view_arith sum.now).1) (word_of word)) to_word frames.old frames.new shell.old shell.new result }
{
    let signs = behind_signs(shell.alloc, &sum.expr)?;
    let none = Operands {
        numbers: List::new(shell.alloc),
        ran: word.ran,
    };
    frames.push(Frame::Numbers(NumbersFrame::Sum(mode, &sum.expr, word)))?;
    operands(signs, sum.operands.as_slice(), none, frames, shell)
}

/// An operand that has others behind it is expanded now.
#[tactic(auto, using(sh_syntax::proofs::Views::word_is, sh_frames::proofs::WordLaws::operands_go))]
fn next_operand<'s>(
    signs: List<u32>,
    first: &'s Word,
    rest: &'s [Word],
    before: Operands,
    frames: &mut Frames<'s>,
    shell: &Shell<'s>,
) -> Result<Payload, Halt>
    ensures { (z : Setting) → Turns z (λ call. commands.operands_run z call signs (word (view_word first.now) (words_of (map view_word rest.now))) (operands_of before)) to_numbers frames.old frames.new shell.now shell.now result }
{
    let parts = first.parts.as_slice();
    if has_crowded_lists(parts) {
        return Err(Halt::Unspecified);
    }
    let next = Expanded::new(shell.alloc, before.ran);
    frames.push(Frame::Word(WordFrame::Operand(signs, before, rest)))?;
    frames.push(Frame::Word(WordFrame::Parts(Mode::operand(), Where::First, parts)))?;
    Ok(Payload::Word(next))
}

/// Further operands: the first is expanded now.
pub fn operands<'s>(
    signs: List<u32>,
    words: &'s [Word],
    before: Operands,
    frames: &mut Frames<'s>,
    shell: &Shell<'s>,
) -> Result<Payload, Halt>
    ensures { (z : Setting) → Turns z (λ call. commands.operands_run z call signs (words_of (map view_word words.now)) (operands_of before)) to_numbers frames.old frames.new shell.now shell.now result }
{
    match words {
        [] => Ok(Payload::Numbers(before)),
        [first, rest @ ..] => next_operand(signs, first, rest, before, frames, shell),
    }
}

/// Puts the number of an operand behind those before it. It is judged by its place and its text.
fn counted(signs: &[u32], before: Operands, word: Expanded, shell: &Shell) -> Result<Operands, Halt>
    ensures { Gives operands_of (expanding.operand_over signs.now (operands_of before) (word_of word)) shell.now result }
{
    let Operands { numbers, ran: _ } = before;
    let Ok(number) = u32::try_from(numbers.len()) else {
        return Err(Halt::Memory);
    };
    let text = word.text_of(shell.alloc)?;
    let Some(value) = operand_number(signs, number, text.bytes()) else {
        return Err(Halt::Unspecified);
    };
    let mut numbers = numbers;
    numbers.push(value)?;
    Ok(Operands {
        numbers,
        ran: word.ran,
    })
}

/// Behind an operand, which is judged at once.
pub fn operand<'s>(
    signs: List<u32>,
    before: Operands,
    rest: &'s [Word],
    word: Expanded,
    frames: &mut Frames<'s>,
    shell: &Shell<'s>,
) -> Result<Payload, Halt>
    ensures { (z : Setting) → Turns z (λ call n s. after (expanding.operand_over signs (operands_of before) (word_of word) n s) (commands.operands_run z call signs (words_of (map view_word rest.now)))) to_numbers frames.old frames.new shell.now shell.now result }
{
    let more = counted(signs.as_slice(), before, word, shell)?;
    operands(signs, rest, more, frames, shell)
}

/// Behind the operands: the value of the expression goes into the word.
pub fn sum<'s>(
    mode: Mode,
    expr: &'s Expr,
    word: Expanded,
    operands: Operands,
    shell: &mut Shell<'s>,
) -> Result<Expanded, Halt>
    ensures { Does word_of (expanding.sum_over (mode_of mode) expr.now (word_of word) (operands_of operands)) shell.old shell.new result }
{
    let mut word = word;
    let numbers = operands.numbers.as_slice();
    let Some(value) = evaluate(shell.alloc, expr, numbers, &mut shell.own.env.vars)? else {
        return Err(Halt::Unspecified);
    };
    let text = number_text(shell.alloc, value)?;
    word.ran = operands.ran;
    word.with_value(mode, text.bytes())?;
    Ok(word)
}
