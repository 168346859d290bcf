//! `case` (POSIX XCU 2.9.4.3): the first item with a pattern that matches.

ghost use Rattle.std.specs.Prelude.{false, map};
ghost use Rattle.shell_world.specs.Runs.{after};
ghost use Rattle.sh_syntax.specs.View.{view, view_case_item, view_word, case_items_of, words_of};
ghost use Rattle.sh_builtins.specs.Views.{place_of};
ghost use Rattle.sh_expansion.specs.Views.{word_of};
ghost use Rattle.sh_meaning.specs.Commands as commands;
ghost use Rattle.sh_meaning.specs.Expanding as expanding;
ghost use Rattle.sh_meaning.specs.Modes as modes;
ghost use Rattle.sh_meaning.specs.Expanded as words;
ghost use Rattle.sh_meaning.specs.Simple.{Setting};
ghost use Rattle.sh_interp.specs.Answers.{Turns};
ghost use Rattle.sh_frames.specs.Payloads.{to_ended};
ghost use Rattle.sh_frames.specs.Turns.{patterns_over};

use crate::frames::{CaseRest, Frame, Frames, TruthFrame, WordFrame};
use crate::halt::Halt;
use crate::payload::Payload;
use crate::shell::Shell;
use crate::substitutions::begin_or_zero;
use sh_builtins::{Flow, Place};
use sh_checks::{Where, has_crowded_lists};
use sh_expansion::{Expanded, Mode, pattern_of};
use sh_syntax::{CaseItem, Word};
use span_text::Text;

/// `case a in ..`: the word is expanded first.
#[tactic(auto, using(sh_syntax::proofs::Views::word_is, sh_frames::proofs::CommandLaws::case_goes))]
pub fn begin_case<'s>(
    place: Place,
    subject: &'s Word,
    items: &'s [CaseItem],
    frames: &mut Frames<'s>,
    shell: &Shell<'s>,
) -> Result<Payload, Halt>
    ensures { (z : Setting) → Turns z (λ call. commands.subject_run (expanding.checked (view_word subject.now) (commands.parts_run z call modes.in_value expanding.First (view_word subject.now) (words.nothing false))) (commands.items_run_from z call (place_of place) (case_items_of (map view_case_item items.now)))) to_ended frames.old frames.new shell.now shell.now result }
{
    let parts = subject.parts.as_slice();
    if has_crowded_lists(parts) {
        return Err(Halt::Unspecified);
    }
    frames.push(Frame::Word(WordFrame::Subject(place, items)))?;
    frames.push(Frame::Word(WordFrame::Parts(Mode::value(), Where::First, parts)))?;
    Ok(Payload::Word(Expanded::new(shell.alloc, false)))
}

/// The items from here on.
#[tactic(auto, using(sh_syntax::proofs::Views::case_item_is))]
fn items<'s>(
    place: Place,
    items: &'s [CaseItem],
    text: Text,
    frames: &mut Frames<'s>,
    shell: &mut Shell<'s>,
) -> Result<Payload, Halt>
    ensures { (z : Setting) → Turns z (λ call. commands.items_run_from z call (place_of place) (case_items_of (map view_case_item items.now)) text) to_ended frames.old frames.new shell.old shell.new result }
{
    match items {
        [] => {
            shell.own.env.status = 0;
            Ok(Payload::Ended(Flow::Normal))
        }
        [first, rest @ ..] => {
            let next = CaseRest {
                place,
                text,
                patterns: first.patterns.as_slice(),
                body: &first.body,
                items: rest,
            };
            frames.push(Frame::Truth(TruthFrame::Patterns(next)))?;
            Ok(Payload::Truth(false))
        }
    }
}

/// Behind the word of `case`.
pub fn subject<'s>(
    place: Place,
    list: &'s [CaseItem],
    word: Expanded,
    frames: &mut Frames<'s>,
    shell: &mut Shell<'s>,
) -> Result<Payload, Halt>
    ensures { (z : Setting) → Turns z (λ call. commands.items_run_from z call (place_of place) (case_items_of (map view_case_item list.now)) (words.text_of (word_of word))) to_ended frames.old frames.new shell.old shell.new result }
{
    let text = word.text_of(shell.alloc)?;
    items(place, list, text, frames, shell)
}

/// The next pattern of an item; without one, the next item.
#[tactic(auto, using(sh_syntax::proofs::Views::word_is, sh_frames::proofs::CommandLaws::pattern_goes))]
fn unmatched<'s>(
    rest: CaseRest<'s>,
    frames: &mut Frames<'s>,
    shell: &mut Shell<'s>,
) -> Result<Payload, Halt>
    ensures { (z : Setting) → Turns z (λ call. patterns_over z call (place_of rest.entry.place) rest.entry.text (words_of (map view_word rest.entry.patterns.now)) (view rest.entry.body.now) (case_items_of (map view_case_item rest.entry.items.now)) false) to_ended frames.old frames.new shell.old shell.new result }
{
    match rest.patterns {
        [] => items(rest.place, rest.items, rest.text, frames, shell),
        [first, more @ ..] => {
            let parts = first.parts.as_slice();
            if has_crowded_lists(parts) {
                return Err(Halt::Unspecified);
            }
            let CaseRest {
                place,
                text,
                patterns: _,
                body,
                items,
            } = rest;
            let next = CaseRest {
                place,
                text,
                patterns: more,
                body,
                items,
            };
            frames.push(Frame::Word(WordFrame::Pattern(next)))?;
            frames.push(Frame::Word(WordFrame::Parts(Mode::pattern(), Where::First, parts)))?;
            Ok(Payload::Word(Expanded::new(shell.alloc, false)))
        }
    }
}

/// Behind a pattern that matched or didn't.
pub fn patterns<'s>(
    rest: CaseRest<'s>,
    matched: bool,
    frames: &mut Frames<'s>,
    shell: &mut Shell<'s>,
) -> Result<Payload, Halt>
    ensures { (z : Setting) → Turns z (λ call. patterns_over z call (place_of rest.entry.place) rest.entry.text (words_of (map view_word rest.entry.patterns.now)) (view rest.entry.body.now) (case_items_of (map view_case_item rest.entry.items.now)) matched) to_ended frames.old frames.new shell.old shell.new result }
{
    if matched {
        return begin_or_zero(rest.place, rest.body, frames, shell);
    }
    unmatched(rest, frames, shell)
}

/// Behind the word of a pattern.
pub fn pattern<'s>(
    rest: CaseRest<'s>,
    word: Expanded,
    frames: &mut Frames<'s>,
    shell: &mut Shell<'s>,
) -> Result<Payload, Halt>
    ensures { (z : Setting) → Turns z (λ call n s. after (expanding.pattern_over rest.entry.text (word_of word) n s) (patterns_over z call (place_of rest.entry.place) rest.entry.text (words_of (map view_word rest.entry.patterns.now)) (view rest.entry.body.now) (case_items_of (map view_case_item rest.entry.items.now)))) to_ended frames.old frames.new shell.old shell.new result }
{
    let Some(pattern) = pattern_of(shell.alloc, &word.text)? else {
        return Err(Halt::Unspecified);
    };
    let matched = pattern.matches(rest.text.bytes());
    patterns(rest, matched, frames, shell)
}
