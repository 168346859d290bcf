//! Command substitutions (POSIX XCU 2.6.3).

ghost use Rattle.std.specs.Prelude.{◌≡◌, ◌-◌, length, map, IfOk, OnOk};
ghost use Rattle.std.specs.List.{suffix_len};
ghost use Rattle.shell_world.specs.Lines.{without_nul};
ghost use Rattle.sh_grammar.specs.Shape.{subst};
ghost use Rattle.sh_syntax.specs.View.{items_of, view, view_item};
ghost use Rattle.sh_expansion.specs.Views.{mode_of, word_of};
ghost use Rattle.sh_builtins.specs.Views.{place_of};
ghost use Rattle.shell_world.specs.Runs.{after};
ghost use Rattle.shell_runs.specs.Flow as flows;
ghost use Rattle.shell_runs.specs.Shells as shells;
ghost use Rattle.sh_meaning.specs.Own as owns;
ghost use Rattle.sh_meaning.specs.Expanding as expanding;
ghost use Rattle.sh_meaning.specs.Commands as commands;
ghost use Rattle.sh_meaning.specs.Simple.{Setting};
ghost use Rattle.sh_interp.specs.Answers.{Does, Turns};
ghost use Rattle.sh_frames.specs.Payloads.{to_ended, to_word};
ghost use Rattle.sh_interp.specs.Views.{state_of, whole_of};

use crate::frames::{FlowFrame, Frame, Frames};
use crate::halt::Halt;
use crate::payload::Payload;
use crate::shell::{Shell, Whole};
use sh_builtins::{Flow, Place};
use sh_expansion::{Expanded, Mode};
use sh_syntax::{Item, Script};
use shell_world::Desc;
use span_text::{Memory, Text};
use std::alloc::Global;

/// What encloses the commands of a shell environment of their own: nothing.
pub fn in_shell() -> Place
    ensures { place_of result ≡ commands.in_shell_place }
{
    Place {
        loops: 0,
        in_function: false,
    }
}

/// The commands of a script begin.
#[tactic(auto, using(sh_syntax::proofs::Views::script_is))]
pub fn begin<'s>(
    place: Place,
    script: &'s Script,
    frames: &mut Frames<'s>,
    shell: &Shell<'s>,
) -> Result<Payload, Halt>
    ensures { (z : Setting) → Turns z (λ call. commands.script_run z call (place_of place) (view script.now)) to_ended frames.old frames.new shell.now shell.now result }
{
    let items = script.items.as_slice();
    frames.push(Frame::Ended(FlowFrame::Script(place, items)))?;
    Ok(Payload::Ended(Flow::Normal))
}

/// These commands, or none, which give the status 0.
fn items_or_zero<'s>(
    place: Place,
    items: &'s [Item],
    frames: &mut Frames<'s>,
    shell: &mut Shell<'s>,
) -> Result<Payload, Halt>
    ensures { (z : Setting) → Turns z (λ call. commands.or_zero (items_of (map view_item items.now)) (commands.script_run z call (place_of place) (items_of (map view_item items.now)))) to_ended frames.old frames.new shell.old shell.new result }
{
    match items {
        [] => {
            shell.own.env.status = 0;
            Ok(Payload::Ended(Flow::Normal))
        }
        [_first, _rest @ ..] => {
            frames.push(Frame::Ended(FlowFrame::Script(place, items)))?;
            Ok(Payload::Ended(Flow::Normal))
        }
    }
}

/// The commands of a body that may lack any; its status is 0 then.
#[tactic(auto, using(sh_syntax::proofs::Views::script_is))]
pub fn begin_or_zero<'s>(
    place: Place,
    script: &'s Script,
    frames: &mut Frames<'s>,
    shell: &mut Shell<'s>,
) -> Result<Payload, Halt>
    ensures { (z : Setting) → Turns z (λ call. commands.or_zero (view script.now) (commands.script_run z call (place_of place) (view script.now))) to_ended frames.old frames.new shell.old shell.new result }
{
    items_or_zero(place, script.items.as_slice(), frames, shell)
}

/// Descriptor 1 is opened for a buffer, and the environment before it is given.
pub fn buffer<'s>(shell: &mut Shell<'s>) -> Result<(Desc, Whole<'s>), Memory>
    ensures number { IfOk result (λ x. x.0.0 ≡ length shell.old.outside.outside.descs) }
    ensures before { IfOk result (λ x. whole_of x.1 ≡ whole_of shell.old.own) }
    ensures state { OnOk result (state_of shell.new ≡ shells.buffered owns.fds_of owns.with_fds (state_of shell.old)) }
    ensures bounds { OnOk result ((shell.new.turns ≡ shell.old.turns) × (shell.new.levels ≡ shell.old.levels)) }
    ensures table { OnOk result (shell.new.outside.rows ≡ shell.old.outside.rows) }
{
    let before = shell.own.copy(shell.alloc)?;
    let desc = shell.outside.open_buffer()?;
    shell.own.env.fds.set(1, Some(desc));
    Ok((desc, before))
}

/// `$(a)`: the commands run in a shell environment of their own, and what they write is kept.
#[tactic(auto, using(sh_frames::proofs::ShellLaws::substitution_goes))]
pub fn substitution<'s>(
    mode: Mode,
    script: &'s Script,
    word: Expanded,
    frames: &mut Frames<'s>,
    shell: &mut Shell<'s>,
) -> Result<Payload, Halt>
    ensures { (z : Setting) (place : expanding.Where) → Turns z (λ call. commands.part_run z call (mode_of mode) place (subst (view script.now)) (word_of word)) to_word frames.old frames.new shell.old shell.new result }
{
    let (desc, before) = buffer(shell)?;
    frames.push(Frame::Ended(FlowFrame::Substitution(desc, before, mode, word)))?;
    begin_or_zero(in_shell(), script, frames, shell)
}

fn without_nul(alloc: Global, bytes: &[u8]) -> Result<Vec<u8>, Memory>
    ensures { IfOk result (λ kept. kept.items ≡ without_nul bytes.now) }
{
    Ok(bytes.iter().copied().filter(|b| *b != 0).collect(alloc)?)
}

/// How many bytes stand before the newlines at the end.
fn kept_len(bytes: &[u8]) -> usize
    ensures { result ≡ length bytes.now - suffix_len shells.is_newline bytes.now }
{
    let mut len = bytes.len();
    'newlines: while len > 0 && bytes[len - 1] == b'\n' {
        len -= 1;
    }
    len
}

/// A text without NUL bytes, and then without the newlines at its end.
#[tactic(auto, unfolding(shell_runs::specs::Shells::substitution_text))]
fn substitution_text(alloc: Global, text: &[u8]) -> Result<Text, Memory>
    ensures { IfOk result (λ t. t ≡ shells.substitution_text text.now) }
{
    let mut bytes = without_nul(alloc, text)?;
    let len = kept_len(&bytes);
    bytes.truncate(len);
    Ok(Text::from_vec(bytes))
}

/// Behind `$(a)`: its text goes into the word, its status is `$?`, and the environment is that before it.
pub fn substituted<'s>(
    buffer: Desc,
    before: Whole<'s>,
    mode: Mode,
    word: Expanded,
    shell: &mut Shell<'s>,
) -> Result<Expanded, Halt>
    ensures { (flow : flows.Flow) → Does word_of (λ n s. after (shells.substituted owns.status_of owns.with_status buffer.0 (whole_of before.entry) flow n s) (expanding.subst_over (mode_of mode) (word_of word))) shell.old shell.new result }
{
    let mut word = word;
    let text = shell.outside.take_buffer(buffer);
    let text = substitution_text(shell.alloc, text.bytes())?;
    let status = shell.own.env.status;
    shell.own = before;
    shell.own.env.status = status;
    word.with_value(mode, text.bytes())?;
    word.ran = true;
    Ok(word)
}
