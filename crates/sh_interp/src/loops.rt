//! Loops (POSIX XCU 2.9.4.2, 2.9.4.5, 2.9.4.6). Each start of a body takes a turn.

ghost use Rattle.std.specs.Prelude.{◌≡◌, drop, option_map, IfOk, OnOk};
ghost use Rattle.shell_world.specs.Runs.{with_own};
ghost use Rattle.sh_syntax.specs.View.{view};
ghost use Rattle.sh_builtins.specs.Views.{flow_of, place_of};
ghost use Rattle.shell_runs.specs.Flow as flows;
ghost use Rattle.shell_runs.specs.Loops as loops;
ghost use Rattle.shell_runs.specs.Sequences as sequences;
ghost use Rattle.sh_meaning.specs.Commands as commands;
ghost use Rattle.sh_meaning.specs.Own as owns;
ghost use Rattle.sh_meaning.specs.Simple as simple;
ghost use Rattle.sh_interp.specs.Answers.{TakesTurn, Turns};
ghost use Rattle.sh_frames.specs.Payloads.{to_ended};
ghost use Rattle.sh_frames.specs.Exits.{loop_exit};
ghost use Rattle.sh_frames.specs.Turns.{loop_again};
ghost use Rattle.sh_interp.specs.Views.{arguments_of, state_of, whole_of};

use crate::frames::{FlowFrame, Frame, Frames, LoopParts};
use crate::halt::Halt;
use crate::payload::{Arguments, Payload};
use crate::shell::Shell;
use crate::substitutions::begin;
use sh_builtins::{Flow, Place, assign};
use sh_syntax::Script;
use span_text::{List, Memory, Text};

/// A turn is taken, where one is left.
pub fn take_turn(shell: &mut Shell) -> Result<(), Halt>
    ensures { TakesTurn shell.old shell.new result }
{
    if shell.turns == 0 {
        return Err(Halt::GoesOn);
    }
    shell.turns -= 1;
    Ok(())
}

/// The place of what stands in a loop at this one.
fn in_loop(place: Place) -> Result<Place, Memory>
    ensures { IfOk result (λ p. place_of p ≡ commands.in_loop (place_of place)) }
{
    match place.loops.checked_add(1) {
        None => Err(Memory {}),
        Some(loops) => Ok(Place {
            loops,
            in_function: place.in_function,
        }),
    }
}

/// A loop, whose last body had this status, with its test.
#[tactic(auto, using(sh_frames::proofs::LoopLaws::loop_goes, sh_meaning::proofs::WholeRuns::script_loop_unrolls))]
pub fn begin_loop<'s>(
    parts: LoopParts<'s>,
    last: u8,
    frames: &mut Frames<'s>,
    shell: &Shell<'s>,
) -> Result<Payload, Halt>
    ensures { (z : simple.Setting) → Turns z (λ call. loop_again z call (place_of parts.entry.place) parts.entry.until (view parts.entry.test.now) (view parts.entry.body.now) last) to_ended frames.old frames.new shell.now shell.now result }
{
    let place = in_loop(parts.place)?;
    frames.push(Frame::Ended(FlowFrame::LoopTest(parts, last)))?;
    begin(place, parts.test, frames, shell)
}

/// Whether a loop goes on behind a test with this status.
fn goes(until: bool, status: u8) -> bool
    ensures { (o : owns.Own) → o.status ≡ status → result ≡ commands.goes until o }
{
    (status == 0) != until
}

/// A body of a loop, which takes a turn.
#[tactic(auto, using(sh_frames::proofs::LoopLaws::body_goes))]
fn begin_body<'s>(
    parts: LoopParts<'s>,
    frames: &mut Frames<'s>,
    shell: &mut Shell<'s>,
) -> Result<Payload, Halt>
    ensures { (z : simple.Setting) → Turns z (λ call. sequences.take_turn (loops.body_run owns.status_of (commands.script_run z call (commands.in_loop (place_of parts.entry.place)) (view parts.entry.body.now)) (loop_again z call (place_of parts.entry.place) parts.entry.until (view parts.entry.test.now) (view parts.entry.body.now)))) to_ended frames.old frames.new shell.old shell.new result }
{
    take_turn(shell)?;
    let place = in_loop(parts.place)?;
    frames.push(Frame::Ended(FlowFrame::LoopBody(parts)))?;
    begin(place, parts.body, frames, shell)
}

/// How a loop ends whose commands ended so, where the next round doesn't start.
fn leaves(flow: Flow) -> Option<Flow>
    ensures { option_map flow_of result ≡ loop_exit (flow_of flow) }
{
    match flow {
        Flow::Normal => None,
        Flow::Breaks(more) => match more.checked_sub(1) {
            None => Some(Flow::Normal),
            Some(fewer) => Some(Flow::Breaks(fewer)),
        },
        Flow::Continues(more) => match more.checked_sub(1) {
            None => None,
            Some(fewer) => Some(Flow::Continues(fewer)),
        },
        Flow::Returns => Some(Flow::Returns),
        Flow::Exits => Some(Flow::Exits),
    }
}

/// Behind the test of a loop that ended as commands do: the body where the loop goes on, else the end, with the status of
/// the last body.
fn judged<'s>(
    parts: LoopParts<'s>,
    last: u8,
    frames: &mut Frames<'s>,
    shell: &mut Shell<'s>,
) -> Result<Payload, Halt>
    ensures { (z : simple.Setting) → Turns z (λ call. loops.test_over (commands.goes parts.entry.until) owns.status_of owns.with_status (commands.script_run z call (commands.in_loop (place_of parts.entry.place)) (view parts.entry.body.now)) (loop_again z call (place_of parts.entry.place) parts.entry.until (view parts.entry.test.now) (view parts.entry.body.now)) last flows.Normal) to_ended frames.old frames.new shell.old shell.new result }
{
    if goes(parts.until, shell.own.env.status) {
        return begin_body(parts, frames, shell);
    }
    shell.own.env.status = last;
    Ok(Payload::Ended(Flow::Normal))
}

/// Behind the test of a loop.
#[tactic(auto, using(sh_frames::proofs::LoopLaws::test_by))]
pub fn tested<'s>(
    parts: LoopParts<'s>,
    last: u8,
    flow: Flow,
    frames: &mut Frames<'s>,
    shell: &mut Shell<'s>,
) -> Result<Payload, Halt>
    ensures { (z : simple.Setting) → Turns z (λ call. loops.test_over (commands.goes parts.entry.until) owns.status_of owns.with_status (commands.script_run z call (commands.in_loop (place_of parts.entry.place)) (view parts.entry.body.now)) (loop_again z call (place_of parts.entry.place) parts.entry.until (view parts.entry.test.now) (view parts.entry.body.now)) last (flow_of flow)) to_ended frames.old frames.new shell.old shell.new result }
{
    if let Flow::Normal = flow {
        return judged(parts, last, frames, shell);
    }
    match leaves(flow) {
        None => {
            take_turn(shell)?;
            begin_loop(parts, last, frames, shell)
        }
        Some(end) => Ok(Payload::Ended(end)),
    }
}

/// Behind a body: the next round, or the end of the loop.
#[tactic(auto, using(sh_frames::proofs::LoopLaws::body_by))]
pub fn again<'s>(
    parts: LoopParts<'s>,
    flow: Flow,
    frames: &mut Frames<'s>,
    shell: &mut Shell<'s>,
) -> Result<Payload, Halt>
    ensures { (z : simple.Setting) → Turns z (λ call. loops.body_over owns.status_of (loop_again z call (place_of parts.entry.place) parts.entry.until (view parts.entry.test.now) (view parts.entry.body.now)) (flow_of flow)) to_ended frames.old frames.new shell.old shell.new result }
{
    match leaves(flow) {
        None => begin_loop(parts, shell.own.env.status, frames, shell),
        Some(end) => Ok(Payload::Ended(end)),
    }
}

// ---- `for`

/// The variable of a `for` gets its next text.
fn assign_item<'s>(name: &[u8], text: Text, shell: &mut Shell<'s>) -> Result<(), Memory>
    ensures state { OnOk result (state_of shell.new ≡ with_own (state_of shell.old) (owns.assigned name.now text (whole_of shell.old.own))) }
    ensures bounds { OnOk result ((shell.new.turns ≡ shell.old.turns) × (shell.new.levels ≡ shell.old.levels)) }
    ensures table { OnOk result (shell.new.outside.rows ≡ shell.old.outside.rows) }
{
    assign(
        &mut shell.own.env.vars,
        Text::copy(shell.alloc, name)?,
        text,
    )
}

/// The body for this text, which is assigned first, in a turn; so many of these texts aren't behind it.
fn one_round<'s>(
    place: Place,
    name: &'s [u8],
    body: &'s Script,
    text: Text,
    texts: List<Text>,
    done: usize,
    frames: &mut Frames<'s>,
    shell: &mut Shell<'s>,
) -> Result<Payload, Halt>
    ensures { (z : simple.Setting) → Turns z (λ call. sequences.take_turn (loops.item_run (owns.assigned name.now) (commands.script_run z call (commands.in_loop (place_of place)) (view body.now)) text (loops.items_run (owns.assigned name.now) (commands.script_run z call (commands.in_loop (place_of place)) (view body.now)) (drop done texts)))) to_ended frames.old frames.new shell.old shell.new result }
{
    take_turn(shell)?;
    assign_item(name, text, shell)?;
    frames.push(Frame::Ended(FlowFrame::Round(place, name, body, texts, done)))?;
    begin(in_loop(place)?, body, frames, shell)
}

/// The body for the next of these texts.
fn next_round<'s>(
    place: Place,
    name: &'s [u8],
    body: &'s Script,
    texts: List<Text>,
    done: usize,
    frames: &mut Frames<'s>,
    shell: &mut Shell<'s>,
) -> Result<Payload, Halt>
    ensures { (z : simple.Setting) → Turns z (λ call. loops.items_run (owns.assigned name.now) (commands.script_run z call (commands.in_loop (place_of place)) (view body.now)) (drop done texts)) to_ended frames.old frames.new shell.old shell.new result }
{
    if done >= texts.len() {
        return Ok(Payload::Ended(Flow::Normal));
    }
    let text = Text::copy(shell.alloc, texts.at(done).bytes())?;
    one_round(place, name, body, text, texts, done + 1, frames, shell)
}

/// `for` behind its words. Without a text the status is 0.
pub fn walk<'s>(
    place: Place,
    name: &'s [u8],
    body: &'s Script,
    args: Arguments,
    frames: &mut Frames<'s>,
    shell: &mut Shell<'s>,
) -> Result<Payload, Halt>
    ensures { (z : simple.Setting) → Turns z (λ call. commands.walk_over name.now (commands.script_run z call (commands.in_loop (place_of place)) (view body.now)) (arguments_of args)) to_ended frames.old frames.new shell.old shell.new result }
{
    if args.texts.len() == 0 {
        shell.own.env.status = 0;
        return Ok(Payload::Ended(Flow::Normal));
    }
    next_round(place, name, body, args.texts, 0, frames, shell)
}

/// Behind a body of `for`.
#[tactic(auto, using(sh_frames::proofs::LoopLaws::item_by))]
pub fn round<'s>(
    place: Place,
    name: &'s [u8],
    body: &'s Script,
    texts: List<Text>,
    done: usize,
    flow: Flow,
    frames: &mut Frames<'s>,
    shell: &mut Shell<'s>,
) -> Result<Payload, Halt>
    ensures { (z : simple.Setting) → Turns z (λ call. loops.item_over (loops.items_run (owns.assigned name.now) (commands.script_run z call (commands.in_loop (place_of place)) (view body.now)) (drop done texts)) (flow_of flow)) to_ended frames.old frames.new shell.old shell.new result }
{
    match leaves(flow) {
        None => next_round(place, name, body, texts, done, frames, shell),
        Some(end) => Ok(Payload::Ended(end)),
    }
}
