//! What each frame makes of what it waited for.

ghost use Rattle.std.specs.Prelude.{◌≡◌, List};
ghost use Rattle.sh_builtins.specs.Views.{flow_of};
ghost use Rattle.sh_expansion.specs.Views.{mode_of, word_of};
ghost use Rattle.sh_meaning.specs.Simple as simple;
ghost use Rattle.shell_runs.specs.Calls as calls;
ghost use Rattle.shell_runs.specs.Redirecting.{fds_back as fds_back_run};
ghost use Rattle.shell_runs.specs.Shells as shells;
ghost use Rattle.shell_world.specs.Runs.{after};
ghost use Rattle.sh_meaning.specs.Expanding as expanding;
ghost use Rattle.sh_meaning.specs.Own as owns;
ghost use Rattle.sh_meaning.specs.Own.{with_fds};
ghost use Rattle.sh_interp.specs.Answers.{Does, Leads};
ghost use Rattle.sh_frames.specs.Frames as kinds;
ghost use Rattle.sh_frames.specs.Turns as turns;
ghost use Rattle.sh_frames.specs.Turns.{go_on};
ghost use Rattle.sh_interp.specs.Views.{setting_of, stack_of, state_of, payload_of, frame_of, word_frame_of, numbers_frame_of, fields_frame_of, arguments_frame_of, truth_frame_of, saved_frame_of, made_frame_of, flow_frame_of, whole_of, operands_of, fielded_of, arguments_of, saved_of, made_of};

use crate::assigns::{assigned, assigns, exported, nameless, prefix};
use crate::cases::{pattern, patterns, subject};
use crate::commands::{handed, leave_pipeline, leave_shell, links, negated, script};
use crate::compounds::branch;
use crate::fields::{field, pathnames, words};
use crate::frames::{
    ArgumentsFrame, FieldsFrame, FlowFrame, Frame, Frames, MadeFrame, NumbersFrame, SavedFrame,
    TruthFrame, WordFrame,
};
use crate::halt::Halt;
use crate::jobs::{job, prefixed, simple};
use crate::loops::{again, round, tested, walk};
use crate::params::{assigning_over, trimming_over};
use crate::payload::{Arguments, Fielded, Made, Operands, Payload};
use crate::redirects::{redirects, target};
use crate::shell::{Setting, Shell, Whole};
use crate::substitutions::substituted;
use crate::sums::{operand, operands, sum};
use crate::words::{parts, quoted};
use sh_builtins::Flow;
use sh_expansion::{Expanded, Mode};
use sh_meaning::Variable;
use shell_world::{Desc, Fds};
use span_text::{List, Text};

fn word_turn<'s>(
    frame: WordFrame<'s>,
    word: Expanded,
    frames: &mut Frames<'s>,
    shell: &mut Shell<'s>,
) -> Result<Payload, Halt>
    ensures { (z : simple.Setting) → Leads z (turns.word_turn z (word_frame_of frame.entry) shell.old.levels (word_of word) (go_on z (stack_of frames.old)) shell.old.turns (state_of shell.old)) shell.old.outside.rows frames.new shell.new result }
{
    match frame {
        WordFrame::Parts(mode, place, rest) => parts(mode, place, rest, word, frames, shell),
        WordFrame::Quoted => Ok(Payload::Word(quoted(word)?)),
        WordFrame::Assigning(mode, name, before) => {
            Ok(Payload::Word(assigning_over(mode, name, before, word, shell)?))
        }
        WordFrame::Trimming(mode, suffix, longest, text, before) => {
            let text = text.bytes();
            let word = trimming_over(mode, suffix, longest, text, before, word, shell)?;
            Ok(Payload::Word(word))
        }
        WordFrame::Operand(signs, before, rest) => {
            operand(signs, before, rest, word, frames, shell)
        }
        WordFrame::Field(role, written, done) => {
            Ok(Payload::Fields(field(role, written, done, word, shell)?))
        }
        WordFrame::Pattern(rest) => pattern(rest, word, frames, shell),
        WordFrame::Subject(place, items) => subject(place, items, word, frames, shell),
        WordFrame::Value(name) => Ok(Payload::Truth(assigned(name, word, shell)?)),
        WordFrame::PrefixValue(name, before) => {
            Ok(Payload::Saved(exported(name, before, word, shell)?))
        }
        WordFrame::Target(fd, op) => Ok(Payload::Made(target(fd, op, word, shell)?)),
    }
}

fn numbers_turn<'s>(
    frame: NumbersFrame<'s>,
    numbers: Operands,
    frames: &mut Frames<'s>,
    shell: &mut Shell<'s>,
) -> Result<Payload, Halt>
    ensures { (z : simple.Setting) → Leads z (turns.numbers_turn z (numbers_frame_of frame.entry) shell.old.levels (operands_of numbers) (go_on z (stack_of frames.old)) shell.old.turns (state_of shell.old)) shell.old.outside.rows frames.new shell.new result }
{
    match frame {
        NumbersFrame::Operands(signs, rest) => operands(signs, rest, numbers, frames, shell),
        NumbersFrame::Sum(mode, expr, word) => {
            Ok(Payload::Word(sum(mode, expr, word, numbers, shell)?))
        }
    }
}

fn fields_turn<'s>(
    frame: FieldsFrame<'s>,
    done: Fielded,
    frames: &mut Frames<'s>,
    shell: &mut Shell<'s>,
) -> Result<Payload, Halt>
    ensures { (z : simple.Setting) → Leads z (turns.fields_turn z (fields_frame_of frame.entry) shell.old.levels (fielded_of done) (go_on z (stack_of frames.old)) shell.old.turns (state_of shell.old)) shell.old.outside.rows frames.new shell.new result }
{
    match frame {
        FieldsFrame::Words(role, rest) => words(role, rest, done, frames, shell),
        FieldsFrame::Pathnames => Ok(Payload::Arguments(pathnames(done, shell)?)),
    }
}

fn arguments_turn<'s>(
    frame: ArgumentsFrame<'s>,
    args: Arguments,
    frames: &mut Frames<'s>,
    shell: &mut Shell<'s>,
) -> Result<Payload, Halt>
    ensures { (z : simple.Setting) → Leads z (turns.arguments_turn z (arguments_frame_of frame.entry) shell.old.levels (arguments_of args) (go_on z (stack_of frames.old)) shell.old.turns (state_of shell.old)) shell.old.outside.rows frames.new shell.new result }
{
    match frame {
        ArgumentsFrame::Simple(place, assigns, words, redirects) => {
            simple(place, assigns, words, redirects, args, frames, shell)
        }
        ArgumentsFrame::Walk(place, name, body) => { walk(place, name, body, args, frames, shell) }
    }
}

fn truth_turn<'s>(
    frame: TruthFrame<'s>,
    truth: bool,
    frames: &mut Frames<'s>,
    shell: &mut Shell<'s>,
) -> Result<Payload, Halt>
    ensures { (z : simple.Setting) → Leads z (turns.truth_turn z (truth_frame_of frame.entry) shell.old.levels truth (go_on z (stack_of frames.old)) shell.old.turns (state_of shell.old)) shell.old.outside.rows frames.new shell.new result }
{
    match frame {
        TruthFrame::Patterns(rest) => patterns(rest, truth, frames, shell),
        TruthFrame::Assigns(rest) => assigns(rest, truth, frames, shell),
        TruthFrame::Nameless => Ok(Payload::Ended(nameless(truth, shell)?)),
    }
}

fn saved_turn<'s>(
    setting: &Setting<'s>,
    frame: SavedFrame<'s>,
    before: List<(Text, Option<Variable>)>,
    frames: &mut Frames<'s>,
    shell: &mut Shell<'s>,
) -> Result<Payload, Halt>
    requires { shell.old.outside.rows ≡ setting.now.world.now.rows }
    ensures { Leads (setting_of setting.now) (turns.saved_turn (setting_of setting.now) (saved_frame_of frame.entry) shell.old.levels (saved_of before) (go_on (setting_of setting.now) (stack_of frames.old)) shell.old.turns (state_of shell.old)) shell.old.outside.rows frames.new shell.new result }
{
    match frame {
        SavedFrame::Prefix(rest) => prefix(rest, before, frames, shell),
        SavedFrame::Prefixed(command) => {
            Ok(Payload::Ended(prefixed(setting, command, before, shell)?))
        }
    }
}

fn made_turn<'s>(
    setting: &Setting<'s>,
    frame: MadeFrame<'s>,
    made: Made,
    frames: &mut Frames<'s>,
    shell: &mut Shell<'s>,
) -> Result<Payload, Halt>
    ensures { Leads (setting_of setting.now) (turns.made_turn (setting_of setting.now) (made_frame_of frame.entry) shell.old.levels (made_of made) (go_on (setting_of setting.now) (stack_of frames.old)) shell.old.turns (state_of shell.old)) shell.old.outside.rows frames.new shell.new result }
{
    match frame {
        MadeFrame::Redirects(rest) => redirects(rest, made, frames, shell),
        MadeFrame::Job(next) => job(setting, next, made, frames, shell),
    }
}

/// Behind redirections: the descriptors are as before them.
fn fds_back<'s>(fds: Fds, flow: Flow, shell: &mut Shell<'s>) -> Result<Flow, Halt>
    ensures { Does flow_of (fds_back_run with_fds fds (flow_of flow)) shell.old shell.new result }
{
    shell.own.env.fds = fds;
    Ok(flow)
}

/// Where the commands go on behind a function's body.
fn returned(flow: Flow) -> Flow
    ensures { flow_of result ≡ calls.returned (flow_of flow) }
{
    match flow {
        Flow::Normal => Flow::Normal,
        Flow::Breaks(more) => Flow::Breaks(more),
        Flow::Continues(more) => Flow::Continues(more),
        Flow::Returns => Flow::Normal,
        Flow::Exits => Flow::Exits,
    }
}

/// Behind a subshell, however it ended.
fn shell_left<'s>(before: Whole<'s>, flow: Flow, shell: &mut Shell<'s>) -> Result<Flow, Halt>
    ensures { Does flow_of (shells.shell_over owns.status_of owns.with_status (whole_of before.entry) (flow_of flow)) shell.old shell.new result }
{
    let _ = flow;
    leave_shell(before, shell)
}

/// Behind a command substitution, however it ended.
fn script_substituted<'s>(
    buffer: Desc,
    before: Whole<'s>,
    mode: Mode,
    word: Expanded,
    flow: Flow,
    shell: &mut Shell<'s>,
) -> Result<Expanded, Halt>
    ensures { Does word_of (λ n s. after (shells.substituted owns.status_of owns.with_status buffer.0 (whole_of before.entry) (flow_of flow) n s) (expanding.subst_over (mode_of mode) (word_of word))) shell.old shell.new result }
{
    let _ = flow;
    substituted(buffer, before, mode, word, shell)
}

fn ended_turn<'s>(
    setting: &Setting<'s>,
    frame: FlowFrame<'s>,
    flow: Flow,
    frames: &mut Frames<'s>,
    shell: &mut Shell<'s>,
) -> Result<Payload, Halt>
    ensures { Leads (setting_of setting.now) (turns.ended_turn (setting_of setting.now) (flow_frame_of frame.entry) shell.old.levels (flow_of flow) (go_on (setting_of setting.now) (stack_of frames.old)) shell.old.turns (state_of shell.old)) shell.old.outside.rows frames.new shell.new result }
{
    match frame {
        FlowFrame::Script(place, items) => script(place, items, flow, frames, shell),
        FlowFrame::Links(place, rest) => links(place, rest, flow, frames, shell),
        FlowFrame::Negation => Ok(Payload::Ended(negated(flow, shell)?)),
        FlowFrame::Stage(desc, before, rest) => handed(desc, before, rest, frames, shell),
        FlowFrame::Pipeline(before) => {
            Ok(Payload::Ended(leave_pipeline(setting, before, flow, shell)?))
        }
        FlowFrame::Shell(before) => Ok(Payload::Ended(shell_left(before, flow, shell)?)),
        FlowFrame::Substitution(desc, before, mode, word) => {
            Ok(Payload::Word(script_substituted(desc, before, mode, word, flow, shell)?))
        }
        FlowFrame::FdsBack(fds) => Ok(Payload::Ended(fds_back(fds, flow, shell)?)),
        FlowFrame::Branch(place, body, parts, last) => {
            branch(place, body, parts, last, flow, frames, shell)
        }
        FlowFrame::LoopTest(parts, last) => tested(parts, last, flow, frames, shell),
        FlowFrame::LoopBody(parts) => again(parts, flow, frames, shell),
        FlowFrame::Round(place, name, body, texts, done) => {
            round(place, name, body, texts, done, flow, frames, shell)
        }
        FlowFrame::Called(params, levels) => {
            shell.own.env.params = params;
            shell.levels = levels;
            Ok(Payload::Ended(returned(flow)))
        }
    }
}

// ---- a frame and what comes to it: another kind is unspecified, and never comes

fn on_word<'s>(
    frame: WordFrame<'s>,
    payload: Payload,
    frames: &mut Frames<'s>,
    shell: &mut Shell<'s>,
) -> Result<Payload, Halt>
    ensures { (z : simple.Setting) → Leads z (turns.turn z (kinds.on_word (word_frame_of frame.entry)) shell.old.levels (payload_of payload) (go_on z (stack_of frames.old)) shell.old.turns (state_of shell.old)) shell.old.outside.rows frames.new shell.new result }
{
    match payload {
        Payload::Word(x) => word_turn(frame, x, frames, shell),
        Payload::Ended(_) => Err(Halt::Unspecified),
        Payload::Numbers(_) => Err(Halt::Unspecified),
        Payload::Fields(_) => Err(Halt::Unspecified),
        Payload::Arguments(_) => Err(Halt::Unspecified),
        Payload::Truth(_) => Err(Halt::Unspecified),
        Payload::Saved(_) => Err(Halt::Unspecified),
        Payload::Made(_) => Err(Halt::Unspecified),
    }
}

fn on_numbers<'s>(
    frame: NumbersFrame<'s>,
    payload: Payload,
    frames: &mut Frames<'s>,
    shell: &mut Shell<'s>,
) -> Result<Payload, Halt>
    ensures { (z : simple.Setting) → Leads z (turns.turn z (kinds.on_numbers (numbers_frame_of frame.entry)) shell.old.levels (payload_of payload) (go_on z (stack_of frames.old)) shell.old.turns (state_of shell.old)) shell.old.outside.rows frames.new shell.new result }
{
    match payload {
        Payload::Numbers(x) => numbers_turn(frame, x, frames, shell),
        Payload::Ended(_) => Err(Halt::Unspecified),
        Payload::Word(_) => Err(Halt::Unspecified),
        Payload::Fields(_) => Err(Halt::Unspecified),
        Payload::Arguments(_) => Err(Halt::Unspecified),
        Payload::Truth(_) => Err(Halt::Unspecified),
        Payload::Saved(_) => Err(Halt::Unspecified),
        Payload::Made(_) => Err(Halt::Unspecified),
    }
}

fn on_fields<'s>(
    frame: FieldsFrame<'s>,
    payload: Payload,
    frames: &mut Frames<'s>,
    shell: &mut Shell<'s>,
) -> Result<Payload, Halt>
    ensures { (z : simple.Setting) → Leads z (turns.turn z (kinds.on_fields (fields_frame_of frame.entry)) shell.old.levels (payload_of payload) (go_on z (stack_of frames.old)) shell.old.turns (state_of shell.old)) shell.old.outside.rows frames.new shell.new result }
{
    match payload {
        Payload::Fields(x) => fields_turn(frame, x, frames, shell),
        Payload::Ended(_) => Err(Halt::Unspecified),
        Payload::Word(_) => Err(Halt::Unspecified),
        Payload::Numbers(_) => Err(Halt::Unspecified),
        Payload::Arguments(_) => Err(Halt::Unspecified),
        Payload::Truth(_) => Err(Halt::Unspecified),
        Payload::Saved(_) => Err(Halt::Unspecified),
        Payload::Made(_) => Err(Halt::Unspecified),
    }
}

fn on_arguments<'s>(
    frame: ArgumentsFrame<'s>,
    payload: Payload,
    frames: &mut Frames<'s>,
    shell: &mut Shell<'s>,
) -> Result<Payload, Halt>
    ensures { (z : simple.Setting) → Leads z (turns.turn z (kinds.on_arguments (arguments_frame_of frame.entry)) shell.old.levels (payload_of payload) (go_on z (stack_of frames.old)) shell.old.turns (state_of shell.old)) shell.old.outside.rows frames.new shell.new result }
{
    match payload {
        Payload::Arguments(x) => arguments_turn(frame, x, frames, shell),
        Payload::Ended(_) => Err(Halt::Unspecified),
        Payload::Word(_) => Err(Halt::Unspecified),
        Payload::Numbers(_) => Err(Halt::Unspecified),
        Payload::Fields(_) => Err(Halt::Unspecified),
        Payload::Truth(_) => Err(Halt::Unspecified),
        Payload::Saved(_) => Err(Halt::Unspecified),
        Payload::Made(_) => Err(Halt::Unspecified),
    }
}

fn on_truth<'s>(
    frame: TruthFrame<'s>,
    payload: Payload,
    frames: &mut Frames<'s>,
    shell: &mut Shell<'s>,
) -> Result<Payload, Halt>
    ensures { (z : simple.Setting) → Leads z (turns.turn z (kinds.on_truth (truth_frame_of frame.entry)) shell.old.levels (payload_of payload) (go_on z (stack_of frames.old)) shell.old.turns (state_of shell.old)) shell.old.outside.rows frames.new shell.new result }
{
    match payload {
        Payload::Truth(x) => truth_turn(frame, x, frames, shell),
        Payload::Ended(_) => Err(Halt::Unspecified),
        Payload::Word(_) => Err(Halt::Unspecified),
        Payload::Numbers(_) => Err(Halt::Unspecified),
        Payload::Fields(_) => Err(Halt::Unspecified),
        Payload::Arguments(_) => Err(Halt::Unspecified),
        Payload::Saved(_) => Err(Halt::Unspecified),
        Payload::Made(_) => Err(Halt::Unspecified),
    }
}

fn on_saved<'s>(
    setting: &Setting<'s>,
    frame: SavedFrame<'s>,
    payload: Payload,
    frames: &mut Frames<'s>,
    shell: &mut Shell<'s>,
) -> Result<Payload, Halt>
    requires { shell.old.outside.rows ≡ setting.now.world.now.rows }
    ensures { Leads (setting_of setting.now) (turns.turn (setting_of setting.now) (kinds.on_saved (saved_frame_of frame.entry)) shell.old.levels (payload_of payload) (go_on (setting_of setting.now) (stack_of frames.old)) shell.old.turns (state_of shell.old)) shell.old.outside.rows frames.new shell.new result }
{
    match payload {
        Payload::Saved(x) => saved_turn(setting, frame, x, frames, shell),
        Payload::Ended(_) => Err(Halt::Unspecified),
        Payload::Word(_) => Err(Halt::Unspecified),
        Payload::Numbers(_) => Err(Halt::Unspecified),
        Payload::Fields(_) => Err(Halt::Unspecified),
        Payload::Arguments(_) => Err(Halt::Unspecified),
        Payload::Truth(_) => Err(Halt::Unspecified),
        Payload::Made(_) => Err(Halt::Unspecified),
    }
}

fn on_made<'s>(
    setting: &Setting<'s>,
    frame: MadeFrame<'s>,
    payload: Payload,
    frames: &mut Frames<'s>,
    shell: &mut Shell<'s>,
) -> Result<Payload, Halt>
    requires { shell.old.outside.rows ≡ setting.now.world.now.rows }
    ensures { Leads (setting_of setting.now) (turns.turn (setting_of setting.now) (kinds.on_made (made_frame_of frame.entry)) shell.old.levels (payload_of payload) (go_on (setting_of setting.now) (stack_of frames.old)) shell.old.turns (state_of shell.old)) shell.old.outside.rows frames.new shell.new result }
{
    match payload {
        Payload::Made(x) => made_turn(setting, frame, x, frames, shell),
        Payload::Ended(_) => Err(Halt::Unspecified),
        Payload::Word(_) => Err(Halt::Unspecified),
        Payload::Numbers(_) => Err(Halt::Unspecified),
        Payload::Fields(_) => Err(Halt::Unspecified),
        Payload::Arguments(_) => Err(Halt::Unspecified),
        Payload::Truth(_) => Err(Halt::Unspecified),
        Payload::Saved(_) => Err(Halt::Unspecified),
    }
}

fn on_ended<'s>(
    setting: &Setting<'s>,
    frame: FlowFrame<'s>,
    payload: Payload,
    frames: &mut Frames<'s>,
    shell: &mut Shell<'s>,
) -> Result<Payload, Halt>
    requires { shell.old.outside.rows ≡ setting.now.world.now.rows }
    ensures { Leads (setting_of setting.now) (turns.turn (setting_of setting.now) (kinds.on_ended (flow_frame_of frame.entry)) shell.old.levels (payload_of payload) (go_on (setting_of setting.now) (stack_of frames.old)) shell.old.turns (state_of shell.old)) shell.old.outside.rows frames.new shell.new result }
{
    match payload {
        Payload::Ended(x) => ended_turn(setting, frame, x, frames, shell),
        Payload::Word(_) => Err(Halt::Unspecified),
        Payload::Numbers(_) => Err(Halt::Unspecified),
        Payload::Fields(_) => Err(Halt::Unspecified),
        Payload::Arguments(_) => Err(Halt::Unspecified),
        Payload::Truth(_) => Err(Halt::Unspecified),
        Payload::Saved(_) => Err(Halt::Unspecified),
        Payload::Made(_) => Err(Halt::Unspecified),
    }
}

/// What a frame makes of what it waited for.
pub fn turn<'s>(
    setting: &Setting<'s>,
    frame: Frame<'s>,
    payload: Payload,
    frames: &mut Frames<'s>,
    shell: &mut Shell<'s>,
) -> Result<Payload, Halt>
    requires { shell.old.outside.rows ≡ setting.now.world.now.rows }
    ensures { Leads (setting_of setting.now) (turns.turn (setting_of setting.now) (frame_of frame.entry) shell.old.levels (payload_of payload) (go_on (setting_of setting.now) (stack_of frames.old)) shell.old.turns (state_of shell.old)) shell.old.outside.rows frames.new shell.new result }
{
    match frame {
        Frame::Word(f) => on_word(f, payload, frames, shell),
        Frame::Numbers(f) => on_numbers(f, payload, frames, shell),
        Frame::Fields(f) => on_fields(f, payload, frames, shell),
        Frame::Arguments(f) => on_arguments(f, payload, frames, shell),
        Frame::Truth(f) => on_truth(f, payload, frames, shell),
        Frame::Saved(f) => on_saved(setting, f, payload, frames, shell),
        Frame::Made(f) => on_made(setting, f, payload, frames, shell),
        Frame::Ended(f) => on_ended(setting, f, payload, frames, shell),
    }
}
