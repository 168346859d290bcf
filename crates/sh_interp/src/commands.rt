//! Scripts, lists, pipelines and commands (POSIX XCU 2.9.2, 2.9.3).

ghost use Rattle.std.specs.Prelude.{◌≡◌, ◌∷◌, map, true, OnOk};
ghost use Rattle.sh_grammar.specs.Shape as shape;
ghost use Rattle.sh_syntax.specs.View.{view_assign, view_chain, view_command, view_redirect, view_word, view_item, view_pipeline, view_kind, assigns_of, items_of, links_of, redirects_of, stages_of, words_of};
ghost use Rattle.sh_checks.specs.Branches.{link_views};
ghost use Rattle.sh_builtins.specs.Views.{flow_of, place_of};
ghost use Rattle.shell_runs.specs.Sequences as sequences;
ghost use Rattle.shell_runs.specs.Shells as shells;
ghost use Rattle.sh_meaning.specs.Commands as commands;
ghost use Rattle.sh_meaning.specs.Own as owns;
ghost use Rattle.sh_meaning.specs.Simple as simple;
ghost use Rattle.sh_interp.specs.Answers.{Does, Turns};
ghost use Rattle.sh_frames.specs.Payloads.{to_ended};
ghost use Rattle.sh_interp.specs.Views.{setting_of, state_of, whole_of};

use crate::fields::words;
use crate::frames::{ArgumentsFrame, FieldsFrame, FlowFrame, Frame, Frames, Job};
use crate::halt::Halt;
use crate::jobs::begin;
use crate::payload::{Fielded, Payload};
use crate::shell::{Setting, Shell, Whole};
use crate::substitutions::{buffer, in_shell};
use sh_builtins::{Environment, Flow, Place};
use sh_checks::Role;
use sh_syntax::{AndOr, Assign, Command, CommandKind, Item, Joint, Pipeline, Redirect, Word};
use shell_world::Desc;
use span_text::{List, Memory};

/// A simple command: its words first (2.9.1).
fn simple<'s>(
    place: Place,
    assigns: &'s [Assign],
    list: &'s [Word],
    redirects: &'s [Redirect],
    frames: &mut Frames<'s>,
    shell: &Shell<'s>,
) -> Result<Payload, Halt>
    ensures { (z : simple.Setting) → Turns z (λ call. commands.kind_run z call (place_of place) (commands.redirects_run z call (redirects_of (map view_redirect redirects.now))) (shape.simple (assigns_of (map view_assign assigns.now)) (words_of (map view_word list.now)))) to_ended frames.old frames.new shell.now shell.now result }
{
    let none = Fielded {
        fields: List::new(shell.alloc),
        ran: false,
    };
    let next = ArgumentsFrame::Simple(place, assigns, list, redirects);
    frames.push(Frame::Arguments(next))?;
    frames.push(Frame::Fields(FieldsFrame::Pathnames))?;
    words(Role::Name, list, none, frames, shell)
}

/// A command begins: a simple one with its words, another with its redirections.
pub fn command<'s>(
    place: Place,
    command: &'s Command,
    frames: &mut Frames<'s>,
    shell: &Shell<'s>,
) -> Result<Payload, Halt>
    ensures { (z : simple.Setting) → Turns z (λ call. commands.command_run z call (place_of place) (view_command command.now)) to_ended frames.old frames.new shell.now shell.now result }
{
    let redirects = command.redirects.as_slice();
    let kind = &command.kind;
    match kind {
        CommandKind::Simple { assigns, words } => {
            let words = words.as_slice();
            simple(place, assigns.as_slice(), words, redirects, frames, shell)
        }
        CommandKind::Group(_) => {
            begin(Job::Compound(place, kind), redirects, false, frames, shell)
        }
        CommandKind::Subshell(_) => {
            begin(Job::Compound(place, kind), redirects, false, frames, shell)
        }
        CommandKind::If { .. } => {
            begin(Job::Compound(place, kind), redirects, false, frames, shell)
        }
        CommandKind::Loop { .. } => {
            begin(Job::Compound(place, kind), redirects, false, frames, shell)
        }
        CommandKind::For { .. } => {
            begin(Job::Compound(place, kind), redirects, false, frames, shell)
        }
        CommandKind::Case { .. } => {
            begin(Job::Compound(place, kind), redirects, false, frames, shell)
        }
        CommandKind::Function(_) => {
            begin(Job::Compound(place, kind), redirects, false, frames, shell)
        }
    }
}

// ---- pipelines

/// A stage with others behind it: what it writes is what the next one reads.
fn stage<'s>(
    first: &'s Command,
    rest: &'s [Command],
    frames: &mut Frames<'s>,
    shell: &mut Shell<'s>,
) -> Result<Payload, Halt>
    ensures { (z : simple.Setting) → Turns z (λ call. shells.stage_run owns.fds_of owns.with_fds (commands.command_run z call commands.in_shell_place (view_command first.now)) (commands.piped_run z call (stages_of (map view_command rest.now)))) to_ended frames.old frames.new shell.old shell.new result }
{
    let (desc, before) = buffer(shell)?;
    frames.push(Frame::Ended(FlowFrame::Stage(desc, before, rest)))?;
    command(in_shell(), first, frames, shell)
}

/// The stages behind one: this one, and those behind it.
fn piped_from<'s>(
    first: &'s Command,
    rest: &'s [Command],
    frames: &mut Frames<'s>,
    shell: &mut Shell<'s>,
) -> Result<Payload, Halt>
    ensures { (z : simple.Setting) → Turns z (λ call. commands.piped_run z call (shape.stage (view_command first.now) (stages_of (map view_command rest.now)))) to_ended frames.old frames.new shell.old shell.new result }
{
    match rest {
        [] => command(in_shell(), first, frames, shell),
        [_, ..] => stage(first, rest, frames, shell),
    }
}

fn piped<'s>(
    stages: &'s [Command],
    frames: &mut Frames<'s>,
    shell: &mut Shell<'s>,
) -> Result<Payload, Halt>
    ensures { (z : simple.Setting) → Turns z (λ call. commands.piped_run z call (stages_of (map view_command stages.now))) to_ended frames.old frames.new shell.old shell.new result }
{
    match stages {
        [] => Ok(Payload::Ended(Flow::Normal)),
        [first, rest @ ..] => piped_from(first, rest, frames, shell),
    }
}

/// What a stage wrote is what the next one reads, in the environment before it.
fn hand<'s>(buffer: Desc, before: Whole<'s>, shell: &mut Shell<'s>) -> Result<(), Memory>
    ensures state { OnOk result (state_of shell.new ≡ shells.handed owns.fds_of owns.with_fds buffer.0 (whole_of before.entry) (state_of shell.old)) }
    ensures bounds { OnOk result ((shell.new.turns ≡ shell.old.turns) × (shell.new.levels ≡ shell.old.levels)) }
    ensures table { OnOk result (shell.new.outside.rows ≡ shell.old.outside.rows) }
{
    let text = shell.outside.take_buffer(buffer);
    let desc = shell.outside.open_text(text)?;
    shell.own = before;
    shell.own.env.fds.set(0, Some(desc));
    Ok(())
}

/// Behind a stage that isn't the last one.
pub fn handed<'s>(
    buffer: Desc,
    before: Whole<'s>,
    rest: &'s [Command],
    frames: &mut Frames<'s>,
    shell: &mut Shell<'s>,
) -> Result<Payload, Halt>
    ensures { (z : simple.Setting) (flow : Flow) → Turns z (λ call. shells.stage_over owns.fds_of owns.with_fds buffer.0 (whole_of before.entry) (commands.piped_run z call (stages_of (map view_command rest.now))) (flow_of flow)) to_ended frames.old frames.new shell.old shell.new result }
{
    hand(buffer, before, shell)?;
    piped(rest, frames, shell)
}

/// Stages: one alone runs in the current environment.
fn stages_from<'s>(
    place: Place,
    first: &'s Command,
    rest: &'s [Command],
    frames: &mut Frames<'s>,
    shell: &mut Shell<'s>,
) -> Result<Payload, Halt>
    ensures { (z : simple.Setting) → Turns z (λ call. commands.stages_run z call (place_of place) (shape.stage (view_command first.now) (stages_of (map view_command rest.now)))) to_ended frames.old frames.new shell.old shell.new result }
{
    match rest {
        [] => command(place, first, frames, shell),
        [_, ..] => {
            let before = shell.own.copy(shell.alloc)?;
            frames.push(Frame::Ended(FlowFrame::Pipeline(before)))?;
            stage(first, rest, frames, shell)
        }
    }
}

fn stages<'s>(
    place: Place,
    stages: &'s [Command],
    frames: &mut Frames<'s>,
    shell: &mut Shell<'s>,
) -> Result<Payload, Halt>
    ensures { (z : simple.Setting) → Turns z (λ call. commands.stages_run z call (place_of place) (stages_of (map view_command stages.now))) to_ended frames.old frames.new shell.old shell.new result }
{
    match stages {
        [] => Ok(Payload::Ended(Flow::Normal)),
        [first, rest @ ..] => stages_from(place, first, rest, frames, shell),
    }
}

/// Behind a subshell: the environment is that before it, with its status.
pub fn leave_shell<'s>(before: Whole<'s>, shell: &mut Shell<'s>) -> Result<Flow, Halt>
    ensures { (flow : Flow) → Does flow_of (shells.shell_over owns.status_of owns.with_status (whole_of before.entry) (flow_of flow)) shell.old shell.new result }
{
    let status = shell.own.env.status;
    shell.own = before;
    shell.own.env.status = status;
    Ok(Flow::Normal)
}

/// Behind the last stage: it ran in the current environment, of which only the descriptors are as before, or in a subshell.
pub fn leave_pipeline<'s>(
    setting: &Setting<'s>,
    before: Whole<'s>,
    flow: Flow,
    shell: &mut Shell<'s>,
) -> Result<Flow, Halt>
    ensures { Does flow_of (shells.pipeline_over (setting_of setting.now).world.latitude.last_current owns.with_fds owns.fds_of owns.status_of owns.with_status (whole_of before.entry) (flow_of flow)) shell.old shell.new result }
{
    if setting.world.latitude.last_current {
        let Whole { env, functions: _ } = before;
        let Environment {
            vars: _,
            params: _,
            status: _,
            fds,
        } = env;
        shell.own.env.fds = fds;
        return Ok(flow);
    }
    leave_shell(before, shell)
}

/// `!` turns the status round.
pub fn negated<'s>(flow: Flow, shell: &mut Shell<'s>) -> Result<Flow, Halt>
    ensures { Does flow_of (sequences.if_normal (sequences.now commands.negated) (flow_of flow)) shell.old shell.new result }
{
    if let Flow::Normal = flow {
        shell.own.env.status = u8::from(shell.own.env.status == 0);
    }
    Ok(flow)
}

/// Stages behind `!`.
fn negating<'s>(
    place: Place,
    list: &'s [Command],
    frames: &mut Frames<'s>,
    shell: &mut Shell<'s>,
) -> Result<Payload, Halt>
    ensures { (z : simple.Setting) → Turns z (λ call. commands.negated_run true (commands.stages_run z call (place_of place) (stages_of (map view_command list.now)))) to_ended frames.old frames.new shell.old shell.new result }
{
    frames.push(Frame::Ended(FlowFrame::Negation))?;
    stages(place, list, frames, shell)
}

fn pipeline<'s>(
    place: Place,
    pipeline: &'s Pipeline,
    frames: &mut Frames<'s>,
    shell: &mut Shell<'s>,
) -> Result<Payload, Halt>
    ensures { (z : simple.Setting) → Turns z (λ call. commands.pipeline_run z call (place_of place) (view_pipeline pipeline.now)) to_ended frames.old frames.new shell.old shell.new result }
{
    let list = pipeline.stages.as_slice();
    let negated = pipeline.negated;
    if negated {
        return negating(place, list, frames, shell);
    }
    stages(place, list, frames, shell)
}

// ---- lists

/// The next pipeline, where its joint lets it run, and those behind it.
fn joined<'s>(
    place: Place,
    joint: &'s Joint,
    next: &'s Pipeline,
    rest: &'s [(Joint, Pipeline)],
    frames: &mut Frames<'s>,
    shell: &mut Shell<'s>,
) -> Result<Payload, Halt>
    ensures { (z : simple.Setting) → Turns z (λ call. commands.links_run z call (place_of place) (links_of ((joint.now, view_pipeline next.now) ∷ link_views rest.now))) to_ended frames.old frames.new shell.old shell.new result }
{
    frames.push(Frame::Ended(FlowFrame::Links(place, rest)))?;
    match joint {
        Joint::And => if shell.own.env.status == 0 {
            pipeline(place, next, frames, shell)
        } else {
            Ok(Payload::Ended(Flow::Normal))
        },
        Joint::Or => if shell.own.env.status == 0 {
            Ok(Payload::Ended(Flow::Normal))
        } else {
            pipeline(place, next, frames, shell)
        },
    }
}

fn next_link<'s>(
    place: Place,
    links: &'s [(Joint, Pipeline)],
    frames: &mut Frames<'s>,
    shell: &mut Shell<'s>,
) -> Result<Payload, Halt>
    ensures { (z : simple.Setting) → Turns z (λ call. commands.links_run z call (place_of place) (links_of (link_views links.now))) to_ended frames.old frames.new shell.old shell.new result }
{
    match links {
        [] => Ok(Payload::Ended(Flow::Normal)),
        [first, rest @ ..] => joined(place, &first.0, &first.1, rest, frames, shell),
    }
}

/// Behind a pipeline with others joined to it.
pub fn links<'s>(
    place: Place,
    links: &'s [(Joint, Pipeline)],
    flow: Flow,
    frames: &mut Frames<'s>,
    shell: &mut Shell<'s>,
) -> Result<Payload, Halt>
    ensures { (z : simple.Setting) → Turns z (λ call. sequences.if_normal (commands.links_run z call (place_of place) (links_of (link_views links.now))) (flow_of flow)) to_ended frames.old frames.new shell.old shell.new result }
{
    match flow {
        Flow::Normal => next_link(place, links, frames, shell),
        _ => Ok(Payload::Ended(flow)),
    }
}

fn chain<'s>(
    place: Place,
    chain: &'s AndOr,
    frames: &mut Frames<'s>,
    shell: &mut Shell<'s>,
) -> Result<Payload, Halt>
    ensures { (z : simple.Setting) → Turns z (λ call. commands.chain_run z call (place_of place) (view_chain chain.now)) to_ended frames.old frames.new shell.old shell.new result }
{
    let rest = chain.rest.as_slice();
    frames.push(Frame::Ended(FlowFrame::Links(place, rest)))?;
    pipeline(place, &chain.first, frames, shell)
}

/// The next of these commands.
fn next_item<'s>(
    place: Place,
    items: &'s [Item],
    frames: &mut Frames<'s>,
    shell: &mut Shell<'s>,
) -> Result<Payload, Halt>
    ensures { (z : simple.Setting) → Turns z (λ call. commands.script_run z call (place_of place) (items_of (map view_item items.now))) to_ended frames.old frames.new shell.old shell.new result }
{
    match items {
        [] => Ok(Payload::Ended(Flow::Normal)),
        [first, rest @ ..] => {
            frames.push(Frame::Ended(FlowFrame::Script(place, rest)))?;
            chain(place, &first.chain, frames, shell)
        }
    }
}

/// Behind a command with others behind it.
pub fn script<'s>(
    place: Place,
    items: &'s [Item],
    flow: Flow,
    frames: &mut Frames<'s>,
    shell: &mut Shell<'s>,
) -> Result<Payload, Halt>
    ensures { (z : simple.Setting) → Turns z (λ call. sequences.if_normal (commands.script_run z call (place_of place) (items_of (map view_item items.now))) (flow_of flow)) to_ended frames.old frames.new shell.old shell.new result }
{
    match flow {
        Flow::Normal => next_item(place, items, frames, shell),
        _ => Ok(Payload::Ended(flow)),
    }
}
