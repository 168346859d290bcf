//! Compound commands (POSIX XCU 2.9.4), behind their redirections.

ghost use Rattle.std.specs.Prelude.{◌≡◌, map, option_map, OnOk};
ghost use Rattle.shell_world.specs.Runs.{with_own};
ghost use Rattle.sh_grammar.specs.Shape as shape;
ghost use Rattle.sh_syntax.specs.View.{view, view_command, view_kind, view_word, words_of, branches_of, otherwise_of, for_words_of};
ghost use Rattle.sh_checks.specs.Branches.{branch_views};
ghost use Rattle.sh_builtins.specs.Views.{flow_of, place_of};
ghost use Rattle.shell_runs.specs.Sequences as sequences;
ghost use Rattle.shell_runs.specs.Shells as shells;
ghost use Rattle.sh_meaning.specs.Commands as commands;
ghost use Rattle.sh_meaning.specs.Own.{defined, status_of, with_status};
ghost use Rattle.sh_interp.specs.Views.{state_of, whole_of};
ghost use Rattle.sh_meaning.specs.Simple as simple;
ghost use Rattle.sh_interp.specs.Answers.{Does, Turns};
ghost use Rattle.sh_frames.specs.Payloads.{to_arguments, to_ended};
ghost use Rattle.sh_frames.specs.Turns.{compound_run};

use crate::cases::begin_case;
use crate::fields::words;
use crate::frames::{ArgumentsFrame, FieldsFrame, FlowFrame, Frame, Frames, LoopParts};
use crate::halt::Halt;
use crate::loops::begin_loop;
use crate::params::copy_arguments;
use crate::payload::{Arguments, Fielded, Payload};
use crate::shell::Shell;
use crate::substitutions::{begin, in_shell};
use sh_builtins::{Flow, Place};
use sh_checks::Role;
use sh_syntax::{Command, CommandKind, Script, Word};
use span_text::{List, Memory, Text, is_known_command};

/// `(a)`: the commands run in a shell environment of their own.
fn subshell<'s>(
    script: &'s Script,
    frames: &mut Frames<'s>,
    shell: &Shell<'s>,
) -> Result<Payload, Halt>
    ensures { (z : simple.Setting) → Turns z (λ call. shells.in_shell status_of with_status (commands.script_run z call commands.in_shell_place (view script.now))) to_ended frames.old frames.new shell.now shell.now result }
{
    let before = shell.own.copy(shell.alloc)?;
    frames.push(Frame::Ended(FlowFrame::Shell(before)))?;
    begin(in_shell(), script, frames, shell)
}

/// What is behind all tests of an `if`.
fn otherwise<'s>(
    place: Place,
    otherwise: &'s Option<Script>,
    frames: &mut Frames<'s>,
    shell: &mut Shell<'s>,
) -> Result<Payload, Halt>
    ensures { (z : simple.Setting) → Turns z (λ call. commands.otherwise_run z call (place_of place) (otherwise_of (option_map view otherwise.now))) to_ended frames.old frames.new shell.old shell.new result }
{
    match otherwise {
        None => {
            shell.own.env.status = 0;
            Ok(Payload::Ended(Flow::Normal))
        }
        Some(script) => begin(place, script, frames, shell),
    }
}

/// A test of an `if`, with what is behind it.
fn tried<'s>(
    place: Place,
    test: &'s Script,
    body: &'s Script,
    rest: &'s [(Script, Script)],
    last: &'s Option<Script>,
    frames: &mut Frames<'s>,
    shell: &Shell<'s>,
) -> Result<Payload, Halt>
    ensures { (z : simple.Setting) → Turns z (λ call. commands.branches_run z call (place_of place) (shape.branch (view test.now) (view body.now) (branches_of (branch_views rest.now))) (commands.otherwise_run z call (place_of place) (otherwise_of (option_map view last.now)))) to_ended frames.old frames.new shell.now shell.now result }
{
    frames.push(Frame::Ended(FlowFrame::Branch(place, body, rest, last)))?;
    begin(place, test, frames, shell)
}

/// The first of these tests whose commands succeed decides what runs.
fn branches<'s>(
    place: Place,
    parts: &'s [(Script, Script)],
    last: &'s Option<Script>,
    frames: &mut Frames<'s>,
    shell: &mut Shell<'s>,
) -> Result<Payload, Halt>
    ensures { (z : simple.Setting) → Turns z (λ call. commands.branches_run z call (place_of place) (branches_of (branch_views parts.now)) (commands.otherwise_run z call (place_of place) (otherwise_of (option_map view last.now)))) to_ended frames.old frames.new shell.old shell.new result }
{
    match parts {
        [] => otherwise(place, last, frames, shell),
        [first, rest @ ..] => tried(place, &first.0, &first.1, rest, last, frames, shell),
    }
}

/// The status of a test decides what runs.
fn decided<'s>(
    place: Place,
    body: &'s Script,
    parts: &'s [(Script, Script)],
    last: &'s Option<Script>,
    frames: &mut Frames<'s>,
    shell: &mut Shell<'s>,
) -> Result<Payload, Halt>
    ensures { (z : simple.Setting) → Turns z (λ call. commands.by_status (commands.script_run z call (place_of place) (view body.now)) (commands.branches_run z call (place_of place) (branches_of (branch_views parts.now)) (commands.otherwise_run z call (place_of place) (otherwise_of (option_map view last.now))))) to_ended frames.old frames.new shell.old shell.new result }
{
    if shell.own.env.status == 0 {
        return begin(place, body, frames, shell);
    }
    branches(place, parts, last, frames, shell)
}

/// Behind a test of an `if`.
pub fn branch<'s>(
    place: Place,
    body: &'s Script,
    parts: &'s [(Script, Script)],
    last: &'s Option<Script>,
    flow: Flow,
    frames: &mut Frames<'s>,
    shell: &mut Shell<'s>,
) -> Result<Payload, Halt>
    ensures { (z : simple.Setting) → Turns z (λ call. sequences.if_normal (commands.by_status (commands.script_run z call (place_of place) (view body.now)) (commands.branches_run z call (place_of place) (branches_of (branch_views parts.now)) (commands.otherwise_run z call (place_of place) (otherwise_of (option_map view last.now))))) (flow_of flow)) to_ended frames.old frames.new shell.old shell.new result }
{
    match flow {
        Flow::Normal => decided(place, body, parts, last, frames, shell),
        _ => Ok(Payload::Ended(flow)),
    }
}

/// The words of a `for`.
fn listed<'s>(list: &'s [Word], frames: &mut Frames<'s>, shell: &Shell<'s>) -> Result<Payload, Halt>
    ensures { (z : simple.Setting) → Turns z (λ call. commands.for_words_run z call (shape.listed (words_of (map view_word list.now)))) to_arguments frames.old frames.new shell.now shell.now result }
{
    let none = Fielded {
        fields: List::new(shell.alloc),
        ran: false,
    };
    frames.push(Frame::Fields(FieldsFrame::Pathnames))?;
    words(Role::Argument, list, none, frames, shell)
}

/// The texts of a `for`: its words, or the positional parameters.
fn for_words<'s>(
    list: &'s Option<List<Word>>,
    frames: &mut Frames<'s>,
    shell: &mut Shell<'s>,
) -> Result<Payload, Halt>
    ensures { (z : simple.Setting) → Turns z (λ call. commands.for_words_run z call (for_words_of (option_map (map view_word) list.now))) to_arguments frames.old frames.new shell.old shell.new result }
{
    match list {
        None => Ok(Payload::Arguments(Arguments {
            texts: copy_arguments(shell.alloc, shell.own.env.params.as_slice())?,
            ran: false,
        })),
        Some(list) => listed(list.as_slice(), frames, shell),
    }
}

/// `for i in a b; do c; done`.
fn walk<'s>(
    place: Place,
    name: &'s [u8],
    list: &'s Option<List<Word>>,
    body: &'s Script,
    frames: &mut Frames<'s>,
    shell: &mut Shell<'s>,
) -> Result<Payload, Halt>
    ensures { (z : simple.Setting) → Turns z (λ call. commands.walk_run (commands.for_words_run z call (for_words_of (option_map (map view_word) list.now))) name.now (commands.script_run z call (commands.in_loop (place_of place)) (view body.now))) to_ended frames.old frames.new shell.old shell.new result }
{
    frames.push(Frame::Arguments(ArgumentsFrame::Walk(place, name, body)))?;
    for_words(list, frames, shell)
}

/// The body of a function is kept under its name.
#[tactic(auto, using(crate::proofs::Valued::inserted))]
fn keep<'s>(name: &[u8], body: &'s Command, shell: &mut Shell<'s>) -> Result<(), Memory>
    ensures state { OnOk result (state_of shell.new ≡ with_own (state_of shell.old) (defined name.now (view_command body.now) (whole_of shell.old.own))) }
    ensures bounds { OnOk result ((shell.new.turns ≡ shell.old.turns) × (shell.new.levels ≡ shell.old.levels)) }
    ensures table { OnOk result (shell.new.outside.rows ≡ shell.old.outside.rows) }
{
    let name = Text::copy(shell.alloc, name)?;
    shell.own.functions.insert(name, body)?;
    shell.own.env.status = 0;
    Ok(())
}

/// `f() { a; }` (2.9.5).
fn define<'s>(name: &[u8], body: &'s Command, shell: &mut Shell<'s>) -> Result<Flow, Halt>
    ensures { Does flow_of (commands.defined_run name.now (view_command body.now)) shell.old shell.new result }
{
    if is_known_command(name) {
        return Err(Halt::Unspecified);
    }
    keep(name, body, shell)?;
    Ok(Flow::Normal)
}

fn defining<'s>(
    name: &[u8],
    body: &'s Command,
    frames: &mut Frames<'s>,
    shell: &mut Shell<'s>,
) -> Result<Payload, Halt>
    ensures { (z : simple.Setting) → Turns z (λ call. commands.defined_run name.now (view_command body.now)) to_ended frames.old frames.new shell.old shell.new result }
{
    Ok(Payload::Ended(define(name, body, shell)?))
}

/// A compound command behind its redirections.
pub fn compound<'s>(
    place: Place,
    kind: &'s CommandKind,
    frames: &mut Frames<'s>,
    shell: &mut Shell<'s>,
) -> Result<Payload, Halt>
    ensures { (z : simple.Setting) → Turns z (λ call. compound_run z call (place_of place) (view_kind kind.now)) to_ended frames.old frames.new shell.old shell.new result }
{
    match kind {
        CommandKind::Simple { .. } => Err(Halt::Unspecified),
        CommandKind::Group(script) => begin(place, script, frames, shell),
        CommandKind::Subshell(script) => subshell(script, frames, shell),
        CommandKind::If { parts, otherwise } => {
            branches(place, parts.as_slice(), otherwise, frames, shell)
        }
        CommandKind::Loop { until, test, body } => {
            let until = *until;
            let parts = LoopParts {
                place,
                until,
                test,
                body,
            };
            begin_loop(parts, 0, frames, shell)
        }
        CommandKind::For { name, words, body } => {
            walk(place, name.text.bytes(), words, body, frames, shell)
        }
        CommandKind::Case { subject, items } => {
            begin_case(place, subject, items.as_slice(), frames, shell)
        }
        CommandKind::Function(function) => {
            let name = function.name.text.bytes();
            let body = function.body.get();
            defining(name, body, frames, shell)
        }
    }
}
