//! What each form of a command does (Bash manual, section 3.2).

ghost use Rattle.std.specs.Prelude.{◌≡◌, ◌==◌, [], ◌∷◌, IfOk, OnOk};
ghost use Rattle.shell_world.specs.Runs.{after, with_value, with_own};
ghost use Rattle.bash_tree.specs.Shape.{no_assign, no_word};
ghost use Rattle.bash_tree.specs.View.{assigns_of, words_of, command_of, stages_of, view_pipeline, links_of, view_chain, items_of, view};
ghost use Rattle.bash_meaning.specs.Meaning as meaning;
ghost use Rattle.bash_interp.specs.Shells.{state_of, Leaves, calls, is_due, link_run, item_run};

use crate::shell::{Shell, Stop};
use crate::variables::{assign as set_text, environment, text_of};
use crate::words::{fields, value_text};
use bash_tree::{AndOr, Assign, Command, CommandKind, Item, Joint, Pipeline, Script, Word};
use shell_world::World;
use span_text::{List, Memory, Text, is_known_command};

/// Assignments without a command, from left to right. The status is 0 (3.7.1).
fn assignments(shell: &mut Shell, assigns: &[Assign]) -> Result<(), Stop>
    ensures { Leaves (meaning.assignments (assigns_of assigns.now) shell.old.turns (state_of shell.old)) shell.old shell.new result }
{
    for one in assigns {
        let text = value_text(shell, &one.value)?;
        set_variable(shell, one, text)?;
    }
    shell.status = 0;
    Ok(())
}

/// Sets a variable to a value. With `+=` the text that it has stands before it (3.4).
fn set_variable(shell: &mut Shell, assign: &Assign, value: Text) -> Result<(), Memory>
    ensures state { OnOk result (state_of shell.new ≡ with_own (state_of shell.old) (meaning.assigned assign.now.append assign.now.name.text value (state_of shell.old).own)) }
    ensures turns { OnOk result (shell.new.turns ≡ shell.old.turns) }
    ensures table { OnOk result (shell.new.outside.rows ≡ shell.old.outside.rows) }
{
    let text = new_text(shell, assign, value)?;
    let name = Text::copy(shell.alloc, assign.name.text.bytes())?;
    set_text(&mut shell.bottom, name, text)?;
    shell.status = 0;
    Ok(())
}

fn new_text(shell: &Shell, assign: &Assign, value: Text) -> Result<Text, Memory>
    ensures { IfOk result (λ t. t ≡ meaning.new_text assign.now.append assign.now.name.text value (state_of shell.now).own) }
{
    if !assign.append {
        return Ok(value);
    }
    let mut text = Text::copy(
        shell.alloc,
        text_of(&shell.bottom, assign.name.text.bytes()),
    )?;
    text.append(value.bytes())?;
    Ok(text)
}

/// Calls an external command.
fn external(world: &World, shell: &mut Shell, argv: &List<Text>) -> Result<(), Stop>
    requires { shell.old.outside.rows ≡ world.now.rows }
    ensures { Leaves (meaning.external world.now argv.now shell.old.turns (state_of shell.old)) shell.old shell.new result }
{
    let env = environment(shell.alloc, &shell.bottom)?;
    shell.status = shell.outside.call(argv, &env, &shell.fds)?;
    Ok(())
}

/// Runs the command that the first field names (3.7.2).
fn run_fields(world: &World, shell: &mut Shell, argv: &List<Text>) -> Result<(), Stop>
    requires { shell.old.outside.rows ≡ world.now.rows }
    ensures { Leaves (meaning.run_fields world.now argv.now shell.old.turns (state_of shell.old)) shell.old shell.new result }
{
    match argv.as_slice() {
        [] => {
            shell.status = 0;
            Ok(())
        }
        [name, ..] => {
            if is_known_command(name.bytes()) {
                Err(Stop::Unspecified)
            } else {
                external(world, shell, argv)
            }
        }
    }
}

/// A command of words.
fn call(world: &World, shell: &mut Shell, words: &[Word]) -> Result<(), Stop>
    requires { shell.old.outside.rows ≡ world.now.rows }
    ensures { Leaves (after (meaning.fields (words_of words.now) shell.old.turns (state_of shell.old)) (with_value (meaning.run_fields world.now))) shell.old shell.new result }
{
    let argv = fields(shell, words)?;
    run_fields(world, shell, &argv)
}

#[tactic(auto, using(crate::proofs::Steps::mixed_stops))]
fn simple(world: &World, shell: &mut Shell, assigns: &[Assign], words: &[Word]) -> Result<(), Stop>
    requires { shell.old.outside.rows ≡ world.now.rows }
    ensures { Leaves (meaning.simple_run world.now (assigns_of assigns.now) (words_of words.now) shell.old.turns (state_of shell.old)) shell.old shell.new result }
{
    match words {
        [] => assignments(shell, assigns),
        [_, ..] => match assigns {
            [] => call(world, shell, words),
            [_, ..] => Err(Stop::Unspecified),
        },
    }
}

fn command(world: &World, shell: &mut Shell, command: &Command) -> Result<(), Stop>
    requires { shell.old.outside.rows ≡ world.now.rows }
    ensures { Leaves (meaning.command_run world.now (calls world.now) (command_of command.now.kind) shell.old.turns (state_of shell.old)) shell.old shell.new result }
{
    let CommandKind::Simple { assigns, words } = &command.kind;
    simple(world, shell, assigns.as_slice(), words.as_slice())
}

fn stages(world: &World, shell: &mut Shell, stages: &[Command]) -> Result<(), Stop>
    requires { shell.old.outside.rows ≡ world.now.rows }
    ensures { Leaves (meaning.stages_run world.now (calls world.now) (stages_of stages.now) shell.old.turns (state_of shell.old)) shell.old shell.new result }
{
    match stages {
        [] => Err(Stop::Unspecified),
        [one] => command(world, shell, one),
        [_, _, ..] => Err(Stop::Unspecified),
    }
}

/// `!` turns the status round (3.2.3).
fn pipeline(world: &World, shell: &mut Shell, pipeline: &Pipeline) -> Result<(), Stop>
    requires { shell.old.outside.rows ≡ world.now.rows }
    ensures { Leaves (meaning.pipeline_run world.now (calls world.now) (view_pipeline pipeline.now) shell.old.turns (state_of shell.old)) shell.old shell.new result }
{
    stages(world, shell, pipeline.stages.as_slice())?;
    if pipeline.negated {
        shell.status = if shell.status == 0 { 1 } else { 0 };
    }
    Ok(())
}

/// Whether the status lets a pipeline run that is joined so to those before it.
fn is_due(joint: Joint, status: u8) -> bool
    ensures { result ≡ is_due joint status }
{
    match joint {
        Joint::And => status == 0,
        Joint::Or => status != 0,
    }
}

/// A pipeline behind others (3.2.4).
fn link(world: &World, shell: &mut Shell, joint: Joint, behind: &Pipeline) -> Result<(), Stop>
    requires { shell.old.outside.rows ≡ world.now.rows }
    ensures { Leaves (link_run world.now joint (view_pipeline behind.now) shell.old.turns (state_of shell.old)) shell.old shell.new result }
{
    if is_due(joint, shell.status) {
        pipeline(world, shell, behind)
    } else {
        Ok(())
    }
}

fn links(world: &World, shell: &mut Shell, rest: &[(Joint, Pipeline)]) -> Result<(), Stop>
    requires { shell.old.outside.rows ≡ world.now.rows }
    ensures { Leaves (meaning.links_run world.now (calls world.now) (links_of rest.now) shell.old.turns (state_of shell.old)) shell.old shell.new result }
{
    for behind in rest {
        link(world, shell, behind.0, &behind.1)?;
    }
    Ok(())
}

fn chain(world: &World, shell: &mut Shell, chain: &AndOr) -> Result<(), Stop>
    requires { shell.old.outside.rows ≡ world.now.rows }
    ensures { Leaves (meaning.chain_run world.now (calls world.now) (view_chain chain.now) shell.old.turns (state_of shell.old)) shell.old shell.new result }
{
    pipeline(world, shell, &chain.first)?;
    links(world, shell, chain.rest.as_slice())
}

fn run_item(world: &World, shell: &mut Shell, item: &Item) -> Result<(), Stop>
    requires { shell.old.outside.rows ≡ world.now.rows }
    ensures { Leaves (item_run world.now item.now.background (view_chain item.now.chain) shell.old.turns (state_of shell.old)) shell.old shell.new result }
{
    match item.background {
        None => chain(world, shell, &item.chain),
        Some(_) => Err(Stop::Unspecified),
    }
}

/// The commands of a script, one behind the other.
pub fn script(world: &World, shell: &mut Shell, script: &Script) -> Result<(), Stop>
    requires { shell.old.outside.rows ≡ world.now.rows }
    ensures { Leaves (meaning.script_run world.now (calls world.now) (view script.now) shell.old.turns (state_of shell.old)) shell.old shell.new result }
{
    for item in script.items.as_slice() {
        run_item(world, shell, item)?;
    }
    Ok(())
}
