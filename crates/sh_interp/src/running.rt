//! A whole run: the innermost frame takes what came, until no frame is left.

ghost use Rattle.std.specs.Prelude.{◌≡◌, [], IfOk};
ghost use Rattle.sh_syntax.specs.View.{view};
ghost use Rattle.sh_meaning.specs.Commands as commands;
ghost use Rattle.sh_meaning.specs.Running as meaning;
ghost use Rattle.sh_meaning.specs.Simple as simple;
ghost use Rattle.sh_meaning.specs.builtins.Functions.{functions_of};
ghost use Rattle.sh_frames.specs.Turns.{go_on};
ghost use Rattle.sh_interp.specs.Answers.{Ran, Steps};
ghost use Rattle.sh_interp.specs.Views.{payload_of, setting_of, stack_of, state_of};

use crate::frames::{FlowFrame, Frame, Frames};
use crate::halt::Halt;
use crate::payload::Payload;
use crate::shell::{Setting, Shell, Whole};
use crate::substitutions::in_shell;
use crate::turns::turn;
use sh_builtins::{Environment, Flow, start_variables};
use sh_checks::functions_of;
use sh_syntax::Script;
use shell_world::{End, Outside, Report, TextMap, World, copy_texts};
use span_text::{Memory, Text};
use std::alloc::Global;

/// How many turns of the machine are made at most. It would take centuries, and counts as want of memory.
const TURNS: u64 = u64::MAX;

/// What a turn of the machine came to.
#[derive(Drop)]
pub enum Step {
    Goes(Payload),
    Ends(Flow),
}

/// The shell at the start of a run.
fn start<'s>(alloc: Global, world: &'s World) -> Result<Shell<'s>, Memory>
    ensures state { IfOk result (λ shell. state_of shell ≡ meaning.start world.now) }
    ensures table { IfOk result (λ shell. shell.outside.rows ≡ world.now.rows) }
    ensures turns { IfOk result (λ shell. shell.turns ≡ world.now.bounds.turns) }
    ensures levels { IfOk result (λ shell. shell.levels ≡ world.now.bounds.depth) }
{
    let (outside, fds) = Outside::start(alloc, world)?;
    let vars = start_variables(alloc, world.env.as_slice())?;
    let params = copy_texts(alloc, &world.args)?;
    let env = Environment {
        vars,
        params,
        status: 0,
        fds,
    };
    let own = Whole {
        env,
        functions: TextMap::new(alloc),
    };
    Ok(Shell {
        own,
        outside,
        turns: world.bounds.turns,
        levels: world.bounds.depth,
        alloc,
    })
}

/// What comes where no frame is left.
fn last<'s>(payload: Payload, shell: &Shell<'s>) -> Result<Flow, Halt>
    ensures { (z : simple.Setting) → Ran (go_on z [] shell.now.levels (payload_of payload)) shell.now shell.now result }
{
    match payload {
        Payload::Ended(flow) => Ok(flow),
        Payload::Word(_) => Err(Halt::Unspecified),
        Payload::Numbers(_) => Err(Halt::Unspecified),
        Payload::Fields(_) => Err(Halt::Unspecified),
        Payload::Arguments(_) => Err(Halt::Unspecified),
        Payload::Truth(_) => Err(Halt::Unspecified),
        Payload::Saved(_) => Err(Halt::Unspecified),
        Payload::Made(_) => Err(Halt::Unspecified),
    }
}

/// One turn: the innermost frame takes what came.
fn one_turn<'s>(
    setting: &Setting<'s>,
    payload: Payload,
    frames: &mut Frames<'s>,
    shell: &mut Shell<'s>,
) -> Result<Step, Halt>
    requires { shell.old.outside.rows ≡ setting.now.world.now.rows }
    ensures { Steps (setting_of setting.now) (go_on (setting_of setting.now) (stack_of frames.old) shell.old.levels (payload_of payload) shell.old.turns (state_of shell.old)) shell.old.outside.rows frames.new shell.new result }
{
    match frames.pop() {
        None => Ok(Step::Ends(last(payload, shell)?)),
        Some(frame) => Ok(Step::Goes(turn(setting, frame, payload, frames, shell)?)),
    }
}

/// Turns, until no frame is left.
fn run_frames<'s>(
    setting: &Setting<'s>,
    payload: Payload,
    frames: &mut Frames<'s>,
    shell: &mut Shell<'s>,
) -> Result<Flow, Halt>
    requires { shell.old.outside.rows ≡ setting.now.world.now.rows }
    ensures { Ran (go_on (setting_of setting.now) (stack_of frames.old) shell.old.levels (payload_of payload)) shell.old shell.new result }
{
    let mut payload = payload;
    let mut left = TURNS;
    'turns: while left > 0 {
        left -= 1;
        match one_turn(setting, payload, frames, shell)? {
            Step::Goes(next) => payload = next,
            Step::Ends(flow) => return Ok(flow),
        }
    }
    Err(Halt::Memory)
}

/// Runs the commands of a script to their end.
#[tactic(auto, using(sh_syntax::proofs::Views::script_is, sh_frames::proofs::CommandLaws::whole_goes))]
fn run_script<'s>(
    setting: &Setting<'s>,
    script: &'s Script,
    shell: &mut Shell<'s>,
) -> Result<Flow, Halt>
    requires { shell.old.outside.rows ≡ setting.now.world.now.rows }
    ensures { Ran (commands.script_run (setting_of setting.now) (commands.level (setting_of setting.now) shell.old.levels) commands.in_shell_place (view script.now)) shell.old shell.new result }
{
    let mut frames = Frames::new(shell.alloc);
    let items = script.items.as_slice();
    frames.push(Frame::Ended(FlowFrame::Script(in_shell(), items)))?;
    run_frames(setting, Payload::Ended(Flow::Normal), &mut frames, shell)
}

/// Runs a script that defines these functions in a world.
fn run_in<'s>(
    alloc: Global,
    script: &'s Script,
    functions: &'s [Text],
    world: &'s World,
) -> Result<Report, Memory>
    requires { functions.now ≡ functions_of (view script.now) }
    ensures { IfOk result (λ r. r ≡ meaning.report world.now (view script.now)) }
{
    let setting = Setting { world, functions };
    let mut shell = start(alloc, world)?;
    let end = match run_script(&setting, script, &mut shell) {
        Ok(_) => End::Ended(shell.own.env.status),
        Err(Halt::GoesOn) => End::GoesOn,
        Err(Halt::Unspecified) => End::Unspecified,
        Err(Halt::Memory) => return Err(Memory {}),
    };
    let turns = world.bounds.turns.saturating_sub(shell.turns);
    Ok(shell.outside.finish(end, turns))
}

/// Runs a script in a world, under the world's bounds.
pub fn run(alloc: Global, script: &Script, world: World) -> Result<Report, Memory>
    ensures { IfOk result (λ r. r ≡ meaning.report world (view script.now)) }
{
    let functions = functions_of(alloc, script)?;
    run_in(alloc, script, functions.as_slice(), &world)
}
