//! A whole run.

ghost use Rattle.std.specs.Prelude.{◌≡◌, IfOk};
ghost use Rattle.shell_world.specs.World.{start_fds};
ghost use Rattle.bash_tree.specs.View.{view};
ghost use Rattle.bash_meaning.specs.Meaning as meaning;
ghost use Rattle.bash_interp.specs.Shells.{state_of};

use crate::commands::script as run_script;
use crate::shell::{Shell, Stop};
use crate::variables;
use bash_tree::Script;
use shell_world::{End, Outside, Report, World, copy_texts};
use span_text::Memory;
use std::alloc::Global;

/// The shell at the start of a run.
fn start(alloc: Global, world: &World) -> Result<Shell<'_>, Memory>
    ensures state { IfOk result (λ shell. state_of shell ≡ meaning.start world.now) }
    ensures table { IfOk result (λ shell. shell.outside.rows ≡ world.now.rows) }
    ensures turns { IfOk result (λ shell. shell.turns ≡ world.now.bounds.turns) }
{
    let (outside, fds) = Outside::start(alloc, world)?;
    let bottom = variables::start(alloc, world.env.as_slice())?;
    let params = copy_texts(alloc, &world.args)?;
    Ok(Shell {
        outside,
        bottom,
        params,
        status: 0,
        fds,
        turns: world.bounds.turns,
        alloc,
    })
}

/// Runs a script in a world, under the world's bounds.
pub fn run(alloc: Global, script: &Script, world: World) -> Result<Report, Memory>
    ensures { IfOk result (λ r. r ≡ meaning.report world (view script.now)) }
{
    let mut shell = start(alloc, &world)?;
    let end = match run_script(&world, &mut shell, script) {
        Ok(()) => End::Ended(shell.status),
        Err(Stop::Unspecified) => End::Unspecified,
        Err(Stop::Memory) => return Err(Memory {}),
    };
    let turns = world.bounds.turns.saturating_sub(shell.turns);
    Ok(shell.outside.finish(end, turns))
}
