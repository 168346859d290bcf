//! A built-in is found by its name and run.

ghost use Rattle.std.specs.Prelude.{◌≡◌, ℕ};
ghost use Rattle.shell_world.specs.Texts.{Map};
ghost use Rattle.sh_grammar.specs.Shape.{Command};
ghost use Rattle.sh_meaning.specs.builtins.Ends.{ends};
ghost use Rattle.sh_meaning.specs.builtins.Run as meaning;
ghost use Rattle.sh_builtins.specs.Views.{Keeps, Changes, Leaves, Runs, core_of, state_of, own_state, place_of, form_of};

use crate::environment::Environment;
use crate::flow::{Flow, Place, Stop};
use crate::form::Form;
use crate::jumps::{break_loops, continue_loop, exit, return_from};
use crate::names::builtin_of;
use crate::parameters::{set, shift};
use crate::printing::{echo, printf};
use crate::reading::read;
use crate::testing::{bracket, test};
use crate::variables::{export, unset};
use sh_meaning::Builtin;
use shell_world::Outside;
use span_text::Text;
use std::alloc::Global;

/// `:`, `true` and `false` do nothing else than give a status.
fn give(status: u8, env: &mut Environment) -> Result<Flow, Stop>
    ensures { Changes (ends status (core_of env.old)) env.new result }
{
    env.status = status;
    Ok(Flow::Normal)
}

/// The built-ins that see the environment alone.
fn run_inside(
    alloc: Global,
    builtin: Builtin,
    place: Place,
    form: &Form,
    args: &[Text],
    env: &mut Environment,
) -> Result<Flow, Stop>
    ensures { Changes (meaning.core_ending (place_of place) (form_of form.now) builtin args.now (core_of env.old)) env.new result }
{
    match builtin {
        Builtin::Colon => give(0, env),
        Builtin::True => give(0, env),
        Builtin::False => give(1, env),
        Builtin::Break => break_loops(place, form, args, env),
        Builtin::Continue => continue_loop(place, form, args, env),
        Builtin::Return => return_from(place, args, env),
        Builtin::Exit => exit(args, env),
        Builtin::Set => set(alloc, args, env),
        Builtin::Shift => shift(alloc, args, env),
        Builtin::Export => export(alloc, form, args, env),
        Builtin::Unset => unset(alloc, form, args, env),
        Builtin::Printf => Err(Stop::Unspecified),
        Builtin::Read => Err(Stop::Unspecified),
        Builtin::Test => Err(Stop::Unspecified),
        Builtin::Bracket => Err(Stop::Unspecified),
        Builtin::Echo => Err(Stop::Unspecified),
    }
}

fn run(
    alloc: Global,
    builtin: Builtin,
    place: Place,
    form: &Form,
    args: &[Text],
    env: &mut Environment,
    outside: &mut Outside,
) -> Result<Flow, Stop>
    ensures table { outside.new.rows ≡ outside.old.rows }
    ensures leaves { Leaves (meaning.ending (place_of place) (form_of form.now) builtin args.now (state_of env.old outside.old)) env.new outside.new result }
    ensures kept { Keeps outside.old outside.new result }
{
    match builtin {
        Builtin::Printf => printf(alloc, args, env, outside),
        Builtin::Read => read(alloc, form, args, env, outside),
        Builtin::Test => test(args, env, outside),
        Builtin::Bracket => bracket(args, env, outside),
        Builtin::Echo => echo(alloc, args, env, outside),
        Builtin::Colon
        | Builtin::True
        | Builtin::False
        | Builtin::Break
        | Builtin::Continue
        | Builtin::Return
        | Builtin::Exit
        | Builtin::Set
        | Builtin::Shift
        | Builtin::Export
        | Builtin::Unset => run_inside(alloc, builtin, place, form, args, env),
    }
}

/// Runs the built-in of this name with its arguments, in the form that is written and at this place of the script. It
/// changes the environment and the outside, takes no turn, and says what comes next. `Unspecified` comes where shells
/// don't agree, and for another name. The clause holds whatever functions and turns there are.
#[tactic(auto, unfolding(sh_meaning::specs::builtins::Run::builtin_ending))]
pub fn run_builtin(
    alloc: Global,
    place: Place,
    form: &Form,
    name: &[u8],
    args: &[Text],
    env: &mut Environment,
    outside: &mut Outside,
) -> Result<Flow, Stop>
    ensures table { outside.new.rows ≡ outside.old.rows }
    ensures runs { (functions : Map Command) (turns : ℕ) → Runs functions (meaning.builtin_run (place_of place) (form_of form.now) name.now args.now turns (own_state functions env.old outside.old)) turns outside.old env.new outside.new result }
    ensures kept { Keeps outside.old outside.new result }
{
    match builtin_of(name) {
        None => Err(Stop::Unspecified),
        Some(builtin) => run(alloc, builtin, place, form, args, env, outside),
    }
}
