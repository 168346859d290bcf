//! What holds of all scripts.

ghost use Rattle.std.specs.Prelude.{◌≡◌, ◌≤◌, ℕ, Bool};
ghost use Rattle.shell_world.specs.declared.world.World.{World};
ghost use Rattle.shell_world.specs.Runs.{St};
ghost use Rattle.shell_world.specs.Ends.{IsPrefix, trace_of};
ghost use Rattle.shell_runs.specs.Bounds.{OutcomeLater, turns_left};
ghost use Rattle.shell_runs.specs.Loops.{loop_from, loop_round};
ghost use Rattle.sh_grammar.specs.Shape.{Script};
ghost use Rattle.sh_meaning.specs.Own.{Own, status_of, with_status};
ghost use Rattle.sh_meaning.specs.Simple.{Setting};
ghost use Rattle.sh_meaning.specs.builtins.Places.{Place};
ghost use Rattle.sh_meaning.specs.Commands.{script_run, level, goes};
ghost use Rattle.sh_meaning.specs.Running.{script_result, run};

/// A run that ends under some turns and levels ends equally under more, and so does one that is left unspecified. The
/// record under fewer is a front of the record under more. No run leaves more turns than it was given.
pub fn larger_bounds_change_no_end()
    ensures ends { (world : World) (script : Script) (turns levels more deeper : ℕ) → turns ≤ more → levels ≤ deeper → OutcomeLater (run world script turns levels) (run world script more deeper) }
    ensures records { (world : World) (script : Script) (turns levels more deeper : ℕ) → turns ≤ more → levels ≤ deeper → IsPrefix (trace_of (run world script turns levels)) (trace_of (run world script more deeper)) }
    ensures turns { (world : World) (script : Script) (turns levels : ℕ) → turns_left (script_result world script turns levels) ≤ turns }
{}

/// A loop is a round and the loop again.
pub fn loops_unroll()
    ensures { (z : Setting) (levels : ℕ) (place : Place) (until : Bool) (test body : Script) (last n : ℕ) (s : St Own) →
        let test_run = script_run z (level z levels) place test in
        let body_run = script_run z (level z levels) place body in
        loop_from (goes until) status_of with_status test_run body_run last n s
        ≡ loop_round (goes until) status_of with_status test_run body_run (loop_from (goes until) status_of with_status test_run body_run) last n s }
{}
