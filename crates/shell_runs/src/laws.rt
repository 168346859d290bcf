//! What holds of all runs.

ghost use Rattle.std.specs.Prelude.{◌≡◌, ◌≤◌, ℕ, Bool, List};
ghost use Rattle.shell_world.specs.Outside.{Fds};
ghost use Rattle.shell_world.specs.Runs.{St, Do, after, choose};
ghost use Rattle.shell_runs.specs.Flow.{Flow};
ghost use Rattle.shell_runs.specs.Sequences.{if_normal, take_turn};
ghost use Rattle.shell_runs.specs.Loops.{loop_round, loop_from, loop_do, items_run};
ghost use Rattle.shell_runs.specs.Calls.{call_do};
ghost use Rattle.shell_runs.specs.Redirecting.{Made, redirected, bracketed};
ghost use Rattle.shell_runs.specs.Shells.{in_shell, substitute, stage_run, piped};
ghost use Rattle.shell_runs.specs.Bounds.{Under, Spends};

/// Larger bounds change nothing of a run that is over, and only lengthen the record of one that goes on, and no run
/// gives a turn back: where that holds of the runs that a run is built from, it holds of the run.
#[tactic(auto, using(crate::proofs::Monotone::under_after, crate::proofs::Monotone::under_from, crate::proofs::Monotone::under_choose, crate::proofs::Combined::under_if_normal, crate::proofs::Combined::under_turn))]
pub fn sequences_keep_bounds<X, Y, S>()
    ensures next { (c d : Do X S) (k l : X → Do Y S) → Under c d → ((x : X) → Under (k x) (l x)) → Under (λ n s. after (c n s) k) (λ n s. after (d n s) l) }
    ensures next_of_state { (c d : Do X S) (k l : St S → X → Do Y S) → Under c d → ((s : St S) (x : X) → Under (k s x) (l s x)) → Under (λ n s. after (c n s) (k s)) (λ n s. after (d n s) (l s)) }
    ensures choice { (b : Bool) (c d e f : Do X S) → Under c d → Under e f → Under (choose b c e) (choose b d f) }
    ensures normal { (c d : Do Flow S) → Under c d → (flow : Flow) → Under (if_normal c flow) (if_normal d flow) }
    ensures turn { (c d : Do X S) → Under c d → Under (take_turn c) (take_turn d) }
{}

/// The same of loops and calls.
#[tactic(auto, using(crate::proofs::Combined::under_loop, crate::proofs::Combined::under_items, crate::proofs::Combined::under_call))]
pub fn loops_and_calls_keep_bounds<X, S>()
    ensures until { (goes : S → Bool) (status : S → ℕ) (with_status : ℕ → S → S) (test other body more : Do Flow S) → Under test other → Under body more → Under (loop_do goes status with_status test body) (loop_do goes status with_status other more) }
    ensures items { (assign : X → S → S) (body more : Do Flow S) → Under body more → (xs : List X) → Under (items_run assign body xs) (items_run assign more xs) }
    ensures call { (enter : S → S) (back : S → S → S) (body more : Do Flow S) → Under body more → Under (call_do enter back body) (call_do enter back more) }
{}

/// The same of redirections around a run.
#[tactic(auto, using(crate::proofs::Combined::under_redirected, crate::proofs::Combined::under_bracketed))]
pub fn redirections_keep_bounds<X, Y, S>()
    ensures redirected { (r q : Do (Made X) S) (k l : X → Do Y S) (f g : Do Y S) → Under r q → ((x : X) → Under (k x) (l x)) → Under f g → Under (redirected r k f) (redirected q l g) }
    ensures bracketed { (fds : S → Fds) (with_fds : Fds → S → S) (c d : Do Y S) → Under c d → Under (bracketed fds with_fds c) (bracketed fds with_fds d) }
{}

/// The same of subshells, command substitutions and pipelines.
#[tactic(auto, using(crate::proofs::Combined::under_shell, crate::proofs::Combined::under_substitute, crate::proofs::Combined::under_stage, crate::proofs::Combined::under_piped))]
pub fn shells_keep_bounds<S>()
    ensures shell { (status : S → ℕ) (with_status : ℕ → S → S) (c d : Do Flow S) → Under c d → Under (in_shell status with_status c) (in_shell status with_status d) }
    ensures substitution { (fds : S → Fds) (with_fds : Fds → S → S) (status : S → ℕ) (with_status : ℕ → S → S) (c d : Do Flow S) → Under c d → Under (substitute fds with_fds status with_status c) (substitute fds with_fds status with_status d) }
    ensures stage { (fds : S → Fds) (with_fds : Fds → S → S) (c d rest more : Do Flow S) → Under c d → Under rest more → Under (stage_run fds with_fds c rest) (stage_run fds with_fds d more) }
    ensures pipeline { (current : Bool) (with_fds : Fds → S → S) (fds : S → Fds) (status : S → ℕ) (with_status : ℕ → S → S) (c d : Do Flow S) → Under c d → Under (piped current with_fds fds status with_status c) (piped current with_fds fds status with_status d) }
{}

/// A loop is a round and the loop again, where neither its test nor its body gives a turn back.
#[tactic(auto, using(crate::proofs::Unrolled::loop_unrolls))]
pub fn loops_unroll<S>()
    ensures { (goes : S → Bool) (status : S → ℕ) (with_status : ℕ → S → S) (test body : Do Flow S) → Spends test → Spends body → (last n : ℕ) (s : St S) →
        loop_from goes status with_status test body last n s ≡ loop_round goes status with_status test body (loop_from goes status with_status test body) last n s }
{}
