//! Simple commands, and commands behind their redirections (POSIX XCU 2.9.1).

ghost use Rattle.std.specs.Prelude.{◌≡◌, ℕ, List, [], ◌∷◌, drop, map, IfOk, OnOk};
ghost use Rattle.shell_world.specs.Runs.{after, with_own};
ghost use Rattle.shell_world.specs.Texts.{lookup};
ghost use Rattle.shell_world.specs.declared.world.World.{World};
ghost use Rattle.sh_syntax.specs.View.{view_assign, view_command, view_redirect, view_word, assigns_of, redirects_of, words_of};
ghost use Rattle.sh_builtins.specs.Views.{flow_of, place_of};
ghost use Rattle.shell_runs.specs.Calls.{called_run};
ghost use Rattle.shell_runs.specs.Redirecting as redirecting;
ghost use Rattle.sh_meaning.specs.Commands as commands;
ghost use Rattle.sh_meaning.specs.Own as owns;
ghost use Rattle.sh_meaning.specs.Redirecting as meaning;
ghost use Rattle.sh_meaning.specs.Simple as simple;
ghost use Rattle.sh_interp.specs.Answers.{Does, Turns};
ghost use Rattle.sh_frames.specs.Payloads.{to_ended};
ghost use Rattle.sh_frames.specs.Turns as turns;
ghost use Rattle.sh_interp.specs.Views.{Looked, state_of, arguments_of, found_of, job_of, made_of, prefixed_of, saved_of, setting_of, whole_of};

use crate::assigns::restore;
use crate::commands::command;
use crate::compounds::compound;
use crate::frames::{FlowFrame, Frame, Frames, Job, MadeFrame, Prefixed, SavedFrame, TruthFrame};
use crate::halt::Halt;
use crate::loops::take_turn;
use crate::payload::{Arguments, Made, Payload};
use crate::shell::{Setting, Shell};
use sh_builtins::{
    Flow, Form, Place, exported_environment, is_sh_builtin, is_special, run_builtin,
};
use sh_checks::names_of;
use sh_meaning::Variable;
use sh_syntax::{Assign, Command, Redirect, Word};
use shell_world::copy_texts;
use span_text::{List, Memory, Text, is_known_command};
use std::alloc::Global;

/// What a command's name is, in the order in which it is looked up (2.9.1.1).
#[derive(Clone, Copy)]
pub enum Lookup<'s> {
    Special,
    Builtin,
    Function(&'s Command),
    External,
    /// A name that some shells give a meaning of their own.
    Foreign,
}

/// A function of this name, or else an external command.
#[tactic(auto, using(crate::proofs::Valued::looked))]
fn found_function<'s>(name: &[u8], shell: &Shell<'s>) -> Lookup<'s>
    ensures { found_of result ≡ simple.function_or (lookup name.now (whole_of shell.now.own).functions) }
{
    match shell.own.functions.get(name) {
        None => Lookup::External,
        Some(&body) => Lookup::Function(body),
    }
}

#[tactic(auto, unfolding(sh_meaning::specs::Simple::found))]
pub fn found<'s>(name: &[u8], shell: &Shell<'s>) -> Lookup<'s>
    ensures { found_of result ≡ simple.found name.now (whole_of shell.now.own) }
{
    if is_special(name) {
        Lookup::Special
    } else if is_sh_builtin(name) {
        Lookup::Builtin
    } else if is_known_command(name) {
        Lookup::Foreign
    } else {
        found_function(name, shell)
    }
}

/// A command's redirections begin; the descriptors are as before behind it.
#[tactic(auto, using(sh_frames::proofs::CommandLaws::around_goes))]
pub fn begin<'s>(
    job: Job<'s>,
    redirects: &'s [Redirect],
    ran: bool,
    frames: &mut Frames<'s>,
    shell: &Shell<'s>,
) -> Result<Payload, Halt>
    ensures { (z : simple.Setting) → Turns z (λ call. meaning.around (commands.redirects_run z call (redirects_of (map view_redirect redirects.now)) ran) (turns.job_run z call (job_of job.entry)) (turns.job_failed z (job_of job.entry))) to_ended frames.old frames.new shell.now shell.now result }
{
    let fds = shell.own.env.fds.copy();
    frames.push(Frame::Ended(FlowFrame::FdsBack(fds)))?;
    frames.push(Frame::Made(MadeFrame::Job(job)))?;
    frames.push(Frame::Made(MadeFrame::Redirects(redirects)))?;
    Ok(Payload::Made(Made::Done(ran)))
}

/// Whether a command has assignments before it.
fn is_led(assigns: &[Assign]) -> bool
    ensures { result ≡ simple.has_assigns (assigns_of (map view_assign assigns.now)) }
{
    match assigns {
        [] => false,
        [_, ..] => true,
    }
}

/// A simple command behind its words, whose first field was looked up.
fn named<'s>(
    place: Place,
    assigns: &'s [Assign],
    words: &'s [Word],
    redirects: &'s [Redirect],
    texts: List<Text>,
    ran: bool,
    lookup: Lookup<'s>,
    frames: &mut Frames<'s>,
    shell: &Shell<'s>,
) -> Result<Payload, Halt>
    ensures { (z : simple.Setting) (name : List ℕ) (args : List (List ℕ)) → texts ≡ name ∷ args → Turns z (λ call. simple.found_run z call (place_of place) (simple.form_of z (assigns_of (map view_assign assigns.now)) (words_of (map view_word words.now))) (commands.redirects_run z call (redirects_of (map view_redirect redirects.now)) ran) (commands.prefix_run z call (assigns_of (map view_assign assigns.now)) []) (simple.has_assigns (assigns_of (map view_assign assigns.now))) name args (found_of lookup.entry)) to_ended frames.old frames.new shell.now shell.now result }
{
    match lookup {
        Lookup::Special => {
            if is_led(assigns) {
                return Err(Halt::Unspecified);
            }
            let job = Job::Special(place, assigns, words, texts);
            begin(job, redirects, ran, frames, shell)
        }
        Lookup::Builtin => {
            let job = Job::Prefixed(assigns, Prefixed::Builtin(place, assigns, words, texts));
            begin(job, redirects, ran, frames, shell)
        }
        Lookup::Function(body) => {
            if is_led(assigns) {
                return Err(Halt::Unspecified);
            }
            begin(Job::Called(body, texts), redirects, ran, frames, shell)
        }
        Lookup::External => {
            let job = Job::Prefixed(assigns, Prefixed::External(texts));
            begin(job, redirects, ran, frames, shell)
        }
        Lookup::Foreign => Err(Halt::Unspecified),
    }
}

/// What a command's arguments begin with, where there is any.
fn lookup_of<'s>(texts: &[Text], shell: &Shell<'s>) -> Option<Lookup<'s>>
    ensures { Looked texts.now (whole_of shell.now.own) result }
{
    match texts {
        [] => None,
        [name, ..] => Some(found(name.bytes(), shell)),
    }
}

/// A simple command behind its words.
pub fn simple<'s>(
    place: Place,
    assigns: &'s [Assign],
    words: &'s [Word],
    redirects: &'s [Redirect],
    args: Arguments,
    frames: &mut Frames<'s>,
    shell: &Shell<'s>,
) -> Result<Payload, Halt>
    ensures { (z : simple.Setting) → Turns z (λ call. simple.simple_over z call (place_of place) (simple.form_of z (assigns_of (map view_assign assigns.now)) (words_of (map view_word words.now))) (commands.redirects_run z call (redirects_of (map view_redirect redirects.now))) (commands.assigns_run z call (assigns_of (map view_assign assigns.now))) (commands.prefix_run z call (assigns_of (map view_assign assigns.now)) []) (simple.has_assigns (assigns_of (map view_assign assigns.now))) (arguments_of args)) to_ended frames.old frames.new shell.now shell.now result }
{
    let Arguments { texts, ran } = args;
    match lookup_of(texts.as_slice(), shell) {
        None => begin(Job::Assigning(assigns), redirects, ran, frames, shell),
        Some(lookup) => {
            named(
                place, assigns, words, redirects, texts, ran, lookup, frames, shell,
            )
        }
    }
}

/// A built-in, by its name and arguments.
fn builtin<'s>(
    setting: &Setting<'s>,
    place: Place,
    assigns: &'s [Assign],
    words: &'s [Word],
    argv: &[Text],
    shell: &mut Shell<'s>,
) -> Result<Flow, Halt>
    ensures { Does flow_of (turns.builtin_by (place_of place) (simple.form_of (setting_of setting.now) (assigns_of (map view_assign assigns.now)) (words_of (map view_word words.now))) argv.now) shell.old shell.new result }
{
    let [name, args @ ..] = argv else {
        return Err(Halt::Unspecified);
    };
    let prefix = names_of(shell.alloc, assigns)?;
    let form = Form {
        functions: setting.functions,
        prefix: prefix.as_slice(),
        words,
    };
    let env = &mut shell.own.env;
    let outside = &mut shell.outside;
    Ok(run_builtin(shell.alloc, place, &form, name.bytes(), args, env, outside)?)
}

/// An external command (2.9.1.4).
fn external<'s>(argv: &List<Text>, shell: &mut Shell<'s>) -> Result<Flow, Halt>
    ensures { (world : World) → shell.old.outside.rows ≡ world.rows → Does flow_of (simple.external_run world argv.now) shell.old shell.new result }
{
    let env = exported_environment(shell.alloc, &shell.own.env.vars)?;
    shell.own.env.status = shell.outside.call(argv, &env, &shell.own.env.fds)?;
    Ok(Flow::Normal)
}

/// A command behind its prefix.
fn run_prefixed<'s>(
    setting: &Setting<'s>,
    command: Prefixed<'s>,
    shell: &mut Shell<'s>,
) -> Result<Flow, Halt>
    requires { shell.old.outside.rows ≡ setting.now.world.now.rows }
    ensures { Does flow_of (turns.prefixed_run (setting_of setting.now) (prefixed_of command.entry)) shell.old shell.new result }
{
    match command {
        Prefixed::Builtin(place, assigns, words, argv) => {
            builtin(setting, place, assigns, words, argv.as_slice(), shell)
        }
        Prefixed::External(argv) => external(&argv, shell),
    }
}

/// A command behind its prefix, which is gone behind it.
pub fn prefixed<'s>(
    setting: &Setting<'s>,
    command: Prefixed<'s>,
    before: List<(Text, Option<Variable>)>,
    shell: &mut Shell<'s>,
) -> Result<Flow, Halt>
    requires { shell.old.outside.rows ≡ setting.now.world.now.rows }
    ensures { Does flow_of (simple.command_over (turns.prefixed_run (setting_of setting.now) (prefixed_of command.entry)) (saved_of before)) shell.old shell.new result }
{
    let flow = run_prefixed(setting, command, shell)?;
    restore(before, &mut shell.own.env.vars)?;
    Ok(flow)
}

/// The script's name, which a function's body keeps as `$0`.
fn script_name(alloc: Global, params: &[Text]) -> Result<Text, Memory>
    ensures { IfOk result (λ name. name ≡ owns.script_name params.now) }
{
    match params {
        [] => Ok(Text::new(alloc)),
        [name, ..] => Text::copy(alloc, name.bytes()),
    }
}

/// The parameters of a function's body, of a call with these arguments behind its name.
fn parameters(alloc: Global, params: &[Text], argv: List<Text>) -> Result<List<Text>, Memory>
    ensures { IfOk result (λ l. l ≡ owns.script_name params.now ∷ drop 1 argv) }
{
    let name = script_name(alloc, params)?;
    let mut texts = argv.into_vec();
    match texts.first_mut() {
        None => texts.push(name)?,
        Some(first) => *first = name,
    }
    Ok(List::from_vec(texts))
}

/// A function's body is entered, with so many levels left; the parameters before it are given.
fn enter<'s>(argv: List<Text>, fewer: u32, shell: &mut Shell<'s>) -> Result<List<Text>, Memory>
    ensures callers { IfOk result (λ l. l ≡ shell.old.own.env.params) }
    ensures state { OnOk result (state_of shell.new ≡ with_own (state_of shell.old) (owns.with_arguments (drop 1 argv) (whole_of shell.old.own))) }
    ensures bounds { OnOk result ((shell.new.turns ≡ shell.old.turns) × (shell.new.levels ≡ fewer)) }
    ensures table { OnOk result (shell.new.outside.rows ≡ shell.old.outside.rows) }
{
    let params = parameters(shell.alloc, shell.own.env.params.as_slice(), argv)?;
    shell.levels = fewer;
    Ok(std::mem::replace(&mut shell.own.env.params, params))
}

/// A function's body, one level further down (2.9.5).
fn called<'s>(
    body: &'s Command,
    argv: List<Text>,
    frames: &mut Frames<'s>,
    shell: &mut Shell<'s>,
) -> Result<Payload, Halt>
    ensures { (z : simple.Setting) → Turns z (λ call. called_run (owns.with_arguments (drop 1 argv)) owns.parameters_back (call (view_command body.now))) to_ended frames.old frames.new shell.old shell.new result }
{
    let levels = shell.levels;
    if levels == 0 {
        return Err(Halt::GoesOn);
    }
    let callers = enter(argv, levels - 1, shell)?;
    frames.push(Frame::Ended(FlowFrame::Called(callers, levels)))?;
    let place = Place {
        loops: 0,
        in_function: true,
    };
    command(place, body, frames, shell)
}

/// A function is called: a turn is taken first, and then a level.
fn call<'s>(
    body: &'s Command,
    argv: List<Text>,
    frames: &mut Frames<'s>,
    shell: &mut Shell<'s>,
) -> Result<Payload, Halt>
    ensures { (z : simple.Setting) → Turns z (λ call. simple.call_run call (view_command body.now) (drop 1 argv)) to_ended frames.old frames.new shell.old shell.new result }
{
    take_turn(shell)?;
    called(body, argv, frames, shell)
}

/// The assignments of a command without a name.
fn assigning<'s>(
    assigns: &'s [Assign],
    ran: bool,
    frames: &mut Frames<'s>,
    shell: &Shell<'s>,
) -> Result<Payload, Halt>
    ensures { (z : simple.Setting) → Turns z (λ call. simple.nameless_run (commands.assigns_run z call (assigns_of (map view_assign assigns.now))) ran) to_ended frames.old frames.new shell.now shell.now result }
{
    frames.push(Frame::Truth(TruthFrame::Nameless))?;
    frames.push(Frame::Truth(TruthFrame::Assigns(assigns)))?;
    Ok(Payload::Truth(ran))
}

/// The prefix of a command.
fn prefixing<'s>(
    assigns: &'s [Assign],
    command: Prefixed<'s>,
    frames: &mut Frames<'s>,
    shell: &Shell<'s>,
) -> Result<Payload, Halt>
    ensures { (z : simple.Setting) → Turns z (λ call n s. after (commands.prefix_run z call (assigns_of (map view_assign assigns.now)) [] n s) (simple.command_over (turns.prefixed_run z (prefixed_of command.entry)))) to_ended frames.old frames.new shell.now shell.now result }
{
    frames.push(Frame::Saved(SavedFrame::Prefixed(command)))?;
    frames.push(Frame::Saved(SavedFrame::Prefix(assigns)))?;
    Ok(Payload::Saved(List::new(shell.alloc)))
}

/// A command whose redirections are made.
fn run<'s>(
    setting: &Setting<'s>,
    job: Job<'s>,
    ran: bool,
    frames: &mut Frames<'s>,
    shell: &mut Shell<'s>,
) -> Result<Payload, Halt>
    ensures { Turns (setting_of setting.now) (λ call. turns.job_run (setting_of setting.now) call (job_of job.entry) ran) to_ended frames.old frames.new shell.old shell.new result }
{
    match job {
        Job::Assigning(assigns) => assigning(assigns, ran, frames, shell),
        Job::Special(place, assigns, words, argv) => {
            let argv = argv.as_slice();
            let flow = builtin(setting, place, assigns, words, argv, shell)?;
            Ok(Payload::Ended(flow))
        }
        Job::Called(body, argv) => call(body, argv, frames, shell),
        Job::Prefixed(assigns, command) => prefixing(assigns, command, frames, shell),
        Job::Compound(place, kind) => compound(place, kind, frames, shell),
    }
}

/// A redirection failed: the status is the latitude's.
fn refuse<'s>(setting: &Setting<'s>, shell: &mut Shell<'s>) -> Result<Flow, Halt>
    ensures { Does flow_of (meaning.failed_run (setting_of setting.now).world) shell.old shell.new result }
{
    shell.own.env.status = setting.world.latitude.redirect;
    Ok(Flow::Normal)
}

/// One of a command's redirections failed; of a special built-in nothing is said.
fn fail<'s>(setting: &Setting<'s>, job: Job<'s>, shell: &mut Shell<'s>) -> Result<Flow, Halt>
    ensures { Does flow_of (turns.job_failed (setting_of setting.now) (job_of job.entry)) shell.old shell.new result }
{
    match job {
        Job::Special(..) => Err(Halt::Unspecified),
        Job::Assigning(_) => refuse(setting, shell),
        Job::Called(..) => refuse(setting, shell),
        Job::Prefixed(..) => refuse(setting, shell),
        Job::Compound(..) => refuse(setting, shell),
    }
}

/// A command behind its redirections.
pub fn job<'s>(
    setting: &Setting<'s>,
    job: Job<'s>,
    made: Made,
    frames: &mut Frames<'s>,
    shell: &mut Shell<'s>,
) -> Result<Payload, Halt>
    ensures { Turns (setting_of setting.now) (λ call. redirecting.made_or (turns.job_run (setting_of setting.now) call (job_of job.entry)) (turns.job_failed (setting_of setting.now) (job_of job.entry)) (made_of made)) to_ended frames.old frames.new shell.old shell.new result }
{
    match made {
        Made::Done(ran) => run(setting, job, ran, frames, shell),
        Made::Failed => Ok(Payload::Ended(fail(setting, job, shell)?)),
    }
}
