//! Runs the script of a job, and writes the report.

ghost use Rattle.std.specs.Prelude.{◌≡◌, ◌≤◌, length};
ghost use Rattle.bash2sh.specs.Jobs as jobs;

use crate::fault::ReadFault;
use crate::input::{LARGE_LIMIT, LIMIT};
use crate::language::Language;
use crate::lines::read;
use crate::messages::{Refusal, say_bad_world, say_out_of_memory, say_refused, say_write_fault};
use crate::status::Status;
use shell_world::{End, Report};
use span_text::{Sink, place_of, write_all};
use std::alloc::Global;
use world_json::{Job, JobFault, report_text};

fn script_limit(language: Language) -> u32
    ensures { result ≡ jobs.script_limit language }
{
    match language {
        Language::Bash => LIMIT as u32,
        Language::Sh => LARGE_LIMIT as u32,
    }
}

/// The status of a run that ended so, once its report is written.
fn status_of(end: End) -> Status
    ensures { result ≡ jobs.status_of end }
{
    match end {
        End::Ended(_) => Status::Done,
        End::GoesOn => Status::GoesOn,
        End::Unspecified => Status::Unspecified,
    }
}

/// Writes a report. All its memory is taken before the first write.
fn write_report<K: Sink, E: Sink>(
    alloc: Global,
    report: &Report,
    out: &mut K,
    err: &mut E,
) -> Status
    ensures { jobs.OnReport (record { held = K.held out.old; write_faults = K.faults out.old; said = E.held err.old; say_faults = E.faults err.old }) (record { held = K.held out.new; write_faults = K.faults out.new; said = E.held err.new; say_faults = E.faults err.new }) report.now result }
{
    let Ok(text) = report_text(alloc, report) else {
        say_out_of_memory(err);
        return Status::OutOfMemory;
    };
    match write_all(out, text.bytes()) {
        Ok(()) => status_of(report.end),
        Err(_) => {
            say_write_fault(err);
            Status::WriteFault
        }
    }
}

/// Runs a job's script of Bash.
fn run_bash<K: Sink, E: Sink>(alloc: Global, job: Job, out: &mut K, err: &mut E) -> Status
    requires { length job.script ≤ 16777216 }
    ensures { jobs.OnBashJob job (record { held = K.held out.old; write_faults = K.faults out.old; said = E.held err.old; say_faults = E.faults err.old }) (record { held = K.held out.new; write_faults = K.faults out.new; said = E.held err.new; say_faults = E.faults err.new }) result }
{
    let Job { script, world } = job;
    match read(alloc, script.bytes()) {
        Ok(tree) => match bash_interp::run(alloc, &tree, world) {
            Ok(report) => write_report(alloc, &report, out, err),
            Err(_) => {
                say_out_of_memory(err);
                Status::OutOfMemory
            }
        },
        Err(ReadFault::NotYet(at)) => {
            say_refused(err, Refusal::NotYet, place_of(script.bytes(), at));
            Status::Refused
        }
        Err(ReadFault::Memory) => {
            say_out_of_memory(err);
            Status::OutOfMemory
        }
    }
}

/// Runs a job's script of sh.
fn run_sh<K: Sink, E: Sink>(alloc: Global, job: Job, out: &mut K, err: &mut E) -> Status
    requires { length job.script ≤ 16777216 }
    ensures { jobs.OnShJob job (record { held = K.held out.old; write_faults = K.faults out.old; said = E.held err.old; say_faults = E.faults err.old }) (record { held = K.held out.new; write_faults = K.faults out.new; said = E.held err.new; say_faults = E.faults err.new }) result }
{
    let Job { script, world } = job;
    match sh_parser::read(alloc, script.bytes()) {
        Ok(tree) => match sh_interp::run(alloc, &tree, world) {
            Ok(report) => write_report(alloc, &report, out, err),
            Err(_) => {
                say_out_of_memory(err);
                Status::OutOfMemory
            }
        },
        Err(sh_parser::ReadFault::Unreadable(at)) => {
            say_refused(
                err,
                Refusal::ShSyntax,
                place_of(script.bytes(), at as usize),
            );
            Status::Refused
        }
        Err(sh_parser::ReadFault::Memory) => {
            say_out_of_memory(err);
            Status::OutOfMemory
        }
    }
}

/// Runs the script of a job.
fn run_script<K: Sink, E: Sink>(
    alloc: Global,
    language: Language,
    job: Job,
    out: &mut K,
    err: &mut E,
) -> Status
    requires { length job.script ≤ 16777216 }
    ensures { jobs.OnGoodJob language job (record { held = K.held out.old; write_faults = K.faults out.old; said = E.held err.old; say_faults = E.faults err.old }) (record { held = K.held out.new; write_faults = K.faults out.new; said = E.held err.new; say_faults = E.faults err.new }) result }
{
    match language {
        Language::Bash => run_bash(alloc, job, out, err),
        Language::Sh => run_sh(alloc, job, out, err),
    }
}

/// Runs the job that these bytes are, and says what kept it from that.
pub fn run_job<K: Sink, E: Sink>(
    alloc: Global,
    language: Language,
    bytes: &[u8],
    out: &mut K,
    err: &mut E,
) -> Status
    ensures { jobs.OnJob language (record { held = K.held out.old; write_faults = K.faults out.old; said = E.held err.old; say_faults = E.faults err.old }) (record { held = K.held out.new; write_faults = K.faults out.new; said = E.held err.new; say_faults = E.faults err.new }) bytes.now result }
{
    match world_json::read(alloc, bytes, script_limit(language)) {
        Ok(job) => run_script(alloc, language, job, out, err),
        Err(JobFault::BadWorld(pointer, reason)) => {
            say_bad_world(err, pointer.bytes(), reason);
            Status::BadWorld
        }
        Err(JobFault::Memory) => {
            say_out_of_memory(err);
            Status::OutOfMemory
        }
    }
}
