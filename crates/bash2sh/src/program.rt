//! The program's one call.

ghost use Rattle.std.specs.Prelude.{◌≤◌, Some, length, map, string_bytes};
ghost use Rattle.bash2sh.specs.Answers.{limit};
ghost use Rattle.bash2sh.specs.Program.{asked_of, limit_of, OnText, OnBytes, Ends};

use crate::asked::{Asked, asked_of};
use crate::fault::TranslateFault;
use crate::input::{InputFault, read_all};
use crate::jobs::run_job;
use crate::messages::{
    Refusal, say_out_of_memory, say_read_fault, say_refused, say_too_long, say_usage,
    say_write_fault,
};
use crate::status::Status;
use crate::translator::translate;
use span_text::{Sink, Source, place_of};
use std::alloc::Global;

/// Translates a script's text, and says what kept it from that.
fn answer<K: Sink, E: Sink>(alloc: Global, text: &[u8], out: &mut K, err: &mut E) -> Status
    requires { length text.now ≤ limit }
    ensures { OnText (record { held = K.held out.old; write_faults = K.faults out.old; said = E.held err.old; say_faults = E.faults err.old }) (record { held = K.held out.new; write_faults = K.faults out.new; said = E.held err.new; say_faults = E.faults err.new }) text.now result }
{
    match translate(alloc, text, out) {
        Ok(()) => Status::Done,
        Err(TranslateFault::NotYet(at)) => {
            say_refused(err, Refusal::NotYet, place_of(text, at));
            Status::Refused
        }
        Err(TranslateFault::Output) => {
            say_write_fault(err);
            Status::WriteFault
        }
        Err(TranslateFault::Memory) => {
            say_out_of_memory(err);
            Status::OutOfMemory
        }
    }
}

/// Runs a command on the bytes that it was given.
fn run_on<K: Sink, E: Sink>(
    alloc: Global,
    asked: Asked,
    bytes: &[u8],
    out: &mut K,
    err: &mut E,
) -> Status
    requires { length bytes.now ≤ limit_of asked }
    ensures { OnBytes asked (record { held = K.held out.old; write_faults = K.faults out.old; said = E.held err.old; say_faults = E.faults err.old }) (record { held = K.held out.new; write_faults = K.faults out.new; said = E.held err.new; say_faults = E.faults err.new }) bytes.now result }
{
    match asked {
        Asked::Translate => answer(alloc, bytes, out, err),
        Asked::Run(language) => run_job(alloc, language, bytes, out, err),
    }
}

/// Reads all that a command takes, and runs it.
fn run_asked<S: Source, K: Sink, E: Sink>(
    alloc: Global,
    asked: Asked,
    source: &mut S,
    out: &mut K,
    err: &mut E,
) -> Status
    ensures { Ends (Some asked) (S.left source.old) (S.left source.new) (S.faults source.old) (S.faults source.new) (record { held = K.held out.old; write_faults = K.faults out.old; said = E.held err.old; say_faults = E.faults err.old }) (record { held = K.held out.new; write_faults = K.faults out.new; said = E.held err.new; say_faults = E.faults err.new }) result }
{
    match read_all(alloc, source, asked.limit()) {
        Ok(text) => run_on(alloc, asked, text.bytes(), out, err),
        Err(InputFault::Failed) => {
            say_read_fault(err);
            Status::ReadFault
        }
        Err(InputFault::TooLong) => {
            say_too_long(err);
            Status::TooLong
        }
        Err(InputFault::Memory) => {
            say_out_of_memory(err);
            Status::OutOfMemory
        }
    }
}

/// Runs the command that the words name. `translate` reads a Bash script from `source` and writes its sh text to
/// `out`; `run-bash` and `run-sh` read a job and write the report of its run. What kept it from that is a line on `err`.
pub fn bash2sh<S: Source, K: Sink, E: Sink>(
    alloc: Global,
    words: &[String],
    source: &mut S,
    out: &mut K,
    err: &mut E,
) -> Status
    ensures { Ends (asked_of (map string_bytes words.now)) (S.left source.old) (S.left source.new) (S.faults source.old) (S.faults source.new) (record { held = K.held out.old; write_faults = K.faults out.old; said = E.held err.old; say_faults = E.faults err.old }) (record { held = K.held out.new; write_faults = K.faults out.new; said = E.held err.new; say_faults = E.faults err.new }) result }
{
    match asked_of(words) {
        Some(asked) => run_asked(alloc, asked, source, out, err),
        None => {
            say_usage(err);
            Status::Usage
        }
    }
}
