//! bash2sh: from Bash to POSIX sh.
//!
//! `program` has the one call that `main` makes, whose contract carries the theorem. It takes a script's bytes from
//! `input` and has them translated by `translator`: `lines` cuts the text at its newlines and reads each line alone,
//! `commands` and `words` read what stands on a line, `form` says which commands are taken, and `lowering` makes the
//! sh tree. `messages` has the lines for standard error.
#![tactic(auto)]

mod asked;
mod commands;
mod fault;
mod form;
mod gather;
mod input;
#[cfg(test)]
mod job_tests;
mod jobs;
mod language;
mod line_texts;
mod lines;
mod lowering;
mod messages;
mod program;
#[cfg(test)]
mod run_sh;
mod status;
#[cfg(test)]
mod tests;
#[cfg(test)]
mod translate_tests;
mod translator;
mod words;

use messages::{say_out_of_memory, say_usage};
use program::bash2sh;
use span_text::{StandardError, StandardInput, StandardOutput};
use status::Status;
use std::io::ErrorKind;
use std::process::ExitCode;

/// The words behind the program's name. A word that isn't UTF-8 is none that the program knows.
fn arguments(rt: &HostRuntime) -> Result<Vec<String>, Status> {
    let mut args = match std::env::args(rt) {
        Ok(args) => args,
        Err(error) if error.kind() == ErrorKind::OutOfMemory => return Err(Status::OutOfMemory),
        Err(_) => return Err(Status::Usage),
    };
    args.next();
    let Ok(words) = args.collect(rt.alloc()) else {
        return Err(Status::OutOfMemory);
    };
    Ok(words)
}

/// Gives the words and the standard streams to `bash2sh`.
fn main(rt: HostRuntime) -> ExitCode {
    let mut err = StandardError::new(rt.stderr());
    let status = match arguments(&rt) {
        Ok(words) => {
            let mut source = StandardInput::new(rt.stdin());
            let mut out = StandardOutput::new(rt.stdout());
            bash2sh(
                rt.alloc(),
                words.as_slice(),
                &mut source,
                &mut out,
                &mut err,
            )
        }
        Err(Status::OutOfMemory) => {
            say_out_of_memory(&mut err);
            Status::OutOfMemory
        }
        Err(status) => {
            say_usage(&mut err);
            status
        }
    };
    ExitCode::from(status.number())
}
