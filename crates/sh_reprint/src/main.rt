//! Reads sh text from standard input and prints it anew, one complete command a line.
//!
//! It is what the reader and the printer are tested and measured with: `reprint` is their composition, and its contract
//! says that what is printed spells the same script. With the word `check` the text is only read.
#![tactic(auto)]

mod reprint;
#[cfg(test)]
mod tests;

use reprint::{ReprintFault, reprint};
use sh_parser::{ReadFault, read};
use span_text::{StandardOutput, place_of};
use std::io::Read;
use std::process::ExitCode;

/// How many bytes a text may have.
const LIMIT: usize = 16_777_216;

/// Whether the text is only to be read.
fn only_reads(rt: &HostRuntime) -> bool {
    match std::env::args(rt) {
        Ok(mut args) => {
            args.next();
            matches!(args.next(), Some(_))
        }
        Err(_) => false,
    }
}

fn main(rt: HostRuntime) -> ExitCode {
    let mut bytes = Vec::new(rt.alloc());
    if rt.stdin().read_to_end(&mut bytes).is_err() {
        return ExitCode::from(4);
    }
    if bytes.len() > LIMIT {
        return ExitCode::from(7);
    }
    let done = if only_reads(&rt) {
        read(rt.alloc(), bytes.as_slice())
            .map(|_| ())
            .map_err(ReprintFault::from)
    } else {
        reprint(
            rt.alloc(),
            bytes.as_slice(),
            &mut StandardOutput::new(rt.stdout()),
        )
    };
    match done {
        Ok(()) => ExitCode::from(0),
        Err(ReprintFault::Unreadable(at)) => {
            let place = place_of(bytes.as_slice(), (at as usize).min(bytes.len()));
            let _ = eprintln!(&rt; "{}:{}", place.line, place.column);
            ExitCode::from(3)
        }
        Err(ReprintFault::Output) => ExitCode::from(5),
        Err(ReprintFault::Memory) => ExitCode::from(9),
    }
}
