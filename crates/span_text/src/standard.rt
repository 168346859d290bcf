//! The standard streams as sources and sinks: the trusted edge, which tells nothing of content.

ghost use Rattle.std.specs.Prelude.{◌≡◌, None};

use crate::fault::Failed;
use crate::stream::{Sink, Source};
use std::io::{Read, Stderr, Stdin, Stdout, Write};

/// Standard input.
#[derive(Drop)]
pub struct StandardInput {
    stream: Stdin,
    faults: u64,
}

impl StandardInput {
    pub fn new(stream: Stdin) -> StandardInput
        ensures { result.faults ≡ 0 }
    {
        StandardInput { stream, faults: 0 }
    }
}

impl Source for StandardInput {
    ghost left = { λ _. None };

    ghost faults = { λ s. s.faults };

    fn read(&mut self, buffer: &mut [u8]) -> Result<usize, Failed> {
        match self.stream.read(buffer) {
            Ok(n) => Ok(n),
            Err(_) => {
                self.faults = self.faults.saturating_add(1);
                Err(Failed {})
            }
        }
    }
}

/// Standard output.
#[derive(Drop)]
pub struct StandardOutput {
    stream: Stdout,
    faults: u64,
}

impl StandardOutput {
    pub fn new(stream: Stdout) -> StandardOutput
        ensures { result.faults ≡ 0 }
    {
        StandardOutput { stream, faults: 0 }
    }
}

impl Sink for StandardOutput {
    ghost held = { λ _. None };

    ghost faults = { λ s. s.faults };

    fn write(&mut self, piece: &[u8]) -> Result<usize, Failed> {
        match self.stream.write(piece) {
            Ok(n) if n > 0 || piece.is_empty() => Ok(n),
            _ => {
                self.faults = self.faults.saturating_add(1);
                Err(Failed {})
            }
        }
    }
}

/// Standard error.
#[derive(Drop)]
pub struct StandardError {
    stream: Stderr,
    faults: u64,
}

impl StandardError {
    pub fn new(stream: Stderr) -> StandardError
        ensures { result.faults ≡ 0 }
    {
        StandardError { stream, faults: 0 }
    }
}

impl Sink for StandardError {
    ghost held = { λ _. None };

    ghost faults = { λ s. s.faults };

    fn write(&mut self, piece: &[u8]) -> Result<usize, Failed> {
        match self.stream.write(piece) {
            Ok(n) if n > 0 || piece.is_empty() => Ok(n),
            _ => {
                self.faults = self.faults.saturating_add(1);
                Err(Failed {})
            }
        }
    }
}
