//! Runs a Bash script on a recorded world.
//!
//! `run` gives the report of the meaning in `bash_meaning`. `shell` has the state of a run, `variables` what is read and
//! set of it, `words` the expansion of words, and `commands` what each form of a command does.
#![tactic(auto)]

mod commands;
mod running;
mod shell;
mod variables;
mod words;

pub use running::run;
