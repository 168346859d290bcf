//! The interpreter of sh: `run` takes a tree and gives exactly the report of the script's meaning (`sh_meaning`).
//!
//! Each turn does what the definition of its frame (`sh_frames`) says. `shell` has the state, `payload` what goes from one
//! turn to the next, and `frames` the stack of what stands open. `words`
//! expands a word part by part, over `params` (parameters), `substitutions` and `sums` (arithmetic); `fields` makes
//! arguments of the words of a command, `redirects` makes redirections, and `assigns` assigns. `commands` goes along lists,
//! pipelines and commands, `jobs` begins what stands behind redirections, and `compounds`, `cases` and `loops` are the
//! compound commands. `turns` picks the turn of a frame, and `running` has the loop that takes a frame a turn. `specs/Views`
//! takes the code's types to those of the definitions, and `specs/Answers` says what a turn promises (`Turns`): what is done
//! of a run before frames, and the frames behind, give what it and the frames give.
#![tactic(auto)]

mod assigns;
mod cases;
mod commands;
mod compounds;
mod fields;
mod frames;
mod halt;
mod jobs;
mod loops;
mod params;
mod payload;
mod redirects;
mod running;
mod shell;
mod substitutions;
mod sums;
mod turns;
mod words;

pub use running::run;
