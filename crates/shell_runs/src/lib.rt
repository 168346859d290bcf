//! What the meanings of whole scripts are built from, in either language, over the runs of shell_world. Nothing here is
//! of one language: what a combinator asks of a language's own part of the state it takes as functions.
//! It promises of each combinator that larger bounds change nothing of a run that is over and only lengthen the record
//! of one that goes on, and that a loop is a round and the loop again (`laws`).
//! Read `specs/Flow` (how a command ends), `Sequences`, `Loops`, `Calls`, `Redirecting`, `Shells`, `Ends`, `Bounds`, then
//! `laws`.
#![tactic(auto)]

mod laws;

pub use laws::{
    loops_and_calls_keep_bounds, loops_unroll, redirections_keep_bounds, sequences_keep_bounds,
    shells_keep_bounds,
};
