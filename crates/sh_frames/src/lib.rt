//! What stands open while a script of sh runs, as frames that each wait for one kind of payload.
//!
//! An interpreter that doesn't call itself keeps them on a stack. `specs/Payloads` has what goes from one to the next,
//! `specs/Frames` the frames, and `specs/Turns` what each makes of its payload, and what all of them make of one (`go_on`).
//! `specs/Exits` says how a loop is left. The laws say that a script's run is what its frame makes of a payload, and that
//! each construct before frames comes apart in a smaller run and one frame more: so each turn of such an interpreter keeps
//! what comes of all.
#![tactic(auto)]

mod laws;

pub use laws::{
    commands_come_apart, compounds_come_apart, frames_give_the_run, loops_come_apart,
    shells_come_apart, words_come_apart,
};
