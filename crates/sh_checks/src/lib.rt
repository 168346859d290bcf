//! What of sh's words and commands is judged as it is written, before anything is expanded (POSIX XCU 2.6 to 2.9).
//!
//! Of a word: `lists` has the lists `$@` and `$*`, `tildes` the tildes among bytes that stand for themselves, `params` the
//! targets of `${a=w}`, `roles` what a word is in its command, and `sums` the operands of an arithmetic expression that stand
//! behind a sign. Of a command: `names` has the names that a value in a prefix depends on, `commands` the names that are
//! assigned to, `redirects` the descriptors of redirections. `functions` has the functions that a script defines anywhere.
#![tactic(auto)]

mod commands;
mod functions;
mod lists;
mod names;
mod params;
mod redirects;
mod roles;
mod sums;
mod tildes;

pub use commands::{has_assigns, names_of};
pub use functions::functions_of;
pub use lists::{has_crowded_lists, is_list};
pub use names::is_entangled;
pub use params::is_misassigned;
pub use redirects::{fd_of, plain_text};
pub use roles::Role;
pub use sums::behind_signs;
pub use tildes::{Where, has_doubtful_tilde};
