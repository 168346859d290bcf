//! What sh text does.
//!
//! Read `specs/Own` (a shell environment, over `Variables`), `Modes` and `Expanded` (a word while it is expanded),
//! `Parameters`, `Arithmetic`, `Pathnames`, `Lists`, then the steps: `Expanding` (words), `Redirecting`, `Simple` (simple
//! commands, over the built-ins of `specs/builtins`, of which read `Run` first), and `Commands`, which walks over the
//! tree. `Running` has whole runs, `Examples` some of them, and `laws` what holds of all.
//!
//! The only code is the types of a variable and of a built-in, which the definitions and an interpreter share.
#![tactic(auto)]

mod builtin;
mod laws;
mod variable;

pub use builtin::Builtin;
pub use laws::{larger_bounds_change_no_end, loops_unroll};
pub use variable::Variable;
