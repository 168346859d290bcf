//! The built-ins of sh (POSIX XCU 2.14, and the utilities that shells build in).
//!
//! `run_builtin` gives exactly what `builtin_run` of sh_meaning says. Read `environment` first (what a built-in sees and
//! changes of a shell environment), `form` and `operands` (the command as it is written) and `flow` (how it ends); then a module for
//! each family: `jumps`, `parameters`, `variables`, `printing`, `reading`, `testing`; and `run`, which finds the
//! built-in by its name. `numbers` reads decimal numbers.
#![tactic(auto)]

mod environment;
mod flow;
mod form;
mod jumps;
mod names;
mod numbers;
mod operands;
mod parameters;
mod printing;
mod reading;
mod run;
mod testing;
mod variables;

pub use environment::Environment;
pub use flow::{Flow, Place, Stop};
pub use form::Form;
pub use names::{is_sh_builtin, is_special};
pub use operands::{is_export_operand, is_fit_operand};
pub use run::run_builtin;
pub use variables::{assign, exported_environment, start_variables, value_at};
