//! Jobs and reports as JSON, which `serde_json` reads and writes.
//!
//! `read` gives the job that bytes are, or the pointer to its first bad field with the reason; the world of a job that
//! is read is a good one. `report_text` gives the text of a report, which reads back. A character U+0000 to U+00FF
//! stands for the byte of its number. `specs/Judging` and `specs/Jobs` say what a job is, `specs/Reports` what a
//! report's text is. Read `fault` and `fields` first, then `pairs`, `rows` and `bounds`, which `job` puts together;
//! `report` stands by itself.
#![tactic(auto)]

mod bounds;
mod characters;
mod fault;
mod fields;
mod job;
mod pairs;
mod report;
mod rows;

pub use fault::{JobFault, Reason};
pub use fields::texts_are_characters;
pub use job::{Job, read};
pub use report::report_text;

#[cfg(test)]
mod form_tests;
#[cfg(test)]
mod job_tests;
#[cfg(test)]
mod report_tests;
#[cfg(test)]
mod samples;
#[cfg(test)]
mod value_tests;
