//! Jobs of sh with their whole reports, a table for each subject.

mod arithmetic;
mod bounds;
mod builtins;
mod commands;
mod expansions;
mod fields;
mod functions;
mod jumps;
mod latitudes;
mod patterns;
mod printing;
mod reading;
mod redirections;
mod subshells;
mod testing;
mod unspecified;
mod unspecified_forms;
mod unspecified_words;

use crate::job_tests::given;
use crate::status::Status;
use memchr::memmem;
use std::alloc::Global;
use std::process::Abort;
use std::test::Fail;

/// The status of the program for a run of which this is the report.
fn status_of(report: &[u8]) -> Status {
    if memmem::find(report, br#""end":"ended""#).is_some() {
        Status::Done
    } else if memmem::find(report, br#""end":"goes-on""#).is_some() {
        Status::GoesOn
    } else {
        Status::Unspecified
    }
}

/// Checks that each of these jobs gives its report.
fn all_give(rt: &impl Abort, alloc: Global, rows: &[(&[u8], &[u8])]) -> Result<(), Fail> {
    for (job, report) in rows {
        let (status, out, err) = given(alloc, "run-sh", job)?;
        assert_eq!(rt; out.bytes(), *report, "{job:?}");
        assert_eq!(rt; status, status_of(report), "{job:?}");
        assert!(rt; err.bytes().is_empty(), "{job:?}");
    }
    Ok(())
}

#[test]
fn arithmetic_jobs(rt: HostRuntime) -> Result<(), Fail> {
    all_give(&rt, rt.alloc(), arithmetic::ROWS.as_slice())
}

#[test]
fn bounds_jobs(rt: HostRuntime) -> Result<(), Fail> {
    all_give(&rt, rt.alloc(), bounds::ROWS.as_slice())
}

#[test]
fn builtins_jobs(rt: HostRuntime) -> Result<(), Fail> {
    all_give(&rt, rt.alloc(), builtins::ROWS.as_slice())
}

#[test]
fn commands_jobs(rt: HostRuntime) -> Result<(), Fail> {
    all_give(&rt, rt.alloc(), commands::ROWS.as_slice())
}

#[test]
fn expansions_jobs(rt: HostRuntime) -> Result<(), Fail> {
    all_give(&rt, rt.alloc(), expansions::ROWS.as_slice())
}

#[test]
fn fields_jobs(rt: HostRuntime) -> Result<(), Fail> {
    all_give(&rt, rt.alloc(), fields::ROWS.as_slice())
}

#[test]
fn functions_jobs(rt: HostRuntime) -> Result<(), Fail> {
    all_give(&rt, rt.alloc(), functions::ROWS.as_slice())
}

#[test]
fn jumps_jobs(rt: HostRuntime) -> Result<(), Fail> {
    all_give(&rt, rt.alloc(), jumps::ROWS.as_slice())
}

#[test]
fn latitudes_jobs(rt: HostRuntime) -> Result<(), Fail> {
    all_give(&rt, rt.alloc(), latitudes::ROWS.as_slice())
}

#[test]
fn patterns_jobs(rt: HostRuntime) -> Result<(), Fail> {
    all_give(&rt, rt.alloc(), patterns::ROWS.as_slice())
}

#[test]
fn printing_jobs(rt: HostRuntime) -> Result<(), Fail> {
    all_give(&rt, rt.alloc(), printing::ROWS.as_slice())
}

#[test]
fn reading_jobs(rt: HostRuntime) -> Result<(), Fail> {
    all_give(&rt, rt.alloc(), reading::ROWS.as_slice())
}

#[test]
fn redirections_jobs(rt: HostRuntime) -> Result<(), Fail> {
    all_give(&rt, rt.alloc(), redirections::ROWS.as_slice())
}

#[test]
fn subshells_jobs(rt: HostRuntime) -> Result<(), Fail> {
    all_give(&rt, rt.alloc(), subshells::ROWS.as_slice())
}

#[test]
fn testing_jobs(rt: HostRuntime) -> Result<(), Fail> {
    all_give(&rt, rt.alloc(), testing::ROWS.as_slice())
}

#[test]
fn unspecified_jobs(rt: HostRuntime) -> Result<(), Fail> {
    all_give(&rt, rt.alloc(), unspecified::ROWS.as_slice())
}

#[test]
fn unspecified_forms_jobs(rt: HostRuntime) -> Result<(), Fail> {
    all_give(&rt, rt.alloc(), unspecified_forms::ROWS.as_slice())
}

#[test]
fn unspecified_words_jobs(rt: HostRuntime) -> Result<(), Fail> {
    all_give(&rt, rt.alloc(), unspecified_words::ROWS.as_slice())
}
