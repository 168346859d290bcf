//! The bounds and the latitude of a job's run.

ghost use Rattle.std.specs.Prelude.{◌≡◌, false, codes};
ghost use Rattle.serde_json.specs.View.{view};
ghost use Rattle.world_json.specs.Judging as judging;
ghost use Rattle.world_json.specs.Jobs as jobs;

use crate::fault::{JobFault, Reason, refused, within};
use crate::fields::{number_member, only, text};
use serde_json::Value;
use shell_world::{Bounds, Latitude};
use std::alloc::Global;

/// The most turns and the most levels that a job may ask for.
const MOST_TURNS: u32 = 10_000_000;

const MOST_DEPTH: u32 = 32;

/// The bounds that the job's members give.
pub(crate) fn bounds(alloc: Global, job: &Value) -> Result<Bounds, JobFault>
    ensures { judging.IsJudged (jobs.bounds_of (view job.now)) result }
{
    let turns = number_member(alloc, job, "turns", 100_000, 0, MOST_TURNS)?;
    let depth = number_member(alloc, job, "depth", 32, 0, MOST_DEPTH)?;
    Ok(Bounds { turns, depth })
}

/// The latitude that the job's member gives.
pub(crate) fn latitude_member(alloc: Global, job: &Value) -> Result<Latitude, JobFault>
    ensures { judging.IsJudged (judging.member_or jobs.usual_latitude jobs.latitude_of
        (codes "latitude") (view job.now)) result }
{
    match job.get("latitude") {
        Some(member) => within(alloc, b"latitude", latitude(alloc, member)),
        None => Ok(Latitude {
            last_current: false,
            redirect: 1,
        }),
    }
}

fn latitude(alloc: Global, value: &Value) -> Result<Latitude, JobFault>
    ensures { judging.IsJudged (jobs.latitude_of (view value.now)) result }
{
    only(alloc, value, &[b"last", b"redirect"])?;
    let last_current = last_member(alloc, value)?;
    let redirect = number_member(alloc, value, "redirect", 1, 1, 125)?;
    Ok(Latitude {
        last_current,
        redirect: redirect as u8,
    })
}

fn last_member(alloc: Global, value: &Value) -> Result<bool, JobFault>
    ensures { judging.IsJudged
        (judging.member_or false jobs.last_of (codes "last") (view value.now)) result }
{
    match value.get("last") {
        Some(member) => within(alloc, b"last", last(alloc, member)),
        None => Ok(false),
    }
}

fn last(alloc: Global, value: &Value) -> Result<bool, JobFault>
    ensures { judging.IsJudged (jobs.last_of (view value.now)) result }
{
    let word = text(alloc, value)?;
    last_word(alloc, word.bytes())
}

fn last_word(alloc: Global, word: &[u8]) -> Result<bool, JobFault>
    ensures { judging.IsJudged (jobs.last_word word.now) result }
{
    if b"current".as_slice() == word {
        Ok(true)
    } else if b"subshell".as_slice() == word {
        Ok(false)
    } else {
        Err(refused(alloc, Reason::Range))
    }
}
