//! The environment and the files of a job, in the order of their names.

ghost use Rattle.std.specs.Prelude.{◌≡◌};
ghost use Rattle.serde_json.specs.View.{view, members_view};
ghost use Rattle.shell_world.specs.World.{below_root};
ghost use Rattle.world_json.specs.Judging as judging;
ghost use Rattle.world_json.specs.Jobs as jobs;

use crate::fault::{JobFault, Reason, refused, within};
use crate::fields::{bytes, text};
use serde_json::{Map, Value};
use span_text::{List, Text, is_name, is_reserved, is_special_name};
use std::alloc::Global;

/// The variables with their values.
pub(crate) fn environment(alloc: Global, value: &Value) -> Result<List<(Text, Text)>, JobFault>
    ensures { judging.IsJudged (jobs.environment_of (view value.now)) result }
{
    match value.as_object() {
        Some(members) => variables(alloc, members),
        None => Err(refused(alloc, Reason::WrongType)),
    }
}

fn variables(alloc: Global, members: &Map<String, Value>) -> Result<List<(Text, Text)>, JobFault>
    ensures { judging.IsJudged
        (jobs.pairs_of jobs.variable_of (members_view members.now.entries)) result }
{
    let mut variables = List::new(alloc);
    for (key, member) in members.iter() {
        variables.push(within(alloc, key.as_bytes(), variable(alloc, key.as_str(), member))?)?;
    }
    Ok(variables)
}

fn variable(alloc: Global, key: &str, value: &Value) -> Result<(Text, Text), JobFault>
    ensures { judging.IsJudged (jobs.variable_of key.now (view value.now)) result }
{
    let value = text(alloc, value)?;
    let name = bytes(alloc, key)?;
    variable_named(alloc, name, value)
}

fn variable_named(alloc: Global, name: Text, value: Text) -> Result<(Text, Text), JobFault>
    ensures { judging.IsJudged (jobs.variable_named name value) result }
{
    if !is_name(name.bytes()) {
        Err(refused(alloc, Reason::Name))
    } else if is_reserved(name.bytes()) {
        Err(refused(alloc, Reason::Reserved))
    } else if is_special_name(name.bytes()) {
        Err(refused(alloc, Reason::Special))
    } else {
        Ok((name, value))
    }
}

/// The paths with the bytes of their files.
pub(crate) fn files(alloc: Global, value: &Value) -> Result<List<(Text, Text)>, JobFault>
    ensures { judging.IsJudged (jobs.files_of (view value.now)) result }
{
    match value.as_object() {
        Some(members) => files_of(alloc, value, members),
        None => Err(refused(alloc, Reason::WrongType)),
    }
}

/// The files of these members, among all the files of the job.
fn files_of(
    alloc: Global,
    all: &Value,
    members: &Map<String, Value>,
) -> Result<List<(Text, Text)>, JobFault>
    ensures { judging.IsJudged
        (jobs.pairs_of (jobs.file_of (view all.now)) (members_view members.now.entries)) result }
{
    let mut files = List::new(alloc);
    for (path, member) in members.iter() {
        files.push(within(
            alloc,
            path.as_bytes(),
            file(alloc, all, path.as_str(), member),
        )?)?;
    }
    Ok(files)
}

/// The file of this path, one of the files.
fn file(alloc: Global, files: &Value, key: &str, value: &Value) -> Result<(Text, Text), JobFault>
    ensures { judging.IsJudged (jobs.file_of (view files.now) key.now (view value.now)) result }
{
    let contents = text(alloc, value)?;
    let path = bytes(alloc, key)?;
    file_at(alloc, clashes(files, key), path, contents)
}

fn file_at(alloc: Global, clash: bool, path: Text, contents: Text) -> Result<(Text, Text), JobFault>
    ensures { judging.IsJudged (jobs.file_at clash path contents) result }
{
    if !is_path(path.bytes()) {
        Err(refused(alloc, Reason::Path))
    } else if clash {
        Err(refused(alloc, Reason::PathClash))
    } else {
        Ok((path, contents))
    }
}

/// Whether the text is one or more components joined by `/`, with or without a leading `/`.
fn is_path(path: &[u8]) -> bool
    ensures { result ≡ jobs.is_path path.now }
{
    below_root(path)
        .split(|byte| *byte == b'/')
        .all(|part| is_component(part))
}

fn below_root(path: &[u8]) -> &[u8]
    ensures { result.now ≡ below_root path.now }
{
    match path {
        [b'/', rest @ ..] => rest,
        _ => path,
    }
}

fn is_component(part: &[u8]) -> bool
    ensures { result ≡ jobs.is_component part.now }
{
    !(part.is_empty() || part == b".".as_slice() || part == b"..".as_slice())
}

/// Whether another of the files is a folder of this path.
fn clashes(files: &Value, path: &str) -> bool
    ensures { result ≡ jobs.clashes (view files.now) path.now }
{
    for (at, byte) in path.as_bytes().iter().enumerate() {
        if *byte == b'/' && at > 0 && files.get(&path[..at]).is_some() {
            return true;
        }
    }
    false
}
