//! The table of external commands of a job.

ghost use Rattle.std.specs.Prelude.{◌≡◌, codes};
ghost use Rattle.serde_json.specs.View.{view};
ghost use Rattle.shell_world.specs.declared.world.RowInput.TheVariants.{Nothing};
ghost use Rattle.world_json.specs.Judging as judging;
ghost use Rattle.world_json.specs.Jobs as jobs;

use crate::fault::{JobFault, Reason, refused, within};
use crate::fields::{Item, bytes, number_member, only, some, text, text_member};
use serde_json::Value;
use shell_world::{Answer, Row, RowInput, RowKey};
use span_text::{List, Text};
use std::alloc::Global;

impl Item for Answer {
    ghost judged = { jobs.answer_of };

    fn judge(alloc: Global, value: &Value) -> Result<Answer, JobFault> {
        answer(alloc, value)
    }
}

impl Item for Row {
    ghost judged = { jobs.row_of };

    fn judge(alloc: Global, value: &Value) -> Result<Row, JobFault> {
        row(alloc, value)
    }
}

fn answer(alloc: Global, value: &Value) -> Result<Answer, JobFault>
    ensures { judging.IsJudged (jobs.answer_of (view value.now)) result }
{
    only(alloc, value, &[b"status", b"out", b"err"])?;
    let status = number_member(alloc, value, "status", 0, 0, 255)?;
    let out = text_member(alloc, value, "out")?;
    let err = text_member(alloc, value, "err")?;
    Ok(Answer {
        status: status as u8,
        out,
        err,
    })
}

/// Whether the key of a row is a name. A row has one key: where it has `argv`, a `name` is unknown.
fn is_named(value: &Value) -> bool
    ensures { result ≡ jobs.is_named (view value.now) }
{
    value.get("name").is_some() && value.get("argv").is_none()
}

fn only_row(alloc: Global, value: &Value) -> Result<(), JobFault>
    ensures { judging.IsJudged
        (judging.only (jobs.row_members (jobs.is_named (view value.now))) (view value.now)) result }
{
    if is_named(value) {
        only(alloc, value, &[b"name", b"input", b"answers"])
    } else {
        only(alloc, value, &[b"argv", b"input", b"answers"])
    }
}

fn row(alloc: Global, value: &Value) -> Result<Row, JobFault>
    ensures { judging.IsJudged (jobs.row_of (view value.now)) result }
{
    only_row(alloc, value)?;
    let key = key(alloc, value)?;
    let input = input_member(alloc, value)?;
    let answers = answers(alloc, value)?;
    Ok(Row {
        key,
        input,
        answers,
    })
}

fn key(alloc: Global, value: &Value) -> Result<RowKey, JobFault>
    ensures { judging.IsJudged (jobs.key_of (jobs.is_named (view value.now)) (view value.now)) result }
{
    if is_named(value) {
        Ok(RowKey::Name(name(alloc, value)?))
    } else {
        Ok(RowKey::Whole(argv(alloc, value)?))
    }
}

fn name(alloc: Global, value: &Value) -> Result<Text, JobFault>
    ensures { judging.IsJudged (judging.wanted judging.text_of (codes "name") (view value.now)) result }
{
    match value.get("name") {
        Some(member) => within(alloc, b"name", text(alloc, member)),
        None => within(alloc, b"name", Err(refused(alloc, Reason::Missing))),
    }
}

fn argv(alloc: Global, value: &Value) -> Result<List<Text>, JobFault>
    ensures { judging.IsJudged
        (judging.wanted (judging.some_of judging.text_of) (codes "argv") (view value.now)) result }
{
    match value.get("argv") {
        Some(member) => within(alloc, b"argv", some(alloc, member)),
        None => within(alloc, b"argv", Err(refused(alloc, Reason::Missing))),
    }
}

fn answers(alloc: Global, value: &Value) -> Result<List<Answer>, JobFault>
    ensures { judging.IsJudged
        (judging.wanted (judging.some_of jobs.answer_of) (codes "answers") (view value.now)) result }
{
    match value.get("answers") {
        Some(member) => within(alloc, b"answers", some(alloc, member)),
        None => within(alloc, b"answers", Err(refused(alloc, Reason::Missing))),
    }
}

fn input_member(alloc: Global, value: &Value) -> Result<RowInput, JobFault>
    ensures { judging.IsJudged
        (judging.member_or Nothing jobs.input_of (codes "input") (view value.now)) result }
{
    match value.get("input") {
        Some(member) => within(alloc, b"input", input(alloc, member)),
        None => Ok(RowInput::Nothing),
    }
}

fn input(alloc: Global, value: &Value) -> Result<RowInput, JobFault>
    ensures { judging.IsJudged (jobs.input_of (view value.now)) result }
{
    match value {
        Value::Null => Ok(RowInput::Nothing),
        Value::Bool(true) => Ok(RowInput::Any),
        Value::String(text) => Ok(RowInput::Exactly(bytes(alloc, text)?)),
        _ => Err(refused(alloc, Reason::WrongType)),
    }
}
