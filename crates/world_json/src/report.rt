//! The JSON of a report.

ghost use Rattle.std.specs.Prelude.{◌≡◌, ◌++◌, ◌∷◌, [], ℕ, List, Some, IfOk};
ghost use Rattle.serde_json.specs.Data.{number, unsigned, string};
ghost use Rattle.serde_json.specs.Read.{read};
ghost use Rattle.serde_json.specs.View.{view};
ghost use Rattle.world_json.specs.Texts as texts;
ghost use Rattle.world_json.specs.Reports as reports;

use crate::characters::characters;
use serde_json::{Map, Value, json};
use shell_world::{Call, End, Report};
use span_text::{List, Memory, Text};
use std::alloc::{AllocError, Global};

/// The report as JSON without spaces, and a newline. The members of each object stand in the order of their bytes,
/// and a byte is written as the character U+0000 to U+00FF of its number. `status` and `files` are null unless the
/// run ended, and a call's `input` is null where it could take none.
pub fn report_text(alloc: Global, report: &Report) -> Result<Text, Memory>
    ensures text { IfOk result (λ text. text ≡ reports.report_text_of report.now) }
    ensures reads_back { IfOk result (λ text. (line : List ℕ) × (text ≡ line ++ 10 ∷ [])
        × (read line ≡ Some (reports.report_data report.now))) }
{
    let value = report_value(alloc, report)?;
    let mut text = Text::from_vec(value.to_vec(alloc)?);
    text.append(b"\n")?;
    Ok(text)
}

fn report_value(alloc: Global, report: &Report) -> Result<Value, Memory>
    ensures { IfOk result (λ v. view v ≡ reports.report_data report.now) }
{
    let calls = calls_value(alloc, &report.calls)?;
    let err = text_value(alloc, &report.err)?;
    let files = files_value(alloc, report)?;
    let out = text_value(alloc, &report.out)?;
    Ok(report_object(alloc, report, calls, err, files, out)?)
}

fn report_object(
    alloc: Global,
    report: &Report,
    calls: Value,
    err: Value,
    files: Value,
    out: Value,
) -> Result<Value, AllocError>
    ensures { IfOk result (λ v. view v
        ≡ reports.report_object (view calls) (reports.end_data report.now.«end») (view err) (view files)
        (view out) (reports.status_data report.now.«end») (number (unsigned report.now.turns))) }
{
    let end = end_word(report.end);
    let status = status_value(report.end);
    let turns = report.turns;
    json!(in alloc; {
        "calls": calls,
        "end": end,
        "err": err,
        "files": files,
        "out": out,
        "status": status,
        "turns": turns
    })
}

fn text_value(alloc: Global, text: &Text) -> Result<Value, Memory>
    ensures { IfOk result (λ v. view v ≡ texts.text_data text.now) }
{
    Ok(Value::String(characters(alloc, text.bytes())?))
}

fn texts_value(alloc: Global, list: &List<Text>) -> Result<Value, Memory>
    ensures { IfOk result (λ v. view v ≡ reports.texts_data list.now) }
{
    let mut items = Vec::new(alloc);
    for text in list.as_slice() {
        items.push(text_value(alloc, text)?)?;
    }
    Ok(Value::from(items))
}

fn pairs_value(alloc: Global, pairs: &List<(Text, Text)>) -> Result<Value, Memory>
    ensures { IfOk result (λ v. view v ≡ reports.pairs_data pairs.now) }
{
    let mut members = Map::new(alloc);
    for (key, text) in pairs.as_slice() {
        let value = text_value(alloc, text)?;
        members.insert(characters(alloc, key.bytes())?, value)?;
    }
    Ok(Value::from(members))
}

fn input_value(alloc: Global, input: &Option<Text>) -> Result<Value, Memory>
    ensures { IfOk result (λ v. view v ≡ reports.input_data input.now) }
{
    match input {
        Some(text) => text_value(alloc, text),
        None => Ok(Value::Null),
    }
}

fn call_value(alloc: Global, call: &Call) -> Result<Value, Memory>
    ensures { IfOk result (λ v. view v ≡ reports.call_data call.now) }
{
    let argv = texts_value(alloc, &call.argv)?;
    let env = pairs_value(alloc, &call.env)?;
    let input = input_value(alloc, &call.input)?;
    Ok(call_object(alloc, argv, env, input)?)
}

fn call_object(alloc: Global, argv: Value, env: Value, input: Value) -> Result<Value, AllocError>
    ensures { IfOk result (λ v. view v ≡ reports.call_object (view argv) (view env) (view input)) }
{
    json!(in alloc; {"argv": argv, "env": env, "input": input})
}

fn calls_value(alloc: Global, calls: &List<Call>) -> Result<Value, Memory>
    ensures { IfOk result (λ v. view v ≡ reports.calls_data calls.now) }
{
    let mut items = Vec::new(alloc);
    for call in calls.as_slice() {
        items.push(call_value(alloc, call)?)?;
    }
    Ok(Value::from(items))
}

fn end_word(end: End) -> &'static str
    ensures { string result.now ≡ reports.end_data end }
{
    match end {
        End::Ended(_) => "ended",
        End::GoesOn => "goes-on",
        End::Unspecified => "unspecified",
    }
}

fn status_value(end: End) -> Value
    ensures { view result ≡ reports.status_data end }
{
    match end {
        End::Ended(status) => Value::from(status),
        End::GoesOn | End::Unspecified => Value::Null,
    }
}

fn files_value(alloc: Global, report: &Report) -> Result<Value, Memory>
    ensures { IfOk result (λ v. view v ≡ reports.files_data report.now.«end» report.now.files) }
{
    match (report.end, &report.files) {
        (End::Ended(_), Some(files)) => pairs_value(alloc, files),
        _ => Ok(Value::Null),
    }
}
