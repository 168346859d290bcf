//! Lists, chains of pipelines and pipelines (POSIX 2.9.2, 2.9.3).

ghost use Rattle.std.specs.Prelude.{map, Some};
ghost use Rattle.sh_grammar.specs.Acts as acts;
ghost use Rattle.sh_grammar.specs.Shape as shape;
ghost use Rattle.sh_grammar.specs.State as states;
ghost use Rattle.sh_parser.specs.Answers.{Gives};
ghost use Rattle.sh_parser.specs.Tables as tables;
ghost use Rattle.sh_parser.specs.Values.{nodes};
ghost use Rattle.sh_syntax.specs.View.{view, view_item, view_pipeline, items_of};

use crate::acts::empty::pipeline_or_empty;
use crate::acts::single::one;
use crate::fault::Stop;
use crate::picking::{Picked, pick, tight};
use crate::table::{LineRule, PipeRule};
use crate::values::Value;
use sh_syntax::{AndOr, Item, Joint, Pipeline, Script};
use span_text::List;
use std::alloc::Global;

/// The chains among the values.
#[tactic(auto, using(crate::proofs::Picked::chains_seen))]
pub fn chains_of(alloc: Global, values: List<Value>) -> Result<List<Item>, Stop>
    ensures { Gives (λ x. items_of (map view_item x)) result (Some (states.chains_in (nodes values))) }
{
    let Picked { chains, .. } = pick(alloc, values)?;
    Ok(tight(chains))
}

#[tactic(auto, using(crate::proofs::Rolls::script_rolled))]
fn list(alloc: Global, values: List<Value>) -> Result<Script, Stop>
    ensures { Gives view result (Some (states.chains_in (nodes values))) }
{
    Ok(Script {
        items: chains_of(alloc, values)?,
    })
}

#[tactic(auto, using(crate::proofs::Picked::pipeline_seen, crate::proofs::Picked::links_seen, crate::proofs::Rolls::chain_rolled, crate::proofs::Rolls::item_rolled))]
fn chain(alloc: Global, values: List<Value>) -> Result<Item, Stop>
    ensures { Gives view_item result (Some (shape.chain (states.pipeline_in (nodes values)) (states.links_in (nodes values)))) }
{
    let Picked {
        pipeline,
        links,
        ..
    } = pick(alloc, values)?;
    let first = pipeline_or_empty(alloc, pipeline);
    Ok(Item {
        chain: AndOr { first, rest: links },
    })
}

/// The pipeline behind `&&` or `||`.
#[tactic(auto, using(crate::proofs::Picked::pipeline_seen))]
fn linked(alloc: Global, values: List<Value>) -> Result<Pipeline, Stop>
    ensures { Gives view_pipeline result (Some (states.pipeline_in (nodes values))) }
{
    let Picked { pipeline, .. } = pick(alloc, values)?;
    Ok(pipeline_or_empty(alloc, pipeline))
}

#[tactic(auto, using(crate::proofs::Picked::bang_seen, crate::proofs::Picked::stages_seen, crate::proofs::Rolls::pipeline_rolled))]
fn pipeline(alloc: Global, values: List<Value>) -> Result<Pipeline, Stop>
    ensures { Gives view_pipeline result (Some (shape.pipeline (states.has_bang (nodes values)) (states.stages_in (nodes values)))) }
{
    let Picked {
        banged,
        commands,
        ..
    } = pick(alloc, values)?;
    Ok(Pipeline {
        negated: banged,
        stages: commands,
    })
}

/// What a rule of lines and lists makes.
pub fn line(alloc: Global, rule: LineRule, values: List<Value>) -> Result<List<Value>, Stop>
    ensures { Gives nodes result (Some (acts.act (tables.line_rule rule) (nodes values))) }
{
    match rule {
        LineRule::List | LineRule::MaybeList => one(alloc, Value::Script(list(alloc, values)?)),
        LineRule::Piece
        | LineRule::LinePiece
        | LineRule::Complete
        | LineRule::CompleteMore
        | LineRule::ListMore
        | LineRule::Lines => Ok(values),
    }
}

/// What a rule of pipelines makes.
pub fn pipe(alloc: Global, rule: PipeRule, values: List<Value>) -> Result<List<Value>, Stop>
    ensures { Gives nodes result (Some (acts.act (tables.pipe_rule rule) (nodes values))) }
{
    match rule {
        PipeRule::Chain => one(alloc, Value::Chain(chain(alloc, values)?)),
        PipeRule::AndLink => one(alloc, Value::Link(Joint::And, linked(alloc, values)?)),
        PipeRule::OrLink => one(alloc, Value::Link(Joint::Or, linked(alloc, values)?)),
        PipeRule::Pipeline => one(alloc, Value::Pipeline(pipeline(alloc, values)?)),
        PipeRule::Bang => one(alloc, Value::Bang),
        PipeRule::Link | PipeRule::Stage => Ok(values),
    }
}
