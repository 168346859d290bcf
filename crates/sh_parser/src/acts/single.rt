//! Lists of one value, and scripts and words that rules share.

ghost use Rattle.std.specs.Prelude.{◌∷◌, [], Some};
ghost use Rattle.sh_grammar.specs.Shape as shape;
ghost use Rattle.sh_grammar.specs.State as states;
ghost use Rattle.sh_parser.specs.Answers.{Gives};
ghost use Rattle.sh_parser.specs.Values.{value_node, nodes};
ghost use Rattle.sh_syntax.specs.View.{view, view_word};

use crate::acts::empty::script_or_empty;
use crate::fault::Stop;
use crate::picking::{Picked, first, pick, tight, two};
use crate::values::Value;
use sh_syntax::{Script, Word};
use span_text::{List, Span};
use std::alloc::Global;

/// The list of this value alone.
pub fn one(alloc: Global, value: Value) -> Result<List<Value>, Stop>
    ensures { Gives nodes result (Some (value_node value ∷ [])) }
{
    let mut values = List::new(alloc);
    values.push(value)?;
    Ok(values)
}

/// The first script among the values.
#[tactic(auto, using(crate::proofs::Picked::script_seen))]
pub fn script(alloc: Global, values: List<Value>) -> Result<Script, Stop>
    ensures { Gives view result (Some (states.script_in (nodes values))) }
{
    let Picked { scripts, .. } = pick(alloc, values)?;
    Ok(script_or_empty(alloc, first(scripts)))
}

/// The first two scripts among the values.
#[tactic(auto, using(crate::proofs::Picked::script_seen, crate::proofs::Picked::second_script_seen))]
pub fn two_scripts(alloc: Global, values: List<Value>) -> Result<(Script, Script), Stop>
    ensures { Gives {Y = shape.Script × shape.Script} (λ x. (view x.0, view x.1)) result (Some (states.script_in (nodes values), states.second_script_in (nodes values))) }
{
    let Picked { scripts, .. } = pick(alloc, values)?;
    let (first, second) = two(scripts);
    Ok((
        script_or_empty(alloc, first),
        script_or_empty(alloc, second),
    ))
}

/// The word of all parts among the values.
#[tactic(auto, using(crate::proofs::Picked::parts_seen, crate::proofs::Rolls::word_rolled))]
pub fn word(alloc: Global, values: List<Value>, span: Span) -> Result<Word, Stop>
    ensures { Gives view_word result (Some (states.parts_in (nodes values))) }
{
    let Picked { parts, .. } = pick(alloc, values)?;
    let parts = tight(parts);
    Ok(Word { parts, span })
}
