//! `for` and `case` (POSIX 2.9.4.2, 2.9.4.3).

ghost use Rattle.std.specs.Prelude.{map, Some};
ghost use Rattle.sh_grammar.specs.Acts as acts;
ghost use Rattle.sh_grammar.specs.Shape as shape;
ghost use Rattle.sh_grammar.specs.State as states;
ghost use Rattle.sh_parser.specs.Answers.{Gives};
ghost use Rattle.sh_parser.specs.Tables as tables;
ghost use Rattle.sh_parser.specs.Values.{nodes};
ghost use Rattle.sh_syntax.specs.View.{view_kind, view_word, view_case_item, words_of};

use crate::acts::empty::{name_or_empty, script_or_empty, word_or_empty};
use crate::acts::single::one;
use crate::fault::Stop;
use crate::picking::{Picked, first, pick};
use crate::table::LoopRule;
use crate::values::Value;
use sh_syntax::{CaseItem, CommandKind, Word};
use span_text::{List, Span};
use std::alloc::Global;

#[tactic(auto, using(crate::proofs::Picked::text_seen, crate::proofs::Picked::listed_seen, crate::proofs::Picked::script_seen, sh_syntax::proofs::Views::for_is))]
fn for_loop(alloc: Global, values: List<Value>, span: Span) -> Result<CommandKind, Stop>
    ensures { Gives view_kind result (Some (shape.walk (states.text_in (nodes values)) (states.listed_in (nodes values)) (states.script_in (nodes values)))) }
{
    let Picked {
        name,
        listed,
        scripts,
        ..
    } = pick(alloc, values)?;
    Ok(CommandKind::For {
        name: name_or_empty(alloc, name, span),
        words: listed,
        body: script_or_empty(alloc, first(scripts)),
    })
}

/// The words behind `in`.
#[tactic(auto, using(crate::proofs::Picked::words_seen))]
fn for_in(alloc: Global, values: List<Value>) -> Result<List<Word>, Stop>
    ensures { Gives (λ ws. words_of (map view_word ws)) result (Some (states.words_in (nodes values))) }
{
    let Picked { words, .. } = pick(alloc, values)?;
    Ok(words)
}

#[tactic(auto, using(crate::proofs::Picked::word_seen, crate::proofs::Picked::items_seen, sh_syntax::proofs::Views::case_is))]
fn case_command(alloc: Global, values: List<Value>, span: Span) -> Result<CommandKind, Stop>
    ensures { Gives view_kind result (Some (shape.cases (states.word_in (nodes values)) (states.items_in (nodes values)))) }
{
    let Picked { words, items, .. } = pick(alloc, values)?;
    Ok(CommandKind::Case {
        subject: word_or_empty(alloc, first(words), span),
        items,
    })
}

#[tactic(auto, using(crate::proofs::Picked::words_seen, crate::proofs::Picked::script_seen, crate::proofs::Rolls::case_item_rolled))]
fn case_item(alloc: Global, values: List<Value>) -> Result<CaseItem, Stop>
    ensures { Gives view_case_item result (Some (states.words_in (nodes values), states.script_in (nodes values))) }
{
    let Picked { words, scripts, .. } = pick(alloc, values)?;
    Ok(CaseItem {
        patterns: words,
        body: script_or_empty(alloc, first(scripts)),
    })
}

/// What a rule of `for` and `case` makes.
pub fn for_or_case(
    alloc: Global,
    rule: LoopRule,
    values: List<Value>,
    span: Span,
) -> Result<List<Value>, Stop>
    ensures { Gives nodes result (Some (acts.act (tables.loop_rule rule) (nodes values))) }
{
    match rule {
        LoopRule::ForLoop => one(alloc, Value::Kind(for_loop(alloc, values, span)?)),
        LoopRule::ForIn => one(alloc, Value::Listed(for_in(alloc, values)?)),
        LoopRule::CaseCommand => one(alloc, Value::Kind(case_command(alloc, values, span)?)),
        LoopRule::CaseItem => one(alloc, Value::CaseItem(case_item(alloc, values)?)),
        LoopRule::ForWords | LoopRule::CaseIn | LoopRule::PatternMore | LoopRule::ItemEnd => Ok(
            values,
        ),
    }
}
