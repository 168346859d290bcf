//! Words and expansions (POSIX 2.2, 2.6).

ghost use Rattle.std.specs.Prelude.{◌≡◌, map, Some};
ghost use Rattle.sh_grammar.specs.Acts as acts;
ghost use Rattle.sh_grammar.specs.Shape as shape;
ghost use Rattle.sh_grammar.specs.State as states;
ghost use Rattle.sh_parser.specs.Answers.{Gives};
ghost use Rattle.sh_parser.specs.Picking as picking;
ghost use Rattle.sh_parser.specs.Tables as tables;
ghost use Rattle.sh_parser.specs.Values.{nodes};
ghost use Rattle.sh_syntax.specs.View.{view_part, view_part_kind, view_word, words_of};

use crate::acts::single::{one, script, word};
use crate::fault::Stop;
use crate::picking::{Picked, pick, tight};
use crate::table::{DollarRule, WordRule};
use crate::values::{Opening, Value};
use sh_syntax::{Arith, ParamOp, Part, PartKind, Word};
use span_text::{Expr, List, Span, Text};
use std::alloc::Global;

/// `".."`.
#[tactic(auto, using(crate::proofs::Picked::parts_seen, sh_syntax::proofs::Views::part_is, sh_syntax::proofs::Views::double_is))]
fn double_quotes(alloc: Global, values: List<Value>, span: Span) -> Result<Part, Stop>
    ensures { Gives view_part result (Some (shape.double (states.parts_in (nodes values)))) }
{
    let Picked { parts, .. } = pick(alloc, values)?;
    Ok(Part {
        kind: PartKind::Double(tight(parts)),
        span,
    })
}

/// The parameter and the word behind its operator.
#[tactic(auto, using(sh_syntax::proofs::Views::param_is, sh_syntax::proofs::Views::fill_is, sh_syntax::proofs::Views::trim_is, sh_syntax::proofs::Views::plain_is))]
fn opened(alloc: Global, opening: Option<Opening>, word: Word) -> PartKind
    ensures { view_part_kind result ≡ picking.filled_of opening (view_word word) }
{
    match opening {
        Some(Opening::Filling { param, test, colon }) => PartKind::Param {
            param,
            op: ParamOp::Fill { test, colon, word },
        },
        Some(
            Opening::Trimming {
                param,
                suffix,
                longest,
            },
        ) => PartKind::Param {
            param,
            op: ParamOp::Trim {
                suffix,
                longest,
                pattern: word,
            },
        },
        None => PartKind::Plain(Text::new(alloc)),
    }
}

/// `${a-w}`, `${a%w}`.
#[tactic(auto, using(crate::proofs::Picked::parts_seen, crate::proofs::Picked::filled_seen, crate::proofs::Rolls::word_rolled, sh_syntax::proofs::Views::part_is))]
fn filled(alloc: Global, values: List<Value>, span: Span) -> Result<Part, Stop>
    ensures { Gives view_part result (Some (states.filled_in (nodes values) (states.parts_in (nodes values)))) }
{
    let Picked { opening, parts, .. } = pick(alloc, values)?;
    let parts = tight(parts);
    let kind = opened(alloc, opening, Word { parts, span });
    Ok(Part { kind, span })
}

/// `$(a)`.
#[tactic(auto, using(sh_syntax::proofs::Views::part_is, sh_syntax::proofs::Views::subst_is))]
fn substitution(alloc: Global, values: List<Value>, span: Span) -> Result<Part, Stop>
    ensures { Gives view_part result (Some (shape.subst (states.script_in (nodes values)))) }
{
    let kind = PartKind::Subst(script(alloc, values)?);
    Ok(Part { kind, span })
}

/// The word of this part alone.
#[tactic(auto, using(crate::proofs::Rolls::word_rolled))]
fn operand(alloc: Global, part: Part) -> Result<Word, Stop>
    ensures { Gives view_word result (Some (picking.operand part)) }
{
    let span = part.span;
    let mut parts = List::new(alloc);
    parts.push(part)?;
    Ok(Word { parts, span })
}

/// Words of one part each.
fn operands(alloc: Global, parts: List<Part>) -> Result<List<Word>, Stop>
    ensures { Gives (map view_word) result (Some (map picking.operand parts)) }
{
    let mut words = List::new(alloc);
    for part in parts.into_vec() {
        words.push(operand(alloc, part)?)?;
    }
    Ok(words)
}

#[tactic(auto, using(crate::proofs::Rolls::arith_rolled, sh_syntax::proofs::Views::arith_part_is, sh_syntax::proofs::Views::plain_is))]
fn sum_kind(alloc: Global, expr: Option<Expr>, operands: List<Word>, span: Span) -> PartKind
    ensures { view_part_kind result ≡ picking.sum_of expr (words_of (map view_word operands)) }
{
    match expr {
        Some(expr) => PartKind::Arith(Arith {
            expr,
            operands,
            span,
        }),
        None => PartKind::Plain(Text::new(alloc)),
    }
}

/// `$((a + 1))`.
#[tactic(auto, using(crate::proofs::Picked::sum_seen, crate::proofs::Picked::operands_seen, sh_syntax::proofs::Views::part_is))]
fn sum(alloc: Global, values: List<Value>, span: Span) -> Result<Part, Stop>
    ensures { Gives view_part result (Some (states.sum_in (nodes values) (states.operands_in (nodes values)))) }
{
    let Picked { expr, parts, .. } = pick(alloc, values)?;
    let operands = operands(alloc, parts)?;
    let kind = sum_kind(alloc, expr, operands, span);
    Ok(Part { kind, span })
}

/// What a rule of words makes.
pub fn word_or_part(
    alloc: Global,
    rule: WordRule,
    values: List<Value>,
    span: Span,
) -> Result<List<Value>, Stop>
    ensures { Gives nodes result (Some (acts.act (tables.word_rule rule) (nodes values))) }
{
    match rule {
        WordRule::Word | WordRule::Value | WordRule::Pattern | WordRule::BodyParts => {
            one(alloc, Value::Word(word(alloc, values, span)?))
        }
        WordRule::DoubleQuotes => one(alloc, Value::Part(double_quotes(alloc, values, span)?)),
        WordRule::WordParts | WordRule::MoreParts => Ok(values),
        WordRule::Part(_) => Ok(values),
    }
}

/// What a rule of expansions makes.
pub fn expansion(
    alloc: Global,
    rule: DollarRule,
    values: List<Value>,
    span: Span,
) -> Result<List<Value>, Stop>
    ensures { Gives nodes result (Some (acts.act (tables.dollar_rule rule) (nodes values))) }
{
    match rule {
        DollarRule::Fill(_) => one(alloc, Value::Part(filled(alloc, values, span)?)),
        DollarRule::Trim(_) => one(alloc, Value::Part(filled(alloc, values, span)?)),
        DollarRule::Subst => one(alloc, Value::Part(substitution(alloc, values, span)?)),
        DollarRule::Sum => one(alloc, Value::Part(sum(alloc, values, span)?)),
        DollarRule::Expansion(_) => Ok(values),
        DollarRule::Braces(_) => Ok(values),
        DollarRule::SumPart | DollarRule::SumGroup => Ok(values),
    }
}
