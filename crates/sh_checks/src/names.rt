//! Uses of names in the values of a prefix, as they are written (POSIX XCU 2.9.1).

ghost use Rattle.std.specs.Prelude.{◌≡◌, map, option_map, IfOk};
ghost use Rattle.span_text.specs.KnownNames.{is_among, same_text};
ghost use Rattle.sh_meaning.specs.Lists as lists;
ghost use Rattle.sh_syntax.specs.View.{parts_of, value_of, view_op, view_param, view_part, view_value, view_word, words_of};

use crate::sums::is_used_in_sum;
use sh_syntax::{AssignValue, Param, ParamOp, Part, PartKind, Word};
use span_text::{Memory, Text};
use std::alloc::Global;

fn is_same(name: &[u8], text: &[u8]) -> bool
    ensures { result ≡ same_text name.now text.now }
{
    name == text
}

/// Whether a text is one of these names.
pub(crate) fn is_among(names: &[Text], text: &[u8]) -> bool
    ensures { result ≡ is_among names.now text.now }
{
    names.iter().any(|name| is_same(name.bytes(), text))
}

/// Whether what a parameter gives depends on one of these variables.
fn is_used(names: &[Text], param: &Param) -> bool
    ensures { result ≡ lists.is_used names.now (view_param param.now) }
{
    match param {
        Param::Name(name) => is_among(names, name.text.bytes()),
        Param::Star => is_among(names, b"IFS"),
        Param::Digits(_) | Param::Count | Param::Status | Param::At => false,
    }
}

/// Whether a part uses one of these names, or is a command substitution.
#[cycle(depends)]
fn depends_part(alloc: Global, names: &[Text], part: &Part) -> Result<bool, Memory>
    ensures { IfOk result (λ is. is ≡ lists.depends_part names.now (view_part part.now)) }
{
    match &part.kind {
        PartKind::Plain(_) => Ok(false),
        PartKind::Exact(_) => Ok(false),
        PartKind::Double(parts) => depends(alloc, names, parts.as_slice()),
        PartKind::Tilde => Ok(is_among(names, b"HOME")),
        PartKind::Param { param, op } => {
            if is_used(names, param) {
                return Ok(true);
            }
            depends_op(alloc, names, op)
        }
        PartKind::Subst(_) => Ok(true),
        PartKind::Arith(arith) => {
            if is_used_in_sum(alloc, names, &arith.expr)? {
                return Ok(true);
            }
            depends_words(alloc, names, arith.operands.as_slice())
        }
    }
}

#[cycle(depends)]
fn depends(alloc: Global, names: &[Text], parts: &[Part]) -> Result<bool, Memory>
    ensures { IfOk result (λ is. is ≡ lists.depends names.now (parts_of (map view_part parts.now))) }
{
    for part in parts {
        if depends_part(alloc, names, part)? {
            return Ok(true);
        }
    }
    Ok(false)
}

#[cycle(depends)]
fn depends_op(alloc: Global, names: &[Text], op: &ParamOp) -> Result<bool, Memory>
    ensures { IfOk result (λ is. is ≡ lists.depends_op names.now (view_op op.now)) }
{
    match op {
        ParamOp::Plain => Ok(false),
        ParamOp::Length => Ok(false),
        ParamOp::Fill {
            test: _,
            colon: _,
            word,
        } => depends(alloc, names, word.parts.as_slice()),
        ParamOp::Trim {
            suffix: _,
            longest: _,
            pattern,
        } => depends(alloc, names, pattern.parts.as_slice()),
    }
}

#[cycle(depends)]
fn depends_words(alloc: Global, names: &[Text], words: &[Word]) -> Result<bool, Memory>
    ensures { IfOk result (λ is. is ≡ lists.depends_words names.now (words_of (map view_word words.now))) }
{
    for word in words {
        if depends(alloc, names, word.parts.as_slice())? {
            return Ok(true);
        }
    }
    Ok(false)
}

#[tactic(auto, using(sh_syntax::proofs::Views::word_is))]
fn depends_optional(alloc: Global, names: &[Text], word: &Option<Word>) -> Result<bool, Memory>
    ensures { IfOk result (λ is. is ≡ lists.depends_value names.now (value_of (option_map view_word word.now))) }
{
    match word {
        None => Ok(false),
        Some(word) => depends(alloc, names, word.parts.as_slice()),
    }
}

fn depends_value(alloc: Global, names: &[Text], value: &AssignValue) -> Result<bool, Memory>
    ensures { IfOk result (λ is. is ≡ lists.depends_value names.now (view_value value.now)) }
{
    match value {
        AssignValue::Word(word) => depends_optional(alloc, names, word),
    }
}

/// Whether a value stands in a prefix that has assigned these names before it, and depends on them: it uses one, or has a
/// command substitution. Shells don't agree then whether the value sees what the prefix assigned.
#[tactic(auto, unfolding(sh_meaning::specs::Lists::is_entangled))]
pub fn is_entangled(alloc: Global, names: &[Text], value: &AssignValue) -> Result<bool, Memory>
    ensures { IfOk result (λ is. is ≡ lists.is_entangled names.now (view_value value.now)) }
{
    match names {
        [] => Ok(false),
        [_, ..] => depends_value(alloc, names, value),
    }
}
