//! The operands of `export` as they are written (POSIX XCU 2.14).

ghost use Rattle.std.specs.Prelude.{◌≡◌, ◌≤◌, false, length, map};
ghost use Rattle.std.specs.List.{list_all, list_any, prefix_len};
ghost use Rattle.sh_syntax.specs.View.{view_part, view_part_kind, view_word, words_of};
ghost use Rattle.sh_meaning.specs.builtins.Export as operands;

use crate::form::{is_literal, words_behind};
use sh_syntax::{Part, PartKind, Word};
use span_text::is_name;

/// How many bytes stand before the first `=`.
pub fn equals_at(operand: &[u8]) -> usize
    ensures at { result ≡ prefix_len operands.is_before_equals operand.now }
    ensures within { result ≤ length operand.now }
{
    for (at, b) in operand.iter().enumerate() {
        if *b == b'=' {
            return at;
        }
    }
    operand.len()
}

fn has_equals(text: &[u8]) -> bool
    ensures { result ≡ operands.has_equals text.now }
{
    text.iter().any(|b| *b == b'=')
}

fn begins_assignment(text: &[u8]) -> bool
    ensures { result ≡ operands.begins_assignment text.now }
{
    has_equals(text) && is_name(&text[..equals_at(text)])
}

/// Whether a `~` stands right behind a `=` or a `:`.
fn has_tilde(text: &[u8]) -> bool
    ensures { result ≡ operands.has_tilde false text.now }
{
    let mut behind = false;
    for b in text {
        if behind && *b == b'~' {
            return true;
        }
        behind = *b == b'=' || *b == b':';
    }
    false
}

/// Whether a part of `name=word` means the same in every shell: no unquoted expansion, and no tilde.
#[tactic(auto, using(sh_syntax::proofs::Views::plain_is, sh_syntax::proofs::Views::exact_is, sh_syntax::proofs::Views::double_is, sh_syntax::proofs::Views::param_is, sh_syntax::proofs::Views::tilde_is, sh_syntax::proofs::Views::subst_is, sh_syntax::proofs::Views::arith_part_is))]
fn fits_value_kind(kind: &PartKind) -> bool
    ensures { result ≡ operands.fits_value (view_part_kind kind.now) }
{
    match kind {
        PartKind::Plain(text) => !has_tilde(text.bytes()),
        PartKind::Exact(_) => true,
        PartKind::Double(_) => true,
        PartKind::Tilde => false,
        PartKind::Param { .. } => false,
        PartKind::Subst(_) => false,
        PartKind::Arith(_) => false,
    }
}

#[tactic(auto, using(sh_syntax::proofs::Views::part_is))]
fn fits_value(part: &Part) -> bool
    ensures { result ≡ operands.fits_value (view_part part.now) }
{
    fits_value_kind(&part.kind)
}

fn fit_value(parts: &[Part]) -> bool
    ensures { result ≡ list_all (λ part. operands.fits_value (view_part part)) parts.now }
{
    parts.iter().all(|part| fits_value(part))
}

#[tactic(auto, using(sh_syntax::proofs::Views::plain_is, sh_syntax::proofs::Views::exact_is, sh_syntax::proofs::Views::double_is, sh_syntax::proofs::Views::param_is, sh_syntax::proofs::Views::tilde_is, sh_syntax::proofs::Views::subst_is, sh_syntax::proofs::Views::arith_part_is))]
fn begins_kind(kind: &PartKind) -> bool
    ensures { result ≡ operands.begins_part (view_part_kind kind.now) }
{
    match kind {
        PartKind::Plain(text) => begins_assignment(text.bytes()),
        PartKind::Exact(_) => false,
        PartKind::Double(_) => false,
        PartKind::Tilde => false,
        PartKind::Param { .. } => false,
        PartKind::Subst(_) => false,
        PartKind::Arith(_) => false,
    }
}

#[tactic(auto, using(sh_syntax::proofs::Views::part_is))]
fn begins_part(part: &Part) -> bool
    ensures { result ≡ operands.begins_part (view_part part.now) }
{
    begins_kind(&part.kind)
}

fn begin_parts(parts: &[Part]) -> bool
    ensures { result ≡ operands.begins_parts (map view_part parts.now) }
{
    match parts {
        [] => false,
        [first, ..] => begins_part(first),
    }
}

/// Whether a word is `name=word`, its name and the `=` unquoted: it expands as an assignment does.
#[tactic(auto, using(crate::proofs::Written::operand_word))]
pub fn is_export_operand(word: &Word) -> bool
    ensures { result ≡ operands.is_export_operand (view_word word.now) }
{
    begin_parts(word.parts.as_slice())
}

#[tactic(auto, using(sh_syntax::proofs::Views::plain_is, sh_syntax::proofs::Views::exact_is, sh_syntax::proofs::Views::double_is, sh_syntax::proofs::Views::param_is, sh_syntax::proofs::Views::tilde_is, sh_syntax::proofs::Views::subst_is, sh_syntax::proofs::Views::arith_part_is))]
fn inside_kind(kind: &PartKind) -> bool
    ensures { result ≡ operands.is_without_equals_inside (view_part_kind kind.now) }
{
    match kind {
        PartKind::Plain(text) => !has_equals(text.bytes()),
        PartKind::Exact(text) => !has_equals(text.bytes()),
        PartKind::Double(_) => false,
        PartKind::Tilde => false,
        PartKind::Param { .. } => false,
        PartKind::Subst(_) => false,
        PartKind::Arith(_) => false,
    }
}

#[tactic(auto, using(sh_syntax::proofs::Views::part_is))]
fn is_inside(part: &Part) -> bool
    ensures { result ≡ operands.is_without_equals_inside (view_part part.now) }
{
    inside_kind(&part.kind)
}

fn are_inside(parts: &[Part]) -> bool
    ensures { result ≡ list_all (λ part. operands.is_without_equals_inside (view_part part)) parts.now }
{
    parts.iter().all(|part| is_inside(part))
}

#[tactic(auto, using(sh_syntax::proofs::Views::plain_is, sh_syntax::proofs::Views::exact_is, sh_syntax::proofs::Views::double_is, sh_syntax::proofs::Views::param_is, sh_syntax::proofs::Views::tilde_is, sh_syntax::proofs::Views::subst_is, sh_syntax::proofs::Views::arith_part_is, crate::proofs::Written::equals_inside))]
fn without_kind(kind: &PartKind) -> bool
    ensures { result ≡ operands.is_without_equals (view_part_kind kind.now) }
{
    match kind {
        PartKind::Plain(text) => !has_equals(text.bytes()),
        PartKind::Exact(text) => !has_equals(text.bytes()),
        PartKind::Double(parts) => are_inside(parts.as_slice()),
        PartKind::Tilde => false,
        PartKind::Param { .. } => false,
        PartKind::Subst(_) => false,
        PartKind::Arith(_) => false,
    }
}

#[tactic(auto, using(sh_syntax::proofs::Views::part_is))]
fn is_without_equals(part: &Part) -> bool
    ensures { result ≡ operands.is_without_equals (view_part part.now) }
{
    without_kind(&part.kind)
}

fn are_without_equals(parts: &[Part]) -> bool
    ensures { result ≡ list_all (λ part. operands.is_without_equals (view_part part)) parts.now }
{
    parts.iter().all(|part| is_without_equals(part))
}

/// Whether a word is literal and has no `=`, as a name.
#[tactic(auto, using(crate::proofs::Written::name_word))]
fn is_export_name(word: &Word) -> bool
    ensures { result ≡ operands.is_export_name (view_word word.now) }
{
    is_literal(word) && are_without_equals(word.parts.as_slice())
}

#[tactic(auto, using(crate::proofs::Written::value_word))]
fn has_fit_value(word: &Word) -> bool
    ensures { result ≡ operands.has_fit_value (view_word word.now) }
{
    fit_value(word.parts.as_slice())
}

/// Whether an operand of `export` is in a form that means the same in every shell: `name`, or `name=word` without an
/// unquoted expansion or tilde.
#[tactic(auto, unfolding(sh_meaning::specs::builtins::Export::is_fit_operand))]
pub fn is_fit_operand(word: &Word) -> bool
    ensures { result ≡ operands.is_fit_operand (view_word word.now) }
{
    if is_export_operand(word) {
        has_fit_value(word)
    } else {
        is_export_name(word)
    }
}

fn are_fit(words: &[Word]) -> bool
    ensures { result ≡ list_all (λ word. operands.is_fit_operand (view_word word)) words.now }
{
    words.iter().all(|word| is_fit_operand(word))
}

/// Whether each word behind the first is such an operand, and so many at least stand there.
#[tactic(auto, using(crate::proofs::Written::operand_words))]
pub fn are_operands(words: &[Word], count: usize) -> bool
    ensures { result ≡ operands.are_operands count (words_of (map view_word words.now)) }
{
    let rest = words_behind(words, 1);
    are_fit(rest) && count <= rest.len()
}
