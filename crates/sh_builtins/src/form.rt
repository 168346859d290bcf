//! A simple command as it is written.

ghost use Rattle.std.specs.Prelude.{◌≡◌, drop, map};
ghost use Rattle.std.specs.List.{list_all, list_any};
ghost use Rattle.sh_syntax.specs.View.{view_part, view_part_kind, view_word, words_of};
ghost use Rattle.sh_meaning.specs.builtins.Literals as literals;

use sh_syntax::{Part, PartKind, Word};
use span_text::Text;

/// What of a simple command's text decides what a built-in does.
#[derive(Debug, Drop)]
pub struct Form<'f> {
    /// The functions that the script defines anywhere.
    pub functions: &'f [Text],
    /// The names of the prefix assignments.
    pub prefix: &'f [Text],
    /// The command's words, its name among them.
    pub words: &'f [Word],
}

fn has_active(text: &[u8]) -> bool
    ensures { result ≡ list_any literals.is_active text.now }
{
    text.iter().any(|b| *b == b'*' || *b == b'?' || *b == b'[')
}

/// Whether a part between double quotes has no expansion.
#[tactic(auto, using(sh_syntax::proofs::Views::plain_is, sh_syntax::proofs::Views::exact_is, sh_syntax::proofs::Views::double_is, sh_syntax::proofs::Views::param_is, sh_syntax::proofs::Views::tilde_is, sh_syntax::proofs::Views::subst_is, sh_syntax::proofs::Views::arith_part_is))]
fn is_text_kind(kind: &PartKind) -> bool
    ensures { result ≡ literals.is_text (view_part_kind kind.now) }
{
    match kind {
        PartKind::Plain(_) => true,
        PartKind::Exact(_) => true,
        PartKind::Double(_) => false,
        PartKind::Tilde => false,
        PartKind::Param { .. } => false,
        PartKind::Subst(_) => false,
        PartKind::Arith(_) => false,
    }
}

#[tactic(auto, using(sh_syntax::proofs::Views::part_is))]
fn is_text(part: &Part) -> bool
    ensures { result ≡ literals.is_text (view_part part.now) }
{
    is_text_kind(&part.kind)
}

fn are_text(parts: &[Part]) -> bool
    ensures { result ≡ list_all (λ part. literals.is_text (view_part part)) parts.now }
{
    parts.iter().all(|part| is_text(part))
}

#[tactic(auto, using(sh_syntax::proofs::Views::plain_is, sh_syntax::proofs::Views::exact_is, sh_syntax::proofs::Views::double_is, sh_syntax::proofs::Views::param_is, sh_syntax::proofs::Views::tilde_is, sh_syntax::proofs::Views::subst_is, sh_syntax::proofs::Views::arith_part_is, crate::proofs::Written::parts_inside))]
fn is_literal_kind(kind: &PartKind) -> bool
    ensures { result ≡ literals.is_literal_part (view_part_kind kind.now) }
{
    match kind {
        PartKind::Plain(text) => !has_active(text.bytes()),
        PartKind::Exact(_) => true,
        PartKind::Double(parts) => are_text(parts.as_slice()),
        PartKind::Tilde => false,
        PartKind::Param { .. } => false,
        PartKind::Subst(_) => false,
        PartKind::Arith(_) => false,
    }
}

#[tactic(auto, using(sh_syntax::proofs::Views::part_is))]
fn is_literal_part(part: &Part) -> bool
    ensures { result ≡ literals.is_literal_part (view_part part.now) }
{
    is_literal_kind(&part.kind)
}

fn are_literal_parts(parts: &[Part]) -> bool
    ensures { result ≡ list_all (λ part. literals.is_literal_part (view_part part)) parts.now }
{
    parts.iter().all(|part| is_literal_part(part))
}

/// Whether a word stands for its own text: it has neither an expansion nor a pattern.
#[tactic(auto, using(crate::proofs::Written::literal_word))]
pub fn is_literal(word: &Word) -> bool
    ensures { result ≡ literals.is_literal (view_word word.now) }
{
    are_literal_parts(word.parts.as_slice())
}

fn are_literal(words: &[Word]) -> bool
    ensures { result ≡ list_all (λ word. literals.is_literal (view_word word)) words.now }
{
    words.iter().all(|word| is_literal(word))
}

/// The words behind so many.
pub fn words_behind(words: &[Word], behind: usize) -> &[Word]
    ensures { result.now ≡ drop behind words.now }
{
    if behind < words.len() {
        &words[behind..]
    } else {
        &[]
    }
}

/// Whether each word behind so many is literal, and so many arguments at least are written there.
#[tactic(auto, using(crate::proofs::Written::written_words))]
pub fn are_written(words: &[Word], behind: usize, count: usize) -> bool
    ensures { result ≡ literals.are_written behind count (words_of (map view_word words.now)) }
{
    let rest = words_behind(words, behind);
    are_literal(rest) && count <= rest.len()
}
