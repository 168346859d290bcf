//! Which parts hold a substitution, where a newline may stand; and what stands behind them.

ghost use Rattle.std.specs.Prelude.{◌≡◌, ◌&&◌, not, map};
ghost use Rattle.sh_grammar.specs.Bytes.{starts};
ghost use Rattle.sh_printing.specs.Marks.{is_here};
ghost use Rattle.sh_printing.specs.Printing.{part_opens, parts_open, op_opens, words_open, continued};
ghost use Rattle.sh_syntax.specs.View.{view_operator, view_part, view_op, view_redirect, view_word, parts_of, words_of};
ghost use Rattle.sh_printer.specs.Owed.{has_here, part_goes_on, still_owed};

use crate::marks::is_here;
use sh_syntax::{ParamOp, Part, PartKind, Redirect, Word};
use span_text::{Class, is_started};

#[cycle(opening)]
pub fn part_opens(part: &Part) -> bool
    ensures { result ≡ part_opens (view_part part.now) }
{
    match &part.kind {
        PartKind::Subst(_) => true,
        PartKind::Double(parts) => parts_open(parts.as_slice()),
        PartKind::Param { param: _, op } => op_opens(op),
        PartKind::Arith(arith) => words_open(arith.operands.as_slice()),
        PartKind::Plain(_) => false,
        PartKind::Exact(_) => false,
        PartKind::Tilde => false,
    }
}

#[cycle(opening)]
pub fn parts_open(parts: &[Part]) -> bool
    ensures { result ≡ parts_open (parts_of (map view_part parts.now)) }
{
    for part in parts {
        if part_opens(part) {
            return true;
        }
    }
    false
}

#[cycle(opening)]
fn op_opens(op: &ParamOp) -> bool
    ensures { result ≡ op_opens (view_op op.now) }
{
    match op {
        ParamOp::Plain => false,
        ParamOp::Length => false,
        ParamOp::Fill {
            test: _,
            colon: _,
            word,
        } => parts_open(word.parts.as_slice()),
        ParamOp::Trim {
            suffix: _,
            longest: _,
            pattern,
        } => parts_open(pattern.parts.as_slice()),
    }
}

#[cycle(opening)]
pub fn words_open(words: &[Word]) -> bool
    ensures { result ≡ words_open (words_of (map view_word words.now)) }
{
    for word in words {
        if parts_open(word.parts.as_slice()) {
            return true;
        }
    }
    false
}

/// The redirections whose bodies are still to come behind a part.
pub fn owed_behind<'a>(owed: &'a [Redirect], part: &Part) -> &'a [Redirect]
    ensures { result.now ≡ still_owed (part_opens (view_part part.now)) owed.now }
{
    if owed.is_empty() || !part_opens(part) {
        return owed;
    }
    &[]
}

/// The redirections whose bodies are still to come behind a word.
pub fn owed_behind_word<'a>(owed: &'a [Redirect], word: &Word) -> &'a [Redirect]
    ensures { result.now ≡ still_owed (parts_open (view_word word.now)) owed.now }
{
    let parts = word.parts.as_slice();
    let opens = parts_open(parts);
    still_owed(opens, owed)
}

fn still_owed(opens: bool, owed: &[Redirect]) -> &[Redirect]
    ensures { result.now ≡ still_owed opens owed.now }
{
    if opens { &[] } else { owed }
}

/// The redirections whose bodies are still to come behind words.
pub fn owed_behind_words<'a>(owed: &'a [Redirect], words: &[Word]) -> &'a [Redirect]
    ensures { result.now ≡ still_owed (words_open (words_of (map view_word words.now))) owed.now }
{
    if owed.is_empty() || !words_open(words) {
        return owed;
    }
    &[]
}

/// A newline stood in the redirection's word.
pub fn redirect_opens(redirect: &Redirect) -> bool
    ensures { result ≡ (not (is_here (view_redirect redirect.now).op) && parts_open (view_redirect redirect.now).word) }
{
    !is_here(redirect.op) && parts_open(redirect.word.parts.as_slice())
}

/// Whether a body is still to come.
pub fn has_body(owed: &[Redirect]) -> bool
    ensures { result ≡ has_here (map view_redirect owed.now) }
{
    for redirect in owed {
        if is_here(redirect.op) {
            return true;
        }
    }
    false
}

/// Whether these parts go on with a name before them.
pub fn is_continued(parts: &[Part]) -> bool
    ensures { result ≡ continued (parts_of (map view_part parts.now)) }
{
    match parts {
        [] => false,
        [first, ..] => goes_on(first),
    }
}

fn goes_on(part: &Part) -> bool
    ensures { result ≡ part_goes_on (view_part part.now) }
{
    match &part.kind {
        PartKind::Plain(text) => is_started(Class::NameRest, text.bytes()),
        PartKind::Exact(_) => false,
        PartKind::Double(_) => false,
        PartKind::Tilde => false,
        PartKind::Param { param: _, op: _ } => false,
        PartKind::Subst(_) => false,
        PartKind::Arith(_) => false,
    }
}
