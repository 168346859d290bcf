//! What stands at a place of a word.

ghost use Rattle.std.specs.Prelude.{◌≡◌, ◌||◌, ◌&&◌, ◌==◌, ◌∷◌, not, [], map};
ghost use Rattle.sh_grammar.specs.Steps.{is_empty};
ghost use Rattle.sh_printer.specs.Codes.{view_context};
ghost use Rattle.sh_printer.specs.Parts.{part_begins, part_ends};
ghost use Rattle.sh_printing.specs.Printable.{behind_tilde, ends_line, first_is, has_part, is_assignment, is_copied_word, is_expansion, is_plain_part, literal_body, plain_begins, plain_fits, reads_tilde};
ghost use Rattle.sh_printing.specs.Spellable.{begins_assign, begins_with, ends_with, is_literal_text};
ghost use Rattle.sh_syntax.specs.View.{view_part, parts_of};

use crate::checking::bytes::{are_body_lines, begins_with, ends_with, is_literal_text};
use crate::checking::names::{begins_assign, is_copied_text};
use crate::context::Context;
use sh_syntax::{Part, PartKind};

pub fn has_parts(parts: &[Part]) -> bool
    ensures { result ≡ has_part (parts_of (map view_part parts.now)) }
{
    match parts {
        [] => false,
        [_, ..] => true,
    }
}

fn is_plain(part: &Part) -> bool
    ensures { result ≡ is_plain_part (view_part part.now) }
{
    match &part.kind {
        PartKind::Plain(_) => true,
        PartKind::Exact(_) => false,
        PartKind::Double(_) => false,
        PartKind::Tilde => false,
        PartKind::Param { param: _, op: _ } => false,
        PartKind::Subst(_) => false,
        PartKind::Arith(_) => false,
    }
}

/// Whether the part begins with a `$`.
pub fn is_expansion(part: &Part) -> bool
    ensures { result ≡ is_expansion (view_part part.now) }
{
    match &part.kind {
        PartKind::Param { param: _, op: _ } => true,
        PartKind::Subst(_) => true,
        PartKind::Arith(_) => true,
        PartKind::Plain(_) => false,
        PartKind::Exact(_) => false,
        PartKind::Double(_) => false,
        PartKind::Tilde => false,
    }
}

fn starts_plain(parts: &[Part]) -> bool
    ensures { result ≡ first_is is_plain_part (parts_of (map view_part parts.now)) }
{
    match parts {
        [] => false,
        [first, ..] => is_plain(first),
    }
}

fn starts_expansion(parts: &[Part]) -> bool
    ensures { result ≡ first_is is_expansion (parts_of (map view_part parts.now)) }
{
    match parts {
        [] => false,
        [first, ..] => is_expansion(first),
    }
}

/// Whether the text is a longest run of bytes that stand for themselves before these parts.
pub fn plain_fits(context: Context, behind: &[Part], text: &[u8]) -> bool
    ensures { result ≡ plain_fits (view_context context) (parts_of (map view_part behind.now)) text.now }
{
    !text.is_empty()
        && is_literal_text(context, text)
        && !starts_plain(behind)
        && !(ends_with(b'$', text) && starts_expansion(behind))
}

fn part_begins(byte: u8, part: &Part) -> bool
    ensures { result ≡ part_begins byte (view_part part.now) }
{
    match &part.kind {
        PartKind::Plain(text) => begins_with(byte, text.bytes()),
        PartKind::Exact(_) => false,
        PartKind::Double(_) => false,
        PartKind::Tilde => false,
        PartKind::Param { param: _, op: _ } => false,
        PartKind::Subst(_) => false,
        PartKind::Arith(_) => false,
    }
}

/// Whether the first part begins with this byte, which stands for itself.
#[tactic(auto, using(crate::proofs::PartChecks::begins_first))]
pub fn plain_begins(byte: u8, parts: &[Part]) -> bool
    ensures { result ≡ plain_begins byte (parts_of (map view_part parts.now)) }
{
    match parts {
        [] => false,
        [first, ..] => part_begins(byte, first),
    }
}

/// Whether a tilde can stand before these parts: nothing, or a `/` (2.6.1).
pub fn behind_tilde(parts: &[Part]) -> bool
    ensures { result ≡ behind_tilde (parts_of (map view_part parts.now)) }
{
    !has_parts(parts) || plain_begins(b'/', parts)
}

/// Whether the text would be a tilde's at the front of a word.
pub fn reads_tilde(text: &[u8], behind: &[Part]) -> bool
    ensures { result ≡ reads_tilde text.now (parts_of (map view_part behind.now)) }
{
    match text {
        [] => false,
        [byte] => *byte == b'~' && !has_parts(behind),
        [byte, next, ..] => *byte == b'~' && *next == b'/',
    }
}

fn assigns(part: &Part) -> bool
    ensures { result ≡ is_assignment (parts_of (view_part part.now ∷ [])) }
{
    match &part.kind {
        PartKind::Plain(text) => begins_assign(text.bytes()),
        PartKind::Exact(_) => false,
        PartKind::Double(_) => false,
        PartKind::Tilde => false,
        PartKind::Param { param: _, op: _ } => false,
        PartKind::Subst(_) => false,
        PartKind::Arith(_) => false,
    }
}

/// Whether the word would be an assignment before a command's name (2.9.1).
#[tactic(auto, using(crate::proofs::PartChecks::assigns_first))]
pub fn is_assignment(parts: &[Part]) -> bool
    ensures { result ≡ is_assignment (parts_of (map view_part parts.now)) }
{
    match parts {
        [] => false,
        [first, ..] => assigns(first),
    }
}

fn is_copied_part(part: &Part) -> bool
    ensures { result ≡ is_copied_word (parts_of (view_part part.now ∷ [])) }
{
    match &part.kind {
        PartKind::Plain(text) => is_copied_text(text.bytes()),
        PartKind::Exact(_) => false,
        PartKind::Double(_) => false,
        PartKind::Tilde => false,
        PartKind::Param { param: _, op: _ } => false,
        PartKind::Subst(_) => false,
        PartKind::Arith(_) => false,
    }
}

/// Whether the word can stand behind `<&`: a digit or `-`.
pub fn is_copied_word(parts: &[Part]) -> bool
    ensures { result ≡ is_copied_word (parts_of (map view_part parts.now)) }
{
    match parts {
        [part] => is_copied_part(part),
        [] => false,
        [_, _, ..] => false,
    }
}

fn is_literal_part(in_body: bool, part: &Part) -> bool
    ensures { result ≡ literal_body in_body (parts_of (view_part part.now ∷ [])) }
{
    match &part.kind {
        PartKind::Plain(text) => are_body_lines(in_body, text.bytes()),
        PartKind::Exact(_) => false,
        PartKind::Double(_) => false,
        PartKind::Tilde => false,
        PartKind::Param { param: _, op: _ } => false,
        PartKind::Subst(_) => false,
        PartKind::Arith(_) => false,
    }
}

/// Whether the parts are the body of a here-document that isn't expanded: nothing, or lines (2.7.4).
pub fn literal_body(in_body: bool, parts: &[Part]) -> bool
    ensures { result ≡ literal_body in_body (parts_of (map view_part parts.now)) }
{
    match parts {
        [part] => is_literal_part(in_body, part),
        [] => true,
        [_, _, ..] => false,
    }
}

fn part_ends_line(part: &Part) -> bool
    ensures { result ≡ part_ends (view_part part.now) }
{
    match &part.kind {
        PartKind::Plain(text) => ends_with(b'\n', text.bytes()),
        PartKind::Exact(_) => false,
        PartKind::Double(_) => false,
        PartKind::Tilde => false,
        PartKind::Param { param: _, op: _ } => false,
        PartKind::Subst(_) => false,
        PartKind::Arith(_) => false,
    }
}

/// Whether the body of a here-document that is expanded is nothing, or its last byte is a newline.
pub fn ends_line(parts: &[Part]) -> bool
    ensures { result ≡ ends_line (parts_of (map view_part parts.now)) }
{
    match parts {
        [] => true,
        [.., last] => part_ends_line(last),
    }
}
