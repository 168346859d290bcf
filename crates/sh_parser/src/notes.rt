//! Where reading is, beside the bytes ahead.

ghost use Rattle.std.specs.Prelude.{◌≡◌, Some};
ghost use Rattle.sh_grammar.specs.Bytes.{Text as Bytes};
ghost use Rattle.sh_grammar.specs.State.{start_at};
ghost use Rattle.sh_parser.specs.Answers.{Gives};
ghost use Rattle.sh_parser.specs.Heads as heads;
ghost use Rattle.sh_parser.specs.Views.{state};
ghost use Rattle.sh_syntax.specs.View.{view_param, view_part_kind, view_part, view_word, parts_of};
ghost use Rattle.std.specs.Prelude.{map};

use crate::bodies::Owed;
use crate::fault::Stop;
use crate::open_sum::Sum;
use crate::params::Found;
use crate::runs::{Run, run_text};
use sh_syntax::{Name, Param, Part, PartKind, Word};
use span_text::{List, Span, Text};
use std::alloc::Global;

/// Nesting is at most so deep.
pub const LIMIT: u32 = 1000;

/// What reading keeps.
#[derive(Drop)]
pub struct Notes {
    /// The here-documents whose bodies are still to come.
    pub owed: List<Owed>,
    /// The bodies that came.
    pub found: List<Text>,
    pub depth: u32,
    /// The arithmetic expansions that stand open, the innermost last.
    pub sums: Vec<Sum>,
    /// How many bytes the text has in all.
    pub whole: u32,
    /// The place of the text, where it is the body of a here-document.
    pub inside: Option<Span>,
}

impl Notes {
    /// Those at the beginning of a piece of a text of so many bytes.
    pub fn fresh(alloc: Global, whole: u32) -> Notes
        ensures { (b : Bytes) → state b result ≡ start_at 0 b }
    {
        Notes {
            owed: List::new(alloc),
            found: List::new(alloc),
            depth: 0,
            sums: Vec::new(alloc),
            whole,
            inside: None,
        }
    }

    /// Those at the beginning of a body that stands at this depth.
    pub fn inner(&self, alloc: Global, from: &[u8], to: &[u8]) -> Notes
        ensures { (b : Bytes) → state b result ≡ start_at self.now.depth b }
    {
        Notes {
            owed: List::new(alloc),
            found: List::new(alloc),
            depth: self.depth,
            sums: Vec::new(alloc),
            whole: self.whole,
            inside: Some(span_of(self, from, to)),
        }
    }
}

/// Where the bytes stand before which `from` is ahead, and behind which `to` is.
pub fn span_of(notes: &Notes, from: &[u8], to: &[u8]) -> Span {
    match notes.inside {
        Some(span) => span,
        None => Span {
            from: (notes.whole as usize).saturating_sub(from.len()) as u32,
            to: (notes.whole as usize).saturating_sub(to.len()) as u32,
        },
    }
}

#[tactic(auto, using(sh_syntax::proofs::Views::part_is))]
pub fn part_of_kind(notes: &Notes, kind: PartKind, from: &[u8], to: &[u8]) -> Part
    ensures { view_part result ≡ view_part_kind kind }
{
    Part {
        kind,
        span: span_of(notes, from, to),
    }
}

#[tactic(auto, using(sh_syntax::proofs::Views::word_is))]
pub fn word_of_parts(notes: &Notes, parts: List<Part>, from: &[u8], to: &[u8]) -> Word
    ensures { view_word result ≡ parts_of (map view_part parts) }
{
    Word {
        parts,
        span: span_of(notes, from, to),
    }
}

/// The parameter that was found.
#[tactic(auto, unfolding(sh_grammar::specs::Bytes::name_run, sh_grammar::specs::Bytes::digit_run))]
pub fn param_of(alloc: Global, notes: &Notes, found: Found) -> Result<Param, Stop>
    ensures { Gives view_param result (Some (heads.param found.entry)) }
{
    match found {
        Found::Name(bytes) => {
            let text = run_text(alloc, Run::Name, bytes)?;
            let span = span_of(notes, bytes, crate::runs::run_end(Run::Name, bytes));
            Ok(Param::Name(Name { text, span }))
        }
        Found::Digit(b) => Ok(Param::Digits(Text::copy(alloc, &[b])?)),
        Found::Digits(bytes) => Ok(Param::Digits(run_text(alloc, Run::Digits, bytes)?)),
        Found::Count => Ok(Param::Count),
        Found::Status => Ok(Param::Status),
        Found::At => Ok(Param::At),
        Found::Star => Ok(Param::Star),
    }
}
