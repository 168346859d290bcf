//! A pattern, read and matched.

ghost use Rattle.std.specs.Prelude.{◌≡◌, None, Some, length, IfOk, IfErr, OnOk};
ghost use Rattle.glob_pattern.specs.Pieces.{matches};
ghost use Rattle.glob_pattern.specs.Lengths.{least, greatest, front_matches, end_matches};
ghost use Rattle.glob_pattern.specs.Reading.{pieces_of, doubt_of};
ghost use Rattle.glob_pattern.specs.Faults.{IfDoubtful};
ghost use Rattle.glob_pattern.specs.declared.sign.Use.TheVariants as use_of;

use crate::fault::PatternFault;
use crate::lengths::{longest_end, longest_front, shortest_end, shortest_front};
use crate::matching::is_match;
use crate::piece::Piece;
use crate::reading::{doubt_in, pieces_in};
use crate::sign::{Use, signs_of};
use span_text::{Flagged, List};
use std::alloc::Global;
use std::marker::Model;

/// A pattern of the shell, which contracts see as the list of its pieces.
#[derive(Debug, Drop)]
pub struct Pattern {
    pieces: List<Piece>,
}

impl Model for Pattern {
    ghost use Rattle.std.specs.Prelude.{List};
    ghost use Rattle.glob_pattern.specs.declared.piece.Piece.{Piece};

    ghost Value = { List Piece };

    ghost view = { λ p. p.pieces };
}

impl Pattern {
    /// The pattern that a text is after its expansions. Unquoted `*`, `?` and closed brackets are special, where they
    /// stand in the script and where an expansion gave them; all else stands for itself. `Doubtful` comes with the
    /// least index of an item that shells don't agree on: a backslash from an unquoted expansion, and in a bracket
    /// `[.`, `[=`, a class of no known name, or a range that has a class or ends below its start. See the Bash
    /// manual's "Pattern Matching".
    #[tactic(auto, unfolding(crate::specs::Reading::pieces_of, crate::specs::Reading::doubt_of))]
    pub fn read(alloc: Global, text: &Flagged) -> Result<Pattern, PatternFault>
        ensures read { IfOk result (λ pattern. pattern ≡ pieces_of text.now) }
        ensures clear { OnOk result (doubt_of use_of.Text text.now ≡ None) }
        ensures doubtful { IfErr result (λ fault. IfDoubtful fault (λ at. doubt_of use_of.Text text.now ≡ Some at)) }
    {
        let signs = signs_of(alloc, text.items())?;
        match doubt_in(Use::Text, &signs) {
            Some(at) => Err(PatternFault::Doubtful(at)),
            None => Ok(Pattern {
                pieces: pieces_in(alloc, &signs)?,
            }),
        }
    }

    /// Whether the whole of a text matches. It takes no memory, and at most as many steps as the product of the
    /// lengths, each and one.
    pub fn matches(&self, text: &[u8]) -> bool
        ensures { result ≡ matches self.now text.now }
    {
        is_match(self.pieces.as_slice(), text)
    }

    /// The least length of a front of the text that matches; None where no front does.
    pub fn shortest_prefix(&self, text: &[u8]) -> Option<usize>
        ensures { result ≡ least (front_matches self.now text.now) (length text.now) }
    {
        shortest_front(self.pieces.as_slice(), text)
    }

    /// The greatest length of a front of the text that matches; None where no front does.
    pub fn longest_prefix(&self, text: &[u8]) -> Option<usize>
        ensures { result ≡ greatest (front_matches self.now text.now) (length text.now) }
    {
        longest_front(self.pieces.as_slice(), text)
    }

    /// The least length of an end of the text that matches; None where no end does.
    pub fn shortest_suffix(&self, text: &[u8]) -> Option<usize>
        ensures { result ≡ least (end_matches self.now text.now) (length text.now) }
    {
        shortest_end(self.pieces.as_slice(), text)
    }

    /// The greatest length of an end of the text that matches; None where no end does.
    pub fn longest_suffix(&self, text: &[u8]) -> Option<usize>
        ensures { result ≡ greatest (end_matches self.now text.now) (length text.now) }
    {
        longest_end(self.pieces.as_slice(), text)
    }
}
