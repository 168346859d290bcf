//! Matching with a position and one point of return.

ghost use Rattle.std.specs.Prelude.{◌≡◌, drop};
ghost use Rattle.glob_pattern.specs.Pieces.{matches};
ghost use Rattle.glob_pattern.specs.Steps.{step_of, all_runs};
ghost use Rattle.glob_pattern.specs.declared.piece.Piece.{Piece};

use crate::piece::{Piece, takes};

/// What the first piece does with a byte.
#[derive(Clone, Copy)]
enum Step {
    /// It is a run.
    Run,
    /// It takes this one byte.
    Takes,
    /// It doesn't, or no piece is left.
    Refuses,
}

fn step_of(pieces: &[Piece], b: u8) -> Step
    ensures { result ≡ step_of pieces.now b }
{
    match pieces {
        [] => Step::Refuses,
        [Piece::Run, ..] => Step::Run,
        [piece, ..] => {
            if takes(piece, b) {
                Step::Takes
            } else {
                Step::Refuses
            }
        }
    }
}

/// What stands behind the first item.
pub fn behind<T>(items: &[T]) -> &[T]
    ensures { result.now ≡ drop 1 items.now }
{
    match items {
        [] => items,
        [_, rest @ ..] => rest,
    }
}

fn is_all_runs(pieces: &[Piece]) -> bool
    ensures { result ≡ all_runs pieces.now }
{
    pieces.iter().all(|piece| matches!(piece, Piece::Run))
}

/// Whether a text matches pieces. A run first takes nothing; where the rest doesn't fit, the last run takes one byte
/// more and the pieces behind it begin anew, so each byte is looked at by each piece at most once.
pub fn is_match(pieces: &[Piece], text: &[u8]) -> bool
    ensures { result ≡ matches pieces.now text.now }
{
    let mut ahead = pieces;
    let mut rest = text;
    // Whether a run has come, the pieces behind the last one, and what of the text it hasn't taken.
    let mut starred = false;
    let mut last = pieces;
    let mut left = text;
    'bytes: loop {
        match rest {
            [] => return is_all_runs(ahead),
            [b, ..] => match step_of(ahead, *b) {
                Step::Run => {
                    ahead = behind(ahead);
                    starred = true;
                    last = ahead;
                    left = rest;
                }
                Step::Takes => {
                    ahead = behind(ahead);
                    rest = behind(rest);
                }
                Step::Refuses => {
                    if !starred {
                        return false;
                    }
                    if left.is_empty() {
                        return false;
                    }
                    ahead = last;
                    left = behind(left);
                    rest = left;
                }
            },
        }
    }
}
