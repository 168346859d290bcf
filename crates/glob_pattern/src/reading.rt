//! The pieces of a pattern, and its least doubtful place.

ghost use Rattle.std.specs.Prelude.{◌≡◌, ◌<◌, ◌≤◌, length, IfOk};
ghost use Rattle.glob_pattern.specs.Brackets.{parts, least_place};
ghost use Rattle.glob_pattern.specs.Reading.{plain_piece, piece_at, piece_len, piece_doubt};

use crate::bracket::{body_len, body_of, mark_len};
use crate::member::{is_backslash, lesser, members_doubt, members_of, place_if};
use crate::piece::Piece;
use crate::sign::{Sign, Use, from, is_sign};
use span_text::{List, Memory};
use std::alloc::Global;

fn plain_piece(signs: &[Sign]) -> Piece
    ensures { result ≡ plain_piece signs.now }
{
    match signs {
        [] => Piece::Any,
        [sign, ..] => {
            if is_sign(b'*', *sign) {
                Piece::Run
            } else if is_sign(b'?', *sign) {
                Piece::Any
            } else {
                Piece::Byte(sign.byte)
            }
        }
    }
}

#[tactic(auto, unfolding(crate::specs::Reading::piece_at))]
fn piece_at(alloc: Global, signs: &[Sign]) -> Result<Piece, Memory>
    ensures { IfOk result (λ piece. piece ≡ piece_at signs.now) }
{
    match body_len(signs) {
        None => Ok(plain_piece(signs)),
        Some(n) => {
            let members = members_of(alloc, body_of(n, signs))?;
            if mark_len(from(1, signs)) == 0 {
                Ok(Piece::Among(members))
            } else {
                Ok(Piece::Outside(members))
            }
        }
    }
}

#[tactic(auto, unfolding(crate::specs::Reading::piece_len))]
fn piece_len(signs: &[Sign]) -> usize
    requires { 0 < length signs.now }
    ensures len { result ≡ piece_len signs.now }
    ensures some { 0 < result }
    ensures within { result ≤ length signs.now }
{
    match body_len(signs) {
        None => 1,
        Some(n) => n + mark_len(from(1, signs)) + 2,
    }
}

#[tactic(auto, unfolding(crate::specs::Reading::piece_doubt))]
fn piece_doubt(purpose: Use, signs: &[Sign]) -> Option<usize>
    ensures { result ≡ piece_doubt purpose signs.now }
{
    match body_len(signs) {
        None => place_if(is_backslash(signs), signs),
        Some(n) => members_doubt(purpose, body_of(n, signs)),
    }
}

/// The pieces of a pattern.
pub fn pieces_in(alloc: Global, signs: &[Sign]) -> Result<List<Piece>, Memory>
    ensures { IfOk result (λ pieces. pieces ≡ parts piece_len piece_at 0 signs.now) }
{
    let mut pieces = List::new(alloc);
    let mut rest = signs;
    'pieces: while !rest.is_empty() {
        let piece = piece_at(alloc, rest)?;
        pieces.push(piece)?;
        rest = from(piece_len(rest), rest);
    }
    Ok(pieces)
}

/// The least doubtful place of a pattern.
pub fn doubt_in(purpose: Use, signs: &[Sign]) -> Option<usize>
    ensures { result ≡ least_place (parts piece_len (piece_doubt purpose) 0 signs.now) }
{
    let mut place = None;
    let mut rest = signs;
    'pieces: while !rest.is_empty() {
        place = lesser(place, piece_doubt(purpose, rest));
        rest = from(piece_len(rest), rest);
    }
    place
}
