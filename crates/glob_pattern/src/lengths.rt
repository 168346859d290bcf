//! The shortest and the longest front or end of a text that matches.

ghost use Rattle.std.specs.Prelude.{◌≡◌, ◌≤◌, length};
ghost use Rattle.glob_pattern.specs.Lengths.{least, greatest, front_matches, end_matches};

use crate::matching::is_match;
use crate::piece::Piece;

fn front_matches(pieces: &[Piece], text: &[u8], n: usize) -> bool
    requires { n ≤ length text.now }
    ensures { result ≡ front_matches pieces.now text.now n }
{
    is_match(pieces, &text[..n])
}

fn end_matches(pieces: &[Piece], text: &[u8], n: usize) -> bool
    requires { n ≤ length text.now }
    ensures { result ≡ end_matches pieces.now text.now n }
{
    is_match(pieces, &text[text.len() - n..])
}

#[tactic(auto, using(crate::proofs::Least::least_found, crate::proofs::Least::least_none))]
pub fn shortest_front(pieces: &[Piece], text: &[u8]) -> Option<usize>
    ensures { result ≡ least (front_matches pieces.now text.now) (length text.now) }
{
    for n in 0..text.len() {
        if front_matches(pieces, text, n) {
            return Some(n);
        }
    }
    if front_matches(pieces, text, text.len()) {
        return Some(text.len());
    }
    None
}

#[tactic(auto, using(crate::proofs::Least::greatest_found, crate::proofs::Least::greatest_none))]
pub fn longest_front(pieces: &[Piece], text: &[u8]) -> Option<usize>
    ensures { result ≡ greatest (front_matches pieces.now text.now) (length text.now) }
{
    let mut n = text.len();
    'fronts: while n > 0 {
        if front_matches(pieces, text, n) {
            return Some(n);
        }
        n -= 1;
    }
    if front_matches(pieces, text, 0) {
        return Some(0);
    }
    None
}

#[tactic(auto, using(crate::proofs::Least::least_found, crate::proofs::Least::least_none))]
pub fn shortest_end(pieces: &[Piece], text: &[u8]) -> Option<usize>
    ensures { result ≡ least (end_matches pieces.now text.now) (length text.now) }
{
    for n in 0..text.len() {
        if end_matches(pieces, text, n) {
            return Some(n);
        }
    }
    if end_matches(pieces, text, text.len()) {
        return Some(text.len());
    }
    None
}

#[tactic(auto, using(crate::proofs::Least::greatest_found, crate::proofs::Least::greatest_none))]
pub fn longest_end(pieces: &[Piece], text: &[u8]) -> Option<usize>
    ensures { result ≡ greatest (end_matches pieces.now text.now) (length text.now) }
{
    let mut n = text.len();
    'ends: while n > 0 {
        if end_matches(pieces, text, n) {
            return Some(n);
        }
        n -= 1;
    }
    if end_matches(pieces, text, 0) {
        return Some(0);
    }
    None
}
