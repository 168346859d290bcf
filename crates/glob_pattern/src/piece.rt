//! The pieces that a pattern is a list of.

ghost use Rattle.std.specs.Prelude.{◌≡◌};
ghost use Rattle.std.specs.List.{list_any};
ghost use Rattle.glob_pattern.specs.Pieces.{in_member, takes};

use crate::class::{Class, in_class};
use span_text::List;

/// One member of a bracket.
#[derive(Clone, Copy, Debug, PartialEq, Eq)]
pub enum Member {
    /// `a`
    One(u8),
    /// `a-f`: both ends belong to it.
    Range(u8, u8),
    /// `[:digit:]`
    Named(Class),
}

/// One piece of a pattern.
#[derive(Debug, Drop)]
pub enum Piece {
    /// A byte that stands for itself.
    Byte(u8),
    /// `?`: one byte.
    Any,
    /// `*`: any bytes, also none.
    Run,
    /// `[ab]`: one byte that a member names.
    Among(List<Member>),
    /// `[!ab]` or `[^ab]`: one byte that no member names.
    Outside(List<Member>),
}

fn in_member(member: Member, b: u8) -> bool
    ensures { result ≡ in_member b member }
{
    match member {
        Member::One(c) => b == c,
        Member::Range(first, last) => first <= b && b <= last,
        Member::Named(class) => in_class(class, b),
    }
}

fn in_members(members: &[Member], b: u8) -> bool
    ensures { result ≡ list_any (in_member b) members.now }
{
    members.iter().any(|member| in_member(*member, b))
}

/// Whether a piece takes this one byte.
pub fn takes(piece: &Piece, b: u8) -> bool
    ensures { result ≡ takes piece.now b }
{
    match piece {
        Piece::Byte(c) => b == *c,
        Piece::Any | Piece::Run => true,
        Piece::Among(members) => in_members(members.as_slice(), b),
        Piece::Outside(members) => !in_members(members.as_slice(), b),
    }
}
