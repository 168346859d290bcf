//! The components of a pattern for names of files.

ghost use Rattle.std.specs.Prelude.{◌≡◌, ◌++◌, map, IfOk};
ghost use Rattle.glob_pattern.specs.Brackets.{parts};
ghost use Rattle.glob_pattern.specs.Reading.{piece_at, piece_len};
ghost use Rattle.glob_pattern.specs.Paths.{cut, is_slash_sign, is_rooted, unrooted, is_dot, component_of, components_of, is_kept, asks_folder};

use crate::piece::Piece;
use crate::reading::pieces_in;
use crate::sign::Sign;
use span_text::{List, Memory};
use std::alloc::Global;

/// One component.
#[derive(Debug, Drop)]
pub enum Component {
    /// Nothing, as between the two of `//` and behind a `/` at the end.
    Empty,
    /// `.`
    Here,
    /// What one component of a name matches.
    Named(List<Piece>),
}

fn is_dot(pieces: &[Piece]) -> bool
    ensures { result ≡ is_dot pieces.now }
{
    match pieces {
        [Piece::Byte(b)] => *b == b'.',
        _ => false,
    }
}

fn component_of(pieces: List<Piece>) -> Component
    ensures { result ≡ component_of pieces }
{
    if pieces.len() == 0 {
        Component::Empty
    } else if is_dot(pieces.as_slice()) {
        Component::Here
    } else {
        Component::Named(pieces)
    }
}

/// The parts of signs between their slashes.
fn cut_signs(alloc: Global, signs: &[Sign]) -> Result<List<List<Sign>>, Memory>
    ensures { IfOk result (λ all. all ≡ cut is_slash_sign signs.now) }
{
    let mut all = List::new(alloc);
    let mut part = List::new(alloc);
    for sign in signs {
        if sign.byte == b'/' {
            all.push(part)?;
            part = List::new(alloc);
        } else {
            part.push(*sign)?;
        }
    }
    all.push(part)?;
    Ok(all)
}

/// Whether signs begin with a `/`.
pub fn is_rooted(signs: &[Sign]) -> bool
    ensures { result ≡ is_rooted is_slash_sign signs.now }
{
    match signs {
        [] => false,
        [sign, ..] => sign.byte == b'/',
    }
}

fn unrooted(signs: &[Sign]) -> &[Sign]
    ensures { result.now ≡ unrooted is_slash_sign signs.now }
{
    match signs {
        [] => signs,
        [sign, rest @ ..] => { if sign.byte == b'/' { rest } else { signs } }
    }
}

fn components_in(alloc: Global, all: &[List<Sign>]) -> Result<List<Component>, Memory>
    ensures { IfOk result (λ components. components ≡ map (λ part. component_of (parts piece_len piece_at 0 part)) all.now) }
{
    let mut components = List::new(alloc);
    for part in all {
        components.push(component_of(pieces_in(alloc, part.as_slice())?))?;
    }
    Ok(components)
}

/// The components of a pattern.
#[tactic(auto, unfolding(crate::specs::Paths::components_of))]
pub fn components_of(alloc: Global, signs: &[Sign]) -> Result<List<Component>, Memory>
    ensures { IfOk result (λ components. components ≡ components_of signs.now) }
{
    let all = cut_signs(alloc, unrooted(signs))?;
    components_in(alloc, all.as_slice())
}

fn is_kept(component: &Component) -> bool
    ensures { result ≡ is_kept component.now }
{
    match component {
        Component::Empty | Component::Here => true,
        Component::Named(_) => false,
    }
}

/// Whether the last component asks for a folder.
pub fn asks_folder(components: &[Component]) -> bool
    ensures { result ≡ asks_folder components.now }
{
    let mut asks = false;
    for component in components {
        asks = is_kept(component);
    }
    asks
}
