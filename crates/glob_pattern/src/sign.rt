//! The bytes of a pattern with their places.

ghost use Rattle.std.specs.Prelude.{◌≡◌, ◌==◌, ◌≤◌, length, drop, IfOk};
ghost use Rattle.glob_pattern.specs.Signs.{signs_from, is_bare, is_sign, starts};

use span_text::{Item, Mark, Memory};
use std::alloc::Global;

/// What a pattern is matched against.
#[derive(Clone, Copy, Debug, PartialEq, Eq)]
pub enum Use {
    /// Any text.
    Text,
    /// Names of files.
    Path,
}

/// One byte of a pattern.
#[derive(Clone, Copy)]
pub struct Sign {
    /// The index of its item.
    pub at: usize,
    pub byte: u8,
    pub mark: Mark,
}

/// The bytes of a flagged text.
pub fn signs_of(alloc: Global, items: &[Item]) -> Result<Vec<Sign>, Memory>
    ensures { IfOk result (λ signs. signs.items ≡ signs_from 0 items.now) }
{
    let mut signs = Vec::new(alloc);
    for (at, item) in items.iter().enumerate() {
        match *item {
            Item::Byte(byte, mark) => signs.push(Sign { at, byte, mark })?,
            Item::Quote => {}
        }
    }
    Ok(signs)
}

pub fn is_bare(mark: Mark) -> bool
    ensures { result ≡ is_bare mark }
{
    match mark {
        Mark::Written | Mark::Value => true,
        Mark::Quoted => false,
    }
}

/// Whether a sign is this byte and isn't quoted.
pub fn is_sign(b: u8, sign: Sign) -> bool
    ensures { result ≡ is_sign b sign }
{
    sign.byte == b && is_bare(sign.mark)
}

/// Whether signs begin with this byte, unquoted.
pub fn starts(b: u8, signs: &[Sign]) -> bool
    ensures { result ≡ starts b signs.now }
{
    match signs {
        [] => false,
        [sign, ..] => is_sign(b, *sign),
    }
}

/// The signs behind the first k.
pub fn from(k: usize, signs: &[Sign]) -> &[Sign]
    ensures { result.now ≡ drop k signs.now }
{
    if k < signs.len() {
        &signs[k..]
    } else {
        &signs[signs.len()..]
    }
}
