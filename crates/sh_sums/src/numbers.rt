//! Numbers and their texts.

ghost use Rattle.std.specs.Prelude.{◌≡◌, ◌∷◌, ◌==◌, decimal, IfOk};
ghost use Rattle.std.specs.List.{list_any};
ghost use Rattle.sh_meaning.specs.Arithmetic as sums;

use arith64::constant;
use itoa::Buffer;
use span_text::{Memory, Text};
use std::alloc::Global;

/// The text of a number below 0 whose distance from 0 is this.
fn negative_text(alloc: Global, distance: u64) -> Result<Text, Memory>
    ensures { IfOk result (λ text. text ≡ 45 ∷ decimal distance) }
{
    let mut text = Text::copy(alloc, b"-")?;
    text.append(Buffer::new().format(distance).as_bytes())?;
    Ok(text)
}

/// The decimal text of a number, with its sign where it is negative.
#[tactic(auto, unfolding(sh_meaning::specs::Arithmetic::number_text))]
pub fn number_text(alloc: Global, number: i64) -> Result<Text, Memory>
    ensures { IfOk result (λ text. text ≡ sums.number_text number) }
{
    let distance = number.unsigned_abs();
    if number < 0 {
        return negative_text(alloc, distance);
    }
    Text::copy(alloc, Buffer::new().format(distance).as_bytes())
}

/// Whether a text begins with `+` or `-`.
fn has_sign(text: &[u8]) -> bool
    ensures { result ≡ sums.has_sign text.now }
{
    match text {
        [] => false,
        [first, ..] => *first == b'+' || *first == b'-',
    }
}

fn is_listed(signs: &[u32], number: u32) -> bool
    ensures { result ≡ list_any (λ j. j == number) signs.now }
{
    signs.iter().any(|j| *j == number)
}

/// The number that the operand of this number gives, where its text is a constant. One with a sign may not stand behind
/// a sign: `signs` has the numbers of the operands that do (`behind_signs`). None is what shells don't agree on.
#[tactic(auto, unfolding(sh_meaning::specs::Arithmetic::operand_number))]
pub fn operand_number(signs: &[u32], number: u32, text: &[u8]) -> Option<i64>
    ensures { result ≡ sums.operand_number signs.now number text.now }
{
    if has_sign(text) && is_listed(signs, number) {
        return None;
    }
    constant(text)
}
