//! Names that a lowered script keeps for itself.

ghost use Rattle.std.specs.Prelude.{◌≡◌, ◌++◌, IfOk, IsTrue};
ghost use Rattle.std.specs.List.{flat_map};
ghost use Rattle.span_text.specs.Names.{is_name, is_reserved};
ghost use Rattle.name_codec.specs.Reserved.{reserved_name, spelled_byte, role_letter, is_plain, ReservedApart};

use span_text::{Memory, Text};
use std::alloc::Global;

/// What a reserved name is for. The list grows with the constructs that are lowered: a new use takes a letter
/// that no other has.
#[derive(Clone, Copy, Debug, PartialEq, Eq)]
pub enum Role {
    /// A variable that one place of the lowered script draws; its name is a number.
    Temporary,
    /// A function of the prelude.
    Helper,
    /// A variable that the helpers of the prelude read or set.
    HelperVariable,
    /// The members of the array of this name, as `encode` writes them.
    Array,
    /// How many functions of the script are running; its name is empty.
    Depth,
    /// The values that `local` shadows of the variable of this name.
    SaveStack,
    /// Whether the variable of this name is exported, and whatever else sh can't tell of it.
    Marks,
}

/// A name for this use of this name: `__bs_`, a letter for the use, `_`, and the name. In it letters and digits
/// stay, `_` becomes `__`, and any other byte `_` and two letters.
pub fn reserved(alloc: Global, role: Role, name: &[u8]) -> Result<Text, Memory>
    ensures spelling { IfOk result (λ text. text ≡ reserved_name role name.now) }
    ensures named { IfOk result (λ text. IsTrue (is_name text)) }
    ensures marked { IfOk result (λ text. IsTrue (is_reserved text)) }
{
    let mut text = Text::copy(alloc, b"__bs_")?;
    text.append(&[letter_of(role), b'_'])?;
    append_name(&mut text, name)?;
    Ok(text)
}

/// No two pairs of a use and a name have one reserved name.
#[tactic(auto, using(crate::proofs::Spelling::reserved_apart))]
pub fn names_apart()
    ensures { ReservedApart }
{}

fn letter_of(role: Role) -> u8
    ensures { result ≡ role_letter role }
{
    match role {
        Role::Temporary => b't',
        Role::Helper => b'h',
        Role::HelperVariable => b'v',
        Role::Array => b'a',
        Role::Depth => b'd',
        Role::SaveStack => b's',
        Role::Marks => b'm',
    }
}

fn append_name(text: &mut Text, name: &[u8]) -> Result<(), Memory>
    ensures { IfOk result (λ _. text.new ≡ text.old ++ flat_map spelled_byte name.now) }
{
    for byte in name {
        append_spelled(text, *byte)?;
    }
    Ok(())
}

fn append_spelled(text: &mut Text, byte: u8) -> Result<(), Memory>
    ensures { IfOk result (λ _. text.new ≡ text.old ++ spelled_byte byte) }
{
    if byte.is_ascii_alphanumeric() {
        text.append(&[byte])
    } else if byte == b'_' {
        text.append(b"__")
    } else {
        text.append(&[b'_', b'a' + byte / 16, b'a' + byte % 16])
    }
}
