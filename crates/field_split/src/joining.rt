//! `"$*"`: one text of many.

ghost use Rattle.std.specs.Prelude.{◌≡◌, ◌++◌, IfOk, OnOk};
ghost use Rattle.std.specs.List.{join_by, flat_map};
ghost use Rattle.std.specs.Option.{option_copied};
ghost use Rattle.field_split.specs.Reading.{joint};

use span_text::{List, Memory, Text};
use std::alloc::Global;

fn joint(ifs: Option<&[u8]>) -> &[u8]
    ensures { result.now ≡ joint (option_copied ifs.entry) }
{
    match ifs {
        None => b" ",
        Some(bytes) => match bytes {
            [] => bytes,
            [_, ..] => &bytes[..1],
        },
    }
}

fn append_all(text: &mut Text, joint: &[u8], texts: &[Text]) -> Result<(), Memory>
    ensures { OnOk result (text.new ≡ text.old ++ flat_map (λ t. joint.now ++ t) texts.now) }
{
    for next in texts {
        text.append(joint)?;
        text.append(next.bytes())?;
    }
    Ok(())
}

/// The texts in a row, with the first byte of IFS between each two: a space where IFS is unset (None), nothing where
/// it is empty. See the Bash manual's "Special Parameters", `*`.
pub fn join(alloc: Global, texts: &List<Text>, ifs: Option<&[u8]>) -> Result<Text, Memory>
    ensures { IfOk result (λ text. text ≡ join_by (λ t. t) (joint (option_copied ifs.entry)) texts.now) }
{
    match texts.as_slice() {
        [] => Ok(Text::new(alloc)),
        [first, rest @ ..] => {
            let mut text = Text::copy(alloc, first.bytes())?;
            append_all(&mut text, joint(ifs), rest)?;
            Ok(text)
        }
    }
}
