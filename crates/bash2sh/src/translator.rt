//! From the text of a Bash script to the text of an sh script.

ghost use Rattle.std.specs.Prelude.{◌≤◌, length};
ghost use Rattle.bash2sh.specs.Answers.{limit};
ghost use Rattle.bash2sh.specs.Translation.{Translates};

use crate::fault::{ReadFault, TranslateFault};
use crate::line_texts::text_of;
use span_text::{Sink, write_all};
use std::alloc::Global;

/// Writes the sh text of the script that this text spells. It takes all its memory before it writes.
///
/// # Errors
///
/// `NotYet` where the text spells no script of the form that is taken, and `Output` where `out` failed.
pub fn translate<K: Sink>(alloc: Global, text: &[u8], out: &mut K) -> Result<(), TranslateFault>
    requires { length text.now ≤ limit }
    ensures { Translates text.now (K.held out.old) (K.held out.new) (K.faults out.old) (K.faults out.new) result }
{
    let written = match text_of(alloc, text) {
        Ok(written) => written,
        Err(ReadFault::Memory) => return Err(TranslateFault::Memory),
        Err(ReadFault::NotYet(place)) => return Err(TranslateFault::NotYet(place)),
    };
    match write_all(out, written.bytes()) {
        Ok(()) => Ok(()),
        Err(_) => Err(TranslateFault::Output),
    }
}
