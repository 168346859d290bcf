//! Reading and printing.

ghost use Rattle.std.specs.Prelude.{◌≡◌, ◌<◌, ◌^◌, length, IfOk};
ghost use Rattle.sh_printing.specs.Printing.{printed};
ghost use Rattle.sh_reprint.specs.Reprinted.{Printed, Reprinted};
ghost use Rattle.sh_syntax.specs.View.{view};

use sh_parser::{ReadFault, read};
use sh_printer::print;
use sh_syntax::Script;
use span_text::{Failed, List, Memory, MemorySink, Sink, SureSink, write_all};
use std::alloc::Global;

/// Why a text isn't printed anew.
#[derive(Clone, Copy, Debug, PartialEq, Eq)]
pub enum ReprintFault {
    /// The text spells no script: this is the offset of the first byte that doesn't go on.
    Unreadable(u32),
    /// The sink failed.
    Output,
    /// There is no memory left.
    Memory,
}

impl From<ReadFault> for ReprintFault {
    fn from(fault: ReadFault) -> ReprintFault {
        match fault {
            ReadFault::Unreadable(at) => ReprintFault::Unreadable(at),
            ReadFault::Memory => ReprintFault::Memory,
        }
    }
}

/// The script's text, in memory: printed once to count its bytes, and once to keep them.
fn text_of(alloc: Global, script: &Script) -> Result<MemorySink, Memory>
    ensures { IfOk result (λ kept. kept.held ≡ printed (view script.now)) }
{
    let mut counted = SureSink::new();
    let mut kept = MemorySink::new(alloc, usize::MAX, List::new(alloc));
    let _ = print(script, &mut counted);
    kept.reserve(usize::try_from(counted.taken()).unwrap_or(0))?;
    match print(script, &mut kept) {
        Ok(()) => Ok(kept),
        Err(Failed {}) => Err(Memory {}),
    }
}

/// Writes all that was kept.
fn write_kept<K: Sink>(kept: &MemorySink, out: &mut K) -> Result<(), ReprintFault>
    ensures { Printed kept.now.held (K.held out.old) (K.held out.new) (K.faults out.old) (K.faults out.new) result }
{
    match write_all(out, kept.held()) {
        Ok(()) => Ok(()),
        Err(Failed {}) => Err(ReprintFault::Output),
    }
}

/// Writes the script's text. All memory is taken before the first write.
fn print_anew<K: Sink>(alloc: Global, script: &Script, out: &mut K) -> Result<(), ReprintFault>
    ensures { Printed (printed (view script.now)) (K.held out.old) (K.held out.new) (K.faults out.old) (K.faults out.new) result }
{
    match text_of(alloc, script) {
        Ok(kept) => write_kept(&kept, out),
        Err(Memory {}) => Err(ReprintFault::Memory),
    }
}

/// Reads sh text and prints it anew, one complete command a line. What is printed spells the same script, where it has
/// fewer than 2^32 bytes (the law `reads_back` of sh_printing).
pub fn reprint<K: Sink>(alloc: Global, text: &[u8], out: &mut K) -> Result<(), ReprintFault>
    requires { length text.now < 2 ^ 32 }
    ensures { Reprinted text.now (K.held out.old) (K.held out.new) (K.faults out.old) (K.faults out.new) result }
{
    match read(alloc, text) {
        Ok(script) => print_anew(alloc, &script, out),
        Err(ReadFault::Unreadable(at)) => Err(ReprintFault::Unreadable(at)),
        Err(ReadFault::Memory) => Err(ReprintFault::Memory),
    }
}
