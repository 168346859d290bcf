//! Why a pattern isn't read.

ghost use Rattle.std.specs.Prelude.{◌≡◌};
ghost use Rattle.glob_pattern.specs.declared.fault.PatternFault.TheVariants as fault;

use thiserror::Error;

#[derive(Debug, Drop, Error)]
pub enum PatternFault {
    /// Shells don't agree on what stands at this index, an item of the text.
    #[error("doubtful pattern at item {0}")]
    Doubtful(usize),
    /// There is no memory left.
    #[error("out of memory")]
    Memory,
}

impl From<span_text::Memory> for PatternFault {
    ghost from_gives = { λ _ e. e ≡ fault.Memory };

    fn from(_: span_text::Memory) -> PatternFault {
        PatternFault::Memory
    }
}
