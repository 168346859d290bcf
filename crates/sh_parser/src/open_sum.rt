//! An arithmetic expansion that stands open.

ghost use Rattle.std.specs.Prelude.{length};
ghost use Rattle.span_text.specs.Expressions.{Apart};
ghost use Rattle.sh_parser.specs.Aparts.{Apart-prop};

use span_text::{Span, Text};

/// What was read of an arithmetic expansion: its bytes, and the spans of the expansions that stand in it as operands.
/// Each of these is one byte here.
#[derive(Debug, Drop)]
pub struct Sum {
    pub text: Text,
    pub operands: Vec<Span>,
    ghost apart: { Apart 0 (length text) operands.items } by { Apart-prop 0 (length text) operands.items },
}
