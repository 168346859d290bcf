//! Where something stands in a text.

ghost use Rattle.std.specs.Prelude.{◌≡◌, ◌-◌, ◌<◌, ◌≤◌, ◌^◌, length, count_by, ◌==◌, ◌+◌};
ghost use Rattle.std.specs.List.{after_last};
ghost use Rattle.span_text.specs.Places.{line_of, column_of};

use memchr::{memchr_iter, memrchr};

/// The bytes from the offset `from` up to the offset `to`.
#[derive(Clone, Copy, Debug, PartialEq, Eq)]
pub struct Span {
    pub from: u32,
    pub to: u32,
}

/// A line and a column, both from 1, columns in bytes.
#[derive(Clone, Copy, Debug, PartialEq, Eq)]
pub struct Place {
    pub line: u32,
    pub column: u32,
}

/// The offset at which the last line of these bytes begins.
fn last_line_start(bytes: &[u8]) -> usize
    ensures { result + length (after_last (λ b. b == 10) bytes.now) ≡ length bytes.now }
{
    match memrchr(b'\n', bytes) {
        None => 0,
        Some(newline) => newline + 1,
    }
}

fn newlines(bytes: &[u8]) -> usize
    ensures { result ≡ count_by (λ b. b == 10) bytes.now }
{
    memchr_iter(b'\n', bytes).count()
}

/// The place of the byte at the offset `at`, which may be the text's end.
pub fn place_of(text: &[u8], at: usize) -> Place
    requires within { at ≤ length text.now }
    requires countable { length text.now < 2 ^ 32 - 1 }
    ensures line { result.line ≡ line_of text.now at }
    ensures column { result.column ≡ column_of text.now at }
{
    let before = &text[..at];
    let newlines = newlines(before);
    let from = last_line_start(before);
    Place {
        line: newlines as u32 + 1,
        column: (at - from) as u32 + 1,
    }
}
