//! A line is read.

ghost use Rattle.std.specs.Prelude.{◌≡◌, IfOk, OnOk, OnErr};
ghost use Rattle.shell_world.specs.Outside.{desc_at, unread, consumed_at};
ghost use Rattle.shell_world.specs.Lines.{line_len, without_nul, is_ended, newlines, line_taken, line_of, line_read_at};
ghost use Rattle.shell_world.specs.Running.{index_of};

use crate::description::Desc;
use crate::outside::Outside;
use span_text::{Memory, Text};
use std::alloc::Global;

/// What `read` takes.
#[derive(Debug, PartialEq, Drop)]
pub struct Line {
    /// The bytes before the newline, without NUL bytes.
    pub text: Text,
    /// Whether a newline was there.
    pub ended: bool,
}

/// How many bytes stand before the first newline.
fn line_len(text: &[u8]) -> usize
    ensures { result ≡ line_len text.now }
{
    for (at, b) in text.iter().enumerate() {
        if *b == b'\n' {
            return at;
        }
    }
    text.len()
}

fn copy_without_nul(alloc: Global, bytes: &[u8]) -> Result<Text, Memory>
    ensures { IfOk result (λ text. text ≡ without_nul bytes.now) }
{
    let kept: Vec<u8> = bytes.iter().copied().filter(|b| *b != 0).collect(alloc)?;
    Ok(Text::from_vec(kept))
}

/// How many bytes are taken with the line that a text begins with.
#[tactic(auto, using(crate::proofs::LineCuts::taken_with, crate::proofs::LineCuts::taken_without))]
fn line_taken(text: &[u8]) -> usize
    ensures { result ≡ line_taken text.now }
{
    let len = line_len(text);
    if len < text.len() { len + 1 } else { len }
}

#[tactic(auto, using(crate::proofs::LineCuts::ended_is))]
fn line_of(alloc: Global, text: &[u8]) -> Result<Line, Memory>
    ensures { IfOk result (λ line. line ≡ line_of text.now) }
{
    let len = line_len(text);
    Ok(Line {
        text: copy_without_nul(alloc, &text[..len])?,
        ended: len < text.len(),
    })
}

impl<'w> Outside<'w> {
    /// Takes a line (POSIX XCU read): the bytes up to a newline, which is taken and not given. NUL bytes are dropped.
    /// What isn't open for reading gives an empty line that no newline ends.
    pub fn read_line(&mut self, from: Option<Desc>) -> Result<Line, Memory>
        ensures line { IfOk result (λ line. line ≡ line_of (unread (desc_at (index_of from) self.old.outside.descs) self.old.outside)) }
        ensures new { OnOk result (self.new ≡ record self.old { outside = line_read_at (index_of from) self.old.outside }) }
        ensures err { OnErr result (self.new ≡ self.old) }
    {
        let rest = self.unread(from);
        let line = line_of(self.alloc, rest)?;
        let taken = line_taken(rest);
        self.consume(from, taken)?;
        Ok(line)
    }
}
