//! Open descriptions (POSIX XBD 3.258), and the descriptors that stand for them (2.7).

ghost use Rattle.std.specs.Prelude.{◌≡◌, ◌+◌, ◌<◌, Some, IfOk, OnOk, OnErr};
ghost use Rattle.shell_world.specs.Texts.{nth, with_nth};
ghost use Rattle.shell_world.specs.Opening.{buffer_text, emptied};
ghost use Rattle.shell_world.specs.Outside.{index_at, read_on, written_on, writing_at};
ghost use Rattle.shell_world.specs.Running.{index_of};
ghost use Rattle.shell_world.specs.World.{start_fds};

use span_text::{Memory, Text};
use std::alloc::Global;
use std::marker::Model;
use std::mem;

/// What is read or written through a descriptor. Two descriptors may share one, and then its offset too.
#[derive(Debug, Drop)]
pub enum Description {
    /// A file that is read from this offset on.
    Reading { path: Text, offset: usize },
    /// A file that is written from this offset on.
    Writing { path: Text, offset: usize },
    /// A file that is written at its end.
    Appending { path: Text },
    /// A text that is read from this offset on: standard input, a here-document.
    Given { text: Text, offset: usize },
    /// A text that is written: what a command substitution takes.
    Buffer { text: Text },
    /// Standard output.
    Output,
    /// Standard error.
    Errors,
}

/// An offset that no number can hold is refused as memory is.
pub fn forward(offset: usize, count: usize) -> Result<usize, Memory>
    ensures { IfOk result (λ n. n ≡ offset + count) }
{
    match offset.checked_add(count) {
        Some(later) => Ok(later),
        None => Err(Memory {}),
    }
}

impl Description {
    /// So many bytes were read.
    pub fn read_on(&mut self, count: usize) -> Result<(), Memory>
        ensures ok { OnOk result (self.new ≡ read_on count self.old) }
        ensures err { OnErr result (self.new ≡ self.old) }
    {
        match self {
            Description::Reading { path: _, offset } => {
                *offset = forward(*offset, count)?;
                Ok(())
            }
            Description::Given { text: _, offset } => {
                *offset = forward(*offset, count)?;
                Ok(())
            }
            _ => Ok(()),
        }
    }

    /// These bytes were written.
    pub fn write_on(&mut self, piece: &[u8]) -> Result<(), Memory>
        ensures ok { OnOk result (self.new ≡ written_on piece.now self.old) }
        ensures err { OnErr result (self.new ≡ self.old) }
    {
        match self {
            Description::Writing { path: _, offset } => {
                *offset = forward(*offset, piece.len())?;
                Ok(())
            }
            Description::Buffer { text } => text.append(piece),
            _ => Ok(()),
        }
    }
}

impl Description {
    /// The text of a buffer, which is empty then.
    pub fn take_text(&mut self, alloc: Global) -> Text
        ensures text { result ≡ buffer_text (Some self.old) }
        ensures new { self.new ≡ emptied self.old }
    {
        match self {
            Description::Buffer { text } => mem::replace(text, Text::new(alloc)),
            _ => Text::new(alloc),
        }
    }
}

impl Description {
    /// What is written next is written at this offset of the file.
    pub fn write_at(&mut self, later: usize)
        ensures { self.new ≡ writing_at later self.old }
    {
        if let Description::Writing { path: _, offset } = self {
            *offset = later;
        }
    }
}

/// An open description of a run, by its number.
#[derive(Clone, Copy, Debug, PartialEq, Eq)]
pub struct Desc(u64);

impl Desc {
    pub(crate) fn of_index(index: usize) -> Desc
        ensures { result.0 ≡ index }
    {
        Desc(index as u64)
    }

    pub(crate) fn index(self) -> usize
        ensures { result ≡ self.0 }
    {
        self.0 as usize
    }
}

/// Descriptors 0 to 9, each open for a description or closed.
#[derive(Debug, Drop)]
pub struct Fds {
    slots: [Option<Desc>; 10],
}

impl Model for Fds {
    ghost use Rattle.std.specs.Prelude.{List, Option, ℕ, map, ◌≡◌, length};
    ghost use Rattle.shell_world.specs.Running.{index_of};

    ghost Value = { List (Option ℕ) };

    ghost view = { λ f. map index_of f.slots };
}

impl Fds {
    /// Standard input, output and error, whose descriptions are the first three.
    pub(crate) fn standard() -> Fds
        ensures { result ≡ start_fds }
    {
        Fds {
            slots: [
                Some(Desc(0)),
                Some(Desc(1)),
                Some(Desc(2)),
                None,
                None,
                None,
                None,
                None,
                None,
                None,
            ],
        }
    }

    /// The same descriptors, open for the same descriptions.
    pub fn copy(&self) -> Fds
        ensures { result ≡ self.now }
    {
        Fds { slots: self.slots }
    }

    /// The description that a descriptor stands for. From 10 on it is closed.
    pub fn get(&self, n: u8) -> Option<Desc>
        ensures { index_of result ≡ index_at (nth n self.now) }
    {
        match self.slots.get(n as usize) {
            None => None,
            Some(slot) => *slot,
        }
    }

    /// Opens a descriptor below 10 for a description, or closes it. From 10 on nothing changes.
    pub fn set(&mut self, n: u8, to: Option<Desc>)
        ensures { self.new ≡ with_nth n (index_of to) self.old }
    {
        if self.slots.get(n as usize).is_some() {
            self.slots[n as usize] = to;
        }
    }
}
