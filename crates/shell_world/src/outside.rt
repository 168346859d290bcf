//! The outside of a run: its files, what is open, and the record of what was called and written.

ghost use Rattle.std.specs.Prelude.{◌≡◌, ◌++◌, length, drop, Some, IfOk, OnOk, OnErr};
ghost use Rattle.std.specs.Option.{option_copied};
ghost use Rattle.shell_world.specs.Outside.{desc_at, unread, consumed_at, drained_at, file_bytes, padded, overwritten, is_written, write_to, written_on_at, moved_at, takes_piece, written_at};
ghost use Rattle.shell_world.specs.Calls.{recorded, taken_by, input_after_at, answered};
ghost use Rattle.shell_world.specs.Texts.{map_of};
ghost use Rattle.shell_world.specs.World.{start_fds};
ghost use Rattle.shell_world.specs.Running.{index_of, with_file, with_both, after_call, row_call, call_of, report_of_run, started};

use crate::copies::{copy_pairs, copy_texts};
use crate::description::{Desc, Description, Fds, forward};
use crate::table::{answer_at, choose, times};
use crate::text_map::TextMap;
use crate::world::{Answer, Call, End, Report, Row, RowInput, World};
use span_text::{List, Memory, Text};
use std::alloc::Global;
use std::marker::Model;

/// The outside of a run in a world.
#[derive(Debug, Drop)]
pub struct Outside<'w> {
    rows: &'w [Row],
    calls: List<Call>,
    out: Text,
    err: Text,
    pub(crate) files: TextMap<Text>,
    pub(crate) descs: Vec<Description>,
    pub(crate) alloc: Global,
}

impl<'w> Model for Outside<'w> {
    ghost use Rattle.shell_world.specs.Running.{Running};

    ghost Value = { Running };

    ghost view = { λ o. record { rows = o.rows.now; trace = record { calls = o.calls; out = o.out; err = o.err }; outside = record { files = o.files; descs = o.descs.items } } };
}

fn copy_files(alloc: Global, files: &[(Text, Text)]) -> Result<TextMap<Text>, Memory>
    ensures { IfOk result (λ m. m ≡ map_of files.now) }
{
    let mut map = TextMap::new(alloc);
    // From the last one on, so that the first of a path counts.
    for behind in 0..files.len() {
        let file = &files[files.len() - 1 - behind];
        let path = Text::copy(alloc, file.0.bytes())?;
        map.insert(path, Text::copy(alloc, file.1.bytes())?)?;
    }
    Ok(map)
}

/// The bytes with the piece over those at the offset, and NUL bytes where there are none before it.
fn overwritten(alloc: Global, offset: usize, piece: &[u8], bytes: &[u8]) -> Result<Text, Memory>
    ensures { IfOk result (λ t. t ≡ overwritten offset piece.now bytes.now) }
{
    let mut text = padded(alloc, offset, bytes)?;
    text.append(piece)?;
    text.append(rest_of(rest_of(bytes, offset), piece.len()))?;
    Ok(text)
}

/// The first bytes, this many, with NUL bytes where there are none.
#[tactic(auto, using(crate::proofs::Writes::padded_within, crate::proofs::Writes::padded_more))]
fn padded(alloc: Global, count: usize, bytes: &[u8]) -> Result<Text, Memory>
    ensures { IfOk result (λ t. t ≡ padded count bytes.now) }
{
    let kept = count.min(bytes.len());
    let mut text = Text::copy(alloc, &bytes[..kept])?;
    for _ in kept..count {
        text.append(&[0])?;
    }
    Ok(text)
}

fn rest_of(text: &[u8], offset: usize) -> &[u8]
    ensures { result.now ≡ drop offset text.now }
{
    if offset < text.len() {
        &text[offset..]
    } else {
        &[]
    }
}

impl<'w> Outside<'w> {
    /// The description of this number.
    fn description(&self, at: Option<Desc>) -> Option<&Description>
        ensures { option_copied result ≡ desc_at (index_of at) self.now.outside.descs }
    {
        match at {
            None => None,
            Some(desc) => self.descs.get(desc.index()),
        }
    }

    /// What is still to be read, where it is open for reading.
    pub(crate) fn unread(&self, from: Option<Desc>) -> &[u8]
        ensures { result.now ≡ unread (desc_at (index_of from) self.now.outside.descs) self.now.outside }
    {
        match self.description(from) {
            Some(Description::Reading { path, offset }) => {
                rest_of(self.file_bytes(path.bytes()), *offset)
            }
            Some(Description::Given { text, offset }) => rest_of(text.bytes(), *offset),
            _ => &[],
        }
    }

    /// So many bytes were read.
    pub(crate) fn consume(&mut self, from: Option<Desc>, count: usize) -> Result<(), Memory>
        ensures ok { OnOk result (self.new ≡ record self.old { outside = consumed_at count (index_of from) (desc_at (index_of from) self.old.outside.descs) self.old.outside }) }
        ensures err { OnErr result (self.new ≡ self.old) }
    {
        let Some(desc) = from else {
            return Ok(());
        };
        if let Some(description) = self.descs.get_mut(desc.index()) {
            description.read_on(count)?;
        }
        Ok(())
    }

    /// All that there is to be read was taken.
    fn drain(&mut self, from: Option<Desc>) -> Result<(), Memory>
        ensures { OnOk result (self.new ≡ record self.old { outside = drained_at (index_of from) self.old.outside }) }
    {
        let count = self.unread(from).len();
        self.consume(from, count)
    }

    pub(crate) fn file_bytes(&self, path: &[u8]) -> &[u8]
        ensures { result.now ≡ file_bytes path.now self.now.outside }
    {
        match self.files.get(path) {
            Some(text) => text.bytes(),
            None => &[],
        }
    }

    /// Puts these bytes at the end of a file, which is made where it isn't there.
    fn append_file(&mut self, path: Text, piece: &[u8]) -> Result<(), Memory>
        ensures ok { OnOk result (self.new ≡ with_file self.old path (file_bytes path self.old.outside ++ piece.now)) }
        ensures err { OnErr result (self.new ≡ self.old) }
    {
        let mut text = Text::copy(self.alloc, self.file_bytes(path.bytes()))?;
        text.append(piece)?;
        self.files.insert(path, text)
    }

    /// Puts these bytes over those of a file at an offset.
    fn overwrite_file(&mut self, path: Text, offset: usize, piece: &[u8]) -> Result<(), Memory>
        ensures ok { OnOk result (self.new ≡ with_file self.old path (overwritten offset piece.now (file_bytes path self.old.outside))) }
        ensures err { OnErr result (self.new ≡ self.old) }
    {
        let text = overwritten(self.alloc, offset, piece, self.file_bytes(path.bytes()))?;
        self.files.insert(path, text)
    }

    /// What was written through a description is told to it.
    fn write_on(&mut self, to: Option<Desc>, piece: &[u8]) -> Result<(), Memory>
        ensures ok { OnOk result (self.new ≡ record self.old { outside = written_on_at (index_of to) piece.now (desc_at (index_of to) self.old.outside.descs) self.old.outside }) }
        ensures err { OnErr result (self.new ≡ self.old) }
    {
        let Some(desc) = to else {
            return Ok(());
        };
        if let Some(description) = self.descs.get_mut(desc.index()) {
            description.write_on(piece)?;
        }
        Ok(())
    }

    /// What is written next through a description is written at this offset of its file.
    fn move_to(&mut self, to: Option<Desc>, offset: usize)
        ensures { self.new ≡ record self.old { outside = moved_at (index_of to) offset (desc_at (index_of to) self.old.outside.descs) self.old.outside } }
    {
        let Some(desc) = to else {
            return;
        };
        if let Some(description) = self.descs.get_mut(desc.index()) {
            description.write_at(offset);
        }
    }

    /// Writes a piece that isn't empty, and says whether something is open for writing there.
    fn write_piece(&mut self, to: Option<Desc>, piece: &[u8]) -> Result<bool, Memory>
        ensures is { IfOk result (λ done. done ≡ is_written (desc_at (index_of to) self.old.outside.descs)) }
        ensures new { OnOk result (self.new ≡ with_both self.old (write_to (index_of to) (desc_at (index_of to) self.old.outside.descs) piece.now (self.old.trace, self.old.outside))) }
        ensures err { OnErr result (self.new ≡ self.old) }
    {
        match self.description(to) {
            None => Ok(false),
            Some(Description::Reading { path: _, offset: _ }) => Ok(false),
            Some(Description::Given { text: _, offset: _ }) => Ok(false),
            Some(Description::Output) => {
                self.out.append(piece)?;
                Ok(true)
            }
            Some(Description::Errors) => {
                self.err.append(piece)?;
                Ok(true)
            }
            Some(Description::Buffer { text: _ }) => {
                self.write_on(to, piece)?;
                Ok(true)
            }
            Some(Description::Appending { path }) => {
                let path = Text::copy(self.alloc, path.bytes())?;
                self.append_file(path, piece)?;
                Ok(true)
            }
            Some(Description::Writing { path, offset }) => {
                let path = Text::copy(self.alloc, path.bytes())?;
                let offset = *offset;
                let later = forward(offset, piece.len())?;
                self.overwrite_file(path, offset, piece)?;
                self.move_to(to, later);
                Ok(true)
            }
        }
    }

    /// Writes these bytes, and says whether that can be done: it can't where there are any and nothing is open for
    /// writing. Then nothing changes, and neither does it where memory is missing.
    pub fn write(&mut self, to: Option<Desc>, bytes: &[u8]) -> Result<bool, Memory>
        ensures is { IfOk result (λ done. done ≡ takes_piece (index_of to) bytes.now self.old.outside.descs) }
        ensures new { OnOk result (self.new ≡ with_both self.old (written_at (index_of to) bytes.now (self.old.trace, self.old.outside))) }
        ensures err { OnErr result (self.new ≡ self.old) }
    {
        if bytes.is_empty() {
            return Ok(true);
        }
        self.write_piece(to, bytes)
    }

    /// Puts a call behind those that were made.
    fn record(
        &mut self,
        argv: &List<Text>,
        env: &List<(Text, Text)>,
        input: Option<Text>,
        row: Option<usize>,
    ) -> Result<(), Memory>
        ensures { OnOk result (self.new ≡ record self.old { trace = recorded argv.now env.now input row self.old.trace }) }
    {
        let call = Call {
            argv: copy_texts(self.alloc, argv)?,
            env: copy_pairs(self.alloc, env)?,
            input,
            row,
        };
        self.calls.push(call)
    }

    /// The input that a row takes.
    fn input_for(&self, rule: &RowInput, from: Option<Desc>) -> Result<Option<Text>, Memory>
        ensures { IfOk result (λ input. input ≡ taken_by rule.now (unread (desc_at (index_of from) self.now.outside.descs) self.now.outside)) }
    {
        match rule {
            RowInput::Nothing => Ok(None),
            RowInput::Any => Ok(Some(Text::copy(self.alloc, self.unread(from))?)),
            RowInput::Exactly(_) => Ok(Some(Text::copy(self.alloc, self.unread(from))?)),
        }
    }

    fn take_input(&mut self, rule: &RowInput, from: Option<Desc>) -> Result<(), Memory>
        ensures { OnOk result (self.new ≡ record self.old { outside = input_after_at rule.now (index_of from) self.old.outside }) }
    {
        match rule {
            RowInput::Nothing => Ok(()),
            RowInput::Any => self.drain(from),
            RowInput::Exactly(_) => self.drain(from),
        }
    }

    /// Writes an answer's output and then its errors, and gives its status.
    fn give(&mut self, answer: &Answer, fds: &Fds) -> Result<u8, Memory>
        ensures status { IfOk result (λ status. status ≡ answer.now.status) }
        ensures new { OnOk result (self.new ≡ after_call self.old (answered answer.now fds.now (self.old.trace, self.old.outside))) }
    {
        self.write(fds.get(1), answer.out.bytes())?;
        self.write(fds.get(2), answer.err.bytes())?;
        Ok(answer.status)
    }

    /// Records a call that this row answers, takes its input and gives its answer of this turn.
    fn answer_by(
        &mut self,
        k: usize,
        row: &Row,
        argv: &List<Text>,
        env: &List<(Text, Text)>,
        fds: &Fds,
    ) -> Result<u8, Memory>
        ensures status { IfOk result (λ status. status ≡ (row_call self.old k row.now argv.now env.now fds.now).status) }
        ensures new { OnOk result (self.new ≡ after_call self.old (row_call self.old k row.now argv.now env.now fds.now)) }
    {
        let turn = times(k, self.calls.as_slice());
        let input = self.input_for(&row.input, fds.get(0))?;
        self.record(argv, env, input, Some(k))?;
        self.take_input(&row.input, fds.get(0))?;
        match answer_at(turn, row.answers.as_slice()) {
            None => Ok(0),
            Some(answer) => self.give(answer, fds),
        }
    }

    /// Calls an external command with these arguments, the command's name first, in this environment, and gives its
    /// status. The first row of the table answers that fits the arguments and what is left of descriptor 0. Without
    /// one the status is 127, and nothing is taken or written.
    pub fn call(
        &mut self,
        argv: &List<Text>,
        env: &List<(Text, Text)>,
        fds: &Fds,
    ) -> Result<u8, Memory>
        ensures status { IfOk result (λ status. status ≡ (call_of self.old argv.now env.now fds.now).status) }
        ensures new { OnOk result (self.new ≡ after_call self.old (call_of self.old argv.now env.now fds.now)) }
    {
        match choose(self.rows, argv.as_slice(), self.unread(fds.get(0))) {
            None => {
                self.record(argv, env, None, None)?;
                Ok(127)
            }
            Some((k, row)) => self.answer_by(k, row, argv, env, fds),
        }
    }

    /// What the run did, which ended so and used so many turns. It takes no memory.
    pub fn finish(self, end: End, turns: u32) -> Report
        ensures { result ≡ report_of_run end turns self.entry }
    {
        let Outside {
            rows: _,
            calls,
            out,
            err,
            files,
            descs: _,
            alloc: _,
        } = self;
        let files = match end {
            End::Ended(_) => Some(files.into_list()),
            End::GoesOn => None,
            End::Unspecified => None,
        };
        Report {
            end,
            calls,
            out,
            err,
            files,
            turns,
        }
    }
}

impl<'w> Outside<'w> {
    /// The outside of a run that begins in this world, with its descriptors: standard input, output and error.
    pub fn start(alloc: Global, world: &'w World) -> Result<(Outside<'w>, Fds), Memory>
        ensures { IfOk result (λ r. (r.0 ≡ started world.now) × (r.1 ≡ start_fds)) }
    {
        let mut descs = Vec::new(alloc);
        descs.push(Description::Given {
            text: Text::copy(alloc, world.stdin.bytes())?,
            offset: 0,
        })?;
        descs.push(Description::Output)?;
        descs.push(Description::Errors)?;
        let outside = Outside {
            rows: world.rows.as_slice(),
            calls: List::new(alloc),
            out: Text::new(alloc),
            err: Text::new(alloc),
            files: copy_files(alloc, world.files.as_slice())?,
            descs,
            alloc,
        };
        Ok((outside, Fds::standard()))
    }
}
