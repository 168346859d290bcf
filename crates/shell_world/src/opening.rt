//! Files, texts and buffers are opened, and looked at.

ghost use Rattle.std.specs.Prelude.{◌≡◌, length, Some, IfOk, OnOk, OnErr};
ghost use Rattle.shell_world.specs.Outside.{desc_at, file_bytes};
ghost use Rattle.shell_world.specs.Paths.{path_of, found_at, names_of};
ghost use Rattle.shell_world.specs.Opening.{IsOpened, IsOpenedAs, with_desc, with_first, read_opened, write_opened, written_path, text_opened, buffer_opened, kept, writer, buffer_text, taken_at};
ghost use Rattle.shell_world.specs.Running.{index_of, with_file};
ghost use Rattle.shell_world.specs.declared.opening.OpenFault.TheVariants as fault;

use crate::description::{Desc, Description};
use crate::names::{found_in, is_folder, is_under_file, names_of};
use crate::outside::Outside;
use crate::paths::{names_path, path_text};
use span_text::{List, Memory, Text};
use thiserror::Error;

// Why nothing is opened. The causes are tried in the order in which they stand here, and memory comes between them.
#[derive(Clone, Copy, Debug, PartialEq, Eq, Error)]
pub enum OpenFault {
    #[error("out of memory")]
    Memory,
    // The text names no path.
    #[error("no path")]
    NoPath,
    // The path is a folder of some path.
    #[error("is a folder")]
    IsFolder,
    // To be read: no file is there.
    #[error("no such file")]
    NoFile,
    // To be written: a folder of the path is a file.
    #[error("a folder of the path is a file")]
    UnderFile,
}

impl From<Memory> for OpenFault {
    ghost from_gives = { λ _ e. e ≡ fault.Memory };

    fn from(_: Memory) -> OpenFault {
        OpenFault::Memory
    }
}

/// What a text names.
#[derive(Clone, Copy, Debug, PartialEq, Eq)]
pub enum Found {
    /// No path, or one at which nothing is.
    Nothing,
    Folder,
    /// A file of so many bytes.
    File(u64),
}

fn kept(append: bool, bytes: &[u8]) -> &[u8]
    ensures { result.now ≡ kept append bytes.now }
{
    if append { bytes } else { &[] }
}

fn writer(append: bool, path: Text) -> Description
    ensures { result ≡ writer append path }
{
    if append {
        Description::Appending { path }
    } else {
        Description::Writing { path, offset: 0 }
    }
}

impl<'w> Outside<'w> {
    /// Gives the next number to what is opened.
    fn open(&mut self, description: Description) -> Result<Desc, Memory>
        ensures number { IfOk result (λ desc. desc.0 ≡ length self.old.outside.descs) }
        ensures new { OnOk result (self.new ≡ record self.old { outside = with_desc description self.old.outside }) }
        ensures err { OnErr result (self.new ≡ self.old) }
    {
        let number = self.descs.len();
        self.descs.push(description)?;
        Ok(Desc::of_index(number))
    }

    /// What the text names (POSIX XBD 4.13). `Nothing` comes where it names no path, or where the path is neither a
    /// file's nor a folder's. It takes no memory.
    pub fn look(&self, path: &[u8]) -> Found
        ensures { result ≡ found_at (path_of path.now) self.now.outside.files }
    {
        if !names_path(path) {
            return Found::Nothing;
        }
        found_in(path, &self.files)
    }

    /// The paths of the files, and their folders, each once, in the order of their bytes.
    pub fn names(&self) -> Result<List<Text>, Memory>
        ensures { IfOk result (λ names. names ≡ names_of self.now.outside.files) }
    {
        names_of(self.alloc, &self.files)
    }

    /// Opens the file that the text names, to be read from its start (POSIX XCU 2.7.1). It is refused with `NoPath`
    /// where the text names no path, with `IsFolder` where the path is a folder, and with `NoFile` where nothing is
    /// there. Then nothing changes, and neither
    /// does it where memory is missing.
    pub fn open_read(&mut self, path: &[u8]) -> Result<Desc, OpenFault>
        ensures { IsOpened (read_opened path.now self.old.outside) result self.old self.new }
    {
        if !names_path(path) {
            return Err(OpenFault::NoPath);
        }
        match found_in(path, &self.files) {
            Found::Nothing => Err(OpenFault::NoFile),
            Found::Folder => Err(OpenFault::IsFolder),
            Found::File(_) => {
                let path = path_text(self.alloc, path)?;
                Ok(self.open(Description::Reading { path, offset: 0 })?)
            }
        }
    }

    /// Makes a file, or empties it, or leaves it as it is where it is to be appended to.
    fn make_file(&mut self, append: bool, path: Text) -> Result<(), Memory>
        ensures ok { OnOk result (self.new ≡ with_file self.old path (kept append (file_bytes path self.old.outside))) }
        ensures err { OnErr result (self.new ≡ self.old) }
    {
        let text = Text::copy(self.alloc, kept(append, self.file_bytes(path.bytes())))?;
        self.files.insert(path, text)
    }

    /// Takes back the descriptions behind so many.
    fn keep_first(&mut self, count: usize)
        ensures { self.new ≡ record self.old { outside = with_first count self.old.outside } }
    {
        self.descs.truncate(count);
    }

    /// The description comes first, since it can be taken back where the file can't be made.
    fn open_path(&mut self, append: bool, path: Text) -> Result<Desc, Memory>
        ensures ok { IfOk result (λ desc. IsOpenedAs (written_path append path self.old.outside) desc self.old self.new) }
        ensures err { OnErr result (self.new ≡ self.old) }
    {
        let named = Text::copy(self.alloc, path.bytes())?;
        let count = self.descs.len();
        let desc = self.open(writer(append, path))?;
        match self.make_file(append, named) {
            Ok(()) => Ok(desc),
            Err(memory) => {
                self.keep_first(count);
                Err(memory)
            }
        }
    }

    /// Opens the file that the text names, to be written from its start, or with `append` at its end (POSIX XCU 2.7.2,
    /// 2.7.3). The file is made where it isn't there, and emptied without `append`. It is refused with `NoPath` where
    /// the text names no path, with `IsFolder` where the path is a folder, and with `UnderFile` where a folder of the
    /// path is a file. Then nothing changes.
    pub fn open_write(&mut self, path: &[u8], append: bool) -> Result<Desc, OpenFault>
        ensures { IsOpened (write_opened append path.now self.old.outside) result self.old self.new }
    {
        if !names_path(path) {
            return Err(OpenFault::NoPath);
        }
        if is_folder(path, &self.files) {
            return Err(OpenFault::IsFolder);
        }
        let path = path_text(self.alloc, path)?;
        if is_under_file(path.bytes(), &self.files) {
            return Err(OpenFault::UnderFile);
        }
        Ok(self.open_path(append, path)?)
    }

    /// Opens a text to be read: a here-document (POSIX XCU 2.7.4).
    pub fn open_text(&mut self, text: Text) -> Result<Desc, Memory>
        ensures ok { IfOk result (λ desc. IsOpenedAs (text_opened text self.old.outside) desc self.old self.new) }
        ensures err { OnErr result (self.new ≡ self.old) }
    {
        self.open(Description::Given { text, offset: 0 })
    }

    /// Opens a buffer to be written, without bytes: what a command substitution takes (POSIX XCU 2.6.3).
    pub fn open_buffer(&mut self) -> Result<Desc, Memory>
        ensures ok { IfOk result (λ desc. IsOpenedAs (buffer_opened self.old.outside) desc self.old self.new) }
        ensures err { OnErr result (self.new ≡ self.old) }
    {
        self.open(Description::Buffer {
            text: Text::new(self.alloc),
        })
    }

    /// Takes the text of a buffer, which is empty then. Of another description it gives the empty text, and changes
    /// nothing. It takes no memory.
    pub fn take_buffer(&mut self, buffer: Desc) -> Text
        ensures text { result ≡ buffer_text (desc_at (index_of (Some buffer)) self.old.outside.descs) }
        ensures new { self.new ≡ record self.old { outside = taken_at (index_of (Some buffer)) self.old.outside } }
    {
        let alloc = self.alloc;
        match self.descs.get_mut(buffer.index()) {
            None => Text::new(alloc),
            Some(description) => description.take_text(alloc),
        }
    }
}
