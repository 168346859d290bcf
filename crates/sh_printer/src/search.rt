//! Where the printed text goes: to a sink, or past a search for a line.

ghost use Rattle.std.specs.Prelude.{◌≡◌, ◌<◌, length, true, false};
ghost use Rattle.sh_printing.specs.Delimiters.{sight, next_sight, first_sight, has_found, is_whole, one_more, goes_on};
ghost use Rattle.sh_printer.specs.Search.{rest_of, sight_of, Passed, Put};

use span_text::{Failed, Sink, write_all};

/// Either the text is written, or nothing is and each line of it is compared with a name.
#[derive(Drop)]
pub struct Search<'a> {
    pub writes: bool,
    pub name: &'a [u8],
    /// Of the name, so many bytes stand on the line so far, where it is the same.
    pub at: usize,
    pub same: bool,
    /// An earlier line was the name.
    pub found: bool,
}

/// No search: the text is written.
pub fn writing() -> Search<'static>
    ensures { result.writes ≡ true }
{
    Search {
        writes: true,
        name: &[],
        at: 0,
        same: false,
        found: false,
    }
}

/// A search for a line that is this name.
pub fn seeking(name: &[u8]) -> Search<'_>
    ensures begins { sight_of result ≡ first_sight name.now }
    ensures name { result.name.now ≡ name.now }
    ensures seeks { result.writes ≡ false }
{
    Search {
        writes: false,
        name,
        at: 0,
        same: true,
        found: false,
    }
}

/// Whether a line of what has passed was the name.
pub fn has_found(search: &Search<'_>) -> bool
    ensures { result ≡ has_found (sight_of search.now) }
{
    search.found || is_whole(search)
}

fn is_whole(search: &Search<'_>) -> bool
    ensures { result ≡ is_whole (rest_of search.now) }
{
    if !search.same {
        return false;
    }
    let (_, rest) = search.name.split_at(search.at.min(search.name.len()));
    rest.is_empty()
}

/// Whether the byte is the next one of the name.
pub fn is_next(search: &Search<'_>, byte: u8) -> bool
    ensures within { result ≡ true → search.now.at < length search.now.name.now }
    ensures is { result ≡ goes_on byte (rest_of search.now) }
{
    if !search.same || search.at >= search.name.len() {
        return false;
    }
    let (_, rest) = search.name.split_at(search.at);
    match rest {
        [] => false,
        [first, ..] => *first == byte,
    }
}

fn pass_byte(search: &mut Search<'_>, byte: u8)
    ensures sees { sight_of search.new ≡ next_sight search.old.name.now (sight_of search.old) byte }
    ensures name { search.new.name ≡ search.old.name }
    ensures writes { search.new.writes ≡ search.old.writes }
{
    if byte == b'\n' {
        search.found = has_found(search);
        search.same = true;
        search.at = 0;
    } else if is_next(search, byte) {
        search.at += 1;
    } else {
        search.same = false;
    }
}

fn pass(search: &mut Search<'_>, bytes: &[u8])
    ensures { Passed search.old search.new bytes.now }
{
    for byte in bytes {
        pass_byte(search, *byte);
    }
}

/// Writes the bytes, or compares them.
pub fn put<K: Sink>(bytes: &[u8], search: &mut Search<'_>, out: &mut K) -> Result<(), Failed>
    ensures { Put K.held K.faults search.old search.new out.old out.new result bytes.now }
{
    if search.writes {
        return write_all(out, bytes);
    }
    pass(search, bytes);
    Ok(())
}
