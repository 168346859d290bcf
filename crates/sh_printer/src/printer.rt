//! A script as text: one complete command a line.

ghost use Rattle.std.specs.Prelude.{◌≡◌, ◌<◌, ◌≤◌, ◌+◌, ◌-◌, ◌^◌, ◌∷◌, length, max, min, IfOk, IsOk, [], map, true, false, Bool};
ghost use Rattle.std.specs.Fmt.{decimal};
ghost use Rattle.span_text.specs.Streams.{Wrote};
ghost use Rattle.sh_grammar.specs.Spelling.{Reads};
ghost use Rattle.sh_printer.specs.Covers.{Covers, CoversLines, ends_line};
ghost use Rattle.sh_printing.specs.Delimiters.{delimiter, free_from, numbered, has_line, tries};
ghost use Rattle.sh_printer.specs.Owed.{body_text};
ghost use Rattle.sh_printer.specs.Pieces.{Apart, delimiter_of, here_text, here_start, here_end, inner_text, owed_of, piece_text, piece_weight};
ghost use Rattle.sh_printing.specs.Printable.{script_printable};
ghost use Rattle.sh_printing.specs.Printing.{printed};
ghost use Rattle.sh_printer.specs.Search.{Put};
ghost use Rattle.sh_syntax.specs.View.{view, view_part, view_redirect, parts_of};
ghost use Rattle.sh_printer.specs.Weights.{parts_weight};

use crate::commands::command_apart;
use crate::context::Context;
use crate::leaves::print_leaf;
use crate::marks::{End, is_here};
use crate::names::{NAME_SIZE, numbered};
use crate::pieces::{CommandPiece, Node, Piece, Split, WordPiece};
use crate::search::{Search, has_found, is_next, put, seeking, writing};
use crate::sums::sum_apart;
use crate::words::word_apart;
use itoa::Buffer;
use sh_syntax::{Part, Redirect, Script};
use span_text::{Failed, Sink};

/// The pieces of a node.
fn apart(node: Node<'_>) -> Split<'_>
    ensures { Apart node.entry result }
{
    match node {
        Node::Word(piece) => word_apart(piece),
        Node::Command(piece) => command_apart(piece),
        Node::Sum(piece, operands) => sum_apart(piece, operands),
    }
}

/// Prints a piece, or lets it pass a search. Of a node the last piece is printed by the same call, so that a long list
/// needs no deep stack.
#[cycle(print)]
fn print_piece<K: Sink>(
    piece: Piece<'_>,
    search: &mut Search<'_>,
    out: &mut K,
) -> Result<(), Failed>
    ensures { Put K.held K.faults search.old search.new out.old out.new result (piece_text search.old.writes piece.entry) }
{
    let mut now = piece;
    'pieces: loop {
        match now {
            Piece::Leaf(leaf) => return print_leaf(leaf, search, out),
            Piece::Here(body, quoted) => return print_here(body, quoted, search, out),
            Piece::Line(owed) => return print_line(owed, search, out),
            Piece::Node(node) => {
                let split = apart(node);
                print_piece(split.first, search, out)?;
                print_piece(split.second, search, out)?;
                now = split.rest;
            }
        }
    }
}

/// A body as a piece.
fn inside(body: &[Part]) -> Piece<'_>
    ensures text { (full : Bool) → piece_text full result ≡ inner_text full body.now }
    ensures weight { piece_weight result ≡ parts_weight (parts_of (map view_part body.now)) + 1 }
{
    Piece::Node(Node::Word(WordPiece::Parts(body, Context::Body, &[])))
}

/// `<<E`, or `<<'E'`
#[cycle(print)]
fn print_here<K: Sink>(
    body: &[Part],
    quoted: bool,
    search: &mut Search<'_>,
    out: &mut K,
) -> Result<(), Failed>
    ensures { Put K.held K.faults search.old search.new out.old out.new result (here_text quoted (delimiter_of search.old.writes (parts_of (map view_part body.now)))) }
{
    put(here_start(quoted), search, out)?;
    print_delimiter(body, search, out)?;
    put(here_end(quoted), search, out)
}

fn here_start(quoted: bool) -> &'static [u8]
    ensures { result.now ≡ here_start quoted }
{
    if quoted { b"<<'" } else { b"<<" }
}

fn here_end(quoted: bool) -> &'static [u8]
    ensures { result.now ≡ here_end quoted }
{
    if quoted { b"'" } else { b"" }
}

/// A newline, and the bodies that are still to come.
#[cycle(print)]
fn print_line<K: Sink>(
    owed: &[Redirect],
    search: &mut Search<'_>,
    out: &mut K,
) -> Result<(), Failed>
    ensures { Put K.held K.faults search.old search.new out.old out.new result (10 ∷ owed_of search.old.writes owed.now) }
{
    put(b"\n", search, out)?;
    for redirect in owed {
        print_body(redirect, search, out)?;
    }
    Ok(())
}

/// The body that a redirection has, and the line of its delimiter.
#[cycle(print)]
fn print_body<K: Sink>(
    redirect: &Redirect,
    search: &mut Search<'_>,
    out: &mut K,
) -> Result<(), Failed>
    ensures { Put K.held K.faults search.old search.new out.old out.new result (body_text search.old.writes (view_redirect redirect.now)) }
{
    if !is_here(redirect.op) {
        return Ok(());
    }
    let body = redirect.word.parts.as_slice();
    print_piece(inside(body), search, out)?;
    print_delimiter(body, search, out)?;
    put(b"\n", search, out)
}

/// The delimiter of this body; past a search a blank, since the search is for a line that can't be the delimiter.
#[cycle(print)]
fn print_delimiter<K: Sink>(
    body: &[Part],
    search: &mut Search<'_>,
    out: &mut K,
) -> Result<(), Failed>
    ensures { Put K.held K.faults search.old search.new out.old out.new result (delimiter_of search.old.writes (parts_of (map view_part body.now))) }
{
    if !search.writes {
        return put(b" ", search, out);
    }
    let number = free_number(body, out)?;
    put_numbered(number, search, out)
}

/// The name of this number.
fn put_numbered<K: Sink>(number: u64, search: &mut Search<'_>, out: &mut K) -> Result<(), Failed>
    ensures { Put K.held K.faults search.old search.new out.old out.new result (numbered number) }
{
    put(b"E", search, out)?;
    put_decimal(number, search, out)
}

fn put_decimal<K: Sink>(number: u64, search: &mut Search<'_>, out: &mut K) -> Result<(), Failed>
    ensures { Put K.held K.faults search.old search.new out.old out.new result (decimal number) }
{
    put(Buffer::new().format(number).as_bytes(), search, out)
}

/// The least number whose delimiter is no line of the body. The bodies inside are gone over first, each once, so the time
/// grows with the depth of nesting and not with a power of it.
#[cycle(print)]
fn free_number<K: Sink>(body: &[Part], out: &mut K) -> Result<u64, Failed>
    ensures number { IfOk result (λ n. delimiter (inner_text true body.now) ≡ numbered n) }
    ensures ok { IsOk result }
    ensures out { out.new ≡ out.old }
{
    let least = gather(inside(body), 0, out)?;
    first_free(least, body, out)
}

/// The greatest of this number and the number behind the delimiter of the body that a redirection has. A body without a
/// newline at its end has no line that is its delimiter.
#[cycle(print)]
fn number_behind<K: Sink>(redirect: &Redirect, from: u64, out: &mut K) -> Result<u64, Failed>
    ensures lines { IfOk result (λ g. CoversLines (body_text true (view_redirect redirect.now)) (body_text false (view_redirect redirect.now)) from g) }
    ensures ok { IsOk result }
    ensures out { out.new ≡ out.old }
{
    if !is_here(redirect.op) {
        return Ok(from);
    }
    let body = redirect.word.parts.as_slice();
    let least = gather(inside(body), 0, out)?;
    if !ends_line(body, out)? {
        return Ok(from.max(least));
    }
    let number = first_free(least, body, out)?;
    Ok(greatest_behind(from, number))
}

/// The greatest of this number and the one behind another. Behind the last number there is none.
fn greatest_behind(from: u64, number: u64) -> u64
    ensures { result ≡ max from (min (number + 1) (2 ^ 64 - 1)) }
{
    from.max(number.saturating_add(1))
}

/// The greatest of this number and those behind the delimiters of the bodies that stand in a piece.
#[cycle(print)]
fn gather<K: Sink>(piece: Piece<'_>, from: u64, out: &mut K) -> Result<u64, Failed>
    ensures covers { IfOk result (λ g. Covers (piece_text true piece.entry) (piece_text false piece.entry) from g) }
    ensures ok { IsOk result }
    ensures out { out.new ≡ out.old }
{
    let mut now = piece;
    let mut least = from;
    'pieces: loop {
        match now {
            Piece::Leaf(_) => return Ok(least),
            Piece::Here(_, _) => return Ok(least),
            Piece::Line(owed) => return gather_line(owed, least, out),
            Piece::Node(node) => {
                let split = apart(node);
                least = gather(split.first, least, out)?;
                least = gather(split.second, least, out)?;
                now = split.rest;
            }
        }
    }
}

/// The greatest of this number and those behind the delimiters of these bodies.
#[cycle(print)]
fn gather_line<K: Sink>(owed: &[Redirect], from: u64, out: &mut K) -> Result<u64, Failed>
    ensures lines { IfOk result (λ g. CoversLines (owed_of true owed.now) (owed_of false owed.now) from g) }
    ensures ok { IsOk result }
    ensures out { out.new ≡ out.old }
{
    let mut least = from;
    for redirect in owed {
        least = number_behind(redirect, least, out)?;
    }
    Ok(least)
}

/// Whether the body is empty or ends with a newline.
#[cycle(print)]
fn ends_line<K: Sink>(body: &[Part], out: &mut K) -> Result<bool, Failed>
    ensures line { IfOk result (λ ends. ends ≡ ends_line (inner_text false body.now)) }
    ensures ok { IsOk result }
    ensures out { out.new ≡ out.old }
{
    let mut search = seeking(b"E");
    print_piece(inside(body), &mut search, out)?;
    Ok(is_next(&search, b'E'))
}

/// The least number from this one on whose delimiter is no line of the body.
#[cycle(print)]
fn first_free<K: Sink>(from: u64, body: &[Part], out: &mut K) -> Result<u64, Failed>
    ensures number { from ≤ tries → IfOk result (λ n. n ≡ free_from (tries - from) from (inner_text false body.now)) }
    ensures ok { IsOk result }
    ensures out { out.new ≡ out.old }
{
    for number in from..u64::MAX {
        if !has_line(number, body, out)? {
            return Ok(number);
        }
    }
    Ok(u64::MAX)
}

/// Whether a line of the body is the delimiter of this number.
#[cycle(print)]
fn has_line<K: Sink>(number: u64, body: &[Part], out: &mut K) -> Result<bool, Failed>
    ensures line { IfOk result (λ found. found ≡ has_line (numbered number) (inner_text false body.now)) }
    ensures ok { IsOk result }
    ensures out { out.new ≡ out.old }
{
    let mut buffer = [b'E'; NAME_SIZE];
    let mut search = seeking(numbered(number, &mut buffer));
    print_piece(inside(body), &mut search, out)?;
    Ok(has_found(&search))
}

/// Writes the script as text, one complete command a line (POSIX 2.10). It allocates nothing. After a failure the sink
/// has taken a front of the text that isn't all.
pub fn print<K: Sink>(script: &Script, out: &mut K) -> Result<(), Failed>
    ensures wrote { Wrote (K.held out.old) (K.held out.new) (K.faults out.old) (K.faults out.new) result (printed (view script.now)) }
    // The text of a script that can be printed spells it, whatever its texts hold.
    ensures reads_back { script_printable (view script.now) ≡ true → length (printed (view script.now)) < 2 ^ 32 → Reads (printed (view script.now)) (view script.now) }
{
    let mut search = writing();
    let items = script.items.as_slice();
    let piece = Piece::Node(Node::Command(CommandPiece::Chains(items, End::Line)));
    print_piece(piece, &mut search, out)
}
