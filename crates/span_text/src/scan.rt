//! Scanning: how many bytes at the front of a text are of one kind.

ghost use Rattle.std.specs.Prelude.{◌≡◌, take, drop};
ghost use Rattle.std.specs.List.{prefix_len, list_all};
ghost use Rattle.span_text.specs.Classes.{holds};
ghost use Rattle.span_text.specs.Scanning.{starts, is_blank, is_plain_byte, is_exact_byte, is_quoted_byte, is_comment_byte, ends_word};

use crate::name::{begins_name, continues_name};

/// A kind of bytes.
#[derive(Clone, Copy)]
pub enum Class {
    /// Spaces and tabs.
    Blank,
    /// Letters, digits and `_ . / : - + , @`, which stand for themselves in a word.
    Plain,
    /// What single quotes may hold on a line.
    Exact,
    /// What double quotes may hold on a line and stands for itself.
    Quoted,
    /// What a comment may hold.
    Comment,
    /// What a name begins with.
    NameFirst,
    /// What a name goes on with.
    NameRest,
}

#[tactic(auto, unfolding(crate::specs::Scanning::is_plain_byte))]
fn is_plain(b: u8) -> bool
    ensures { result ≡ is_plain_byte b }
{
    b == b'_'
        || b.is_ascii_alphabetic()
        || b.is_ascii_digit()
        || matches!(b, b'.' | b'/' | b':' | b'-' | b'+' | b',' | b'@')
}

#[tactic(auto, unfolding(crate::specs::Scanning::is_blank))]
fn is_blank(b: u8) -> bool
    ensures { result ≡ is_blank b }
{
    b == b' ' || b == b'\t'
}

#[tactic(auto, unfolding(crate::specs::Scanning::is_exact_byte))]
fn is_exact(b: u8) -> bool
    ensures { result ≡ is_exact_byte b }
{
    !(b == b'\'' || b == b'\n' || b == 0)
}

#[tactic(auto, unfolding(crate::specs::Scanning::is_quoted_byte))]
fn is_quoted(b: u8) -> bool
    ensures { result ≡ is_quoted_byte b }
{
    !(b == b'"' || b == b'$' || b == b'`' || b == b'\\' || b == b'\n' || b == 0)
}

#[tactic(auto, unfolding(crate::specs::Scanning::is_comment_byte))]
fn is_comment(b: u8) -> bool
    ensures { result ≡ is_comment_byte b }
{
    !(b == b'\n' || b == 0)
}

/// Whether a byte is of this kind.
pub fn is_in(class: Class, b: u8) -> bool
    ensures { result ≡ holds class b }
{
    match class {
        Class::Blank => is_blank(b),
        Class::Plain => is_plain(b),
        Class::Exact => is_exact(b),
        Class::Quoted => is_quoted(b),
        Class::Comment => is_comment(b),
        Class::NameFirst => begins_name(b),
        Class::NameRest => continues_name(b),
    }
}

/// How many bytes at the front are of this kind.
pub fn run_len(class: Class, bytes: &[u8]) -> usize
    ensures { result ≡ prefix_len (holds class) bytes.now }
{
    for (i, b) in bytes.iter().enumerate() {
        if !is_in(class, *b) {
            return i;
        }
    }
    bytes.len()
}

/// The longest front of bytes of this kind, and what follows it.
pub fn run(class: Class, bytes: &[u8]) -> (&[u8], &[u8])
    ensures text { result.0.now ≡ take (prefix_len (holds class) bytes.now) bytes.now }
    ensures rest { result.1.now ≡ drop (prefix_len (holds class) bytes.now) bytes.now }
{
    bytes.split_at(run_len(class, bytes))
}

/// Whether all bytes are of this kind.
pub fn all_in(class: Class, bytes: &[u8]) -> bool
    ensures { result ≡ list_all (holds class) bytes.now }
{
    bytes.iter().all(|b| is_in(class, *b))
}

/// Whether the first byte is of this kind; without bytes it isn't.
pub fn is_started(class: Class, bytes: &[u8]) -> bool
    ensures { result ≡ starts (holds class) bytes.now }
{
    match bytes {
        [] => false,
        [b, ..] => is_in(class, *b),
    }
}

/// Whether a word ends here: at a blank or at the end of the line.
pub fn is_word_end(bytes: &[u8]) -> bool
    ensures { result ≡ ends_word bytes.now }
{
    match bytes {
        [] => true,
        [b, ..] => is_blank(*b),
    }
}
