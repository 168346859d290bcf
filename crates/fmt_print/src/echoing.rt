//! What the built-in `echo` prints.

ghost use Rattle.std.specs.Prelude.{◌≡◌, ◌+◌, ◌≤◌, ◌<◌, ◌++◌, length, drop, IfOk};
ghost use Rattle.std.specs.List.{list_all};
ghost use Rattle.fmt_print.specs.Echoing as echoing;

use crate::Printed;
use crate::escapes::{Dialect, expand};
use crate::fault::EchoFault;
use span_text::{List, Memory, Text};
use std::alloc::Global;

/// Whether a newline ends the output, and whether escapes are read.
#[derive(Clone, Copy, Debug, PartialEq, Eq)]
struct Options {
    newline: bool,
    escapes: bool,
}

fn is_letter(byte: u8) -> bool
    ensures { result ≡ echoing.is_letter byte }
{
    byte == b'n' || byte == b'e' || byte == b'E'
}

fn all_letters(bytes: &[u8]) -> bool
    ensures { result ≡ list_all echoing.is_letter bytes.now }
{
    bytes.iter().all(|byte| is_letter(*byte))
}

fn are_letters(bytes: &[u8]) -> bool
    ensures { result ≡ echoing.are_letters bytes.now }
{
    match bytes {
        [] => false,
        _ => all_letters(bytes),
    }
}

/// `-` and one or more of `n`, `e` and `E`.
fn is_option(word: &[u8]) -> bool
    ensures { result ≡ echoing.is_option word.now }
{
    match word {
        [b'-', letters @ ..] => are_letters(letters),
        _ => false,
    }
}

fn with_letter(mut options: Options, byte: u8) -> Options
    ensures { result ≡ echoing.with_letter options byte }
{
    if byte == b'n' {
        options.newline = false;
    } else {
        options.escapes = byte == b'e';
    }
    options
}

fn with_word(options: Options, word: &[u8]) -> Options
    requires { 0 < length word.now }
    ensures { result ≡ echoing.with_word options word.now }
{
    let mut read = options;
    for byte in &word[1..] {
        read = with_letter(read, *byte);
    }
    read
}

/// The options of the leading words, and how many these are.
fn options_of(words: &[Text]) -> (Options, usize)
    ensures options { result.0 ≡ (echoing.options_of echoing.no_options words.now).0 }
    ensures count { result.1 ≡ (echoing.options_of echoing.no_options words.now).1 }
    ensures bound { result.1 ≤ length words.now }
{
    let mut options = Options {
        newline: true,
        escapes: false,
    };
    for (k, word) in words.iter().enumerate() {
        if !is_option(word.bytes()) {
            return (options, k);
        }
        options = with_word(options, word.bytes());
    }
    (options, words.len())
}

/// What a word prints, or None where it has an escape that has no meaning here.
fn word_shows(alloc: Global, escapes: bool, word: &[u8]) -> Result<Option<Printed>, Memory>
    ensures { IfOk result (λ shown. shown ≡ echoing.word_shows escapes word.now) }
{
    if escapes {
        return expand(alloc, Dialect::Echo, word);
    }
    let text = Text::copy(alloc, word)?;
    Ok(Some(Printed { text, cut: false }))
}

/// Prints the word of this index behind the text, and a space before the next word. Tells whether a `\c` has
/// ended the output.
fn print_word(
    alloc: Global,
    escapes: bool,
    words: &[Text],
    k: usize,
    text: &mut Text,
) -> Result<bool, EchoFault>
    requires { k < length words.now }
    ensures { echoing.Shows escapes words.now k result text.old text.new }
{
    let Some(shown) = word_shows(alloc, escapes, words[k].bytes())? else {
        return Err(EchoFault::Unsupported(k));
    };
    text.append(shown.text.bytes())?;
    if !shown.cut && k + 1 < words.len() {
        text.append(b" ")?;
    }
    Ok(shown.cut)
}

/// Prints the words from this index on, with spaces between them.
fn print_words(
    alloc: Global,
    options: Options,
    words: &[Text],
    from: usize,
) -> Result<Text, EchoFault>
    requires { from ≤ length words.now }
    ensures { echoing.EchoAnswers result
        (echoing.echoes options.escapes (echoing.end_of options) from (drop from words.now)) }
{
    let mut text = Text::new(alloc);
    for k in from..words.len() {
        let cut = print_word(alloc, options.escapes, words, k, &mut text)?;
        if cut {
            return Ok(text);
        }
    }
    if options.newline {
        text.append(b"\n")?;
    }
    Ok(text)
}

/// What the built-in `echo` prints of these words (the manual's "Bash Builtin Commands"). Leading words of `-` and
/// one or more of `n`, `e` and `E` are options: `n` leaves the newline out, and the last of `e` and `E` decides
/// whether escapes are read. A `\c` ends all output, and nothing behind it is looked at.
///
/// `Unsupported` comes with the index of the first argument that has `\u`, `\U`, `\1` to `\7`, a `\x` without a
/// digit, or a `\0` above 377.
pub fn echo_text(alloc: Global, args: &List<Text>) -> Result<Text, EchoFault>
    ensures { echoing.EchoAnswers result (echoing.echoed args.now) }
{
    let (options, count) = options_of(args.as_slice());
    print_words(alloc, options, args.as_slice(), count)
}
