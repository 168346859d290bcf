//! What is written of words and redirections and holds no other node.

ghost use Rattle.std.specs.Prelude.{◌≡◌, not, ◌++◌, ◌∷◌, [], codes};
ghost use Rattle.std.specs.Fmt.{signed_decimal};
ghost use Rattle.sh_grammar.specs.Bytes.{has_single};
ghost use Rattle.sh_printer.specs.Codes.{view_context};
ghost use Rattle.sh_printing.specs.Marks.{is_quote, exact_by, exact_text, digits_text, param_name, named_text, param_text, colon_text, test_text, led, fd_text};
ghost use Rattle.sh_printer.specs.Pieces.{leaf_text};
ghost use Rattle.sh_printer.specs.Search.{Put};
ghost use Rattle.sh_syntax.specs.View.{view_param, view_test};

use crate::context::{Context, has_single};
use crate::marks::test_mark;
use crate::pieces::Leaf;
use crate::search::{Search, put};
use itoa::Buffer;
use sh_syntax::{FillTest, Param};
use span_text::{Failed, Sink};

pub fn is_quote(text: &[u8]) -> bool
    ensures { result ≡ is_quote text.now }
{
    match text {
        [byte] => *byte == b'\'',
        [] => false,
        [_, _, ..] => false,
    }
}

/// Whether single quotes stand round the text there.
fn is_quoted(text: &[u8], context: Context) -> bool
    ensures { exact_text (has_single (view_context context)) text.now ≡ exact_by result text.now }
{
    has_single(context) && !is_quote(text)
}

#[tactic(auto, using(crate::proofs::Puts::put_then, crate::proofs::Puts::put_early))]
fn print_quoted<K: Sink>(text: &[u8], search: &mut Search<'_>, out: &mut K) -> Result<(), Failed>
    ensures { Put K.held K.faults search.old search.new out.old out.new result (39 ∷ text.now ++ 39 ∷ []) }
{
    put(b"'", search, out)?;
    put(text, search, out)?;
    put(b"'", search, out)
}

#[tactic(auto, using(crate::proofs::Puts::put_then, crate::proofs::Puts::put_early))]
fn print_escaped<K: Sink>(text: &[u8], search: &mut Search<'_>, out: &mut K) -> Result<(), Failed>
    ensures { Put K.held K.faults search.old search.new out.old out.new result (92 ∷ text.now) }
{
    put(b"\\", search, out)?;
    put(text, search, out)
}

/// `'ab'`, or with a backslash where such quotes are none or the text is one quote.
fn print_exact<K: Sink>(
    text: &[u8],
    context: Context,
    search: &mut Search<'_>,
    out: &mut K,
) -> Result<(), Failed>
    ensures { Put K.held K.faults search.old search.new out.old out.new result (exact_text (has_single (view_context context)) text.now) }
{
    if is_quoted(text, context) {
        return print_quoted(text, search, out);
    }
    print_escaped(text, search, out)
}

#[tactic(auto, using(crate::proofs::Puts::put_then, crate::proofs::Puts::put_early))]
fn print_braced<K: Sink>(text: &[u8], search: &mut Search<'_>, out: &mut K) -> Result<(), Failed>
    ensures { Put K.held K.faults search.old search.new out.old out.new result (codes "${" ++ text.now ++ codes "}") }
{
    put(b"${", search, out)?;
    put(text, search, out)?;
    put(b"}", search, out)
}

#[tactic(auto, using(crate::proofs::Puts::put_then, crate::proofs::Puts::put_early))]
fn print_bare<K: Sink>(text: &[u8], search: &mut Search<'_>, out: &mut K) -> Result<(), Failed>
    ensures { Put K.held K.faults search.old search.new out.old out.new result (36 ∷ text.now) }
{
    put(b"$", search, out)?;
    put(text, search, out)
}

/// `$a`, or `${a}`.
fn print_named<K: Sink>(
    text: &[u8],
    braces: bool,
    search: &mut Search<'_>,
    out: &mut K,
) -> Result<(), Failed>
    ensures { Put K.held K.faults search.old search.new out.old out.new result (named_text braces text.now) }
{
    if braces {
        return print_braced(text, search, out);
    }
    print_bare(text, search, out)
}

fn param_name(param: &Param) -> &[u8]
    ensures { result.now ≡ param_name (view_param param.now) }
{
    match param {
        Param::Name(name) => name.text.bytes(),
        Param::Digits(text) => text.bytes(),
        Param::Count => b"#",
        Param::Status => b"?",
        Param::At => b"@",
        Param::Star => b"*",
    }
}

/// Whether the text is one byte.
fn is_digit(text: &[u8]) -> bool
    ensures { digits_text text.now ≡ named_text (not result) text.now }
{
    match text {
        [_] => true,
        [] => false,
        [_, _, ..] => false,
    }
}

/// Whether the parameter stands in braces, where more of a name follows or not.
fn is_braced(param: &Param, more: bool) -> bool
    ensures { named_text result (param_name (view_param param.now)) ≡ param_text more (view_param param.now) }
{
    match param {
        Param::Name(_) => more,
        Param::Digits(text) => !is_digit(text.bytes()),
        Param::Count => false,
        Param::Status => false,
        Param::At => false,
        Param::Star => false,
    }
}

#[tactic(auto, using(crate::proofs::Puts::put_then, crate::proofs::Puts::put_early))]
fn print_length<K: Sink>(param: &Param, search: &mut Search<'_>, out: &mut K) -> Result<(), Failed>
    ensures { Put K.held K.faults search.old search.new out.old out.new result (codes "${#" ++ param_name (view_param param.now) ++ 125 ∷ []) }
{
    put(b"${#", search, out)?;
    put(param_name(param), search, out)?;
    put(b"}", search, out)
}

fn colon_mark(colon: bool) -> &'static [u8]
    ensures { result.now ≡ colon_text colon }
{
    if colon { b":" } else { b"" }
}

/// `${a-`, `${a:-`.
#[tactic(auto, using(crate::proofs::Puts::put_then, crate::proofs::Puts::put_early))]
fn print_filling<K: Sink>(
    param: &Param,
    test: FillTest,
    colon: bool,
    search: &mut Search<'_>,
    out: &mut K,
) -> Result<(), Failed>
    ensures { Put K.held K.faults search.old search.new out.old out.new result (codes "${" ++ param_name (view_param param.now) ++ colon_text colon ++ test_text (view_test test)) }
{
    put(b"${", search, out)?;
    put(param_name(param), search, out)?;
    put(colon_mark(colon), search, out)?;
    put(test_mark(test), search, out)
}

/// `${a#`, `${a%%`.
#[tactic(auto, using(crate::proofs::Puts::put_then, crate::proofs::Puts::put_early))]
fn print_trimming<K: Sink>(
    param: &Param,
    mark: &[u8],
    search: &mut Search<'_>,
    out: &mut K,
) -> Result<(), Failed>
    ensures { Put K.held K.faults search.old search.new out.old out.new result (codes "${" ++ param_name (view_param param.now) ++ mark.now) }
{
    put(b"${", search, out)?;
    put(param_name(param), search, out)?;
    put(mark, search, out)
}

pub fn lead(behind: bool) -> &'static [u8]
    ensures { result.now ≡ led behind [] }
{
    if behind { b" " } else { b"" }
}

fn print_fd<K: Sink>(fd: Option<u8>, search: &mut Search<'_>, out: &mut K) -> Result<(), Failed>
    ensures { Put K.held K.faults search.old search.new out.old out.new result (fd_text fd) }
{
    match fd {
        None => put(b"", search, out),
        Some(digit) => put(Buffer::new().format(digit).as_bytes(), search, out),
    }
}

fn print_constant<K: Sink>(n: i64, search: &mut Search<'_>, out: &mut K) -> Result<(), Failed>
    ensures { Put K.held K.faults search.old search.new out.old out.new result (signed_decimal n) }
{
    put(Buffer::new().format(n).as_bytes(), search, out)
}

/// An operator between blanks.
#[tactic(auto, using(crate::proofs::Puts::put_then, crate::proofs::Puts::put_early))]
fn print_operator<K: Sink>(mark: &[u8], search: &mut Search<'_>, out: &mut K) -> Result<(), Failed>
    ensures { Put K.held K.faults search.old search.new out.old out.new result (32 ∷ mark.now ++ 32 ∷ []) }
{
    put(b" ", search, out)?;
    put(mark, search, out)?;
    put(b" ", search, out)
}

/// What holds no other piece.
pub fn print_leaf<K: Sink>(
    leaf: Leaf<'_>,
    search: &mut Search<'_>,
    out: &mut K,
) -> Result<(), Failed>
    ensures { Put K.held K.faults search.old search.new out.old out.new result (leaf_text leaf.entry) }
{
    match leaf {
        Leaf::Bytes(bytes) => put(bytes, search, out),
        Leaf::Exact(text, context) => print_exact(text, context, search, out),
        Leaf::Named(param, more) => {
            print_named(param_name(param), is_braced(param, more), search, out)
        }
        Leaf::Length(param) => print_length(param, search, out),
        Leaf::Filling(param, test, colon) => print_filling(param, test, colon, search, out),
        Leaf::Trimming(param, mark) => print_trimming(param, mark, search, out),
        Leaf::Fd(fd) => print_fd(fd, search, out),
        Leaf::Constant(n) => print_constant(n, search, out),
        Leaf::Operator(mark) => print_operator(mark, search, out),
    }
}
