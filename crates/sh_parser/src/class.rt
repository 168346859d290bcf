//! Kinds of bytes (POSIX 2.2, 2.3, 2.6).

ghost use Rattle.std.specs.Prelude.{◌≡◌};
ghost use Rattle.span_text.specs.Names as names;
ghost use Rattle.sh_grammar.specs.Bytes as bytes_of;
ghost use Rattle.sh_parser.specs.Kinds.{context};

/// Where parts of words stand: each place has special bytes of its own.
#[derive(Clone, Copy, Debug, PartialEq)]
pub enum Context {
    /// A word of a command.
    Word,
    /// Between double quotes.
    Double,
    /// The body of a here-document that is expanded.
    Body,
    /// The word of `${a-w}` or `${a%w}` outside of double quotes, and the pattern of `"${a%w}"`.
    Brace,
    /// The word of `"${a-w}"`.
    QuotedBrace,
    /// The word of `${a-w}` in a here-document.
    BodyBrace,
    /// The pattern of `${a%w}` in a here-document.
    BodyPattern,
}

#[inline(always)]
pub fn is_blank(b: u8) -> bool
    ensures { result ≡ bytes_of.is_blank b }
{
    b == b' ' || b == b'\t'
}

#[inline(always)]
pub fn is_digit(b: u8) -> bool
    ensures { result ≡ names.is_digit b }
{
    b.is_ascii_digit()
}

#[tactic(auto, unfolding(span_text::specs::Names::begins_name))]
#[inline(always)]
pub fn begins_name(b: u8) -> bool
    ensures { result ≡ names.begins_name b }
{
    b == b'_' || b.is_ascii_alphabetic()
}

#[tactic(auto, unfolding(span_text::specs::Names::continues_name))]
#[inline(always)]
pub fn continues_name(b: u8) -> bool
    ensures { result ≡ names.continues_name b }
{
    b == b'_' || b.is_ascii_alphabetic() || b.is_ascii_digit()
}

#[tactic(auto, unfolding(sh_grammar::specs::Bytes::is_special_param))]
#[inline(always)]
pub fn is_special_param(b: u8) -> bool
    ensures { result ≡ bytes_of.is_special_param b }
{
    b == b'#' || b == b'?' || b == b'@' || b == b'*'
}

#[tactic(auto, unfolding(sh_grammar::specs::Bytes::expands))]
#[inline(always)]
pub fn expands(b: u8) -> bool
    ensures { result ≡ bytes_of.expands b }
{
    begins_name(b)
        || is_digit(b)
        || is_special_param(b)
        || b == b'$'
        || b == b'!'
        || b == b'-'
        || b == b'{'
        || b == b'('
        || b == b'`'
}

#[tactic(auto, unfolding(sh_grammar::specs::Bytes::is_meta))]
#[inline(always)]
pub fn is_meta(b: u8) -> bool
    ensures { result ≡ bytes_of.is_meta b }
{
    is_blank(b)
        || b == b'\n'
        || b == b';'
        || b == b'&'
        || b == b'|'
        || b == b'('
        || b == b')'
        || b == b'<'
        || b == b'>'
}

#[tactic(auto, unfolding(sh_grammar::specs::Bytes::is_active))]
#[inline(always)]
pub fn is_active(b: u8) -> bool
    ensures { result ≡ bytes_of.is_active b }
{
    b == b'$' || b == b'`' || b == b'\\' || b == 0
}

/// Whether the byte stands for itself there.
#[tactic(auto, unfolding(sh_grammar::specs::Bytes::is_plain))]
#[inline(always)]
pub fn is_plain(place: Context, b: u8) -> bool
    ensures { result ≡ bytes_of.is_plain (context place) b }
{
    match place {
        Context::Word => !(is_active(b) || is_meta(b) || b == b'\'' || b == b'"'),
        Context::Double => !(is_active(b) || b == b'"'),
        Context::Body => !is_active(b),
        Context::Brace => !(is_active(b) || b == b'}' || b == b'\'' || b == b'"'),
        Context::QuotedBrace => !(is_active(b) || b == b'}' || b == b'\'' || b == b'"'),
        Context::BodyBrace => !(is_active(b) || b == b'}' || b == b'\'' || b == b'"'),
        Context::BodyPattern => !(is_active(b) || b == b'}' || b == b'\'' || b == b'"'),
    }
}

/// Whether a backslash quotes the byte there.
#[tactic(auto, unfolding(sh_grammar::specs::Bytes::is_escaped))]
#[inline(always)]
pub fn is_escaped(place: Context, b: u8) -> bool
    ensures { result ≡ bytes_of.is_escaped (context place) b }
{
    match place {
        Context::Word => b != 0,
        Context::Double => b == b'$' || b == b'`' || b == b'"' || b == b'\\',
        Context::Body => b == b'$' || b == b'`' || b == b'\\',
        Context::Brace => b != 0,
        Context::QuotedBrace => b == b'$' || b == b'`' || b == b'"' || b == b'\\' || b == b'}',
        Context::BodyBrace => b == b'$' || b == b'`' || b == b'\\' || b == b'}',
        Context::BodyPattern => b != 0,
    }
}

/// Whether `'..'` quotes there.
#[tactic(auto, unfolding(sh_grammar::specs::Bytes::has_single))]
#[inline(always)]
pub fn has_single(place: Context) -> bool
    ensures { result ≡ bytes_of.has_single (context place) }
{
    match place {
        Context::Word => true,
        Context::Double => false,
        Context::Body => false,
        Context::Brace => true,
        Context::QuotedBrace => false,
        Context::BodyBrace => false,
        Context::BodyPattern => false,
    }
}

/// Whether `".."` quotes there.
#[tactic(auto, unfolding(sh_grammar::specs::Bytes::has_double))]
#[inline(always)]
pub fn has_double(place: Context) -> bool
    ensures { result ≡ bytes_of.has_double (context place) }
{
    match place {
        Context::Word => true,
        Context::Double => false,
        Context::Body => false,
        Context::Brace => true,
        Context::QuotedBrace => true,
        Context::BodyBrace => false,
        Context::BodyPattern => false,
    }
}

/// Where the word of `${a-w}` stands.
#[tactic(auto, unfolding(sh_grammar::specs::Bytes::fill_context))]
pub fn fill_context(place: Context) -> Context
    ensures { context result ≡ bytes_of.fill_context (context place) }
{
    match place {
        Context::Word => Context::Brace,
        Context::Double => Context::QuotedBrace,
        Context::Body => Context::BodyBrace,
        Context::Brace => Context::Brace,
        Context::QuotedBrace => Context::QuotedBrace,
        Context::BodyBrace => Context::BodyBrace,
        Context::BodyPattern => Context::BodyPattern,
    }
}

/// Where the pattern of `${a%w}` stands.
#[tactic(auto, unfolding(sh_grammar::specs::Bytes::trim_context))]
pub fn trim_context(place: Context) -> Context
    ensures { context result ≡ bytes_of.trim_context (context place) }
{
    match place {
        Context::Word => Context::Brace,
        Context::Double => Context::Brace,
        Context::Body => Context::BodyPattern,
        Context::Brace => Context::Brace,
        Context::QuotedBrace => Context::Brace,
        Context::BodyBrace => Context::BodyPattern,
        Context::BodyPattern => Context::BodyPattern,
    }
}

#[tactic(auto, unfolding(sh_grammar::specs::Bytes::begins_unit))]
#[inline(always)]
fn begins_unit(place: Context, b: u8) -> bool
    ensures { result ≡ bytes_of.begins_unit (context place) b }
{
    is_plain(place, b)
        || b == b'$'
        || b == b'\\'
        || (b == b'\'' && has_single(place))
        || (b == b'"' && has_double(place))
}

/// Whether a part of a word begins here, or what is no part and isn't read.
#[tactic(auto, unfolding(sh_grammar::specs::Bytes::unit_starts))]
#[inline(always)]
pub fn unit_starts(place: Context, bytes: &[u8]) -> bool
    ensures { result ≡ bytes_of.unit_starts (context place) bytes.now }
{
    match bytes {
        [] => false,
        [b, ..] => begins_unit(place, *b),
    }
}
