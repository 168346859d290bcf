//! Where parts of words stand, which says how they are quoted.

ghost use Rattle.std.specs.Prelude.{◌≡◌};
ghost use Rattle.sh_grammar.specs.Bytes.{has_double, has_single, fill_context, trim_context};
ghost use Rattle.sh_printer.specs.Codes.{view_context};

#[derive(Clone, Copy, Debug, PartialEq, Eq)]
pub enum Context {
    /// A word of a command.
    Word,
    /// Between double quotes.
    Double,
    /// The body of a here-document.
    Body,
    /// The word of `${a-w}` or `${a%w}` outside of double quotes, and the pattern of `"${a%w}"`.
    Brace,
    /// The word of `"${a-w}"`.
    QuotedBrace,
    /// The word of `${a-w}` in a here-document.
    BodyBrace,
    /// The pattern of `${a%w}` in a here-document.
    BodyPattern,
}

/// Whether `'..'` quotes there.
#[tactic(auto, unfolding(sh_grammar::specs::Bytes::has_single))]
pub fn has_single(context: Context) -> bool
    ensures { result ≡ has_single (view_context context) }
{
    match context {
        Context::Word | Context::Brace => true,
        Context::Double
        | Context::Body
        | Context::QuotedBrace
        | Context::BodyBrace
        | Context::BodyPattern => false,
    }
}

/// Whether `".."` quotes there.
#[tactic(auto, unfolding(sh_grammar::specs::Bytes::has_double))]
pub fn has_double(context: Context) -> bool
    ensures { result ≡ has_double (view_context context) }
{
    match context {
        Context::Word | Context::Brace | Context::QuotedBrace => true,
        Context::Double | Context::Body | Context::BodyBrace | Context::BodyPattern => false,
    }
}

/// Where the word of `${a-w}` stands.
#[tactic(auto, unfolding(sh_grammar::specs::Bytes::fill_context))]
pub fn fill_context(context: Context) -> Context
    ensures { view_context result ≡ fill_context (view_context context) }
{
    match context {
        Context::Word | Context::Brace => Context::Brace,
        Context::Double | Context::QuotedBrace => Context::QuotedBrace,
        Context::Body | Context::BodyBrace => Context::BodyBrace,
        Context::BodyPattern => Context::BodyPattern,
    }
}

/// Where the pattern of `${a%w}` stands.
#[tactic(auto, unfolding(sh_grammar::specs::Bytes::trim_context))]
pub fn trim_context(context: Context) -> Context
    ensures { view_context result ≡ trim_context (view_context context) }
{
    match context {
        Context::Word | Context::Double | Context::Brace | Context::QuotedBrace => Context::Brace,
        Context::Body | Context::BodyBrace | Context::BodyPattern => Context::BodyPattern,
    }
}
