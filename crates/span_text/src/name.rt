//! Names of variables and functions.

ghost use Rattle.std.specs.Prelude.{◌≡◌};
ghost use Rattle.std.specs.List.{list_all};
ghost use Rattle.span_text.specs.Names as names;

const RESERVED: &[u8] = b"__bs_";

#[tactic(auto, unfolding(crate::specs::Names::begins_name))]
pub(crate) fn begins_name(b: u8) -> bool
    ensures { result ≡ names.begins_name b }
{
    b == b'_' || b.is_ascii_alphabetic()
}

#[tactic(auto, unfolding(crate::specs::Names::continues_name))]
pub(crate) fn continues_name(b: u8) -> bool
    ensures { result ≡ names.continues_name b }
{
    b == b'_' || b.is_ascii_alphabetic() || b.is_ascii_digit()
}

fn continue_name(bytes: &[u8]) -> bool
    ensures { result ≡ list_all names.continues_name bytes.now }
{
    bytes.iter().all(|b| continues_name(*b))
}

/// Whether the text is a name: letters, digits and underscores, and no digit first.
pub fn is_name(text: &[u8]) -> bool
    ensures { result ≡ names.is_name text.now }
{
    match text {
        [] => false,
        [first, rest @ ..] => begins_name(*first) && continue_name(rest),
    }
}

/// Whether the text begins with `__bs_`, as the names that a translation keeps for itself.
pub fn is_reserved(text: &[u8]) -> bool
    ensures { result ≡ names.is_reserved text.now }
{
    text.starts_with(RESERVED)
}
