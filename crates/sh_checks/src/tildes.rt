//! Tildes among bytes that stand for themselves (POSIX XCU 2.6.1).

ghost use Rattle.std.specs.Prelude.{◌≡◌, false};
ghost use Rattle.sh_meaning.specs.Expanding as expanding;
ghost use Rattle.sh_meaning.specs.builtins.Export as operands;
ghost use Rattle.sh_checks.specs.Places.{where_of};

/// Where a part stands in its word.
#[derive(Clone, Copy, Debug, PartialEq, Eq)]
pub enum Where {
    /// It is the first one.
    First,
    Later,
}

fn begins_tilde(text: &[u8]) -> bool
    ensures { result ≡ expanding.begins_tilde text.now }
{
    match text {
        [] => false,
        [first, ..] => *first == b'~',
    }
}

/// Whether a `~` stands right behind a `=` or a `:`.
fn has_tilde(text: &[u8]) -> bool
    ensures { result ≡ operands.has_tilde false text.now }
{
    let mut behind = false;
    for b in text {
        if behind && *b == b'~' {
            return true;
        }
        behind = *b == b'=' || *b == b':';
    }
    false
}

/// Whether bytes that stand for themselves have a tilde that some shells expand there, where they are unquoted: at the
/// front of the word, or behind a `=` or a `:`.
pub fn has_doubtful_tilde(place: Where, text: &[u8]) -> bool
    ensures { result ≡ expanding.has_doubtful_tilde (where_of place) text.now }
{
    match place {
        Where::First => begins_tilde(text) || has_tilde(text),
        Where::Later => has_tilde(text),
    }
}
