//! Joins, blanks and comments.

ghost use Rattle.std.specs.Prelude.{◌≡◌, ◌==◌, ◌∷◌, ◌≤◌, length, true};
ghost use Rattle.bash_grammar.specs.Bytes as bytes_of;

/// Without the joins at the front: a backslash and a newline count as removed.
#[tactic(auto, unfolding(bash_grammar::specs::Bytes::clear))]
pub fn clear(bytes: &[u8]) -> &[u8]
    ensures { result.now ≡ bytes_of.clear bytes.now }
{
    let mut rest = bytes;
    'joins: loop {
        match rest {
            [] => return rest,
            [b'\\', after @ ..] => match after {
                [] => return rest,
                [b'\n', behind @ ..] => rest = behind,
                [_, ..] => return rest,
            },
            [_, ..] => return rest,
        }
    }
}

/// Behind the join that begins with this byte, and those behind it.
#[tactic(auto, unfolding(bash_grammar::specs::Bytes::clear), using(crate::proofs::Joins::clear_fits))]
pub fn behind_join(b: u8, after: &[u8]) -> &[u8]
    requires { bytes_of.is_join b after.now ≡ true }
    ensures is { result.now ≡ bytes_of.clear (b ∷ after.now) }
    ensures less { length result.now ≤ length after.now }
{
    match after {
        [] => after,
        [_, rest @ ..] => clear(rest),
    }
}

/// Behind a comment's `#`: its newline and what follows.
#[tactic(auto, unfolding(bash_grammar::specs::Bytes::comment_end))]
fn comment_end(bytes: &[u8]) -> &[u8]
    ensures { result.now ≡ bytes_of.comment_end bytes.now }
{
    let mut rest = bytes;
    'comment: loop {
        match rest {
            [] => return rest,
            [b'\n', ..] => return rest,
            [_, after @ ..] => rest = after,
        }
    }
}

/// Without the blanks, joins and comment before a token.
#[tactic(auto, unfolding(bash_grammar::specs::Bytes::gap))]
pub fn gap(bytes: &[u8]) -> &[u8]
    ensures { result.now ≡ bytes_of.gap bytes.now }
{
    let mut rest = bytes;
    'blanks: loop {
        match rest {
            [b' ', after @ ..] => rest = after,
            [b'\t', after @ ..] => rest = after,
            [b'\\', b'\n', after @ ..] => rest = after,
            [b'#', after @ ..] => return comment_end(after),
            _ => return rest,
        }
    }
}

/// Behind a comment's `#`, without the comment.
#[tactic(auto, using(crate::proofs::Comments::comment_idle, crate::proofs::Comments::comment_fits))]
fn behind_comment(bytes: &[u8]) -> &[u8]
    ensures idle { bytes_of.idle result.now ≡ bytes_of.idle (35 ∷ bytes.now) }
    ensures fits { length result.now ≤ length bytes.now }
{
    comment_end(bytes)
}

/// Without blanks, newlines, joins and comments at the front.
#[tactic(auto, unfolding(bash_grammar::specs::Bytes::idle))]
pub fn idle(bytes: &[u8]) -> &[u8]
    ensures { result.now ≡ bytes_of.idle bytes.now }
{
    let mut rest = bytes;
    'blanks: loop {
        match rest {
            [b' ', after @ ..] => rest = after,
            [b'\t', after @ ..] => rest = after,
            [b'\n', after @ ..] => rest = after,
            [b'\\', b'\n', after @ ..] => rest = after,
            [b'#', after @ ..] => rest = behind_comment(after),
            _ => return rest,
        }
    }
}
