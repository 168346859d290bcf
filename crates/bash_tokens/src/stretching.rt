//! Bytes of arithmetic expressions (Bash manual, section 6.5).

ghost use Rattle.std.specs.Prelude.{◌≡◌, ◌==◌, ◌||◌, ◌&&◌, not, Some};
ghost use Rattle.bash_grammar.specs.Bytes as bytes_of;
ghost use Rattle.bash_grammar.specs.Sums as sums;
ghost use Rattle.bash_tokens.specs.Answers.{Gives};
ghost use Rattle.bash_tokens.specs.Kinds.{stretch};

use crate::fault::Stop;
use crate::literals::is_bare_dollar;
use crate::spots::Spot;

/// What ends an expression.
#[derive(Clone, Copy)]
pub enum Stretch {
    /// `)`: of `$((`, `((` and a parenthesis.
    ToClose,
    /// `;`, and `)`: the first two of `for ((a; b; c))`.
    ToSemi,
    /// A `:` that no `?` is open for, or `}`: the first of `${a:b:c}`.
    ToColon,
    /// `}`
    ToBrace,
}

fn ends_stretch(end: Stretch, level: usize, b: u8) -> bool
    ensures { result ≡ sums.ends_stretch (stretch end) level b }
{
    match end {
        Stretch::ToClose => b == b')',
        Stretch::ToSemi => b == b')' || b == b';',
        Stretch::ToColon => b == b'}' || (b == b':' && level == 0),
        Stretch::ToBrace => b == b'}',
    }
}

/// Whether the bytes at the front belong to the expression.
pub fn stretches(end: Stretch, level: usize, bytes: &[u8]) -> bool
    ensures { result ≡ sums.stretches (stretch end) level bytes.now }
{
    match bytes {
        [] => false,
        [b, ..] => !ends_stretch(end, level, *b),
    }
}

/// Neither a parenthesis that opens nor a `$` that begins an expansion.
fn is_sum_byte(b: u8, after: &[u8]) -> bool
    ensures { result ≡ sums.is_sum_byte b after.now }
{
    !(b == b'(' || b == b'$') || (b == b'$' && is_bare_dollar(Spot::Quotes, after))
}

/// `?` and its `:` count.
fn level_behind(end: Stretch, b: u8, level: usize) -> Result<usize, Stop>
    ensures { Gives (λ x. x) result (Some (sums.stretch_level (stretch end) b level)) }
{
    match end {
        Stretch::ToColon => colon_level(b, level),
        Stretch::ToClose => Ok(level),
        Stretch::ToSemi => Ok(level),
        Stretch::ToBrace => Ok(level),
    }
}

fn colon_level(b: u8, level: usize) -> Result<usize, Stop>
    ensures { Gives (λ x. x) result (Some (bytes_of.level_behind 63 58 b level)) }
{
    if b == b'?' {
        match level.checked_add(1) {
            Some(more) => Ok(more),
            None => Err(Stop::Memory),
        }
    } else if b == b':' {
        Ok(level.saturating_sub(1))
    } else {
        Ok(level)
    }
}

/// What follows the bytes up to the end, a parenthesis or an expansion, joins among them; and how many `?` are open.
#[tactic(auto, unfolding(bash_grammar::specs::Sums::stretch_run))]
pub fn stretch_run(end: Stretch, before: usize, bytes: &[u8]) -> Result<(&[u8], usize), Stop>
    ensures { Gives (λ x. (x.0.now, x.1)) result (Some (sums.stretch_run (stretch end) before bytes.now)) }
{
    let mut level = before;
    let mut rest = bytes;
    'bytes: loop {
        match rest {
            [] => return Ok((rest, level)),
            [b, after @ ..] => {
                if !(is_sum_byte(*b, after) && !ends_stretch(end, level, *b)) {
                    return Ok((rest, level));
                }
                level = level_behind(end, *b, level)?;
                rest = after;
            },
        }
    }
}
