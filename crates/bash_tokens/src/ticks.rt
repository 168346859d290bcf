//! Backquotes (Bash manual, section 3.5.4): the next one ends them.

ghost use Rattle.std.specs.Prelude.{◌≡◌, ◌==◌};
ghost use Rattle.bash_grammar.specs.Steps as steps;
ghost use Rattle.bash_grammar.specs.Tests as tests;
ghost use Rattle.bash_tokens.specs.Answers.{Shows};

use crate::gaps::clear;
use crate::tokens::behind;

/// The bytes up to the next backquote, and what follows it.
#[tactic(auto, using(crate::proofs::Backquotes::ticks_end, crate::proofs::Backquotes::ticks_more, crate::proofs::Backquotes::ticks_none))]
fn tick_run(bytes: &[u8]) -> Option<(&[u8], &[u8])>
    ensures { Shows (λ x. (x.0.now, x.1.now)) result (steps.tick_run bytes.now) }
{
    let mut n: usize = 0;
    'bytes: while n < bytes.len() {
        if bytes[n] == b'`' {
            return Some((&bytes[..n], &bytes[n + 1..]));
        }
        n += 1;
    }
    None
}

/// What stands between the backquotes here, and what follows them.
#[tactic(auto, unfolding(bash_grammar::specs::Steps::ticks_at))]
pub fn ticks_at(bytes: &[u8]) -> Option<(&[u8], &[u8])>
    ensures { Shows (λ x. (x.0.now, x.1.now)) result (steps.ticks_at bytes.now) }
{
    match behind(b'`', clear(bytes)) {
        None => None,
        Some(rest) => tick_run(rest),
    }
}

/// Whether this byte is among these.
pub fn has_byte(k: u8, bytes: &[u8]) -> bool
    ensures { result ≡ tests.has_byte k bytes.now }
{
    let mut rest = bytes;
    'bytes: loop {
        match rest {
            [] => return false,
            [b, after @ ..] => {
                if *b == k {
                    return true;
                }
                rest = after;
            },
        }
    }
}
