//! What stands behind a `$` (POSIX 2.5.1, 2.5.2, 2.6).

ghost use Rattle.std.specs.Prelude.{◌≡◌};
ghost use Rattle.sh_grammar.specs.Expansions as expansions;
ghost use Rattle.sh_parser.specs.Answers.{Shows};
ghost use Rattle.sh_parser.specs.Heads as heads;

use crate::class::{begins_name, is_digit};
use crate::gaps::clear;
use crate::names::is_byte;
use crate::runs::{Run, run_end};
use sh_syntax::FillTest;

/// A parameter where it stands: a name or digits as the bytes that begin with them, joins among them.
#[derive(Clone, Copy)]
pub enum Found<'a> {
    Name(&'a [u8]),
    Digit(u8),
    Digits(&'a [u8]),
    Count,
    Status,
    At,
    Star,
}

/// What a `${` begins: all of it, or the front before a word.
#[derive(Clone, Copy)]
pub enum Head<'a> {
    Closed {
        param: Found<'a>,
        length: bool,
    },
    Filling {
        param: Found<'a>,
        test: FillTest,
        colon: bool,
    },
    Trimming {
        param: Found<'a>,
        suffix: bool,
        longest: bool,
    },
}

fn special<'a>(b: u8, after: &'a [u8]) -> Option<(Found<'a>, &'a [u8])>
    ensures { Shows (λ x. (heads.param x.0, x.1.now)) result (expansions.special b after.now) }
{
    if b == b'#' {
        Some((Found::Count, after))
    } else if b == b'?' {
        Some((Found::Status, after))
    } else if b == b'@' {
        Some((Found::At, after))
    } else if b == b'*' {
        Some((Found::Star, after))
    } else {
        None
    }
}

/// The parameter behind a `$`, and what follows it.
#[tactic(auto, unfolding(sh_grammar::specs::Expansions::param_at, sh_grammar::specs::Bytes::name_run))]
pub fn param_at(bytes: &[u8]) -> Option<(Found<'_>, &[u8])>
    ensures { Shows (λ x. (heads.param x.0, x.1.now)) result (expansions.param_at bytes.now) }
{
    match bytes {
        [] => None,
        [b, after @ ..] => if begins_name(*b) {
            Some((Found::Name(bytes), run_end(Run::Name, bytes)))
        } else if is_digit(*b) {
            Some((Found::Digit(*b), after))
        } else {
            special(*b, after)
        },
    }
}

/// The parameter behind `${` or `${#`, and what follows it.
#[tactic(auto, unfolding(sh_grammar::specs::Expansions::long_param_at, sh_grammar::specs::Bytes::name_run, sh_grammar::specs::Bytes::digit_run))]
fn long_param_at(bytes: &[u8]) -> Option<(Found<'_>, &[u8])>
    ensures { Shows (λ x. (heads.param x.0, x.1.now)) result (expansions.long_param_at bytes.now) }
{
    match bytes {
        [] => None,
        [b, after @ ..] => if begins_name(*b) {
            Some((Found::Name(bytes), run_end(Run::Name, bytes)))
        } else if is_digit(*b) {
            Some((Found::Digits(bytes), run_end(Run::Digits, bytes)))
        } else {
            special(*b, after)
        },
    }
}

fn fills<'a>(param: Found<'a>, colon: bool, bytes: &'a [u8]) -> Option<(Head<'a>, &'a [u8])>
    ensures { Shows (λ x. (heads.head x.0, x.1.now)) result (expansions.fills (heads.param param.entry) colon bytes.now) }
{
    match bytes {
        [] => None,
        [b, after @ ..] => {
            let test = if *b == b'-' {
                FillTest::Default
            } else if *b == b'=' {
                FillTest::Assign
            } else if *b == b'+' {
                FillTest::Alternate
            } else {
                return None;
            };
            Some((Head::Filling { param, test, colon }, after))
        },
    }
}

/// Behind `#` or `%`: a second one makes the match the longest.
fn trims<'a>(param: Found<'a>, suffix: bool, k: u8, bytes: &'a [u8]) -> Option<(Head<'a>, &'a [u8])>
    ensures { Shows (λ x. (heads.head x.0, x.1.now)) result (expansions.trims (heads.param param.entry) suffix k bytes.now) }
{
    match bytes {
        [] => Some((
            Head::Trimming {
                param,
                suffix,
                longest: false,
            },
            bytes,
        )),
        [b, after @ ..] => if *b == k {
            Some((
                Head::Trimming {
                    param,
                    suffix,
                    longest: true,
                },
                after,
            ))
        } else {
            Some((
                Head::Trimming {
                    param,
                    suffix,
                    longest: false,
                },
                bytes,
            ))
        },
    }
}

/// Behind the parameter of `${`.
fn operator_at<'a>(param: Found<'a>, bytes: &'a [u8]) -> Option<(Head<'a>, &'a [u8])>
    ensures { Shows (λ x. (heads.head x.0, x.1.now)) result (expansions.operator_at (heads.param param.entry) bytes.now) }
{
    match bytes {
        [] => None,
        [b, after @ ..] => if *b == b'}' {
            Some((
                Head::Closed {
                    param,
                    length: false,
                },
                after,
            ))
        } else if *b == b':' {
            fills(param, true, clear(after))
        } else if *b == b'#' {
            trims(param, false, b'#', clear(after))
        } else if *b == b'%' {
            trims(param, true, b'%', clear(after))
        } else {
            fills(param, false, bytes)
        },
    }
}

/// `${#a}`, where a `}` stands behind the parameter.
fn length_head(bytes: &[u8]) -> Option<(Head<'_>, &[u8])>
    ensures { Shows (λ x. (heads.head x.0, x.1.now)) result (expansions.length_head (expansions.long_param_at bytes.now)) }
{
    match long_param_at(bytes) {
        None => None,
        Some((param, after)) => match clear(after) {
            [] => None,
            [b, rest @ ..] => if *b == b'}' {
                Some((
                    Head::Closed {
                        param,
                        length: true,
                    },
                    rest,
                ))
            } else {
                None
            },
        },
    }
}

fn is_dash(bytes: &[u8]) -> bool
    ensures { result ≡ expansions.is_dash bytes.now }
{
    match bytes {
        [] => false,
        [b, after @ ..] => *b == b'-' && is_byte(b'}', clear(after)),
    }
}

/// Behind `${#`: `${#}`, a length, or an operation on `$#`.
fn hash_head(bytes: &[u8]) -> Option<(Head<'_>, &[u8])>
    ensures { Shows (λ x. (heads.head x.0, x.1.now)) result (expansions.hash_head bytes.now) }
{
    if is_dash(bytes) {
        return None;
    }
    if is_byte(b'}', bytes) {
        return operator_at(Found::Count, bytes);
    }
    match length_head(bytes) {
        Some(head) => Some(head),
        None => operator_at(Found::Count, bytes),
    }
}

fn named_head(bytes: &[u8]) -> Option<(Head<'_>, &[u8])>
    ensures { Shows (λ x. (heads.head x.0, x.1.now)) result (heads.named_head bytes.now) }
{
    match long_param_at(bytes) {
        None => None,
        Some((param, after)) => operator_at(param, clear(after)),
    }
}

/// Behind `${`.
#[tactic(auto, unfolding(sh_grammar::specs::Expansions::head_at, sh_grammar::specs::Expansions::long_param_at))]
fn head_at(bytes: &[u8]) -> Option<(Head<'_>, &[u8])>
    ensures { Shows (λ x. (heads.head x.0, x.1.now)) result (expansions.head_at bytes.now) }
{
    match bytes {
        [] => None,
        [b, after @ ..] => if *b == b'#' {
            hash_head(clear(after))
        } else {
            named_head(bytes)
        },
    }
}

fn behind(k: u8, bytes: &[u8]) -> Option<&[u8]>
    ensures { Shows (λ x. x.now) result (expansions.behind k bytes.now) }
{
    match bytes {
        [] => None,
        [b, rest @ ..] => if *b == k { Some(rest) } else { None },
    }
}

/// What follows two bytes, with joins before them and between them.
#[tactic(auto, unfolding(sh_grammar::specs::Expansions::behind_two))]
pub fn behind_two(j: u8, k: u8, bytes: &[u8]) -> Option<&[u8]>
    ensures { Shows (λ x. x.now) result (expansions.behind_two j k bytes.now) }
{
    match behind(j, clear(bytes)) {
        None => None,
        Some(rest) => behind(k, clear(rest)),
    }
}

/// The parameter of `$a`, and what follows it.
#[tactic(auto, unfolding(sh_grammar::specs::Expansions::dollar_param))]
pub fn dollar_param(bytes: &[u8]) -> Option<(Found<'_>, &[u8])>
    ensures { Shows (λ x. (heads.param x.0, x.1.now)) result (expansions.dollar_param bytes.now) }
{
    match behind(b'$', clear(bytes)) {
        None => None,
        Some(rest) => param_at(clear(rest)),
    }
}

/// What a `${` begins, and what follows that.
#[tactic(auto, unfolding(sh_grammar::specs::Expansions::dollar_head))]
pub fn dollar_head(bytes: &[u8]) -> Option<(Head<'_>, &[u8])>
    ensures { Shows (λ x. (heads.head x.0, x.1.now)) result (expansions.dollar_head bytes.now) }
{
    match behind_two(b'$', b'{', bytes) {
        None => None,
        Some(rest) => head_at(clear(rest)),
    }
}

/// What follows the second `(` of `$((`.
#[tactic(auto, unfolding(sh_grammar::specs::Expansions::dollar_sum))]
pub fn dollar_sum(bytes: &[u8]) -> Option<&[u8]>
    ensures { Shows (λ x. x.now) result (expansions.dollar_sum bytes.now) }
{
    match behind_two(b'$', b'(', bytes) {
        None => None,
        Some(rest) => behind(b'(', clear(rest)),
    }
}

/// Whether `$(` comes next and isn't `$((`.
#[tactic(auto, unfolding(sh_grammar::specs::Expansions::subst_next))]
pub fn subst_next(bytes: &[u8]) -> bool
    ensures { result ≡ expansions.subst_next bytes.now }
{
    match behind_two(b'$', b'(', bytes) {
        None => false,
        Some(rest) => !is_byte(b'(', clear(rest)),
    }
}

/// Whether `$((` comes next.
#[tactic(auto, unfolding(sh_grammar::specs::Expansions::sum_next))]
pub fn sum_next(bytes: &[u8]) -> bool
    ensures { result ≡ expansions.sum_next bytes.now }
{
    match dollar_sum(bytes) {
        None => false,
        Some(_) => true,
    }
}

/// Whether `${` comes next.
#[tactic(auto, unfolding(sh_grammar::specs::Expansions::brace_next))]
pub fn brace_next(bytes: &[u8]) -> bool
    ensures { result ≡ expansions.brace_next bytes.now }
{
    match behind_two(b'$', b'{', bytes) {
        None => false,
        Some(_) => true,
    }
}

/// Whether `${a}` or `${#a}` comes next.
#[tactic(auto, unfolding(sh_grammar::specs::Expansions::closed_next))]
pub fn closed_next(bytes: &[u8]) -> bool
    ensures { result ≡ expansions.closed_next bytes.now }
{
    match dollar_head(bytes) {
        None => false,
        Some((Head::Closed { .. }, _)) => true,
        Some((Head::Filling { .. }, _)) => false,
        Some((Head::Trimming { .. }, _)) => false,
    }
}

/// Whether `${a-` or its kin comes next.
#[tactic(auto, unfolding(sh_grammar::specs::Expansions::filling_next))]
pub fn filling_next(bytes: &[u8]) -> bool
    ensures { result ≡ expansions.filling_next bytes.now }
{
    match dollar_head(bytes) {
        None => false,
        Some((Head::Closed { .. }, _)) => false,
        Some((Head::Filling { .. }, _)) => true,
        Some((Head::Trimming { .. }, _)) => false,
    }
}
