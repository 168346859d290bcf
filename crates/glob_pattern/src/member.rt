//! The members of a bracket, and what is doubtful in it.

ghost use Rattle.std.specs.Prelude.{◌≡◌, ◌<◌, ◌≤◌, true, length, IfOk};
ghost use Rattle.glob_pattern.specs.Brackets.{lesser, is_range, member_len, byte_at, member_at, members_of, is_value, place_if, is_backslash, is_slash, is_unknown, is_collating, is_doubtful, is_bad_range, range_doubt, member_doubt, members_doubt};

use crate::bracket::{class_at, class_len, element_len};
use crate::piece::Member;
use crate::sign::{Sign, Use, from, starts};
use span_text::{List, Mark, Memory};
use std::alloc::Global;

#[tactic(auto, unfolding(crate::specs::Brackets::is_range))]
fn is_range(behind: &[Sign]) -> bool
    ensures same { result ≡ is_range behind.now }
    ensures more { result ≡ true → 1 < length behind.now }
{
    starts(b'-', behind) && !from(1, behind).is_empty()
}

#[tactic(auto, unfolding(crate::specs::Brackets::member_len))]
fn member_len(signs: &[Sign]) -> usize
    requires { 0 < length signs.now }
    ensures len { result ≡ member_len signs.now }
    ensures some { 0 < result }
    ensures within { result ≤ length signs.now }
{
    let len = element_len(signs);
    if is_range(from(len, signs)) {
        len + 1 + element_len(from(len + 1, signs))
    } else {
        len
    }
}

fn byte_at(signs: &[Sign]) -> u8
    ensures { result ≡ byte_at signs.now }
{
    match signs {
        [] => 0,
        [sign, ..] => sign.byte,
    }
}

#[tactic(auto, unfolding(crate::specs::Brackets::member_at))]
fn member_at(signs: &[Sign]) -> Member
    requires { 0 < length signs.now }
    ensures { result ≡ member_at signs.now }
{
    let len = element_len(signs);
    if is_range(from(len, signs)) {
        return Member::Range(byte_at(signs), byte_at(from(len + 1, signs)));
    }
    match class_at(signs) {
        None => Member::One(byte_at(signs)),
        Some(class) => Member::Named(class),
    }
}

/// The members of a body.
#[tactic(auto, unfolding(crate::specs::Brackets::members_of))]
pub fn members_of(alloc: Global, body: &[Sign]) -> Result<List<Member>, Memory>
    ensures { IfOk result (λ members. members ≡ members_of body.now) }
{
    let mut members = List::new(alloc);
    let mut rest = body;
    'members: while !rest.is_empty() {
        members.push(member_at(rest))?;
        rest = from(member_len(rest), rest);
    }
    Ok(members)
}

fn is_value(mark: Mark) -> bool
    ensures { result ≡ is_value mark }
{
    match mark {
        Mark::Value => true,
        Mark::Written | Mark::Quoted => false,
    }
}

/// The lesser place, where there is one.
pub fn lesser(one: Option<usize>, other: Option<usize>) -> Option<usize>
    ensures { result ≡ lesser one other }
{
    match (one, other) {
        (None, other) => other,
        (Some(m), None) => Some(m),
        (Some(m), Some(n)) => Some(m.min(n)),
    }
}

/// The place of the first sign, where it is doubtful.
pub fn place_if(doubt: bool, signs: &[Sign]) -> Option<usize>
    ensures { result ≡ place_if doubt signs.now }
{
    match signs {
        [] => None,
        [sign, ..] => { if doubt { Some(sign.at) } else { None } }
    }
}

/// Whether the first sign is a backslash from an expansion.
pub fn is_backslash(signs: &[Sign]) -> bool
    ensures { result ≡ is_backslash signs.now }
{
    match signs {
        [] => false,
        [sign, ..] => sign.byte == b'\\' && is_value(sign.mark),
    }
}

fn is_slash(purpose: Use, signs: &[Sign]) -> bool
    ensures { result ≡ is_slash purpose signs.now }
{
    match purpose {
        Use::Text => false,
        Use::Path => byte_at(signs) == b'/' && !signs.is_empty(),
    }
}

fn is_unknown(signs: &[Sign]) -> bool
    ensures { result ≡ is_unknown signs.now }
{
    class_len(signs) != 0 && class_at(signs).is_none()
}

fn is_collating(signs: &[Sign]) -> bool
    ensures { result ≡ is_collating signs.now }
{
    let next = from(1, signs);
    starts(b'[', signs) && (starts(b'.', next) || starts(b'=', next))
}

#[tactic(auto, unfolding(crate::specs::Brackets::is_doubtful))]
fn is_doubtful(purpose: Use, signs: &[Sign]) -> bool
    ensures { result ≡ is_doubtful purpose signs.now }
{
    is_backslash(signs) || is_slash(purpose, signs) || is_unknown(signs) || is_collating(signs)
}

#[tactic(auto, unfolding(crate::specs::Brackets::is_bad_range))]
fn is_bad_range(first: &[Sign], last: &[Sign]) -> bool
    ensures { result ≡ is_bad_range first.now last.now }
{
    class_len(first) != 0 || class_len(last) != 0 || byte_at(last) < byte_at(first)
}

#[tactic(auto, unfolding(crate::specs::Brackets::range_doubt))]
fn range_doubt(purpose: Use, first: &[Sign], last: &[Sign]) -> Option<usize>
    ensures { result ≡ range_doubt purpose first.now last.now }
{
    let range = place_if(is_bad_range(first, last), first);
    lesser(range, place_if(is_doubtful(purpose, last), last))
}

#[tactic(auto, unfolding(crate::specs::Brackets::member_doubt))]
fn member_doubt(purpose: Use, signs: &[Sign]) -> Option<usize>
    requires { 0 < length signs.now }
    ensures { result ≡ member_doubt purpose signs.now }
{
    let here = place_if(is_doubtful(purpose, signs), signs);
    let len = element_len(signs);
    let behind = if is_range(from(len, signs)) {
        range_doubt(purpose, signs, from(len + 1, signs))
    } else {
        None
    };
    lesser(here, behind)
}

/// The least doubtful place of a body.
#[tactic(auto, unfolding(crate::specs::Brackets::members_doubt))]
pub fn members_doubt(purpose: Use, body: &[Sign]) -> Option<usize>
    ensures { result ≡ members_doubt purpose body.now }
{
    let mut place = None;
    let mut rest = body;
    'members: while !rest.is_empty() {
        place = lesser(place, member_doubt(purpose, rest));
        rest = from(member_len(rest), rest);
    }
    place
}
