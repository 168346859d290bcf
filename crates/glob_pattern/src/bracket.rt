//! Where the elements of a bracket end, and the bracket itself.

ghost use Rattle.std.specs.Prelude.{◌≡◌, ◌+◌, ◌<◌, ◌≤◌, Bool, length, drop, take, IfSome};
ghost use Rattle.glob_pattern.specs.Brackets.{name_len, class_len_by, class_len, element_len, spells, later_class, class_named, class_at, close_len, mark_len, body_len, body_of, is_in_name};

use crate::class::Class;
use crate::sign::{Sign, from, is_bare, starts};

/// Whether a sign may stand in the name of a class.
fn is_in_name(sign: Sign) -> bool
    ensures { result ≡ is_in_name sign }
{
    is_bare(sign.mark) && !(sign.byte == b':' || sign.byte == b']')
}

fn name_len(signs: &[Sign]) -> usize
    ensures len { result ≡ name_len signs.now }
    ensures within { result ≤ length signs.now }
{
    for (i, sign) in signs.iter().enumerate() {
        if !is_in_name(*sign) {
            return i;
        }
    }
    signs.len()
}

fn class_len_by(n: usize, signs: &[Sign]) -> usize
    requires { n ≤ length signs.now }
    ensures { result ≡ class_len_by n signs.now }
{
    if starts(b'[', signs)
        && starts(b':', from(1, signs))
        && n != 0
        && starts(b':', from(n + 2, signs))
        && starts(b']', from(n + 3, signs))
    {
        n + 4
    } else {
        0
    }
}

/// The length of a class at the front, 0 where there is none.
#[tactic(auto, unfolding(crate::specs::Brackets::class_len))]
pub fn class_len(signs: &[Sign]) -> usize
    ensures len { result ≡ class_len signs.now }
    ensures within { result ≤ length signs.now }
{
    class_len_by(name_len(from(2, signs)), signs)
}

/// The length of the element at the front.
#[tactic(auto, unfolding(crate::specs::Brackets::element_len))]
pub fn element_len(signs: &[Sign]) -> usize
    requires { 0 < length signs.now }
    ensures len { result ≡ element_len signs.now }
    ensures some { 0 < result }
    ensures within { result ≤ length signs.now }
{
    let len = class_len(signs);
    if len == 0 { 1 } else { len }
}

fn spells(signs: &[Sign], name: &[u8]) -> bool
    ensures { result ≡ spells signs.now name.now }
{
    let mut rest = signs;
    for b in name {
        match rest {
            [] => return false,
            [sign, ..] => {
                if sign.byte != *b {
                    return false;
                }
                rest = from(1, rest);
            }
        }
    }
    rest.is_empty()
}

fn later_class(name: &[Sign]) -> Option<Class>
    ensures { result ≡ later_class name.now }
{
    if spells(name, b"lower") {
        Some(Class::Lower)
    } else if spells(name, b"print") {
        Some(Class::Print)
    } else if spells(name, b"punct") {
        Some(Class::Punct)
    } else if spells(name, b"space") {
        Some(Class::Space)
    } else if spells(name, b"upper") {
        Some(Class::Upper)
    } else if spells(name, b"xdigit") {
        Some(Class::Xdigit)
    } else {
        None
    }
}

#[tactic(auto, unfolding(crate::specs::Brackets::class_named))]
fn class_named(name: &[Sign]) -> Option<Class>
    ensures { result ≡ class_named name.now }
{
    if spells(name, b"alnum") {
        Some(Class::Alnum)
    } else if spells(name, b"alpha") {
        Some(Class::Alpha)
    } else if spells(name, b"blank") {
        Some(Class::Blank)
    } else if spells(name, b"cntrl") {
        Some(Class::Cntrl)
    } else if spells(name, b"digit") {
        Some(Class::Digit)
    } else if spells(name, b"graph") {
        Some(Class::Graph)
    } else {
        later_class(name)
    }
}

/// The signs up to the k-th.
fn front(k: usize, signs: &[Sign]) -> &[Sign]
    ensures { result.now ≡ take k signs.now }
{
    if k < signs.len() { &signs[..k] } else { signs }
}

/// The class at the front, where one is there and its name is known.
#[tactic(auto, unfolding(crate::specs::Brackets::class_at))]
pub fn class_at(signs: &[Sign]) -> Option<Class>
    ensures { result ≡ class_at signs.now }
{
    let len = class_len(signs);
    if len == 0 {
        None
    } else {
        class_named(front(len.saturating_sub(4), from(2, signs)))
    }
}

fn close_len(first: usize, signs: &[Sign]) -> Option<usize>
    requires { first ≤ length signs.now }
    ensures len { result ≡ close_len first signs.now }
    ensures within { IfSome result (λ n. n < length signs.now) }
{
    let mut n = first;
    'elements: while n < signs.len() {
        let ahead = from(n, signs);
        if starts(b']', ahead) {
            return Some(n);
        }
        n += element_len(ahead);
    }
    None
}

/// The length of `!` or `^` at the front.
#[tactic(auto, unfolding(crate::specs::Brackets::mark_len))]
pub fn mark_len(signs: &[Sign]) -> usize
    ensures len { result ≡ mark_len signs.now }
    ensures within { result ≤ length signs.now }
{
    if starts(b'!', signs) || starts(b'^', signs) {
        1
    } else {
        0
    }
}

/// The length of the body of the bracket at the front, where one is there and is closed.
#[tactic(auto, unfolding(crate::specs::Brackets::body_len))]
pub fn body_len(signs: &[Sign]) -> Option<usize>
    ensures len { result ≡ body_len signs.now }
    ensures within { IfSome result (λ n. n + mark_len (drop 1 signs.now) + 2 ≤ length signs.now) }
{
    if !starts(b'[', signs) {
        return None;
    }
    let start = from(mark_len(from(1, signs)) + 1, signs);
    if starts(b']', start) {
        close_len(1, start)
    } else {
        close_len(0, start)
    }
}

/// A body of this length.
#[tactic(auto, unfolding(crate::specs::Brackets::body_of))]
pub fn body_of(n: usize, signs: &[Sign]) -> &[Sign]
    ensures { result.now ≡ body_of n signs.now }
{
    front(n, from(mark_len(from(1, signs)) + 1, signs))
}
