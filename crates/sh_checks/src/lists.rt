//! The lists of a word, as it is written (POSIX XCU 2.5.2).

ghost use Rattle.std.specs.Prelude.{◌≡◌, map};
ghost use Rattle.sh_meaning.specs.Lists as lists;
ghost use Rattle.sh_syntax.specs.View.{parts_of, view_op, view_param, view_part};
ghost use Rattle.sh_checks.specs.Counts.{sum, with_both, seen_of};

use sh_syntax::{Param, ParamOp, Part, PartKind};

/// `$@` or `$*`.
pub fn is_list(param: &Param) -> bool
    ensures { result ≡ lists.is_list (view_param param.now) }
{
    match param {
        Param::At | Param::Star => true,
        Param::Name(_) | Param::Digits(_) | Param::Count | Param::Status => false,
    }
}

/// How many lists stand in a word.
#[derive(Clone, Copy)]
pub(crate) enum Count {
    Nothing,
    One,
    More,
}

/// How many lists, and whether a quoted one and a written empty quote stand in a word.
#[derive(Clone, Copy)]
pub(crate) struct Seen {
    pub(crate) lists: Count,
    pub(crate) quoted_list: bool,
    pub(crate) empty_quote: bool,
}

fn sum(a: Count, b: Count) -> Count
    ensures { result ≡ sum a b }
{
    match (a, b) {
        (Count::Nothing, b) => b,
        (Count::One, Count::Nothing) => Count::One,
        (Count::One, Count::One | Count::More) => Count::More,
        (Count::More, _) => Count::More,
    }
}

fn with_both(a: Seen, b: Seen) -> Seen
    ensures { result ≡ with_both a b }
{
    Seen {
        lists: sum(a.lists, b.lists),
        quoted_list: a.quoted_list || b.quoted_list,
        empty_quote: a.empty_quote || b.empty_quote,
    }
}

fn unseen() -> Seen
    ensures { result ≡ seen_of lists.unseen }
{
    Seen {
        lists: Count::Nothing,
        quoted_list: false,
        empty_quote: false,
    }
}

fn quote_seen(empty: bool) -> Seen
    ensures { result ≡ seen_of (lists.quote_seen empty) }
{
    Seen {
        lists: Count::Nothing,
        quoted_list: false,
        empty_quote: empty,
    }
}

fn list_seen(quoted: bool, param: &Param) -> Seen
    ensures { result ≡ seen_of (lists.list_seen quoted (view_param param.now)) }
{
    let is_list = is_list(param);
    Seen {
        lists: if is_list { Count::One } else { Count::Nothing },
        quoted_list: quoted && is_list,
        empty_quote: false,
    }
}

fn is_nothing(text: &[u8]) -> bool
    ensures { result ≡ lists.is_nothing text.now }
{
    match text {
        [] => true,
        [_, ..] => false,
    }
}

#[tactic(auto, using(crate::proofs::Counting::none_there))]
fn has_no_part(parts: &[Part]) -> bool
    ensures { result ≡ lists.has_no_part (parts_of (map view_part parts.now)) }
{
    parts.is_empty()
}

/// In a part, and in the words of its `${ }`; `quoted` tells whether double quotes are around.
#[cycle(seen)]
fn seen_in_part(quoted: bool, part: &Part) -> Seen
    ensures { result ≡ seen_of (lists.seen_in_part quoted (view_part part.now)) }
{
    match &part.kind {
        PartKind::Plain(_) => unseen(),
        PartKind::Exact(text) => quote_seen(is_nothing(text.bytes())),
        PartKind::Double(parts) => with_both(
            quote_seen(has_no_part(parts.as_slice())),
            seen_in(true, parts.as_slice()),
        ),
        PartKind::Tilde => unseen(),
        PartKind::Param { param, op } => {
            with_both(list_seen(quoted, param), seen_in_op(quoted, op))
        }
        PartKind::Subst(_) => unseen(),
        PartKind::Arith(_) => unseen(),
    }
}

#[cycle(seen)]
fn seen_in(quoted: bool, parts: &[Part]) -> Seen
    ensures { result ≡ seen_of (lists.seen_in quoted (parts_of (map view_part parts.now))) }
{
    let mut seen = unseen();
    for part in parts {
        seen = with_both(seen, seen_in_part(quoted, part));
    }
    seen
}

#[cycle(seen)]
fn seen_in_op(quoted: bool, op: &ParamOp) -> Seen
    ensures { result ≡ seen_of (lists.seen_in_op quoted (view_op op.now)) }
{
    match op {
        ParamOp::Plain => unseen(),
        ParamOp::Length => unseen(),
        ParamOp::Fill {
            test: _,
            colon: _,
            word,
        } => seen_in(quoted, word.parts.as_slice()),
        ParamOp::Trim {
            suffix: _,
            longest: _,
            pattern,
        } => seen_in(quoted, pattern.parts.as_slice()),
    }
}

fn is_crowded(seen: Seen) -> bool
    ensures { (s : lists.Seen) → seen ≡ seen_of s → result ≡ lists.is_crowded s }
{
    matches!(seen.lists, Count::More) || (seen.quoted_list && seen.empty_quote)
}

/// Whether two lists stand in a word, or a quoted one beside a written empty quote.
#[tactic(auto, unfolding(sh_meaning::specs::Lists::has_crowded_lists))]
pub fn has_crowded_lists(parts: &[Part]) -> bool
    ensures { result ≡ lists.has_crowded_lists (parts_of (map view_part parts.now)) }
{
    is_crowded(seen_in(false, parts))
}
