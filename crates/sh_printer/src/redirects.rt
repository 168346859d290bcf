//! Redirections and the bodies of here-documents, taken apart.

ghost use Rattle.std.specs.Prelude.{◌≡◌, ◌≤◌, ◌<◌, ◌+◌, ◌++◌, ◌∷◌, [], map, Bool, true, length, get_or, take, drop};
ghost use Rattle.sh_grammar.specs.Bytes.{in_body, in_word};
ghost use Rattle.sh_printer.specs.Codes.{view_end};
ghost use Rattle.sh_printing.specs.Marks.{blank, gap, ended, next};
ghost use Rattle.sh_printer.specs.Owed.{owed_text};
ghost use Rattle.sh_printer.specs.Pieces.{Comes, Apart, piece_text, piece_weight, owed_weight, owed_of, still_owed_behind, tail_text, tail_weight, delimiter_of, operator_text, target_text};
ghost use Rattle.sh_printing.specs.Printing.{parts_text, redirects_text};
ghost use Rattle.sh_printer.specs.Weights.{parts_weight};
ghost use Rattle.sh_syntax.specs.View.{view_operator, view_redirect, redirects_of};
ghost use Rattle.sh_printer.specs.declared.pieces.Node.TheVariants as node;
ghost use Rattle.sh_printer.specs.declared.pieces.WordPiece.TheVariants as word;

use crate::context::Context;
use crate::leaves::lead;
use crate::marks::End;
use crate::opening::{has_body, owed_behind_word, redirect_opens};
use crate::pieces::{Leaf, Node, Piece, Split, Tail, WordPiece};
use sh_syntax::{Redirect, RedirectOp};

/// A blank, or a newline and the bodies that are still to come.
pub fn gap(owed: &[Redirect]) -> Piece<'_>
    ensures text { (full : Bool) → piece_text full result ≡ gap (owed_text full (map view_redirect owed.now)) }
    ensures weight { piece_weight result ≤ owed_weight owed.now + 2 }
{
    if has_body(owed) {
        return Piece::Line(owed);
    }
    Piece::Leaf(Leaf::Bytes(b" "))
}

/// The next redirection, and those behind it.
pub fn redirects_apart<'a>(
    all: &'a [Redirect],
    done: usize,
    behind: bool,
    tail: Tail<'a>,
) -> Split<'a>
    ensures { Apart (node.Word (word.Redirects all.entry done behind tail.entry)) result }
{
    if done >= all.len() {
        return Split {
            first: Piece::Leaf(Leaf::Bytes(b"")),
            second: Piece::Leaf(Leaf::Bytes(b"")),
            rest: Piece::Node(Node::Word(WordPiece::Last(tail, all))),
        };
    }
    let (owed, _) = all.split_at(done);
    let next = &all[done];
    Split {
        first: Piece::Leaf(Leaf::Bytes(lead(behind))),
        second: Piece::Node(Node::Word(WordPiece::Redirect(next, owed))),
        rest: later_redirects(all, done, next, tail),
    }
}

/// The redirections behind the next one. Where a newline stood in its word, the bodies before it have come.
fn later_redirects<'a>(
    all: &'a [Redirect],
    done: usize,
    next: &Redirect,
    tail: Tail<'a>,
) -> Piece<'a>
    requires within { done < length all.now }
    requires next { next.now ≡ get_or all.now done next.now }
    ensures text { (full : Bool) → piece_text full result ≡ redirects_text full true (tail_text full tail.entry) (still_owed_behind full (view_redirect next.now) (owed_of full (take done all.now))) (redirects_of (map view_redirect (drop (done + 1) all.now))) }
    ensures weight { piece_weight result < owed_weight all.now + owed_weight (drop done all.now) + tail_weight tail.entry + 4 }
{
    if redirect_opens(next) {
        let (_, rest) = all.split_at(done + 1);
        return Piece::Node(Node::Word(WordPiece::Redirects(rest, 0, true, tail)));
    }
    Piece::Node(Node::Word(WordPiece::Redirects(all, done + 1, true, tail)))
}

/// The first of the words behind redirections, and those behind it; or what ends the command.
pub fn last_apart<'a>(tail: Tail<'a>, owed: &'a [Redirect]) -> Split<'a>
    ensures { Apart (node.Word (word.Last tail.entry owed.entry)) result }
{
    match tail.words {
        [] => end_apart(tail.end, owed),
        [first, ..] => {
            let (_, words) = tail.words.split_at(1);
            let end = tail.end;
            let parts = first.parts.as_slice();
            let later = owed_behind_word(owed, first);
            Split {
                first: Piece::Leaf(Leaf::Bytes(b" ")),
                second: Piece::Node(Node::Word(WordPiece::Parts(parts, Context::Word, owed))),
                rest: Piece::Node(Node::Word(WordPiece::Last(Tail { words, end }, later))),
            }
        }
    }
}

/// What ends a command, and the bodies that are still to come.
fn end_apart(end: End, owed: &[Redirect]) -> Split<'_>
    ensures { Comes (λ full. ended (view_end end) (owed_text full (map view_redirect owed.now))) (owed_weight owed.now + 3) result }
{
    match end {
        End::Piped => joint_apart(b" |", owed),
        End::AndThen => joint_apart(b" &&", owed),
        End::OrElse => joint_apart(b" ||", owed),
        End::Next => next_apart(owed),
        End::Line => whole_line(owed),
    }
}

fn joint_apart<'a>(mark: &'a [u8], owed: &'a [Redirect]) -> Split<'a>
    ensures { Comes (λ full. mark.now ++ gap (owed_text full (map view_redirect owed.now))) (owed_weight owed.now + 3) result }
{
    Split {
        first: Piece::Leaf(Leaf::Bytes(mark)),
        second: Piece::Leaf(Leaf::Bytes(b"")),
        rest: gap(owed),
    }
}

fn next_apart(owed: &[Redirect]) -> Split<'_>
    ensures { Comes (λ full. ended next (owed_text full (map view_redirect owed.now))) (owed_weight owed.now + 3) result }
{
    if has_body(owed) {
        return whole_line(owed);
    }
    Split {
        first: Piece::Leaf(Leaf::Bytes(b"; ")),
        second: Piece::Leaf(Leaf::Bytes(b"")),
        rest: Piece::Leaf(Leaf::Bytes(b"")),
    }
}

fn whole_line(owed: &[Redirect]) -> Split<'_>
    ensures { Comes (λ full. 10 ∷ owed_text full (map view_redirect owed.now)) (owed_weight owed.now + 3) result }
{
    Split {
        first: Piece::Leaf(Leaf::Bytes(b"")),
        second: Piece::Leaf(Leaf::Bytes(b"")),
        rest: Piece::Line(owed),
    }
}

/// `2>a`, `<<E`
pub fn redirect_apart<'a>(redirect: &'a Redirect, owed: &'a [Redirect]) -> Split<'a>
    ensures { Apart (node.Word (word.Redirect redirect.entry owed.entry)) result }
{
    Split {
        first: Piece::Leaf(Leaf::Fd(redirect.fd)),
        second: Piece::Leaf(Leaf::Bytes(operator(redirect.op))),
        rest: target(redirect, owed),
    }
}

/// The operator; that of a here-document stands with the delimiter.
fn operator(op: RedirectOp) -> &'static [u8]
    ensures { result.now ≡ operator_text (view_operator op) }
{
    match op {
        RedirectOp::Read => b"<",
        RedirectOp::Write => b">",
        RedirectOp::Append => b">>",
        RedirectOp::HereLiteral => b"",
        RedirectOp::HereExpanded => b"",
        RedirectOp::CopyIn => b"<&",
        RedirectOp::CopyOut => b">&",
    }
}

/// What stands behind the operator: a word, or a here-document's operator with the delimiter of its body.
fn target<'a>(redirect: &'a Redirect, owed: &'a [Redirect]) -> Piece<'a>
    ensures text { (full : Bool) → piece_text full result ≡ target_text (view_redirect redirect.now).op (delimiter_of full (view_redirect redirect.now).word) (parts_text full in_word (gap (owed_text full (map view_redirect owed.now))) (view_redirect redirect.now).word) }
    ensures weight { piece_weight result < parts_weight (view_redirect redirect.now).word + owed_weight owed.now + 15 }
{
    let word = redirect.word.parts.as_slice();
    match redirect.op {
        RedirectOp::HereLiteral => Piece::Here(word, true),
        RedirectOp::HereExpanded => Piece::Here(word, false),
        RedirectOp::Read => Piece::Node(Node::Word(WordPiece::Parts(word, Context::Word, owed))),
        RedirectOp::Write => Piece::Node(Node::Word(WordPiece::Parts(word, Context::Word, owed))),
        RedirectOp::Append => Piece::Node(Node::Word(WordPiece::Parts(word, Context::Word, owed))),
        RedirectOp::CopyIn => Piece::Node(Node::Word(WordPiece::Parts(word, Context::Word, owed))),
        RedirectOp::CopyOut => Piece::Node(Node::Word(WordPiece::Parts(word, Context::Word, owed))),
    }
}
