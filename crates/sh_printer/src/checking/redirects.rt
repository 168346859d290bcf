//! Redirections, as pieces that are checked (POSIX 2.7).

ghost use Rattle.std.specs.Prelude.{◌≡◌, ◌≤◌, ◌+◌, map, true};
ghost use Rattle.sh_printer.specs.Checks.{NodeSplits, check_holds, check_weight, target_fits};
ghost use Rattle.sh_printer.specs.Weights.{parts_weight};
ghost use Rattle.sh_printer.specs.declared.checking.checks.CheckNode.TheVariants as node;
ghost use Rattle.sh_printer.specs.declared.checking.checks.WordCheck.TheVariants as checks;
ghost use Rattle.sh_printing.specs.Printable.{word_fits};
ghost use Rattle.sh_syntax.specs.View.{parts_of, view_part, view_redirect};

use crate::checking::checks::{Check, CheckNode, Checks, Nesting, WordCheck};
use crate::checking::names::fd_fits;
use crate::checking::parts::{ends_line, is_copied_word, literal_body};
use crate::checking::words::known;
use crate::context::Context;
use sh_syntax::{Part, Redirect, RedirectOp};

/// The first redirection, and those behind it.
pub fn redirects_apart<'a>(redirects: &'a [Redirect], nesting: Nesting) -> Checks<'a>
    ensures { NodeSplits (node.Word (checks.Redirects redirects.entry)) nesting result }
{
    match redirects {
        [] => known(true),
        [first, ..] => {
            let (_, rest) = redirects.split_at(1);
            let behind = WordCheck::Redirects(rest);
            Checks {
                first: Check::Known(fd_fits(first.fd)),
                second: target_check(first, nesting),
                rest: Check::Node(CheckNode::Word(behind), nesting),
            }
        }
    }
}

/// What is to hold of the word of a redirection, or of the body of a here-document.
fn target_check<'a>(redirect: &'a Redirect, nesting: Nesting) -> Check<'a>
    ensures holds { check_holds result ≡ target_fits nesting.in_body nesting.depth (view_redirect redirect.now).op (view_redirect redirect.now).word }
    ensures weight { check_weight result ≤ parts_weight (view_redirect redirect.now).word + 2 }
{
    let parts = redirect.word.parts.as_slice();
    match redirect.op {
        RedirectOp::Read => word_check(parts, nesting),
        RedirectOp::Write => word_check(parts, nesting),
        RedirectOp::Append => word_check(parts, nesting),
        RedirectOp::HereLiteral => Check::Known(literal_body(nesting.in_body, parts)),
        RedirectOp::HereExpanded => Check::Node(CheckNode::Word(WordCheck::Body(parts)), nesting),
        RedirectOp::CopyIn => Check::Known(is_copied_word(parts)),
        RedirectOp::CopyOut => Check::Known(is_copied_word(parts)),
    }
}

fn word_check<'a>(parts: &'a [Part], nesting: Nesting) -> Check<'a>
    ensures holds { check_holds result ≡ word_fits nesting.in_body nesting.depth true (parts_of (map view_part parts.now)) }
    ensures weight { check_weight result ≡ parts_weight (parts_of (map view_part parts.now)) + 2 }
{
    Check::Node(CheckNode::Word(WordCheck::Word(parts, true)), nesting)
}

/// The body of a here-document that is expanded (2.7.4).
pub fn body_apart<'a>(parts: &'a [Part], nesting: Nesting) -> Checks<'a>
    ensures { NodeSplits (node.Word (checks.Body parts.entry)) nesting result }
{
    let inside = Nesting {
        in_body: true,
        depth: nesting.depth,
    };
    let body = WordCheck::Parts(parts, Context::Body);
    Checks {
        first: Check::Known(true),
        second: Check::Known(ends_line(parts)),
        rest: Check::Node(CheckNode::Word(body), inside),
    }
}
