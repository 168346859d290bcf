//! Redirections as they are written (POSIX XCU 2.7).

ghost use Rattle.std.specs.Prelude.{◌≡◌, map};
ghost use Rattle.sh_meaning.specs.Redirecting as redirecting;
ghost use Rattle.sh_syntax.specs.View.{parts_of, view_operator, view_part, view_part_kind};
ghost use Rattle.sh_checks.specs.Plain.{plain_of};

use sh_syntax::{Part, PartKind, RedirectOp};

/// The descriptor where none is written.
fn default_fd(op: RedirectOp) -> u8
    ensures { result ≡ redirecting.default_fd (view_operator op) }
{
    match op {
        RedirectOp::Read | RedirectOp::HereLiteral | RedirectOp::HereExpanded => 0,
        RedirectOp::CopyIn => 0,
        RedirectOp::Write | RedirectOp::Append | RedirectOp::CopyOut => 1,
    }
}

/// The descriptor of a redirection.
pub fn fd_of(fd: Option<u8>, op: RedirectOp) -> u8
    ensures { result ≡ redirecting.fd_of fd (view_operator op) }
{
    match fd {
        None => default_fd(op),
        Some(fd) => fd,
    }
}

#[tactic(auto, using(sh_syntax::proofs::Views::plain_is, sh_syntax::proofs::Views::exact_is, sh_syntax::proofs::Views::double_is, sh_syntax::proofs::Views::param_is, sh_syntax::proofs::Views::tilde_is, sh_syntax::proofs::Views::subst_is, sh_syntax::proofs::Views::arith_part_is))]
fn plain_of(kind: &PartKind) -> &[u8]
    ensures { result.now ≡ plain_of (view_part_kind kind.now) }
{
    match kind {
        PartKind::Plain(text) => text.bytes(),
        PartKind::Exact(_) => b"",
        PartKind::Double(_) => b"",
        PartKind::Tilde => b"",
        PartKind::Param { .. } => b"",
        PartKind::Subst(_) => b"",
        PartKind::Arith(_) => b"",
    }
}

/// The text of a word that is one plain part, as a digit, `-` and a here-document that isn't expanded are.
pub fn plain_text(parts: &[Part]) -> &[u8]
    ensures { result.now ≡ redirecting.plain_text (parts_of (map view_part parts.now)) }
{
    match parts {
        [] => b"",
        [first, ..] => plain_of(&first.kind),
    }
}
