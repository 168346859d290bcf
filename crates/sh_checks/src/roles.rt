//! What a word is in its command (POSIX XCU 2.9.1, 2.14). `name=word` behind a literal `export` expands as an assignment does.

ghost use Rattle.std.specs.Prelude.{◌≡◌, map};
ghost use Rattle.std.specs.Option.{option_copied};
ghost use Rattle.shell_world.specs.Paths.{behind};
ghost use Rattle.sh_meaning.specs.Simple as simple;
ghost use Rattle.sh_syntax.specs.View.{parts_of, view_part, view_part_kind, view_word};
ghost use Rattle.sh_checks.specs.Roles.{behind_inner, behind_inside, behind_part, behind_parts, role_of};

use sh_syntax::{Part, PartKind, Word};

/// What a word is in its command.
#[derive(Clone, Copy, Debug, PartialEq, Eq)]
pub enum Role {
    /// The first word.
    Name,
    Argument,
    /// An operand of a literal `export`.
    Export,
}

/// What stands behind a front of a text.
fn behind<'t>(front: &[u8], text: &'t [u8]) -> Option<&'t [u8]>
    ensures { option_copied result ≡ behind front.now text.now }
{
    text.strip_prefix(front)
}

/// What stands behind a part between double quotes, where it is literal and the text begins with it.
#[tactic(auto, using(sh_syntax::proofs::Views::plain_is, sh_syntax::proofs::Views::exact_is, sh_syntax::proofs::Views::double_is, sh_syntax::proofs::Views::param_is, sh_syntax::proofs::Views::tilde_is, sh_syntax::proofs::Views::subst_is, sh_syntax::proofs::Views::arith_part_is))]
fn behind_inner<'t>(kind: &PartKind, text: &'t [u8]) -> Option<&'t [u8]>
    ensures { option_copied result ≡ behind_inner (view_part_kind kind.now) text.now }
{
    match kind {
        PartKind::Plain(front) => behind(front.bytes(), text),
        PartKind::Exact(front) => behind(front.bytes(), text),
        PartKind::Double(_) => None,
        PartKind::Tilde => None,
        PartKind::Param { .. } => None,
        PartKind::Subst(_) => None,
        PartKind::Arith(_) => None,
    }
}

fn behind_inside<'t>(parts: &[Part], text: &'t [u8]) -> Option<&'t [u8]>
    ensures { option_copied result ≡ behind_inside (parts_of (map view_part parts.now)) text.now }
{
    let mut rest = text;
    for part in parts {
        match behind_inner(&part.kind, rest) {
            None => return None,
            Some(behind) => rest = behind,
        }
    }
    Some(rest)
}

/// What stands behind a part, where it is literal and the text begins with it.
#[tactic(auto, using(sh_syntax::proofs::Views::plain_is, sh_syntax::proofs::Views::exact_is, sh_syntax::proofs::Views::double_is, sh_syntax::proofs::Views::param_is, sh_syntax::proofs::Views::tilde_is, sh_syntax::proofs::Views::subst_is, sh_syntax::proofs::Views::arith_part_is))]
fn behind_part<'t>(kind: &PartKind, text: &'t [u8]) -> Option<&'t [u8]>
    ensures { option_copied result ≡ behind_part (view_part_kind kind.now) text.now }
{
    match kind {
        PartKind::Plain(front) => behind(front.bytes(), text),
        PartKind::Exact(front) => behind(front.bytes(), text),
        PartKind::Double(parts) => behind_inside(parts.as_slice(), text),
        PartKind::Tilde => None,
        PartKind::Param { .. } => None,
        PartKind::Subst(_) => None,
        PartKind::Arith(_) => None,
    }
}

fn behind_parts<'t>(parts: &[Part], text: &'t [u8]) -> Option<&'t [u8]>
    ensures { option_copied result ≡ behind_parts (parts_of (map view_part parts.now)) text.now }
{
    let mut rest = text;
    for part in parts {
        match behind_part(&part.kind, rest) {
            None => return None,
            Some(behind) => rest = behind,
        }
    }
    Some(rest)
}

/// Whether a word is `export`, quoted or not, without expansions.
fn is_literal_export(word: &Word) -> bool
    ensures { result ≡ simple.is_literal_export (view_word word.now) }
{
    // The word has no byte that could begin a pattern, so neither has a part of it.
    match behind_parts(word.parts.as_slice(), b"export") {
        None => false,
        Some(rest) => rest.is_empty(),
    }
}

impl Role {
    /// What the word behind this one is.
    pub fn behind(self, word: &Word) -> Role
        ensures { role_of result ≡ simple.role_behind (role_of self) (view_word word.now) }
    {
        match self {
            Role::Name if is_literal_export(word) => Role::Export,
            Role::Name => Role::Argument,
            Role::Argument => Role::Argument,
            Role::Export => Role::Export,
        }
    }
}
