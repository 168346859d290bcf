//! Simple commands as they are written (POSIX XCU 2.9.1).

ghost use Rattle.std.specs.Prelude.{◌≡◌, ◌++◌, ◌∷◌, [], map, IfOk, OnOk};
ghost use Rattle.sh_meaning.specs.Simple as simple;
ghost use Rattle.sh_syntax.specs.View.{assigns_of, view_assign};

use sh_syntax::Assign;
use span_text::{List, Memory, Text};
use std::alloc::Global;

/// Whether assignments stand before a command.
#[tactic(auto, using(crate::proofs::Loops::some_assigns))]
pub fn has_assigns(assigns: &[Assign]) -> bool
    ensures { result ≡ simple.has_assigns (assigns_of (map view_assign assigns.now)) }
{
    !assigns.is_empty()
}

/// A copy of a name comes behind others.
pub(crate) fn add_name(alloc: Global, name: &[u8], names: &mut List<Text>) -> Result<(), Memory>
    ensures { OnOk result (names.new ≡ names.old ++ name.now ∷ []) }
{
    names.push(Text::copy(alloc, name)?)?;
    Ok(())
}

/// The names that are assigned to, in their order.
pub fn names_of(alloc: Global, assigns: &[Assign]) -> Result<List<Text>, Memory>
    ensures { IfOk result (λ names. names ≡ simple.names_of (assigns_of (map view_assign assigns.now))) }
{
    let mut names = List::new(alloc);
    for assign in assigns {
        add_name(alloc, assign.name.text.bytes(), &mut names)?;
    }
    Ok(names)
}
