//! Variables of a run.

ghost use Rattle.std.specs.Prelude.{◌≡◌, ◌++◌, [], false, IfOk, OnOk, codes};
ghost use Rattle.shell_world.specs.Texts.{lookup};
ghost use Rattle.shell_world.specs.World.{start_ifs};
ghost use Rattle.bash_meaning.specs.Variables as meaning;
ghost use Rattle.bash_interp.specs.Shells.{scopes_of, marks_of};
ghost use Rattle.bash_meaning.specs.declared.cell.Value.TheVariants.{One};

use crate::shell::Shell;
use bash_meaning::{Cell, Value};
use shell_world::TextMap;
use span_text::{List, Memory, Text};
use std::alloc::Global;

/// The text of a variable, empty where it has none.
pub fn text_of<'s>(bottom: &'s TextMap<Cell>, name: &[u8]) -> &'s [u8]
    ensures { result.now ≡ meaning.text_of name.now (scopes_of bottom.now) }
{
    match bottom.get(name) {
        Some(cell) => value_text(&cell.value),
        None => &[],
    }
}

fn value_text(value: &Value) -> &[u8]
    ensures { result.now ≡ meaning.text_of_value value.now }
{
    match value {
        Value::Unset => &[],
        Value::One(text) => text.bytes(),
    }
}

/// The marks of a variable's cell: whether it is exported, and whether it is associative.
fn marks(bottom: &TextMap<Cell>, name: &[u8]) -> (bool, bool)
    ensures { result ≡ marks_of (meaning.cell_or_new (lookup name.now bottom.now)) }
{
    match bottom.get(name) {
        Some(cell) => (cell.exported, cell.assoc),
        None => (false, false),
    }
}

/// Gives a variable a text. Its marks stay.
pub fn assign(bottom: &mut TextMap<Cell>, name: Text, text: Text) -> Result<(), Memory>
    ensures { OnOk result (scopes_of bottom.new ≡ meaning.assign name text (scopes_of bottom.old)) }
{
    let (exported, assoc) = marks(bottom, name.bytes());
    bottom.insert(
        name,
        Cell {
            value: Value::One(text),
            exported,
            assoc,
        },
    )
}

/// Puts a variable behind the others, where it is exported and has a text.
fn push_exported(
    alloc: Global,
    name: &Text,
    cell: &Cell,
    all: &mut List<(Text, Text)>,
) -> Result<(), Memory>
    ensures { OnOk result (all.new ≡ all.old ++ meaning.put_value name.now cell.now.exported cell.now.value []) }
{
    match &cell.value {
        Value::Unset => Ok(()),
        Value::One(text) => {
            if cell.exported {
                all.push((
                    Text::copy(alloc, name.bytes())?,
                    Text::copy(alloc, text.bytes())?,
                ))
            } else {
                Ok(())
            }
        }
    }
}

/// The variables that are exported and have a text, in the order of their names.
pub fn environment(alloc: Global, bottom: &TextMap<Cell>) -> Result<List<(Text, Text)>, Memory>
    ensures { IfOk result (λ l. l ≡ meaning.environment (scopes_of bottom.now)) }
{
    let mut all = List::new(alloc);
    for entry in bottom.entries() {
        push_exported(alloc, &entry.0, &entry.1, &mut all)?;
    }
    Ok(all)
}

fn holding(text: Text, exported: bool) -> Cell
    ensures { result ≡ record { value = One text; exported = exported; assoc = false } }
{
    Cell {
        value: Value::One(text),
        exported,
        assoc: false,
    }
}

/// The variables of an environment.
fn imported(alloc: Global, env: &[(Text, Text)]) -> Result<TextMap<Cell>, Memory>
    ensures { IfOk result (λ m. m ≡ meaning.start_cells env.now) }
{
    let mut vars = TextMap::new(alloc);
    // From the last one on, so that the first of a name counts.
    for behind in 0..env.len() {
        let (name, text) = &env[env.len() - 1 - behind];
        let variable = holding(Text::copy(alloc, text.bytes())?, true);
        vars.insert(Text::copy(alloc, name.bytes())?, variable)?;
    }
    Ok(vars)
}

/// The variables at a shell's start: the environment, and IFS, which isn't exported.
pub fn start(alloc: Global, env: &[(Text, Text)]) -> Result<TextMap<Cell>, Memory>
    ensures { IfOk result (λ m. scopes_of m ≡ meaning.start_scopes env.now (codes "IFS") start_ifs) }
{
    let mut vars = imported(alloc, env)?;
    let ifs = holding(Text::copy(alloc, b" \t\n")?, false);
    vars.insert(Text::copy(alloc, b"IFS")?, ifs)?;
    Ok(vars)
}
