//! A variable gets a text.

ghost use Rattle.std.specs.Prelude.{◌≡◌, OnOk};
ghost use Rattle.shell_world.specs.Texts.{lookup};
ghost use Rattle.sh_meaning.specs.Variables as variables;

use sh_meaning::Variable;
use shell_world::TextMap;
use span_text::{Memory, Text};
use std::alloc::Global;

fn is_exported(name: &[u8], vars: &TextMap<Variable>) -> bool
    ensures { result ≡ (variables.variable_or_new (lookup name.now vars.now)).exported }
{
    match vars.get(name) {
        None => false,
        Some(variable) => variable.exported,
    }
}

/// Gives a variable this text; it keeps its export mark. Where memory is missing the variables stay as they are.
pub fn assign(
    alloc: Global,
    name: &[u8],
    text: Text,
    vars: &mut TextMap<Variable>,
) -> Result<(), Memory>
    ensures { OnOk result (vars.new ≡ variables.assign name.now text vars.old) }
{
    let exported = is_exported(name, vars);
    let key = Text::copy(alloc, name)?;
    vars.insert(
        key,
        Variable {
            value: Some(text),
            exported,
        },
    )
}
