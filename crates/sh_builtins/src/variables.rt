//! Variables, `export` and `unset` (POSIX XCU 2.5.3, 2.14).

ghost use Rattle.std.specs.Prelude.{◌≡◌, ◌++◌, [], drop, map, length, nat_le, ◌&&◌, IfOk, OnOk, codes};
ghost use Rattle.std.specs.List.{list_all, prefix_len};
ghost use Rattle.std.specs.Option.{option_copied};
ghost use Rattle.span_text.specs.KnownNames.{is_among};
ghost use Rattle.span_text.specs.Names as names;
ghost use Rattle.shell_world.specs.Texts.{lookup};
ghost use Rattle.shell_world.specs.World.{start_ifs};
ghost use Rattle.sh_syntax.specs.View.{view_word, words_of};
ghost use Rattle.sh_meaning.specs.Variables as variables;
ghost use Rattle.sh_meaning.specs.builtins.Ends.{ends};
ghost use Rattle.sh_meaning.specs.builtins.Export as operands;
ghost use Rattle.sh_meaning.specs.builtins.Variables as builtins;
ghost use Rattle.sh_builtins.specs.Views.{Changes, core_of, form_of};

use crate::environment::Environment;
use crate::flow::{Flow, Stop};
use crate::form::{Form, are_written};
use crate::names::is_word;
use crate::operands::{are_operands, equals_at};
use sh_meaning::Variable;
use shell_world::TextMap;
use span_text::{List, Memory, Text, is_name};
use std::alloc::Global;

/// The text of a variable that has one (2.5.3).
pub fn value_at<'s>(vars: &'s TextMap<Variable>, name: &[u8]) -> Option<&'s [u8]>
    ensures { option_copied result ≡ builtins.value_at name.now vars.now }
{
    match vars.get(name) {
        Some(
            Variable {
                value: Some(text),
                exported: _,
            },
        ) => Some(text.bytes()),
        _ => None,
    }
}

fn is_exported(vars: &TextMap<Variable>, name: &[u8]) -> bool
    ensures { result ≡ (variables.variable_or_new (lookup name.now vars.now)).exported }
{
    match vars.get(name) {
        Some(variable) => variable.exported,
        None => false,
    }
}

fn holding(text: Text, exported: bool) -> Variable
    ensures { result ≡ record { value = Some text; exported = exported } }
{
    Variable {
        value: Some(text),
        exported,
    }
}

/// Gives a variable a text. Its export mark stays.
pub fn assign(vars: &mut TextMap<Variable>, name: Text, text: Text) -> Result<(), Memory>
    ensures { OnOk result (vars.new ≡ variables.assign name text vars.old) }
{
    let exported = is_exported(vars, name.bytes());
    vars.insert(name, holding(text, exported))
}

/// Puts a variable behind the others, where it is exported and has a text.
fn push_exported(
    alloc: Global,
    name: &Text,
    variable: &Variable,
    all: &mut List<(Text, Text)>,
) -> Result<(), Memory>
    ensures { OnOk result (all.new ≡ all.old ++ variables.put_value name.now variable.now.exported variable.now.value []) }
{
    match &variable.value {
        None => Ok(()),
        Some(text) => {
            if variable.exported {
                all.push((
                    Text::copy(alloc, name.bytes())?,
                    Text::copy(alloc, text.bytes())?,
                ))
            } else {
                Ok(())
            }
        }
    }
}

/// What an external command sees: the variables that are exported and have a text, in the order of their names (2.9.1.4).
pub fn exported_environment(
    alloc: Global,
    vars: &TextMap<Variable>,
) -> Result<List<(Text, Text)>, Memory>
    ensures { IfOk result (λ l. l ≡ variables.environment vars.now) }
{
    let mut all = List::new(alloc);
    for entry in vars.entries() {
        push_exported(alloc, &entry.0, &entry.1, &mut all)?;
    }
    Ok(all)
}

/// The variables of an environment.
fn imported(alloc: Global, env: &[(Text, Text)]) -> Result<TextMap<Variable>, Memory>
    ensures { IfOk result (λ m. m ≡ variables.start_imported env.now) }
{
    let mut vars = TextMap::new(alloc);
    // From the last one on, so that the first of a name counts.
    for behind in 0..env.len() {
        let (name, text) = &env[env.len() - 1 - behind];
        let variable = holding(Text::copy(alloc, text.bytes())?, true);
        vars.insert(Text::copy(alloc, name.bytes())?, variable)?;
    }
    Ok(vars)
}

/// The variables at a shell's start: the environment, and IFS, which isn't exported.
pub fn start_variables(alloc: Global, env: &[(Text, Text)]) -> Result<TextMap<Variable>, Memory>
    ensures { IfOk result (λ m. m ≡ variables.start_variables env.now (codes "IFS") start_ifs) }
{
    let mut vars = imported(alloc, env)?;
    let ifs = holding(Text::copy(alloc, b" \t\n")?, false);
    vars.insert(Text::copy(alloc, b"IFS")?, ifs)?;
    Ok(vars)
}

// ---- `export`

/// A copy of a variable's text, where it has one.
fn copy_value(alloc: Global, vars: &TextMap<Variable>, name: &[u8]) -> Result<Option<Text>, Memory>
    ensures { IfOk result (λ value. value ≡ (variables.variable_or_new (lookup name.now vars.now)).value) }
{
    match vars.get(name) {
        Some(
            Variable {
                value: Some(text),
                exported: _,
            },
        ) => Ok(Some(Text::copy(alloc, text.bytes())?)),
        _ => Ok(None),
    }
}

/// Gives a variable a text and the export mark, or the mark alone where nothing stands from the `=` on.
fn export_as(
    alloc: Global,
    name: &[u8],
    from_equals: &[u8],
    vars: &mut TextMap<Variable>,
) -> Result<(), Memory>
    ensures { OnOk result (vars.new ≡ builtins.exported_as name.now from_equals.now vars.old) }
{
    let value = match from_equals {
        [] => copy_value(alloc, vars, name)?,
        [_, text @ ..] => Some(Text::copy(alloc, text)?),
    };
    vars.insert(
        Text::copy(alloc, name)?,
        Variable {
            value,
            exported: true,
        },
    )
}

fn export_one(alloc: Global, operand: &[u8], vars: &mut TextMap<Variable>) -> Result<(), Memory>
    ensures { OnOk result (vars.new ≡ builtins.export_one operand.now vars.old) }
{
    let at = equals_at(operand);
    export_as(alloc, &operand[..at], &operand[at..], vars)
}

fn export_all(alloc: Global, args: &[Text], vars: &mut TextMap<Variable>) -> Result<(), Memory>
    ensures { OnOk result (vars.new ≡ builtins.export_all args.now vars.old) }
{
    for operand in args {
        export_one(alloc, operand.bytes(), vars)?;
    }
    Ok(())
}

/// Whether an operand has a name before its first `=`.
fn has_name(operand: &[u8]) -> bool
    ensures { result ≡ names.is_name (operands.name_of operand.now) }
{
    is_name(&operand[..equals_at(operand)])
}

fn have_names(args: &[Text]) -> bool
    ensures { result ≡ list_all (λ operand. names.is_name (operands.name_of operand)) args.now }
{
    args.iter().all(|operand| has_name(operand.bytes()))
}

fn can_export(form: &Form, args: &[Text]) -> bool
    ensures { result ≡ builtins.can_export (form_of form.now) args.now }
{
    !args.is_empty() && have_names(args) && are_operands(form.words, args.len())
}

/// `export name`, `export name=text`: the variable is exported from then on. Without operands, with another name, and in
/// another form it is unspecified.
pub fn export(
    alloc: Global,
    form: &Form,
    args: &[Text],
    env: &mut Environment,
) -> Result<Flow, Stop>
    ensures { Changes (builtins.export_run (form_of form.now) args.now (core_of env.old)) env.new result }
{
    if !can_export(form, args) {
        return Err(Stop::Unspecified);
    }
    export_all(alloc, args, &mut env.vars)?;
    env.status = 0;
    Ok(Flow::Normal)
}

// ---- `unset`

fn unset_one(alloc: Global, name: &[u8], vars: &mut TextMap<Variable>) -> Result<(), Memory>
    ensures { OnOk result (vars.new ≡ builtins.unset_one name.now vars.old) }
{
    vars.insert(
        Text::copy(alloc, name)?,
        Variable {
            value: None,
            exported: false,
        },
    )
}

fn unset_all(alloc: Global, names: &[Text], vars: &mut TextMap<Variable>) -> Result<(), Memory>
    ensures { OnOk result (vars.new ≡ builtins.unset_all names.now vars.old) }
{
    for name in names {
        unset_one(alloc, name.bytes(), vars)?;
    }
    Ok(())
}

/// Whether a text is one of these names.
pub fn is_among(names: &[Text], text: &[u8]) -> bool
    ensures { result ≡ is_among names.now text.now }
{
    names.iter().any(|name| is_word(name.bytes(), text))
}

fn is_unset_name(form: &Form, name: &[u8]) -> bool
    ensures { result ≡ builtins.is_unset_name (form_of form.now) name.now }
{
    is_name(name) && !is_among(form.functions, name)
}

fn are_unset_names(form: &Form, names: &[Text]) -> bool
    ensures { result ≡ list_all (builtins.is_unset_name (form_of form.now)) names.now }
{
    names.iter().all(|name| is_unset_name(form, name.bytes()))
}

/// The names stand behind so many words.
fn unset_names(
    alloc: Global,
    behind: usize,
    form: &Form,
    names: &[Text],
    env: &mut Environment,
) -> Result<Flow, Stop>
    ensures { Changes (builtins.unset_names behind (form_of form.now) names.now (core_of env.old)) env.new result }
{
    let fits = !names.is_empty()
        && are_unset_names(form, names)
        && are_written(form.words, behind, names.len());
    if !fits {
        return Err(Stop::Unspecified);
    }
    unset_all(alloc, names, &mut env.vars)?;
    env.status = 0;
    Ok(Flow::Normal)
}

/// `unset name`, `unset -v name`: the variable has neither a text nor the export mark from then on. Without names, with a
/// word that is no literal name, and with the name of a function it is unspecified.
pub fn unset(alloc: Global, form: &Form, args: &[Text], env: &mut Environment) -> Result<Flow, Stop>
    ensures { Changes (builtins.unset_run (form_of form.now) args.now (core_of env.old)) env.new result }
{
    match args {
        [] => Err(Stop::Unspecified),
        [first, more @ ..] => {
            if is_word(b"-v", first.bytes()) {
                unset_names(alloc, 2, form, more, env)
            } else {
                unset_names(alloc, 1, form, args, env)
            }
        }
    }
}
