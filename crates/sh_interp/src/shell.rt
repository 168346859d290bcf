//! The state of a run.

ghost use Rattle.std.specs.Prelude.{◌≡◌, IfOk};
ghost use Rattle.std.specs.Option.{option_copied};
ghost use Rattle.sh_interp.specs.Views.{whole_of};

use sh_builtins::Environment;
use sh_meaning::Variable;
use sh_syntax::Command;
use shell_world::{Outside, TextMap, World, copy_texts};
use span_text::{List, Memory, Text};
use std::alloc::Global;

/// What is the same for all commands of a run.
#[derive(Clone, Copy)]
pub struct Setting<'s> {
    pub world: &'s World,
    /// The functions that the script defines anywhere.
    pub functions: &'s [Text],
}

/// A shell environment (POSIX XCU 2.12) with its functions, whose bodies stand in the script.
#[derive(Drop)]
pub struct Whole<'s> {
    pub env: Environment,
    pub functions: TextMap<&'s Command>,
}

/// A run: the shell environment, and the outside and the bounds that it runs in.
#[derive(Drop)]
pub struct Shell<'s> {
    pub own: Whole<'s>,
    pub outside: Outside<'s>,
    /// The turns, and the levels of calls, that are left.
    pub turns: u32,
    pub levels: u32,
    pub alloc: Global,
}

fn copy_variable(alloc: Global, variable: &Variable) -> Result<Variable, Memory>
    ensures { IfOk result (λ v. v ≡ variable.now) }
{
    let value = match &variable.value {
        None => None,
        Some(text) => Some(Text::copy(alloc, text.bytes())?),
    };
    Ok(Variable {
        value,
        exported: variable.exported,
    })
}

/// The variable that an entry has, where there is one.
pub fn copy_found(alloc: Global, found: Option<&Variable>) -> Result<Option<Variable>, Memory>
    ensures { IfOk result (λ v. v ≡ option_copied found.entry) }
{
    match found {
        None => Ok(None),
        Some(variable) => Ok(Some(copy_variable(alloc, variable)?)),
    }
}

fn copy_entry(alloc: Global, entry: &(Text, Variable)) -> Result<(Text, Variable), Memory>
    ensures { IfOk result (λ e. e ≡ entry.now) }
{
    Ok((
        Text::copy(alloc, entry.0.bytes())?,
        copy_variable(alloc, &entry.1)?,
    ))
}

fn copy_variables(alloc: Global, vars: &TextMap<Variable>) -> Result<TextMap<Variable>, Memory>
    ensures { IfOk result (λ m. m ≡ vars.now) }
{
    let mut copied = List::new(alloc);
    let entries = vars.entries();
    for entry in entries {
        copied.push(copy_entry(alloc, entry)?)?;
    }
    Ok(TextMap::from_list(copied))
}

fn copy_function<'s>(
    alloc: Global,
    entry: &(Text, &'s Command),
) -> Result<(Text, &'s Command), Memory>
    ensures { IfOk result (λ e. e ≡ entry.now) }
{
    Ok((Text::copy(alloc, entry.0.bytes())?, entry.1))
}

fn copy_functions<'s>(
    alloc: Global,
    functions: &TextMap<&'s Command>,
) -> Result<TextMap<&'s Command>, Memory>
    ensures { IfOk result (λ m. m ≡ functions.now) }
{
    let mut copied = List::new(alloc);
    let entries = functions.entries();
    for entry in entries {
        copied.push(copy_function(alloc, entry)?)?;
    }
    Ok(TextMap::from_list(copied))
}

impl<'s> Whole<'s> {
    /// The same environment once more, which is kept while a subshell changes this one.
    pub fn copy(&self, alloc: Global) -> Result<Whole<'s>, Memory>
        ensures { IfOk result (λ w. whole_of w ≡ whole_of self.now) }
    {
        let env = Environment {
            vars: copy_variables(alloc, &self.env.vars)?,
            params: copy_texts(alloc, &self.env.params)?,
            status: self.env.status,
            fds: self.env.fds.copy(),
        };
        Ok(Whole {
            env,
            functions: copy_functions(alloc, &self.functions)?,
        })
    }
}
