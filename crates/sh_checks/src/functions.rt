//! The functions that a script defines anywhere, inside substitutions too (POSIX XCU 2.9.5).

ghost use Rattle.std.specs.Prelude.{◌≡◌, ◌++◌, ◌∷◌, [], map, option_map, IfOk, OnOk};
ghost use Rattle.sh_meaning.specs.builtins.Functions as functions;
ghost use Rattle.sh_syntax.specs.View.{assigns_of, branches_of, case_items_of, items_of, links_of, otherwise_of, parts_of, redirects_of, stages_of, value_of, view, view_assign, view_case_item, view_command, view_function, view_item, view_kind, view_op, view_part, view_pipeline, view_redirect, view_value, view_word, words_of};
ghost use Rattle.sh_checks.specs.Branches.{branch_views, link_views};

use crate::commands::add_name;
use sh_syntax::{
    Assign, AssignValue, CaseItem, Command, CommandKind, Function, Item, Joint, ParamOp, Part,
    PartKind, Pipeline, Redirect, Script, Word,
};
use span_text::{List, Memory, Text};
use std::alloc::Global;

#[cycle(functions)]
fn add_in_part(alloc: Global, part: &Part, names: &mut List<Text>) -> Result<(), Memory>
    ensures { OnOk result (names.new ≡ names.old ++ functions.functions_of_part (view_part part.now)) }
{
    match &part.kind {
        PartKind::Plain(_) => Ok(()),
        PartKind::Exact(_) => Ok(()),
        PartKind::Double(parts) => add_in_parts(alloc, parts.as_slice(), names),
        PartKind::Tilde => Ok(()),
        PartKind::Param { param: _, op } => add_in_op(alloc, op, names),
        PartKind::Subst(script) => add_in_script(alloc, script, names),
        PartKind::Arith(arith) => add_in_words(alloc, arith.operands.as_slice(), names),
    }
}

#[cycle(functions)]
fn add_in_parts(alloc: Global, parts: &[Part], names: &mut List<Text>) -> Result<(), Memory>
    ensures { OnOk result (names.new ≡ names.old ++ functions.functions_of_parts (parts_of (map view_part parts.now))) }
{
    for part in parts {
        add_in_part(alloc, part, names)?;
    }
    Ok(())
}

#[cycle(functions)]
fn add_in_op(alloc: Global, op: &ParamOp, names: &mut List<Text>) -> Result<(), Memory>
    ensures { OnOk result (names.new ≡ names.old ++ functions.functions_of_op (view_op op.now)) }
{
    match op {
        ParamOp::Plain => Ok(()),
        ParamOp::Length => Ok(()),
        ParamOp::Fill {
            test: _,
            colon: _,
            word,
        } => add_in_parts(alloc, word.parts.as_slice(), names),
        ParamOp::Trim {
            suffix: _,
            longest: _,
            pattern,
        } => add_in_parts(alloc, pattern.parts.as_slice(), names),
    }
}

#[cycle(functions)]
fn add_in_words(alloc: Global, words: &[Word], names: &mut List<Text>) -> Result<(), Memory>
    ensures { OnOk result (names.new ≡ names.old ++ functions.functions_of_words (words_of (map view_word words.now))) }
{
    for word in words {
        add_in_parts(alloc, word.parts.as_slice(), names)?;
    }
    Ok(())
}

#[cycle(functions)]
fn add_in_optional(alloc: Global, word: &Option<Word>, names: &mut List<Text>) -> Result<(), Memory>
    ensures { OnOk result (names.new ≡ names.old ++ functions.functions_of_value (value_of (option_map view_word word.now))) }
{
    match word {
        None => Ok(()),
        Some(word) => add_in_parts(alloc, word.parts.as_slice(), names),
    }
}

#[cycle(functions)]
fn add_in_value(alloc: Global, value: &AssignValue, names: &mut List<Text>) -> Result<(), Memory>
    ensures { OnOk result (names.new ≡ names.old ++ functions.functions_of_value (view_value value.now)) }
{
    match value {
        AssignValue::Word(word) => add_in_optional(alloc, word, names),
    }
}

#[cycle(functions)]
fn add_in_assigns(alloc: Global, assigns: &[Assign], names: &mut List<Text>) -> Result<(), Memory>
    ensures { OnOk result (names.new ≡ names.old ++ functions.functions_of_assigns (assigns_of (map view_assign assigns.now))) }
{
    for assign in assigns {
        add_in_value(alloc, &assign.value, names)?;
    }
    Ok(())
}

#[cycle(functions)]
fn add_in_redirects(
    alloc: Global,
    redirects: &[Redirect],
    names: &mut List<Text>,
) -> Result<(), Memory>
    ensures { OnOk result (names.new ≡ names.old ++ functions.functions_of_redirects (redirects_of (map view_redirect redirects.now))) }
{
    for redirect in redirects {
        add_in_parts(alloc, redirect.word.parts.as_slice(), names)?;
    }
    Ok(())
}

#[cycle(functions)]
fn add_in_command(alloc: Global, command: &Command, names: &mut List<Text>) -> Result<(), Memory>
    ensures { OnOk result (names.new ≡ names.old ++ functions.functions_of_command (view_command command.now)) }
{
    add_in_kind(alloc, &command.kind, names)?;
    add_in_redirects(alloc, command.redirects.as_slice(), names)
}

#[cycle(functions)]
fn add_in_kind(alloc: Global, kind: &CommandKind, names: &mut List<Text>) -> Result<(), Memory>
    ensures { OnOk result (names.new ≡ names.old ++ functions.functions_of_kind (view_kind kind.now)) }
{
    match kind {
        CommandKind::Simple { assigns, words } => {
            add_in_assigns(alloc, assigns.as_slice(), names)?;
            add_in_words(alloc, words.as_slice(), names)
        }
        CommandKind::Group(script) => add_in_script(alloc, script, names),
        CommandKind::Subshell(script) => add_in_script(alloc, script, names),
        CommandKind::If { parts, otherwise } => {
            add_in_branches(alloc, parts.as_slice(), names)?;
            add_in_otherwise(alloc, otherwise, names)
        }
        CommandKind::Loop {
            until: _,
            test,
            body,
        } => {
            add_in_script(alloc, test, names)?;
            add_in_script(alloc, body, names)
        }
        CommandKind::For {
            name: _,
            words,
            body,
        } => match words {
            None => add_in_script(alloc, body, names),
            Some(words) => {
                add_in_words(alloc, words.as_slice(), names)?;
                add_in_script(alloc, body, names)
            }
        },
        CommandKind::Case { subject, items } => {
            add_in_parts(alloc, subject.parts.as_slice(), names)?;
            add_in_items(alloc, items.as_slice(), names)
        }
        CommandKind::Function(function) => add_function(alloc, function, names),
    }
}

/// `f() { a; }`
#[cycle(functions)]
fn add_function(alloc: Global, function: &Function, names: &mut List<Text>) -> Result<(), Memory>
    ensures { OnOk result (names.new ≡ names.old ++ (view_function function.now).0 ∷ functions.functions_of_command (view_function function.now).1) }
{
    add_name(alloc, function.name.text.bytes(), names)?;
    add_in_command(alloc, function.body.get(), names)
}

/// `if a; then b; elif c; then d;`
#[cycle(functions)]
fn add_in_branches(
    alloc: Global,
    branches: &[(Script, Script)],
    names: &mut List<Text>,
) -> Result<(), Memory>
    ensures { OnOk result (names.new ≡ names.old ++ functions.functions_of_branches (branches_of (branch_views branches.now))) }
{
    for branch in branches {
        add_in_script(alloc, &branch.0, names)?;
        add_in_script(alloc, &branch.1, names)?;
    }
    Ok(())
}

#[cycle(functions)]
fn add_in_otherwise(
    alloc: Global,
    otherwise: &Option<Script>,
    names: &mut List<Text>,
) -> Result<(), Memory>
    ensures { OnOk result (names.new ≡ names.old ++ functions.functions_of_otherwise (otherwise_of (option_map view otherwise.now))) }
{
    match otherwise {
        None => Ok(()),
        Some(script) => add_in_script(alloc, script, names),
    }
}

/// `(a) b ;; (c) d ;;`
#[cycle(functions)]
fn add_in_items(alloc: Global, items: &[CaseItem], names: &mut List<Text>) -> Result<(), Memory>
    ensures { OnOk result (names.new ≡ names.old ++ functions.functions_of_items (case_items_of (map view_case_item items.now))) }
{
    for item in items {
        add_in_words(alloc, item.patterns.as_slice(), names)?;
        add_in_script(alloc, &item.body, names)?;
    }
    Ok(())
}

/// `a | b`
#[cycle(functions)]
fn add_in_stages(alloc: Global, stages: &[Command], names: &mut List<Text>) -> Result<(), Memory>
    ensures { OnOk result (names.new ≡ names.old ++ functions.functions_of_stages (stages_of (map view_command stages.now))) }
{
    for stage in stages {
        add_in_command(alloc, stage, names)?;
    }
    Ok(())
}

/// `&& a || b`
#[cycle(functions)]
fn add_in_links(
    alloc: Global,
    links: &[(Joint, Pipeline)],
    names: &mut List<Text>,
) -> Result<(), Memory>
    ensures { OnOk result (names.new ≡ names.old ++ functions.functions_of_links (links_of (link_views links.now))) }
{
    for link in links {
        add_in_stages(alloc, link.1.stages.as_slice(), names)?;
    }
    Ok(())
}

#[cycle(functions)]
fn add_in_item(alloc: Global, item: &Item, names: &mut List<Text>) -> Result<(), Memory>
    ensures { OnOk result (names.new ≡ names.old ++ functions.functions_of_chain (view_item item.now)) }
{
    add_in_stages(alloc, item.chain.first.stages.as_slice(), names)?;
    add_in_links(alloc, item.chain.rest.as_slice(), names)
}

#[cycle(functions)]
fn add_in_script(alloc: Global, script: &Script, names: &mut List<Text>) -> Result<(), Memory>
    ensures { OnOk result (names.new ≡ names.old ++ functions.functions_of (view script.now)) }
{
    add_in_chains(alloc, script.items.as_slice(), names)
}

#[cycle(functions)]
fn add_in_chains(alloc: Global, items: &[Item], names: &mut List<Text>) -> Result<(), Memory>
    ensures { OnOk result (names.new ≡ names.old ++ functions.functions_of (items_of (map view_item items.now))) }
{
    for item in items {
        add_in_item(alloc, item, names)?;
    }
    Ok(())
}

/// The names of the functions that a script defines anywhere, in the order of their definitions.
pub fn functions_of(alloc: Global, script: &Script) -> Result<List<Text>, Memory>
    ensures { IfOk result (λ names. names ≡ functions.functions_of (view script.now)) }
{
    let mut names = List::new(alloc);
    add_in_script(alloc, script, &mut names)?;
    Ok(names)
}
