//! From the tree of a Bash script to that of an sh script.

ghost use Rattle.std.specs.Prelude.{◌≡◌, ◌∷◌, ◌++◌, true, map, IfOk, OnOk};
ghost use Rattle.bash_tree.specs.View as bash;
ghost use Rattle.sh_syntax.specs.View as sh;
ghost use Rattle.sh_grammar.specs.Shape as shape;
ghost use Rattle.bash2sh.specs.Lower as to_sh;
ghost use Rattle.bash2sh.specs.Trees.{part_lowered, value_parts_lowered, word_lowered, assign_lowered, command_lowered, joint_lowered, link_seen, link_lowered, item_lowered};

use span_text::{List, Memory, Span, Text};
use std::alloc::Global;

/// The same name.
fn lower_name(alloc: Global, name: &bash_tree::Name) -> Result<sh_syntax::Name, Memory>
    ensures { IfOk result (λ n. n.text ≡ name.now.text) }
{
    Ok(sh_syntax::Name {
        text: Text::copy(alloc, name.text.bytes())?,
        span: name.span,
    })
}

/// `$name`
#[tactic(auto, using(sh_syntax::proofs::Views::param_is, sh_syntax::proofs::Views::as_is_is))]
fn name_param(alloc: Global, name: &bash_tree::Name) -> Result<sh_syntax::PartKind, Memory>
    ensures { IfOk result (λ k. sh.view_part_kind k ≡ shape.param (shape.named name.now.text) shape.as_is) }
{
    Ok(sh_syntax::PartKind::Param {
        param: sh_syntax::Param::Name(lower_name(alloc, name)?),
        op: sh_syntax::ParamOp::Plain,
    })
}

fn lower_param(alloc: Global, param: &bash_tree::Param) -> Result<sh_syntax::PartKind, Memory>
    ensures { IfOk result (λ k. sh.view_part_kind k ≡ shape.param (shape.named (bash.name_of_param param.now)) shape.as_is) }
{
    let bash_tree::Param::Name(name) = param;
    name_param(alloc, name)
}

#[tactic(auto, using(sh_syntax::proofs::Views::plain_is))]
fn lower_plain(alloc: Global, text: &[u8]) -> Result<sh_syntax::PartKind, Memory>
    ensures { IfOk result (λ k. sh.view_part_kind k ≡ shape.plain text.now) }
{
    Ok(sh_syntax::PartKind::Plain(Text::copy(alloc, text)?))
}

#[tactic(auto, using(sh_syntax::proofs::Views::exact_is))]
fn lower_exact(alloc: Global, text: &[u8]) -> Result<sh_syntax::PartKind, Memory>
    ensures { IfOk result (λ k. sh.view_part_kind k ≡ shape.exact text.now) }
{
    Ok(sh_syntax::PartKind::Exact(Text::copy(alloc, text)?))
}

/// Parts between double quotes.
#[tactic(auto, using(sh_syntax::proofs::Views::double_is))]
fn double(parts: List<sh_syntax::Part>) -> sh_syntax::PartKind
    ensures { sh.view_part_kind result ≡ shape.double (sh.parts_of (map sh.view_part parts)) }
{
    sh_syntax::PartKind::Double(parts)
}

#[tactic(auto, using(sh_syntax::proofs::Views::part_is))]
fn part(kind: sh_syntax::PartKind, span: Span) -> sh_syntax::Part
    ensures { sh.view_part result ≡ sh.view_part_kind kind }
{
    sh_syntax::Part { kind, span }
}

#[cycle(lower)]
#[tactic(auto, using(bash_tree::proofs::Views::plain_is, bash_tree::proofs::Views::exact_is, bash_tree::proofs::Views::double_is, bash_tree::proofs::Views::param_is, crate::proofs::Trees::parts_lowered))]
fn lower_kind(alloc: Global, kind: &bash_tree::PartKind) -> Result<sh_syntax::PartKind, Memory>
    ensures { IfOk result (λ k. sh.view_part_kind k ≡ to_sh.lower_part (bash.view_kind kind.now)) }
{
    match kind {
        bash_tree::PartKind::Plain(text) => lower_plain(alloc, text.bytes()),
        bash_tree::PartKind::Exact(text) => lower_exact(alloc, text.bytes()),
        bash_tree::PartKind::Double(parts) => Ok(double(lower_parts(alloc, parts.as_slice())?)),
        bash_tree::PartKind::Param { param, op: _ } => lower_param(alloc, param),
    }
}

#[cycle(lower)]
#[tactic(auto, using(bash_tree::proofs::Views::part_is))]
fn lower_part(alloc: Global, from: &bash_tree::Part) -> Result<sh_syntax::Part, Memory>
    ensures { IfOk result (λ p. sh.view_part p ≡ part_lowered from.now) }
{
    let kind = lower_kind(alloc, &from.kind)?;
    Ok(part(kind, from.span))
}

#[cycle(lower)]
fn lower_parts(alloc: Global, parts: &[bash_tree::Part]) -> Result<List<sh_syntax::Part>, Memory>
    ensures { IfOk result (λ ps. map sh.view_part ps ≡ map part_lowered parts.now) }
{
    let mut lowered = List::new(alloc);
    for part in parts {
        lowered.push(lower_part(alloc, part)?)?;
    }
    Ok(lowered)
}

#[tactic(auto, using(crate::proofs::ShNodes::word_rolled))]
fn word(parts: List<sh_syntax::Part>, span: Span) -> sh_syntax::Word
    ensures { sh.view_word result ≡ sh.parts_of (map sh.view_part parts) }
{
    sh_syntax::Word { parts, span }
}

#[tactic(auto, using(crate::proofs::Trees::parts_lowered))]
fn lower_word(alloc: Global, from: &bash_tree::Word) -> Result<sh_syntax::Word, Memory>
    ensures { IfOk result (λ w. sh.view_word w ≡ word_lowered from.now) }
{
    let parts = lower_parts(alloc, from.parts.as_slice())?;
    Ok(word(parts, from.span))
}

fn lower_words(alloc: Global, words: &[bash_tree::Word]) -> Result<List<sh_syntax::Word>, Memory>
    ensures { IfOk result (λ ws. map sh.view_word ws ≡ map word_lowered words.now) }
{
    let mut lowered = List::new(alloc);
    for word in words {
        lowered.push(lower_word(alloc, word)?)?;
    }
    Ok(lowered)
}

// ---- assignments

/// A value without `+`.
#[tactic(auto, using(crate::proofs::ShNodes::no_value_seen, crate::proofs::ShNodes::value_seen))]
fn lower_plain_value(
    alloc: Global,
    value: &bash_tree::AssignValue,
) -> Result<sh_syntax::AssignValue, Memory>
    ensures { IfOk result (λ v. sh.view_value v ≡ to_sh.plain_value (bash.view_value value.now)) }
{
    match value {
        bash_tree::AssignValue::Word(None) => Ok(sh_syntax::AssignValue::Word(None)),
        bash_tree::AssignValue::Word(Some(word)) => Ok(sh_syntax::AssignValue::Word(Some(lower_word(
            alloc, word,
        )?))),
    }
}

/// `"$name"`
fn quoted_name(alloc: Global, name: &bash_tree::Name) -> Result<sh_syntax::Part, Memory>
    ensures { IfOk result (λ p. sh.view_part p ≡ to_sh.quoted_name name.now.text) }
{
    let mut inner = List::new(alloc);
    inner.push(part(name_param(alloc, name)?, name.span))?;
    Ok(part(double(inner), name.span))
}

/// Puts the parts behind the others.
fn push_parts(
    alloc: Global,
    parts: &[bash_tree::Part],
    into: &mut List<sh_syntax::Part>,
) -> Result<(), Memory>
    ensures { OnOk result (map sh.view_part into.new ≡ map sh.view_part into.old ++ map part_lowered parts.now) }
{
    for part in parts {
        into.push(lower_part(alloc, part)?)?;
    }
    Ok(())
}

/// Puts the parts of a value behind the others.
fn push_value(
    alloc: Global,
    value: &bash_tree::AssignValue,
    into: &mut List<sh_syntax::Part>,
) -> Result<(), Memory>
    ensures { OnOk result (map sh.view_part into.new ≡ map sh.view_part into.old ++ value_parts_lowered value.now) }
{
    match value {
        bash_tree::AssignValue::Word(None) => Ok(()),
        bash_tree::AssignValue::Word(Some(word)) => push_parts(alloc, word.parts.as_slice(), into),
    }
}

fn appended_parts(
    alloc: Global,
    assign: &bash_tree::Assign,
) -> Result<List<sh_syntax::Part>, Memory>
    ensures { IfOk result (λ ps. map sh.view_part ps ≡ to_sh.quoted_name assign.now.name.text ∷ value_parts_lowered assign.now.value) }
{
    let mut parts = List::new(alloc);
    parts.push(quoted_name(alloc, &assign.name)?)?;
    push_value(alloc, &assign.value, &mut parts)?;
    Ok(parts)
}

/// `"$name"` with the value behind it.
#[tactic(auto, using(crate::proofs::ShNodes::value_seen, crate::proofs::Trees::appended_lowered))]
fn lower_appended(
    alloc: Global,
    assign: &bash_tree::Assign,
) -> Result<sh_syntax::AssignValue, Memory>
    ensures { IfOk result (λ v. sh.view_value v ≡ to_sh.lower_value true assign.now.name.text (bash.view_value assign.now.value)) }
{
    let parts = appended_parts(alloc, assign)?;
    Ok(sh_syntax::AssignValue::Word(Some(word(parts, assign.span))))
}

fn lower_value(alloc: Global, assign: &bash_tree::Assign) -> Result<sh_syntax::AssignValue, Memory>
    ensures { IfOk result (λ v. sh.view_value v ≡ to_sh.lower_value assign.now.append assign.now.name.text (bash.view_value assign.now.value)) }
{
    if assign.append {
        lower_appended(alloc, assign)
    } else {
        lower_plain_value(alloc, &assign.value)
    }
}

#[tactic(auto, using(sh_syntax::proofs::Views::assign_is))]
fn lower_assign(alloc: Global, assign: &bash_tree::Assign) -> Result<sh_syntax::Assign, Memory>
    ensures { IfOk result (λ a. sh.view_assign a ≡ assign_lowered assign.now) }
{
    Ok(sh_syntax::Assign {
        name: lower_name(alloc, &assign.name)?,
        value: lower_value(alloc, assign)?,
        span: assign.span,
    })
}

fn lower_assigns(
    alloc: Global,
    assigns: &[bash_tree::Assign],
) -> Result<List<sh_syntax::Assign>, Memory>
    ensures { IfOk result (λ as'. map sh.view_assign as' ≡ map assign_lowered assigns.now) }
{
    let mut lowered = List::new(alloc);
    for assign in assigns {
        lowered.push(lower_assign(alloc, assign)?)?;
    }
    Ok(lowered)
}

// ---- commands

#[tactic(auto, using(sh_syntax::proofs::Views::simple_is, crate::proofs::Trees::assigns_lowered, crate::proofs::Trees::words_lowered))]
fn lower_simple(
    alloc: Global,
    kind: &bash_tree::CommandKind,
) -> Result<sh_syntax::CommandKind, Memory>
    ensures { IfOk result (λ k. shape.command (sh.view_kind k) shape.no_redirect ≡ to_sh.lower_command (bash.command_of kind.now)) }
{
    let bash_tree::CommandKind::Simple { assigns, words } = kind;
    Ok(sh_syntax::CommandKind::Simple {
        assigns: lower_assigns(alloc, assigns.as_slice())?,
        words: lower_words(alloc, words.as_slice())?,
    })
}

/// A command without redirections.
#[tactic(auto, using(crate::proofs::ShNodes::command_rolled))]
fn command(alloc: Global, kind: sh_syntax::CommandKind, span: Span) -> sh_syntax::Command
    ensures { sh.view_command result ≡ shape.command (sh.view_kind kind) shape.no_redirect }
{
    sh_syntax::Command {
        kind,
        redirects: List::new(alloc),
        span,
    }
}

fn lower_command(alloc: Global, from: &bash_tree::Command) -> Result<sh_syntax::Command, Memory>
    ensures { IfOk result (λ c. sh.view_command c ≡ command_lowered from.now) }
{
    let kind = lower_simple(alloc, &from.kind)?;
    Ok(command(alloc, kind, from.span))
}

fn lower_stages(
    alloc: Global,
    stages: &[bash_tree::Command],
) -> Result<List<sh_syntax::Command>, Memory>
    ensures { IfOk result (λ cs. map sh.view_command cs ≡ map command_lowered stages.now) }
{
    let mut lowered = List::new(alloc);
    for stage in stages {
        lowered.push(lower_command(alloc, stage)?)?;
    }
    Ok(lowered)
}

#[tactic(auto, using(crate::proofs::ShNodes::pipeline_rolled, crate::proofs::Trees::stages_lowered))]
fn lower_pipeline(
    alloc: Global,
    pipeline: &bash_tree::Pipeline,
) -> Result<sh_syntax::Pipeline, Memory>
    ensures { IfOk result (λ p. sh.view_pipeline p ≡ to_sh.lower_pipeline (bash.view_pipeline pipeline.now)) }
{
    Ok(sh_syntax::Pipeline {
        negated: pipeline.negated,
        stages: lower_stages(alloc, pipeline.stages.as_slice())?,
    })
}

// ---- lists of commands

fn lower_joint(joint: bash_tree::Joint) -> sh_syntax::Joint
    ensures { result ≡ joint_lowered joint }
{
    match joint {
        bash_tree::Joint::And => sh_syntax::Joint::And,
        bash_tree::Joint::Or => sh_syntax::Joint::Or,
    }
}

fn lower_link(
    alloc: Global,
    link: &(bash_tree::Joint, bash_tree::Pipeline),
) -> Result<(sh_syntax::Joint, sh_syntax::Pipeline), Memory>
    ensures { IfOk result (λ l. link_seen l ≡ link_lowered link.now) }
{
    let pipeline = lower_pipeline(alloc, &link.1)?;
    Ok((lower_joint(link.0), pipeline))
}

fn lower_links(
    alloc: Global,
    links: &[(bash_tree::Joint, bash_tree::Pipeline)],
) -> Result<List<(sh_syntax::Joint, sh_syntax::Pipeline)>, Memory>
    ensures { IfOk result (λ ls. map link_seen ls ≡ map link_lowered links.now) }
{
    let mut lowered = List::new(alloc);
    for link in links {
        lowered.push(lower_link(alloc, link)?)?;
    }
    Ok(lowered)
}

#[tactic(auto, using(crate::proofs::ShNodes::chain_rolled, crate::proofs::Trees::links_lowered))]
fn lower_chain(alloc: Global, chain: &bash_tree::AndOr) -> Result<sh_syntax::AndOr, Memory>
    ensures { IfOk result (λ c. sh.view_chain c ≡ to_sh.lower_chain (bash.view_chain chain.now)) }
{
    Ok(sh_syntax::AndOr {
        first: lower_pipeline(alloc, &chain.first)?,
        rest: lower_links(alloc, chain.rest.as_slice())?,
    })
}

#[tactic(auto, using(crate::proofs::ShNodes::item_rolled))]
fn lower_item(alloc: Global, item: &bash_tree::Item) -> Result<sh_syntax::Item, Memory>
    ensures { IfOk result (λ i. sh.view_item i ≡ item_lowered item.now) }
{
    Ok(sh_syntax::Item {
        chain: lower_chain(alloc, &item.chain)?,
    })
}

fn lower_items(alloc: Global, items: &[bash_tree::Item]) -> Result<List<sh_syntax::Item>, Memory>
    ensures { IfOk result (λ is. map sh.view_item is ≡ map item_lowered items.now) }
{
    let mut lowered = List::new(alloc);
    for item in items {
        lowered.push(lower_item(alloc, item)?)?;
    }
    Ok(lowered)
}

/// The script in sh: each command as the same command, and `name+=value` as `name="$name"value`.
#[tactic(auto, using(crate::proofs::ShNodes::script_rolled, crate::proofs::Trees::items_lowered))]
pub fn lower(alloc: Global, script: &bash_tree::Script) -> Result<sh_syntax::Script, Memory>
    ensures { IfOk result (λ s. sh.view s ≡ to_sh.lower (bash.view script.now)) }
{
    Ok(sh_syntax::Script {
        items: lower_items(alloc, script.items.as_slice())?,
    })
}
