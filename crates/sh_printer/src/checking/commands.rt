//! Commands and lists, as pieces that are checked.

ghost use Rattle.std.specs.Prelude.{◌≡◌, ◌≤◌, ◌+◌, ◌||◌, ◌&&◌, not, nat_lt, suc, map, option_map, Bool, true};
ghost use Rattle.span_text.specs.Names.{is_name};
ghost use Rattle.sh_grammar.specs.Shape as shape;
ghost use Rattle.sh_grammar.specs.Steps.{limit};
ghost use Rattle.sh_printer.specs.Checks.{AsKind, NodeSplits, Splits, check_holds, check_weight};
ghost use Rattle.sh_printer.specs.Pieces.{branch_views, link_views};
ghost use Rattle.sh_printer.specs.Weights.{command_weight, for_words_weight, otherwise_weight, script_weight};
ghost use Rattle.sh_printer.specs.declared.checking.checks.CheckNode.TheVariants as node;
ghost use Rattle.sh_printer.specs.declared.checking.checks.CommandCheck.TheVariants as checks;
ghost use Rattle.sh_printing.specs.Printable.{command_fits, for_words_fit, has_chain, has_compound, has_branch, has_redirect, has_stage, is_assignment, is_compound, list_fits, name_fits, otherwise_fits};
ghost use Rattle.sh_printing.specs.Printing.{has_assign, has_word};
ghost use Rattle.sh_printing.specs.Spellable.{is_reserved_text, is_reserved_word};
ghost use Rattle.sh_syntax.specs.View.{view, view_assign, view_case_item, view_command, view_function, view_item, view_kind, view_part, view_redirect, view_word, assigns_of, branches_of, case_items_of, for_words_of, items_of, otherwise_of, parts_of, redirects_of, stages_of, words_of};

use crate::checking::checks::{Check, CheckNode, Checks, CommandCheck, Nesting, WordCheck};
use crate::checking::names::{deeper, has_room, has_room_for};
use crate::checking::parts::is_assignment;
use crate::checking::words::known;
use crate::commands::{has_assigns, has_words};
use crate::last::{is_reserved_text, is_reserved_word};
use sh_syntax::{
    Assign, CaseItem, Command, CommandKind, Function, Item, Joint, Part, Pipeline, Redirect,
    Script, Word,
};
use span_text::{List, is_name};

/// The pieces of commands or lists.
pub fn command_apart<'a>(check: CommandCheck<'a>, nesting: Nesting) -> Checks<'a>
    ensures { NodeSplits (node.Command check.entry) nesting result }
{
    match check {
        CommandCheck::Command(command) => whole_command_apart(command, nesting),
        CommandCheck::Kind(kind, redirected) => kind_apart(kind, redirected, nesting),
        CommandCheck::List(script) => list_apart(script, nesting),
        CommandCheck::Branches(branches) => branches_apart(branches, nesting),
        CommandCheck::Items(items) => items_apart(items, nesting),
        CommandCheck::Item(item) => item_apart(item, nesting),
        CommandCheck::Chains(items) => chains_apart(items, nesting),
        CommandCheck::Links(links) => links_apart(links, nesting),
        CommandCheck::Pipeline(pipeline) => pipeline_apart(pipeline, nesting),
        CommandCheck::Stages(stages) => stages_apart(stages, nesting),
    }
}

fn has_redirects(redirects: &[Redirect]) -> bool
    ensures { result ≡ has_redirect (redirects_of (map view_redirect redirects.now)) }
{
    match redirects {
        [] => false,
        [_, ..] => true,
    }
}

fn has_stages(stages: &[Command]) -> bool
    ensures { result ≡ has_stage (stages_of (map view_command stages.now)) }
{
    match stages {
        [] => false,
        [_, ..] => true,
    }
}

fn has_branches(branches: &[(Script, Script)]) -> bool
    ensures { result ≡ has_branch (branches_of (branch_views branches.now)) }
{
    match branches {
        [] => false,
        [_, ..] => true,
    }
}

fn has_chains(items: &[Item]) -> bool
    ensures { result ≡ has_chain (items_of (map view_item items.now)) }
{
    match items {
        [] => false,
        [_, ..] => true,
    }
}

/// A command before its redirections, and these.
fn whole_command_apart<'a>(command: &'a Command, nesting: Nesting) -> Checks<'a>
    ensures { NodeSplits (node.Command (checks.Command command.entry)) nesting result }
{
    let redirects = command.redirects.as_slice();
    let kind = CommandCheck::Kind(&command.kind, has_redirects(redirects));
    let behind = WordCheck::Redirects(redirects);
    Checks {
        first: Check::Known(true),
        second: Check::Node(CheckNode::Command(kind), nesting),
        rest: Check::Node(CheckNode::Word(behind), nesting),
    }
}

/// Whether the first word of a command can stand there, behind assignments or redirections or not (2.4, 2.9.1).
fn name_fits(led: bool, words: &[Word]) -> bool
    ensures { result ≡ name_fits led (words_of (map view_word words.now)) }
{
    match words {
        [] => true,
        [first, ..] => first_fits(led, first.parts.as_slice()),
    }
}

fn first_fits(led: bool, parts: &[Part]) -> bool
    ensures { result ≡ (not (is_assignment (parts_of (map view_part parts.now))) && (led || not (is_reserved_word (parts_of (map view_part parts.now))))) }
{
    !is_assignment(parts) && (led || !is_reserved_word(parts))
}

/// Whether something stands before a command's words.
fn is_led(assigns: &[Assign], redirected: bool) -> bool
    ensures { result ≡ (has_assign (assigns_of (map view_assign assigns.now)) || redirected) }
{
    has_assigns(assigns) || redirected
}

fn is_any(assigns: &[Assign], words: &[Word], redirected: bool) -> bool
    ensures { result ≡ (has_assign (assigns_of (map view_assign assigns.now)) || has_word (words_of (map view_word words.now)) || redirected) }
{
    has_assigns(assigns) || has_words(words) || redirected
}

/// Whether there is a command at all, and its first word can stand there.
fn simple_fits(assigns: &[Assign], words: &[Word], redirected: bool) -> bool
    ensures { result ≡ ((has_assign (assigns_of (map view_assign assigns.now)) || has_word (words_of (map view_word words.now)) || redirected) && name_fits (has_assign (assigns_of (map view_assign assigns.now)) || redirected) (words_of (map view_word words.now))) }
{
    is_any(assigns, words, redirected) && name_fits(is_led(assigns, redirected), words)
}

/// The pieces of a command before its redirections.
fn kind_apart<'a>(kind: &'a CommandKind, redirected: bool, nesting: Nesting) -> Checks<'a>
    ensures { NodeSplits (node.Command (checks.Kind kind.entry redirected)) nesting result }
{
    match kind {
        CommandKind::Simple { assigns, words } => {
            simple_apart(assigns.as_slice(), words.as_slice(), redirected, nesting)
        }
        CommandKind::Group(script) => closed_apart(script, nesting),
        CommandKind::Subshell(script) => closed_apart(script, nesting),
        CommandKind::If { parts, otherwise } => {
            branching_apart(parts.as_slice(), otherwise, nesting)
        }
        CommandKind::Loop {
            until: _,
            test,
            body,
        } => loop_apart(test, body, nesting),
        CommandKind::For { name, words, body } => {
            for_apart(name.text.bytes(), words, body, nesting)
        }
        CommandKind::Case { subject, items } => case_apart(subject, items.as_slice(), nesting),
        CommandKind::Function(function) => function_apart(function, redirected, nesting),
    }
}

fn simple_apart<'a>(
    assigns: &'a [Assign],
    words: &'a [Word],
    redirected: bool,
    nesting: Nesting,
) -> Checks<'a>
    ensures { AsKind nesting redirected (shape.simple (assigns_of (map view_assign assigns.now)) (words_of (map view_word words.now))) result }
{
    Checks {
        first: Check::Known(simple_fits(assigns, words, redirected)),
        second: Check::Node(CheckNode::Word(WordCheck::Assigns(assigns)), nesting),
        rest: Check::Node(CheckNode::Word(WordCheck::Words(words)), nesting),
    }
}

/// `{ a; }`, `(a)`
fn closed_apart<'a>(script: &'a Script, nesting: Nesting) -> Checks<'a>
    ensures { Splits (nat_lt nesting.depth limit && has_chain (view script.now) && list_fits nesting.in_body (suc nesting.depth) (view script.now)) (script_weight (view script.now) + 3) result }
{
    let list = CommandCheck::List(script);
    Checks {
        first: Check::Known(true),
        second: Check::Known(has_room(nesting)),
        rest: Check::Node(CheckNode::Command(list), deeper(nesting)),
    }
}

/// `if a; then b; else c; fi`
fn branching_apart<'a>(
    branches: &'a [(Script, Script)],
    otherwise: &'a Option<Script>,
    nesting: Nesting,
) -> Checks<'a>
    ensures { AsKind nesting true (shape.branching (branches_of (branch_views branches.now)) (otherwise_of (option_map view otherwise.now))) result }
{
    let inside = deeper(nesting);
    Checks {
        first: Check::Known(has_room_for(has_branches(branches), nesting)),
        second: Check::Node(CheckNode::Command(CommandCheck::Branches(branches)), inside),
        rest: else_check(otherwise, inside),
    }
}

fn else_check<'a>(otherwise: &'a Option<Script>, nesting: Nesting) -> Check<'a>
    ensures holds { check_holds result ≡ otherwise_fits nesting.in_body nesting.depth (otherwise_of (option_map view otherwise.now)) }
    ensures weight { check_weight result ≤ otherwise_weight (otherwise_of (option_map view otherwise.now)) }
{
    match otherwise {
        None => Check::Known(true),
        Some(script) => Check::Node(CheckNode::Command(CommandCheck::List(script)), nesting),
    }
}

/// `while a; do b; done`
fn loop_apart<'a>(test: &'a Script, body: &'a Script, nesting: Nesting) -> Checks<'a>
    ensures { (until : Bool) → AsKind nesting true (shape.loop until (view test.now) (view body.now)) result }
{
    let inside = deeper(nesting);
    Checks {
        first: Check::Known(has_room(nesting)),
        second: Check::Node(CheckNode::Command(CommandCheck::List(test)), inside),
        rest: Check::Node(CheckNode::Command(CommandCheck::List(body)), inside),
    }
}

/// `for i in a b; do c; done`
fn for_apart<'a>(
    name: &'a [u8],
    words: &'a Option<List<Word>>,
    body: &'a Script,
    nesting: Nesting,
) -> Checks<'a>
    ensures { AsKind nesting true (shape.walk name.now (for_words_of (option_map (map view_word) words.now)) (view body.now)) result }
{
    let inside = deeper(nesting);
    Checks {
        first: Check::Known(has_room_for(is_name(name), nesting)),
        second: for_words_check(words, inside),
        rest: Check::Node(CheckNode::Command(CommandCheck::List(body)), inside),
    }
}

fn for_words_check<'a>(words: &'a Option<List<Word>>, nesting: Nesting) -> Check<'a>
    ensures holds { check_holds result ≡ for_words_fit nesting.in_body nesting.depth (for_words_of (option_map (map view_word) words.now)) }
    ensures weight { check_weight result ≤ for_words_weight (for_words_of (option_map (map view_word) words.now)) }
{
    match words {
        None => Check::Known(true),
        Some(words) => Check::Node(CheckNode::Word(WordCheck::Words(words.as_slice())), nesting),
    }
}

/// `case a in b) c ;; esac`
fn case_apart<'a>(subject: &'a Word, items: &'a [CaseItem], nesting: Nesting) -> Checks<'a>
    ensures { AsKind nesting true (shape.cases (view_word subject.now) (case_items_of (map view_case_item items.now))) result }
{
    let inside = deeper(nesting);
    let word = WordCheck::Word(subject.parts.as_slice(), true);
    Checks {
        first: Check::Known(has_room(nesting)),
        second: Check::Node(CheckNode::Word(word), inside),
        rest: Check::Node(CheckNode::Command(CommandCheck::Items(items)), inside),
    }
}

/// Whether the command can be the body of a function's definition (2.9.5).
fn is_compound(kind: &CommandKind) -> bool
    ensures { result ≡ is_compound (view_kind kind.now) }
{
    match kind {
        CommandKind::Simple {
            assigns: _,
            words: _,
        } => false,
        CommandKind::Group(_) => true,
        CommandKind::Subshell(_) => true,
        CommandKind::If {
            parts: _,
            otherwise: _,
        } => true,
        CommandKind::Loop {
            until: _,
            test: _,
            body: _,
        } => true,
        CommandKind::For {
            name: _,
            words: _,
            body: _,
        } => true,
        CommandKind::Case {
            subject: _,
            items: _,
        } => true,
        CommandKind::Function(_) => false,
    }
}

fn has_compound(command: &Command) -> bool
    ensures { result ≡ has_compound (view_command command.now) }
{
    is_compound(&command.kind)
}

/// Whether a function of this name can have the body; its redirections stand there.
fn body_fits(redirected: bool, name: &[u8], body: &Command) -> bool
    ensures { result ≡ (not redirected && is_name name.now && not (is_reserved_text name.now) && has_compound (view_command body.now)) }
{
    !redirected && is_name(name) && !is_reserved_text(name) && has_compound(body)
}

/// `f() { a; }`
fn function_apart<'a>(function: &'a Function, redirected: bool, nesting: Nesting) -> Checks<'a>
    ensures { Splits (not redirected && is_name (view_function function.now).0 && not (is_reserved_text (view_function function.now).0) && has_compound (view_function function.now).1 && command_fits nesting.in_body nesting.depth (view_function function.now).1) (command_weight (view_function function.now).1 + 20) result }
{
    let body = function.body.get();
    let name = function.name.text.bytes();
    Checks {
        first: Check::Known(true),
        second: Check::Known(body_fits(redirected, name, body)),
        rest: Check::Node(CheckNode::Command(CommandCheck::Command(body)), nesting),
    }
}

/// A list of one command at least.
fn list_apart<'a>(script: &'a Script, nesting: Nesting) -> Checks<'a>
    ensures { NodeSplits (node.Command (checks.List script.entry)) nesting result }
{
    let items = script.items.as_slice();
    Checks {
        first: Check::Known(true),
        second: Check::Known(has_chains(items)),
        rest: Check::Node(CheckNode::Command(CommandCheck::Chains(items)), nesting),
    }
}

/// The first test with what runs behind it, and the branches behind them.
fn branches_apart<'a>(branches: &'a [(Script, Script)], nesting: Nesting) -> Checks<'a>
    ensures { NodeSplits (node.Command (checks.Branches branches.entry)) nesting result }
{
    match branches {
        [] => known(true),
        [first, ..] => {
            let (_, rest) = branches.split_at(1);
            let behind = CommandCheck::Branches(rest);
            Checks {
                first: Check::Node(CheckNode::Command(CommandCheck::List(&first.0)), nesting),
                second: Check::Node(CheckNode::Command(CommandCheck::List(&first.1)), nesting),
                rest: Check::Node(CheckNode::Command(behind), nesting),
            }
        }
    }
}

/// The first item, and those behind it.
fn items_apart<'a>(items: &'a [CaseItem], nesting: Nesting) -> Checks<'a>
    ensures { NodeSplits (node.Command (checks.Items items.entry)) nesting result }
{
    match items {
        [] => known(true),
        [first, ..] => {
            let (_, rest) = items.split_at(1);
            let item = CommandCheck::Item(first);
            Checks {
                first: Check::Known(true),
                second: Check::Node(CheckNode::Command(item), nesting),
                rest: Check::Node(CheckNode::Command(CommandCheck::Items(rest)), nesting),
            }
        }
    }
}

/// `(a | b) c ;;`
fn item_apart<'a>(item: &'a CaseItem, nesting: Nesting) -> Checks<'a>
    ensures { NodeSplits (node.Command (checks.Item item.entry)) nesting result }
{
    let patterns = item.patterns.as_slice();
    let body = CommandCheck::Chains(item.body.items.as_slice());
    Checks {
        first: Check::Known(has_words(patterns)),
        second: Check::Node(CheckNode::Word(WordCheck::Patterns(patterns)), nesting),
        rest: Check::Node(CheckNode::Command(body), nesting),
    }
}

/// The first pipelines up to `;` or a newline, and those behind them.
fn chains_apart<'a>(items: &'a [Item], nesting: Nesting) -> Checks<'a>
    ensures { NodeSplits (node.Command (checks.Chains items.entry)) nesting result }
{
    match items {
        [] => known(true),
        [first, ..] => {
            let (_, rest) = items.split_at(1);
            let pipeline = CommandCheck::Pipeline(&first.chain.first);
            let links = CommandCheck::Links(first.chain.rest.as_slice());
            Checks {
                first: Check::Node(CheckNode::Command(pipeline), nesting),
                second: Check::Node(CheckNode::Command(links), nesting),
                rest: Check::Node(CheckNode::Command(CommandCheck::Chains(rest)), nesting),
            }
        }
    }
}

/// The first pipeline behind `&&` or `||`, and those behind it.
fn links_apart<'a>(links: &'a [(Joint, Pipeline)], nesting: Nesting) -> Checks<'a>
    ensures { NodeSplits (node.Command (checks.Links links.entry)) nesting result }
{
    match links {
        [] => known(true),
        [first, ..] => {
            let (_, rest) = links.split_at(1);
            let pipeline = CommandCheck::Pipeline(&first.1);
            Checks {
                first: Check::Known(true),
                second: Check::Node(CheckNode::Command(pipeline), nesting),
                rest: Check::Node(CheckNode::Command(CommandCheck::Links(rest)), nesting),
            }
        }
    }
}

fn pipeline_apart<'a>(pipeline: &'a Pipeline, nesting: Nesting) -> Checks<'a>
    ensures { NodeSplits (node.Command (checks.Pipeline pipeline.entry)) nesting result }
{
    let stages = pipeline.stages.as_slice();
    Checks {
        first: Check::Known(true),
        second: Check::Known(has_stages(stages)),
        rest: Check::Node(CheckNode::Command(CommandCheck::Stages(stages)), nesting),
    }
}

/// The first command, and those behind it.
fn stages_apart<'a>(stages: &'a [Command], nesting: Nesting) -> Checks<'a>
    ensures { NodeSplits (node.Command (checks.Stages stages.entry)) nesting result }
{
    match stages {
        [] => known(true),
        [first, ..] => {
            let (_, rest) = stages.split_at(1);
            let command = CommandCheck::Command(first);
            Checks {
                first: Check::Known(true),
                second: Check::Node(CheckNode::Command(command), nesting),
                rest: Check::Node(CheckNode::Command(CommandCheck::Stages(rest)), nesting),
            }
        }
    }
}
