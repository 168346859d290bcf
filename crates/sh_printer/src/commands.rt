//! Commands and lists, taken apart.

ghost use Rattle.std.specs.Prelude.{◌≡◌, ◌≤◌, ◌<◌, ◌+◌, ◌++◌, ◌||◌, ◌&&◌, not, [], map, option_map, codes, Bool, if◌then◌else◌};
ghost use Rattle.sh_grammar.specs.Shape as shape;
ghost use Rattle.sh_printer.specs.Codes.{view_end};
ghost use Rattle.sh_printer.specs.Pieces.{Comes, Apart, AsKind, piece_text, piece_weight, branch_views, link_views, pipeline_mark};
ghost use Rattle.sh_printing.specs.Printing.{has_assign, is_something, has_word, words_last, words_text, command_text, list_text, otherwise_text, for_words_text, stage_end, link_end};
ghost use Rattle.sh_printer.specs.Weights.{words_weight, command_weight, script_weight, otherwise_weight, for_words_weight};
ghost use Rattle.sh_syntax.specs.View.{view, view_kind, view_command, view_case_item, view_function, view_item, view_pipeline, view_word, branches_of, otherwise_of, for_words_of, case_items_of, items_of, links_of, stages_of, words_of, assigns_of, view_assign};
ghost use Rattle.sh_printer.specs.declared.pieces.Node.TheVariants as node;
ghost use Rattle.sh_printer.specs.declared.pieces.CommandPiece.TheVariants as commands;

use crate::last::{last_words, words_last};
use crate::marks::{End, joint_end, loop_key};
use crate::pieces::{CommandPiece, Leaf, Node, Piece, Split, Tail, WordPiece};
use sh_syntax::{
    Assign, CaseItem, Command, CommandKind, Function, Item, Joint, Name, Pipeline, Script, Word,
};
use span_text::List;

/// The pieces of commands or lists.
pub fn command_apart(piece: CommandPiece<'_>) -> Split<'_>
    ensures { Apart (node.Command piece.entry) result }
{
    match piece {
        CommandPiece::Command(command, end) => whole_command_apart(command, end),
        CommandPiece::Between(before, script, behind) => between_apart(before, script, behind),
        CommandPiece::Branches(parts, key) => branches_apart(parts, key),
        CommandPiece::For(name, words) => for_apart(name, words),
        CommandPiece::ForWords(words) => for_words_apart(words),
        CommandPiece::Led(mark, word) => led_apart(mark, word),
        CommandPiece::Case(items) => case_apart(items),
        CommandPiece::Items(items) => items_apart(items),
        CommandPiece::Patterns(patterns, mark) => patterns_apart(patterns, mark),
        CommandPiece::Chains(items, end) => chains_apart(items, end),
        CommandPiece::Links(links, end) => links_apart(links, end),
        CommandPiece::Pipeline(pipeline, end) => pipeline_apart(pipeline, end),
        CommandPiece::Stages(stages, end) => stages_apart(stages, end),
    }
}

pub fn has_assigns(assigns: &[Assign]) -> bool
    ensures { result ≡ has_assign (assigns_of (map view_assign assigns.now)) }
{
    match assigns {
        [] => false,
        [_, ..] => true,
    }
}

pub fn has_words(words: &[Word]) -> bool
    ensures { result ≡ has_word (words_of (map view_word words.now)) }
{
    match words {
        [] => false,
        [_, ..] => true,
    }
}

/// The words behind the assignments of a simple command, where they stand before its redirections.
fn simple_words<'a>(assigns: &'a [Assign], words: &'a [Word]) -> Piece<'a>
    ensures text { (full : Bool) → piece_text full result ≡ (if words_last (assigns_of (map view_assign assigns.now)) (words_of (map view_word words.now)) then [] else words_text full (has_assign (assigns_of (map view_assign assigns.now))) (words_of (map view_word words.now))) }
    ensures weight { piece_weight result ≤ words_weight (words_of (map view_word words.now)) + 1 }
{
    if words_last(assigns, words) {
        return Piece::Leaf(Leaf::Bytes(b""));
    }
    Piece::Node(Node::Word(WordPiece::Words(words, has_assigns(assigns))))
}

/// Whether a simple command has bytes before its redirections.
fn has_front(assigns: &[Assign], words: &[Word]) -> bool
    ensures { result ≡ (has_assign (assigns_of (map view_assign assigns.now)) || (has_word (words_of (map view_word words.now)) && not (words_last (assigns_of (map view_assign assigns.now)) (words_of (map view_word words.now))))) }
{
    if has_assigns(assigns) {
        return true;
    }
    if has_words(words) {
        return !words_last(assigns, words);
    }
    false
}

/// Whether the command has bytes before its redirections.
fn is_something(kind: &CommandKind) -> bool
    ensures { result ≡ is_something (view_kind kind.now) }
{
    match kind {
        CommandKind::Simple { assigns, words } => {
            let assigns = assigns.as_slice();
            let words = words.as_slice();
            has_front(assigns, words)
        }
        CommandKind::Group(_) => true,
        CommandKind::Subshell(_) => true,
        CommandKind::If {
            parts: _,
            otherwise: _,
        } => true,
        CommandKind::Loop {
            until: _,
            test: _,
            body: _,
        } => true,
        CommandKind::For {
            name: _,
            words: _,
            body: _,
        } => true,
        CommandKind::Case {
            subject: _,
            items: _,
        } => true,
        CommandKind::Function(_) => true,
    }
}

/// A command, its redirections and what ends it.
fn whole_command_apart(command: &Command, end: End) -> Split<'_>
    ensures { Apart (node.Command (commands.Command command.entry end)) result }
{
    let redirects = command.redirects.as_slice();
    let behind = is_something(&command.kind);
    let words = last_words(&command.kind);
    let tail = WordPiece::Redirects(redirects, 0, behind, Tail { words, end });
    kind_apart(&command.kind, end, Piece::Node(Node::Word(tail)))
}

/// A command, and its redirections; those of a function's definition stand at its body.
fn kind_apart<'a>(kind: &'a CommandKind, end: End, tail: Piece<'a>) -> Split<'a>
    ensures { AsKind end tail.entry (view_kind kind.now) result }
{
    match kind {
        CommandKind::Simple { assigns, words } => {
            let assigns = assigns.as_slice();
            let words = words.as_slice();
            Split {
                first: Piece::Node(Node::Word(WordPiece::Assigns(assigns, false))),
                second: simple_words(assigns, words),
                rest: tail,
            }
        }
        CommandKind::Group(script) => Split {
            first: between(b"{ ", script, b"}"),
            second: Piece::Leaf(Leaf::Bytes(b"")),
            rest: tail,
        },
        CommandKind::Subshell(script) => Split {
            first: between(b"( ", script, b")"),
            second: Piece::Leaf(Leaf::Bytes(b"")),
            rest: tail,
        },
        CommandKind::If { parts, otherwise } => Split {
            first: Piece::Node(Node::Command(CommandPiece::Branches(parts.as_slice(), b"if "))),
            second: else_piece(otherwise),
            rest: tail,
        },
        CommandKind::Loop { until, test, body } => Split {
            first: between(loop_key(*until), test, b""),
            second: between(b"do ", body, b"done"),
            rest: tail,
        },
        CommandKind::For { name, words, body } => Split {
            first: Piece::Node(Node::Command(CommandPiece::For(name, words))),
            second: between(b"do ", body, b"done"),
            rest: tail,
        },
        CommandKind::Case { subject, items } => Split {
            first: Piece::Node(Node::Command(CommandPiece::Led(b"case ", subject))),
            second: Piece::Node(Node::Command(CommandPiece::Case(items.as_slice()))),
            rest: tail,
        },
        CommandKind::Function(function) => function_apart(function, end),
    }
}

/// `f() { a; }`
fn function_apart(function: &Function, end: End) -> Split<'_>
    ensures { Comes (λ full. (view_function function.now).0 ++ codes "() " ++ command_text full (view_end end) (view_function function.now).1) (command_weight (view_function function.now).1 + 20) result }
{
    Split {
        first: Piece::Leaf(Leaf::Bytes(function.name.text.bytes())),
        second: Piece::Leaf(Leaf::Bytes(b"() ")),
        rest: Piece::Node(Node::Command(CommandPiece::Command(function.body.get(), end))),
    }
}

/// A list between two marks.
fn between<'a>(before: &'a [u8], script: &'a Script, behind: &'a [u8]) -> Piece<'a>
    ensures text { (full : Bool) → piece_text full result ≡ (before.now ++ list_text full (view script.now)) ++ behind.now }
    ensures weight { piece_weight result ≡ script_weight (view script.now) + 2 }
{
    Piece::Node(Node::Command(CommandPiece::Between(before, script, behind)))
}

fn between_apart<'a>(before: &'a [u8], script: &'a Script, behind: &'a [u8]) -> Split<'a>
    ensures { Apart (node.Command (commands.Between before.entry script.entry behind.entry)) result }
{
    let items = script.items.as_slice();
    Split {
        first: Piece::Leaf(Leaf::Bytes(before)),
        second: Piece::Node(Node::Command(CommandPiece::Chains(items, End::Next))),
        rest: Piece::Leaf(Leaf::Bytes(behind)),
    }
}

/// The first test with what runs behind it, and the branches behind them.
fn branches_apart<'a>(parts: &'a [(Script, Script)], key: &'a [u8]) -> Split<'a>
    ensures { Apart (node.Command (commands.Branches parts.entry key.entry)) result }
{
    match parts {
        [] => Split {
            first: Piece::Leaf(Leaf::Bytes(b"")),
            second: Piece::Leaf(Leaf::Bytes(b"")),
            rest: Piece::Leaf(Leaf::Bytes(b"")),
        },
        [first, ..] => {
            let (_, rest) = parts.split_at(1);
            Split {
                first: between(key, &first.0, b""),
                second: between(b"then ", &first.1, b""),
                rest: Piece::Node(Node::Command(CommandPiece::Branches(rest, b"elif "))),
            }
        }
    }
}

/// `else a; fi`
fn else_piece(otherwise: &Option<Script>) -> Piece<'_>
    ensures text { (full : Bool) → piece_text full result ≡ otherwise_text full (otherwise_of (option_map view otherwise.now)) ++ codes "fi" }
    ensures weight { piece_weight result ≤ otherwise_weight (otherwise_of (option_map view otherwise.now)) }
{
    match otherwise {
        None => Piece::Leaf(Leaf::Bytes(b"fi")),
        Some(script) => between(b"else ", script, b"fi"),
    }
}

/// `for i in a b; `
fn for_apart<'a>(name: &'a Name, words: &'a Option<List<Word>>) -> Split<'a>
    ensures { Apart (node.Command (commands.For name.entry words.entry)) result }
{
    Split {
        first: Piece::Leaf(Leaf::Bytes(b"for ")),
        second: Piece::Leaf(Leaf::Bytes(name.text.bytes())),
        rest: for_words_piece(words),
    }
}

fn for_words_piece(words: &Option<List<Word>>) -> Piece<'_>
    ensures text { (full : Bool) → piece_text full result ≡ for_words_text full (for_words_of (option_map (map view_word) words.now)) }
    ensures weight { piece_weight result ≤ for_words_weight (for_words_of (option_map (map view_word) words.now)) + 2 }
{
    match words {
        None => Piece::Leaf(Leaf::Bytes(b" ")),
        Some(words) => Piece::Node(Node::Command(CommandPiece::ForWords(words.as_slice()))),
    }
}

fn for_words_apart(words: &[Word]) -> Split<'_>
    ensures { Apart (node.Command (commands.ForWords words.entry)) result }
{
    Split {
        first: Piece::Leaf(Leaf::Bytes(b" in")),
        second: Piece::Node(Node::Word(WordPiece::Words(words, true))),
        rest: Piece::Leaf(Leaf::Bytes(b"; ")),
    }
}

fn led_apart<'a>(mark: &'a [u8], word: &'a Word) -> Split<'a>
    ensures { Apart (node.Command (commands.Led mark.entry word.entry)) result }
{
    Split {
        first: Piece::Leaf(Leaf::Bytes(mark)),
        second: Piece::Leaf(Leaf::Bytes(b"")),
        rest: Piece::Node(Node::Word(WordPiece::Word(word))),
    }
}

/// ` in (a) b ;; esac`
fn case_apart(items: &[CaseItem]) -> Split<'_>
    ensures { Apart (node.Command (commands.Case items.entry)) result }
{
    Split {
        first: Piece::Leaf(Leaf::Bytes(b" in ")),
        second: Piece::Node(Node::Command(CommandPiece::Items(items))),
        rest: Piece::Leaf(Leaf::Bytes(b"esac")),
    }
}

/// The first item, and those behind it.
fn items_apart(items: &[CaseItem]) -> Split<'_>
    ensures { Apart (node.Command (commands.Items items.entry)) result }
{
    match items {
        [] => Split {
            first: Piece::Leaf(Leaf::Bytes(b"")),
            second: Piece::Leaf(Leaf::Bytes(b"")),
            rest: Piece::Leaf(Leaf::Bytes(b"")),
        },
        [first, ..] => {
            let (_, rest) = items.split_at(1);
            let patterns = first.patterns.as_slice();
            Split {
                first: Piece::Node(Node::Command(CommandPiece::Patterns(patterns, b"("))),
                second: between(b") ", &first.body, b";; "),
                rest: Piece::Node(Node::Command(CommandPiece::Items(rest))),
            }
        }
    }
}

/// The first pattern, and those behind it.
fn patterns_apart<'a>(patterns: &'a [Word], mark: &'a [u8]) -> Split<'a>
    ensures { Apart (node.Command (commands.Patterns patterns.entry mark.entry)) result }
{
    match patterns {
        [] => Split {
            first: Piece::Leaf(Leaf::Bytes(b"")),
            second: Piece::Leaf(Leaf::Bytes(b"")),
            rest: Piece::Leaf(Leaf::Bytes(b"")),
        },
        [first, ..] => {
            let (_, rest) = patterns.split_at(1);
            Split {
                first: Piece::Leaf(Leaf::Bytes(mark)),
                second: Piece::Node(Node::Word(WordPiece::Word(first))),
                rest: Piece::Node(Node::Command(CommandPiece::Patterns(rest, b" | "))),
            }
        }
    }
}

// ---- pipelines and lists

fn stage_end(end: End, behind: &[Command]) -> End
    ensures { view_end result ≡ stage_end (view_end end) (stages_of (map view_command behind.now)) }
{
    match behind {
        [] => end,
        [_, ..] => End::Piped,
    }
}

fn link_end(end: End, behind: &[(Joint, Pipeline)]) -> End
    ensures { view_end result ≡ link_end (view_end end) (links_of (link_views behind.now)) }
{
    match behind {
        [] => end,
        [next, ..] => joint_end(next.0),
    }
}

/// The first pipelines up to `;` or a newline, and those behind them.
fn chains_apart(items: &[Item], end: End) -> Split<'_>
    ensures { Apart (node.Command (commands.Chains items.entry end)) result }
{
    match items {
        [] => Split {
            first: Piece::Leaf(Leaf::Bytes(b"")),
            second: Piece::Leaf(Leaf::Bytes(b"")),
            rest: Piece::Leaf(Leaf::Bytes(b"")),
        },
        [first, ..] => {
            let (_, rest) = items.split_at(1);
            let links = first.chain.rest.as_slice();
            let pipeline = CommandPiece::Pipeline(&first.chain.first, link_end(end, links));
            Split {
                first: Piece::Node(Node::Command(pipeline)),
                second: Piece::Node(Node::Command(CommandPiece::Links(links, end))),
                rest: Piece::Node(Node::Command(CommandPiece::Chains(rest, end))),
            }
        }
    }
}

/// The first pipeline, and those behind it.
fn links_apart(links: &[(Joint, Pipeline)], end: End) -> Split<'_>
    ensures { Apart (node.Command (commands.Links links.entry end)) result }
{
    match links {
        [] => Split {
            first: Piece::Leaf(Leaf::Bytes(b"")),
            second: Piece::Leaf(Leaf::Bytes(b"")),
            rest: Piece::Leaf(Leaf::Bytes(b"")),
        },
        [first, ..] => {
            let (_, rest) = links.split_at(1);
            let pipeline = CommandPiece::Pipeline(&first.1, link_end(end, rest));
            Split {
                first: Piece::Node(Node::Command(pipeline)),
                second: Piece::Leaf(Leaf::Bytes(b"")),
                rest: Piece::Node(Node::Command(CommandPiece::Links(rest, end))),
            }
        }
    }
}

fn negation(negated: bool) -> &'static [u8]
    ensures { result.now ≡ pipeline_mark negated }
{
    if negated { b"! " } else { b"" }
}

fn pipeline_apart(pipeline: &Pipeline, end: End) -> Split<'_>
    ensures { Apart (node.Command (commands.Pipeline pipeline.entry end)) result }
{
    let stages = pipeline.stages.as_slice();
    Split {
        first: Piece::Leaf(Leaf::Bytes(negation(pipeline.negated))),
        second: Piece::Leaf(Leaf::Bytes(b"")),
        rest: Piece::Node(Node::Command(CommandPiece::Stages(stages, end))),
    }
}

/// The first command, and those behind it.
fn stages_apart(stages: &[Command], end: End) -> Split<'_>
    ensures { Apart (node.Command (commands.Stages stages.entry end)) result }
{
    match stages {
        [] => Split {
            first: Piece::Leaf(Leaf::Bytes(b"")),
            second: Piece::Leaf(Leaf::Bytes(b"")),
            rest: Piece::Leaf(Leaf::Bytes(b"")),
        },
        [first, ..] => {
            let (_, rest) = stages.split_at(1);
            let command = CommandPiece::Command(first, stage_end(end, rest));
            Split {
                first: Piece::Node(Node::Command(command)),
                second: Piece::Leaf(Leaf::Bytes(b"")),
                rest: Piece::Node(Node::Command(CommandPiece::Stages(rest, end))),
            }
        }
    }
}
