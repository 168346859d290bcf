//! What stands for a value that is missing.

ghost use Rattle.std.specs.Prelude.{◌≡◌};
ghost use Rattle.sh_parser.specs.Picking as picking;
ghost use Rattle.sh_syntax.specs.View.{view, view_word, view_kind, view_command, view_pipeline};

use sh_syntax::{Command, CommandKind, Name, Pipeline, Script, Word};
use span_text::{List, Span, Text};
use std::alloc::Global;

pub fn name_or_empty(alloc: Global, name: Option<Name>, span: Span) -> Name
    ensures { result.text ≡ picking.text_of name }
{
    match name {
        Some(name) => name,
        None => Name {
            text: Text::new(alloc),
            span,
        },
    }
}

#[tactic(auto, using(crate::proofs::Rolls::word_rolled))]
pub fn word_or_empty(alloc: Global, word: Option<Word>, span: Span) -> Word
    ensures { view_word result ≡ picking.word_of word }
{
    match word {
        Some(word) => word,
        None => Word {
            parts: List::new(alloc),
            span,
        },
    }
}

#[tactic(auto, using(crate::proofs::Rolls::script_rolled))]
pub fn script_or_empty(alloc: Global, script: Option<Script>) -> Script
    ensures { view result ≡ picking.script_of script }
{
    match script {
        Some(script) => script,
        None => Script {
            items: List::new(alloc),
        },
    }
}

#[tactic(auto, using(sh_syntax::proofs::Views::group_is))]
pub fn kind_or_empty(alloc: Global, kind: Option<CommandKind>) -> CommandKind
    ensures { view_kind result ≡ picking.kind_of kind }
{
    match kind {
        Some(kind) => kind,
        None => CommandKind::Group(script_or_empty(alloc, None)),
    }
}

#[tactic(auto, using(crate::proofs::Rolls::command_rolled))]
pub fn command_or_empty(alloc: Global, command: Option<Command>, span: Span) -> Command
    ensures { view_command result ≡ picking.command_of command }
{
    match command {
        Some(command) => command,
        None => Command {
            kind: kind_or_empty(alloc, None),
            redirects: List::new(alloc),
            span,
        },
    }
}

#[tactic(auto, using(crate::proofs::Rolls::pipeline_rolled))]
pub fn pipeline_or_empty(alloc: Global, pipeline: Option<Pipeline>) -> Pipeline
    ensures { view_pipeline result ≡ picking.pipeline_of pipeline }
{
    match pipeline {
        Some(pipeline) => pipeline,
        None => Pipeline {
            negated: false,
            stages: List::new(alloc),
        },
    }
}
