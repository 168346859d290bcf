//! What stands open while a script runs. Each frame waits for one kind of payload.

ghost use Rattle.std.specs.Prelude.{◌≡◌, ◌∷◌, [], OnOk};
ghost use Rattle.sh_interp.specs.Views.{frame_of, stack_of, Popped};

use crate::payload::{Fielded, Operands};
use crate::shell::Whole;
use sh_builtins::Place;
use sh_checks::{Role, Where};
use sh_expansion::{Expanded, Mode};
use sh_meaning::Variable;
use sh_syntax::{
    Assign, CaseItem, Command, CommandKind, Item, Joint, Part, Pipeline, Redirect, RedirectOp,
    Script, Word,
};
use shell_world::{Desc, Fds};
use span_text::{Expr, List, Memory, Text};
use std::alloc::Global;

/// What waits for a word.
#[derive(Drop)]
pub enum WordFrame<'s> {
    /// Further parts.
    Parts(Mode, Where, &'s [Part]),
    /// The closing quote.
    Quoted,
    /// `${a=w}`, behind w.
    Assigning(Mode, &'s [u8], Expanded),
    /// `${a%w}`, behind w, with the value of `a`: whether a suffix, and whether the longest, is taken off.
    Trimming(Mode, bool, bool, Text, Expanded),
    /// An operand of an expression, with those before it and those behind it.
    Operand(List<u32>, Operands, &'s [Word]),
    /// A word of a command, with the fields before it.
    Field(Role, &'s Word, Fielded),
    /// A pattern of `case`.
    Pattern(CaseRest<'s>),
    /// The word of `case`.
    Subject(Place, &'s [CaseItem]),
    /// The value of an assignment without a command.
    Value(&'s [u8]),
    /// The value of an assignment before a command.
    PrefixValue(&'s [u8], List<(Text, Option<Variable>)>),
    /// The word of a redirection.
    Target(u8, RedirectOp),
}

/// A `case` behind one of its patterns.
#[derive(Drop)]
pub struct CaseRest<'s> {
    pub place: Place,
    /// What the patterns are matched against.
    pub text: Text,
    /// The patterns behind this one.
    pub patterns: &'s [Word],
    /// What runs where one of the item's patterns matches.
    pub body: &'s Script,
    /// The items behind this one.
    pub items: &'s [CaseItem],
}

/// What waits for operands.
#[derive(Drop)]
pub enum NumbersFrame<'s> {
    /// Further operands; the numbers are of those behind a sign.
    Operands(List<u32>, &'s [Word]),
    /// The value of an expression, behind the word so far.
    Sum(Mode, &'s Expr, Expanded),
}

/// What waits for fields.
#[derive(Clone, Copy)]
pub enum FieldsFrame<'s> {
    /// Further words.
    Words(Role, &'s [Word]),
    Pathnames,
}

/// What waits for arguments.
#[derive(Clone, Copy)]
pub enum ArgumentsFrame<'s> {
    /// A simple command: its assignments, its words as they are written, and its redirections.
    Simple(Place, &'s [Assign], &'s [Word], &'s [Redirect]),
    /// `for`: its name and its body.
    Walk(Place, &'s [u8], &'s Script),
}

/// What waits for a truth value.
#[derive(Drop)]
pub enum TruthFrame<'s> {
    Patterns(CaseRest<'s>),
    Assigns(&'s [Assign]),
    /// The end of assignments without a command.
    Nameless,
}

/// A command behind its prefix. Its arguments begin with its name.
#[derive(Drop)]
pub enum Prefixed<'s> {
    Builtin(Place, &'s [Assign], &'s [Word], List<Text>),
    External(List<Text>),
}

/// What waits for what the names of a prefix had.
#[derive(Drop)]
pub enum SavedFrame<'s> {
    Prefix(&'s [Assign]),
    Prefixed(Prefixed<'s>),
}

/// A command behind its redirections.
#[derive(Drop)]
pub enum Job<'s> {
    /// Assignments without a command.
    Assigning(&'s [Assign]),
    /// A special built-in.
    Special(Place, &'s [Assign], &'s [Word], List<Text>),
    /// A function, with its arguments.
    Called(&'s Command, List<Text>),
    Prefixed(&'s [Assign], Prefixed<'s>),
    Compound(Place, &'s CommandKind),
}

/// What waits for redirections.
#[derive(Drop)]
pub enum MadeFrame<'s> {
    Redirects(&'s [Redirect]),
    Job(Job<'s>),
}

/// A loop of a script at a place.
#[derive(Clone, Copy)]
pub struct LoopParts<'s> {
    pub place: Place,
    pub until: bool,
    pub test: &'s Script,
    pub body: &'s Script,
}

/// What waits for how commands end.
#[derive(Drop)]
pub enum FlowFrame<'s> {
    Script(Place, &'s [Item]),
    Links(Place, &'s [(Joint, Pipeline)]),
    Negation,
    /// A stage that writes to this buffer, with those behind it.
    Stage(Desc, Whole<'s>, &'s [Command]),
    Pipeline(Whole<'s>),
    Shell(Whole<'s>),
    /// `$(a)`, which writes to this buffer.
    Substitution(Desc, Whole<'s>, Mode, Expanded),
    /// The descriptors before redirections.
    FdsBack(Fds),
    /// The test of an `if`: the body, and what is behind it.
    Branch(Place, &'s Script, &'s [(Script, Script)], &'s Option<Script>),
    /// The test of a loop, whose last body had this status.
    LoopTest(LoopParts<'s>, u8),
    LoopBody(LoopParts<'s>),
    /// A body of `for`, with the texts, and how many of them are done.
    Round(Place, &'s [u8], &'s Script, List<Text>, usize),
    /// A function's body: the caller's parameters and levels.
    Called(List<Text>, u32),
}

#[derive(Drop)]
pub enum Frame<'s> {
    Word(WordFrame<'s>),
    Numbers(NumbersFrame<'s>),
    Fields(FieldsFrame<'s>),
    Arguments(ArgumentsFrame<'s>),
    Truth(TruthFrame<'s>),
    Saved(SavedFrame<'s>),
    Made(MadeFrame<'s>),
    Ended(FlowFrame<'s>),
}

/// Frames, the innermost last.
#[derive(Drop)]
pub struct Frames<'s> {
    cells: Vec<Frame<'s>>,
}

impl<'s> Frames<'s> {
    pub fn new(alloc: Global) -> Frames<'s>
        ensures { stack_of result ≡ [] }
    {
        Frames {
            cells: Vec::new(alloc),
        }
    }

    /// Takes the innermost frame out.
    pub fn pop(&mut self) -> Option<Frame<'s>>
        ensures { Popped (stack_of self.old) (stack_of self.new) result }
    {
        self.cells.pop()
    }

    #[tactic(auto, using(crate::proofs::Stacks::pushed))]
    pub fn push(&mut self, frame: Frame<'s>) -> Result<(), Memory>
        ensures { OnOk result (stack_of self.new ≡ frame_of frame.entry ∷ stack_of self.old) }
    {
        self.cells.push(frame)?;
        Ok(())
    }
}
