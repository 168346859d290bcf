//! What reading gives: the values of the grammar's steps and rules.

ghost use Rattle.std.specs.Prelude.{◌++◌, Some};
ghost use Rattle.sh_parser.specs.Answers.{Gives};
ghost use Rattle.sh_parser.specs.Values.{nodes, optional_nodes};

use crate::fault::Stop;
use sh_syntax::{
    Assign, CaseItem, Command, CommandKind, FillTest, Item, Joint, Name, Param, Part, Pipeline,
    Redirect, RedirectOp, Script, Word,
};
use span_text::{Expr, List};

/// What stands before the word in `${a-w}` and `${a%%w}`.
#[derive(Drop)]
pub enum Opening {
    /// `${a-`.
    Filling {
        param: Param,
        test: FillTest,
        colon: bool,
    },
    /// `${a%%`.
    Trimming {
        param: Param,
        suffix: bool,
        longest: bool,
    },
}

/// What was read.
#[derive(Drop)]
pub enum Value {
    Name(Name),
    /// The digit before `<` or `>`.
    Digit(u8),
    Part(Part),
    Opening(Opening),
    Expr(Expr),
    Word(Word),
    Op(RedirectOp),
    /// A redirection without its descriptor.
    Aimed(RedirectOp, Word),
    Redirect(Redirect),
    Assign(Assign),
    Kind(CommandKind),
    Command(Command),
    Bang,
    Pipeline(Pipeline),
    /// `&& a`, `|| a`.
    Link(Joint, Pipeline),
    Chain(Item),
    Script(Script),
    /// `a; then b`.
    Branch(Script, Script),
    Else(Script),
    /// The words behind `in`.
    Listed(List<Word>),
    CaseItem(CaseItem),
}

/// A value, if there is one, behind those that were read before.
pub fn with(values: List<Value>, value: Option<Value>) -> Result<List<Value>, Stop>
    ensures { Gives nodes result (Some (nodes values ++ optional_nodes value)) }
{
    let mut values = values;
    if let Some(value) = value {
        values.push(value)?;
    }
    Ok(values)
}

/// Values behind others.
#[tactic(auto, using(crate::proofs::Going::nodes_join))]
pub fn joined(front: List<Value>, values: List<Value>) -> Result<List<Value>, Stop>
    ensures { Gives nodes result (Some (nodes front ++ nodes values)) }
{
    if front.len() == 0 {
        return Ok(values);
    }
    let mut front = front;
    for value in values.into_vec() {
        front.push(value)?;
    }
    Ok(front)
}
