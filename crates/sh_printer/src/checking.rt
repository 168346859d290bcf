//! Which scripts can be printed: exactly those that some text spells.

ghost use Rattle.std.specs.Prelude.{◌≡◌, map};
ghost use Rattle.sh_printer.specs.Checks.{NodeSplits, check_holds};
ghost use Rattle.sh_printer.specs.SumChecks.{counted, counted_if, operand_counted};
ghost use Rattle.sh_printing.specs.Printable.{operand_checks, script_printable};
ghost use Rattle.sh_printing.specs.Spellable.{sum_fits};
ghost use Rattle.sh_syntax.specs.View.{view, view_word, words_of};

mod bytes;
mod checks;
mod commands;
mod names;
mod parts;
mod redirects;
mod sums;
mod words;

use checks::{
    Check, CheckNode, Checks, CommandCheck, Given, Nesting, SumCheck, SumNode, WordCheck,
};
use commands::command_apart;
use sh_syntax::{Script, Word};
use span_text::Expr;
use sums::sum_apart;
use words::word_apart;

/// The pieces of a node.
fn apart<'a>(node: CheckNode<'a>, nesting: Nesting) -> Checks<'a>
    ensures { NodeSplits node.entry nesting result }
{
    match node {
        CheckNode::Word(check) => word_apart(check, nesting),
        CheckNode::Command(check) => command_apart(check, nesting),
    }
}

/// Whether what is to hold does. Of a node the last piece is checked by the same call, so that a long list needs no deep
/// stack.
#[cycle(printable)]
fn holds(check: Check<'_>) -> bool
    ensures { result ≡ check_holds check.entry }
{
    let mut now = check;
    'checks: loop {
        match now {
            Check::Known(known) => return known,
            Check::Sum(expr, operands, nesting) => return sum_holds(expr, operands, nesting),
            Check::Node(node, nesting) => {
                let split = apart(node, nesting);
                if !holds(split.first) {
                    return false;
                }
                if !holds(split.second) {
                    return false;
                }
                now = split.rest;
            }
        }
    }
}

/// Whether an expression fits, and has just these operands.
#[cycle(printable)]
fn sum_holds(expr: &Expr, operands: &[Word], nesting: Nesting) -> bool
    ensures { result ≡ sum_fits (operand_checks nesting.in_body (words_of (map view_word operands.now))) nesting.depth expr.now }
{
    let given = Given {
        words: operands,
        in_body: nesting.in_body,
    };
    let sum = SumCheck::Node(SumNode::Expr(expr, 0), nesting.depth);
    match counted(sum, given, 0) {
        None => false,
        Some(count) => count == operands.len(),
    }
}

/// How many operands there are with those of an expression, behind so many before it; none where it doesn't hold.
#[cycle(printable)]
fn counted(sum: SumCheck<'_>, given: Given<'_>, before: usize) -> Option<usize>
    ensures { result ≡ counted given.entry sum.entry before }
{
    let mut now = sum;
    let mut count = before;
    'sums: loop {
        match now {
            SumCheck::Known(known) => return counted_if(known, count),
            SumCheck::Operand(number, depth) => {
                return operand_counted(number, depth, given, count);
            }
            SumCheck::Node(node, depth) => {
                let split = sum_apart(node, depth);
                count = counted(split.first, given, count)?;
                count = counted(split.second, given, count)?;
                now = split.rest;
            }
        }
    }
}

fn counted_if(holds: bool, count: usize) -> Option<usize>
    ensures { result ≡ counted_if holds count }
{
    if holds { Some(count) } else { None }
}

/// The same of the operand of this number, which stands so deep. Operands are numbered in their order.
#[cycle(printable)]
fn operand_counted(number: u32, depth: usize, given: Given<'_>, count: usize) -> Option<usize>
    ensures { result ≡ operand_counted given.entry number depth count }
{
    let number = number as usize;
    if number != count {
        return None;
    }
    if number >= given.words.len() {
        return None;
    }
    let nesting = Nesting {
        in_body: given.in_body,
        depth,
    };
    let operand = WordCheck::Operand(given.words[number].parts.as_slice());
    if holds(Check::Node(CheckNode::Word(operand), nesting)) {
        Some(number + 1)
    } else {
        None
    }
}

/// Whether the script can be printed so that it reads back: whether some text spells it (POSIX 2.10). It takes no memory.
pub fn printable(script: &Script) -> bool
    ensures { result ≡ script_printable (view script.now) }
{
    let chains = CommandCheck::Chains(script.items.as_slice());
    let nesting = Nesting {
        in_body: false,
        depth: 0,
    };
    holds(Check::Node(CheckNode::Command(chains), nesting))
}
