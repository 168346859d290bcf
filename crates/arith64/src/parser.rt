//! Reading tokens: each function takes one more, or stops where it can't stand there.

ghost use Rattle.std.specs.Prelude.{◌≡◌, Bool, true, false, List, [], ◌∷◌, Option, Some, None, if◌then◌else◌};
ghost use Rattle.span_text.specs.ExprTokens as token;
ghost use Rattle.span_text.specs.Expressions as spelling;
ghost use Rattle.span_text.specs.declared.expr.Expr.TheVariants as expr;
ghost use Rattle.span_text.specs.declared.sign.Sign.TheVariants as sign;
ghost use Rattle.arith64.specs.Parsing as parsing;
ghost use Rattle.arith64.specs.Reader as reading;
ghost use Rattle.arith64.specs.Parsing.{Gives, shift};

use crate::fault::Stop;
use crate::frames::{Frame, Frames, Parser, Slot};
use crate::levels::{ASSIGNMENT, CONDITIONAL, LOOSEST, TEST, UNARY, left_level, level};
use crate::numbers::GREATEST;
use crate::reducing::reduce;
use span_text::{BinOp, Boxed, Expr, Infix, Sign, StepOp, Text, UnOp};
use std::alloc::Global;

/// One frame more, behind which an operand has to come.
fn wanted(frames: Frames, frame: Frame) -> Result<Parser, Stop>
    ensures { Gives result (parsing.wanted (frame ∷ frames)) }
{
    let mut frames = frames;
    frames.push(frame)?;
    Ok(Parser {
        frames,
        slot: Slot::Wanted,
    })
}

fn stepping(frames: Frames, op: StepOp) -> Parser
    ensures { Some result ≡ parsing.stepping frames op }
{
    Parser {
        frames,
        slot: Slot::Stepping(op),
    }
}

fn held(frames: Frames, operand: Boxed<Expr>, is_bare: bool) -> Parser
    ensures { Some result ≡ parsing.held frames operand is_bare }
{
    Parser {
        frames,
        slot: Slot::Held(operand, is_bare),
    }
}

/// An operand of one token.
fn simple(alloc: Global, frames: Frames, operand: Expr, is_bare: bool) -> Result<Parser, Stop>
    ensures { Gives result (parsing.held frames operand is_bare) }
{
    Ok(held(frames, Boxed::new(alloc, operand)?, is_bare))
}

/// A variable with its `++` or `--`.
fn stepped(alloc: Global, frames: Frames, op: StepOp, target: Boxed<Expr>) -> Result<Parser, Stop>
    ensures { Gives result (parsing.held frames (expr.Step op target) false) }
{
    Ok(held(frames, Boxed::new(alloc, Expr::Step(op, target))?, false))
}

fn step_name(alloc: Global, frames: Frames, op: StepOp, name: Text) -> Result<Parser, Stop>
    ensures { Gives result (parsing.held frames (expr.Step op (expr.Name name)) false) }
{
    let target = Boxed::new(alloc, Expr::Name(name))?;
    stepped(alloc, frames, op, target)
}

/// A constant, which isn't greater than an `i64` may be.
pub(crate) fn take_number(alloc: Global, parser: Parser, value: u64) -> Result<Parser, Stop>
    ensures { Gives result (reading.number_at parser value) }
{
    if GREATEST < value {
        return Err(Stop::Bad);
    }
    let Parser { frames, slot } = parser;
    match slot {
        Slot::Wanted => simple(alloc, frames, Expr::Constant(value as i64), false),
        _ => Err(Stop::Bad),
    }
}

/// An expansion, by its number.
pub(crate) fn take_operand(alloc: Global, parser: Parser, number: u32) -> Result<Parser, Stop>
    ensures { Gives result (shift parser (token.operand number)) }
{
    let Parser { frames, slot } = parser;
    match slot {
        Slot::Wanted => simple(alloc, frames, Expr::Operand(number), false),
        _ => Err(Stop::Bad),
    }
}

/// A name without an index.
pub(crate) fn take_name(alloc: Global, parser: Parser, name: Text) -> Result<Parser, Stop>
    ensures { Gives result (shift parser (token.name name)) }
{
    let Parser { frames, slot } = parser;
    match slot {
        Slot::Wanted => simple(alloc, frames, Expr::Name(name), true),
        Slot::Stepping(op) => step_name(alloc, frames, op, name),
        Slot::Held(..) => Err(Stop::Bad),
    }
}

/// A name and the `[` right behind it.
pub(crate) fn take_indexed(parser: Parser, name: Text) -> Result<Parser, Stop>
    ensures { Gives result (shift parser (token.indexed name)) }
{
    let Parser { frames, slot } = parser;
    match slot {
        Slot::Wanted => wanted(frames, Frame::Index(name, None)),
        Slot::Stepping(op) => wanted(frames, Frame::Index(name, Some(op))),
        Slot::Held(..) => Err(Stop::Bad),
    }
}

/// A sign where an operand has to come.
fn prefix_sign(frames: Frames, sign: Sign) -> Result<Parser, Stop>
    ensures { Gives result (parsing.prefix_at frames sign) }
{
    match sign {
        Sign::Between(Infix::Plain(BinOp::Add)) => wanted(frames, Frame::Prefix(UnOp::Plus)),
        Sign::Between(Infix::Plain(BinOp::Subtract)) => wanted(frames, Frame::Prefix(UnOp::Minus)),
        Sign::Not => wanted(frames, Frame::Prefix(UnOp::Not)),
        Sign::Complement => wanted(frames, Frame::Prefix(UnOp::Complement)),
        Sign::Increment => Ok(stepping(frames, StepOp::PreAdd)),
        Sign::Decrement => Ok(stepping(frames, StepOp::PreSub)),
        Sign::Open => wanted(frames, Frame::Group),
        _ => Err(Stop::Bad),
    }
}

fn asked(frame: &Frame) -> u32
    ensures { result ≡ parsing.asked frame.now }
{
    match frame {
        Frame::Group | Frame::Index(..) | Frame::Test(_) => LOOSEST,
        Frame::Prefix(_) => UNARY,
        Frame::Left(op, _) => level(*op) + 1,
        Frame::Otherwise(..) => CONDITIONAL,
        Frame::Target(..) => ASSIGNMENT,
    }
}

/// The loosest level of what may stand behind these frames.
fn room(frames: &Frames) -> u32
    ensures { result ≡ parsing.room frames.now }
{
    match frames.top() {
        None => LOOSEST,
        Some(frame) => asked(frame),
    }
}

/// An operator between operands. `**` stands in no chain: behind `a ** b` there is no room for it.
fn take_infix(
    alloc: Global,
    frames: Frames,
    operand: Boxed<Expr>,
    op: Infix,
) -> Result<Parser, Stop>
    ensures { Gives result (parsing.left_at op (parsing.reduce (spelling.left_level op) frames operand)) }
{
    let (frames, operand) = reduce(alloc, left_level(op), frames, operand)?;
    if room(&frames) <= level(op) {
        wanted(frames, Frame::Left(op, operand))
    } else {
        Err(Stop::Bad)
    }
}

fn take_assignment(
    frames: Frames,
    operand: Boxed<Expr>,
    is_bare: bool,
    op: Option<BinOp>,
) -> Result<Parser, Stop>
    ensures { Gives result (parsing.sign_at frames operand is_bare (sign.Assign op)) }
{
    if is_bare && room(&frames) <= ASSIGNMENT {
        wanted(frames, Frame::Target(operand, op))
    } else {
        Err(Stop::Bad)
    }
}

/// A `++` or `--` behind an operand.
fn take_step(
    alloc: Global,
    frames: Frames,
    operand: Boxed<Expr>,
    is_bare: bool,
    op: StepOp,
) -> Result<Parser, Stop>
    ensures { Gives result (if is_bare then parsing.held frames (expr.Step op operand) false else None) }
{
    if is_bare {
        stepped(alloc, frames, op, operand)
    } else {
        Err(Stop::Bad)
    }
}

fn take_question(alloc: Global, frames: Frames, operand: Boxed<Expr>) -> Result<Parser, Stop>
    ensures { Gives result (parsing.test_at (parsing.reduce 3 frames operand)) }
{
    let (frames, operand) = reduce(alloc, TEST, frames, operand)?;
    wanted(frames, Frame::Test(operand))
}

fn otherwise(frames: Frames, operand: Boxed<Expr>) -> Result<Parser, Stop>
    ensures { Gives result (parsing.otherwise_at frames operand) }
{
    let mut frames = frames;
    match frames.pop() {
        Some(Frame::Test(test)) => wanted(frames, Frame::Otherwise(test, operand)),
        _ => Err(Stop::Bad),
    }
}

fn close(frames: Frames, operand: Boxed<Expr>) -> Result<Parser, Stop>
    ensures { Gives result (parsing.close_at frames operand) }
{
    let mut frames = frames;
    match frames.pop() {
        Some(Frame::Group) => Ok(held(frames, operand, false)),
        _ => Err(Stop::Bad),
    }
}

fn member(
    alloc: Global,
    frames: Frames,
    name: Text,
    step: Option<StepOp>,
    index: Boxed<Expr>,
) -> Result<Parser, Stop>
    ensures { Gives result (parsing.member_at frames name step index) }
{
    let member = Boxed::new(alloc, Expr::Member(name, index))?;
    match step {
        None => Ok(held(frames, member, true)),
        Some(op) => stepped(alloc, frames, op, member),
    }
}

fn end_index(alloc: Global, frames: Frames, operand: Boxed<Expr>) -> Result<Parser, Stop>
    ensures { Gives result (parsing.end_index_at frames operand) }
{
    let mut frames = frames;
    match frames.pop() {
        Some(Frame::Index(name, step)) => member(alloc, frames, name, step, operand),
        _ => Err(Stop::Bad),
    }
}

/// What a `:`, a `)` or a `]` ends.
fn take_end(alloc: Global, frames: Frames, operand: Boxed<Expr>, sign: Sign) -> Result<Parser, Stop>
    ensures { Gives result (parsing.end_at (parsing.reduce 0 frames operand) sign) }
{
    let (frames, operand) = reduce(alloc, LOOSEST, frames, operand)?;
    match sign {
        Sign::Colon => otherwise(frames, operand),
        Sign::Close => close(frames, operand),
        Sign::EndIndex => end_index(alloc, frames, operand),
        _ => Err(Stop::Bad),
    }
}

/// A sign behind an operand.
fn sign_behind(
    alloc: Global,
    frames: Frames,
    operand: Boxed<Expr>,
    is_bare: bool,
    sign: Sign,
) -> Result<Parser, Stop>
    ensures { Gives result (parsing.sign_at frames operand is_bare sign) }
{
    match sign {
        Sign::Between(op) => take_infix(alloc, frames, operand, op),
        Sign::Assign(op) => take_assignment(frames, operand, is_bare, op),
        Sign::Increment => take_step(alloc, frames, operand, is_bare, StepOp::PostAdd),
        Sign::Decrement => take_step(alloc, frames, operand, is_bare, StepOp::PostSub),
        Sign::Question => take_question(alloc, frames, operand),
        Sign::Colon | Sign::Close | Sign::EndIndex => take_end(alloc, frames, operand, sign),
        Sign::Not | Sign::Complement | Sign::Open => Err(Stop::Bad),
    }
}

/// An operator or a bracket.
pub(crate) fn take_sign(alloc: Global, parser: Parser, sign: Sign) -> Result<Parser, Stop>
    ensures { Gives result (shift parser (token.sign sign)) }
{
    let Parser { frames, slot } = parser;
    match slot {
        Slot::Wanted => prefix_sign(frames, sign),
        Slot::Stepping(_) => Err(Stop::Bad),
        Slot::Held(operand, is_bare) => sign_behind(alloc, frames, operand, is_bare, sign),
    }
}

fn only(frames: &Frames, operand: Boxed<Expr>) -> Result<Expr, Stop>
    ensures { Gives result (parsing.only (frames.now, operand)) }
{
    match frames.top() {
        None => Ok(operand.into_inner()),
        Some(_) => Err(Stop::Bad),
    }
}

/// The expression that was read, where nothing stands open.
pub(crate) fn accept(alloc: Global, parser: Parser) -> Result<Expr, Stop>
    ensures { Gives result (parsing.accept parser) }
{
    let Parser { frames, slot } = parser;
    match slot {
        Slot::Held(operand, _) => {
            let (frames, operand) = reduce(alloc, LOOSEST, frames, operand)?;
            only(&frames, operand)
        }
        _ => Err(Stop::Bad),
    }
}
