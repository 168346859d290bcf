//! The values that were read below a rule, by their kinds.

ghost use Rattle.std.specs.Prelude.{◌≡◌, Some};
ghost use Rattle.sh_parser.specs.Answers.{Gives};
ghost use Rattle.sh_parser.specs.Picking as picking;

use crate::fault::Stop;
use crate::values::{Opening, Value};
use sh_syntax::{
    Assign, CaseItem, Command, CommandKind, Item, Joint, Name, Part, Pipeline, Redirect,
    RedirectOp, Script, Word,
};
use span_text::{Expr, List};
use std::alloc::Global;

/// Values by their kinds: those of a kind in their order, or the first where a rule takes one.
#[derive(Drop)]
pub struct Picked {
    pub name: Option<Name>,
    pub digit: Option<u8>,
    pub parts: List<Part>,
    pub opening: Option<Opening>,
    pub expr: Option<Expr>,
    pub words: List<Word>,
    pub op: Option<RedirectOp>,
    pub aimed: Option<(RedirectOp, Word)>,
    pub redirects: List<Redirect>,
    pub assigns: List<Assign>,
    pub kind: Option<CommandKind>,
    pub commands: List<Command>,
    pub banged: bool,
    pub pipeline: Option<Pipeline>,
    pub links: List<(Joint, Pipeline)>,
    pub chains: List<Item>,
    pub scripts: List<Script>,
    pub branches: List<(Script, Script)>,
    pub otherwise: Option<Script>,
    pub listed: Option<List<Word>>,
    pub items: List<CaseItem>,
}

/// Puts the item there, if none is there yet.
fn keep<T: Drop>(place: &mut Option<T>, item: T)
    ensures { place.new ≡ picking.first place.old (Some item) }
{
    if place.is_none() {
        *place = Some(item);
    }
}

/// The same items, without room for more of them.
pub fn tight<T>(items: List<T>) -> List<T>
    ensures { result ≡ items }
{
    let mut cells = items.into_vec();
    cells.shrink_to_fit();
    List::from_vec(cells)
}

/// The first item.
pub fn first<T: Drop>(items: List<T>) -> Option<T>
    ensures { result ≡ picking.head items }
{
    items.into_vec().into_iter().next()
}

/// The first two items.
pub fn two<T: Drop>(items: List<T>) -> (Option<T>, Option<T>)
    ensures { result ≡ (picking.head items, picking.second items) }
{
    let mut items = items.into_vec().into_iter();
    let first = items.next();
    (first, items.next())
}

impl Picked {
    fn none(alloc: Global) -> Picked
        ensures { result ≡ picking.none }
    {
        Picked {
            name: None,
            digit: None,
            parts: List::new(alloc),
            opening: None,
            expr: None,
            words: List::new(alloc),
            op: None,
            aimed: None,
            redirects: List::new(alloc),
            assigns: List::new(alloc),
            kind: None,
            commands: List::new(alloc),
            banged: false,
            pipeline: None,
            links: List::new(alloc),
            chains: List::new(alloc),
            scripts: List::new(alloc),
            branches: List::new(alloc),
            otherwise: None,
            listed: None,
            items: List::new(alloc),
        }
    }

    /// Puts a value behind those of its kind.
    fn put(&mut self, value: Value) -> Result<(), Stop>
        ensures { Gives (λ _. self.new) result (Some (picking.put self.old value)) }
    {
        match value {
            Value::Name(name) => keep(&mut self.name, name),
            Value::Digit(digit) => keep(&mut self.digit, digit),
            Value::Part(part) => self.parts.push(part)?,
            Value::Opening(opening) => keep(&mut self.opening, opening),
            Value::Expr(expr) => keep(&mut self.expr, expr),
            Value::Word(word) => self.words.push(word)?,
            Value::Op(op) => keep(&mut self.op, op),
            Value::Aimed(op, word) => keep(&mut self.aimed, (op, word)),
            Value::Redirect(redirect) => self.redirects.push(redirect)?,
            Value::Assign(assign) => self.assigns.push(assign)?,
            Value::Kind(kind) => keep(&mut self.kind, kind),
            Value::Command(command) => self.commands.push(command)?,
            Value::Bang => self.banged = true,
            Value::Pipeline(pipeline) => keep(&mut self.pipeline, pipeline),
            Value::Link(joint, pipeline) => self.links.push((joint, pipeline))?,
            Value::Chain(item) => self.chains.push(item)?,
            Value::Script(script) => self.scripts.push(script)?,
            Value::Branch(test, body) => self.branches.push((test, body))?,
            Value::Else(script) => keep(&mut self.otherwise, script),
            Value::Listed(words) => keep(&mut self.listed, words),
            Value::CaseItem(item) => self.items.push(item)?,
        }
        Ok(())
    }
}

/// The values by their kinds.
pub fn pick(alloc: Global, values: List<Value>) -> Result<Picked, Stop>
    ensures { Gives (λ p. p) result (Some (picking.pick values)) }
{
    let mut picked = Picked::none(alloc);
    for value in values.into_vec() {
        picked.put(value)?;
    }
    Ok(picked)
}
