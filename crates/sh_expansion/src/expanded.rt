//! A word while it is expanded, part by part (POSIX XCU 2.6).

ghost use Rattle.std.specs.Prelude.{◌≡◌, ◌++◌, ◌∷◌, [], IfOk, OnOk};
ghost use Rattle.std.specs.Option.{option_copied};
ghost use Rattle.field_split.specs.Fields.{fields, separators};
ghost use Rattle.field_split.specs.Reading.{bytes_of};
ghost use Rattle.sh_meaning.specs.Expanded as words;
ghost use Rattle.sh_expansion.specs.Views.{mode_of, word_of};

use crate::mode::Mode;
use field_split::split;
use span_text::{Flagged, Item, List, Mark, Memory, Text};
use std::alloc::Global;

/// What the parts of a word have given so far. Where memory is missing, what it has then isn't said.
#[derive(Debug, Drop)]
pub struct Expanded {
    /// The texts that a list ended: each is split by itself.
    pub before: List<Flagged>,
    /// The text that parts are put behind.
    pub text: Flagged,
    /// A quoted list without members stands in the word.
    pub missing: bool,
    /// Another part than such a list does.
    pub other: bool,
    /// A command substitution ran in the command.
    pub ran: bool,
}

/// Puts bytes with this mark behind a text.
fn push_marked(items: &mut Flagged, mark: Mark, text: &[u8]) -> Result<(), Memory>
    ensures { OnOk result (items.new ≡ items.old ++ words.marked mark text.now) }
{
    for b in text {
        items.push(Item::Byte(*b, mark))?;
    }
    Ok(())
}

/// Puts quoted bytes behind a text; where there are none, what keeps their field.
fn push_quoted(items: &mut Flagged, text: &[u8]) -> Result<(), Memory>
    ensures { OnOk result (items.new ≡ items.old ++ words.quoted_items text.now) }
{
    match text {
        [] => items.push(Item::Quote),
        [_, ..] => push_marked(items, Mark::Quoted, text),
    }
}

/// Puts a member of a list behind a text.
fn push_member(items: &mut Flagged, mode: Mode, text: &[u8]) -> Result<(), Memory>
    ensures { OnOk result (items.new ≡ items.old ++ words.member_items (mode_of mode) text.now) }
{
    match mode {
        Mode::Bare(_, _) => push_marked(items, Mark::Value, text),
        Mode::Double(_) => push_quoted(items, text),
    }
}

/// The bytes of a text, without its marks.
#[tactic(auto, unfolding(field_split::specs::Reading::bytes_of))]
pub(crate) fn bytes_of(alloc: Global, items: &[Item]) -> Result<Text, Memory>
    ensures { IfOk result (λ text. text ≡ bytes_of items.now) }
{
    let mut bytes = Vec::new(alloc);
    for item in items {
        if let Item::Byte(b, _) = item {
            bytes.push(*b)?;
        }
    }
    Ok(Text::from_vec(bytes))
}

/// Whether a text has no byte.
#[tactic(auto, unfolding(field_split::specs::Reading::bytes_of))]
fn has_no_byte(items: &[Item]) -> bool
    ensures { result ≡ words.is_empty (bytes_of items.now) }
{
    for item in items {
        if let Item::Byte(_, _) = item {
            return false;
        }
    }
    true
}

/// Puts the fields of a text behind others.
fn append_fields(
    alloc: Global,
    text: &Flagged,
    ifs: Option<&[u8]>,
    all: &mut Vec<Flagged>,
) -> Result<(), Memory>
    ensures { OnOk result (all.new.items ≡ all.old.items ++ fields (separators (option_copied ifs.entry)) text.now) }
{
    let mut fields = split(alloc, text, ifs)?.into_vec();
    all.append(&mut fields)?;
    Ok(())
}

impl Expanded {
    /// A word without parts. Whether a command substitution ran is of the whole command.
    pub fn new(alloc: Global, ran: bool) -> Expanded
        ensures { word_of result ≡ words.nothing ran }
    {
        Expanded {
            before: List::new(alloc),
            text: Flagged::new(alloc),
            missing: false,
            other: false,
            ran,
        }
    }

    /// Bytes that stand for themselves.
    pub fn with_plain(&mut self, mode: Mode, text: &[u8]) -> Result<(), Memory>
        ensures { OnOk result (word_of self.new ≡ words.with_plain (mode_of mode) text.now (word_of self.old)) }
    {
        self.other = true;
        push_marked(&mut self.text, mode.plain_mark(), text)
    }

    /// `'..'` and `\b`: an empty quoted part keeps its field.
    pub fn with_exact(&mut self, text: &[u8]) -> Result<(), Memory>
        ensures { OnOk result (word_of self.new ≡ words.with_exact text.now (word_of self.old)) }
    {
        self.other = true;
        push_quoted(&mut self.text, text)
    }

    /// What an expansion gives.
    pub fn with_value(&mut self, mode: Mode, text: &[u8]) -> Result<(), Memory>
        ensures { OnOk result (word_of self.new ≡ words.with_value (mode_of mode) text.now (word_of self.old)) }
    {
        self.other = true;
        push_marked(&mut self.text, mode.value_mark(), text)
    }

    /// What a tilde gives, which is neither split nor a pattern (2.6.1).
    pub fn with_home(&mut self, text: &[u8]) -> Result<(), Memory>
        ensures { OnOk result (word_of self.new ≡ words.with_home text.now (word_of self.old)) }
    {
        self.other = true;
        push_marked(&mut self.text, Mark::Quoted, text)
    }

    /// The closing quote of `".."`, whose field is there without a byte too, but where all that it holds is a list
    /// without members.
    pub fn with_quote(&mut self) -> Result<(), Memory>
        ensures { OnOk result (word_of self.new ≡ words.with_quote (word_of self.old)) }
    {
        if self.missing {
            return Ok(());
        }
        self.text.push(Item::Quote)
    }

    /// A list without members (2.5.2): only a quoted one is told from nothing.
    fn without_members(&mut self, mode: Mode)
        ensures { word_of self.new ≡ words.without_members (mode_of mode) (word_of self.old) }
    {
        match mode {
            Mode::Bare(_, _) => self.other = true,
            Mode::Double(_) => self.missing = true,
        }
    }

    /// A further member of a list begins a text.
    fn with_next(&mut self, alloc: Global, mode: Mode, text: &[u8]) -> Result<(), Memory>
        ensures { OnOk result (word_of self.new ≡ words.with_more (mode_of mode) (text.now ∷ []) (word_of self.old)) }
    {
        let mut next = Flagged::new(alloc);
        push_member(&mut next, mode, text)?;
        self.before.push(std::mem::replace(&mut self.text, next))
    }

    fn with_more(&mut self, alloc: Global, mode: Mode, texts: &[Text]) -> Result<(), Memory>
        ensures { OnOk result (word_of self.new ≡ words.with_more (mode_of mode) texts.now (word_of self.old)) }
    {
        for text in texts {
            self.with_next(alloc, mode, text.bytes())?;
        }
        Ok(())
    }

    fn with_first(&mut self, mode: Mode, text: &[u8]) -> Result<(), Memory>
        ensures { OnOk result (word_of self.new ≡ words.with_members (mode_of mode) (text.now ∷ []) (word_of self.old)) }
    {
        self.other = true;
        push_member(&mut self.text, mode, text)
    }

    /// The members of a list: what stands before is joined to the first, and what follows to the last.
    pub fn with_members(&mut self, alloc: Global, mode: Mode, texts: &[Text]) -> Result<(), Memory>
        ensures { OnOk result (word_of self.new ≡ words.with_members (mode_of mode) texts.now (word_of self.old)) }
    {
        match texts {
            [] => {
                self.without_members(mode);
                Ok(())
            }
            [first, rest @ ..] => {
                self.with_first(mode, first.bytes())?;
                self.with_more(alloc, mode, rest)
            }
        }
    }

    /// Whether a quoted list without members stands beside other parts that are all empty.
    pub fn is_unclear(&self) -> bool
        ensures { result ≡ words.is_unclear (word_of self.now) }
    {
        self.missing && self.other && has_no_byte(self.text.items())
    }

    /// The word's one text.
    pub fn text_of(&self, alloc: Global) -> Result<Text, Memory>
        ensures { IfOk result (λ text. text ≡ words.text_of (word_of self.now)) }
    {
        bytes_of(alloc, self.text.items())
    }

    /// The word's fields (2.6.5), where IFS has this value; None is an unset one.
    pub fn fields_of(&self, alloc: Global, ifs: Option<&[u8]>) -> Result<List<Flagged>, Memory>
        ensures { IfOk result (λ all. all ≡ words.fields_of (option_copied ifs.entry) (word_of self.now)) }
    {
        let mut all = Vec::new(alloc);
        for text in self.before.as_slice() {
            append_fields(alloc, text, ifs, &mut all)?;
        }
        append_fields(alloc, &self.text, ifs, &mut all)?;
        Ok(List::from_vec(all))
    }
}
