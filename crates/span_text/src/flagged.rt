//! Texts whose bytes tell where they come from.

ghost use Rattle.std.specs.Prelude.{◌≡◌, [], ◌∷◌, ◌++◌, IfOk, OnOk, OnErr};

use crate::fault::Memory;
use std::alloc::Global;
use std::marker::Model;

/// Where a byte comes from.
#[derive(Clone, Copy, Debug, PartialEq, Eq)]
pub enum Mark {
    /// It stands unquoted in the script.
    Written,
    /// It stood in quotes or behind a backslash.
    Quoted,
    /// An unquoted expansion gave it.
    Value,
}

/// One part of a flagged text.
#[derive(Clone, Copy, Debug, PartialEq, Eq)]
pub enum Item {
    Byte(u8, Mark),
    /// An empty quoted part, as `""`: it has no byte, and a field that has it is there without any.
    Quote,
}

/// A text between its expansion and the removal of its quotes, which contracts see as the list of its items.
#[derive(Debug, Drop)]
pub struct Flagged {
    cells: Vec<Item>,
}

impl Model for Flagged {
    ghost use Rattle.std.specs.Prelude.{List};
    ghost use Rattle.span_text.specs.declared.flagged.Item.{Item};

    ghost Value = { List Item };

    ghost view = { λ f. f.cells.items };
}

impl Flagged {
    /// The text without items. It takes no memory.
    pub fn new(alloc: Global) -> Flagged
        ensures { result ≡ [] }
    {
        Flagged {
            cells: Vec::new(alloc),
        }
    }

    /// A text of its own with these items.
    pub fn copy(alloc: Global, items: &[Item]) -> Result<Flagged, Memory>
        ensures { IfOk result (λ f. f ≡ items.now) }
    {
        Ok(Flagged {
            cells: Vec::from_slice(alloc, items)?,
        })
    }

    pub fn items(&self) -> &[Item]
        ensures { result.now ≡ self.now }
    {
        &self.cells
    }

    /// Puts an item behind the others. Where memory is missing the text stays as it is.
    pub fn push(&mut self, item: Item) -> Result<(), Memory>
        ensures ok { OnOk result (self.new ≡ self.old ++ item ∷ []) }
        ensures err { OnErr result (self.new ≡ self.old) }
    {
        self.cells.push(item)?;
        Ok(())
    }
}

#[cfg(test)]
mod tests {
    use super::*;
    use std::test::Fail;

    #[test]
    fn items_stay_in_order(rt: HostRuntime) -> Result<(), Fail> {
        let mut text = Flagged::new(rt.alloc());
        text.push(Item::Quote)?;
        text.push(Item::Byte(b'a', Mark::Value))?;
        let items = [Item::Quote, Item::Byte(b'a', Mark::Value)];
        assert_eq!(rt; text.items(), items.as_slice());
        let same = Flagged::copy(rt.alloc(), items.as_slice())?;
        assert_eq!(rt; same.items(), text.items());
        Ok(())
    }
}
