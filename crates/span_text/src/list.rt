//! A vector that contracts see as the list of its items.

ghost use Rattle.std.specs.Prelude.{◌≡◌, [], ◌∷◌, ◌++◌, ◌<◌, length, slice_get, Some, OnOk, OnErr};
ghost use Rattle.std.specs.Cmp.Lexicographic.{pointwise, lists_per};

use crate::fault::Memory;
use std::alloc::Global;
use std::marker::Model;

/// Items in their order. A type may hold a list of itself, so the nodes of a syntax tree hold their children so.
#[derive(Debug, Drop)]
pub struct List<T> {
    cells: Vec<T>,
}

impl<T> Model for List<T> {
    ghost use Rattle.std.specs.Prelude.{List};
    ghost use Rattle.std.specs.Coded.{coded_list};

    ghost Value = { List T };

    ghost coded = { coded_list T.code };

    ghost view = { λ l. l.cells.items };
}

impl<T> List<T> {
    /// The list without items. It takes no memory.
    pub fn new(alloc: Global) -> List<T>
        ensures { result ≡ [] }
    {
        List {
            cells: Vec::new(alloc),
        }
    }

    pub fn len(&self) -> usize
        ensures { result ≡ length self.now }
    {
        self.cells.len()
    }

    /// The item at this index, from 0.
    pub fn at(&self, i: usize) -> &T
        requires { i < length self.now }
        ensures { slice_get self.now i ≡ Some result.now }
    {
        &self.cells[i]
    }

    pub fn as_slice(&self) -> &[T]
        ensures { result.now ≡ self.now }
    {
        &self.cells
    }

    /// The list of these items. It takes no memory.
    pub fn from_vec(items: Vec<T>) -> List<T>
        ensures { result ≡ items.items }
    {
        List { cells: items }
    }

    /// The items of this list. It takes no memory.
    pub fn into_vec(self) -> Vec<T>
        ensures { result.items ≡ self }
    {
        let List { cells } = self;
        cells
    }
}

impl<T: Drop> List<T> {
    /// Puts an item behind the others. Where memory is missing the list stays as it is and the item is dropped.
    pub fn push(&mut self, item: T) -> Result<(), Memory>
        ensures ok { OnOk result (self.new ≡ self.old ++ item ∷ []) }
        ensures err { OnErr result (self.new ≡ self.old) }
    {
        // Most lists of a tree have one item, so the first gets room for itself alone.
        if self.cells.is_empty() {
            self.cells.reserve_exact(1)?;
        }
        self.cells.push(item)?;
        Ok(())
    }
}

impl<T: PartialEq> PartialEq for List<T> {
    ghost eq = { pointwise T.eq };

    ghost laws = { lists_per T.laws };

    fn eq(&self, other: &List<T>) -> bool {
        PartialEq::eq(&self.cells.as_slice(), &other.cells.as_slice())
    }
}
