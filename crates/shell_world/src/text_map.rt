//! Maps whose keys are texts, in the order of their bytes.

ghost use Rattle.std.specs.Prelude.{◌≡◌, [], ◌<◌, ◌≤◌, length, drop, IsTrue, OnOk, OnErr};
ghost use Rattle.std.specs.Option.{option_copied};
ghost use Rattle.std.specs.List.{prefix_len};
ghost use Rattle.shell_world.specs.Texts.{lookup, insert, is_below, first_is};

use span_text::{List, Memory, Text};
use std::alloc::Global;
use std::marker::Model;

/// Entries in the order of their keys, none of which stands twice: contracts see the list of them.
#[derive(Debug, Drop)]
pub struct TextMap<V> {
    entries: Vec<(Text, V)>,
}

impl<V> Model for TextMap<V> {
    ghost use Rattle.std.specs.Prelude.{List, ℕ};

    ghost Value = { List (List ℕ × V) };

    ghost view = { λ m. m.entries.items };
}

impl<V> TextMap<V> {
    /// The map without entries. It takes no memory.
    pub fn new(alloc: Global) -> TextMap<V>
        ensures { result ≡ [] }
    {
        TextMap {
            entries: Vec::new(alloc),
        }
    }

    pub fn entries(&self) -> &[(Text, V)]
        ensures { result.now ≡ self.now }
    {
        &self.entries
    }

    /// The value at this key.
    pub fn get(&self, key: &[u8]) -> Option<&V>
        ensures { option_copied result ≡ lookup key.now self.now }
    {
        for entry in &self.entries {
            if key.cmp(&entry.0.bytes()).is_eq() {
                return Some(&entry.1);
            }
        }
        None
    }

    /// How many entries stand before the place of this key.
    fn place(&self, key: &[u8]) -> usize
        ensures place { result ≡ prefix_len (λ e. is_below key.now e.0) self.now }
        ensures within { result ≤ length self.now }
    {
        for (i, entry) in self.entries.iter().enumerate() {
            if !key.cmp(&entry.0.bytes()).is_gt() {
                return i;
            }
        }
        self.entries.len()
    }

    /// Whether the entry at this place is there and at this key.
    fn is_at(&self, place: usize, key: &[u8]) -> bool
        ensures is { result ≡ first_is key.now (drop place self.now) }
        ensures within { IsTrue result → place < length self.now }
    {
        place < self.entries.len() && key.cmp(&self.entries[place].0.bytes()).is_eq()
    }

    /// The map of entries that another map has, in their order there. It takes no memory.
    pub fn from_list(entries: List<(Text, V)>) -> TextMap<V>
        ensures { result ≡ entries }
    {
        TextMap {
            entries: entries.into_vec(),
        }
    }

    /// The entries in their order. It takes no memory.
    pub fn into_list(self) -> List<(Text, V)>
        ensures { result ≡ self }
    {
        let TextMap { entries } = self;
        List::from_vec(entries)
    }
}

impl<V: Drop> TextMap<V> {
    /// Puts the value at this key, in the place of one that may be there. Where memory is missing the map stays as
    /// it is, and the value is dropped.
    pub fn insert(&mut self, key: Text, value: V) -> Result<(), Memory>
        ensures ok { OnOk result (self.new ≡ insert key value self.old) }
        ensures err { OnErr result (self.new ≡ self.old) }
    {
        let place = self.place(key.bytes());
        if self.is_at(place, key.bytes()) {
            self.entries[place] = (key, value);
            return Ok(());
        }
        self.entries.insert(place, (key, value))?;
        Ok(())
    }
}
