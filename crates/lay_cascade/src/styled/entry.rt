//! Selectors of a sheet.

ghost use Rattle.std.specs.Prelude.{◌≡◌, ◌++◌, ◌∷◌, [], OnOk};

use lay_units::NoMemory;
use std::alloc::Global;
use std::marker::Model;

/// A selector of a sheet, by the place of its rule set and its place among that one's selectors.
#[derive(Clone, Copy)]
pub struct Entry {
    pub rule: usize,
    pub selector: usize,
}

/// Selectors, in order.
#[derive(Drop)]
pub(crate) struct EntryList {
    items: Vec<Entry>,
}

impl Model for EntryList {
    ghost use Rattle.std.specs.Prelude.{List};
    ghost use Rattle.lay_cascade.specs.declared.styled.entry.Entry.{Entry};

    ghost Value = { List Entry };

    ghost view = { λ l. l.items.items };
}

impl EntryList {
    /// No selectors; nothing is allocated.
    pub(crate) fn new(alloc: Global) -> EntryList
        ensures { result ≡ [] }
    {
        EntryList {
            items: Vec::new(alloc),
        }
    }

    /// Adds a selector as the last one.
    pub(crate) fn push(&mut self, entry: Entry) -> Result<(), NoMemory>
        ensures { OnOk result (self.new ≡ self.old ++ entry ∷ []) }
    {
        self.items.push(entry)?;
        Ok(())
    }

    /// The selectors, in order.
    pub(crate) fn as_slice(&self) -> &[Entry]
        ensures { result.now ≡ self.now }
    {
        self.items.as_slice()
    }
}
