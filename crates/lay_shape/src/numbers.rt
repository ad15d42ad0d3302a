//! Numbers of contexts.

ghost use Rattle.std.specs.Prelude.{◌≡◌, ◌++◌, ◌∷◌, [], OnOk};

use lay_units::NoMemory;
use std::alloc::Global;
use std::marker::Model;

/// Numbers of contexts, which contracts see as the list of them.
#[derive(Drop)]
pub(crate) struct Numbers {
    items: Vec<usize>,
}

impl Model for Numbers {
    ghost use Rattle.std.specs.Prelude.{List, ℕ};

    ghost Value = { List ℕ };

    ghost view = { λ p. p.items.items };
}

impl Numbers {
    pub(crate) fn none(alloc: Global) -> Numbers
        ensures { result ≡ [] }
    {
        Numbers {
            items: Vec::new(alloc),
        }
    }

    /// The numbers, in order.
    pub(crate) fn as_slice(&self) -> &[usize]
        ensures { result.now ≡ self.now }
    {
        self.items.as_slice()
    }

    /// Adds one.
    pub(crate) fn push(&mut self, number: usize) -> Result<(), NoMemory>
        ensures { OnOk result (self.new ≡ self.old ++ number ∷ []) }
    {
        self.items.push(number)?;
        Ok(())
    }
}
