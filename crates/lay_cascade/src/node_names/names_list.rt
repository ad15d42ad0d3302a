//! Lists of names.

ghost use Rattle.std.specs.Prelude.{◌≡◌, ◌++◌, ◌∷◌, ◌==◌, [], length, OnOk, OnErr};

use crate::node_names::names::Names;
use lay_units::NoMemory;
use std::alloc::Global;
use std::marker::Model;

/// What nodes are called, in their order.
#[derive(Drop)]
pub struct NamesList {
    items: Vec<Names>,
}

impl Model for NamesList {
    ghost use Rattle.std.specs.Prelude.{List};
    ghost use Rattle.lay_cascade.specs.declared.node_names.names.Names.{Names};

    ghost Value = { List Names };

    ghost view = { λ l. l.items.items };
}

impl NamesList {
    /// No names; nothing is allocated.
    pub fn new(alloc: Global) -> NamesList
        ensures { result ≡ [] }
    {
        NamesList {
            items: Vec::new(alloc),
        }
    }

    /// Adds what a node is called as the last one. On an error all is as before.
    pub fn push(&mut self, names: Names) -> Result<(), NoMemory>
        ensures ok { OnOk result (self.new ≡ self.old ++ names ∷ []) }
        ensures err { OnErr result (self.new ≡ self.old) }
    {
        self.items.push(names)?;
        Ok(())
    }

    /// How many there are.
    pub fn len(&self) -> usize
        ensures { result ≡ length self.now }
    {
        self.items.len()
    }

    /// Whether there are none.
    pub fn is_empty(&self) -> bool
        ensures { result ≡ (length self.now == 0) }
    {
        self.items.is_empty()
    }

    /// What the nodes are called, in order.
    pub fn as_slice(&self) -> &[Names]
        ensures { result.now ≡ self.now }
    {
        self.items.as_slice()
    }

    /// The names themselves, in order.
    pub fn into_vec(self) -> Vec<Names>
        ensures { result.items ≡ self }
    {
        self.items
    }
}
