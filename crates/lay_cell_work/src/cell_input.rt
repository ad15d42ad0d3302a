//! What a cell is given.

ghost use Rattle.std.specs.Prelude.{◌≡◌};
ghost use Rattle.lay_cell_work.specs.CellInputFits.{CellInputFits};

use crate::root_input::RootInput;
use lay_shape::CellKey;
use std::marker::Model;

/// What is given to each root of a context: first to its own box, then to the anonymous tables and cells in the order of their boxes.
#[derive(Drop)]
pub struct CellInput {
    key: CellKey,
    roots: Vec<RootInput>,
}

impl Model for CellInput {
    ghost use Rattle.lay_cell_work.specs.CellInputFits.{CellInputFits};
    ghost use Rattle.lay_cell_work.specs.CellInputs.{CellInput as Plain};

    ghost Value = { Plain };

    ghost view = { λ i. record { key = i.key; roots = i.roots.items } };

    ghost invariant = { λ i. CellInputFits (record { key = i.key; roots = i.roots.items }) };
}

impl CellInput {
    /// These.
    pub fn new(key: CellKey, roots: Vec<RootInput>) -> CellInput
        requires { CellInputFits (record { key = key; roots = roots.items }) }
        ensures { result ≡ record { key = key; roots = roots.items } }
    {
        CellInput { key, roots }
    }

    /// The key of the cell.
    pub fn key(&self) -> CellKey
        ensures { result ≡ self.now.key }
    {
        self.key
    }

    /// What each root is given.
    pub fn roots(&self) -> &[RootInput]
        ensures roots { result.now ≡ self.now.roots }
        ensures fits { CellInputFits self.now }
    {
        self.roots.as_slice()
    }
}
