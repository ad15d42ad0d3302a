//! Vertical margins of a block formatting context, and what may part them.

ghost use Rattle.std.specs.Prelude.{◌≡◌};

use lay_units::Unit;
use std::marker::Model;

/// An entry of a block formatting context that is read in document order for its vertical margins.
#[derive(Clone, Copy, Debug, PartialEq, Eq)]
pub enum Edge {
    /// A vertical margin.
    Margin(Unit),
    /// A border, a padding, a height, a line or a solid box. It parts margins, also where its amount is 0.
    Solid(Unit),
    /// The place of a box or a float with this number. It parts nothing.
    Mark(u32),
    /// Clearance of the box with this number, before the margins of that box.
    Clear(u32),
}

/// A run of adjoining margins: the place of its first edge in the list of edges, counted from 0, and the
/// number of its edges, from 1.
#[derive(Clone, Copy, Debug, PartialEq, Eq)]
pub struct Run {
    pub first: u32,
    pub len: u32,
}

/// Runs, in the order in which they stand.
#[derive(Drop, Debug)]
pub struct RunList {
    items: Vec<Run>,
}

impl Model for RunList {
    ghost use Rattle.std.specs.Prelude.{List};
    ghost use Rattle.lay_margins.specs.declared.edge.Run.{Run};

    ghost Value = { List Run };

    ghost view = { λ l. l.items.items };
}

impl RunList {
    /// The list of these runs, which is taken over without a copy.
    pub fn new(items: Vec<Run>) -> RunList
        ensures { result ≡ items.items }
    {
        RunList { items }
    }

    /// The runs, in order.
    pub fn as_slice(&self) -> &[Run]
        ensures { result.now ≡ self.now }
    {
        self.items.as_slice()
    }

    /// The vector that the list was made of, without a copy.
    pub fn into_vec(self) -> Vec<Run>
        ensures { result.items ≡ self }
    {
        self.items
    }
}
