//! Lists of the records that the call answers.

ghost use Rattle.std.specs.Prelude.{◌≡◌};

use crate::row::Ended;
use lay_floats::NodePlace;
use std::marker::Model;

/// The lines of a container, in order.
#[derive(Drop)]
pub struct RowList {
    items: Vec<Ended>,
}

impl Model for RowList {
    ghost use Rattle.std.specs.Prelude.{List};
    ghost use Rattle.lay_lines.specs.declared.row.Ended.{Ended};

    ghost Value = { List Ended };

    ghost view = { λ l. l.items.items };
}

impl RowList {
    /// The list of these, which is taken over without a copy.
    pub fn new(items: Vec<Ended>) -> RowList
        ensures { result ≡ items.items }
    {
        RowList { items }
    }

    pub fn as_slice(&self) -> &[Ended]
        ensures { result.now ≡ self.now }
    {
        self.items.as_slice()
    }
}

/// The places of floats that lines met, in order.
#[derive(Drop)]
pub struct NodePlaceList {
    items: Vec<NodePlace>,
}

impl Model for NodePlaceList {
    ghost use Rattle.std.specs.Prelude.{List};
    ghost use Rattle.lay_floats.specs.declared.requests.NodePlace.{NodePlace};

    ghost Value = { List NodePlace };

    ghost view = { λ l. l.items.items };
}

impl NodePlaceList {
    /// The list of these, which is taken over without a copy.
    pub fn new(items: Vec<NodePlace>) -> NodePlaceList
        ensures { result ≡ items.items }
    {
        NodePlaceList { items }
    }

    pub fn as_slice(&self) -> &[NodePlace]
        ensures { result.now ≡ self.now }
    {
        self.items.as_slice()
    }
}
