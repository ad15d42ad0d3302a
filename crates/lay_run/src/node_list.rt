//! Lists of nodes' ids.

ghost use Rattle.std.specs.Prelude.{◌≡◌, ◌++◌, ◌∷◌, ◌==◌, [], length, OnOk, OnErr};

use lay_doc::NodeId;
use lay_units::NoMemory;
use std::alloc::Global;
use std::marker::Model;

/// Ids of nodes, in order.
#[derive(Drop)]
pub struct NodeList {
    items: Vec<NodeId>,
}

impl Model for NodeList {
    ghost use Rattle.std.specs.Prelude.{List};
    ghost use Rattle.lay_doc.specs.declared.node.NodeId.{NodeId};

    ghost Value = { List NodeId };

    ghost view = { λ l. l.items.items };
}

impl NodeList {
    /// No ids; nothing is allocated.
    pub fn new(alloc: Global) -> NodeList
        ensures { result ≡ [] }
    {
        NodeList {
            items: Vec::new(alloc),
        }
    }

    /// Adds an id as the last one. On an error all is as before.
    pub fn push(&mut self, id: NodeId) -> Result<(), NoMemory>
        ensures ok { OnOk result (self.new ≡ self.old ++ id ∷ []) }
        ensures err { OnErr result (self.new ≡ self.old) }
    {
        self.items.push(id)?;
        Ok(())
    }

    /// How many there are.
    pub fn len(&self) -> usize
        ensures { result ≡ length self.now }
    {
        self.items.len()
    }

    /// Whether there are none.
    pub fn is_empty(&self) -> bool
        ensures { result ≡ (length self.now == 0) }
    {
        self.items.is_empty()
    }

    /// The ids, in order.
    pub fn as_slice(&self) -> &[NodeId]
        ensures { result.now ≡ self.now }
    {
        self.items.as_slice()
    }
}
