//! A node of a document, to read.

ghost use Rattle.std.specs.Prelude.{◌≡◌};

use crate::node::{Kind, Node, NodeId};
use lay_style::Decls;
use lay_units::Text;
use std::marker::Model;

/// A node of a document, lent to a reader.
#[derive(Drop)]
pub struct NodeRef<'a> {
    node: &'a Node,
    parent: NodeId,
}

impl<'a> Model for NodeRef<'a> {
    ghost use Rattle.lay_doc.specs.NodeRefs.{NodeRefValue};

    ghost Value = { NodeRefValue };

    ghost view = { λ r. record { node = r.node.now; parent = r.parent } };
}

impl<'a> NodeRef<'a> {
    /// The reference to a node whose parent has this id.
    pub(crate) fn new(node: &'a Node, parent: NodeId) -> NodeRef<'a>
        ensures { result ≡ record { node = node.now; parent = parent } }
    {
        NodeRef { node, parent }
    }

    /// Its id, from 1 on.
    pub fn id(&self) -> NodeId
        ensures { result ≡ self.now.node.id }
    {
        self.node.id
    }

    /// The id of its parent; 0 for the root.
    pub fn parent(&self) -> NodeId
        ensures { result ≡ self.now.parent }
    {
        self.parent
    }

    /// The place of its parent; 0 for the root.
    pub fn parent_place(&self) -> usize
        ensures { result ≡ self.now.node.parent }
    {
        self.node.parent
    }

    /// Its depth, from 1 for the root to 128.
    pub fn depth(&self) -> u32
        ensures { result ≡ self.now.node.depth }
    {
        self.node.depth
    }

    /// What it is.
    pub fn kind(&self) -> &'a Kind
        ensures { result.now ≡ self.now.node.kind }
    {
        &self.node.kind
    }

    /// Its declarations; a text has none.
    pub fn decls(&self) -> &'a Decls
        ensures { result.now ≡ self.now.node.decls }
    {
        &self.node.decls
    }

    /// Its text; only a text has any.
    pub fn text(&self) -> &'a Text
        ensures { result.now ≡ self.now.node.text }
    {
        &self.node.text
    }
}
