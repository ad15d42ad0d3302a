//! Nodes.

ghost use Rattle.std.specs.Prelude.{◌≡◌, ◌≤◌, [], pos, ◌≤ℤ◌, IfOk};
ghost use Rattle.lay_doc.specs.Document.{becomes};
ghost use Rattle.lay_doc.specs.NewNodes.{is_element, is_text};

use lay_style::Decls;
use lay_units::{NoMemory, Text, Unit};
use std::alloc::Global;
use std::marker::Model;

/// The id of a node. That of a node of a document is from 1 on.
#[derive(Clone, Copy, Debug, PartialEq, Eq, PartialOrd, Ord)]
pub struct NodeId(pub u32);

/// What a node is.
#[derive(Clone, Copy, Debug, PartialEq, Eq)]
pub enum Kind {
    /// An element, with the spans that it has as a table cell or a column: 1 to 64.
    Element { colspan: u32, rowspan: u32 },
    /// A text.
    Text,
    /// A replaced element, with its natural size: 1 to 1,000,000 px each way.
    Replaced { w: Unit, h: Unit },
}

impl Kind {
    /// Whether it is an element.
    pub fn is_element(&self) -> bool
        ensures { result ≡ is_element self.now }
    {
        matches!(self, Kind::Element { .. })
    }

    /// Whether it is a text.
    pub fn is_text(&self) -> bool
        ensures { result ≡ is_text self.now }
    {
        matches!(self, Kind::Text)
    }
}

/// A node that is to be put into a document.
#[derive(Drop)]
pub struct NewNode {
    id: NodeId,
    kind: Kind,
    decls: Decls,
    text: Text,
}

impl Model for NewNode {
    ghost use Rattle.lay_doc.specs.NewNodes.{NewNodeValue, IsNodeForm};

    ghost Value = { NewNodeValue };

    ghost view = { λ n. record { id = n.id; kind = n.kind; decls = n.decls; text = n.text } };

    ghost invariant = { λ n. IsNodeForm n.kind n.decls n.text };
}

impl NewNode {
    ghost use Rattle.lay_doc.specs.NewNodes.{IsNodeForm};

    /// An element, with spans of 1 to 64. Nothing is allocated.
    pub fn element(alloc: Global, id: NodeId, colspan: u32, rowspan: u32, decls: Decls) -> NewNode
        requires colspan_low { 1 ≤ colspan }
        requires colspan_high { colspan ≤ 64 }
        requires rowspan_low { 1 ≤ rowspan }
        requires rowspan_high { rowspan ≤ 64 }
        ensures { result ≡ record { id = id; kind = Kind.Element colspan rowspan; decls = decls; text = [] } }
    {
        NewNode {
            id,
            kind: Kind::Element { colspan, rowspan },
            decls,
            text: Text::new(String::new(alloc)),
        }
    }

    /// A text. Nothing is allocated.
    pub fn text(alloc: Global, id: NodeId, text: Text) -> NewNode
        ensures { result ≡ record { id = id; kind = Kind.Text; decls = []; text = text } }
    {
        NewNode {
            id,
            kind: Kind::Text,
            decls: Decls::new(alloc),
            text,
        }
    }

    /// A replaced element, with its natural size: 64 to 64,000,000 units each way. Nothing is allocated.
    pub fn replaced(alloc: Global, id: NodeId, w: Unit, h: Unit, decls: Decls) -> NewNode
        requires wide { pos 64 ≤ℤ w.0 }
        requires narrow { w.0 ≤ℤ pos 64000000 }
        requires high { pos 64 ≤ℤ h.0 }
        requires low { h.0 ≤ℤ pos 64000000 }
        ensures { result ≡ record { id = id; kind = Kind.Replaced w h; decls = decls; text = [] } }
    {
        NewNode {
            id,
            kind: Kind::Replaced { w, h },
            decls,
            text: Text::new(String::new(alloc)),
        }
    }

    /// The id that it is to have.
    pub fn id(&self) -> NodeId
        ensures { result ≡ self.now.id }
    {
        self.id
    }

    /// What it is. With its declarations and its text it is what a node of this kind may be.
    pub fn kind(&self) -> Kind
        ensures kind { result ≡ self.now.kind }
        ensures form { IsNodeForm self.now.kind self.now.decls self.now.text }
    {
        self.kind
    }

    /// Its declarations; a text has none.
    pub fn decls(&self) -> &Decls
        ensures { result.now ≡ self.now.decls }
    {
        &self.decls
    }

    /// Its text; only a text has any.
    pub fn content(&self) -> &Text
        ensures { result.now ≡ self.now.text }
    {
        &self.text
    }

    /// An equal node.
    pub fn copy(&self, alloc: Global) -> Result<NewNode, NoMemory>
        ensures { IfOk result (λ n. n ≡ self.now) }
    {
        let decls = self.decls.copy(alloc)?;
        let text = self.text.copy(alloc)?;
        Ok(NewNode {
            id: self.id,
            kind: self.kind,
            decls,
            text,
        })
    }

    /// The node that it becomes below the node at the place `parent`, at a depth.
    pub(crate) fn into_node(self, parent: usize, depth: u32) -> Node
        ensures node { result ≡ becomes self parent depth }
        ensures form { IsNodeForm self.kind self.decls self.text }
    {
        Node {
            id: self.id,
            parent,
            depth,
            kind: self.kind,
            decls: self.decls,
            text: self.text,
        }
    }
}

/// A node of a document, with the place of its parent (0 for the root) and its depth (1 for the root).
#[derive(Drop)]
pub struct Node {
    pub id: NodeId,
    pub parent: usize,
    pub depth: u32,
    pub kind: Kind,
    pub decls: Decls,
    pub text: Text,
}

impl Node {
    /// An equal node.
    pub fn copy(&self, alloc: Global) -> Result<Node, NoMemory>
        ensures { IfOk result (λ n. n ≡ self.now) }
    {
        let decls = self.decls.copy(alloc)?;
        let text = self.text.copy(alloc)?;
        Ok(Node {
            id: self.id,
            parent: self.parent,
            depth: self.depth,
            kind: self.kind,
            decls,
            text,
        })
    }
}

/// Equal nodes.
pub(crate) fn copy_nodes(alloc: Global, nodes: &[Node]) -> Result<Vec<Node>, NoMemory>
    ensures { IfOk result (λ v. v.items ≡ nodes.now) }
{
    let mut copies = Vec::new(alloc);
    for node in nodes {
        copies.push(node.copy(alloc)?)?;
    }
    Ok(copies)
}
